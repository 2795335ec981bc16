//! Texts that are cut at a mark.

ghost use Rattle.std.specs.Prelude.{◌≡◌, option_map};
ghost use Rattle.bx_plan.specs.Reading.{cut, parts_of};
ghost use Rattle.bx_plan.specs.Parts.{parts_left, IsPlace};

use memchr::memchr;

/// The place of the first `mark`.
#[tactic(auto, using(crate::proofs::Cuts::placed))]
fn place_of(text: &[u8], mark: u8) -> Option<usize>
    ensures { IsPlace mark text.now result }
{
    memchr(mark, text)
}

/// The text before the first `mark`, and the text behind it.
#[tactic(auto, using(crate::proofs::Cuts::cut_some))]
pub fn cut(text: &[u8], mark: u8) -> Option<(&[u8], &[u8])>
    ensures { option_map (λ p. (p.0.now, p.1.now)) result ≡ cut mark text.now }
{
    let at = place_of(text, mark)?;
    Some((&text[..at], &text[at + 1..]))
}

/// The parts of a text that is cut at each `mark`: at least one, and each may be empty.
#[derive(Drop)]
pub(crate) struct Parts<'a> {
    rest: Option<&'a [u8]>,
    mark: u8,
}

impl<'a> Parts<'a> {
    pub(crate) fn new(text: &'a [u8], mark: u8) -> Parts<'a>
        ensures { parts_left result ≡ parts_of mark text.entry.now }
    {
        Parts {
            rest: Some(text),
            mark,
        }
    }
}

impl<'a> Iterator for Parts<'a> {
    type Item = &'a [u8];

    ghost use Rattle.std.specs.Iterator.{YieldsFirstRef, item_count};
    ghost use Rattle.bx_plan.specs.Parts.{parts_left};

    ghost next_gives = { YieldsFirstRef parts_left };

    ghost remaining = { item_count parts_left };

    #[tactic(auto, using(crate::proofs::Cuts::parts_none, crate::proofs::Cuts::parts_some))]
    fn next(&mut self) -> Option<&'a [u8]> {
        let text = self.rest?;
        match cut(text, self.mark) {
            Some((part, behind)) => {
                self.rest = Some(behind);
                Some(part)
            }
            None => {
                self.rest = None;
                Some(text)
            }
        }
    }
}
