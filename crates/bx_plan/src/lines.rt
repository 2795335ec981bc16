//! Lines of a plan.

ghost use Rattle.std.specs.Prelude.{◌≡◌, true, false, None, MatchOption};
ghost use Rattle.std.specs.List.{list_all};
ghost use Rattle.bx_plan.specs.Reading.{is_name_byte, is_name, tail_of, schedule_of, line_of};
ghost use Rattle.bx_plan.specs.Lines.{IsHeading, Reads};
ghost use Rattle.bx_plan.specs.Made.{MakesThese};

use crate::entries::{Entries, MOST_CHOICES, read_entries};
use crate::parts::cut;
use std::alloc::Global;
use std::str;

/// How many bytes a name may have.
const MOST_NAME: usize = 64;

/// What a line says.
pub(crate) enum Line<'a> {
    /// It is empty, or a comment.
    Nothing,
    /// It names a schedule.
    Schedule(Heading<'a>),
}

/// A line that names a schedule.
#[derive(Drop)]
pub(crate) struct Heading<'a> {
    pub(crate) name: &'a str,
    pub(crate) entries: Entries,
}

/// Whether a name may hold this byte.
fn is_name_byte(byte: u8) -> bool
    ensures { result ≡ is_name_byte byte }
{
    byte.is_ascii_alphanumeric() || byte == b'_' || byte == b'-'
}

/// Whether a name may hold these bytes.
fn are_name_bytes(name: &[u8]) -> bool
    ensures { result ≡ list_all is_name_byte name.now }
{
    name.iter().all(|byte| is_name_byte(*byte))
}

/// Whether the bytes are 1 to 64 ASCII letters, digits, `_` and `-`.
fn is_name(name: &[u8]) -> bool
    ensures { result ≡ is_name name.now }
{
    !name.is_empty() && name.len() <= MOST_NAME && are_name_bytes(name)
}

/// The name of a schedule that the bytes spell: 1 to 64 ASCII letters, digits, `_` and `-`.
#[tactic(auto, using(crate::proofs::Names::name_is_utf8))]
pub fn name_of(name: &[u8]) -> Option<&str>
    ensures { MatchOption result (is_name name.now ≡ false)
        (λ text. (text.now ≡ name.now) × (is_name name.now ≡ true)) }
{
    if !is_name(name) {
        return None;
    }
    match str::from_utf8(name) {
        Ok(text) => Some(text),
        Err(_) => unreachable!(),
    }
}

/// Reads what stands behind a colon: nothing, or a space and entries.
fn read_tail(alloc: Global, tail: &[u8]) -> Option<Entries>
    ensures { MatchOption result (tail_of tail.now ≡ None)
        (λ made. MakesThese made (tail_of tail.now)) }
{
    match tail {
        [] => Some(Entries::new(alloc, 0)),
        [b' ', words @ ..] => read_entries(alloc, words, MOST_CHOICES),
        _ => None,
    }
}

/// Reads a line that names a schedule.
fn heading_of(alloc: Global, text: &[u8]) -> Option<Heading<'_>>
    ensures { MatchOption result (schedule_of text.now ≡ None)
        (λ heading. IsHeading heading (schedule_of text.now)) }
{
    let (name, tail) = cut(text, b':')?;
    let name = name_of(name)?;
    let entries = read_tail(alloc, tail)?;
    Some(Heading { name, entries })
}

/// Reads one line, without its line feed.
#[tactic(auto, using(crate::proofs::Names::is_utf8_where, crate::proofs::Names::not_utf8_where))]
pub(crate) fn line_of(alloc: Global, text: &[u8]) -> Option<Line<'_>>
    ensures { MatchOption result (line_of text.now ≡ None) (λ line. Reads line text.now) }
{
    match text {
        [] => Some(Line::Nothing),
        [b'#', ..] if str::from_utf8(text).is_ok() => Some(Line::Nothing),
        [b'#', ..] => None,
        _ => Some(Line::Schedule(heading_of(alloc, text)?)),
    }
}
