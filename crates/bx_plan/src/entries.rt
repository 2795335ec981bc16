//! Entries: a choice, and how many times it is made.

ghost use Rattle.std.specs.Prelude.{◌≡◌, ◌^◌, ◌<◌, ◌≤◌, ◌++◌, ◌∷◌, [], List, length, option_map, IsSome, MatchOption, None, Ok};
ghost use Rattle.bx_terms.specs.Outcomes.{Gives};
ghost use Rattle.bx_plan.specs.Entry.{Entry};
ghost use Rattle.bx_plan.specs.Made.{Make, MakesThese};
ghost use Rattle.bx_plan.specs.Firsts.{choice_first, deliver_first, entry_first, first_view, next_first, times_first};
ghost use Rattle.bx_plan.specs.Reading.{choice_of, entries_of, spread};

use crate::numbers::{number_first, number_of};
use crate::parts::cut;
use crate::schedules::{MOST, Schedule};
use bx_terms::Fault;
use bx_world::Choice;
use std::alloc::Global;

/// The greatest pid that a plan may name.
pub(crate) const MOST_PID: u32 = 1023;

/// How many choices a schedule of a plan may make.
pub(crate) const MOST_CHOICES: usize = 100_000;

/// How many times one entry may make its choice.
pub(crate) const MOST_TIMES: u32 = 100_000;

/// The choice that the text spells: `r0`, `d0>1` or `e0`, by pids from 0 to 1023.
pub fn choice_of(text: &[u8]) -> Option<Choice>
    ensures { result ≡ choice_of text.now }
{
    match text {
        [b'r', pid @ ..] => Some(Choice::Run(number_of(pid, MOST_PID)?)),
        [b'd', pids @ ..] => {
            let (from, to) = cut(pids, b'>')?;
            Some(Choice::Deliver(number_of(from, MOST_PID)?, number_of(to, MOST_PID)?))
        }
        [b'e', pid @ ..] => Some(Choice::Expire(number_of(pid, MOST_PID)?)),
        _ => None,
    }
}

/// A delivery from a process, by what stands behind its pid, and what stands behind the delivery.
fn deliver_first(from: u32, behind: &[u8]) -> Option<(Choice, &[u8])>
    ensures { option_map (λ r. (r.0, r.1.now)) result ≡ deliver_first (from, behind.now) }
{
    let [b'>', pid @ ..] = behind else {
        return None;
    };
    let (to, rest) = number_first(pid, MOST_PID)?;
    Some((Choice::Deliver(from, to), rest))
}

/// The choice at the head of a text, and what stands behind it.
fn choice_first(text: &[u8]) -> Option<(Choice, &[u8])>
    ensures { option_map (λ r. (r.0, r.1.now)) result ≡ choice_first text.now }
{
    let [kind, pids @ ..] = text else {
        return None;
    };
    let (pid, rest) = number_first(pids, MOST_PID)?;
    match *kind {
        b'r' => Some((Choice::Run(pid), rest)),
        b'd' => deliver_first(pid, rest),
        b'e' => Some((Choice::Expire(pid), rest)),
        _ => None,
    }
}

/// How often an entry makes its choice, by what stands behind that, and what stands behind the entry.
fn times_first(behind: &[u8]) -> Option<(u32, &[u8])>
    ensures { option_map (λ r. (r.0, r.1.now)) result ≡ times_first behind.now }
{
    let [b'*', times @ ..] = behind else {
        return Some((1, behind));
    };
    let (times, rest) = number_first(times, MOST_TIMES)?;
    if times == 0 {
        return None;
    }
    Some((times, rest))
}

/// The entry at the head of a text, and what stands behind it.
fn entry_first(text: &[u8]) -> Option<((Choice, u32), &[u8])>
    ensures { option_map (λ r. (r.0, r.1.now)) result ≡ entry_first text.now }
{
    let (choice, behind) = choice_first(text)?;
    let (times, rest) = times_first(behind)?;
    Some(((choice, times), rest))
}

/// The first entry of a text, where the text ends behind it or goes on by a space; and the text behind that space.
fn first_of(text: &[u8]) -> Option<((Choice, u32), Option<&[u8]>)>
    ensures { option_map first_view result ≡ next_first text.now }
{
    let (entry, rest) = entry_first(text)?;
    match rest {
        [] => Some((entry, None)),
        [b' ', more @ ..] => Some((entry, Some(more))),
        _ => None,
    }
}

/// What entries make: how many choices, no number past `usize::MAX`, and these choices.
#[derive(Drop)]
pub(crate) struct Entries {
    pub(crate) count: usize,
    pub(crate) schedule: Schedule,
    /// Whether the schedule is all of them.
    pub(crate) is_whole: bool,
}

impl Entries {
    /// No entries, and room for so many stretches where there is memory for it.
    pub(crate) fn new(alloc: Global, room: usize) -> Entries
        ensures { Make result [] }
    {
        Entries {
            count: 0,
            schedule: Schedule::with_room(alloc, room),
            is_whole: true,
        }
    }

    /// Adds an entry. Past `most` choices, and where memory runs out, they are counted on and not kept.
    #[tactic(auto, using(crate::proofs::Counts::count_push))]
    fn add(&mut self, choice: Choice, times: u32, most: usize)
        requires kept { length self.old.schedule ≤ self.old.count }
        requires some { 0 < times }
        requires few { most < 2 ^ 63 }
        ensures { (entries : List Entry) → Make self.old entries
            → Make self.new (entries ++ (choice, times) ∷ []) }
    {
        self.count = self.count.saturating_add(times as usize);
        if self.count > most {
            self.is_whole = false;
            return;
        }
        let Ok(()) = self.schedule.push_up_to(choice, self.count) else {
            self.is_whole = false;
            return;
        };
    }
}

/// Reads entries, with one space between one entry and the next, and keeps at most so many choices.
pub(crate) fn read_entries(alloc: Global, words: &[u8], most: usize) -> Option<Entries>
    requires { most < 2 ^ 63 }
    ensures { MatchOption result (entries_of words.now ≡ None)
        (λ made. MakesThese made (entries_of words.now)) }
{
    let room = words.len() / 3 + 1; // most entries have three bytes or more, with the space
    let mut entries = Entries::new(alloc, room.min(most));
    let mut left = Some(words);
    while let Some(text) = left {
        let ((choice, times), behind) = first_of(text)?;
        entries.add(choice, times, most);
        left = behind;
    }
    Some(entries)
}

/// The choices that a text's entries make, in order, with one space between one entry and the next. An entry is a choice, or a
/// choice with `*` and how many times it is made, from 1 to 100,000.
///
/// `None` exactly where the text is no such list. It can only run out of memory, and only where it is one.
pub fn read_choices(alloc: Global, text: &[u8]) -> Result<Option<Schedule>, Fault>
    ensures { Gives (IsSome (entries_of text.now)) (λ schedule. schedule) result
        (Ok (option_map spread (entries_of text.now))) }
{
    let Some(entries) = read_entries(alloc, text, MOST) else {
        return Ok(None);
    };
    if entries.is_whole {
        Ok(Some(entries.schedule))
    } else {
        Err(Fault::Memory)
    }
}
