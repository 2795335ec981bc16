//! Plans, and the reading of their texts.

ghost use Rattle.std.specs.Prelude.{◌≡◌, ◌↔◌, ◌^◌, ◌≤◌, ◌<◌, [], length, option_map, slice_get, slice_index_or, take, IsTrue, MatchOption, None, Ok};
ghost use Rattle.bx_terms.specs.Outcomes.{Gives};
ghost use Rattle.bx_plan.specs.Gathered.{placed, AreRows};
ghost use Rattle.bx_plan.specs.Planned.{choices_at, part_of, schedules};
ghost use Rattle.bx_plan.specs.Plans.{choices_of, plan_of, Shows, TakesMemory};
ghost use Rattle.bx_plan.specs.Reading.{parts_of};
ghost use Rattle.bx_plan.specs.View.{lines_view};

mod building;
mod counting;
mod ordering;

use crate::parts::Parts;
use crate::schedules::{Part, Schedule};
use building::Builder;
use bx_share::{Same, same_rows};
use bx_terms::{Fault, Name};
use std::alloc::Global;
use std::marker::Model;

/// A line that names a schedule.
#[derive(Drop)]
pub(crate) struct Line {
    name: Name,
    pub(crate) schedule: Schedule,
}

/// The number of a line, and how many choices its schedule begins with as the one before it in a row of such does.
#[derive(Clone, Copy, Debug, PartialEq, Eq)]
pub(crate) struct Row {
    pub(crate) line: usize,
    pub(crate) common: usize,
}

/// Named schedules, in the order of their lines, and a row of all of them in which those stand together that begin alike.
#[derive(Drop)]
pub struct Plan {
    pub(crate) lines: Vec<Line>,
    pub(crate) rows: Vec<Row>,
}

impl Model for Plan {
    ghost use Rattle.bx_plan.specs.Planned.{Planned};

    ghost Value = { Planned };

    ghost use Rattle.bx_plan.specs.Gathered.{AreRows};
    ghost use Rattle.bx_plan.specs.Plans.{choices_of};
    ghost use Rattle.bx_plan.specs.View.{lines_view};

    ghost view = { λ p. lines_view p.lines.items };

    ghost invariant = { λ p. AreRows (choices_of (lines_view p.lines.items)) p.rows.items };
}

impl Same for Line {
    fn same(&self, other: &Line) -> bool {
        self.name.same(&other.name) && self.schedule.same(&other.schedule)
    }
}

impl Plan {
    /// How many schedules there are.
    pub fn len(&self) -> usize
        ensures { result ≡ length (schedules self.now) }
    {
        self.lines.len()
    }

    /// The name of the schedule of this number, from 0; none past the last.
    pub fn label(&self, number: usize) -> Option<&str>
        ensures { option_map (λ name. name.now) result ≡ option_map (λ schedule. schedule.0)
            (slice_get (schedules self.now) number) }
    {
        let line = self.lines.get(number)?;
        Some(line.name.as_str())
    }

    /// The schedule of this number, from 0, each entry spread; none past the last.
    ///
    /// It takes time and memory in proportion to its runs.
    pub fn schedule(&self, alloc: Global, number: usize) -> Option<Result<Schedule, Fault>>
        ensures { MatchOption result (slice_get (schedules self.now) number ≡ None)
            (Shows (slice_get (schedules self.now) number)) }
    {
        let line = self.lines.get(number)?;
        Some(copy_of(alloc, line.schedule.all()))
    }

    /// The choices of the schedule of this number from one position up to the one before another.
    pub fn part(&self, number: usize, first: usize, past: usize) -> Part<'_>
        requires there { number < length (schedules self.now) }
        requires order { first ≤ past }
        requires within { past ≤ length (choices_at self.now number) }
        ensures part { result ≡ part_of first past (choices_at self.now number) }
        ensures few { past < 2 ^ 63 }
    {
        let schedule = &self.lines[number].schedule;
        let _length = schedule.len();
        schedule.part(first, past)
    }

    /// Whether the first so many choices of a schedule are so many of one of another plan. It takes time in proportion to their runs.
    pub fn same_front(
        &self,
        number: usize,
        past: usize,
        other: &Plan,
        line: usize,
        upto: usize,
    ) -> bool
        requires there { number < length self.now }
        requires past { past ≤ length (choices_at self.now number) }
        requires line { line < length other.now }
        requires upto { upto ≤ length (choices_at other.now line) }
        ensures { IsTrue result ↔ (take past (choices_at self.now number) ≡ take upto (choices_at other.now line)) }
    {
        let schedule = &self.lines[number].schedule;
        schedule.same_front(past, &other.lines[line].schedule, upto)
    }

    /// Whether both name the same schedules in the same order.
    #[tactic(auto, using(crate::proofs::Looking::lines_same, std::proofs::lemmas::Grind::common_steps))]
    pub fn same(&self, other: &Plan) -> bool
        ensures { IsTrue result ↔ (self.now ≡ other.now) }
    {
        same_rows(&self.lines, &other.lines)
    }
}

/// The schedule of a line.
#[tactic(auto, using(crate::proofs::Counting::line_choices, crate::proofs::Counting::lines_long))]
fn schedule_at(lines: &[Line], line: usize) -> &Schedule
    requires { line < length (choices_of (lines_view lines.now)) }
    ensures { result.now ≡ slice_index_or (choices_of (lines_view lines.now)) line [] }
{
    &lines[line].schedule
}

/// How many choices the schedule at a place of a row makes.
pub(crate) fn length_at(lines: &[Line], rows: &[Row], place: usize) -> usize
    requires rows { AreRows (choices_of (lines_view lines.now)) rows.now }
    requires place { place < length rows.now }
    ensures { result ≡ length (placed (choices_of (lines_view lines.now)) rows.now place) }
{
    schedule_at(lines, rows[place].line).len()
}

/// The schedule that makes these choices.
fn copy_of(alloc: Global, choices: Part<'_>) -> Result<Schedule, Fault>
    ensures { Gives (0 < length choices.entry) (λ schedule. schedule) result (Ok choices.entry) }
{
    let mut copy = Schedule::new(alloc);
    copy.append(choices)?;
    Ok(copy)
}

/// Reads a plan: UTF-8 lines, each ended by a line feed, which the last may lack.
///
/// An empty line and a comment, which begins with `#`, stand for nothing. Any other line names a schedule: a
/// name of 1 to 64 ASCII letters, digits, `_` and `-`, a colon, and for each entry one space and a choice.
/// `r0` runs process 0, `d0>1` delivers from 0 to 1 and `e0` ends the wait of 0, with pids to 1023; `*N` behind a choice makes it
/// N times, from 1 to 100,000. Numbers are decimal without leading zeros.
///
/// # Errors
///
/// The fault of the first line at fault, lines counting from 1: `BadLine` where it is none of these,
/// `NameTwice` where an earlier line has its name, `TooLong` where its schedule makes over 100,000 choices or
/// the schedules up to it have over 1,000,000 distinct prefixes, the empty one aside. `Memory` only where
/// a line that names a schedule stands before the first line at fault.
pub fn read_plan(alloc: Global, text: &[u8]) -> Result<Plan, Fault>
    ensures { Gives (TakesMemory (parts_of 10 text.now)) (λ plan. schedules plan) result
        (plan_of text.now) }
{
    let mut builder = Builder::new(alloc);
    let refusal = builder.read_all(text)?;
    builder.finish(refusal)
}
