//! Schedules: choices in a row, kept as stretches of equal ones.

ghost use Rattle.std.specs.Prelude.{◌≡◌, ◌≢◌, ◌↔◌, ◌+◌, ◌-◌, ◌^◌, ◌<◌, ◌≤◌, ◌++◌, [], ◌∷◌, drop, length, replicate, slice_get, take, IsTrue, IfOk, OnOk, OnErr};
ghost use Rattle.std.specs.List.{swap};
ghost use Rattle.bx_plan.specs.Runs.{spread_runs, AreLoose};
ghost use Rattle.bx_plan.specs.Stretches.{choices_from, AreStretches};

mod part;
mod parting;
mod stretches;

use bx_world::Choice;
pub use part::Part;
use std::alloc::{AllocError, Global};
use std::marker::Model;
use stretches::{Stretch, begin, chain, cut, exchange, join, made, merge, over_by, part_at};

/// How many choices a schedule may make.
pub(crate) const MOST: usize = usize::MAX / 2;

/// A choice, and how many times it is made in a row.
#[derive(Clone, Copy, Debug, PartialEq, Eq)]
pub struct Run {
    /// The choice.
    pub choice: Choice,
    /// How many times it is made.
    pub times: usize,
}

/// Choices in order, kept as stretches of equal ones. So a position is found by halving.
#[derive(Drop)]
pub struct Schedule {
    stretches: Vec<Stretch>,
}

impl Model for Schedule {
    ghost use Rattle.std.specs.Prelude.{◌<◌, ◌^◌, List, length};
    ghost use Rattle.bx_world.specs.declared.choices.Choice.{Choice};

    ghost Value = { List Choice };

    ghost use Rattle.bx_plan.specs.Stretches.{choices_from, AreStretches};

    ghost view = { λ s. choices_from 0 s.stretches.items };

    ghost invariant = { λ s. AreStretches 0 s.stretches.items × (length (choices_from 0 s.stretches.items) < 2 ^ 63) };
}

impl Schedule {
    /// The schedule that makes no choice.
    pub fn new(alloc: Global) -> Schedule
        ensures { result ≡ [] }
    {
        Schedule {
            stretches: Vec::new(alloc),
        }
    }

    /// The schedule that makes no choice, with room for so many stretches where there is memory for it.
    pub(crate) fn with_room(alloc: Global, room: usize) -> Schedule
        ensures { result ≡ [] }
    {
        match Vec::with_capacity(alloc, room) {
            Ok(stretches) => Schedule { stretches },
            Err(_) => Schedule::new(alloc),
        }
    }

    /// The schedule that makes the choices of these runs in order. It takes memory where there are any.
    pub fn of(alloc: Global, runs: &[Run]) -> Result<Schedule, AllocError>
        ensures ok { IfOk result (λ schedule. schedule ≡ spread_runs runs.now) }
        ensures err { OnErr result (0 < length (spread_runs runs.now)) }
    {
        let mut schedule = Schedule::new(alloc);
        for run in runs {
            schedule.push(run.choice, run.times)?;
        }
        Ok(schedule)
    }

    /// The schedule that makes these choices in order. It takes memory where there are any.
    pub fn from_choices(alloc: Global, choices: &[Choice]) -> Result<Schedule, AllocError>
        ensures ok { IfOk result (λ schedule. schedule ≡ choices.now) }
        ensures err { OnErr result (0 < length choices.now) }
    {
        let mut schedule = Schedule::new(alloc);
        for choice in choices {
            schedule.push(*choice, 1)?;
        }
        Ok(schedule)
    }

    /// Makes a choice so many times more, at the end. It takes memory where it is made at all.
    #[inline(always)]
    pub fn push(&mut self, choice: Choice, times: usize) -> Result<(), AllocError>
        ensures ok { OnOk result (self.new ≡ self.old ++ replicate times choice) }
        ensures err { OnErr result ((self.new ≡ self.old) × (0 < times)) }
    {
        let count = made(&self.stretches);
        if times == 0 {
            return Ok(());
        }
        if times > MOST - count {
            return Err(AllocError);
        }
        self.push_up_to(choice, count + times)
    }

    /// Makes a choice at the end, until so many choices are made in all.
    #[inline(always)]
    pub(crate) fn push_up_to(&mut self, choice: Choice, past: usize) -> Result<(), AllocError>
        requires more { length self.old < past }
        requires few { past < 2 ^ 63 }
        ensures ok { OnOk result (self.new ≡ self.old ++ replicate (past - length self.old) choice) }
        ensures err { OnErr result (self.new ≡ self.old) }
    {
        join(&mut self.stretches, Stretch { choice, past })?;
        Ok(())
    }

    /// Makes these choices more, at the end. It takes memory where there are any.
    pub fn append(&mut self, part: Part<'_>) -> Result<(), AllocError>
        ensures ok { OnOk result (self.new ≡ self.old ++ part.entry) }
        ensures err { OnErr result ((self.new ≡ self.old) × (part.entry ≢ [])) }
    {
        let count = self.len();
        let mut left = part;
        while let Some(run) = left.next_run() {
            if let Err(refused) = self.push(run.choice, run.times) {
                self.truncate(count);
                return Err(refused);
            }
        }
        Ok(())
    }

    /// Leaves out all but the first so many choices.
    pub fn truncate(&mut self, count: usize)
        ensures { self.new ≡ take count self.old }
    {
        cut(&mut self.stretches, count);
    }

    /// Puts other choices in the place of all but the first so many. It takes memory where there are any.
    pub fn replace_tail(&mut self, count: usize, tail: Schedule) -> Result<(), AllocError>
        requires { count ≤ length self.old }
        ensures ok { OnOk result (self.new ≡ take count self.old ++ tail) }
        ensures err { OnErr result ((self.new ≡ self.old) × (tail ≢ [])) }
    {
        let more = tail.len();
        let Schedule { stretches: behind } = tail;
        self.stretches.reserve(behind.len())?;
        if more > MOST - count {
            return Err(AllocError);
        }
        cut(&mut self.stretches, count);
        let seam = self.stretches.len();
        chain(&mut self.stretches, count, &behind);
        merge(&mut self.stretches, seam);
        Ok(())
    }

    /// Exchanges the choice at that position, from 0 on, and the one behind it.
    ///
    /// It takes no memory where both stand in stretches of their own. Else these are made, and joined with their neighbours where they
    /// are equal.
    pub fn swap(&mut self, position: usize) -> Result<(), AllocError>
        requires { position + 1 < length self.old }
        ensures ok { OnOk result (self.new ≡ swap self.old position (position + 1)) }
        ensures err { OnErr result ((self.new ≡ self.old) × (AreLoose self.old position → ⊥)) }
    {
        let at = begin(&mut self.stretches, position)?;
        part_at(&mut self.stretches, at, position + 1)?;
        part_at(&mut self.stretches, at + 1, position + 2)?;
        exchange(&mut self.stretches, at);
        merge(&mut self.stretches, at + 2);
        merge(&mut self.stretches, at);
        Ok(())
    }

    /// How many choices it makes.
    pub fn len(&self) -> usize
        ensures count { result ≡ length self.now }
        ensures few { result < 2 ^ 63 }
    {
        made(&self.stretches)
    }

    /// Whether it makes no choice.
    pub fn is_empty(&self) -> bool
        ensures { IsTrue result ↔ (self.now ≡ []) }
    {
        self.len() == 0
    }

    /// The choice at a position, from 0; none past the last. It is found by halving.
    #[tactic(auto, using(crate::proofs::Stretching::found, crate::proofs::Stretching::next))]
    pub fn get(&self, position: usize) -> Option<Choice>
        ensures { result ≡ slice_get self.now position }
    {
        let stretch = self.stretches.get(over_by(&self.stretches, position))?;
        Some(stretch.choice)
    }

    /// All its choices.
    pub fn all(&self) -> Part<'_>
        ensures { result ≡ self.now }
    {
        Part::new(&self.stretches, 0, made(&self.stretches))
    }

    /// The choices from a position on, from 0, up to the one before another position. They are found by halving.
    pub fn part(&self, first: usize, past: usize) -> Part<'_>
        requires order { first ≤ past }
        requires within { past ≤ length self.now }
        ensures { result ≡ take (past - first) (drop first self.now) }
    {
        let at = over_by(&self.stretches, first);
        Part::new(&self.stretches[at..], first, past)
    }

    /// Its choices one by one. It takes memory where there are any.
    pub fn to_choices(&self, alloc: Global) -> Result<Vec<Choice>, AllocError>
        ensures ok { IfOk result (λ choices. choices.items ≡ self.now) }
        ensures err { OnErr result (0 < length self.now) }
    {
        let mut choices = Vec::new(alloc);
        let mut left = self.all();
        while let Some(run) = left.next_run() {
            push_times(&mut choices, run)?;
        }
        Ok(choices)
    }

    /// Whether both make the same choices in the same order.
    pub fn same(&self, other: &Schedule) -> bool
        ensures { IsTrue result ↔ (self.now ≡ other.now) }
    {
        let count = self.len();
        count == other.len() && count == self.common(other)
    }
}

/// Adds the choices of a run.
fn push_times(choices: &mut Vec<Choice>, run: Run) -> Result<(), AllocError>
    ensures ok { OnOk result (choices.new.items ≡ choices.old.items ++ replicate run.times run.choice) }
    ensures err { OnErr result (0 < run.times) }
{
    for _turn in 0..run.times {
        choices.push(run.choice)?;
    }
    Ok(())
}
