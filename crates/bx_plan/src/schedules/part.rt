//! Some choices of a schedule in a row.

ghost use Rattle.std.specs.Prelude.{◌≡◌, ◌≢◌, ◌↔◌, ◌-◌, ◌++◌, [], ℕ, length, replicate, slice_get, take, Some, IsTrue};
ghost use Rattle.bx_plan.specs.Runs.{GoesOn, NextRun};
ghost use Rattle.bx_plan.specs.Stretches.{choices_from, IsPart};

use super::Run;
use super::stretches::{Stretch, behind};
use bx_share::Same;
use bx_world::Choice;
use std::marker::Model;

/// Some choices of a schedule in a row, from some position of it on.
#[derive(Drop)]
pub struct Part<'a> {
    /// The stretches from the one on in which the first of them lies.
    stretches: &'a [Stretch],
    first: usize,
    past: usize,
}

impl<'a> Model for Part<'a> {
    ghost use Rattle.std.specs.Prelude.{◌-◌, List, take};
    ghost use Rattle.bx_world.specs.declared.choices.Choice.{Choice};

    ghost Value = { List Choice };

    ghost use Rattle.bx_plan.specs.Stretches.{choices_from, IsPart};

    ghost view = { λ p. take (p.past - p.first) (choices_from p.first p.stretches.now) };

    ghost invariant = { λ p. IsPart p.stretches.now p.first p.past };
}

impl<'a> Part<'a> {
    /// The choices from one position up to the one before another, in the stretches from the one on in which the first lies.
    pub(super) fn new(stretches: &'a [Stretch], first: usize, past: usize) -> Part<'a>
        requires { IsPart stretches.now first past }
        ensures { result ≡ take (past - first) (choices_from first stretches.entry.now) }
    {
        Part {
            stretches,
            first,
            past,
        }
    }

    /// How many choices there are.
    pub fn len(&self) -> usize
        ensures { result ≡ length self.now }
    {
        self.past - self.first
    }

    /// Whether there are none.
    pub fn is_empty(&self) -> bool
        ensures { IsTrue result ↔ (self.now ≡ []) }
    {
        self.first == self.past
    }

    /// The first choice.
    pub fn first(&self) -> Option<Choice>
        ensures { result ≡ slice_get self.now 0 }
    {
        if self.first == self.past {
            return None;
        }
        Some(self.stretches[0].choice)
    }

    /// Whether there is a first choice and it is this one.
    fn begins_with(&self, choice: Choice) -> bool
        ensures { IsTrue result ↔ (slice_get self.now 0 ≡ Some choice) }
    {
        matches!(self.first(), Some(first) if first.same(&choice))
    }

    /// Takes the choices that lie on the first stretch.
    fn skip(&mut self, choice: Choice)
        requires { slice_get self.old 0 ≡ Some choice }
        ensures { GoesOn choice self.old self.new }
    {
        self.first = self.past.min(self.stretches[0].past);
        self.stretches = behind(self.stretches, self.first);
    }

    /// Takes all choices that stand first and are this one. Schedules that were read have them on one stretch, so this is seldom called.
    #[cold]
    #[inline(never)]
    fn skip_all(&mut self, choice: Choice)
        ensures { (times : ℕ) × (self.old ≡ replicate times choice ++ self.new) × (slice_get self.new 0 ≢ Some choice) }
    {
        while self.begins_with(choice) {
            self.skip(choice);
        }
    }

    /// Takes the first choice, with all that equal it in a row behind it.
    #[inline(always)]
    pub fn next_run(&mut self) -> Option<Run>
        ensures { NextRun self.old self.new result }
    {
        let count = self.len();
        let choice = self.first()?;
        self.skip(choice);
        if self.begins_with(choice) {
            self.skip_all(choice);
        }
        let times = count - self.len();
        Some(Run { choice, times })
    }

    /// The first so many choices, or all where there are fewer.
    pub fn front(&self, count: usize) -> Part<'a>
        ensures { result ≡ take count self.now }
    {
        Part {
            stretches: self.stretches,
            first: self.first,
            past: self.first + count.min(self.len()),
        }
    }

    /// The same choices.
    pub fn copy(&self) -> Part<'a>
        ensures { result ≡ self.now }
    {
        self.front(self.len())
    }
}
