//! Trails.

ghost use Rattle.std.specs.Prelude.{◌≡◌, ◌↔◌, ◌+◌, ◌++◌, ◌<◌, ◌≤◌, ◌^◌, [], drop, length, take, IfOk, IsSome, IsTrue, OnErr, OnOk};
ghost use Rattle.bx_world.specs.Running.{ran};
ghost use Rattle.bx_replay.specs.Courses.{reached};
ghost use Rattle.bx_replay.specs.Exchanges.{next_apart, Exchanges};

mod rows;

use crate::independence::{apart_at, are_independent};
use crate::kept::{Kept, keep_all, keep_if_due, last_of, nearest, replace, within};
use crate::runs::{RcEnd, follow, follow_one};
use bx_load::Image;
use bx_plan::{Part, Schedule};
use bx_share::Same;
pub use rows::Row;
use std::alloc::{AllocError, Global};
use std::marker::Model;

/// Choices in a row, from where a run has come, over some code.
///
/// On the way it keeps some of the worlds that they lead to, so that few choices are made again to find where a prefix leads: the
/// next one once as many choices have passed as the last one had cells, and 64 at the least. Where memory runs out, a call has
/// changed nothing.
#[derive(Drop)]
pub struct Trail<'a> {
    image: &'a Image,
    start: Kept,
    choices: Schedule,
    kept: Vec<Kept>,
}

impl<'a> Model for Trail<'a> {
    ghost use Rattle.bx_terms.specs.TreeCode.{tree_code};
    ghost use Rattle.bx_terms.specs.contracts.kinds.Trap as traps;
    ghost use Rattle.bx_load.specs.contracts.image.Image as images;
    ghost use Rattle.bx_proc.specs.contracts.process.Proc as process;
    ghost use Rattle.bx_world.specs.contracts.choices.Choice as made;
    ghost use Rattle.bx_world.specs.contracts.lanes.Lanes as lane;
    ghost use Rattle.bx_world.specs.World.{state_code};
    ghost use Rattle.bx_replay.specs.Courses.{Course, course_code};
    ghost use Rattle.bx_replay.specs.Keeping.{AreKept};

    ghost Value = { Course };

    ghost coded = { course_code images.the_row.coded
        (state_code process.the_row.coded tree_code lane.the_row.coded traps.the_row.coded)
        made.the_row.coded };

    ghost view = { λ t. record { image = t.image.now; start = t.start.end; choices = t.choices } };

    ghost invariant = { λ t. AreKept (record {
      image = t.image.now;
      start = t.start.end;
      choices = t.choices;
    }) t.kept.items };
}

impl<'a> Trail<'a> {
    /// These choices, from there on. They are made once, as far as none is refused.
    pub fn of(
        alloc: Global,
        image: &'a Image,
        start: RcEnd,
        schedule: Schedule,
    ) -> Result<Trail<'a>, AllocError>
        requires { start.applied + length schedule < 2 ^ 64 }
        ensures { IfOk result (λ trail. trail ≡ record { image = image.entry.now; start = start; choices = schedule }) }
    {
        let start = Kept::new(start);
        let kept = keep_all(alloc, image, &start, &schedule)?;
        Ok(Trail {
            image,
            start,
            choices: schedule,
            kept,
        })
    }

    /// A trail of no choice, from there on. It keeps its next world where this one would have kept it.
    pub fn branch(&self, alloc: Global, end: RcEnd) -> Trail<'a>
        ensures { result ≡ record { image = self.now.image; start = end; choices = [] } }
    {
        let near = within(&self.kept, end.applied);
        let next = last_of(&self.start, &self.kept, near).next;
        Trail {
            image: self.image,
            start: Kept { end, next },
            choices: Schedule::new(alloc),
            kept: Vec::new(alloc),
        }
    }

    /// The code.
    pub fn image(&self) -> &'a Image
        ensures { result.now ≡ self.now.image }
    {
        self.image
    }

    /// Where the choices begin.
    pub fn start(&self) -> &RcEnd
        ensures { result.now ≡ self.now.start }
    {
        &self.start.end
    }

    /// The choices in order.
    pub fn schedule(&self) -> &Schedule
        ensures { result.now ≡ self.now.choices }
    {
        &self.choices
    }

    /// The choices in order.
    pub fn into_schedule(self) -> Schedule
        ensures { result ≡ self.entry.choices }
    {
        let Trail {
            image: _,
            start: _,
            choices,
            kept: _,
        } = self;
        choices
    }

    /// How many choices there are.
    pub fn len(&self) -> usize
        ensures count { result ≡ length self.now.choices }
        ensures few { result < 2 ^ 63 }
    {
        self.schedule().len()
    }

    /// Whether both are the same choices over equal code, from equal starts.
    pub fn same(&self, other: &Trail<'_>) -> bool
        ensures { IsTrue result ↔ (self.now ≡ other.now) }
    {
        self.choices.same(&other.choices)
            && self.start.end.same(&other.start.end)
            && self.image.same(other.image)
    }

    /// Where the first `count` choices lead. Only those behind the nearest world that is kept before it are made again.
    pub fn end_at(&self, alloc: Global, count: usize) -> Result<RcEnd, AllocError>
        requires { count ≤ length self.now.choices }
        ensures { IfOk result (λ end. end ≡ reached count self.now) }
    {
        let from = nearest(&self.start, &self.kept, count);
        let first = (from.count() - self.start.count()) as usize;
        follow(
            alloc,
            self.image,
            &from.end,
            self.choices.part(first, count),
        )
    }

    /// By how many choices more the next world is kept; one at least.
    pub fn room(&self) -> usize
        ensures { 0 < result }
    {
        let here = self.start.count() + self.choices.len() as u64;
        let last = last_of(&self.start, &self.kept, self.kept.len());
        last.room(here)
    }

    /// Puts choices behind the others that were made there and led to this end, each of them applied.
    pub fn push(&mut self, alloc: Global, made: Part<'_>, end: &RcEnd) -> Result<(), AllocError>
        requires few { self.old.start.applied + length (self.old.choices ++ made) < 2 ^ 64 }
        requires all { end.now.applied ≡ self.old.start.applied + length (self.old.choices ++ made) }
        requires end { end.now ≡ ran self.old.image (self.old.choices ++ made) self.old.start }
        ensures ok { OnOk result (self.new ≡ record self.old { choices = self.old.choices ++ made.entry }) }
        ensures err { OnErr result (self.new ≡ self.old) }
    {
        let count = self.choices.len();
        self.choices.append(made)?;
        if let Err(refused) = keep_if_due(alloc, &self.start, &mut self.kept, end) {
            self.choices.truncate(count);
            return Err(refused);
        }
        Ok(())
    }

    /// Puts the choices of another trail, which begins where the first `count` lead, in the place of those behind them.
    pub fn replace_tail(&mut self, count: usize, tail: Trail<'a>) -> Result<(), AllocError>
        requires within { count ≤ length self.old.choices }
        requires image { tail.image ≡ self.old.image }
        requires start { tail.start ≡ reached count self.old }
        requires all { tail.start.applied ≡ self.old.start.applied + count }
        ensures ok { OnOk result (self.new ≡ record self.old { choices = take count self.old.choices ++ tail.entry.choices }) }
        ensures err { OnErr result (self.new ≡ self.old) }
    {
        let Trail {
            image: _,
            start: _,
            choices,
            mut kept,
        } = tail;
        self.kept.reserve(kept.len())?;
        self.choices.replace_tail(count, choices)?;
        // there is room: nothing behind this fails
        let near = within(&self.kept, self.start.count() + count as u64);
        self.kept.truncate(near);
        self.kept.append(&mut kept)?;
        Ok(())
    }

    /// Exchanges the choice at that position, from 0 on, and the one behind it, where they are independent there; whether they are.
    ///
    /// That leaves where each longer prefix leads as it was, so of what is kept only what lies between the two is replaced. Memory
    /// is taken only where two choices of different processes stand there.
    pub fn exchange(&mut self, alloc: Global, position: usize) -> Result<bool, AllocError>
        ensures done { IfOk result (Exchanges position self.old self.new) }
        ensures err { OnErr result (self.new ≡ self.old) }
        ensures apart { OnErr result (IsSome (next_apart (drop position self.old.choices))) }
    {
        let Some((first, second)) = apart_at(&self.choices, position) else {
            return Ok(false);
        };
        let here = self.end_at(alloc, position)?;
        if !are_independent(alloc, self.image, &here, first, second)? {
            return Ok(false);
        }
        let between = follow_one(alloc, self.image, &here, second)?;
        self.choices.swap(position)?;
        replace(&mut self.kept, between);
        Ok(true)
    }
}
