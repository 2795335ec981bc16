//! Rows: choices of which one is brought forward at a time.

ghost use Rattle.std.specs.Prelude.{◌≡◌, ◌+◌, ◌<◌, ◌≤◌, ◌^◌, if◌then◌else◌, length, IfOk, OnErr};
ghost use Rattle.bx_replay.specs.Courses.{reached};
ghost use Rattle.bx_replay.specs.Moving.{brought, Brings, IsExchanged};
ghost use Rattle.bx_replay.specs.Reaching.{BringsPast, IsFreeFrom, Reaches};

use super::Trail;
use crate::independence::{are_free, may_pass};
use crate::kept::{Kept, nearest, replace};
use crate::runs::{RcEnd, advance_each, advance_run, copied, follow_one};
use bx_load::Image;
use bx_plan::Schedule;
use bx_world::Choice;
use std::alloc::{AllocError, Global};
use std::marker::Model;

/// Choices in a row, each kept by itself, so that an exchange moves no others. Beside that it is a trail.
#[derive(Drop)]
pub struct Row<'a> {
    image: &'a Image,
    start: Kept,
    choices: Vec<Choice>,
    kept: Vec<Kept>,
}

impl<'a> Model for Row<'a> {
    ghost use Rattle.bx_terms.specs.TreeCode.{tree_code};
    ghost use Rattle.bx_terms.specs.contracts.kinds.Trap as traps;
    ghost use Rattle.bx_load.specs.contracts.image.Image as images;
    ghost use Rattle.bx_proc.specs.contracts.process.Proc as process;
    ghost use Rattle.bx_world.specs.contracts.choices.Choice as made;
    ghost use Rattle.bx_world.specs.contracts.lanes.Lanes as lane;
    ghost use Rattle.bx_world.specs.World.{state_code};
    ghost use Rattle.bx_replay.specs.Courses.{Course, course_code};
    ghost use Rattle.bx_replay.specs.Keeping.{AreKept};

    ghost Value = { Course };

    ghost coded = { course_code images.the_row.coded
        (state_code process.the_row.coded tree_code lane.the_row.coded traps.the_row.coded)
        made.the_row.coded };

    ghost view = { λ r. record { image = r.image.now; start = r.start.end; choices = r.choices.items } };

    ghost invariant = { λ r. AreKept (record {
      image = r.image.now;
      start = r.start.end;
      choices = r.choices.items;
    }) r.kept.items };
}

/// How far a choice may be brought forward past some others, and where it leads from those before the last of them.
#[derive(Drop)]
pub(crate) struct Reach {
    pub(crate) rest: usize,
    pub(crate) between: RcEnd,
}

impl<'a> Trail<'a> {
    /// The same choices as a row. The trail stays.
    pub fn row(&self, alloc: Global) -> Result<Row<'a>, AllocError>
        ensures { IfOk result (λ row. row ≡ self.now) }
    {
        Ok(Row {
            image: self.image,
            start: self.start.copy(alloc)?,
            choices: self.choices.to_choices(alloc)?,
            kept: copies(alloc, &self.kept)?,
        })
    }
}

/// The same ends.
fn copies(alloc: Global, kept: &[Kept]) -> Result<Vec<Kept>, AllocError>
    ensures { IfOk result (λ copies. copies.items ≡ kept.now) }
{
    let mut copies = Vec::new(alloc);
    for one in kept {
        copies.push(one.copy(alloc)?)?;
    }
    Ok(copies)
}

/// Brings a choice forward: those that it passes stand one further back.
fn carry(choices: &mut [Choice], from: usize, to: usize)
    requires order { to ≤ from }
    requires within { from < length choices.old }
    ensures { choices.new ≡ brought from to choices.old }
{
    let mut at = from;
    while at > to {
        at -= 1;
        choices.swap(at, at + 1);
    }
}

/// From where on the choices may be passed, behind one more.
fn rest_behind(free: bool, at: usize, rest: usize) -> usize
    requires { at + 1 < 2 ^ 64 }
    ensures { result ≡ (if free then rest else at + 1) }
{
    if free { rest } else { at + 1 }
}

impl<'a> Row<'a> {
    /// The same choices as a trail.
    pub fn into_trail(self, alloc: Global) -> Result<Trail<'a>, AllocError>
        ensures { IfOk result (λ trail. trail ≡ self.entry) }
    {
        let choices = Schedule::from_choices(alloc, &self.choices)?;
        let Row {
            image,
            start,
            choices: _,
            kept,
        } = self;
        Ok(Trail {
            image,
            start,
            choices,
            kept,
        })
    }

    /// The choices in order.
    pub fn choices(&self) -> &[Choice]
        ensures { result.now ≡ self.now.choices }
    {
        &self.choices
    }

    /// Where the first `count` choices lead. Only those behind the nearest world that is kept before it are made again.
    fn end_at(&self, alloc: Global, count: usize) -> Result<RcEnd, AllocError>
        requires { count ≤ length self.now.choices }
        ensures { IfOk result (λ end. end ≡ reached count self.now) }
    {
        let from = nearest(&self.start, &self.kept, count);
        let first = (from.count() - self.start.count()) as usize;
        let mut end = copied(alloc, &from.end)?;
        advance_each(alloc, &mut end, self.image, &self.choices[first..count])?;
        Ok(end)
    }

    /// Brings the choice at one position forward to another, by exchanges with its neighbours, or up to the first of these that may not
    /// be made: the position where it stands then.
    ///
    /// Each exchange leads to an equal world. Choices are made again from the world on that is kept before those that it passes, so
    /// few for each exchange that is tried. Where memory runs out, some of the exchanges may have been made.
    pub fn bring_forward(
        &mut self,
        alloc: Global,
        from: usize,
        to: usize,
    ) -> Result<usize, AllocError>
        requires order { to ≤ from }
        requires within { from < length self.old.choices }
        ensures ok { IfOk result (Brings from to self.old self.new) }
        ensures err { OnErr result (IsExchanged (from + 1) self.old self.new) }
    {
        let mut at = from;
        while at > to {
            let (rest, more) = self.pass(alloc, at, to)?;
            at = rest;
            if !more {
                return Ok(at);
            }
        }
        Ok(at)
    }

    /// Brings the choice at that position forward past those behind the last world that is kept before it: where it stands then, and
    /// whether it may go on.
    fn pass(&mut self, alloc: Global, from: usize, to: usize) -> Result<(usize, bool), AllocError>
        requires order { to < from }
        requires within { from < length self.old.choices }
        ensures ok { IfOk result (λ r. BringsPast from to self.old self.new r.0 r.1) }
        ensures err { OnErr result (self.new ≡ self.old) }
    {
        let near = nearest(&self.start, &self.kept, from - 1).count() - self.start.count();
        let first = to.max(near as usize);
        let Some(Reach { rest, between }) = self.reach(alloc, first, from)? else {
            return Ok((from, false));
        };
        replace(&mut self.kept, between);
        carry(&mut self.choices, from, rest);
        Ok((rest, rest == first))
    }

    /// How far forward the choice at `past` may be brought, to `first` at the most; `None` where it does not pass the one before it.
    fn reach(&self, alloc: Global, first: usize, past: usize) -> Result<Option<Reach>, AllocError>
        requires order { first < past }
        requires within { past < length self.now.choices }
        ensures { IfOk result (Reaches first past self.now) }
    {
        let choice = self.choices[past];
        let (rest, here) = self.free_from(alloc, first, past - 1, choice)?;
        let other = self.choices[past - 1];
        if !are_free(alloc, self.image, &here, other, choice)? {
            return Ok(None);
        }
        let between = follow_one(alloc, self.image, &here, choice)?;
        Ok(Some(Reach { rest, between }))
    }

    /// From where on the choice may pass each of those that stand from `first` up to `last`, that one aside, and where the choices
    /// before `last` lead.
    fn free_from(
        &self,
        alloc: Global,
        first: usize,
        last: usize,
        choice: Choice,
    ) -> Result<(usize, RcEnd), AllocError>
        requires order { first ≤ last }
        requires within { last + 1 < length self.now.choices }
        ensures { IfOk result (λ r. IsFreeFrom choice first last self.now r.0 × (r.1 ≡ reached last self.now)) }
    {
        let mut end = self.end_at(alloc, first)?;
        let mut rest = first;
        for at in first..last {
            let other = self.choices[at];
            let free = may_pass(alloc, self.image, &end, other, choice)?;
            rest = rest_behind(free, at, rest);
            advance_run(alloc, &mut end, self.image, other, 1)?;
        }
        Ok((rest, end))
    }
}
