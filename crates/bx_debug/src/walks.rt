//! Choices applied one after another, in a world that is shared with others until it changes.

ghost use Rattle.std.specs.Prelude.{◌≡◌, ◌≢◌, ◌+◌, ◌<◌, ◌≤◌, ◌^◌, [], length, replicate, None, IfOk, OnOk};
ghost use Rattle.std.specs.FinSet as set;
ghost use Rattle.bx_debug.specs.Going.{walked};
ghost use Rattle.bx_debug.specs.Leading.{come, Begins, Reaches, Walks, Went};

use crate::places::Places;
use crate::stops::{Stop, choose, ended_by, halted, stop_behind};
use bx_load::Image;
use bx_plan::{Part, Run, Schedule};
use bx_replay::{RcEnd, Trail, advance_all, copied, shared};
use bx_world::{RcWorld, RunEnd};
use std::alloc::{AllocError, Global};

/// Applies choices in order, as far as nothing stops them: how many were applied, and why no more were.
#[inline(never)]
fn stretch(
    alloc: Global,
    image: &Image,
    places: &Places,
    world: &mut RcWorld,
    choices: Part<'_>,
) -> Result<(usize, Option<Stop>), AllocError>
    requires { length choices < 2 ^ 64 }
    ensures { IfOk result
        (λ reached. Reaches image.now places.now choices.entry world.old reached.0 world.new reached.1) }
{
    let mut left = choices;
    let mut made = 0;
    while let Some(run) = left.next_run() {
        let (more, stop) = stretch_run(alloc, image, places, world, run)?;
        made += more;
        if stop.is_some() {
            return Ok((made, stop));
        }
    }
    Ok((made, None))
}

/// Applies one choice so many times in a row, as far as nothing stops it.
fn stretch_run(
    alloc: Global,
    image: &Image,
    places: &Places,
    world: &mut RcWorld,
    run: Run,
) -> Result<(usize, Option<Stop>), AllocError>
    ensures { IfOk result (λ reached. Reaches image.now places.now (replicate run.times run.choice)
        world.old reached.0 world.new reached.1) }
{
    for made in 0..run.times {
        if let Some(stop) = choose(alloc, image, run.choice, world)? {
            return Ok((made, Some(stop)));
        }
        if let Some(stop) = stop_behind(places, run.choice, world) {
            return Ok((made + 1, Some(stop)));
        }
    }
    Ok((run.times, None))
}

/// Applies choices in order where no run breaks off: equal ones in a row are made in one call. Once a choice was refused or the world has trapped
/// nothing changes any more, so why it stopped is looked at behind the last one.
#[inline(never)]
fn stretch_unbroken(
    alloc: Global,
    image: &Image,
    end: &mut RcEnd,
    choices: Part<'_>,
) -> Result<(usize, Option<Stop>), AllocError>
    requires some { choices ≢ [] }
    requires few { length choices < 2 ^ 64 }
    ensures { IfOk result (λ reached. Reaches image.now set.empty choices.entry end.old.world reached.0
        end.new.world reached.1) }
{
    if let Some(stop) = halted(&end.world) {
        return Ok((0, Some(stop)));
    }
    end.applied = 0;
    end.refused = None;
    advance_all(alloc, end, image, choices)?;
    Ok((end.applied as usize, ended_by(end)))
}

/// The one or the other of both, by whether some breakpoint is set.
fn stretch_by_places(
    alloc: Global,
    image: &Image,
    places: &Places,
    end: &mut RcEnd,
    choices: Part<'_>,
) -> Result<(usize, Option<Stop>), AllocError>
    requires some { choices ≢ [] }
    requires few { length choices < 2 ^ 64 }
    ensures { IfOk result (λ reached. Reaches image.now places.now choices.entry end.old.world reached.0
        end.new.world reached.1) }
{
    if places.is_empty() {
        return stretch_unbroken(alloc, image, end, choices);
    }
    stretch(alloc, image, places, &mut end.world, choices)
}

/// What came of choices that were applied in order.
#[derive(Drop)]
pub(crate) struct Walk<'a> {
    /// Those that were applied.
    pub(crate) made: Trail<'a>,
    /// Where they led.
    pub(crate) end: RcEnd,
    pub(crate) stop: Stop,
}

impl<'a> Walk<'a> {
    /// No choice is applied yet, behind so many of that trail, which lead to this world.
    pub(crate) fn begun(
        alloc: Global,
        trail: &Trail<'a>,
        world: &RcWorld,
        at: usize,
    ) -> Result<Walk<'a>, AllocError>
        requires { at ≤ length trail.now.choices }
        ensures begun { IfOk result (λ walk. Begins trail.now.image world.now at walk.made walk.end.world
            walk.stop) }
        ensures few { IfOk result (λ walk. walk.made.start.applied < 2 ^ 63) }
    {
        let count = trail.len();
        prove!(at <= count);
        let start = RunEnd {
            world: shared(alloc, world)?,
            applied: at as u64,
            refused: None,
        };
        let end = copied(alloc, &start)?;
        Ok(Walk {
            made: trail.branch(alloc, start),
            end,
            stop: Stop::Done,
        })
    }

    /// Applies choices in order, up to the first that stops them: one that is not applied, one that traps, and a run that leaves
    /// its process at a breakpoint.
    pub(crate) fn follow(
        &mut self,
        alloc: Global,
        places: &Places,
        choices: &Schedule,
    ) -> Result<(), AllocError>
        requires few { self.old.made.start.applied < 2 ^ 63 }
        requires begun { Begins self.old.made.image self.old.end.world self.old.made.start.applied
            self.old.made self.old.end.world self.old.stop }
        ensures told { OnOk result (walked self.old.made.image places.now choices.now self.old.end.world ≡
            (self.new.made.choices, self.new.stop)) }
        ensures way { OnOk result (Went self.old.made.image self.old.end.world self.old.made.start.applied
            self.new.made self.new.end.world) }
    {
        while self.made.len() < choices.len() {
            if let Some(stop) = self.turn(alloc, places, choices)? {
                self.stop = stop;
                return Ok(());
            }
        }
        Ok(())
    }

    /// Applies choices up to where the next world is kept, or up to the last one, as far as nothing stops them: why it stopped, if
    /// it did.
    fn turn(
        &mut self,
        alloc: Global,
        places: &Places,
        choices: &Schedule,
    ) -> Result<Option<Stop>, AllocError>
        requires open { length self.old.made.choices < length choices.now }
        requires few { self.old.made.start.applied + length choices.now < 2 ^ 64 }
        requires way { Walks places.now choices.now self.old.made self.old.end.world None }
        ensures way { IfOk result (Walks places.now choices.now self.new.made self.new.end.world) }
        ensures image { IfOk result (λ stop. self.new.made.image ≡ self.old.made.image) }
        ensures start { IfOk result (λ stop. self.new.made.start ≡ self.old.made.start) }
        ensures further { IfOk result (λ stop. stop ≡ None
            → length self.old.made.choices < length self.new.made.choices) }
        ensures stop { self.new.stop ≡ self.old.stop }
    {
        let first = self.made.len();
        let past = first + (choices.len() - first).min(self.made.room());
        let image = self.made.image();
        let part = choices.part(first, past);
        let (more, stop) = stretch_by_places(alloc, image, places, &mut self.end, part.copy())?;
        let start = self.made.start();
        let applied = start.applied + (first + more) as u64;
        count_applied(&mut self.end, applied);
        self.made.push(alloc, part.front(more), &self.end)?;
        Ok(stop)
    }
}

/// So many choices were applied, and none was refused.
fn count_applied(end: &mut RcEnd, applied: u64)
    ensures { end.new ≡ come end.old.world applied }
{
    end.applied = applied;
    end.refused = None;
}

/// The world that choices have led to.
pub(crate) fn into_world(end: RcEnd) -> RcWorld
    ensures { result ≡ end.world }
{
    let RunEnd {
        world,
        applied: _,
        refused: _,
    } = end;
    world
}
