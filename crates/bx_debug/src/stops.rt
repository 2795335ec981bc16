//! Why a list of choices was not applied further.

ghost use Rattle.std.specs.Prelude.{◌≡◌, ◌↔◌, if◌then◌else◌, IfOk, IsTrue, Some, None};
ghost use Rattle.bx_world.specs.Choosing.{refusal};
ghost use Rattle.bx_world.specs.Enabled.{can};
ghost use Rattle.bx_debug.specs.Going.{break_at, break_behind, ended_by, halted, stop_at_once, stop_before, stop_behind};
ghost use Rattle.bx_debug.specs.Leading.{Chooses};

use crate::places::Places;
use bx_load::Image;
use bx_plan::Schedule;
use bx_replay::RcEnd;
use bx_terms::{Fault, Place, Trap};
use bx_world::{Choice, RcWorld};
use std::alloc::{AllocError, Global};

/// Why no more choices were applied.
#[derive(Clone, Copy, Debug, PartialEq, Eq)]
pub enum Stop {
    /// All were.
    Done,
    /// The last one was a run of this process, which now stands, not ended, at this breakpoint.
    Break(u32, Place),
    /// The next one is this, which is not enabled.
    NotEnabled(Choice),
    /// The world has trapped: a run of this process or a signal to it had no meaning.
    Trapped(Trap, u32),
}

impl Stop {
    /// Whether both are the same.
    pub fn same(self, other: Stop) -> bool
        ensures { IsTrue result ↔ (self ≡ other) }
    {
        self == other
    }
}

/// That the world has trapped, if it has.
#[inline(always)]
pub(crate) fn halted(world: &RcWorld) -> Option<Stop>
    ensures { result ≡ halted world.now.trap }
{
    match world.trap() {
        Some((kind, pid)) => Some(Stop::Trapped(kind, pid)),
        None => None,
    }
}

/// Why a choice is refused in that world.
pub(crate) fn refusal(choice: Choice, world: &RcWorld) -> Option<Fault>
    ensures { result ≡ refusal world.now choice }
{
    match world.trap() {
        Some(_) => Some(Fault::Halted),
        None => disabled(choice, world),
    }
}

/// That the choice is not enabled, if it is not.
fn disabled(choice: Choice, world: &RcWorld) -> Option<Fault>
    ensures { result ≡ (if can world.now choice then None else Some Fault.NotEnabled) }
{
    if world.can(choice) {
        return None;
    }
    Some(Fault::NotEnabled)
}

/// Why none of the choices is applied in that world, if none is.
pub(crate) fn stop_at_once(choices: &Schedule, world: &RcWorld) -> Option<Stop>
    ensures { result ≡ stop_at_once choices.now world.now }
{
    match choices.all().first() {
        None => Some(Stop::Done),
        Some(choice) => stop_before(choice, world),
    }
}

/// Why a choice is not applied in that world.
fn stop_before(choice: Choice, world: &RcWorld) -> Option<Stop>
    ensures { result ≡ stop_before choice world.now }
{
    match halted(world) {
        Some(stop) => Some(stop),
        None => refused(choice, world),
    }
}

/// That the choice is not enabled, if it is not.
fn refused(choice: Choice, world: &RcWorld) -> Option<Stop>
    ensures { result ≡ (if can world.now choice then None else Some (Stop.NotEnabled choice)) }
{
    if world.can(choice) {
        return None;
    }
    Some(Stop::NotEnabled(choice))
}

/// Why a run went no further, if it did not: a choice was refused, or the world has trapped.
pub(crate) fn ended_by(end: &RcEnd) -> Option<Stop>
    ensures { result ≡ ended_by end.now.refused end.now.world.trap }
{
    match end.refused {
        Some(choice) => Some(Stop::NotEnabled(choice)),
        None => halted(&end.world),
    }
}

/// Applies a choice, or tells why it is not applied.
#[inline(always)]
pub(crate) fn choose(
    alloc: Global,
    image: &Image,
    choice: Choice,
    world: &mut RcWorld,
) -> Result<Option<Stop>, AllocError>
    ensures { IfOk result (Chooses image.now choice world.old world.new) }
{
    match world.apply(alloc, image, choice) {
        Ok(()) => Ok(None),
        Err(Fault::NotEnabled) => Ok(Some(Stop::NotEnabled(choice))),
        Err(Fault::Halted) => Ok(halted(world)),
        Err(_) => Err(AllocError),
    }
}

/// Why choices stop behind this one, which was just applied.
#[inline(always)]
pub(crate) fn stop_behind(places: &Places, choice: Choice, world: &RcWorld) -> Option<Stop>
    ensures { result ≡ stop_behind places.now choice world.now }
{
    match halted(world) {
        Some(stop) => Some(stop),
        None => break_behind(places, choice, world),
    }
}

#[inline(always)]
fn break_behind(places: &Places, choice: Choice, world: &RcWorld) -> Option<Stop>
    ensures { result ≡ break_behind places.now choice world.now }
{
    let Choice::Run(pid) = choice else {
        return None;
    };
    break_at(places, pid, world.place(pid))
}

/// That the process stands at a breakpoint, if it does.
#[inline(always)]
fn break_at(places: &Places, pid: u32, place: Option<Place>) -> Option<Stop>
    ensures { result ≡ break_at places.now pid place }
{
    let place = place?;
    if !places.contains(place) {
        return None;
    }
    Some(Stop::Break(pid, place))
}
