//! How far a process runs by itself, and why no further.

ghost use Rattle.std.specs.Prelude.{◌≡◌, ◌<◌, None, IfOk, OnOk};
ghost use Rattle.bx_world.specs.declared.choices.Choice.TheVariants.{Run};
ghost use Rattle.bx_world.specs.Choosing.{chosen};
ghost use Rattle.bx_debug.specs.Pausing.{before_event, behind_meeting, idle, pause_before, pause_behind, pause_of, runs_to};

use crate::meetings::{event, meeting};
use crate::places::Places;
use crate::stops::{Stop, halted, stop_behind};
use bx_load::Image;
use bx_replay::shared;
use bx_terms::Place;
use bx_world::{Choice, RcWorld};
use std::alloc::{AllocError, Global};

/// How often a process runs by itself at most.
const MOST_RUNS: usize = 100_000;

/// How far a process runs by itself.
#[derive(Clone, Copy, Debug, PartialEq, Eq)]
pub enum Bound {
    /// Up to an event, which is not run: an item that concerns others, a `timeout`, and a call of `process_flag/2`.
    Event,
    /// Up to an item that concerns others, which is run: a `send`, and a call of a native that asks the world for something.
    Meeting,
}

/// Why a process runs no further.
#[derive(Clone, Copy, Debug, PartialEq, Eq)]
pub enum Pause {
    /// The world has trapped, the process stands at a breakpoint, or as many runs were made as are made at most.
    Stopped(Stop),
    /// It cannot run: it waits, has ended, or is not there.
    Idle,
    /// The event at which it stands, or the item there that it ran, which concerns others.
    Meets(Place),
}

/// Up to where a process of a world runs.
#[derive(Clone, Copy)]
pub(crate) struct Runner<'a> {
    pub(crate) image: &'a Image,
    pub(crate) places: &'a Places,
    pub(crate) pid: u32,
    pub(crate) bound: Bound,
}

impl Runner<'_> {
    /// Why it does not run at all.
    pub(crate) fn pause_before(self, world: &RcWorld) -> Option<Pause>
        ensures { result ≡ pause_before self.entry.bound self.entry.image.now self.entry.places.now self.entry.pid world.now }
    {
        match self.bound {
            Bound::Event => self.before_event(world),
            Bound::Meeting => match halted(world) {
                Some(stop) => Some(Pause::Stopped(stop)),
                None => idle(self.pid, world),
            },
        }
    }

    /// Why it goes no further behind a run that met others there, if it did.
    #[inline(always)]
    fn pause_behind(self, met: Option<Place>, world: &RcWorld) -> Option<Pause>
        ensures { result ≡ pause_behind self.entry.bound self.entry.image.now self.entry.places.now self.entry.pid met world.now }
    {
        match self.bound {
            Bound::Event => self.before_event(world),
            Bound::Meeting => self.behind_meeting(met, world),
        }
    }

    #[inline(always)]
    fn before_event(self, world: &RcWorld) -> Option<Pause>
        ensures { result ≡ before_event self.entry.image.now self.entry.places.now self.entry.pid world.now }
    {
        if let Some(stop) = stop_behind(self.places, Choice::Run(self.pid), world) {
            return Some(Pause::Stopped(stop));
        }
        if let Some(pause) = idle(self.pid, world) {
            return Some(pause);
        }
        event(self.image, self.pid, world).map(Pause::Meets)
    }

    #[inline(always)]
    fn behind_meeting(self, met: Option<Place>, world: &RcWorld) -> Option<Pause>
        ensures { result ≡ behind_meeting self.entry.places.now self.entry.pid met world.now }
    {
        if let Some(stop) = stop_behind(self.places, Choice::Run(self.pid), world) {
            return Some(Pause::Stopped(stop));
        }
        match met {
            Some(place) => Some(Pause::Meets(place)),
            None => idle(self.pid, world),
        }
    }

    /// How often it runs from there on, and why no further, where it runs at all.
    pub(crate) fn runs(self, alloc: Global, world: &RcWorld) -> Result<(usize, Pause), AllocError>
        requires { pause_before self.bound self.image.now self.places.now self.pid world.now ≡ None }
        ensures some { IfOk result (λ found. 0 < found.0) }
        ensures times { IfOk result (λ found. found.0 ≡ runs_to self.entry.bound self.entry.image.now self.entry.places.now self.entry.pid world.now) }
        ensures pause { IfOk result (λ found. found.1 ≡ pause_of self.entry.bound self.entry.image.now self.entry.places.now self.entry.pid world.now) }
    {
        let mut here = shared(alloc, world)?;
        for made in 0..MOST_RUNS {
            let met = meeting(self.image, self.pid, &here);
            run_once(alloc, self.image, self.pid, &mut here)?;
            if let Some(pause) = self.pause_behind(met, &here) {
                return Ok((made + 1, pause));
            }
        }
        Ok((MOST_RUNS, Pause::Stopped(Stop::Done)))
    }
}

/// That the process cannot run, if it cannot.
#[inline(always)]
fn idle(pid: u32, world: &RcWorld) -> Option<Pause>
    ensures { result ≡ idle pid world.now }
{
    if world.can(Choice::Run(pid)) {
        return None;
    }
    Some(Pause::Idle)
}

/// Runs a process once.
#[inline(always)]
fn run_once(alloc: Global, image: &Image, pid: u32, world: &mut RcWorld) -> Result<(), AllocError>
    ensures { OnOk result (world.new ≡ chosen image.now (Run pid) world.old) }
{
    match world.apply(alloc, image, Choice::Run(pid)) {
        Ok(()) => Ok(()),
        Err(_) => Err(AllocError), // only out of memory, where it can run
    }
}
