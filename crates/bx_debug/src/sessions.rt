//! Sessions.

ghost use Rattle.std.specs.Prelude.{⊤, ◌≡◌, ◌≢◌, ◌↔◌, ◌-◌, ◌<◌, ◌≤◌, [], false, length, None, Ok, OnErr, OnOk, IfOk, IsSome, IsTrue, take};
ghost use Rattle.bx_terms.specs.Outcomes.{Does, Gives};
ghost use Rattle.bx_load.specs.Image.{export};
ghost use Rattle.bx_world.specs.Choosing.{refusal};
ghost use Rattle.bx_world.specs.Running.{ran, unchosen};
ghost use Rattle.bx_debug.specs.Leading.{led};
ghost use Rattle.bx_debug.specs.Pausing.{run_of, RunTakes};
ghost use Rattle.bx_debug.specs.Places.{is_set};
ghost use Rattle.bx_debug.specs.Sessions.{back, behind, forward, gone, GoTakes, opened, stepped, with_break, without_break, world_of};
ghost use Rattle.bx_debug.specs.Swapping.{Swaps};
ghost use Rattle.bx_debug.specs.Tidying.{tidy_of, undo_of};

use crate::pauses::{Bound, Pause, Runner};
use crate::places::Places;
use crate::stops::{Stop, refusal, stop_at_once};
use crate::walks::{Walk, into_world};
use bx_load::Image;
use bx_plan::Schedule;
use bx_replay::{Trail, shared};
use bx_swaps::{tidied, undone};
use bx_terms::{AtomId, Fault, Place};
use bx_world::{Choice, RcWorld, RunEnd};
use std::alloc::{AllocError, Global};
use std::marker::Model;

/// A world with the choices that led to it, which can be stepped back over and made again, and the breakpoints at which a run
/// breaks off.
///
/// It keeps each choice, and some of the worlds on the way, so that a move of the position makes few choices again, at most 63
/// where the state stays small. Where memory runs out, a call has changed nothing.
#[derive(Drop)]
pub struct Session<'a> {
    trail: Trail<'a>,
    at: usize,
    world: RcWorld,
    places: Places,
}

impl<'a> Model for Session<'a> {
    ghost use Rattle.bx_terms.specs.TreeCode.{tree_code};
    ghost use Rattle.bx_terms.specs.contracts.kinds.Trap as traps;
    ghost use Rattle.bx_load.specs.contracts.image.Image as images;
    ghost use Rattle.bx_proc.specs.contracts.process.Proc as process;
    ghost use Rattle.bx_world.specs.contracts.choices.Choice as made;
    ghost use Rattle.bx_world.specs.contracts.lanes.Lanes as lane;
    ghost use Rattle.bx_world.specs.World.{state_code};
    ghost use Rattle.bx_debug.specs.Sessions.{History, history_code};
    ghost use Rattle.bx_debug.specs.Leading.{IsSession};

    ghost Value = { History };

    ghost coded = { history_code images.the_row.coded
        (state_code process.the_row.coded tree_code lane.the_row.coded traps.the_row.coded)
        made.the_row.coded };

    ghost view = { λ s. record {
      image = s.trail.image;
      start = s.trail.start.world;
      choices
          = s.trail.choices;
      at = s.at;
      places = s.places;
    } };

    ghost invariant = { λ s. IsSession s.trail s.at s.world };
}

impl<'a> Session<'a> {
    /// A session at the start of that exported function of no arguments, with no choice made and no breakpoint set.
    ///
    /// `NoEntry` exactly where the module does not export it; memory is taken only where it does.
    pub fn new(
        alloc: Global,
        image: &'a Image,
        module: AtomId,
        function: AtomId,
    ) -> Result<Session<'a>, Fault>
        ensures { Gives (IsSome (export image.entry.now «module» function 0)) (λ s. s) result
            (opened image.entry.now «module» function) }
    {
        let world = RcWorld::start(alloc, image, module, function)?;
        let start = RunEnd {
            world: shared(alloc, &world)?,
            applied: 0,
            refused: None,
        };
        let trail = Trail::of(alloc, image, start, Schedule::new(alloc))?;
        Ok(Session {
            trail,
            at: 0,
            world,
            places: Places::new(alloc),
        })
    }

    /// The world that the choices before the position lead to, each of which was applied.
    pub fn world(&self) -> &RcWorld
        ensures shown { result.now ≡ world_of self.now }
        ensures run { ran self.now.image (behind self.now) (unchosen self.now.start)
            ≡ record { world = result.now; applied = self.now.at; refused = None } }
    {
        &self.world
    }

    /// How many choices lead to the world that is shown.
    pub fn at(&self) -> usize
        ensures at { result ≡ self.now.at }
        ensures within { result ≤ length self.now.choices }
    {
        self.at
    }

    /// How many choices there are, those behind the position included.
    pub fn len(&self) -> usize
        ensures { result ≡ length self.now.choices }
    {
        self.trail.len()
    }

    /// Whether no choice was made.
    pub fn is_empty(&self) -> bool
        ensures { IsTrue result ↔ (self.now.choices ≡ []) }
    {
        self.trail.schedule().is_empty()
    }

    /// The choices in order, those behind the position included.
    pub fn schedule(&self) -> &Schedule
        ensures { result.now ≡ self.now.choices }
    {
        self.trail.schedule()
    }

    /// The loaded code.
    pub fn image(&self) -> &'a Image
        ensures { result.now ≡ self.now.image }
    {
        self.trail.image()
    }

    /// The world in which no choice was made yet.
    pub fn start(&self) -> &RcWorld
        ensures { result.now ≡ self.now.start }
    {
        &self.trail.start().world
    }

    /// Whether both are sessions over equal code from equal starts, with the same choices and breakpoints, at the same position.
    #[tactic(auto, using(crate::proofs::Sameness::same_history))]
    pub fn same(&self, other: &Session<'_>) -> bool
        ensures { IsTrue result ↔ (self.now ≡ other.now) }
    {
        self.at == other.at && self.places.same(&other.places) && self.trail.same(&other.trail)
    }

    /// Makes a choice, and removes those behind the position.
    ///
    /// `Halted` exactly where the world has trapped, else `NotEnabled` exactly where the choice is not enabled; a refused choice
    /// removes nothing. Memory is taken only for a choice that is enabled.
    pub fn step(&mut self, alloc: Global, choice: Choice) -> Result<(), Fault>
        ensures { Does (refusal (world_of self.old) choice ≡ None) self.old self.new result
            (stepped choice self.old) }
    {
        if let Some(fault) = self.refusal(choice) {
            return Err(fault);
        }
        let mut choices = Schedule::new(alloc);
        choices.push(choice, 1)?;
        self.make(alloc, &choices)?;
        Ok(())
    }

    /// Moves the position back by so many choices.
    ///
    /// `BeforeStart` exactly where there are fewer before it. Memory is taken only where it moves.
    pub fn back(&mut self, alloc: Global, count: usize) -> Result<(), Fault>
        ensures { Does ((0 < count) × (count ≤ self.old.at)) self.old self.new result
            (back count self.old) }
    {
        if count > self.at {
            return Err(Fault::BeforeStart);
        }
        self.move_to(alloc, self.at - count)?;
        Ok(())
    }

    /// Moves the position forward by so many choices.
    ///
    /// `AfterEnd` exactly where there are fewer behind it. Memory is taken only where it moves.
    pub fn forward(&mut self, alloc: Global, count: usize) -> Result<(), Fault>
        ensures { Does ((0 < count) × (count ≤ length self.old.choices - self.old.at)) self.old self.new result
            (forward count self.old) }
    {
        if count > self.trail.len() - self.at {
            return Err(Fault::AfterEnd);
        }
        self.move_to(alloc, self.at + count)?;
        Ok(())
    }

    /// Makes choices in order, up to the first that stops it, and removes those behind the position as soon as one is applied.
    ///
    /// It stops before a choice that is not enabled, behind one that traps, and behind the first run that leaves its process, not
    /// ended, at a breakpoint; what was applied before stays. Memory is taken only where a choice is applied.
    pub fn go(&mut self, alloc: Global, choices: &Schedule) -> Result<Stop, Fault>
        ensures { Does (GoTakes choices.now self.old) self.old self.new result
            (Ok (gone choices.now self.old)) }
    {
        if let Some(stop) = stop_at_once(choices, &self.world) {
            return Ok(stop);
        }
        Ok(self.make(alloc, choices)?)
    }

    /// Runs a process by itself, up to that bound, and tells why it goes no further. That is a `go` of so many runs of it: the least
    /// number behind which there is a reason, and at most 100,000.
    ///
    /// It can only run out of memory, which is taken only where it runs.
    pub fn run(&mut self, alloc: Global, pid: u32, bound: Bound) -> Result<Pause, Fault>
        ensures { Does (RunTakes bound pid self.old) self.old self.new result
            (Ok (run_of bound pid self.old)) }
    {
        let runner = Runner {
            image: self.trail.image(),
            places: &self.places,
            pid,
            bound,
        };
        if let Some(pause) = runner.pause_before(&self.world) {
            return Ok(pause);
        }
        let (times, pause) = runner.runs(alloc, &self.world)?;
        let mut choices = Schedule::new(alloc);
        choices.push(Choice::Run(pid), times)?;
        self.make(alloc, &choices)?;
        Ok(pause)
    }

    /// Exchanges the choice of that number, counted from 1, and the one behind it, where both stand before the position and are
    /// independent where they stand. The position stays, the choices behind it and the breakpoints, and the world that is shown.
    ///
    /// `NotIndependent` with the number exactly where they are not, or one of them does not stand there. Memory is taken only
    /// where both do and concern different processes.
    pub fn swap(&mut self, alloc: Global, number: usize) -> Result<(), Fault>
        ensures { Swaps number self.old self.new result }
    {
        if number == 0 || number >= self.at {
            return Err(Fault::NotIndependent { position: number });
        }
        if !self.trail.exchange(alloc, number - 1)? {
            return Err(Fault::NotIndependent { position: number });
        }
        Ok(())
    }

    /// Exchanges the choices before the position so that those of one process stand together, as far as they are independent. The
    /// position stays, the choices behind it and the breakpoints, and the world that is shown.
    ///
    /// It can only run out of memory.
    pub fn tidy(&mut self, alloc: Global) -> Result<(), Fault>
        ensures { Does ⊤ self.old self.new result (Ok (tidy_of self.old, tt)) }
    {
        self.trail = tidied(alloc, &self.trail, self.at)?;
        Ok(())
    }

    /// Takes back the choice of that number, counted from 1, with all that depend on it: the others that stand before the position
    /// come to stand in front of these, by exchanges, and the position is between them. So `forward` makes again what is taken back,
    /// and what stood behind the position follows. The breakpoints stay.
    ///
    /// `NotIndependent` with the number exactly where no such choice stands before the position. Memory is taken only where one does.
    pub fn undo(&mut self, alloc: Global, number: usize) -> Result<(), Fault>
        ensures { Does ((0 < number) × (number ≤ self.old.at)) self.old self.new result
            (undo_of number self.old) }
    {
        if number == 0 || number > self.at {
            return Err(Fault::NotIndependent { position: number });
        }
        let (trail, before) = undone(alloc, &self.trail, self.at, number - 1)?;
        let world = into_world(trail.end_at(alloc, before)?);
        self.trail = trail;
        self.at = before;
        self.world = world;
        Ok(())
    }

    /// Sets a breakpoint at an address, whichever it is.
    ///
    /// It can only run out of memory, and none is taken where it is set already.
    pub fn set_break(&mut self, _alloc: Global, place: Place) -> Result<(), Fault>
        ensures { Does (is_set self.old.places place ≡ false) self.old self.new result
            (Ok (with_break place self.old, tt)) }
    {
        self.places.insert(place)?;
        Ok(())
    }

    /// Clears the breakpoint at an address, whichever it is.
    pub fn clear_break(&mut self, place: Place)
        ensures { self.new ≡ without_break place self.old }
    {
        self.places.remove(place);
    }

    /// Why a choice is refused in the world that is shown.
    fn refusal(&self, choice: Choice) -> Option<Fault>
        ensures { result ≡ refusal (world_of self.now) choice }
    {
        refusal(choice, &self.world)
    }

    /// Makes choices of which one is applied at least, and removes those behind the position: why no more were.
    fn make(&mut self, alloc: Global, choices: &Schedule) -> Result<Stop, AllocError>
        requires { GoTakes choices.now self.old }
        ensures ok { IfOk result (λ stop. gone choices.now self.old ≡ (self.new, stop)) }
        ensures err { OnErr result (self.new ≡ self.old) }
    {
        let mut walk = Walk::begun(alloc, &self.trail, &self.world, self.at)?;
        walk.follow(alloc, &self.places, choices)?;
        let Walk { made, end, stop } = walk;
        self.trail.replace_tail(self.at, made)?;
        self.at = self.trail.len();
        self.world = into_world(end);
        Ok(stop)
    }

    /// Moves the position, making again the choices behind the nearest world that was kept before it.
    fn move_to(&mut self, alloc: Global, at: usize) -> Result<(), AllocError>
        requires { at ≤ length self.old.choices }
        ensures ok { OnOk result (self.new ≡ record self.old { at = at }) }
        ensures err { OnErr result ((self.new ≡ self.old) × (at ≢ self.old.at)) }
    {
        if at == self.at {
            return Ok(());
        }
        let world = self.world_at(alloc, at)?;
        self.world = world;
        self.at = at;
        Ok(())
    }

    /// The world that so many choices lead to. Only those behind the nearest world that was kept before it are made again.
    pub fn world_at(&self, alloc: Global, at: usize) -> Result<RcWorld, AllocError>
        requires { at ≤ length self.now.choices }
        ensures { IfOk result (λ w. w ≡ led self.now.image (take at self.now.choices)
            self.now.start) }
    {
        let end = self.trail.end_at(alloc, at)?;
        Ok(into_world(end))
    }
}
