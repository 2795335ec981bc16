//! Worlds, stepped by one choice at a time.

ghost use Rattle.std.specs.Prelude.{◌≡◌, ◌≢◌, ◌↔◌, ◌<◌, ◌≤◌, min, [], length, option_map, slice_get, None, IsTrue, IsSome, IfOk, OnErr, Ok};
ghost use Rattle.bx_terms.specs.Outcomes.{Does, Gives};
ghost use Rattle.bx_load.specs.Image.{export};
ghost use Rattle.bx_world.specs.World.{started};
ghost use Rattle.bx_world.specs.Enabled.{enabled, open_choices, can};
ghost use Rattle.bx_world.specs.Cells.{cells};
ghost use Rattle.bx_world.specs.Choosing.{applied, bare, shown_alone};
ghost use Rattle.bx_world.specs.Batches.{Fits, WorldActs, WorldRunsOn, state_after};
ghost use Rattle.bx_world.specs.declared.acts.Act.TheVariants as acts;
ghost use Rattle.bx_world.specs.declared.choices.Choice.TheVariants as choices;
ghost use Rattle.bx_world.specs.Seen.{life_of, seen, standing_of, place_in};

use crate::actors::Actor;
use crate::acts::Act;
use crate::choices::{Choice, Choices};
use crate::choosing::push_deliveries;
use crate::lanes::Lanes;
use crate::outcomes::{Outcome, Standing};
use crate::procs::Procs;
use crate::shown::Shown;
use crate::turns::{Batch, Tried};
use bx_load::Image;
use bx_proc::Proc;
use bx_share::{ArcHold, Hold, RcHold, Same};
use bx_signals::Channels;
use bx_terms::{AtomId, Fault, Place, Trap};
use std::alloc::{AllocError, Global};
use std::marker::Model;

/// Processes and what they share, by a holder for each. A snapshot shares all of it, and a choice copies what it changes
/// where that is shared.
#[derive(Drop)]
pub struct World<P: Hold<Proc>, C: Hold<Lanes>> {
    procs: Procs<P>,
    lanes: C,
    trap: Option<(Trap, u32)>,
}

/// A world that stays in one thread.
pub type RcWorld = World<RcHold<Proc>, RcHold<Lanes>>;

/// A world whose parts may be shared between threads.
pub type ArcWorld = World<ArcHold<Proc>, ArcHold<Lanes>>;

impl<P: Hold<Proc>, C: Hold<Lanes>> Model for World<P, C> {
    ghost use Rattle.bx_terms.specs.TreeCode.{tree_code};
    ghost use Rattle.bx_terms.specs.contracts.kinds.Trap as traps;
    ghost use Rattle.bx_proc.specs.contracts.process.Proc as process;
    ghost use Rattle.bx_world.specs.contracts.lanes.Lanes as lane;
    ghost use Rattle.bx_world.specs.World.{State, state_code};

    ghost Value = { State };

    ghost coded = { state_code process.the_row.coded tree_code lane.the_row.coded
        traps.the_row.coded };

    ghost view = { λ w. record { processes = w.procs; lanes = C.shown w.lanes; trap = w.trap } };
}

impl<P: Hold<Proc>, C: Hold<Lanes>> World<P, C> {
    /// The world of one process, at the entry of that exported function of no arguments.
    ///
    /// `NoEntry` exactly where the module does not export it; memory is taken only where it does.
    pub fn start(
        alloc: Global,
        image: &Image,
        module: AtomId,
        function: AtomId,
    ) -> Result<World<P, C>, Fault>
        ensures { Gives (IsSome (export image.now «module» function 0)) (λ w. w) result
            (started image.now «module» function) }
    {
        let Some(place) = image.entry(module, function, 0) else {
            return Err(Fault::NoEntry);
        };
        let first = Proc::new(alloc, Some(place), &[])?;
        let procs = Procs::new(alloc, first)?;
        let lanes = C::put(alloc, Lanes::new(alloc))?;
        Ok(World {
            procs,
            lanes,
            trap: None,
        })
    }

    /// The choices that are enabled: a run of each process that can run, by rising pid; then a delivery from each channel in
    /// which something waits, by rising pair; then an expiration of each wait that can expire, by rising pid. None once the
    /// world has trapped.
    ///
    /// It can only run out of memory, and none is taken where no choice is enabled.
    pub fn enabled(&self, alloc: Global) -> Result<Vec<Choice>, Fault>
        ensures { Gives (enabled self.now ≢ []) (λ choices. choices.items) result
            (Ok (enabled self.now)) }
    {
        if self.trap.is_some() {
            return Ok(Vec::new(alloc));
        }
        let choices = self.open(alloc)?;
        Ok(choices)
    }

    /// The choices that are enabled in a world that has not trapped.
    fn open(&self, alloc: Global) -> Result<Vec<Choice>, AllocError>
        ensures ok { IfOk result
            (λ choices. choices.items ≡ open_choices self.now.processes self.now.lanes) }
        ensures err { OnErr result (open_choices self.now.processes self.now.lanes ≢ []) }
    {
        let mut choices = Vec::new(alloc);
        self.procs.push_runs(&mut choices)?;
        push_deliveries(alloc, &self.lanes.see().channels, &mut choices)?;
        self.procs.push_expirations(&mut choices)?;
        Ok(choices)
    }

    /// Whether a choice is among those that are enabled. It is looked up, in a time that doesn't depend on how many there are.
    #[inline(always)]
    pub fn can(&self, choice: Choice) -> bool
        ensures { result ≡ can self.now choice }
    {
        if self.trap.is_some() {
            return false;
        }
        match choice {
            Choice::Run(pid) => self.procs.may_run(pid),
            Choice::Deliver(from, to) => self.lanes.see().channels.first(from, to).is_some(),
            Choice::Expire(pid) => self.procs.may_expire(pid),
        }
    }

    /// Applies a choice.
    ///
    /// `Halted` exactly where the world has trapped, else `NotEnabled` exactly where the choice is not enabled. After any
    /// refusal, out of memory among them, nothing has changed.
    #[inline(always)]
    pub fn apply(&mut self, alloc: Global, image: &Image, choice: Choice) -> Result<(), Fault>
        ensures { Does (IsTrue (can self.old choice)) self.old self.new result
            (applied image.now choice self.old) }
    {
        if self.trap.is_some() {
            return Err(Fault::Halted);
        }
        match self.apply_some(alloc, image, choice, 1).last {
            Some(tried) => tried.answer(),
            None => Ok(()),
        }
    }

    /// What a choice would do, by itself: a world of equal processes in which nothing waited but the signal that the choice takes and
    /// nothing was displayed, behind that choice. So its channels hold what the choice puts, and its output what it displays.
    ///
    /// `Halted` exactly where the world has trapped, else `NotEnabled` exactly where the choice is not enabled.
    pub fn change(&self, alloc: Global, image: &Image, choice: Choice) -> Result<World<P, C>, Fault>
        ensures { Gives (IsTrue (can self.now choice)) (λ w. w) result
            (shown_alone image.now choice self.now) }
    {
        if self.trap.is_some() {
            return Err(Fault::Halted);
        }
        if !self.can(choice) {
            return Err(Fault::NotEnabled);
        }
        let mut world = self.bare(alloc, choice)?;
        match world.apply(alloc, image, choice) {
            Ok(()) => Ok(world),
            Err(refused) => Err(refused),
        }
    }

    /// Equal processes, and nothing on its way but the signal that a choice takes.
    fn bare(&self, alloc: Global, choice: Choice) -> Result<World<P, C>, AllocError>
        ensures { IfOk result (λ w. w ≡ bare choice self.now) }
    {
        let procs = self.procs.share(alloc)?;
        let lanes = self.lanes.see().only(alloc, choice)?;
        let lanes = C::put(alloc, lanes)?;
        Ok(World {
            procs,
            lanes,
            trap: self.trap,
        })
    }

    /// Applies a choice, at most so many times: a run as often as its process runs by itself, and then once more, whatever that has
    /// to do with others; any other once.
    #[inline(always)]
    pub(crate) fn apply_some(
        &mut self,
        alloc: Global,
        image: &Image,
        choice: Choice,
        times: u64,
    ) -> Batch
        requires going { self.old.trap ≡ None }
        requires some { 0 < times }
        ensures fits { Fits times result.ran result.last }
        ensures done { WorldRunsOn image.now choice self.old self.new result.ran result.last }
    {
        match choice {
            Choice::Run(pid) => self.run(Actor { alloc, image, pid }, times),
            Choice::Deliver(from, pid) => Batch::one(self.hear(Actor { alloc, image, pid }, from)),
            Choice::Expire(pid) => Batch::one(self.expire(Actor { alloc, image, pid })),
        }
    }

    /// Runs a process, at most so many times.
    #[inline(always)]
    fn run(&mut self, by: Actor<'_>, times: u64) -> Batch
        requires going { self.old.trap ≡ None }
        requires some { 0 < times }
        ensures fits { Fits times result.ran result.last }
        ensures done { WorldRunsOn by.entry.image.now (choices.Run by.entry.pid) self.old self.new
            result.ran result.last }
    {
        let batch = self.procs.run(by, &mut self.lanes, times);
        let Some(tried) = batch.last else {
            return batch;
        };
        self.stop_if_trapped(by.pid, tried);
        batch
    }

    /// The first signal from that process takes effect, where one waits.
    #[inline(never)]
    fn hear(&mut self, by: Actor<'_>, from: u32) -> Tried
        requires { self.old.trap ≡ None }
        ensures { WorldActs by.entry.image.now by.entry.pid (acts.Hear from) self.old self.new
            result }
    {
        self.act(by, Act::Hear(from))
    }

    /// A process's wait is over, where it can expire.
    #[inline(never)]
    fn expire(&mut self, by: Actor<'_>) -> Tried
        requires { self.old.trap ≡ None }
        ensures { WorldActs by.entry.image.now by.entry.pid acts.Expire self.old self.new result }
    {
        self.act(by, Act::Expire)
    }

    /// Has a process do what it is to do, where it can do it.
    #[inline(always)]
    fn act(&mut self, by: Actor<'_>, act: Act) -> Tried
        requires { self.old.trap ≡ None }
        ensures { WorldActs by.entry.image.now by.entry.pid act self.old self.new result }
    {
        let tried = Tried::of(self.procs.act(by, &mut self.lanes, act));
        self.stop_if_trapped(by.pid, tried);
        tried
    }

    /// After a trap no choice is enabled any more.
    #[inline(always)]
    fn stop_if_trapped(&mut self, pid: u32, tried: Tried)
        ensures { self.new ≡ state_after pid self.old tried }
    {
        if let Tried::Trapped(kind) = tried {
            self.trap = Some((kind, pid));
        }
    }

    /// An equal world, which later choices in this one do not change.
    ///
    /// It can only run out of memory.
    pub fn snapshot(&self, alloc: Global) -> Result<World<P, C>, Fault>
        ensures { Gives (Unit {0}) (λ w. w) result (Ok self.now) }
    {
        let procs = self.procs.share(alloc)?;
        let lanes = self.lanes.share(alloc)?;
        Ok(World {
            procs,
            lanes,
            trap: self.trap,
        })
    }

    /// Puts a deep copy in the place of each process, and of what they share, so that threads whose worlds parted late do not wait
    /// for one count. Nothing that can be seen changes.
    ///
    /// One of the room goes for each register, frame, link, message in a mailbox and displayed term, and for each list cell and
    /// element of a tuple. Where room or memory run out, the rest stays shared.
    pub fn unshare(&mut self, alloc: Global, room: &mut usize) -> Result<(), AllocError>
        ensures { self.new ≡ self.old }
    {
        self.procs.unshare(alloc, room)?;
        let lanes = self.lanes.see().deep_copy(alloc, room)?;
        self.lanes = C::put(alloc, lanes)?;
        Ok(())
    }

    /// What can be seen of the world.
    ///
    /// It can only run out of memory.
    pub fn outcome(&self, alloc: Global) -> Result<Outcome, Fault>
        ensures { Gives (Unit {0}) (λ o. o) result (Ok (seen self.now)) }
    {
        let state = self.standing(alloc)?;
        let statuses = self.procs.statuses(alloc)?;
        let output = self.lanes.see().output().copy(alloc)?;
        Ok(Outcome {
            state,
            statuses,
            output,
        })
    }

    fn standing(&self, alloc: Global) -> Result<Standing, Fault>
        ensures { Gives (Unit {0}) (λ s. s) result
            (Ok (standing_of self.now.trap (enabled self.now))) }
    {
        if let Some((kind, pid)) = self.trap {
            return Ok(Standing::Trapped(kind, pid));
        }
        let choices = self.open(alloc)?;
        if choices.is_empty() {
            return Ok(Standing::Quiet);
        }
        Ok(Standing::Open(Choices::of(choices)))
    }

    /// Why nothing happens any more, and which process's choice it was; `None` where the world has not trapped.
    #[inline(always)]
    pub fn trap(&self) -> Option<(Trap, u32)>
        ensures { result ≡ self.now.trap }
    {
        self.trap
    }

    /// Where the process of that pid stands; `None` where there is none, where it has ended, and where it has no address.
    #[inline(always)]
    pub fn place(&self, pid: u32) -> Option<Place>
        ensures { result ≡ place_in pid self.now }
    {
        self.procs.place(pid)
    }

    /// How many processes there are, those that have ended included.
    pub fn len(&self) -> usize
        ensures count { result ≡ length self.now.processes }
        ensures few { result ≤ 1024 }
    {
        self.procs.len()
    }

    /// The process of that pid; `None` where there is none.
    pub fn process(&self, pid: u32) -> Option<Shown<'_>>
        ensures { option_map life_of result ≡ slice_get self.now.processes pid }
    {
        self.procs.get(pid)
    }

    /// The signals that wait.
    pub fn channels(&self) -> &Channels
        ensures { result.now ≡ self.now.lanes.channels }
    {
        &self.lanes.see().channels
    }

    /// How many cells of some twenty bytes a copy takes, at the least: sixteen for a process itself, and one for each register, frame,
    /// message, link, channel, signal and displayed term. What is free is copied too, and counts.
    pub fn cells(&self) -> u64
        ensures { min (cells self.now) 18446744073709551615 ≤ result }
    {
        let lanes = self.lanes.see();
        let displayed = lanes.output().as_slice().len() as u64;
        self.procs
            .cells()
            .saturating_add(lanes.channels.cells())
            .saturating_add(displayed)
    }

    /// Whether both are equal.
    pub fn same(&self, other: &World<P, C>) -> bool
        ensures { IsTrue result ↔ (self.now ≡ other.now) }
    {
        self.trap == other.trap
            && self.procs.same(&other.procs)
            && self.lanes.see().same(other.lanes.see())
    }
}
