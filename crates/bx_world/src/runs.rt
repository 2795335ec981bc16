//! Runs: what a list of choices leads to.

ghost use Rattle.std.specs.Prelude.{◌≡◌, ◌↔◌, ◌+◌, ◌<◌, ◌≤◌, ◌||◌, IsTrue, Ok, is_some};
ghost use Rattle.bx_terms.specs.Outcomes.{Does};
ghost use Rattle.bx_world.specs.Running.{advanced, AdvanceTakes, DoesMany, DoesSome, Notes};

use crate::choices::Choice;
use crate::lanes::Lanes;
use crate::turns::{Batch, Tried};
use crate::world::World;
use bx_load::Image;
use bx_proc::Proc;
use bx_share::Hold;
use bx_terms::Fault;
use std::alloc::{AllocError, Global};
use std::marker::Model;

/// Where a list of choices has led: the world, how many of the choices were applied, and the one that was refused, where one was.
#[derive(Drop)]
pub struct RunEnd<P: Hold<Proc>, C: Hold<Lanes>> {
    pub world: World<P, C>,
    pub applied: u64,
    pub refused: Option<Choice>,
}

impl<P: Hold<Proc>, C: Hold<Lanes>> Model for RunEnd<P, C> {
    ghost use Rattle.bx_terms.specs.TreeCode.{tree_code};
    ghost use Rattle.bx_terms.specs.contracts.kinds.Trap as traps;
    ghost use Rattle.bx_proc.specs.contracts.process.Proc as process;
    ghost use Rattle.bx_world.specs.contracts.choices.Choice as choices;
    ghost use Rattle.bx_world.specs.contracts.lanes.Lanes as lane;
    ghost use Rattle.bx_world.specs.World.{state_code};
    ghost use Rattle.bx_world.specs.Running.{Ended, ended_code};

    ghost Value = { Ended };

    ghost coded = { ended_code
        (state_code process.the_row.coded tree_code lane.the_row.coded traps.the_row.coded)
        choices.the_row.coded };

    ghost view = { λ a. record { world = a.world; applied = a.applied; refused = a.refused } };
}

impl<P: Hold<Proc>, C: Hold<Lanes>> RunEnd<P, C> {
    /// Whether nothing changes any more: a choice was refused, or the world has trapped.
    #[inline(always)]
    fn is_over(&self) -> bool
        ensures { result ≡ (is_some self.now.refused || is_some self.now.world.trap) }
    {
        self.refused.is_some() || self.world.trap().is_some()
    }

    /// Whether both have led to equal worlds, by as many choices, and the same choice was refused, or none.
    pub fn same(&self, other: &RunEnd<P, C>) -> bool
        ensures { IsTrue result ↔ (self.now ≡ other.now) }
    {
        self.applied == other.applied
            && self.refused == other.refused
            && self.world.same(&other.world)
    }
}

/// One choice more: it is applied, the trapping one too, or it is kept as the refused one where it is not enabled. Once a
/// choice was refused or the world has trapped, nothing changes.
///
/// It can only run out of memory, and then nothing has changed.
#[inline(always)]
pub fn advance<P: Hold<Proc>, C: Hold<Lanes>>(
    alloc: Global,
    end: &mut RunEnd<P, C>,
    image: &Image,
    choice: Choice,
) -> Result<(), Fault>
    requires { end.old.applied < u64.MAX }
    ensures { Does (AdvanceTakes choice end.old) end.old end.new result
        (Ok (advanced image.now choice end.old, tt)) }
{
    advance_some(alloc, end, image, choice, 1)?;
    Ok(())
}

/// So many choices more, all of them equal: what so many calls of `advance` give. Once one was refused or the world has
/// trapped, nothing changes.
///
/// It can only run out of memory. Then those are made that stand before the one that takes it: `applied` tells how many.
pub fn advance_many<P: Hold<Proc>, C: Hold<Lanes>>(
    alloc: Global,
    end: &mut RunEnd<P, C>,
    image: &Image,
    choice: Choice,
    times: u64,
) -> Result<(), Fault>
    requires { end.old.applied + times ≤ u64.MAX }
    ensures { DoesMany image.now choice times end.old end.new result }
{
    let mut left = times;
    while left > 0 {
        match advance_some(alloc, end, image, choice, left) {
            Ok(made) => left -= made,
            Err(_) => return Err(Fault::Memory),
        }
    }
    Ok(())
}

/// As many of them as one look at the process allows. It answers how many those are; none is left where nothing changes any more.
#[inline(always)]
fn advance_some<P: Hold<Proc>, C: Hold<Lanes>>(
    alloc: Global,
    end: &mut RunEnd<P, C>,
    image: &Image,
    choice: Choice,
    times: u64,
) -> Result<u64, AllocError>
    requires some { 0 < times }
    requires few { end.old.applied + times ≤ u64.MAX }
    ensures { DoesSome image.now choice times end.old end.new result }
{
    if end.is_over() {
        return Ok(times);
    }
    let Batch { ran, last } = end.world.apply_some(alloc, image, choice, times);
    end.applied += ran;
    let Some(tried) = last else {
        return Ok(ran);
    };
    match note(end, choice, tried) {
        Ok(()) => Ok(ran + 1),
        Err(failed) => Err(failed),
    }
}

/// Counts a choice that was applied, and keeps one that was not enabled.
#[inline(always)]
fn note<P: Hold<Proc>, C: Hold<Lanes>>(
    end: &mut RunEnd<P, C>,
    choice: Choice,
    tried: Tried,
) -> Result<(), AllocError>
    requires { end.old.applied < u64.MAX }
    ensures { Notes choice tried end.old end.new result }
{
    match tried {
        Tried::Done | Tried::Trapped(_) => end.applied += 1,
        Tried::NotEnabled => end.refused = Some(choice),
        Tried::Memory => return Err(AllocError),
    }
    Ok(())
}
