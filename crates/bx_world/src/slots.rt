//! The life of one pid, as it is kept.

ghost use Rattle.std.specs.Prelude.{◌≡◌, ◌↔◌, Some, IsTrue, IfOk};
ghost use Rattle.bx_terms.specs.Outcomes.{Does};
ghost use Rattle.bx_terms.specs.Tree.{Tree};
ghost use Rattle.bx_world.specs.Acting.{life_acted, exited_acted, MayLack};
ghost use Rattle.bx_world.specs.Enabled.{may_run, may_expire};
ghost use Rattle.bx_world.specs.Lives.{life};
ghost use Rattle.bx_world.specs.Seen.{life_of, status_of, place_of};
ghost use Rattle.bx_world.specs.World.{Exited};

use crate::actors::Actor;
use crate::acts::Act;
use crate::delivering::receive_exited;
use crate::lanes::Lanes;
use crate::shown::Shown;
use crate::turns::Turn;
use bx_proc::{Proc, Status};
use bx_share::{Hold, Same};
use bx_terms::{Fault, Place, Term};
use std::alloc::{AllocError, Global};

/// A process behind its holder, or of one that has ended the reason alone.
#[derive(Drop)]
pub enum Slot<P> {
    Live(P),
    Exited(Term),
}

impl<P: Hold<Proc>> Slot<P> {
    /// What the process of this pid is to do. Where it ends, its reason takes its place.
    #[inline(always)]
    #[tactic(auto, using(crate::proofs::Acted::ended, crate::proofs::Acted::went))]
    pub(crate) fn act<C: Hold<Lanes>>(
        &mut self,
        by: Actor<'_>,
        lanes: &mut C,
        act: Act,
    ) -> Result<Turn, Fault>
        ensures { Does (MayLack act by.entry.pid (C.shown lanes.old) (Some (life P.shown self.old)))
            (life P.shown self.old, C.shown lanes.old) (life P.shown self.new, C.shown lanes.new)
            result (life_acted by.entry.image.now by.entry.pid act (C.shown lanes.old)
            (life P.shown self.old)) }
    {
        let Slot::Live(holder) = self else {
            return act_exited(by, lanes, act);
        };
        match by.act_on(holder, lanes, act)? {
            Turn::Ended(reason) => {
                *self = Slot::Exited(reason);
                Ok(Turn::Ran)
            }
            turn => Ok(turn),
        }
    }
}

/// A process that has ended does nothing more; signals to it take effect without it.
#[cold]
#[inline(never)]
fn act_exited<C: Hold<Lanes>>(by: Actor<'_>, lanes: &mut C, act: Act) -> Result<Turn, Fault>
    ensures { (reason : Tree) →
        Does (MayLack act by.entry.pid (C.shown lanes.old) (Some (Exited reason)))
        (Exited reason, C.shown lanes.old) (Exited reason, C.shown lanes.new) result
        (life_acted by.entry.image.now by.entry.pid act (C.shown lanes.old) (Exited reason)) }
{
    match hear_exited(by.alloc, lanes, by.pid, act) {
        Ok(()) => Ok(Turn::Ran),
        Err(refused) => Err(refused),
    }
}

fn hear_exited<C: Hold<Lanes>>(
    alloc: Global,
    lanes: &mut C,
    pid: u32,
    act: Act,
) -> Result<(), Fault>
    ensures { (reason : Tree) → Does (MayLack act pid (C.shown lanes.old) (Some (Exited reason)))
        (C.shown lanes.old) (C.shown lanes.new) result (exited_acted act pid (C.shown lanes.old)) }
{
    let Act::Hear(from) = act else {
        return Err(Fault::NotEnabled);
    };
    if lanes.see().channels.first(from, pid).is_none() {
        return Err(Fault::NotEnabled);
    }
    let lanes = lanes.edit(alloc)?;
    receive_exited(alloc, lanes, from, pid)
}

#[inline(always)]
pub(crate) fn slot_may_run<P: Hold<Proc>>(slot: &Slot<P>) -> bool
    ensures { result ≡ may_run (life P.shown slot.now) }
{
    match slot {
        Slot::Live(holder) => holder.see().can_run(),
        Slot::Exited(_) => false,
    }
}

#[inline(always)]
pub(crate) fn slot_may_expire<P: Hold<Proc>>(slot: &Slot<P>) -> bool
    ensures { result ≡ may_expire (life P.shown slot.now) }
{
    match slot {
        Slot::Live(holder) => holder.see().can_expire(),
        Slot::Exited(_) => false,
    }
}

#[inline(always)]
pub(crate) fn slot_place<P: Hold<Proc>>(slot: &Slot<P>) -> Option<Place>
    ensures { result ≡ place_of (life P.shown slot.now) }
{
    match slot {
        Slot::Live(holder) => holder.see().place(),
        Slot::Exited(_) => None,
    }
}

pub(crate) fn slot_shown<P: Hold<Proc>>(slot: &Slot<P>) -> Shown<'_>
    ensures { life_of result ≡ life P.shown slot.now }
{
    match slot {
        Slot::Live(holder) => Shown::Live(holder.see()),
        Slot::Exited(reason) => Shown::Exited(reason),
    }
}

pub(crate) fn slot_status<P: Hold<Proc>>(
    alloc: Global,
    slot: &Slot<P>,
) -> Result<Status, AllocError>
    ensures { IfOk result (λ status. status ≡ status_of (life P.shown slot.now)) }
{
    match slot {
        Slot::Live(holder) => holder.see().status().copy(alloc),
        Slot::Exited(reason) => Ok(Status::Ended(reason.copy(alloc)?)),
    }
}

pub(crate) fn share_slot<P: Hold<Proc>>(
    alloc: Global,
    slot: &Slot<P>,
) -> Result<Slot<P>, AllocError>
    ensures { IfOk result (λ other. life P.shown other ≡ life P.shown slot.now) }
{
    match slot {
        Slot::Live(holder) => Ok(Slot::Live(holder.share(alloc)?)),
        Slot::Exited(reason) => Ok(Slot::Exited(reason.copy(alloc)?)),
    }
}

/// A deep copy of what is kept of a process.
pub(crate) fn deep_copy_slot<P: Hold<Proc>>(
    alloc: Global,
    room: &mut usize,
    slot: &Slot<P>,
) -> Result<Slot<P>, AllocError>
    ensures { IfOk result (λ other. life P.shown other ≡ life P.shown slot.now) }
{
    match slot {
        Slot::Live(holder) => {
            let process = holder.see().deep_copy(alloc, room)?;
            Ok(Slot::Live(P::put(alloc, process)?))
        }
        Slot::Exited(reason) => Ok(Slot::Exited(reason.deep_copy(alloc, room)?)),
    }
}

pub(crate) fn same_slot<P: Hold<Proc>>(one: &Slot<P>, other: &Slot<P>) -> bool
    ensures { IsTrue result ↔ (life P.shown one.now ≡ life P.shown other.now) }
{
    match (one, other) {
        (Slot::Live(holder), Slot::Live(other)) => holder.see().same(other.see()),
        (Slot::Exited(reason), Slot::Exited(other)) => reason.same(other),
        _ => false,
    }
}
