//! Whether two choices are independent where a run has come.

ghost use Rattle.std.specs.Prelude.{◌≡◌, ◌≢◌, ◌↔◌, ◌+◌, ◌==◌, ◌<◌, ◌≤◌, ◌^◌, if◌then◌else◌, true, drop, length, None, IfOk, IsSome, IsTrue};
ghost use Rattle.bx_world.specs.Enabled.{actor, can};
ghost use Rattle.bx_world.specs.Independent.{one_is_local, IsLocal};
ghost use Rattle.bx_replay.specs.Exchanges.{next_apart, IsSettled, SameProcess};
ghost use Rattle.bx_replay.specs.Moving.{IndependentAt, Passes};

use crate::runs::{RcEnd, follow_both};
use bx_load::Image;
use bx_plan::Schedule;
use bx_share::Same;
use bx_world::{Choice, RcWorld, Shown};
use std::alloc::{AllocError, Global};

/// The choices at that position of a schedule and right behind it, where they concern different processes.
pub fn apart_at(schedule: &Schedule, position: usize) -> Option<(Choice, Choice)>
    ensures next { result ≡ next_apart (drop position schedule.now) }
    ensures within { IsSome result → position + 2 ≤ length schedule.now }
{
    if position >= schedule.len() {
        return None;
    }
    let first = schedule.get(position)?;
    let second = schedule.get(position + 1)?;
    apart(first, second)
}

/// Both, where they concern different processes.
pub fn apart(first: Choice, second: Choice) -> Option<(Choice, Choice)>
    ensures { result ≡ (if actor first == actor second then None else Some (first, second)) }
{
    if first.actor() == second.actor() {
        return None;
    }
    Some((first, second))
}

/// Whether of two runs at least one is local.
fn one_is_local(image: &Image, world: &RcWorld, first: Choice, second: Choice) -> bool
    ensures { result ≡ one_is_local image.now world.now first second }
{
    match (first, second) {
        (Choice::Run(p), Choice::Run(q)) => {
            world.runs_local(image, p) || world.runs_local(image, q)
        }
        _ => true,
    }
}

/// Whether both are enabled, and of two runs at least one is local.
fn may_go_first(image: &Image, world: &RcWorld, first: Choice, second: Choice) -> bool
    ensures { IsTrue result ↔ ((can world.now first ≡ true) × (can world.now second ≡ true)
        × (one_is_local image.now world.now first second ≡ true)) }
{
    world.can(first) && world.can(second) && one_is_local(image, world, first, second)
}

/// Whether both choices that were made behind `here` were applied, and without a trap.
fn both_made(here: &RcEnd, there: &RcEnd) -> bool
    requires { here.now.applied + 2 < 2 ^ 64 }
    ensures { IsTrue result ↔ ((there.now.applied ≡ here.now.applied + 2) × (there.now.world.trap ≡ None)) }
{
    there.applied == here.applied + 2 && there.world.trap().is_none()
}

/// Whether the process of that pid is the same in both worlds, or in neither.
fn same_process(one: &RcWorld, other: &RcWorld, pid: u32) -> bool
    ensures { IsTrue result ↔ SameProcess pid one.now other.now }
{
    match (one.process(pid), other.process(pid)) {
        (Some(Shown::Live(one)), Some(Shown::Live(other))) => one.same(other),
        (Some(Shown::Exited(one)), Some(Shown::Exited(other))) => one.same(other),
        (None, None) => true,
        _ => false,
    }
}

/// Whether both worlds hold the same processes for two choices.
fn same_processes(one: &RcWorld, other: &RcWorld, first: Choice, second: Choice) -> bool
    ensures { IsTrue result ↔ (SameProcess (actor first) one.now other.now
        × SameProcess (actor second) one.now other.now) }
{
    same_process(one, other, first.actor()) && same_process(one, other, second.actor())
}

/// Whether a choice concerns its own process alone, and that is there.
fn is_confined(image: &Image, world: &RcWorld, choice: Choice) -> bool
    ensures { IsTrue result → IsLocal image.now world.now choice
        × (actor choice < length world.now.processes) }
{
    let there = (choice.actor() as usize) < world.len();
    match choice {
        Choice::Run(pid) => there && world.runs_local(image, pid),
        Choice::Deliver(_, _) | Choice::Expire(_) => there,
    }
}

/// Whether it is known that both orders lead to equal worlds, if the one is applied without a trap: of two enabled choices of different
/// processes, one is confined to a process that is there. Only a signal to a pid that no process has is not.
fn is_settled(image: &Image, world: &RcWorld, first: Choice, second: Choice) -> bool
    ensures { IsTrue result → IsSettled image.now world.now first second }
{
    is_confined(image, world, first) || is_confined(image, world, second)
}

/// Whether two choices that concern different processes are independent where a run has come that refused none.
///
/// Both orders are tried. What they leave of the two processes is compared only where it is not known to be the same; all else is.
pub(crate) fn are_independent(
    alloc: Global,
    image: &Image,
    here: &RcEnd,
    first: Choice,
    second: Choice,
) -> Result<bool, AllocError>
    requires few { here.now.applied + 2 < 2 ^ 64 }
    requires apart { actor first ≢ actor second }
    ensures { IfOk result (λ is. IsTrue is ↔ IndependentAt image.now here.now first second) }
{
    if here.refused.is_some() || !may_go_first(image, &here.world, first, second) {
        return Ok(false);
    }
    let one = follow_both(alloc, image, here, first, second)?;
    if !both_made(here, &one) {
        return Ok(false);
    }
    let other = follow_both(alloc, image, here, second, first)?;
    if !both_made(here, &other) {
        return Ok(false);
    }
    if is_settled(image, &here.world, first, second) {
        return Ok(true);
    }
    Ok(same_processes(&one.world, &other.world, first, second))
}

/// Whether two choices are independent where a run has come, if the second can be made behind the first and neither traps.
///
/// No order is made where both are known to lead to equal worlds.
pub(crate) fn may_pass(
    alloc: Global,
    image: &Image,
    here: &RcEnd,
    first: Choice,
    second: Choice,
) -> Result<bool, AllocError>
    requires { here.now.applied + 2 < 2 ^ 64 }
    ensures yes { IfOk result (λ is. IsTrue is → Passes image.now here.now first second) }
    ensures no { IfOk result (λ is. IndependentAt image.now here.now first second → IsTrue is) }
{
    if second.actor() == first.actor() {
        return Ok(false);
    }
    if !is_settled(image, &here.world, first, second) {
        return are_independent(alloc, image, here, first, second);
    }
    if here.refused.is_some() {
        return Ok(false);
    }
    Ok(may_go_first(image, &here.world, first, second))
}

/// Whether two choices are independent where a run has come.
///
/// One order is made, and the other only where it is not known that it leads to an equal world.
pub(crate) fn are_free(
    alloc: Global,
    image: &Image,
    here: &RcEnd,
    first: Choice,
    second: Choice,
) -> Result<bool, AllocError>
    requires { here.now.applied + 2 < 2 ^ 64 }
    ensures { IfOk result (λ is. IsTrue is ↔ IndependentAt image.now here.now first second) }
{
    if !may_pass(alloc, image, here, first, second)? {
        return Ok(false);
    }
    let there = follow_both(alloc, image, here, first, second)?;
    Ok(both_made(here, &there))
}
