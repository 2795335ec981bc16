//! Runs that go on from where others have come.

ghost use Rattle.std.specs.Prelude.{◌≡◌, ◌+◌, ◌<◌, ◌^◌, ◌∷◌, [], length, replicate, IfOk, OnErr, OnOk};
ghost use Rattle.bx_world.specs.Running.{ran, Lacks};
ghost use Rattle.bx_replay.specs.Lacking.{LacksAmong};

use bx_load::Image;
use bx_plan::Part;
use bx_proc::Proc;
use bx_share::RcHold;
use bx_world::{Choice, Lanes, RcWorld, RunEnd, advance_many};
use std::alloc::{AllocError, Global};

/// Where choices have led in a world that stays in one thread.
pub type RcEnd = RunEnd<RcHold<Proc>, RcHold<Lanes>>;

/// An equal world, which shares all that it can.
pub fn shared(alloc: Global, world: &RcWorld) -> Result<RcWorld, AllocError>
    ensures { IfOk result (λ w. w ≡ world.now) }
{
    match world.snapshot(alloc) {
        Ok(world) => Ok(world),
        Err(_) => Err(AllocError),
    }
}

/// The same place, in a world that shares all that it can.
pub fn copied(alloc: Global, end: &RcEnd) -> Result<RcEnd, AllocError>
    ensures { IfOk result (λ e. e ≡ end.now) }
{
    Ok(RunEnd {
        world: shared(alloc, &end.world)?,
        applied: end.applied,
        refused: end.refused,
    })
}

/// Where these choices lead from there. It can only run out of memory.
pub fn follow(
    alloc: Global,
    image: &Image,
    from: &RcEnd,
    part: Part<'_>,
) -> Result<RcEnd, AllocError>
    requires { from.now.applied + length part < 2 ^ 64 }
    ensures { IfOk result (λ end. end ≡ ran image.now part.entry from.now) }
{
    let mut end = copied(alloc, from)?;
    advance_all(alloc, &mut end, image, part)?;
    Ok(end)
}

/// Where one choice leads from there. It can only run out of memory.
pub(crate) fn follow_one(
    alloc: Global,
    image: &Image,
    from: &RcEnd,
    choice: Choice,
) -> Result<RcEnd, AllocError>
    requires { from.now.applied + 1 < 2 ^ 64 }
    ensures { IfOk result (λ end. end ≡ ran image.now (choice ∷ []) from.now) }
{
    let mut end = copied(alloc, from)?;
    advance_run(alloc, &mut end, image, choice, 1)?;
    Ok(end)
}

/// Where two choices lead from there, one behind the other. It can only run out of memory.
pub(crate) fn follow_both(
    alloc: Global,
    image: &Image,
    from: &RcEnd,
    first: Choice,
    second: Choice,
) -> Result<RcEnd, AllocError>
    requires { from.now.applied + 2 < 2 ^ 64 }
    ensures { IfOk result (λ end. end ≡ ran image.now (first ∷ second ∷ []) from.now) }
{
    let mut end = follow_one(alloc, image, from, first)?;
    advance_run(alloc, &mut end, image, second, 1)?;
    Ok(end)
}

/// These choices more, in order; equal ones in a row are made in one call. It can only run out of memory. Then those are made that
/// stand before the one that takes it: `applied` tells how many.
pub fn advance_all(
    alloc: Global,
    end: &mut RcEnd,
    image: &Image,
    part: Part<'_>,
) -> Result<(), AllocError>
    requires { end.old.applied + length part < 2 ^ 64 }
    ensures ok { OnOk result (end.new ≡ ran image.now part.entry end.old) }
    ensures err { OnErr result (LacksAmong image.now part.entry end.old end.new) }
{
    let mut left = part;
    while let Some(run) = left.next_run() {
        advance_run(alloc, end, image, run.choice, run.times as u64)?;
    }
    Ok(())
}

/// These choices more, in order, one by one. It can only run out of memory.
pub(crate) fn advance_each(
    alloc: Global,
    end: &mut RcEnd,
    image: &Image,
    choices: &[Choice],
) -> Result<(), AllocError>
    requires { end.old.applied + length choices.now < 2 ^ 64 }
    ensures { OnOk result (end.new ≡ ran image.now choices.now end.old) }
{
    for choice in choices {
        advance_run(alloc, end, image, *choice, 1)?;
    }
    Ok(())
}

/// So many equal choices more. It can only run out of memory.
pub(crate) fn advance_run(
    alloc: Global,
    end: &mut RcEnd,
    image: &Image,
    choice: Choice,
    times: u64,
) -> Result<(), AllocError>
    requires { end.old.applied + times < 2 ^ 64 }
    ensures ok { OnOk result (end.new ≡ ran image.now (replicate times choice) end.old) }
    ensures err { OnErr result (Lacks image.now choice times end.old end.new) }
{
    if let Err(_) = advance_many(alloc, end, image, choice, times) {
        return Err(AllocError);
    }
    Ok(())
}
