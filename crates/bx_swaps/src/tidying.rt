//! Schedules in which the choices of one process stand together.

ghost use Rattle.std.specs.Prelude.{◌≡◌, ◌==◌, ◌+◌, ◌-◌, ◌<◌, ◌≤◌, if◌then◌else◌, length, option_map, IfOk, IfSome, OnOk};
ghost use Rattle.bx_world.specs.Enabled.{actor};
ghost use Rattle.bx_world.specs.World.{started};
ghost use Rattle.bx_swaps.specs.Tidying.{gathered, next_alike, settled, switches, IsTidied, IsTidy};

use crate::starts::trail_of;
use bx_load::Image;
use bx_plan::Schedule;
use bx_replay::{Row, Trail};
use bx_terms::{AtomId, Fault};
use bx_world::Choice;
use std::alloc::{AllocError, Global};

/// One where two choices concern different processes, and none where they concern the same.
fn parted(first: Choice, second: Choice) -> usize
    ensures { result ≡ (if actor first == actor second then 0 else 1) }
{
    if first.actor() == second.actor() {
        0
    } else {
        1
    }
}

/// How many choices concern another process than the one before them.
fn switches(choices: &[Choice]) -> usize
    ensures { result ≡ switches choices.now }
{
    let mut count = 0;
    for at in 1..choices.len() {
        count += parted(choices[at - 1], choices[at]);
    }
    count
}

/// The first position from `at` on, and before `count`, of a choice that concerns the process of the one before `at`.
fn next_alike(choices: &[Choice], at: usize, count: usize) -> Option<usize>
    requires some { 0 < at }
    requires order { at ≤ count }
    requires within { count ≤ length choices.now }
    ensures is { result ≡ option_map (λ n. at + n) (next_alike at (count - at) choices.now) }
    ensures within { IfSome result (λ next. (at ≤ next) × (next < count)) }
{
    let actor = choices[at - 1].actor();
    for next in at..count {
        if choices[next].actor() == actor {
            return Some(next);
        }
    }
    None
}

/// Brings the next choice of the process that the choice before that position concerns there, as far as that may be done.
fn settle(alloc: Global, row: &mut Row<'_>, at: usize, count: usize) -> Result<(), AllocError>
    requires some { 0 < at }
    requires order { at ≤ count }
    requires within { count ≤ length row.old.choices }
    ensures { OnOk result (row.new ≡ settled at (count - at) row.old) }
{
    let Some(next) = next_alike(row.choices(), at, count) else {
        return Ok(());
    };
    row.bring_forward(alloc, next, at)?;
    Ok(())
}

/// Puts choices of one process together: from the left, the next choice of the process that the last one concerns is brought forward, as far
/// as that may be done.
fn gather(alloc: Global, row: &mut Row<'_>, count: usize) -> Result<(), AllocError>
    requires { count ≤ length row.old.choices }
    ensures { OnOk result (row.new ≡ gathered (count - 1) 1 row.old) }
{
    for at in 1..count {
        settle(alloc, row, at, count)?;
    }
    Ok(())
}

/// The same choices over the same code, from the same start, of which the first `count` are exchanged so that those of one process stand
/// together. Where that would leave more that concern another process than the one before them, none is exchanged. The trail stays.
pub fn tidied<'a>(alloc: Global, trail: &Trail<'a>, count: usize) -> Result<Trail<'a>, AllocError>
    requires { count ≤ length trail.now.choices }
    ensures { IfOk result (IsTidied count trail.now) }
{
    let mut row = trail.row(alloc)?;
    let given = switches(row.choices());
    gather(alloc, &mut row, count)?;
    if switches(row.choices()) > given {
        return trail.row(alloc)?.into_trail(alloc);
    }
    row.into_trail(alloc)
}

/// The schedule with choices exchanged so that those of one process stand together: from the left, the next choice of the process that the
/// last one concerns is brought forward by exchanges with its neighbours, as far as these are independent; where it comes all the way it is
/// the next one, else the first one that is left is. What stands behind the choice at which the run stops or traps stays as it is. Where
/// more choices would concern another process than the one before them, the schedule itself is the answer.
///
/// Each exchange may be made where it is made, so the answer leads to an equal world, and the same choice is refused or traps.
///
/// # Errors
///
/// `NoEntry` exactly where the module does not export the function. `Memory` only where it does.
pub fn tidy(
    alloc: Global,
    image: &Image,
    module: AtomId,
    function: AtomId,
    schedule: &Schedule,
) -> Result<Schedule, Fault>
    ensures { IsTidy image.now (started image.now «module» function) schedule.now result }
{
    let trail = trail_of(alloc, image, module, function, schedule)?;
    let made = trail.end_at(alloc, trail.len())?.applied as usize;
    let trail = tidied(alloc, &trail, made)?;
    Ok(trail.into_schedule())
}
