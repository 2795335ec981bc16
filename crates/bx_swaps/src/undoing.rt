//! A choice that is taken back with all that depends on it.

ghost use Rattle.std.specs.Prelude.{◌≡◌, ◌+◌, ◌<◌, ◌≤◌, ◌^◌, length, IfOk};
ghost use Rattle.bx_world.specs.World.{started};
ghost use Rattle.bx_replay.specs.Courses.{reached};
ghost use Rattle.bx_swaps.specs.Tidying.{behind_came, IsSetAside, IsUndo, IsUndone};

use crate::starts::trail_of;
use bx_load::Image;
use bx_plan::Schedule;
use bx_replay::{Row, Trail};
use bx_terms::{AtomId, Fault};
use std::alloc::{AllocError, Global};

/// Where those begin that are set aside, behind a choice that came forward to that position.
fn aside_behind(first: usize, came: usize) -> usize
    requires { first + 1 < 2 ^ 64 }
    ensures { result ≡ behind_came first came }
{
    if came == first { first + 1 } else { first }
}

/// Moves each choice behind that position, and before `count`, in front of those that depend on it: where these begin then.
fn set_aside(
    alloc: Global,
    row: &mut Row<'_>,
    count: usize,
    position: usize,
) -> Result<usize, AllocError>
    requires order { position < count }
    requires within { count ≤ length row.old.choices }
    ensures { IfOk result (IsSetAside count position row.old row.new) }
{
    let mut first = position;
    for at in position + 1..count {
        let came = row.bring_forward(alloc, at, first)?;
        first = aside_behind(first, came);
    }
    Ok(first)
}

/// The same choices over the same code, from the same start, of which the first `count` are exchanged so that the one at that position, and
/// all behind it that depend on it, stand behind the others; and how many stand before these. The trail stays.
pub fn undone<'a>(
    alloc: Global,
    trail: &Trail<'a>,
    count: usize,
    position: usize,
) -> Result<(Trail<'a>, usize), AllocError>
    requires order { position < count }
    requires within { count ≤ length trail.now.choices }
    requires all { (reached count trail.now).applied ≡ trail.now.start.applied + count }
    ensures { IfOk result (λ r. IsUndone count position trail.now r.0 r.1) }
{
    let mut row = trail.row(alloc)?;
    let before = set_aside(alloc, &mut row, count, position)?;
    let trail = row.into_trail(alloc)?;
    Ok((trail, before))
}

/// The schedule with choices exchanged so that the one at that position, from 0 on, and all behind it that depend on it stand behind all
/// others that are applied; and how many stand before these: what is left when the choice is taken back. From the position on, each later
/// choice is brought forward past those that stand aside, where it is independent of each as it stands; else it stands aside with them.
///
/// Each exchange may be made where it is made, so the answer leads to an equal world. The choices before the ones set aside lead on from
/// the start without them, each of them applied.
///
/// # Errors
///
/// `NoEntry` exactly where the module does not export the function. `NotIndependent` with the position exactly where the choice there is
/// not one that is applied, a position past the last among them. `Memory` only where the start is exported and a choice stands there.
pub fn undo(
    alloc: Global,
    image: &Image,
    module: AtomId,
    function: AtomId,
    schedule: &Schedule,
    position: usize,
) -> Result<(Schedule, usize), Fault>
    ensures { IsUndo image.now (started image.now «module» function) schedule.now position result }
{
    if image.entry(module, function, 0).is_none() {
        return Err(Fault::NoEntry);
    }
    if position >= schedule.len() {
        return Err(Fault::NotIndependent { position });
    }
    let trail = trail_of(alloc, image, module, function, schedule)?;
    let made = trail.end_at(alloc, trail.len())?.applied as usize;
    if position >= made {
        return Err(Fault::NotIndependent { position });
    }
    let (trail, before) = undone(alloc, &trail, made, position)?;
    Ok((trail.into_schedule(), before))
}
