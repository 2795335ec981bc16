//! Checked exchanges.

ghost use Rattle.std.specs.Prelude.{IfOk};
ghost use Rattle.bx_world.specs.World.{started};
ghost use Rattle.bx_swaps.specs.Exchanges.{IsAnswer, AtFaultAtOnce, ExchangesAll};

use crate::starts::trail_of;
use bx_load::Image;
use bx_plan::Schedule;
use bx_replay::{Trail, apart_at};
use bx_terms::{AtomId, Fault};
use std::alloc::{AllocError, Global};

/// The first of these positions, where the list alone tells that it is at fault: no two choices of different processes stand there.
fn refused_at_once(schedule: &Schedule, positions: &[usize]) -> Option<usize>
    ensures { AtFaultAtOnce positions.now schedule.now result }
{
    let position = *positions.first()?;
    match apart_at(schedule, position) {
        Some(_) => None,
        None => Some(position),
    }
}

/// Exchanges the choices at each of these positions and right behind it, one after another, as long as the two are independent
/// where they stand: the first position at which they are not.
fn exchange_all(
    alloc: Global,
    trail: &mut Trail<'_>,
    positions: &[usize],
) -> Result<Option<usize>, AllocError>
    ensures { IfOk result (ExchangesAll positions.now trail.old trail.new) }
{
    for position in positions {
        if !trail.exchange(alloc, *position)? {
            return Ok(Some(*position));
        }
    }
    Ok(None)
}

/// The schedule with choices exchanged: for each position, from 0 on, the choice there and the one behind it, in what the exchanges
/// before it made. It leads to a world that is equal to the one to which the schedule led.
///
/// # Errors
///
/// `NoEntry` exactly where the module does not export the function. `NotIndependent` with the first position at which the two choices
/// are not independent where the run of those before them has come, a position past the last two among them. `Memory` only where the
/// start is exported, and the list alone does not tell that the first position is at fault.
pub fn check_swaps(
    alloc: Global,
    image: &Image,
    module: AtomId,
    function: AtomId,
    schedule: &Schedule,
    positions: &[usize],
) -> Result<Schedule, Fault>
    ensures { IsAnswer image.now (started image.now «module» function) positions.now schedule.now result }
{
    if image.entry(module, function, 0).is_none() {
        return Err(Fault::NoEntry);
    }
    if let Some(position) = refused_at_once(schedule, positions) {
        return Err(Fault::NotIndependent { position });
    }
    let mut trail = trail_of(alloc, image, module, function, schedule)?;
    match exchange_all(alloc, &mut trail, positions)? {
        Some(position) => Err(Fault::NotIndependent { position }),
        None => Ok(trail.into_schedule()),
    }
}
