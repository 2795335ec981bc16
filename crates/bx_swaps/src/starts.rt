//! A schedule from a start on.

ghost use Rattle.bx_world.specs.World.{started};
ghost use Rattle.bx_swaps.specs.Exchanges.{BeginsAt};

use bx_load::Image;
use bx_plan::Schedule;
use bx_replay::Trail;
use bx_terms::{AtomId, Fault};
use bx_world::{RcWorld, RunEnd};
use std::alloc::Global;

/// The choices of a schedule, from the start on: `NoEntry` exactly where the module does not export it.
pub(crate) fn trail_of<'a>(
    alloc: Global,
    image: &'a Image,
    module: AtomId,
    function: AtomId,
    schedule: &Schedule,
) -> Result<Trail<'a>, Fault>
    ensures { BeginsAt image.entry.now (started image.entry.now «module» function) schedule.now result }
{
    let start = RunEnd {
        world: RcWorld::start(alloc, image, module, function)?,
        applied: 0,
        refused: None,
    };
    let mut choices = Schedule::new(alloc);
    choices.append(schedule.all())?;
    Ok(Trail::of(alloc, image, start, choices)?)
}
