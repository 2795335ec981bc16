//! `tidy`: a plan of which each schedule is tidied.

ghost use Rattle.std.specs.Prelude.{◌≡◌, ◌⊎◌, ◌<◌, ◌≤◌, List, ℕ, IfErr, IfOk, IsOk, IsTrue, Ok, Some, false, length, map, slice_get, string_bytes};
ghost use Rattle.std.specs.Io.KnownBytes.{Keeps};
ghost use Rattle.bx_plan.specs.Planned.{schedules};
ghost use Rattle.bx_plan.specs.Plans.{plan_of};
ghost use Rattle.bx_world.specs.World.{State, started};
ghost use Rattle.bx_engine.specs.Inputs.{input_limit};
ghost use Rattle.bx_engine.specs.Loads.{ClearUpTo};
ghost use Rattle.bx_engine.specs.Runs.{ClearStart, TakesMemory, entry_in, run_behind};
ghost use Rattle.bx_engine.specs.Tidying.{AreLinesOf, IsPastLimits, IsTidyOf, PushesAt, TidiesAt, TidiesBy, TidiesFiles, TidiesFrom, WritesTidied};

use crate::failures::Failure;
use crate::inputs::INPUT_LIMIT;
use crate::loads::image_of;
use crate::plan_lines::push_plan;
use crate::runs::entry_in;
use crate::starts::{Start, start_of};
use crate::units::read_file;
use bx_load::Image;
use bx_plan::{Plan, read_plan};
use bx_swaps::tidy;
use bx_terms::{AtomId, Fault};
use std::alloc::{AllocError, Global};
use std::io::{Read, Write};

/// The loaded code, and the function at which schedules begin.
#[derive(Drop)]
struct Beginning<'a> {
    image: &'a Image,
    module: AtomId,
    function: AtomId,
}

impl<'a> Beginning<'a> {
    /// Adds the line of the plan's schedule of that number, tidied.
    fn push_tidied(
        &self,
        alloc: Global,
        out: &mut String,
        plan: &Plan,
        number: usize,
    ) -> Result<(), Fault>
        requires { number < length (schedules plan.now) }
        ensures { (start : State) → started self.now.image.now self.now.module self.now.function ≡ Ok start
            → TidiesFrom (λ _. PushesAt self.now.image.now start (slice_get (schedules plan.now) number) (string_bytes out.old) (string_bytes out.new)) result }
    {
        let Some(name) = plan.label(number) else {
            return Ok(());
        };
        let Some(schedule) = plan.schedule(alloc, number) else {
            return Ok(());
        };
        let schedule = tidy(alloc, self.image, self.module, self.function, &schedule?)?;
        push_plan(alloc, out, name, schedule.all())?;
        Ok(())
    }

    /// The lines of the plan's schedules, each tidied.
    fn lines(&self, alloc: Global, plan: &Plan) -> Result<String, Fault>
        ensures { TidiesAt (started self.now.image.now self.now.module self.now.function)
            (λ start text. AreLinesOf self.now.image.now start (schedules plan.now) (string_bytes text)) result }
    {
        if self.image.entry(self.module, self.function, 0).is_none() {
            return Err(Fault::NoEntry);
        }
        let mut out = String::new(alloc);
        for number in 0..plan.len() {
            self.push_tidied(alloc, &mut out, plan, number)?;
        }
        Ok(out)
    }
}

/// Whether a text is a plan within all limits.
fn is_plan(alloc: Global, text: &str) -> Result<bool, AllocError>
    ensures yes { IfOk result (λ is. IsTrue is → (length text.now ≤ input_limit) × IsOk (plan_of text.now)) }
    ensures no { IfOk result (λ is. is ≡ false → IsPastLimits text.now) }
{
    if text.len() > INPUT_LIMIT {
        return Ok(false);
    }
    match read_plan(alloc, text.as_bytes()) {
        Ok(_) => Ok(true),
        Err(Fault::Memory) => Err(AllocError),
        Err(_) => Ok(false),
    }
}

/// The lines of the plan's schedules, each tidied; none where these are past the limits of a plan.
fn tidied_plan(
    alloc: Global,
    image: &Image,
    start: &Start,
    plan: &Plan,
) -> Result<Option<String>, Fault>
    ensures { TidiesBy (λ text. string_bytes text) image.now (entry_in image.now start.now) (schedules plan.now) result }
{
    let Some((module, function)) = entry_in(image, start) else {
        return Err(Fault::NoEntry);
    };
    let beginning = Beginning {
        image,
        module,
        function,
    };
    let lines = beginning.lines(alloc, plan)?;
    if is_plan(alloc, lines.as_str())? {
        return Ok(Some(lines));
    }
    Ok(None)
}

/// The text that `tidy` writes, or the first fault of the files.
fn text_of<R: Read>(
    alloc: Global,
    listings: &mut [R],
    start: &Start,
    plan: &mut R,
) -> Result<Vec<u8>, Failure>
    ensures { (given : List (List ℕ)) → (planned : List ℕ) → map R.remaining listings.old ≡ map (λ text. Some text) given → R.remaining plan.old ≡ Some planned
        → TidiesFiles (λ text. text.items) result (ClearUpTo given) (run_behind start.now given planned) (IsTidyOf start.now given planned) }
{
    let file = listings.len();
    let image = match image_of(alloc, listings) {
        Ok(image) => image,
        Err(failure) => return Err(failure),
    };
    let planned = match read_file(alloc, file, plan) {
        Ok(planned) => planned,
        Err(failure) => return Err(failure),
    };
    let plan = match read_plan(alloc, &planned) {
        Ok(plan) => plan,
        Err(fault) => return Err(Failure::in_file(fault, file)),
    };
    match tidied_plan(alloc, &image, start, &plan) {
        Ok(Some(lines)) => Ok(lines.into_bytes()),
        Ok(None) => Ok(planned),
        Err(fault) => Err(Failure::Refused(fault, None)),
    }
}

/// Writes a plan of the same schedules under their names, each with its choices exchanged so that those of one process stand together, as
/// `tidy` does from the start `M:F`, over the modules of the listings. Its report is that of the plan that was given. Where its schedules
/// would be past the limits of a plan, since they have less in common, the plan is written as it was given.
///
/// The failure is the first of these: the start is no such thing; a listing, in the order given, can't be read or is refused when it
/// is read or assembled; the listings can't be loaded together; the plan can't be read or is refused; `NoEntry`, where the module
/// does not export that function of no arguments. Nothing is written then, whatever the readers are. Memory may run out at any
/// time between the first atom of the start and the whole text, and is no file's fault.
pub fn tidy_text<R: Read, W: Write>(
    alloc: Global,
    listings: &mut [R],
    start: &str,
    plan: &mut R,
    writer: &mut W,
) -> Result<(), Failure>
    ensures written { (given : List (List ℕ)) → (planned : List ℕ) → map R.remaining listings.old ≡ map (λ text. Some text) given → R.remaining plan.old ≡ Some planned
        → WritesTidied (TakesMemory start.now) (W.contents writer.old) (W.contents writer.new) result (ClearStart start.now given) start.now given planned }
    ensures unwritten { IfErr result (λ failure. (failure ≡ Failure.Write) ⊎ Keeps
        (W.contents writer.old) (W.contents writer.new)) }
{
    let start = match start_of(alloc, start) {
        Ok(start) => start,
        Err(failure) => return Err(failure),
    };
    let text = match text_of(alloc, listings, &start, plan) {
        Ok(text) => text,
        Err(failure) => return Err(failure),
    };
    match writer.write_all(&text) {
        Ok(()) => Ok(()),
        Err(_) => Err(Failure::Write),
    }
}
