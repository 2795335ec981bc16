//! `run`: what comes of a plan's schedules, as if each were run alone from the start.

ghost use Rattle.std.specs.Prelude.{⊤, ◌≡◌, ◌⊎◌, List, ℕ, IfErr, Some, map, string_bytes};
ghost use Rattle.std.specs.Io.KnownBytes.{Keeps};
ghost use Rattle.bx_terms.specs.Outcomes.{Gives};
ghost use Rattle.bx_plan.specs.Planned.{schedules};
ghost use Rattle.bx_engine.specs.Loads.{ClearUpTo};
ghost use Rattle.bx_engine.specs.Units.{FilesGive};
ghost use Rattle.bx_engine.specs.Runs.{ClearStart, TakesMemory, Writes, entry_in, reported, run_as, run_of, written_behind, written_in};

use crate::failures::Failure;
use crate::forms::Form;
use crate::loads::{image_of, plan_in};
use crate::starts::{Start, start_of};
use bx_board::{Report, report_alone};
use bx_load::Image;
use bx_plan::Plan;
use bx_terms::{AtomId, Fault};
use std::alloc::Global;
use std::io::{Read, Write};

/// Where a process begins by the names of a start; none where the image does not hold both.
pub fn entry_in(image: &Image, start: &Start) -> Option<(AtomId, AtomId)>
    ensures { result ≡ entry_in image.now start.now }
{
    let atoms = image.atoms();
    match (atoms.find(start.module()), atoms.find(start.function())) {
        (Some(module), Some(function)) => Some((module, function)),
        _ => None,
    }
}

/// What comes of each schedule of the plan, in its order.
fn reported(alloc: Global, image: &Image, start: &Start, plan: &Plan) -> Result<Report, Fault>
    ensures { Gives ⊤ (λ report. report) result
        (reported image.now (entry_in image.now start.now) (schedules plan.now)) }
{
    match entry_in(image, start) {
        Some((module, function)) => report_alone(alloc, image, module, function, plan),
        None => Err(Fault::NoEntry),
    }
}

impl Form {
    /// The text of what comes of the plan's schedules.
    fn written(
        self,
        alloc: Global,
        image: &Image,
        start: &Start,
        plan: &Plan,
    ) -> Result<String, Fault>
        ensures { Gives ⊤ (λ text. string_bytes text) result
            (written_in self image.now start.now (schedules plan.now)) }
    {
        let report = reported(alloc, image, start, plan)?;
        self.text(alloc, image.atoms(), &report)
    }

    /// The text that a run from that start writes, or the first fault of the files.
    fn text_of<R: Read>(
        self,
        alloc: Global,
        listings: &mut [R],
        start: &Start,
        plan: &mut R,
    ) -> Result<String, Failure>
        ensures { (given : List (List ℕ)) → (planned : List ℕ) → map R.remaining listings.old ≡ map (λ text. Some text) given → R.remaining plan.old ≡ Some planned
            → FilesGive (λ text. string_bytes text) result (ClearUpTo given) (written_behind self start.now given planned) }
    {
        let file = listings.len();
        let image = match image_of(alloc, listings) {
            Ok(image) => image,
            Err(failure) => return Err(failure),
        };
        let plan = match plan_in(alloc, file, plan) {
            Ok(plan) => plan,
            Err(failure) => return Err(failure),
        };
        match self.written(alloc, &image, start, &plan) {
            Ok(text) => Ok(text),
            Err(fault) => Err(Failure::Refused(fault, None)),
        }
    }

    /// Writes in this form what comes of the plan's schedules, as `run_text` does their report.
    pub fn run_text<R: Read, W: Write>(
        self,
        alloc: Global,
        listings: &mut [R],
        start: &str,
        plan: &mut R,
        writer: &mut W,
    ) -> Result<(), Failure>
        ensures written { (given : List (List ℕ)) → (planned : List ℕ) → map R.remaining listings.old ≡ map (λ text. Some text) given → R.remaining plan.old ≡ Some planned
            → Writes (TakesMemory start.now) (W.contents writer.old) (W.contents writer.new) result (ClearStart start.now given) (run_as self start.now given planned) }
        ensures unwritten { IfErr result (λ failure. (failure ≡ Failure.Write) ⊎ Keeps
            (W.contents writer.old) (W.contents writer.new)) }
    {
        let start = match start_of(alloc, start) {
            Ok(start) => start,
            Err(failure) => return Err(failure),
        };
        let text = match self.text_of(alloc, listings, &start, plan) {
            Ok(text) => text,
            Err(failure) => return Err(failure),
        };
        match writer.write_all(text.as_bytes()) {
            Ok(()) => Ok(()),
            Err(_) => Err(Failure::Write),
        }
    }
}

/// Writes the report of the plan's schedules, as if each were run alone from the start `M:F`, over the modules of the listings.
///
/// The failure is the first of these: the start is no such thing; a listing, in the order given, can't be read or is refused when it
/// is read or assembled; the listings can't be loaded together; the plan can't be read or is refused; `NoEntry`, where the module
/// does not export that function of no arguments. Nothing is written then, whatever the readers are. Memory may run out at any
/// time between the first atom of the start and the whole text, and is no file's fault.
pub fn run_text<R: Read, W: Write>(
    alloc: Global,
    listings: &mut [R],
    start: &str,
    plan: &mut R,
    writer: &mut W,
) -> Result<(), Failure>
    ensures written { (given : List (List ℕ)) → (planned : List ℕ) → map R.remaining listings.old ≡ map (λ text. Some text) given → R.remaining plan.old ≡ Some planned
        → Writes (TakesMemory start.now) (W.contents writer.old) (W.contents writer.new) result (ClearStart start.now given) (run_of start.now given planned) }
    ensures unwritten { IfErr result (λ failure. (failure ≡ Failure.Write) ⊎ Keeps
        (W.contents writer.old) (W.contents writer.new)) }
{
    Form::Report.run_text(alloc, listings, start, plan, writer)
}
