//! `campaign`: what `run` writes, by several workers.

ghost use Rattle.std.specs.Prelude.{⊤, ◌≡◌, ◌⊎◌, List, ℕ, IfErr, IfSome, Some, map, string_bytes};
ghost use Rattle.std.specs.Io.KnownBytes.{Keeps};
ghost use Rattle.bx_terms.specs.Outcomes.{Gives};
ghost use Rattle.bx_plan.specs.Planned.{schedules};
ghost use Rattle.bx_engine.specs.Loads.{ClearUpTo};
ghost use Rattle.bx_engine.specs.Units.{FileGives, FilesGive};
ghost use Rattle.bx_engine.specs.Runs.{ClearStart, TakesMemory, Writes};
ghost use Rattle.bx_engine.specs.Campaigns.{IsCampaignOf, campaign_as, campaign_behind, campaign_in, campaign_of, told_of};

use crate::failures::Failure;
use crate::forms::Form;
use crate::joints::{Task, joined};
use crate::loads::{image_of, planned};
use crate::runs::entry_in;
use crate::starts::{Start, start_of};
use crate::units::read_file;
use bx_board::{FreeGate, Gate, campaign};
use bx_load::Image;
use bx_plan::Plan;
use bx_terms::Fault;
use std::alloc::Global;
use std::io::{Read, Write};
use std::sync::Wait;
use std::thread::Threads;

/// The workers of a campaign: how many they are, the form in which is written what comes of it, the runtime that their threads are of,
/// and the gate that is called as they go on.
#[derive(Drop)]
pub struct Workers<'a, T, G> {
    rt: &'a T,
    pub count: u32,
    pub form: Form,
    gate: &'a G,
}

impl<'a, T: Threads + Wait + Sync, G: Gate> Workers<'a, T, G> {
    pub fn new(rt: &'a T, count: u32, form: Form, gate: &'a G) -> Workers<'a, T, G>
        ensures count { result.count ≡ count }
        ensures form { result.form ≡ form }
    {
        Workers {
            rt,
            count,
            form,
            gate,
        }
    }

    /// The report by several workers that share the parts of the plan's text; none where that is not the way.
    fn joined(&self, alloc: Global, image: &Image, start: &Start, text: &[u8]) -> Option<String>
        ensures { IfSome result (λ report. IsCampaignOf self.now.form self.now.count image.now start.now text.now (string_bytes report)) }
    {
        let workers = self.count;
        if self.form != Form::Report || workers < 2 || workers > 64 {
            return None;
        }
        let Some(start) = entry_in(image, start) else {
            return None;
        };
        let task = Task { image, start, text };
        joined(self.rt, alloc, &task, workers as usize, self.gate)
    }

    /// The text of what comes of the plan's schedules.
    fn written(
        &self,
        alloc: Global,
        image: &Image,
        start: &Start,
        plan: &Plan,
    ) -> Result<String, Fault>
        ensures { Gives ⊤ (λ text. string_bytes text) result
            (campaign_in self.now.form self.now.count image.now start.now (schedules plan.now)) }
    {
        let workers = self.count;
        if workers == 0 || workers > 64 {
            return Err(Fault::Workers);
        }
        let Some((module, function)) = entry_in(image, start) else {
            return Err(Fault::NoEntry);
        };
        let report = campaign(
            self.rt, alloc, image, module, function, plan, workers, self.gate,
        )?;
        self.form.text(alloc, image.atoms(), &report)
    }

    /// The text of what comes of the plan in the file of that number, or its first fault.
    fn told<R: Read>(
        &self,
        alloc: Global,
        file: usize,
        image: &Image,
        start: &Start,
        plan: &mut R,
    ) -> Result<String, Failure>
        ensures { (planned : List ℕ) → R.remaining plan.old ≡ Some planned → FileGives (λ text. string_bytes text) file result
            (told_of self.now.form self.now.count file image.now start.now planned) }
    {
        let text = match read_file(alloc, file, plan) {
            Ok(text) => text,
            Err(failure) => return Err(failure),
        };
        if let Some(report) = self.joined(alloc, image, start, &text) {
            return Ok(report);
        }
        let plan = match planned(alloc, file, &text) {
            Ok(plan) => plan,
            Err(failure) => return Err(failure),
        };
        match self.written(alloc, image, start, &plan) {
            Ok(text) => Ok(text),
            Err(fault) => Err(Failure::Refused(fault, None)),
        }
    }

    /// The text that a campaign from that start writes, or the first fault of the files.
    fn text_of<R: Read>(
        &self,
        alloc: Global,
        listings: &mut [R],
        start: &Start,
        plan: &mut R,
    ) -> Result<String, Failure>
        ensures { (given : List (List ℕ)) → (planned : List ℕ) → map R.remaining listings.old ≡ map (λ text. Some text) given → R.remaining plan.old ≡ Some planned
            → FilesGive (λ text. string_bytes text) result (ClearUpTo given) (campaign_behind self.now.form self.now.count start.now given planned) }
    {
        let file = listings.len();
        let image = match image_of(alloc, listings) {
            Ok(image) => image,
            Err(failure) => return Err(failure),
        };
        self.told(alloc, file, &image, start, plan)
    }

    /// Writes in the workers' form what comes of the plan's schedules, as `campaign_text` does their report. The gate is told of the
    /// end of the workers' work before anything is written.
    pub fn campaign_text<R: Read, W: Write>(
        &self,
        alloc: Global,
        listings: &mut [R],
        start: &str,
        plan: &mut R,
        writer: &mut W,
    ) -> Result<(), Failure>
        ensures written { (given : List (List ℕ)) → (planned : List ℕ) → map R.remaining listings.old ≡ map (λ text. Some text) given → R.remaining plan.old ≡ Some planned
            → Writes (TakesMemory start.now) (W.contents writer.old) (W.contents writer.new) result (ClearStart start.now given) (campaign_as self.now.form self.now.count start.now given planned) }
        ensures unwritten { IfErr result (λ failure. (failure ≡ Failure.Write) ⊎ Keeps
            (W.contents writer.old) (W.contents writer.new)) }
    {
        let start = match start_of(alloc, start) {
            Ok(start) => start,
            Err(failure) => return Err(failure),
        };
        let text = match self.text_of(alloc, listings, &start, plan) {
            Ok(text) => text,
            Err(failure) => return Err(failure),
        };
        match writer.write_all(text.as_bytes()) {
            Ok(()) => Ok(()),
            Err(_) => Err(Failure::Write),
        }
    }
}

/// Writes the report of the plan's schedules, as if each were run alone from the start `M:F`, over the modules of the listings, by
/// 1 to 64 workers that share what the schedules begin with.
///
/// The failure is the first of these: the start is no such thing; a listing, in the order given, can't be read or is refused when it
/// is read or assembled; the listings can't be loaded together; the plan can't be read or is refused; `Workers`, where they are not
/// 1 to 64; `NoEntry`, where the module does not export that function of no arguments. Nothing is written then, whatever the readers
/// are. Memory may run out at any time between the first atom of the start and the whole text, and is no file's fault. The
/// promise holds if the call returns, as it waits for its threads.
pub fn campaign_text<T: Threads + Wait + Sync, R: Read, W: Write>(
    rt: &T,
    alloc: Global,
    listings: &mut [R],
    start: &str,
    plan: &mut R,
    workers: u32,
    writer: &mut W,
) -> Result<(), Failure>
    ensures written { (given : List (List ℕ)) → (planned : List ℕ) → map R.remaining listings.old ≡ map (λ text. Some text) given → R.remaining plan.old ≡ Some planned
        → Writes (TakesMemory start.now) (W.contents writer.old) (W.contents writer.new) result (ClearStart start.now given) (campaign_of workers start.now given planned) }
    ensures unwritten { IfErr result (λ failure. (failure ≡ Failure.Write) ⊎ Keeps
        (W.contents writer.old) (W.contents writer.new)) }
{
    let workers = Workers::new(rt, workers, Form::Report, &FreeGate);
    workers.campaign_text(alloc, listings, start, plan, writer)
}
