//! `chart`: the drawing of a schedule's run.

ghost use Rattle.std.specs.Prelude.{⊤, ◌≡◌, ◌⊎◌, List, ℕ, IfErr, None, Some, bytes_eq, false, map, option_and_then, option_map, slice_get, string_bytes};
ghost use Rattle.std.specs.Option.{option_map_or};
ghost use Rattle.std.specs.Io.KnownBytes.{Keeps};
ghost use Rattle.bx_terms.specs.Outcomes.{Gives};
ghost use Rattle.bx_plan.specs.Planned.{schedules};
ghost use Rattle.bx_engine.specs.Loads.{ClearUpTo};
ghost use Rattle.bx_engine.specs.Runs.{ClearStart, TakesMemory, Writes, entry_in};
ghost use Rattle.bx_engine.specs.Units.{FilesGive};
ghost use Rattle.bx_chart.specs.Charts.{asked_for, chart_at, chart_behind, chart_of, drawing_of, failure_of};

use crate::sheets::charted;
use bx_engine::{Failure, Sources, Start, entry_in, located_image_of, plan_in, start_of};
use bx_events::told_story;
use bx_load::Image;
use bx_plan::{Plan, Schedule};
use bx_terms::{AtomId, Fault};
use std::alloc::Global;
use std::io::{Read, Write};

/// Whether the schedule of that number is there, and has that name.
fn is_named(plan: &Plan, number: usize, name: &str) -> bool
    ensures { result ≡ option_map_or (λ schedule. bytes_eq schedule.0 name.now) (slice_get (schedules plan.now) number) false }
{
    match plan.label(number) {
        Some(label) => label == name,
        None => false,
    }
}

/// The number of the schedule of that name.
fn with_name(plan: &Plan, name: &str) -> Option<usize>
    ensures { option_and_then (slice_get (schedules plan.now)) result
        ≡ asked_for (Some name.now) (schedules plan.now) }
{
    for number in 0..plan.len() {
        if is_named(plan, number, name) {
            return Some(number);
        }
    }
    None
}

/// The number of the only schedule.
fn only_one(plan: &Plan) -> Option<usize>
    ensures { option_and_then (slice_get (schedules plan.now)) result ≡ asked_for None (schedules plan.now) }
{
    if plan.len() == 1 { Some(0) } else { None }
}

/// The number of the schedule of that name; where none is named, of the only one.
fn asked_for(plan: &Plan, name: Option<&str>) -> Option<usize>
    ensures { option_and_then (slice_get (schedules plan.now)) result
        ≡ asked_for (option_map (λ text. text.now) name.entry) (schedules plan.now) }
{
    match name {
        Some(name) => with_name(plan, name),
        None => only_one(plan),
    }
}

/// The code and its sources, and the function at which a run begins.
#[derive(Drop)]
struct Beginning<'a> {
    image: &'a Image,
    sources: &'a Sources,
    module: AtomId,
    function: AtomId,
}

impl<'a> Beginning<'a> {
    /// The drawing of a schedule's run.
    fn drawn(&self, alloc: Global, name: &str, schedule: &Schedule) -> Result<String, Fault>
        ensures { Gives ⊤ (λ text. string_bytes text) result (drawing_of self.now.image.now self.now.sources.now
            (self.now.module, self.now.function) (Some (name.now, schedule.now))) }
    {
        let story = match told_story(alloc, self.image, self.module, self.function, schedule) {
            Ok(story) => story,
            Err(fault) => return Err(fault),
        };
        match charted(alloc, self.image, self.sources, name, &story) {
            Ok(text) => Ok(text),
            Err(_) => Err(Fault::Memory),
        }
    }

    /// The drawing of the run of the schedule of that number.
    fn drawn_at(&self, alloc: Global, plan: &Plan, number: usize) -> Result<String, Fault>
        ensures { Gives ⊤ (λ text. string_bytes text) result (drawing_of self.now.image.now self.now.sources.now
            (self.now.module, self.now.function) (slice_get (schedules plan.now) number)) }
    {
        let Some(name) = plan.label(number) else {
            return Err(Fault::BadCommand { line: 0 });
        };
        let Some(schedule) = plan.schedule(alloc, number) else {
            return Err(Fault::BadCommand { line: 0 });
        };
        let schedule = schedule?;
        self.drawn(alloc, name, &schedule)
    }

    /// The drawing of the run of the schedule that is asked for.
    fn chart(&self, alloc: Global, plan: &Plan, name: Option<&str>) -> Result<String, Fault>
        ensures { Gives ⊤ (λ text. string_bytes text) result (chart_at self.now.image.now self.now.sources.now
            (Some (self.now.module, self.now.function)) (option_map (λ text. text.now) name.entry) (schedules plan.now)) }
    {
        if self.image.entry(self.module, self.function, 0).is_none() {
            return Err(Fault::NoEntry);
        }
        match asked_for(plan, name) {
            Some(number) => self.drawn_at(alloc, plan, number),
            None => Err(Fault::BadCommand { line: 0 }),
        }
    }
}

fn chart_at(
    alloc: Global,
    located: (&Image, &Sources),
    start: &Start,
    plan: &Plan,
    name: Option<&str>,
) -> Result<String, Fault>
    ensures { Gives ⊤ (λ text. string_bytes text) result (chart_at located.entry.0.now located.entry.1.now (entry_in located.entry.0.now start.now)
        (option_map (λ text. text.now) name.entry) (schedules plan.now)) }
{
    let (image, sources) = located;
    match entry_in(image, start) {
        Some((module, function)) => {
            let beginning = Beginning {
                image,
                sources,
                module,
                function,
            };
            beginning.chart(alloc, plan, name)
        }
        None => Err(Fault::NoEntry),
    }
}

/// The failure that a fault is where the plan is the file of that number.
fn failure_of(fault: Fault, file: usize) -> Failure
    ensures { result ≡ failure_of file fault }
{
    match fault {
        Fault::Memory => Failure::Refused(Fault::Memory, None),
        Fault::NoEntry => Failure::Refused(Fault::NoEntry, None),
        fault => Failure::Refused(fault, Some(file)),
    }
}

/// The drawing, or the first fault of the files.
fn text_of<R: Read>(
    alloc: Global,
    listings: &mut [R],
    start: &Start,
    plan: &mut R,
    schedule: Option<&str>,
) -> Result<String, Failure>
    ensures { (given : List (List ℕ)) → (planned : List ℕ) → map R.remaining listings.old ≡ map (λ text. Some text) given → R.remaining plan.old ≡ Some planned
        → FilesGive (λ text. string_bytes text) result (ClearUpTo given)
        (chart_behind start.now (option_map (λ text. text.now) schedule.entry) given planned) }
{
    let file = listings.len();
    let (image, sources) = match located_image_of(alloc, listings) {
        Ok(located) => located,
        Err(failure) => return Err(failure),
    };
    let plan = match plan_in(alloc, file, plan) {
        Ok(plan) => plan,
        Err(failure) => return Err(failure),
    };
    match chart_at(alloc, (&image, &sources), start, &plan, schedule) {
        Ok(text) => Ok(text),
        Err(fault) => Err(failure_of(fault, file)),
    }
}

/// Writes the drawing of the run of one of the plan's schedules from the start `M:F`, over the modules of the listings, as SVG: that of the
/// schedule of the given name, or, where none is given, of the plan's only schedule.
///
/// The failure is the first of these: the start is no such thing; a listing, in the order given, can't be read or is refused when it
/// is read or assembled; the listings can't be loaded together; the plan can't be read or is refused; `NoEntry`, where the module
/// does not export that function of no arguments; `BadCommand` of line 0 in the plan's file, where the plan has no schedule of that name, or
/// none was given and it has not exactly one; `TooLarge` in the plan's file, where the run has over 20,000 events. Nothing is written then,
/// whatever the readers are. Memory may run out at any time between the first atom of the start and the whole text, and is no file's
/// fault.
pub fn chart_text<R: Read, W: Write>(
    alloc: Global,
    listings: &mut [R],
    start: &str,
    plan: &mut R,
    schedule: Option<&str>,
    writer: &mut W,
) -> Result<(), Failure>
    ensures written { (given : List (List ℕ)) → (planned : List ℕ) → map R.remaining listings.old ≡ map (λ text. Some text) given → R.remaining plan.old ≡ Some planned
        → Writes (TakesMemory start.now) (W.contents writer.old) (W.contents writer.new) result (ClearStart start.now given)
        (chart_of start.now (option_map (λ text. text.now) schedule.entry) given planned) }
    ensures unwritten { IfErr result (λ failure. (failure ≡ Failure.Write) ⊎ Keeps
        (W.contents writer.old) (W.contents writer.new)) }
{
    let start = match start_of(alloc, start) {
        Ok(start) => start,
        Err(failure) => return Err(failure),
    };
    let text = match text_of(alloc, listings, &start, plan, schedule) {
        Ok(text) => text,
        Err(failure) => return Err(failure),
    };
    match writer.write_all(text.as_bytes()) {
        Ok(()) => Ok(()),
        Err(_) => Err(Failure::Write),
    }
}
