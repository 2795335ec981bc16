//! The report of a plan whose text is cut into parts, which several workers read and run.

ghost use Rattle.std.specs.Prelude.{◌≡◌, ◌++◌, ◌≤◌, List, IfSome, IsOk, IsTrue, Ok, OnSome, length, string_bytes, take};
ghost use Rattle.std.specs.List.{All};
ghost use Rattle.bx_plan.specs.Planned.{schedules};
ghost use Rattle.bx_world.specs.World.{started};
ghost use Rattle.bx_plan.specs.Plans.{Named};
ghost use Rattle.bx_engine.specs.Joints.{AreApart, AreWhole, IsJoint, IsPart, IsReportOf, Knows, lines_from, place_count, prefix_count};

use bx_board::{Gate, report_alone, report_text};
use bx_load::Image;
use bx_plan::{Chains, Plan, chains_of, cut, read_plan};
use bx_terms::AtomId;
use std::alloc::Global;
use std::collections::BTreeSet;
use std::sync::atomic::{AtomicUsize, Ordering};
use std::thread;
use std::thread::Threads;

/// How many bytes of a plan pay for a part: below two such parts a campaign leases chains.
const PART: usize = 32_768;

/// How many parts there are for each worker, as not all of them take as long.
const PARTS_EACH: usize = 4;

/// How many distinct prefixes a plan's schedules may have, the empty one aside.
const MOST_PREFIXES: usize = 1_000_000;

/// How many atoms, exports, functions, items, operands, imports, literals, and list cells and elements of these a worker's own
/// code may hold.
const MOST_COPIED: usize = 200_000;

/// What is run, and the text of the plan that says how.
#[derive(Drop)]
pub(crate) struct Task<'a> {
    pub(crate) image: &'a Image,
    pub(crate) start: (AtomId, AtomId),
    pub(crate) text: &'a [u8],
}

/// The turns of the workers that share so many parts: each takes the next one as soon as it is free.
#[derive(Drop)]
struct Turns<'a, G> {
    next: AtomicUsize,
    parts: usize,
    gate: &'a G,
}

/// A part of a plan's text that is read as a plan of its own, and was run.
#[derive(Drop)]
struct Part {
    number: usize,
    /// Where it begins in the text.
    first: usize,
    /// Where what follows it begins.
    past: usize,
    plan: Plan,
    /// At least as many as its schedules have distinct prefixes, with the empty one.
    prefixes: usize,
    report: String,
}

/// The parts so far as one plan, and their reports one behind another.
#[derive(Drop)]
struct Joint<'a> {
    /// Where what follows the parts begins in the text.
    past: usize,
    names: BTreeSet<&'a str>,
    /// At least as many as their schedules have distinct prefixes, with the empty one.
    prefixes: usize,
    report: String,
}

/// How many places there are on chains, with the one at the root; none where they are too many to count.
fn places_on(chains: &Chains) -> Option<usize>
    ensures { IfSome result (λ places. places ≡ place_count chains.now (length chains.now.heads)) }
{
    let mut places = 1usize;
    for chain in 0..chains.len() {
        let head = chains.head(chain);
        places = places.checked_add(head.past.saturating_sub(head.first))?;
    }
    Some(places)
}

/// No fewer than a plan's schedules have distinct prefixes, with the empty one.
#[tactic(auto, using(crate::proofs::PrefixCounts::count_chains))]
fn prefixes_of(alloc: Global, plan: &Plan) -> Option<usize>
    ensures { IfSome result (λ prefixes. prefix_count (schedules plan.now) ≤ prefixes) }
{
    let chains = chains_of(alloc, plan).ok()?;
    places_on(&chains)
}

/// Adds the names of a plan's schedules, none of which may be known.
fn add_names<'a>(names: &mut BTreeSet<&'a str>, plan: &'a Plan) -> Option<()>
    ensures { IfSome result (λ _. (before : List Named) → Knows names.old before
        → Knows names.new (before ++ schedules plan.now) × AreApart before (schedules plan.now)) }
{
    for number in 0..plan.len() {
        let Some(name) = plan.label(number) else {
            return None;
        };
        let Ok(is_new) = names.insert(name) else {
            return None;
        };
        if !is_new {
            return None;
        }
    }
    Some(())
}

/// The report of a plan from that start.
fn report_over(alloc: Global, code: &Image, start: (AtomId, AtomId), plan: &Plan) -> Option<String>
    ensures { IfSome result (λ report. lines_from code.now start (schedules plan.now) ≡ Ok (string_bytes report)) }
{
    let Ok(rows) = report_alone(alloc, code, start.0, start.1, plan) else {
        return None;
    };
    let Ok(report) = report_text(alloc, code.atoms(), &rows) else {
        return None;
    };
    Some(report)
}

impl<'a, G: Gate> Turns<'a, G> {
    fn new(parts: usize, gate: &'a G) -> Turns<'a, G> {
        gate.cut(parts);
        Turns {
            next: AtomicUsize::new(0),
            parts,
            gate,
        }
    }

    /// The number of the part that is to be done next, if one is left.
    fn take(&self) -> Option<usize> {
        let number = self.next.fetch_add(1, Ordering::SeqCst);
        (number < self.parts).then_some(number)
    }

    /// Leaves no part to be done, as the text is no plan.
    fn end(&self) {
        self.next.store(self.parts, Ordering::SeqCst);
    }
}

impl<'a> Task<'a> {
    /// Where the part of that number begins, of so many: behind the line feed that comes next to an even share.
    fn begin(&self, parts: usize, number: usize) -> usize {
        let length = self.text.len();
        let share = (length / parts.max(1)).saturating_mul(number).min(length);
        if number == 0 {
            return 0;
        }
        match cut(&self.text[share..], b'\n') {
            Some((_, behind)) => length.saturating_sub(behind.len()),
            None => length,
        }
    }

    /// Reads and runs over that code, which is the task's, the part of that number, of so many.
    fn part(&self, alloc: Global, code: &Image, parts: usize, number: usize) -> Option<Part>
        requires { code.now ≡ self.now.image.now }
        ensures { IfSome result (IsPart self.now) }
    {
        let first = self.begin(parts, number);
        let past = self.begin(parts, number.saturating_add(1));
        if first > past || past > self.text.len() {
            return None;
        }
        let plan = read_plan(alloc, &self.text[first..past]).ok()?;
        let prefixes = prefixes_of(alloc, &plan)?;
        let report = report_over(alloc, code, self.start, &plan)?;
        Some(Part {
            number,
            first,
            past,
            plan,
            prefixes,
            report,
        })
    }

    /// Reads and runs the parts that come at this worker's turns, over code of its own, so that it waits for no other worker's count
    /// of references.
    fn in_turn<G: Gate>(&self, alloc: Global, turns: &Turns<'_, G>) -> Option<Vec<Part>>
        ensures { IfSome result (λ made. All (IsPart self.now) made.items) }
    {
        let own = self.image.deep_copy(alloc, MOST_COPIED).ok();
        let code = own.as_ref().unwrap_or(self.image);
        let mut made = Vec::new(alloc);
        for _ in 0..turns.parts {
            let Some(number) = turns.take() else {
                break;
            };
            let Some(part) = self.part(alloc, code, turns.parts, number) else {
                turns.end();
                return None;
            };
            made.push(part).ok()?;
            turns.gate.ran();
        }
        Some(made)
    }

    /// The parts by so many workers, in their order.
    fn parts<R: Threads + Sync, G: Gate>(
        &self,
        rt: &R,
        alloc: Global,
        workers: usize,
        turns: &Turns<'_, G>,
    ) -> Option<Vec<Part>>
        ensures { IfSome result (λ made. All (IsPart self.now) made.items) }
    {
        let rows = thread::map_indices(rt, alloc, workers, &|_| self.in_turn(alloc, turns)).ok()?;
        let mut made = Vec::new(alloc);
        for row in rows {
            made.append(&mut row?).ok()?;
        }
        made.sort_unstable_by_key(|part| part.number);
        Some(made)
    }

    /// The report of all parts in their order, where they make up the text.
    fn joint(&self, alloc: Global, parts: &[Part]) -> Option<String>
        requires { All (IsPart self.now) parts.now }
        ensures { IfSome result (λ report. IsReportOf self.now (string_bytes report)) }
    {
        let mut joint = Joint {
            past: 0,
            names: BTreeSet::new(alloc),
            prefixes: 1,
            report: String::new(alloc),
        };
        for part in parts {
            joint.add(self, part)?;
        }
        if parts.is_empty() || joint.past != self.text.len() {
            return None;
        }
        let Joint { report, .. } = joint;
        Some(report)
    }

    /// Whether what stands before that place is whole lines.
    fn is_cut(&self, at: usize) -> bool
        ensures { IsTrue result → AreWhole (take at self.now.text.now) }
    {
        at == 0 || self.text.get(at - 1) == Some(&b'\n')
    }
}

impl<'a> Joint<'a> {
    /// Adds a part, where it follows on whole lines, names no schedule again, and the prefixes are not too many.
    fn add(&mut self, task: &Task<'_>, part: &'a Part) -> Option<()>
        requires joint { IsJoint task.now self.old }
        requires part { IsPart task.now part.now }
        ensures joint { OnSome result (IsJoint task.now self.new) }
        ensures started { OnSome result (IsOk (started task.now.image.now task.now.start.0 task.now.start.1)) }
    {
        if part.first != self.past || !task.is_cut(self.past) {
            return None;
        }
        let prefixes = self.prefixes.saturating_add(part.prefixes);
        if prefixes > MOST_PREFIXES {
            return None;
        }
        let Some(()) = add_names(&mut self.names, &part.plan) else {
            return None;
        };
        let Ok(()) = self.report.push_str(part.report.as_str()) else {
            return None;
        };
        self.prefixes = prefixes;
        self.past = part.past;
        Some(())
    }
}

/// The report of a plan's text by so many workers, who share its parts. None where that is not the way: the text is short or no plan,
/// the parts may have too many prefixes, or memory runs out.
pub(crate) fn joined<R: Threads + Sync, G: Gate>(
    rt: &R,
    alloc: Global,
    task: &Task<'_>,
    workers: usize,
    gate: &G,
) -> Option<String>
    ensures { IfSome result (λ report. IsReportOf task.now (string_bytes report)) }
{
    let parts = workers
        .saturating_mul(PARTS_EACH)
        .min(task.text.len() / PART);
    if parts < 2 {
        return None;
    }
    let turns = Turns::new(parts, gate);
    let made = task.parts(rt, alloc, workers.min(parts), &turns);
    gate.ended();
    task.joint(alloc, &made?)
}
