//! A chain on its way: leased with the end that it goes on from, and worked.

ghost use Rattle.std.specs.Prelude.{⊤, ◌≡◌, ◌<◌, ◌≤◌, length, take, IfOk, IfErr, Ok};
ghost use Rattle.std.specs.List.{All};
ghost use Rattle.bx_terms.specs.Outcomes.{Gives};
ghost use Rattle.bx_plan.specs.Planned.{choices_at};
ghost use Rattle.bx_board.specs.Jobs.{end_of};
ghost use Rattle.bx_board.specs.Reported.{IsShown};

use crate::reports::Shown;
use crate::slots::ArcEnd;
use bx_load::Image;
use bx_plan::{Plan, Schedule};
use bx_share::{ArcHold, Hold};
use bx_terms::{AtomId, Fault};
use bx_world::advance_many;
use std::alloc::{AllocError, Global};
use std::marker::Model;

/// How many choices of a chain pay for a copy of one register, message, list cell or element, so that what is copied before a chain
/// is a small part of its work.
const CHOICES_A_COPY: usize = 8;

/// How many workers run a campaign's chains. What one of several runs is a deep copy, so that none waits for a count of another's;
/// one alone shares it all.
#[derive(Clone, Copy)]
pub(crate) enum Crew {
    One,
    Several,
}

/// A chain of a plan: its number, and its choices, those of a schedule from one position up to the one before another.
#[derive(Clone, Copy, Debug, PartialEq, Eq)]
pub(crate) struct Span {
    pub(crate) chain: usize,
    pub(crate) line: usize,
    pub(crate) first: usize,
    pub(crate) past: usize,
}

/// A chain to be run, with the end of the run that it goes on from.
#[derive(Drop)]
pub struct Lease<'a> {
    pub(crate) image: &'a Image,
    pub(crate) start: (AtomId, AtomId),
    pub(crate) plan: &'a Plan,
    pub(crate) span: Span,
    /// How many schedules end with the chain.
    pub(crate) endings: usize,
    pub(crate) from: ArcHold<ArcEnd>,
}

impl<'a> Model for Lease<'a> {
    ghost use Rattle.std.specs.Prelude.{◌≡◌};
    ghost use Rattle.bx_terms.specs.contracts.atom_table.AtomId as ids;
    ghost use Rattle.bx_asm.specs.contracts.unit.Unit as unit;
    ghost use Rattle.bx_load.specs.Image.{loaded_code};
    ghost use Rattle.bx_world.specs.contracts.choices.Choice as choices;
    ghost use Rattle.bx_board.specs.Jobs.{Work, work_code};

    ghost Value = { Work };

    ghost coded = { work_code (loaded_code unit.the_row.coded) ids.the_row.coded
        choices.the_row.coded };

    ghost use Rattle.bx_board.specs.Working.{run_up_to, work_at, IsSpan};

    ghost view = { λ l. work_at l.image.now l.start l.plan.now l.span };

    ghost invariant = { λ l. IsSpan l.plan.now l.span ×
        (l.from ≡ run_up_to l.image.now l.start l.plan.now l.span.line l.span.first) };
}

/// A chain that was run, with its end, and what that shows, for each schedule that ends with the chain.
#[derive(Drop)]
pub struct Piece<'a> {
    pub(crate) image: &'a Image,
    pub(crate) start: (AtomId, AtomId),
    pub(crate) plan: &'a Plan,
    pub(crate) span: Span,
    end: ArcHold<ArcEnd>,
    told: Vec<Shown>,
}

impl<'a> Model for Piece<'a> {
    ghost use Rattle.std.specs.Prelude.{◌≡◌};
    ghost use Rattle.bx_terms.specs.contracts.atom_table.AtomId as ids;
    ghost use Rattle.bx_asm.specs.contracts.unit.Unit as unit;
    ghost use Rattle.bx_load.specs.Image.{loaded_code};
    ghost use Rattle.bx_world.specs.contracts.choices.Choice as choices;
    ghost use Rattle.bx_board.specs.Jobs.{Work, work_code};

    ghost Value = { Work };

    ghost coded = { work_code (loaded_code unit.the_row.coded) ids.the_row.coded
        choices.the_row.coded };

    ghost use Rattle.std.specs.List.{All};
    ghost use Rattle.bx_board.specs.Reported.{IsShown};
    ghost use Rattle.bx_board.specs.Working.{run_up_to, work_at, IsSpan};

    ghost view = { λ p. work_at p.image.now p.start p.plan.now p.span };

    ghost invariant = { λ p. IsSpan p.plan.now p.span ×
        (p.end ≡ run_up_to p.image.now p.start p.plan.now p.span.line p.span.past) ×
        All (IsShown p.end) p.told.items };
}

impl<'a> Lease<'a> {
    /// The code that is run.
    pub fn image(&self) -> &'a Image
        ensures { result.now ≡ self.now.image }
    {
        self.image
    }

    /// The module and the function that the run starts with.
    pub fn start(&self) -> (AtomId, AtomId)
        ensures { result ≡ self.now.start }
    {
        self.start
    }

    /// All the choices from the start to the chain's end.
    pub fn path(&self, alloc: Global) -> Result<Schedule, AllocError>
        ensures { IfOk result (λ path. path ≡ self.now.path) }
    {
        path_of(alloc, self.plan, self.span)
    }

    /// Runs the chain from the end that the lease holds, a run of its choices at a time.
    fn run(&self, alloc: Global, code: &Image, crew: Crew) -> Result<ArcEnd, Fault>
        requires { code.now ≡ self.now.image }
        ensures { Gives ⊤ (λ end. end) result (Ok (end_of self.now)) }
    {
        let span = self.span;
        let mut end = branch(alloc, self.from.see(), span.past - span.first, crew)?;
        let mut left = self.plan.part(span.line, span.first, span.past);
        while let Some(run) = left.next_run() {
            advance_many(alloc, &mut end, code, run.choice, run.times as u64)?;
        }
        Ok(end)
    }

    /// The chain's end, and what it shows, for each schedule that ends with the chain.
    fn made(
        &self,
        alloc: Global,
        code: &Image,
        crew: Crew,
    ) -> Result<(ArcHold<ArcEnd>, Vec<Shown>), Fault>
        requires { code.now ≡ self.now.image }
        ensures end { IfOk result (λ made. made.0 ≡ end_of self.now) }
        ensures told { IfOk result (λ made. All (IsShown (end_of self.now)) made.1.items) }
        ensures err { IfErr result (λ fault. fault ≡ Fault.Memory) }
    {
        let end = self.run(alloc, code, crew)?;
        let told = Shown::many(alloc, &end, self.endings)?;
        let Ok(end) = ArcHold::put(alloc, end) else {
            return Err(Fault::Memory);
        };
        Ok((end, told))
    }
}

impl<'a> Piece<'a> {
    /// The code that was run.
    pub fn image(&self) -> &'a Image
        ensures { result.now ≡ self.now.image }
    {
        self.image
    }

    /// The module and the function that the run started with.
    pub fn start(&self) -> (AtomId, AtomId)
        ensures { result ≡ self.now.start }
    {
        self.start
    }

    /// All the choices from the start to the chain's end.
    pub fn path(&self, alloc: Global) -> Result<Schedule, AllocError>
        ensures { IfOk result (λ path. path ≡ self.now.path) }
    {
        path_of(alloc, self.plan, self.span)
    }

    /// How many of those choices are the chain's own, the last ones.
    pub fn choices(&self) -> usize
        ensures own { result ≡ self.now.own }
        ensures some { 0 < result }
    {
        self.span.past - self.span.first
    }

    /// Where those choices lead.
    pub fn end(&self) -> &ArcEnd
        ensures { result.now ≡ end_of self.now }
    {
        self.end.see()
    }

    /// Where those choices lead, and what that shows, to be kept.
    pub(crate) fn into_parts(self) -> (ArcHold<ArcEnd>, Vec<Shown>)
        ensures end { result.0 ≡ end_of self.entry }
        ensures told { All (IsShown (end_of self.entry)) result.1.items }
    {
        let Piece {
            image: _,
            start: _,
            plan: _,
            span: _,
            end,
            told,
        } = self;
        (end, told)
    }
}

/// The choices that lead to a chain's end.
fn path_of(alloc: Global, plan: &Plan, span: Span) -> Result<Schedule, AllocError>
    requires line { span.line < length plan.now }
    requires within { span.past ≤ length (choices_at plan.now span.line) }
    ensures { IfOk result (λ path. path ≡ take span.past (choices_at plan.now span.line)) }
{
    let mut path = Schedule::new(alloc);
    path.append(plan.part(span.line, 0, span.past))?;
    Ok(path)
}

/// An end that goes on independently of that one. What one of several workers runs shares nothing counted with that one where the
/// world is small beside the choices to come, so that workers whose chains part late do not wait for one count.
fn branch(alloc: Global, from: &ArcEnd, choices: usize, crew: Crew) -> Result<ArcEnd, Fault>
    ensures { Gives ⊤ (λ end. end) result (Ok from.now) }
{
    let mut world = from.world.snapshot(alloc)?;
    if let Crew::Several = crew {
        let mut room = choices / CHOICES_A_COPY;
        let _ = world.unshare(alloc, &mut room);
    }
    Ok(ArcEnd {
        world,
        applied: from.applied,
        refused: from.refused,
    })
}

/// Runs a leased chain from the end that the lease holds.
///
/// It can only run out of memory, and then the lease comes back.
pub fn work<'a>(alloc: Global, lease: Lease<'a>) -> Result<Piece<'a>, (Fault, Lease<'a>)>
    ensures ok { IfOk result (λ piece. piece ≡ lease.entry) }
    ensures err { IfErr result (λ refused. (refused.0 ≡ Fault.Memory) × (refused.1 ≡ lease.entry)) }
{
    let code = lease.image;
    work_over(alloc, code, lease, Crew::Several)
}

/// Runs a leased chain over code that equals the lease's, as a worker's own, and by one worker of that crew.
pub(crate) fn work_over<'a>(
    alloc: Global,
    code: &Image,
    lease: Lease<'a>,
    crew: Crew,
) -> Result<Piece<'a>, (Fault, Lease<'a>)>
    requires { code.now ≡ lease.image }
    ensures ok { IfOk result (λ piece. piece ≡ lease.entry) }
    ensures err { IfErr result (λ refused. (refused.0 ≡ Fault.Memory) × (refused.1 ≡ lease.entry)) }
{
    let (end, told) = match lease.made(alloc, code, crew) {
        Ok(made) => made,
        Err(fault) => return Err((fault, lease)),
    };
    let Lease {
        image,
        start,
        plan,
        span,
        endings: _,
        from: _,
    } = lease;
    Ok(Piece {
        image,
        start,
        plan,
        span,
        end,
        told,
    })
}
