//! The schedules of a plan run by one worker: each chain of what they share once, in the order of their numbers, from the end of the
//! chain that it stands on. An end goes as soon as no chain that stands on it is left.

ghost use Rattle.std.specs.Prelude.{◌≡◌, ◌<◌, IfOk, IsSome, Ok, OnOk, Some, length, option_map, slice_get};
ghost use Rattle.std.specs.List.{All};
ghost use Rattle.bx_terms.specs.Outcomes.{Gives};
ghost use Rattle.bx_load.specs.Image.{export};
ghost use Rattle.bx_world.specs.World.{started};
ghost use Rattle.bx_plan.specs.Chains.{above};
ghost use Rattle.bx_plan.specs.Planned.{choices_at, schedules};
ghost use Rattle.bx_board.specs.Jobs.{chain_end, origin, run_alone};
ghost use Rattle.bx_board.specs.Reported.{report_from, reported_alone, told_alone};
ghost use Rattle.bx_board.specs.Walks.{job_of, AreTold, EndsSo, IsCourse, IsEnding, IsWalk};
ghost use Rattle.bx_board.specs.Working.{run_up_to, IsSpan};

use crate::reports::{Report, Scheduled};
use crate::working::Span;
use bx_load::Image;
use bx_plan::{Chains, Plan, chains_of};
use bx_proc::Proc;
use bx_share::RcHold;
use bx_terms::{AtomId, Fault};
use bx_world::{Lanes, RcWorld, RunEnd, advance_many};
use std::alloc::{AllocError, Global};

/// Where a list of choices has led, in a world that stays in one thread.
type RcEnd = RunEnd<RcHold<Proc>, RcHold<Lanes>>;

/// What is run: loaded code from its start, along the chains of a plan.
#[derive(Drop)]
struct Course<'a> {
    image: &'a Image,
    start: (AtomId, AtomId),
    plan: &'a Plan,
    chains: Chains,
}

/// The end of a chain on which others stand.
#[derive(Drop)]
struct Passed {
    chain: usize,
    end: RcEnd,
}

/// A schedule, by number, and the chain with which it ends.
#[derive(Clone, Copy)]
struct Ending {
    chain: usize,
    number: usize,
}

/// How far a walk along the chains has come.
#[derive(Drop)]
struct Walk {
    /// The ends of chains on the way to the one that was run last.
    passed: Vec<Passed>,
    /// What came of each schedule, by number, where that is known.
    told: Vec<Option<Scheduled>>,
    /// The schedules that end with chains to come, the last one's first.
    endings: Vec<Ending>,
}

/// An end that goes on independently of that one.
fn branch(alloc: Global, from: &RcEnd) -> Result<RcEnd, AllocError>
    ensures { IfOk result (λ end. end ≡ from.now) }
{
    let Ok(world) = from.world.snapshot(alloc) else {
        return Err(AllocError);
    };
    Ok(RcEnd {
        world,
        applied: from.applied,
        refused: from.refused,
    })
}

impl<'a> Course<'a> {
    /// Runs the choices of a span from where the choices before them lead.
    fn run(&self, alloc: Global, from: RcEnd, span: Span) -> Result<RcEnd, AllocError>
        requires span { IsSpan self.now.plan.now span }
        requires from { from ≡ run_up_to self.now.image.now self.now.start self.now.plan.now span.line span.first }
        ensures { IfOk result (λ end. end ≡ run_up_to self.now.image.now self.now.start self.now.plan.now span.line span.past) }
    {
        let mut end = from;
        let mut left = self.plan.part(span.line, span.first, span.past);
        while let Some(run) = left.next_run() {
            let Ok(()) = advance_many(alloc, &mut end, self.image, run.choice, run.times as u64)
            else {
                return Err(AllocError);
            };
        }
        Ok(end)
    }

    /// The end of a chain, made from the start.
    #[tactic(auto, using(crate::proofs::Passing::none_made, crate::proofs::Passing::whole_span))]
    fn again(&self, alloc: Global, root: &RcEnd, chain: usize) -> Result<RcEnd, AllocError>
        requires course { IsCourse self.now }
        requires chain { chain < length self.now.chains.heads }
        requires root { root.now ≡ origin self.now.image.now self.now.start }
        ensures { IfOk result (λ end. end ≡ chain_end (job_of self.now) chain) }
    {
        let head = self.chains.head(chain);
        let end = branch(alloc, root)?;
        if head.past == 0 {
            return Ok(end);
        }
        let span = Span {
            chain,
            line: head.line,
            first: 0,
            past: head.past,
        };
        self.run(alloc, end, span)
    }

    /// Takes off the ends of chains that come behind that one.
    fn drop_behind(&self, passed: &mut Vec<Passed>, chain: usize)
        requires { All (EndsSo (chain_end (job_of self.now))) passed.old.items }
        ensures { All (EndsSo (chain_end (job_of self.now))) passed.new.items }
    {
        let _chains = &self.chains;
        while let Some(last) = passed.last() {
            if last.chain <= chain {
                return;
            }
            let _ = passed.pop();
        }
    }

    /// Whether that chain is the last one of those that stand on the other.
    fn is_last(&self, chain: usize, above: usize) -> bool
        requires course { IsCourse self.now }
        requires above { above < length self.now.chains.heads }
    {
        self.chains.kids(above).last() == Some(&chain)
    }

    /// The end that a chain goes on from: that of the chain that it stands on. The last chain that does takes it.
    #[tactic(auto, using(crate::proofs::Passing::above_there))]
    fn begin(
        &self,
        alloc: Global,
        passed: &mut Vec<Passed>,
        root: &RcEnd,
        chain: usize,
    ) -> Result<RcEnd, AllocError>
        requires course { IsCourse self.now }
        requires chain { chain < length self.now.chains.heads }
        requires root { root.now ≡ origin self.now.image.now self.now.start }
        requires passed { All (EndsSo (chain_end (job_of self.now))) passed.old.items }
        ensures passed { All (EndsSo (chain_end (job_of self.now))) passed.new.items }
        ensures end { IfOk result (λ end. end ≡ chain_end (job_of self.now) (above self.now.chains chain)) }
    {
        let above = self.chains.head(chain).above;
        self.drop_behind(passed, above);
        if self.is_last(chain, above) {
            if let Some(last) = passed.pop() {
                if last.chain == above {
                    return Ok(last.end);
                }
            }
        } else if let Some(last) = passed.last() {
            if last.chain == above {
                return branch(alloc, &last.end);
            }
        }
        self.again(alloc, root, above)
    }

    /// Runs a chain from the end of the one that it stands on.
    #[tactic(auto, using(crate::proofs::Passing::own_span, crate::proofs::Passing::goes_on))]
    fn run_chain(
        &self,
        alloc: Global,
        passed: &mut Vec<Passed>,
        root: &RcEnd,
        chain: usize,
    ) -> Result<RcEnd, AllocError>
        requires course { IsCourse self.now }
        requires some { 0 < chain }
        requires chain { chain < length self.now.chains.heads }
        requires root { root.now ≡ origin self.now.image.now self.now.start }
        requires passed { All (EndsSo (chain_end (job_of self.now))) passed.old.items }
        ensures passed { All (EndsSo (chain_end (job_of self.now))) passed.new.items }
        ensures end { IfOk result (λ end. end ≡ chain_end (job_of self.now) chain) }
    {
        let head = self.chains.head(chain);
        let from = self.begin(alloc, passed, root, chain)?;
        let span = Span {
            chain,
            line: head.line,
            first: head.first,
            past: head.past,
        };
        self.run(alloc, from, span)
    }

    /// What came of a schedule that leads to that end.
    fn scheduled(&self, alloc: Global, number: usize, end: &RcEnd) -> Result<Scheduled, AllocError>
        requires within { number < length (schedules self.now.plan.now) }
        requires end { end.now ≡ run_alone self.now.image.now self.now.start (choices_at self.now.plan.now number) }
        ensures { IfOk result (λ one. option_map (told_alone self.now.image.now self.now.start)
            (slice_get (schedules self.now.plan.now) number) ≡ Some one) }
    {
        let Some(name) = self.plan.label(number) else {
            unreachable!()
        };
        let one = Scheduled::of(alloc, name, end)?;
        Ok(one)
    }

    /// Tells what came of a schedule that leads to that end.
    fn tell(
        &self,
        alloc: Global,
        told: &mut Vec<Option<Scheduled>>,
        number: usize,
        end: &RcEnd,
    ) -> Result<(), AllocError>
        requires within { number < length (schedules self.now.plan.now) }
        requires end { end.now ≡ run_alone self.now.image.now self.now.start (choices_at self.now.plan.now number) }
        requires told { AreTold (job_of self.now) told.old.items }
        ensures { OnOk result (AreTold (job_of self.now) told.new.items) }
    {
        let one = self.scheduled(alloc, number, end)?;
        told[number] = Some(one);
        Ok(())
    }

    /// Tells of the schedules that end with a chain.
    fn tell_all(
        &self,
        alloc: Global,
        walk: &mut Walk,
        chain: usize,
        end: &RcEnd,
    ) -> Result<(), AllocError>
        requires course { IsCourse self.now }
        requires end { end.now ≡ chain_end (job_of self.now) chain }
        requires walk { IsWalk (job_of self.now) walk.old }
        ensures { OnOk result (IsWalk (job_of self.now) walk.new) }
    {
        while let Some(ending) = walk.endings.last().copied() {
            if ending.chain != chain {
                return Ok(());
            }
            let _ = walk.endings.pop();
            self.tell(alloc, &mut walk.told, ending.number, end)?;
        }
        Ok(())
    }

    /// Tells of the schedules that end with a chain, and keeps its end where others stand on it.
    fn leave(
        &self,
        alloc: Global,
        walk: &mut Walk,
        chain: usize,
        end: RcEnd,
    ) -> Result<(), AllocError>
        requires course { IsCourse self.now }
        requires chain { chain < length self.now.chains.heads }
        requires end { end ≡ chain_end (job_of self.now) chain }
        requires walk { IsWalk (job_of self.now) walk.old }
        ensures { OnOk result (IsWalk (job_of self.now) walk.new) }
    {
        self.tell_all(alloc, walk, chain, &end)?;
        if !self.chains.kids(chain).is_empty() {
            walk.passed.push(Passed { chain, end })?;
        }
        Ok(())
    }

    /// Runs a chain, and leaves it.
    fn pass(
        &self,
        alloc: Global,
        walk: &mut Walk,
        root: &RcEnd,
        chain: usize,
    ) -> Result<(), AllocError>
        requires course { IsCourse self.now }
        requires some { 0 < chain }
        requires chain { chain < length self.now.chains.heads }
        requires root { root.now ≡ origin self.now.image.now self.now.start }
        requires walk { IsWalk (job_of self.now) walk.old }
        ensures { OnOk result (IsWalk (job_of self.now) walk.new) }
    {
        let end = self.run_chain(alloc, &mut walk.passed, root, chain)?;
        self.leave(alloc, walk, chain, end)
    }

    /// No schedule is told.
    fn untold(&self, alloc: Global) -> Result<Vec<Option<Scheduled>>, AllocError>
        ensures { IfOk result (λ told. AreTold (job_of self.now) told.items) }
    {
        let count = self.plan.len();
        let mut told = Vec::with_capacity(alloc, count)?;
        for _number in 0..count {
            told.push_reserved(None);
        }
        Ok(told)
    }

    /// The schedules by the chains with which they end, the last one's first.
    fn endings(&self, alloc: Global) -> Result<Vec<Ending>, AllocError>
        requires course { IsCourse self.now }
        ensures { IfOk result (λ endings. All (IsEnding (job_of self.now)) endings.items) }
    {
        let mut endings = self.unsorted(alloc)?;
        endings.sort_unstable_by(|one, other| other.chain.cmp(&one.chain));
        Ok(endings)
    }

    /// The schedules in the plan's order.
    fn unsorted(&self, alloc: Global) -> Result<Vec<Ending>, AllocError>
        requires course { IsCourse self.now }
        ensures { IfOk result (λ endings. All (IsEnding (job_of self.now)) endings.items) }
    {
        let count = self.plan.len();
        let mut endings = Vec::with_capacity(alloc, count)?;
        for number in 0..count {
            endings.push_reserved(Ending {
                chain: self.chains.end(number),
                number,
            });
        }
        Ok(endings)
    }

    /// What came of each schedule, by number.
    #[tactic(auto, using(crate::proofs::Passing::root_is))]
    fn walk(&self, alloc: Global, root: &RcEnd) -> Result<Vec<Option<Scheduled>>, AllocError>
        requires course { IsCourse self.now }
        requires root { root.now ≡ origin self.now.image.now self.now.start }
        ensures { IfOk result (λ told. AreTold (job_of self.now) told.items) }
    {
        let mut walk = Walk {
            passed: Vec::new(alloc),
            told: self.untold(alloc)?,
            endings: self.endings(alloc)?,
        };
        let end = branch(alloc, root)?;
        self.leave(alloc, &mut walk, 0, end)?;
        for chain in 1..self.chains.len() {
            self.pass(alloc, &mut walk, root, chain)?;
        }
        Ok(walk.told)
    }

    /// What came of a schedule: as it was told, or by a run of its own.
    #[tactic(auto, using(crate::proofs::Passing::ended_with, crate::proofs::Passing::told_taken))]
    fn one_of(
        &self,
        alloc: Global,
        root: &RcEnd,
        told: &mut Vec<Option<Scheduled>>,
        number: usize,
    ) -> Result<Scheduled, AllocError>
        requires course { IsCourse self.now }
        requires root { root.now ≡ origin self.now.image.now self.now.start }
        requires within { number < length (schedules self.now.plan.now) }
        requires told { AreTold (job_of self.now) told.old.items }
        ensures told { AreTold (job_of self.now) told.new.items }
        ensures one { IfOk result (λ one. option_map (told_alone self.now.image.now self.now.start)
            (slice_get (schedules self.now.plan.now) number) ≡ Some one) }
    {
        if let Some(one) = told[number].take() {
            return Ok(one);
        }
        let end = self.again(alloc, root, self.chains.end(number))?;
        self.scheduled(alloc, number, &end)
    }

    /// The report of the plan's schedules.
    fn report(&self, alloc: Global, root: &RcEnd) -> Result<Report, AllocError>
        requires course { IsCourse self.now }
        requires root { root.now ≡ origin self.now.image.now self.now.start }
        ensures { IfOk result (λ report. report ≡ reported_alone self.now.image.now self.now.start (schedules self.now.plan.now)) }
    {
        let mut told = self.walk(alloc, root)?;
        let mut report = Report::new(alloc);
        for number in 0..self.plan.len() {
            let one = self.one_of(alloc, root, &mut told, number)?;
            match report.push(one) {
                Ok(()) => {}
                Err(_) => return Err(AllocError),
            }
        }
        Ok(report)
    }
}

/// The report of the plan's schedules from that world on.
#[tactic(auto, using(crate::proofs::Passing::begins))]
fn report_of(
    alloc: Global,
    image: &Image,
    start: (AtomId, AtomId),
    plan: &Plan,
    world: RcWorld,
) -> Result<Report, AllocError>
    requires { started image.now start.0 start.1 ≡ Ok world }
    ensures { IfOk result (λ report. report ≡ reported_alone image.now start (schedules plan.now)) }
{
    let root = RcEnd {
        world,
        applied: 0,
        refused: None,
    };
    let course = Course {
        image,
        start,
        plan,
        chains: chains_of(alloc, plan)?,
    };
    let report = course.report(alloc, &root)?;
    Ok(report)
}

/// The report of the plan's schedules, each as if it were run alone from the start; what schedules begin with in common is
/// run once.
///
/// `NoEntry` exactly where the module does not export that function of no arguments; memory is taken only where it does.
pub fn report_alone(
    alloc: Global,
    image: &Image,
    module: AtomId,
    function: AtomId,
    plan: &Plan,
) -> Result<Report, Fault>
    ensures { Gives (IsSome (export image.now «module» function 0)) (λ report. report) result
        (report_from image.now («module», function) (schedules plan.now)) }
{
    let world = RcWorld::start(alloc, image, module, function)?;
    let report = report_of(alloc, image, (module, function), plan, world)?;
    Ok(report)
}
