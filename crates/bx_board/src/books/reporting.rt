//! The report of a campaign whose chains are all done.

ghost use Rattle.std.specs.Prelude.{◌≡◌, ◌⊎◌, ◌↔◌, ◌<◌, length, option_map, slice_get, IfErr, IfOk, IfSome, IsTrue, MatchOption, OnErr, Some};
ghost use Rattle.bx_plan.specs.Chains.{chain_count};
ghost use Rattle.bx_plan.specs.Planned.{schedules};
ghost use Rattle.bx_board.specs.Jobs.{chain_end};
ghost use Rattle.bx_board.specs.Kept.{IsAllDone};
ghost use Rattle.bx_board.specs.Reported.{report_of, told_alone, IsShown};

use crate::books::Book;
use crate::reports::{Report, Scheduled, Shown};
use crate::walks::report_alone;
use bx_terms::{Fault, Name};
use std::alloc::{AllocError, Global};

impl<'a> Book<'a> {
    /// Whether all chains are done.
    pub fn is_done(&self) -> bool
        ensures { IsTrue result ↔ IsAllDone self.now }
    {
        self.done == self.stands.len()
    }

    /// What a chain's end shows, where that was told and is not taken yet.
    fn take_told(&mut self, chain: usize) -> Option<Shown>
        requires { chain < chain_count self.old.job.chains }
        ensures told { IfSome result (IsShown (chain_end self.old.job chain)) }
        ensures same { self.new ≡ self.old }
    {
        self.stands[chain].pop()
    }

    /// What came of the schedule of that number, where that was told.
    fn scheduled(&mut self, alloc: Global, number: usize) -> Result<Option<Scheduled>, AllocError>
        requires { number < length (schedules self.old.job.plan) }
        ensures told { IfOk result (λ found. IfSome found (λ one.
            option_map (told_alone self.old.job.image self.old.job.start)
            (slice_get (schedules self.old.job.plan) number) ≡ Some one)) }
        ensures same { self.new ≡ self.old }
    {
        let Some(name) = self.plan.label(number) else {
            unreachable!()
        };
        let name = Name::new(alloc, name)?;
        let chain = self.chains.end(number);
        let Some(one) = self.take_told(chain) else {
            return Ok(None);
        };
        Ok(Some(Scheduled::named(name, one)))
    }

    /// What came of each schedule, in the plan's order, where all was told.
    fn report_told(&mut self, alloc: Global) -> Result<Option<Report>, AllocError>
        ensures ok { IfOk result (λ found. MatchOption found (0 < length (schedules self.old.job.plan))
            (λ report. report ≡ report_of self.old.job)) }
        ensures err { OnErr result (0 < length (schedules self.old.job.plan)) }
        ensures same { self.new ≡ self.old }
    {
        let mut report = Report::new(alloc);
        for number in 0..self.plan.len() {
            let Some(one) = self.scheduled(alloc, number)? else {
                return Ok(None);
            };
            match report.push(one) {
                Ok(()) => {}
                Err(_) => return Err(AllocError),
            }
        }
        Ok(Some(report))
    }

    /// What came of each schedule, in the plan's order. A piece of another plan may have told too little: then all are run anew.
    fn report(&mut self, alloc: Global) -> Result<Report, Fault>
        ensures ok { IfOk result (λ report. report ≡ report_of self.old.job) }
        ensures err { IfErr result (λ fault. (fault ≡ Fault.Memory) ×
            (0 < length (schedules self.old.job.plan))) }
        ensures same { self.new ≡ self.old }
    {
        if let Some(report) = self.report_told(alloc)? {
            return Ok(report);
        }
        report_alone(alloc, self.image, self.start.0, self.start.1, self.plan)
    }

    /// The report of the plan's schedules.
    ///
    /// `Unfinished` exactly where a chain is not done; the book comes back then, as it was, and also where memory runs out, which it
    /// does only where there is a schedule.
    pub fn finish(mut self, alloc: Global) -> Result<Report, (Fault, Book<'a>)>
        ensures ok { IfOk result (λ report. IsAllDone self.entry ×
            (report ≡ report_of self.entry.job)) }
        ensures err { IfErr result (λ refused. (refused.1 ≡ self.entry)
            × (((refused.0 ≡ Fault.Memory) × IsAllDone self.entry × (0 < length (schedules self.entry.job.plan))) ⊎ ((refused.0 ≡ Fault.Unfinished) × (IsAllDone self.entry → ⊥)))) }
    {
        if !self.is_done() {
            return Err((Fault::Unfinished, self));
        }
        match self.report(alloc) {
            Ok(report) => Ok(report),
            Err(fault) => Err((fault, self)),
        }
    }
}
