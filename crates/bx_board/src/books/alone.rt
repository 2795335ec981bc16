//! A campaign that one worker goes on with alone, in a plain loop.

ghost use Rattle.std.specs.Prelude.{◌≡◌, IfErr, IfOk, MatchBool};
ghost use Rattle.bx_board.specs.Alone.{GoesOn, IsIdle, IsUnheld, TakesBack};
ghost use Rattle.bx_board.specs.Kept.{IsAllDone};
ghost use Rattle.bx_board.specs.Reported.{report_of};

use crate::books::Book;
use crate::reports::Report;
use crate::working::{Crew, work_over};
use bx_terms::Fault;
use std::alloc::Global;

impl<'a> Book<'a> {
    /// Runs one chain more, where one is left.
    fn go_on(&mut self, alloc: Global) -> Result<bool, Fault>
        requires { IsIdle self.old }
        ensures ok { IfOk result (λ more. MatchBool more (GoesOn self.old self.new)
            ((self.new ≡ self.old) × IsAllDone self.old)) }
        ensures err { IfErr result (λ fault. fault ≡ Fault.Memory) }
    {
        self.known();
        let Some(lease) = self.lease(alloc, 0)? else {
            return Ok(false);
        };
        let code = lease.image();
        let piece = match work_over(alloc, code, lease, Crew::One) {
            Ok(piece) => piece,
            Err((fault, _lease)) => return Err(fault),
        };
        let Some(chain) = self.held_by(0) else {
            unreachable!()
        };
        self.hand_in(0, chain, piece);
        Ok(true)
    }

    /// Runs all chains that are left, where nobody holds one, and gives the report.
    pub(crate) fn finish_alone(mut self, alloc: Global) -> Result<Report, Fault>
        requires { IsIdle self }
        ensures ok { IfOk result (λ report. report ≡ report_of self.entry.job) }
        ensures err { IfErr result (λ fault. fault ≡ Fault.Memory) }
    {
        while self.go_on(alloc)? {}
        match self.finish(alloc) {
            Ok(report) => Ok(report),
            Err((fault, _book)) => Err(fault),
        }
    }

    /// Takes back the lease of some worker, where one is held.
    fn take_back(&mut self) -> bool
        ensures { MatchBool result (TakesBack self.old self.new)
            ((self.new ≡ self.old) × IsUnheld self.old) }
    {
        let Some((worker, _)) = self.holders.first_key_value() else {
            return false;
        };
        let worker = *worker;
        self.give_back(worker)
    }

    /// Takes back all leases.
    pub(crate) fn take_back_all(&mut self)
        ensures unheld { IsUnheld self.new }
        ensures job { self.new.job ≡ self.old.job }
        ensures stopped { self.new.state.stopped ≡ self.old.state.stopped }
    {
        while self.take_back() {}
    }
}
