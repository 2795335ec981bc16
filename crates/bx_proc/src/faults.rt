//! What becomes of a fault, and the end of a process.

ghost use Rattle.std.specs.Prelude.{◌≡◌, ◌↔◌, IsTrue, IsOk, MatchResult, is_some};
ghost use Rattle.bx_cells.specs.Stack.{unwound};
ghost use Rattle.bx_terms.specs.Built.{IsWithinHeight};
ghost use Rattle.bx_proc.specs.Faults.{reason, reasoned, pair, within_height, raised, caught_at};
ghost use Rattle.bx_proc.specs.Calls.{raised_by, frames_left};
ghost use Rattle.bx_proc.specs.Ending.{ended};
ghost use Rattle.bx_proc.specs.Runs.{RunsBy};
ghost use Rattle.bx_proc.specs.Stops.{Reads};
ghost use Rattle.bx_proc.specs.declared.stops.Why.TheVariants as stops;
ghost use Rattle.std.specs.Prelude.{Err};

use crate::parts::Pending;
use crate::process::Proc;
use crate::stops::Stop;
use bx_asm::CallKind;
use bx_terms::{Class, MAX_HEIGHT, Place, Term, TermRefusal, Trap, fixed};
use std::alloc::Global;

impl Proc {
    /// The process ends: its reason waits where a fault does.
    #[cold]
    #[inline(never)]
    pub(crate) fn end(&mut self, reason: Term) -> Result<(), Stop>
        ensures told { result ≡ Err stops.Ends }
        ensures waits { self.new ≡ ended reason self.old }
    {
        self.fault = Some(Pending {
            class: Class::Exit,
            value: reason,
        });
        Err(Stop::ends())
    }

    /// Raises a fault: it is caught in the stack, or the process ends.
    #[cold]
    #[inline(never)]
    pub(crate) fn raise(&mut self, alloc: Global, class: Class, value: Term) -> Result<(), Stop>
        ensures { RunsBy self.old self.new result (raised class value self.old) }
    {
        let Some((above, place)) = self.frames.handler() else {
            let reason = reason(alloc, class, value)?;
            return self.end(reason);
        };
        self.catch_at(above, place, class, value);
        Ok(())
    }

    /// Raises a fault of what a call by name would have run.
    #[cold]
    #[inline(never)]
    pub(crate) fn raise_by(
        &mut self,
        alloc: Global,
        kind: CallKind,
        class: Class,
        value: Term,
    ) -> Result<(), Stop>
        ensures { RunsBy self.old self.new result (raised_by kind class value self.old) }
    {
        let CallKind::Last(size) = kind else {
            return self.raise(alloc, class, value);
        };
        let cp = self.saved(size as u64)?;
        let Some((above, place)) = self.frames.handler_below() else {
            let reason = reason(alloc, class, value)?;
            return self.end(reason);
        };
        self.catch_at(above, place, class, value);
        self.cp = cp;
        Ok(())
    }

    /// Whether such a fault can be raised: a last call has a frame of its size to give back, and the reason of an end is not
    /// too high.
    #[cold]
    #[inline(never)]
    pub(crate) fn may_raise(&self, kind: CallKind, class: Class, value: &Term) -> Result<(), Trap>
        ensures { MatchResult result (λ done. IsOk (raised_by kind class value.now self.now).said)
            (λ trap. (raised_by kind class value.now self.now).said ≡ Err trap) }
    {
        self.may_prepare(kind)?;
        if is_low(class, value) || self.is_caught(kind) {
            return Ok(());
        }
        Err(Trap::TermHeight)
    }

    /// Whether such a fault is caught.
    fn is_caught(&self, kind: CallKind) -> bool
        ensures { result ≡ is_some (unwound (frames_left kind self.now.frames)) }
    {
        match kind {
            CallKind::Last(_) => self.frames.handler_below().is_some(),
            _ => self.frames.handler().is_some(),
        }
    }

    /// The frames above go, and the fault waits to be looked at.
    fn catch_at(&mut self, above: usize, place: Place, class: Class, value: Term)
        ensures { self.new ≡ caught_at above place class value self.old }
    {
        self.frames.cut(above);
        self.place = Some(place);
        self.fault = Some(Pending { class, value });
    }
}

/// Whether the reason with which a process ends that did not catch a fault is no higher than 10,000.
fn is_low(class: Class, value: &Term) -> bool
    ensures { IsTrue result ↔ IsWithinHeight (reason class value.now) }
{
    let height = value.height();
    match class {
        Class::Exit => true,
        Class::Error => height < MAX_HEIGHT,
        Class::Throw => height <= MAX_HEIGHT - 2,
    }
}

/// The reason with which a process ends that did not catch a fault. Its height is looked at before anything is built.
#[tactic(auto, using(crate::proofs::Heights::pair_low, crate::proofs::Heights::refused_high, crate::proofs::Heights::uncaught_low, crate::proofs::Heights::uncaught_high))]
fn reason(alloc: Global, class: Class, value: Term) -> Result<Term, Stop>
    ensures { Reads (reasoned class value).takes (λ r. r) result (reasoned class value).said }
{
    match class {
        Class::Exit => Ok(value),
        Class::Error => pair(alloc, value, Term::nil()),
        Class::Throw => {
            if value.height() > MAX_HEIGHT - 2 {
                return Err(Stop::trapped(Trap::TermHeight));
            }
            let uncaught = pair(alloc, Term::atom(fixed::NOCATCH), value)?;
            pair(alloc, uncaught, Term::nil())
        }
    }
}

/// A tuple of two. Its height is looked at before it is built.
#[tactic(auto, using(crate::proofs::Heights::pair_low, crate::proofs::Heights::first_high, crate::proofs::Heights::second_high))]
pub(crate) fn pair(alloc: Global, first: Term, second: Term) -> Result<Term, Stop>
    ensures { Reads (IsWithinHeight (pair first second)) (λ t. t) result
        (within_height (pair first second)) }
{
    if first.height() == MAX_HEIGHT || second.height() == MAX_HEIGHT {
        return Err(Stop::trapped(Trap::TermHeight));
    }
    let mut elements = Vec::with_capacity(alloc, 2)?;
    elements.push(first)?;
    elements.push(second)?;
    match Term::tuple(alloc, elements) {
        Ok(term) => Ok(term),
        Err((TermRefusal::TooHigh, _)) => Err(Stop::trapped(Trap::TermHeight)),
        Err((TermRefusal::Memory, _)) => Err(Stop::memory()),
    }
}
