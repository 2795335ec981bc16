//! The end of what a process asked for or sent.

ghost use Rattle.std.specs.Prelude.{◌≡◌, true, is_some, Some, None, [], ◌∷◌};
ghost use Rattle.bx_asm.specs.Numbered.{item_of};
ghost use Rattle.std.specs.FinMap as finite;
ghost use Rattle.bx_load.specs.Image.{after};
ghost use Rattle.bx_load.specs.Numbering.{numbered_at};
ghost use Rattle.bx_ops.specs.declared.sorts.Slot.TheVariants.{One};
ghost use Rattle.bx_ops.specs.declared.sorts.Sort.TheVariants.{Arity, Callee};
ghost use Rattle.bx_asm.specs.Meaning.{taken};
ghost use Rattle.bx_proc.specs.declared.parts.Answer.TheVariants as answers;
ghost use Rattle.bx_proc.specs.Asking.{finished_with};
ghost use Rattle.bx_proc.specs.Calls.{leads_to, GoesOn};
ghost use Rattle.bx_proc.specs.Runs.{Runs};
ghost use Rattle.bx_proc.specs.Stepping.{asked_at, called_by, called_in, given_to, settling, settled, settled_with, SettlingTakes, SettlingWithTakes, NotingTakes, GivenTakes, noting, unasked, rested, asking_still, resumed, ResumedTakes};
ghost use Rattle.bx_proc.specs.Telling.{Resumes, Settles};

use crate::operands::import_of;
use crate::parts::{Answer, Status};
use crate::process::Proc;
use crate::stops::Stop;
use bx_asm::{CallKind, Numbered};
use bx_bifs::Native;
use bx_load::Image;
use bx_ops::Op;
use bx_terms::{Place, Term, Trap, fixed};
use std::alloc::Global;

impl Proc {
    /// Answers what the process asked for, at the `send` or the call by name that stands there. `WrongShape` where it asked
    /// for nothing.
    ///
    /// Where it does not go on, nothing has changed, but that the reason of an end waits until it is taken; and what the
    /// process asked for still waits.
    #[tactic(auto, using(crate::proofs::Resuming::resumed_told))]
    pub fn resume(&mut self, alloc: Global, image: &Image, answer: &Answer) -> Result<(), Stop>
        ensures { Resumes
            (ResumedTakes (SettlingTakes image.now answer.now (unasked self.old)) self.old.asked)
            self.old self.new result
            (resumed image.now answer.now self.old.asked (unasked self.old)) }
    {
        let Some(native) = self.asked else {
            return Err(Stop::trapped(Trap::WrongShape));
        };
        self.withdraw();
        let ran = self.settle(alloc, image, answer);
        self.ask_still(native, &ran);
        ran
    }

    /// Asks for nothing any more.
    #[inline]
    pub fn withdraw(&mut self)
        ensures { self.new ≡ unasked self.old }
    {
        self.asked = None;
    }

    /// A process that was answered and does not go on asks as before.
    fn ask_still(&mut self, native: Native, ran: &Result<(), Stop>)
        ensures { self.new ≡ asking_still native self.old ran.now }
    {
        if ran.is_err() {
            self.asked = Some(native);
        }
    }

    /// Ends what the process asked for or sent, at the `send` or the call by name that stands there, where it asks for
    /// nothing any more.
    ///
    /// Where it does not go on, nothing has changed, but that the reason of an end waits until it is taken.
    #[tactic(auto, using(crate::proofs::Resuming::settled_told))]
    pub fn settle(&mut self, alloc: Global, image: &Image, answer: &Answer) -> Result<(), Stop>
        ensures { Settles (SettlingTakes image.now answer.now self.old) self.old self.new result
            (settled image.now answer.now self.old) }
    {
        let ran = self.settle_call(alloc, image, answer);
        self.rest(&ran);
        ran
    }

    /// Ends what the process asked for or sent, with a message to itself: where the answer is a value with which it goes on, the message joins
    /// its mailbox, and else there is none.
    #[tactic(auto, unfolding(crate::specs::Stepping::settled_with))]
    pub fn settle_with(
        &mut self,
        alloc: Global,
        image: &Image,
        answer: &Answer,
        message: Term,
    ) -> Result<(), Stop>
        ensures { Settles (SettlingWithTakes image.now answer.now self.old) self.old self.new result
            (settled_with image.now answer.now message self.old) }
    {
        match answer {
            Answer::Value(value) => self.settle_noting(alloc, image, value, message),
            Answer::Fault(_, _) => self.settle(alloc, image, answer),
        }
    }

    /// Ends what the process asked for with a value and a message to itself.
    #[tactic(auto, using(crate::proofs::Resuming::noted_told))]
    fn settle_noting(
        &mut self,
        alloc: Global,
        image: &Image,
        value: &Term,
        message: Term,
    ) -> Result<(), Stop>
        ensures { Settles (NotingTakes image.now self.old) self.old self.new result
            (settled_with image.now (answers.Value value.now) message self.old) }
    {
        let ran = self.note(alloc, image, value, message);
        self.rest(&ran);
        ran
    }

    /// A process that was answered and goes on is ready.
    fn rest(&mut self, ran: &Result<(), Stop>)
        ensures { self.new ≡ rested self.old ran.now }
    {
        if ran.is_err() {
            return;
        }
        self.status = Status::Ready;
        self.expires = None;
        self.asked = None;
    }

    /// Ends the `send` or the call by name that stands there.
    fn settle_call(&mut self, alloc: Global, image: &Image, answer: &Answer) -> Result<(), Stop>
        ensures { Runs (SettlingTakes image.now answer.now self.old) self.old self.new result
            (settling image.now answer.now self.old) }
    {
        let (here, kind) = self.asked_at(image)?;
        if self.fault.is_some() {
            return Err(Stop::trapped(Trap::NoTag));
        }
        self.give(alloc, image, here, kind, answer)
    }

    /// The `send` or the call by name at which the process stands, and how it calls.
    #[tactic(auto, unfolding(crate::specs::Stepping::asked_at))]
    fn asked_at(&self, image: &Image) -> Result<(Place, CallKind), Trap>
        ensures { result ≡ asked_at image.now self.now.place }
    {
        let Some(here) = self.place else {
            return Err(Trap::BadPlace);
        };
        Ok((here, called_there(image, here)?))
    }

    /// The answer's value goes into x0, which holds the first argument, and its fault is raised.
    #[tactic(auto, using(crate::proofs::Resuming::given_value))]
    fn give(
        &mut self,
        alloc: Global,
        image: &Image,
        here: Place,
        kind: CallKind,
        answer: &Answer,
    ) -> Result<(), Stop>
        ensures { Runs (GivenTakes (after image.now here) kind answer.now self.old) self.old self.new result
            (given_to (after image.now here) kind answer.now self.old) }
    {
        match answer {
            Answer::Value(value) => {
                let Some(_) = self.x.get(0) else {
                    return Err(Stop::trapped(Trap::Unset));
                };
                let Some(_) = self.leads_to(image, here, kind)? else {
                    return self.end(Term::atom(fixed::NORMAL));
                };
                let value = value.copy(alloc)?;
                self.finish_with(image, here, kind, value)
            }
            Answer::Fault(class, value) => {
                self.may_raise(kind, *class, value)?;
                let value = value.copy(alloc)?;
                self.raise_by(alloc, kind, *class, value)
            }
        }
    }

    /// The answer's value goes into x0, and a message to the process itself into its mailbox.
    fn note(
        &mut self,
        alloc: Global,
        image: &Image,
        value: &Term,
        message: Term,
    ) -> Result<(), Stop>
        ensures { Runs (NotingTakes image.now self.old) self.old self.new result
            (noting message (settling image.now (answers.Value value.now) self.old)) }
    {
        let (here, kind) = self.asked_at(image)?;
        if self.fault.is_some() {
            return Err(Stop::trapped(Trap::NoTag));
        }
        let Some(_) = self.x.get(0) else {
            return Err(Stop::trapped(Trap::Unset));
        };
        let Some(_) = self.leads_to(image, here, kind)? else {
            return self.end(Term::atom(fixed::NORMAL));
        };
        self.go_on_with(image, here, kind, value.copy(alloc)?, message)
    }

    /// Where the process goes on behind a native that is answered; nowhere, where it ends.
    fn leads_to(&self, image: &Image, here: Place, kind: CallKind) -> Result<Option<Place>, Trap>
        ensures { result ≡ leads_to kind (after image.now here) self.now }
    {
        match kind {
            CallKind::Plain => Ok(Some(image.after(here))),
            CallKind::Only => Ok(self.cp),
            CallKind::Last(size) => self.saved(size as u64),
        }
    }

    /// The message joins the mailbox, and the process goes on with the value. What may run out of memory comes first.
    #[tactic(auto, using(crate::proofs::Noting::noted_on))]
    fn go_on_with(
        &mut self,
        image: &Image,
        here: Place,
        kind: CallKind,
        value: Term,
        message: Term,
    ) -> Result<(), Stop>
        requires held { is_some (finite.get self.old.x 0) ≡ true }
        requires goes_on { GoesOn kind (after image.now here) self.old }
        ensures { Runs (Unit {0}) self.old self.new result
            (noting message (finished_with (after image.now here) kind value self.old)) }
    {
        if let Err(_) = self.mailbox.add(message) {
            return Err(Stop::memory());
        }
        self.finish_with(image, here, kind, value)
    }
}

/// In which way the instruction at an address calls that may have asked others.
fn called_there(image: &Image, here: Place) -> Result<CallKind, Trap>
    ensures { result ≡ called_in (numbered_at image.now here) }
{
    let Some(item) = image.item(here) else {
        return Err(Trap::BadPlace);
    };
    called_as(item)
}

/// In which way an item calls that may have asked others.
#[tactic(auto, unfolding(bx_asm::specs::Meaning::taken))]
fn called_as(item: Numbered<'_>) -> Result<CallKind, Trap>
    ensures { result ≡ called_in (Some (item_of item.entry)) }
{
    match item.op() {
        Op::Send => Ok(CallKind::Plain),
        Op::CallExt => called_plainly(CallKind::Plain, item),
        Op::CallExtOnly => called_plainly(CallKind::Only, item),
        Op::CallExtLast => {
            let [_, callee, size, ..] = item.operands else {
                return Err(Trap::BadPlace);
            };
            import_of(item.tables, *callee)?;
            Ok(CallKind::Last(item.tables.number(*size)))
        }
        _ => Err(Trap::BadPlace),
    }
}

/// In that way, where a callee stands there.
#[tactic(auto, unfolding(bx_asm::specs::Meaning::taken))]
fn called_plainly(kind: CallKind, item: Numbered<'_>) -> Result<CallKind, Trap>
    ensures { result ≡ called_by (taken None (One Arity ∷ One Callee ∷ [])
        (item_of item.entry).operands (λ arity import. Some kind)) }
{
    let [_, callee, ..] = item.operands else {
        return Err(Trap::BadPlace);
    };
    import_of(item.tables, *callee)?;
    Ok(kind)
}
