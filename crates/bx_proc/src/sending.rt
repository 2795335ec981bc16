//! A `send` that is looked at where it stands, and done once its message is on its way.

ghost use Rattle.std.specs.Prelude.{◌≡◌, ℕ, MatchOption, Ok};
ghost use Rattle.bx_terms.specs.Tree.{pid};
ghost use Rattle.bx_asm.specs.declared.instruction.Register.TheVariants.{X};
ghost use Rattle.bx_proc.specs.declared.parts.Answer.TheVariants as answers;
ghost use Rattle.bx_proc.specs.declared.parts.Effect.TheVariants as effects;
ghost use Rattle.bx_proc.specs.Stepping.{settled};
ghost use Rattle.bx_proc.specs.Reading.{term_in};
ghost use Rattle.bx_proc.specs.Sending.{Addresses, AddressesNone, StandsSending};

use crate::parts::Status;
use crate::process::Proc;
use bx_asm::Register;
use bx_cells::Value;
use bx_load::Image;
use bx_terms::{Term, View};

/// A message that a process is about to send.
#[derive(Clone, Copy, Debug)]
pub struct Sending<'a> {
    /// The pid of the receiver.
    pub to: u32,
    pub message: &'a Term,
}

impl Proc {
    /// What the process sends where it stands at a `send`: the term in x1 to the pid in x0. `None` exactly where one of them
    /// is not there.
    #[inline(always)]
    #[tactic(auto, using(crate::proofs::Unsent::no_receiver, crate::proofs::Unsent::no_message))]
    pub fn sending(&self) -> Option<Sending<'_>>
        ensures { MatchOption result (AddressesNone self.now)
            (λ s. Addresses s.to s.message.now self.now) }
    {
        let to = self.pid_held()?;
        match self.term(Register::X(1)) {
            Ok(message) => Some(Sending { to, message }),
            Err(_) => None,
        }
    }

    /// The pid in x0, where it holds one.
    #[inline(always)]
    fn pid_held(&self) -> Option<u32>
        ensures { MatchOption result ((to : ℕ) → term_in (X 0) self.now ≡ Ok (pid to) → ⊥)
            (λ to. term_in (X 0) self.now ≡ Ok (pid to)) }
    {
        match self.term(Register::X(0)) {
            Ok(term) => pid_of(term),
            Err(_) => None,
        }
    }

    /// Goes on behind the `send` at which the process stands, with the message in x0.
    #[inline(always)]
    #[tactic(auto, using(crate::proofs::Unsent::settled_sent))]
    pub fn sent(&mut self, image: &Image, message: Term)
        requires { StandsSending image.now self.old }
        ensures { settled image.now (answers.Value message) self.old ≡ (self.new, effects.Ran) }
    {
        let Some(here) = self.place else {
            return; // not reached: it stands at a `send`
        };
        if let Err(_value) = self.x.set(0, Value::Term(message)) {
            return; // not reached: x0 holds something
        }
        self.place = Some(image.after(here));
        self.status = Status::Ready;
        self.expires = None;
        self.asked = None;
    }
}

#[inline(always)]
fn pid_of(term: &Term) -> Option<u32>
    ensures { MatchOption result ((n : ℕ) → term.now ≡ pid n → ⊥) (λ n. term.now ≡ pid n) }
{
    match term.view() {
        View::Pid(number) => Some(number),
        _ => None,
    }
}
