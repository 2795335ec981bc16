//! What a process waits for, and what a run of it may end in.

ghost use Rattle.std.specs.Prelude.{◌≡◌, ◌↔◌, IfOk, OnErr, IsTrue};
ghost use Rattle.bx_proc.specs.Rules.{Shares, SharesReason};

use bx_bifs::Native;
use bx_share::{Same, same_rows};
use bx_terms::{Class, Term, Trap};
use std::alloc::{AllocError, Global};
use std::marker::Model;

/// A fault that was caught, until the instruction at the address where it is caught looks at it.
///
/// Source: The BEAM Book, "Exceptions".
#[derive(Debug, Drop)]
pub struct Pending {
    pub class: Class,
    pub value: Term,
}

impl Pending {
    /// The same fault. Terms are shared. Memory is taken only where the value is a tuple or a list
    /// cell.
    pub fn copy(&self, alloc: Global) -> Result<Pending, AllocError>
        ensures copied { IfOk result (λ f. f ≡ self.now) }
        ensures memory { OnErr result (Shares self.now.value) }
    {
        let value = self.value.copy(alloc)?;
        Ok(Pending {
            class: self.class,
            value,
        })
    }

    /// A deep copy. It takes the room that its value takes.
    pub(crate) fn deep_copy(&self, alloc: Global, room: &mut usize) -> Result<Pending, AllocError>
        ensures { IfOk result (λ f. f ≡ self.now) }
    {
        let value = self.value.deep_copy(alloc, room)?;
        Ok(Pending {
            class: self.class,
            value,
        })
    }

    /// Whether both have the same class and the same value.
    pub fn same(&self, other: &Pending) -> bool
        ensures { IsTrue result ↔ (self.now ≡ other.now) }
    {
        self.class == other.class && self.value.same(&other.value)
    }
}

/// Whether a process may run.
///
/// Source: Erlang Reference Manual, "Processes".
#[derive(Debug, Drop)]
pub enum Status {
    Ready,
    /// In a receive, until a message is there that it did not pass over.
    Waiting,
    /// For good, with the reason.
    Ended(Term),
}

impl Status {
    /// The same status. Terms are shared. Memory is taken only where the reason is a tuple or a list
    /// cell.
    pub fn copy(&self, alloc: Global) -> Result<Status, AllocError>
        ensures copied { IfOk result (λ s. s ≡ self.now) }
        ensures memory { OnErr result (SharesReason self.now) }
    {
        Ok(match self {
            Status::Ready => Status::Ready,
            Status::Waiting => Status::Waiting,
            Status::Ended(reason) => Status::Ended(reason.copy(alloc)?),
        })
    }

    /// A deep copy. It takes the room that its reason takes.
    pub(crate) fn deep_copy(&self, alloc: Global, room: &mut usize) -> Result<Status, AllocError>
        ensures { IfOk result (λ s. s ≡ self.now) }
    {
        Ok(match self {
            Status::Ready => Status::Ready,
            Status::Waiting => Status::Waiting,
            Status::Ended(reason) => Status::Ended(reason.deep_copy(alloc, room)?),
        })
    }

    /// Whether both are the same, with the same reason.
    pub fn same(&self, other: &Status) -> bool
        ensures { IsTrue result ↔ (self.now ≡ other.now) }
    {
        match (self, other) {
            (Status::Ready, Status::Ready) => true,
            (Status::Waiting, Status::Waiting) => true,
            (Status::Ended(reason), Status::Ended(other)) => reason.same(other),
            _ => false,
        }
    }
}

/// The arguments of a native that a process asked for, seen as the list of them.
#[derive(Debug, Drop)]
pub struct Arguments {
    terms: Vec<Term>,
}

impl Model for Arguments {
    ghost use Rattle.std.specs.Prelude.{List};
    ghost use Rattle.std.specs.Coded.{coded_list};
    ghost use Rattle.bx_terms.specs.Tree.{Tree};
    ghost use Rattle.bx_terms.specs.TreeCode.{tree_code};

    ghost Value = { List Tree };

    ghost coded = { coded_list tree_code };

    ghost view = { λ a. a.terms.items };
}

impl Arguments {
    pub fn of(terms: Vec<Term>) -> Arguments
        ensures { result ≡ terms.items }
    {
        Arguments { terms }
    }

    /// The arguments, the first of them in front.
    pub fn as_slice(&self) -> &[Term]
        ensures { result.now ≡ self.now }
    {
        self.terms.as_slice()
    }
}

impl Same for Arguments {
    fn same(&self, other: &Arguments) -> bool {
        same_rows(&self.terms, &other.terms)
    }
}

/// What a run of one instruction was.
#[derive(Debug, Drop)]
pub enum Effect {
    /// It ran, and nobody else has a part in it.
    Ran,
    /// The process asks others for a native, with these arguments, and is to be answered.
    Ask(Native, Arguments),
    /// A message goes to the process with this pid.
    Send(u32, Term),
    /// The process ended, with this reason.
    Ended(Term),
    /// It could not run: nothing has changed.
    Trap(Trap),
}

impl Effect {
    /// Whether both are the same, with the same terms.
    pub fn same(&self, other: &Effect) -> bool
        ensures { IsTrue result ↔ (self.now ≡ other.now) }
    {
        match (self, other) {
            (Effect::Ran, Effect::Ran) => true,
            (Effect::Ask(native, terms), Effect::Ask(other, others)) => {
                *native == *other && terms.same(others)
            }
            (Effect::Send(to, message), Effect::Send(other, told)) => {
                *to == *other && message.same(told)
            }
            (Effect::Ended(reason), Effect::Ended(other)) => reason.same(other),
            (Effect::Trap(kind), Effect::Trap(other)) => *kind == *other,
            _ => false,
        }
    }
}

/// What a process is answered that asked for a native.
#[derive(Debug, Drop)]
pub enum Answer {
    Value(Term),
    /// A fault's class and value, which the process raises.
    Fault(Class, Term),
}
