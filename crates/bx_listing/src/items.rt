//! Instructions and marks as a listing writes them: an opcode with a row of operands.
//!
//! Every number is kept as it was read, from 0 to 4294967295; which of them are in range is asked when code is assembled.

ghost use Rattle.std.specs.Prelude.{◌≡◌, ◌↔◌, IsTrue, MatchResult};
ghost use Rattle.bx_listing.specs.Items.{seen_item};
ghost use Rattle.bx_listing.specs.Taking.{SharesTerm};

use bx_ops::{Bif, Op};
use bx_share::{Same, same_rows};
use bx_terms::{AtomId, Term};
use std::alloc::{AllocError, Global};

/// A function that is called by its name, in whichever module it stands.
#[derive(Clone, Copy, Debug, PartialEq, Eq, Hash)]
pub struct Import {
    pub module: AtomId,
    pub function: AtomId,
    pub arity: u32,
}

/// How much of a kind of heap an instruction asks for.
#[derive(Clone, Copy, Debug, PartialEq, Eq)]
pub struct Amount {
    pub kind: AtomId,
    pub count: u32,
}

/// An operand. What stands in a list follows the list's length.
///
/// Source: `genop.tab` of Erlang/OTP, and The BEAM Book, "The Registers".
#[derive(Debug, Drop)]
pub enum Operand {
    /// A register of the process.
    X(u32),
    /// A register of the top stack frame.
    Y(u32),
    Integer(i64),
    Atom(AtomId),
    Nil,
    /// A literal that is an integer, an atom or the empty list stays a literal, as it was written.
    Literal(Term),
    /// A label to go to.
    Label(u32),
    /// `{f,0}` where no label has to be.
    NoLabel,
    /// The number of a label item.
    Place(u32),
    /// A plain number.
    Number(u32),
    /// A number of arguments.
    Arity(u32),
    Import(Import),
    Bif(Bif),
    /// A member of `{alloc,[{KIND,N},..]}`.
    Amount(Amount),
    /// The operands that follow are the members of a list of so many.
    List(usize),
}

impl Same for Operand {
    /// Whether both are the same, written in the same way.
    fn same(&self, other: &Operand) -> bool {
        match (self, other) {
            (Operand::X(number), Operand::X(other)) => number == other,
            (Operand::Y(number), Operand::Y(other)) => number == other,
            (Operand::Integer(value), Operand::Integer(other)) => value == other,
            (Operand::Atom(atom), Operand::Atom(other)) => atom == other,
            (Operand::Nil, Operand::Nil) => true,
            (Operand::Literal(term), Operand::Literal(other)) => term.same(other),
            (Operand::Label(label), Operand::Label(other)) => label == other,
            (Operand::NoLabel, Operand::NoLabel) => true,
            (Operand::Place(label), Operand::Place(other)) => label == other,
            (Operand::Number(number), Operand::Number(other)) => number == other,
            (Operand::Arity(number), Operand::Arity(other)) => number == other,
            (Operand::Import(import), Operand::Import(other)) => import == other,
            (Operand::Bif(bif), Operand::Bif(other)) => bif == other,
            (Operand::Amount(amount), Operand::Amount(other)) => amount == other,
            (Operand::List(count), Operand::List(other)) => count == other,
            _ => false,
        }
    }
}

impl Operand {
    /// The same operand once more; a literal's term is shared. Memory may run out only where that is a tuple or a list cell.
    pub fn copy(&self, alloc: Global) -> Result<Operand, AllocError>
        ensures { MatchResult result (λ operand. operand ≡ self.now) (λ _. SharesTerm self.now) }
    {
        Ok(match self {
            Operand::X(number) => Operand::X(*number),
            Operand::Y(number) => Operand::Y(*number),
            Operand::Integer(value) => Operand::Integer(*value),
            Operand::Atom(atom) => Operand::Atom(*atom),
            Operand::Nil => Operand::Nil,
            Operand::Literal(term) => Operand::Literal(term.copy(alloc)?),
            Operand::Label(label) => Operand::Label(*label),
            Operand::NoLabel => Operand::NoLabel,
            Operand::Place(label) => Operand::Place(*label),
            Operand::Number(number) => Operand::Number(*number),
            Operand::Arity(number) => Operand::Arity(*number),
            Operand::Import(import) => Operand::Import(*import),
            Operand::Bif(bif) => Operand::Bif(*bif),
            Operand::Amount(amount) => Operand::Amount(*amount),
            Operand::List(count) => Operand::List(*count),
        })
    }
}

/// An instruction, a label or a line mark: an opcode, and the operands that its row of the table has, in order.
///
/// Source: `genop.tab` of Erlang/OTP.
#[derive(Clone, Copy)]
pub struct Item<'a> {
    pub op: Op,
    pub operands: &'a [Operand],
}

impl<'a> Item<'a> {
    /// Whether both have the same opcode and the same operands.
    #[tactic(auto, using(bx_ops::proofs::Equality::op_same))]
    pub fn same(self, other: Item<'_>) -> bool
        ensures { IsTrue result ↔ (seen_item self.entry ≡ seen_item other.entry) }
    {
        self.op == other.op && same_rows(self.operands, other.operands)
    }
}
