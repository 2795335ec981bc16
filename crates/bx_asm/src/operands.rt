//! Operands of numbered instructions.

ghost use Rattle.std.specs.Prelude.{◌≡◌};

use bx_listing::Amount;
use bx_ops::{Bif, Op};
use bx_terms::AtomId;
use smallvec::SmallVec;

/// An operand: what stands in an instruction itself, or a number in a table of its unit.
#[derive(Clone, Copy, Debug)]
pub enum Operand {
    X(u16),
    Y(u16),
    Integer(i64),
    Atom(AtomId),
    Nil,
    /// A literal, by its number in the unit's table.
    Literal(usize),
    /// A label to go to.
    Label(u32),
    /// That there is no label to go to.
    NoLabel,
    /// The number of a label that stands here.
    Place(u32),
    /// A plain number.
    Number(u32),
    /// A number of arguments.
    Arity(u32),
    /// A function of any module, by its number in the unit's table of imports.
    Import(usize),
    Bif(Bif),
    /// How much of a kind of heap is asked for.
    Amount(Amount),
    /// The operands that follow are the members of a list of so many.
    List(usize),
}

impl Default for Operand {
    /// What stands where there is none: nil.
    fn default() -> Operand
        ensures { result ≡ Operand.Nil }
    {
        Operand::Nil
    }
}

/// An item as it is stored: its opcode, which stands for one number, and its operands, of which up to three lie in the
/// item itself.
#[derive(Debug, Drop)]
pub struct NumberedItem {
    pub op: Op,
    pub operands: SmallVec<Operand, 3>,
}
