//! An item of a unit, seen where it lies: its opcode and operands, and what they spell.

ghost use Rattle.std.specs.Prelude.{◌≡◌, ◌↔◌, ◌==◌, IsTrue, option_map, slice_get, length};
ghost use Rattle.bx_asm.specs.Looked.{tables};
ghost use Rattle.bx_asm.specs.Marks.{is_mark, label_of, label_in_row};
ghost use Rattle.bx_asm.specs.Numbered.{item_of, spelt_of};
ghost use Rattle.bx_asm.specs.Operands.{operand_of};

use crate::lookup::Lookup;
use crate::operands::Operand;
use bx_listing::{Amount, Import};
use bx_ops::{Bif, Op};
use bx_terms::{AtomId, Term};

/// An item of a unit: its opcode, its operands, and the tables that these name.
#[derive(Clone, Copy)]
pub struct Numbered<'a> {
    pub op: Op,
    pub operands: &'a [Operand],
    pub tables: Lookup<'a>,
}

/// An operand as it is spelled; a literal is borrowed.
#[derive(Clone, Copy, Debug)]
pub enum Spelt<'a> {
    X(u16),
    Y(u16),
    Integer(i64),
    Atom(AtomId),
    Nil,
    Literal(&'a Term),
    Label(u32),
    NoLabel,
    Place(u32),
    Number(u32),
    Arity(u32),
    Import(Import),
    Bif(Bif),
    Amount(Amount),
    List(usize),
}

impl<'a> Spelt<'a> {
    /// Whether both are the same, written in the same way.
    fn same(self, other: Spelt<'_>) -> bool
        ensures { IsTrue result ↔ (spelt_of self.entry ≡ spelt_of other.entry) }
    {
        match (self, other) {
            (Spelt::X(number), Spelt::X(other)) => number == other,
            (Spelt::Y(number), Spelt::Y(other)) => number == other,
            (Spelt::Integer(value), Spelt::Integer(other)) => value == other,
            (Spelt::Atom(atom), Spelt::Atom(other)) => atom == other,
            (Spelt::Nil, Spelt::Nil) => true,
            (Spelt::Literal(term), Spelt::Literal(other)) => term.same(other),
            (Spelt::Label(label), Spelt::Label(other)) => label == other,
            (Spelt::NoLabel, Spelt::NoLabel) => true,
            (Spelt::Place(label), Spelt::Place(other)) => label == other,
            (Spelt::Number(number), Spelt::Number(other)) => number == other,
            (Spelt::Arity(number), Spelt::Arity(other)) => number == other,
            (Spelt::Import(import), Spelt::Import(other)) => import == other,
            (Spelt::Bif(bif), Spelt::Bif(other)) => bif == other,
            (Spelt::Amount(amount), Spelt::Amount(other)) => amount == other,
            (Spelt::List(count), Spelt::List(other)) => count == other,
            _ => false,
        }
    }
}

impl<'a> Lookup<'a> {
    /// What an operand spells; what is in no table is nil.
    fn spelt(self, operand: Operand) -> Spelt<'a>
        ensures { spelt_of result ≡ operand_of (tables self.entry) operand }
    {
        match operand {
            Operand::X(number) => Spelt::X(number),
            Operand::Y(number) => Spelt::Y(number),
            Operand::Integer(value) => Spelt::Integer(value),
            Operand::Atom(atom) => Spelt::Atom(atom),
            Operand::Nil => Spelt::Nil,
            Operand::Literal(number) => self.literal(number),
            Operand::Label(label) => Spelt::Label(label),
            Operand::NoLabel => Spelt::NoLabel,
            Operand::Place(label) => Spelt::Place(label),
            Operand::Number(number) => Spelt::Number(number),
            Operand::Arity(number) => Spelt::Arity(number),
            Operand::Import(number) => self.callee(number),
            Operand::Bif(bif) => Spelt::Bif(bif),
            Operand::Amount(amount) => Spelt::Amount(amount),
            Operand::List(count) => Spelt::List(count),
        }
    }

    #[tactic(auto, using(crate::proofs::Readers::literal_within, crate::proofs::Readers::literal_past))]
    fn literal(self, number: usize) -> Spelt<'a>
        ensures { spelt_of result ≡ operand_of (tables self.entry) (Operand.Literal number) }
    {
        let literals = self.named.literals.as_slice();
        if number < literals.len() {
            Spelt::Literal(&literals[number])
        } else {
            Spelt::Nil
        }
    }

    #[tactic(auto, using(crate::proofs::Readers::callee_is))]
    fn callee(self, number: usize) -> Spelt<'a>
        ensures { spelt_of result ≡ operand_of (tables self.entry) (Operand.Import number) }
    {
        match self.named.imports.get_index(number) {
            Some(import) => Spelt::Import(*import),
            None => Spelt::Nil,
        }
    }
}

impl<'a> Numbered<'a> {
    /// The opcode.
    #[inline(always)]
    pub fn op(self) -> Op
        ensures { result ≡ (item_of self.entry).op }
    {
        self.op
    }

    /// Whether the item is a mark: a label or a line, and no instruction.
    #[inline(always)]
    pub fn is_mark(self) -> bool
        ensures { result ≡ is_mark (item_of self.entry) }
    {
        matches!(self.op, Op::Label | Op::Line)
    }

    /// The label that the item is.
    pub fn label(self) -> Option<u32>
        ensures { result ≡ label_of (item_of self.entry) }
    {
        match self.op {
            Op::Label => self.first_place(),
            _ => None,
        }
    }

    fn first_place(self) -> Option<u32>
        ensures { result ≡ label_in_row (item_of self.entry).operands }
    {
        match self.operands {
            [place, ..] => self.tables.place(*place),
            _ => None,
        }
    }

    /// How many operands the item has.
    pub fn len(self) -> usize
        ensures { result ≡ length (item_of self.entry).operands }
    {
        self.operands.len()
    }

    /// The operand of this number, from 0; `None` past the last.
    pub fn operand(self, number: usize) -> Option<Spelt<'a>>
        ensures { option_map spelt_of result ≡ slice_get (item_of self.entry).operands number }
    {
        if number >= self.operands.len() {
            return None;
        }
        Some(self.tables.spelt(self.operands[number]))
    }

    /// Whether both spell the same item.
    #[tactic(auto, using(bx_ops::proofs::Equality::op_same))]
    pub fn same(self, other: Numbered<'_>) -> bool
        ensures { IsTrue result ↔ (item_of self.entry ≡ item_of other.entry) }
    {
        self.op == other.op && same_operands(self, other)
    }
}

/// Whether the operands of one number are the same, or neither item has one.
fn same_at(one: Numbered<'_>, other: Numbered<'_>, number: usize) -> bool
    ensures { IsTrue result ↔ (slice_get (item_of one.entry).operands number ≡ slice_get
        (item_of other.entry).operands number) }
{
    match (one.operand(number), other.operand(number)) {
        (Some(operand), Some(other)) => operand.same(other),
        (None, None) => true,
        _ => false,
    }
}

#[tactic(auto, using(crate::proofs::SameCode::same_so_far, bx_share::specs::Rows::same_whole))]
fn same_operands(one: Numbered<'_>, other: Numbered<'_>) -> bool
    ensures { IsTrue result ↔ ((item_of one.entry).operands ≡ (item_of other.entry).operands) }
{
    if one.len() != other.len() {
        return false;
    }
    for number in 0..one.len() {
        if !same_at(one, other, number) {
            return false;
        }
    }
    true
}
