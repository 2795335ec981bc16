//! The lists in instructions, which are borrowed and read one by one.

ghost use Rattle.std.specs.Prelude.{◌≡◌, option_map, slice_get, length};
ghost use Rattle.bx_asm.specs.Members.{source_in, y_of, key_of, label_in, label_for, is_some_key};
ghost use Rattle.bx_asm.specs.Instructed.{source_of, sources_of, registers_of, pairs_of};

use crate::instruction::{Key, Register, Source};
use crate::operands::Operand;
use bx_terms::Term;

/// A list of sources, as that of `put_tuple2`.
#[derive(Clone, Copy, Debug)]
pub struct Sources<'a> {
    pub(crate) operands: &'a [Operand],
    pub(crate) literals: &'a [Term],
}

/// A list of y registers, as that of `init_yregs`.
#[derive(Clone, Copy, Debug)]
pub struct YRegisters<'a> {
    pub(crate) operands: &'a [Operand],
}

/// What a select compares with, each with the label that it leads to.
#[derive(Clone, Copy, Debug)]
pub struct Pairs<'a> {
    pub(crate) operands: &'a [Operand],
}

/// What an operand is read from; what is no source, or no literal of the table, is nil.
#[inline(always)]
pub(crate) fn source<'a>(literals: &'a [Term], operand: Operand) -> Source<'a>
    ensures { source_of result ≡ source_in literals.now operand }
{
    match operand {
        Operand::X(number) => Source::Register(Register::X(number)),
        Operand::Y(number) => Source::Register(Register::Y(number)),
        Operand::Integer(value) => Source::Integer(value),
        Operand::Atom(atom) => Source::Atom(atom),
        Operand::Literal(number) => literal(literals, number),
        _ => Source::Nil,
    }
}

#[inline(always)]
fn literal<'a>(literals: &'a [Term], number: usize) -> Source<'a>
    ensures { source_of result ≡ source_in literals.now (Operand.Literal number) }
{
    if number < literals.len() {
        Source::Literal(&literals[number])
    } else {
        Source::Nil
    }
}

/// The y register that an operand is.
#[inline(always)]
pub(crate) fn y_register(operand: Operand) -> u16
    ensures { result ≡ y_of operand }
{
    match operand {
        Operand::Y(number) => number,
        _ => 0,
    }
}

impl<'a> Sources<'a> {
    /// How many sources there are.
    pub fn len(self) -> usize
        ensures { result ≡ length (sources_of self.entry) }
    {
        self.operands.len()
    }

    /// The source of this number, from 0; `None` past the last.
    #[inline(always)]
    pub fn get(self, number: usize) -> Option<Source<'a>>
        ensures { option_map source_of result ≡ slice_get (sources_of self.entry) number }
    {
        if number >= self.operands.len() {
            return None;
        }
        Some(source(self.literals, self.operands[number]))
    }
}

impl<'a> YRegisters<'a> {
    /// How many registers there are.
    pub fn len(self) -> usize
        ensures { result ≡ length (registers_of self.entry) }
    {
        self.operands.len()
    }

    /// The number of the register at this place of the list, from 0; `None` past the last.
    #[inline(always)]
    pub fn get(self, number: usize) -> Option<u16>
        ensures { result ≡ slice_get (registers_of self.entry) number }
    {
        if number >= self.operands.len() {
            return None;
        }
        Some(y_register(self.operands[number]))
    }
}

fn label(operand: Operand) -> u32
    ensures { result ≡ label_in operand }
{
    match operand {
        Operand::Label(label) => label,
        _ => 0,
    }
}

impl<'a> Pairs<'a> {
    /// The label of the first pair with this key; `None` where there is no such pair.
    pub fn label(self, key: Key) -> Option<u32>
        ensures { result ≡ label_for key (pairs_of self.entry) }
    {
        let mut rest = self.operands;
        while let [value, target, behind @ ..] = rest {
            if leads(*value, key) {
                return Some(label(*target));
            }
            rest = behind;
        }
        None
    }
}

/// Whether an operand is that key.
fn leads(operand: Operand, wanted: Key) -> bool
    ensures { result ≡ is_some_key (key_of operand) wanted }
{
    match (operand, wanted) {
        (Operand::Atom(atom), Key::Atom(wanted)) => atom == wanted,
        (Operand::Integer(value), Key::Integer(wanted)) => value == wanted,
        (Operand::Number(size), Key::Size(wanted)) => size == wanted,
        _ => false,
    }
}
