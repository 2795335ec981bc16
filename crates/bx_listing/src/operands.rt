//! The operands of instructions, by their sorts.

ghost use Rattle.std.specs.Prelude.{◌≡◌, option_map};
ghost use Rattle.bx_listing.specs.Operands.{untyped, register, only_y, label, atom_word, atom_operand, integer_source, atom_source, literal_source, source, value, external, callee, amount, fail_label, bif_named, plain, simple};
ghost use Rattle.bx_listing.specs.Shape.{word};
ghost use Rattle.bx_listing.specs.Reading.{Table, Answers};

use crate::form_reader::{FormReader, bad_operand, literal_range};
use crate::items::{Amount, Import, Operand};
use crate::shapes::{Shape, number, shape_of, word};
use crate::words::{OperandWord, operand_word};
use bx_ops::{Sort, bif_by_name};
use bx_terms::{AtomId, Atoms, Fault};
use bx_text::{Node, View};

impl FormReader {
    /// An atom that stands alone.
    fn atom_word(self, atoms: &mut Atoms, node: &Node) -> Result<AtomId, Fault>
        ensures { Answers (λ atom. atom) atoms.old atoms.new result (atom_word node.now) }
    {
        match word(node) {
            Some(text) => self.name_atom(atoms, text),
            None => Err(bad_operand()),
        }
    }

    /// The atom of `{atom,A}`.
    fn atom_operand(self, atoms: &mut Atoms, node: &Node) -> Result<Operand, Fault>
        ensures { Answers (λ atom. atom) atoms.old atoms.new result
            (atom_operand node.now) }
    {
        let Shape::Tagged(word, [operand]) = shape_of(node) else {
            return Err(bad_operand());
        };
        match operand_word(word) {
            OperandWord::Atom => self.atom_source(atoms, operand),
            _ => Err(bad_operand()),
        }
    }

    /// A register, or a value that stands in the instruction.
    fn source(self, atoms: &mut Atoms, node: &Node) -> Result<Operand, Fault>
        ensures { Answers (λ source. source) atoms.old atoms.new result
            (source node.now) }
    {
        match shape_of(node) {
            Shape::Bare(word) => match operand_word(word) {
                OperandWord::Nil => Ok(Operand::Nil),
                _ => Err(bad_operand()),
            },
            Shape::Tagged(word, parts) => match (operand_word(word), parts) {
                (OperandWord::Integer, [integer]) => integer_source(integer),
                (OperandWord::Atom, [atom]) => self.atom_source(atoms, atom),
                (OperandWord::Literal, [term]) => self.literal_source(atoms, term),
                (OperandWord::Float, [_]) => Err(self.unsupported("float")?),
                _ => register(node).ok_or(bad_operand()),
            },
            Shape::Other => Err(bad_operand()),
        }
    }

    /// An atom or an integer.
    fn value(self, atoms: &mut Atoms, node: &Node) -> Result<Operand, Fault>
        ensures { Answers (λ value. value) atoms.old atoms.new result (value node.now) }
    {
        let Shape::Tagged(word, [operand]) = shape_of(node) else {
            return Err(bad_operand());
        };
        match operand_word(word) {
            OperandWord::Integer => integer_source(operand),
            OperandWord::Atom => self.atom_source(atoms, operand),
            OperandWord::Float => Err(self.unsupported("float")?),
            _ => Err(bad_operand()),
        }
    }

    /// The atom of `{atom,A}`.
    #[tactic(auto, using(crate::proofs::Readings::refused_first))]
    fn atom_source(self, atoms: &mut Atoms, node: &Node) -> Result<Operand, Fault>
        ensures { Answers (λ source. source) atoms.old atoms.new result
            (atom_source node.now) }
    {
        let atom = self.atom_word(atoms, node)?;
        Ok(Operand::Atom(atom))
    }

    /// The term of `{literal,T}`.
    #[tactic(auto, using(crate::proofs::Readings::refused_first))]
    fn literal_source(self, atoms: &mut Atoms, node: &Node) -> Result<Operand, Fault>
        ensures { Answers (λ source. source) atoms.old atoms.new result
            (literal_source node.now) }
    {
        match self.literal(atoms, node)? {
            Some(term) => Ok(Operand::Literal(term)),
            None => Err(literal_range()),
        }
    }

    /// The function of `{extfunc,M,F,A}`.
    fn callee(self, atoms: &mut Atoms, node: &Node) -> Result<Operand, Fault>
        ensures { Answers (λ callee. callee) atoms.old atoms.new result
            (callee node.now) }
    {
        let Shape::Tagged(word, [module, function, count]) = shape_of(node) else {
            return Err(bad_operand());
        };
        match operand_word(word) {
            OperandWord::External => self.external(atoms, module, function, count),
            _ => Err(bad_operand()),
        }
    }

    #[tactic(auto, using(crate::proofs::Readings::refused_first, crate::proofs::Readings::refused_after))]
    fn external(
        self,
        atoms: &mut Atoms,
        module: &Node,
        function: &Node,
        count: &Node,
    ) -> Result<Operand, Fault>
        ensures { Answers (λ callee. callee) atoms.old atoms.new result
            (external «module».now function.now count.now) }
    {
        let module = self.atom_word(atoms, module)?;
        let function = self.atom_word(atoms, function)?;
        match number(count) {
            Some(arity) => Ok(Operand::Import(Import {
                module,
                function,
                arity,
            })),
            None => Err(bad_operand()),
        }
    }

    /// `{KIND,N}`, which a tuple of two is whose first is an atom.
    #[tactic(auto, using(crate::proofs::Readings::refused_first))]
    fn amount(self, atoms: &mut Atoms, node: &Node) -> Result<Operand, Fault>
        ensures { Answers (λ amount. amount) atoms.old atoms.new result
            (amount node.now) }
    {
        let Shape::Tagged(kind, [count]) = shape_of(node) else {
            return Err(bad_operand());
        };
        let kind = self.name_atom(atoms, kind)?;
        match number(count) {
            Some(count) => Ok(Operand::Amount(Amount { kind, count })),
            None => Err(bad_operand()),
        }
    }

    /// An operand of a sort.
    pub(crate) fn simple(self, atoms: &mut Atoms, sort: Sort, node: &Node) -> Result<Operand, Fault>
        ensures { Answers (λ operand. operand) atoms.old atoms.new result
            (simple sort node.now) }
    {
        match sort {
            Sort::Source => self.source(atoms, node),
            Sort::Value => self.value(atoms, node),
            Sort::Atom => self.atom_operand(atoms, node),
            Sort::Callee => self.callee(atoms, node),
            Sort::Amount => self.amount(atoms, node),
            _ => plain(sort, node).ok_or(bad_operand()),
        }
    }
}

/// The integer of `{integer,I}`.
fn integer_source(node: &Node) -> Result<Operand, Fault>
    ensures { (texts : Table) → Answers (λ source. source) texts texts result
        (integer_source node.now) }
{
    match node.view() {
        View::Integer(value) => Ok(Operand::Integer(value)),
        View::Large(_) => Err(literal_range()),
        _ => Err(bad_operand()),
    }
}

/// The R of `{tr,R,T}`, however often it is wrapped so.
fn untyped<'v, 'a>(node: &'v Node<'a>) -> &'v Node<'a>
    ensures { result.now ≡ untyped node.now }
{
    match shape_of(node) {
        Shape::Tagged(word, [register, _]) => match operand_word(word) {
            OperandWord::Typed => untyped(register),
            _ => node,
        },
        _ => node,
    }
}

/// The register of `{x,N}` or `{y,N}`, with or without its type.
pub(crate) fn register(node: &Node) -> Option<Operand>
    ensures { result ≡ register node.now }
{
    let Shape::Tagged(word, [operand]) = shape_of(untyped(node)) else {
        return None;
    };
    match operand_word(word) {
        OperandWord::X => Some(Operand::X(number(operand)?)),
        OperandWord::Y => Some(Operand::Y(number(operand)?)),
        _ => None,
    }
}

/// The register of `{y,N}`.
fn y_register(node: &Node) -> Option<Operand>
    ensures { result ≡ only_y (register node.now) }
{
    match register(node) {
        Some(Operand::Y(number)) => Some(Operand::Y(number)),
        _ => None,
    }
}

/// The label of `{f,N}`.
pub(crate) fn label(node: &Node) -> Option<u32>
    ensures { result ≡ label node.now }
{
    let Shape::Tagged(word, [operand]) = shape_of(node) else {
        return None;
    };
    match operand_word(word) {
        OperandWord::Label => number(operand),
        _ => None,
    }
}

fn fail_label(node: &Node) -> Option<Operand>
    ensures { result ≡ option_map fail_label (label node.now) }
{
    match label(node)? {
        0 => Some(Operand::NoLabel),
        number => Some(Operand::Label(number)),
    }
}

/// The guard BIF of this name and so many arguments.
fn bif(arity: usize, node: &Node) -> Option<Operand>
    ensures { result ≡ bif_named arity (word node.now) }
{
    Some(Operand::Bif(bif_by_name(word(node)?, arity)?))
}

/// An operand of a sort in which no atom is named.
fn plain(sort: Sort, node: &Node) -> Option<Operand>
    ensures { result ≡ plain sort node.now }
{
    match sort {
        Sort::Register => register(node),
        Sort::YRegister => y_register(node),
        Sort::Target => Some(Operand::Label(label(node)?)),
        Sort::Fail => fail_label(node),
        Sort::Place => Some(Operand::Place(number(node)?)),
        Sort::Number => Some(Operand::Number(number(node)?)),
        Sort::Arity => Some(Operand::Arity(number(node)?)),
        Sort::Bif0 => bif(0, node),
        Sort::Bif1 => bif(1, node),
        Sort::Bif2 => bif(2, node),
        Sort::Mark => Some(Operand::Nil),
        Sort::Source | Sort::Value | Sort::Atom | Sort::Callee | Sort::Amount => None,
    }
}
