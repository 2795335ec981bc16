//! Items, slot by slot.

ghost use Rattle.std.specs.Prelude.{◌≡◌, option_map};
ghost use Rattle.bx_text.specs.View.{elements_seen};
ghost use Rattle.bx_listing.specs.Seen.{seen};
ghost use Rattle.bx_listing.specs.Formed.{formed, terms};
ghost use Rattle.bx_listing.specs.Operands.{label, register};
ghost use Rattle.bx_listing.specs.Rows.{members, listed, is_even, is_label, is_x, list_of, slot, row, agrees, amounts, heap, formed_item, written_item, tuple_item, bare_item, item_row};
ghost use Rattle.bx_listing.specs.Reading.{Answers};

use crate::form_reader::{FormReader, bad_form, bad_operand};
use crate::items::Operand;
use crate::operand_texts::behind;
use crate::operands::{label, register};
use crate::shapes::{Shape, list_elements, shape_of};
use crate::ways::{Arguments, Form};
use crate::words::{FormWord, OperandWord, form_word, operand_word};
use bx_ops::{Op, Slot, Sort, slots};
use bx_terms::{Atoms, Fault};
use bx_text::{Elements, Node};

impl FormReader {
    /// The members of a list, of two sorts in turn.
    fn members(
        self,
        atoms: &mut Atoms,
        operands: &mut Vec<Operand>,
        first: Sort,
        second: Sort,
        nodes: Elements,
    ) -> Result<(), Fault>
        ensures { Answers (λ done. operands.new.items) atoms.old atoms.new result
            (members operands.old.items first second (elements_seen nodes.entry)) }
    {
        let mut this = first;
        let mut next = second;
        for i in 0..nodes.len() {
            match self.simple(atoms, this, nodes.at(i).node()) {
                Ok(operand) => operands.push(operand)?,
                Err(fault) => return Err(fault),
            }
            let last = this;
            this = next;
            next = last;
        }
        Ok(())
    }

    /// A list's length, and its members.
    #[tactic(auto, using(crate::proofs::Readings::wanting_before))]
    fn list_of(
        self,
        atoms: &mut Atoms,
        operands: &mut Vec<Operand>,
        first: Sort,
        second: Sort,
        nodes: Elements,
    ) -> Result<(), Fault>
        ensures { Answers (λ done. operands.new.items) atoms.old atoms.new result
            (list_of operands.old.items first second (elements_seen nodes.entry)) }
    {
        operands.push(Operand::List(nodes.len()))?;
        self.members(atoms, operands, first, second, nodes)
    }

    #[tactic(auto, using(crate::proofs::Readings::refused_first, crate::proofs::Readings::refused_stored))]
    fn one(
        self,
        atoms: &mut Atoms,
        operands: &mut Vec<Operand>,
        sort: Sort,
        node: &Node,
    ) -> Result<(), Fault>
        ensures { Answers (λ done. operands.new.items) atoms.old atoms.new result
            (slot operands.old.items (Slot.One sort) node.now) }
    {
        let operand = self.simple(atoms, sort, node)?;
        operands.push(operand)?;
        Ok(())
    }

    /// What stands in one place.
    fn read_slot(
        self,
        atoms: &mut Atoms,
        operands: &mut Vec<Operand>,
        kind: Slot,
        node: &Node,
    ) -> Result<(), Fault>
        ensures { Answers (λ done. operands.new.items) atoms.old atoms.new result
            (slot operands.old.items kind node.now) }
    {
        match kind {
            Slot::One(sort) => self.one(atoms, operands, sort, node),
            Slot::Many(sort) => match listed(node) {
                Some(nodes) => self.list_of(atoms, operands, sort, sort, nodes),
                None => Err(bad_operand()),
            },
            Slot::Pairs(first, second) => match listed(node) {
                Some(nodes) if is_even(nodes) => {
                    self.list_of(atoms, operands, first, second, nodes)
                }
                _ => Err(bad_operand()),
            },
            Slot::NoLabel if is_no_label(node) => Ok(()),
            Slot::ToX0 if is_x0(node) => Ok(()),
            Slot::NoLabel | Slot::ToX0 => Err(bad_operand()),
            Slot::Heap => self.heap(atoms, operands, node),
        }
    }

    /// A heap's size: a number, or the amounts of its parts.
    fn heap(self, atoms: &mut Atoms, operands: &mut Vec<Operand>, node: &Node) -> Result<(), Fault>
        ensures { Answers (λ done. operands.new.items) atoms.old atoms.new result
            (heap operands.old.items node.now) }
    {
        match amounts(node) {
            Some(nodes) => self.list_of(atoms, operands, Sort::Amount, Sort::Amount, nodes),
            None => self.one(atoms, operands, Sort::Number, node),
        }
    }

    /// The operands of an instruction, slot by slot.
    fn read_row(
        self,
        atoms: &mut Atoms,
        operands: &mut Vec<Operand>,
        slots: &[Slot],
        arguments: Arguments,
    ) -> Result<(), Fault>
        ensures { Answers (λ done. operands.new.items) atoms.old atoms.new result
            (row operands.old.items slots.now (terms arguments.entry)) }
    {
        for i in 0..slots.len() {
            let Some(part) = arguments.part(i) else {
                return Ok(());
            };
            match self.read_slot(atoms, operands, slots[i], part.node()) {
                Ok(()) => {}
                Err(fault) => return Err(fault),
            }
        }
        Ok(())
    }

    #[tactic(auto, using(crate::proofs::Readings::refused_first, crate::proofs::Readings::answers_after))]
    fn formed_item(
        self,
        atoms: &mut Atoms,
        operands: &mut Vec<Operand>,
        form: Form,
    ) -> Result<Option<Op>, Fault>
        ensures { Answers (λ op. (op, operands.new.items)) atoms.old atoms.new result
            (formed_item operands.old.items (formed form.entry)) }
    {
        let from = operands.len();
        let op = form.op;
        match self.read_row(atoms, operands, slots(op), form.arguments) {
            Ok(()) => {
                if agrees(behind(operands.as_slice(), from)) {
                    Ok(Some(op))
                } else {
                    Err(bad_operand())
                }
            }
            Err(fault) => Err(fault),
        }
    }

    #[tactic(auto, using(crate::proofs::Readings::form_refused, crate::proofs::Readings::result_read))]
    fn written_item(
        self,
        atoms: &mut Atoms,
        operands: &mut Vec<Operand>,
        text: &str,
        word: FormWord,
        parts: &[Node],
    ) -> Result<Option<Op>, Fault>
        ensures { Answers (λ op. (op, operands.new.items)) atoms.old atoms.new result
            (written_item operands.old.items text.now word parts.now) }
    {
        match self.tuple_form(text, word, parts) {
            Ok(form) => self.formed_item(atoms, operands, form),
            Err(fault) => Err(fault),
        }
    }

    fn tuple_item(
        self,
        atoms: &mut Atoms,
        operands: &mut Vec<Operand>,
        text: &str,
        word: FormWord,
        parts: &[Node],
    ) -> Result<Option<Op>, Fault>
        ensures { Answers (λ op. (op, operands.new.items)) atoms.old atoms.new result
            (tuple_item operands.old.items text.now word parts.now) }
    {
        match (word, parts) {
            (FormWord::Annotation, [_]) => Ok(None),
            _ => self.written_item(atoms, operands, text, word, parts),
        }
    }

    #[tactic(auto, using(crate::proofs::Readings::form_refused, crate::proofs::Readings::result_read))]
    fn bare_item(
        self,
        atoms: &mut Atoms,
        operands: &mut Vec<Operand>,
        text: &str,
    ) -> Result<Option<Op>, Fault>
        ensures { Answers (λ op. (op, operands.new.items)) atoms.old atoms.new result
            (bare_item operands.old.items text.now) }
    {
        match self.bare_form(text, form_word(text)) {
            Ok(op) => Ok(Some(op)),
            Err(fault) => Err(fault),
        }
    }

    /// Reads an item: its opcode, or `None` for an annotation, which is ignored. Its operands go behind those that are there.
    pub(crate) fn read_item(
        self,
        atoms: &mut Atoms,
        operands: &mut Vec<Operand>,
        form: Shape,
    ) -> Result<Option<Op>, Fault>
        ensures { Answers (λ op. (op, operands.new.items)) atoms.old atoms.new result
            (item_row operands.old.items (seen form.entry)) }
    {
        match form {
            Shape::Tagged(text, parts) => self.tuple_item(
                atoms,
                operands,
                text,
                form_word(text),
                parts,
            ),
            Shape::Bare(text) => self.bare_item(atoms, operands, text),
            Shape::Other => Err(bad_form()),
        }
    }
}

/// The elements of `{alloc,[T,..]}`.
fn amounts<'v, 'a>(node: &'v Node<'a>) -> Option<Elements<'v, 'a>>
    ensures { option_map (λ list. elements_seen list) result ≡ amounts node.now }
{
    let Shape::Tagged(word, [list]) = shape_of(node) else {
        return None;
    };
    match operand_word(word) {
        OperandWord::Amounts => list_elements(list),
        _ => None,
    }
}

/// The elements of `{list,[T,..]}`.
fn listed<'v, 'a>(node: &'v Node<'a>) -> Option<Elements<'v, 'a>>
    ensures { option_map (λ list. elements_seen list) result ≡ listed node.now }
{
    let Shape::Tagged(word, [list]) = shape_of(node) else {
        return None;
    };
    match operand_word(word) {
        OperandWord::List => list_elements(list),
        _ => None,
    }
}

fn is_even(nodes: Elements) -> bool
    ensures { result ≡ is_even (elements_seen nodes.entry) }
{
    nodes.len() % 2 == 0
}

/// Whether it is `{f,0}`.
fn is_no_label(node: &Node) -> bool
    ensures { result ≡ is_label 0 (label node.now) }
{
    match label(node) {
        Some(number) => number == 0,
        None => false,
    }
}

/// Whether it is `{x,0}`.
fn is_x0(node: &Node) -> bool
    ensures { result ≡ is_x 0 (register node.now) }
{
    match register(node) {
        Some(Operand::X(number)) => number == 0,
        _ => false,
    }
}

fn agrees(operands: &[Operand]) -> bool
    ensures { result ≡ agrees operands.now }
{
    match operands {
        [Operand::Arity(arity), Operand::Import(import), ..] => *arity == import.arity,
        _ => true,
    }
}
