//! What each form behind the head adds to the functions before it.

ghost use Rattle.std.specs.Prelude.{◌≡◌, OnOk, OnErr, IsSome};
ghost use Rattle.bx_listing.specs.Listing.{with_optional, form_part, with_form_item, with_form, begun_function};
ghost use Rattle.bx_listing.specs.ItemForms.{read_as, item};
ghost use Rattle.bx_listing.specs.Seen.{seen};
ghost use Rattle.bx_listing.specs.Shape.{shape};
ghost use Rattle.bx_text.specs.Tree.{span_of};
ghost use Rattle.bx_listing.specs.Reading.{Answers};

use crate::form_reader::{FormReader, bad_form};
use crate::items::Operand;
use crate::listing::Function;
use crate::shapes::{Shape, shape_of};
use crate::words::{FormWord, form_word};
use bx_ops::Op;
use bx_terms::{Atoms, Fault};
use bx_text::Node;
use std::alloc::AllocError;

impl FormReader {
    /// Reads a form behind the head: the beginning of a function, or an item of the last one.
    pub(crate) fn part(
        self,
        atoms: &mut Atoms,
        functions: &mut Vec<Function>,
        operands: &mut Vec<Operand>,
        form: &Node,
    ) -> Result<(), Fault>
        ensures { Answers (λ done. functions.new.items) atoms.old atoms.new result
            (form_part (span_of form.now).line functions.old.items (shape form.now)) }
    {
        match shape_of(form) {
            Shape::Tagged(text, parts) => match form_word(text) {
                FormWord::Function => self.begin_function(atoms, functions, parts),
                _ => self.add_form(atoms, functions, operands, form),
            },
            _ => self.add_form(atoms, functions, operands, form),
        }
    }

    #[tactic(auto, using(crate::proofs::Readings::refused_first, crate::proofs::Readings::refused_stored))]
    fn begin_function(
        self,
        atoms: &mut Atoms,
        functions: &mut Vec<Function>,
        parts: &[Node],
    ) -> Result<(), Fault>
        ensures { Answers (λ done. functions.new.items) atoms.old atoms.new result
            (begun_function functions.old.items parts.now) }
    {
        let function = self.function_form(atoms, parts)?;
        functions.push(function)?;
        Ok(())
    }

    // There are no items before the first function.
    fn add_form(
        self,
        atoms: &mut Atoms,
        functions: &mut Vec<Function>,
        operands: &mut Vec<Operand>,
        form: &Node,
    ) -> Result<(), Fault>
        ensures { Answers (λ done. functions.new.items) atoms.old atoms.new result
            (with_form (span_of form.now).line functions.old.items (shape form.now)) }
    {
        if functions.is_empty() {
            return Err(bad_form());
        }
        self.add_form_item(atoms, functions, operands, form)
    }

    #[tactic(auto, using(crate::proofs::Readings::refused_first, crate::proofs::Readings::refused_stored))]
    fn add_form_item(
        self,
        atoms: &mut Atoms,
        functions: &mut Vec<Function>,
        operands: &mut Vec<Operand>,
        form: &Node,
    ) -> Result<(), Fault>
        ensures { Answers (λ done. functions.new.items) atoms.old atoms.new result
            (with_form_item (span_of form.now).line functions.old.items (shape form.now)) }
    {
        let op = self.item(atoms, operands, shape_of(form))?;
        add_item(functions, operands, form.span().line, op)?;
        Ok(())
    }

    /// Reads an item: its opcode, with its operands in place of those that are there; `None` for an annotation.
    fn item(
        self,
        atoms: &mut Atoms,
        operands: &mut Vec<Operand>,
        form: Shape,
    ) -> Result<Option<Op>, Fault>
        ensures { Answers (λ op. read_as (op, operands.new.items)) atoms.old atoms.new result
            (item (seen form.entry)) }
    {
        operands.clear();
        self.read_item(atoms, operands, form)
    }
}

/// Adds an item to the last function.
fn add_item(
    functions: &mut Vec<Function>,
    operands: &mut Vec<Operand>,
    line: usize,
    op: Option<Op>,
) -> Result<(), AllocError>
    ensures added { OnOk result (functions.new.items ≡ with_optional line
        (read_as (op, operands.old.items)) functions.old.items) }
    ensures wanting { OnErr result (IsSome op) }
{
    let Some(op) = op else {
        return Ok(());
    };
    if let Some(function) = functions.last_mut() {
        function.add(line, op, operands)?;
    }
    Ok(())
}
