//! Numbering: items to opcode numbers with operands.

ghost use Rattle.std.specs.Prelude.{◌≡◌, ◌<◌, ◌∷◌, [], List, OnOk, IfOk, Some, true};
ghost use Rattle.std.specs.List.{list_all};
ghost use Rattle.bx_terms.specs.Tree.{Tree};
ghost use Rattle.bx_listing.specs.declared.items.Import.{Import as Called};
ghost use Rattle.bx_asm.specs.Drafts.{Extends, SpellsRow};
ghost use Rattle.bx_asm.specs.Limits.{is_register};
ghost use Rattle.bx_asm.specs.Operands.{spelled};

use crate::operands::{NumberedItem, Operand};
use bx_listing::{Import, Item, Operand as Listed};
use bx_terms::Term;
use indexmap::IndexSet;
use smallvec::SmallVec;
use std::alloc::{AllocError, Global};

/// The number of a literal, which goes to the end of the table.
#[tactic(auto, using(crate::proofs::Growth::extends_push, crate::proofs::Growth::pushed_last))]
fn number_literal(
    alloc: Global,
    literals: &mut Vec<Term>,
    term: &Term,
) -> Result<Operand, AllocError>
    ensures ok { IfOk result (λ n. (called : List Called) → spelled
        (record { literals = literals.new.items; imports = called }) n ≡ Some
        (Listed.Literal term.now)) }
    ensures extends { Extends literals.old.items literals.new.items }
{
    let number = literals.as_slice().len();
    let copy = term.copy(alloc)?;
    literals.push(copy)?;
    Ok(Operand::Literal(number))
}

/// The number of a function that is called by its name; a new one goes to the end of the table.
#[tactic(auto, using(crate::proofs::Growth::extends_insert, crate::proofs::Growth::stored_import))]
fn number_import(imports: &mut IndexSet<Import>, function: Import) -> Result<Operand, AllocError>
    ensures ok { IfOk result (λ n. (literals : List Tree) → spelled
        (record { literals = literals; imports = imports.new.keys }) n ≡ Some
        (Listed.Import function)) }
    ensures extends { Extends imports.old.keys imports.new.keys }
{
    let (number, _) = imports.insert_full(function)?;
    Ok(Operand::Import(number))
}

/// The operand as it is stored; what it names goes into the tables.
#[tactic(auto, using(crate::proofs::Growth::extends_same))]
fn number_operand(
    alloc: Global,
    literals: &mut Vec<Term>,
    imports: &mut IndexSet<Import>,
    operand: &Listed,
) -> Result<Operand, AllocError>
    requires { is_register operand.now ≡ true }
    ensures ok { IfOk result (λ n. spelled
        (record { literals = literals.new.items; imports = imports.new.keys }) n ≡ Some
        operand.now) }
    ensures literals { Extends literals.old.items literals.new.items }
    ensures imports { Extends imports.old.keys imports.new.keys }
{
    match operand {
        Listed::X(number) => Ok(Operand::X(*number as u16)),
        Listed::Y(number) => Ok(Operand::Y(*number as u16)),
        Listed::Integer(value) => Ok(Operand::Integer(*value)),
        Listed::Atom(atom) => Ok(Operand::Atom(*atom)),
        Listed::Nil => Ok(Operand::Nil),
        Listed::Literal(term) => number_literal(alloc, literals, term),
        Listed::Label(label) => Ok(Operand::Label(*label)),
        Listed::NoLabel => Ok(Operand::NoLabel),
        Listed::Place(label) => Ok(Operand::Place(*label)),
        Listed::Number(number) => Ok(Operand::Number(*number)),
        Listed::Arity(number) => Ok(Operand::Arity(*number)),
        Listed::Import(function) => number_import(imports, *function),
        Listed::Bif(bif) => Ok(Operand::Bif(*bif)),
        Listed::Amount(amount) => Ok(Operand::Amount(*amount)),
        Listed::List(count) => Ok(Operand::List(*count)),
    }
}

/// Code that is being numbered: items so far, and the tables of what they name.
#[derive(Drop)]
pub(crate) struct Draft {
    pub items: Vec<NumberedItem>,
    pub literals: Vec<Term>,
    pub imports: IndexSet<Import>,
}

impl Draft {
    ghost use Rattle.bx_asm.specs.Drafts.{Grows, tables_of, ExtendsTables};
    ghost use Rattle.bx_listing.specs.Items.{seen_item};

    /// Nothing is numbered yet but functions that are called.
    pub fn new(alloc: Global, imports: IndexSet<Import>) -> Draft
        ensures items { result.items.items ≡ [] }
        ensures tables { tables_of result ≡ record { literals = []; imports = imports.keys } }
    {
        Draft {
            items: Vec::new(alloc),
            literals: Vec::new(alloc),
            imports,
        }
    }

    /// A row of operands as it is stored; what it names goes into the tables.
    fn number_row(
        &mut self,
        alloc: Global,
        row: &[Listed],
    ) -> Result<SmallVec<Operand, 3>, AllocError>
        requires { list_all is_register row.now ≡ true }
        ensures spells { IfOk result
            (λ numbered. SpellsRow (tables_of self.new) numbered.items row.now) }
        ensures items { OnOk result (self.new.items ≡ self.old.items) }
        ensures extends { OnOk result (ExtendsTables (tables_of self.old) (tables_of self.new)) }
    {
        let mut numbered = SmallVec::new(alloc);
        for operand in row {
            let next = number_operand(alloc, &mut self.literals, &mut self.imports, operand)?;
            numbered.push(next)?;
        }
        Ok(numbered)
    }

    /// One item more.
    pub fn add(&mut self, alloc: Global, item: Item<'_>) -> Result<(), AllocError>
        requires { list_all is_register item.operands.now ≡ true }
        ensures { OnOk result (Grows self.old self.new (seen_item item.entry ∷ [])) }
    {
        let operands = self.number_row(alloc, item.operands)?;
        self.items.push(NumberedItem {
            op: item.op,
            operands,
        })?;
        Ok(())
    }
}
