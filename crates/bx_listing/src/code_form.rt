//! The code form of a listing: a module's exports and functions, with the items of each.

ghost use Rattle.std.specs.Prelude.{◌≡◌, ◌<◌, ◌↔◌, ◌++◌, ◌∷◌, [], OnOk, OnErr, IfOk, IsTrue, length, slice_get, option_map};
ghost use Rattle.bx_listing.specs.Items.{seen_item};
ghost use Rattle.bx_listing.specs.Stored.{operands_in};

use crate::items::{Item, Operand};
use bx_ops::Op;
use bx_share::{Same, same_rows};
use bx_terms::AtomId;
use std::alloc::{AllocError, Global};
use std::marker::Model;

/// A function that a module offers to others, by its name and arity.
#[derive(Clone, Copy, Debug, PartialEq, Eq)]
pub struct Export {
    pub function: AtomId,
    pub arity: u32,
}

impl Same for Export {
    fn same(&self, other: &Export) -> bool {
        *self == *other
    }
}

/// An item of a function: its operands are `count` of the function's, from the one of number `from` on.
#[derive(Clone, Copy, Debug)]
struct Stored {
    op: Op,
    from: usize,
    count: usize,
}

/// A function of a module's code: its items, in order.
///
/// The operands of all items lie in one row.
#[derive(Debug, Drop)]
pub struct CodeFunction {
    name: AtomId,
    arity: u32,
    entry: u32,
    stored: Vec<Stored>,
    operands: Vec<Operand>,
}

impl Model for CodeFunction {
    ghost use Rattle.bx_listing.specs.Code.{CodeFunction, code_function_code};
    ghost use Rattle.bx_listing.specs.Items.{item_code};
    ghost use Rattle.bx_listing.specs.Stored.{stored_items, AreStored};
    ghost use Rattle.bx_terms.specs.contracts.atom_table.AtomId as atom;
    ghost use Rattle.bx_ops.specs.contracts.opcode.Op as op;
    ghost use Rattle.bx_listing.specs.contracts.items.Operand as operand;

    ghost Value = { CodeFunction };

    ghost coded = { code_function_code atom.the_row.coded
        (item_code op.the_row.coded operand.the_row.coded) };

    ghost view = { λ f. record {
      name = f.name;
      arity = f.arity;
      entry = f.entry;
      items =
          stored_items f.operands.items f.stored.items;
    } };

    ghost invariant = { λ f. AreStored f.operands.items f.stored.items };
}

impl CodeFunction {
    /// A function without items.
    pub fn new(alloc: Global, name: AtomId, arity: u32, entry: u32) -> CodeFunction
        ensures { result ≡ record { name = name; arity = arity; entry = entry; items = [] } }
    {
        CodeFunction {
            name,
            arity,
            entry,
            stored: Vec::new(alloc),
            operands: Vec::new(alloc),
        }
    }

    /// Adds an item behind the others, and takes its operands out of the row that holds them. Where there is no memory for
    /// it, both stay as they are.
    #[tactic(auto, using(crate::proofs::Stores::item_added, crate::proofs::Stores::whole_added))]
    pub fn add(&mut self, op: Op, operands: &mut Vec<Operand>) -> Result<(), AllocError>
        ensures added { OnOk result (self.new ≡ record self.old
            { items = self.old.items ++ record { op = op; operands = operands.old.items } ∷ [] }) }
        ensures taken { OnOk result (operands.new.items ≡ []) }
        ensures kept { OnErr result
            ((self.new ≡ self.old) × (operands.new.items ≡ operands.old.items)) }
    {
        self.stored.reserve(1)?;
        let from = self.operands.as_slice().len();
        let count = operands.as_slice().len();
        self.operands.append(operands)?;
        self.stored.push(Stored { op, from, count })?;
        Ok(())
    }

    /// The function's name.
    pub fn name(&self) -> AtomId
        ensures { result ≡ self.now.name }
    {
        self.name
    }

    /// How many arguments it takes.
    pub fn arity(&self) -> u32
        ensures { result ≡ self.now.arity }
    {
        self.arity
    }

    /// The label at which a call of it begins.
    pub fn entry(&self) -> u32
        ensures { result ≡ self.now.entry }
    {
        self.entry
    }

    /// The same function once more. Memory may run out only where it has items.
    pub fn copy(&self, alloc: Global) -> Result<CodeFunction, AllocError>
        ensures copied { IfOk result (λ copy. copy ≡ self.now) }
        ensures memory { OnErr result (0 < length self.now.items) }
    {
        if self.stored.is_empty() {
            return Ok(CodeFunction::new(alloc, self.name, self.arity, self.entry));
        }
        let stored = Vec::from_slice(alloc, self.stored.as_slice())?;
        let operands = copy_operands(alloc, self.operands.as_slice())?;
        Ok(CodeFunction {
            name: self.name,
            arity: self.arity,
            entry: self.entry,
            stored,
            operands,
        })
    }

    /// How many items it has.
    pub fn item_count(&self) -> usize
        ensures { result ≡ length self.now.items }
    {
        self.stored.len()
    }

    /// The operands of all items, in order.
    pub fn operands(&self) -> &[Operand]
        ensures { result.now ≡ operands_in self.now.items }
    {
        self.operands.as_slice()
    }

    /// The item of this number, from 0; `None` past the last.
    pub fn item(&self, number: usize) -> Option<Item<'_>>
        ensures { option_map seen_item result ≡ slice_get self.now.items number }
    {
        if number >= self.stored.len() {
            return None;
        }
        let stored = self.stored[number];
        Some(Item {
            op: stored.op,
            operands: &self.operands[stored.from..stored.from + stored.count],
        })
    }
}

impl Same for CodeFunction {
    fn same(&self, other: &CodeFunction) -> bool {
        self.name() == other.name()
            && self.arity() == other.arity()
            && self.entry() == other.entry()
            && same_items(self, other)
    }
}

/// Whether the items of one number are the same, or neither function has one.
fn same_at(one: &CodeFunction, other: &CodeFunction, number: usize) -> bool
    ensures { IsTrue result ↔ (slice_get one.now.items number ≡ slice_get other.now.items number) }
{
    match (one.item(number), other.item(number)) {
        (Some(item), Some(other)) => item.same(other),
        (None, None) => true,
        _ => false,
    }
}

#[tactic(auto, using(crate::proofs::Stores::same_so_far, bx_share::specs::Rows::same_whole))]
fn same_items(one: &CodeFunction, other: &CodeFunction) -> bool
    ensures { IsTrue result ↔ (one.now.items ≡ other.now.items) }
{
    let count = one.item_count();
    if count != other.item_count() {
        return false;
    }
    for number in 0..count {
        if !same_at(one, other, number) {
            return false;
        }
    }
    true
}

#[tactic(auto, using(std::proofs::lemmas::List::take_more))]
fn copy_operands(alloc: Global, operands: &[Operand]) -> Result<Vec<Operand>, AllocError>
    ensures { IfOk result (λ copies. copies.items ≡ operands.now) }
{
    let mut copies = Vec::with_capacity(alloc, operands.len())?;
    for at in 0..operands.len() {
        copies.push(operands[at].copy(alloc)?)?;
    }
    Ok(copies)
}

/// The code of one module: its name, the functions that it exports, and its functions.
#[derive(Debug, Drop)]
pub struct Code {
    name: AtomId,
    exports: Vec<Export>,
    functions: Vec<CodeFunction>,
}

impl Model for Code {
    ghost use Rattle.bx_listing.specs.Code.{Code, code_code};
    ghost use Rattle.bx_listing.specs.Items.{item_code};
    ghost use Rattle.bx_terms.specs.contracts.atom_table.AtomId as atom;
    ghost use Rattle.bx_listing.specs.contracts.code_form.Export as export;
    ghost use Rattle.bx_ops.specs.contracts.opcode.Op as op;
    ghost use Rattle.bx_listing.specs.contracts.items.Operand as operand;

    ghost Value = { Code };

    ghost coded = { code_code atom.the_row.coded export.the_row.coded
        (item_code op.the_row.coded operand.the_row.coded) };

    ghost view = { λ c. record
        { name = c.name; exports = c.exports.items; functions = c.functions.items } };
}

impl Code {
    /// The code with these parts.
    pub fn new(name: AtomId, exports: Vec<Export>, functions: Vec<CodeFunction>) -> Code
        ensures { result ≡ record
            { name = name; exports = exports.items; functions = functions.items } }
    {
        Code {
            name,
            exports,
            functions,
        }
    }

    /// The module's name.
    pub fn name(&self) -> AtomId
        ensures { result ≡ self.now.name }
    {
        self.name
    }

    /// The functions that it exports, in order.
    pub fn exports(&self) -> &[Export]
        ensures { result.now ≡ self.now.exports }
    {
        self.exports.as_slice()
    }

    /// Its functions, in order.
    pub fn functions(&self) -> &[CodeFunction]
        ensures { result.now ≡ self.now.functions }
    {
        self.functions.as_slice()
    }
}

impl Same for Code {
    fn same(&self, other: &Code) -> bool {
        self.name == other.name
            && same_rows(&self.exports, &other.exports)
            && same_rows(&self.functions, &other.functions)
    }
}
