//! A listing that was read: a module's code as it was written, with the line of each item.

ghost use Rattle.std.specs.Prelude.{◌≡◌, ◌<◌, ◌++◌, ◌∷◌, [], Ok, IfOk, OnOk, OnErr, length, map, slice_get, option_map};
ghost use Rattle.bx_listing.specs.Items.{seen_item};
ghost use Rattle.bx_listing.specs.Code.{function_code_of, items_of, code};
ghost use Rattle.bx_listing.specs.Taking.{CopiesParts};
ghost use Rattle.bx_listing.specs.Stored.{operands_in};
ghost use Rattle.bx_terms.specs.Outcomes.{Gives};

use crate::code_form::{Code, CodeFunction, Export};
use crate::items::{Item, Operand};
use bx_ops::Op;
use bx_share::{Same, same_rows};
use bx_terms::{AtomId, Fault};
use std::alloc::{AllocError, Global};
use std::marker::Model;

/// A function of a listing: its code, and the line from 1 on which each item's form begins.
#[derive(Debug, Drop)]
pub struct Function {
    code: CodeFunction,
    lines: Vec<usize>,
}

impl Model for Function {
    ghost use Rattle.bx_listing.specs.ListedCode.{ListedFunction, function_code};
    ghost use Rattle.bx_listing.specs.Items.{item_code, placed_code};
    ghost use Rattle.bx_listing.specs.Stored.{placed};
    ghost use Rattle.std.specs.Prelude.{◌≡◌, length};
    ghost use Rattle.bx_terms.specs.contracts.atom_table.AtomId as atom;
    ghost use Rattle.bx_ops.specs.contracts.opcode.Op as op;
    ghost use Rattle.bx_listing.specs.contracts.items.Operand as operand;

    ghost Value = { ListedFunction };

    ghost coded = { function_code atom.the_row.coded
        (placed_code (item_code op.the_row.coded operand.the_row.coded)) };

    ghost view = { λ f. record {
      name = f.code.name;
      arity = f.code.arity;
      entry = f.code.entry;
      items = placed f.lines.items f.code.items;
    } };

    ghost invariant = { λ f. length f.lines.items ≡ length f.code.items };
}

impl Function {
    /// A function without items.
    pub(crate) fn new(alloc: Global, name: AtomId, arity: u32, entry: u32) -> Function
        ensures { result ≡ record { name = name; arity = arity; entry = entry; items = [] } }
    {
        Function {
            code: CodeFunction::new(alloc, name, arity, entry),
            lines: Vec::new(alloc),
        }
    }

    /// Adds an item behind the others, and takes its operands out of the row that holds them.
    #[tactic(auto, using(crate::proofs::Placed::placed_more))]
    pub(crate) fn add(
        &mut self,
        line: usize,
        op: Op,
        operands: &mut Vec<Operand>,
    ) -> Result<(), AllocError>
        ensures added { OnOk result (self.new ≡ record self.old {
          items = self.old.items ++ record
              { line = line; item = record { op = op; operands = operands.old.items } } ∷ [];
        }) }
        ensures taken { OnOk result (operands.new.items ≡ []) }
        ensures kept { OnErr result (self.new ≡ self.old) }
    {
        self.lines.reserve(1)?;
        self.code.add(op, operands)?;
        self.lines.push(line)?;
        Ok(())
    }

    /// The function's name.
    pub fn name(&self) -> AtomId
        ensures { result ≡ self.now.name }
    {
        self.code.name()
    }

    /// How many arguments it takes.
    pub fn arity(&self) -> u32
        ensures { result ≡ self.now.arity }
    {
        self.code.arity()
    }

    /// The label at which a call of it begins.
    pub fn entry(&self) -> u32
        ensures { result ≡ self.now.entry }
    {
        self.code.entry()
    }

    /// How many items it has.
    #[tactic(auto, using(crate::proofs::Placed::placed_length))]
    pub fn item_count(&self) -> usize
        ensures { result ≡ length self.now.items }
    {
        self.lines.as_slice().len()
    }

    /// The item of this number, from 0; `None` past the last.
    #[tactic(auto, using(crate::proofs::Placed::placed_item_at))]
    pub fn item(&self, number: usize) -> Option<Item<'_>>
        ensures { option_map seen_item result ≡ option_map (λ p. p.item)
            (slice_get self.now.items number) }
    {
        self.code.item(number)
    }

    /// The operands of all items, in order.
    #[tactic(auto, using(crate::proofs::Placed::placed_items))]
    pub fn operands(&self) -> &[Operand]
        ensures { result.now ≡ operands_in (items_of self.now.items) }
    {
        self.code.operands()
    }

    /// The line from 1 on which each item begins, in order.
    #[tactic(auto, using(crate::proofs::Placed::placed_lines))]
    pub fn lines(&self) -> &[usize]
        ensures { result.now ≡ map (λ p. p.line) self.now.items }
    {
        self.lines.as_slice()
    }

    /// The function without the lines of its items.
    #[tactic(auto, using(crate::proofs::Placed::placed_items))]
    pub fn code(&self) -> &CodeFunction
        ensures { result.now ≡ function_code_of self.now }
    {
        &self.code
    }
}

impl Same for Function {
    #[tactic(auto, using(crate::proofs::Placed::listed_same))]
    fn same(&self, other: &Function) -> bool {
        same_rows(self.lines(), other.lines()) && self.code().same(other.code())
    }
}

/// A listing: the code of one module, with each item's line.
#[derive(Debug, Drop)]
pub struct Listing {
    module: AtomId,
    exports: Vec<Export>,
    functions: Vec<Function>,
}

impl Model for Listing {
    ghost use Rattle.bx_listing.specs.ListedCode.{ListedModule, module_code};
    ghost use Rattle.bx_listing.specs.Items.{item_code, placed_code};
    ghost use Rattle.bx_terms.specs.contracts.atom_table.AtomId as atom;
    ghost use Rattle.bx_listing.specs.contracts.code_form.Export as export;
    ghost use Rattle.bx_ops.specs.contracts.opcode.Op as op;
    ghost use Rattle.bx_listing.specs.contracts.items.Operand as operand;

    ghost Value = { ListedModule };

    ghost coded = { module_code atom.the_row.coded export.the_row.coded
        (placed_code (item_code op.the_row.coded operand.the_row.coded)) };

    ghost view = { λ a. record
        { name = a.«module»; exports = a.exports.items; functions = a.functions.items } };
}

impl Listing {
    pub(crate) fn new(name: AtomId, exports: Vec<Export>, functions: Vec<Function>) -> Listing
        ensures { result ≡ record
            { name = name; exports = exports.items; functions = functions.items } }
    {
        Listing {
            module: name,
            exports,
            functions,
        }
    }

    /// The module's name.
    pub fn module(&self) -> AtomId
        ensures { result ≡ self.now.name }
    {
        self.module
    }

    /// The functions that it exports, in order.
    pub fn exports(&self) -> &[Export]
        ensures { result.now ≡ self.now.exports }
    {
        self.exports.as_slice()
    }

    /// Its functions, in order.
    pub fn functions(&self) -> &[Function]
        ensures { result.now ≡ self.now.functions }
    {
        self.functions.as_slice()
    }
}

impl Same for Listing {
    fn same(&self, other: &Listing) -> bool {
        self.module == other.module
            && same_rows(&self.exports, &other.exports)
            && same_rows(&self.functions, &other.functions)
    }
}

/// The code form of a listing: what it holds without the lines.
///
/// Memory may run out only where it exports or has a function.
pub fn code_of(alloc: Global, listing: &Listing) -> Result<Code, Fault>
    ensures { Gives (CopiesParts listing.now) (λ code. code) result (Ok (code listing.now)) }
{
    let exports = copies(alloc, listing.exports())?;
    let functions = function_codes(alloc, listing.functions())?;
    Ok(Code::new(listing.module(), exports, functions))
}

fn copies(alloc: Global, exports: &[Export]) -> Result<Vec<Export>, AllocError>
    ensures ok { IfOk result (λ copies. copies.items ≡ exports.now) }
    ensures err { OnErr result (0 < length exports.now) }
{
    let mut copies = Vec::new(alloc);
    copies.extend_from_slice(exports)?;
    Ok(copies)
}

#[tactic(auto, using(crate::proofs::Placed::codes_more))]
fn function_codes(alloc: Global, functions: &[Function]) -> Result<Vec<CodeFunction>, AllocError>
    ensures ok { IfOk result (λ codes. codes.items ≡ map function_code_of functions.now) }
    ensures err { OnErr result (0 < length functions.now) }
{
    let mut codes = Vec::new(alloc);
    for at in 0..functions.len() {
        codes.push(functions[at].code().copy(alloc)?)?;
    }
    Ok(codes)
}
