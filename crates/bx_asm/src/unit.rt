//! A module's numbered code.

ghost use Rattle.std.specs.Prelude.{◌≡◌, ◌≤◌, ◌+◌, ◌++◌, IfOk, OnOk, None, map, length, option_map, option_and_then, slice_get};
ghost use Rattle.bx_listing.specs.Code.{items, code, items_of};
ghost use Rattle.bx_asm.specs.Drafts.{Grows, all_items, head_of, at_number};
ghost use Rattle.bx_asm.specs.Limits.{first, register_fault, register_faults, count};
ghost use Rattle.bx_asm.specs.Numbered.{item_of};

use crate::deep_copies::copy_items;
use crate::lookup::{Lookup, Named};
use crate::numbered::Numbered;
use crate::numbering::Draft;
use crate::operands::NumberedItem;
use bx_listing::{Export, Function, Import, Listing};
use bx_terms::{AtomId, take_room};
use indexmap::IndexSet;
use std::alloc::{AllocError, Global};
use std::marker::Model;

/// A function of a unit: its items are the next `count` of the unit's.
#[derive(Clone, Copy, Debug, PartialEq, Eq)]
pub struct Head {
    pub name: AtomId,
    pub arity: u32,
    pub entry: u32,
    pub count: u32,
}

/// A module's code as opcode numbers with operands, and the tables of what the operands name.
///
/// A clause sees a unit as the code form that its numbers and tables spell.
#[derive(Debug, Drop)]
pub struct Unit {
    name: AtomId,
    exports: Vec<Export>,
    heads: Vec<Head>,
    items: Vec<NumberedItem>,
    named: Named,
}

impl Model for Unit {
    ghost use Rattle.std.specs.Prelude.{map};
    ghost use Rattle.bx_listing.specs.Code.{Code, code_code};
    ghost use Rattle.bx_listing.specs.Items.{item_code};
    ghost use Rattle.bx_terms.specs.contracts.atom_table.AtomId as atom;
    ghost use Rattle.bx_listing.specs.contracts.code_form.Export as export;
    ghost use Rattle.bx_ops.specs.contracts.opcode.Op as op;
    ghost use Rattle.bx_listing.specs.contracts.items.Operand as operand;

    ghost Value = { Code };

    ghost coded = { code_code atom.the_row.coded export.the_row.coded
        (item_code op.the_row.coded operand.the_row.coded) };

    ghost use Rattle.bx_asm.specs.Spelling.{spelled_item};
    ghost use Rattle.bx_asm.specs.Unit.{functions, IsUnit};

    ghost view = { λ u. record {
      name = u.name;
      exports = u.exports.items;
      functions = functions
          u.heads.items (map (spelled_item
          (record { literals = u.named.literals.items; imports = u.named.imports.keys }))
          u.items.items);
    } };

    ghost invariant = { λ u. IsUnit u.heads.items u.items.items };
}

impl Unit {
    ghost use Rattle.bx_asm.specs.Unit.{code_head, total};

    /// The numbered code of a listing whose sizes and registers are in range, which calls those functions by name.
    pub(crate) fn of(
        alloc: Global,
        listing: &Listing,
        imports: IndexSet<Import>,
    ) -> Result<Unit, AllocError>
        requires few { count listing.now.functions ≤ 1000000 }
        requires registers { register_faults listing.now ≡ None }
        ensures { IfOk result (λ u. u ≡ code listing.now) }
    {
        let mut draft = Draft::new(alloc, imports);
        let mut heads = Vec::new(alloc);
        add_functions(alloc, &mut draft, &mut heads, listing.functions())?;
        let exports = Vec::from_slice(alloc, listing.exports())?;
        let Draft {
            items,
            literals,
            imports,
        } = draft;
        Ok(Unit {
            name: listing.module(),
            exports,
            heads,
            items,
            named: Named { literals, imports },
        })
    }

    /// A deep copy: the same code, whose literals share nothing with this unit's. A copy of a literal of the one counts nothing
    /// that a copy of the other's does.
    ///
    /// It may hold as many exports, functions, items, operands, imports, literals, and list cells and elements of these, as there
    /// is room, which it takes. Past that it answers as where memory runs out.
    pub fn deep_copy(&self, alloc: Global, room: &mut usize) -> Result<Unit, AllocError>
        ensures { IfOk result (λ u. u ≡ self.now) }
    {
        take_room(room, self.exports.len())?;
        let exports = Vec::from_slice(alloc, &self.exports)?;
        take_room(room, self.heads.len())?;
        let heads = Vec::from_slice(alloc, &self.heads)?;
        let items = copy_items(alloc, room, &self.items)?;
        let named = self.named.deep_copy(alloc, room)?;
        Ok(Unit {
            name: self.name,
            exports,
            heads,
            items,
            named,
        })
    }

    /// The module's name.
    pub fn name(&self) -> AtomId
        ensures { result ≡ self.now.name }
    {
        self.name
    }

    /// The functions that it exports, in order.
    pub fn exports(&self) -> &[Export]
        ensures { result.now ≡ self.now.exports }
    {
        self.exports.as_slice()
    }

    /// Its functions, each with how many items are its own, in order.
    #[tactic(auto, using(crate::proofs::Units::heads_of_functions))]
    pub fn functions(&self) -> &[Head]
        ensures heads { result.now ≡ map code_head self.now.functions }
        ensures few { total result.now ≤ 1000000 }
    {
        self.heads.as_slice()
    }

    /// How many items its functions have, at most 1,000,000.
    #[inline(always)]
    #[tactic(auto, using(crate::proofs::Units::length_of_items))]
    pub fn item_count(&self) -> usize
        ensures count { result ≡ length (items self.now) }
        ensures few { result ≤ 1000000 }
    {
        self.items.len()
    }

    /// The tables that its items name; what a unit's clauses see is its code alone.
    pub fn lookup(&self) -> Lookup<'_> {
        Lookup { named: &self.named }
    }

    /// The item of this number, from 0; `None` past the last.
    #[inline(always)]
    #[tactic(auto, using(crate::proofs::Units::item_at, crate::proofs::Units::no_item_at))]
    pub fn item(&self, number: usize) -> Option<Numbered<'_>>
        ensures { option_map item_of result ≡ slice_get (items self.now) number }
    {
        if number >= self.items.len() {
            return None;
        }
        let item = &self.items[number];
        Some(Numbered {
            op: item.op,
            operands: item.operands.as_slice(),
            tables: Lookup { named: &self.named },
        })
    }
}

/// Numbers the items of all functions, and notes how many each has.
fn add_functions(
    alloc: Global,
    draft: &mut Draft,
    heads: &mut Vec<Head>,
    functions: &[Function],
) -> Result<(), AllocError>
    requires few { length draft.old.items.items + count functions.now ≤ 1000000 }
    requires registers { first (λ f. first register_fault f.items) functions.now ≡ None }
    ensures items { OnOk result (Grows draft.old draft.new (all_items functions.now)) }
    ensures heads { OnOk result (heads.new.items ≡ heads.old.items ++ map head_of functions.now) }
{
    for function in functions {
        add_items(alloc, draft, function)?;
        heads.push(make_head(function))?;
    }
    Ok(())
}

/// Numbers the items of a function.
fn add_items(alloc: Global, draft: &mut Draft, function: &Function) -> Result<(), AllocError>
    requires { first register_fault function.now.items ≡ None }
    ensures { OnOk result (Grows draft.old draft.new (items_of function.now.items)) }
{
    for number in 0..function.item_count() {
        add_item(alloc, draft, function, number)?;
    }
    Ok(())
}

/// Numbers the item of that number, where there is one.
#[tactic(auto, using(crate::proofs::Growing::registers_there, crate::proofs::Growing::grows_there, crate::proofs::Growing::grows_nowhere))]
fn add_item(
    alloc: Global,
    draft: &mut Draft,
    function: &Function,
    number: usize,
) -> Result<(), AllocError>
    requires { option_and_then register_fault (slice_get function.now.items number) ≡ None }
    ensures { OnOk result
        (Grows draft.old draft.new (at_number number (items_of function.now.items))) }
{
    match function.item(number) {
        Some(item) => draft.add(alloc, item),
        None => Ok(()),
    }
}

/// A function's name and entry, and how many items are its own.
fn make_head(function: &Function) -> Head
    requires { length function.now.items ≤ 1000000 }
    ensures { result ≡ head_of function.now }
{
    Head {
        name: function.name(),
        arity: function.arity(),
        entry: function.entry(),
        count: function.item_count() as u32,
    }
}
