//! Operands and items, one by one.

ghost use Rattle.std.specs.Prelude.{◌≡◌, ◌++◌, [], IfOk, OnOk};
ghost use Rattle.bx_listing.specs.Code.{items};
ghost use Rattle.bx_asm.specs.Drafts.{at_number};
ghost use Rattle.bx_asm.specs.Numbered.{item_of, spelt_of};

use bx_asm::{Numbered, Spelt, Unit};
use bx_listing::{CodeFunction, Operand};
use std::alloc::{AllocError, Global};

/// The operand that is spelled; a literal is shared.
fn operand(alloc: Global, spelt: Spelt<'_>) -> Result<Operand, AllocError>
    ensures { IfOk result (λ operand. operand ≡ spelt_of spelt.entry) }
{
    Ok(match spelt {
        Spelt::X(number) => Operand::X(u32::from(number)),
        Spelt::Y(number) => Operand::Y(u32::from(number)),
        Spelt::Integer(value) => Operand::Integer(value),
        Spelt::Atom(atom) => Operand::Atom(atom),
        Spelt::Nil => Operand::Nil,
        Spelt::Literal(term) => Operand::Literal(term.copy(alloc)?),
        Spelt::Label(label) => Operand::Label(label),
        Spelt::NoLabel => Operand::NoLabel,
        Spelt::Place(label) => Operand::Place(label),
        Spelt::Number(number) => Operand::Number(number),
        Spelt::Arity(arity) => Operand::Arity(arity),
        Spelt::Import(import) => Operand::Import(import),
        Spelt::Bif(bif) => Operand::Bif(bif),
        Spelt::Amount(amount) => Operand::Amount(amount),
        Spelt::List(count) => Operand::List(count),
    })
}

/// Adds the operand of that number, where the item has one.
#[tactic(auto, using(crate::proofs::Rows::added_there, crate::proofs::Rows::added_nowhere))]
fn add_operand(
    alloc: Global,
    row: &mut Vec<Operand>,
    item: Numbered<'_>,
    number: usize,
) -> Result<(), AllocError>
    ensures { OnOk result (row.new.items ≡ row.old.items ++ at_number number
        (item_of item.entry).operands) }
{
    if let Some(spelt) = item.operand(number) {
        row.push(operand(alloc, spelt)?)?;
    }
    Ok(())
}

/// Puts an item's operands into an empty row.
#[tactic(auto, using(bx_asm::proofs::Growing::take_at))]
pub(crate) fn fill(
    alloc: Global,
    row: &mut Vec<Operand>,
    item: Numbered<'_>,
) -> Result<(), AllocError>
    requires { row.old.items ≡ [] }
    ensures { OnOk result (row.new.items ≡ (item_of item.entry).operands) }
{
    for number in 0..item.len() {
        add_operand(alloc, row, item, number)?;
    }
    Ok(())
}

/// Adds the item of that number of a unit to a function, where there is one. The row is room for its operands.
#[tactic(auto, using(crate::proofs::Rows::item_there, crate::proofs::Rows::no_item))]
pub(crate) fn add_item(
    alloc: Global,
    function: &mut CodeFunction,
    row: &mut Vec<Operand>,
    unit: &Unit,
    number: usize,
) -> Result<(), AllocError>
    requires { row.old.items ≡ [] }
    ensures added { OnOk result (function.new ≡ record function.old
        { items = function.old.items ++ at_number number (items unit.now) }) }
    ensures empty { OnOk result (row.new.items ≡ []) }
{
    if let Some(item) = unit.item(number) {
        fill(alloc, row, item)?;
        function.add(item.op(), row)?;
    }
    Ok(())
}
