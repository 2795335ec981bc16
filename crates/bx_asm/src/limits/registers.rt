//! Registers and frames.

ghost use Rattle.std.specs.Prelude.{◌≡◌, option_and_then, slice_get};
ghost use Rattle.std.specs.List.{list_all};
ghost use Rattle.bx_listing.specs.Items.{seen_item};
ghost use Rattle.bx_asm.specs.Limits.{first, is_register, is_frame, has_frame, has_registers, register_fault};

use bx_listing::{Function, Item, Operand};
use bx_ops::Op;

const LAST_REGISTER: u32 = 1022;

const MOST_IN_A_FRAME: u32 = 1023;

fn is_register(operand: &Operand) -> bool
    ensures { result ≡ is_register operand.now }
{
    match operand {
        Operand::X(number) | Operand::Y(number) => *number <= LAST_REGISTER,
        _ => true,
    }
}

fn are_registers(operands: &[Operand]) -> bool
    ensures { result ≡ list_all is_register operands.now }
{
    operands.iter().all(is_register)
}

fn is_frame(operands: &[Operand]) -> bool
    ensures { result ≡ is_frame operands.now }
{
    match operands {
        [Operand::Number(size), ..] => *size <= MOST_IN_A_FRAME,
        _ => true,
    }
}

fn has_registers(item: Item<'_>) -> bool
    ensures { result ≡ has_registers (seen_item item.entry) }
{
    are_registers(item.operands) && has_frame(item)
}

fn has_frame(item: Item<'_>) -> bool
    ensures { result ≡ has_frame item.entry.op item.entry.operands.now }
{
    match item.op {
        Op::Allocate | Op::AllocateHeap => is_frame(item.operands),
        _ => true,
    }
}

/// The line of the item of that number, where a register or a frame of it is out of range.
#[tactic(auto, using(crate::proofs::Registers::fault_there, crate::proofs::Registers::no_fault_there, crate::proofs::Registers::nothing_there))]
fn fault_at(function: &Function, number: usize) -> Option<usize>
    ensures { result ≡ option_and_then register_fault (slice_get function.now.items number) }
{
    let item = function.item(number)?;
    if has_registers(item) {
        return None;
    }
    function.lines().get(number).copied()
}

#[tactic(auto, using(crate::proofs::Firsts::first_at))]
fn fault_in(function: &Function) -> Option<usize>
    ensures { result ≡ first register_fault function.now.items }
{
    for number in 0..function.item_count() {
        if let Some(line) = fault_at(function, number) {
            return Some(line);
        }
    }
    None
}

/// The line of the first item with a register or a frame that is out of range.
#[tactic(auto, using(std::proofs::lemmas::List::drop_more))]
pub(crate) fn register_faults(functions: &[Function]) -> Option<usize>
    ensures { result ≡ first (λ f. first register_fault f.items) functions.now }
{
    for function in functions {
        if let Some(line) = fault_in(function) {
            return Some(line);
        }
    }
    None
}
