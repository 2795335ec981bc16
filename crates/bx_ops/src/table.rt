//! What the table says of each opcode, and look-ups.
ghost use Rattle.std.specs.Prelude.{◌≡◌, ◌==◌, ◌&&◌, bytes_eq, length};
ghost use Rattle.bx_ops.specs.Rows.{first_with, op_in, said_of_op};
ghost use Rattle.bx_ops.specs.Classes.{is_local as local_op};
ghost use Rattle.bx_ops.specs.Opcodes.{opcode, with_number, with_name};
ghost use Rattle.bx_ops.specs.Table.{slots, way, arity, with_name_and_arity};

use crate::opcode::{Op, ROWS, Row, row_of};
use crate::sorts::{Slot, Way};

/// The opcode's number, from 1 to 172.
pub fn number(op: Op) -> u32
    ensures { result ≡ (opcode op).number }
{
    row_of(op).1
}

/// The instruction's name, as `genop.tab` spells it.
pub fn name(op: Op) -> &'static str
    ensures { result.now ≡ (opcode op).name }
{
    row_of(op).2
}

/// How an opcode is written.
pub fn way(op: Op) -> Way
    ensures { result ≡ way op }
{
    row_of(op).3
}

/// The operands of an opcode, in the order in which they are written.
pub fn slots(op: Op) -> &'static [Slot]
    ensures { result.now ≡ slots op }
{
    row_of(op).4
}

/// The arity: how many operands the instruction has, from 0 to 6. A test's label and each argument of a BIF count.
pub fn shape(op: Op) -> usize
    ensures { result ≡ arity op }
{
    slots(op)
        .iter()
        .filter(|slot| !matches!(slot, Slot::NoLabel | Slot::ToX0))
        .count()
}

/// Whether a run of the instruction concerns only the process that runs it: false for `send`, `call_ext`,
/// `call_ext_last` and `call_ext_only`, true for all others.
pub fn is_local(op: Op) -> bool
    ensures { result ≡ local_op op }
{
    !matches!(
        op,
        Op::Send | Op::CallExt | Op::CallExtLast | Op::CallExtOnly
    )
}

/// The opcode with the number; `None` where no opcode of the subset has it.
pub fn op_by_number(number: u32) -> Option<Op>
    ensures { result ≡ with_number number }
{
    numbered(ROWS, number)
}

#[tactic(auto, unfolding(crate::specs::Rows::first_with))]
fn numbered(rows: &[Row], number: u32) -> Option<Op>
    ensures { result ≡ first_with op_in said_of_op (λ row. row.number == number) rows.now }
{
    let row = rows.iter().find(|row| row.1 == number)?;
    Some(row.0)
}

/// The opcode with the name, whatever its arity; `None` where no opcode of the subset has it.
pub fn op_named(text: &str) -> Option<Op>
    ensures { result ≡ with_name text.now }
{
    named(ROWS, text)
}

#[tactic(auto, unfolding(crate::specs::Rows::first_with))]
fn named(rows: &[Row], text: &str) -> Option<Op>
    ensures { result ≡ first_with op_in said_of_op
        (λ row. (length row.name == length text.now) && bytes_eq row.name text.now) rows.now }
{
    let row = rows
        .iter()
        .find(|row| row.2.len() == text.len() && row.2 == text)?;
    Some(row.0)
}

/// The opcode with the name and the arity; `None` where no opcode of the subset has both.
pub fn op_by_name(text: &str, arity: usize) -> Option<Op>
    ensures { result ≡ with_name_and_arity text.now arity }
{
    op_named(text).filter(|op| shape(*op) == arity)
}
