//! Deep copies of registers.

ghost use Rattle.std.specs.Prelude.{◌≡◌, IfOk};

use crate::values::Value;
use bx_terms::take_room;
use std::alloc::{AllocError, Global};

/// A deep copy of a row of registers. It takes one of the room for each.
#[tactic(auto, using(std::proofs::lemmas::List::take_more))]
pub(crate) fn deep_copy_cells(
    alloc: Global,
    room: &mut usize,
    cells: &[Option<Value>],
) -> Result<Vec<Option<Value>>, AllocError>
    ensures { IfOk result (λ row. row.items ≡ cells.now) }
{
    take_room(room, cells.len())?;
    let mut row = Vec::with_capacity(alloc, cells.len())?;
    for at in 0..cells.len() {
        let cell = deep_copy_cell(alloc, room, &cells[at])?;
        row.push(cell)?;
    }
    Ok(row)
}

fn deep_copy_cell(
    alloc: Global,
    room: &mut usize,
    cell: &Option<Value>,
) -> Result<Option<Value>, AllocError>
    ensures { IfOk result (λ other. other ≡ cell.now) }
{
    match cell {
        Some(value) => Ok(Some(value.deep_copy(alloc, room)?)),
        None => Ok(None),
    }
}
