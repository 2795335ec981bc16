//! How much a copy of a world takes.

ghost use Rattle.std.specs.Prelude.{◌≤◌, min, map, sum_by};
ghost use Rattle.bx_world.specs.Cells.{life_cells, process_cells};
ghost use Rattle.bx_world.specs.Lives.{life};

use crate::slots::Slot;
use bx_proc::Proc;
use bx_share::Hold;

/// What a process takes beside what it holds.
const ITSELF: u64 = 16;

/// How many cells copies of these processes take, at the least.
pub(crate) fn lives_cells<P: Hold<Proc>>(slots: &[Slot<P>]) -> u64
    ensures { min (sum_by life_cells (map (life P.shown) slots.now)) 18446744073709551615 ≤ result }
{
    let mut cells: u64 = 0;
    for slot in slots {
        cells = cells.saturating_add(life_cells(slot));
    }
    cells
}

fn life_cells<P: Hold<Proc>>(slot: &Slot<P>) -> u64
    ensures { min (life_cells (life P.shown slot.now)) 18446744073709551615 ≤ result }
{
    match slot {
        Slot::Live(holder) => process_cells(holder.see()),
        Slot::Exited(_) => 1,
    }
}

/// What is free is copied too, and counts.
fn process_cells(process: &Proc) -> u64
    ensures { min (process_cells process.now) 18446744073709551615 ≤ result }
{
    let registers = process.registers().cells() as u64;
    let stack = process.stack().cells() as u64;
    let slots = process.messages().slots() as u64;
    let links = process.links().len() as u64;
    ITSELF
        .saturating_add(registers)
        .saturating_add(stack)
        .saturating_add(slots)
        .saturating_add(links)
}
