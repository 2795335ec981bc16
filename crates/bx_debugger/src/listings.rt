//! `list M:F/A`: the items of a function.

ghost use Rattle.std.specs.Prelude.{◌≡◌, ◌++◌, ◌-◌, OnOk, Some, codes, string_bytes};
ghost use Rattle.bx_debugger.specs.Functions.{item_lines, list_answer};
ghost use Rattle.bx_debugger.specs.Words.{here_words};

use crate::programs::Program;
use crate::words::push_here;
use bx_terms::Place;
use std::alloc::{AllocError, Global};

/// Adds the line of an item.
fn push_item_line(
    alloc: Global,
    out: &mut String,
    program: &Program<'_>,
    place: Place,
) -> Result<(), AllocError>
    ensures { OnOk result (string_bytes out.new
        ≡ string_bytes out.old ++ (here_words program.now (Some place) ++ codes "\n")) }
{
    push_here(alloc, out, program, Some(place))?;
    out.push_str("\n")
}

/// Adds the items of a module from one number up to another, a line each.
fn push_items(
    alloc: Global,
    out: &mut String,
    program: &Program<'_>,
    first: Place,
    past: u32,
) -> Result<(), AllocError>
    ensures { OnOk result (string_bytes out.new
        ≡ string_bytes out.old ++ item_lines program.now first.«module» first.item (past - first.item)) }
{
    for item in first.item..past {
        let place = Place {
            module: first.module,
            item,
        };
        push_item_line(alloc, out, program, place)?;
    }
    Ok(())
}

/// Adds the answer to `list`: the items from an address up to a number, and `end`.
pub(crate) fn push_list(
    alloc: Global,
    out: &mut String,
    program: &Program<'_>,
    first: Place,
    past: u32,
) -> Result<(), AllocError>
    ensures { OnOk result (string_bytes out.new
        ≡ string_bytes out.old ++ list_answer program.now first.«module» first.item past) }
{
    push_items(alloc, out, program, first, past)?;
    out.push_str("end\n")
}
