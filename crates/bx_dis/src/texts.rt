//! The texts of items.

ghost use Rattle.std.specs.Prelude.{◌≡◌, IfOk, string_bytes};
ghost use Rattle.bx_asm.specs.Numbered.{item_of};
ghost use Rattle.bx_listing.specs.Writing.{item_words};

use crate::operands::fill;
use bx_asm::Numbered;
use bx_listing::{Item, item_words};
use bx_terms::Atoms;
use std::alloc::{AllocError, Global};

/// The text of an item as a listing writes it, without its full stop.
///
/// It can only run out of memory.
pub fn item_text(alloc: Global, atoms: &Atoms, item: Numbered<'_>) -> Result<String, AllocError>
    ensures { IfOk result (λ text. string_bytes text ≡ item_words atoms.now (item_of item.entry)) }
{
    let mut operands = Vec::new(alloc);
    fill(alloc, &mut operands, item)?;
    item_words(
        alloc,
        atoms,
        Item {
            op: item.op,
            operands: &operands,
        },
    )
}
