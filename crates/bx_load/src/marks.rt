//! The items of one module: marks, and labels.

ghost use Rattle.std.specs.Prelude.{◌≡◌, is_some, option_and_then, slice_get};
ghost use Rattle.bx_listing.specs.Code.{items};
ghost use Rattle.bx_asm.specs.Marks.{label_of};
ghost use Rattle.bx_load.specs.Image.{is_mark, unmarked};
ghost use Rattle.bx_load.specs.Items.{passes_at};

use bx_asm::Unit;

#[inline(always)]
pub(crate) fn is_mark_at(unit: &Unit, number: u32) -> bool
    ensures { result ≡ passes_at is_mark (items unit.now) number }
{
    match unit.item(number as usize) {
        Some(item) => item.is_mark(),
        None => false,
    }
}

/// Whether there is an item of that number that is no mark.
pub(crate) fn has_instruction_in(unit: &Unit, number: u32) -> bool
    ensures { result ≡ is_some (option_and_then unmarked (slice_get (items unit.now) number)) }
{
    match unit.item(number as usize) {
        Some(item) => !item.is_mark(),
        None => false,
    }
}

/// The label that the item of that number is.
pub(crate) fn label_at(unit: &Unit, number: u32) -> Option<u32>
    ensures { result ≡ option_and_then label_of (slice_get (items unit.now) number) }
{
    unit.item(number as usize)?.label()
}
