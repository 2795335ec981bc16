//! A listing to numbered code.

ghost use Rattle.bx_terms.specs.Outcomes.{Gives};
ghost use Rattle.bx_asm.specs.Limits.{assembled};
ghost use Rattle.bx_asm.specs.Taking.{TakesMemory};

use crate::limits::{
    entry_faults, imports_of, is_within, labels_of, register_faults, target_faults,
};
use crate::unit::Unit;
use bx_listing::Listing;
use bx_terms::Fault;
use std::alloc::Global;

const MOST_IMPORTS: usize = 65_535;

/// The numbered code of a listing, or the first fault: R16, R15, R12, R13, R14 in this order, each over the whole listing, the
/// first in item order.
///
/// Memory may run out only where the listing calls a function by its name and is within all other limits of size, where it has
/// a label that is looked at, or where it has no fault.
pub fn assemble(alloc: Global, listing: &Listing) -> Result<Unit, Fault>
    ensures { Gives (TakesMemory listing.now) (λ u. u) result (assembled listing.now) }
{
    if !is_within(listing) {
        return Err(Fault::TooLarge);
    }
    let functions = listing.functions();
    let imports = imports_of(alloc, functions)?;
    if imports.len() > MOST_IMPORTS {
        return Err(Fault::TooLarge);
    }
    if let Some(line) = register_faults(functions) {
        return Err(Fault::RegisterRange { line });
    }
    let labels = labels_of(alloc, functions)?;
    if let Some(label) = target_faults(&labels, functions) {
        return Err(Fault::LabelMissing { label });
    }
    if let Some(function) = entry_faults(functions) {
        return Err(Fault::EntryMissing { function });
    }
    let unit = Unit::of(alloc, listing, imports)?;
    Ok(unit)
}
