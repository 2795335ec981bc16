//! The parts of an image once more, for a thread of its own.

ghost use Rattle.std.specs.Prelude.{◌≡◌, IfOk};

use bx_asm::Unit;
use bx_terms::{AtomId, Atoms};
use std::alloc::{AllocError, Global};

/// Deep copies of these modules.
#[tactic(auto, using(std::proofs::lemmas::List::take_more))]
pub(crate) fn deep_copy_units(
    alloc: Global,
    room: &mut usize,
    units: &[Unit],
) -> Result<Vec<Unit>, AllocError>
    ensures { IfOk result (λ copies. copies.items ≡ units.now) }
{
    let mut copies = Vec::with_capacity(alloc, units.len())?;
    for at in 0..units.len() {
        let copy = units[at].deep_copy(alloc, room)?;
        copies.push(copy)?;
    }
    Ok(copies)
}

/// The same table of atoms once more.
pub(crate) fn atoms_again(alloc: Global, atoms: &Atoms) -> Result<Atoms, AllocError>
    ensures { IfOk result (λ copy. copy ≡ atoms.now) }
{
    let copy = named_again(alloc, atoms)?;
    if copy.same(atoms) {
        Ok(copy)
    } else {
        Err(AllocError) // not reached: the same names in the same order have the same numbers
    }
}

fn named_again(alloc: Global, atoms: &Atoms) -> Result<Atoms, AllocError> {
    let Ok(mut copy) = Atoms::new(alloc) else {
        return Err(AllocError);
    };
    for number in 0..atoms.len() {
        let Some(text) = atoms.text(AtomId(number as u32)) else {
            return Err(AllocError);
        };
        let Ok(_) = copy.name(alloc, text) else {
            return Err(AllocError);
        };
    }
    Ok(copy)
}
