//! `dis`: the code form of a listing.

ghost use Rattle.std.specs.Prelude.{⊤, ◌≡◌, ◌⊎◌, List, ℕ, IfErr, Ok, Some, string_bytes};
ghost use Rattle.std.specs.Io.KnownBytes.{Keeps};
ghost use Rattle.bx_terms.specs.Outcomes.{Gives};
ghost use Rattle.bx_listing.specs.Writing.{code_text};
ghost use Rattle.bx_engine.specs.Units.{FileGives};
ghost use Rattle.bx_engine.specs.Listings.{dis_of};
ghost use Rattle.bx_engine.specs.Runs.{Writes};

use crate::failures::Failure;
use crate::units::read_unit;
use bx_asm::Unit;
use bx_dis::disassemble;
use bx_listing::write_listing;
use bx_terms::{Atoms, Fault};
use std::alloc::Global;
use std::io::{Read, Write};

/// The listing that a unit's numbers and tables spell.
fn spelled(alloc: Global, atoms: &Atoms, unit: &Unit) -> Result<String, Fault>
    ensures { Gives ⊤ (λ text. string_bytes text) result (Ok (code_text atoms.now unit.now)) }
{
    match disassemble(alloc, unit) {
        Ok(code) => write_listing(alloc, atoms, &code),
        Err(fault) => Err(fault),
    }
}

/// The code form of the listing that a reader has, or its first fault.
fn text_of<R: Read>(alloc: Global, listing: &mut R) -> Result<String, Failure>
    ensures { (given : List ℕ) → R.remaining listing.old ≡ Some given
        → FileGives (λ text. string_bytes text) 0 result (dis_of given) }
{
    let mut atoms = match Atoms::new(alloc) {
        Ok(atoms) => atoms,
        Err(fault) => return Err(Failure::Refused(fault, None)),
    };
    let (unit, _) = match read_unit(alloc, &mut atoms, 0, listing, false) {
        Ok(read) => read,
        Err(failure) => return Err(failure),
    };
    match spelled(alloc, &atoms, &unit) {
        Ok(text) => Ok(text),
        Err(fault) => Err(Failure::Refused(fault, None)),
    }
}

/// Writes the code form of a listing, each form on a line of its own: what the listing's code spells once it is numbered.
///
/// The failure is the listing's first: it can't be read, or it is refused, 1 to 11 when it is read and 12 to 16 when it is
/// assembled. Nothing is written then, whatever the reader is. Memory may run out at any time, and is not the file's fault.
pub fn dis_text<R: Read, W: Write>(
    alloc: Global,
    listing: &mut R,
    writer: &mut W,
) -> Result<(), Failure>
    ensures written { (given : List ℕ) → R.remaining listing.old ≡ Some given
        → Writes ⊤ (W.contents writer.old) (W.contents writer.new) result (λ file. file ≡ 0) (dis_of given) }
    ensures unwritten { IfErr result (λ failure. (failure ≡ Failure.Write)
        ⊎ Keeps (W.contents writer.old) (W.contents writer.new)) }
{
    let text = match text_of(alloc, listing) {
        Ok(text) => text,
        Err(failure) => return Err(failure),
    };
    match writer.write_all(text.as_bytes()) {
        Ok(()) => Ok(()),
        Err(_) => Err(Failure::Write),
    }
}
