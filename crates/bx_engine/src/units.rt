//! The code of listings, file by file.

ghost use Rattle.std.specs.Prelude.{⊤, ◌≡◌, ◌∷◌, ◌++◌, [], List, ℕ, IfOk, IsTrue, OnOk, Some, map};
ghost use Rattle.bx_terms.specs.Outcomes.{Gives};
ghost use Rattle.bx_text.specs.Place.{place_in};
ghost use Rattle.bx_listing.specs.Forms.{forms, last_line};
ghost use Rattle.bx_listing.specs.Listing.{listing};
ghost use Rattle.bx_listing.specs.Reading.{Reads};
ghost use Rattle.bx_engine.specs.Sources.{located_in, sources_of};
ghost use Rattle.bx_engine.specs.Units.{ClearBefore, FileGives, FilesGive, in_file, sized, unit_in, unit_of, units_of};

use crate::failures::Failure;
use crate::inputs::read_input;
use crate::sources::Sources;
use bx_asm::{Unit, assemble};
use bx_listing::{Listing, Locations, read_listing, read_located};
use bx_terms::{Atoms, Fault};
use std::alloc::{AllocError, Global};
use std::io::Read;

/// The bytes of the file of that number, read whole.
pub(crate) fn read_file<R: Read>(
    alloc: Global,
    file: usize,
    reader: &mut R,
) -> Result<Vec<u8>, Failure>
    ensures { (text : List ℕ) → R.remaining reader.old ≡ Some text → FileGives
        (λ bytes. bytes.items) file result (sized file text) }
{
    match read_input(alloc, reader) {
        Ok(bytes) => Ok(bytes),
        Err(unread) => Err(unread.in_file(file)),
    }
}

/// The numbered code of a listing's text, whose atoms are numbered in `atoms`, and, where that is asked, where its items stand in
/// its sources.
fn unit_of(
    alloc: Global,
    atoms: &mut Atoms,
    text: &[u8],
    asked: bool,
) -> Result<(Unit, Locations), Fault>
    ensures read { Gives ⊤ (λ r. (atoms.new, r.0)) result (unit_of atoms.old text.now) }
    ensures located { IsTrue asked → IfOk result (λ r. r.1.items ≡ located_in text.now) }
{
    let (listing, locations) = match listing_of(alloc, atoms, text, asked) {
        Ok(read) => read,
        Err(fault) => return Err(fault),
    };
    match assemble(alloc, &listing) {
        Ok(unit) => Ok((unit, locations)),
        Err(fault) => Err(fault),
    }
}

/// The listing that a text is, and, where that is asked, where its items stand in its sources.
fn listing_of(
    alloc: Global,
    atoms: &mut Atoms,
    text: &[u8],
    asked: bool,
) -> Result<(Listing, Locations), Fault>
    ensures read { Reads ⊤ (λ r. r.0) atoms.old atoms.new result
        (listing (last_line text.now) (forms (place_in text.now 0))) }
    ensures located { IsTrue asked → IfOk result (λ r. r.1.items ≡ located_in text.now) }
{
    if asked {
        return read_located(alloc, atoms, text);
    }
    match read_listing(alloc, atoms, text) {
        Ok(listing) => Ok((listing, Locations::new(alloc))),
        Err(fault) => Err(fault),
    }
}

/// The numbered code of the text of the file of that number.
fn unit_in(
    alloc: Global,
    atoms: &mut Atoms,
    file: usize,
    text: &[u8],
    asked: bool,
) -> Result<(Unit, Locations), Failure>
    ensures read { FileGives (λ r. (atoms.new, r.0)) file result
        (in_file file (unit_of atoms.old text.now)) }
    ensures located { IsTrue asked → IfOk result (λ r. r.1.items ≡ located_in text.now) }
{
    match unit_of(alloc, atoms, text, asked) {
        Ok(unit) => Ok(unit),
        Err(fault) => Err(Failure::in_file(fault, file)),
    }
}

/// Reads the listing of that number whole, and numbers its code: the code, and, where that is asked, where its items stand in its
/// sources.
pub(crate) fn read_unit<R: Read>(
    alloc: Global,
    atoms: &mut Atoms,
    file: usize,
    listing: &mut R,
    asked: bool,
) -> Result<(Unit, Locations), Failure>
    ensures read { (text : List ℕ) → R.remaining listing.old ≡ Some text
        → FileGives (λ r. (atoms.new, r.0)) file result (unit_in file atoms.old text) }
    ensures located { IsTrue asked → (text : List ℕ) → R.remaining listing.old ≡ Some text
        → IfOk result (λ r. r.1.items ≡ located_in text) }
{
    let text = match read_file(alloc, file, listing) {
        Ok(text) => text,
        Err(failure) => return Err(failure),
    };
    unit_in(alloc, atoms, file, &text, asked)
}

/// The numbered code of each listing in order, and, where that is asked, where their items stand in their sources; or the first
/// fault: each is read and assembled before the next is looked at.
pub(crate) fn units_of<R: Read>(
    alloc: Global,
    atoms: &mut Atoms,
    listings: &mut [R],
    asked: bool,
) -> Result<(Vec<Unit>, Sources), Failure>
    ensures read { (given : List (List ℕ)) → map R.remaining listings.old ≡ map (λ text. Some text) given
        → FilesGive (λ r. (atoms.new, r.0.items)) result (ClearBefore atoms.old given) (units_of atoms.old given) }
    ensures located { IsTrue asked → (given : List (List ℕ)) → map R.remaining listings.old ≡ map (λ text. Some text) given
        → IfOk result (λ r. r.1 ≡ sources_of given) }
{
    let mut units = Vec::new(alloc);
    let mut sources = Sources::new(alloc);
    for (file, listing) in listings.iter_mut().enumerate() {
        match read_unit(alloc, atoms, file, listing, asked) {
            Ok(read) => keep(&mut units, &mut sources, read)?,
            Err(failure) => return Err(failure),
        }
    }
    Ok((units, sources))
}

/// Puts a unit and its locations behind the others.
fn keep(
    units: &mut Vec<Unit>,
    sources: &mut Sources,
    read: (Unit, Locations),
) -> Result<(), AllocError>
    ensures unit { OnOk result (units.new.items ≡ units.old.items ++ read.0 ∷ []) }
    ensures located { OnOk result (sources.new ≡ sources.old ++ read.1.items ∷ []) }
{
    let (unit, locations) = read;
    units.push(unit)?;
    sources.push(locations)
}
