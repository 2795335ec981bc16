//! The image of the listings, and the plan.

ghost use Rattle.std.specs.Prelude.{◌≡◌, List, ℕ, IfOk, IsTrue, Some, map};
ghost use Rattle.bx_terms.specs.FixedAtoms.{fixed_atoms};
ghost use Rattle.bx_plan.specs.Planned.{schedules};
ghost use Rattle.bx_plan.specs.Plans.{plan_of};
ghost use Rattle.bx_engine.specs.Sources.{sources_of};
ghost use Rattle.bx_engine.specs.Units.{ClearBefore, FileGives, FilesGive, in_file};
ghost use Rattle.bx_engine.specs.Loads.{image_of, plan_in};

use crate::failures::Failure;
use crate::sources::Sources;
use crate::units::{read_file, units_of};
use bx_load::{Image, load};
use bx_plan::{Plan, read_plan};
use bx_terms::Atoms;
use std::alloc::Global;
use std::io::Read;

/// The image of the listings' modules, loaded together once each is read and assembled, or the first fault.
pub fn image_of<R: Read>(alloc: Global, listings: &mut [R]) -> Result<Image, Failure>
    ensures { (given : List (List ℕ)) → map R.remaining listings.old ≡ map (λ text. Some text) given
        → FilesGive (λ image. image) result (ClearBefore fixed_atoms given) (image_of given) }
{
    match loaded(alloc, listings, false) {
        Ok((image, _)) => Ok(image),
        Err(failure) => Err(failure),
    }
}

/// The same image, and where the items of its modules stand in their sources, which the image does not hold.
pub fn located_image_of<R: Read>(
    alloc: Global,
    listings: &mut [R],
) -> Result<(Image, Sources), Failure>
    ensures loaded { (given : List (List ℕ)) → map R.remaining listings.old ≡ map (λ text. Some text) given
        → FilesGive (λ r. r.0) result (ClearBefore fixed_atoms given) (image_of given) }
    ensures located { (given : List (List ℕ)) → map R.remaining listings.old ≡ map (λ text. Some text) given
        → IfOk result (λ r. r.1 ≡ sources_of given) }
{
    loaded(alloc, listings, true)
}

/// The image, and, where that is asked, where the items of its modules stand in their sources.
fn loaded<R: Read>(
    alloc: Global,
    listings: &mut [R],
    asked: bool,
) -> Result<(Image, Sources), Failure>
    ensures loaded { (given : List (List ℕ)) → map R.remaining listings.old ≡ map (λ text. Some text) given
        → FilesGive (λ r. r.0) result (ClearBefore fixed_atoms given) (image_of given) }
    ensures located { IsTrue asked → (given : List (List ℕ)) → map R.remaining listings.old ≡ map (λ text. Some text) given
        → IfOk result (λ r. r.1 ≡ sources_of given) }
{
    let mut atoms = match Atoms::new(alloc) {
        Ok(atoms) => atoms,
        Err(fault) => return Err(Failure::Refused(fault, None)),
    };
    let (units, sources) = match units_of(alloc, &mut atoms, listings, asked) {
        Ok(units) => units,
        Err(failure) => return Err(failure),
    };
    match load(alloc, atoms, units) {
        Ok(image) => Ok((image, sources)),
        Err(refused) => Err(Failure::Refused(refused.fault, None)),
    }
}

/// The plan in the file of that number, read whole before it is looked at.
pub fn plan_in<R: Read>(alloc: Global, file: usize, reader: &mut R) -> Result<Plan, Failure>
    ensures { (text : List ℕ) → R.remaining reader.old ≡ Some text → FileGives
        (λ plan. schedules plan) file result (plan_in file text) }
{
    let text = match read_file(alloc, file, reader) {
        Ok(text) => text,
        Err(failure) => return Err(failure),
    };
    planned(alloc, file, &text)
}

/// The plan that the text in the file of that number is.
pub(crate) fn planned(alloc: Global, file: usize, text: &[u8]) -> Result<Plan, Failure>
    ensures { FileGives (λ plan. schedules plan) file result (in_file file (plan_of text.now)) }
{
    match read_plan(alloc, text) {
        Ok(plan) => Ok(plan),
        Err(fault) => Err(Failure::in_file(fault, file)),
    }
}
