//! Modules into an image.

ghost use Rattle.std.specs.Prelude.{◌≡◌, if◌then◌else◌, Ok, MatchResult, IfErr};
ghost use Rattle.std.specs.List.{list_any};
ghost use Rattle.bx_terms.specs.Outcomes.{Refuses};
ghost use Rattle.bx_terms.specs.declared.faults.Fault.TheVariants.{ExportMissing, Memory};
ghost use Rattle.bx_load.specs.Image.{is_atom};
ghost use Rattle.bx_load.specs.Loading.{has_twice, lacks_export, loaded, TakesMemory};

use crate::callees::Modules;
use crate::exports::lacks_export;
use crate::image::Image;
use crate::tables::tables_of;
use bx_asm::Unit;
use bx_terms::{AtomId, Atoms, Fault};
use std::alloc::Global;

/// How many modules an image can hold.
const MOST_MODULES: usize = 64;

/// Why modules were not loaded, and what was handed in.
#[derive(Drop)]
pub struct LoadRefused {
    pub fault: Fault,
    pub atoms: Atoms,
    pub units: Vec<Unit>,
}

/// The image of these modules, in this order, or the first fault with all that was handed in: R19 for over 64 modules,
/// then R17 for two of one name, then R18 for an export that names no function of its module.
///
/// The atoms are those of the units' listings. Memory may run out only where there is a module and none of these holds.
pub fn load(alloc: Global, atoms: Atoms, units: Vec<Unit>) -> Result<Image, LoadRefused>
    ensures answer { MatchResult result (λ image. loaded atoms units.items ≡ Ok image)
        (λ refused. Refuses (TakesMemory units.items) refused.fault (loaded atoms units.items)) }
    ensures handed_back { IfErr result (λ refused. (refused.atoms ≡ atoms) ×
        (refused.units ≡ units)) }
{
    let fault = if units.len() > MOST_MODULES {
        Fault::TooManyModules
    } else if has_twice(&units) {
        Fault::ModuleTwice
    } else {
        match tables_of(alloc, &units) {
            Ok(Some(tables)) => match Modules::of(&units, &tables).callees(alloc, &atoms) {
                Ok(callees) => return Ok(Image::new(atoms, units, tables, callees)),
                Err(_) => Fault::Memory,
            },
            Ok(None) => Fault::ExportMissing,
            Err(_) => unbuilt(&units),
        }
    };
    Err(LoadRefused {
        fault,
        atoms,
        units,
    })
}

/// Whether an export of one of these modules names no function of it.
fn any_lacks_export(units: &[Unit]) -> bool
    ensures { result ≡ list_any lacks_export units.now }
{
    units.iter().any(|unit| lacks_export(unit))
}

/// Why the tables of modules were not built: an export that names no function, which no memory is taken to see, goes before
/// out of memory.
fn unbuilt(units: &[Unit]) -> Fault
    ensures { result ≡ (if list_any lacks_export units.now then ExportMissing else Memory) }
{
    if any_lacks_export(units) {
        Fault::ExportMissing
    } else {
        Fault::Memory
    }
}

fn has_name(units: &[Unit], name: AtomId) -> bool
    ensures { result ≡ list_any (λ c. is_atom name c.name) units.now }
{
    units.iter().any(|unit| unit.name() == name)
}

/// Whether two modules have one name.
#[tactic(auto, using(std::proofs::lemmas::List::drop_more))]
fn has_twice(units: &[Unit]) -> bool
    ensures { result ≡ has_twice units.now }
{
    for (number, unit) in units.iter().enumerate() {
        if has_name(&units[number + 1..], unit.name()) {
            return true;
        }
    }
    false
}
