//! Where calls of a module's exported functions begin.

ghost use Rattle.std.specs.Prelude.{◌≡◌, ℕ, IfOk, OnOk, MatchOption, true, false};
ghost use Rattle.std.specs.List.{list_any};
ghost use Rattle.bx_terms.specs.declared.atom_table.AtomId.{AtomId as Name};
ghost use Rattle.bx_listing.specs.Code.{items};
ghost use Rattle.bx_asm.specs.Limits.{or_else};
ghost use Rattle.bx_load.specs.Exports.{found, exported_item, led};
ghost use Rattle.bx_load.specs.Heads.{head_entry, entry_if, is_head};
ghost use Rattle.bx_load.specs.Image.{is_export, entry_of, target_in};
ghost use Rattle.bx_load.specs.Labels.{leads_to};
ghost use Rattle.bx_load.specs.Loading.{is_missing, lacks_export};

use crate::by_name::ByName;
use crate::labels::Labels;
use bx_asm::{Head, Unit};
use bx_listing::Export;
use bx_terms::AtomId;
use std::alloc::{AllocError, Global};

/// Puts in a function's entry, where there is none of that name and arity yet.
#[tactic(auto, using(crate::proofs::ExportSteps::kept_first, crate::proofs::ExportSteps::put_first))]
fn add_first(entries: &mut ByName, head: &Head) -> Result<(), AllocError>
    ensures { OnOk result ((f : Name) (a : ℕ) → found entries.new f a ≡ or_else
        (found entries.old f a) (entry_if f a head.now)) }
{
    let known = entries.get(head.name, head.arity);
    if known.is_some() {
        return Ok(());
    }
    entries.set(head.name, head.arity, head.entry)
}

/// The entries of functions; of two with one name and arity, the first counts.
#[tactic(auto, using(crate::proofs::ExportSteps::all_entries))]
fn head_entries(alloc: Global, functions: &[Head]) -> Result<ByName, AllocError>
    ensures { IfOk result (λ entries. (f : Name) (a : ℕ) → found entries f a ≡ head_entry f a
        functions.now) }
{
    let mut entries = ByName::new(alloc);
    for function in functions {
        add_first(&mut entries, function)?;
    }
    Ok(entries)
}

/// The entries of a module's functions.
#[tactic(auto, using(crate::proofs::FunctionHeads::entry_of_heads))]
fn entries_of(alloc: Global, unit: &Unit) -> Result<ByName, AllocError>
    ensures { IfOk result (λ entries. (f : Name) (a : ℕ) → found entries f a ≡ entry_of f a
        unit.now.functions) }
{
    head_entries(alloc, unit.functions())
}

/// Puts in the item at which calls of an exported function begin, where there is one.
fn add_export(exports: &mut ByName, export: &Export, item: Option<u32>) -> Result<(), AllocError>
    ensures { OnOk result ((f : Name) (a : ℕ) → found exports.new f a ≡ led item
        (is_export f a export.now) (found exports.old f a)) }
{
    match item {
        Some(item) => exports.set(export.function, export.arity, item),
        None => Ok(()),
    }
}

/// The items at which calls of a module's exports begin; none where an export names no function of the module.
pub(crate) fn exports_of(
    alloc: Global,
    unit: &Unit,
    labels: &Labels,
) -> Result<Option<ByName>, AllocError>
    requires { (n : ℕ) → leads_to labels.now n ≡ target_in (items unit.now) n }
    ensures { IfOk result (λ exports. MatchOption exports (lacks_export unit.now ≡ true)
        (λ table. (lacks_export unit.now ≡ false) ×
        ((f : Name) (a : ℕ) → found table f a ≡ exported_item f a unit.now))) }
{
    let entries = entries_of(alloc, unit)?;
    let mut exports = ByName::new(alloc);
    let offered = unit.exports();
    for export in offered {
        match entries.get(export.function, export.arity) {
            Some(entry) => add_export(&mut exports, export, labels.get(entry))?,
            None => return Ok(None),
        }
    }
    Ok(Some(exports))
}

/// Whether one of these functions has that name and arity.
fn has_head(functions: &[Head], function: AtomId, arity: u32) -> bool
    ensures { result ≡ list_any (is_head function arity) functions.now }
{
    functions
        .iter()
        .any(|head| head.name == function && head.arity == arity)
}

/// Whether the module has no function of that name and arity.
#[tactic(auto, using(crate::proofs::FunctionHeads::any_head))]
fn is_missing(unit: &Unit, export: &Export) -> bool
    ensures { result ≡ is_missing unit.now.functions export.now }
{
    !has_head(unit.functions(), export.function, export.arity)
}

/// Whether an export names no function of the module. They are looked for one by one, which takes no memory.
pub(crate) fn lacks_export(unit: &Unit) -> bool
    ensures { result ≡ lacks_export unit.now }
{
    unit.exports().iter().any(|export| is_missing(unit, export))
}
