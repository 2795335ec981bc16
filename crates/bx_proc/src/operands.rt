//! What the operands of a row are. What is spelled otherwise is no instruction: the trap `BadPlace`.

ghost use Rattle.std.specs.Prelude.{◌≡◌, None, Some, MatchResult};
ghost use Rattle.bx_asm.specs.Meaning.{as_register, as_label, as_y, as_fail, as_bif, as_import, as_atom, listed, pairs_behind};
ghost use Rattle.bx_ops.specs.declared.sorts.Sort.TheVariants as sorts;
ghost use Rattle.bx_asm.specs.Instructed.{pairs_of, sources_of, registers_of};
ghost use Rattle.bx_asm.specs.Looked.{tables};
ghost use Rattle.bx_asm.specs.Operands.{operand_of};
ghost use Rattle.bx_terms.specs.declared.kinds.Trap.TheVariants.{BadPlace};
ghost use Rattle.bx_proc.specs.Spelled.{spelled};

use bx_asm::{Lookup, Operand, Pairs, Register, Sources, YRegisters};
use bx_listing::Import;
use bx_ops::Bif;
use bx_terms::{AtomId, Trap};

#[inline(always)]
pub(crate) fn register_of(lookup: Lookup<'_>, operand: Operand) -> Result<Register, Trap>
    ensures { MatchResult result (λ x. as_register (operand_of (tables lookup.entry) operand) ≡ Some x)
        (λ trap. (as_register (operand_of (tables lookup.entry) operand) ≡ None) × (trap ≡ BadPlace)) }
{
    match lookup.register(operand) {
        Some(found) => Ok(found),
        None => Err(Trap::BadPlace),
    }
}

#[inline(always)]
pub(crate) fn label_of(lookup: Lookup<'_>, operand: Operand) -> Result<u32, Trap>
    ensures { MatchResult result (λ x. as_label (operand_of (tables lookup.entry) operand) ≡ Some x)
        (λ trap. (as_label (operand_of (tables lookup.entry) operand) ≡ None) × (trap ≡ BadPlace)) }
{
    match lookup.label(operand) {
        Some(found) => Ok(found),
        None => Err(Trap::BadPlace),
    }
}

#[inline(always)]
pub(crate) fn y_of(lookup: Lookup<'_>, operand: Operand) -> Result<u16, Trap>
    ensures { MatchResult result (λ x. as_y (operand_of (tables lookup.entry) operand) ≡ Some x)
        (λ trap. (as_y (operand_of (tables lookup.entry) operand) ≡ None) × (trap ≡ BadPlace)) }
{
    match lookup.y(operand) {
        Some(found) => Ok(found),
        None => Err(Trap::BadPlace),
    }
}

#[inline(always)]
pub(crate) fn fail_of(lookup: Lookup<'_>, operand: Operand) -> Result<Option<u32>, Trap>
    ensures { MatchResult result (λ x. as_fail (operand_of (tables lookup.entry) operand) ≡ Some x)
        (λ trap. (as_fail (operand_of (tables lookup.entry) operand) ≡ None) × (trap ≡ BadPlace)) }
{
    match lookup.fail(operand) {
        Some(found) => Ok(found),
        None => Err(Trap::BadPlace),
    }
}

#[inline(always)]
pub(crate) fn bif_of(lookup: Lookup<'_>, operand: Operand) -> Result<Bif, Trap>
    ensures { MatchResult result (λ x. as_bif (operand_of (tables lookup.entry) operand) ≡ Some x)
        (λ trap. (as_bif (operand_of (tables lookup.entry) operand) ≡ None) × (trap ≡ BadPlace)) }
{
    match lookup.bif(operand) {
        Some(found) => Ok(found),
        None => Err(Trap::BadPlace),
    }
}

#[inline(always)]
pub(crate) fn import_of(lookup: Lookup<'_>, operand: Operand) -> Result<Import, Trap>
    ensures { MatchResult result (λ x. as_import (operand_of (tables lookup.entry) operand) ≡ Some x)
        (λ trap. (as_import (operand_of (tables lookup.entry) operand) ≡ None) × (trap ≡ BadPlace)) }
{
    match lookup.import(operand) {
        Some(found) => Ok(found),
        None => Err(Trap::BadPlace),
    }
}

/// The keys with labels that a row ends in.
#[inline(always)]
pub(crate) fn pairs_in<'a>(lookup: Lookup<'a>, row: &'a [Operand]) -> Result<Pairs<'a>, Trap>
    ensures { MatchResult result (λ x. pairs_behind (spelled lookup.entry row.now) ≡ Some (pairs_of x))
        (λ trap. (pairs_behind (spelled lookup.entry row.now) ≡ None) × (trap ≡ BadPlace)) }
{
    match lookup.pairs(row) {
        Some(found) => Ok(found),
        None => Err(Trap::BadPlace),
    }
}

/// The sources that a row ends in.
#[inline(always)]
pub(crate) fn sources_in<'a>(lookup: Lookup<'a>, row: &'a [Operand]) -> Result<Sources<'a>, Trap>
    ensures { MatchResult result (λ x. listed sorts.Source (spelled lookup.entry row.now) ≡ Some (sources_of x))
        (λ trap. (listed sorts.Source (spelled lookup.entry row.now) ≡ None) × (trap ≡ BadPlace)) }
{
    match lookup.sources(row) {
        Some(found) => Ok(found),
        None => Err(Trap::BadPlace),
    }
}

/// The y registers that a row ends in.
#[inline(always)]
pub(crate) fn registers_in<'a>(
    lookup: Lookup<'a>,
    row: &'a [Operand],
) -> Result<YRegisters<'a>, Trap>
    ensures { MatchResult result (λ x. listed sorts.YRegister (spelled lookup.entry row.now) ≡ Some (registers_of x))
        (λ trap. (listed sorts.YRegister (spelled lookup.entry row.now) ≡ None) × (trap ≡ BadPlace)) }
{
    match lookup.registers(row) {
        Some(found) => Ok(found),
        None => Err(Trap::BadPlace),
    }
}

#[inline(always)]
pub(crate) fn atom_of(lookup: Lookup<'_>, operand: Operand) -> Result<AtomId, Trap>
    ensures { MatchResult result (λ x. as_atom (operand_of (tables lookup.entry) operand) ≡ Some x)
        (λ trap. (as_atom (operand_of (tables lookup.entry) operand) ≡ None) × (trap ≡ BadPlace)) }
{
    match lookup.atom(operand) {
        Some(found) => Ok(found),
        None => Err(Trap::BadPlace),
    }
}
