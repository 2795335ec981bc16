//! Sizes: of the code, of lists, labels and arities, and how many functions are called by name.

ghost use Rattle.std.specs.Prelude.{◌≡◌, ◌&&◌, IfOk, OnOk, OnErr, IsSome, nat_le};
ghost use Rattle.std.specs.List.{list_all};
ghost use Rattle.bx_asm.specs.Meaning.{as_import};
ghost use Rattle.bx_asm.specs.Limits.{first, is_small, is_arity, count, operands_of, is_within, imports_after, imports, first_call};

use bx_listing::{Export, Function, Import, Listing, Operand};
use indexmap::IndexSet;
use std::alloc::{AllocError, Global};

const MOST_ITEMS: usize = 1_000_000;

const LAST_LABEL: u32 = 1_000_000;

const MOST_ARGUMENTS: u32 = 255;

const MOST_MEMBERS: usize = 65_535;

fn is_small(operand: &Operand) -> bool
    ensures { result ≡ is_small operand.now }
{
    match operand {
        Operand::Place(number) => 1 <= *number && *number <= LAST_LABEL,
        Operand::Arity(arity) => *arity <= MOST_ARGUMENTS,
        Operand::Import(import) => import.arity <= MOST_ARGUMENTS,
        Operand::List(count) => *count <= MOST_MEMBERS,
        _ => true,
    }
}

fn are_small(operands: &[Operand]) -> bool
    ensures { result ≡ list_all is_small operands.now }
{
    operands.iter().all(is_small)
}

fn functions_are_small(functions: &[Function]) -> bool
    ensures { result ≡ list_all (λ f. is_arity f.arity && list_all is_small (operands_of f))
        functions.now }
{
    functions.iter().all(|function| function.arity() <= MOST_ARGUMENTS
        && are_small(function.operands()))
}

fn exports_are_small(exports: &[Export]) -> bool
    ensures { result ≡ list_all (λ e. is_arity e.arity) exports.now }
{
    exports.iter().all(|export| export.arity <= MOST_ARGUMENTS)
}

/// Whether the functions have at most 1,000,000 items.
#[tactic(auto, using(std::proofs::lemmas::List::drop_more))]
fn are_few(functions: &[Function]) -> bool
    ensures { result ≡ nat_le (count functions.now) 1000000 }
{
    let mut left = MOST_ITEMS;
    for function in functions {
        let items = function.item_count();
        if items > left {
            return false;
        }
        left -= items;
    }
    true
}

/// Whether the listing is within every limit of size but that on the functions that are called by name.
pub(crate) fn is_within(listing: &Listing) -> bool
    ensures { result ≡ is_within listing.now }
{
    let functions = listing.functions();
    are_few(functions) && exports_are_small(listing.exports()) && functions_are_small(functions)
}

/// Adds the functions that are called by name and that are not there yet.
#[tactic(auto, using(std::proofs::lemmas::List::drop_more, crate::proofs::Firsts::first_later, crate::proofs::Firsts::first_here, crate::proofs::Imports::inserted))]
fn add_imports(held: &mut IndexSet<Import>, operands: &[Operand]) -> Result<(), AllocError>
    ensures ok { OnOk result (held.new.keys ≡ imports_after held.old.keys operands.now) }
    ensures err { OnErr result (IsSome (first as_import operands.now)) }
{
    for operand in operands {
        if let Operand::Import(import) = operand {
            held.insert_full(*import)?;
        }
    }
    Ok(())
}

/// The different functions that are called by name, in order of first use.
#[tactic(auto, using(std::proofs::lemmas::List::drop_more, crate::proofs::Firsts::first_later, crate::proofs::Firsts::first_here))]
pub(crate) fn imports_of(
    alloc: Global,
    functions: &[Function],
) -> Result<IndexSet<Import>, AllocError>
    ensures ok { IfOk result (λ held. held.keys ≡ imports functions.now) }
    ensures err { OnErr result (IsSome (first_call functions.now)) }
{
    let mut held = IndexSet::new(alloc);
    for function in functions {
        add_imports(&mut held, function.operands())?;
    }
    Ok(held)
}
