//! Labels: those that stand twice, those that are not there, and entries.

ghost use Rattle.std.specs.Prelude.{◌≡◌, ◌++◌, [], None, IfOk, OnErr, IfErr, IsSome, nat_eq};
ghost use Rattle.std.specs.List.{list_any};
ghost use Rattle.bx_asm.specs.Meaning.{as_place};
ghost use Rattle.bx_asm.specs.Limits.{first, labels, all_labels, again, target_fault, target_faults, entry_faults, RefusesLabels};

use bx_listing::{Function, Operand};
use bx_terms::Fault;
use indexmap::IndexSet;
use std::alloc::{AllocError, Global};

/// Adds the labels that stand among these operands, up to one that is there already, which it answers.
#[tactic(auto, using(std::proofs::lemmas::List::drop_more, crate::proofs::Firsts::first_later, crate::proofs::Firsts::first_here))]
fn add_labels(seen: &mut IndexSet<u32>, operands: &[Operand]) -> Result<Option<u32>, AllocError>
    ensures again { IfOk result (λ twice. twice ≡ again seen.old.keys (labels operands.now)) }
    ensures err { OnErr result (IsSome (first as_place operands.now)) }
    ensures added { IfOk result
        (λ twice. twice ≡ None → seen.new.keys ≡ seen.old.keys ++ labels operands.now) }
{
    for operand in operands {
        if let Operand::Place(number) = operand {
            let (_, is_new) = seen.insert_full(*number)?;
            if !is_new {
                return Ok(Some(*number));
            }
        }
    }
    Ok(None)
}

/// The labels of all functions, or the first that stands twice.
#[tactic(auto, using(crate::proofs::Labels::again_next, crate::proofs::Labels::keys_next, crate::proofs::Labels::again_here, crate::proofs::Firsts::first_later, crate::proofs::Firsts::first_here))]
pub(crate) fn labels_of(alloc: Global, functions: &[Function]) -> Result<IndexSet<u32>, Fault>
    ensures ok { IfOk result (λ seen. (again [] (all_labels functions.now) ≡ None) ×
        (seen.keys ≡ all_labels functions.now)) }
    ensures err { IfErr result (RefusesLabels functions.now) }
{
    let mut seen = IndexSet::new(alloc);
    for function in functions {
        if let Some(label) = add_labels(&mut seen, function.operands())? {
            return Err(Fault::LabelTwice { label });
        }
    }
    Ok(seen)
}

#[tactic(auto, using(std::proofs::lemmas::List::drop_more))]
fn target_fault_in(labels: &IndexSet<u32>, operands: &[Operand]) -> Option<u32>
    ensures { result ≡ first (target_fault labels.now.keys) operands.now }
{
    for operand in operands {
        if let Operand::Label(label) = operand {
            if !labels.contains(label) {
                return Some(*label);
            }
        }
    }
    None
}

/// The first label that an item goes to and that is not there.
#[tactic(auto, using(std::proofs::lemmas::List::drop_more))]
pub(crate) fn target_faults(labels: &IndexSet<u32>, functions: &[Function]) -> Option<u32>
    ensures { result ≡ target_faults labels.now.keys functions.now }
{
    for function in functions {
        if let Some(label) = target_fault_in(labels, function.operands()) {
            return Some(label);
        }
    }
    None
}

#[tactic(auto, using(std::proofs::lemmas::List::drop_more))]
fn has_label(operands: &[Operand], label: u32) -> bool
    ensures { result ≡ list_any (nat_eq label) (labels operands.now) }
{
    for operand in operands {
        if let Operand::Place(number) = operand {
            if *number == label {
                return true;
            }
        }
    }
    false
}

/// The first function whose entry is no label of its own.
#[tactic(auto, using(std::proofs::lemmas::List::drop_more))]
pub(crate) fn entry_faults(functions: &[Function]) -> Option<usize>
    ensures { result ≡ entry_faults 0 functions.now }
{
    for (number, function) in functions.iter().enumerate() {
        if !has_label(function.operands(), function.entry()) {
            return Some(number);
        }
    }
    None
}
