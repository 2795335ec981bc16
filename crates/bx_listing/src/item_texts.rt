//! The text of items, each a line of a listing.

ghost use Rattle.std.specs.Prelude.{◌≡◌, ◌++◌, ◌-◌, IfOk, OnOk, string_bytes, codes, length, drop};
ghost use Rattle.bx_ops.specs.Opcodes.{opcode};
ghost use Rattle.bx_ops.specs.Table.{slots as table_slots, way as table_way};
ghost use Rattle.bx_terms.specs.AtomText.{printed_atom};
ghost use Rattle.bx_listing.specs.Items.{seen_item};
ghost use Rattle.bx_listing.specs.Writing.{operand_text, list_text, slot_text, operand_span, slot_span, slots_text, grouped_text, bif_text, way_text, item_words, item_text};

use crate::items::{Item, Operand};
use crate::operand_texts::{before, behind, push_added, push_list, push_operand};
use bx_ops::{Op, Slot, Sort, Way, name, slots, way};
use bx_terms::{Atoms, push_atom};
use std::alloc::{AllocError, Global};
use std::ops::Range;

/// Adds a list of operands in a tuple of a word, which `opening` begins.
fn push_members(
    alloc: Global,
    out: &mut String,
    atoms: &Atoms,
    opening: &str,
    members: &[Operand],
) -> Result<(), AllocError>
    ensures { OnOk result (string_bytes out.new
        ≡ string_bytes out.old ++ (opening.now ++ list_text atoms.now members.now ++ codes "}")) }
{
    out.push_str(opening)?;
    push_list(alloc, out, atoms, members)?;
    out.push_str("}")
}

fn push_next(
    alloc: Global,
    out: &mut String,
    atoms: &Atoms,
    operand: &Operand,
) -> Result<(), AllocError>
    ensures { OnOk result (string_bytes out.new
        ≡ string_bytes out.old ++ (codes "," ++ operand_text atoms.now operand.now)) }
{
    out.push_str(",")?;
    push_operand(alloc, out, atoms, operand)
}

/// Adds what stands in one place, after a comma.
fn push_slot(
    alloc: Global,
    out: &mut String,
    atoms: &Atoms,
    slot: Slot,
    operands: &[Operand],
) -> Result<(), AllocError>
    ensures { OnOk result (string_bytes out.new
        ≡ string_bytes out.old ++ slot_text atoms.now slot operands.now) }
{
    match (slot, operands) {
        (Slot::One(Sort::Mark), _) => out.push_str(",[]"),
        (Slot::One(_), [operand, ..]) => push_next(alloc, out, atoms, operand),
        (Slot::Many(_) | Slot::Pairs(_, _), [Operand::List(count), rest @ ..]) => {
            push_members(alloc, out, atoms, ",{list,", before(rest, *count))
        }
        (Slot::Heap, [Operand::List(count), rest @ ..]) => {
            push_members(alloc, out, atoms, ",{alloc,", before(rest, *count))
        }
        (Slot::Heap, [operand, ..]) => push_next(alloc, out, atoms, operand),
        (Slot::NoLabel, _) => out.push_str(",{f,0}"),
        (Slot::ToX0, _) => out.push_str(",{x,0}"),
        _ => Ok(()),
    }
}

/// The operands behind the first, and behind the members of a list that it is.
fn past_first(operands: &[Operand]) -> &[Operand]
    ensures { result.now ≡ drop (operand_span operands.now) operands.now }
{
    match operands {
        [Operand::List(count), members @ ..] => behind(members, *count),
        [_, rest @ ..] => rest,
        [] => operands,
    }
}

/// The operands behind those that stand in a place.
fn past(slot: Slot, operands: &[Operand]) -> &[Operand]
    ensures { result.now ≡ drop (slot_span slot operands.now) operands.now }
{
    match slot {
        Slot::NoLabel | Slot::ToX0 => operands,
        _ => past_first(operands),
    }
}

/// Adds the operands, place by place.
#[tactic(auto, using(bx_share::specs::Rows::rest_at))]
fn push_slots(
    alloc: Global,
    out: &mut String,
    atoms: &Atoms,
    slots: &[Slot],
    operands: &[Operand],
) -> Result<(), AllocError>
    ensures { OnOk result (string_bytes out.new
        ≡ string_bytes out.old ++ slots_text atoms.now slots.now operands.now) }
{
    let mut left = operands;
    for slot in slots {
        push_slot(alloc, out, atoms, *slot, left)?;
        left = past(*slot, left);
    }
    Ok(())
}

/// Adds operands of which those at the places `list` stand in a list.
fn push_grouped(
    alloc: Global,
    out: &mut String,
    atoms: &Atoms,
    operands: &[Operand],
    list: Range<usize>,
) -> Result<(), AllocError>
    ensures { OnOk result (string_bytes out.new
        ≡ string_bytes out.old ++ grouped_text atoms.now list.start list.end operands.now) }
{
    let members = behind(before(operands, list.end), list.start);
    push_added(alloc, out, atoms, before(operands, list.start))?;
    out.push_str(",")?;
    push_list(alloc, out, atoms, members)?;
    push_added(alloc, out, atoms, behind(operands, list.end))
}

/// Adds an instruction that is written as a tuple of its name and its operands.
fn push_plain(
    alloc: Global,
    out: &mut String,
    atoms: &Atoms,
    op: Op,
    operands: &[Operand],
) -> Result<(), AllocError>
    ensures { OnOk result (string_bytes out.new
        ≡ string_bytes out.old ++ (codes "{" ++ printed_atom (opcode op).name
        ++ slots_text atoms.now (table_slots op) operands.now ++ codes "}")) }
{
    out.push_str("{")?;
    push_atom(alloc, out, name(op))?;
    push_slots(alloc, out, atoms, slots(op), operands)?;
    out.push_str("}")
}

/// Adds a test: its name, its label, and a list of its operands.
fn push_test(
    alloc: Global,
    out: &mut String,
    atoms: &Atoms,
    op: Op,
    operands: &[Operand],
) -> Result<(), AllocError>
    ensures { OnOk result (string_bytes out.new
        ≡ string_bytes out.old ++ (codes "{test," ++ printed_atom (opcode op).name
        ++ grouped_text atoms.now 1 (length operands.now) operands.now ++ codes "}")) }
{
    out.push_str("{test,")?;
    push_atom(alloc, out, name(op))?;
    push_grouped(alloc, out, atoms, operands, 1..operands.len())?;
    out.push_str("}")
}

/// Adds a BIF without arguments, which has no label.
fn push_plain_bif(
    alloc: Global,
    out: &mut String,
    atoms: &Atoms,
    bif: &Operand,
    to: &Operand,
) -> Result<(), AllocError>
    ensures { OnOk result (string_bytes out.new
        ≡ string_bytes out.old ++ (codes "{bif," ++ operand_text atoms.now bif.now ++ codes ",{f,0},[],"
        ++ operand_text atoms.now to.now ++ codes "}")) }
{
    out.push_str("{bif,")?;
    push_operand(alloc, out, atoms, bif)?;
    out.push_str(",{f,0},[],")?;
    push_operand(alloc, out, atoms, to)?;
    out.push_str("}")
}

/// Adds a BIF: its name, where it goes on a fault, a list of its arguments, and its register.
fn push_bif(
    alloc: Global,
    out: &mut String,
    atoms: &Atoms,
    operands: &[Operand],
) -> Result<(), AllocError>
    ensures { OnOk result (string_bytes out.new
        ≡ string_bytes out.old ++ bif_text atoms.now operands.now) }
{
    match operands {
        [bif, to] => push_plain_bif(alloc, out, atoms, bif, to),
        _ => {
            let last = operands.len().saturating_sub(1);
            out.push_str("{bif")?;
            push_grouped(alloc, out, atoms, operands, 2..last)?;
            out.push_str("}")
        }
    }
}

/// Adds a BIF that may collect garbage: its name, its label, how many registers live, a list of its arguments, and its
/// register.
fn push_gc_bif(
    alloc: Global,
    out: &mut String,
    atoms: &Atoms,
    operands: &[Operand],
) -> Result<(), AllocError>
    ensures { OnOk result (string_bytes out.new
        ≡ string_bytes out.old ++ (codes "{gc_bif"
        ++ grouped_text atoms.now 3 (length operands.now - 1) operands.now ++ codes "}")) }
{
    let last = operands.len().saturating_sub(1);
    out.push_str("{gc_bif")?;
    push_grouped(alloc, out, atoms, operands, 3..last)?;
    out.push_str("}")
}

/// Adds `raise`: a list of its operands, between a label and a register that are always the same.
fn push_raise(
    alloc: Global,
    out: &mut String,
    atoms: &Atoms,
    operands: &[Operand],
) -> Result<(), AllocError>
    ensures { OnOk result (string_bytes out.new
        ≡ string_bytes out.old ++ (codes "{raise,{f,0}"
        ++ grouped_text atoms.now 0 (length operands.now) operands.now ++ codes ",{x,0}}")) }
{
    out.push_str("{raise,{f,0}")?;
    push_grouped(alloc, out, atoms, operands, 0..operands.len())?;
    out.push_str(",{x,0}}")
}

/// Adds an instruction in the way in which its opcode is written.
fn push_way(
    alloc: Global,
    out: &mut String,
    atoms: &Atoms,
    op: Op,
    operands: &[Operand],
) -> Result<(), AllocError>
    ensures { OnOk result (string_bytes out.new
        ≡ string_bytes out.old
        ++ way_text atoms.now (table_way op) (printed_atom (opcode op).name) (table_slots op) operands.now) }
{
    match way(op) {
        Way::Bare => push_atom(alloc, out, name(op)),
        Way::Plain => push_plain(alloc, out, atoms, op, operands),
        Way::Test => push_test(alloc, out, atoms, op, operands),
        Way::Bif => push_bif(alloc, out, atoms, operands),
        Way::GcBif => push_gc_bif(alloc, out, atoms, operands),
        Way::Raise => push_raise(alloc, out, atoms, operands),
    }
}

/// Adds an item, its full stop, and the end of its line.
pub(crate) fn push_item(
    alloc: Global,
    out: &mut String,
    atoms: &Atoms,
    item: Item<'_>,
) -> Result<(), AllocError>
    ensures { OnOk result (string_bytes out.new
        ≡ string_bytes out.old ++ item_text atoms.now (seen_item item.entry)) }
{
    push_way(alloc, out, atoms, item.op, item.operands)?;
    out.push_str(".\n")
}

/// The text of an item as a listing writes it, without its full stop.
///
/// It can only run out of memory.
pub fn item_words(alloc: Global, atoms: &Atoms, item: Item<'_>) -> Result<String, AllocError>
    ensures { IfOk result (λ text. string_bytes text ≡ item_words atoms.now (seen_item item.entry)) }
{
    let mut out = String::new(alloc);
    push_way(alloc, &mut out, atoms, item.op, item.operands)?;
    Ok(out)
}
