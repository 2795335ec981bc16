//! The text of operands, as a listing writes them.

ghost use Rattle.std.specs.Prelude.{◌≡◌, ◌++◌, OnOk, string_bytes, decimal, codes, take, drop};
ghost use Rattle.std.specs.Fmt.{signed_decimal};
ghost use Rattle.bx_listing.specs.Writing.{name_text, operand_text, added_text, joined_text, list_text};

use crate::items::{Amount, Import, Operand};
use bx_ops::bif_name;
use bx_terms::{AtomId, Atoms, Term, print, push_atom};
use itoa::Buffer;
use std::alloc::{AllocError, Global};

/// Adds an atom by its text, and `?` for one that is not in `atoms`.
pub(crate) fn push_name(
    alloc: Global,
    out: &mut String,
    atoms: &Atoms,
    id: AtomId,
) -> Result<(), AllocError>
    ensures { OnOk result (string_bytes out.new ≡ string_bytes out.old ++ name_text atoms.now id) }
{
    match atoms.text(id) {
        Some(text) => push_atom(alloc, out, text),
        None => out.push_str("?"),
    }
}

pub(crate) fn push_number(out: &mut String, number: u32) -> Result<(), AllocError>
    ensures { OnOk result (string_bytes out.new ≡ string_bytes out.old ++ decimal number) }
{
    out.push_str(Buffer::new().format(number))
}

/// Adds a tuple of a word, which `opening` begins, and a number.
fn push_numbered(out: &mut String, opening: &str, number: u32) -> Result<(), AllocError>
    ensures { OnOk result (string_bytes out.new
        ≡ string_bytes out.old ++ (opening.now ++ decimal number ++ codes "}")) }
{
    out.push_str(opening)?;
    push_number(out, number)?;
    out.push_str("}")
}

fn push_integer(out: &mut String, value: i64) -> Result<(), AllocError>
    ensures { OnOk result (string_bytes out.new
        ≡ string_bytes out.old ++ (codes "{integer," ++ signed_decimal value ++ codes "}")) }
{
    out.push_str("{integer,")?;
    out.push_str(Buffer::new().format(value))?;
    out.push_str("}")
}

fn push_atom_operand(
    alloc: Global,
    out: &mut String,
    atoms: &Atoms,
    id: AtomId,
) -> Result<(), AllocError>
    ensures { OnOk result (string_bytes out.new
        ≡ string_bytes out.old ++ operand_text atoms.now (Operand.Atom id)) }
{
    out.push_str("{atom,")?;
    push_name(alloc, out, atoms, id)?;
    out.push_str("}")
}

fn push_literal(
    alloc: Global,
    out: &mut String,
    atoms: &Atoms,
    term: &Term,
) -> Result<(), AllocError>
    ensures { OnOk result (string_bytes out.new
        ≡ string_bytes out.old ++ operand_text atoms.now (Operand.Literal term.now)) }
{
    let text = print(alloc, atoms, term)?;
    out.push_str("{literal,")?;
    out.push_str(text.as_str())?;
    out.push_str("}")
}

fn push_import(
    alloc: Global,
    out: &mut String,
    atoms: &Atoms,
    import: Import,
) -> Result<(), AllocError>
    ensures { OnOk result (string_bytes out.new
        ≡ string_bytes out.old ++ operand_text atoms.now (Operand.Import import)) }
{
    out.push_str("{extfunc,")?;
    push_name(alloc, out, atoms, import.module)?;
    out.push_str(",")?;
    push_name(alloc, out, atoms, import.function)?;
    out.push_str(",")?;
    push_number(out, import.arity)?;
    out.push_str("}")
}

fn push_amount(
    alloc: Global,
    out: &mut String,
    atoms: &Atoms,
    amount: Amount,
) -> Result<(), AllocError>
    ensures { OnOk result (string_bytes out.new
        ≡ string_bytes out.old ++ operand_text atoms.now (Operand.Amount amount)) }
{
    out.push_str("{")?;
    push_name(alloc, out, atoms, amount.kind)?;
    out.push_str(",")?;
    push_number(out, amount.count)?;
    out.push_str("}")
}

/// Adds an operand; of a list nothing, as its members are operands of their own.
pub(crate) fn push_operand(
    alloc: Global,
    out: &mut String,
    atoms: &Atoms,
    operand: &Operand,
) -> Result<(), AllocError>
    ensures { OnOk result (string_bytes out.new
        ≡ string_bytes out.old ++ operand_text atoms.now operand.now) }
{
    match operand {
        Operand::X(number) => push_numbered(out, "{x,", *number),
        Operand::Y(number) => push_numbered(out, "{y,", *number),
        Operand::Integer(value) => push_integer(out, *value),
        Operand::Atom(id) => push_atom_operand(alloc, out, atoms, *id),
        Operand::Nil => out.push_str("nil"),
        Operand::Literal(term) => push_literal(alloc, out, atoms, term),
        Operand::Label(label) => push_numbered(out, "{f,", *label),
        Operand::NoLabel => out.push_str("{f,0}"),
        Operand::Place(number) => push_number(out, *number),
        Operand::Number(number) => push_number(out, *number),
        Operand::Arity(number) => push_number(out, *number),
        Operand::Import(import) => push_import(alloc, out, atoms, *import),
        Operand::Bif(bif) => push_atom(alloc, out, bif_name(*bif)),
        Operand::Amount(amount) => push_amount(alloc, out, atoms, *amount),
        Operand::List(_) => Ok(()),
    }
}

/// Adds operands, each after a comma.
#[tactic(auto, using(bx_share::specs::Rows::rest_at))]
pub(crate) fn push_added(
    alloc: Global,
    out: &mut String,
    atoms: &Atoms,
    operands: &[Operand],
) -> Result<(), AllocError>
    ensures { OnOk result
        (string_bytes out.new ≡ string_bytes out.old ++ added_text atoms.now operands.now) }
{
    for operand in operands {
        out.push_str(",")?;
        push_operand(alloc, out, atoms, operand)?;
    }
    Ok(())
}

/// Adds operands with commas between them.
fn push_joined(
    alloc: Global,
    out: &mut String,
    atoms: &Atoms,
    operands: &[Operand],
) -> Result<(), AllocError>
    ensures { OnOk result (string_bytes out.new
        ≡ string_bytes out.old ++ joined_text atoms.now operands.now) }
{
    match operands {
        [] => Ok(()),
        [first, rest @ ..] => {
            push_operand(alloc, out, atoms, first)?;
            push_added(alloc, out, atoms, rest)
        }
    }
}

/// Adds operands as a list.
pub(crate) fn push_list(
    alloc: Global,
    out: &mut String,
    atoms: &Atoms,
    operands: &[Operand],
) -> Result<(), AllocError>
    ensures { OnOk result
        (string_bytes out.new ≡ string_bytes out.old ++ list_text atoms.now operands.now) }
{
    out.push_str("[")?;
    push_joined(alloc, out, atoms, operands)?;
    out.push_str("]")
}

/// The operands before a place.
pub(crate) fn before(operands: &[Operand], place: usize) -> &[Operand]
    ensures { result.now ≡ take place operands.now }
{
    if place <= operands.len() {
        &operands[..place]
    } else {
        operands
    }
}

/// The operands from a place on.
pub(crate) fn behind(operands: &[Operand], place: usize) -> &[Operand]
    ensures { result.now ≡ drop place operands.now }
{
    if place <= operands.len() {
        &operands[place..]
    } else {
        &operands[..0]
    }
}
