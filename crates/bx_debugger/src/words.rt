//! How an answer names what it tells of.

ghost use Rattle.std.specs.Prelude.{◌≡◌, ◌++◌, OnOk, string_bytes};
ghost use Rattle.bx_terms.specs.Printed.{printed};
ghost use Rattle.bx_load.specs.Numbering.{numbered_at};
ghost use Rattle.bx_debugger.specs.Words.{class_words, here_words, item_or_dash, place_words, term_lines, value_words};

use crate::programs::Program;
use bx_cells::Value;
use bx_dis::item_text;
use bx_load::Image;
use bx_terms::{Atoms, Class, Place, Term, print};
use std::alloc::{AllocError, Global};

/// Adds a term as reports print it.
pub(crate) fn push_term(
    alloc: Global,
    out: &mut String,
    atoms: &Atoms,
    term: &Term,
) -> Result<(), AllocError>
    ensures { OnOk result
        (string_bytes out.new ≡ string_bytes out.old ++ printed atoms.now term.now) }
{
    let text = print(alloc, atoms, term)?;
    out.push_str(text.as_str())
}

/// Adds an address, or a dash where there is none.
pub(crate) fn push_place_or_dash(
    alloc: Global,
    out: &mut String,
    program: &Program<'_>,
    place: Option<Place>,
) -> Result<(), AllocError>
    ensures { OnOk result
        (string_bytes out.new ≡ string_bytes out.old ++ place_words program.now place) }
{
    match place {
        Some(place) => program.push_place(alloc, out, place),
        None => out.push_str("-"),
    }
}

/// Adds the item at an address, or a dash where there is none.
fn push_item(alloc: Global, out: &mut String, image: &Image, place: Place) -> Result<(), AllocError>
    ensures { OnOk result (string_bytes out.new
        ≡ string_bytes out.old ++ item_or_dash image.now (numbered_at image.now place)) }
{
    match image.item(place) {
        Some(item) => {
            let text = item_text(alloc, image.atoms(), item)?;
            out.push_str(text.as_str())
        }
        None => out.push_str("-"),
    }
}

/// Adds an address, where it stands in its source, and the item there.
pub(crate) fn push_here(
    alloc: Global,
    out: &mut String,
    program: &Program<'_>,
    place: Option<Place>,
) -> Result<(), AllocError>
    ensures { OnOk result
        (string_bytes out.new ≡ string_bytes out.old ++ here_words program.now place) }
{
    match place {
        Some(place) => {
            program.push_place(alloc, out, place)?;
            out.push_str(" ")?;
            push_item(alloc, out, program.image(), place)
        }
        None => out.push_str("- -"),
    }
}

/// The word of a fault's class.
pub(crate) fn class_word(class: Class) -> &'static str
    ensures { result.now ≡ class_words class }
{
    match class {
        Class::Throw => "throw",
        Class::Error => "error",
        Class::Exit => "exit",
    }
}

/// Adds what a register holds.
pub(crate) fn push_value(
    alloc: Global,
    out: &mut String,
    program: &Program<'_>,
    value: &Value,
) -> Result<(), AllocError>
    ensures { OnOk result
        (string_bytes out.new ≡ string_bytes out.old ++ value_words program.now value.now) }
{
    match value {
        Value::Term(term) => push_term(alloc, out, program.image().atoms(), term),
        Value::Tag(place) => {
            out.push_str("catch ")?;
            program.push_place(alloc, out, *place)
        }
        Value::Trace(class) => {
            out.push_str("trace ")?;
            out.push_str(class_word(*class))
        }
    }
}

/// Adds a line for each term, behind a word.
pub(crate) fn push_terms(
    alloc: Global,
    out: &mut String,
    atoms: &Atoms,
    word: &str,
    terms: &[Term],
) -> Result<(), AllocError>
    ensures { OnOk result
        (string_bytes out.new ≡ string_bytes out.old ++ term_lines atoms.now word.now terms.now) }
{
    for term in terms {
        out.push_str(word)?;
        out.push_str(" ")?;
        push_term(alloc, out, atoms, term)?;
        out.push_str("\n")?;
    }
    Ok(())
}
