//! The text of a term, without spaces, and never as a string.

ghost use Rattle.std.specs.Prelude.{◌≡◌, ◌++◌, IfOk, OnOk, if◌then◌else◌, is_ok, string_bytes, option_map};
ghost use Rattle.bx_terms.specs.Tree.{listed};
ghost use Rattle.bx_terms.specs.Printed.{printed, printed_name, printed_pid, printed_tail, printed_elements};

use crate::atom_table::Atoms;
use crate::atom_text::push_atom;
use crate::terms::{Term, View};
use itoa::Buffer;
use std::alloc::{AllocError, Global};

/// The text of `term`: integers in decimal, `{a,b}`, `[a,b|c]`, pid p as `<0.p.0>`, atoms as [`push_atom`] prints them,
/// and `?` for an atom that is not in `atoms`. It can only run out of memory.
pub fn print(alloc: Global, atoms: &Atoms, term: &Term) -> Result<String, AllocError>
    ensures { IfOk result (λ text. string_bytes text ≡ printed atoms.now term.now) }
{
    let mut out = String::new(alloc);
    push_term(alloc, &mut out, atoms, term)?;
    Ok(out)
}

/// Adds `<0.p.0>` for pid p to `out`, which is as before where memory runs out.
pub fn push_pid(alloc: Global, out: &mut String, number: u32) -> Result<(), AllocError>
    ensures { string_bytes out.new ≡ (if is_ok result then string_bytes out.old ++ printed_pid number else string_bytes out.old) }
{
    let text = format!(in alloc; "<0.{number}.0>")?;
    out.push_str(text.as_str())
}

/// Adds a name as an atom is printed, and `?` where there is none; `out` is as before where memory runs out.
pub fn push_name(alloc: Global, out: &mut String, name: Option<&str>) -> Result<(), AllocError>
    ensures { string_bytes out.new ≡ (if is_ok result then string_bytes out.old ++ printed_name (option_map (λ text. text.now) name.entry) else string_bytes out.old) }
{
    match name {
        Some(text) => push_atom(alloc, out, text),
        None => out.push_str("?"),
    }
}

#[cycle(print)]
fn push_term(alloc: Global, out: &mut String, atoms: &Atoms, term: &Term) -> Result<(), AllocError>
    ensures { OnOk result (string_bytes out.new ≡ string_bytes out.old ++ printed atoms.now term.now) }
{
    match term.view() {
        View::Int(value) => out.push_str(Buffer::new().format(value)),
        View::Atom(id) => push_name(alloc, out, atoms.text(id)),
        View::Pid(number) => push_pid(alloc, out, number),
        View::Tuple(elements) => {
            out.push_str("{")?;
            push_elements(alloc, out, atoms, elements)?;
            out.push_str("}")
        }
        View::Nil => out.push_str("[]"),
        View::Cons(head, tail) => {
            out.push_str("[")?;
            push_term(alloc, out, atoms, head)?;
            push_tail(alloc, out, atoms, tail)?;
            out.push_str("]")
        }
    }
}

#[cycle(print)]
fn push_tail(alloc: Global, out: &mut String, atoms: &Atoms, tail: &Term) -> Result<(), AllocError>
    ensures { OnOk result (string_bytes out.new ≡ string_bytes out.old ++ printed_tail atoms.now tail.now) }
{
    match tail.view() {
        View::Cons(head, rest) => {
            out.push_str(",")?;
            push_term(alloc, out, atoms, head)?;
            push_tail(alloc, out, atoms, rest)
        }
        View::Nil => Ok(()),
        _ => {
            out.push_str("|")?;
            push_term(alloc, out, atoms, tail)
        }
    }
}

#[cycle(print)]
#[tactic(auto, using(bx_share::specs::Rows::rest_at, crate::proofs::Rows::nodes_at))]
fn push_elements(
    alloc: Global,
    out: &mut String,
    atoms: &Atoms,
    elements: &[Term],
) -> Result<(), AllocError>
    ensures { OnOk result (string_bytes out.new ≡ string_bytes out.old ++ printed_elements atoms.now (listed elements.now)) }
{
    match elements {
        [] => Ok(()),
        [first, rest @ ..] => {
            push_term(alloc, out, atoms, first)?;
            for element in rest {
                out.push_str(",")?;
                push_term(alloc, out, atoms, element)?;
            }
            Ok(())
        }
    }
}
