//! The text of a node: without spaces, and never as a string.

ghost use Rattle.std.specs.Prelude.{◌≡◌, ◌++◌, true, Ok, OnOk, string_bytes};
ghost use Rattle.bx_terms.specs.Outcomes.{Gives};
ghost use Rattle.bx_text.specs.Number.{number, is_large, is_spelling};
ghost use Rattle.bx_text.specs.Tree.{chain, IsWhole, IsEnd};
ghost use Rattle.bx_text.specs.View.{tail_seen, elements_seen};
ghost use Rattle.bx_text.specs.Printed.{sign_text, integer_text, node_text, row_text, rest_text};

use crate::node::{Elements, Node, View};
use crate::spellings::{parts, shown};
use bx_terms::{Fault, push_atom};
use itoa::Buffer;
use std::alloc::{AllocError, Global};

fn push_integer(out: &mut String, value: i64) -> Result<(), AllocError>
    ensures { OnOk result (string_bytes out.new ≡ string_bytes out.old ++ integer_text value) }
{
    out.push_str(Buffer::new().format(value))
}

fn push_sign(out: &mut String, negative: bool) -> Result<(), AllocError>
    ensures { OnOk result (string_bytes out.new ≡ string_bytes out.old ++ sign_text negative) }
{
    if negative { out.push_str("-") } else { Ok(()) }
}

/// Adds an integer outside 64 bits by its digits, of which the first is no zero.
fn push_large(out: &mut String, spelling: &str) -> Result<(), AllocError>
    requires large { is_large (number spelling.now) ≡ true }
    requires spelled { is_spelling spelling.now ≡ true }
    ensures { OnOk result (string_bytes out.new ≡ string_bytes out.old ++ integer_text (number spelling.now)) }
{
    let (negative, digits) = parts(spelling.as_bytes());
    push_sign(out, negative)?;
    out.push_str(shown(digits))
}

/// Adds a term.
#[cycle(print)]
fn push_node(alloc: Global, out: &mut String, node: &Node<'_>) -> Result<(), AllocError>
    ensures text { OnOk result (string_bytes out.new ≡ string_bytes out.old ++ node_text node.now) }
    ensures whole { IsWhole node.now }
{
    match node.view() {
        View::Integer(value) => push_integer(out, value),
        View::Large(spelling) => push_large(out, spelling),
        View::Atom(text) => push_atom(alloc, out, text),
        View::Tuple(elements) => {
            out.push_str("{")?;
            push_row(alloc, out, Elements::Nodes(elements), None)?;
            out.push_str("}")
        }
        View::List(elements, tail) => {
            out.push_str("[")?;
            push_row(alloc, out, elements, tail)?;
            out.push_str("]")
        }
        View::Other(_, text) => out.push_str(text),
    }
}

/// Adds elements with commas between them, and a tail after a bar.
#[cycle(print)]
#[tactic(auto, using(crate::proofs::Contents::row_at, crate::proofs::Shown::end_text))]
fn push_row(
    alloc: Global,
    out: &mut String,
    elements: Elements<'_, '_>,
    tail: Option<&Node<'_>>,
) -> Result<(), AllocError>
    ensures { OnOk result (string_bytes out.new ≡ string_bytes out.old ++ row_text (chain (elements_seen elements.entry) (tail_seen tail.entry))) }
{
    if elements.len() == 0 {
        return push_tail(alloc, out, tail);
    }
    push_node(alloc, out, elements.at(0).node())?;
    for i in 1..elements.len() {
        out.push_str(",")?;
        push_node(alloc, out, elements.at(i).node())?;
    }
    push_tail(alloc, out, tail)
}

/// Adds what ends a row: a tail after a bar, if there is one.
#[cycle(print)]
#[tactic(auto, using(crate::proofs::Shown::tail_text, crate::proofs::Shown::tail_ends))]
fn push_tail(alloc: Global, out: &mut String, tail: Option<&Node<'_>>) -> Result<(), AllocError>
    ensures text { OnOk result (string_bytes out.new ≡ string_bytes out.old ++ rest_text (tail_seen tail.entry)) }
    ensures end { OnOk result (IsEnd (tail_seen tail.entry)) }
{
    match tail {
        Some(node) => {
            out.push_str("|")?;
            push_node(alloc, out, node)
        }
        None => Ok(()),
    }
}

/// The text of a node, without spaces. An integer is written by its value, an atom bare or in quotes, a list never as a string;
/// what stands for no value here is written as it was read. It can only run out of memory.
///
/// Source: Erlang Reference Manual, "Data Types".
pub fn print_node(alloc: Global, node: &Node<'_>) -> Result<String, Fault>
    ensures { Gives (Unit {0}) (λ text. string_bytes text) result (Ok (node_text node.now)) }
{
    let mut out = String::new(alloc);
    push_node(alloc, &mut out, node)?;
    Ok(out)
}
