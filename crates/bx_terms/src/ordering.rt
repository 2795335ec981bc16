//! The order of terms.
//!
//! Source: Erlang Reference Manual, "Expressions", "Term Comparisons".

ghost use Rattle.std.specs.Prelude.{◌≡◌, length, chars};
ghost use Rattle.std.specs.Ordering.{nat_cmp};
ghost use Rattle.std.specs.Cmp.Lexicographic.{slice_cmp};
ghost use Rattle.bx_terms.specs.Tree.{listed, tuple};
ghost use Rattle.bx_terms.specs.View.{seen};
ghost use Rattle.bx_terms.specs.Order.{order_of, atom_order, kind_order};

use crate::atom_table::{AtomId, Atoms};
use crate::terms::{Term, View};
use std::cmp::Ordering;

/// How `first` stands to `second` in the order of terms.
///
/// Integers come before atoms, then pids, tuples, the empty list and list cells. Integers and pids compare by number,
/// tuples by size and then element by element, lists by head and then by tail, atoms by the character codes of their
/// texts; an atom that is not in `atoms` comes after all others, by number. It takes no memory.
#[cycle(order)]
pub fn order(atoms: &Atoms, first: &Term, second: &Term) -> Ordering
    ensures { result ≡ order_of atoms.now first.now second.now }
{
    match (first.view(), second.view()) {
        (View::Int(m), View::Int(n)) => m.cmp(&n),
        (View::Atom(a), View::Atom(b)) => order_atoms(atoms, a, b),
        (View::Pid(p), View::Pid(q)) => p.cmp(&q),
        (View::Tuple(xs), View::Tuple(ys)) => order_tuples(atoms, xs, ys),
        (View::Cons(head, tail), View::Cons(other_head, other_tail)) => {
            match order(atoms, head, other_head) {
                Ordering::Equal => order(atoms, tail, other_tail),
                decided => decided,
            }
        }
        (one, other) => kind_order(one).cmp(&kind_order(other)),
    }
}

/// Where a term's kind stands among the kinds.
fn kind_order(view: View<'_>) -> u8
    ensures { result ≡ kind_order (seen view.entry) }
{
    match view {
        View::Int(_) => 0,
        View::Atom(_) => 1,
        View::Pid(_) => 2,
        View::Tuple(_) => 3,
        View::Nil => 4,
        View::Cons(_, _) => 5,
    }
}

/// Tuples by size and then by elements.
#[cycle(order)]
#[tactic(auto, using(crate::proofs::Rows::size_listed))]
fn order_tuples(atoms: &Atoms, xs: &[Term], ys: &[Term]) -> Ordering
    ensures { result ≡ order_of atoms.now (tuple (listed xs.now)) (tuple (listed ys.now)) }
{
    match xs.len().cmp(&ys.len()) {
        Ordering::Equal => order_elements(atoms, xs, ys),
        decided => decided,
    }
}

/// Elements from the first, of as many.
#[cycle(order)]
#[tactic(auto, using(bx_share::specs::Rows::rest_at, crate::proofs::Rows::nodes_at))]
fn order_elements(atoms: &Atoms, xs: &[Term], ys: &[Term]) -> Ordering
    requires { length xs.now ≡ length ys.now }
    ensures { result ≡ order_of atoms.now (listed xs.now) (listed ys.now) }
{
    for i in 0..xs.len() {
        match order(atoms, &xs[i], &ys[i]) {
            Ordering::Equal => {}
            decided => return decided,
        }
    }
    Ordering::Equal
}

/// Atoms by text, those that the table lacks last and by number.
fn order_atoms(atoms: &Atoms, a: AtomId, b: AtomId) -> Ordering
    ensures { result ≡ atom_order atoms.now a.0 b.0 }
{
    if a == b {
        return Ordering::Equal;
    }
    match (atoms.text(a), atoms.text(b)) {
        (Some(text), Some(other)) => order_texts(text, other),
        (Some(_), None) => Ordering::Less,
        (None, Some(_)) => Ordering::Greater,
        (None, None) => a.0.cmp(&b.0),
    }
}

/// Texts by character codes: in UTF-8 the bytes have the same order.
fn order_texts(text: &str, other: &str) -> Ordering
    ensures { result ≡ slice_cmp nat_cmp (chars text.now) (chars other.now) }
{
    text.cmp(other)
}
