//! Kinds of terms, and truth values.

ghost use Rattle.std.specs.Prelude.{◌≡◌};
ghost use Rattle.bx_bifs.specs.Kinds.{is_atom as atom_kind, is_integer as integer_kind, is_list as list_kind, is_pid as pid_kind, is_tuple as tuple_kind, is_the_atom, truth as truth_of};

use bx_terms::{AtomId, Term, View, fixed};

/// Whether a term is an atom.
#[inline(always)]
pub fn is_atom(term: &Term) -> bool
    ensures { result ≡ atom_kind term.now }
{
    matches!(term.view(), View::Atom(_))
}

/// Whether a term is that atom.
#[inline(always)]
pub fn is_the_atom(atom: AtomId, term: &Term) -> bool
    ensures { result ≡ is_the_atom atom term.now }
{
    match term.view() {
        View::Atom(id) => id == atom,
        _ => false,
    }
}

/// Whether a term is an integer.
#[inline(always)]
pub fn is_integer(term: &Term) -> bool
    ensures { result ≡ integer_kind term.now }
{
    matches!(term.view(), View::Int(_))
}

/// Whether a term is a list, also an improper one, whose last tail is no list.
#[inline(always)]
pub fn is_list(term: &Term) -> bool
    ensures { result ≡ list_kind term.now }
{
    matches!(term.view(), View::Nil | View::Cons(_, _))
}

/// Whether a term is a pid.
#[inline(always)]
pub fn is_pid(term: &Term) -> bool
    ensures { result ≡ pid_kind term.now }
{
    matches!(term.view(), View::Pid(_))
}

/// Whether a term is a tuple.
#[inline(always)]
pub fn is_tuple(term: &Term) -> bool
    ensures { result ≡ tuple_kind term.now }
{
    matches!(term.view(), View::Tuple(_))
}

/// What the atoms `true` and `false` stand for, and `None` for any other term.
#[inline(always)]
pub fn truth(term: &Term) -> Option<bool>
    ensures { result ≡ truth_of term.now }
{
    match term.view() {
        View::Atom(fixed::TRUE) => Some(true),
        View::Atom(fixed::FALSE) => Some(false),
        _ => None,
    }
}
