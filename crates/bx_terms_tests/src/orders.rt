//! The order of terms, worked out by hand from the Erlang Reference Manual, "Term Comparisons".

use crate::built::Flat::Int;
use crate::built::{list, table_of, tuple};
use bx_terms::{AtomId, Atoms, Fault, Term, order};
use std::alloc::{AllocError, Global};
use std::test::Fail;

/// Numbers stand against texts: what is named first comes last.
static NAMES: [&str; 5] = ["\u{10000}", "\u{ffff}", "ab", "a", ""];

fn table(alloc: Global) -> Result<Atoms, Fault> {
    table_of(alloc, &NAMES)
}

fn named(atoms: &Atoms, text: &str) -> Term {
    match atoms.find(text) {
        Some(id) => Term::atom(id),
        None => Term::nil(),
    }
}

/// Each term comes before those of higher places.
fn term_at(alloc: Global, atoms: &Atoms, place: u8) -> Result<Term, AllocError> {
    match place {
        0 => Ok(Term::int(i64::MIN)),
        1 => Ok(Term::int(-1)),
        2 => Ok(Term::int(10)),
        3 => Ok(named(atoms, "")),
        4 => Ok(named(atoms, "a")),
        5 => Ok(named(atoms, "ab")),
        6 => Ok(named(atoms, "\u{ffff}")),
        7 => Ok(named(atoms, "\u{10000}")),
        8 => Ok(Term::atom(AtomId(70_000))),
        9 => Ok(Term::atom(AtomId(70_001))),
        10 => Ok(Term::pid(2)),
        11 => Ok(Term::pid(10)),
        12 => tuple(alloc, &[]),
        13 => tuple(alloc, &[Int(7)]),
        14 => tuple(alloc, &[Int(1), Int(1)]),
        15 => tuple(alloc, &[Int(1), Int(2)]),
        16 => Ok(Term::nil()),
        17 => list(alloc, &[Int(1)], Term::int(5)),
        18 => list(alloc, &[Int(1)], Term::nil()),
        19 => list(alloc, &[Int(1), Int(0)], Term::nil()),
        _ => list(alloc, &[Int(2)], Term::nil()),
    }
}

/// Whether the terms of two places are ordered as the places, and are the same only where those are.
fn are_ordered(alloc: Global, atoms: &Atoms, i: u8, k: u8) -> Result<bool, AllocError> {
    let first = term_at(alloc, atoms, i)?;
    let second = term_at(alloc, atoms, k)?;
    Ok(order(atoms, &first, &second) == i.cmp(&k) && first.same(&second) == (i == k))
}

/// The first place whose term is not ordered so against that of place `i`.
fn misplaced(alloc: Global, i: u8) -> Result<Option<u8>, Fault> {
    let atoms = table(alloc)?;
    for k in 0..21u8 {
        if !are_ordered(alloc, &atoms, i, k)? {
            return Ok(Some(k));
        }
    }
    Ok(None)
}

#[test]
fn in_order(rt: HostRuntime) -> Result<(), Fail> {
    for i in 0..21u8 {
        assert_eq!(rt; misplaced(rt.alloc(), i)?, None, "{i}");
    }
    Ok(())
}
