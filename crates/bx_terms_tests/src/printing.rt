//! Terms in print, written down by hand.

use crate::built::Flat::{Int, Nil, Pid};
use crate::built::{list, tuple};
use bx_terms::{AtomId, Atoms, Fault, Term, print};
use std::alloc::{AllocError, Global};
use std::test::Fail;

/// [1|{2}].
fn before_a_tuple(alloc: Global) -> Result<Term, AllocError> {
    let last = tuple(alloc, &[Int(2)])?;
    list(alloc, &[Int(1)], last)
}

fn term_at(alloc: Global, place: usize) -> Result<Term, AllocError> {
    match place {
        0 => Ok(Term::int(i64::MIN)),
        1 => Ok(Term::int(i64::MAX)),
        2 => Ok(Term::atom(AtomId(80))),
        3 => Ok(Term::atom(AtomId(81))),
        4 => Ok(Term::pid(1_023)),
        5 => Ok(Term::nil()),
        6 => tuple(alloc, &[]),
        7 => tuple(alloc, &[Int(1), Nil, Pid(0)]),
        8 => list(alloc, &[Int(97), Int(98)], Term::nil()),
        9 => list(alloc, &[Nil, Int(0)], Term::atom(AtomId(80))),
        _ => before_a_tuple(alloc),
    }
}

/// What each term is in print, in a table with one atom of its own, 'Z', by the number 80.
static TEXTS: [&str; 11] = [
    "-9223372036854775808",
    "9223372036854775807",
    "'Z'",
    "?",
    "<0.1023.0>",
    "[]",
    "{}",
    "{1,[],<0.0.0>}",
    "[97,98]",
    "[[],0|'Z']",
    "[1|{2}]",
];

fn is_printed(alloc: Global, atoms: &Atoms, place: usize, want: &str) -> Result<bool, AllocError> {
    let term = term_at(alloc, place)?;
    let printed = print(alloc, atoms, &term)?;
    Ok(printed.as_str() == want)
}

fn prints(alloc: Global, place: usize, want: &str) -> Result<bool, Fault> {
    let mut atoms = Atoms::new(alloc)?;
    let first_new = atoms.name(alloc, "Z")?;
    Ok(first_new.0 == 80 && is_printed(alloc, &atoms, place, want)?)
}

#[test]
fn terms_by_hand(rt: HostRuntime) -> Result<(), Fail> {
    for (place, want) in TEXTS.iter().enumerate() {
        assert!(rt; prints(rt.alloc(), place, *want)?, "{want}");
    }
    Ok(())
}
