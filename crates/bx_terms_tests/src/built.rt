//! Terms and tables to test with, built in few calls. Out of memory is the only refusal of a term that can come.
//!
//! These promise nothing, so that each test is proved beside few clauses.

use bx_terms::{AtomId, Atoms, Fault, Term};
use std::alloc::{AllocError, Global};

/// A term that holds no other.
#[derive(Clone, Copy)]
pub enum Flat {
    Int(i64),
    Atom(AtomId),
    Pid(u32),
    Nil,
}

fn term(flat: Flat) -> Term {
    match flat {
        Flat::Int(number) => Term::int(number),
        Flat::Atom(atom) => Term::atom(atom),
        Flat::Pid(pid) => Term::pid(pid),
        Flat::Nil => Term::nil(),
    }
}

/// The number of an atom in a table, a new one where it is not there.
pub fn atom(alloc: Global, atoms: &mut Atoms, text: &str) -> Result<AtomId, Fault> {
    atoms.name(alloc, text)
}

/// A new table with these names.
pub fn table_of(alloc: Global, names: &[&str]) -> Result<Atoms, Fault> {
    let mut atoms = Atoms::new(alloc)?;
    for name in names {
        atom(alloc, &mut atoms, *name)?;
    }
    Ok(atoms)
}

pub fn int(number: i64) -> Term {
    Term::int(number)
}

pub fn cons(alloc: Global, head: Term, tail: Term) -> Result<Term, AllocError> {
    Term::cons(alloc, head, tail).map_err(|_| AllocError)
}

/// A list of these, before `tail`.
pub fn list(alloc: Global, heads: &[Flat], tail: Term) -> Result<Term, AllocError> {
    let mut list = tail;
    for head in heads.iter().rev() {
        list = cons(alloc, term(*head), list)?;
    }
    Ok(list)
}

pub fn tuple_of(alloc: Global, elements: Vec<Term>) -> Result<Term, AllocError> {
    Term::tuple(alloc, elements).map_err(|_| AllocError)
}

/// A tuple of these.
pub fn tuple(alloc: Global, flats: &[Flat]) -> Result<Term, AllocError> {
    let mut elements = Vec::new(alloc);
    for element in flats {
        elements.push(term(*element))?;
    }
    tuple_of(alloc, elements)
}
