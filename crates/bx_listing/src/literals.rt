//! The terms of literals.

ghost use Rattle.std.specs.Prelude.{◌≡◌, IfOk, option_map};
ghost use Rattle.bx_text.specs.Tree.{chain};
ghost use Rattle.bx_text.specs.View.{tail_seen, elements_seen};
ghost use Rattle.bx_listing.specs.Literals.{sort_name, kept_cons, kept_before, kept_list, kept_tuple, literal, parts, IsNode};
ghost use Rattle.bx_listing.specs.LiteralRows.{row_of, with_last};
ghost use Rattle.bx_listing.specs.Reading.{Answers};

use crate::form_reader::{FormReader, literal_range};
use bx_terms::{Atoms, Fault, Term, TermRefusal};
use bx_text::{Elements, Node, Sort, View};
use std::alloc::{AllocError, Global};

/// The elements of a tuple or a list, and what follows them. What is too high is not kept, nor what holds it.
#[derive(Drop)]
struct Row {
    elements: Option<Vec<Term>>,
    tail: Option<Term>,
}

impl FormReader {
    /// The term of a literal, or `None` where it is higher than terms may be.
    ///
    /// All of it is read even then, so that the first fault in it is found, and its atoms are numbered.
    #[cycle(literal)]
    pub(crate) fn literal(self, atoms: &mut Atoms, node: &Node) -> Result<Option<Term>, Fault>
        ensures read { Answers (λ term. term) atoms.old atoms.new result
            (literal node.now) }
        ensures node { IsNode node.now }
    {
        match node.view() {
            View::Integer(value) => Ok(Some(Term::int(value))),
            View::Large(_) => Err(literal_range()),
            View::Atom(text) => {
                let atom = self.name_atom(atoms, text)?;
                Ok(Some(Term::atom(atom)))
            }
            View::Tuple(elements) => {
                let row = self.literal_row(atoms, Elements::Nodes(elements), None)?;
                Ok(tuple(self.alloc, row.elements)?)
            }
            View::List(elements, tail) => {
                let row = self.literal_row(atoms, elements, tail)?;
                Ok(list(self.alloc, row)?)
            }
            View::Other(sort, _) => Err(self.unsupported(sort_name(sort))?),
        }
    }

    #[cycle(literal)]
    fn literal_row(
        self,
        atoms: &mut Atoms,
        elements: Elements,
        tail: Option<&Node>,
    ) -> Result<Row, Fault>
        ensures { Answers row_of atoms.old atoms.new result
            (parts (chain (elements_seen elements.entry) (tail_seen tail.entry))).row }
    {
        let mut kept = Some(Vec::new(self.alloc));
        for i in 0..elements.len() {
            match self.literal(atoms, elements.at(i).node()) {
                Ok(term) => kept = with_last(kept, term)?,
                Err(fault) => return Err(fault),
            }
        }
        match tail {
            Some(node) => match self.literal(atoms, node) {
                Ok(tail) => Ok(Row {
                    elements: kept,
                    tail,
                }),
                Err(fault) => Err(fault),
            },
            None => Ok(Row {
                elements: kept,
                tail: Some(Term::nil()),
            }),
        }
    }
}

/// How a refusal names a term that stands for none here.
fn sort_name(sort: Sort) -> &'static str
    ensures { result.now ≡ sort_name sort }
{
    match sort {
        Sort::Float => "float",
        Sort::Map => "map",
        Sort::Binary => "binary",
        Sort::Fun => "fun",
    }
}

fn with_last(terms: Option<Vec<Term>>, term: Option<Term>) -> Result<Option<Vec<Term>>, AllocError>
    ensures { IfOk result (λ longer. option_map (λ ts. ts.items) longer ≡ with_last
        (option_map (λ ts. ts.items) terms) term) }
{
    match (terms, term) {
        (Some(mut terms), Some(term)) => {
            terms.push(term)?;
            Ok(Some(terms))
        }
        _ => Ok(None),
    }
}

/// The list cell of both, where the tail is kept and the cell is not too high.
fn cell(alloc: Global, head: Term, tail: Option<Term>) -> Result<Option<Term>, AllocError>
    ensures { IfOk result (λ term. term ≡ kept_cons head tail) }
{
    let Some(tail) = tail else {
        return Ok(None);
    };
    match Term::cons(alloc, head, tail) {
        Ok(term) => Ok(Some(term)),
        Err((TermRefusal::TooHigh, ..)) => Ok(None),
        Err((TermRefusal::Memory, ..)) => Err(AllocError),
    }
}

fn list(alloc: Global, row: Row) -> Result<Option<Term>, AllocError>
    ensures { IfOk result
        (λ term. term ≡ kept_list (option_map (λ ts. ts.items) row.elements) row.tail) }
{
    let Row { elements, tail } = row;
    match elements {
        Some(elements) => list_before(alloc, elements, tail),
        None => Ok(None),
    }
}

#[tactic(auto, using(crate::proofs::LiteralRows::last_before))]
/// The list of these elements before that tail.
fn list_before(
    alloc: Global,
    mut elements: Vec<Term>,
    tail: Option<Term>,
) -> Result<Option<Term>, AllocError>
    ensures { IfOk result (λ term. term ≡ kept_before elements.items tail) }
{
    let mut list = tail;
    while let Some(element) = elements.pop() {
        list = cell(alloc, element, list)?;
    }
    Ok(list)
}

fn tuple(alloc: Global, elements: Option<Vec<Term>>) -> Result<Option<Term>, AllocError>
    ensures { IfOk result (λ term. term ≡ kept_tuple (option_map (λ ts. ts.items) elements)) }
{
    let Some(elements) = elements else {
        return Ok(None);
    };
    match Term::tuple(alloc, elements) {
        Ok(term) => Ok(Some(term)),
        Err((TermRefusal::TooHigh, _)) => Ok(None),
        Err((TermRefusal::Memory, _)) => Err(AllocError),
    }
}
