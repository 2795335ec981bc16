//! Terms as high as they may be, and one higher.

use bx_terms::{MAX_HEIGHT, Term, TermRefusal};
use std::alloc::{AllocError, Global};
use std::test::Fail;

fn is_shareable<T: Send + Sync>(_: &T) -> bool {
    true
}

fn single(alloc: Global, element: Term) -> Result<Term, TermRefusal> {
    let mut elements = Vec::new(alloc);
    if elements.push(element).is_err() {
        return Err(TermRefusal::Memory);
    }
    Term::tuple(alloc, elements).map_err(|refused| refused.0)
}

/// The term, in a cell as its tail or its head, or in a tuple of one element.
fn around(alloc: Global, shape: u8, term: Term) -> Result<Term, TermRefusal> {
    match shape {
        0 => Term::cons(alloc, Term::nil(), term).map_err(|refused| refused.0),
        1 => Term::cons(alloc, term, Term::nil()).map_err(|refused| refused.0),
        _ => single(alloc, term),
    }
}

/// `levels` cells or tuples of one element around the empty list.
fn nested(alloc: Global, levels: u32, shape: u8) -> Result<Term, TermRefusal> {
    let mut term = Term::nil();
    for _ in 0..levels {
        term = around(alloc, shape, term)?;
    }
    Ok(term)
}

/// Whether the two and a copy of the first are the same.
fn are_same(alloc: Global, term: &Term, other: &Term) -> Result<bool, AllocError> {
    let copy = term.copy(alloc)?;
    Ok(term.same(other) && copy.same(other))
}

fn is_as_high(alloc: Global, shape: u8) -> Result<bool, TermRefusal> {
    let term = nested(alloc, MAX_HEIGHT, shape)?;
    let other = nested(alloc, MAX_HEIGHT, shape)?;
    let are_same = are_same(alloc, &term, &other).map_err(|_| TermRefusal::Memory)?;
    Ok(term.height() == 10_000 && is_shareable(&term) && are_same)
}

#[test]
fn as_high_as_may_be(rt: HostRuntime) -> Result<(), Fail> {
    for shape in 0..3u8 {
        assert!(rt; is_as_high(rt.alloc(), shape)?, "{shape}");
        let past = nested(rt.alloc(), MAX_HEIGHT + 1, shape);
        assert!(rt; matches!(past, Err(TermRefusal::TooHigh)), "{shape}");
    }
    Ok(())
}
