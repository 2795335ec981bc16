//! Parts and sizes of lists and tuples.
//!
//! Source: module `erlang` of the ERTS Reference Manual: `hd/1`, `tl/1`, `length/1`, `tuple_size/1`, `element/2`.

ghost use Rattle.std.specs.Prelude.{◌≡◌, option_map};
ghost use Rattle.bx_bifs.specs.Parts.{head_of, tail_of, length_of, size_of, part_from_one, element_of, element_from_zero};
ghost use Rattle.bx_terms.specs.Tree.{listed};

use bx_terms::{Term, View};

/// The head of a list cell, and `None` for any other term.
#[inline(always)]
pub fn head(list: &Term) -> Option<&Term>
    ensures { option_map (λ term. term.now) result ≡ head_of list.now }
{
    match list.view() {
        View::Cons(head, _) => Some(head),
        _ => None,
    }
}

/// The tail of a list cell, and `None` for any other term.
#[inline(always)]
pub fn tail(list: &Term) -> Option<&Term>
    ensures { option_map (λ term. term.now) result ≡ tail_of list.now }
{
    match list.view() {
        View::Cons(_, tail) => Some(tail),
        _ => None,
    }
}

/// The number of elements of a proper list, and `None` for any other term.
#[tactic(auto, using(crate::proofs::Lists::one_more, crate::proofs::Lists::none_counted))]
pub fn length(list: &Term) -> Option<u32>
    ensures { result ≡ length_of list.now }
{
    let _height = list.height();
    let mut rest = list;
    let mut count = 0;
    while let View::Cons(_, tail) = rest.view() {
        count += 1;
        rest = tail;
    }
    match rest.view() {
        View::Nil => Some(count),
        _ => None,
    }
}

/// The number of elements of a tuple, and `None` for any other term.
#[inline(always)]
#[tactic(auto, using(bx_terms::proofs::Rows::size_listed))]
pub fn size(tuple: &Term) -> Option<usize>
    ensures { result ≡ size_of tuple.now }
{
    match tuple.view() {
        View::Tuple(elements) => Some(elements.len()),
        _ => None,
    }
}

/// The element of a tuple at a place from 0, and `None` where there is none.
#[inline(always)]
#[tactic(auto, using(crate::proofs::Lists::part_here, crate::proofs::Lists::part_past))]
pub fn element_from_zero(tuple: &Term, place: usize) -> Option<&Term>
    ensures { option_map (λ term. term.now) result ≡ element_from_zero place tuple.now }
{
    let View::Tuple(elements) = tuple.view() else {
        return None;
    };
    if place < elements.len() {
        Some(&elements[place])
    } else {
        None
    }
}

/// The element of a tuple at a place from 1, and `None` where there is none.
pub fn element<'a>(place: &Term, tuple: &'a Term) -> Option<&'a Term>
    ensures { option_map (λ term. term.now) result ≡ element_of place.now tuple.now }
{
    match (place.view(), tuple.view()) {
        (View::Int(place), View::Tuple(elements)) => at(elements, place),
        _ => None,
    }
}

#[tactic(auto, using(crate::proofs::Lists::part_here, crate::proofs::Lists::part_past, crate::proofs::Lists::part_before))]
fn at(elements: &[Term], place: i64) -> Option<&Term>
    ensures { option_map (λ term. term.now) result ≡ part_from_one (listed elements.now) place }
{
    if place < 1 {
        return None;
    }
    let index = (place - 1) as usize;
    if index < elements.len() {
        Some(&elements[index])
    } else {
        None
    }
}
