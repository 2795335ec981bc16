//! What the natives give that concern their caller alone.
//!
//! Source: module `erlang` of the ERTS Reference Manual; Erlang Reference Manual, "Expressions", for `++`.

ghost use Rattle.std.specs.Prelude.{◌≡◌, ◌+◌, ◌≤◌, ◌↔◌, length, Some, IfOk, OnErr, IsSome, IsTrue, MatchResult, option_map};
ghost use Rattle.bx_terms.specs.Built.{IsWithinHeight};
ghost use Rattle.bx_terms.specs.Tree.{tuple, listed, height};
ghost use Rattle.bx_bifs.specs.Given.{TakesMemory};
ghost use Rattle.bx_bifs.specs.Parts.{length_of};
ghost use Rattle.bx_bifs.specs.Passing.{passed};
ghost use Rattle.bx_bifs.specs.Values.{elements as elements_of, ahead, appended, tupled, untupled, put_at, with_element, native_value};

use crate::given::{Given, badarg, undef};
use crate::natives::Native;
use crate::parts::length;
use crate::passing::Passed;
use bx_terms::{MAX_HEIGHT, Term, Trap, View};
use std::alloc::{AllocError, Global};

/// What a native gives that concerns its caller alone, which are `++`, `setelement`, `list_to_tuple` and `tuple_to_list`:
/// a value, the fault `badarg`, or the trap `TermHeight` where the value would be higher than 10,000. Another native, and
/// another number of arguments than the native's own, gives the fault `undef`.
///
/// It can only run out of memory, and only where the value is a tuple or a list cell.
#[tactic(auto, unfolding(crate::specs::Values::native_value))]
pub fn native_value(
    alloc: Global,
    native: Native,
    arguments: Passed<'_>,
) -> Result<Given, AllocError>
    ensures { MatchResult result (λ given. given ≡ native_value native (passed arguments.entry))
        (λ _. TakesMemory (native_value native (passed arguments.entry))) }
{
    match (native, arguments) {
        (Native::Append, Passed::Two(list, rest)) => append(alloc, list, rest),
        (Native::SetElement, Passed::Three(place, tuple, new)) => {
            set_element(alloc, place, tuple, new)
        }
        (Native::ListToTuple, Passed::One(list)) => list_to_tuple(alloc, list),
        (Native::TupleToList, Passed::One(tuple)) => tuple_to_list(alloc, tuple),
        _ => Ok(undef()),
    }
}

/// `++`: the elements of a proper list before any term. The fault `badarg` where the first is no proper list, and the trap
/// `TermHeight` where the whole would be higher than 10,000.
#[tactic(auto, using(crate::proofs::Joining::none_joined, crate::proofs::Joining::nothing_joined, crate::proofs::Joining::nothing_takes, crate::proofs::Joining::few, crate::proofs::Joining::joined_high, crate::proofs::Joining::joined_takes, crate::proofs::Joining::joined_low))]
fn append(alloc: Global, list: &Term, rest: &Term) -> Result<Given, AllocError>
    ensures { MatchResult result (λ given. given ≡ appended list.now rest.now)
        (λ _. TakesMemory (appended list.now rest.now)) }
{
    // That no term is higher than 10,000 is a promise of its calls.
    let _heights = (list.height(), rest.height());
    match length(list) {
        None => Ok(badarg()),
        Some(0) => Ok(Given::Value(rest.copy(alloc)?)),
        Some(count) if count + rest.height() > MAX_HEIGHT => Ok(Given::Trap(Trap::TermHeight)),
        Some(count) => join(alloc, list, count, rest),
    }
}

/// The elements of a proper list of that length before any term, where the whole is low enough.
#[tactic(auto, using(crate::proofs::Joining::joined_low, crate::proofs::Joining::joined))]
fn join(alloc: Global, list: &Term, count: u32, rest: &Term) -> Result<Given, AllocError>
    requires counted { Some count ≡ length_of list.now }
    requires low { IsWithinHeight list.now }
    requires within { count + height rest.now ≤ 10000 }
    requires takes { TakesMemory (appended list.now rest.now) }
    ensures { MatchResult result (λ given. given ≡ appended list.now rest.now)
        (λ _. TakesMemory (appended list.now rest.now)) }
{
    let Some(terms) = gather(alloc, list)? else {
        return Ok(badarg());
    };
    let rest = rest.copy(alloc)?;
    let joined = put_ahead(alloc, terms, rest)?;
    Ok(Given::Value(joined))
}

/// `list_to_tuple`: the tuple of a proper list's elements, which is no higher than the list. The fault `badarg` for any other
/// term.
#[tactic(auto, using(crate::proofs::Joining::none_tupled, crate::proofs::Joining::tupled_takes))]
fn list_to_tuple(alloc: Global, list: &Term) -> Result<Given, AllocError>
    ensures { MatchResult result (λ given. given ≡ tupled list.now)
        (λ _. TakesMemory (tupled list.now)) }
{
    // That no term is higher than 10,000 is a promise of its calls.
    let _height = list.height();
    match length(list) {
        None => Ok(badarg()),
        Some(_) => tuple_from(alloc, list),
    }
}

/// The tuple of a proper list's elements.
#[tactic(auto, using(crate::proofs::Joining::tupled_low, crate::proofs::Joining::tupled_is))]
fn tuple_from(alloc: Global, list: &Term) -> Result<Given, AllocError>
    requires low { IsWithinHeight list.now }
    requires takes { TakesMemory (tupled list.now) }
    ensures { MatchResult result (λ given. given ≡ tupled list.now)
        (λ _. TakesMemory (tupled list.now)) }
{
    let Some(terms) = gather(alloc, list)? else {
        return Ok(badarg());
    };
    let tuple = tuple_of(alloc, terms)?;
    Ok(Given::Value(tuple))
}

/// `tuple_to_list`: the list of a tuple's elements. The fault `badarg` for any other term, and the trap `TermHeight` where
/// the list would be higher than 10,000.
#[tactic(auto, using(crate::proofs::Building::elements_listed, crate::proofs::Joining::untupled_empty, crate::proofs::Joining::untupled_high, crate::proofs::Joining::untupled_takes, crate::proofs::Joining::untupled_low, crate::proofs::Joining::untupled_is))]
fn tuple_to_list(alloc: Global, tuple: &Term) -> Result<Given, AllocError>
    ensures { MatchResult result (λ given. given ≡ untupled tuple.now)
        (λ _. TakesMemory (untupled tuple.now)) }
{
    let View::Tuple(elements) = tuple.view() else {
        return Ok(badarg());
    };
    if elements.is_empty() {
        return Ok(Given::Value(Term::nil()));
    }
    if !is_low_as_list(elements) {
        return Ok(Given::Trap(Trap::TermHeight));
    }
    let terms = copies(alloc, elements)?;
    let list = put_ahead(alloc, terms, Term::nil())?;
    Ok(Given::Value(list))
}

/// `setelement`: the tuple with a term in the place of one of its elements, which are counted from 1. The fault `badarg`
/// where the first is no integer, the second no tuple, or where there is no such element.
#[tactic(auto, using(crate::proofs::Building::elements_listed))]
fn set_element(alloc: Global, place: &Term, tuple: &Term, term: &Term) -> Result<Given, AllocError>
    ensures { MatchResult result (λ given. given ≡ with_element place.now tuple.now term.now)
        (λ _. TakesMemory (with_element place.now tuple.now term.now)) }
{
    let (View::Int(place), View::Tuple(elements)) = (place.view(), tuple.view()) else {
        return Ok(badarg());
    };
    put_at(alloc, elements, place, term)
}

#[tactic(auto, using(crate::proofs::Building::put_before, crate::proofs::Building::put_past, crate::proofs::Joining::put_high, crate::proofs::Joining::put_takes, crate::proofs::Joining::put_low, crate::proofs::Building::put_there, crate::proofs::Building::none_ahead))]
fn put_at(alloc: Global, elements: &[Term], place: i64, term: &Term) -> Result<Given, AllocError>
    requires { IsWithinHeight (tuple (listed elements.now)) }
    ensures { MatchResult result (λ given. given ≡ put_at place term.now elements.now)
        (λ _. TakesMemory (put_at place term.now elements.now)) }
{
    if place < 1 {
        return Ok(badarg());
    }
    let index = (place - 1) as usize;
    if index >= elements.len() {
        return Ok(badarg());
    }
    if term.height() == MAX_HEIGHT {
        return Ok(Given::Trap(Trap::TermHeight));
    }
    let mut terms = copies(alloc, elements)?;
    terms[index] = term.copy(alloc)?;
    let tuple = tuple_of(alloc, terms)?;
    Ok(Given::Value(tuple))
}

/// The elements of a proper list, and `None` for any other term. Memory is taken only for a proper list.
pub fn elements(alloc: Global, list: &Term) -> Result<Option<Vec<Term>>, AllocError>
    ensures ok { IfOk result
        (λ found. option_map (λ v. v.items) found ≡ elements_of list.now) }
    ensures err { OnErr result (IsSome (elements_of list.now)) }
{
    match length(list) {
        None => Ok(None),
        Some(_) => gather(alloc, list),
    }
}

/// The elements of a list whose length is known.
#[tactic(auto, using(crate::proofs::Building::one_more, crate::proofs::Building::at_start, crate::proofs::Building::at_end))]
fn gather(alloc: Global, list: &Term) -> Result<Option<Vec<Term>>, AllocError>
    ensures { IfOk result (λ found. option_map (λ v. v.items) found ≡ elements_of list.now) }
{
    let mut terms = Vec::new(alloc);
    let mut rest = list;
    while let View::Cons(head, tail) = rest.view() {
        terms.push(head.copy(alloc)?)?;
        rest = tail;
    }
    match rest.view() {
        View::Nil => Ok(Some(terms)),
        _ => Ok(None),
    }
}

fn copies(alloc: Global, terms: &[Term]) -> Result<Vec<Term>, AllocError>
    ensures { IfOk result (λ v. v.items ≡ terms.now) }
{
    let mut copies = Vec::new(alloc);
    copies.extend_with_clones(terms)?;
    Ok(copies)
}

fn tuple_of(alloc: Global, terms: Vec<Term>) -> Result<Term, AllocError>
    requires { IsWithinHeight (tuple (listed terms.items)) }
    ensures { IfOk result (λ term. term ≡ tuple (listed terms.items)) }
{
    match Term::tuple(alloc, terms) {
        Ok(term) => Ok(term),
        Err(_) => Err(AllocError),
    }
}

/// A list cell for each of the terms, the last of them first.
#[tactic(auto, using(crate::proofs::Building::one_ahead))]
fn put_ahead(alloc: Global, terms: Vec<Term>, rest: Term) -> Result<Term, AllocError>
    requires { IsWithinHeight (ahead terms.items rest) }
    ensures { IfOk result (λ list. list ≡ ahead terms.items rest) }
{
    let mut terms = terms;
    let mut list = rest;
    while let Some(term) = terms.pop() {
        list = match Term::cons(alloc, term, list) {
            Ok(longer) => longer,
            Err(_) => return Err(AllocError),
        };
    }
    Ok(list)
}

/// Whether the list of some terms is no higher than 10,000.
#[tactic(auto, using(crate::proofs::Joining::left_at))]
fn is_low_as_list(terms: &[Term]) -> bool
    ensures { IsTrue result ↔ IsWithinHeight (listed terms.now) }
{
    for above in 0..terms.len() {
        if above + 1 + terms[above].height() as usize > MAX_HEIGHT as usize {
            return false;
        }
    }
    true
}
