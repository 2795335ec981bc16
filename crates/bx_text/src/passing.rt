//! Terms that are passed over: they are read and not built, which takes no memory.

ghost use Rattle.std.specs.Prelude.{◌≡◌, suc};
ghost use Rattle.bx_terms.specs.Outcomes.{Gives};
ghost use Rattle.bx_text.specs.Place.{place};
ghost use Rattle.bx_text.specs.Token.{lexeme_of, token_of, open_map};
ghost use Rattle.bx_text.specs.Grammar.{IsToken};
ghost use Rattle.bx_text.specs.Terms as terms;
ghost use Rattle.bx_text.specs.Passing.{element_passed, tuple_passed, tail_passed, end_passed, list_passed};

use crate::binaries::binary;
use crate::brackets::{list_end, misplaced, too_deep, tuple_end, unended};
use crate::follows::follow;
use crate::kept::{fun, kept};
use crate::lexemes::{Lexeme, closes_list, closes_tuple, is_bar};
use crate::lexing::advance;
use crate::node::{Node, Sort};
use crate::strings::pass_strings;
use crate::tokens::{Mark, Token};
use crate::wanted::{Wanted, want};
use bx_terms::Fault;

/// Passes over the term that begins with the token held, where brackets may nest `depth` deep; its last token is held then.
#[cycle(pass)]
pub(crate) fn pass<'a>(l: &mut Lexeme<'a>, depth: u32) -> Result<(), Fault>
    requires { IsToken (lexeme_of l.old) }
    ensures { Gives ⊥ (λ _. place l.new.after) result (terms.passed (terms.term_at depth (lexeme_of l.old))) }
{
    match l.token {
        Token::Integer(_) | Token::Large(_) | Token::Atom(_) => Ok(()),
        Token::Float => {
            let _ = kept(*l, l.after, Sort::Float)?;
            Ok(())
        }
        Token::Mark(Mark::Fun) => {
            let _ = fun(l)?;
            Ok(())
        }
        Token::Mark(_) => Err(misplaced(l)),
        _ => pass_group(l, depth),
    }
}

/// Passes over the tuple, list, string, map or binary that begins with the token held.
#[cycle(pass)]
fn pass_group<'a>(l: &mut Lexeme<'a>, depth: u32) -> Result<(), Fault>
    requires { IsToken (lexeme_of l.old) }
    ensures { Gives ⊥ (λ _. place l.new.after) result (terms.passed (terms.group_at depth (lexeme_of l.old))) }
{
    if depth == 0 {
        return Err(too_deep(l));
    }
    pass_bracket(l, depth - 1)
}

/// Passes over a bracketed term, in which others may nest `depth` deep.
#[cycle(pass)]
fn pass_bracket<'a>(l: &mut Lexeme<'a>, depth: u32) -> Result<(), Fault>
    requires { IsToken (lexeme_of l.old) }
    ensures { Gives ⊥ (λ _. place l.new.after) result (terms.passed (terms.group_at (suc depth) (lexeme_of l.old))) }
{
    match l.token {
        Token::Text(_) => pass_strings(l),
        Token::OpenTuple => pass_tuple(l, depth),
        Token::OpenList => pass_list(l, depth),
        Token::OpenMap => {
            let _ = map(l, depth)?;
            Ok(())
        }
        Token::OpenBinary => {
            let _ = binary(l, depth)?;
            Ok(())
        }
        _ => Err(misplaced(l)),
    }
}

/// Passes over the tuple that begins with the token held, whose elements may nest `depth` deep.
#[cycle(pass)]
fn pass_tuple<'a>(l: &mut Lexeme<'a>, depth: u32) -> Result<(), Fault>
    ensures { Gives ⊥ (λ _. place l.new.after) result (tuple_passed (terms.term_at depth) (lexeme_of l.old)) }
{
    advance(l)?;
    if closes_tuple(l.token) {
        return Ok(());
    }
    pass_elements(l, depth)?;
    tuple_end(l)
}

/// Passes over the list that begins with the token held, whose elements may nest `depth` deep.
#[cycle(pass)]
fn pass_list<'a>(l: &mut Lexeme<'a>, depth: u32) -> Result<(), Fault>
    ensures { Gives ⊥ (λ _. place l.new.after) result (list_passed (terms.term_at depth) (lexeme_of l.old)) }
{
    advance(l)?;
    if closes_list(l.token) {
        return Ok(());
    }
    pass_elements(l, depth)?;
    pass_end(l, depth)
}

/// Passes over what follows a list's elements, from the token held on: its tail, and its closing mark.
#[cycle(pass)]
fn pass_end<'a>(l: &mut Lexeme<'a>, depth: u32) -> Result<(), Fault>
    ensures { Gives ⊥ (λ _. place l.new.after) result (end_passed (terms.term_at depth) (lexeme_of l.old)) }
{
    if is_bar(l.token) {
        pass_tail(l, depth)
    } else {
        list_end(l)
    }
}

/// Passes over the tail behind the token held, and the closing mark.
#[cycle(pass)]
fn pass_tail<'a>(l: &mut Lexeme<'a>, depth: u32) -> Result<(), Fault>
    ensures { Gives ⊥ (λ _. place l.new.after) result (tail_passed (terms.term_at depth) (lexeme_of l.old)) }
{
    pass_next(l, depth)?;
    advance(l)?;
    list_end(l)
}

/// Passes over the term behind the token held.
#[cycle(pass)]
pub(crate) fn pass_next<'a>(l: &mut Lexeme<'a>, depth: u32) -> Result<(), Fault>
    ensures { Gives ⊥ (λ _. place l.new.after) result (terms.value_at (terms.term_at depth) (place l.old.after)) }
{
    advance(l)?;
    pass(l, depth)
}

/// Passes over the element that begins with the token held: whether another follows, which is then held.
#[cycle(pass)]
fn pass_element<'a>(l: &mut Lexeme<'a>, depth: u32) -> Result<bool, Fault>
    requires { IsToken (lexeme_of l.old) }
    ensures { Gives ⊥ (λ more. terms.follow_by more (lexeme_of l.new)) result (element_passed (terms.term_at depth) (lexeme_of l.old)) }
{
    pass(l, depth)?;
    follow(l)
}

/// Passes over the elements from the token held on; held then is the first token that is no comma.
#[cycle(pass)]
fn pass_elements<'a>(l: &mut Lexeme<'a>, depth: u32) -> Result<(), Fault>
    requires { IsToken (lexeme_of l.old) }
    ensures { Gives ⊥ (λ _. lexeme_of l.new) result (terms.parts_at (element_passed (terms.term_at depth)) (lexeme_of l.old)) }
{
    // Each element takes a byte at least.
    for _turn in 0..l.after.rest.len() + 1 {
        match pass_element(l, depth) {
            Err(fault) => return Err(fault),
            Ok(false) => return Ok(()),
            Ok(true) => {}
        }
    }
    Err(unended(l))
}

/// Passes over the map's pair that begins with the token held: whether another follows, which is then held.
#[cycle(pass)]
fn pass_pair<'a>(l: &mut Lexeme<'a>, depth: u32) -> Result<bool, Fault>
    requires { IsToken (lexeme_of l.old) }
    ensures { Gives ⊥ (λ more. terms.follow_by more (lexeme_of l.new)) result (terms.pair_at (terms.term_at depth) (lexeme_of l.old)) }
{
    pass(l, depth)?;
    want(l, Wanted::Arrow)?;
    pass_next(l, depth)?;
    follow(l)
}

/// Passes over the map's pairs from the token held on; held then is the first token that is no comma.
#[cycle(pass)]
fn pass_pairs<'a>(l: &mut Lexeme<'a>, depth: u32) -> Result<(), Fault>
    requires { IsToken (lexeme_of l.old) }
    ensures { Gives ⊥ (λ _. lexeme_of l.new) result (terms.parts_at (terms.pair_at (terms.term_at depth)) (lexeme_of l.old)) }
{
    // Each pair takes a byte at least.
    for _turn in 0..l.after.rest.len() + 1 {
        match pass_pair(l, depth) {
            Err(fault) => return Err(fault),
            Ok(false) => return Ok(()),
            Ok(true) => {}
        }
    }
    Err(unended(l))
}

/// The map that begins with the token held, whose keys and values may nest `depth` deep.
#[cycle(pass)]
pub(crate) fn map<'a>(l: &mut Lexeme<'a>, depth: u32) -> Result<Node<'a>, Fault>
    requires stands { IsToken (lexeme_of l.old) }
    requires opens { token_of l.old.token ≡ open_map }
    ensures { Gives ⊥ (λ x. (x, place l.new.after)) result (terms.map_at (terms.term_at depth) (lexeme_of l.old)) }
{
    let first = *l;
    advance(l)?;
    if !closes_tuple(l.token) {
        pass_pairs(l, depth)?;
        tuple_end(l)?;
    }
    kept(first, l.after, Sort::Map)
}
