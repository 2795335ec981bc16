//! Terms: which one begins at a token.

ghost use Rattle.std.specs.Prelude.{◌≡◌, ◌++◌, ◌∷◌, [], IfOk, OnOk, IsOk, IsOkAnd, suc, true, false};
ghost use Rattle.bx_terms.specs.Outcomes.{Gives};
ghost use Rattle.bx_text.specs.Place.{place};
ghost use Rattle.bx_text.specs.Token.{lexeme_of, token_of, body_of, IsEscaped};
ghost use Rattle.bx_text.specs.Form.{tail_tree};
ghost use Rattle.bx_text.specs.Grammar.{IsToken};
ghost use Rattle.bx_text.specs.Tree.{integer, atom, chain};
ghost use Rattle.bx_text.specs.Lexing as lexing;
ghost use Rattle.bx_text.specs.Terms as terms;
ghost use Rattle.bx_text.specs.Rows.{prefixed, chained, joined, closing, splicing};

use crate::binaries::binary;
use crate::brackets::{list_end, misplaced, too_deep, tuple_end, unended};
use crate::follows::follow;
use crate::kept::{fun, kept};
use crate::lexemes::{Lexeme, closes_list, closes_tuple, is_bar, span, spells_list};
use crate::lexing::advance;
use crate::node::{Node, Sort};
use crate::passing::map;
use crate::strings::{splice, string};
use crate::tokens::{Body, Mark, Token};
use crate::word::Word;
use bx_terms::Fault;
use std::alloc::{AllocError, Global};

/// The atom that the token held spells.
fn atom<'a>(alloc: Global, l: &Lexeme<'a>, body: Body<'a>) -> Result<Node<'a>, Fault>
    ensures { Gives (IsEscaped (body_of body.entry)) (λ x. x) result (Ok (terms.atom_by (lexeme_of l.now) (body_of body.entry))) }
{
    Ok(Node::atom(span(*l, l.after), Word::of(alloc, body)?))
}

/// The term that begins with the token held, where brackets may nest `depth` deep; its last token is held then.
#[cycle(term)]
pub(crate) fn term<'a>(alloc: Global, l: &mut Lexeme<'a>, depth: u32) -> Result<Node<'a>, Fault>
    requires { IsToken (lexeme_of l.old) }
    ensures { Gives (terms.keeps depth (lexeme_of l.old)) (λ x. (x, place l.new.after)) result (terms.term_at depth (lexeme_of l.old)) }
{
    match l.token {
        Token::Integer(n) => Ok(Node::integer(span(*l, l.after), n)),
        Token::Large(large) => Ok(Node::large(span(*l, l.after), large)),
        Token::Float => kept(*l, l.after, Sort::Float),
        Token::Atom(body) => atom(alloc, l, body),
        Token::Mark(Mark::Fun) => fun(l),
        Token::Mark(_) => Err(misplaced(l)),
        _ => group(alloc, l, depth),
    }
}

/// The tuple, list, string, map or binary that begins with the token held.
#[cycle(term)]
fn group<'a>(alloc: Global, l: &mut Lexeme<'a>, depth: u32) -> Result<Node<'a>, Fault>
    requires { IsToken (lexeme_of l.old) }
    ensures { Gives (terms.keeps_group depth (lexeme_of l.old)) (λ x. (x, place l.new.after)) result (terms.group_at depth (lexeme_of l.old)) }
{
    if depth == 0 {
        return Err(too_deep(l));
    }
    bracket(alloc, l, depth - 1)
}

/// A bracketed term, in which others may nest `depth` deep.
#[cycle(term)]
fn bracket<'a>(alloc: Global, l: &mut Lexeme<'a>, depth: u32) -> Result<Node<'a>, Fault>
    requires { IsToken (lexeme_of l.old) }
    ensures { Gives (terms.keeps_group (suc depth) (lexeme_of l.old)) (λ x. (x, place l.new.after)) result (terms.group_at (suc depth) (lexeme_of l.old)) }
{
    match l.token {
        Token::Text(_) => string(alloc, l),
        Token::OpenTuple => tuple(alloc, l, depth),
        Token::OpenList => list(alloc, l, depth),
        Token::OpenMap => map(l, depth),
        Token::OpenBinary => binary(l, depth),
        _ => Err(misplaced(l)),
    }
}

/// Gives back the room behind an element that stands alone, as where brackets nest.
fn fit(elements: &mut Vec<Node<'_>>)
    ensures { elements.new.items ≡ elements.old.items }
{
    if elements.len() == 1 {
        elements.shrink_to_fit();
    }
}

/// The list that begins with the token held, whose elements may nest `depth` deep.
#[cycle(term)]
fn list<'a>(alloc: Global, l: &mut Lexeme<'a>, depth: u32) -> Result<Node<'a>, Fault>
    ensures { Gives (IsOkAnd (lexing.lexeme_at (place l.old.after)) (terms.kept depth)) (λ x. (x, place l.new.after)) result (terms.list_at (terms.term_at depth) (lexeme_of l.old)) }
{
    let first = *l;
    let mut elements = Vec::new(alloc);
    match rest(alloc, &mut elements, l, depth) {
        Ok(tail) => {
            fit(&mut elements);
            Ok(Node::list(span(first, l.after), elements, tail))
        }
        Err(fault) => Err(fault),
    }
}

/// The tuple that begins with the token held, whose elements may nest `depth` deep.
#[cycle(term)]
fn tuple<'a>(alloc: Global, l: &mut Lexeme<'a>, depth: u32) -> Result<Node<'a>, Fault>
    ensures { Gives (IsOkAnd (lexing.lexeme_at (place l.old.after)) (terms.kept depth)) (λ x. (x, place l.new.after)) result (terms.tuple_at (terms.term_at depth) (lexeme_of l.old)) }
{
    let first = *l;
    advance(l)?;
    let mut found = Vec::new(alloc);
    if !closes_tuple(l.token) {
        elements(alloc, &mut found, l, depth)?;
        tuple_end(l)?;
        fit(&mut found);
    }
    Ok(Node::tuple(span(first, l.after), found))
}

/// Puts the integer that the token held spells behind what was found.
#[inline(never)]
fn put_integer<'a>(found: &mut Vec<Node<'a>>, l: &Lexeme<'a>, n: i64) -> Result<(), AllocError>
    ensures { IfOk result (λ _. found.new.items ≡ found.old.items ++ integer (terms.span (lexeme_of l.now) (place l.now.after)) n ∷ []) }
{
    found.push(Node::integer(span(*l, l.after), n))?;
    Ok(())
}

/// Puts the atom of this text, which the token held spells, behind what was found.
#[inline(never)]
fn put_atom<'a>(found: &mut Vec<Node<'a>>, l: &Lexeme<'a>, text: &'a str) -> Result<(), AllocError>
    ensures { IfOk result (λ _. found.new.items ≡ found.old.items ++ atom (terms.span (lexeme_of l.now) (place l.now.after)) text.entry.now ∷ []) }
{
    found.push(Node::atom(span(*l, l.after), Word::borrowed(text)))?;
    Ok(())
}

/// Puts the element that begins with the token held behind what was found: whether another follows, which is then held.
#[inline(always)]
#[cycle(term)]
fn element<'a>(
    alloc: Global,
    found: &mut Vec<Node<'a>>,
    l: &mut Lexeme<'a>,
    depth: u32,
) -> Result<bool, Fault>
    requires { IsToken (lexeme_of l.old) }
    ensures { Gives (terms.kept depth (lexeme_of l.old)) (λ more. (found.new.items, terms.follow_by more (lexeme_of l.new))) result (joined found.old.items (terms.element_at (terms.term_at depth) (lexeme_of l.old))) }
{
    match l.token {
        Token::Integer(n) => put_integer(found, l, n)?,
        Token::Atom(Body::Plain(text)) => put_atom(found, l, text)?,
        _ => {
            let node = term(alloc, l, depth)?;
            found.push(node)?
        }
    }
    follow(l)
}

/// Puts the elements from the token held on behind what was found; held then is the first token that is no comma.
#[inline(always)]
#[cycle(term)]
fn elements<'a>(
    alloc: Global,
    found: &mut Vec<Node<'a>>,
    l: &mut Lexeme<'a>,
    depth: u32,
) -> Result<(), Fault>
    requires { IsToken (lexeme_of l.old) }
    ensures reads { Gives (terms.kept depth (lexeme_of l.old)) (λ _. (found.new.items, lexeme_of l.new)) result (prefixed found.old.items (terms.elements_at (terms.term_at depth) (lexeme_of l.old))) }
    ensures begins { OnOk result (IsOk (terms.term_at depth (lexeme_of l.old))) }
{
    // Each element takes a byte at least.
    for _turn in 0..l.after.rest.len() + 1 {
        match element(alloc, found, l, depth) {
            Err(fault) => return Err(fault),
            Ok(false) => return Ok(()),
            Ok(true) => {}
        }
    }
    Err(unended(l))
}

/// What follows a list's opening mark, which is held: its elements, behind what was found, and its tail.
#[cycle(term)]
fn rest<'a>(
    alloc: Global,
    found: &mut Vec<Node<'a>>,
    l: &mut Lexeme<'a>,
    depth: u32,
) -> Result<Option<Box<Node<'a>>>, Fault>
    ensures { Gives (IsOkAnd (lexing.lexeme_at (place l.old.after)) (terms.kept depth)) (λ x. (chain found.new.items (tail_tree x), place l.new.after)) result (chained found.old.items (terms.rest_at (terms.term_at depth) (place l.old.after))) }
{
    advance(l)?;
    if closes_list(l.token) {
        return Ok(None);
    }
    elements(alloc, found, l, depth)?;
    end(alloc, found, l, depth)
}

/// What follows a list's elements, from the token held on: its tail, and its closing mark.
#[cycle(term)]
fn end<'a>(
    alloc: Global,
    found: &mut Vec<Node<'a>>,
    l: &mut Lexeme<'a>,
    depth: u32,
) -> Result<Option<Box<Node<'a>>>, Fault>
    ensures { Gives (Unit {0}) (λ x. (chain found.new.items (tail_tree x), place l.new.after)) result (chained found.old.items (terms.end_at (terms.term_at depth) (lexeme_of l.old))) }
{
    if is_bar(l.token) {
        closed_tail(alloc, found, l, depth)
    } else {
        list_end(l)?;
        Ok(None)
    }
}

/// The tail behind the token held, and the closing mark.
#[cycle(term)]
fn closed_tail<'a>(
    alloc: Global,
    found: &mut Vec<Node<'a>>,
    l: &mut Lexeme<'a>,
    depth: u32,
) -> Result<Option<Box<Node<'a>>>, Fault>
    ensures { Gives (Unit {0}) (λ x. (chain found.new.items (tail_tree x), place l.new.after)) result (closing found.old.items (terms.term_at depth) (lexeme_of l.old)) }
{
    advance(l)?;
    let tail = tail(alloc, found, l, depth)?;
    advance(l)?;
    list_end(l)?;
    Ok(tail)
}

/// The tail that begins with the token held: a list's elements go behind what was found.
#[cycle(term)]
fn tail<'a>(
    alloc: Global,
    found: &mut Vec<Node<'a>>,
    l: &mut Lexeme<'a>,
    depth: u32,
) -> Result<Option<Box<Node<'a>>>, Fault>
    requires { IsToken (lexeme_of l.old) }
    ensures { Gives (Unit {0}) (λ x. (chain found.new.items (tail_tree x), place l.new.after)) result (chained found.old.items (terms.tail_at (terms.term_at depth) (lexeme_of l.old))) }
{
    if spells_list(l.token) {
        proper(alloc, found, l, depth)
    } else {
        improper(alloc, l, depth)
    }
}

/// The tail that begins with the token held, which begins a list.
#[cycle(term)]
fn proper<'a>(
    alloc: Global,
    found: &mut Vec<Node<'a>>,
    l: &mut Lexeme<'a>,
    depth: u32,
) -> Result<Option<Box<Node<'a>>>, Fault>
    requires { terms.spells_list (token_of l.old.token) ≡ true }
    ensures { Gives (Unit {0}) (λ x. (chain found.new.items (tail_tree x), place l.new.after)) result (chained found.old.items (terms.tail_at (terms.term_at depth) (lexeme_of l.old))) }
{
    if depth == 0 {
        return Err(too_deep(l));
    }
    spliced(alloc, found, l, depth - 1)
}

/// The tail that begins with the token held, which begins a list whose elements may nest `depth` deep.
#[cycle(term)]
fn spliced<'a>(
    alloc: Global,
    found: &mut Vec<Node<'a>>,
    l: &mut Lexeme<'a>,
    depth: u32,
) -> Result<Option<Box<Node<'a>>>, Fault>
    requires { terms.spells_list (token_of l.old.token) ≡ true }
    ensures { Gives (Unit {0}) (λ x. (chain found.new.items (tail_tree x), place l.new.after)) result (splicing found.old.items (terms.term_at depth) (lexeme_of l.old) (token_of l.old.token)) }
{
    match l.token {
        Token::OpenList => rest(alloc, found, l, depth),
        _ => {
            splice(alloc, found, l)?;
            Ok(None)
        }
    }
}

/// The tail that begins with the token held, which begins no list.
#[cycle(term)]
fn improper<'a>(
    alloc: Global,
    l: &mut Lexeme<'a>,
    depth: u32,
) -> Result<Option<Box<Node<'a>>>, Fault>
    requires stands { IsToken (lexeme_of l.old) }
    requires no_list { terms.spells_list (token_of l.old.token) ≡ false }
    ensures { Gives (Unit {0}) (λ x. (tail_tree x, place l.new.after)) result (terms.term_at depth (lexeme_of l.old)) }
{
    let node = term(alloc, l, depth)?;
    let tail = Box::new(alloc, node)?;
    Ok(Some(tail))
}
