//! Strings: lists of their characters' codes.

ghost use Rattle.std.specs.Prelude.{◌≡◌, ◌<◌, ◌⊎◌, ◌++◌, false, length, IsOkAnd, IsSome, MatchResult};
ghost use Rattle.bx_terms.specs.Outcomes.{Gives};
ghost use Rattle.bx_text.specs.Place.{place};
ghost use Rattle.bx_text.specs.Token.{lexeme_of, token_of, body_of, spelled};
ghost use Rattle.bx_text.specs.Terms.{HasLetters, HasBody, letters, letters_of, text_next, next_text, strings_at, string_at, passed};
ghost use Rattle.bx_text.specs.Rows.{prefixed};

use crate::blanks::skip;
use crate::escapes::decode;
use crate::letters::Letters;
use crate::lexemes::{Lexeme, span};
use crate::lexing::take;
use crate::moves::truncated;
use crate::node::{Node, Span};
use crate::tokens::{Body, Token};
use bx_terms::Fault;
use std::alloc::{AllocError, Global};

/// The characters with those that stand between quotes behind them.
fn body_letters<'a>(
    alloc: Global,
    found: &mut Letters,
    span: Span,
    body: Body<'a>,
) -> Result<(), AllocError>
    ensures { MatchResult result (λ _. found.new ≡ found.old ++ letters span (spelled (body_of body.entry))) (λ _. HasBody (body_of body.entry)) }
{
    match body {
        Body::Plain(text) => found.add(span, text),
        Body::Escaped(raw) => {
            let text = decode(alloc, raw)?;
            found.add(span, text.as_str())
        }
    }
}

/// The next token, where it is a string: then it is held.
fn text_next<'a>(l: &mut Lexeme<'a>) -> Result<bool, Fault>
    ensures reads { Gives ⊥ (λ more. next_text more (lexeme_of l.new)) result (text_next (place l.old.after)) }
    ensures stays { result ≡ Ok false → place l.new.after ≡ place l.old.after }
{
    let here = skip(l.after)?;
    match here.rest {
        [b'"', ..] => {
            take(l, here)?;
            Ok(true)
        }
        _ => Ok(false),
    }
}

/// The characters with those that a string's token spells behind them.
fn letters_of<'a>(alloc: Global, found: &mut Letters, l: Lexeme<'a>) -> Result<(), AllocError>
    ensures { MatchResult result (λ _. found.new ≡ found.old ++ letters_of (lexeme_of l.entry) (token_of l.entry.token)) (λ _. HasLetters (token_of l.entry.token)) }
{
    match l.token {
        Token::Text(body) => body_letters(alloc, found, span(l, l.after), body),
        _ => Ok(()),
    }
}

/// The characters with those of the strings in a row behind them that begin with the token held.
fn strings<'a>(alloc: Global, found: &mut Letters, l: &mut Lexeme<'a>) -> Result<(), Fault>
    ensures { Gives (HasLetters (token_of l.old.token) ⊎ IsOkAnd (text_next (place l.old.after)) IsSome) (λ _. (found.new, place l.new.after)) result (prefixed found.old (strings_at (lexeme_of l.old))) }
{
    letters_of(alloc, found, *l)?;
    // Each string takes a byte at least.
    for _turn in 0..l.after.rest.len() + 1 {
        match text_next(l) {
            Err(fault) => return Err(fault),
            Ok(false) => return Ok(()),
            Ok(true) => letters_of(alloc, found, *l)?,
        }
    }
    Err(truncated(l.after))
}

/// The characters of the strings in a row that begin with the token held.
fn alone<'a>(alloc: Global, l: &mut Lexeme<'a>) -> Result<Letters, Fault>
    ensures { Gives (HasLetters (token_of l.old.token) ⊎ IsOkAnd (text_next (place l.old.after)) IsSome) (λ x. (x, place l.new.after)) result (strings_at (lexeme_of l.old)) }
{
    let mut letters = Letters::new(alloc);
    match strings(alloc, &mut letters, l) {
        Ok(_) => Ok(letters),
        Err(fault) => Err(fault),
    }
}

/// The list that the strings in a row spell that begin with the token held.
#[tactic(auto, using(crate::proofs::Rows::some_spelled))]
pub(crate) fn string<'a>(alloc: Global, l: &mut Lexeme<'a>) -> Result<Node<'a>, Fault>
    ensures { Gives (HasLetters (token_of l.old.token) ⊎ IsOkAnd (text_next (place l.old.after)) IsSome) (λ x. (x, place l.new.after)) result (string_at (lexeme_of l.old)) }
{
    let first = *l;
    let letters = alone(alloc, l)?;
    if letters.len() == 0 {
        return Ok(Node::list(span(first, l.after), Vec::new(alloc), None));
    }
    Ok(Node::text(span(first, l.after), Box::new(alloc, letters)?))
}

/// The elements with these characters behind them.
fn append(found: &mut Vec<Node<'_>>, letters: &Letters) -> Result<(), AllocError>
    ensures { MatchResult result (λ _. found.new.items ≡ found.old.items ++ letters.now) (λ _. 0 < length letters.now) }
{
    for i in 0..letters.len() {
        let (span, code) = letters.at(i);
        found.push(Node::integer(span, code))?;
    }
    Ok(())
}

/// The elements with the characters of the strings in a row behind them that begin with the token held.
#[tactic(auto, using(crate::proofs::Rows::some_spelled))]
pub(crate) fn splice<'a>(
    alloc: Global,
    found: &mut Vec<Node<'a>>,
    l: &mut Lexeme<'a>,
) -> Result<(), Fault>
    ensures { Gives (HasLetters (token_of l.old.token) ⊎ IsOkAnd (text_next (place l.old.after)) IsSome) (λ _. (found.new.items, place l.new.after)) result (prefixed found.old.items (strings_at (lexeme_of l.old))) }
{
    let letters = alone(alloc, l)?;
    append(found, &letters)?;
    Ok(())
}

/// Passes over the strings in a row that begin with the token held.
pub(crate) fn pass_strings<'a>(l: &mut Lexeme<'a>) -> Result<(), Fault>
    ensures { Gives ⊥ (λ _. place l.new.after) result (passed (strings_at (lexeme_of l.old))) }
{
    // Each string takes a byte at least.
    for _turn in 0..l.after.rest.len() + 1 {
        match text_next(l) {
            Err(fault) => return Err(fault),
            Ok(false) => return Ok(()),
            Ok(true) => {}
        }
    }
    Err(truncated(l.after))
}
