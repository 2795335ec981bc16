//! Forms: terms with their full stops, read one after another.

ghost use Rattle.std.specs.Prelude.{◌≡◌, ◌≤◌, length, option_map, string_bytes, IfOk, IsOkAnd, IsSome};
ghost use Rattle.bx_terms.specs.Outcomes.{Gives};
ghost use Rattle.bx_text.specs.Place.{place, place_in};
ghost use Rattle.bx_text.specs.Token.{lexeme_of, body_of, spelled, plain};
ghost use Rattle.bx_text.specs.Lexing.{bare_at, name_at};
ghost use Rattle.bx_text.specs.Terms.{keeps};
ghost use Rattle.bx_text.specs.Grammar.{IsToken};
ghost use Rattle.bx_text.specs.Forms as forms;

use crate::blanks::skip;
use crate::bytes::feeds;
use crate::escapes::decode;
use crate::kinds::{Kind, kind_of};
use crate::lexemes::{Lexeme, is_stop};
use crate::lexing::{advance, take};
use crate::node::Node;
use crate::quotes::quoted;
use crate::reader::Reader;
use crate::terms::term;
use crate::tokens::Body;
use crate::words::{bare, begins_lower};
use bx_terms::Fault;
use std::alloc::{AllocError, Global};

/// How deep brackets may nest, a string counting as one.
const DEEPEST: u32 = 256;

/// The term that begins with the token held, and the place behind its full stop.
fn form_by<'a>(
    alloc: Global,
    l: &mut Lexeme<'a>,
    depth: u32,
) -> Result<Option<(Node<'a>, Reader<'a>)>, Fault>
    requires { IsToken (lexeme_of l.old) }
    ensures { Gives (keeps depth (lexeme_of l.old)) (option_map (λ x. (x.0, place x.1))) result (forms.form_by depth (lexeme_of l.old)) }
{
    let node = term(alloc, l, depth)?;
    advance(l)?;
    if is_stop(l.token) {
        Ok(Some((node, l.after)))
    } else {
        Err(Fault::BadTerm { line: l.line })
    }
}

/// The next term, where brackets may nest `depth` deep.
fn form<'a>(
    alloc: Global,
    r: Reader<'a>,
    depth: u32,
) -> Result<Option<(Node<'a>, Reader<'a>)>, Fault>
    ensures { Gives (forms.takes_within depth (place r.entry)) (option_map (λ x. (x.0, place x.1))) result (forms.form_within depth (place r.entry)) }
{
    let here = skip(r)?;
    if here.rest.is_empty() {
        return Ok(None);
    }
    let mut first = Lexeme::before(here);
    take(&mut first, here)?;
    form_by(alloc, &mut first, depth)
}

impl<'a> Reader<'a> {
    ghost use Rattle.std.specs.Prelude.{◌≡◌, ◌≤◌, length, option_map};
    ghost use Rattle.bx_terms.specs.Outcomes.{Gives};
    ghost use Rattle.bx_text.specs.Place.{place, place_in};
    ghost use Rattle.bx_text.specs.Forms.{takes_memory, form_at};

    /// A reader at the place `at` of a text, whose lines count from the text's start.
    pub fn at(text: &'a [u8], at: usize) -> Reader<'a>
        requires { at ≤ length text.now }
        ensures { place result ≡ place_in text.entry.now at }
    {
        Reader {
            rest: &text[at..],
            at,
            line: 1 + feeds(&text[..at]),
        }
    }

    /// The next term and a reader behind its full stop; `None` where only space and comments follow.
    ///
    /// A refusal is the first one in the text: 3 to 7, with its line. Reading on with the reader that
    /// is answered takes time in proportion to the text.
    pub fn next(self, alloc: Global) -> Result<Option<(Node<'a>, Reader<'a>)>, Fault>
        ensures { Gives (takes_memory (place self.entry)) (option_map (λ x. (x.0, place x.1))) result (form_at (place self.entry)) }
    {
        form(alloc, self, DEEPEST)
    }
}

/// The next term from the place `at` of a text on, and the place behind its full stop; `None` where only space
/// and comments follow.
///
/// A refusal is the first one in the text: 3 to 7, whose lines count from the text's start.
pub fn next_term<'a>(
    alloc: Global,
    text: &'a [u8],
    at: usize,
) -> Result<Option<(Node<'a>, usize)>, Fault>
    requires { at ≤ length text.now }
    ensures { Gives (forms.takes_memory (place_in text.entry.now at)) (option_map (λ x. (x.0, x.1))) result (forms.term_in text.entry.now at) }
{
    match Reader::at(text, at).next(alloc)? {
        Some((node, end)) => Ok(Some((node, end.at))),
        None => Ok(None),
    }
}

/// The atom's text at `r`, bare or quoted, and the place behind the token.
fn name<'a>(r: Reader<'a>) -> Result<Option<(Body<'a>, Reader<'a>)>, Fault>
    ensures { Gives ⊥ (option_map (λ x. (body_of x.0, place x.1))) result (name_at (place r.entry)) }
{
    if r.rest.is_empty() {
        return Ok(None);
    }
    match kind_of(r.rest[0]) {
        Kind::Letter => Ok(Some(bare_name(r))),
        Kind::Accent => {
            if begins_lower(r.rest) {
                Ok(Some(bare_name(r)))
            } else {
                Ok(None)
            }
        }
        Kind::Quote => Ok(Some(quoted(r, b'\'')?)),
        _ => Ok(None),
    }
}

fn bare_name<'a>(r: Reader<'a>) -> (Body<'a>, Reader<'a>)
    ensures text { body_of result.0 ≡ plain (bare_at (place r.entry)).0 }
    ensures end { place result.1 ≡ (bare_at (place r.entry)).1 }
{
    let (text, after) = bare(r);
    (Body::Plain(text), after)
}

/// The text that a token's body means, on its own.
fn own_text(alloc: Global, body: Body<'_>) -> Result<String, AllocError>
    ensures { IfOk result (λ text. string_bytes text ≡ spelled (body_of body.entry)) }
{
    match body {
        Body::Plain(text) => String::from_str(alloc, text),
        Body::Escaped(raw) => decode(alloc, raw),
    }
}

/// The text of the atom's token, bare or quoted, that begins at the place `at` of a text, and the place behind it;
/// `None` exactly where none begins there.
///
/// A quoted atom may be refused: 3 for an escape that stands for no character, 6 where it is never closed, 7 for bytes
/// that are no UTF-8.
pub fn atom_at(alloc: Global, text: &[u8], at: usize) -> Result<Option<(String, usize)>, Fault>
    requires { at ≤ length text.now }
    ensures { Gives (IsOkAnd (name_at (place_in text.now at)) IsSome) (option_map (λ x. (string_bytes x.0, x.1))) result (forms.atom_in text.now at) }
{
    match name(Reader::at(text, at))? {
        Some((body, end)) => Ok(Some((own_text(alloc, body)?, end.at))),
        None => Ok(None),
    }
}
