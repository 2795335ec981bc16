//! Bare atoms.

ghost use Rattle.std.specs.Prelude.{◌≡◌, ◌≤◌, drop, length, Ok, Err};
ghost use Rattle.bx_terms.specs.Outcomes.{Gives};
ghost use Rattle.std.specs.List.{prefix_len};
ghost use Rattle.bx_text.specs.Bytes.{begins, is_accented_lower, is_lower};
ghost use Rattle.bx_text.specs.Place.{place};
ghost use Rattle.bx_text.specs.Token.{token_of};
ghost use Rattle.bx_text.specs.Lexing.{name_len, bare_at, letter_width, word_at, foreign_at, accent_at};

use crate::blanks::text_of;
use crate::bytes::{as_text, is_accented, is_accented_lower, is_lower, is_name};
use crate::moves::ahead;
use crate::reader::Reader;
use crate::tokens::{Body, Mark, Token};
use bx_terms::Fault;

/// How many bytes a name's letter at the front has, or 0 where none begins.
fn letter_width(bytes: &[u8]) -> usize
    ensures exact { result ≡ letter_width bytes.now }
    ensures bounded { result ≤ length bytes.now }
{
    match bytes {
        [b, ..] if is_name(*b) => 1,
        [0xC3, b, ..] if is_accented(*b) => 2,
        _ => 0,
    }
}

/// How many lower-case letters of ASCII stand at the front: most names have no others.
#[inline(always)]
fn lower_len(bytes: &[u8]) -> usize
    ensures exact { result ≡ prefix_len is_lower bytes.now }
    ensures bounded { result ≤ length bytes.now }
{
    bytes.iter().take_while(|b| is_lower(**b)).count()
}

/// How many bytes the longest run of an atom's letters at the front has.
#[inline(always)]
#[tactic(auto, using(crate::proofs::Names::name_step, crate::proofs::Names::name_end, crate::proofs::Short::lower_begins))]
fn name_len(bytes: &[u8]) -> usize
    ensures exact { result ≡ name_len bytes.now }
    ensures bounded { result ≤ length bytes.now }
{
    let mut n = lower_len(bytes);
    while n < bytes.len() {
        let width = letter_width(&bytes[n..]);
        if width == 0 {
            break;
        }
        n += width;
        n += lower_len(&bytes[n..]);
    }
    n
}

/// The text of the bare atom at `r`, and the place behind it.
#[inline(always)]
pub(crate) fn bare<'a>(r: Reader<'a>) -> (&'a str, Reader<'a>)
    ensures { (result.0.now, place result.1) ≡ bare_at (place r.entry) }
{
    let end = name_len(r.rest);
    (as_text(&r.rest[..end]), ahead(r, end))
}

/// The bare atom at `r`, or the word `fun`.
#[inline(always)]
pub(crate) fn word<'a>(r: Reader<'a>) -> (Token<'a>, Reader<'a>)
    ensures { word_at (place r.entry) ≡ Ok (token_of result.0, place result.1) }
{
    let (text, after) = bare(r);
    if text == "fun" {
        (Token::Mark(Mark::Fun), after)
    } else {
        (Token::Atom(Body::Plain(text)), after)
    }
}

/// The fault of bytes from 128 on that begin no token.
pub(crate) fn foreign(r: Reader<'_>) -> Fault
    ensures { foreign_at (place r.entry) ≡ Err result }
{
    let valid = match text_of(r.rest) {
        Ok(text) => text.len(),
        Err(valid) => valid,
    };
    if valid == 0 {
        Fault::NotUtf8 { line: r.line }
    } else {
        Fault::BadToken { line: r.line }
    }
}

/// What begins at a byte that may be the first of a letter.
pub(crate) fn accent<'a>(r: Reader<'a>) -> Result<(Token<'a>, Reader<'a>), Fault>
    ensures { Gives ⊥ (λ x. (token_of x.0, place x.1)) result (accent_at (place r.entry)) }
{
    if begins_lower(r.rest) {
        Ok(word(r))
    } else {
        Err(foreign(r))
    }
}

/// Whether the second byte is that of a letter that may begin an atom.
pub(crate) fn begins_lower(bytes: &[u8]) -> bool
    ensures { result ≡ begins is_accented_lower (drop 1 bytes.now) }
{
    match bytes {
        [_, b, ..] => is_accented_lower(*b),
        _ => false,
    }
}
