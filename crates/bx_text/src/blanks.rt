//! What may stand between tokens: spaces and comments.

ghost use Rattle.std.specs.Prelude.{true, IfOk, IfSome, Ok, Err, Some, None, ◌≡◌, ◌<◌, ◌≤◌, length, MatchOption, MatchResult};
ghost use Rattle.std.specs.List.{prefix_len};
ghost use Rattle.std.specs.Str.Lossy.{utf8_valid_len};
ghost use Rattle.bx_terms.specs.Outcomes.{Gives};
ghost use Rattle.bx_text.specs.Bytes.{begins, is_not_feed, is_percent};
ghost use Rattle.bx_text.specs.Place.{place};
ghost use Rattle.bx_text.specs.Blank.{skip, spaces, comment_end};

use crate::bytes::is_space;
use crate::moves::ahead;
use crate::reader::Reader;
use bx_terms::Fault;

#[tactic(auto, using(crate::proofs::Texts::all_valid))]
/// The text of these bytes, or how many of them are UTF-8.
pub(crate) fn text_of(bytes: &[u8]) -> Result<&str, usize>
    ensures { MatchResult result (λ s. (s.now ≡ bytes.now) × (utf8_valid_len bytes.now ≡ length bytes.now)) (λ n. (n ≡ utf8_valid_len bytes.now) × (n < length bytes.now)) }
{
    match std::str::from_utf8(bytes) {
        Ok(text) => Ok(text),
        Err(error) => Err(error.valid_up_to()),
    }
}

fn line_len(bytes: &[u8]) -> usize
    ensures exact { result ≡ prefix_len is_not_feed bytes.now }
    ensures bounded { result ≤ length bytes.now }
{
    bytes.iter().take_while(|b| **b != b'\n').count()
}

/// The end of the line, where `r` stands in a comment.
fn line_end<'a>(r: Reader<'a>) -> Result<Reader<'a>, Fault>
    ensures { Gives ⊥ place result (comment_end (place r.entry)) }
{
    let end = line_len(r.rest);
    match text_of(&r.rest[..end]) {
        Ok(_) => Ok(ahead(r, end)),
        Err(_) => Err(Fault::NotUtf8 { line: r.line }),
    }
}

/// The end of the line, where a comment begins at `r`.
#[tactic(auto, using(crate::proofs::Skipping::comment_gives))]
fn comment<'a>(r: Reader<'a>) -> Result<Reader<'a>, Fault>
    requires { begins is_percent r.rest.now ≡ true }
    ensures same { MatchResult result (λ q. skip (place q) ≡ skip (place r.entry)) (λ e. Gives ⊥ place (Err e) (skip (place r.entry))) }
    ensures shorter { IfOk result (λ q. length q.rest.now < length r.entry.rest.now) }
{
    line_end(ahead(r, 1))
}

/// The first place from `r` on where neither a space nor a comment stands, if only spaces come before it and something stands there.
#[inline(always)]
pub(crate) fn spaces<'a>(r: Reader<'a>) -> Option<Reader<'a>>
    ensures exact { MatchOption result (spaces (place r.entry) ≡ None) (λ q. spaces (place r.entry) ≡ Some (place q)) }
    ensures skips { IfSome result (λ q. skip (place r.entry) ≡ Ok (place q)) }
    ensures some { IfSome result (λ q. 1 ≤ length q.rest.now) }
{
    let mut rest = r.rest;
    let mut at = r.at;
    let mut line = r.line;
    'spaces: while !rest.is_empty() {
        let b = rest[0];
        if !is_space(b) {
            if b == b'%' {
                return None;
            }
            return Some(Reader { rest, at, line });
        }
        if b == b'\n' {
            line += 1;
        }
        rest = &rest[1..];
        at += 1;
    }
    None
}

/// The first place from `r` on where neither a space nor a comment stands.
pub(crate) fn skip<'a>(r: Reader<'a>) -> Result<Reader<'a>, Fault>
    ensures { Gives ⊥ place result (skip (place r.entry)) }
{
    let mut rest = r.rest;
    let mut at = r.at;
    let mut line = r.line;
    'blanks: while !rest.is_empty() {
        let b = rest[0];
        if b == b'%' {
            let end = comment(Reader { rest, at, line })?;
            rest = end.rest;
            at = end.at;
            line = end.line;
            continue;
        }
        if !is_space(b) {
            break;
        }
        if b == b'\n' {
            line += 1;
        }
        rest = &rest[1..];
        at += 1;
    }
    Ok(Reader { rest, at, line })
}
