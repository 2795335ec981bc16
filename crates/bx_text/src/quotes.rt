//! Quoted atoms and strings.

ghost use Rattle.std.specs.Prelude.{◌≡◌, ◌≤◌, ◌+◌, ◌<◌, drop, take, length};
ghost use Rattle.std.specs.List.{prefix_len};
ghost use Rattle.bx_terms.specs.Outcomes.{Gives};
ghost use Rattle.bx_text.specs.Bytes.{begins, is_plain};
ghost use Rattle.bx_text.specs.Place.{place};
ghost use Rattle.bx_text.specs.Token.{body_of};
ghost use Rattle.bx_text.specs.Escapes as escapes;
ghost use Rattle.bx_text.specs.Lexing as lexing;
ghost use Rattle.bx_text.specs.Lexing.{quoted_at};

use crate::blanks::text_of;
use crate::bytes::{as_text, feeds};
use crate::escapes::{Escape, is_whole, may_go_on, open_in};
use crate::reader::Reader;
use crate::tokens::Body;
use bx_terms::Fault;

/// How many bytes stand before the next quote or backslash.
fn plain_len(bytes: &[u8], quote: u8) -> usize
    ensures exact { result ≡ prefix_len (is_plain quote) bytes.now }
    ensures bounded { result ≤ length bytes.now }
{
    bytes
        .iter()
        .take_while(|b| !(**b == quote) && !(**b == b'\\'))
        .count()
}

/// How many bytes stand before the closing quote or the end of the text; a backslash takes the next byte
/// with it, and `\^` the byte behind it too, unless that is the quote.
#[tactic(auto, using(crate::proofs::Bodies::body_step, crate::proofs::Bodies::body_end))]
fn body_len(bytes: &[u8], quote: u8) -> usize
    ensures exact { result ≡ lexing.body_len quote bytes.now }
    ensures bounded { result ≤ length bytes.now }
{
    let mut n = 0;
    while n < bytes.len() {
        let width = part_width(&bytes[n..], quote);
        if width == 0 {
            break;
        }
        n += width;
    }
    n
}

/// How many bytes the next part takes: a byte, a backslash with the byte that follows it, or `\^` with the
/// byte behind it, unless that is the quote.
fn part_width(bytes: &[u8], quote: u8) -> usize
    ensures exact { result ≡ lexing.part_width quote bytes.now }
    ensures bounded { result ≤ length bytes.now }
{
    match bytes {
        [] => 0,
        [b, ..] if *b == quote => 0,
        [b'\\', b'^', c, ..] if !(*c == quote) => 3,
        [b'\\', _, ..] => 2,
        _ => 1,
    }
}

/// The front of these bytes that is UTF-8.
#[tactic(auto, using(crate::proofs::Texts::valid_all))]
fn front_of(bytes: &[u8]) -> &str
    ensures { result.now ≡ lexing.valid_front bytes.now }
{
    match std::str::from_utf8(bytes) {
        Ok(text) => text,
        Err(error) => as_text(&bytes[..error.valid_up_to()]),
    }
}

/// The place behind a quoted token at `r`, with `n` bytes between the quotes.
fn behind<'a>(r: Reader<'a>, n: usize) -> Reader<'a>
    requires { n + 2 ≤ length r.rest.now }
    ensures { place result ≡ lexing.behind (place r.entry) (drop 1 r.entry.rest.now) n }
{
    Reader {
        rest: &r.rest[n + 2..],
        at: r.at + (n + 2),
        line: r.line + feeds(&r.rest[1..][..n]),
    }
}

/// The fault of a text that ends inside the quotes of the token at `r`.
fn cut(r: Reader<'_>, escape: Escape) -> Fault
    requires { 1 ≤ length r.rest.now }
    ensures { result ≡ lexing.cut (place r.entry) (drop 1 r.entry.rest.now) escape }
{
    if escape == Escape::Bad {
        Fault::BadToken { line: r.line }
    } else {
        Fault::Truncated {
            line: r.line + feeds(&r.rest[1..]),
        }
    }
}

/// The fault of bytes that are no UTF-8, behind a front of those between the quotes of the token at `r`.
fn broken(r: Reader<'_>, front: &[u8], escape: Escape) -> Fault
    requires { length front.now ≤ length r.rest.now }
    ensures { result ≡ lexing.broken (place r.entry) front.now escape }
{
    if may_go_on(escape) {
        Fault::NotUtf8 {
            line: r.line + feeds(front),
        }
    } else {
        Fault::BadToken { line: r.line }
    }
}

/// The text with escapes, `n` bytes long, between the quotes of the token at `r`, and the place behind it.
fn ended<'a>(r: Reader<'a>, text: &'a str, n: usize) -> Result<(Body<'a>, Reader<'a>), Fault>
    requires some { 1 ≤ length r.rest.now }
    requires within { n ≤ length (drop 1 r.rest.now) }
    requires text { text.now ≡ take n (drop 1 r.rest.now) }
    ensures { Gives ⊥ (λ x. (body_of x.0, place x.1)) result (lexing.ended_at (place r.entry) (drop 1 r.entry.rest.now) n (drop n (drop 1 r.entry.rest.now))) }
{
    let body = &r.rest[1..];
    let escape = open_in(text);
    match &body[n..] {
        [] => Err(cut(r, escape)),
        [_, ..] => {
            if is_whole(escape) {
                Ok((Body::Escaped(text), behind(r, n)))
            } else {
                Err(Fault::BadToken { line: r.line })
            }
        }
    }
}

/// The text with escapes between the quotes of the token at `r`, and the place behind it.
fn escaped<'a>(r: Reader<'a>, quote: u8) -> Result<(Body<'a>, Reader<'a>), Fault>
    requires { 1 ≤ length r.rest.now }
    ensures { Gives ⊥ (λ x. (body_of x.0, place x.1)) result (lexing.escaped_at (place r.entry) (drop 1 r.entry.rest.now) (lexing.body_len quote (drop 1 r.entry.rest.now))) }
{
    let body = &r.rest[1..];
    let end = body_len(body, quote);
    match text_of(&body[..end]) {
        Err(_) => {
            let front = front_of(&body[..end]);
            Err(broken(r, front.as_bytes(), open_in(front)))
        }
        Ok(text) => ended(r, text, end),
    }
}

/// The text between the quotes of the token at `r`, which begins with one, and the place behind it.
pub(crate) fn quoted<'a>(r: Reader<'a>, quote: u8) -> Result<(Body<'a>, Reader<'a>), Fault>
    requires { 1 ≤ length r.rest.now }
    ensures { Gives ⊥ (λ x. (body_of x.0, place x.1)) result (quoted_at quote (place r.entry)) }
{
    let body = &r.rest[1..];
    let end = plain_len(body, quote);
    match text_of(&body[..end]) {
        Err(valid) => Err(Fault::NotUtf8 {
            line: r.line + feeds(&body[..valid]),
        }),
        Ok(text) => {
            if end == body.len() {
                return Err(Fault::Truncated {
                    line: r.line + feeds(body),
                });
            }
            if body[end] == b'\\' {
                return escaped(r, quote);
            }
            Ok((Body::Plain(text), behind(r, end)))
        }
    }
}
