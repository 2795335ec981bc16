//! Tokens that alone may stand in a place.

ghost use Rattle.std.specs.Prelude.{◌≡◌};
ghost use Rattle.bx_terms.specs.Outcomes.{Gives};
ghost use Rattle.bx_text.specs.Place.{place};
ghost use Rattle.bx_text.specs.Token as token;
ghost use Rattle.bx_text.specs.Token.{token_of, body_of};
ghost use Rattle.bx_text.specs.Terms as terms;

use crate::escapes::means_utf8;
use crate::lexemes::Lexeme;
use crate::lexing::advance;
use crate::tokens::{Body, Mark, Token};
use bx_terms::Fault;

/// Which token is wanted.
#[derive(Clone, Copy, Debug, PartialEq, Eq)]
pub(crate) enum Wanted {
    Atom,
    Integer,
    Colon,
    Slash,
    Arrow,
    /// The atom `utf8`.
    Utf8,
    OpenTuple,
    CloseTuple,
    Comma,
    /// A full stop.
    Stop,
}

/// Whether what stands between quotes, or a bare word, means `utf8`.
fn is_utf8(body: Body<'_>) -> bool
    ensures { result ≡ terms.is_utf8_name (token.atom (body_of body.entry)) }
{
    match body {
        Body::Plain(text) => text == "utf8",
        Body::Escaped(raw) => means_utf8(raw),
    }
}

/// Whether the token is the one that is wanted.
fn passes(wanted: Wanted, token: Token<'_>) -> bool
    ensures { result ≡ terms.passes wanted (token_of token.entry) }
{
    match (wanted, token) {
        (Wanted::Atom, Token::Atom(_)) => true,
        (Wanted::Integer, Token::Integer(_)) => true,
        (Wanted::Integer, Token::Large(_)) => true,
        (Wanted::Colon, Token::Mark(Mark::Colon)) => true,
        (Wanted::Slash, Token::Mark(Mark::Slash)) => true,
        (Wanted::Arrow, Token::Mark(Mark::Arrow)) => true,
        (Wanted::Utf8, Token::Atom(body)) => is_utf8(body),
        (Wanted::OpenTuple, Token::OpenTuple) => true,
        (Wanted::CloseTuple, Token::Mark(Mark::CloseTuple)) => true,
        (Wanted::Comma, Token::Mark(Mark::Comma)) => true,
        (Wanted::Stop, Token::Mark(Mark::Stop)) => true,
        _ => false,
    }
}

/// Goes on to the next token, which is to be the one that is wanted.
pub(crate) fn want<'a>(l: &mut Lexeme<'a>, wanted: Wanted) -> Result<(), Fault>
    ensures { Gives ⊥ (λ _. place l.new.after) result (terms.want (terms.passes wanted) (place l.old.after)) }
{
    advance(l)?;
    if passes(wanted, l.token) {
        Ok(())
    } else {
        Err(Fault::BadTerm { line: l.line })
    }
}
