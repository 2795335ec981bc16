//! A token where it stands.

ghost use Rattle.std.specs.Prelude.{◌≡◌};
ghost use Rattle.bx_text.specs.Token.{lexeme_of, token_of};
ghost use Rattle.bx_text.specs.Place.{place};
ghost use Rattle.bx_text.specs.Terms as terms;

use crate::node::Span;
use crate::reader::Reader;
use crate::tokens::{Mark, Token};

/// A token, where it begins, and the place behind it.
#[derive(Clone, Copy, Debug)]
pub(crate) struct Lexeme<'a> {
    pub(crate) token: Token<'a>,
    pub(crate) from: usize,
    pub(crate) line: usize,
    /// The bytes from its first one on.
    pub(crate) begin: &'a [u8],
    pub(crate) after: Reader<'a>,
}

impl<'a> Lexeme<'a> {
    ghost use Rattle.std.specs.Prelude.{◌≡◌};
    ghost use Rattle.bx_text.specs.Token.{lexeme_of};
    ghost use Rattle.bx_text.specs.Named.{parenthesis};
    ghost use Rattle.bx_text.specs.Holding.{held};
    ghost use Rattle.bx_text.specs.Place.{place};

    /// What is held before the first token at `r` is.
    pub(crate) fn before(r: Reader<'a>) -> Lexeme<'a>
        ensures { lexeme_of result ≡ held (place r.entry) (parenthesis, place r.entry) }
    {
        Lexeme {
            token: Token::Mark(Mark::Other),
            from: r.at,
            line: r.line,
            begin: r.rest,
            after: r,
        }
    }
}

/// The part of the text from the first byte of a token to a place.
pub(crate) fn span(l: Lexeme<'_>, end: Reader<'_>) -> Span
    ensures { result ≡ terms.span (lexeme_of l.entry) (place end.entry) }
{
    Span {
        from: l.from,
        to: end.at,
        line: l.line,
    }
}

pub(crate) fn closes_tuple(token: Token<'_>) -> bool
    ensures { result ≡ terms.closes_tuple (token_of token.entry) }
{
    matches!(token, Token::Mark(Mark::CloseTuple))
}

pub(crate) fn closes_list(token: Token<'_>) -> bool
    ensures { result ≡ terms.closes_list (token_of token.entry) }
{
    matches!(token, Token::Mark(Mark::CloseList))
}

pub(crate) fn closes_binary(token: Token<'_>) -> bool
    ensures { result ≡ terms.closes_binary (token_of token.entry) }
{
    matches!(token, Token::Mark(Mark::CloseBinary))
}

pub(crate) fn is_colon(token: Token<'_>) -> bool
    ensures { result ≡ terms.is_colon (token_of token.entry) }
{
    matches!(token, Token::Mark(Mark::Colon))
}

pub(crate) fn is_slash(token: Token<'_>) -> bool
    ensures { result ≡ terms.is_slash (token_of token.entry) }
{
    matches!(token, Token::Mark(Mark::Slash))
}

pub(crate) fn is_comma(token: Token<'_>) -> bool
    ensures { result ≡ terms.is_comma (token_of token.entry) }
{
    matches!(token, Token::Mark(Mark::Comma))
}

pub(crate) fn is_bar(token: Token<'_>) -> bool
    ensures { result ≡ terms.is_bar (token_of token.entry) }
{
    matches!(token, Token::Mark(Mark::Bar))
}

pub(crate) fn is_stop(token: Token<'_>) -> bool
    ensures { result ≡ terms.is_stop (token_of token.entry) }
{
    matches!(token, Token::Mark(Mark::Stop))
}

/// Whether a term that begins with the token is a list.
pub(crate) fn spells_list(token: Token<'_>) -> bool
    ensures { result ≡ terms.spells_list (token_of token.entry) }
{
    matches!(token, Token::Text(_) | Token::OpenList)
}
