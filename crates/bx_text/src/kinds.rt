//! What a token can be by its first byte.

ghost use Rattle.std.specs.Prelude.{◌≡◌};
ghost use Rattle.bx_text.specs.Lexing.{kind_of, punctuation_of};

use crate::bytes::{is_digit, is_lower};
use crate::tokens::Mark;

/// What a token that begins with a byte can be.
#[derive(Clone, Copy, Debug)]
pub(crate) enum Kind {
    /// A bare atom.
    Letter,
    /// A bare atom, by the next byte.
    Accent,
    /// A number.
    Digit,
    /// A number, where digits follow.
    Minus,
    /// A quoted atom.
    Quote,
    /// A string.
    DoubleQuote,
    OpenTuple,
    OpenList,
    Mark(Mark),
    /// A full stop, by the next byte.
    Dot,
    /// `#{`, by the next byte.
    Hash,
    /// `<<`, by the next byte.
    Less,
    /// `=>`, by the next byte.
    Equals,
    /// `>>`, by the next byte.
    Greater,
    /// No token; perhaps no character.
    Foreign,
    /// No token.
    Nothing,
}

#[inline(always)]
fn punctuation(b: u8) -> Kind
    ensures { result ≡ punctuation_of b }
{
    match b {
        b'{' => Kind::OpenTuple,
        b'}' => Kind::Mark(Mark::CloseTuple),
        b'[' => Kind::OpenList,
        b']' => Kind::Mark(Mark::CloseList),
        b',' => Kind::Mark(Mark::Comma),
        b'|' => Kind::Mark(Mark::Bar),
        b'.' => Kind::Dot,
        b'\'' => Kind::Quote,
        b'"' => Kind::DoubleQuote,
        b'-' => Kind::Minus,
        b':' => Kind::Mark(Mark::Colon),
        b'/' => Kind::Mark(Mark::Slash),
        b'(' | b')' => Kind::Mark(Mark::Other),
        b'#' => Kind::Hash,
        b'<' => Kind::Less,
        b'=' => Kind::Equals,
        b'>' => Kind::Greater,
        _ => Kind::Nothing,
    }
}

/// What a token that begins with this byte can be.
#[inline(always)]
pub(crate) fn kind_of(b: u8) -> Kind
    ensures { result ≡ kind_of b }
{
    if is_lower(b) {
        Kind::Letter
    } else if is_digit(b) {
        Kind::Digit
    } else if b == 0xC3 {
        Kind::Accent
    } else if b >= 0x80 {
        Kind::Foreign
    } else {
        punctuation(b)
    }
}
