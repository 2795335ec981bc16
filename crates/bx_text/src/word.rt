//! The text of an atom, of a large integer, or of a term that is kept as it was read.

use crate::escapes::decode;
use crate::tokens::Body;
use std::alloc::{AllocError, Global};
use std::marker::Model;

/// A text that a node keeps.
#[derive(Debug, Drop)]
pub struct Word<'a> {
    text: Letters<'a>,
}

#[derive(Debug, Drop)]
enum Letters<'a> {
    /// As it stands in what was read.
    Borrowed(&'a str),
    /// Decoded.
    Owned(String),
}

impl<'a> Model for Word<'a> {
    ghost use Rattle.std.specs.Prelude.{List, ℕ};
    ghost use Rattle.bx_text.specs.Letters.{letters_text};

    ghost Value = { List ℕ };

    ghost view = { λ w. letters_text w.text };
}

impl<'a> Word<'a> {
    ghost use Rattle.std.specs.Prelude.{◌≡◌, ◌↔◌, IsTrue, string_bytes, MatchResult};
    ghost use Rattle.bx_text.specs.Token.{body_of, spelled, IsEscaped};

    pub(crate) fn borrowed(text: &'a str) -> Word<'a>
        ensures { result ≡ text.entry.now }
    {
        Word {
            text: Letters::Borrowed(text),
        }
    }

    pub(crate) fn owned(text: String) -> Word<'a>
        ensures { result ≡ string_bytes text }
    {
        Word {
            text: Letters::Owned(text),
        }
    }

    /// The text that a token's body means.
    pub(crate) fn of(alloc: Global, body: Body<'a>) -> Result<Word<'a>, AllocError>
        ensures { MatchResult result (λ word. word ≡ spelled (body_of body.entry)) (λ _. IsEscaped (body_of body.entry)) }
    {
        match body {
            Body::Plain(text) => Ok(Word::borrowed(text)),
            Body::Escaped(raw) => Ok(Word::owned(decode(alloc, raw)?)),
        }
    }

    /// The text, in UTF-8.
    pub fn as_str(&self) -> &str
        ensures { result.now ≡ self.now }
    {
        match &self.text {
            Letters::Borrowed(text) => text,
            Letters::Owned(text) => text.as_str(),
        }
    }

    /// Whether the two texts are the same.
    pub fn same(&self, other: &Word<'_>) -> bool
        ensures { IsTrue result ↔ (self.now ≡ other.now) }
    {
        self.as_str() == other.as_str()
    }
}
