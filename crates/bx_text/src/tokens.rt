//! Tokens.

ghost use Rattle.std.specs.Prelude.{◌≡◌, true};
ghost use Rattle.bx_text.specs.Number.{number, is_large, is_spelling};

/// The text of an integer outside 64 bits.
#[derive(Clone, Copy, Debug)]
pub(crate) struct Large<'a> {
    pub(crate) text: &'a str,
    ghost outside: { is_large (number text.now) ≡ true },
    ghost spelled: { is_spelling text.now ≡ true },
}

/// A token that begins no term, but for `fun`.
#[derive(Clone, Copy, Debug, PartialEq, Eq)]
pub(crate) enum Mark {
    /// `}`, of a tuple or a map.
    CloseTuple,
    CloseList,
    CloseBinary,
    Comma,
    Bar,
    Arrow,
    Colon,
    Slash,
    /// A full stop.
    Stop,
    /// The word `fun`, bare.
    Fun,
    /// A mark that stands in no term.
    Other,
}

/// What stands between quotes, or a bare word.
#[derive(Clone, Copy, Debug)]
pub(crate) enum Body<'a> {
    /// The text that is meant.
    Plain(&'a str),
    /// A text with escapes.
    Escaped(&'a str),
}

/// A token.
#[derive(Clone, Copy, Debug)]
pub(crate) enum Token<'a> {
    Integer(i64),
    Large(Large<'a>),
    Float,
    Atom(Body<'a>),
    Text(Body<'a>),
    OpenTuple,
    OpenList,
    OpenMap,
    OpenBinary,
    Mark(Mark),
}
