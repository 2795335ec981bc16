//! Classes of bytes.

ghost use Rattle.std.specs.Prelude.{◌≡◌, ◌≤◌, length, count_by};
ghost use Rattle.std.specs.Str.{IsUtf8};
ghost use Rattle.bx_text.specs.Bytes.{is_name, is_accented, is_accented_lower, is_digit, is_feed, is_lower, is_space};

pub(crate) fn is_space(b: u8) -> bool
    ensures { result ≡ is_space b }
{
    b <= b' '
}

pub(crate) fn is_digit(b: u8) -> bool
    ensures { result ≡ is_digit b }
{
    b'0' <= b && b <= b'9'
}

pub(crate) fn is_lower(b: u8) -> bool
    ensures { result ≡ is_lower b }
{
    b'a' <= b && b <= b'z'
}

fn is_word(b: u8) -> bool
    ensures { result ≡ is_name b }
{
    is_lower(b) || b'A' <= b && b <= b'Z' || is_digit(b) || b == b'_' || b == b'@'
}

/// Whether the byte may follow in a bare atom.
pub(crate) fn is_name(b: u8) -> bool
    ensures { result ≡ is_name b }
{
    // Most words end before a mark, which the first two tests tell.
    b'0' <= b && b <= b'z' && is_word(b)
}

/// Whether the byte, behind 0xC3, is a letter's.
pub(crate) fn is_accented(b: u8) -> bool
    ensures { result ≡ is_accented b }
{
    0x80 <= b && b <= 0xBF && !(b == 0x97) && !(b == 0xB7)
}

/// Whether the byte, behind 0xC3, is a letter's that may begin an atom.
pub(crate) fn is_accented_lower(b: u8) -> bool
    ensures { result ≡ is_accented_lower b }
{
    0x9F <= b && b <= 0xBF && !(b == 0xB7)
}

/// How many line feeds there are.
pub(crate) fn feeds(bytes: &[u8]) -> usize
    ensures exact { result ≡ count_by is_feed bytes.now }
    ensures bounded { result ≤ length bytes.now }
{
    bytes.iter().filter(|b| **b == b'\n').count()
}

/// The text that these bytes are.
pub(crate) fn as_text(bytes: &[u8]) -> &str
    requires { IsUtf8 bytes.now }
    ensures { result.now ≡ bytes.now }
{
    // The caller has shown that the bytes are UTF-8.
    unsafe { std::str::from_utf8_unchecked(bytes) }
}
