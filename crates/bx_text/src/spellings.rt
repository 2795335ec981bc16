//! The digits of spellings, and when two spellings stand for the same integer.

ghost use Rattle.std.specs.Prelude.{◌≡◌, ◌↔◌, ◌≤◌, ◌<◌, true, drop, length, IsTrue};
ghost use Rattle.std.specs.List.{list_all, prefix_len};
ghost use Rattle.bx_text.specs.Bytes.{is_digit};
ghost use Rattle.bx_text.specs.Number.{decimal, number, signed, is_large, is_spelling};
ghost use Rattle.bx_text.specs.Printed.{is_zero};

use crate::bytes::as_text;

/// Whether a spelling has a sign, and its digits.
pub(crate) fn parts(spelling: &[u8]) -> (bool, &[u8])
    ensures value { signed result.0 (decimal result.1.now) ≡ number spelling.now }
    ensures digits { is_spelling spelling.now ≡ list_all is_digit result.1.now }
{
    match spelling {
        [b'-', digits @ ..] => (true, digits),
        _ => (false, spelling),
    }
}

/// How many zeros stand before the other digits.
fn zeros(digits: &[u8]) -> usize
    ensures exact { result ≡ prefix_len is_zero digits.now }
    ensures bounded { result ≤ length digits.now }
{
    digits.iter().take_while(|digit| **digit == b'0').count()
}

/// Digits without the zeros that they begin with.
pub(crate) fn shown(digits: &[u8]) -> &str
    requires { list_all is_digit digits.now ≡ true }
    ensures { result.now ≡ drop (prefix_len is_zero digits.now) digits.now }
{
    as_text(&digits[zeros(digits)..])
}

/// Whether digits spell the same number, which is not 0.
fn same_digits(one: &[u8], other: &[u8]) -> bool
    requires digits { list_all is_digit one.now ≡ true }
    requires other_digits { list_all is_digit other.now ≡ true }
    requires some { 0 < decimal one.now }
    requires other_some { 0 < decimal other.now }
    ensures { IsTrue result ↔ (decimal one.now ≡ decimal other.now) }
{
    shown(one) == shown(other)
}

/// Whether two spellings of integers outside 64 bits stand for the same one.
#[tactic(auto, using(crate::proofs::Shown::signed_apart, crate::proofs::Shown::large_some))]
pub(crate) fn same_number(one: &[u8], other: &[u8]) -> bool
    requires one { is_large (number one.now) ≡ true }
    requires other { is_large (number other.now) ≡ true }
    requires spelled { is_spelling one.now ≡ true }
    requires other_spelled { is_spelling other.now ≡ true }
    ensures { IsTrue result ↔ (number one.now ≡ number other.now) }
{
    let (negative, digits) = parts(one);
    let (other_negative, other_digits) = parts(other);
    negative == other_negative && same_digits(digits, other_digits)
}
