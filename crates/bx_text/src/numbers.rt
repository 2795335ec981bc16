//! Integers and floats.

ghost use Rattle.std.specs.Prelude.{◌≡◌, ◌≤◌, ◌-◌, ◌^◌, true, drop, take, length, MatchOption};
ghost use Rattle.std.specs.List.{prefix_len};
ghost use Rattle.bx_terms.specs.Outcomes.{Gives};
ghost use Rattle.bx_text.specs.Bytes.{is_digit};
ghost use Rattle.bx_text.specs.Number.{decimal, number, signed, is_large, is_spelling, with_digit, IsSign};
ghost use Rattle.bx_text.specs.Place.{place};
ghost use Rattle.bx_text.specs.Token.{token_of, integer};
ghost use Rattle.bx_text.specs.Lexing.{point_len, fraction_len, sign_len, power_len, exponent_len, number_at};

use crate::bytes::{as_text, is_digit};
use crate::moves::ahead;
use crate::reader::Reader;
use crate::tokens::{Large, Token};
use bx_terms::Fault;

/// What a byte counts as a digit: how far it is past `0`.
fn digit_value(digit: u8) -> u64
    ensures { result ≡ digit - 48 }
{
    u64::from(digit.saturating_sub(b'0'))
}

/// One digit more, where the number stays below 2^64.
fn with_digit(n: u64, digit: u8) -> Option<u64>
    ensures { MatchOption result (2 ^ 64 ≤ with_digit n digit) (λ m. m ≡ with_digit n digit) }
{
    match n.checked_mul(10) {
        Some(tens) => tens.checked_add(digit_value(digit)),
        None => None,
    }
}

/// The number that digits spell, where it is below 2^64.
#[tactic(auto, using(crate::proofs::Decimals::stays_large, crate::proofs::Decimals::fold_step))]
fn magnitude(digits: &[u8]) -> Option<u64>
    ensures { MatchOption result (2 ^ 64 ≤ decimal digits.now) (λ n. n ≡ decimal digits.now) }
{
    let mut sum = 0u64;
    for digit in digits {
        match with_digit(sum, *digit) {
            Some(more) => sum = more,
            None => return None,
        }
    }
    Some(sum)
}

/// The integer of this sign and magnitude, where it is one of 64 bits.
fn small(negative: bool, magnitude: u64) -> Option<i64>
    ensures { MatchOption result (is_large (signed negative magnitude) ≡ true) (λ n. n ≡ signed negative magnitude) }
{
    if !negative {
        if magnitude < 1 << 63 {
            return Some(magnitude as i64);
        }
        return None;
    }
    if magnitude == 0 {
        return Some(0);
    }
    if magnitude - 1 < 1 << 63 {
        return Some(-((magnitude - 1) as i64) - 1);
    }
    None
}

fn digit_count(bytes: &[u8]) -> usize
    ensures exact { result ≡ prefix_len is_digit bytes.now }
    ensures bounded { result ≤ length bytes.now }
{
    bytes.iter().take_while(|b| is_digit(**b)).count()
}

/// How many bytes a fraction takes, from its point on, or 0 where none begins.
fn fraction_len(bytes: &[u8]) -> usize
    ensures exact { result ≡ fraction_len bytes.now }
    ensures bounded { result ≤ length bytes.now }
{
    match bytes {
        [b'.', digits @ ..] => match digit_count(digits) {
            0 => 0,
            count => 1 + count,
        },
        _ => 0,
    }
}

fn sign_len(bytes: &[u8]) -> usize
    ensures exact { result ≡ sign_len bytes.now }
    ensures bounded { result ≤ length bytes.now }
{
    match bytes {
        [b'+' | b'-', ..] => 1,
        _ => 0,
    }
}

/// How many bytes an exponent takes behind its letter, or 0 where none follows.
fn power_len(bytes: &[u8]) -> usize
    ensures exact { point_len result ≡ power_len (sign_len bytes.now) (prefix_len is_digit (drop (sign_len bytes.now) bytes.now)) }
    ensures bounded { result ≤ length bytes.now }
{
    let sign = sign_len(bytes);
    let count = digit_count(&bytes[sign..]);
    if count == 0 { 0 } else { sign + count }
}

/// How many bytes an exponent takes, from its letter on, or 0 where none begins.
fn exponent_len(bytes: &[u8]) -> usize
    ensures exact { result ≡ exponent_len bytes.now }
    ensures bounded { result ≤ length bytes.now }
{
    match bytes {
        [b'e' | b'E', power @ ..] => match power_len(power) {
            0 => 0,
            count => 1 + count,
        },
        _ => 0,
    }
}

/// The integer that a spelling stands for.
#[tactic(auto, using(crate::proofs::Digits::spelling_utf8))]
fn integer(spelling: &[u8]) -> Token<'_>
    requires { is_spelling spelling.now ≡ true }
    ensures { token_of result ≡ integer (number spelling.now) }
{
    match value(spelling) {
        Some(n) => Token::Integer(n),
        None => Token::Large(Large {
            text: as_text(spelling),
        }),
    }
}

/// The integer that a spelling stands for, where it is one of 64 bits.
fn value(spelling: &[u8]) -> Option<i64>
    ensures { MatchOption result (is_large (number spelling.now) ≡ true) (λ n. n ≡ number spelling.now) }
{
    if spelling.is_empty() {
        return Some(0);
    }
    if spelling[0] == b'-' {
        return match magnitude(&spelling[1..]) {
            Some(n) => small(true, n),
            None => None,
        };
    }
    match magnitude(spelling) {
        Some(n) => small(false, n),
        None => None,
    }
}

/// The number at `r`, of which `sign` bytes are its sign.
#[tactic(auto, using(crate::proofs::Digits::number_spelled))]
#[inline(always)]
pub(crate) fn number<'a>(r: Reader<'a>, sign: usize) -> Result<(Token<'a>, Reader<'a>), Fault>
    requires within { sign ≤ length r.rest.now }
    requires signed { IsSign (take sign r.rest.now) }
    ensures { Gives ⊥ (λ x. (token_of x.0, place x.1)) result (number_at (place r.entry) sign) }
{
    let count = digit_count(&r.rest[sign..]);
    if count == 0 {
        if r.rest.len() == sign {
            return Err(Fault::Truncated { line: r.line });
        }
        return Err(Fault::BadToken { line: r.line });
    }
    let end = sign + count;
    let fraction = fraction_len(&r.rest[end..]);
    if fraction == 0 {
        return Ok((integer(&r.rest[..end]), ahead(r, end)));
    }
    let front = end + fraction;
    let exponent = exponent_len(&r.rest[front..]);
    Ok((Token::Float, ahead(r, front + exponent)))
}
