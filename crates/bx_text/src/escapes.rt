//! Escapes between quotes.

ghost use Rattle.std.specs.Prelude.{◌≡◌, ◌≤◌, ◌++◌, ◌∷◌, ℕ, List, IfOk, MatchOption, codes, string_bytes};
ghost use Rattle.std.specs.Str.{bytes_eq};
ghost use Rattle.std.specs.Str.{encode_utf8_all};
ghost use Rattle.bx_text.specs.Escapes as escapes;
ghost use Rattle.bx_text.specs.Left.{IsLeft};

use std::alloc::{AllocError, Global};

/// What is open behind some characters of a quoted token.
#[derive(Clone, Copy, Debug, PartialEq, Eq)]
pub(crate) enum Escape {
    /// No escape.
    Plain,
    /// A backslash.
    Begun,
    /// An octal digit, to which two more may come.
    Octal(u8),
    /// Two octal digits, to which one more may come.
    Octals(u16),
    /// `\x`.
    Hex,
    /// `\x` and a digit.
    HexDigit(u8),
    /// `\x{`.
    Brace,
    /// `\x{` and digits.
    Braced(u32),
    /// `\^`.
    Control,
    /// What begins no escape.
    Bad,
}

/// What a digit of base 16 counts, or 16.
fn digit(c: char) -> u8
    ensures exact { result ≡ escapes.digit c }
    ensures bounded { result ≤ 16 }
{
    if '0' <= c && c <= '9' {
        (c as u32 - 48) as u8
    } else if 'A' <= c && c <= 'F' {
        (c as u32 - 55) as u8
    } else if 'a' <= c && c <= 'f' {
        (c as u32 - 87) as u8
    } else {
        16
    }
}

fn is_control(c: char) -> bool
    ensures { result ≡ escapes.is_control c }
{
    '@' <= c && c <= '_' || 'a' <= c && c <= 'z'
}

/// The code of some more hexadecimal digits, or one past the last there is.
fn braced(value: u32, digit: u8) -> u32
    ensures { result ≡ escapes.braced value digit }
{
    if value < 0x11000 {
        16 * value + u32::from(digit)
    } else {
        0x110000
    }
}

fn is_scalar(code: u32) -> bool
    ensures { result ≡ escapes.is_scalar code }
{
    code < 0xD800 || 0xE000 <= code && code < 0x110000
}

fn begins_with(c: char) -> Escape
    ensures { result ≡ escapes.begins_with c }
{
    if c == '\\' {
        Escape::Begun
    } else {
        Escape::Plain
    }
}

fn behind_slash(c: char) -> Escape
    ensures { result ≡ escapes.step Escape.Begun c }
{
    let value = digit(c);
    if value < 8 {
        Escape::Octal(value)
    } else if c == 'x' {
        Escape::Hex
    } else if c == '^' {
        Escape::Control
    } else {
        Escape::Plain
    }
}

fn behind_octal(value: u8, c: char) -> Escape
    ensures { result ≡ escapes.step (Escape.Octal value) c }
{
    let last = digit(c);
    if last < 8 {
        Escape::Octals(8 * u16::from(value) + u16::from(last))
    } else {
        begins_with(c)
    }
}

fn behind_octals(value: u16, c: char) -> Escape
    ensures { result ≡ escapes.step (Escape.Octals value) c }
{
    if digit(c) < 8 {
        Escape::Plain
    } else {
        begins_with(c)
    }
}

fn behind_hex(c: char) -> Escape
    ensures { result ≡ escapes.step Escape.Hex c }
{
    let value = digit(c);
    if c == '{' {
        Escape::Brace
    } else if value < 16 {
        Escape::HexDigit(value)
    } else {
        Escape::Bad
    }
}

fn behind_brace(c: char) -> Escape
    ensures { result ≡ escapes.step Escape.Brace c }
{
    let value = digit(c);
    if value < 16 {
        Escape::Braced(u32::from(value))
    } else {
        Escape::Bad
    }
}

fn behind_braced(value: u32, c: char) -> Escape
    ensures { result ≡ escapes.step (Escape.Braced value) c }
{
    let last = digit(c);
    if last < 16 {
        Escape::Braced(braced(value, last))
    } else if c == '}' && is_scalar(value) {
        Escape::Plain
    } else {
        Escape::Bad
    }
}

fn plain_where(good: bool) -> Escape
    ensures { result ≡ escapes.plain_where good }
{
    if good { Escape::Plain } else { Escape::Bad }
}

/// What is open with one character more.
fn step(escape: Escape, c: char) -> Escape
    ensures { result ≡ escapes.step escape c }
{
    match escape {
        Escape::Plain => begins_with(c),
        Escape::Begun => behind_slash(c),
        Escape::Octal(value) => behind_octal(value, c),
        Escape::Octals(value) => behind_octals(value, c),
        Escape::Hex => behind_hex(c),
        Escape::HexDigit(_) => plain_where(digit(c) < 16),
        Escape::Brace => behind_brace(c),
        Escape::Braced(value) => behind_braced(value, c),
        Escape::Control => plain_where(is_control(c)),
        Escape::Bad => Escape::Bad,
    }
}

/// What is open behind a text.
#[tactic(auto, using(std::proofs::lemmas::Str::chars_from_encodes, crate::proofs::Escaping::fold_push))]
pub(crate) fn open_in(text: &str) -> Escape
    ensures { result ≡ escapes.open_in text.now }
{
    let mut escape = Escape::Plain;
    for c in text.chars() {
        escape = step(escape, c);
    }
    escape
}

/// Whether the escape, if any, needs no more characters.
pub(crate) fn is_whole(escape: Escape) -> bool
    ensures { result ≡ escapes.is_whole escape }
{
    match escape {
        Escape::Plain | Escape::Octal(_) | Escape::Octals(_) => true,
        _ => false,
    }
}

/// Whether any character may follow.
pub(crate) fn may_go_on(escape: Escape) -> bool
    ensures { result ≡ escapes.may_go_on escape }
{
    match escape {
        Escape::Begun => true,
        _ => is_whole(escape),
    }
}

/// What a character behind a backslash stands for.
fn named(c: char) -> char
    ensures { result ≡ escapes.named c }
{
    match c {
        'b' => '\x08',
        'd' => '\x7F',
        'e' => '\x1B',
        'f' => '\x0C',
        'n' => '\n',
        'r' => '\r',
        's' => ' ',
        't' => '\t',
        'v' => '\x0B',
        _ => c,
    }
}

/// The characters, two at most, that become known at once.
type Known = (Option<char>, Option<char>);

/// The character of a code, if it is one's.
#[tactic(auto, using(crate::proofs::Escaping::scalar_in, crate::proofs::Escaping::scalar_out))]
fn coded(code: u32) -> Option<char>
    ensures { escapes.one_of result ≡ escapes.coded code }
{
    char::from_u32(code)
}

/// The character of a code, where the escape is a good one.
fn coded_if(good: bool, code: u32) -> Option<char>
    ensures { escapes.one_of result ≡ escapes.coded_if good code }
{
    if good { coded(code) } else { None }
}

/// A character that stands for itself, unless it begins an escape.
fn itself(c: char) -> Option<char>
    ensures { escapes.one_of result ≡ escapes.itself c }
{
    if c == '\\' { None } else { Some(c) }
}

/// What a character behind a backslash stands for, where it stands alone.
fn known_begun(c: char) -> Option<char>
    ensures { escapes.one_of result ≡ escapes.known Escape.Begun c }
{
    if digit(c) < 8 || c == 'x' || c == '^' {
        None
    } else {
        Some(named(c))
    }
}

fn known_octal(value: u8, c: char) -> Known
    ensures { escapes.both_of result ≡ escapes.known (Escape.Octal value) c }
{
    if digit(c) < 8 {
        (None, None)
    } else {
        (coded(u32::from(value)), itself(c))
    }
}

fn known_octals(value: u16, c: char) -> Known
    ensures { escapes.both_of result ≡ escapes.known (Escape.Octals value) c }
{
    let last = digit(c);
    if last < 8 {
        (None, coded(8 * u32::from(value) + u32::from(last)))
    } else {
        (coded(u32::from(value)), itself(c))
    }
}

fn known_hex(value: u8, c: char) -> Option<char>
    ensures { escapes.one_of result ≡ escapes.known (Escape.HexDigit value) c }
{
    let last = digit(c);
    coded_if(last < 16, 16 * u32::from(value) + u32::from(last))
}

/// The characters that are known with `c`.
fn known(escape: Escape, c: char) -> Known
    ensures { escapes.both_of result ≡ escapes.known escape c }
{
    match escape {
        Escape::Plain => (None, itself(c)),
        Escape::Begun => (None, known_begun(c)),
        Escape::Octal(value) => known_octal(value, c),
        Escape::Octals(value) => known_octals(value, c),
        Escape::HexDigit(value) => (None, known_hex(value, c)),
        Escape::Braced(value) => (None, coded_if(c == '}', value)),
        Escape::Control => (None, coded_if(is_control(c), c as u32 % 32)),
        Escape::Hex | Escape::Brace | Escape::Bad => (None, None),
    }
}

/// The character that the end of the text makes known.
fn known_last(escape: Escape) -> Option<char>
    ensures { escapes.one_of result ≡ escapes.known_last escape }
{
    match escape {
        Escape::Octal(value) => coded(u32::from(value)),
        Escape::Octals(value) => coded(u32::from(value)),
        _ => None,
    }
}

#[tactic(auto, using(crate::proofs::Escaping::one_encoded, crate::proofs::Escaping::none_encoded))]
fn put(out: &mut String, c: Option<char>) -> Result<(), AllocError>
    ensures { IfOk result (λ _. string_bytes out.new ≡ string_bytes out.old ++ encode_utf8_all (escapes.one_of c)) }
{
    match c {
        Some(c) => out.push(c),
        None => Ok(()),
    }
}

#[tactic(auto, using(crate::proofs::Escaping::two_encoded))]
fn put_known(out: &mut String, known: Known) -> Result<(), AllocError>
    ensures { IfOk result (λ _. string_bytes out.new ≡ string_bytes out.old ++ encode_utf8_all (escapes.both_of known)) }
{
    put(out, known.0)?;
    put(out, known.1)
}

/// The text that a spelling with escapes stands for.
pub(crate) fn decode(alloc: Global, raw: &str) -> Result<String, AllocError>
    ensures { IfOk result (λ text. string_bytes text ≡ escapes.decoded raw.now) }
{
    let mut out = String::new(alloc);
    let mut escape = Escape::Plain;
    for c in raw.chars() {
        put_known(&mut out, known(escape, c))?;
        escape = step(escape, c);
    }
    put(&mut out, known_last(escape))?;
    Ok(out)
}

/// What is left of a text behind a character with which it begins.
fn rest_behind(left: &[u8], c: char) -> Option<&[u8]>
    ensures { MatchOption result ((rest : List ℕ) → left.now ≡ c ∷ rest → ⊥) (λ rest. left.now ≡ c ∷ rest.now) }
{
    match left {
        [first, rest @ ..] => {
            if char::from(*first) == c {
                Some(rest)
            } else {
                None
            }
        }
        [] => None,
    }
}

/// What is left of a text behind a character, where there may be none.
#[tactic(auto, using(crate::proofs::Lefts::none_more, crate::proofs::Lefts::one_more, crate::proofs::Lefts::no_more, crate::proofs::Lefts::none_left))]
fn left_behind<'w>(left: Option<&'w [u8]>, c: Option<char>) -> Option<&'w [u8]>
    ensures { (word : List ℕ) (ks : List ℕ) → IsLeft word ks left.entry → IsLeft word (ks ++ escapes.one_of c) result }
{
    match c {
        Some(c) => rest_behind(left?, c),
        None => left,
    }
}

/// Whether nothing is left of the word `utf8` behind characters with which it begins.
#[tactic(auto, using(crate::proofs::Lefts::nothing_left, crate::proofs::Lefts::some_left, crate::proofs::Lefts::other_word))]
fn is_spent(left: Option<&[u8]>) -> bool
    ensures { (ks : List ℕ) → IsLeft (codes "utf8") ks left.entry → result ≡ bytes_eq (encode_utf8_all ks) (codes "utf8") }
{
    match left {
        Some([]) => true,
        Some([_, ..]) => false,
        None => false,
    }
}

/// Whether a spelling with escapes stands for `utf8`.
pub(crate) fn means_utf8(raw: &str) -> bool
    ensures { result ≡ bytes_eq (escapes.decoded raw.now) (codes "utf8") }
{
    let word: &[u8] = b"utf8";
    let mut left = Some(word);
    let mut escape = Escape::Plain;
    for c in raw.chars() {
        let (one, other) = known(escape, c);
        let first = left_behind(left, one);
        left = left_behind(first, other);
        escape = step(escape, c);
    }
    let last = known_last(escape);
    let rest = left_behind(left, last);
    is_spent(rest)
}
