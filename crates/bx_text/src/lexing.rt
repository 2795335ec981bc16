//! Which token comes next.

ghost use Rattle.std.specs.Prelude.{◌≡◌, ◌≤◌, ◌-◌, pos, Ok, Err, true, false, length, take};
ghost use Rattle.bx_text.specs.Number.{IsSign};
ghost use Rattle.bx_terms.specs.Outcomes.{Gives};
ghost use Rattle.bx_text.specs.Bytes.{begins, is_digit};
ghost use Rattle.bx_text.specs.Place.{place};
ghost use Rattle.bx_text.specs.Token.{token_of, lexeme_of, integer};
ghost use Rattle.bx_text.specs.Lexing.{ends, stop_at, pair_at, number_at, token_by, lexeme_from, lexeme_at};
ghost use Rattle.bx_text.specs.Holding.{held, holding};
ghost use Rattle.bx_text.specs.Short.{is_short, is_common, is_common_next};

use crate::blanks::{skip, spaces};
use crate::bytes::{is_digit, is_space};
use crate::kinds::{Kind, kind_of};
use crate::lexemes::Lexeme;
use crate::moves::ahead;
use crate::numbers::number;
use crate::quotes::quoted;
use crate::reader::Reader;
use crate::tokens::{Mark, Token};
use crate::words::{accent, foreign, word};
use bx_terms::Fault;

/// Whether a full stop ends before these bytes.
fn ends(bytes: &[u8]) -> bool
    ensures { result ≡ ends bytes.now }
{
    match bytes {
        [] => true,
        [b, ..] => is_space(*b) || *b == b'%',
    }
}

fn stop<'a>(r: Reader<'a>) -> Result<(Token<'a>, Reader<'a>), Fault>
    requires { 1 ≤ length r.rest.now }
    ensures { Gives ⊥ (λ x. (token_of x.0, place x.1)) result (stop_at (place r.entry)) }
{
    if ends(&r.rest[1..]) {
        Ok((Token::Mark(Mark::Stop), ahead(r, 1)))
    } else {
        Err(Fault::BadToken { line: r.line })
    }
}

/// The mark of two bytes at `r`, of which the second is to be `second`.
fn pair<'a>(r: Reader<'a>, second: u8, token: Token<'a>) -> Result<(Token<'a>, Reader<'a>), Fault>
    requires { 1 ≤ length r.rest.now }
    ensures { Gives ⊥ (λ x. (token_of x.0, place x.1)) result (pair_at second (token_of token.entry) (place r.entry)) }
{
    match &r.rest[1..] {
        [] => Err(Fault::Truncated { line: r.line }),
        [b, ..] => {
            if *b == second {
                Ok((token, ahead(r, 2)))
            } else {
                Err(Fault::BadToken { line: r.line })
            }
        }
    }
}

/// The token at `r` that begins as `kind` says.
#[inline(always)]
fn token_by<'a>(kind: Kind, r: Reader<'a>) -> Result<(Token<'a>, Reader<'a>), Fault>
    requires signed { kind ≡ Kind.Minus → IsSign (take 1 r.rest.now) }
    requires some { 1 ≤ length r.rest.now }
    ensures { Gives ⊥ (λ x. (token_of x.0, place x.1)) result (token_by kind (place r.entry)) }
{
    match kind {
        Kind::Letter => Ok(word(r)),
        Kind::Accent => accent(r),
        Kind::Digit => number(r, 0),
        Kind::Minus => number(r, 1),
        Kind::Quote => {
            let (text, after) = quoted(r, b'\'')?;
            Ok((Token::Atom(text), after))
        }
        Kind::DoubleQuote => {
            let (text, after) = quoted(r, b'"')?;
            Ok((Token::Text(text), after))
        }
        Kind::OpenTuple => Ok((Token::OpenTuple, ahead(r, 1))),
        Kind::OpenList => Ok((Token::OpenList, ahead(r, 1))),
        Kind::Mark(mark) => Ok((Token::Mark(mark), ahead(r, 1))),
        Kind::Dot => stop(r),
        Kind::Hash => pair(r, b'{', Token::OpenMap),
        Kind::Less => pair(r, b'<', Token::OpenBinary),
        Kind::Equals => pair(r, b'>', Token::Mark(Mark::Arrow)),
        Kind::Greater => pair(r, b'>', Token::Mark(Mark::CloseBinary)),
        Kind::Foreign => Err(foreign(r)),
        Kind::Nothing => Err(Fault::BadToken { line: r.line }),
    }
}

/// Holds a token that was read at `r`, and the place behind it.
#[inline(always)]
pub(crate) fn hold<'a>(l: &mut Lexeme<'a>, r: Reader<'a>, token: Token<'a>, after: Reader<'a>)
    ensures { lexeme_of l.new ≡ held (place r.entry) (token_of token.entry, place after.entry) }
{
    l.token = token;
    l.from = r.at;
    l.line = r.line;
    l.begin = r.rest;
    l.after = after;
}

/// Holds the token at `r` that begins as `kind` says, which is any.
#[inline(never)]
fn take_any<'a>(l: &mut Lexeme<'a>, kind: Kind, r: Reader<'a>) -> Result<(), Fault>
    requires signed { kind ≡ Kind.Minus → IsSign (take 1 r.rest.now) }
    requires some { 1 ≤ length r.rest.now }
    ensures { Gives ⊥ (λ _. lexeme_of l.new) result (holding (place r.entry) (token_by kind (place r.entry))) }
{
    let (token, after) = token_by(kind, r)?;
    hold(l, r, token, after);
    Ok(())
}

/// Holds the number at `r`, which begins with a digit; or says that none is there, and changes nothing.
#[inline(never)]
fn take_number<'a>(l: &mut Lexeme<'a>, r: Reader<'a>) -> bool
    ensures taken { result ≡ true → number_at (place r.entry) 0 ≡ Ok (token_of l.new.token, place l.new.after) }
    ensures held { result ≡ true → lexeme_of l.new ≡ held (place r.entry) (token_of l.new.token, place l.new.after) }
    ensures exact { result ≡ begins is_digit r.entry.rest.now }
    ensures stays { result ≡ false → place l.new.after ≡ place l.old.after }
{
    match number(r, 0) {
        Ok((token, after)) => {
            hold(l, r, token, after);
            true
        }
        Err(_) => false,
    }
}

/// Whether a number of one digit stands at the front.
#[inline(always)]
fn is_short(bytes: &[u8]) -> bool
    ensures { result ≡ is_short bytes.now }
{
    match bytes {
        [digit, next, ..] => is_digit(*digit) && !is_digit(*next) && !(*next == b'.'),
        _ => false,
    }
}

/// The number of one digit.
#[inline(always)]
fn digit_token<'a>(digit: u8) -> Token<'a>
    ensures { token_of result ≡ integer (pos (digit - 48)) }
{
    Token::Integer(i64::from(digit.saturating_sub(b'0')))
}

/// Holds the number at `r`, of which most have one digit; or says that none is there, and changes nothing.
#[inline(always)]
#[tactic(auto, using(crate::proofs::Short::one_digit))]
fn take_digits<'a>(l: &mut Lexeme<'a>, r: Reader<'a>) -> bool
    requires { 1 ≤ length r.rest.now }
    ensures taken { result ≡ true → number_at (place r.entry) 0 ≡ Ok (token_of l.new.token, place l.new.after) }
    ensures held { result ≡ true → lexeme_of l.new ≡ held (place r.entry) (token_of l.new.token, place l.new.after) }
    ensures exact { result ≡ begins is_digit r.entry.rest.now }
    ensures stays { result ≡ false → place l.new.after ≡ place l.old.after }
{
    if is_short(r.rest) {
        hold(l, r, digit_token(r.rest[0]), ahead(r, 1));
        true
    } else {
        take_number(l, r)
    }
}

/// Holds the token at `r`, where it is one of those that stand in a text most; or says that it is none, and stays.
#[inline(always)]
fn take_common<'a>(l: &mut Lexeme<'a>, r: Reader<'a>) -> bool
    requires { 1 ≤ length r.rest.now }
    ensures taken { result ≡ true → lexeme_from (place r.entry) ≡ Ok (lexeme_of l.new) }
    ensures exact { result ≡ is_common r.entry.rest.now }
    ensures stays { result ≡ false → place l.new.after ≡ place l.old.after }
{
    match kind_of(r.rest[0]) {
        Kind::Letter => {
            let (token, after) = word(r);
            hold(l, r, token, after);
            true
        }
        Kind::Digit => take_digits(l, r),
        Kind::OpenTuple => {
            hold(l, r, Token::OpenTuple, ahead(r, 1));
            true
        }
        Kind::OpenList => {
            hold(l, r, Token::OpenList, ahead(r, 1));
            true
        }
        Kind::Mark(mark) => {
            hold(l, r, Token::Mark(mark), ahead(r, 1));
            true
        }
        Kind::Dot => {
            if ends(&r.rest[1..]) {
                hold(l, r, Token::Mark(Mark::Stop), ahead(r, 1));
                true
            } else {
                false
            }
        }
        _ => false,
    }
}

/// Holds the token at `r`.
#[inline(always)]
#[tactic(auto, using(crate::proofs::Digits::minus_sign))]
pub(crate) fn take<'a>(l: &mut Lexeme<'a>, r: Reader<'a>) -> Result<(), Fault>
    ensures { Gives ⊥ (λ _. lexeme_of l.new) result (lexeme_from (place r.entry)) }
{
    if r.rest.is_empty() {
        return Err(Fault::Truncated { line: r.line });
    }
    if take_common(l, r) {
        Ok(())
    } else {
        take_any(l, kind_of(r.rest[0]), r)
    }
}

/// Goes on to the next token, which is any.
#[inline(never)]
fn advance_any<'a>(l: &mut Lexeme<'a>) -> Result<(), Fault>
    ensures { Gives ⊥ (λ _. lexeme_of l.new) result (lexeme_at (place l.old.after)) }
{
    let here = skip(l.after)?;
    take(l, here)
}

/// Goes on to the next token, where it is one of those that stand in a text most, and no comment comes before it; or stays.
///
/// Its answer fits in a register, and a fault does not.
#[inline(never)]
fn advance_common<'a>(l: &mut Lexeme<'a>) -> bool
    ensures taken { result ≡ true → lexeme_at (place l.old.after) ≡ Ok (lexeme_of l.new) }
    ensures exact { result ≡ is_common_next (place l.old.after) }
    ensures stays { result ≡ false → place l.new.after ≡ place l.old.after }
{
    match spaces(l.after) {
        Some(here) => take_common(l, here),
        None => false,
    }
}

/// Goes on to the next token, which is any: so its answer takes room only where it is wanted.
#[inline(always)]
fn advance_other<'a>(l: &mut Lexeme<'a>) -> Result<(), Fault>
    ensures { Gives ⊥ (λ _. lexeme_of l.new) result (lexeme_at (place l.old.after)) }
{
    advance_any(l)?;
    Ok(())
}

/// Goes on to the next token.
#[inline(always)]
pub(crate) fn advance<'a>(l: &mut Lexeme<'a>) -> Result<(), Fault>
    ensures { Gives ⊥ (λ _. lexeme_of l.new) result (lexeme_at (place l.old.after)) }
{
    if advance_common(l) {
        Ok(())
    } else {
        advance_other(l)
    }
}
