//! Binaries: segments of integers and strings.

ghost use Rattle.std.specs.Prelude.{◌≡◌};
ghost use Rattle.bx_terms.specs.Outcomes.{Gives};
ghost use Rattle.bx_text.specs.Place.{place};
ghost use Rattle.bx_text.specs.Token as token;
ghost use Rattle.bx_text.specs.Token.{lexeme_of, token_of};
ghost use Rattle.bx_text.specs.Terms as terms;
ghost use Rattle.bx_text.specs.Grammar.{IsToken};

use crate::follows::behind_token;
use crate::kept::kept;
use crate::lexemes::{Lexeme, closes_binary, is_colon, is_slash};
use crate::lexing::advance;
use crate::moves::truncated;
use crate::node::{Node, Sort};
use crate::strings::pass_strings;
use crate::tokens::Token;
use crate::wanted::{Wanted, want};
use bx_terms::Fault;

/// The strings in a segment, which count as a bracket.
fn content_text<'a>(l: &mut Lexeme<'a>, depth: u32) -> Result<(), Fault>
    ensures { Gives ⊥ (λ _. place l.new.after) result (terms.content_text depth (lexeme_of l.old)) }
{
    if depth == 0 {
        return Err(Fault::TooDeep { line: l.line });
    }
    pass_strings(l)
}

/// What a segment holds, from the token held on.
fn content<'a>(l: &mut Lexeme<'a>, depth: u32) -> Result<(), Fault>
    ensures { Gives ⊥ (λ _. place l.new.after) result (terms.content_by depth (lexeme_of l.old) (token_of l.old.token)) }
{
    match l.token {
        Token::Integer(_) | Token::Large(_) => Ok(()),
        Token::Text(_) => content_text(l, depth),
        _ => Err(Fault::BadTerm { line: l.line }),
    }
}

/// The size that may begin with the token held, and the token behind it.
fn sized<'a>(l: &mut Lexeme<'a>) -> Result<(), Fault>
    ensures { Gives ⊥ (λ _. lexeme_of l.new) result (terms.sized (lexeme_of l.old)) }
{
    if is_colon(l.token) {
        want(l, Wanted::Integer)?;
        advance(l)?;
    }
    Ok(())
}

/// The encoding that may begin with the token held, and the token behind it.
fn encoded<'a>(l: &mut Lexeme<'a>) -> Result<(), Fault>
    ensures { Gives ⊥ (λ _. lexeme_of l.new) result (terms.encoded (lexeme_of l.old)) }
{
    if is_slash(l.token) {
        want(l, Wanted::Utf8)?;
        advance(l)?;
    }
    Ok(())
}

/// The segment that begins with the token held: whether another follows, which is then held.
fn segment<'a>(l: &mut Lexeme<'a>, depth: u32) -> Result<bool, Fault>
    ensures { Gives ⊥ (λ more. terms.follow_by more (lexeme_of l.new)) result (terms.segment_at depth (lexeme_of l.old)) }
{
    content(l, depth)?;
    advance(l)?;
    sized(l)?;
    encoded(l)?;
    behind_token(l)
}

/// The segments from the token held on, and the first token behind them that is no comma.
fn segments<'a>(l: &mut Lexeme<'a>, depth: u32) -> Result<(), Fault>
    ensures { Gives ⊥ (λ _. lexeme_of l.new) result (terms.parts_at (terms.segment_at depth) (lexeme_of l.old)) }
{
    // Each segment takes a byte at least.
    for _turn in 0..l.after.rest.len() + 1 {
        match segment(l, depth) {
            Err(fault) => return Err(fault),
            Ok(false) => return Ok(()),
            Ok(true) => {}
        }
    }
    Err(Fault::Truncated { line: l.line })
}

/// The binary that begins with the token held, in which strings may nest `depth` deep.
pub(crate) fn binary<'a>(l: &mut Lexeme<'a>, depth: u32) -> Result<Node<'a>, Fault>
    requires stands { IsToken (lexeme_of l.old) }
    requires opens { token_of l.old.token ≡ token.open_binary }
    ensures { Gives ⊥ (λ x. (x, place l.new.after)) result (terms.binary_at depth (lexeme_of l.old)) }
{
    let first = *l;
    advance(l)?;
    if !closes_binary(l.token) {
        segments(l, depth)?;
        if !closes_binary(l.token) {
            return Err(Fault::BadTerm { line: l.line });
        }
    }
    kept(first, l.after, Sort::Binary)
}
