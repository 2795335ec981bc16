//! What follows an element.

ghost use Rattle.bx_terms.specs.Outcomes.{Gives};
ghost use Rattle.bx_text.specs.Place.{place};
ghost use Rattle.bx_text.specs.Token.{lexeme_of};
ghost use Rattle.bx_text.specs.Terms as terms;

use crate::lexemes::{Lexeme, is_comma};
use crate::lexing::{advance, hold};
use crate::moves::ahead;
use crate::tokens::{Mark, Token};
use bx_terms::Fault;

/// Whether another element follows the token held: then its first token is held.
#[inline(always)]
pub(crate) fn behind_token<'a>(l: &mut Lexeme<'a>) -> Result<bool, Fault>
    ensures { Gives ⊥ (λ more. terms.follow_by more (lexeme_of l.new)) result (terms.behind_token (lexeme_of l.old)) }
{
    if is_comma(l.token) {
        advance(l)?;
        Ok(true)
    } else {
        Ok(false)
    }
}

/// Whether another element follows: then its first token is held, else the token that is no comma.
#[inline(always)]
#[tactic(auto, using(crate::proofs::Commas::comma_follows, crate::proofs::Commas::brace_follows, crate::proofs::Commas::bracket_follows))]
pub(crate) fn follow<'a>(l: &mut Lexeme<'a>) -> Result<bool, Fault>
    ensures { Gives ⊥ (λ more. terms.follow_by more (lexeme_of l.new)) result (terms.follow_at (place l.old.after)) }
{
    match l.after.rest {
        [b',', ..] => {
            l.after = ahead(l.after, 1);
            advance(l)?;
            Ok(true)
        }
        [b'}', ..] => {
            let here = l.after;
            hold(l, here, Token::Mark(Mark::CloseTuple), ahead(here, 1));
            Ok(false)
        }
        [b']', ..] => {
            let here = l.after;
            hold(l, here, Token::Mark(Mark::CloseList), ahead(here, 1));
            Ok(false)
        }
        _ => {
            advance(l)?;
            behind_token(l)
        }
    }
}
