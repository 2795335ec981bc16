//! Closing marks, and the faults of what stands between brackets.

ghost use Rattle.std.specs.Prelude.{◌≡◌};
ghost use Rattle.bx_terms.specs.Outcomes.{Gives};
ghost use Rattle.bx_text.specs.Place.{place};
ghost use Rattle.bx_text.specs.Token.{lexeme_of};
ghost use Rattle.bx_text.specs.Terms as terms;

use crate::lexemes::{Lexeme, closes_list, closes_tuple};
use bx_terms::Fault;

/// The fault of a token that may not stand here.
pub(crate) fn misplaced(l: &Lexeme<'_>) -> Fault
    ensures { result ≡ Fault.BadTerm l.now.line }
{
    Fault::BadTerm { line: l.line }
}

/// Whether the token held closes a tuple or a map, as it is to.
pub(crate) fn tuple_end(l: &Lexeme<'_>) -> Result<(), Fault>
    ensures { Gives ⊥ (λ _. place l.now.after) result (terms.closed terms.closes_tuple (lexeme_of l.now)) }
{
    if closes_tuple(l.token) {
        Ok(())
    } else {
        Err(misplaced(l))
    }
}

/// Whether the token held closes a list, as it is to.
pub(crate) fn list_end(l: &Lexeme<'_>) -> Result<(), Fault>
    ensures { Gives ⊥ (λ _. place l.now.after) result (terms.closed terms.closes_list (lexeme_of l.now)) }
{
    if closes_list(l.token) {
        Ok(())
    } else {
        Err(misplaced(l))
    }
}

/// The fault of a text that ends before the token held.
pub(crate) fn unended(l: &Lexeme<'_>) -> Fault
    ensures { result ≡ Fault.Truncated l.now.line }
{
    Fault::Truncated { line: l.line }
}

/// The fault of brackets that nest too deep at the token held.
pub(crate) fn too_deep(l: &Lexeme<'_>) -> Fault
    ensures { result ≡ Fault.TooDeep l.now.line }
{
    Fault::TooDeep { line: l.line }
}
