//! Terms that stand for no value here: they are kept as they were read.

ghost use Rattle.std.specs.Prelude.{◌≡◌, ◌-◌};
ghost use Rattle.bx_terms.specs.Outcomes.{Gives};
ghost use Rattle.bx_text.specs.Place.{place};
ghost use Rattle.bx_text.specs.Token.{lexeme_of, token_of};
ghost use Rattle.bx_text.specs.Named.{the_word_fun};
ghost use Rattle.bx_text.specs.Grammar.{IsToken, IsKept};
ghost use Rattle.bx_text.specs.Terms as terms;

use crate::blanks::text_of;
use crate::lexemes::{Lexeme, span};
use crate::node::{Node, Sort};
use crate::reader::Reader;
use crate::wanted::{Wanted, want};
use bx_terms::Fault;

/// The bytes from the token `first` to a place.
#[tactic(auto, using(crate::proofs::Slices::take_most))]
fn taken<'a>(first: Lexeme<'a>, end: Reader<'a>) -> &'a [u8]
    ensures { result.now ≡ terms.taken (lexeme_of first.entry) (place end.entry) }
{
    let len = end.at.saturating_sub(first.from);
    if len <= first.begin.len() {
        &first.begin[..len]
    } else {
        first.begin
    }
}

/// The term from the token `first` to a place, where it ends.
pub(crate) fn kept<'a>(first: Lexeme<'a>, end: Reader<'a>, sort: Sort) -> Result<Node<'a>, Fault>
    requires { IsKept sort (lexeme_of first) (place end) }
    ensures { Gives ⊥ (λ x. (x, place end.entry)) result (terms.kept_at sort (lexeme_of first.entry) (place end.entry)) }
{
    match text_of(taken(first, end)) {
        Ok(text) => Ok(Node::other(span(first, end), sort, text)),
        Err(_) => Err(Fault::NotUtf8 { line: first.line }),
    }
}

/// The external fun that begins with the token held, the word `fun`.
pub(crate) fn fun<'a>(l: &mut Lexeme<'a>) -> Result<Node<'a>, Fault>
    requires stands { IsToken (lexeme_of l.old) }
    requires word { token_of l.old.token ≡ the_word_fun }
    ensures { Gives ⊥ (λ x. (x, place l.new.after)) result (terms.fun_at (lexeme_of l.old)) }
{
    let first = *l;
    want(l, Wanted::Atom)?;
    want(l, Wanted::Colon)?;
    want(l, Wanted::Atom)?;
    want(l, Wanted::Slash)?;
    want(l, Wanted::Integer)?;
    kept(first, l.after, Sort::Fun)
}
