//! Forms that are dropped: pairs of a word and a term, which are passed over.

ghost use Rattle.bx_terms.specs.Outcomes.{Gives};
ghost use Rattle.bx_text.specs.Place.{place};
ghost use Rattle.bx_text.specs.Token.{token_of};
ghost use Rattle.std.specs.Prelude.{◌≡◌};
ghost use Rattle.bx_text.specs.Terms as terms;
ghost use Rattle.bx_text.specs.Pairs.{is_word, pair_end};

use crate::brackets::misplaced;
use crate::lexemes::Lexeme;
use crate::lexing::advance;
use crate::passing::pass_next;
use crate::reader::Reader;
use crate::tokens::{Body, Token};
use crate::wanted::{Wanted, want};
use bx_terms::Fault;

/// How deep brackets may nest in a tuple.
const DEEPEST_INSIDE: u32 = 255;

/// Whether the token is that word, without escapes.
fn is_word(token: Token<'_>, word: &str) -> bool
    ensures { result ≡ is_word word.now (token_of token.entry) }
{
    match token {
        Token::Atom(Body::Plain(text)) => text == word,
        _ => false,
    }
}

/// Goes on to the next token, which is to be that word.
fn want_word<'a>(l: &mut Lexeme<'a>, word: &str) -> Result<(), Fault>
    ensures { Gives ⊥ (λ _. place l.new.after) result (terms.want (is_word word.now) (place l.old.after)) }
{
    advance(l)?;
    if is_word(l.token, word) {
        Ok(())
    } else {
        Err(misplaced(l))
    }
}

/// Passes over the next form, which is to be a pair of that word and a term in which brackets may nest `depth` deep.
fn pass_pair<'a>(l: &mut Lexeme<'a>, word: &str, depth: u32) -> Result<(), Fault>
    ensures { Gives ⊥ (λ _. place l.new.after) result (pair_end depth word.now (place l.old.after)) }
{
    want(l, Wanted::OpenTuple)?;
    want_word(l, word)?;
    want(l, Wanted::Comma)?;
    pass_next(l, depth)?;
    want(l, Wanted::CloseTuple)?;
    want(l, Wanted::Stop)
}

/// A reader behind the next form, which is to be a pair of that word and a term.
fn pair<'a>(reader: Reader<'a>, word: &str) -> Result<Reader<'a>, Fault>
    ensures { Gives ⊥ (λ r. place r) result (pair_end 255 word.now (place reader.entry)) }
{
    let mut l = Lexeme::before(reader);
    match pass_pair(&mut l, word, DEEPEST_INSIDE) {
        Ok(()) => Ok(l.after),
        Err(fault) => Err(fault),
    }
}

impl<'a> Reader<'a> {
    ghost use Rattle.std.specs.Prelude.{◌≡◌, option_map, IfSome};
    ghost use Rattle.bx_text.specs.Place.{place};
    ghost use Rattle.bx_text.specs.Pairs.{pair_end, good, IsPairForm};

    /// A reader behind the next form, where it is a pair of that word, which is written without escapes, and any term.
    ///
    /// The term is passed over, which takes no memory.
    #[tactic(auto, using(crate::proofs::PairForms::pair_ends))]
    pub fn behind_pair(self, word: &str) -> Option<Reader<'a>>
        ensures end { option_map (λ r. place r) result ≡ good (pair_end 255 word.now (place self.entry)) }
        ensures form { IfSome result (λ r. IsPairForm word.now (place self.entry) (place r)) }
    {
        pair(self, word).ok()
    }
}
