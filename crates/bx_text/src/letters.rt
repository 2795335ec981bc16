//! The characters of strings that are kept: a list of integers, of which each takes sixteen bytes.

ghost use Rattle.std.specs.Prelude.{◌≡◌, ◌++◌, ◌<◌, [], get_or, length, MatchResult};
ghost use Rattle.bx_text.specs.Tree.{integer};
ghost use Rattle.bx_text.specs.Terms.{letters};

use crate::node::Span;
use std::alloc::{AllocError, Global};
use std::marker::Model;

/// A character, and the number of the string in which it stands.
#[derive(Clone, Copy, Debug)]
struct Letter {
    code: char,
    string: usize,
}

/// The characters of strings in a row, each of which stands where its string does.
#[derive(Debug, Drop)]
pub struct Letters {
    strings: Vec<Span>,
    letters: Vec<Letter>,
}

impl Model for Letters {
    ghost use Rattle.std.specs.Prelude.{List, map};
    ghost use Rattle.std.specs.Coded.{coded_list};
    ghost use Rattle.bx_text.specs.Tree.{Tree, tree_code};

    ghost Value = { List Tree };

    ghost coded = { coded_list tree_code };

    ghost use Rattle.bx_text.specs.Lettered.{lettered, AreLettered};

    ghost view = { λ l. map (lettered l.strings.items) l.letters.items };

    ghost invariant = { λ l. AreLettered l.strings.items l.letters.items };
}

impl Letters {
    /// Of no string.
    pub(crate) fn new(alloc: Global) -> Letters
        ensures { result ≡ [] }
    {
        Letters {
            strings: Vec::new(alloc),
            letters: Vec::new(alloc),
        }
    }

    /// Puts the characters of a string that stands there behind the others.
    #[tactic(auto, using(crate::proofs::Lettered::no_letters))]
    pub(crate) fn add(&mut self, span: Span, text: &str) -> Result<(), AllocError>
        ensures { MatchResult result (λ _. self.new ≡ self.old ++ letters span text.now) (λ _. 0 < length text.now) }
    {
        if text.is_empty() {
            return Ok(());
        }
        let string = self.strings.as_slice().len();
        self.strings.push(span)?;
        for code in text.chars() {
            self.letters.push(Letter { code, string })?;
        }
        Ok(())
    }

    /// How many they are.
    pub fn len(&self) -> usize
        ensures { result ≡ length self.now }
    {
        self.letters.len()
    }

    /// Where a character stands, and its code.
    pub fn at(&self, number: usize) -> (Span, i64)
        requires { number < length self.now }
        ensures { integer result.0 result.1 ≡ get_or self.now number (integer result.0 result.1) }
    {
        let letter = self.letters[number];
        (self.strings[letter.string], i64::from(letter.code as u32))
    }
}
