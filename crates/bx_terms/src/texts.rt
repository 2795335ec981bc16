//! Texts by number.

ghost use Rattle.std.specs.Prelude.{◌≡◌, ◌↔◌, ◌∷◌, ◌++◌, [], None, length, option_map, slice_get, IsTrue, OnErr, OnOk};
ghost use Rattle.bx_terms.specs.AtomTable.{number_of};

use indexmap::IndexMap;
use std::alloc::{AllocError, Global};
use std::collections::BTreeMap;
use std::marker::Model;

/// Texts, numbered from 0 in the order in which they were put.
///
/// They are looked up by their order, since whoever writes a text could choose many that a hash cannot tell apart.
#[derive(Drop)]
pub struct Texts {
    by_number: IndexMap<u32, String>,
    numbers: BTreeMap<String, u32>,
}

impl Model for Texts {
    ghost use Rattle.std.specs.Prelude.{List, ℕ, map, string_bytes};
    ghost use Rattle.indexmap.specs.IndexMap.{values};

    ghost Value = { List (List ℕ) };

    ghost use Rattle.bx_terms.specs.Texts.{AreNumbers};

    ghost view = { λ t. map string_bytes (values t.by_number) };

    ghost invariant = { λ t. AreNumbers (map string_bytes (values t.by_number)) t.numbers };
}

impl Texts {
    /// No text.
    #[tactic(auto, using(crate::proofs::Numbers::none_numbered))]
    pub(crate) fn new(alloc: Global) -> Texts
        ensures { result ≡ [] }
    {
        Texts {
            by_number: IndexMap::new(alloc),
            numbers: BTreeMap::new(alloc),
        }
    }

    pub(crate) fn len(&self) -> usize
        ensures { result ≡ length self.now }
    {
        self.by_number.len()
    }

    /// The number of that text, where it is there.
    pub(crate) fn number(&self, text: &str) -> Option<u32>
        ensures { result ≡ number_of self.now text.now }
    {
        let number = self.numbers.get(text)?;
        Some(*number)
    }

    /// The text of that number.
    pub(crate) fn text(&self, number: u32) -> Option<&str>
        ensures { option_map (λ text. text.now) result ≡ slice_get self.now number }
    {
        let text = self.by_number.values().as_slice().get(number as usize)?;
        Some(text.as_str())
    }

    /// Puts a new text last. Where memory ran out nothing has changed.
    pub(crate) fn push(&mut self, alloc: Global, text: &str) -> Result<(), AllocError>
        requires { number_of self.old text.now ≡ None }
        ensures ok { OnOk result (self.new ≡ self.old ++ text.now ∷ []) }
        ensures err { OnErr result (self.new ≡ self.old) }
    {
        let number = self.by_number.len();
        if number >= u32::MAX as usize {
            return Err(AllocError);
        }
        let number = number as u32;
        if self.by_number.contains_key(&number) {
            return Err(AllocError); // not reached: those that are there have lower numbers
        }
        let key = String::from_str(alloc, text)?;
        let own = String::from_str(alloc, text)?;
        self.by_number.reserve(1)?;
        self.numbers.insert(key, number)?;
        self.by_number.insert(number, own)?;
        Ok(())
    }

    /// Whether both hold the same texts under the same numbers.
    #[tactic(auto, using(crate::proofs::AtomLists::strings_decide))]
    pub(crate) fn same(&self, other: &Texts) -> bool
        ensures { IsTrue result ↔ (self.now ≡ other.now) }
    {
        self.by_number.values().as_slice() == other.by_number.values().as_slice()
    }
}
