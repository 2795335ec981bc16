//! Atoms by number, in order of first use.

ghost use Rattle.std.specs.Prelude.{◌≡◌, ◌↔◌, None, Ok, length, fold, option_map, slice_get, OnOk, IfOk, IsTrue};
ghost use Rattle.bx_terms.specs.AtomTable.{is_short, number_of, used};
ghost use Rattle.bx_terms.specs.FixedAtoms.{fixed_atoms};

use crate::faults::Fault;
use crate::fixed;
use crate::texts::Texts;
use bx_share::Same;
use std::alloc::{AllocError, Global};
use std::marker::Model;

/// The number of an atom in its table.
#[derive(Clone, Copy, Debug, PartialEq, Eq, Hash)]
pub struct AtomId(pub u32);

/// The table of atoms: their texts, numbered from 0 in order of first use.
///
/// It holds at most 65,536 atoms of at most 255 characters each, no text twice, and begins with the fixed atoms.
#[derive(Drop)]
pub struct Atoms {
    names: Texts,
}

impl Model for Atoms {
    ghost use Rattle.std.specs.Prelude.{List, ℕ};

    ghost Value = { List (List ℕ) };

    ghost use Rattle.bx_terms.specs.AtomTable.{IsAtomTable};

    ghost view = { λ a. a.names };

    ghost invariant = { λ a. IsAtomTable a.names };
}

/// The longest atom, in characters.
const MOST_CHARACTERS: usize = 255;

/// How many atoms a table can hold.
const MOST_ATOMS: usize = 65_536;

impl Atoms {
    ghost use Rattle.bx_terms.specs.AtomTable.{IsAtomTable};
    ghost use Rattle.bx_terms.specs.Naming.{naming, Adds};
    ghost use Rattle.bx_terms.specs.Outcomes.{Does, Gives};

    /// The table of the fixed atoms.
    ///
    /// It can only run out of memory.
    #[tactic(auto, using(crate::proofs::AtomTables::fixed_table))]
    pub fn new(alloc: Global) -> Result<Atoms, Fault>
        ensures { Gives (Unit {0}) (λ atoms. atoms) result (Ok fixed_atoms) }
    {
        let names = fixed_names(alloc)?;
        Ok(Atoms { names })
    }

    /// The number of atoms.
    pub fn len(&self) -> usize
        ensures len { result ≡ length self.now }
        ensures table { IsAtomTable self.now }
    {
        self.names.len()
    }

    /// The number of the atom that `text` spells, or `None` where the table does not hold it.
    pub fn find(&self, text: &str) -> Option<AtomId>
        ensures number { option_map (λ atom. atom.0) result ≡ number_of self.now text.now }
        ensures table { IsAtomTable self.now }
    {
        let number = self.names.number(text)?;
        Some(AtomId(number))
    }

    /// The text of an atom, or `None` where the table has no such number.
    pub fn text(&self, atom: AtomId) -> Option<&str>
        ensures text { option_map (λ text. text.now) result ≡ slice_get self.now atom.0 }
        ensures table { IsAtomTable self.now }
    {
        self.names.text(atom.0)
    }

    /// The number of the atom that `text` spells: its old one, or the next one where the table does not hold it yet.
    ///
    /// Refused are a text of over 255 characters, and a new one where 65,536 are held, in this order.
    /// Memory is taken only for a new text that is not refused. After a refusal nothing has changed.
    #[tactic(auto, using(crate::proofs::AtomTables::naming_held))]
    pub fn name(&mut self, alloc: Global, text: &str) -> Result<AtomId, Fault>
        ensures { Does (Adds self.old text.now) self.old self.new result (naming self.old text.now) }
    {
        match self.find(text) {
            Some(known) => Ok(known),
            None => self.add(alloc, text),
        }
    }

    /// Whether both tables hold the same atoms under the same numbers.
    pub fn same(&self, other: &Atoms) -> bool
        ensures { IsTrue result ↔ (self.now ≡ other.now) }
    {
        self.names.same(&other.names)
    }

    // A new text goes last.
    fn add(&mut self, alloc: Global, text: &str) -> Result<AtomId, Fault>
        requires { number_of self.old text.now ≡ None }
        ensures { Does (Adds self.old text.now) self.old self.new result (naming self.old text.now) }
    {
        if !is_short(text) {
            return Err(Fault::AtomTooLong { line: None });
        }
        let number = self.len();
        if number >= MOST_ATOMS {
            return Err(Fault::TooManyAtoms { line: None });
        }
        self.names.push(alloc, text)?;
        Ok(AtomId(number as u32))
    }
}

impl Same for Atoms {
    fn same(&self, other: &Atoms) -> bool {
        Atoms::same(self, other)
    }
}

impl Same for AtomId {
    fn same(&self, other: &AtomId) -> bool {
        *self == *other
    }
}

fn fixed_names(alloc: Global) -> Result<Texts, AllocError>
    ensures { IfOk result (λ names. names ≡ fixed_atoms) }
{
    let mut names = Texts::new(alloc);
    add_all(alloc, &mut names, &fixed::TEXTS)?;
    Ok(names)
}

// Puts each text last that is not there yet, in turn.
fn add_all(alloc: Global, names: &mut Texts, texts: &[&str]) -> Result<(), AllocError>
    ensures { OnOk result (names.new ≡ fold (λ held text. used held text.now) names.old texts.now) }
{
    for text in texts {
        use_text(alloc, names, *text)?;
    }
    Ok(())
}

fn use_text(alloc: Global, names: &mut Texts, text: &str) -> Result<(), AllocError>
    ensures { OnOk result (names.new ≡ used names.old text.now) }
{
    match names.number(text) {
        Some(_) => Ok(()),
        None => names.push(alloc, text),
    }
}

// A text of at most 255 bytes has no more characters than that, and they need no counting.
#[tactic(auto, using(crate::proofs::AtomTables::count_of_chars, std::proofs::lemmas::Str::chars_from_encodes))]
fn is_short(text: &str) -> bool
    ensures { result ≡ is_short text.now }
{
    text.len() <= MOST_CHARACTERS || text.chars().count() <= MOST_CHARACTERS
}
