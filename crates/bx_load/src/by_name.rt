//! Tables of a module's functions.

ghost use Rattle.std.specs.Prelude.{◌≡◌, ℕ, ◌&&◌, None, Some, OnOk, nat_eq, if◌then◌else◌};
ghost use Rattle.bx_terms.specs.declared.atom_table.AtomId.{AtomId as Name};
ghost use Rattle.bx_load.specs.Exports.{found};
ghost use Rattle.bx_load.specs.Image.{is_atom};

use bx_terms::AtomId;
use std::alloc::{AllocError, Global};
use std::collections::BTreeMap;

/// A number for each of some functions, by name and arity.
#[derive(Debug, Drop)]
pub(crate) struct ByName {
    numbers: BTreeMap<(u32, u32), u32>,
}

impl ByName {
    /// No functions yet.
    pub fn new(alloc: Global) -> ByName
        ensures { (f : Name) (a : ℕ) → found result f a ≡ None }
    {
        ByName {
            numbers: BTreeMap::new(alloc),
        }
    }

    /// The number of a function.
    #[inline]
    pub fn get(&self, function: AtomId, arity: u32) -> Option<u32>
        ensures { result ≡ found self.now function arity }
    {
        self.numbers.get(&(function.0, arity)).copied()
    }

    /// A function more, or another number for one that is there.
    #[tactic(auto, using(crate::proofs::NameTests::same_name))]
    pub fn set(&mut self, function: AtomId, arity: u32, number: u32) -> Result<(), AllocError>
        ensures { OnOk result ((f : Name) (a : ℕ) → found self.new f a ≡
            (if is_atom f function && nat_eq arity a then Some number else found self.old f a)) }
    {
        self.numbers.insert((function.0, arity), number)?;
        Ok(())
    }
}
