//! Sets of breakpoints in loaded code.

ghost use Rattle.std.specs.Prelude.{◌≡◌, ◌↔◌, false, IsTrue, OnOk, OnErr};
ghost use Rattle.std.specs.FinSet as set;
ghost use Rattle.bx_debug.specs.Places.{is_set, with_place, without_place};

use bx_terms::Place;
use std::alloc::{AllocError, Global};
use std::collections::BTreeSet;
use std::marker::Model;

/// A set of breakpoints.
#[derive(Drop)]
pub(crate) struct Places {
    numbers: BTreeSet<(u32, u32)>,
}

impl Model for Places {
    ghost use Rattle.std.specs.Coded.{coded×, coded_ℕ};
    ghost use Rattle.std.specs.FinSet as set;
    ghost use Rattle.bx_debug.specs.Places.{PlaceSet};

    ghost Value = { PlaceSet };

    ghost coded = { set.code (coded× coded_ℕ coded_ℕ) };

    ghost view = { λ a. set.from_list a.numbers.keys };
}

impl Places {
    /// No breakpoint.
    pub(crate) fn new(alloc: Global) -> Places
        ensures { result ≡ set.empty }
    {
        Places {
            numbers: BTreeSet::new(alloc),
        }
    }

    /// Whether there is no breakpoint.
    #[inline(always)]
    pub(crate) fn is_empty(&self) -> bool
        ensures { IsTrue result ↔ (self.now ≡ set.empty) }
    {
        self.numbers.is_empty()
    }

    /// Whether it is a breakpoint.
    #[inline(always)]
    pub(crate) fn contains(&self, place: Place) -> bool
        ensures { result ≡ is_set self.now place }
    {
        self.numbers.contains(&(place.module, place.item))
    }

    /// Whether both hold the same breakpoints.
    pub(crate) fn same(&self, other: &Places) -> bool
        ensures { IsTrue result ↔ (self.now ≡ other.now) }
    {
        self.numbers.is_subset(&other.numbers) && other.numbers.is_subset(&self.numbers)
    }

    /// Sets a breakpoint. Memory is taken only for one that is not set; where it runs out, nothing has changed.
    pub(crate) fn insert(&mut self, place: Place) -> Result<(), AllocError>
        ensures ok { OnOk result (self.new ≡ with_place self.old place) }
        ensures err { OnErr result (self.new ≡ self.old) }
        ensures absent { OnErr result (is_set self.old place ≡ false) }
    {
        self.numbers.insert((place.module, place.item))?;
        Ok(())
    }

    /// Clears a breakpoint.
    pub(crate) fn remove(&mut self, place: Place)
        ensures { self.new ≡ without_place self.old place }
    {
        self.numbers.remove(&(place.module, place.item));
    }
}
