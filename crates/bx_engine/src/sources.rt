//! Where the items of loaded modules stand in their sources.

ghost use Rattle.std.specs.Prelude.{◌≡◌, ◌∷◌, ◌++◌, [], OnOk, option_map};
ghost use Rattle.bx_engine.specs.Sources.{location_at};

use bx_listing::Locations;
use bx_terms::Place;
use std::alloc::{AllocError, Global};
use std::marker::Model;

/// Where the items of loaded modules stand in their sources: the locations of each listing, in the order of loading.
#[derive(Debug, Drop)]
pub struct Sources {
    listings: Vec<Locations>,
}

impl Model for Sources {
    ghost use Rattle.std.specs.Prelude.{map};
    ghost use Rattle.bx_listing.specs.Locations.{Located};
    ghost use Rattle.bx_engine.specs.Sources.{Sources as Tables};

    ghost Value = { Tables };

    ghost view = { λ s. map (λ (l : Located). l.items) s.listings.items };
}

impl Sources {
    /// Of no module.
    pub(crate) fn new(alloc: Global) -> Sources
        ensures { result ≡ [] }
    {
        Sources {
            listings: Vec::new(alloc),
        }
    }

    /// Adds the locations of the next module's listing.
    pub(crate) fn push(&mut self, locations: Locations) -> Result<(), AllocError>
        ensures { OnOk result (self.new ≡ self.old ++ locations.items ∷ []) }
    {
        self.listings.push(locations)?;
        Ok(())
    }

    /// The file's name and the line, from 1, of the item at an address; `None` where the listing says none, where there is no such
    /// module, and past its items.
    #[tactic(auto, using(crate::proofs::SourceRows::location_there, crate::proofs::SourceRows::no_location))]
    pub fn at(&self, place: Place) -> Option<(&str, u32)>
        ensures { option_map (λ l. (l.0.now, l.1)) result ≡ location_at self.now place }
    {
        let module = place.module as usize;
        if module >= self.listings.len() {
            return None;
        }
        self.listings[module].at(place.item as usize)
    }
}
