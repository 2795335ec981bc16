//! What holds of all loaded code.

ghost use Rattle.std.specs.Prelude.{◌≡◌, ℕ, List, Some, None, IsSome};
ghost use Rattle.bx_terms.specs.declared.atom_table.AtomId.{AtomId as Name};
ghost use Rattle.bx_terms.specs.declared.places.Place.{Place};
ghost use Rattle.bx_listing.specs.Code.{Code};
ghost use Rattle.bx_load.specs.Image.{Loaded, item_at, after, target, export, place_of};
ghost use Rattle.bx_load.specs.Loading.{load_fault};
ghost use Rattle.bx_load.specs.Standing.{Stands, AreLoaded};

/// An address that is given by the number of its item holds an instruction. Where a run goes on, and where a label or a call
/// of an exported function leads to, there stands an instruction too, or it is behind the last item of a module.
///
/// Source: The BEAM Book, "Loading".
pub fn places_hold_instructions()
    ensures given { (w : Loaded) (m : Name) (k : ℕ) (p : Place) → place_of w m k ≡ Some p → IsSome
        (item_at w p) }
    ensures behind { (w : Loaded) (p : Place) → IsSome (item_at w p) → Stands w (after w p) }
    ensures labels { (w : Loaded) (m n : ℕ) (p : Place) → target w m n ≡ Some p → Stands w p }
    ensures calls { (w : Loaded) (m f : Name) (a : ℕ) (p : Place) → export w m f a ≡ Some p → Stands
        w p }
{}

/// Modules that can be loaded are at most 64, no two have one name, and each export names a function of its module.
pub fn loaded_modules_are_told_apart()
    ensures { (ms : List Code) → load_fault ms ≡ None → AreLoaded ms }
{}
