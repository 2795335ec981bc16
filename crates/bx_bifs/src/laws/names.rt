//! Laws of the look-ups by name.

ghost use Rattle.std.specs.Prelude.{◌≡◌, ◌↔◌, ℕ, List, Some, codes, slice_get, map, Contains};
ghost use Rattle.bx_terms.specs.declared.atom_table.AtomId.{AtomId};
ghost use Rattle.bx_ops.specs.declared.guard_bif.Bif.{Bif};
ghost use Rattle.bx_ops.specs.GuardBifs.{guard_bif};
ghost use Rattle.bx_bifs.specs.declared.natives.Native.{Native};
ghost use Rattle.bx_bifs.specs.GuardNames.{guard_of};
ghost use Rattle.bx_bifs.specs.Natives.{NativeRow, native_named, native_of, native_rows};

/// A look-up finds a guard BIF exactly where the atom's text is its name and it has the arity.
#[tactic(auto, unfolding(crate::specs::GuardNames::guard_of))]
pub fn guard_names()
    ensures { (texts : List (List ℕ)) (name : AtomId) (arity : ℕ) (bif : Bif) → (guard_of texts name arity ≡ Some bif)
        ↔ ((slice_get texts name.0 ≡ Some (guard_bif bif).name) × ((guard_bif bif).arity ≡ arity)) }
{}

/// A look-up finds a native exactly where the module's text is `erlang` and the function's text and the arity are in the
/// table; each row of the table is found, and nothing else.
#[tactic(auto, unfolding(crate::specs::Natives::native_named))]
pub fn native_names()
    ensures by_text { (texts : List (List ℕ)) (home function : AtomId) (arity : ℕ) (native : Native) → (native_of texts home function arity ≡ Some native)
        ↔ ((slice_get texts home.0 ≡ Some (codes "erlang")) × ((name : List ℕ) × (slice_get texts function.0 ≡ Some name) × (native_named name arity ≡ Some native))) }
    ensures rows { map (λ r. native_named r.name r.arity) native_rows ≡ map (λ r. Some r.native) native_rows }
    ensures only { (name : List ℕ) (arity : ℕ) (native : Native) → native_named name arity ≡ Some native → (r : NativeRow) × Contains native_rows r × (r.name ≡ name) × (r.arity ≡ arity) × (r.native ≡ native) }
{}
