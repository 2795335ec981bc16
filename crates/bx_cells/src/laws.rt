//! What holds of registers and stacks.

ghost use Rattle.std.specs.Prelude.{◌≡◌, ◌≢◌, ℕ, List, Some, None, Ok, option_map, slice_get};
ghost use Rattle.std.specs.List.{All};
ghost use Rattle.std.specs.FinMap as finite;
ghost use Rattle.bx_terms.specs.Tree.{Tree};
ghost use Rattle.bx_terms.specs.declared.places.Place.{Place};
ghost use Rattle.bx_cells.specs.declared.values.Value.{Value};
ghost use Rattle.bx_cells.specs.declared.values.Value.TheVariants.{Term};
ghost use Rattle.bx_cells.specs.StackFrame.{StackFrame};
ghost use Rattle.bx_cells.specs.Held.{holding};
ghost use Rattle.bx_cells.specs.Stack.{unwound};
ghost use Rattle.bx_cells.specs.Tags.{HasNoTag, IsCaught};
ghost use Rattle.bx_cells.specs.TopFrame.{y_cell, with_y};

/// A fault is caught in the topmost frame that holds a catch tag, by the lowest of its registers that holds one; that frame and
/// those below it stay. It is caught nowhere where no frame holds a tag.
///
/// Source: The BEAM Book, "Exceptions".
pub fn faults_go_to_the_lowest_tag_of_the_topmost_frame_with_one()
    ensures caught { (frames kept : List StackFrame) (place : Place) → unwound frames ≡ Some (place, kept) → IsCaught frames kept place }
    ensures uncaught { (frames : List StackFrame) → unwound frames ≡ None → All (λ f. HasNoTag f.cells) frames }
{}

/// The register of each number holds the term of that number, and no other register holds anything.
pub fn registers_hold_their_terms()
    ensures { (terms : List Tree) (n : ℕ) → finite.get (holding terms) n ≡ option_map Term (slice_get terms n) }
{}

/// A y register that was written holds what was written, and the others hold what they held.
pub fn a_write_changes_one_y_register()
    ensures written { (n : ℕ) (v : Value) (frames after : List StackFrame) → with_y n v frames ≡ Ok after → y_cell n after ≡ Ok (Some v) }
    ensures others { (n k : ℕ) (v : Value) (frames after : List StackFrame) → with_y n v frames ≡ Ok after → k ≢ n → y_cell k after ≡ y_cell k frames }
{}
