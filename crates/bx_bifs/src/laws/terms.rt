//! Laws of comparisons, truth values, kinds and parts of terms.

ghost use Rattle.std.specs.Prelude.{◌≡◌, ◌≢◌, ◌⊎◌, ◌↔◌, ℕ, suc, ℤ, pos, ◌<ℤ◌, Bool, true, false, not, ◌&&◌, ◌||◌, List, length, slice_get};
ghost use Rattle.std.specs.declared.cmp.Ordering.TheVariants.{Less, Greater};
ghost use Rattle.bx_terms.specs.Tree.{Tree, int, atom, pid, tuple, nil, cons, listed};
ghost use Rattle.bx_terms.specs.AtomTable.{IsAtomTable};
ghost use Rattle.bx_terms.specs.Order.{order_of};
ghost use Rattle.bx_ops.specs.declared.guard_bif.Bif.{Bif};
ghost use Rattle.bx_ops.specs.declared.guard_bif.Bif.TheVariants as bif;
ghost use Rattle.bx_bifs.specs.declared.given.Given.TheVariants.{Value};
ghost use Rattle.bx_bifs.specs.Given.{boolean, truth_atom, integer, badarg, term_or_badarg};
ghost use Rattle.bx_bifs.specs.Guards.{guard_one, guard_two, IsTest};

/// Any two terms compare, by their order: one comes first or they are equal, and only a term itself is equal to it.
#[tactic(auto, unfolding(crate::specs::Guards::guard_one, crate::specs::Guards::guard_two))]
pub fn comparisons()
    ensures equal { (texts : List (List ℕ)) (t u : Tree) → (guard_two texts bif.Equal t u ≡ boolean true) ↔ (t ≡ u) }
    ensures exactly { (texts : List (List ℕ)) (t u : Tree) → guard_two texts bif.ExactlyEqual t u ≡ guard_two texts bif.Equal t u }
    ensures unequal { (texts : List (List ℕ)) (t u : Tree) → ((guard_two texts bif.NotEqual t u ≡ boolean true) ↔ (t ≢ u)) × (guard_two texts bif.ExactlyNotEqual t u ≡ guard_two texts bif.NotEqual t u) }
    ensures below { (texts : List (List ℕ)) (t u : Tree) → (guard_two texts bif.Less t u ≡ boolean true) ↔ (order_of texts t u ≡ Less) }
    ensures turned { (texts : List (List ℕ)) (t u : Tree) → (guard_two texts bif.Greater t u ≡ guard_two texts bif.Less u t) × (guard_two texts bif.GreaterOrEqual t u ≡ guard_two texts bif.LessOrEqual u t) }
    ensures not_above { (texts : List (List ℕ)) (t u : Tree) → (guard_two texts bif.LessOrEqual t u ≡ boolean true) ↔ (guard_two texts bif.Greater t u ≡ boolean false) }
    ensures one_of_three { (texts : List (List ℕ)) → IsAtomTable texts → (t u : Tree) → (guard_two texts bif.Less t u ≡ boolean true) ⊎ ((guard_two texts bif.Equal t u ≡ boolean true) ⊎ (guard_two texts bif.Greater t u ≡ boolean true)) }
{}

/// `min` and `max` are one of their arguments, and neither is past it.
#[tactic(auto, unfolding(crate::specs::Guards::guard_one, crate::specs::Guards::guard_two))]
pub fn least_and_greatest()
    ensures least { (texts : List (List ℕ)) (t u : Tree) → (v : Tree) × (guard_two texts bif.Min t u ≡ Value v) × ((v ≡ t) ⊎ (v ≡ u)) × (order_of texts v t ≢ Greater) × (order_of texts v u ≢ Greater) }
    ensures greatest { (texts : List (List ℕ)) (t u : Tree) → (v : Tree) × (guard_two texts bif.Max t u ≡ Value v) × ((v ≡ t) ⊎ (v ≡ u)) × (order_of texts v t ≢ Less) × (order_of texts v u ≢ Less) }
{}

/// The boolean operators take the atoms `true` and `false` alone.
#[tactic(auto, unfolding(crate::specs::Guards::guard_one, crate::specs::Guards::guard_two))]
pub fn booleans()
    ensures negation { (a : Bool) → guard_one bif.Not (truth_atom a) ≡ boolean (not a) }
    ensures connectives { (texts : List (List ℕ)) (a b : Bool) → (guard_two texts bif.And (truth_atom a) (truth_atom b) ≡ boolean (a && b)) × (guard_two texts bif.Or (truth_atom a) (truth_atom b) ≡ boolean (a || b)) × ((guard_two texts bif.Xor (truth_atom a) (truth_atom b) ≡ boolean true) ↔ (a ≢ b)) }
    ensures others { (texts : List (List ℕ)) (t u : Tree) → ((b : Bool) → t ≢ truth_atom b) → (guard_one bif.Not t ≡ badarg) × (guard_two texts bif.And t u ≡ badarg) × (guard_two texts bif.And u t ≡ badarg) × (guard_two texts bif.Or t u ≡ badarg) × (guard_two texts bif.Or u t ≡ badarg) × (guard_two texts bif.Xor t u ≡ badarg) × (guard_two texts bif.Xor u t ≡ badarg) }
{}

/// A test of a kind is true of the terms of that kind and false of all others; there are no floats, binaries, references and
/// ports.
#[tactic(auto, unfolding(crate::specs::Guards::guard_one, crate::specs::Guards::guard_two))]
pub fn kinds()
    ensures integers { (t : Tree) → ((guard_one bif.IsInteger t ≡ boolean true) ↔ ((n : ℤ) × (t ≡ int n))) × (guard_one bif.IsNumber t ≡ guard_one bif.IsInteger t) }
    ensures atoms { (t : Tree) → (guard_one bif.IsAtom t ≡ boolean true) ↔ ((a : ℕ) × (t ≡ atom a)) }
    ensures booleans { (t : Tree) → (guard_one bif.IsBoolean t ≡ boolean true) ↔ ((b : Bool) × (t ≡ truth_atom b)) }
    ensures pids { (t : Tree) → (guard_one bif.IsPid t ≡ boolean true) ↔ ((p : ℕ) × (t ≡ pid p)) }
    ensures tuples { (t : Tree) → (guard_one bif.IsTuple t ≡ boolean true) ↔ ((u : Tree) × (t ≡ tuple u)) }
    ensures lists { (t : Tree) → (guard_one bif.IsList t ≡ boolean true) ↔ ((t ≡ nil) ⊎ ((h u : Tree) × (t ≡ cons h u))) }
    ensures others { (t : Tree) → (guard_one bif.IsFloat t ≡ boolean false) × (guard_one bif.IsBinary t ≡ boolean false) × (guard_one bif.IsReference t ≡ boolean false) × (guard_one bif.IsPort t ≡ boolean false) }
    ensures answers { (t : Tree) (test : Bif) → IsTest test → (guard_one test t ≡ boolean true) ⊎ (guard_one test t ≡ boolean false) }
{}

/// `hd` and `tl` take a list cell apart.
#[tactic(auto, unfolding(crate::specs::Guards::guard_one, crate::specs::Guards::guard_two))]
pub fn heads_and_tails()
    ensures cell { (h u : Tree) → (guard_one bif.Hd (cons h u) ≡ Value h) × (guard_one bif.Tl (cons h u) ≡ Value u) }
    ensures others { (t : Tree) → ((h u : Tree) → t ≢ cons h u) → (guard_one bif.Hd t ≡ badarg) × (guard_one bif.Tl t ≡ badarg) }
{}

/// `length` is the number of elements of a proper list, and takes nothing else.
#[tactic(auto, unfolding(crate::specs::Guards::guard_one, crate::specs::Guards::guard_two))]
pub fn lengths()
    ensures proper { (ts : List Tree) → guard_one bif.Length (listed ts) ≡ integer (pos (length ts)) }
    ensures others { (t : Tree) → ((ts : List Tree) → t ≢ listed ts) → guard_one bif.Length t ≡ badarg }
{}

/// `tuple_size` and `size` are the number of elements of a tuple, and take nothing else.
#[tactic(auto, unfolding(crate::specs::Guards::guard_one, crate::specs::Guards::guard_two))]
pub fn sizes()
    ensures tuples { (ts : List Tree) → (guard_one bif.TupleSize (tuple (listed ts)) ≡ integer (pos (length ts))) × (guard_one bif.Size (tuple (listed ts)) ≡ integer (pos (length ts))) }
    ensures others { (t : Tree) → ((u : Tree) → t ≢ tuple u) → (guard_one bif.TupleSize t ≡ badarg) × (guard_one bif.Size t ≡ badarg) }
{}

/// `element` counts places from 1.
#[tactic(auto, unfolding(crate::specs::Guards::guard_one, crate::specs::Guards::guard_two))]
pub fn elements_from_one()
    ensures within { (texts : List (List ℕ)) (place : ℕ) (ts : List Tree) → guard_two texts bif.Element (int (pos (suc place))) (tuple (listed ts)) ≡ term_or_badarg (slice_get ts place) }
    ensures before { (texts : List (List ℕ)) (place : ℤ) (t : Tree) → place <ℤ pos 1 → guard_two texts bif.Element (int place) t ≡ badarg }
    ensures others { (texts : List (List ℕ)) (place t : Tree) → ((n : ℤ) → place ≢ int n) ⊎ ((u : Tree) → t ≢ tuple u) → guard_two texts bif.Element place t ≡ badarg }
{}
