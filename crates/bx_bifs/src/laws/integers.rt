//! Laws of arithmetic.

ghost use Rattle.std.specs.Prelude.{◌≡◌, ◌↔◌, ◌+◌, ◌%◌, ◌^◌, ◌<◌, min, max, ◌-◌, ℕ, ℤ, pos, neg_ℤ, ◌+ℤ◌, ◌*ℤ◌, ◌≤ℤ◌, ◌<ℤ◌, unsigned_abs, List};
ghost use Rattle.bx_terms.specs.Tree.{int};
ghost use Rattle.bx_terms.specs.declared.kinds.Trap.TheVariants.{IntegerRange};
ghost use Rattle.bx_ops.specs.declared.guard_bif.Bif.TheVariants.{Div, Rem, Band, Bor, Bxor, Bnot, Bsl, Bsr};
ghost use Rattle.bx_bifs.specs.declared.given.Given.TheVariants.{Value, Trap};
ghost use Rattle.bx_bifs.specs.Given.{integer, badarith, IsInRange};
ghost use Rattle.bx_bifs.specs.Bits.{bit};
ghost use Rattle.bx_bifs.specs.Guards.{guard_one, guard_two};

/// An integer from -2^63 to 2^63 - 1 is given as it is, and any other is a trap.
pub fn integers_have_64_bits()
    ensures within { (z : ℤ) → (integer z ≡ Value (int z)) ↔ IsInRange z }
    ensures past { (z : ℤ) → (integer z ≡ Trap IntegerRange) ↔ (¬ IsInRange z) }
{}

/// The quotient times the divisor, and the remainder, make the dividend; the remainder is smaller than the divisor and has
/// the sign of the dividend, so the quotient is rounded towards zero. There is no division by zero.
#[tactic(auto, unfolding(crate::specs::Guards::guard_one, crate::specs::Guards::guard_two))]
pub fn division()
    ensures whole { (texts : List (List ℕ)) (a b q r : ℤ) → guard_two texts Div (int a) (int b) ≡ Value (int q) → guard_two texts Rem (int a) (int b) ≡ Value (int r) → q *ℤ b +ℤ r ≡ a }
    ensures smaller { (texts : List (List ℕ)) (a b r : ℤ) → guard_two texts Rem (int a) (int b) ≡ Value (int r) → unsigned_abs r < unsigned_abs b }
    ensures sign { (texts : List (List ℕ)) (a b r : ℤ) → guard_two texts Rem (int a) (int b) ≡ Value (int r) → (pos 0 ≤ℤ a → pos 0 ≤ℤ r) × (a ≤ℤ pos 0 → r ≤ℤ pos 0) }
    ensures by_zero { (texts : List (List ℕ)) (a : ℤ) → (guard_two texts Div (int a) (int (pos 0)) ≡ badarith) × (guard_two texts Rem (int a) (int (pos 0)) ≡ badarith) }
{}

/// `bsl` by n places is the product with 2^n where that fits, and else a trap.
#[tactic(auto, unfolding(crate::specs::Guards::guard_one, crate::specs::Guards::guard_two))]
pub fn left_shifts()
    ensures within { (texts : List (List ℕ)) (a : ℤ) (n : ℕ) → IsInRange (a *ℤ pos (2 ^ n)) → guard_two texts Bsl (int a) (int (pos n)) ≡ Value (int (a *ℤ pos (2 ^ n))) }
    ensures past { (texts : List (List ℕ)) (a : ℤ) (n : ℕ) → ¬ IsInRange (a *ℤ pos (2 ^ n)) → guard_two texts Bsl (int a) (int (pos n)) ≡ Trap IntegerRange }
{}

/// `bsr` by n places is the quotient by 2^n, rounded down.
#[tactic(auto, unfolding(crate::specs::Guards::guard_one, crate::specs::Guards::guard_two))]
pub fn right_shifts()
    ensures { (texts : List (List ℕ)) (a q : ℤ) (n : ℕ) → guard_two texts Bsr (int a) (int (pos n)) ≡ Value (int q) → ((q *ℤ pos (2 ^ n)) ≤ℤ a) × (a <ℤ ((q +ℤ pos 1) *ℤ pos (2 ^ n))) }
{}

/// A shift by a negative number of places goes the other way round.
#[tactic(auto, unfolding(crate::specs::Guards::guard_one, crate::specs::Guards::guard_two))]
pub fn negative_shifts()
    ensures { (texts : List (List ℕ)) (a n : ℤ) → (guard_two texts Bsl (int a) (int (neg_ℤ n)) ≡ guard_two texts Bsr (int a) (int n)) × (guard_two texts Bsr (int a) (int (neg_ℤ n)) ≡ guard_two texts Bsl (int a) (int n)) }
{}

/// What two integers have in common and what either has make their sum.
#[tactic(auto, unfolding(crate::specs::Guards::guard_one, crate::specs::Guards::guard_two))]
pub fn bitwise_sums()
    ensures { (texts : List (List ℕ)) (a b both either : ℤ) → guard_two texts Band (int a) (int b) ≡ Value (int both) → guard_two texts Bor (int a) (int b) ≡ Value (int either) → both +ℤ either ≡ a +ℤ b }
{}

/// The bitwise operators work on each bit of the two's complement by itself, and of integers in range are always in range.
#[tactic(auto, unfolding(crate::specs::Guards::guard_one, crate::specs::Guards::guard_two))]
pub fn bitwise_with_each_bit()
    ensures both { (texts : List (List ℕ)) (a b : ℤ) → IsInRange a → IsInRange b → (c : ℤ) × (guard_two texts Band (int a) (int b) ≡ Value (int c)) × ((place : ℕ) → bit c place ≡ min (bit a place) (bit b place)) }
    ensures either { (texts : List (List ℕ)) (a b : ℤ) → IsInRange a → IsInRange b → (c : ℤ) × (guard_two texts Bor (int a) (int b) ≡ Value (int c)) × ((place : ℕ) → bit c place ≡ max (bit a place) (bit b place)) }
    ensures differing { (texts : List (List ℕ)) (a b : ℤ) → IsInRange a → IsInRange b → (c : ℤ) × (guard_two texts Bxor (int a) (int b) ≡ Value (int c)) × ((place : ℕ) → bit c place ≡ (bit a place + bit b place) % 2) }
    ensures turned { (a : ℤ) → IsInRange a → (c : ℤ) × (guard_one Bnot (int a) ≡ Value (int c)) × ((place : ℕ) → bit c place ≡ 1 - bit a place) }
{}
