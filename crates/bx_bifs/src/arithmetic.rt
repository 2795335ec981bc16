//! Arithmetic on two integers of 64 bits.
//!
//! Source: Erlang Reference Manual, "Expressions", "Arithmetic Expressions".

ghost use Rattle.std.specs.Prelude.{◌≡◌};
ghost use Rattle.bx_bifs.specs.Arithmetic.{sum as sum_given, difference as difference_given, product as product_given, quotient as quotient_given, remainder as remainder_given, both_bits, either_bits, differing_bits};

use crate::given::{Given, badarith, computed};

#[tactic(auto, using(crate::proofs::Integers::checked))]
pub(crate) fn sum(m: i64, n: i64) -> Given
    ensures { result ≡ sum_given m n }
{
    computed(m.checked_add(n))
}

#[tactic(auto, using(crate::proofs::Integers::checked))]
pub(crate) fn difference(m: i64, n: i64) -> Given
    ensures { result ≡ difference_given m n }
{
    computed(m.checked_sub(n))
}

#[tactic(auto, using(crate::proofs::Integers::checked))]
pub(crate) fn product(m: i64, n: i64) -> Given
    ensures { result ≡ product_given m n }
{
    computed(m.checked_mul(n))
}

/// Rounded towards zero.
#[tactic(auto, using(crate::proofs::Integers::checked))]
pub(crate) fn quotient(m: i64, n: i64) -> Given
    ensures { result ≡ quotient_given m n }
{
    if n == 0 {
        return badarith();
    }
    computed(m.checked_div(n))
}

/// With the sign of the dividend; it always fits.
pub(crate) fn remainder(m: i64, n: i64) -> Given
    ensures { result ≡ remainder_given m n }
{
    if n == 0 {
        return badarith();
    }
    computed(Some(m.wrapping_rem(n)))
}

#[tactic(auto, using(crate::proofs::TwosComplement::both_bits_given))]
pub(crate) fn bits_of_both(m: i64, n: i64) -> Given
    ensures { result ≡ both_bits m n }
{
    computed(Some(m & n))
}

#[tactic(auto, using(crate::proofs::TwosComplement::either_bits_given))]
pub(crate) fn bits_of_either(m: i64, n: i64) -> Given
    ensures { result ≡ either_bits m n }
{
    computed(Some(m | n))
}

#[tactic(auto, using(crate::proofs::TwosComplement::differing_bits_given))]
pub(crate) fn bits_of_one(m: i64, n: i64) -> Given
    ensures { result ≡ differing_bits m n }
{
    computed(Some(m ^ n))
}
