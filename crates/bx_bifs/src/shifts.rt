//! Arithmetic shifts of integers of 64 bits, by any number of places.
//!
//! Source: Erlang Reference Manual, "Expressions", "Arithmetic Expressions".

ghost use Rattle.std.specs.Prelude.{◌≡◌, pos, ◌*ℤ◌};
ghost use Rattle.bx_bifs.specs.Given.{integer};
ghost use Rattle.bx_bifs.specs.Arithmetic.{left_shift as left_shift_given, right_shift as right_shift_given};
ghost use Rattle.bx_bifs.specs.Shifts.{times_power, over_power};

use crate::given::{Given, computed};

/// By a negative number of places it goes the other way round.
pub(crate) fn left_shift(m: i64, places: i64) -> Given
    ensures { result ≡ left_shift_given m places }
{
    if places < 0 {
        shifted_down(m, places.unsigned_abs())
    } else {
        shifted_up(m, places as u64)
    }
}

/// By a negative number of places it goes the other way round.
pub(crate) fn right_shift(m: i64, places: i64) -> Given
    ensures { result ≡ right_shift_given m places }
{
    if places < 0 {
        shifted_up(m, places.unsigned_abs())
    } else {
        shifted_down(m, places as u64)
    }
}

/// Each bit that is set and leaves 64 bits is out of range; 0 has none.
#[tactic(auto, using(crate::proofs::Powers::nothing_up, crate::proofs::Powers::past_up))]
fn shifted_up(m: i64, places: u64) -> Given
    ensures { result ≡ integer (times_power m places) }
{
    if m == 0 {
        return computed(Some(0));
    }
    if places >= 64 {
        return computed(None);
    }
    multiplied(m, 1 << places)
}

#[tactic(auto, using(crate::proofs::Integers::checked))]
fn multiplied(m: i64, n: u64) -> Given
    ensures { result ≡ integer (m *ℤ pos n) }
{
    computed(i64::try_from(m as i128 * n as i128).ok())
}

/// Rounded down; past 63 places only the sign is left.
#[tactic(auto, using(crate::proofs::Powers::down))]
fn shifted_down(m: i64, places: u64) -> Given
    ensures { result ≡ integer (over_power m places) }
{
    computed(Some(m >> places.min(63)))
}
