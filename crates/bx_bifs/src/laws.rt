//! Laws of the definitions that the contracts cite. No call does anything: its `ensures` is the law.

mod integers;
mod names;
mod terms;

pub use integers::{
    bitwise_sums, bitwise_with_each_bit, division, integers_have_64_bits, left_shifts,
    negative_shifts, right_shifts,
};
pub use names::{guard_names, native_names};
pub use terms::{
    booleans, comparisons, elements_from_one, heads_and_tails, kinds, least_and_greatest, lengths,
    sizes,
};
