//! Choices in a row, with worlds that are kept on the way: where each prefix leads, and exchanges of choices that are independent.
#![tactic(auto)]

mod independence;
mod kept;
mod runs;
mod trails;

pub use independence::{apart, apart_at};
pub use runs::{RcEnd, advance_all, copied, follow, shared};
pub use trails::{Row, Trail};
