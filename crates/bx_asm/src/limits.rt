//! Whether a listing is within every limit, and the first that it breaks.

mod labels;
mod registers;
mod sizes;

pub(crate) use labels::{entry_faults, labels_of, target_faults};
pub(crate) use registers::register_faults;
pub(crate) use sizes::{imports_of, is_within};
