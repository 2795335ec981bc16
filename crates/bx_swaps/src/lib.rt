//! Schedules in which independent choices that are next to each other are exchanged: where it is asked for, so that the choices of one process
//! stand together, and so that a choice stands behind all that do not depend on it.
#![tactic(auto)]

pub mod laws;
mod starts;
mod swaps;
mod tidying;
mod undoing;

pub use swaps::check_swaps;
pub use tidying::{tidied, tidy};
pub use undoing::{undo, undone};
