//! What a process holds: values, x registers, stack frames, links.
#![tactic(auto)]

mod deep_copies;
mod frames;
pub mod laws;
mod links;
mod registers;
mod values;

pub use frames::Frames;
pub use links::Links;
pub use registers::Registers;
pub use values::Value;
