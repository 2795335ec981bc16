//! Plans: named schedules of choices, read from their text, and the tree of what they share.
#![tactic(auto)]

mod chains;
mod entries;
pub mod laws;
mod lines;
mod numbers;
mod parts;
mod plans;
mod schedules;

pub use chains::Chains;
pub use chains::building::chains_of;
pub use entries::{choice_of, read_choices};
pub use lines::name_of;
pub use numbers::number_of;
pub use parts::cut;
pub use plans::{Plan, read_plan};
pub use schedules::{Part, Run, Schedule};
