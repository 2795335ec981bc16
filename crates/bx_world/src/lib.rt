//! Worlds of processes and channels, stepped by one choice at a time.
#![tactic(auto)]

mod actors;
mod acts;
mod asking;
mod bursts;
mod choices;
mod choosing;
mod delivering;
mod lanes;
pub mod laws;
mod lives;
mod locality;
mod outcomes;
mod output;
mod procs;
mod requests;
mod runs;
mod shown;
mod slots;
mod texts;
mod turns;
mod weights;
mod world;

pub use bx_proc::Status;
pub use choices::{Choice, Choices};
pub use lanes::Lanes;
pub use outcomes::{Outcome, Standing, Statuses};
pub use output::Output;
pub use runs::{RunEnd, advance, advance_many};
pub use shown::Shown;
pub use texts::{choice_text, outcome_text};
pub use world::{ArcWorld, RcWorld, World};
