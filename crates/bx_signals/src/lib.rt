//! What processes send to one another, and the channels in which it waits.
#![tactic(auto)]

mod channels;
pub mod laws;
mod queue;
mod row;
mod signal;

pub use channels::Channels;
pub use signal::Signal;
