//! Sessions of a debugger: choices are made one by one, stepped back over and made again, and runs break off at breakpoints.
#![tactic(auto)]

pub mod laws;
mod meetings;
mod pauses;
mod places;
mod sessions;
mod stops;
mod walks;

pub use pauses::{Bound, Pause};
pub use sessions::Session;
pub use stops::Stop;
