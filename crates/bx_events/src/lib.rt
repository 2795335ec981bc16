//! What a run of one schedule brought about, told as events: who sent what to whom, when it arrived, who waited and who ended.
#![tactic(auto)]

mod actors;
mod events;
mod lanes;
pub mod laws;
mod ledgers;
mod stories;
mod tellers;

pub use events::{Effect, Event, Lane, Put, Sent, Stands, What};
pub use stories::{Story, told_story};
