//! Summaries: what a plan's schedules come to, each outcome once.
#![tactic(auto)]

mod endings;
pub mod laws;
mod tallies;
mod texts;

pub use texts::summary_text;
