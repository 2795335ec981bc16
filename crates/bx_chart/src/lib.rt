//! Space-time diagrams: the story of a schedule as a drawing, a column for each process and a row for each event.
#![tactic(auto)]

mod arrows;
mod charts;
mod classes;
mod lanes;
pub mod laws;
mod points;
mod rows;
mod sheets;
mod words;

pub use charts::chart_text;
pub use sheets::charted;
