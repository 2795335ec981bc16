//! The engine of `bxemu debug`: lines of commands to a session, and the text of their answers.
#![tactic(auto)]

mod commands;
mod debugger;
mod help;
mod holdings;
pub mod laws;
mod listings;
mod open_lines;
mod pauses;
mod programs;
mod prompts;
mod replies;
mod signal_lines;
mod standings;
mod talks;
mod traces;
mod words;

pub use debugger::{Prompted, debug_text};
pub use help::SESSION_HELP;
pub use prompts::{NoPrompt, Prompt};
