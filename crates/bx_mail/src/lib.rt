//! The messages of one process.
#![tactic(auto)]

pub mod laws;
mod mailbox;
mod slots;

pub use mailbox::Mailbox;
