//! Laws of whole runs, over the definitions of the crates below: each function's clauses are the law, and its body is empty.
#![tactic(auto)]

pub mod mailboxes;
pub mod parts;
