//! The tokens of term texts by their bytes: laws that hold of the reader, and change nothing below.
#![tactic(auto)]

pub mod laws;
