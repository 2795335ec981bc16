//! Laws that join what a listing holds with what its code stands for.
#![tactic(auto)]

pub mod laws;
