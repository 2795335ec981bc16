//! Loaded code: the modules of a program, the addresses in them, and where calls and jumps lead.
#![tactic(auto)]

mod behind;
mod by_name;
mod callees;
mod deep_copies;
mod exports;
mod heads;
mod image;
mod labels;
pub mod laws;
mod loading;
mod marks;
mod modules;
mod tables;

pub use callees::Callee;
pub use image::Image;
pub use loading::{LoadRefused, load};
