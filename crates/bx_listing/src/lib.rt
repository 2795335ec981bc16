//! Listings of BEAM assembly, as `erlc -S` writes them: which texts are listings, and what code they hold.
#![tactic(auto)]

mod code_form;
mod form_reader;
mod head_forms;
mod item_texts;
mod items;
pub mod laws;
mod listing;
mod literals;
mod locations;
mod operand_texts;
mod operands;
mod parts;
mod reading;
mod rows;
mod shapes;
mod ways;
mod words;
mod writing;

pub use code_form::{Code, CodeFunction, Export};
pub use item_texts::item_words;
pub use items::{Amount, Import, Item, Operand};
pub use listing::{Function, Listing, code_of};
pub use locations::Locations;
pub use reading::{read_listing, read_located};
pub use writing::write_listing;
