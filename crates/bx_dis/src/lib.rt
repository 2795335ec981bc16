//! Numbered code back to its code form, from the numbers and the tables alone.
#![tactic(auto)]

mod disassembling;
mod operands;
mod texts;

pub use disassembling::{disassemble, disassemble_image};
pub use texts::item_text;
