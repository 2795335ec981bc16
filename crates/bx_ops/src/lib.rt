//! The opcodes of BEAM instructions and the guard BIFs: names, numbers and arities, and how listings write them.
#![tactic(auto)]

mod guard_bif;
pub mod laws;
mod opcode;
mod sorts;
mod table;

pub use guard_bif::{Bif, bif_by_name, bif_name};
pub use opcode::Op;
pub use sorts::{Slot, Sort, Way};
pub use table::{is_local, name, number, op_by_name, op_by_number, op_named, shape, slots, way};
