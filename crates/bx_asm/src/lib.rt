//! Numbered code: a listing as opcode numbers with operands, and the tables that the operands name.
#![tactic(auto)]

mod assembling;
mod deep_copies;
mod instruction;
mod limits;
mod lookup;
mod members;
mod numbered;
mod numbering;
mod operands;
mod sameness;
mod unit;

pub use assembling::assemble;
pub use instruction::{CallKind, Comparison, Key, Kind, Mismatch, Register, Source};
pub use lookup::Lookup;
pub use members::{Pairs, Sources, YRegisters};
pub use numbered::{Numbered, Spelt};
pub use operands::Operand;
pub use unit::{Head, Unit};
