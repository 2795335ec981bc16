//! Atoms, terms and faults: what every other crate of `bxemu` speaks of.
//!
//! `Trap::Unsupported` is raised nowhere: reading refuses what is not run. It stays for an instruction that is read before it is run.
#![tactic(auto)]

mod atom_table;
mod atom_text;
mod deep_copies;
mod faults;
pub mod fixed;
mod kinds;
pub mod laws;
mod ordering;
mod places;
mod printing;
mod terms;
mod texts;

pub use atom_table::{AtomId, Atoms};
pub use atom_text::push_atom;
pub use deep_copies::{deep_copy_terms, take_room};
pub use faults::{Fault, Name};
pub use kinds::{Class, Trap};
pub use ordering::order;
pub use places::Place;
pub use printing::{print, push_name, push_pid};
pub use terms::{MAX_HEIGHT, Term, TermRefusal, View};
