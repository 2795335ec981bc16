//! The built-in functions: the guard BIFs with what they give, and the names of the natives.
#![tactic(auto)]

mod arithmetic;
mod given;
mod guard_names;
mod guards;
mod kinds;
pub mod laws;
mod native_names;
mod natives;
mod parts;
mod passing;
mod shifts;
mod values;

pub use given::Given;
pub use guard_names::{guard_bif, is_guard};
pub use guards::{guard, guard_decoded, guard_of_integers, guard_of_one, guard_of_two};
pub use kinds::{is_atom, is_integer, is_list, is_pid, is_the_atom, is_tuple, truth};
pub use native_names::native;
pub use natives::Native;
pub use parts::{element, element_from_zero, head, length, size, tail};
pub use passing::Passed;
pub use values::{elements, native_value};
