//! One process, and what a run of one instruction makes of it.
#![tactic(auto)]

mod answering;
mod asking;
mod building;
mod bursts;
mod calls;
mod catching;
mod choosing;
mod dispatch;
mod faults;
pub mod laws;
mod moving;
mod operands;
mod parts;
mod process;
mod readers;
mod reading;
mod receiving;
mod running;
mod sending;
mod signals;
mod stacking;
mod stepping;
mod stops;

pub use bursts::Burst;
pub use parts::{Answer, Arguments, Effect, Pending, Status};
pub use process::Proc;
pub use sending::Sending;
pub use stops::{Stop, Why};
