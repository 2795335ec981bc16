//! Tests of the crates below listings, over their public calls alone.
#![tactic(auto)]

#[cfg(test)]
mod atoms;
#[cfg(test)]
mod bifs;
#[cfg(test)]
mod built;
#[cfg(test)]
mod cells;
#[cfg(test)]
mod deep_copies;
#[cfg(test)]
mod heights;
#[cfg(test)]
mod holders;
#[cfg(test)]
mod mailboxes;
#[cfg(test)]
mod opcodes;
#[cfg(test)]
mod orders;
#[cfg(test)]
mod printing;
#[cfg(test)]
mod refusals;
#[cfg(test)]
mod sums;
