//! Tests of worlds: choices, snapshots and what a report says of them.
#![tactic(auto)]

#[cfg(test)]
mod arguments;
#[cfg(test)]
mod changes;
#[cfg(test)]
mod exits;
#[cfg(test)]
mod last_calls;
#[cfg(test)]
mod many;
#[cfg(test)]
mod memory;
#[cfg(test)]
mod reports;
#[cfg(test)]
mod rooms;
#[cfg(test)]
mod samples;
#[cfg(test)]
mod sends;
#[cfg(test)]
mod snapshots;
#[cfg(test)]
mod spawns;
#[cfg(test)]
mod worlds;
