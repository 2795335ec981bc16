//! Tests of one process: a listing's items, so many runs, and what the report then says; and a process that is stepped by hand.
#![tactic(auto)]

#[cfg(test)]
mod arguments;
#[cfg(test)]
mod catching;
#[cfg(test)]
mod choosing;
#[cfg(test)]
mod faults;
#[cfg(test)]
mod frames;
#[cfg(test)]
mod heights;
#[cfg(test)]
mod reading;
#[cfg(test)]
mod reports;
#[cfg(test)]
mod stepping;
#[cfg(test)]
mod tags;
#[cfg(test)]
mod traps;
#[cfg(test)]
mod values;
