//! Tests of listings, read and written, and of their code, numbered, spelled back and loaded, over public calls alone.
#![tactic(auto)]

#[cfg(test)]
mod assembling;
#[cfg(test)]
mod disassembling;
#[cfg(test)]
mod heads;
#[cfg(test)]
mod items;
#[cfg(test)]
mod literals;
#[cfg(test)]
mod loading;
#[cfg(test)]
mod locations;
#[cfg(test)]
mod prefixes;
#[cfg(test)]
mod refusals;
#[cfg(test)]
mod sameness;
#[cfg(test)]
mod samples;
#[cfg(test)]
mod units;
