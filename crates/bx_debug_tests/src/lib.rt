//! Tests of the debugger: exchanges, sessions and their lines.
#![tactic(auto)]

#[cfg(test)]
mod answers;
#[cfg(test)]
mod lines;
#[cfg(test)]
mod orders;
#[cfg(test)]
mod runs;
#[cfg(test)]
mod samples;
#[cfg(test)]
mod sessions;
#[cfg(test)]
mod shows;
#[cfg(test)]
mod streams;
#[cfg(test)]
mod swaps;
#[cfg(test)]
mod tidying;
#[cfg(test)]
mod traces;
#[cfg(test)]
mod undos;
