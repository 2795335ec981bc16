//! Tests of drawings: each one whole, as it was worked out by hand.
#![tactic(auto)]

#[cfg(test)]
mod charts;
#[cfg(test)]
mod drawings;
#[cfg(test)]
mod samples;
