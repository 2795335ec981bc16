//! Tests of what is told of schedules: their reports, summaries and stories, the engines that write them, and the drawings that show
//! them, over public calls alone.
#![tactic(auto)]

#[cfg(test)]
mod chains;
#[cfg(test)]
mod drawings;
#[cfg(test)]
mod engines;
#[cfg(test)]
mod parted;
#[cfg(test)]
mod refusals;
#[cfg(test)]
mod rows;
#[cfg(test)]
mod samples;
#[cfg(test)]
mod stories;
#[cfg(test)]
mod streams;
#[cfg(test)]
mod summaries;
#[cfg(test)]
mod telling;
#[cfg(test)]
mod together;
