//! Tests of plans, of books, boards and campaigns, of reports, and of the engines that write them, over public calls alone.
#![tactic(auto)]

#[cfg(test)]
mod boards;
#[cfg(test)]
mod books;
#[cfg(test)]
mod campaigns;
#[cfg(test)]
mod engines;
#[cfg(test)]
mod heights;
#[cfg(test)]
mod inputs;
#[cfg(test)]
mod lines;
#[cfg(test)]
mod plans;
#[cfg(test)]
mod refused_calls;
#[cfg(test)]
mod reports;
#[cfg(test)]
mod samples;
#[cfg(test)]
mod starts;
#[cfg(test)]
mod waits;
#[cfg(test)]
mod watching;
