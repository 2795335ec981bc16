//! Tests of term texts, over public calls alone.
#![tactic(auto)]

#[cfg(test)]
mod printing;
#[cfg(test)]
mod texts;
