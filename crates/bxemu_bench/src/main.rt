//! Measures of `bxemu`. Each does so many times what is counted from outside, instructions by callgrind or bytes by
//! massif, and tells on standard error how much it did. Two runs with different numbers differ by what the difference of
//! the numbers takes; all else is done alike in both.
//!
//! - `choices ROUNDS`: choices one by one, in each of a few loops; `choices ROUNDS LOOP`: in one of them
//! - `program CHOICES FILE`: the same in the program of a listing
//! - `swaps POSITIONS`: exchanges of independent choices
//! - `tidy CHOICES`: the choices of each process put together
//! - `kept CHOICES GROWING`: a session in which nothing grows, or the stack, mailbox or output
//!
//! Without arguments it does nothing.
#![tactic(auto)]

mod kept;
mod programs;
mod replays;
mod swaps;
mod trouble;

use crate::trouble::Trouble;
use std::process::ExitCode;
use std::{env, fs};

fn main(rt: HostRuntime) -> ExitCode {
    match take(&rt) {
        Ok(()) => ExitCode::SUCCESS,
        Err(trouble) => {
            let _ = eprintln!(rt; "bxemu_bench: {trouble}");
            ExitCode::FAILURE
        }
    }
}

/// Takes the measure that the arguments ask for: a word, a number and, for some, a name.
fn take(rt: &HostRuntime) -> Result<(), Trouble> {
    let words: Vec<String> = env::args(rt)?.collect(rt.alloc())?;
    match words.as_slice() {
        [] | [_] => Ok(()),
        [_, word, number] => by_number(rt, word.as_str(), number.parse::<u32>()?),
        [_, word, number, name] => {
            by_name(rt, word.as_str(), number.parse::<u32>()?, name.as_str())
        }
        _ => Err(Trouble::Usage),
    }
}

/// Takes a measure that asks for a number alone.
fn by_number(rt: &HostRuntime, word: &str, number: u32) -> Result<(), Trouble> {
    match word {
        "choices" => replays::loops(rt, number),
        "swaps" => swaps::measure(rt, number),
        "tidy" => swaps::tidy_up(rt, number),
        _ => Err(Trouble::Usage),
    }
}

/// Takes a measure that asks for a number, and for a file or one of several programs.
fn by_name(rt: &HostRuntime, word: &str, number: u32, name: &str) -> Result<(), Trouble> {
    match word {
        "choices" => replays::one_loop(rt, number, name),
        "kept" => kept::measure(rt, number, name),
        "program" => replays::program(rt, number, name, &fs::read(rt, name)?),
        _ => Err(Trouble::Usage),
    }
}
