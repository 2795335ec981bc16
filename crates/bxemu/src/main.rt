//! `bxemu`: runs Erlang assembly listings under schedules that the user writes.
#![tactic(auto)]

mod commands;
mod laws;
mod opened;
mod program;
mod progress;
mod prompt;
mod syntax;

use std::process::ExitCode;

fn main(rt: HostRuntime) -> ExitCode {
    let mut input = rt.stdin();
    let mut output = rt.stdout();
    let mut errors = rt.stderr();
    ExitCode::from(program::status_of_program(&rt, &mut input, &mut output, &mut errors))
}
