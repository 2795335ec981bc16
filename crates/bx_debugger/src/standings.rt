//! `where`: how each process stands.

ghost use Rattle.std.specs.Prelude.{◌≡◌, ◌+◌, ◌++◌, OnOk, drop, string_bytes};
ghost use Rattle.bx_world.specs.Seen.{life_of};
ghost use Rattle.bx_debugger.specs.Where.{life_line, life_lines, life_words, status_words, where_answer};

use crate::programs::Program;
use crate::words::{push_here, push_term};
use bx_terms::{Place, push_pid};
use bx_world::{RcWorld, Shown, Status};
use std::alloc::{AllocError, Global};

fn push_status(
    alloc: Global,
    out: &mut String,
    program: &Program<'_>,
    place: Option<Place>,
    status: &Status,
) -> Result<(), AllocError>
    ensures { OnOk result
        (string_bytes out.new ≡ string_bytes out.old ++ status_words program.now place status.now) }
{
    match status {
        Status::Ready => {
            out.push_str("ready ")?;
            push_here(alloc, out, program, place)
        }
        Status::Waiting => {
            out.push_str("waiting ")?;
            push_here(alloc, out, program, place)
        }
        Status::Ended(reason) => {
            out.push_str("ended ")?;
            push_term(alloc, out, program.image().atoms(), reason)
        }
    }
}

fn push_life(
    alloc: Global,
    out: &mut String,
    program: &Program<'_>,
    shown: &Shown<'_>,
) -> Result<(), AllocError>
    ensures { OnOk result (string_bytes out.new
        ≡ string_bytes out.old ++ life_words program.now (life_of shown.now)) }
{
    match shown {
        Shown::Live(process) => push_status(alloc, out, program, process.place(), process.status()),
        Shown::Exited(reason) => {
            out.push_str("ended ")?;
            push_term(alloc, out, program.image().atoms(), *reason)
        }
    }
}

/// Adds the line of one process: its pid, how it stands, its address and the item there.
pub(crate) fn push_life_line(
    alloc: Global,
    out: &mut String,
    program: &Program<'_>,
    pid: u32,
    shown: &Shown<'_>,
) -> Result<(), AllocError>
    ensures { OnOk result (string_bytes out.new
        ≡ string_bytes out.old ++ life_line program.now pid (life_of shown.now)) }
{
    push_pid(alloc, out, pid)?;
    out.push_str(" ")?;
    push_life(alloc, out, program, shown)?;
    out.push_str("\n")
}

/// Adds the line of the process of that pid, where there is one.
#[tactic(auto, using(crate::proofs::LifeRows::line_there, crate::proofs::LifeRows::no_line))]
fn push_life_at(
    alloc: Global,
    out: &mut String,
    program: &Program<'_>,
    world: &RcWorld,
    pid: u32,
) -> Result<(), AllocError>
    ensures { OnOk result (string_bytes out.new ++ life_lines program.now (pid + 1) (drop (pid + 1) world.now.processes)
        ≡ string_bytes out.old ++ life_lines program.now pid (drop pid world.now.processes)) }
{
    match world.process(pid) {
        Some(shown) => push_life_line(alloc, out, program, pid, &shown),
        None => Ok(()),
    }
}

/// Adds the answer to `where`: a line for each process, and `end`.
pub(crate) fn push_where(
    alloc: Global,
    out: &mut String,
    program: &Program<'_>,
    world: &RcWorld,
) -> Result<(), AllocError>
    ensures { OnOk result (string_bytes out.new
        ≡ string_bytes out.old ++ where_answer program.now world.now.processes) }
{
    for pid in 0..world.len() {
        push_life_at(alloc, out, program, world, pid as u32)?;
    }
    out.push_str("end\n")
}
