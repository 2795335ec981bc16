//! `trace N`: the last choices before the position, each with what it met.

ghost use Rattle.std.specs.Prelude.{◌≡◌, ◌+◌, ◌^◌, ◌<◌, ◌≤◌, ◌++◌, List, OnOk, codes, option_map, replicate, string_bytes};
ghost use Rattle.std.specs.Option.{option_map_or};
ghost use Rattle.bx_world.specs.Texts.{spelling};
ghost use Rattle.bx_world.specs.declared.choices.Choice.{Choice};
ghost use Rattle.bx_debugger.specs.Signals.{signal_words};
ghost use Rattle.bx_debugger.specs.Trace.{expires_in, made, met_words, trace_answer, trace_line, trace_lines};

use crate::programs::Program;
use crate::signal_lines::push_signal;
use crate::words::{push_here, push_place_or_dash};
use bx_debug::Session;
use bx_load::Image;
use bx_plan::Run;
use bx_signals::Signal;
use bx_terms::{Atoms, Fault, Place};
use bx_world::{Choice, RcWorld, Shown, choice_text};
use std::alloc::{AllocError, Global};

/// Where the process of that pid goes on when its wait for a time is over.
fn expires_in(pid: u32, world: &RcWorld) -> Option<Place>
    ensures { result ≡ expires_in pid world.now }
{
    match world.process(pid)? {
        Shown::Live(process) => process.expiry(),
        Shown::Exited(_) => None,
    }
}

/// Adds a signal as `signals` shows it, or a dash where there is none.
fn push_signal_or_dash(
    alloc: Global,
    out: &mut String,
    atoms: &Atoms,
    signal: Option<&Signal>,
) -> Result<(), AllocError>
    ensures { OnOk result (string_bytes out.new
        ≡ string_bytes out.old ++ option_map_or (signal_words atoms.now) (option_map (λ s. s.now) signal.entry) (codes "-")) }
{
    match signal {
        Some(signal) => push_signal(alloc, out, atoms, signal),
        None => out.push_str("-"),
    }
}

/// Adds what a choice meets in a world.
pub(crate) fn push_met(
    alloc: Global,
    out: &mut String,
    program: &Program<'_>,
    choice: Choice,
    world: &RcWorld,
) -> Result<(), AllocError>
    ensures { OnOk result
        (string_bytes out.new ≡ string_bytes out.old ++ met_words program.now choice world.now) }
{
    match choice {
        Choice::Run(pid) => push_here(alloc, out, program, world.place(pid)),
        Choice::Deliver(from, to) => {
            let signal = world.channels().first(from, to);
            push_signal_or_dash(alloc, out, program.image().atoms(), signal)
        }
        Choice::Expire(pid) => push_place_or_dash(alloc, out, program, expires_in(pid, world)),
    }
}

/// Adds a choice, and a space behind it.
pub(crate) fn push_spelled(
    alloc: Global,
    out: &mut String,
    choice: Choice,
) -> Result<(), AllocError>
    ensures { OnOk result
        (string_bytes out.new ≡ string_bytes out.old ++ (spelling choice ++ codes " ")) }
{
    let Ok(text) = choice_text(alloc, choice) else {
        return Err(AllocError);
    };
    out.push_str(text.as_str())?;
    out.push_str(" ")
}

/// Adds the line of a choice, before which its number stands, in the world where it is made.
fn push_trace_line(
    alloc: Global,
    out: &mut String,
    program: &Program<'_>,
    numbered: (usize, Choice),
    world: &RcWorld,
) -> Result<(), AllocError>
    ensures { OnOk result (string_bytes out.new
        ≡ string_bytes out.old ++ trace_line program.now numbered.0 numbered.1 world.now) }
{
    let (number, choice) = numbered;
    write!(out, "{number} ")?;
    push_spelled(alloc, out, choice)?;
    push_met(alloc, out, program, choice, world)?;
    out.push_str("\n")
}

/// Makes a choice. One that is refused changes nothing.
fn make(alloc: Global, image: &Image, choice: Choice, world: &mut RcWorld) -> Result<(), AllocError>
    ensures { OnOk result (world.new ≡ made image.now choice world.old) }
{
    match world.apply(alloc, image, choice) {
        Err(Fault::Memory) => Err(AllocError),
        _ => Ok(()),
    }
}

/// Adds the lines of a choice that is made so many times in a row, behind so many others, and makes them.
fn push_run_lines(
    alloc: Global,
    out: &mut String,
    program: &Program<'_>,
    numbered: (usize, Run),
    world: &mut RcWorld,
) -> Result<(), AllocError>
    requires { numbered.0 + numbered.1.times < 2 ^ 64 }
    ensures { OnOk result ((rest : List Choice)
        → string_bytes out.new ++ trace_lines program.now (numbered.0 + numbered.1.times + 1) world.new rest
        ≡ string_bytes out.old ++ trace_lines program.now (numbered.0 + 1) world.old
        (replicate numbered.1.times numbered.1.choice ++ rest)) }
{
    let (before, run) = numbered;
    for made in before..before + run.times {
        push_trace_line(alloc, out, program, (made + 1, run.choice), world)?;
        make(alloc, program.image(), run.choice, world)?;
    }
    Ok(())
}

/// Adds the answer to `trace`: a line for each choice before the position but the first ones, and `end`.
///
/// Only choices behind the nearest world that the session kept before them are made again.
pub(crate) fn push_trace(
    alloc: Global,
    out: &mut String,
    program: &Program<'_>,
    session: &Session<'_>,
    first: usize,
) -> Result<(), AllocError>
    requires { first ≤ session.now.at }
    ensures { OnOk result (string_bytes out.new
        ≡ string_bytes out.old ++ trace_answer program.now first session.now) }
{
    let mut left = session.schedule().part(first, session.at());
    let mut world = session.world_at(alloc, first)?;
    let mut made = first;
    while let Some(run) = left.next_run() {
        push_run_lines(alloc, out, program, (made, run), &mut world)?;
        made += run.times;
    }
    out.push_str("end\n")
}
