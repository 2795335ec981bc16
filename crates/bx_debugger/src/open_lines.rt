//! `open`: the choices that are enabled, each with what it would meet.

ghost use Rattle.std.specs.Prelude.{◌≡◌, ◌++◌, OnOk, codes, string_bytes};
ghost use Rattle.bx_world.specs.Texts.{spelling};
ghost use Rattle.bx_debugger.specs.Open.{open_answer, open_lines};
ghost use Rattle.bx_debugger.specs.Trace.{met_words};

use crate::programs::Program;
use crate::traces::{push_met, push_spelled};
use bx_world::{Choice, RcWorld};
use std::alloc::{AllocError, Global};

/// Adds the line of a choice.
fn push_open_line(
    alloc: Global,
    out: &mut String,
    program: &Program<'_>,
    choice: Choice,
    world: &RcWorld,
) -> Result<(), AllocError>
    ensures { OnOk result (string_bytes out.new
        ≡ string_bytes out.old ++ (spelling choice ++ codes " " ++ met_words program.now choice world.now ++ codes "\n")) }
{
    push_spelled(alloc, out, choice)?;
    push_met(alloc, out, program, choice, world)?;
    out.push_str("\n")
}

fn push_open_lines(
    alloc: Global,
    out: &mut String,
    program: &Program<'_>,
    choices: &[Choice],
    world: &RcWorld,
) -> Result<(), AllocError>
    ensures { OnOk result (string_bytes out.new
        ≡ string_bytes out.old ++ open_lines program.now world.now choices.now) }
{
    for choice in choices {
        push_open_line(alloc, out, program, *choice, world)?;
    }
    Ok(())
}

/// Adds the answer to `open`: a line for each choice that is enabled, and `end`.
pub(crate) fn push_open(
    alloc: Global,
    out: &mut String,
    program: &Program<'_>,
    world: &RcWorld,
) -> Result<(), AllocError>
    ensures { OnOk result (string_bytes out.new
        ≡ string_bytes out.old ++ open_answer program.now world.now) }
{
    let Ok(choices) = world.enabled(alloc) else {
        return Err(AllocError);
    };
    push_open_lines(alloc, out, program, &choices, world)?;
    out.push_str("end\n")
}
