//! Choices as one line of a plan.

ghost use Rattle.std.specs.Prelude.{◌≡◌, ◌++◌, OnOk, codes, string_bytes};
ghost use Rattle.bx_engine.specs.PlanLines.{entries_words, entry_words, gathered, plan_line};

use bx_plan::{Part, Run};
use bx_world::choice_text;
use std::alloc::{AllocError, Global};

/// Adds a choice, and how often it is made where that is more than once.
fn push_entry(alloc: Global, out: &mut String, run: Run) -> Result<(), AllocError>
    ensures { OnOk result
        (string_bytes out.new ≡ string_bytes out.old ++ entry_words (run.choice, run.times)) }
{
    let Run { choice, times } = run;
    let Ok(text) = choice_text(alloc, choice) else {
        return Err(AllocError);
    };
    out.push_str(" ")?;
    out.push_str(text.as_str())?;
    if times == 1 {
        return Ok(());
    }
    write!(out, "*{times}")
}

/// Adds the entries of choices.
fn push_entries(alloc: Global, out: &mut String, choices: Part<'_>) -> Result<(), AllocError>
    ensures { OnOk result (string_bytes out.new
        ≡ string_bytes out.old ++ entries_words (gathered choices.entry)) }
{
    let mut left = choices;
    while let Some(run) = left.next_run() {
        push_entry(alloc, out, run)?;
    }
    Ok(())
}

/// Adds choices as a line of a plan, and ends the line.
pub fn push_plan(
    alloc: Global,
    out: &mut String,
    name: &str,
    choices: Part<'_>,
) -> Result<(), AllocError>
    ensures { OnOk result (string_bytes out.new
        ≡ string_bytes out.old ++ (plan_line name.now choices.entry ++ codes "\n")) }
{
    out.push_str(name)?;
    out.push_str(":")?;
    push_entries(alloc, out, choices)?;
    out.push_str("\n")
}
