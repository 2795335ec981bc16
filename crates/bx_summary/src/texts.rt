//! The text of a summary.

ghost use Rattle.std.specs.Prelude.{◌≡◌, ◌++◌, Ok, OnOk, string_bytes};
ghost use Rattle.bx_terms.specs.Outcomes.{Gives};
ghost use Rattle.bx_summary.specs.Tallied.{shared_texts, shared_view};
ghost use Rattle.bx_summary.specs.Texts.{heading, last_line, outcome_text, summary_lines};

use crate::endings::ending_text;
use crate::tallies::{Shared, Tally};
use bx_board::Report;
use bx_terms::{Atoms, Fault};
use std::alloc::{AllocError, Global};

/// The summary of a report: for each distinct outcome, in the order of its first schedule, a line `outcome of N schedules, first
/// NAME`, and the lines of the outcome from `state` to `end`. Outcomes are the same where these lines are. The choices that are
/// open are left out: the line is `state open` alone. Last is a line `N schedules, M outcomes`.
///
/// It can only run out of memory. It takes a time of the size of the report times a logarithm.
pub fn summary_text(alloc: Global, atoms: &Atoms, report: &Report) -> Result<String, Fault>
    ensures { Gives (Unit {0}) (λ text. string_bytes text) result
        (Ok (summary_lines atoms.now report.now)) }
{
    let tally = Tally::of(alloc, atoms, report.as_slice())?;
    let mut out = String::new(alloc);
    push_outcomes(alloc, &mut out, atoms, tally.outcomes.as_slice())?;
    push_last(&mut out, tally.schedules, tally.outcomes.len())?;
    Ok(out)
}

fn push_outcomes(
    alloc: Global,
    out: &mut String,
    atoms: &Atoms,
    outcomes: &[Shared<'_>],
) -> Result<(), Fault>
    ensures { Gives (Unit {0}) (λ _. string_bytes out.new) result
        (Ok (string_bytes out.old ++ shared_texts atoms.now outcomes.now)) }
{
    for shared in outcomes {
        push_outcome(alloc, out, atoms, shared)?;
    }
    Ok(())
}

fn push_outcome(
    alloc: Global,
    out: &mut String,
    atoms: &Atoms,
    shared: &Shared<'_>,
) -> Result<(), Fault>
    ensures { Gives (Unit {0}) (λ _. string_bytes out.new) result
        (Ok (string_bytes out.old ++ outcome_text atoms.now (shared_view shared.now))) }
{
    push_heading(out, shared)?;
    let ending = ending_text(alloc, atoms, shared.first)?;
    out.push_str(ending.as_str())?;
    Ok(())
}

fn push_heading(out: &mut String, shared: &Shared<'_>) -> Result<(), AllocError>
    ensures { OnOk result
        (string_bytes out.new ≡ string_bytes out.old ++ heading (shared_view shared.now)) }
{
    let count = shared.count;
    let name = shared.first.name.as_str();
    write!(out, "outcome of {count} schedules, first ")?;
    out.push_str(name)?;
    out.push_str("\n")?;
    Ok(())
}

fn push_last(out: &mut String, schedules: usize, outcomes: usize) -> Result<(), AllocError>
    ensures { OnOk result
        (string_bytes out.new ≡ string_bytes out.old ++ last_line schedules outcomes) }
{
    write!(out, "{schedules} schedules, ")?;
    write!(out, "{outcomes} outcomes\n")?;
    Ok(())
}
