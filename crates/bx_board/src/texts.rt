//! The text of a report.

ghost use Rattle.std.specs.Prelude.{◌≢◌, ◌++◌, [], Ok, string_bytes};
ghost use Rattle.bx_terms.specs.Outcomes.{Gives};
ghost use Rattle.bx_board.specs.Texts.{schedule_lines, report_lines};

use crate::reports::{Report, Scheduled};
use bx_terms::{Atoms, Fault};
use bx_world::outcome_text;
use std::alloc::Global;

/// The text of a report: for each schedule in order a line `schedule NAME` and the lines of its outcome, each ended by a
/// line feed.
///
/// It can only run out of memory, and none is taken where there is no schedule.
pub fn report_text(alloc: Global, atoms: &Atoms, report: &Report) -> Result<String, Fault>
    ensures { Gives (report.now ≢ []) (λ text. string_bytes text) result
        (Ok (report_lines atoms.now report.now)) }
{
    let mut out = String::new(alloc);
    for schedule in report.as_slice() {
        push_schedule(alloc, &mut out, atoms, schedule)?;
    }
    Ok(out)
}

fn push_schedule(
    alloc: Global,
    out: &mut String,
    atoms: &Atoms,
    schedule: &Scheduled,
) -> Result<(), Fault>
    ensures { Gives (Unit {0}) (λ _. string_bytes out.new) result
        (Ok (string_bytes out.old ++ schedule_lines atoms.now schedule.now)) }
{
    let name = schedule.name.as_str();
    write!(out, "schedule {name}\n")?;
    let text = outcome_text(
        alloc,
        atoms,
        schedule.applied,
        schedule.refused,
        &schedule.outcome,
    )?;
    out.push_str(text.as_str())?;
    Ok(())
}
