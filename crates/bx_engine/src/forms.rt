//! The forms in which what comes of a plan's schedules is written.

ghost use Rattle.std.specs.Prelude.{⊤, Ok, string_bytes};
ghost use Rattle.bx_terms.specs.Outcomes.{Gives};
ghost use Rattle.bx_engine.specs.Forms.{text_as};

use bx_board::{Report, report_text};
use bx_summary::summary_text;
use bx_terms::{Atoms, Fault};
use std::alloc::Global;

/// How what comes of a plan's schedules is written.
#[derive(Clone, Copy, Debug, PartialEq, Eq)]
pub enum Form {
    /// The report of each schedule, in the plan's order.
    Report,
    /// Each distinct outcome once, with how many schedules have it.
    Summary,
}

impl Form {
    /// The text of a report in this form.
    pub(crate) fn text(self, alloc: Global, atoms: &Atoms, report: &Report) -> Result<String, Fault>
        ensures { Gives ⊤ (λ text. string_bytes text) result
            (Ok (text_as self atoms.now report.now)) }
    {
        match self {
            Form::Report => report_text(alloc, atoms, report),
            Form::Summary => summary_text(alloc, atoms, report),
        }
    }
}
