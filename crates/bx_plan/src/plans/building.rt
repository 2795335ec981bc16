//! Building a plan line by line.

ghost use Rattle.std.specs.Prelude.{◌≡◌, ◌≤◌, ◌++◌, ◌∷◌, [], List, ℕ, length, IfOk, OnOk, OnErr};
ghost use Rattle.bx_terms.specs.Outcomes.{Gives};
ghost use Rattle.bx_plan.specs.Building.{answer_of, read_loose, so_far, with_loose, Adds, IsBuilding, IsRead};
ghost use Rattle.bx_plan.specs.Entry.{Entry};
ghost use Rattle.bx_plan.specs.Made.{Make};
ghost use Rattle.bx_plan.specs.Planned.{schedules};
ghost use Rattle.bx_plan.specs.Plans.{plan_of, TakesFirst, TakesMemory};
ghost use Rattle.bx_plan.specs.Reading.{line_of, parts_of, spread};

use super::counting::{is_full, last_fitting};
use super::ordering::rows_of;
use super::{Line, Plan};
use crate::entries::MOST_CHOICES;
use crate::lines::{self, Heading, line_of};
use crate::parts::Parts;
use crate::schedules::Schedule;
use bx_terms::{Fault, Name};
use std::alloc::{AllocError, Global};
use std::collections::BTreeSet;

/// A plan while its lines are read.
#[derive(Drop)]
pub(super) struct Builder<'a> {
    alloc: Global,
    lines: Vec<Line>,
    /// By schedule, the number of its line in the text, from 1.
    numbers: Vec<usize>,
    names: BTreeSet<&'a str>,
}

impl<'a> Builder<'a> {
    /// A plan of no schedules.
    pub(super) fn new(alloc: Global) -> Builder<'a>
        ensures empty { so_far result ≡ [] }
        ensures building { IsBuilding result }
    {
        Builder {
            alloc,
            lines: Vec::new(alloc),
            numbers: Vec::new(alloc),
            names: BTreeSet::new(alloc),
        }
    }

    /// Reads lines up to the first that is refused by itself, by its name or by its length.
    pub(super) fn read_all(&mut self, text: &'a [u8]) -> Result<Option<Fault>, AllocError>
        requires empty { so_far self.old ≡ [] }
        requires building { IsBuilding self.old }
        ensures ok { IfOk result (λ refusal. IsRead text.entry.now self.new (answer_of refusal (so_far self.new))) }
        ensures err { OnErr result (TakesMemory (parts_of 10 text.entry.now)) }
    {
        let mut number = 0;
        for line in Parts::new(text, b'\n') {
            number += 1;
            match self.read_line(number, line)? {
                None => {}
                Some(refusal) => return Ok(Some(refusal)),
            }
        }
        Ok(None)
    }

    /// Reads the line of this number, from 1.
    fn read_line(&mut self, number: usize, text: &'a [u8]) -> Result<Option<Fault>, AllocError>
        requires { IsBuilding self.old }
        ensures { Adds (TakesFirst (line_of text.entry.now) ⊥) number self.old self.new result
            (read_loose number (so_far self.old) (line_of text.entry.now)) }
    {
        match line_of(self.alloc, text) {
            None => Ok(Some(Fault::BadLine { line: number })),
            Some(lines::Line::Nothing) => Ok(None),
            Some(lines::Line::Schedule(heading)) => self.add(number, heading),
        }
    }

    /// Adds the schedule of the line of this number.
    fn add(&mut self, number: usize, heading: Heading<'a>) -> Result<Option<Fault>, AllocError>
        requires { IsBuilding self.old }
        ensures { (entries : List Entry) → Make heading.entry.entries entries
            → Adds (length (spread entries) ≤ 100000) number self.old self.new result
            (with_loose number (so_far self.old) (heading.entry.name.now, spread entries)) }
    {
        let Heading { name, entries } = heading;
        if entries.count > MOST_CHOICES {
            if self.names.contains(&name) {
                return Ok(Some(Fault::NameTwice { line: number }));
            }
            return Ok(Some(Fault::TooLong { line: number }));
        }
        let Ok(is_new) = self.names.insert(name) else {
            return Err(AllocError);
        };
        if !is_new {
            return Ok(Some(Fault::NameTwice { line: number }));
        }
        if !entries.is_whole {
            return Err(AllocError);
        }
        self.push(number, name, entries.schedule)?;
        Ok(None)
    }

    /// Adds a schedule with its line's number.
    fn push(&mut self, number: usize, name: &str, schedule: Schedule) -> Result<(), AllocError>
        ensures lines { OnOk result (so_far self.new ≡ so_far self.old ++ (name.now, schedule) ∷ []) }
        ensures numbers { OnOk result (self.new.numbers.items ≡ self.old.numbers.items ++ number ∷ []) }
        ensures names { self.new.names ≡ self.old.names }
    {
        let name = Name::new(self.alloc, name)?;
        self.numbers.push(number)?;
        self.lines.push(Line { name, schedule })?;
        Ok(())
    }

    /// The plan of the lines that were read, up to the first that was refused; or the fault of the first at fault.
    pub(super) fn finish(self, refusal: Option<Fault>) -> Result<Plan, Fault>
        requires { length self.numbers.items ≡ length (so_far self) }
        ensures { (text : List ℕ) → IsRead text self.entry (answer_of refusal (so_far self.entry)) → Gives (TakesMemory (parts_of 10 text))
            (λ plan. schedules plan) result (plan_of text) }
    {
        let Builder {
            alloc,
            lines,
            numbers,
            names: _,
        } = self;
        let rows = rows_of(alloc, &lines)?;
        if is_full(&lines, &rows, lines.len()) {
            let last = last_fitting(&lines, &rows);
            return Err(Fault::TooLong {
                line: numbers[last],
            });
        }
        match refusal {
            None => Ok(Plan { lines, rows }),
            Some(fault) => Err(fault),
        }
    }
}
