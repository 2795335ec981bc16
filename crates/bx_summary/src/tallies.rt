//! How many schedules have each outcome.

ghost use Rattle.std.specs.Prelude.{◌≡◌, ◌<◌, ◌^◌, ◌+◌, [], IfErr, IfOk, OnOk, length};
ghost use Rattle.bx_terms.specs.declared.faults.Fault.TheVariants.{Memory};
ghost use Rattle.bx_summary.specs.Counted.{counted, with_one};
ghost use Rattle.bx_summary.specs.Tallied.{IsTally, outcomes_of};

use crate::endings::ending_text;
use bx_board::Scheduled;
use bx_terms::{Atoms, Fault};
use std::alloc::Global;
use std::collections::BTreeMap;

/// An outcome that schedules have.
#[derive(Drop)]
pub(crate) struct Shared<'a> {
    /// The first schedule that has it.
    pub(crate) first: &'a Scheduled,
    /// How many have it.
    pub(crate) count: usize,
}

/// The outcomes of schedules in the order of their first, and the number of each by its lines.
#[derive(Drop)]
pub(crate) struct Tally<'a> {
    pub(crate) outcomes: Vec<Shared<'a>>,
    numbers: BTreeMap<String, usize>,
    /// How many schedules there are.
    pub(crate) schedules: usize,
}

impl<'a> Tally<'a> {
    /// The tally of no schedule.
    fn new(alloc: Global, atoms: &Atoms) -> Tally<'a>
        ensures tally { IsTally atoms.now result }
        ensures none { outcomes_of result ≡ [] }
        ensures count { result.schedules ≡ 0 }
    {
        Tally {
            outcomes: Vec::new(alloc),
            numbers: BTreeMap::new(alloc),
            schedules: 0,
        }
    }

    /// Counts a schedule at its outcome.
    fn add(&mut self, alloc: Global, atoms: &Atoms, one: &'a Scheduled) -> Result<(), Fault>
        requires tally { IsTally atoms.now self.old }
        requires room { self.old.schedules + 1 < 2 ^ 64 }
        ensures tally { OnOk result (IsTally atoms.now self.new) }
        ensures one { OnOk result (outcomes_of self.new ≡ with_one atoms.now one.now (outcomes_of self.old)) }
        ensures count { OnOk result (self.new.schedules ≡ self.old.schedules + 1) }
        ensures err { IfErr result (λ fault. fault ≡ Memory) }
    {
        let ending = ending_text(alloc, atoms, one)?;
        self.schedules += 1;
        if let Some(number) = self.numbers.get(ending.as_str()).copied() {
            self.outcomes[number].count += 1;
            return Ok(());
        }
        let number = self.outcomes.len();
        self.outcomes.push(Shared {
            first: one,
            count: 1,
        })?;
        self.numbers.insert(ending, number)?;
        Ok(())
    }

    /// The tally of these schedules.
    pub(crate) fn of(
        alloc: Global,
        atoms: &Atoms,
        schedules: &'a [Scheduled],
    ) -> Result<Tally<'a>, Fault>
        ensures counted { IfOk result (λ tally. outcomes_of tally ≡ counted atoms.now schedules.now) }
        ensures count { IfOk result (λ tally. tally.schedules ≡ length schedules.now) }
        ensures err { IfErr result (λ fault. fault ≡ Memory) }
    {
        let mut tally = Tally::new(alloc, atoms);
        for one in schedules {
            tally.add(alloc, atoms, one)?;
        }
        Ok(tally)
    }
}
