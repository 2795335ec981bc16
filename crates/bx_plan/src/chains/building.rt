//! The chains of a plan, one behind the other.

ghost use Rattle.std.specs.Prelude.{◌≡◌, ◌+◌, ◌-◌, ◌<◌, ◌≤◌, length, take, reverse, IfOk, OnOk};
ghost use Rattle.bx_plan.specs.Chains.{begun, chain_path, AreChains, AreForest, IsCut};
ghost use Rattle.bx_plan.specs.Cuts.{AllCuts};
ghost use Rattle.bx_plan.specs.Gathered.{common_before, placed, row_at, AreRows};
ghost use Rattle.bx_plan.specs.Growing.{Grown};
ghost use Rattle.bx_plan.specs.Plans.{choices_of};
ghost use Rattle.bx_plan.specs.View.{lines_view};

use super::cuts::cuts_of;
use super::{Chains, Head};
use crate::plans::{Line, Plan, Row, length_at};
use bx_share::List;
use std::alloc::{AllocError, Global};

impl Chains {
    /// The chain that makes no choice, alone.
    fn root(alloc: Global, lines: &[Line], rows: &[Row]) -> Result<Chains, AllocError>
        ensures { IfOk result (Grown (lines_view lines.now) rows.now 0 0) }
    {
        let mut heads = Vec::new(alloc);
        heads.push(Head {
            line: 0,
            first: 0,
            past: 0,
            above: 0,
        })?;
        let mut kids = Vec::new(alloc);
        kids.push(List::new(alloc))?;
        let ends = vec![in alloc; 0; lines.len()]?;
        Ok(Chains { heads, kids, ends })
    }

    /// The chain that ends at that depth on the way to the end of the last one.
    fn up_to(&self, lines: &[Line], depth: usize) -> usize
        requires forest { AreForest (lines_view lines.now) self.now }
        requires within { depth ≤ length (chain_path (lines_view lines.now) self.now (length self.now.heads - 1)) }
        requires cut { IsCut (choices_of (lines_view lines.now)) (take depth (chain_path (lines_view lines.now) self.now (length self.now.heads - 1))) }
        ensures there { result < length self.now.heads }
        ensures path { chain_path (lines_view lines.now) self.now result ≡ take depth (chain_path (lines_view lines.now) self.now (length self.now.heads - 1)) }
    {
        let _lines = lines;
        let mut at = self.len() - 1;
        while self.head(at).past > depth {
            at = self.head(at).above;
        }
        at
    }

    /// Adds a chain that stands on that one.
    fn begin(&mut self, alloc: Global, head: Head) -> Result<(), AllocError>
        requires chain { head.above < length self.old.heads }
        requires rows { length self.old.kids ≡ length self.old.heads }
        ensures { OnOk result (self.new ≡ begun head self.old) }
    {
        let chain = self.heads.len();
        self.heads.push(head)?;
        self.kids[head.above].push(chain)?;
        self.kids.push(List::new(alloc))?;
        Ok(())
    }

    /// Adds the chains on which the schedule at a place leads on from the one before it, up to the cuts that come last.
    fn add_row(
        &mut self,
        alloc: Global,
        lines: &[Line],
        rows: &[Row],
        place: usize,
        cuts: &mut Vec<usize>,
    ) -> Result<(), AllocError>
        requires rows { AreRows (choices_of (lines_view lines.now)) rows.now }
        requires place { place < length rows.now }
        requires grown { Grown (lines_view lines.now) rows.now place (row_at rows.now place).common self.old }
        requires cuts { AllCuts (choices_of (lines_view lines.now)) rows.now (length rows.now - place) place (reverse cuts.old.items) }
        ensures grown { OnOk result (Grown (lines_view lines.now) rows.now place (length (placed (choices_of (lines_view lines.now)) rows.now place)) self.new) }
        ensures cuts { OnOk result (AllCuts (choices_of (lines_view lines.now)) rows.now (length rows.now - place - 1) (place + 1) (reverse cuts.new.items)) }
    {
        let line = rows[place].line;
        let length = length_at(lines, rows, place);
        let mut first = rows[place].common;
        while first < length {
            let Some(past) = cuts.pop() else {
                unreachable!()
            };
            let above = self.up_to(lines, first);
            let head = Head {
                line,
                first,
                past,
                above,
            };
            self.begin(alloc, head)?;
            first = past;
        }
        Ok(())
    }

    /// Notes the chain with which the schedule at a place ends.
    fn end_row(&mut self, lines: &[Line], rows: &[Row], place: usize)
        requires rows { AreRows (choices_of (lines_view lines.now)) rows.now }
        requires place { place < length rows.now }
        requires grown { Grown (lines_view lines.now) rows.now place (length (placed (choices_of (lines_view lines.now)) rows.now place)) self.old }
        ensures { Grown (lines_view lines.now) rows.now (place + 1) (common_before (choices_of (lines_view lines.now)) rows.now (place + 1)) self.new }
    {
        let chain = self.up_to(lines, length_at(lines, rows, place));
        self.ends[rows[place].line] = chain;
    }
}

/// The chains of the schedules of a row.
fn all_chains(alloc: Global, lines: &[Line], rows: &[Row]) -> Result<Chains, AllocError>
    requires { AreRows (choices_of (lines_view lines.now)) rows.now }
    ensures { IfOk result (λ all. AreChains (lines_view lines.now) all) }
{
    let mut cuts = cuts_of(alloc, lines, rows)?;
    let mut all = Chains::root(alloc, lines, rows)?;
    for place in 0..rows.len() {
        all.add_row(alloc, lines, rows, place, &mut cuts)?;
        all.end_row(lines, rows, place);
    }
    Ok(all)
}

/// The chains of a plan, in a time in proportion to how many they are and to how many schedules there are.
pub fn chains_of(alloc: Global, plan: &Plan) -> Result<Chains, AllocError>
    ensures { IfOk result (λ all. AreChains plan.now all) }
{
    all_chains(alloc, &plan.lines, &plan.rows)
}
