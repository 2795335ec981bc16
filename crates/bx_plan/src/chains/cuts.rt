//! Where the chains of a plan end.

ghost use Rattle.std.specs.Prelude.{◌≡◌, ◌<◌, ◌≤◌, ◌++◌, ◌∷◌, [], length, MatchOption, IfOk, OnOk, reverse};
ghost use Rattle.bx_plan.specs.Cuts.{deepest, marked, AllCuts, IsCutBy, Rise};
ghost use Rattle.bx_plan.specs.Gathered.{AreRows};
ghost use Rattle.bx_plan.specs.Plans.{choices_of};
ghost use Rattle.bx_plan.specs.View.{lines_view};

use crate::plans::{Line, Row, length_at};
use std::alloc::{AllocError, Global};

/// The deepest mark; 0 where there is none.
#[tactic(auto, using(crate::proofs::Cutting::deepest_last))]
fn deepest(marks: &[usize]) -> usize
    ensures { result ≡ deepest 0 marks.now }
{
    match marks.last() {
        Some(mark) => *mark,
        None => 0,
    }
}

/// Adds a depth where it is below all others.
fn mark(marks: &mut Vec<usize>, depth: usize) -> Result<(), AllocError>
    ensures { OnOk result (marks.new.items ≡ marked marks.old.items depth) }
{
    if deepest(marks) < depth {
        marks.push(depth)?;
    }
    Ok(())
}

/// Takes off the deepest mark, where it is below that depth.
#[tactic(auto, using(crate::proofs::Cutting::deepest_push))]
fn pop_below(marks: &mut Vec<usize>, depth: usize) -> Option<usize>
    ensures { MatchOption result ((marks.new.items ≡ marks.old.items) × (deepest 0 marks.old.items ≤ depth))
        (λ last. (depth < last) × (marks.old.items ≡ marks.new.items ++ last ∷ [])) }
{
    if deepest(marks) <= depth {
        return None;
    }
    marks.pop()
}

/// Where the chains of a schedule of that length end below where it parts from the one before it, by the marks of those behind it; and
/// then the marks are for the one before it.
fn cut_by(
    marks: &mut Vec<usize>,
    cuts: &mut Vec<usize>,
    common: usize,
    length: usize,
) -> Result<(), AllocError>
    requires { Rise 0 marks.old.items }
    ensures { OnOk result (IsCutBy common length marks.old.items (reverse cuts.old.items) marks.new.items (reverse cuts.new.items)) }
{
    mark(marks, length)?;
    while let Some(depth) = pop_below(marks, common) {
        cuts.push(depth)?;
    }
    mark(marks, common)?;
    Ok(())
}

/// By schedule from the last one of the row to the first, the depths at which chains end on it, from the deepest on: where it ends, and
/// where those behind it part from it, below where it parts from the one before it.
pub(super) fn cuts_of(alloc: Global, lines: &[Line], rows: &[Row]) -> Result<Vec<usize>, AllocError>
    requires { AreRows (choices_of (lines_view lines.now)) rows.now }
    ensures { IfOk result (λ cuts. AllCuts (choices_of (lines_view lines.now)) rows.now (length rows.now) 0 (reverse cuts.items)) }
{
    let mut cuts = Vec::new(alloc);
    let mut marks = Vec::new(alloc);
    let mut place = rows.len();
    while place > 0 {
        place -= 1;
        let length = length_at(lines, rows, place);
        cut_by(&mut marks, &mut cuts, rows[place].common, length)?;
    }
    Ok(cuts)
}
