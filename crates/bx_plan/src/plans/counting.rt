//! How many distinct prefixes schedules have.

ghost use Rattle.std.specs.Prelude.{◌≡◌, ◌↔◌, ◌+◌, ◌<◌, ◌≤◌, length, take, IsTrue};
ghost use Rattle.bx_plan.specs.Gathered.{AreRows};
ghost use Rattle.bx_plan.specs.Nodes.{node_count};
ghost use Rattle.bx_plan.specs.Plans.{choices_of};
ghost use Rattle.bx_plan.specs.View.{lines_view};

use super::{Line, Row};

/// How many distinct prefixes a plan's schedules may have, the empty one aside.
const MOST_NODES: usize = 1_000_000;

/// Whether the first so many schedules have too many distinct prefixes: each has those that are longer than what it begins with as the
/// one of them before it in the row.
pub(super) fn is_full(lines: &[Line], rows: &[Row], count: usize) -> bool
    requires rows { AreRows (choices_of (lines_view lines.now)) rows.now }
    ensures { IsTrue result ↔ (1000000 < node_count (take count (choices_of (lines_view lines.now)))) }
{
    let mut nodes = 0usize;
    let mut common = 0;
    for row in rows {
        common = row.common.min(common);
        if row.line < count {
            let length = lines[row.line].schedule.len();
            nodes = nodes.saturating_add(length - common);
            common = length;
        }
    }
    nodes > MOST_NODES
}

/// How many schedules have not yet too many, found by halving, where all of them have.
pub(super) fn last_fitting(lines: &[Line], rows: &[Row]) -> usize
    requires rows { AreRows (choices_of (lines_view lines.now)) rows.now }
    requires full { 1000000 < node_count (choices_of (lines_view lines.now)) }
    ensures there { result < length lines.now }
    ensures fits { node_count (take result (choices_of (lines_view lines.now))) ≤ 1000000 }
    ensures full { 1000000 < node_count (take (result + 1) (choices_of (lines_view lines.now))) }
{
    let mut low = 0;
    let mut high = lines.len();
    while high - low > 1 {
        let middle = low + (high - low) / 2;
        if is_full(lines, rows, middle) {
            high = middle;
        } else {
            low = middle;
        }
    }
    low
}
