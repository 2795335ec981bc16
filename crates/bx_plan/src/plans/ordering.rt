//! Schedules in an order in which those stand together that begin alike.

ghost use Rattle.std.specs.Prelude.{◌≡◌, ◌<◌, ◌≤◌, [], length, slice_get, Some, IfOk, IfSome, OnErr};
ghost use Rattle.bx_plan.specs.Gathered.{AreRows};
ghost use Rattle.bx_plan.specs.Ordered.{headed, AreFrom, AreInOrder, AreMerged, GoOn, Takes, TakesFirst};
ghost use Rattle.bx_plan.specs.Plans.{choices_of};
ghost use Rattle.bx_plan.specs.View.{lines_view};

use super::{Line, Row, schedule_at};
use std::alloc::{AllocError, Global};
use std::marker::Model;

/// From how many schedules on it is looked whether they stand in order. Where they are drawn, the second or third is out of it mostly.
const MANY: usize = 64;

/// Rows in order that are left, and how many choices the first of them begins with as the row that was taken last.
#[derive(Drop)]
struct Left<'a> {
    rows: &'a [Row],
    common: usize,
}

impl<'a> Model for Left<'a> {
    ghost use Rattle.std.specs.Prelude.{List};
    ghost use Rattle.bx_plan.specs.declared.plans.Row.{Row};
    ghost use Rattle.bx_plan.specs.Ordered.{headed};

    ghost Value = { List Row };

    ghost view = { λ l. headed l.common l.rows.now };
}

impl<'a> Left<'a> {
    /// All rows are left.
    fn new(rows: &'a [Row]) -> Left<'a>
        ensures { result ≡ headed 0 rows.entry.now }
    {
        Left { rows, common: 0 }
    }

    /// The first row.
    fn first(&self) -> Option<Row>
        ensures { result ≡ slice_get self.now 0 }
    {
        let mut row = *self.rows.first()?;
        row.common = self.common;
        Some(row)
    }

    /// Takes the first row.
    fn take(&mut self) -> Option<Row>
        ensures { TakesFirst self.old self.new result }
    {
        let row = self.first()?;
        self.rows = &self.rows[1..];
        if let [next, ..] = self.rows {
            self.common = next.common;
        }
        Some(row)
    }

    /// The first row begins with so many choices as the row that is taken next.
    fn stand_behind(&mut self, common: usize)
        ensures { self.new ≡ headed common self.old }
    {
        self.common = common;
    }
}

/// Takes the row that stands first: the one that begins with more choices as the row that was taken last, where they differ in that.
fn take_first(lines: &[Line], one: &mut Left<'_>, other: &mut Left<'_>) -> Option<Row>
    requires { GoOn (choices_of (lines_view lines.now)) one.old other.old }
    ensures { Takes (choices_of (lines_view lines.now)) one.old other.old one.new other.new result }
{
    let Some(first) = one.first() else {
        return other.take();
    };
    let Some(second) = other.first() else {
        return one.take();
    };
    if first.common > second.common {
        return one.take();
    }
    if first.common < second.common {
        return other.take();
    }
    let schedule = schedule_at(lines, first.line);
    let (common, order) = schedule.compare(schedule_at(lines, second.line), first.common);
    if order.is_gt() {
        one.stand_behind(common);
        return other.take();
    }
    other.stand_behind(common);
    one.take()
}

/// The rows of both in order.
fn merge(alloc: Global, lines: &[Line], one: &[Row], other: &[Row]) -> Result<Vec<Row>, AllocError>
    requires one { AreFrom (choices_of (lines_view lines.now)) [] one.now }
    requires other { AreFrom (choices_of (lines_view lines.now)) [] other.now }
    ensures { IfOk result (λ rows. AreMerged (choices_of (lines_view lines.now)) one.now other.now rows.items) }
{
    let mut rows = Vec::with_capacity(alloc, one.len() + other.len())?;
    let (mut left, mut right) = (Left::new(one), Left::new(other));
    while let Some(row) = take_first(lines, &mut left, &mut right) {
        rows.push_reserved(row);
    }
    Ok(rows)
}

/// The rows of the schedules from that line on up to the one before another, where they stand in order already.
fn run_of(
    alloc: Global,
    lines: &[Line],
    line: usize,
    past: usize,
) -> Result<Option<Vec<Row>>, AllocError>
    requires order { line < past }
    requires within { past ≤ length lines.now }
    ensures { IfOk result (λ run. IfSome run (λ rows. AreInOrder (choices_of (lines_view lines.now)) line past rows.items)) }
{
    let mut rows = Vec::new(alloc);
    rows.push(Row { line, common: 0 })?;
    for next in line + 1..past {
        let last = schedule_at(lines, next - 1);
        let (common, order) = last.compare(schedule_at(lines, next), 0);
        if order.is_gt() {
            return Ok(None);
        }
        rows.push(Row { line: next, common })?;
    }
    rows.shrink_to_fit();
    Ok(Some(rows))
}

/// The rows of the schedules from that line on up to the one before another, in order.
fn in_order(alloc: Global, lines: &[Line], line: usize, past: usize) -> Result<Vec<Row>, AllocError>
    requires order { line ≤ past }
    requires within { past ≤ length lines.now }
    ensures rows { IfOk result (λ rows. AreInOrder (choices_of (lines_view lines.now)) line past rows.items) }
    ensures err { OnErr result (line < past) }
{
    if line == past {
        return Ok(Vec::new(alloc));
    }
    if line + 1 == past {
        return vec![in alloc; Row { line, common: 0 }; 1];
    }
    if past - line >= MANY {
        if let Some(rows) = run_of(alloc, lines, line, past)? {
            return Ok(rows);
        }
    }
    let middle = line + (past - line) / 2;
    let one = in_order(alloc, lines, line, middle)?;
    let other = in_order(alloc, lines, middle, past)?;
    let rows = merge(alloc, lines, &one, &other)?;
    Ok(rows)
}

/// The rows of schedules in order.
pub(super) fn rows_of(alloc: Global, lines: &[Line]) -> Result<Vec<Row>, AllocError>
    ensures rows { IfOk result (λ rows. AreRows (choices_of (lines_view lines.now)) rows.items) }
    ensures err { OnErr result (0 < length lines.now) }
{
    let rows = in_order(alloc, lines, 0, lines.len())?;
    Ok(rows)
}
