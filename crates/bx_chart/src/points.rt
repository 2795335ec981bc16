//! Where things stand in a drawing.

ghost use Rattle.std.specs.Prelude.{◌≡◌, ◌≤◌};
ghost use Rattle.bx_chart.specs.Points.{arrow_end, begins, beside, bounded, named_at, on, row_behind, spot};

use bx_svg::Point;

/// The last column or row of a drawing.
const LAST: usize = 16_777_215;

fn bounded(n: usize) -> usize
    ensures value { result ≡ bounded n }
    ensures few { result ≤ 16777215 }
{
    if n > LAST { LAST } else { n }
}

/// The point so far to the right of where a column begins, and so far below where a row begins.
pub(crate) fn spot(column: usize, row: usize, right: u8, down: u8) -> Point
    ensures { result ≡ spot column row right down }
{
    Point {
        x: 190 * bounded(column) + right as usize,
        y: 24 * bounded(row) + down as usize,
    }
}

/// On the line of a process, in a row.
pub(crate) fn on(pid: u32, row: usize) -> Point
    ensures { result ≡ on pid row }
{
    spot(pid as usize, row, 170, 64)
}

/// Where a text begins that stands beside the line.
pub(crate) fn beside(pid: u32, row: usize) -> Point
    ensures { result ≡ beside pid row }
{
    spot(pid as usize, row, 188, 68)
}

/// Where an arrow ends that comes from one process's line to another's.
pub(crate) fn arrow_end(from: u32, to: u32, row: usize) -> Point
    ensures { result ≡ arrow_end from to row }
{
    if from < to {
        spot(to as usize, row, 168, 64)
    } else {
        spot(to as usize, row, 172, 64)
    }
}

/// Where a process's line begins, or what stands so far to the right there.
pub(crate) fn begins(born: Option<usize>, pid: usize, right: u8) -> Point
    ensures { result ≡ begins born pid right }
{
    match born {
        None => spot(pid, 0, right, 26),
        Some(row) => spot(pid, row, right, 50),
    }
}

/// Where the middle of a process's pid stands.
pub(crate) fn named_at(born: Option<usize>, pid: usize) -> Point
    ensures { result ≡ named_at born pid }
{
    match born {
        None => spot(pid, 0, 170, 40),
        Some(row) => spot(pid, row, 170, 64),
    }
}

/// The row of a signal that waits, behind so many others, and behind the rows of events.
pub(crate) fn row_behind(rows: usize, before: usize) -> usize
    ensures { result ≡ row_behind rows before }
{
    bounded(rows) + bounded(before) + 2
}
