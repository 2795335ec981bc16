//! The lines of processes.

ghost use Rattle.std.specs.Prelude.{◌≡◌, ◌++◌, IfOk, OnOk, codes, length, string_bytes, unwrap_or};
ghost use Rattle.bx_terms.specs.Printed.{printed_pid};
ghost use Rattle.bx_svg.specs.Markup.{written};
ghost use Rattle.bx_svg.specs.Shapes.{box, label, line};
ghost use Rattle.bx_chart.specs.Classes.{status_class};
ghost use Rattle.bx_chart.specs.Lanes.{end_row, lane_of, lanes_from, statuses_from};
ghost use Rattle.bx_chart.specs.Points.{begins, named_at, spot};
ghost use Rattle.bx_chart.specs.Words.{short, status_words};

use crate::classes::status_class;
use crate::points::{begins, named_at, spot};
use crate::words::{short, status_text};
use bx_events::{Lane, Story};
use bx_svg::{push_box, push_label, push_line};
use bx_terms::Atoms;
use bx_world::Status;
use std::alloc::{AllocError, Global};

fn pid_text(alloc: Global, pid: usize) -> Result<String, AllocError>
    ensures { IfOk result (λ text. string_bytes text ≡ printed_pid pid) }
{
    format!(in alloc; "<0.{pid}.0>")
}

fn push_lane_line(out: &mut String, rows: usize, pid: usize, lane: Lane) -> Result<(), AllocError>
    ensures { OnOk result (string_bytes out.new ≡ string_bytes out.old ++ written
        (line (codes "lane") (begins lane.born pid 170) (spot pid (unwrap_or lane.ended rows) 170 64))) }
{
    let end = spot(pid, lane.ended.unwrap_or(rows), 170, 64);
    push_line(out, "lane", begins(lane.born, pid, 170), end)
}

fn push_head_box(out: &mut String, pid: usize, lane: Lane) -> Result<(), AllocError>
    ensures { OnOk result (string_bytes out.new
        ≡ string_bytes out.old ++ written (box (codes "head") (begins lane.born pid 136) 68 20)) }
{
    push_box(out, "head", begins(lane.born, pid, 136), 68, 20)
}

fn push_head_label(
    alloc: Global,
    out: &mut String,
    pid: usize,
    lane: Lane,
) -> Result<(), AllocError>
    ensures { OnOk result (string_bytes out.new
        ≡ string_bytes out.old ++ written (label (codes "pid") (named_at lane.born pid) (printed_pid pid))) }
{
    let text = pid_text(alloc, pid)?;
    push_label(alloc, out, "pid", named_at(lane.born, pid), text.as_str())
}

/// Adds a process's line, and its pid in a box above it.
fn push_lane(
    alloc: Global,
    out: &mut String,
    rows: usize,
    pid: usize,
    lane: Lane,
) -> Result<(), AllocError>
    ensures { OnOk result
        (string_bytes out.new ≡ string_bytes out.old ++ written (lane_of rows pid lane)) }
{
    push_lane_line(out, rows, pid, lane)?;
    push_head_box(out, pid, lane)?;
    push_head_label(alloc, out, pid, lane)?;
    Ok(())
}

/// Adds the lines of processes over so many rows.
fn push_lanes_over(
    alloc: Global,
    out: &mut String,
    rows: usize,
    lanes: &[Lane],
) -> Result<(), AllocError>
    ensures { OnOk result
        (string_bytes out.new ≡ string_bytes out.old ++ written (lanes_from rows 0 lanes.now)) }
{
    for pid in 0..lanes.len() {
        push_lane(alloc, out, rows, pid, lanes[pid])?;
    }
    Ok(())
}

/// Adds the lines of a story's processes.
pub(crate) fn push_lanes(alloc: Global, out: &mut String, story: &Story) -> Result<(), AllocError>
    ensures { OnOk result (string_bytes out.new ≡ string_bytes out.old
        ++ written (lanes_from (length story.now.events) 0 story.now.lanes)) }
{
    let rows = story.events.as_slice().len();
    push_lanes_over(alloc, out, rows, story.lanes.as_slice())
}

/// The row in which the line of the process of that pid ends.
fn end_row(rows: usize, lanes: &[Lane], pid: usize) -> usize
    ensures { result ≡ end_row rows lanes.now pid }
{
    match lanes.get(pid) {
        None => rows,
        Some(lane) => lane.ended.unwrap_or(rows),
    }
}

/// Adds how the process of that pid stands, below its line's last row.
fn push_status(
    alloc: Global,
    out: &mut String,
    atoms: &Atoms,
    place: (usize, usize),
    status: &Status,
) -> Result<(), AllocError>
    ensures { OnOk result (string_bytes out.new ≡ string_bytes out.old ++ written
        (label (status_class status.now) (spot place.1 place.0 170 82) (short (status_words atoms.now status.now)))) }
{
    let (row, pid) = place;
    let text = status_text(alloc, atoms, status)?;
    let text = short(alloc, text.as_str())?;
    push_label(
        alloc,
        out,
        status_class(status),
        spot(pid, row, 170, 82),
        text.as_str(),
    )
}

/// Adds how each process stands at the end of a story, below its line.
pub(crate) fn push_statuses(
    alloc: Global,
    out: &mut String,
    atoms: &Atoms,
    story: &Story,
) -> Result<(), AllocError>
    ensures { OnOk result (string_bytes out.new ≡ string_bytes out.old
        ++ written (statuses_from atoms.now (length story.now.events) story.now.lanes 0 story.now.outcome.statuses)) }
{
    let rows = story.events.as_slice().len();
    let lanes = story.lanes.as_slice();
    let statuses = story.outcome.statuses.as_slice();
    for pid in 0..statuses.len() {
        let row = end_row(rows, lanes, pid);
        push_status(alloc, out, atoms, (row, pid), &statuses[pid])?;
    }
    Ok(())
}
