//! A row for each event.

ghost use Rattle.std.specs.Prelude.{◌≡◌, ◌++◌, OnOk, codes, string_bytes};
ghost use Rattle.bx_svg.specs.Markup.{written, ◌⨾◌};
ghost use Rattle.bx_svg.specs.Shapes.{dot, group, label, tip};
ghost use Rattle.bx_chart.specs.Classes.{event_class};
ghost use Rattle.bx_chart.specs.Points.{beside, on, spot};
ghost use Rattle.bx_chart.specs.Rows.{mark, put_mark, row_of, rows_from};
ghost use Rattle.bx_chart.specs.Words.{event_words, number_words, short, tip_words};

use crate::classes::event_class;
use crate::points::{beside, on, spot};
use crate::words::{Code, event_text, number_text, short, tip_text};
use bx_events::{Event, Put, What};
use bx_svg::{close_group, open_group, push_box, push_dot, push_label, push_tip};
use std::alloc::{AllocError, Global};

/// Adds a disk on the line of a process.
fn push_disk(out: &mut String, class: &str, row: usize, pid: u32) -> Result<(), AllocError>
    ensures { OnOk result
        (string_bytes out.new ≡ string_bytes out.old ++ written (dot class.now (on pid row) 5)) }
{
    push_dot(out, class, on(pid, row), 5)
}

/// Adds the mark of an event on the line of its process.
fn push_mark(out: &mut String, row: usize, pid: u32, what: &What) -> Result<(), AllocError>
    ensures { OnOk result
        (string_bytes out.new ≡ string_bytes out.old ++ written (mark row pid what.now)) }
{
    match what {
        What::Arrived { .. } => Ok(()),
        What::Expired => push_disk(out, "over", row, pid),
        _ => push_box(out, "bar", spot(pid as usize, row, 164, 57), 12, 14),
    }
}

/// Adds the mark of an event that sent.
fn push_put_mark(out: &mut String, row: usize, pid: u32, puts: &[Put]) -> Result<(), AllocError>
    ensures { OnOk result
        (string_bytes out.new ≡ string_bytes out.old ++ written (put_mark row pid puts.now)) }
{
    if puts.is_empty() {
        return Ok(());
    }
    push_disk(out, "put", row, pid)
}

fn push_marks(out: &mut String, row: usize, event: &Event) -> Result<(), AllocError>
    ensures { OnOk result (string_bytes out.new ≡ string_bytes out.old ++ written
        (mark row event.now.actor event.now.what ⨾ put_mark row event.now.actor event.now.puts)) }
{
    push_mark(out, row, event.actor, &event.what)?;
    push_put_mark(out, row, event.actor, event.puts.as_slice())
}

/// Adds what an event was, beside the line of its process.
fn push_what(
    alloc: Global,
    out: &mut String,
    code: &Code<'_>,
    row: usize,
    event: &Event,
) -> Result<(), AllocError>
    ensures { OnOk result (string_bytes out.new ≡ string_bytes out.old ++ written (label (event_class event.now)
        (beside event.now.actor row) (short (event_words code.now.image.now code.now.sources.now event.now)))) }
{
    let text = event_text(alloc, code, event)?;
    let text = short(alloc, text.as_str())?;
    push_label(
        alloc,
        out,
        event_class(event),
        beside(event.actor, row),
        text.as_str(),
    )
}

/// Adds the numbers of an event's choices.
fn push_number(alloc: Global, out: &mut String, row: usize, event: &Event) -> Result<(), AllocError>
    ensures { OnOk result (string_bytes out.new ≡ string_bytes out.old
        ++ written (label (codes "number") (spot 0 row 120 68) (number_words event.now.first event.now.last))) }
{
    let text = number_text(alloc, event.first, event.last)?;
    push_label(alloc, out, "number", spot(0, row, 120, 68), text.as_str())
}

fn push_event_tip(
    alloc: Global,
    out: &mut String,
    code: &Code<'_>,
    event: &Event,
) -> Result<(), AllocError>
    ensures { OnOk result (string_bytes out.new ≡ string_bytes out.old
        ++ written (tip (tip_words code.now.image.now code.now.sources.now event.now))) }
{
    let text = tip_text(alloc, code, event)?;
    push_tip(alloc, out, text.as_str())
}

/// Adds what stands in an event's row.
fn push_inside(
    alloc: Global,
    out: &mut String,
    code: &Code<'_>,
    row: usize,
    event: &Event,
) -> Result<(), AllocError>
    ensures { OnOk result (string_bytes out.new ≡ string_bytes out.old
        ++ written (row_of code.now.image.now code.now.sources.now row event.now)) }
{
    push_event_tip(alloc, out, code, event)?;
    push_marks(out, row, event)?;
    push_number(alloc, out, row, event)?;
    push_what(alloc, out, code, row, event)?;
    Ok(())
}

/// Adds an event's row.
fn push_row(
    alloc: Global,
    out: &mut String,
    code: &Code<'_>,
    row: usize,
    event: &Event,
) -> Result<(), AllocError>
    ensures { OnOk result (string_bytes out.new ≡ string_bytes out.old
        ++ written (group (codes "row") (row_of code.now.image.now code.now.sources.now row event.now))) }
{
    open_group(out, "row")?;
    push_inside(alloc, out, code, row, event)?;
    close_group(out)?;
    Ok(())
}

/// Adds the rows of events.
pub(crate) fn push_rows(
    alloc: Global,
    out: &mut String,
    code: &Code<'_>,
    events: &[Event],
) -> Result<(), AllocError>
    ensures { OnOk result (string_bytes out.new ≡ string_bytes out.old
        ++ written (rows_from code.now.image.now code.now.sources.now 0 events.now)) }
{
    for row in 0..events.len() {
        push_row(alloc, out, code, row, &events[row])?;
    }
    Ok(())
}
