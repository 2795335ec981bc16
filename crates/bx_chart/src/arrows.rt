//! Arrows: of signals, and of spawns.

ghost use Rattle.std.specs.Prelude.{◌≡◌, ◌++◌, IfOk, OnOk, codes, length, string_bytes};
ghost use Rattle.bx_svg.specs.Markup.{written};
ghost use Rattle.bx_svg.specs.Shapes.{label, line};
ghost use Rattle.bx_chart.specs.Arrows.{arrival_arrow, arrows_from, spawn_arrow, waiting_arrows, waiting_labels};
ghost use Rattle.bx_chart.specs.Classes.{waiting_class};
ghost use Rattle.bx_chart.specs.Points.{arrow_end, beside, on, spot};
ghost use Rattle.bx_chart.specs.Words.{short, signal_words};

use crate::classes::{arrow_class, waiting_class};
use crate::points::{arrow_end, beside, on, row_behind, spot};
use crate::words::{push_signal, short};
use bx_events::{Sent, Story, What};
use bx_signals::Signal;
use bx_svg::{push_label, push_line};
use bx_terms::Atoms;
use std::alloc::{AllocError, Global};

/// Adds the arrow of a signal that arrived in that row.
fn push_arrival(out: &mut String, row: usize, what: &What) -> Result<(), AllocError>
    ensures { OnOk result
        (string_bytes out.new ≡ string_bytes out.old ++ written (arrival_arrow row what.now)) }
{
    match what {
        What::Arrived { signal, .. } => push_line(
            out,
            arrow_class(&signal.signal),
            on(signal.from, signal.event),
            arrow_end(signal.from, signal.to, row),
        ),
        _ => Ok(()),
    }
}

fn push_spawn_line(out: &mut String, row: usize, pid: u32, child: u32) -> Result<(), AllocError>
    ensures { OnOk result (string_bytes out.new
        ≡ string_bytes out.old ++ written (line (codes "spawn") (on pid row) (spot child row 135 60))) }
{
    push_line(
        out,
        "spawn",
        on(pid, row),
        spot(child as usize, row, 135, 60),
    )
}

/// Adds the arrow of a spawn.
fn push_spawn(out: &mut String, row: usize, pid: u32, child: Option<u32>) -> Result<(), AllocError>
    ensures { OnOk result
        (string_bytes out.new ≡ string_bytes out.old ++ written (spawn_arrow row pid child)) }
{
    match child {
        None => Ok(()),
        Some(child) => push_spawn_line(out, row, pid, child),
    }
}

/// Adds the arrows of a story's events.
pub(crate) fn push_arrows(out: &mut String, story: &Story) -> Result<(), AllocError>
    ensures { OnOk result
        (string_bytes out.new ≡ string_bytes out.old ++ written (arrows_from 0 story.now.events)) }
{
    let events = story.events.as_slice();
    for row in 0..events.len() {
        let event = &events[row];
        push_arrival(out, row, &event.what)?;
        push_spawn(out, row, event.actor, event.child)?;
    }
    Ok(())
}

fn push_waiting_arrow(out: &mut String, row: usize, sent: &Sent) -> Result<(), AllocError>
    ensures { OnOk result (string_bytes out.new ≡ string_bytes out.old ++ written
        (line (waiting_class sent.now.signal) (on sent.now.from sent.now.event) (arrow_end sent.now.from sent.now.to row))) }
{
    push_line(
        out,
        waiting_class(&sent.signal),
        on(sent.from, sent.event),
        arrow_end(sent.from, sent.to, row),
    )
}

/// Adds the arrows of the signals that wait at a story's end.
pub(crate) fn push_waiting_arrows(out: &mut String, story: &Story) -> Result<(), AllocError>
    ensures { OnOk result (string_bytes out.new ≡ string_bytes out.old
        ++ written (waiting_arrows (length story.now.events) 0 story.now.waiting)) }
{
    let rows = story.events.as_slice().len();
    let waiting = story.waiting.as_slice();
    for before in 0..waiting.len() {
        let row = row_behind(rows, before);
        push_waiting_arrow(out, row, &waiting[before])?;
    }
    Ok(())
}

fn signal_text(alloc: Global, atoms: &Atoms, signal: &Signal) -> Result<String, AllocError>
    ensures { IfOk result (λ text. string_bytes text ≡ signal_words atoms.now signal.now) }
{
    let mut out = String::new(alloc);
    push_signal(alloc, &mut out, atoms, signal)?;
    Ok(out)
}

fn push_waiting_label(
    alloc: Global,
    out: &mut String,
    atoms: &Atoms,
    row: usize,
    sent: &Sent,
) -> Result<(), AllocError>
    ensures { OnOk result (string_bytes out.new ≡ string_bytes out.old
        ++ written (label (codes "left") (beside sent.now.to row) (short (signal_words atoms.now sent.now.signal)))) }
{
    let text = signal_text(alloc, atoms, &sent.signal)?;
    let text = short(alloc, text.as_str())?;
    push_label(alloc, out, "left", beside(sent.to, row), text.as_str())
}

/// Adds what each signal that waits is, behind so many rows.
fn push_labels_behind(
    alloc: Global,
    out: &mut String,
    atoms: &Atoms,
    rows: usize,
    waiting: &[Sent],
) -> Result<(), AllocError>
    ensures { OnOk result (string_bytes out.new
        ≡ string_bytes out.old ++ written (waiting_labels atoms.now rows 0 waiting.now)) }
{
    for before in 0..waiting.len() {
        let row = row_behind(rows, before);
        push_waiting_label(alloc, out, atoms, row, &waiting[before])?;
    }
    Ok(())
}

/// Adds what each signal is that waits at a story's end.
pub(crate) fn push_waiting_labels(
    alloc: Global,
    out: &mut String,
    atoms: &Atoms,
    story: &Story,
) -> Result<(), AllocError>
    ensures { OnOk result (string_bytes out.new ≡ string_bytes out.old
        ++ written (waiting_labels atoms.now (length story.now.events) 0 story.now.waiting)) }
{
    let rows = story.events.as_slice().len();
    push_labels_behind(alloc, out, atoms, rows, story.waiting.as_slice())
}
