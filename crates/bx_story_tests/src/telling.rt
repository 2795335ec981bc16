//! Stories as texts: a line for each event, for each process and for each signal that waits, and the lines of the outcome.

use bx_events::{Effect, Event, Lane, Put, Sent, Stands, Story, What};
use bx_signals::Signal;
use bx_terms::{Atoms, Fault, Place, Term, print};
use bx_world::outcome_text;
use std::alloc::{AllocError, Global};

fn push_term(
    alloc: Global,
    out: &mut String,
    atoms: &Atoms,
    term: &Term,
) -> Result<(), AllocError> {
    let text = print(alloc, atoms, term)?;
    out.push_str(text.as_str())
}

fn push_signal(
    alloc: Global,
    out: &mut String,
    atoms: &Atoms,
    signal: &Signal,
) -> Result<(), AllocError> {
    match signal {
        Signal::Message(term) => push_term(alloc, out, atoms, term),
        Signal::Link => out.push_str("link"),
        Signal::Unlink => out.push_str("unlink"),
        Signal::LinkExit(reason) => {
            out.push_str("exit ")?;
            push_term(alloc, out, atoms, reason)
        }
        Signal::Exit(reason) => {
            out.push_str("exit/2 ")?;
            push_term(alloc, out, atoms, reason)
        }
    }
}

fn push_place(out: &mut String, place: Option<Place>) -> Result<(), AllocError> {
    match place {
        Some(place) => write!(out, "{}", place.item),
        None => out.push_str("-"),
    }
}

fn push_sent(
    alloc: Global,
    out: &mut String,
    atoms: &Atoms,
    sent: &Sent,
) -> Result<(), AllocError> {
    write!(
        out,
        "{}>{} {} of event {}: ",
        sent.from, sent.to, sent.number, sent.event
    )?;
    push_signal(alloc, out, atoms, &sent.signal)
}

fn push_waiting(
    alloc: Global,
    out: &mut String,
    atoms: &Atoms,
    sent: &Sent,
) -> Result<(), AllocError> {
    out.push_str("waits ")?;
    push_sent(alloc, out, atoms, sent)?;
    out.push_str("\n")
}

fn effect_word(effect: Effect) -> &'static str {
    match effect {
        Effect::Added => "added",
        Effect::Told => "told",
        Effect::Linked => "linked",
        Effect::Unlinked => "unlinked",
        Effect::Dropped => "dropped",
        Effect::Ends => "ends",
        Effect::Answered => "answered",
        Effect::Lost => "lost",
        Effect::Traps => "traps",
    }
}

fn push_what(
    alloc: Global,
    out: &mut String,
    atoms: &Atoms,
    what: &What,
) -> Result<(), AllocError> {
    match what {
        What::Ran => out.push_str("ran"),
        What::Took(message) => {
            out.push_str("took ")?;
            push_term(alloc, out, atoms, message)
        }
        What::Arrived { signal, effect } => {
            out.push_str("heard ")?;
            push_sent(alloc, out, atoms, signal)?;
            write!(out, " ({})", effect_word(*effect))
        }
        What::Expired => out.push_str("expired"),
    }
}

fn push_puts(
    alloc: Global,
    out: &mut String,
    atoms: &Atoms,
    puts: &[Put],
) -> Result<(), AllocError> {
    for put in puts {
        write!(out, ", put {} to {}: ", put.number, put.to)?;
        push_signal(alloc, out, atoms, &put.signal)?;
    }
    Ok(())
}

fn push_stands(
    alloc: Global,
    out: &mut String,
    atoms: &Atoms,
    stands: &Stands,
) -> Result<(), AllocError> {
    match stands {
        Stands::Goes => Ok(()),
        Stands::Waits => out.push_str(", waits"),
        Stands::Ended(reason) => {
            out.push_str(", ended ")?;
            push_term(alloc, out, atoms, reason)
        }
        Stands::Trapped(kind) => write!(out, ", trapped {}", kind.name()),
        Stands::Absent => out.push_str(", absent"),
    }
}

fn push_event(
    alloc: Global,
    out: &mut String,
    atoms: &Atoms,
    event: &Event,
) -> Result<(), AllocError> {
    write!(out, "{}..{} <{}> ", event.first, event.last, event.actor)?;
    push_place(out, event.from)?;
    out.push_str("..")?;
    push_place(out, event.to)?;
    out.push_str(" ")?;
    push_what(alloc, out, atoms, &event.what)?;
    push_puts(alloc, out, atoms, event.puts.as_slice())?;
    if let Some(child) = event.child {
        write!(out, ", child {child}")?;
    }
    if let Some(term) = &event.shown {
        out.push_str(", shown ")?;
        push_term(alloc, out, atoms, term)?;
    }
    push_stands(alloc, out, atoms, &event.stands)?;
    out.push_str("\n")
}

fn push_number(out: &mut String, number: Option<usize>) -> Result<(), AllocError> {
    match number {
        Some(number) => write!(out, "{number}"),
        None => out.push_str("-"),
    }
}

fn push_lane(out: &mut String, lane: Lane) -> Result<(), AllocError> {
    out.push_str("lane ")?;
    push_number(out, lane.born)?;
    out.push_str("..")?;
    push_number(out, lane.ended)?;
    out.push_str("\n")
}

/// The events, the lives of the processes, and the signals that wait.
fn push_story(
    alloc: Global,
    out: &mut String,
    atoms: &Atoms,
    story: &Story,
) -> Result<(), AllocError> {
    for event in story.events.as_slice() {
        push_event(alloc, out, atoms, event)?;
    }
    for lane in story.lanes.as_slice() {
        push_lane(out, *lane)?;
    }
    for sent in story.waiting.as_slice() {
        push_waiting(alloc, out, atoms, sent)?;
    }
    Ok(())
}

/// The text of a story.
pub fn story_text(alloc: Global, atoms: &Atoms, story: &Story) -> Result<String, Fault> {
    let mut out = String::new(alloc);
    push_story(alloc, &mut out, atoms, story)?;
    let outcome = outcome_text(alloc, atoms, story.applied, story.refused, &story.outcome)?;
    out.push_str(outcome.as_str())?;
    Ok(out)
}
