//! What a drawing says: of events, of signals, of processes and of the run.

ghost use Rattle.std.specs.Prelude.{◌≡◌, ◌++◌, IfOk, OnOk, chars, codes, length, option_and_then, option_map, string_bytes, take};
ghost use Rattle.std.proofs.Math.Utf8.{encodes};
ghost use Rattle.bx_terms.specs.Printed.{printed};
ghost use Rattle.bx_world.specs.Texts.{spelling};
ghost use Rattle.bx_engine.specs.Sources.{location_at};
ghost use Rattle.bx_chart.specs.Words.{detail_words, effect_words, event_words, item_at, last_item, location_words, number_words, onward_words, run_words, sentence, short, signal_words, span_words, state_words, status_words, tip_words, title_words, wait_words, what_words};

use bx_dis::item_text;
use bx_engine::Sources;
use bx_events::{Effect, Event, Stands, Story, What};
use bx_load::Image;
use bx_signals::Signal;
use bx_terms::{Atoms, Place, Term, print, push_pid};
use bx_world::{Choice, Standing, Status, choice_text};
use std::alloc::{AllocError, Global};

/// Loaded code, and where its items stand in their sources.
#[derive(Drop)]
pub(crate) struct Code<'a> {
    pub(crate) image: &'a Image,
    pub(crate) sources: &'a Sources,
}

/// A text that is cut where it has over 40 characters.
pub(crate) fn short(alloc: Global, text: &str) -> Result<String, AllocError>
    ensures { IfOk result (λ cut. string_bytes cut ≡ short text.now) }
{
    if length_of(text) <= 40 {
        return String::from_str(alloc, text);
    }
    let mut cut = front(alloc, text)?;
    cut.push_str("..")?;
    Ok(cut)
}

/// How many characters a text has.
#[tactic(auto, using(std::proofs::lemmas::Str::chars_from_encodes))]
fn length_of(text: &str) -> usize
    ensures { result ≡ length (chars text.now) }
{
    text.chars().count()
}

/// The first 40 characters of a text.
fn front(alloc: Global, text: &str) -> Result<String, AllocError>
    ensures { IfOk result (λ front. string_bytes front ≡ encodes (take 40 (chars text.now))) }
{
    text.chars().take(40).collect(alloc)
}

/// Adds a term as reports print it.
fn push_term(alloc: Global, out: &mut String, atoms: &Atoms, term: &Term) -> Result<(), AllocError>
    ensures { OnOk result
        (string_bytes out.new ≡ string_bytes out.old ++ printed atoms.now term.now) }
{
    let text = print(alloc, atoms, term)?;
    out.push_str(text.as_str())
}

/// Adds a word, and a term behind it.
fn push_behind(
    alloc: Global,
    out: &mut String,
    atoms: &Atoms,
    word: &str,
    term: &Term,
) -> Result<(), AllocError>
    ensures { OnOk result (string_bytes out.new
        ≡ string_bytes out.old ++ (word.now ++ printed atoms.now term.now)) }
{
    out.push_str(word)?;
    push_term(alloc, out, atoms, term)
}

/// Adds a message's term, or what another signal is.
pub(crate) fn push_signal(
    alloc: Global,
    out: &mut String,
    atoms: &Atoms,
    signal: &Signal,
) -> Result<(), AllocError>
    ensures { OnOk result
        (string_bytes out.new ≡ string_bytes out.old ++ signal_words atoms.now signal.now) }
{
    match signal {
        Signal::Message(term) => push_term(alloc, out, atoms, term),
        Signal::Link => out.push_str("link"),
        Signal::Unlink => out.push_str("unlink"),
        Signal::LinkExit(reason) => push_behind(alloc, out, atoms, "exit ", reason),
        Signal::Exit(reason) => push_behind(alloc, out, atoms, "exit/2 ", reason),
    }
}

/// What is said where a signal came to nothing.
fn effect_words(effect: Effect) -> &'static str
    ensures { result.now ≡ effect_words effect }
{
    match effect {
        Effect::Dropped => " dropped",
        Effect::Answered => " answered by noproc",
        Effect::Lost => " lost",
        _ => "",
    }
}

/// Adds the name of a file and a line in it.
fn push_location(out: &mut String, file: &str, line: u32) -> Result<(), AllocError>
    ensures { OnOk result
        (string_bytes out.new ≡ string_bytes out.old ++ location_words (file.now, line)) }
{
    out.push_str(file)?;
    write!(out, ":{line}")
}

/// Adds where one goes on, where that is another line.
fn push_onward(out: &mut String, from: (&str, u32), to: (&str, u32)) -> Result<(), AllocError>
    ensures { OnOk result (string_bytes out.new
        ≡ string_bytes out.old ++ onward_words (from.entry.0.now, from.entry.1) (to.entry.0.now, to.entry.1)) }
{
    if from.0 != to.0 {
        out.push_str(" .. ")?;
        return push_location(out, to.0, to.1);
    }
    if from.1 == to.1 {
        return Ok(());
    }
    let line = to.1;
    write!(out, " .. {line}")
}

fn push_span(
    out: &mut String,
    from: Option<(&str, u32)>,
    to: Option<(&str, u32)>,
) -> Result<(), AllocError>
    ensures { OnOk result (string_bytes out.new ≡ string_bytes out.old
        ++ span_words (option_map (λ l. (l.0.now, l.1)) from.entry) (option_map (λ l. (l.0.now, l.1)) to.entry)) }
{
    let Some(from) = from else {
        return Ok(());
    };
    push_location(out, from.0, from.1)?;
    match to {
        None => Ok(()),
        Some(to) => push_onward(out, from, to),
    }
}

fn found<'a>(sources: &'a Sources, place: Option<Place>) -> Option<(&'a str, u32)>
    ensures { option_map (λ l. (l.0.now, l.1)) result ≡ option_and_then (location_at sources.now) place }
{
    match place {
        None => None,
        Some(place) => sources.at(place),
    }
}

fn wait_words(stands: &Stands) -> &'static str
    ensures { result.now ≡ wait_words stands.now }
{
    match stands {
        Stands::Waits => ", waits",
        _ => "",
    }
}

/// Adds from where to where a process ran, and whether it waits there.
fn push_run(out: &mut String, sources: &Sources, event: &Event) -> Result<(), AllocError>
    ensures { OnOk result
        (string_bytes out.new ≡ string_bytes out.old ++ run_words sources.now event.now) }
{
    push_span(out, found(sources, event.from), found(sources, event.to))?;
    out.push_str(wait_words(&event.stands))
}

/// Adds what an event was.
fn push_what(
    alloc: Global,
    out: &mut String,
    code: &Code<'_>,
    event: &Event,
) -> Result<(), AllocError>
    ensures { OnOk result (string_bytes out.new ≡ string_bytes out.old
        ++ what_words code.now.image.now code.now.sources.now event.now event.now.what) }
{
    match &event.what {
        What::Ran => push_run(out, code.sources, event),
        What::Took(_) => {
            out.push_str("takes ")?;
            push_run(out, code.sources, event)
        }
        What::Arrived { signal, effect } => {
            push_signal(alloc, out, code.image.atoms(), &signal.signal)?;
            out.push_str(effect_words(*effect))
        }
        What::Expired => out.push_str("wait over"),
    }
}

/// Adds what an event was, in a line.
fn push_event(
    alloc: Global,
    out: &mut String,
    code: &Code<'_>,
    event: &Event,
) -> Result<(), AllocError>
    ensures { OnOk result (string_bytes out.new ≡ string_bytes out.old
        ++ event_words code.now.image.now code.now.sources.now event.now) }
{
    match &event.stands {
        Stands::Trapped(kind) => {
            out.push_str("trapped ")?;
            out.push_str(kind.name())
        }
        _ => match &event.shown {
            None => push_what(alloc, out, code, event),
            Some(term) => push_term(alloc, out, code.image.atoms(), term),
        },
    }
}

/// What an event was, in a line.
pub(crate) fn event_text(
    alloc: Global,
    code: &Code<'_>,
    event: &Event,
) -> Result<String, AllocError>
    ensures { IfOk result (λ text. string_bytes text
        ≡ event_words code.now.image.now code.now.sources.now event.now) }
{
    let mut out = String::new(alloc);
    push_event(alloc, &mut out, code, event)?;
    Ok(out)
}

/// Adds the item at an address behind a mark, where there is one.
fn push_item_at(
    alloc: Global,
    out: &mut String,
    mark: &str,
    image: &Image,
    place: Option<Place>,
) -> Result<(), AllocError>
    ensures { OnOk result
        (string_bytes out.new ≡ string_bytes out.old ++ item_at mark.now image.now place) }
{
    let Some(place) = place else {
        return Ok(());
    };
    let Some(item) = image.item(place) else {
        return Ok(());
    };
    let text = item_text(alloc, image.atoms(), item)?;
    out.push_str(mark)?;
    out.push_str(text.as_str())
}

/// Adds the last item of a run of several.
fn push_last_item(
    alloc: Global,
    out: &mut String,
    image: &Image,
    event: &Event,
) -> Result<(), AllocError>
    ensures { OnOk result
        (string_bytes out.new ≡ string_bytes out.old ++ last_item image.now event.now) }
{
    if event.first == event.last {
        return Ok(());
    }
    push_item_at(alloc, out, " .. ", image, event.last_from)
}

/// Adds what was run, or the message that was taken.
fn push_detail(
    alloc: Global,
    out: &mut String,
    image: &Image,
    event: &Event,
) -> Result<(), AllocError>
    ensures { OnOk result (string_bytes out.new
        ≡ string_bytes out.old ++ detail_words image.now event.now event.now.what) }
{
    match &event.what {
        What::Ran => {
            push_item_at(alloc, out, ": ", image, event.from)?;
            push_last_item(alloc, out, image, event)
        }
        What::Took(message) => push_behind(alloc, out, image.atoms(), ": ", message),
        _ => Ok(()),
    }
}

/// What shows where one points at an event.
pub(crate) fn tip_text(alloc: Global, code: &Code<'_>, event: &Event) -> Result<String, AllocError>
    ensures { IfOk result (λ text. string_bytes text
        ≡ tip_words code.now.image.now code.now.sources.now event.now) }
{
    let mut out = event_text(alloc, code, event)?;
    push_detail(alloc, &mut out, code.image, event)?;
    Ok(out)
}

/// The numbers of an event's choices.
pub(crate) fn number_text(alloc: Global, first: u64, last: u64) -> Result<String, AllocError>
    ensures { IfOk result (λ text. string_bytes text ≡ number_words first last) }
{
    let mut out = format!(in alloc; "{first}")?;
    if first != last {
        write!(out, "..{last}")?;
    }
    Ok(out)
}

/// How a process stands.
pub(crate) fn status_text(
    alloc: Global,
    atoms: &Atoms,
    status: &Status,
) -> Result<String, AllocError>
    ensures { IfOk result (λ text. string_bytes text ≡ status_words atoms.now status.now) }
{
    let mut out = String::new(alloc);
    match status {
        Status::Ready => out.push_str("ready")?,
        Status::Waiting => out.push_str("waiting")?,
        Status::Ended(reason) => push_behind(alloc, &mut out, atoms, "ended ", reason)?,
    }
    Ok(out)
}

/// Adds the choice that was refused, behind a word.
fn push_stopped(alloc: Global, out: &mut String, choice: Choice) -> Result<(), AllocError>
    ensures { OnOk result
        (string_bytes out.new ≡ string_bytes out.old ++ (codes "stopped " ++ spelling choice)) }
{
    let Ok(text) = choice_text(alloc, choice) else {
        return Err(AllocError);
    };
    out.push_str("stopped ")?;
    out.push_str(text.as_str())
}

/// Adds where a run led.
pub(crate) fn push_state(
    alloc: Global,
    out: &mut String,
    refused: Option<Choice>,
    state: &Standing,
) -> Result<(), AllocError>
    ensures { OnOk result
        (string_bytes out.new ≡ string_bytes out.old ++ state_words refused state.now) }
{
    if let Some(choice) = refused {
        return push_stopped(alloc, out, choice);
    }
    match state {
        Standing::Trapped(kind, pid) => {
            out.push_str("trapped ")?;
            out.push_str(kind.name())?;
            out.push_str(" ")?;
            push_pid(alloc, out, *pid)
        }
        Standing::Quiet => out.push_str("quiet"),
        Standing::Open(_) => out.push_str("open"),
    }
}

/// Which schedule it is.
pub(crate) fn title_text(alloc: Global, name: &str) -> Result<String, AllocError>
    ensures { IfOk result (λ text. string_bytes text ≡ title_words name.now) }
{
    let mut out = String::from_str(alloc, "Schedule ")?;
    out.push_str(name)?;
    Ok(out)
}

/// Which schedule it is, how many of its choices were applied, and where they led.
pub(crate) fn sentence(alloc: Global, name: &str, story: &Story) -> Result<String, AllocError>
    ensures { IfOk result (λ text. string_bytes text ≡ sentence name.now story.now) }
{
    let applied = story.applied;
    let mut out = title_text(alloc, name)?;
    write!(out, ": {applied} choices, state ")?;
    push_state(alloc, &mut out, story.refused, &story.outcome.state)?;
    Ok(out)
}
