//! The process that a choice concerns, before and behind the choice.

ghost use Rattle.std.specs.Prelude.{◌≡◌, ◌≤◌, slice_get, IfOk};
ghost use Rattle.bx_events.specs.Actors.{before_of, effect_of, exit_effect, is_less, late_effect, live_effect, mail_of, met_by, next_of, run_was, stands_as, stands_by, stands_in};

use crate::events::{Effect, Stands, What};
use bx_proc::Status;
use bx_signals::Signal;
use bx_terms::{Place, Term};
use bx_world::{Choice, RcWorld, Shown};
use std::alloc::AllocError;

/// What a choice meets at its process.
#[derive(Debug, Drop)]
pub(crate) enum Met {
    /// It runs, and would take this message next.
    Runs(Option<Term>),
    /// It hears this signal from the process of that pid.
    Hears(u32, Signal),
    /// Its wait is over.
    Expires,
}

/// What is known before a choice is made.
#[derive(Debug, Drop)]
pub(crate) struct Before {
    /// Where the process of the choice stands.
    pub(crate) place: Option<Place>,
    pub(crate) stands: Stands,
    /// How many messages it has, where it lives.
    pub(crate) mail: Option<usize>,
    pub(crate) met: Met,
    /// How many processes there are.
    pub(crate) count: usize,
}

impl Before {
    pub(crate) fn of(world: &RcWorld, choice: Choice) -> Result<Before, AllocError>
        ensures is { IfOk result (λ before. before ≡ before_of choice world.now) }
        ensures few { IfOk result (λ before. before.count ≤ 1024) }
    {
        let actor = choice.actor();
        Ok(Before {
            place: world.place(actor),
            stands: stands_in(world, actor)?,
            mail: mail_of(world, actor),
            met: met_by(world, choice)?,
            count: world.len(),
        })
    }
}

/// What a choice meets in a world.
fn met_by(world: &RcWorld, choice: Choice) -> Result<Met, AllocError>
    ensures { IfOk result (λ met. met ≡ met_by choice world.now) }
{
    match choice {
        Choice::Run(pid) => Ok(Met::Runs(next_of(world, pid)?)),
        Choice::Deliver(from, to) => match world.channels().first(from, to) {
            Some(signal) => Ok(Met::Hears(from, signal.clone()?)),
            None => Ok(Met::Expires),
        },
        Choice::Expire(_) => Ok(Met::Expires),
    }
}

/// The message that the process of that pid would take next.
fn next_of(world: &RcWorld, pid: u32) -> Result<Option<Term>, AllocError>
    ensures { IfOk result (λ next. next ≡ next_of (slice_get world.now.processes pid)) }
{
    let Some(Shown::Live(process)) = world.process(pid) else {
        return Ok(None);
    };
    match process.messages().current() {
        Some(message) => Ok(Some(message.clone()?)),
        None => Ok(None),
    }
}

/// How many messages the process of that pid has, where it lives.
pub(crate) fn mail_of(world: &RcWorld, pid: u32) -> Option<usize>
    ensures { result ≡ mail_of (slice_get world.now.processes pid) }
{
    match world.process(pid)? {
        Shown::Live(process) => Some(process.messages().len()),
        Shown::Exited(_) => None,
    }
}

/// How the process of that pid stands.
pub(crate) fn stands_in(world: &RcWorld, pid: u32) -> Result<Stands, AllocError>
    ensures { IfOk result (λ stands. stands ≡ stands_in pid world.now) }
{
    if let Some((kind, _)) = world.trap() {
        return Ok(Stands::Trapped(kind));
    }
    match world.process(pid) {
        Some(Shown::Live(process)) => stands_by(process.status()),
        Some(Shown::Exited(reason)) => Ok(Stands::Ended(reason.clone()?)),
        None => Ok(Stands::Absent),
    }
}

fn stands_by(status: &Status) -> Result<Stands, AllocError>
    ensures { IfOk result (λ stands. stands ≡ stands_by status.now) }
{
    match status {
        Status::Ready => Ok(Stands::Goes),
        Status::Waiting => Ok(Stands::Waits),
        Status::Ended(reason) => Ok(Stands::Ended(reason.clone()?)),
    }
}

/// Whether both are counts, and the first is the smaller one.
pub(crate) fn is_less(one: Option<usize>, other: Option<usize>) -> bool
    ensures { result ≡ is_less one other }
{
    match (one, other) {
        (Some(one), Some(other)) => one < other,
        _ => false,
    }
}

/// What a run was: one that leaves fewer messages has taken the next one.
pub(crate) fn run_was(took: bool, next: Option<Term>) -> What
    ensures { result ≡ run_was took next }
{
    match next {
        Some(message) if took => What::Took(message),
        _ => What::Ran,
    }
}

/// What a signal did, by how its receiver stood before and stands behind, and by whether that has more messages.
pub(crate) fn effect_of(before: &Stands, signal: &Signal, more: bool, behind: &Stands) -> Effect
    ensures { result ≡ effect_of before.now signal.now more behind.now }
{
    if matches!(behind, Stands::Trapped(_)) {
        return Effect::Traps;
    }
    match before {
        Stands::Ended(_) => late_effect(signal),
        Stands::Absent => Effect::Lost,
        _ => live_effect(signal, more, behind),
    }
}

/// What it did at a process that lived.
fn live_effect(signal: &Signal, more: bool, behind: &Stands) -> Effect
    ensures { result ≡ live_effect signal.now more behind.now }
{
    match signal {
        Signal::Message(_) => Effect::Added,
        Signal::Link => Effect::Linked,
        Signal::Unlink => Effect::Unlinked,
        Signal::LinkExit(_) | Signal::Exit(_) => exit_effect(more, behind),
    }
}

fn exit_effect(more: bool, behind: &Stands) -> Effect
    ensures { result ≡ exit_effect more behind.now }
{
    match behind {
        Stands::Ended(_) => Effect::Ends,
        _ if more => Effect::Told,
        _ => Effect::Dropped,
    }
}

/// What it did where its receiver had ended.
fn late_effect(signal: &Signal) -> Effect
    ensures { result ≡ late_effect signal.now }
{
    match signal {
        Signal::Link => Effect::Answered,
        _ => Effect::Lost,
    }
}
