//! A run that is told choice by choice.

ghost use Rattle.std.specs.Prelude.{◌≡◌, ◌+◌, ◌<◌, ◌≤◌, ◌^◌, [], List, IfOk, OnOk, length, false, replicate};
ghost use Rattle.bx_world.specs.Enabled.{can};
ghost use Rattle.bx_world.specs.Running.{advanced, unchosen};
ghost use Rattle.std.specs.Prelude.{slice_get, true};
ghost use Rattle.bx_events.specs.declared.events.Event.{Event as Told};
ghost use Rattle.bx_events.specs.Answers.{telling, Stands as Keeping, Tells};
ghost use Rattle.bx_events.specs.Ledgers.{Keeps};
ghost use Rattle.bx_events.specs.Telling.{added, all_told, alone, joins_last, last_of, with_joined, child_of, is_over, is_plain, joins, one_told, puts_of, shown_of, told_by, untold, what_of};

use crate::actors::{Before, Met, effect_of, is_less, mail_of, run_was, stands_in};
use crate::events::{Event, Put, Stands, What};
use crate::ledgers::Ledger;
use bx_load::Image;
use bx_plan::{Part, Run};
use bx_proc::Proc;
use bx_share::{List, RcHold};
use bx_terms::{Fault, Term};
use bx_world::{Choice, Lanes, RcWorld, RunEnd, advance};
use std::alloc::{AllocError, Global};

/// How many events a story may have.
const MOST: usize = 20_000;

/// Where choices have led in a world that stays in one thread.
type RcEnd = RunEnd<RcHold<Proc>, RcHold<Lanes>>;

/// Where a run in a world that stays in one thread has come, and its events.
#[derive(Drop)]
pub(crate) struct Teller {
    pub(crate) end: RcEnd,
    pub(crate) events: Vec<Event>,
    pub(crate) ledger: Ledger,
}

impl Teller {
    /// Nothing was chosen yet.
    pub(crate) fn new(alloc: Global, world: RcWorld) -> Teller
        ensures told { telling result ≡ untold (unchosen world) }
        ensures keeps { Keeping result }
    {
        Teller {
            end: RunEnd {
                world,
                applied: 0,
                refused: None,
            },
            events: Vec::new(alloc),
            ledger: Ledger::new(alloc),
        }
    }

    /// Whether nothing happens any more.
    fn is_over(&self) -> bool
        ensures { result ≡ is_over self.now.end }
    {
        self.end.refused.is_some() || self.end.world.trap().is_some()
    }

    /// Makes these choices in order, and tells what they brought about.
    pub(crate) fn tell_all(
        &mut self,
        alloc: Global,
        image: &Image,
        part: Part<'_>,
    ) -> Result<(), Fault>
        requires few { self.old.end.applied + length part < 2 ^ 64 }
        requires keeps { Keeping self.old }
        ensures { Tells (all_told image.now part.entry (telling self.old)) self.new result }
    {
        let mut left = part;
        while let Some(run) = left.next_run() {
            self.tell_run(alloc, image, run)?;
        }
        Ok(())
    }

    /// Makes a choice so many times in a row, and tells what that brought about.
    fn tell_run(&mut self, alloc: Global, image: &Image, run: Run) -> Result<(), Fault>
        requires few { self.old.end.applied + run.times < 2 ^ 64 }
        requires keeps { Keeping self.old }
        ensures { Tells (all_told image.now (replicate run.times run.choice) (telling self.old)) self.new result }
    {
        for _turn in 0..run.times {
            if self.is_over() {
                return Ok(());
            }
            self.tell(alloc, image, run.choice)?;
        }
        Ok(())
    }

    /// Makes a choice where nothing has ended the run, and tells what it brought about.
    fn tell(&mut self, alloc: Global, image: &Image, choice: Choice) -> Result<(), Fault>
        requires few { self.old.end.applied + 1 < 2 ^ 64 }
        requires keeps { Keeping self.old }
        requires going { is_over self.old.end ≡ false }
        ensures { Tells (one_told image.now choice (telling self.old)) self.new result }
    {
        if !self.end.world.can(choice) {
            self.end.refused = Some(choice);
            return Ok(());
        }
        let made = alone(alloc, image, &self.end.world, choice)?;
        let before = Before::of(&self.end.world, choice)?;
        make(alloc, &mut self.end, image, choice)?;
        let event = self.told(alloc, choice, before, &made)?;
        self.add(event)
    }

    /// The event of a choice that was made, by what was known before, and what it did by itself.
    fn told(
        &self,
        alloc: Global,
        choice: Choice,
        before: Before,
        made: &RcWorld,
    ) -> Result<Event, AllocError>
        requires keeps { Keeps self.now.events.items self.now.ledger }
        requires few { before.count ≤ 1024 }
        ensures { IfOk result (λ event. event ≡ told_by self.now.end.applied choice self.now.events.items made.now before self.now.end.world) }
    {
        let world = &self.end.world;
        let actor = choice.actor();
        let stands = stands_in(world, actor)?;
        let place = before.place;
        let count = before.count;
        let what = self.what_of(actor, before, mail_of(world, actor), &stands)?;
        Ok(Event {
            first: self.end.applied,
            last: self.end.applied,
            actor,
            from: place,
            last_from: place,
            to: world.place(actor),
            what,
            puts: self.puts_of(alloc, made)?,
            child: child_of(count, world.len()),
            shown: shown_of(alloc, made)?,
            stands,
        })
    }

    /// What happened at a process, by how many messages it has behind it, and how it stands.
    fn what_of(
        &self,
        actor: u32,
        before: Before,
        mail: Option<usize>,
        stands: &Stands,
    ) -> Result<What, AllocError>
        requires { Keeps self.now.events.items self.now.ledger }
        ensures { IfOk result (λ what. what ≡ what_of actor self.now.events.items before.met before mail stands.now) }
    {
        let Before {
            stands: stood,
            mail: had,
            met,
            ..
        } = before;
        match met {
            Met::Runs(next) => Ok(run_was(is_less(mail, had), next)),
            Met::Hears(from, signal) => {
                let effect = effect_of(&stood, &signal, is_less(had, mail), stands);
                let signal = self.ledger.next_sent((from, actor), signal)?;
                Ok(What::Arrived { signal, effect })
            }
            Met::Expires => Ok(What::Expired),
        }
    }

    /// What a choice put, which was made where nothing else was on its way.
    fn puts_of(&self, alloc: Global, made: &RcWorld) -> Result<List<Put>, AllocError>
        requires { Keeps self.now.events.items self.now.ledger }
        ensures { IfOk result (λ puts. puts ≡ puts_of made.now self.now.events.items) }
    {
        if made.trap().is_some() {
            return Ok(List::new(alloc));
        }
        let puts = self.ledger.puts_in(alloc, made.channels())?;
        Ok(List::of(puts))
    }

    /// Puts an event behind the others, or joins it with the last.
    fn add(&mut self, event: Event) -> Result<(), Fault>
        requires { Keeping self.old }
        ensures { Tells (record { end = self.old.end; events = added event self.old.events.items }) self.new result }
    {
        if joins_last(&self.events, &event) {
            join_last(&mut self.events, event);
            return Ok(());
        }
        let count = self.events.len();
        if count == MOST {
            return Err(Fault::TooLarge);
        }
        self.ledger.note(&event, count)?;
        self.events.push(event)?;
        Ok(())
    }
}

/// Makes a choice more.
fn make(alloc: Global, end: &mut RcEnd, image: &Image, choice: Choice) -> Result<(), AllocError>
    requires { end.old.applied + 1 < 2 ^ 64 }
    ensures { OnOk result (end.new ≡ advanced image.now choice end.old) }
{
    match advance(alloc, end, image, choice) {
        Ok(()) => Ok(()),
        Err(_) => Err(AllocError),
    }
}

/// What a choice that is enabled does, where nothing else is on its way.
fn alone(
    alloc: Global,
    image: &Image,
    world: &RcWorld,
    choice: Choice,
) -> Result<RcWorld, AllocError>
    requires { can world.now choice ≡ true }
    ensures { IfOk result (λ made. made ≡ alone image.now choice world.now) }
{
    match world.change(alloc, image, choice) {
        Ok(made) => Ok(made),
        Err(_) => Err(AllocError),
    }
}

/// Whether an event goes on what the last one was.
fn joins_last(events: &[Event], event: &Event) -> bool
    ensures { result ≡ joins_last (last_of events.now) event.now }
{
    let count = events.len();
    if count == 0 {
        return false;
    }
    joins(&events[count - 1], event)
}

/// The last event goes on by runs that concern nobody else.
fn join_last(events: &mut Vec<Event>, event: Event)
    ensures { events.new.items ≡ with_joined (last_of events.old.items) event events.old.items }
{
    let count = events.len();
    if count == 0 {
        return;
    }
    let last = &mut events[count - 1];
    last.last = event.last;
    last.last_from = event.last_from;
    last.to = event.to;
    last.stands = event.stands;
}

/// What a choice displayed, which was made where nothing had been displayed.
fn shown_of(alloc: Global, made: &RcWorld) -> Result<Option<Term>, AllocError>
    ensures { IfOk result (λ shown. shown ≡ shown_of made.now) }
{
    let Ok(outcome) = made.outcome(alloc) else {
        return Err(AllocError);
    };
    match outcome.output.as_slice().first() {
        Some(row) => Ok(Some(row.1.clone()?)),
        None => Ok(None),
    }
}

/// The process that stands behind so many others, where there are more now.
fn child_of(before: usize, behind: usize) -> Option<u32>
    requires { before ≤ 1024 }
    ensures { result ≡ child_of before behind }
{
    if before < behind {
        return Some(before as u32);
    }
    None
}

/// Whether an event is of the same process as the last one, and both are runs that concern nobody else.
fn joins(last: &Event, event: &Event) -> bool
    ensures { result ≡ joins last.now event.now }
{
    last.actor == event.actor && is_plain(last) && is_plain(event)
}

/// Whether an event is of runs that concern nobody else.
fn is_plain(event: &Event) -> bool
    ensures { result ≡ is_plain event.now }
{
    matches!(event.what, What::Ran)
        && event.puts.as_slice().is_empty()
        && event.child.is_none()
        && event.shown.is_none()
        && matches!(event.stands, Stands::Goes | Stands::Waits)
}
