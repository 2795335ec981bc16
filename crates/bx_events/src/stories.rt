//! Stories: the events of a run, from its start to where it stopped.

ghost use Rattle.std.specs.Prelude.{◌≡◌, IfOk, IsSome};
ghost use Rattle.bx_terms.specs.Outcomes.{Gives};
ghost use Rattle.bx_load.specs.Image.{export};
ghost use Rattle.bx_events.specs.Answers.{telling, Stands as Keeping};
ghost use Rattle.bx_events.specs.Stories.{story, story_at, story_from};

use crate::events::{Event, Lane, Sent};
use crate::lanes::lanes_of;
use crate::tellers::Teller;
use bx_load::Image;
use bx_plan::Schedule;
use bx_share::List;
use bx_terms::{AtomId, Fault};
use bx_world::{Choice, Outcome, RcWorld};
use std::alloc::{AllocError, Global};

/// What a run of one schedule brought about, and where it led.
#[derive(Debug, Drop)]
pub struct Story {
    /// How many choices were applied.
    pub applied: u64,
    /// The choice that was refused.
    pub refused: Option<Choice>,
    /// What can be seen of the world then.
    pub outcome: Outcome,
    /// The events in order. Each choice that was applied is in one of them.
    pub events: List<Event>,
    /// By pid, from 0 on.
    pub lanes: List<Lane>,
    /// The signals that wait at the end, by rising pair of sender and receiver, and those of one channel in order.
    pub waiting: List<Sent>,
}

/// What a run of this schedule brings about, from the exported function of no arguments.
///
/// # Errors
///
/// `NoEntry` exactly where the module does not export the function. `TooLarge` exactly where there are over 20,000 events. `Memory` only
/// where the module exports the function.
#[tactic(auto, using(crate::proofs::Going::gives_none, crate::proofs::Going::story_gives))]
pub fn told_story(
    alloc: Global,
    image: &Image,
    module: AtomId,
    function: AtomId,
    schedule: &Schedule,
) -> Result<Story, Fault>
    ensures { Gives (IsSome (export image.now «module» function 0)) (λ s. s) result
        (story image.now «module» function schedule.now) }
{
    let world = RcWorld::start(alloc, image, module, function)?;
    tell_from(alloc, image, world, schedule)
}

/// What a run of a schedule brings about from that world on.
#[tactic(auto, using(crate::proofs::Going::tells_gives, crate::proofs::Going::story_is))]
fn tell_from(
    alloc: Global,
    image: &Image,
    world: RcWorld,
    schedule: &Schedule,
) -> Result<Story, Fault>
    ensures { Gives (Unit {0}) (λ s. s) result (story_from image.now schedule.now world) }
{
    let count = schedule.len();
    prove!(count < usize::MAX);
    let mut teller = Teller::new(alloc, world);
    teller.tell_all(alloc, image, schedule.all())?;
    let story = finish(alloc, teller)?;
    Ok(story)
}

/// The story that was told.
fn finish(alloc: Global, teller: Teller) -> Result<Story, AllocError>
    requires { Keeping teller }
    ensures { IfOk result (λ story. story ≡ story_at (telling teller)) }
{
    let Teller {
        end,
        events,
        ledger,
    } = teller;
    let Ok(outcome) = end.world.outcome(alloc) else {
        return Err(AllocError);
    };
    let waiting = ledger.sent_in(alloc, end.world.channels())?;
    Ok(Story {
        applied: end.applied,
        refused: end.refused,
        outcome,
        lanes: List::of(lanes_of(alloc, &events)?),
        events: List::of(events),
        waiting: List::of(waiting),
    })
}
