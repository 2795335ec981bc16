//! Events: what the choices of a run brought about, in the words of the machine.

use bx_share::List;
use bx_signals::Signal;
use bx_terms::{Place, Term, Trap};

/// A signal that an event put into a channel.
#[derive(Debug, Drop)]
pub struct Put {
    /// The receiver's pid.
    pub to: u32,
    /// It was the how-manyth signal that was put into its channel, from 1 on.
    pub number: u64,
    pub signal: Signal,
}

/// A signal that was put into a channel, by where it was put.
#[derive(Debug, Drop)]
pub struct Sent {
    /// The sender's pid.
    pub from: u32,
    /// The receiver's pid.
    pub to: u32,
    /// It was the how-manyth signal that was put into its channel, from 1 on.
    pub number: u64,
    /// The event that put it, by its position among the events, from 0 on.
    pub event: usize,
    pub signal: Signal,
}

/// What a signal did where it arrived.
#[derive(Clone, Copy, Debug, PartialEq, Eq)]
pub enum Effect {
    /// A message was put into the mailbox.
    Added,
    /// An exit signal became a message, since its receiver traps exits.
    Told,
    /// The sender entered the receiver's links.
    Linked,
    /// The sender left the receiver's links.
    Unlinked,
    /// An exit signal did nothing to a process that went on.
    Dropped,
    /// An exit signal ended its receiver.
    Ends,
    /// Its receiver had ended: a link was answered by an exit signal with `noproc`.
    Answered,
    /// Its receiver had ended, or was never there.
    Lost,
    /// It had no meaning, and waits on: the run has trapped.
    Traps,
}

/// What an event was.
#[derive(Debug, Drop)]
pub enum What {
    /// The actor ran.
    Ran,
    /// The actor ran an instruction that took this message out of its mailbox.
    Took(Term),
    /// A signal arrived at the actor.
    Arrived { signal: Sent, effect: Effect },
    /// The actor's wait was over.
    Expired,
}

/// How the actor stands behind an event.
#[derive(Debug, Drop)]
pub enum Stands {
    /// It can go on.
    Goes,
    /// It waits for a message.
    Waits,
    /// It has ended, with this reason.
    Ended(Term),
    /// Its choice had no meaning: nothing happens any more.
    Trapped(Trap),
    /// No process has its pid.
    Absent,
}

/// What choices in a row brought about: one choice, or runs of one process that concerned nobody else.
#[derive(Debug, Drop)]
pub struct Event {
    /// The number of its first choice, from 1 on.
    pub first: u64,
    /// The number of its last choice.
    pub last: u64,
    /// The pid of the process that ran, received or waited.
    pub actor: u32,
    /// Where that process stood before the event.
    pub from: Option<Place>,
    /// Where it stood before the event's last choice.
    pub last_from: Option<Place>,
    /// Where it stands behind the event.
    pub to: Option<Place>,
    pub what: What,
    /// The signals that were put into channels from the actor, by rising receiver, and those to one receiver in order.
    pub puts: List<Put>,
    /// The pid of the process that was spawned.
    pub child: Option<u32>,
    /// The term that was displayed.
    pub shown: Option<Term>,
    pub stands: Stands,
}

/// The life of a process among the events.
#[derive(Clone, Copy, Debug, PartialEq, Eq)]
pub struct Lane {
    /// The event that spawned it, by its position from 0 on; none of the first process.
    pub born: Option<usize>,
    /// The event behind which it had ended.
    pub ended: Option<usize>,
}
