//! Which event put a signal that arrives or waits: the n-th that is taken out of a channel is the n-th that was put into it.

ghost use Rattle.std.specs.Prelude.{◌≡◌, ℕ, ◌+◌, ◌∷◌, ◌++◌, [], List, OnOk, IfOk, if◌then◌else◌};
ghost use Rattle.bx_signals.specs.Channels.{pairs};
ghost use Rattle.bx_world.specs.Posting.{same_pair};
ghost use Rattle.bx_events.specs.declared.events.Event.{Event as Told};
ghost use Rattle.bx_events.specs.Ledgers.{counted, Keeps, Knows};
ghost use Rattle.bx_events.specs.Pairing.{all_sent, arrival, arrivals, by_puts, next_sent, numbered, puts_in, sent_behind, sent_in, senders};

use crate::events::{Effect, Event, Put, Sent, What};
use bx_signals::{Channels, Signal};
use std::alloc::{AllocError, Global};
use std::collections::BTreeMap;

/// A sender and a receiver.
pub(crate) type Pair = (u32, u32);

/// What was put into channels and taken out of them.
#[derive(Debug, Drop)]
pub(crate) struct Ledger {
    /// How many signals were put into a channel.
    puts: Tally,
    /// How many of them arrived.
    arrivals: Tally,
    /// The event that put a signal into a channel behind so many others.
    senders: BTreeMap<(Pair, u64), usize>,
}

impl Ledger {
    /// Nothing was put or taken.
    pub(crate) fn new(alloc: Global) -> Ledger
        ensures { Keeps [] result }
    {
        Ledger {
            puts: Tally::new(alloc),
            arrivals: Tally::new(alloc),
            senders: BTreeMap::new(alloc),
        }
    }

    /// The signal that was put into a channel behind so many others.
    fn sent_behind(&self, before: u64, pair: Pair, signal: Signal) -> Result<Sent, AllocError>
        ensures { IfOk result (λ sent. (events : List Told) → Keeps events self.now → sent ≡ sent_behind before pair events signal) }
    {
        let Some(number) = before.checked_add(1) else {
            return Err(AllocError);
        };
        Ok(Sent {
            from: pair.0,
            to: pair.1,
            number,
            event: self.senders.get(&(pair, before)).copied().unwrap_or(0),
            signal,
        })
    }

    /// The first signal of a channel that was not taken.
    pub(crate) fn next_sent(&self, pair: Pair, signal: Signal) -> Result<Sent, AllocError>
        ensures { IfOk result (λ sent. (events : List Told) → Keeps events self.now → sent ≡ next_sent pair events signal) }
    {
        self.sent_behind(self.arrivals.count(pair), pair, signal)
    }

    /// The signals that wait in channels, by where they were put.
    pub(crate) fn sent_in(
        &self,
        alloc: Global,
        channels: &Channels,
    ) -> Result<Vec<Sent>, AllocError>
        ensures { IfOk result (λ sent. (events : List Told) → Keeps events self.now → sent.items ≡ sent_in channels.now events (pairs channels.now)) }
    {
        let mut sent = Vec::new(alloc);
        for pair in &channels.pairs(alloc)? {
            let signals = channels.waiting(alloc, pair.0, pair.1)?;
            self.push_sent(&mut sent, *pair, signals)?;
        }
        Ok(sent)
    }

    fn push_sent(
        &self,
        sent: &mut Vec<Sent>,
        pair: Pair,
        signals: Vec<Signal>,
    ) -> Result<(), AllocError>
        ensures { OnOk result ((events : List Told) → Keeps events self.now → sent.new.items ≡ sent.old.items ++ all_sent (arrivals pair events) pair events signals.items) }
    {
        let mut before = self.arrivals.count(pair);
        for signal in signals {
            let next = self.sent_behind(before, pair, signal)?;
            before = next.number;
            sent.push(next)?;
        }
        Ok(())
    }

    /// The signals that wait in channels, as those that are put next.
    pub(crate) fn puts_in(&self, alloc: Global, channels: &Channels) -> Result<Vec<Put>, AllocError>
        ensures { IfOk result (λ puts. (events : List Told) → Keeps events self.now → puts.items ≡ puts_in channels.now events (pairs channels.now)) }
    {
        let mut puts = Vec::new(alloc);
        for pair in &channels.pairs(alloc)? {
            let signals = channels.waiting(alloc, pair.0, pair.1)?;
            push_numbered(&mut puts, pair.1, self.puts.count(*pair), signals)?;
        }
        Ok(puts)
    }

    /// Notes what an event put and took, by its position.
    pub(crate) fn note(&mut self, event: &Event, at: usize) -> Result<(), AllocError>
        ensures { OnOk result ((put : ℕ × ℕ → List ℕ) (heard : ℕ × ℕ → ℕ) → Knows put heard self.old → Knows
            (λ q. put q ++ by_puts q event.now.actor at event.now.puts) (λ q. heard q + arrival q event.now.what) self.new) }
    {
        for put in event.puts.as_slice() {
            self.note_put((event.actor, put.to), at)?;
        }
        self.note_arrival(&event.what)
    }

    fn note_put(&mut self, pair: Pair, at: usize) -> Result<(), AllocError>
        ensures { OnOk result ((put : ℕ × ℕ → List ℕ) (heard : ℕ × ℕ → ℕ) → Knows put heard self.old → Knows
            (λ q. if same_pair q pair then put q ++ at ∷ [] else put q) heard self.new) }
    {
        self.senders.insert((pair, self.puts.count(pair)), at)?;
        self.puts.add(pair)?;
        Ok(())
    }

    fn note_arrival(&mut self, what: &What) -> Result<(), AllocError>
        ensures { OnOk result ((put : ℕ × ℕ → List ℕ) (heard : ℕ × ℕ → ℕ) → Knows put heard self.old → Knows
            put (λ q. heard q + arrival q what.now) self.new) }
    {
        match what {
            What::Arrived {
                effect: Effect::Traps,
                ..
            } => Ok(()),
            What::Arrived { signal, .. } => self.arrivals.add((signal.from, signal.to)),
            _ => Ok(()),
        }
    }
}

/// Adds signals to that receiver, behind so many others of their channel.
fn push_numbered(
    puts: &mut Vec<Put>,
    to: u32,
    before: u64,
    signals: Vec<Signal>,
) -> Result<(), AllocError>
    ensures { OnOk result (puts.new.items ≡ puts.old.items ++ numbered to before signals.items) }
{
    let mut number = before;
    for signal in signals {
        let Some(next) = number.checked_add(1) else {
            return Err(AllocError);
        };
        number = next;
        puts.push(Put { to, number, signal })?;
    }
    Ok(())
}

/// A count for each channel.
#[derive(Debug, Drop)]
struct Tally {
    counts: BTreeMap<Pair, u64>,
}

impl Tally {
    fn new(alloc: Global) -> Tally
        ensures { (q : ℕ × ℕ) → counted result q ≡ 0 }
    {
        Tally {
            counts: BTreeMap::new(alloc),
        }
    }

    fn count(&self, pair: Pair) -> u64
        ensures { result ≡ counted self.now pair }
    {
        self.counts.get(&pair).copied().unwrap_or(0)
    }

    fn add(&mut self, pair: Pair) -> Result<(), AllocError>
        ensures { OnOk result ((q : ℕ × ℕ) → counted self.new q ≡
            (if same_pair q pair then counted self.old q + 1 else counted self.old q)) }
    {
        let Some(next) = self.count(pair).checked_add(1) else {
            return Err(AllocError);
        };
        self.counts.insert(pair, next)?;
        Ok(())
    }
}
