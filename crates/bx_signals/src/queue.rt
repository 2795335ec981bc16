//! The signals of one channel.

ghost use Rattle.std.specs.Prelude.{◌≡◌, ◌≢◌, ◌↔◌, ◌++◌, ◌∷◌, ◌≤◌, [], length, IfOk, IfErr, IsTrue, OnErr, OnOk, Some, option_map, slice_get};
ghost use Rattle.std.specs.VecDeque.{deque_len, deque_capacity};
ghost use Rattle.bx_mail.specs.Mail.{added};
ghost use Rattle.bx_signals.specs.Handing.{message_of, Hands};
ghost use Rattle.bx_signals.specs.Turns.{in_turn};
ghost use Rattle.bx_signals.specs.Waiting.{first, rest, front};

use crate::signal::Signal;
use bx_mail::Mailbox;
use bx_share::same_held;
use bx_terms::Term;
use std::alloc::{AllocError, Global};
use std::collections::VecDeque;
use std::marker::Model;
use std::mem;

/// Signals in the order in which they were put.
#[derive(Debug, Drop)]
pub(crate) struct Queue {
    held: Held,
}

/// One signal lies in the queue itself, so that one which gets empty over and over takes no memory. Once there were two they
/// lie in a row of their own.
#[derive(Debug, Drop)]
pub enum Held {
    Nothing,
    One(Signal),
    Row(Box<VecDeque<Signal>>),
}

impl Model for Queue {
    ghost use Rattle.std.specs.Prelude.{List};
    ghost use Rattle.std.specs.Coded.{coded_list};
    ghost use Rattle.bx_signals.specs.declared.signal.Signal.{Signal};
    ghost use Rattle.bx_signals.specs.contracts.signal.Signal as signal;
    ghost use Rattle.bx_signals.specs.Turns.{in_turn};

    ghost Value = { List Signal };

    ghost coded = { coded_list signal.the_row.coded };

    ghost view = { λ a. in_turn a.held };
}

impl Clone for Queue {
    ghost use Rattle.std.specs.Prelude.{◌≡◌};

    ghost is_clone = { λ s t. t ≡ s };

    fn clone(&self) -> Result<Queue, AllocError> {
        let held = match &self.held {
            Held::Nothing => Held::Nothing,
            Held::One(first) => Held::One(first.clone()?),
            Held::Row(signals) => copied(signals)?,
        };
        Ok(Queue { held })
    }
}

impl Queue {
    /// No signal.
    pub(crate) fn new() -> Queue
        ensures { result ≡ [] }
    {
        Queue {
            held: Held::Nothing,
        }
    }

    /// Puts a signal last, or hands it back where memory ran out, and then nothing has changed. The first takes none.
    #[inline(always)]
    pub(crate) fn put(&mut self, alloc: Global, signal: Signal) -> Result<(), Signal>
        ensures ok { OnOk result (self.new ≡ self.old ++ signal ∷ []) }
        ensures err { IfErr result (λ s. (s ≡ signal) × (self.new ≡ self.old)) }
        ensures memory { OnErr result (self.old ≢ []) }
    {
        if let Held::Nothing = &self.held {
            self.held = Held::One(signal);
            return Ok(());
        }
        self.put_behind(alloc, signal)
    }

    /// Puts a signal behind others that wait, or waited, or hands it back where memory ran out.
    #[inline(never)]
    fn put_behind(&mut self, alloc: Global, signal: Signal) -> Result<(), Signal>
        ensures ok { OnOk result (self.new ≡ self.old ++ signal ∷ []) }
        ensures err { IfErr result (λ s. (s ≡ signal) × (self.new ≡ self.old)) }
        ensures memory { OnErr result (self.old ≢ []) }
    {
        match mem::replace(&mut self.held, Held::Nothing) {
            Held::Nothing => {
                self.held = Held::One(signal);
                Ok(())
            }
            Held::One(first) => self.put_second(alloc, first, signal),
            Held::Row(signals) => self.put_last(signals, signal),
        }
    }

    /// Keeps a signal, and puts a second behind it, in a row of their own.
    #[cold]
    #[inline(never)]
    fn put_second(&mut self, alloc: Global, first: Signal, second: Signal) -> Result<(), Signal>
        ensures ok { OnOk result (self.new ≡ first ∷ second ∷ []) }
        ensures err { IfErr result (λ s. (s ≡ second) × (self.new ≡ first ∷ [])) }
    {
        let Ok(mut signals) = room(alloc) else {
            self.held = Held::One(first);
            return Err(second);
        };
        signals.push_back_reserved(first);
        signals.push_back_reserved(second);
        self.held = Held::Row(signals);
        Ok(())
    }

    /// Keeps a row of signals, and puts one behind them.
    #[inline(never)]
    fn put_last(&mut self, signals: Box<VecDeque<Signal>>, signal: Signal) -> Result<(), Signal>
        ensures ok { OnOk result (self.new ≡ signals.value.items ++ signal ∷ []) }
        ensures err { IfErr result (λ s. (s ≡ signal) × (self.new ≡ signals.value.items)) }
        ensures memory { OnErr result (signals.value.items ≢ []) }
    {
        let mut signals = signals;
        let put = signals.push_back(signal);
        if let Err(failed) = put {
            return self.put_alone(signals, failed.value);
        }
        self.held = Held::Row(signals);
        Ok(())
    }

    /// Keeps a row that cannot grow, or, where nothing waits in it, the signal without a row.
    #[cold]
    #[inline(never)]
    fn put_alone(&mut self, signals: Box<VecDeque<Signal>>, signal: Signal) -> Result<(), Signal>
        ensures ok { OnOk result (self.new ≡ signals.value.items ++ signal ∷ []) }
        ensures err { IfErr result (λ s. (s ≡ signal) × (self.new ≡ signals.value.items)) }
        ensures memory { OnErr result (signals.value.items ≢ []) }
    {
        if !signals.is_empty() {
            self.held = Held::Row(signals);
            return Err(signal);
        }
        self.held = Held::One(signal);
        Ok(())
    }

    /// The signal that was put first.
    #[inline(always)]
    pub(crate) fn first(&self) -> Option<&Signal>
        ensures { option_map (λ s. s.now) result ≡ first self.now }
    {
        match &self.held {
            Held::Nothing => None,
            Held::One(first) => Some(first),
            Held::Row(signals) => signals.front(),
        }
    }

    /// Takes the first signal out.
    #[inline(always)]
    pub(crate) fn take(&mut self) -> Option<Signal>
        ensures given { result ≡ first self.old }
        ensures left { self.new ≡ rest self.old }
    {
        match mem::replace(&mut self.held, Held::Nothing) {
            Held::Nothing => None,
            Held::One(first) => Some(first),
            Held::Row(signals) => self.take_of(signals),
        }
    }

    /// Takes the first of a row of signals out, and keeps the others.
    #[inline(never)]
    fn take_of(&mut self, signals: Box<VecDeque<Signal>>) -> Option<Signal>
        ensures given { result ≡ first signals.value.items }
        ensures left { self.new ≡ rest signals.value.items }
    {
        let mut signals = signals;
        let first = signals.pop_front();
        self.held = Held::Row(signals);
        first
    }

    /// Moves the first signal into a mailbox, where it is a message, and tells whether it is one. Where it is none, and where
    /// memory ran out, nothing has changed.
    #[inline(always)]
    pub(crate) fn hand(&mut self, mailbox: &mut Mailbox) -> Result<bool, AllocError>
        ensures { Hands added (message_of (first self.old)) mailbox.old mailbox.new
            (self.new ≡ rest self.old) (self.new ≡ self.old) result }
    {
        if let Held::One(_) = &self.held {
            let Held::One(first) = mem::replace(&mut self.held, Held::Nothing) else {
                unreachable!() // it was seen
            };
            return self.hand_only(first, mailbox);
        }
        self.hand_any(mailbox)
    }

    /// Moves the first signal of any queue into a mailbox, where it is a message.
    #[inline(never)]
    fn hand_any(&mut self, mailbox: &mut Mailbox) -> Result<bool, AllocError>
        ensures { Hands added (message_of (first self.old)) mailbox.old mailbox.new
            (self.new ≡ rest self.old) (self.new ≡ self.old) result }
    {
        match mem::replace(&mut self.held, Held::Nothing) {
            Held::Nothing => Ok(false),
            Held::One(first) => self.hand_only(first, mailbox),
            Held::Row(signals) => self.hand_of(signals, mailbox),
        }
    }

    /// Hands the only signal on, where it is a message, or keeps it.
    #[inline(always)]
    fn hand_only(&mut self, first: Signal, mailbox: &mut Mailbox) -> Result<bool, AllocError>
        requires { self.old ≡ [] }
        ensures { Hands added (message_of (Some first)) mailbox.old mailbox.new (self.new ≡ [])
            (self.new ≡ first ∷ []) result }
    {
        match first {
            Signal::Message(message) => {
                if let Err(message) = mailbox.add(message) {
                    self.held = Held::One(Signal::Message(message));
                    return Err(AllocError);
                }
                Ok(true)
            }
            other => {
                self.held = Held::One(other);
                Ok(false)
            }
        }
    }

    /// Hands the first of a row of signals on, where it is a message, and keeps the others, or keeps them all.
    #[inline(never)]
    fn hand_of(
        &mut self,
        signals: Box<VecDeque<Signal>>,
        mailbox: &mut Mailbox,
    ) -> Result<bool, AllocError>
        ensures { Hands added (message_of (first signals.value.items)) mailbox.old mailbox.new
            (self.new ≡ rest signals.value.items) (self.new ≡ signals.value.items) result }
    {
        let mut signals = signals;
        let handed = hand_first(&mut signals, mailbox);
        self.held = Held::Row(signals);
        handed
    }

    /// Takes the last signal out.
    pub(crate) fn take_back(&mut self)
        ensures { self.new ≡ front self.old }
    {
        match mem::replace(&mut self.held, Held::Nothing) {
            Held::Nothing => {}
            Held::One(_last) => {}
            Held::Row(signals) => self.held = Held::Row(without_last(signals)),
        }
    }

    /// Whether no signal waits.
    #[inline(always)]
    pub(crate) fn is_empty(&self) -> bool
        ensures { IsTrue result ↔ (self.now ≡ []) }
    {
        match &self.held {
            Held::Nothing => true,
            Held::Row(signals) => signals.is_empty(),
            _ => false,
        }
    }

    /// How many signals wait.
    pub(crate) fn len(&self) -> usize
        ensures { result ≡ length self.now }
    {
        match &self.held {
            Held::Nothing => 0,
            Held::One(_) => 1,
            Held::Row(signals) => signals.len(),
        }
    }

    /// The signal before which so many were put.
    fn get(&self, at: usize) -> Option<&Signal>
        ensures { option_map (λ s. s.now) result ≡ slice_get self.now at }
    {
        match (&self.held, at) {
            (Held::One(first), 0) => Some(first),
            (Held::Row(signals), _) => signals.get(at),
            _ => None,
        }
    }

    /// The signals in their order.
    #[tactic(auto, using(crate::proofs::Turned::taken_there, crate::proofs::Turned::is_there))]
    pub(crate) fn all(&self, alloc: Global) -> Result<Vec<Signal>, AllocError>
        ensures { IfOk result (λ signals. signals.items ≡ self.now) }
    {
        let mut signals = Vec::with_capacity(alloc, self.len())?;
        for at in 0..self.len() {
            let Some(signal) = self.get(at) else {
                unreachable!() // as many are there
            };
            signals.push(signal.clone()?)?;
        }
        Ok(signals)
    }

    /// Has the signals share nothing counted with others, as far as room and memory go.
    pub(crate) fn unshare(&mut self, alloc: Global, room: &mut usize) -> Result<(), AllocError>
        ensures { self.new ≡ self.old }
    {
        match &mut self.held {
            Held::Nothing => Ok(()),
            Held::One(first) => first.unshare(alloc, room),
            Held::Row(signals) => unshare_each(alloc, room, signals),
        }
    }

    /// Whether both hold the same signals in the same order.
    pub(crate) fn same(&self, other: &Queue) -> bool
        ensures { IsTrue result ↔ (self.now ≡ other.now) }
    {
        if self.len() != other.len() {
            return false;
        }
        for at in 0..self.len() {
            if !same_held(self.get(at), other.get(at)) {
                return false;
            }
        }
        true
    }
}

/// Moves the first of a row of signals into a mailbox, where it is a message, and tells whether it is one. Where it is none,
/// and where memory ran out, nothing has changed.
fn hand_first(signals: &mut VecDeque<Signal>, mailbox: &mut Mailbox) -> Result<bool, AllocError>
    ensures { Hands added (message_of (first signals.old.items)) mailbox.old mailbox.new
        (signals.new.items ≡ rest signals.old.items) (signals.new.items ≡ signals.old.items) result }
{
    match signals.pop_front() {
        Some(Signal::Message(message)) => {
            if let Err(message) = mailbox.add(message) {
                signals.push_front_reserved(Signal::Message(message));
                return Err(AllocError);
            }
            Ok(true)
        }
        Some(other) => {
            signals.push_front_reserved(other);
            Ok(false)
        }
        None => Ok(false),
    }
}

#[tactic(auto, using(bx_terms::proofs::Rows::set_own))]
fn unshare_each(
    alloc: Global,
    room: &mut usize,
    signals: &mut VecDeque<Signal>,
) -> Result<(), AllocError>
    ensures { signals.new.items ≡ signals.old.items }
{
    for at in 0..signals.len() {
        signals[at].unshare(alloc, room)?;
    }
    Ok(())
}

/// A row of signals but its last.
fn without_last(signals: Box<VecDeque<Signal>>) -> Box<VecDeque<Signal>>
    ensures { result.value.items ≡ front signals.value.items }
{
    let mut signals = signals;
    let _ = signals.pop_back();
    signals
}

/// The same signals, in a row only where there are some.
fn copied(signals: &Box<VecDeque<Signal>>) -> Result<Held, AllocError>
    ensures { IfOk result (λ held. in_turn held ≡ signals.now.value.items) }
{
    if signals.is_empty() {
        return Ok(Held::Nothing);
    }
    Ok(Held::Row(signals.clone()?))
}

/// A row without signals, with room for some.
fn room(alloc: Global) -> Result<Box<VecDeque<Signal>>, AllocError>
    ensures empty { IfOk result (λ row. row.value.items ≡ []) }
    ensures room { IfOk result (λ row. 2 ≤ deque_capacity row.value) }
    ensures none { IfOk result (λ row. deque_len row.value ≡ 0) }
{
    let signals = VecDeque::with_capacity(alloc, 4)?;
    match Box::new(alloc, signals) {
        Ok(row) => Ok(row),
        Err(_failed) => Err(AllocError),
    }
}
