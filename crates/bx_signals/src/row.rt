//! The channels of one sender.

ghost use Rattle.std.specs.Prelude.{◌≡◌, ◌≢◌, ◌↔◌, ◌++◌, ◌∷◌, ◌≤◌, [], min, IfOk, IfErr, OnOk, OnErr, IsTrue, option_map, slice_get};
ghost use Rattle.bx_mail.specs.Mail.{added};
ghost use Rattle.bx_signals.specs.Handing.{message_of, Hands};
ghost use Rattle.bx_signals.specs.Waiting.{first, rest, front};
ghost use Rattle.bx_signals.specs.Rows.{queue_in, IsRising, IsPlaceOf, IsGapOf, Replaced, SameRow, Covers, lines_cells, or_empty, row_pairs};

use crate::queue::Queue;
use crate::signal::Signal;
use bx_mail::Mailbox;
use std::alloc::{AllocError, Global};
use std::marker::Model;

/// A queue for each receiver that there ever was, behind its pid, by rising pid.
#[derive(Debug, Drop)]
pub(crate) struct Row {
    lines: Vec<(u32, Queue)>,
    /// Where a queue was last written to: another is looked for there, and beside it, before all are searched.
    near: usize,
}

impl Model for Row {
    ghost use Rattle.std.specs.Coded.{coded_list, coded×, coded_ℕ};
    ghost use Rattle.bx_signals.specs.declared.signal.Signal.{Signal};
    ghost use Rattle.bx_signals.specs.contracts.signal.Signal as signal;
    ghost use Rattle.bx_signals.specs.Rows.{Row as Lines, IsRising};

    ghost Value = { Lines Signal };

    ghost coded = { coded_list (coded× coded_ℕ (coded_list signal.the_row.coded)) };

    ghost view = { λ a. a.lines.items };

    ghost invariant = { λ a. IsRising a.lines.items };
}

impl Clone for Row {
    ghost use Rattle.std.specs.Prelude.{◌≡◌};

    ghost is_clone = { λ s t. t ≡ s };

    fn clone(&self) -> Result<Row, AllocError> {
        Ok(Row {
            lines: self.lines.clone()?,
            near: self.near,
        })
    }
}

impl Row {
    /// No signal.
    #[tactic(auto, using(crate::proofs::Lines::rising_none))]
    pub(crate) fn new(alloc: Global) -> Row
        ensures { result ≡ [] }
    {
        Row {
            lines: Vec::new(alloc),
            near: 0,
        }
    }

    /// Puts a signal behind those to that receiver, or hands it back where memory ran out, and then nothing has changed.
    #[inline(always)]
    pub(crate) fn put(&mut self, alloc: Global, to: u32, signal: Signal) -> Result<(), Signal>
        ensures rising { IsRising self.new }
        ensures ok { OnOk result (Replaced self.old self.new to (queue_in self.old to ++ signal ∷ [])) }
        ensures err { IfErr result (λ s. (s ≡ signal) × SameRow self.old self.new) }
    {
        let at = match place_near(&self.lines, self.near, to) {
            Ok(at) => at,
            Err(at) => {
                if let Err(_refused) = open_at(&mut self.lines, at, to) {
                    return Err(signal);
                }
                at
            }
        };
        self.near = at;
        put_at(alloc, &mut self.lines, at, to, signal)
    }

    /// The first signal to that receiver.
    #[inline(always)]
    pub(crate) fn first(&self, to: u32) -> Option<&Signal>
        ensures { option_map (λ s. s.now) result ≡ first (queue_in self.now to) }
    {
        match place_near(&self.lines, self.near, to) {
            Ok(at) => self.lines[at].1.first(),
            Err(_) => None,
        }
    }

    /// The queue of that receiver, where it ever had one.
    fn queue(&self, to: u32) -> Option<&Queue>
        ensures { or_empty (option_map (λ queue. queue.now) result) ≡ queue_in self.now to }
    {
        match place_near(&self.lines, self.near, to) {
            Ok(at) => Some(&self.lines[at].1),
            Err(_) => None,
        }
    }

    /// The signals to that receiver, oldest first.
    pub(crate) fn waiting(&self, alloc: Global, to: u32) -> Result<Vec<Signal>, AllocError>
        ensures { IfOk result (λ signals. signals.items ≡ queue_in self.now to) }
    {
        match self.queue(to) {
            Some(queue) => queue.all(alloc),
            None => Ok(Vec::new(alloc)),
        }
    }

    /// Takes the first signal to that receiver out.
    #[inline(always)]
    pub(crate) fn take(&mut self, to: u32) -> Option<Signal>
        ensures rising { IsRising self.new }
        ensures given { result ≡ first (queue_in self.old to) }
        ensures left { Replaced self.old self.new to (rest (queue_in self.old to)) }
    {
        match place_near(&self.lines, self.near, to) {
            Ok(at) => {
                self.near = at;
                take_at(&mut self.lines, at, to)
            }
            Err(_) => None,
        }
    }

    /// Moves the first signal to that receiver into a mailbox, where it is a message, and tells whether it is one. Where it is
    /// none, and where memory ran out, nothing has changed.
    #[inline(always)]
    pub(crate) fn hand(&mut self, to: u32, mailbox: &mut Mailbox) -> Result<bool, AllocError>
        ensures rising { IsRising self.new }
        ensures handed { Hands added (message_of (first (queue_in self.old to))) mailbox.old mailbox.new
            (Replaced self.old self.new to (rest (queue_in self.old to))) (SameRow self.old self.new)
            result }
    {
        match place_near(&self.lines, self.near, to) {
            Ok(at) => {
                self.near = at;
                hand_at(&mut self.lines, at, to, mailbox)
            }
            Err(_) => Ok(false),
        }
    }

    /// Takes the last signal to that receiver out.
    pub(crate) fn take_back(&mut self, to: u32)
        ensures rising { IsRising self.new }
        ensures left { Replaced self.old self.new to (front (queue_in self.old to)) }
    {
        match place_near(&self.lines, self.near, to) {
            Ok(at) => take_back_at(&mut self.lines, at, to),
            Err(_) => {}
        }
    }

    /// Puts the receivers for which something waits last, by rising pid, each behind the sender. Memory is taken only where
    /// there is one.
    pub(crate) fn push_pairs(
        &self,
        from: u32,
        pairs: &mut Vec<(u32, u32)>,
    ) -> Result<(), AllocError>
        ensures ok { OnOk result (pairs.new.items ≡ pairs.old.items ++ row_pairs from self.now) }
        ensures err { OnErr result (row_pairs from self.now ≢ []) }
    {
        push_pairs_of(&self.lines, from, pairs)
    }

    /// How much a copy takes: one for each queue and for each signal.
    pub(crate) fn cells(&self) -> u64
        ensures { min (lines_cells self.now) 18446744073709551615 ≤ result }
    {
        cells_of(&self.lines)
    }

    /// Has the signals share nothing counted with others, as far as room and memory go.
    pub(crate) fn unshare(&mut self, alloc: Global, room: &mut usize) -> Result<(), AllocError>
        ensures { self.new ≡ self.old }
    {
        unshare_each(alloc, room, &mut self.lines)
    }
}

fn cells_of(lines: &[(u32, Queue)]) -> u64
    ensures { min (lines_cells lines.now) 18446744073709551615 ≤ result }
{
    let mut cells: u64 = 0;
    for at in 0..lines.len() {
        let (_, queue) = &lines[at];
        cells = cells.saturating_add(1).saturating_add(queue.len() as u64);
    }
    cells
}

#[tactic(auto, using(bx_terms::proofs::Rows::set_own))]
fn unshare_each(
    alloc: Global,
    room: &mut usize,
    lines: &mut Vec<(u32, Queue)>,
) -> Result<(), AllocError>
    ensures { lines.new.items ≡ lines.old.items }
{
    for at in 0..lines.len() {
        lines[at].1.unshare(alloc, room)?;
    }
    Ok(())
}

/// The queues of a sender; without a row none.
#[tactic(auto, using(crate::proofs::Lines::rising_none))]
pub(crate) fn lines_of(rows: &[Row], from: usize) -> &[(u32, Queue)]
    ensures lines { result.now ≡ or_empty (slice_get rows.now from) }
    ensures rising { IsRising result.now }
{
    match rows.get(from) {
        Some(row) => &row.lines,
        None => &[],
    }
}

fn push_pairs_of(
    lines: &[(u32, Queue)],
    from: u32,
    pairs: &mut Vec<(u32, u32)>,
) -> Result<(), AllocError>
    ensures ok { OnOk result (pairs.new.items ≡ pairs.old.items ++ row_pairs from lines.now) }
    ensures err { OnErr result (row_pairs from lines.now ≢ []) }
{
    for at in 0..lines.len() {
        let (to, queue) = &lines[at];
        if !queue.is_empty() {
            pairs.push((from, *to))?;
        }
    }
    Ok(())
}

/// Whether whatever waits in the one waits in the other too.
pub(crate) fn covers(lines: &[(u32, Queue)], others: &[(u32, Queue)]) -> bool
    requires rising { IsRising lines.now }
    requires others { IsRising others.now }
    ensures { IsTrue result ↔ Covers lines.now others.now }
{
    for at in 0..lines.len() {
        let (to, queue) = &lines[at];
        if !holds(others, *to, queue) {
            return false;
        }
    }
    true
}

/// Whether these signals, if any, are those that wait for that receiver.
fn holds(lines: &[(u32, Queue)], to: u32, queue: &Queue) -> bool
    requires { IsRising lines.now }
    ensures { IsTrue result ↔ (queue.now ≢ [] → queue_in lines.now to ≡ queue.now) }
{
    if queue.is_empty() {
        return true;
    }
    match place_of(lines, to) {
        Ok(at) => {
            let (_, found) = &lines[at];
            found.same(queue)
        }
        Err(_) => false,
    }
}

/// The place of the queue of a receiver, or the one at which it would lie; `near` is looked at first, then the places beside it.
#[inline(always)]
fn place_near(lines: &[(u32, Queue)], near: usize, to: u32) -> Result<usize, usize>
    requires { IsRising lines.now }
    ensures found { IfOk result (λ at. IsPlaceOf lines.now to at) }
    ensures missed { IfErr result (λ at. IsGapOf lines.now to at) }
{
    if is_at(lines, near, to) {
        return Ok(near);
    }
    place_beside(lines, near, to)
}

/// The place of a receiver's queue, or its gap, by the places beside `near`, and then among all.
#[inline(never)]
fn place_beside(lines: &[(u32, Queue)], near: usize, to: u32) -> Result<usize, usize>
    requires { IsRising lines.now }
    ensures found { IfOk result (λ at. IsPlaceOf lines.now to at) }
    ensures missed { IfErr result (λ at. IsGapOf lines.now to at) }
{
    let next = near.wrapping_add(1);
    if is_at(lines, next, to) {
        return Ok(next);
    }
    let before = near.wrapping_sub(1);
    if is_at(lines, before, to) {
        return Ok(before);
    }
    place_of(lines, to)
}

/// Whether the queue of that receiver lies at that place.
#[inline(always)]
fn is_at(lines: &[(u32, Queue)], at: usize, to: u32) -> bool
    ensures { IsTrue result ↔ IsPlaceOf lines.now to at }
{
    match lines.get(at) {
        Some(line) => line.0 == to,
        None => false,
    }
}

/// The place of the queue of a receiver, or the one at which it would lie.
fn place_of(lines: &[(u32, Queue)], to: u32) -> Result<usize, usize>
    requires { IsRising lines.now }
    ensures found { IfOk result (λ at. IsPlaceOf lines.now to at) }
    ensures missed { IfErr result (λ at. IsGapOf lines.now to at) }
{
    match lines.binary_search_by_key(&to, |line| line.0) {
        Ok(at) => Ok(at),
        Err(at) => Err(at),
    }
}

/// Makes room for a queue of a receiver that has none.
#[cold]
#[inline(never)]
fn open_at(lines: &mut Vec<(u32, Queue)>, at: usize, to: u32) -> Result<(), AllocError>
    requires rising { IsRising lines.old.items }
    requires gap { IsGapOf lines.old.items to at }
    ensures there { OnOk result (IsPlaceOf lines.new.items to at) }
    ensures rising { IsRising lines.new.items }
    ensures kept { SameRow lines.old.items lines.new.items }
{
    match lines.insert(at, (to, Queue::new())) {
        Ok(()) => Ok(()),
        Err(_failed) => Err(AllocError),
    }
}

#[inline(always)]
fn put_at(
    alloc: Global,
    lines: &mut Vec<(u32, Queue)>,
    at: usize,
    to: u32,
    signal: Signal,
) -> Result<(), Signal>
    requires rising { IsRising lines.old.items }
    requires place { IsPlaceOf lines.old.items to at }
    ensures rising { IsRising lines.new.items }
    ensures ok { OnOk result (Replaced lines.old.items lines.new.items to (queue_in lines.old.items to ++ signal ∷ [])) }
    ensures err { IfErr result (λ s. (s ≡ signal) × SameRow lines.old.items lines.new.items) }
{
    lines[at].1.put(alloc, signal)
}

#[inline(always)]
fn take_at(lines: &mut Vec<(u32, Queue)>, at: usize, to: u32) -> Option<Signal>
    requires rising { IsRising lines.old.items }
    requires place { IsPlaceOf lines.old.items to at }
    ensures rising { IsRising lines.new.items }
    ensures given { result ≡ first (queue_in lines.old.items to) }
    ensures left { Replaced lines.old.items lines.new.items to (rest (queue_in lines.old.items to)) }
{
    lines[at].1.take()
}

#[inline(always)]
fn hand_at(
    lines: &mut Vec<(u32, Queue)>,
    at: usize,
    to: u32,
    mailbox: &mut Mailbox,
) -> Result<bool, AllocError>
    requires rising { IsRising lines.old.items }
    requires place { IsPlaceOf lines.old.items to at }
    ensures rising { IsRising lines.new.items }
    ensures handed { Hands added (message_of (first (queue_in lines.old.items to))) mailbox.old
        mailbox.new (Replaced lines.old.items lines.new.items to (rest (queue_in lines.old.items to)))
        (SameRow lines.old.items lines.new.items) result }
{
    lines[at].1.hand(mailbox)
}

fn take_back_at(lines: &mut Vec<(u32, Queue)>, at: usize, to: u32)
    requires rising { IsRising lines.old.items }
    requires place { IsPlaceOf lines.old.items to at }
    ensures rising { IsRising lines.new.items }
    ensures left { Replaced lines.old.items lines.new.items to (front (queue_in lines.old.items to)) }
{
    lines[at].1.take_back();
}
