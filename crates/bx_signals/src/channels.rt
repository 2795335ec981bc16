//! The channels between the processes of a world.

ghost use Rattle.std.specs.Prelude.{◌≡◌, ◌≢◌, ◌↔◌, ◌++◌, ◌<◌, ◌≤◌, min, sum_by, [], length, IfErr, IfOk, IsTrue, OnOk, OnErr, option_map};
ghost use Rattle.std.specs.FinMap as map;
ghost use Rattle.bx_mail.specs.Mail.{added};
ghost use Rattle.bx_signals.specs.Handing.{message_of, Hands};
ghost use Rattle.bx_signals.specs.Waiting.{first};
ghost use Rattle.bx_signals.specs.Channels.{waiting, put, taken, taken_back, put_to_all, taken_back_all, pairs};
ghost use Rattle.bx_signals.specs.Weights.{channel_cells};
ghost use Rattle.bx_signals.specs.Rows.{lines_cells, rows_map, queue_at, rows_pairs, AllRising, CoversAll};

use crate::row::{Row, covers, lines_of};
use crate::signal::Signal;
use bx_mail::Mailbox;
use bx_terms::Term;
use std::alloc::{AllocError, Global};
use std::marker::Model;

/// The signals that wait, by the pid of their sender and that of their receiver, in the order in which they were put.
///
/// Source: Erlang Reference Manual, "Processes", "Delivery of Signals".
#[derive(Debug, Drop)]
pub struct Channels {
    /// By the sender's pid.
    rows: Vec<Row>,
}

impl Model for Channels {
    ghost use Rattle.std.specs.Coded.{coded_ℕ, coded_list, coded×};
    ghost use Rattle.std.specs.FinMap as map;
    ghost use Rattle.bx_signals.specs.declared.signal.Signal.{Signal};
    ghost use Rattle.bx_signals.specs.contracts.signal.Signal as signal;
    ghost use Rattle.bx_signals.specs.Channels.{Channels as ByPair};
    ghost use Rattle.bx_signals.specs.Rows.{rows_map};

    ghost Value = { ByPair Signal };

    ghost coded = { map.code (coded× coded_ℕ coded_ℕ) (coded× signal.the_row.coded (coded_list signal.the_row.coded)) };

    ghost view = { λ a. rows_map 0 a.rows.items };

    ghost use Rattle.std.specs.Prelude.{◌≤◌, length};
    ghost use Rattle.bx_signals.specs.Rows.{AllRising};

    ghost invariant = { λ a. AllRising a.rows.items × (length a.rows.items ≤ 4294967296) };
}

impl Channels {
    /// No signal waits.
    pub fn new(alloc: Global) -> Channels
        ensures { result ≡ map.empty }
    {
        Channels {
            rows: Vec::new(alloc),
        }
    }

    /// Puts a signal behind those that wait, or hands it back where memory ran out, and then nothing has changed.
    #[inline(always)]
    pub fn put(&mut self, alloc: Global, from: u32, to: u32, signal: Signal) -> Result<(), Signal>
        ensures ok { OnOk result (self.new ≡ put (from, to) signal self.old) }
        ensures err { IfErr result (λ s. (s ≡ signal) × (self.new ≡ self.old)) }
    {
        let at = from as usize;
        if at >= self.rows.len() {
            if let Err(_refused) = grow(alloc, &mut self.rows, at) {
                return Err(signal);
            }
        }
        put_in(alloc, &mut self.rows, at, to, signal)
    }

    /// The channels in which something waits, by rising pair of sender and receiver. Memory is taken only where there is one.
    pub fn pairs(&self, alloc: Global) -> Result<Vec<(u32, u32)>, AllocError>
        ensures ok { IfOk result (λ found. found.items ≡ pairs self.now) }
        ensures err { OnErr result (pairs self.now ≢ []) }
    {
        let mut found = Vec::new(alloc);
        push_all_pairs(&self.rows, &mut found)?;
        Ok(found)
    }

    /// How much a copy takes: one for each signal, and one for each queue that lies in a row, an empty one too.
    #[tactic(auto, using(crate::proofs::Weights::held))]
    pub fn cells(&self) -> u64
        ensures { min (channel_cells self.now) 18446744073709551615 ≤ result }
    {
        rows_cells(&self.rows)
    }

    /// The same channels. Terms are shared.
    pub fn copy(&self, _alloc: Global) -> Result<Channels, AllocError>
        ensures { IfOk result (λ c. c ≡ self.now) }
    {
        let rows = self.rows.clone()?;
        Ok(Channels { rows })
    }

    /// Puts a deep copy of each signal in its place: none shares anything counted, for which threads would wait for each other. Where room or memory run out, some still do. The channels are the same in each case.
    pub fn unshare(&mut self, alloc: Global, room: &mut usize) -> Result<(), AllocError>
        ensures { self.new ≡ self.old }
    {
        unshare_each(alloc, room, &mut self.rows)
    }

    /// Whether the same signals wait in both.
    pub fn same(&self, other: &Channels) -> bool
        ensures { IsTrue result ↔ (self.now ≡ other.now) }
    {
        rows_are_covered(&self.rows, &other.rows) && rows_are_covered(&other.rows, &self.rows)
    }

    /// The signal that waits first in that channel.
    #[inline(always)]
    #[tactic(auto, using(crate::proofs::Maps::waiting_rows))]
    pub fn first(&self, from: u32, to: u32) -> Option<&Signal>
        ensures { option_map (λ s. s.now) result ≡ first (waiting self.now (from, to)) }
    {
        first_in(&self.rows, from as usize, to)
    }

    /// The signals that wait in that channel, oldest first. Terms are shared.
    #[tactic(auto, using(crate::proofs::Maps::waiting_rows))]
    pub fn waiting(&self, alloc: Global, from: u32, to: u32) -> Result<Vec<Signal>, AllocError>
        ensures { IfOk result (λ signals. signals.items ≡ waiting self.now (from, to)) }
    {
        waiting_in(alloc, &self.rows, from as usize, to)
    }

    /// Takes the signal that waits first in that channel.
    #[inline(always)]
    pub fn take(&mut self, from: u32, to: u32) -> Option<Signal>
        ensures given { result ≡ first (waiting self.old (from, to)) }
        ensures left { self.new ≡ taken (from, to) self.old }
    {
        take_in(&mut self.rows, from as usize, to)
    }

    /// Moves the signal that waits first in that channel into a mailbox, where it is a message, and tells whether it is one. Where
    /// it is none, and where memory ran out, nothing has changed.
    #[inline(always)]
    pub fn hand(&mut self, from: u32, to: u32, mailbox: &mut Mailbox) -> Result<bool, AllocError>
        ensures { Hands added (message_of (first (waiting self.old (from, to)))) mailbox.old mailbox.new
            (self.new ≡ taken (from, to) self.old) (self.new ≡ self.old) result }
    {
        hand_in(&mut self.rows, from as usize, to, mailbox)
    }

    /// Takes back the signal that was put last into that channel.
    pub fn take_back(&mut self, from: u32, to: u32)
        ensures { self.new ≡ taken_back (from, to) self.old }
    {
        take_back_in(&mut self.rows, from as usize, to);
    }

    /// Puts an exit signal by link with this reason to each of these receivers; where memory runs out, nothing has changed.
    /// Memory is taken only where there is one.
    pub fn put_exits(
        &mut self,
        alloc: Global,
        from: u32,
        links: &[u32],
        reason: &Term,
    ) -> Result<(), AllocError>
        ensures ok { OnOk result (self.new ≡ put_to_all from links.now (Signal.LinkExit reason.now) self.old) }
        ensures err { OnErr result (self.new ≡ self.old) }
        ensures memory { OnErr result (links.now ≢ []) }
    {
        for at in 0..links.len() {
            if let Err(refused) = self.put_exit(alloc, from, links[at], reason) {
                self.take_back_all(from, &links[..at]);
                return Err(refused);
            }
        }
        Ok(())
    }

    fn put_exit(
        &mut self,
        alloc: Global,
        from: u32,
        to: u32,
        reason: &Term,
    ) -> Result<(), AllocError>
        ensures ok { OnOk result (self.new ≡ put (from, to) (Signal.LinkExit reason.now) self.old) }
        ensures err { OnErr result (self.new ≡ self.old) }
    {
        let reason = reason.copy(alloc)?;
        match self.put(alloc, from, to, Signal::LinkExit(reason)) {
            Ok(()) => Ok(()),
            Err(_signal) => Err(AllocError),
        }
    }

    /// Takes back the signal that was put last into the channel to each of these receivers, from the last on.
    #[cold]
    #[inline(never)]
    fn take_back_all(&mut self, from: u32, links: &[u32])
        ensures { self.new ≡ taken_back_all from links.now self.old }
    {
        let mut left = links.len();
        while left > 0 {
            left -= 1;
            self.take_back(from, links[left]);
        }
    }
}

#[tactic(auto, using(bx_terms::proofs::Rows::set_own))]
fn unshare_each(alloc: Global, room: &mut usize, rows: &mut Vec<Row>) -> Result<(), AllocError>
    ensures { rows.new.items ≡ rows.old.items }
{
    for at in 0..rows.len() {
        rows[at].unshare(alloc, room)?;
    }
    Ok(())
}

fn push_all_pairs(rows: &[Row], found: &mut Vec<(u32, u32)>) -> Result<(), AllocError>
    requires { length rows.now ≤ 4294967296 }
    ensures ok { OnOk result (found.new.items ≡ found.old.items ++ rows_pairs 0 rows.now) }
    ensures err { OnErr result (rows_pairs 0 rows.now ≢ []) }
{
    for from in 0..rows.len() {
        rows[from].push_pairs(from as u32, found)?;
    }
    Ok(())
}

fn rows_cells(rows: &[Row]) -> u64
    ensures { min (sum_by lines_cells rows.now) 18446744073709551615 ≤ result }
{
    let mut cells: u64 = 0;
    for row in rows {
        cells = cells.saturating_add(row.cells());
    }
    cells
}

/// Whether whatever waits in the one waits in the other too.
fn rows_are_covered(rows: &[Row], others: &[Row]) -> bool
    ensures { IsTrue result ↔ CoversAll rows.now others.now }
{
    for from in 0..rows.len() {
        if !covers(lines_of(rows, from), lines_of(others, from)) {
            return false;
        }
    }
    true
}

/// Makes the rows as many as to have one at `at`.
#[cold]
#[inline(never)]
#[tactic(auto, using(crate::proofs::Maps::rows_more, crate::proofs::Maps::rising_more))]
fn grow(alloc: Global, rows: &mut Vec<Row>, at: usize) -> Result<(), AllocError>
    requires at { at < 4294967296 }
    requires rising { AllRising rows.old.items }
    requires few { length rows.old.items ≤ 4294967296 }
    ensures rising { AllRising rows.new.items }
    ensures few { length rows.new.items ≤ 4294967296 }
    ensures long { OnOk result (at < length rows.new.items) }
    ensures kept { rows_map 0 rows.new.items ≡ rows_map 0 rows.old.items }
{
    for _next in rows.len()..at + 1 {
        rows.push(Row::new(alloc))?;
    }
    Ok(())
}

#[inline(always)]
fn put_in(
    alloc: Global,
    rows: &mut Vec<Row>,
    from: usize,
    to: u32,
    signal: Signal,
) -> Result<(), Signal>
    requires from { from < length rows.old.items }
    requires rising { AllRising rows.old.items }
    ensures rising { AllRising rows.new.items }
    ensures length { length rows.new.items ≡ length rows.old.items }
    ensures ok { OnOk result (rows_map 0 rows.new.items ≡ put (from, to) signal (rows_map 0 rows.old.items)) }
    ensures err { IfErr result (λ s. (s ≡ signal) × (rows_map 0 rows.new.items ≡ rows_map 0 rows.old.items)) }
{
    rows[from].put(alloc, to, signal)
}

#[inline(always)]
fn first_in(rows: &[Row], from: usize, to: u32) -> Option<&Signal>
    ensures { option_map (λ s. s.now) result ≡ first (queue_at rows.now from to) }
{
    rows.get(from)?.first(to)
}

fn waiting_in(alloc: Global, rows: &[Row], from: usize, to: u32) -> Result<Vec<Signal>, AllocError>
    ensures { IfOk result (λ signals. signals.items ≡ queue_at rows.now from to) }
{
    match rows.get(from) {
        Some(row) => row.waiting(alloc, to),
        None => Ok(Vec::new(alloc)),
    }
}

#[inline(always)]
fn take_in(rows: &mut Vec<Row>, from: usize, to: u32) -> Option<Signal>
    requires rising { AllRising rows.old.items }
    ensures rising { AllRising rows.new.items }
    ensures length { length rows.new.items ≡ length rows.old.items }
    ensures given { result ≡ first (waiting (rows_map 0 rows.old.items) (from, to)) }
    ensures left { rows_map 0 rows.new.items ≡ taken (from, to) (rows_map 0 rows.old.items) }
{
    if from >= rows.len() {
        return None;
    }
    take_from(rows, from, to)
}

#[inline(always)]
fn take_from(rows: &mut Vec<Row>, from: usize, to: u32) -> Option<Signal>
    requires from { from < length rows.old.items }
    requires rising { AllRising rows.old.items }
    ensures rising { AllRising rows.new.items }
    ensures length { length rows.new.items ≡ length rows.old.items }
    ensures given { result ≡ first (waiting (rows_map 0 rows.old.items) (from, to)) }
    ensures left { rows_map 0 rows.new.items ≡ taken (from, to) (rows_map 0 rows.old.items) }
{
    rows[from].take(to)
}

#[inline(always)]
fn hand_in(
    rows: &mut Vec<Row>,
    from: usize,
    to: u32,
    mailbox: &mut Mailbox,
) -> Result<bool, AllocError>
    requires rising { AllRising rows.old.items }
    ensures rising { AllRising rows.new.items }
    ensures length { length rows.new.items ≡ length rows.old.items }
    ensures handed { Hands added (message_of (first (waiting (rows_map 0 rows.old.items) (from, to))))
        mailbox.old mailbox.new
        (rows_map 0 rows.new.items ≡ taken (from, to) (rows_map 0 rows.old.items))
        (rows_map 0 rows.new.items ≡ rows_map 0 rows.old.items) result }
{
    if from >= rows.len() {
        return Ok(false);
    }
    hand_from(rows, from, to, mailbox)
}

#[inline(always)]
fn hand_from(
    rows: &mut Vec<Row>,
    from: usize,
    to: u32,
    mailbox: &mut Mailbox,
) -> Result<bool, AllocError>
    requires from { from < length rows.old.items }
    requires rising { AllRising rows.old.items }
    ensures rising { AllRising rows.new.items }
    ensures length { length rows.new.items ≡ length rows.old.items }
    ensures handed { Hands added (message_of (first (waiting (rows_map 0 rows.old.items) (from, to))))
        mailbox.old mailbox.new
        (rows_map 0 rows.new.items ≡ taken (from, to) (rows_map 0 rows.old.items))
        (rows_map 0 rows.new.items ≡ rows_map 0 rows.old.items) result }
{
    rows[from].hand(to, mailbox)
}

fn take_back_in(rows: &mut Vec<Row>, from: usize, to: u32)
    requires rising { AllRising rows.old.items }
    ensures rising { AllRising rows.new.items }
    ensures length { length rows.new.items ≡ length rows.old.items }
    ensures left { rows_map 0 rows.new.items ≡ taken_back (from, to) (rows_map 0 rows.old.items) }
{
    if from < rows.len() {
        take_back_from(rows, from, to);
    }
}

fn take_back_from(rows: &mut Vec<Row>, from: usize, to: u32)
    requires from { from < length rows.old.items }
    requires rising { AllRising rows.old.items }
    ensures rising { AllRising rows.new.items }
    ensures length { length rows.new.items ≡ length rows.old.items }
    ensures left { rows_map 0 rows.new.items ≡ taken_back (from, to) (rows_map 0 rows.old.items) }
{
    rows[from].take_back(to);
}
