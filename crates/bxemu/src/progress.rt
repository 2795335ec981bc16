//! A line on the terminal that tells how far a campaign is.

use bx_board::{Gate, Piece};
use std::sync::atomic::{AtomicU64, Ordering};
use std::time::{Clock, Instant};

/// How many milliseconds the line stands before it is written again.
const PAUSE: u64 = 100;

/// A gate that rewrites one line of standard error in place: how many parts are done of all; or how many chains, and how many choices
/// are made a second.
#[derive(Drop)]
pub struct Progress<'a, R: Clock + Eprint> {
    rt: &'a R,
    opened: Option<Instant>,
    /// Milliseconds since it was opened: when the workers began, and when the line is to be written again.
    began: AtomicU64,
    due: AtomicU64,
    /// How many parts there are, or chains, and how many of them are done.
    all: AtomicU64,
    done: AtomicU64,
    choices: AtomicU64,
}

impl<'a, R: Clock + Eprint> Progress<'a, R> {
    /// Without a clock no line is shown.
    pub fn new(rt: &'a R) -> Progress<'a, R> {
        Progress {
            rt,
            opened: Instant::now(rt).ok(),
            began: AtomicU64::new(0),
            due: AtomicU64::new(0),
            all: AtomicU64::new(0),
            done: AtomicU64::new(0),
            choices: AtomicU64::new(0),
        }
    }

    /// How many milliseconds ago it was opened.
    fn age(&self) -> Option<u64> {
        let age = self.opened?.elapsed(self.rt).ok()?;
        u64::try_from(age.as_millis()).ok()
    }

    /// Counts from none on, up to so many.
    fn count_to(&self, all: usize) {
        self.all.store(all as u64, Ordering::SeqCst);
        self.done.store(0, Ordering::SeqCst);
        self.began.store(self.age().unwrap_or(0), Ordering::SeqCst);
    }

    /// How many milliseconds ago it was opened, where the line is due. One thread at a time finds that it is.
    fn due_at(&self) -> Option<u64> {
        let age = self.age()?;
        let due = self.due.load(Ordering::SeqCst);
        (age >= due && self.is_next(due, age.saturating_add(PAUSE))).then_some(age)
    }

    fn show_parts(&self, done: u64) {
        if self.due_at().is_some() {
            let all = self.all.load(Ordering::SeqCst);
            let _ = eprint!(self.rt; "\r{done} of {all} parts done        ");
        }
    }

    fn show_chains(&self, done: u64, choices: u64) {
        let Some(age) = self.due_at() else {
            return;
        };
        let all = self.all.load(Ordering::SeqCst);
        let took = age.saturating_sub(self.began.load(Ordering::SeqCst));
        let rate = a_second(choices, took);
        let _ = eprint!(self.rt; "\r{done} of {all} chains done, {rate} choices a second        ");
    }

    /// Whether this thread is the one that puts off what was due until then.
    fn is_next(&self, due: u64, then: u64) -> bool {
        self.due
            .compare_exchange(due, then, Ordering::SeqCst, Ordering::SeqCst)
            .is_ok()
    }
}

/// How many a second so many in so many milliseconds are.
fn a_second(count: u64, millis: u64) -> u64 {
    count.saturating_mul(1000).checked_div(millis).unwrap_or(0)
}

impl<'a, R: Clock + Eprint + Sync> Gate for Progress<'a, R> {
    fn begun(&self, chains: usize) {
        self.count_to(chains);
        self.show_chains(0, 0);
    }

    fn leased(&self, _worker: usize) {}

    fn worked(&self, _worker: usize, piece: &Piece<'_>) {
        let done = self.done.fetch_add(1, Ordering::SeqCst);
        let more = piece.choices() as u64;
        let choices = self.choices.fetch_add(more, Ordering::SeqCst);
        self.show_chains(done.saturating_add(1), choices.saturating_add(more));
    }

    fn cut(&self, parts: usize) {
        self.count_to(parts);
        self.show_parts(0);
    }

    fn ran(&self) {
        let done = self.done.fetch_add(1, Ordering::SeqCst);
        self.show_parts(done.saturating_add(1));
    }

    /// Leaves the line blank, for what is written next.
    fn ended(&self) {
        let _ = eprint!(self.rt; "\r{:72}\r", "");
    }
}
