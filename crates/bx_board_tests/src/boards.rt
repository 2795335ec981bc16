//! Two workers that meet: each holds a chain at the same time as the other, and works outside the lock.

ghost use Rattle.std.specs.Prelude.{◌≡◌};

use crate::samples::{APART, APART_TEXT, BELOW, BELOW_TEXT, book, finished, image, plan, text_of};
use bx_board::{Board, Book, Campaign, Gate, Piece, campaign};
use bx_load::Image;
use bx_plan::Plan;
use bx_terms::Fault;
use bx_world::Choice;
use bxemu_testkit::atom;
use std::alloc::Global;
use std::marker::Brand;
use std::sync::Wait;
use std::sync::atomic::{AtomicU64, Ordering};
use std::test::Fail;
use std::thread;
use std::thread::{Threads, join};
use std::time::{Clock, Duration};

/// What the paths of the two chains weigh that are to meet: the one that ends with a run of process 0, and of process 1.
pub const FIRST: u64 = 1;

pub const SECOND: u64 = 1000;

/// A gate that lets so many leases through alone, each after a tenth of a second, in which other workers come and wait. It
/// holds the next lease until another has come, and its piece until one of another path has; each for at most 10,000 sleeps
/// of a millisecond.
#[derive(Drop)]
struct Meeting<'a, R: Clock + Sync> {
    rt: &'a R,
    alloc: Global,
    alone: u64,
    leased: AtomicU64,
    worked: AtomicU64,
    late: AtomicU64,
}

impl<'a, R: Clock + Sync> Meeting<'a, R> {
    fn new(rt: &'a R, alloc: Global, alone: u64) -> Meeting<'a, R> {
        Meeting {
            rt,
            alloc,
            alone,
            leased: AtomicU64::new(0),
            worked: AtomicU64::new(0),
            late: AtomicU64::new(0),
        }
    }

    /// How many leases and what weight came, and how many waits were too long.
    fn counts(&self) -> (u64, u64, u64) {
        (
            self.leased.load(Ordering::SeqCst),
            self.worked.load(Ordering::SeqCst),
            self.late.load(Ordering::SeqCst),
        )
    }
}

/// Waits until a count is that high. Whether it came in time.
pub fn came<R: Clock>(rt: &R, count: &AtomicU64, high: u64) -> bool {
    for _ in 0..10_000 {
        if count.load(Ordering::SeqCst) >= high {
            return true;
        }
        thread::sleep(rt, Duration::from_millis(1));
    }
    false
}

/// What the path of a piece weighs: nothing where it has no more choices than that.
fn weight(alloc: Global, alone: u64, piece: &Piece<'_>) -> u64 {
    let Ok(path) = piece.path(alloc) else {
        return 0;
    };
    if path.len() as u64 <= alone {
        return 0;
    }
    match path.get(path.len().saturating_sub(1)) {
        Some(Choice::Run(0)) => FIRST,
        Some(Choice::Run(1)) => SECOND,
        _ => 0,
    }
}

impl<'a, R: Clock + Sync> Gate for Meeting<'a, R> {
    fn leased(&self, _worker: usize) {
        if self.leased.fetch_add(1, Ordering::SeqCst) < self.alone {
            thread::sleep(self.rt, Duration::from_millis(100));
        } else if !came(self.rt, &self.leased, self.alone.saturating_add(2)) {
            self.late.fetch_add(1, Ordering::SeqCst);
        }
    }

    fn worked(&self, _worker: usize, piece: &Piece<'_>) {
        let weight = weight(self.alloc, self.alone, piece);
        if weight == 0 {
            return;
        }
        self.worked.fetch_add(weight, Ordering::SeqCst);
        if !came(self.rt, &self.worked, FIRST + SECOND) {
            self.late.fetch_add(1, Ordering::SeqCst);
        }
    }
}

/// A book that two threads have served on a board, and whether each had the memory that it asked for.
pub fn served_by_two<'a, J: Campaign + Send + Sync, R: Threads + Wait + Sync, G: Gate + Sync>(
    rt: &R,
    alloc: Global,
    book: Book<'a>,
    gate: &G,
) -> (bool, bool, Book<'a>)
    requires { book.job ≡ J.job }
{
    let board = Board::<J>::new(book);
    let (one, other) = join(
        rt,
        || board.serve(rt, alloc, 1, gate).is_ok(),
        || board.serve(rt, alloc, 2, gate).is_ok(),
    );
    (one, other, board.close())
}

/// Out of memory, unless the workers had what they asked for.
pub fn had_memory(well: bool) -> Result<(), Fault> {
    if well { Ok(()) } else { Err(Fault::Memory) }
}

/// The report of a campaign by two workers, and what its gate has counted.
fn worked_by_two<R: Threads + Wait + Clock + Sync>(
    rt: &R,
    alloc: Global,
    image: &Image,
    plan: &Plan,
    alone: u64,
) -> Result<(String, (u64, u64, u64)), Fault> {
    let gate = Meeting::new(rt, alloc, alone);
    let (module, function) = (atom(image, "m"), atom(image, "f"));
    let report = campaign(rt, alloc, image, module, function, plan, 2, &gate);
    Ok((text_of(alloc, image, report)?, gate.counts()))
}

/// The same; of a second campaign where one waited too long in the first, since the other may have lacked memory.
pub fn met<R: Threads + Wait + Clock + Sync>(
    rt: &R,
    alloc: Global,
    image: &Image,
    plan: &Plan,
    alone: u64,
) -> Result<(String, (u64, u64, u64)), Fault> {
    let (text, counts) = worked_by_two(rt, alloc, image, plan, alone)?;
    match counts {
        (_, _, 0) => Ok((text, counts)),
        _ => worked_by_two(rt, alloc, image, plan, alone),
    }
}

#[test]
fn two_workers_of_a_campaign_meet(rt: HostRuntime) -> Result<(), Fail> {
    let alloc = rt.alloc();
    let image = image(alloc)?;
    let plan = plan(alloc, APART)?;
    let (text, counts) = met(&rt, alloc, &image, &plan, 0)?;
    assert_eq!(&rt; counts, (2, FIRST + SECOND, 0));
    assert_eq!(&rt; text.as_str(), APART_TEXT);
    Ok(())
}

#[test]
fn two_threads_on_a_board_meet(rt: HostRuntime) -> Result<(), Fail> {
    let alloc = rt.alloc();
    let image = image(alloc)?;
    let plan = plan(alloc, APART)?;
    let gate = Meeting::new(&rt, alloc, 0);
    let book = book(alloc, &image, &plan)?;
    let (one, other, book) = served_by_two::<Brand, _, _>(&rt, alloc, book, &gate);
    had_memory(one && other)?;
    let text = finished(alloc, &image, book)?;
    assert_eq!(&rt; gate.counts(), (2, FIRST + SECOND, 0));
    assert_eq!(&rt; text.as_str(), APART_TEXT);
    Ok(())
}

#[test]
fn a_worker_waits_for_what_is_below_a_lease(rt: HostRuntime) -> Result<(), Fail> {
    let alloc = rt.alloc();
    let image = image(alloc)?;
    let plan = plan(alloc, BELOW)?;
    let (text, counts) = met(&rt, alloc, &image, &plan, 1)?;
    assert_eq!(&rt; counts, (3, FIRST + SECOND, 0));
    assert_eq!(&rt; text.as_str(), BELOW_TEXT);
    Ok(())
}
