//! Workers that share the parts of a plan which is long enough, and what their gate is told.

use crate::engines::with_line;
use crate::samples::ENDS;
use bx_board::{Gate, Piece};
use bx_engine::{Form, Workers};
use bx_terms::Fault;
use std::alloc::{AllocError, Global};
use std::sync::Wait;
use std::sync::atomic::{AtomicU64, Ordering};
use std::test::Fail;
use std::thread::Threads;

/// A comment of a hundred bytes, its line feed counted.
const COMMENT: &str =
    "# 3456789 123456789 123456789 123456789 123456789 123456789 123456789 123456789 123456789 123456789\n";

/// What two schedules of `ENDS` report.
const REPORTS: &str =
    "schedule a\napplied 1\nstate open r0\nprocess <0.0.0> ready\nend\nschedule b\napplied 2\nstate quiet\nprocess <0.0.0> ended normal\nend\n";

/// How often a gate was told of a cut, of how many parts, how many were run, how many chains were leased, and how many ends there were.
#[derive(Drop)]
struct Counting {
    cuts: AtomicU64,
    parts: AtomicU64,
    ran: AtomicU64,
    leases: AtomicU64,
    ends: AtomicU64,
}

impl Counting {
    fn new() -> Counting {
        Counting {
            cuts: AtomicU64::new(0),
            parts: AtomicU64::new(0),
            ran: AtomicU64::new(0),
            leases: AtomicU64::new(0),
            ends: AtomicU64::new(0),
        }
    }

    fn counts(&self) -> [u64; 5] {
        [
            at(&self.cuts),
            at(&self.parts),
            at(&self.ran),
            at(&self.leases),
            at(&self.ends),
        ]
    }
}

fn at(count: &AtomicU64) -> u64 {
    count.load(Ordering::SeqCst)
}

fn add(count: &AtomicU64, more: usize) {
    count.fetch_add(more as u64, Ordering::SeqCst);
}

impl Gate for Counting {
    fn leased(&self, _worker: usize) {
        add(&self.leases, 1);
    }

    fn worked(&self, _worker: usize, _piece: &Piece<'_>) {}

    fn cut(&self, parts: usize) {
        add(&self.cuts, 1);
        add(&self.parts, parts);
    }

    fn ran(&self) {
        add(&self.ran, 1);
    }

    fn ended(&self) {
        add(&self.ends, 1);
    }
}

/// A first line and a last one, between them so many comments of a hundred bytes.
fn spread(alloc: Global, first: &str, comments: u32, last: &str) -> Result<String, AllocError> {
    let mut text = String::from_str(alloc, first)?;
    for _ in 0..comments {
        text.push_str(COMMENT)?;
    }
    text.push_str(last)?;
    Ok(text)
}

/// What so many workers write of a plan over `ENDS`, and what their gate is told.
fn told_by<R: Threads + Wait + Sync>(
    rt: &R,
    alloc: Global,
    workers: u32,
    plan: &str,
) -> Result<(String, [u64; 5]), Fault> {
    let gate = Counting::new();
    let mut written = Vec::new(alloc);
    let workers = Workers::new(rt, workers, Form::Report, &gate);
    let mut plan = plan.as_bytes();
    let mut listings = [ENDS.as_bytes()];
    let ended = workers.campaign_text(alloc, &mut listings, "m:f", &mut plan, &mut written);
    Ok((with_line(alloc, ended, written)?, gate.counts()))
}

/// 65,514 bytes are too few for two parts of 32,768, 98,314 enough for three: the leases are of the chains of both schedules.
#[test]
fn parts_are_as_many_as_the_text_is_long_enough_for(rt: HostRuntime) -> Result<(), Fail> {
    let short = spread(rt.alloc(), "a: r0\n", 655, "b: r0*2\n")?;
    let long = spread(rt.alloc(), "a: r0\n", 983, "b: r0*2\n")?;
    let (report, counts) = told_by(&rt, rt.alloc(), 2, short.as_str())?;
    assert_eq!(&rt; report.as_str(), REPORTS);
    assert_eq!(&rt; counts, [0, 0, 0, 2, 1]);
    let (report, counts) = told_by(&rt, rt.alloc(), 2, long.as_str())?;
    assert_eq!(&rt; report.as_str(), REPORTS);
    assert_eq!(&rt; counts, [1, 3, 3, 0, 1]);
    Ok(())
}

/// Two workers share eight parts at the most.
#[test]
fn parts_are_four_for_each_worker(rt: HostRuntime) -> Result<(), Fail> {
    let long = spread(rt.alloc(), "a: r0\n", 3_000, "b: r0*2\n")?;
    let (report, counts) = told_by(&rt, rt.alloc(), 2, long.as_str())?;
    assert_eq!(&rt; report.as_str(), REPORTS);
    assert_eq!(&rt; counts, [1, 8, 8, 0, 1]);
    Ok(())
}

/// The name of the first line again in the last one; a last line that is none.
#[test]
fn parts_that_make_no_plan_are_refused_as_the_plan_is(rt: HostRuntime) -> Result<(), Fail> {
    let twice = spread(rt.alloc(), "a: r0\n", 983, "a: r0*2\n")?;
    let (report, counts) = told_by(&rt, rt.alloc(), 2, twice.as_str())?;
    assert_eq!(&rt; report.as_str(), "bxemu: R25 NameTwice line 985 in plan\n");
    assert_eq!(&rt; counts, [1, 3, 3, 0, 1]);
    let bad = spread(rt.alloc(), "a: r0\n", 983, "b: r0*\n")?;
    let (report, _) = told_by(&rt, rt.alloc(), 2, bad.as_str())?;
    assert_eq!(&rt; report.as_str(), "bxemu: R24 BadLine line 985 in plan\n");
    Ok(())
}
