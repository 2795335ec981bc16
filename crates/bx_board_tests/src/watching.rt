//! What a gate is told of a campaign: how many chains there are, each lease, each piece before it is handed in, and the end of
//! the workers.

use crate::samples::{BELOW, BELOW_TEXT, image, plan, text_of};
use bx_board::{Gate, Piece, campaign};
use bx_load::Image;
use bx_plan::Plan;
use bx_terms::Fault;
use bxemu_testkit::{answered, atom};
use std::alloc::Global;
use std::sync::Wait;
use std::sync::atomic::{AtomicU64, Ordering};
use std::test::Fail;
use std::thread;
use std::thread::Threads;
use std::time::{Clock, Duration};

/// Chains of one choice: the first, the second of `b`, the third of `e`. One of two: what `d` goes on with.
const BRANCHING: &str = "a: r0\nb: r0*2\nc:\nd: r0 r5 r0\ne: r0*3\n";

/// How often each call came, what the workers' numbers come to, those of leases less those of pieces; what the paths, the
/// chains' own choices and the applied ones come to; and how many calls came out of turn.
#[derive(Drop)]
struct Counting {
    alloc: Global,
    begins: AtomicU64,
    chains: AtomicU64,
    leases: AtomicU64,
    workers: AtomicU64,
    pieces: AtomicU64,
    paths: AtomicU64,
    choices: AtomicU64,
    applied: AtomicU64,
    ends: AtomicU64,
    wrong: AtomicU64,
}

impl Counting {
    fn new(alloc: Global) -> Counting {
        Counting {
            alloc,
            begins: AtomicU64::new(0),
            chains: AtomicU64::new(0),
            leases: AtomicU64::new(0),
            workers: AtomicU64::new(0),
            pieces: AtomicU64::new(0),
            paths: AtomicU64::new(0),
            choices: AtomicU64::new(0),
            applied: AtomicU64::new(0),
            ends: AtomicU64::new(0),
            wrong: AtomicU64::new(0),
        }
    }

    /// Counts a call that came out of turn.
    fn expect(&self, right: bool) {
        if !right {
            self.wrong.fetch_add(1, Ordering::SeqCst);
        }
    }

    /// All that it was told.
    fn counts(&self) -> [u64; 10] {
        [
            at(&self.begins),
            at(&self.chains),
            at(&self.leases),
            at(&self.workers),
            at(&self.pieces),
            at(&self.paths),
            at(&self.choices),
            at(&self.applied),
            at(&self.ends),
            at(&self.wrong),
        ]
    }
}

fn at(count: &AtomicU64) -> u64 {
    count.load(Ordering::SeqCst)
}

impl Gate for Counting {
    fn begun(&self, chains: usize) {
        self.begins.fetch_add(1, Ordering::SeqCst);
        self.chains.fetch_add(chains as u64, Ordering::SeqCst);
        self.expect(at(&self.leases) == 0 && at(&self.ends) == 0);
    }

    fn leased(&self, worker: usize) {
        self.leases.fetch_add(1, Ordering::SeqCst);
        self.workers.fetch_add(worker as u64, Ordering::SeqCst);
        self.expect(at(&self.begins) == 1 && at(&self.ends) == 0);
    }

    fn worked(&self, worker: usize, piece: &Piece<'_>) {
        let pieces = self.pieces.fetch_add(1, Ordering::SeqCst);
        self.workers.fetch_sub(worker as u64, Ordering::SeqCst);
        if let Ok(path) = piece.path(self.alloc) {
            let choices = path.len() as u64;
            self.paths.fetch_add(choices, Ordering::SeqCst);
        }
        let own = piece.choices() as u64;
        self.choices.fetch_add(own, Ordering::SeqCst);
        self.applied
            .fetch_add(piece.end().applied, Ordering::SeqCst);
        self.expect(pieces < at(&self.leases) && at(&self.ends) == 0);
    }

    fn ended(&self) {
        self.ends.fetch_add(1, Ordering::SeqCst);
        self.expect(at(&self.pieces) == at(&self.chains));
    }
}

/// What a gate is told of a campaign from that function. That memory ran out, for the report or for a worker who gave a lease back,
/// is no answer, and is handed on.
fn told<R: Threads + Wait + Sync>(
    rt: &R,
    alloc: Global,
    image: &Image,
    function: &str,
    plan: &Plan,
    workers: u32,
) -> Result<[u64; 10], Fault> {
    let gate = Counting::new(alloc);
    let (module, function) = (atom(image, "m"), atom(image, function));
    let report = campaign(rt, alloc, image, module, function, plan, workers, &gate);
    let _ = answered(report)?;
    if at(&gate.leases) > at(&gate.pieces) {
        return Err(Fault::Memory);
    }
    Ok(gate.counts())
}

#[test]
fn a_gate_is_told_of_every_chain(rt: HostRuntime) -> Result<(), Fail> {
    let alloc = rt.alloc();
    let image = image(alloc)?;
    let branching = plan(alloc, BRANCHING)?;
    for workers in [2, 3, 64] {
        assert_eq!(&rt;
            told(&rt, alloc, &image, "f", &branching, workers)?,
            [1, 4, 4, 0, 4, 9, 5, 6, 1, 0]
        );
    }
    Ok(())
}

#[test]
fn a_gate_is_told_where_nothing_is_leased(rt: HostRuntime) -> Result<(), Fail> {
    let alloc = rt.alloc();
    let image = image(alloc)?;
    let branching = plan(alloc, BRANCHING)?;
    for (workers, function) in [(0, "f"), (65, "f"), (2, "ok"), (1, "f")] {
        assert_eq!(&rt;
            told(&rt, alloc, &image, function, &branching, workers)?,
            [0; 10]
        );
    }
    let empty = plan(alloc, "")?;
    assert_eq!(&rt;
        told(&rt, alloc, &image, "f", &empty, 2)?,
        [1, 0, 0, 0, 0, 0, 0, 0, 1, 0]
    );
    Ok(())
}

/// A gate that keeps the first piece for a tenth of a second, and counts what was leased meanwhile; and those of workers past
/// the number that there are.
#[derive(Drop)]
struct Keeping<'a, R: Clock + Sync> {
    rt: &'a R,
    leased: AtomicU64,
    early: AtomicU64,
    others: AtomicU64,
}

impl<'a, R: Clock + Sync> Gate for Keeping<'a, R> {
    fn leased(&self, worker: usize) {
        self.leased.fetch_add(1, Ordering::SeqCst);
        if worker > 1 {
            self.others.fetch_add(1, Ordering::SeqCst);
        }
    }

    fn worked(&self, _worker: usize, piece: &Piece<'_>) {
        if piece.end().applied == 1 && at(&self.leased) == 1 {
            thread::sleep(self.rt, Duration::from_millis(100));
            self.early
                .fetch_add(at(&self.leased).saturating_sub(1), Ordering::SeqCst);
        }
    }
}

#[test]
fn a_gate_has_a_piece_before_it_is_handed_in(rt: HostRuntime) -> Result<(), Fail> {
    let alloc = rt.alloc();
    let image = image(alloc)?;
    let plan = plan(alloc, BELOW)?;
    let gate = Keeping {
        rt: &rt,
        leased: AtomicU64::new(0),
        early: AtomicU64::new(0),
        others: AtomicU64::new(0),
    };
    let (module, function) = (atom(&image, "m"), atom(&image, "f"));
    let report = campaign(&rt, alloc, &image, module, function, &plan, 2, &gate);
    let text = text_of(alloc, &image, report)?;
    assert_eq!(&rt;
        (at(&gate.leased), at(&gate.early), at(&gate.others)),
        (3, 0, 0)
    );
    assert_eq!(&rt; text.as_str(), BELOW_TEXT);
    Ok(())
}
