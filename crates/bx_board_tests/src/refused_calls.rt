//! Calls of a book whose growths are refused: the book and the lease are as they were, and the call made again answers as the rules
//! say; and workers whose growths are refused, who keep no lease.
//!
//! A run of these tests in which one growth is refused shows that; where none is, nobody lacks anything.

use crate::boards::{had_memory, served_by_two};
use crate::samples::{BELOW, BELOW_TEXT, book, image, plan, text_of};
use bx_board::{ArcEnd, Book, Gate, Lease, Piece, campaign, work};
use bx_load::Image;
use bx_plan::Plan;
use bx_terms::Fault;
use bx_world::{ArcWorld, Choice, advance};
use bxemu_testkit::atom;
use std::alloc::Global;
use std::marker::Brand;
use std::sync::atomic::{AtomicU64, Ordering};
use std::test::Fail;
use std::thread;
use std::time::{Clock, Duration};

/// How many chains stand how: unborn, free, leased, done.
fn standing(book: &Book<'_>) -> [usize; 4] {
    let counts = book.counts();
    [counts.unborn, counts.free, counts.leased, counts.done]
}

/// A book, opened once more where memory ran out.
fn opened<'a>(alloc: Global, image: &'a Image, plan: &'a Plan) -> Result<Book<'a>, Fault> {
    match book(alloc, image, plan) {
        Err(Fault::Memory) => book(alloc, image, plan),
        answer => answer,
    }
}

/// A lease, asked for once more where memory ran out; and whether the chains stood then as before.
fn leased<'a>(
    alloc: Global,
    book: &mut Book<'a>,
    worker: usize,
) -> Result<(Option<Lease<'a>>, bool), Fault> {
    let before = standing(book);
    match book.lease(alloc, worker) {
        Ok(lease) => Ok((lease, true)),
        Err(_) => {
            let stayed = standing(book) == before;
            Ok((book.lease(alloc, worker)?, stayed))
        }
    }
}

/// The piece of a lease, worked once more where memory ran out; and whether the lease that came back then was of the same path.
fn worked<'a>(alloc: Global, lease: Lease<'a>) -> Result<(Piece<'a>, bool), Fault> {
    let path = lease.path(alloc)?;
    let lease = match work(alloc, lease) {
        Ok(piece) => return Ok((piece, true)),
        Err((_, lease)) => lease,
    };
    let stayed = lease.path(alloc)?.same(&path);
    match work(alloc, lease) {
        Ok(piece) => Ok((piece, stayed)),
        Err((fault, _)) => Err(fault),
    }
}

/// Whether a piece's end is where its path leads from the start.
fn is_led(alloc: Global, image: &Image, piece: &Piece<'_>) -> Result<bool, Fault> {
    let mut end = ArcEnd {
        world: ArcWorld::start(alloc, image, atom(image, "m"), atom(image, "f"))?,
        applied: 0,
        refused: None,
    };
    for choice in &piece.path(alloc)?.to_choices(alloc)? {
        if end.applied < u64::MAX {
            advance(alloc, &mut end, image, *choice)?;
        }
    }
    Ok(piece.end().same(&end))
}

/// Whether a worker gets a lease that is of one of these paths, works it, and hands its piece in.
fn does_one(
    alloc: Global,
    image: &Image,
    book: &mut Book<'_>,
    worker: usize,
    paths: &[&[Choice]],
) -> Result<bool, Fault> {
    let (lease, stayed) = leased(alloc, book, worker)?;
    let Some(lease) = lease else {
        return Ok(false);
    };
    let (piece, kept) = worked(alloc, lease)?;
    let path = piece.path(alloc)?.to_choices(alloc)?;
    let right = paths.iter().any(|wanted| *wanted == path.as_slice());
    let led = is_led(alloc, image, &piece)?;
    match book.submit(worker, piece) {
        Ok(()) => Ok(stayed && kept && right && led),
        Err(_) => Ok(false),
    }
}

/// The paths of the chains of `BELOW`, that of the first one before those of the two below it.
const FIRST: [&[Choice]; 1] = [&[Choice::Run(0)]];

const SECOND: [&[Choice]; 2] = [
    &[Choice::Run(0), Choice::Run(0)],
    &[Choice::Run(0), Choice::Run(1)],
];

/// The text of the report of a book, finished once more where memory ran out, or the name of the refusal; nothing where the book
/// did not come back as it was.
fn finished_again(alloc: Global, image: &Image, book: Book<'_>) -> Result<String, Fault> {
    let before = standing(&book);
    let (fault, book) = match book.finish(alloc) {
        Ok(report) => return text_of(alloc, image, Ok(report)),
        Err(refused) => refused,
    };
    if standing(&book) != before {
        return Ok(String::new(alloc));
    }
    if !matches!(fault, Fault::Memory) {
        return text_of(alloc, image, Err(fault));
    }
    match book.finish(alloc) {
        Ok(report) => text_of(alloc, image, Ok(report)),
        Err((fault, _)) => Err(fault),
    }
}

/// A book with chains that are not done, as it comes back where it is to end; none where it ended.
fn unfinished<'a>(alloc: Global, book: Book<'a>) -> Result<Option<Book<'a>>, Fault> {
    match book.finish(alloc) {
        Ok(_) => Ok(None),
        Err((fault, book)) => match fault {
            Fault::Unfinished => Ok(Some(book)),
            fault => Err(fault),
        },
    }
}

#[test]
fn a_refused_growth_leaves_the_book(rt: HostRuntime) -> Result<(), Fail> {
    let alloc = rt.alloc();
    let image = image(alloc)?;
    let plan = plan(alloc, BELOW)?;
    let mut book = opened(alloc, &image, &plan)?;
    assert_eq!(&rt; standing(&book), [2, 1, 0, 1]);
    assert!(&rt; does_one(alloc, &image, &mut book, 1, &FIRST)?);
    assert_eq!(&rt; standing(&book), [0, 2, 0, 2]);
    let mut book = unfinished(alloc, book)?.ok_or("a report")?;
    assert!(&rt; does_one(alloc, &image, &mut book, 1, &SECOND)?);
    assert_eq!(&rt; standing(&book), [0, 1, 0, 3]);
    assert!(&rt; does_one(alloc, &image, &mut book, 2, &SECOND)?);
    assert_eq!(&rt; standing(&book), [0, 0, 0, 4]);
    let text = finished_again(alloc, &image, book)?;
    assert_eq!(&rt; text.as_str(), BELOW_TEXT);
    Ok(())
}

/// A gate that keeps the first lease for a twentieth of a second, in which the other worker comes and waits, and the second for at
/// most a fifth, until that one has the third; and counts leases and pieces.
#[derive(Drop)]
struct Keeping<'a, R: Clock + Sync> {
    rt: &'a R,
    leases: AtomicU64,
    pieces: AtomicU64,
}

impl<'a, R: Clock + Sync> Keeping<'a, R> {
    fn new(rt: &'a R) -> Keeping<'a, R> {
        Keeping {
            rt,
            leases: AtomicU64::new(0),
            pieces: AtomicU64::new(0),
        }
    }
}

/// Waits until a third lease has come, for a fifth of a second at most.
fn wait_for_third<R: Clock>(rt: &R, leases: &AtomicU64) {
    for _ in 0..200 {
        if leases.load(Ordering::SeqCst) > 2 {
            return;
        }
        thread::sleep(rt, Duration::from_millis(1));
    }
}

impl<'a, R: Clock + Sync> Gate for Keeping<'a, R> {
    fn leased(&self, _worker: usize) {
        match self.leases.fetch_add(1, Ordering::SeqCst) {
            0 => thread::sleep(self.rt, Duration::from_millis(50)),
            1 => wait_for_third(self.rt, &self.leases),
            _ => {}
        }
    }

    fn worked(&self, _worker: usize, _piece: &Piece<'_>) {
        self.pieces.fetch_add(1, Ordering::SeqCst);
    }
}

/// The first chain stands above the two others, so a worker waits while the other holds it: for ever, if that one lacked memory
/// and kept it.
#[test]
fn a_worker_who_lacks_memory_keeps_no_lease(rt: HostRuntime) -> Result<(), Fail> {
    let alloc = rt.alloc();
    let image = image(alloc)?;
    let plan = plan(alloc, BELOW)?;
    let gate = Keeping::new(&rt);
    let book = book(alloc, &image, &plan)?;
    let (one, other, book) = served_by_two::<Brand, _, _>(&rt, alloc, book, &gate);
    had_memory(one || other)?;
    assert_eq!(&rt; standing(&book), [0, 0, 0, 4]);
    let text = finished_again(alloc, &image, book)?;
    assert_eq!(&rt; text.as_str(), BELOW_TEXT);
    Ok(())
}

/// Where a worker lacked memory and the other did what was left, all chains are done, and no other growth is refused.
#[test]
fn a_campaign_whose_chains_are_done_reports(rt: HostRuntime) -> Result<(), Fail> {
    let alloc = rt.alloc();
    let image = image(alloc)?;
    let plan = plan(alloc, BELOW)?;
    let gate = Keeping::new(&rt);
    let (module, function) = (atom(&image, "m"), atom(&image, "f"));
    let report = campaign(&rt, alloc, &image, module, function, &plan, 2, &gate);
    let leases = gate.leases.load(Ordering::SeqCst);
    let pieces = gate.pieces.load(Ordering::SeqCst);
    assert!(&rt; leases == pieces || pieces < 3 || report.is_ok());
    let text = text_of(alloc, &image, report)?;
    assert_eq!(&rt; text.as_str(), BELOW_TEXT);
    Ok(())
}
