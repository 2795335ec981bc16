//! Calls of a book in a row, by several workers.

use crate::samples::{APART, APART_TEXT, BELOW, ONE, ONE_TEXT, book, finished, image, plan};
use bx_board::{Book, Piece, work};
use bx_load::Image;
use bx_plan::Plan;
use bx_terms::Fault;
use bx_world::Choice;
use std::alloc::Global;
use std::test::Fail;

/// One call. Pieces are numbered in the order in which they were worked, from 0.
#[derive(Clone, Copy, Debug, PartialEq, Eq)]
enum Call {
    Counts,
    /// A lease that is worked at once, and its piece kept.
    Lease(usize),
    Submit(usize, usize),
    GiveBack(usize),
    Stop,
}

/// The calls of a history, each with its answer.
const HISTORY: [(Call, &str); 21] = [
    (Call::Counts, "0 2 0 1"),
    (Call::Lease(1), "leased"),
    (Call::Lease(1), "none"),
    (Call::Lease(2), "leased"),
    (Call::Lease(3), "none"),
    (Call::Counts, "0 0 2 1"),
    (Call::Submit(2, 0), "NotLeased"),
    (Call::Submit(3, 0), "NotLeased"),
    (Call::GiveBack(1), "true"),
    (Call::GiveBack(1), "false"),
    (Call::Counts, "0 1 1 1"),
    (Call::Lease(1), "leased"),
    (Call::Submit(1, 2), "taken"),
    (Call::Submit(1, 0), "Twice"),
    (Call::Submit(2, 0), "Twice"),
    (Call::GiveBack(9), "false"),
    (Call::Counts, "0 0 1 2"),
    (Call::Stop, "stopped"),
    (Call::Lease(3), "none"),
    (Call::Submit(2, 1), "taken"),
    (Call::Counts, "0 0 0 3"),
];

/// The calls over a plan of a chain on which two stand, which are not born until it is done.
const ABOVE_ONE: [(Call, &str); 6] = [
    (Call::Counts, "2 1 0 1"),
    (Call::Lease(1), "leased"),
    (Call::Counts, "2 0 1 1"),
    (Call::Submit(1, 0), "taken"),
    (Call::Counts, "0 2 0 2"),
    (Call::Lease(1), "leased"),
];

/// A lease that is worked at once.
fn lease<'a>(
    alloc: Global,
    book: &mut Book<'a>,
    worker: usize,
    pieces: &mut Vec<Option<Piece<'a>>>,
) -> Result<String, Fault> {
    let Some(lease) = book.lease(alloc, worker)? else {
        return Ok(String::from_str(alloc, "none")?);
    };
    let piece = match work(alloc, lease) {
        Ok(piece) => piece,
        Err((fault, _lease)) => return Err(fault),
    };
    match pieces.push(Some(piece)) {
        Ok(()) => Ok(String::from_str(alloc, "leased")?),
        Err(_) => Err(Fault::Memory),
    }
}

/// Submits a piece, which is kept where it comes back.
fn submit<'a>(
    alloc: Global,
    book: &mut Book<'a>,
    worker: usize,
    kept: Option<&mut Option<Piece<'a>>>,
) -> Result<String, Fault> {
    let Some(kept) = kept else {
        return Ok(String::from_str(alloc, "no piece")?);
    };
    let Some(piece) = kept.take() else {
        return Ok(String::from_str(alloc, "no piece")?);
    };
    match book.submit(worker, piece) {
        Ok(()) => Ok(String::from_str(alloc, "taken")?),
        Err((fault, piece)) => {
            *kept = Some(piece);
            Ok(String::from_str(alloc, fault.name())?)
        }
    }
}

/// A call's answer, as a text.
fn answer<'a>(
    alloc: Global,
    book: &mut Book<'a>,
    call: Call,
    pieces: &mut Vec<Option<Piece<'a>>>,
) -> Result<String, Fault> {
    match call {
        Call::Counts => {
            let counts = book.counts();
            Ok(format!(in alloc;
                "{} {} {} {}",
                counts.unborn, counts.free, counts.leased, counts.done
            )?)
        }
        Call::Lease(worker) => lease(alloc, book, worker, pieces),
        Call::Submit(worker, number) => submit(alloc, book, worker, pieces.get_mut(number)),
        Call::GiveBack(worker) => Ok(format!(in alloc; "{}", book.give_back(worker))?),
        Call::Stop => {
            book.stop();
            Ok(String::from_str(alloc, "stopped")?)
        }
    }
}

/// The first call of a history that is answered otherwise, where one is.
fn first_other<'a>(
    alloc: Global,
    book: &mut Book<'a>,
    history: &[(Call, &str)],
    pieces: &mut Vec<Option<Piece<'a>>>,
) -> Result<Option<Call>, Fault> {
    for (call, expected) in history {
        let got = answer(alloc, book, *call, pieces)?;
        if got.as_str() != *expected {
            return Ok(Some(*call));
        }
    }
    Ok(None)
}

#[test]
fn each_call_is_one_event_or_a_refusal(rt: HostRuntime) -> Result<(), Fail> {
    let alloc = rt.alloc();
    let image = image(alloc)?;
    let plan = plan(alloc, APART)?;
    let mut book = book(alloc, &image, &plan)?;
    let mut pieces = Vec::new(alloc);
    assert_eq!(&rt; first_other(alloc, &mut book, &HISTORY, &mut pieces)?, None);
    let text = finished(alloc, &image, book)?;
    assert_eq!(&rt; text.as_str(), APART_TEXT);
    Ok(())
}

/// The last piece that was worked; none where a call is answered otherwise than it should be.
fn last_piece<'a>(
    alloc: Global,
    image: &'a Image,
    plan: &'a Plan,
    history: &[(Call, &str)],
) -> Result<Option<Piece<'a>>, Fault> {
    let mut book = book(alloc, image, plan)?;
    let mut pieces = Vec::new(alloc);
    if first_other(alloc, &mut book, history, &mut pieces)?.is_some() {
        return Ok(None);
    }
    match pieces.pop() {
        Some(piece) => Ok(piece),
        None => Ok(None),
    }
}

/// Whether a piece of two choices is no chain's of a plan of one choice a schedule.
fn is_foreign<'a>(
    alloc: Global,
    image: &'a Image,
    short: &'a Plan,
    long: &'a Plan,
) -> Result<bool, Fault> {
    let Some(piece) = last_piece(alloc, image, long, &ABOVE_ONE)? else {
        return Ok(false);
    };
    let mut book = book(alloc, image, short)?;
    match book.submit(1, piece) {
        Ok(()) => Ok(false),
        Err((fault, _piece)) => Ok(fault == Fault::Foreign),
    }
}

#[test]
fn a_chain_of_another_plan_is_foreign(rt: HostRuntime) -> Result<(), Fail> {
    let alloc = rt.alloc();
    let image = image(alloc)?;
    let short = plan(alloc, APART)?;
    let long = plan(alloc, BELOW)?;
    assert!(rt; is_foreign(alloc, &image, &short, &long)?);
    Ok(())
}

/// The text of the report of a plan of one chain, of which a piece of another plan is handed in.
fn finished_by_another<'a>(
    alloc: Global,
    image: &'a Image,
    one: &'a Plan,
    other: &'a Plan,
) -> Result<String, Fault> {
    let Some(piece) = last_piece(alloc, image, other, &ABOVE_ONE[..2])? else {
        return Ok(String::from_str(alloc, "no piece")?);
    };
    let mut book = book(alloc, image, one)?;
    let _lease = book.lease(alloc, 1)?;
    match book.submit(1, piece) {
        Ok(()) => finished(alloc, image, book),
        Err((fault, _piece)) => Err(fault),
    }
}

#[test]
fn a_piece_of_a_plan_in_which_nothing_ends_there_is_reported(rt: HostRuntime) -> Result<(), Fail> {
    let alloc = rt.alloc();
    let image = image(alloc)?;
    let one = plan(alloc, ONE)?;
    let other = plan(alloc, BELOW)?;
    let text = finished_by_another(alloc, &image, &one, &other)?;
    assert_eq!(&rt; text.as_str(), ONE_TEXT);
    Ok(())
}

#[test]
fn a_book_whose_chains_are_not_done_is_unfinished(rt: HostRuntime) -> Result<(), Fail> {
    let alloc = rt.alloc();
    let image = image(alloc)?;
    let plan = plan(alloc, APART)?;
    let book = book(alloc, &image, &plan)?;
    let text = finished(alloc, &image, book)?;
    assert_eq!(&rt; text.as_str(), "Unfinished");
    Ok(())
}

/// Whether these choices are the path of the next lease and of its piece, which is handed in.
fn is_next(alloc: Global, book: &mut Book<'_>, choices: &[Choice]) -> Result<bool, Fault> {
    let Some(lease) = book.lease(alloc, 0)? else {
        return Ok(false);
    };
    let path = lease.path(alloc)?;
    let path = path.to_choices(alloc)?;
    let leased = path.as_slice() == choices;
    let piece = match work(alloc, lease) {
        Ok(piece) => piece,
        Err((fault, _lease)) => return Err(fault),
    };
    let path = piece.path(alloc)?;
    let path = path.to_choices(alloc)?;
    let worked = path.as_slice() == choices;
    match book.submit(0, piece) {
        Ok(()) => Ok(leased && worked),
        Err((fault, _piece)) => Err(fault),
    }
}

#[test]
fn a_lease_has_all_choices_from_the_start(rt: HostRuntime) -> Result<(), Fail> {
    let alloc = rt.alloc();
    let image = image(alloc)?;
    let plan = plan(alloc, "a: r0\nb: r0 d0>1 r2\n")?;
    let mut book = book(alloc, &image, &plan)?;
    let path = [Choice::Run(0), Choice::Deliver(0, 1), Choice::Run(2)];
    assert!(rt; is_next(alloc, &mut book, &path[..1])?);
    assert!(rt; is_next(alloc, &mut book, &path)?);
    assert!(rt; !is_next(alloc, &mut book, &path)?);
    Ok(())
}
