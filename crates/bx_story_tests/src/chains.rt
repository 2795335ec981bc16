//! The chains of plans, and how many of them stand how while a book's are done.

use crate::samples::SENDERS;
use bx_board::{Book, work};
use bx_load::Image;
use bx_plan::{Chains, Plan, Schedule, chains_of, read_plan};
use bx_terms::Fault;
use bx_world::choice_text;
use bxemu_testkit::{atom, image};
use std::alloc::Global;
use std::test::Fail;

/// A plan, and its chains: of each the choices that lead to where it begins, a bar, and its own.
type Row = (&'static str, &'static [&'static str]);

const CHAINS: [Row; 5] = [
    ("", &[]),
    ("a:\nb:", &[]),
    // a schedule goes on where another ends
    ("p: r0*3\nq: r0*6", &[" | r0 r0 r0", " r0 r0 r0 | r0 r0 r0"]),
    // two part behind r0, and two end where a third goes on
    (
        "a: r0 r1\nb: r0 d0>1\nc: r0 r1 r1\nd:\ne: r0 r1",
        &[" | r0", " r0 | r1", " r0 | d0>1", " r0 r1 | r1"],
    ),
    // within equal choices: schedules end or part behind three of them, five, eight, and five and another
    (
        "a: r0*5 r1*2\nb: r0*3\nc: r0*3 r1*2\nd: r0*8\ne: r0 r0*4 r1\nf: r0*9",
        &[
            " | r0 r0 r0",
            " r0 r0 r0 | r0 r0",
            " r0 r0 r0 | r1 r1",
            " r0 r0 r0 r0 r0 | r0 r0 r0",
            " r0 r0 r0 r0 r0 | r1",
            " r0 r0 r0 r0 r0 r1 | r1",
            " r0 r0 r0 r0 r0 r0 r0 r0 | r0",
        ],
    ),
];

/// Adds the choices of a schedule from one position up to the one before another.
fn push_choices(
    alloc: Global,
    out: &mut String,
    schedule: &Schedule,
    from: usize,
    past: usize,
) -> Result<(), Fault> {
    for position in from..past {
        if let Some(choice) = schedule.get(position) {
            out.push_str(" ")?;
            out.push_str(choice_text(alloc, choice)?.as_str())?;
        }
    }
    Ok(())
}

/// A chain of choices of the schedule of that number.
fn chain_text(
    alloc: Global,
    plan: &Plan,
    line: usize,
    first: usize,
    past: usize,
) -> Result<String, Fault> {
    let mut out = String::new(alloc);
    let Some(schedule) = plan.schedule(alloc, line) else {
        return Ok(out);
    };
    let schedule = schedule?;
    push_choices(alloc, &mut out, &schedule, 0, first)?;
    out.push_str(" |")?;
    push_choices(alloc, &mut out, &schedule, first, past)?;
    Ok(out)
}

/// Whether the chain of that number is one of these, and stands on one that ends where it begins.
fn is_one_of(
    alloc: Global,
    plan: &Plan,
    chains: &Chains,
    number: usize,
    want: &[&str],
) -> Result<bool, Fault> {
    if number >= chains.len() {
        return Ok(false);
    }
    let head = chains.head(number);
    if head.above >= number || chains.head(head.above).past != head.first {
        return Ok(false);
    }
    let text = chain_text(alloc, plan, head.line, head.first, head.past)?;
    Ok(want.iter().any(|one| *one == text.as_str()))
}

/// Whether these are the chains of a plan, in some order.
fn are_chains(alloc: Global, text: &str, want: &[&str]) -> Result<bool, Fault> {
    let plan = read_plan(alloc, text.as_bytes())?;
    let chains = chains_of(alloc, &plan)?;
    for number in 1..chains.len() {
        if !is_one_of(alloc, &plan, &chains, number, want)? {
            return Ok(false);
        }
    }
    Ok(chains.len().checked_sub(1) == Some(want.len()))
}

#[test]
fn schedules_end_and_part(rt: HostRuntime) -> Result<(), Fail> {
    for (plan, want) in CHAINS {
        assert!(rt; are_chains(rt.alloc(), plan, want)?, "{plan}");
    }
    Ok(())
}

/// A plan, and how many chains are unborn, free, leased and done before any is leased, behind one that is done, and behind a second.
const COUNTS: [(&str, &str); 4] = [
    ("a:\nb:", "0 0 0 1\n0 0 0 1\n0 0 0 1\n"),
    ("x: r0\ny: r1", "0 2 0 1\n0 1 0 2\n0 0 0 3\n"),
    ("x: r0*2\ny: r0 r1", "2 1 0 1\n0 2 0 2\n0 1 0 3\n"),
    ("p: r0*3\nq: r0*6", "1 1 0 1\n0 1 0 2\n0 0 0 3\n"),
];

fn push_counts(out: &mut String, book: &Book<'_>) -> Result<(), Fault> {
    let counts = book.counts();
    write!(out, "{} {} ", counts.unborn, counts.free)?;
    write!(out, "{} {}\n", counts.leased, counts.done)?;
    Ok(())
}

/// Leases a chain, where one is free, and hands its end in.
fn do_one(alloc: Global, book: &mut Book<'_>) -> Result<(), Fault> {
    let Some(lease) = book.lease(alloc, 1)? else {
        return Ok(());
    };
    let piece = match work(alloc, lease) {
        Ok(piece) => piece,
        Err((fault, _lease)) => return Err(fault),
    };
    match book.submit(1, piece) {
        Ok(()) => Ok(()),
        Err((fault, _piece)) => Err(fault),
    }
}

/// How many chains stand how in a book that begins, behind one that is done, and behind a second.
fn told_of_counts(alloc: Global, image: &Image, plan: &Plan) -> Result<String, Fault> {
    let mut out = String::new(alloc);
    let mut book = Book::new(alloc, image, atom(image, "m"), atom(image, "f"), plan)?;
    push_counts(&mut out, &book)?;
    for _ in 0..2 {
        do_one(alloc, &mut book)?;
        push_counts(&mut out, &book)?;
    }
    Ok(out)
}

/// Whether that is how the chains of a plan stand.
fn stand_so(alloc: Global, text: &str, want: &str) -> Result<bool, Fault> {
    let image = image(alloc, &[SENDERS])?;
    let plan = read_plan(alloc, text.as_bytes())?;
    let counts = told_of_counts(alloc, &image, &plan)?;
    Ok(counts.as_str() == want)
}

#[test]
fn chains_are_born_where_one_is_done(rt: HostRuntime) -> Result<(), Fail> {
    for (plan, want) in COUNTS {
        assert!(rt; stand_so(rt.alloc(), plan, want)?, "{plan}");
    }
    Ok(())
}
