//! The linked slots beside the plainest mailbox, and each call once with ample memory: out of memory is an answer that
//! the contracts allow.

mod plain;

use bx_mail::Mailbox;
use bx_terms::{AtomId, Term, View};
use plain::Plain;
use std::alloc::{AllocError, Global};
use std::test::Fail;

/// Stands for the atom among the messages.
const B: i64 = -1;

fn message(number: i64) -> Term {
    if number == B {
        Term::atom(AtomId(80))
    } else {
        Term::int(number)
    }
}

fn number_of(message: Option<&Term>) -> Option<i64> {
    match message?.view() {
        View::Int(number) => Some(number),
        View::Atom(AtomId(80)) => Some(B),
        _ => None,
    }
}

#[derive(Clone, Copy)]
enum Step {
    Add(i64),
    Current(Option<i64>),
    Pass(bool),
    Take(Option<i64>),
    Reset,
    Len(usize),
}

fn add(mailbox: &mut Mailbox, number: i64) -> Result<(), AllocError> {
    mailbox.add(message(number)).map_err(|_| AllocError)
}

/// Whether the mailbox answers the step as it says.
fn answers(mailbox: &mut Mailbox, step: Step) -> Result<bool, AllocError> {
    Ok(match step {
        Step::Add(number) => {
            add(mailbox, number)?;
            true
        }
        Step::Current(number) => number_of(mailbox.current()) == number,
        Step::Pass(told) => mailbox.pass() == told,
        Step::Take(number) => number_of(mailbox.take().as_ref()) == number,
        Step::Reset => {
            mailbox.reset();
            true
        }
        Step::Len(len) => mailbox.len() == len,
    })
}

static RECEIVED: [Step; 21] = [
    Step::Add(1),
    Step::Add(B),
    Step::Add(2),
    Step::Pass(true),
    Step::Take(Some(B)),
    Step::Current(Some(1)),
    Step::Pass(true),
    Step::Pass(true),
    Step::Pass(false),
    Step::Take(None),
    Step::Add(3),
    Step::Current(Some(3)),
    Step::Reset,
    Step::Current(Some(1)),
    Step::Len(3),
    Step::Take(Some(1)),
    Step::Take(Some(2)),
    Step::Take(Some(3)),
    Step::Take(None),
    Step::Add(4),
    Step::Current(Some(4)),
];

#[test]
fn messages_are_received_out_of_order(rt: HostRuntime) -> Result<(), Fail> {
    let mut mailbox = Mailbox::new(rt.alloc());
    for (place, step) in RECEIVED.iter().enumerate() {
        assert!(rt; answers(&mut mailbox, *step)?, "step {place}");
    }
    Ok(())
}

fn add_five(mailbox: &mut Mailbox) -> Result<(), AllocError> {
    for number in 0..5 {
        add(mailbox, number)?;
    }
    Ok(())
}

/// More messages than 16 bits number.
const MANY: i64 = 70_000;

/// Whether so many messages are held at once, and are taken in the order in which they came.
fn holds_many(alloc: Global) -> Result<bool, AllocError> {
    let mut mailbox = Mailbox::new(alloc);
    for number in 0..MANY {
        add(&mut mailbox, number)?;
    }
    for number in 0..MANY {
        if number_of(mailbox.take().as_ref()) != Some(number) {
            return Ok(false);
        }
    }
    Ok(mailbox.len() == 0)
}

#[test]
fn many_messages_wait_at_once(rt: HostRuntime) -> Result<(), Fail> {
    assert!(rt; holds_many(rt.alloc())?);
    Ok(())
}

/// Whether a mailbox and its copy are the same at once, not after a pass in one, and after it in both.
fn is_same_copy(alloc: Global) -> Result<bool, AllocError> {
    let mut mailbox = Mailbox::new(alloc);
    add_five(&mut mailbox)?;
    let mut copy = mailbox.copy(alloc)?;
    let new = copy.same(&mailbox);
    mailbox.pass();
    let passed = copy.same(&mailbox);
    copy.pass();
    Ok(new && !passed && copy.same(&mailbox))
}

#[test]
fn a_copy_is_the_same_until_either_changes(rt: HostRuntime) -> Result<(), Fail> {
    assert!(rt; is_same_copy(rt.alloc())?);
    Ok(())
}

/// The next of a fixed row of numbers that follow no plain rule (Knuth's linear congruence).
fn next(seed: u64) -> u64 {
    seed.wrapping_mul(6_364_136_223_846_793_005)
        .wrapping_add(1_442_695_040_888_963_407)
}

fn add_to_both(slots: &mut Mailbox, plain: &mut Plain, number: i64) -> Result<(), AllocError> {
    add(slots, number)?;
    plain.add(message(number)).map_err(|_| AllocError)
}

/// Does the same to both, as `seed` says: whether they answer the same.
fn do_both(
    slots: &mut Mailbox,
    plain: &mut Plain,
    seed: u64,
    number: i64,
) -> Result<bool, AllocError> {
    let is_same = match (seed >> 33) % 9 {
        0..=2 => {
            add_to_both(slots, plain, number)?;
            true
        }
        3..=5 => slots.pass() == plain.pass(),
        6 | 7 => number_of(slots.take().as_ref()) == number_of(plain.take().as_ref()),
        _ => {
            slots.reset();
            plain.reset();
            true
        }
    };
    let is_current = number_of(slots.current()) == number_of(plain.current());
    Ok(is_same && is_current && slots.len() == plain.len())
}

/// Whether both give the same messages, one after another, till none is left in either.
fn drain_alike(slots: &mut Mailbox, plain: &mut Plain) -> bool {
    slots.reset();
    plain.reset();
    for _ in 0..plain.len() {
        if number_of(slots.take().as_ref()) != number_of(plain.take().as_ref()) {
            return false;
        }
    }
    slots.len() == 0
}

/// Whether both answer alike over 200 steps.
fn are_alike(alloc: Global, mut seed: u64) -> Result<bool, AllocError> {
    let mut slots = Mailbox::new(alloc);
    let mut plain = Plain::new(alloc);
    for number in 0..200 {
        seed = next(seed);
        if !do_both(&mut slots, &mut plain, seed, number)? {
            return Ok(false);
        }
    }
    Ok(drain_alike(&mut slots, &mut plain))
}

#[test]
fn slots_answer_as_the_plain_mailbox(rt: HostRuntime) -> Result<(), Fail> {
    for seed in 1..500 {
        assert!(rt; are_alike(rt.alloc(), seed)?, "{seed}");
    }
    Ok(())
}
