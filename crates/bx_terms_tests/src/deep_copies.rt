//! Deep copies of terms and mailboxes, and the room that they take.

use crate::built::{Flat, cons, tuple};
use bx_mail::Mailbox;
use bx_terms::{MAX_HEIGHT, Term};
use std::alloc::{AllocError, Global};
use std::test::Fail;

/// `[7|{1,nil}]`: a cell and two elements, so that it takes a room of 3.
fn sample(alloc: Global) -> Result<Term, AllocError> {
    let pair = tuple(alloc, &[Flat::Int(1), Flat::Nil])?;
    cons(alloc, Term::int(7), pair)
}

/// Whether a deep copy of the term is the same, and what is left of the room; none past the room.
fn deep_copy_of(alloc: Global, term: &Term, room: usize) -> Option<(bool, usize)> {
    let mut room = room;
    let copy = term.deep_copy(alloc, &mut room).ok()?;
    Some((copy.same(term), room))
}

#[test]
fn a_deep_copy_takes_room_for_each_cell_and_element(rt: HostRuntime) -> Result<(), Fail> {
    let term = sample(rt.alloc())?;
    for (room, want) in [(5, Some((true, 2))), (3, Some((true, 0))), (2, None)] {
        assert_eq!(rt; deep_copy_of(rt.alloc(), &term, room), want);
    }
    assert_eq!(rt; deep_copy_of(rt.alloc(), &Term::pid(4), 0), Some((true, 0)));
    Ok(())
}

/// `levels` cells one in another, as tails.
fn long(alloc: Global, levels: u32) -> Result<Term, AllocError> {
    let mut term = Term::nil();
    for _ in 0..levels {
        term = cons(alloc, Term::nil(), term)?;
    }
    Ok(term)
}

#[test]
fn a_term_as_high_as_may_be_is_copied_deeply(rt: HostRuntime) -> Result<(), Fail> {
    let term = long(rt.alloc(), MAX_HEIGHT)?;
    for (room, want) in [(10_000, Some((true, 0))), (9_999, None)] {
        assert_eq!(rt; deep_copy_of(rt.alloc(), &term, room), want);
    }
    Ok(())
}

/// A mailbox of the sample, passed over, and another.
fn passed(alloc: Global) -> Result<Mailbox, AllocError> {
    let mut mailbox = Mailbox::new(alloc);
    for _ in 0..2 {
        let message = sample(alloc)?;
        if mailbox.add(message).is_err() {
            return Err(AllocError);
        }
    }
    mailbox.pass();
    Ok(mailbox)
}

/// Whether that mailbox is the same once it shares nothing, with so much room, what the answer is, and the room left.
fn unshared(alloc: Global, room: usize) -> Result<(bool, bool, usize), AllocError> {
    let mut mailbox = passed(alloc)?;
    let before = mailbox.copy(alloc)?;
    let mut room = room;
    let is_done = mailbox.unshare(alloc, &mut room).is_ok();
    Ok((mailbox.same(&before), is_done, room))
}

#[test]
fn a_mailbox_that_shares_nothing_is_the_same(rt: HostRuntime) -> Result<(), Fail> {
    assert!(rt; unshared(rt.alloc(), 7)? == (true, true, 1));
    let past = unshared(rt.alloc(), 5)?;
    assert!(rt; past.0 && !past.1);
    Ok(())
}
