//! Each call once with ample memory: out of memory is an answer that every contract allows.

use bx_cells::{Frames, Links, Registers, Value};
use bx_terms::{AtomId, Class, Place, Term};
use std::alloc::{AllocError, Global};
use std::test::Fail;

fn term(number: i64) -> Value {
    Value::Term(Term::int(number))
}

/// Whether a register holds that integer.
fn has(registers: &Registers, number: u16, expected: i64) -> bool {
    registers
        .get(number)
        .is_some_and(|value| value.same(&term(expected)))
}

fn set(registers: &mut Registers, number: u16, value: Value) -> Result<(), AllocError> {
    registers.set(number, value).map_err(|_| AllocError)
}

/// Whether registers that are new hold what they are given, and no other is held.
fn are_held(registers: &mut Registers) -> Result<bool, AllocError> {
    let empty = registers.get(0).is_none();
    set(registers, 1022, Value::Term(Term::atom(AtomId(7))))?;
    set(registers, 0, term(1))?;
    set(registers, 0, term(2))?;
    let held = has(registers, 0, 2) && registers.get(1).is_none();
    Ok(empty && held && registers.get(1023).is_none())
}

fn are_flat(registers: &Registers) -> bool {
    registers.is_flat(0) && !registers.is_flat(1) && !registers.is_flat(1023)
}

/// Whether a copy is the same until the registers change.
fn are_copied(alloc: Global, registers: &mut Registers) -> Result<bool, AllocError> {
    let copy = registers.copy(alloc)?;
    let equal = copy.same(registers);
    set(registers, 5, Value::Trace(Class::Exit))?;
    Ok(equal && !copy.same(registers))
}

fn registers_keep(alloc: Global) -> Result<bool, AllocError> {
    let mut registers = Registers::new(alloc);
    let held = are_held(&mut registers)? && are_flat(&registers);
    Ok(held && are_copied(alloc, &mut registers)?)
}

#[test]
fn registers_hold_what_was_put_there(rt: HostRuntime) -> Result<(), Fail> {
    assert!(rt; registers_keep(rt.alloc())?);
    Ok(())
}

fn two_are_written(registers: &mut Registers) -> Result<bool, AllocError> {
    let two = registers.set_two(7, term(1), 3, term(2));
    two.map_err(|_| AllocError)?;
    Ok(has(registers, 7, 1) && has(registers, 3, 2))
}

fn one_is_written_twice(registers: &mut Registers) -> Result<bool, AllocError> {
    let twice = registers.set_two(3, term(4), 3, term(5));
    twice.map_err(|_| AllocError)?;
    Ok(has(registers, 3, 5))
}

fn three_are_written(registers: &mut Registers) -> Result<bool, AllocError> {
    let three = registers.set_three(term(6), term(7), term(8));
    three.map_err(|_| AllocError)?;
    Ok(has(registers, 0, 6) && has(registers, 1, 7) && has(registers, 2, 8))
}

fn several_are_written(alloc: Global) -> Result<bool, AllocError> {
    let mut registers = Registers::new(alloc);
    Ok(
        two_are_written(&mut registers)?
            && one_is_written_twice(&mut registers)?
            && three_are_written(&mut registers)?,
    )
}

#[test]
fn two_and_three_registers_are_written_at_once(rt: HostRuntime) -> Result<(), Fail> {
    assert!(rt; several_are_written(rt.alloc())?);
    Ok(())
}

const PLACE: Place = Place { module: 1, item: 2 };

fn holds(frames: &Frames, number: u16, expected: i64) -> bool {
    match frames.get(number) {
        Ok(Some(value)) => value.same(&term(expected)),
        _ => false,
    }
}

fn puts(frames: &mut Frames, number: u16, value: Value) -> bool {
    frames.set(number, value).is_ok()
}

/// Whether there is no such y register, to read or to write.
fn lacks(frames: &mut Frames, number: u16) -> bool {
    frames.get(number).is_err() && !puts(frames, number, term(0))
}

/// Two frames more, of two registers with the last one set, and of three that are set: whether all are.
fn push_two(frames: &mut Frames) -> Result<bool, AllocError> {
    frames.push(2, None)?;
    let mut are_set = puts(frames, 1, term(10));
    frames.push(3, Some(PLACE))?;
    for number in 0..3u16 {
        are_set &= puts(frames, number, term(number as i64));
    }
    Ok(are_set)
}

fn are_trimmed(frames: &mut Frames) -> bool {
    let three = lacks(frames, 3) && frames.top() == Some((3, Some(PLACE)));
    frames.trim(2);
    three && frames.top() == Some((1, Some(PLACE))) && holds(frames, 0, 2)
}

/// Whether a copy is the same until a frame is taken away, under which the first one is.
fn are_popped(alloc: Global, frames: &mut Frames) -> Result<bool, AllocError> {
    let copy = frames.copy(alloc)?;
    let equal = copy.same(frames);
    frames.pop();
    let popped = !copy.same(frames) && frames.top() == Some((2, None));
    Ok(equal && popped && holds(frames, 1, 10))
}

fn frames_are_kept(alloc: Global) -> Result<bool, AllocError> {
    let mut frames = Frames::new(alloc);
    let none = frames.top().is_none() && lacks(&mut frames, 0);
    let two = push_two(&mut frames)?;
    Ok(none && two && are_trimmed(&mut frames) && are_popped(alloc, &mut frames)?)
}

#[test]
fn frames_are_stacked_trimmed_and_taken_away(rt: HostRuntime) -> Result<(), Fail> {
    assert!(rt; frames_are_kept(rt.alloc())?);
    Ok(())
}

const ABOVE: Place = Place { module: 0, item: 4 };

/// A frame with two tags, of which the lower register's is found, from the frame above too.
fn is_found(frames: &mut Frames) -> Result<bool, AllocError> {
    let none = frames.handler().is_none() && frames.handler_below().is_none();
    frames.push(3, None)?;
    let set = puts(frames, 2, Value::Tag(ABOVE)) && puts(frames, 1, Value::Tag(PLACE));
    frames.push(1, None)?;
    let below = frames.handler_below() == Some((1, PLACE));
    Ok(none && set && below && frames.handler() == Some((1, PLACE)))
}

/// A frame more, with a tag of its own, and then the two upper ones cut away.
fn is_found_above(frames: &mut Frames) -> Result<bool, AllocError> {
    frames.push(1, None)?;
    let top = puts(frames, 0, Value::Tag(ABOVE)) && frames.handler() == Some((0, ABOVE));
    let two_below = frames.handler_below() == Some((2, PLACE));
    frames.cut(2);
    Ok(top && two_below && frames.top() == Some((3, None)))
}

fn tags_are_seen(alloc: Global) -> Result<bool, AllocError> {
    let mut frames = Frames::new(alloc);
    let found = is_found(&mut frames)?;
    Ok(found && is_found_above(&mut frames)?)
}

#[test]
fn tags_are_found_from_the_top(rt: HostRuntime) -> Result<(), Fail> {
    assert!(rt; tags_are_seen(rt.alloc())?);
    Ok(())
}

fn insert_all(links: &mut Links, pids: &[u32]) -> Result<(), AllocError> {
    for pid in pids {
        links.insert(*pid)?;
    }
    Ok(())
}

fn are_in_order(links: &Links) -> bool {
    let rising = links.as_slice() == [2, 5, 9].as_slice();
    rising && links.contains(9) && !links.contains(3)
}

fn is_copied(alloc: Global, links: &Links) -> Result<bool, AllocError> {
    let copy = links.copy(alloc)?;
    Ok(links.same(&copy))
}

fn is_but(alloc: Global, links: &Links) -> Result<bool, AllocError> {
    let left = links.but(alloc, 5)?;
    Ok(left.as_slice() == [2, 9].as_slice())
}

fn is_removed(links: &mut Links) -> bool {
    let removed = links.remove(5) && !links.remove(5);
    removed && links.as_slice() == [2, 9].as_slice()
}

fn links_are_kept(alloc: Global) -> Result<bool, AllocError> {
    let mut links = Links::new(alloc);
    insert_all(&mut links, &[5, 2, 9, 5])?;
    let copied = is_copied(alloc, &links)? && is_but(alloc, &links)?;
    Ok(copied && are_in_order(&links) && is_removed(&mut links))
}

#[test]
fn links_are_a_set(rt: HostRuntime) -> Result<(), Fail> {
    assert!(rt; links_are_kept(rt.alloc())?);
    Ok(())
}
