//! Sessions: what stands behind their contracts, that calls succeed where there is memory, and worlds against runs from the start.
//!
//! A run of these tests in which one growth is refused shows besides that the session is as it was then, and that the call made again
//! answers as its row says.

use crate::samples::{LOOP, TRAPS, TWO};
use bx_debug::{Session, Stop};
use bx_load::Image;
use bx_plan::{Run, Schedule};
use bx_terms::{Fault, Place, Trap};
use bx_world::{Choice, RcWorld};
use bxemu_testkit::{TALK, atom, image};
use std::alloc::Global;
use std::test::Fail;

const OWN: Choice = Choice::Run(0);

/// A process that is not there.
const OTHER: Choice = Choice::Run(7);

/// x5 holds nothing.
const UNSET: Stop = Stop::Trapped(Trap::Unset, 0);

/// The second item of each listing's process.
const SECOND: Stop = Stop::Break(0, Place { module: 0, item: 4 });

/// A call of a session.
#[derive(Clone, Copy)]
enum Act<'a> {
    Step(Choice),
    Back(usize),
    Forward(usize),
    Go(&'a [Choice]),
    /// As many runs of process 0.
    GoOwn(usize),
    Set(u32),
    Clear(u32),
    Swap(usize),
    Tidy,
    Undo(usize),
}

/// A call, the number of its refusal, why it stopped, and where the session stands then, of how many choices.
type Row<'a> = (Act<'a>, u8, Stop, usize, usize);

const POSITIONS: [Row<'static>; 14] = [
    (Act::GoOwn(130), 0, Stop::Done, 130, 130),
    (Act::Back(2), 0, Stop::Done, 128, 130),
    (Act::Back(1), 0, Stop::Done, 127, 130),
    (Act::Back(63), 0, Stop::Done, 64, 130),
    (Act::Back(1), 0, Stop::Done, 63, 130),
    (Act::Back(64), 22, Stop::Done, 63, 130),
    (Act::Back(63), 0, Stop::Done, 0, 130),
    (Act::Back(0), 0, Stop::Done, 0, 130),
    (Act::Forward(63), 0, Stop::Done, 63, 130),
    (Act::Forward(1), 0, Stop::Done, 64, 130),
    (Act::Forward(67), 23, Stop::Done, 64, 130),
    (Act::Forward(65), 0, Stop::Done, 129, 130),
    (Act::Forward(1), 0, Stop::Done, 130, 130),
    (Act::Forward(0), 0, Stop::Done, 130, 130),
];

const OTHERS_MADE: [Row<'static>; 13] = [
    (Act::GoOwn(130), 0, Stop::Done, 130, 130),
    (Act::Back(65), 0, Stop::Done, 65, 130),
    (Act::Step(OTHER), 20, Stop::Done, 65, 130),
    (Act::Go(&[OTHER, OWN]), 0, Stop::NotEnabled(OTHER), 65, 130),
    (Act::Go(&[]), 0, Stop::Done, 65, 130),
    (Act::Step(OWN), 0, Stop::Done, 66, 66),
    (Act::Forward(1), 23, Stop::Done, 66, 66),
    (Act::Back(67), 22, Stop::Done, 66, 66),
    (Act::Back(2), 0, Stop::Done, 64, 66),
    (Act::Back(1), 0, Stop::Done, 63, 66),
    (Act::Go(&[OWN, OTHER]), 0, Stop::NotEnabled(OTHER), 64, 64),
    (Act::GoOwn(70), 0, Stop::Done, 134, 134),
    (Act::Back(6), 0, Stop::Done, 128, 134),
];

const AT_PLACES: [Row<'static>; 9] = [
    (Act::Set(4), 0, Stop::Done, 0, 0),
    (Act::Go(&[OWN, OWN]), 0, SECOND, 1, 1),
    (Act::Step(OWN), 0, Stop::Done, 2, 2),
    (Act::Clear(4), 0, Stop::Done, 2, 2),
    (Act::Clear(4), 0, Stop::Done, 2, 2),
    (Act::Go(&[OWN, OWN]), 0, Stop::Done, 4, 4),
    (
        Act::Go(&[OWN, OTHER, OWN]),
        0,
        Stop::NotEnabled(OTHER),
        5,
        5,
    ),
    (Act::Set(3), 0, Stop::Done, 5, 5),
    (Act::Go(&[OWN]), 0, Stop::Done, 6, 6),
];

const ENDED: [Row<'static>; 7] = [
    (Act::Set(0), 0, Stop::Done, 0, 0),
    (Act::Set(3), 0, Stop::Done, 0, 0),
    (Act::Set(4), 0, Stop::Done, 0, 0),
    (Act::Set(5), 0, Stop::Done, 0, 0),
    (Act::Go(&[OWN, OWN]), 0, SECOND, 1, 1),
    (Act::Go(&[OWN]), 0, Stop::Done, 2, 2),
    (Act::Go(&[OWN]), 0, Stop::NotEnabled(OWN), 2, 2),
];

const TRAPPED: [Row<'static>; 8] = [
    (Act::Step(OWN), 0, Stop::Done, 1, 1),
    (Act::Set(4), 0, Stop::Done, 1, 1),
    (Act::Go(&[OWN, OWN]), 0, UNSET, 2, 2),
    (Act::Step(OWN), 21, Stop::Done, 2, 2),
    (Act::Go(&[OWN]), 0, UNSET, 2, 2),
    (Act::Go(&[]), 0, Stop::Done, 2, 2),
    (Act::Back(1), 0, Stop::Done, 1, 2),
    (Act::Go(&[OWN]), 0, UNSET, 2, 2),
];

/// Behind nine runs process 0 stands at item 12, and process 1 is there.
const AT_12: Stop = Stop::Break(
    0,
    Place {
        module: 0,
        item: 12,
    },
);

/// Choices 10 to 12 are runs of 1, 0 and 0, each of an instruction that concerns its process alone; choice 9 spawns process 1.
const SWAPPED: [Row<'static>; 12] = [
    (Act::Set(12), 0, Stop::Done, 0, 0),
    (Act::GoOwn(9), 0, AT_12, 9, 9),
    (Act::Step(Choice::Run(1)), 0, Stop::Done, 10, 10),
    (Act::GoOwn(2), 0, Stop::Done, 12, 12),
    (Act::Back(1), 0, Stop::Done, 11, 12),
    (Act::Swap(10), 0, Stop::Done, 11, 12),
    (Act::Swap(11), 27, Stop::Done, 11, 12),
    (Act::Forward(1), 0, Stop::Done, 12, 12),
    (Act::Swap(9), 27, Stop::Done, 12, 12),
    (Act::Swap(11), 0, Stop::Done, 12, 12),
    (Act::Swap(0), 27, Stop::Done, 12, 12),
    (Act::Clear(12), 0, Stop::Done, 12, 12),
];

/// The same choices: those that process 1 does not depend on are made without it.
const TAKEN_BACK: [Row<'static>; 12] = [
    (Act::Tidy, 0, Stop::Done, 0, 0),
    (Act::GoOwn(9), 0, Stop::Done, 9, 9),
    (Act::Step(Choice::Run(1)), 0, Stop::Done, 10, 10),
    (Act::GoOwn(2), 0, Stop::Done, 12, 12),
    (Act::Back(1), 0, Stop::Done, 11, 12),
    (Act::Undo(12), 27, Stop::Done, 11, 12),
    (Act::Undo(10), 0, Stop::Done, 10, 12),
    (Act::Undo(0), 27, Stop::Done, 10, 12),
    (Act::Forward(2), 0, Stop::Done, 12, 12),
    (Act::Tidy, 0, Stop::Done, 12, 12),
    (Act::Undo(12), 0, Stop::Done, 11, 12),
    (Act::Undo(9), 0, Stop::Done, 8, 12),
];

fn item(item: u32) -> Place {
    Place { module: 0, item }
}

/// The number of a refusal; 0 for none, and out of memory is handed on.
fn number_of(done: Result<(), Fault>) -> Result<u8, Fault> {
    match done {
        Ok(()) => Ok(0),
        Err(fault) => fault.number().ok_or(fault),
    }
}

/// As many runs of process 0.
fn gone(alloc: Global, session: &mut Session<'_>, times: usize) -> Result<Stop, Fault> {
    let runs = [Run { choice: OWN, times }];
    let schedule = Schedule::of(alloc, &runs)?;
    session.go(alloc, &schedule)
}

/// Does a call, and gives the number of its refusal and why it stopped.
fn called(alloc: Global, session: &mut Session<'_>, act: Act<'_>) -> Result<(u8, Stop), Fault> {
    let done = match act {
        Act::Step(choice) => session.step(alloc, choice),
        Act::Back(count) => session.back(alloc, count),
        Act::Forward(count) => session.forward(alloc, count),
        Act::Go(choices) => {
            let schedule = Schedule::from_choices(alloc, choices)?;
            return Ok((0, session.go(alloc, &schedule)?));
        }
        Act::GoOwn(count) => return Ok((0, gone(alloc, session, count)?)),
        Act::Set(place) => session.set_break(alloc, item(place)),
        Act::Clear(place) => {
            session.clear_break(item(place));
            Ok(())
        }
        Act::Swap(number) => session.swap(alloc, number),
        Act::Tidy => session.tidy(alloc),
        Act::Undo(number) => session.undo(alloc, number),
    };
    Ok((number_of(done)?, Stop::Done))
}

/// Whether a session shows the world that the choices before its position lead to.
fn is_run(alloc: Global, image: &Image, session: &Session<'_>) -> Result<bool, Fault> {
    let choices = session.schedule().to_choices(alloc)?;
    let mut other = RcWorld::start(alloc, image, atom(image, "m"), atom(image, "f"))?;
    for choice in choices.iter().take(session.at()) {
        other.apply(alloc, image, *choice)?;
    }
    Ok(session.world().same(&other))
}

/// Does a call, once more where memory ran out; and whether the session stood then as one that has made just the calls before it.
fn called_again(
    alloc: Global,
    session: &mut Session<'_>,
    before: &Session<'_>,
    act: Act<'_>,
) -> Result<((u8, Stop), bool), Fault> {
    match called(alloc, session, act) {
        Ok(answer) => Ok((answer, true)),
        Err(Fault::Memory) => {
            let stayed = session.same(before);
            Ok((called(alloc, session, act)?, stayed))
        }
        Err(fault) => Err(fault),
    }
}

/// Whether a row's call answers so, the session shows the world of its choices behind it, and another, which makes the same calls,
/// is the same then.
fn is_right(
    alloc: Global,
    image: &Image,
    session: &mut Session<'_>,
    other: &mut Session<'_>,
    row: &Row<'_>,
) -> Result<bool, Fault> {
    let (act, number, stop, at, len) = *row;
    let (answer, stayed) = called_again(alloc, session, other, act)?;
    let shown = is_run(alloc, image, session)?;
    let again = called(alloc, other, act)?;
    let stands = session.at() == at && session.len() == len && session.same(other);
    Ok(answer == (number, stop) && again == answer && stayed && stands && shown)
}

/// A session from `f`. It promises nothing, so that what calls it is proved beside few clauses.
fn opened<'a>(alloc: Global, image: &'a Image) -> Result<Session<'a>, Fault> {
    Session::new(alloc, image, atom(image, "m"), atom(image, "f"))
}

/// How many rows, from the first on, are right in two sessions over that code.
fn right_in(alloc: Global, image: &Image, rows: &[Row<'_>]) -> Result<usize, Fault> {
    let mut session = opened(alloc, image)?;
    let mut other = opened(alloc, image)?;
    for (number, row) in rows.iter().enumerate() {
        if !is_right(alloc, image, &mut session, &mut other, row)? {
            return Ok(number);
        }
    }
    Ok(rows.len())
}

/// The same over the code of a listing.
fn right_rows(alloc: Global, listing: &str, rows: &[Row<'_>]) -> Result<usize, Fault> {
    let image = image(alloc, &[listing])?;
    right_in(alloc, &image, rows)
}

#[test]
fn positions_show_the_worlds_of_their_choices(rt: HostRuntime) -> Result<(), Fail> {
    assert_eq!(rt; right_rows(rt.alloc(), LOOP, &POSITIONS)?, POSITIONS.len());
    Ok(())
}

#[test]
fn choices_are_dropped_where_others_are_made(rt: HostRuntime) -> Result<(), Fail> {
    assert_eq!(rt;
        right_rows(rt.alloc(), LOOP, &OTHERS_MADE)?,
        OTHERS_MADE.len()
    );
    Ok(())
}

#[test]
fn runs_break_off_at_places(rt: HostRuntime) -> Result<(), Fail> {
    assert_eq!(rt; right_rows(rt.alloc(), LOOP, &AT_PLACES)?, AT_PLACES.len());
    Ok(())
}

#[test]
fn an_ended_process_breaks_nowhere(rt: HostRuntime) -> Result<(), Fail> {
    assert_eq!(rt; right_rows(rt.alloc(), TWO, &ENDED)?, ENDED.len());
    Ok(())
}

#[test]
fn a_trap_goes_before_a_break(rt: HostRuntime) -> Result<(), Fail> {
    assert_eq!(rt; right_rows(rt.alloc(), TRAPS, &TRAPPED)?, TRAPPED.len());
    Ok(())
}

#[test]
fn exchanges_leave_all_else(rt: HostRuntime) -> Result<(), Fail> {
    assert_eq!(rt; right_rows(rt.alloc(), TALK, &SWAPPED)?, SWAPPED.len());
    Ok(())
}

#[test]
fn exchanges_are_made_before_the_position(rt: HostRuntime) -> Result<(), Fail> {
    assert_eq!(rt;
        right_rows(rt.alloc(), TALK, &TAKEN_BACK)?,
        TAKEN_BACK.len()
    );
    Ok(())
}
