//! Choices whose growths are refused: the world is as it was, and the choice made again does what it does in a world like it.
//!
//! A run of these tests in which one growth is refused shows the first; where none is, two worlds go the same way.

use crate::samples::TALKED;
use bx_load::Image;
use bx_proc::Proc;
use bx_share::{ArcHold, Hold, RcHold};
use bx_terms::Fault;
use bx_world::Choice::{Deliver, Expire, Run};
use bx_world::{Choice, Lanes, RunEnd, World, advance, outcome_text};
use bxemu_testkit::{TALK, atom, image, image_of_items};
use std::alloc::Global;
use std::test::Fail;

/// More choices than a talk takes.
const MANY: usize = 200;

fn started<P: Hold<Proc>, C: Hold<Lanes>>(
    alloc: Global,
    image: &Image,
) -> Result<World<P, C>, Fault> {
    World::start(alloc, image, atom(image, "m"), atom(image, "f"))
}

/// Applies a choice, once more where memory ran out. False where the world was not then as before.
fn is_applied<P: Hold<Proc>, C: Hold<Lanes>>(
    alloc: Global,
    image: &Image,
    world: &mut World<P, C>,
    before: &World<P, C>,
    choice: Choice,
) -> Result<bool, Fault> {
    match world.apply(alloc, image, choice) {
        Ok(()) => Ok(true),
        Err(Fault::Memory) => {
            let stayed = world.same(before);
            world.apply(alloc, image, choice)?;
            Ok(stayed)
        }
        Err(fault) => Err(fault),
    }
}

/// Whether a choice leads two equal worlds alike, of which the first shares all that it holds with a snapshot; the snapshot stays
/// as it was.
fn leads_alike<P: Hold<Proc>, C: Hold<Lanes>>(
    alloc: Global,
    image: &Image,
    world: &mut World<P, C>,
    other: &mut World<P, C>,
    choice: Choice,
) -> Result<bool, Fault> {
    let before = world.snapshot(alloc)?;
    if !is_applied(alloc, image, world, &before, choice)? || !before.same(other) {
        return Ok(false);
    }
    Ok(is_applied(alloc, image, other, &before, choice)? && world.same(other))
}

/// What a talk comes to whose choices are picked by steps of that stride among those that are enabled, until none is; nothing where
/// one does not lead alike.
fn talked<P: Hold<Proc>, C: Hold<Lanes>>(
    alloc: Global,
    image: &Image,
    stride: usize,
) -> Result<String, Fault> {
    let mut world = started::<P, C>(alloc, image)?;
    let mut other = started(alloc, image)?;
    for number in 0..MANY {
        let enabled = world.enabled(alloc)?;
        let Some(at) = number.wrapping_mul(stride).checked_rem(enabled.len()) else {
            break;
        };
        let Some(choice) = enabled.get(at) else {
            break;
        };
        if !leads_alike(alloc, image, &mut world, &mut other, *choice)? {
            return Ok(String::new(alloc));
        }
    }
    let outcome = world.outcome(alloc)?;
    outcome_text(alloc, image.atoms(), 7, None, &outcome)
}

#[test]
fn a_refused_growth_leaves_the_world(rt: HostRuntime) -> Result<(), Fail> {
    let alloc = rt.alloc();
    let image = image(alloc, &[TALK])?;
    for stride in [0, 1, 2, 5] {
        let text = talked::<RcHold<Proc>, RcHold<Lanes>>(alloc, &image, stride)?;
        assert!(rt;
            text.as_str().strip_prefix("applied 7") == Some(TALKED),
            "{stride}: {text}"
        );
        let text = talked::<ArcHold<Proc>, ArcHold<Lanes>>(alloc, &image, stride)?;
        assert!(rt;
            text.as_str().strip_prefix("applied 7") == Some(TALKED),
            "{stride}: {text}"
        );
    }
    Ok(())
}

/// Items of a receive that waits for five milliseconds, and shows `late` where nothing comes.
const LATE: &str =
    "{label,3}. {loop_rec,{f,4},{x,0}}. remove_message. {call_ext_only,1,{extfunc,erlang,display,1}}.
{label,4}. {wait_timeout,{f,3},{integer,5}}. timeout. {move,{atom,late},{x,0}}. {call_ext_only,1,{extfunc,erlang,display,1}}.";

/// Items that link to nobody, exit another by a signal, and tell oneself a message.
const SIGNALS: &str =
    "{move,{atom,m},{x,0}}. {move,{atom,f},{x,1}}. {move,nil,{x,2}}. {call_ext,3,{extfunc,erlang,spawn,3}}. {allocate,1,1}.
{move,{x,0},{y,0}}. {call_ext,1,{extfunc,erlang,link,1}}. {move,{y,0},{x,0}}. {call_ext,1,{extfunc,erlang,unlink,1}}.
{move,{y,0},{x,0}}. {move,{atom,kill},{x,1}}. {call_ext,2,{extfunc,erlang,exit,2}}. {bif,self,{f,0},[],{x,0}}. send. {deallocate,1}. return.";

/// Items, choices from the start of `f` with how often each is made in a row, and what they come to.
type Row = (&'static str, &'static [(Choice, u32)], &'static str);

const RUNS: [Row; 8] = [
    (
        LATE,
        &[(Run(0), 2), (Expire(0), 1), (Run(0), 3)],
        "applied 6\nstate quiet\nprocess <0.0.0> ended normal\noutput <0.0.0> late\nend\n",
    ),
    (
        LATE,
        &[(Run(0), 3)],
        "applied 2\nstate stopped r0\nprocess <0.0.0> waiting\nend\n",
    ),
    (
        LATE,
        &[(Run(0), 1), (Expire(0), 1), (Run(0), 1)],
        "applied 1\nstate stopped e0\nprocess <0.0.0> ready\nend\n",
    ),
    (
        "{move,{atom,ok},{x,0}}. {move,{x,5},{x,0}}.",
        &[(Run(0), 3)],
        "applied 2\nstate trapped Unset <0.0.0>\nprocess <0.0.0> ready\nend\n",
    ),
    (
        "if_end.",
        &[(Run(0), 2)],
        "applied 1\nstate stopped r0\nprocess <0.0.0> ended {if_clause,[]}\nend\n",
    ),
    (
        SIGNALS,
        &[(Run(0), 16), (Deliver(0, 1), 3)],
        "applied 19\nstate quiet\nprocess <0.0.0> ended normal\nprocess <0.1.0> ended killed\nend\n",
    ),
    (
        SIGNALS,
        &[
            (Run(0), 4),
            (Run(1), 4),
            (Run(0), 12),
            (Deliver(0, 1), 3),
            (Deliver(1, 2), 1),
        ],
        "applied 23\nstate stopped d1>2\nprocess <0.0.0> ended normal\nprocess <0.1.0> ended killed\nprocess <0.2.0> ready\nend\n",
    ),
    (
        "{label,3}. {put_list,nil,nil,{x,0}}. {put_tuple2,{x,1},{list,[{x,0},{x,0}]}}. {jump,{f,3}}.",
        &[(Run(0), 8)],
        "applied 8\nstate open r0\nprocess <0.0.0> ready\nend\n",
    ),
];

/// An end that shares with that one all that it holds.
fn copied<P: Hold<Proc>, C: Hold<Lanes>>(
    alloc: Global,
    end: &RunEnd<P, C>,
) -> Result<RunEnd<P, C>, Fault> {
    Ok(RunEnd {
        world: end.world.snapshot(alloc)?,
        applied: end.applied,
        refused: end.refused,
    })
}

/// One choice more. It promises nothing, so that what calls it is proved beside few clauses.
fn go_on<P: Hold<Proc>, C: Hold<Lanes>>(
    alloc: Global,
    image: &Image,
    end: &mut RunEnd<P, C>,
    choice: Choice,
) -> Result<(), Fault> {
    if end.applied == u64::MAX {
        return Ok(());
    }
    advance(alloc, end, image, choice)
}

/// One choice more, made once more where memory ran out. False where the end was not then as before.
fn is_advanced<P: Hold<Proc>, C: Hold<Lanes>>(
    alloc: Global,
    image: &Image,
    end: &mut RunEnd<P, C>,
    before: &RunEnd<P, C>,
    choice: Choice,
) -> Result<bool, Fault> {
    match go_on(alloc, image, end, choice) {
        Ok(()) => Ok(true),
        Err(Fault::Memory) => {
            let stayed = end.same(before);
            go_on(alloc, image, end, choice)?;
            Ok(stayed)
        }
        Err(fault) => Err(fault),
    }
}

/// The same of as many.
fn are_advanced<P: Hold<Proc>, C: Hold<Lanes>>(
    alloc: Global,
    image: &Image,
    end: &mut RunEnd<P, C>,
    choice: Choice,
    times: u32,
) -> Result<bool, Fault> {
    for _time in 0..times {
        let before = copied(alloc, end)?;
        if !is_advanced(alloc, image, end, &before, choice)? {
            return Ok(false);
        }
    }
    Ok(true)
}

/// What choices come to from the start of `f`; nothing where one changes what it is refused by.
fn text_of<P: Hold<Proc>, C: Hold<Lanes>>(
    alloc: Global,
    items: &str,
    choices: &[(Choice, u32)],
) -> Result<String, Fault> {
    let image = image_of_items(alloc, items)?;
    let mut end = RunEnd {
        world: started::<P, C>(alloc, &image)?,
        applied: 0,
        refused: None,
    };
    for (choice, times) in choices {
        if !are_advanced(alloc, &image, &mut end, *choice, *times)? {
            return Ok(String::new(alloc));
        }
    }
    let outcome = end.world.outcome(alloc)?;
    outcome_text(alloc, image.atoms(), end.applied, end.refused, &outcome)
}

/// How many rows, from the first on, come to what they say.
fn right_rows<P: Hold<Proc>, C: Hold<Lanes>>(alloc: Global) -> Result<usize, Fault> {
    for (number, (items, choices, want)) in RUNS.iter().enumerate() {
        let text = text_of::<P, C>(alloc, items, choices)?;
        if text.as_str() != *want {
            return Ok(number);
        }
    }
    Ok(RUNS.len())
}

#[test]
fn a_refused_growth_leaves_the_end_of_a_run(rt: HostRuntime) -> Result<(), Fail> {
    let alloc = rt.alloc();
    assert_eq!(rt;
        right_rows::<RcHold<Proc>, RcHold<Lanes>>(alloc)?,
        RUNS.len()
    );
    assert_eq!(rt;
        right_rows::<ArcHold<Proc>, ArcHold<Lanes>>(alloc)?,
        RUNS.len()
    );
    Ok(())
}
