//! Natives that concern others, as last calls: with a frame and a continuation, and without; by a caller that is linked to a
//! process, and by one that is not.

use crate::reports::{IDLE, TRAPS, report_of, spawning};
use bx_terms::Fault;
use bxemu_testkit::joined;
use std::alloc::Global;
use std::test::Fail;

/// One that shows a message, and ends.
const SHOWS: &str =
    "{label,5}. {loop_rec,{f,6},{x,0}}. {call_ext_only,1,{extfunc,erlang,display,1}}. {label,6}. {wait,{f,5}}.";

/// What process 0 does once it has spawned process 1 in four runs and holds its pid in x0; the child; and the choices with their
/// report, of a caller that is not linked to the child and of one that is.
type Row = (
    &'static str,
    &'static str,
    (&'static str, &'static str),
    (&'static str, &'static str),
);

/// Without a frame and a continuation: the caller ends with `normal`.
const ALONE: [Row; 8] = [
    (
        "{call_ext_only,1,{extfunc,erlang,link,1}}.",
        TRAPS,
        (
            "r0*5 r1*3 d0>1 d0>1 r1*2",
            "applied 12\nstate quiet\nprocess <0.0.0> ended normal\nprocess <0.1.0> ended normal\noutput <0.1.0> {'EXIT',<0.0.0>,normal}\nend\n",
        ),
        (
            "r0*5 r1*3 d0>1 r1*2",
            "applied 11\nstate quiet\nprocess <0.0.0> ended normal\nprocess <0.1.0> ended normal\noutput <0.1.0> {'EXIT',<0.0.0>,normal}\nend\n",
        ),
    ),
    (
        "{call_ext_only,1,{extfunc,erlang,unlink,1}}.",
        TRAPS,
        (
            "r0*5 r1*3 d0>1",
            "applied 8\nstate stopped d0>1\nprocess <0.0.0> ended normal\nprocess <0.1.0> ready\nend\n",
        ),
        (
            "r0*5 r1*3 d0>1 r1*2",
            "applied 11\nstate quiet\nprocess <0.0.0> ended normal\nprocess <0.1.0> waiting\nend\n",
        ),
    ),
    (
        "{move,{atom,m},{x,0}}. {call_ext_only,3,{extfunc,erlang,spawn,3}}.",
        IDLE,
        (
            "r0*6",
            "applied 6\nstate open r1 r2\nprocess <0.0.0> ended normal\nprocess <0.1.0> ready\nprocess <0.2.0> ready\nend\n",
        ),
        (
            "r0*6",
            "applied 6\nstate open r1 r2 d0>1\nprocess <0.0.0> ended normal\nprocess <0.1.0> ready\nprocess <0.2.0> ready\nend\n",
        ),
    ),
    (
        "{move,{atom,m},{x,0}}. {call_ext_only,3,{extfunc,erlang,spawn_link,3}}.",
        IDLE,
        (
            "r0*6",
            "applied 6\nstate open r1 r2 d0>2\nprocess <0.0.0> ended normal\nprocess <0.1.0> ready\nprocess <0.2.0> ready\nend\n",
        ),
        (
            "r0*6",
            "applied 6\nstate open r1 r2 d0>1 d0>2\nprocess <0.0.0> ended normal\nprocess <0.1.0> ready\nprocess <0.2.0> ready\nend\n",
        ),
    ),
    (
        "{move,{atom,a},{x,1}}. {call_ext_only,2,{extfunc,erlang,exit,2}}.",
        IDLE,
        (
            "r0*6 d0>1 d0>1",
            "applied 7\nstate stopped d0>1\nprocess <0.0.0> ended normal\nprocess <0.1.0> ended a\nend\n",
        ),
        (
            "r0*6 d0>1 d0>1",
            "applied 8\nstate open d1>0\nprocess <0.0.0> ended normal\nprocess <0.1.0> ended a\nend\n",
        ),
    ),
    (
        "{move,{atom,a},{x,1}}. {call_ext_only,2,{extfunc,erlang,send,2}}.",
        SHOWS,
        (
            "r0*6 d0>1 r1*2",
            "applied 9\nstate quiet\nprocess <0.0.0> ended normal\nprocess <0.1.0> ended normal\noutput <0.1.0> a\nend\n",
        ),
        (
            "r0*6 d0>1 r1*2",
            "applied 9\nstate open d0>1 d1>0\nprocess <0.0.0> ended normal\nprocess <0.1.0> ended normal\noutput <0.1.0> a\nend\n",
        ),
    ),
    (
        "{move,{atom,a},{x,1}}. {call_ext_only,2,{extfunc,erlang,'!',2}}.",
        SHOWS,
        (
            "r0*6 d0>1 r1*2",
            "applied 9\nstate quiet\nprocess <0.0.0> ended normal\nprocess <0.1.0> ended normal\noutput <0.1.0> a\nend\n",
        ),
        (
            "r0*6 d0>1 r1*2",
            "applied 9\nstate open d0>1 d1>0\nprocess <0.0.0> ended normal\nprocess <0.1.0> ended normal\noutput <0.1.0> a\nend\n",
        ),
    ),
    (
        "{call_ext_only,1,{extfunc,erlang,display,1}}.",
        IDLE,
        (
            "r0*5",
            "applied 5\nstate open r1\nprocess <0.0.0> ended normal\nprocess <0.1.0> ready\noutput <0.0.0> <0.1.0>\nend\n",
        ),
        (
            "r0*5",
            "applied 5\nstate open r1 d0>1\nprocess <0.0.0> ended normal\nprocess <0.1.0> ready\noutput <0.0.0> <0.1.0>\nend\n",
        ),
    ),
];

/// With a frame and a continuation, which shows the value that is given, and ends with `normal`.
const WITHIN: [Row; 8] = [
    (
        "{call_ext_last,1,{extfunc,erlang,link,1},1}.",
        TRAPS,
        (
            "r0*9 r1*3 d0>1 d0>1 r1*2",
            "applied 16\nstate quiet\nprocess <0.0.0> ended normal\nprocess <0.1.0> ended normal\noutput <0.0.0> true\noutput <0.1.0> {'EXIT',<0.0.0>,normal}\nend\n",
        ),
        (
            "r0*9 r1*3 d0>1 r1*2",
            "applied 15\nstate quiet\nprocess <0.0.0> ended normal\nprocess <0.1.0> ended normal\noutput <0.0.0> true\noutput <0.1.0> {'EXIT',<0.0.0>,normal}\nend\n",
        ),
    ),
    (
        "{call_ext_last,1,{extfunc,erlang,unlink,1},1}.",
        TRAPS,
        (
            "r0*9 r1*3 d0>1",
            "applied 12\nstate stopped d0>1\nprocess <0.0.0> ended normal\nprocess <0.1.0> ready\noutput <0.0.0> true\nend\n",
        ),
        (
            "r0*9 r1*3 d0>1 r1*2",
            "applied 15\nstate quiet\nprocess <0.0.0> ended normal\nprocess <0.1.0> waiting\noutput <0.0.0> true\nend\n",
        ),
    ),
    (
        "{move,{atom,m},{x,0}}. {call_ext_last,3,{extfunc,erlang,spawn,3},1}.",
        IDLE,
        (
            "r0*10",
            "applied 10\nstate open r1 r2\nprocess <0.0.0> ended normal\nprocess <0.1.0> ready\nprocess <0.2.0> ready\noutput <0.0.0> <0.2.0>\nend\n",
        ),
        (
            "r0*10",
            "applied 10\nstate open r1 r2 d0>1\nprocess <0.0.0> ended normal\nprocess <0.1.0> ready\nprocess <0.2.0> ready\noutput <0.0.0> <0.2.0>\nend\n",
        ),
    ),
    (
        "{move,{atom,m},{x,0}}. {call_ext_last,3,{extfunc,erlang,spawn_link,3},1}.",
        IDLE,
        (
            "r0*10",
            "applied 10\nstate open r1 r2 d0>2\nprocess <0.0.0> ended normal\nprocess <0.1.0> ready\nprocess <0.2.0> ready\noutput <0.0.0> <0.2.0>\nend\n",
        ),
        (
            "r0*10",
            "applied 10\nstate open r1 r2 d0>1 d0>2\nprocess <0.0.0> ended normal\nprocess <0.1.0> ready\nprocess <0.2.0> ready\noutput <0.0.0> <0.2.0>\nend\n",
        ),
    ),
    (
        "{move,{atom,a},{x,1}}. {call_ext_last,2,{extfunc,erlang,exit,2},1}.",
        IDLE,
        (
            "r0*10 d0>1",
            "applied 11\nstate quiet\nprocess <0.0.0> ended normal\nprocess <0.1.0> ended a\noutput <0.0.0> true\nend\n",
        ),
        (
            "r0*10 d0>1 d0>1 d1>0",
            "applied 13\nstate quiet\nprocess <0.0.0> ended normal\nprocess <0.1.0> ended a\noutput <0.0.0> true\nend\n",
        ),
    ),
    (
        "{move,{atom,a},{x,1}}. {call_ext_last,2,{extfunc,erlang,send,2},1}.",
        SHOWS,
        (
            "r0*10 d0>1 r1*2",
            "applied 13\nstate quiet\nprocess <0.0.0> ended normal\nprocess <0.1.0> ended normal\noutput <0.0.0> a\noutput <0.1.0> a\nend\n",
        ),
        (
            "r0*10 d0>1 r1*2",
            "applied 13\nstate open d0>1 d1>0\nprocess <0.0.0> ended normal\nprocess <0.1.0> ended normal\noutput <0.0.0> a\noutput <0.1.0> a\nend\n",
        ),
    ),
    (
        "{move,{atom,a},{x,1}}. {call_ext_last,2,{extfunc,erlang,'!',2},1}.",
        SHOWS,
        (
            "r0*10 d0>1 r1*2",
            "applied 13\nstate quiet\nprocess <0.0.0> ended normal\nprocess <0.1.0> ended normal\noutput <0.0.0> a\noutput <0.1.0> a\nend\n",
        ),
        (
            "r0*10 d0>1 r1*2",
            "applied 13\nstate open d0>1 d1>0\nprocess <0.0.0> ended normal\nprocess <0.1.0> ended normal\noutput <0.0.0> a\noutput <0.1.0> a\nend\n",
        ),
    ),
    (
        "{call_ext_last,1,{extfunc,erlang,display,1},1}.",
        IDLE,
        (
            "r0*9",
            "applied 9\nstate open r1\nprocess <0.0.0> ended normal\nprocess <0.1.0> ready\noutput <0.0.0> <0.1.0>\noutput <0.0.0> true\nend\n",
        ),
        (
            "r0*9",
            "applied 9\nstate open r1 d0>1\nprocess <0.0.0> ended normal\nprocess <0.1.0> ready\noutput <0.0.0> <0.1.0>\noutput <0.0.0> true\nend\n",
        ),
    ),
];

/// A function that is called from within a frame, and has one of its own; its caller shows what it gives.
const CALLED: &str =
    "{allocate,0,0}. {call,1,{f,7}}. {call_ext_last,1,{extfunc,erlang,display,1},0}. {label,7}. {allocate,1,1}. ";

/// Whether a caller that spawned its child by that native reports this.
fn is_reported(
    alloc: Global,
    native: &str,
    (before, rest): (&str, &str),
    child: &str,
    (choices, want): (&str, &str),
) -> Result<bool, Fault> {
    let rest = joined(alloc, &[before, rest])?;
    let parent = spawning(alloc, native, rest.as_str())?;
    let report = report_of(alloc, parent.as_str(), child, choices)?;
    Ok(report.as_str() == want)
}

/// How many rows from the first on report what is wanted, with that before the last call.
fn right_rows(alloc: Global, before: &str, rows: &[Row]) -> Result<usize, Fault> {
    for (number, (rest, child, apart, linked)) in rows.iter().enumerate() {
        let rest = (before, *rest);
        if !is_reported(alloc, "spawn", rest, child, *apart)?
            || !is_reported(alloc, "spawn_link", rest, child, *linked)?
        {
            return Ok(number);
        }
    }
    Ok(rows.len())
}

#[test]
fn last_calls_that_end_their_process(rt: HostRuntime) -> Result<(), Fail> {
    assert_eq!(rt; right_rows(rt.alloc(), "", &ALONE)?, ALONE.len());
    Ok(())
}

#[test]
fn last_calls_that_go_on_where_their_frame_says(rt: HostRuntime) -> Result<(), Fail> {
    assert_eq!(rt; right_rows(rt.alloc(), CALLED, &WITHIN)?, WITHIN.len());
    Ok(())
}
