//! Exit signals at each kind of receiver: process 0 spawns process 1, and sends it a signal by exit/2 or by a link.

use crate::reports::{IDLE, TRAPS, WAITS, report_of, spawning};
use bx_terms::Fault;
use bxemu_testkit::joined;
use std::alloc::{AllocError, Global};
use std::test::Fail;

/// exit(Child, Reason) by process 0, as far as the six runs that every row begins with.
const EXITS: [(&str, &str, &str, &str); 14] = [
    (
        IDLE,
        "normal",
        "d0>1",
        "applied 7\nstate open r0 r1\nprocess <0.0.0> ready\nprocess <0.1.0> ready\nend\n",
    ),
    (
        IDLE,
        "a",
        "d0>1",
        "applied 7\nstate open r0\nprocess <0.0.0> ready\nprocess <0.1.0> ended a\nend\n",
    ),
    (
        IDLE,
        "kill",
        "d0>1",
        "applied 7\nstate open r0\nprocess <0.0.0> ready\nprocess <0.1.0> ended killed\nend\n",
    ),
    (
        WAITS,
        "normal",
        "r1*2 d0>1",
        "applied 9\nstate open r0\nprocess <0.0.0> ready\nprocess <0.1.0> waiting\nend\n",
    ),
    (
        WAITS,
        "a",
        "r1*2 d0>1",
        "applied 9\nstate open r0\nprocess <0.0.0> ready\nprocess <0.1.0> ended a\nend\n",
    ),
    (
        WAITS,
        "kill",
        "r1*2 d0>1",
        "applied 9\nstate open r0\nprocess <0.0.0> ready\nprocess <0.1.0> ended killed\nend\n",
    ),
    (
        TRAPS,
        "normal",
        "r1*3 d0>1 r1*2",
        "applied 12\nstate open r0\nprocess <0.0.0> ready\nprocess <0.1.0> ended normal\noutput <0.1.0> {'EXIT',<0.0.0>,normal}\nend\n",
    ),
    (
        TRAPS,
        "a",
        "r1*3 d0>1 r1*2",
        "applied 12\nstate open r0\nprocess <0.0.0> ready\nprocess <0.1.0> ended normal\noutput <0.1.0> {'EXIT',<0.0.0>,a}\nend\n",
    ),
    (
        TRAPS,
        "kill",
        "r1*3 d0>1",
        "applied 10\nstate open r0\nprocess <0.0.0> ready\nprocess <0.1.0> ended killed\nend\n",
    ),
    (
        TRAPS,
        "a",
        "r1*5 d0>1 r1*2",
        "applied 14\nstate open r0\nprocess <0.0.0> ready\nprocess <0.1.0> ended normal\noutput <0.1.0> {'EXIT',<0.0.0>,a}\nend\n",
    ),
    (
        "return.",
        "a",
        "r1 d0>1",
        "applied 8\nstate open r0\nprocess <0.0.0> ready\nprocess <0.1.0> ended normal\nend\n",
    ),
    (
        "return.",
        "kill",
        "r1 d0>1 r1",
        "applied 8\nstate stopped r1\nprocess <0.0.0> ready\nprocess <0.1.0> ended normal\nend\n",
    ),
    (
        IDLE,
        "a",
        "r0 d0>1",
        "applied 8\nstate quiet\nprocess <0.0.0> ended normal\nprocess <0.1.0> ended a\nend\n",
    ),
    (
        IDLE,
        "a",
        "d0>1 d0>1",
        "applied 7\nstate stopped d0>1\nprocess <0.0.0> ready\nprocess <0.1.0> ended a\nend\n",
    ),
];

/// Process 0 ends with a reason while process 1 is linked to it; four runs spawn, and two end.
const LINKED: [(&str, &str, &str, &str); 9] = [
    (
        IDLE,
        "normal",
        "d0>1",
        "applied 7\nstate open r1\nprocess <0.0.0> ended normal\nprocess <0.1.0> ready\nend\n",
    ),
    (
        IDLE,
        "a",
        "d0>1",
        "applied 7\nstate quiet\nprocess <0.0.0> ended a\nprocess <0.1.0> ended a\nend\n",
    ),
    (
        IDLE,
        "kill",
        "d0>1",
        "applied 7\nstate quiet\nprocess <0.0.0> ended kill\nprocess <0.1.0> ended kill\nend\n",
    ),
    (
        WAITS,
        "a",
        "r1*2 d0>1",
        "applied 9\nstate quiet\nprocess <0.0.0> ended a\nprocess <0.1.0> ended a\nend\n",
    ),
    (
        WAITS,
        "normal",
        "r1*2 d0>1",
        "applied 9\nstate quiet\nprocess <0.0.0> ended normal\nprocess <0.1.0> waiting\nend\n",
    ),
    (
        TRAPS,
        "kill",
        "r1*3 d0>1 r1*2",
        "applied 12\nstate quiet\nprocess <0.0.0> ended kill\nprocess <0.1.0> ended normal\noutput <0.1.0> {'EXIT',<0.0.0>,kill}\nend\n",
    ),
    (
        TRAPS,
        "normal",
        "r1*3 d0>1 r1*2",
        "applied 12\nstate quiet\nprocess <0.0.0> ended normal\nprocess <0.1.0> ended normal\noutput <0.1.0> {'EXIT',<0.0.0>,normal}\nend\n",
    ),
    (
        "return.",
        "a",
        "r1 d0>1",
        "applied 8\nstate open d1>0\nprocess <0.0.0> ended a\nprocess <0.1.0> ended normal\nend\n",
    ),
    (
        "return.",
        "a",
        "r1 d1>0 d0>1",
        "applied 9\nstate quiet\nprocess <0.0.0> ended a\nprocess <0.1.0> ended normal\nend\n",
    ),
];

/// Whether process 0, which spawns process 1 by that native, reports this where it ends so with that reason.
fn is_reported(
    alloc: Global,
    native: &str,
    (before, after): (&str, &str),
    row: (&str, &str, &str, &str),
) -> Result<bool, Fault> {
    let (child, reason, choices, want) = row;
    let rest = joined(alloc, &[before, reason, after])?;
    let parent = spawning(alloc, native, rest.as_str())?;
    let choices = joined(alloc, &["r0*6 ", choices])?;
    let report = report_of(alloc, parent.as_str(), child, choices.as_str())?;
    Ok(report.as_str() == want)
}

/// How many rows from the first on report what is wanted.
fn right_rows(
    alloc: Global,
    native: &str,
    ending: (&str, &str),
    rows: &[(&str, &str, &str, &str)],
) -> Result<usize, Fault> {
    for (number, row) in rows.iter().enumerate() {
        if !is_reported(alloc, native, ending, *row)? {
            return Ok(number);
        }
    }
    Ok(rows.len())
}

#[test]
fn exit_signals_at_each_kind_of_receiver(rt: HostRuntime) -> Result<(), Fail> {
    let ending = (
        "{move,{atom,",
        "},{x,1}}. {call_ext,2,{extfunc,erlang,exit,2}}. return.",
    );
    assert_eq!(rt;
        right_rows(rt.alloc(), "spawn", ending, &EXITS)?,
        EXITS.len()
    );
    Ok(())
}

#[test]
fn ends_are_told_to_links(rt: HostRuntime) -> Result<(), Fail> {
    let ending = (
        "{move,{atom,",
        "},{x,0}}. {call_ext,1,{extfunc,erlang,exit,1}}.",
    );
    assert_eq!(rt;
        right_rows(rt.alloc(), "spawn_link", ending, &LINKED)?,
        LINKED.len()
    );
    Ok(())
}

/// A list as high as a term may be, so that none holds it beside a pid.
fn highest(alloc: Global) -> Result<String, AllocError> {
    let mut list = String::from_str(alloc, "[a")?;
    for _ in 1..10_000 {
        list.push_str(",a")?;
    }
    list.push_str("]")?;
    Ok(list)
}

/// The report of a caller that spawns a child which traps exits by that native, and whose items have the list in the middle.
fn report_of_highest(
    alloc: Global,
    native: &str,
    (before, behind): (&str, &str),
    choices: &str,
) -> Result<String, Fault> {
    let list = highest(alloc)?;
    let rest = joined(alloc, &[before, list.as_str(), behind])?;
    let parent = spawning(alloc, native, rest.as_str())?;
    report_of(alloc, parent.as_str(), TRAPS, choices)
}

/// The delivery of an exit signal with such a reason to a process that traps exits is a trap.
#[test]
fn a_reason_too_high_for_a_message(rt: HostRuntime) -> Result<(), Fail> {
    let items = (
        "{move,{literal,",
        "},{x,1}}. {call_ext,2,{extfunc,erlang,exit,2}}. return.",
    );
    let report = report_of_highest(rt.alloc(), "spawn", items, "r0*6 r1*3 d0>1")?;
    assert!(rt;
        report.as_str()
            == "applied 10\nstate trapped TermHeight <0.1.0>\nprocess <0.0.0> ready\nprocess <0.1.0> ready\nend\n"
    );
    Ok(())
}

/// So is that of the end of a process that is linked to it.
#[test]
fn an_end_too_high_for_a_message(rt: HostRuntime) -> Result<(), Fail> {
    let items = (
        "{move,{literal,",
        "},{x,0}}. {call_ext_only,1,{extfunc,erlang,exit,1}}.",
    );
    let report = report_of_highest(rt.alloc(), "spawn_link", items, "r0*6 r1*3 d0>1")?;
    let list = highest(rt.alloc())?;
    let head = "applied 10\nstate trapped TermHeight <0.1.0>\nprocess <0.0.0> ended ";
    let last = "\nprocess <0.1.0> ready\nend\n";
    let want = joined(rt.alloc(), &[head, list.as_str(), last])?;
    assert!(rt; report.as_str() == want.as_str());
    Ok(())
}

/// And the run in which a process that traps exits tells itself of such an exit.
#[test]
fn an_exit_of_oneself_too_high_for_a_message(rt: HostRuntime) -> Result<(), Fail> {
    let items = (
        "{move,{atom,trap_exit},{x,0}}. {move,{atom,true},{x,1}}. {call_ext,2,{extfunc,erlang,process_flag,2}}. {bif,self,{f,0},[],{x,0}}. {move,{literal,",
        "},{x,1}}. {call_ext,2,{extfunc,erlang,exit,2}}. return.",
    );
    let report = report_of_highest(rt.alloc(), "spawn", items, "r0*11")?;
    assert!(rt;
        report.as_str()
            == "applied 10\nstate trapped TermHeight <0.0.0>\nprocess <0.0.0> ready\nprocess <0.1.0> ready\nend\n"
    );
    Ok(())
}
