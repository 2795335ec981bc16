//! Spawns and their limits, and waits that expire.

use crate::reports::report_of;
use bx_terms::Fault;
use std::alloc::Global;
use std::test::Fail;

/// Items of a receive that waits, and shows `late` where nothing comes.
const LATE: &str =
    "{label,5}. {loop_rec,{f,6},{x,0}}. remove_message. {call_ext_only,1,{extfunc,erlang,display,1}}.
{label,6}. {wait_timeout,{f,5},{integer,0}}. timeout. {move,{atom,late},{x,0}}. {call_ext_only,1,{extfunc,erlang,display,1}}.";

/// The items of `f/0`, the choices and the report.
const ROWS: [(&str, &str, &str); 11] = [
    (
        "{move,{atom,m},{x,0}}. {move,{atom,none},{x,1}}. {move,nil,{x,2}}. {call_ext,3,{extfunc,erlang,spawn,3}}. return.",
        "r0*4 r1",
        "applied 5\nstate open r0\nprocess <0.0.0> ready\nprocess <0.1.0> ended {undef,[]}\nend\n",
    ),
    (
        "{move,{atom,erlang},{x,0}}. {move,{atom,self},{x,1}}. {move,nil,{x,2}}. {call_ext,3,{extfunc,erlang,spawn,3}}. return.",
        "r0*4 r1",
        "applied 5\nstate open r0\nprocess <0.0.0> ready\nprocess <0.1.0> ended {undef,[]}\nend\n",
    ),
    (
        "{move,{atom,m},{x,0}}. {move,{atom,none},{x,1}}. {move,nil,{x,2}}. {call_ext,3,{extfunc,erlang,spawn_link,3}}. return.",
        "r0*4 r1 d1>0",
        "applied 6\nstate quiet\nprocess <0.0.0> ended {undef,[]}\nprocess <0.1.0> ended {undef,[]}\nend\n",
    ),
    (
        "{move,{literal,{a,[1,2]}},{x,0}}. {call_ext_only,1,{extfunc,erlang,display,1}}.",
        "r0*2",
        "applied 2\nstate quiet\nprocess <0.0.0> ended normal\noutput <0.0.0> {a,[1,2]}\nend\n",
    ),
    (
        "{label,5}. {wait_timeout,{f,5},{integer,10}}. timeout. return.",
        "r0",
        "applied 1\nstate open e0\nprocess <0.0.0> waiting\nend\n",
    ),
    (
        "{label,5}. {wait_timeout,{f,5},{integer,0}}. timeout. return.",
        "r0 e0 r0*2",
        "applied 4\nstate quiet\nprocess <0.0.0> ended normal\nend\n",
    ),
    (
        "{label,5}. {wait_timeout,{f,5},{atom,infinity}}. timeout. return.",
        "r0 e0",
        "applied 1\nstate stopped e0\nprocess <0.0.0> waiting\nend\n",
    ),
    (
        "{label,5}. {wait_timeout,{f,5},{integer,10}}. timeout. return.",
        "e0",
        "applied 0\nstate stopped e0\nprocess <0.0.0> ready\nend\n",
    ),
    (
        "{label,5}. {wait_timeout,{f,5},{integer,10}}. timeout. return.",
        "r0 e0 e0",
        "applied 2\nstate stopped e0\nprocess <0.0.0> ready\nend\n",
    ),
    (
        LATE,
        "r0*2 e0 r0*3",
        "applied 6\nstate quiet\nprocess <0.0.0> ended normal\noutput <0.0.0> late\nend\n",
    ),
    // the message that was passed over before the wait is the first one of the second receive
    (
        "{bif,self,{f,0},[],{x,0}}. {move,{atom,x},{x,1}}. send. {label,5}. {loop_rec,{f,7},{x,0}}.
{test,is_eq_exact,{f,6},[{x,0},{atom,y}]}. remove_message. return. {label,6}. {loop_rec_end,{f,5}}.
{label,7}. {wait_timeout,{f,5},{integer,5}}. timeout. {label,8}. {loop_rec,{f,9},{x,0}}. remove_message.
{call_ext_only,1,{extfunc,erlang,display,1}}. {label,9}. {wait,{f,8}}.",
        "r0*8 e0 r0*4",
        "applied 13\nstate quiet\nprocess <0.0.0> ended normal\noutput <0.0.0> x\nend\n",
    ),
];

/// How many rows from the first on report what is wanted.
fn right_rows(alloc: Global, rows: &[(&str, &str, &str)]) -> Result<usize, Fault> {
    for (number, (items, choices, want)) in rows.iter().enumerate() {
        let report = report_of(alloc, items, "return.", choices)?;
        if report.as_str() != *want {
            return Ok(number);
        }
    }
    Ok(rows.len())
}

#[test]
fn spawns_and_waits(rt: HostRuntime) -> Result<(), Fail> {
    assert_eq!(rt; right_rows(rt.alloc(), &ROWS)?, ROWS.len());
    Ok(())
}

/// The process of pid 1,023 is the last: behind it there is room for no other, and its spawner goes on.
const SPAWNS_FOR_EVER: &str =
    "{label,5}. {move,{atom,m},{x,0}}. {move,{atom,g},{x,1}}. {move,nil,{x,2}}. {call_ext,3,{extfunc,erlang,spawn,3}}. {jump,{f,5}}.";

#[test]
fn the_last_process_is_spawned(rt: HostRuntime) -> Result<(), Fail> {
    let last = report_of(rt.alloc(), SPAWNS_FOR_EVER, "return.", "r0*5115")?;
    assert!(rt; last.as_str().contains("\nprocess <0.0.0> ready\n"));
    assert!(rt; last.as_str().ends_with("\nprocess <0.1023.0> ready\nend\n"));
    Ok(())
}

/// The report of a spawn with so many arguments, and of the run of its caller behind it.
fn report_of_arguments(alloc: Global, count: u32) -> Result<String, Fault> {
    let mut items = String::from_str(
        alloc,
        "{move,{atom,m},{x,0}}. {move,{atom,g},{x,1}}. {move,{literal,[a",
    )?;
    for _ in 1..count {
        items.push_str(",a")?;
    }
    items.push_str("]},{x,2}}. {call_ext,3,{extfunc,erlang,spawn,3}}. return.")?;
    report_of(alloc, items.as_str(), "return.", "r0*4")
}

#[test]
fn no_more_than_255_arguments(rt: HostRuntime) -> Result<(), Fail> {
    let most = report_of_arguments(rt.alloc(), 255)?;
    assert!(rt;
        most.as_str()
            == "applied 4\nstate open r0 r1\nprocess <0.0.0> ready\nprocess <0.1.0> ready\nend\n"
    );
    let more = report_of_arguments(rt.alloc(), 256)?;
    assert!(rt;
        more.as_str() == "applied 4\nstate quiet\nprocess <0.0.0> ended {system_limit,[]}\nend\n"
    );
    Ok(())
}
