//! Messages, links, their ends, and the same to oneself.

use crate::reports::{IDLE, TRAPS, WAITS, image_of, report_of, spawning};
use bx_terms::Fault;
use bx_world::{Choice, RcWorld, RunEnd, Shown, advance_many};
use bxemu_testkit::atom;
use std::alloc::Global;
use std::test::Fail;

const SHOWS: &str =
    "{label,5}. {loop_rec,{f,6},{x,0}}. {call_ext_only,1,{extfunc,erlang,display,1}}. {label,6}. {wait,{f,5}}.";

/// Shows each message, in the order in which they come.
const SHOWS_ALL: &str =
    "{label,5}. {loop_rec,{f,6},{x,0}}. remove_message. {call_ext,1,{extfunc,erlang,display,1}}. {jump,{f,5}}. {label,6}. {wait,{f,5}}.";

/// Four messages to the process in x0.
const SENDS_FOUR: &str =
    "{move,{x,0},{x,8}}. {move,{atom,a},{x,1}}. send. {move,{x,8},{x,0}}. {move,{atom,b},{x,1}}. send. {move,{x,8},{x,0}}. {move,{atom,c},{x,1}}. send. {move,{x,8},{x,0}}. {move,{atom,d},{x,1}}. send. return.";

/// A link to the process in x0, its end, and a message, in seven runs. What ends without a link tells nobody.
const LINKS_UNLINKS_AND_SENDS: &str =
    "{move,{x,0},{x,8}}. {call_ext,1,{extfunc,erlang,link,1}}. {move,{x,8},{x,0}}. {call_ext,1,{extfunc,erlang,unlink,1}}. {move,{x,8},{x,0}}. {move,{atom,a},{x,1}}. send. return.";

/// What process 0 does once it has spawned process 1 in four runs, the child, the choices and the report.
const SIGNALS: [(&str, &str, &str, &str); 19] = [
    (
        SENDS_FOUR,
        SHOWS_ALL,
        "r0*16 d0>1 d0>1 d0>1 d0>1 r1*16",
        "applied 36\nstate open r0 r1\nprocess <0.0.0> ready\nprocess <0.1.0> ready\noutput <0.1.0> a\noutput <0.1.0> b\noutput <0.1.0> c\noutput <0.1.0> d\nend\n",
    ),
    (
        SENDS_FOUR,
        SHOWS_ALL,
        "r0*13 d0>1 d0>1 r0*3 d0>1 r1*4 d0>1 r1*12",
        "applied 36\nstate open r0 r1\nprocess <0.0.0> ready\nprocess <0.1.0> ready\noutput <0.1.0> a\noutput <0.1.0> b\noutput <0.1.0> c\noutput <0.1.0> d\nend\n",
    ),
    (
        "{move,{atom,a},{x,1}}. send. return.",
        SHOWS,
        "r0*6",
        "applied 6\nstate open r0 r1 d0>1\nprocess <0.0.0> ready\nprocess <0.1.0> ready\nend\n",
    ),
    (
        "{move,{atom,a},{x,1}}. send. return.",
        SHOWS,
        "r0*6 d0>1 r1*2",
        "applied 9\nstate open r0\nprocess <0.0.0> ready\nprocess <0.1.0> ended normal\noutput <0.1.0> a\nend\n",
    ),
    (
        "{move,{atom,a},{x,1}}. send. return.",
        SHOWS,
        "r1*2 r0",
        "applied 0\nstate stopped r1\nprocess <0.0.0> ready\nend\n",
    ),
    (
        "{move,{atom,a},{x,1}}. send. return.",
        SHOWS,
        "r0*4 r1*2 r0*2 d0>1",
        "applied 9\nstate open r0 r1\nprocess <0.0.0> ready\nprocess <0.1.0> waiting\nend\n",
    ),
    (
        "{move,{atom,a},{x,1}}. {call_ext,2,{extfunc,erlang,send,2}}. {call_ext_only,1,{extfunc,erlang,display,1}}.",
        IDLE,
        "r0*7",
        "applied 7\nstate open r1 d0>1\nprocess <0.0.0> ended normal\nprocess <0.1.0> ready\noutput <0.0.0> a\nend\n",
    ),
    (
        "{move,{atom,a},{x,1}}. send. return.",
        "return.",
        "r0*6 r1 d0>1",
        "applied 8\nstate open r0\nprocess <0.0.0> ready\nprocess <0.1.0> ended normal\nend\n",
    ),
    (
        "{call_ext,1,{extfunc,erlang,link,1}}. {call_ext_only,1,{extfunc,erlang,exit,1}}.",
        IDLE,
        "r0*5 d0>1 r0 d0>1",
        "applied 8\nstate quiet\nprocess <0.0.0> ended true\nprocess <0.1.0> ended true\nend\n",
    ),
    (
        "{call_ext,1,{extfunc,erlang,link,1}}. return.",
        "return.",
        "r0*5 r1 d0>1 d1>0",
        "applied 8\nstate quiet\nprocess <0.0.0> ended noproc\nprocess <0.1.0> ended normal\nend\n",
    ),
    (
        "{call_ext,1,{extfunc,erlang,unlink,1}}. return.",
        IDLE,
        "r0*5",
        "applied 5\nstate open r0 r1\nprocess <0.0.0> ready\nprocess <0.1.0> ready\nend\n",
    ),
    (
        "{move,{atom,a},{x,1}}. send. return.",
        TRAPS,
        "r0*4 r1*5 r0*2 d0>1 r1*2",
        "applied 14\nstate open r0\nprocess <0.0.0> ready\nprocess <0.1.0> ended normal\noutput <0.1.0> a\nend\n",
    ),
    (
        "{call_ext,1,{extfunc,erlang,link,1}}. return.",
        WAITS,
        "r0*4 r1*2 r0 d0>1",
        "applied 8\nstate open r0\nprocess <0.0.0> ready\nprocess <0.1.0> waiting\nend\n",
    ),
    (
        "{call_ext,1,{extfunc,erlang,link,1}}. {call_ext_only,1,{extfunc,erlang,exit,1}}.",
        TRAPS,
        "r0*4 r1*3 r0*2 d0>1 d0>1 r1*2",
        "applied 13\nstate quiet\nprocess <0.0.0> ended true\nprocess <0.1.0> ended normal\noutput <0.1.0> {'EXIT',<0.0.0>,true}\nend\n",
    ),
    (
        "{move,{x,0},{x,8}}. {call_ext,1,{extfunc,erlang,link,1}}. {move,{x,8},{x,0}}. {call_ext,1,{extfunc,erlang,unlink,1}}. {move,{atom,a},{x,0}}. {call_ext_only,1,{extfunc,erlang,exit,1}}.",
        IDLE,
        "r0*10 d0>1 d0>1",
        "applied 12\nstate open r1\nprocess <0.0.0> ended a\nprocess <0.1.0> ready\nend\n",
    ),
    (
        "{move,{x,0},{x,8}}. {call_ext,1,{extfunc,erlang,link,1}}. {move,{x,8},{x,0}}. {call_ext,1,{extfunc,erlang,unlink,1}}. return.",
        "if_end.",
        "r0*8 d0>1 r1 d1>0",
        "applied 11\nstate open r0 d0>1\nprocess <0.0.0> ready\nprocess <0.1.0> ended {if_clause,[]}\nend\n",
    ),
    (
        "{move,{x,0},{x,8}}. {call_ext,1,{extfunc,erlang,link,1}}. {move,{x,8},{x,0}}. {call_ext,1,{extfunc,erlang,unlink,1}}. return.",
        "if_end.",
        "r0*8 d0>1 r1 d0>1 d1>0",
        "applied 12\nstate open r0\nprocess <0.0.0> ready\nprocess <0.1.0> ended {if_clause,[]}\nend\n",
    ),
    (
        LINKS_UNLINKS_AND_SENDS,
        SHOWS,
        "r0*4 r1*2 r0*7 d0>1 d0>1 d0>1 r1*2",
        "applied 18\nstate open r0\nprocess <0.0.0> ready\nprocess <0.1.0> ended normal\noutput <0.1.0> a\nend\n",
    ),
    (
        LINKS_UNLINKS_AND_SENDS,
        TRAPS,
        "r0*4 r1*5 r0*7 d0>1 d0>1 d0>1 r1*2",
        "applied 21\nstate open r0\nprocess <0.0.0> ready\nprocess <0.1.0> ended normal\noutput <0.1.0> a\nend\n",
    ),
];

/// The same, of signals to oneself.
const TO_ONESELF: [(&str, &str, &str, &str); 8] = [
    (
        "{bif,self,{f,0},[],{x,0}}. {move,{atom,a},{x,1}}. send. {label,5}. {loop_rec,{f,6},{x,0}}. {call_ext_only,1,{extfunc,erlang,display,1}}. {label,6}. {wait,{f,5}}.",
        "return.",
        "r0*9",
        "applied 9\nstate open r1\nprocess <0.0.0> ended normal\nprocess <0.1.0> ready\noutput <0.0.0> a\nend\n",
    ),
    (
        "{bif,self,{f,0},[],{x,0}}. {call_ext,1,{extfunc,erlang,link,1}}. {call_ext_only,1,{extfunc,erlang,display,1}}.",
        "return.",
        "r0*7",
        "applied 7\nstate open r1\nprocess <0.0.0> ended normal\nprocess <0.1.0> ready\noutput <0.0.0> true\nend\n",
    ),
    (
        "{bif,self,{f,0},[],{x,0}}. {call_ext,1,{extfunc,erlang,unlink,1}}. {call_ext_only,1,{extfunc,erlang,display,1}}.",
        "return.",
        "r0*7",
        "applied 7\nstate open r1\nprocess <0.0.0> ended normal\nprocess <0.1.0> ready\noutput <0.0.0> true\nend\n",
    ),
    (
        "{bif,self,{f,0},[],{x,0}}. {move,{atom,normal},{x,1}}. {call_ext,2,{extfunc,erlang,exit,2}}. return.",
        "return.",
        "r0*7",
        "applied 7\nstate open r1\nprocess <0.0.0> ended normal\nprocess <0.1.0> ready\nend\n",
    ),
    (
        "{bif,self,{f,0},[],{x,0}}. {move,{atom,kill},{x,1}}. {call_ext,2,{extfunc,erlang,exit,2}}. return.",
        "return.",
        "r0*7",
        "applied 7\nstate open r1\nprocess <0.0.0> ended killed\nprocess <0.1.0> ready\nend\n",
    ),
    (
        "{bif,self,{f,0},[],{x,0}}. {move,{atom,a},{x,1}}. {call_ext,2,{extfunc,erlang,exit,2}}. return.",
        "return.",
        "r0*7",
        "applied 7\nstate open r1\nprocess <0.0.0> ended a\nprocess <0.1.0> ready\nend\n",
    ),
    (
        "{move,{atom,trap_exit},{x,0}}. {move,{atom,true},{x,1}}. {call_ext,2,{extfunc,erlang,process_flag,2}}. {bif,self,{f,0},[],{x,0}}. {move,{atom,kill},{x,1}}. {call_ext,2,{extfunc,erlang,exit,2}}. return.",
        "return.",
        "r0*10",
        "applied 10\nstate open r1\nprocess <0.0.0> ended killed\nprocess <0.1.0> ready\nend\n",
    ),
    (
        "{move,{atom,trap_exit},{x,0}}. {move,{atom,true},{x,1}}. {call_ext,2,{extfunc,erlang,process_flag,2}}. {bif,self,{f,0},[],{x,0}}. {move,{atom,a},{x,1}}. {call_ext,2,{extfunc,erlang,exit,2}}. {label,5}. {loop_rec,{f,6},{x,0}}. {call_ext_only,1,{extfunc,erlang,display,1}}. {label,6}. {wait,{f,5}}.",
        "return.",
        "r0*12",
        "applied 12\nstate open r1\nprocess <0.0.0> ended normal\nprocess <0.1.0> ready\noutput <0.0.0> {'EXIT',<0.0.0>,a}\nend\n",
    ),
];

/// How many rows from the first on report what is wanted.
fn right_rows(alloc: Global, rows: &[(&str, &str, &str, &str)]) -> Result<usize, Fault> {
    for (number, (rest, child, choices, want)) in rows.iter().enumerate() {
        let parent = spawning(alloc, "spawn", rest)?;
        let report = report_of(alloc, parent.as_str(), child, choices)?;
        if report.as_str() != *want {
            return Ok(number);
        }
    }
    Ok(rows.len())
}

#[test]
fn signals_at_each_kind_of_receiver(rt: HostRuntime) -> Result<(), Fail> {
    assert_eq!(rt; right_rows(rt.alloc(), &SIGNALS)?, SIGNALS.len());
    Ok(())
}

#[test]
fn signals_to_oneself(rt: HostRuntime) -> Result<(), Fail> {
    assert_eq!(rt; right_rows(rt.alloc(), &TO_ONESELF)?, TO_ONESELF.len());
    Ok(())
}

/// Items that tell oneself a message in each three runs, behind a first one.
const TELLS_ITSELF: &str =
    "{move,{atom,a},{x,1}}. {label,5}. {bif,self,{f,0},[],{x,0}}. send. {jump,{f,5}}.";

/// How many messages process 0 holds behind so many runs.
fn held(alloc: Global, items: &str, runs: u64) -> Result<usize, Fault> {
    let image = image_of(alloc, items, "return.")?;
    let mut end = RunEnd {
        world: RcWorld::start(alloc, &image, atom(&image, "m"), atom(&image, "f"))?,
        applied: 0,
        refused: None,
    };
    if runs < u64::MAX {
        advance_many(alloc, &mut end, &image, Choice::Run(0), runs)?;
    }
    match end.world.process(0) {
        Some(Shown::Live(process)) => Ok(process.messages().len()),
        _ => Ok(0),
    }
}

#[test]
fn a_process_holds_very_many_messages(rt: HostRuntime) -> Result<(), Fail> {
    assert_eq!(rt; held(rt.alloc(), TELLS_ITSELF, 210_001)?, 70_000);
    Ok(())
}
