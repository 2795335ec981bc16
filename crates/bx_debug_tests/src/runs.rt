//! What a debugger answers to `until`, `run` and `open`.

use crate::samples::{
    CALLS, HOLDS, LINES, LOOP, Row, SIGNALS, TRAPS, TWO, refused_lines, right_rows,
};
use bxemu_testkit::TALK;
use std::test::Fail;

const STOPPED: [Row<'static>; 9] = [
    // before `process_flag`, behind `spawn_link`, before and behind `send`, at a wait, before `timeout`, at an end
    (
        HOLDS,
        "h:f",
        "until 0\nuntil 0\nrun 0\nuntil 0\nrun 0\nrun 0\nuntil 0\nrun 0\nstep e0\nuntil 0\nrun 0\nuntil 0\nrun 0\n",
        "at 4 of 4: at h:7 {call_ext,2,{extfunc,erlang,process_flag,2}}\nat 4 of 4: at h:7 {call_ext,2,{extfunc,erlang,process_flag,2}}\nat 9 of 9: met h:11 {call_ext,3,{extfunc,erlang,spawn_link,3}}\nat 11 of 11: at h:14 send\nat 12 of 12: met h:14 send\nat 15 of 15: met h:17 send\nat 23 of 23: waits\nat 23 of 23: waits\nat 24 of 24\nat 24 of 24: at h:32 timeout\nat 30 of 30: ended normal\nat 30 of 30: ended normal\nat 30 of 30: ended normal\n",
    ),
    // a process whose function is not there, and one that is not there
    (
        HOLDS,
        "h:f",
        "run 0\nuntil 1\nuntil 1\nuntil 2\nrun 2\n",
        "at 9 of 9: met h:11 {call_ext,3,{extfunc,erlang,spawn_link,3}}\nat 10 of 10: ended {undef,[]}\nat 10 of 10: ended {undef,[]}\nrefused R33 BadCommand line 4\nrefused R33 BadCommand line 5\n",
    ),
    // each native that asks the world; `exit/1` is none
    (
        SIGNALS,
        "s:f",
        "until 0\nrun 0\nuntil 0\nrun 0\nuntil 0\nrun 0\nuntil 0\nrun 0\nuntil 0\nrun 0\nuntil 0\n",
        "at 4 of 4: at s:7 {call_ext,3,{extfunc,erlang,spawn,3}}\nat 5 of 5: met s:7 {call_ext,3,{extfunc,erlang,spawn,3}}\nat 6 of 6: at s:9 {call_ext,1,{extfunc,erlang,link,1}}\nat 7 of 7: met s:9 {call_ext,1,{extfunc,erlang,link,1}}\nat 9 of 9: at s:12 {call_ext,2,{extfunc,erlang,exit,2}}\nat 10 of 10: met s:12 {call_ext,2,{extfunc,erlang,exit,2}}\nat 11 of 11: at s:14 {call_ext,1,{extfunc,erlang,unlink,1}}\nat 12 of 12: met s:14 {call_ext,1,{extfunc,erlang,unlink,1}}\nat 13 of 13: at s:16 {call_ext,1,{extfunc,erlang,link,1}}\nat 14 of 14: met s:16 {call_ext,1,{extfunc,erlang,link,1}}\nat 16 of 16: ended bye\n",
    ),
    // calls by name of a loaded function, of a guard and of a native for itself are none; what is met goes before an end
    (
        CALLS,
        "m:f",
        "until 0\nrun 0\nuntil 0\nrun 0\nrun 0\n",
        "at 6 of 6: at m:6 {call_ext,1,{extfunc,erlang,display,1}}\nat 7 of 7: met m:6 {call_ext,1,{extfunc,erlang,display,1}}\nat 9 of 9: at m:9 {call_ext_last,2,{extfunc,erlang,'!',2},0}\nat 10 of 10: met m:9 {call_ext_last,2,{extfunc,erlang,'!',2},0}\nat 10 of 10: ended normal\n",
    ),
    // a trap
    (
        TRAPS,
        "m:f",
        "until 0\nuntil 0\nrun 0\nback 1\nrun 0\n",
        "at 2 of 2: trapped Unset <0.0.0>\nat 2 of 2: trapped Unset <0.0.0>\nat 2 of 2: trapped Unset <0.0.0>\nat 1 of 2\nat 2 of 2: trapped Unset <0.0.0>\n",
    ),
    (TWO, "m:f", "run 0\n", "at 2 of 2: ended normal\n"),
    // `until` stays at a breakpoint, and removes nothing then; `run` passes one
    (
        LOOP,
        "m:f",
        "go r0*3\nback 2\nbreak m:4\nuntil 0\nrun 0\nclear m:4\nuntil 0\nrun 0\nback 200001\nrun 0\n",
        "at 3 of 3: done\nat 1 of 3\nok\nat 1 of 3: break <0.0.0> m:4\nat 2 of 2: break <0.0.0> m:4\nok\nat 100002 of 100002: done\nat 200002 of 200002: done\nat 1 of 200002\nat 100001 of 100001: done\n",
    ),
    // a breakpoint goes before what is met, or is an event
    (
        HOLDS,
        "h:f",
        "break h:7\nbreak h:12\nuntil 0\nrun 0\nrun 0\n",
        "ok\nok\nat 4 of 4: break <0.0.0> h:7\nat 9 of 9: break <0.0.0> h:12\nat 12 of 12: met h:14 send\n",
    ),
    // with the place in the source
    (
        LINES,
        "l:f",
        "until 0\nstep e0\nuntil 0\n",
        "at 6 of 6: waits\nat 7 of 7\nat 7 of 7: at l:24 l.erl:9 timeout\n",
    ),
];

const OPENED: [Row<'static>; 5] = [
    (LOOP, "m:f", "open\n", "r0 m:4 {jump,{f,3}}\nend\n"),
    (
        TRAPS,
        "m:f",
        "go r0*2\nopen\n",
        "at 2 of 2: trapped Unset <0.0.0>\nend\n",
    ),
    (
        TALK,
        "m:f",
        "go r0*13\nopen\n",
        "at 13 of 13: done\nr0 m:17 {loop_rec,{f,6},{x,0}}\nr1 m:36 {loop_rec,{f,10},{x,0}}\nd0>1 message {from,<0.0.0>}\nend\n",
    ),
    (
        HOLDS,
        "h:f",
        "until 0\ngo r0*19\nopen\n",
        "at 4 of 4: at h:7 {call_ext,2,{extfunc,erlang,process_flag,2}}\nat 23 of 23: done\nr1 - -\ne0 h:32\nend\n",
    ),
    (
        SIGNALS,
        "s:f",
        "go r0*16\nopen\ngo d0>1\nopen\n",
        "at 16 of 16: done\nr1 s:3 {allocate,1,0}\nd0>1 link\nend\nat 17 of 17: done\nr1 s:3 {allocate,1,0}\nd0>1 exit/2 stop\nend\n",
    ),
];

const NO_COMMANDS: [&[u8]; 12] = [
    b"until",
    b"until ",
    b"until x",
    b"until 00",
    b"until 1024",
    b"until 0 0",
    b"until r0",
    b"run",
    b"run 1024",
    b"run -1",
    b"open ",
    b"open 0",
];

#[test]
fn processes_run_by_themselves(rt: HostRuntime) -> Result<(), Fail> {
    assert_eq!(rt; right_rows(rt.alloc(), &STOPPED)?, STOPPED.len());
    Ok(())
}

#[test]
fn enabled_choices_are_shown(rt: HostRuntime) -> Result<(), Fail> {
    assert_eq!(rt; right_rows(rt.alloc(), &OPENED)?, OPENED.len());
    Ok(())
}

#[test]
fn lines_that_run_nothing(rt: HostRuntime) -> Result<(), Fail> {
    assert_eq!(rt; refused_lines(rt.alloc(), &NO_COMMANDS)?, NO_COMMANDS.len());
    Ok(())
}
