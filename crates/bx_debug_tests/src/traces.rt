//! What a debugger answers to `trace`, and where in the source it shows that a program stands.

use crate::samples::{HOLDS, LINES, LOOP, NAMES, Row, SIGNALS, TRAPS, refused_lines, right_rows};
use bxemu_testkit::TALK;
use std::test::Fail;

const TRACED: [Row<'static>; 8] = [
    (
        LOOP,
        "m:f",
        "trace 0\ntrace 1\ntrace 4294967295\n",
        "end\nrefused R22 BeforeStart line 2\nrefused R22 BeforeStart line 3\n",
    ),
    (
        LOOP,
        "m:f",
        "go r0*3\ntrace 2\ntrace 0\ntrace 4\nback 1\ntrace 2\nback 0\n",
        "at 3 of 3: done\n2 r0 m:4 {jump,{f,3}}\n3 r0 m:4 {jump,{f,3}}\nend\nend\nrefused R22 BeforeStart line 4\nat 2 of 3\n1 r0 m:4 {jump,{f,3}}\n2 r0 m:4 {jump,{f,3}}\nend\nat 2 of 3\n",
    ),
    (
        LOOP,
        "m:f",
        "go r0*130\nback 65\ntrace 2\nforward 65\ntrace 1\n",
        "at 130 of 130: done\nat 65 of 130\n64 r0 m:4 {jump,{f,3}}\n65 r0 m:4 {jump,{f,3}}\nend\nat 130 of 130\n130 r0 m:4 {jump,{f,3}}\nend\n",
    ),
    // a run that traps is shown too
    (
        TRAPS,
        "m:f",
        "go r0*2\ntrace 2",
        "at 2 of 2: trapped Unset <0.0.0>\n1 r0 m:3 {move,{atom,ok},{x,0}}\n2 r0 m:4 {move,{x,5},{x,0}}\nend\n",
    ),
    // a process whose function is not there stands nowhere
    (
        HOLDS,
        "h:f",
        "go r0*9 r1\ntrace 2\n",
        "at 10 of 10: done\n9 r0 h:11 {call_ext,3,{extfunc,erlang,spawn_link,3}}\n10 r1 - -\nend\n",
    ),
    (
        HOLDS,
        "h:f",
        "go r0*23 e0 r0\ntrace 3\n",
        "at 25 of 25: done\n23 r0 h:31 {wait_timeout,{f,6},{integer,10}}\n24 e0 h:32\n25 r0 h:32 timeout\nend\n",
    ),
    (
        SIGNALS,
        "s:f",
        "go r0*16 d0>1*5\ntrace 5\n",
        "at 21 of 21: done\n17 d0>1 link\n18 d0>1 exit/2 stop\n19 d0>1 unlink\n20 d0>1 link\n21 d0>1 exit bye\nend\n",
    ),
    (
        TALK,
        "m:f",
        "go r0*13 d0>1\ntrace 2\n",
        "at 14 of 14: done\n13 r0 m:15 send\n14 d0>1 message {from,<0.0.0>}\nend\n",
    ),
];

const LOCATED: [Row<'static>; 3] = [
    (
        NAMES,
        "m:f",
        "list m:f/0\nwhere\nbreak m:6\ngo r0\ntrace 1\n",
        "m:0 {label,1}\nm:1 a b\\x{9}\\x{7f}\u{e9}:3 {line,[]}\nm:2 a b\\x{9}\\x{7f}\u{e9}:3 {func_info,{atom,m},{atom,f},0}\nm:3 a b\\x{9}\\x{7f}\u{e9}:3 {label,2}\nm:4 a b\\x{9}\\x{7f}\u{e9}:3 {label,3}\nm:5 :4294967295 {line,[]}\nm:6 :4294967295 {jump,{f,3}}\nend\n<0.0.0> ready m:6 :4294967295 {jump,{f,3}}\nend\nok\nat 1 of 1: break <0.0.0> m:6\n1 r0 m:6 :4294967295 {jump,{f,3}}\nend\n",
    ),
    (
        LINES,
        "l:f",
        "go r0*6\nwhere\nlook 0\n",
        "at 6 of 6: done\n<0.0.0> waiting l:20 l.erl:9 {loop_rec,{f,7},{x,0}}\nend\nprocess <0.0.0> waiting l:20 l.erl:9 {loop_rec,{f,7},{x,0}}\nexpires l:24 l.erl:9\ncp l:10 l.erl:6\nframe l:10 l.erl:6\nframe -\ny0 catch l:10 l.erl:6\nend\n",
    ),
    // behind a line that says nothing, nothing is shown
    (
        LINES,
        "l:f",
        "go r0*6 e0 r0*2\ntrace 3\nwhere\nlist l:g/0\n",
        "at 9 of 9: done\n7 e0 l:24 l.erl:9\n8 r0 l:24 l.erl:9 timeout\n9 r0 l:26 {deallocate,0}\nend\n<0.0.0> ready l:27 return\nend\nl:13 {label,4}\nl:14 l.erl:8 {line,[]}\nl:15 l.erl:8 {func_info,{atom,l},{atom,g},0}\nl:16 l.erl:8 {label,5}\nl:17 l.erl:8 {allocate,0,0}\nl:18 l.erl:9 {line,[]}\nl:19 l.erl:9 {label,6}\nl:20 l.erl:9 {loop_rec,{f,7},{x,0}}\nl:21 l.erl:9 {loop_rec_end,{f,6}}\nl:22 l.erl:9 {label,7}\nl:23 l.erl:9 {wait_timeout,{f,6},{integer,10}}\nl:24 l.erl:9 timeout\nl:25 {line,[]}\nl:26 {deallocate,0}\nl:27 return\nend\n",
    ),
];

const NO_COMMANDS: [&[u8]; 7] = [
    b"trace",
    b"trace ",
    b"trace x",
    b"trace 00",
    b"trace -1",
    b"trace 4294967296",
    b"trace 1 1",
];

#[test]
fn the_last_choices_are_shown(rt: HostRuntime) -> Result<(), Fail> {
    assert_eq!(rt; right_rows(rt.alloc(), &TRACED)?, TRACED.len());
    Ok(())
}

#[test]
fn places_are_shown_with_their_lines(rt: HostRuntime) -> Result<(), Fail> {
    assert_eq!(rt; right_rows(rt.alloc(), &LOCATED)?, LOCATED.len());
    Ok(())
}

#[test]
fn lines_that_trace_nothing(rt: HostRuntime) -> Result<(), Fail> {
    assert_eq!(rt; refused_lines(rt.alloc(), &NO_COMMANDS)?, NO_COMMANDS.len());
    Ok(())
}
