//! What a debugger answers to lines, and the line of its failure.

use crate::samples::{HELLO, LOOP, QUOTED, Row, TRAPS, refused_lines, right_rows};
use std::test::Fail;

/// Module `m`, whose `f/0` adds 1 to the greatest integer.
const ADDS: &str = "{module,m}. {exports,[{f,0}]}. {attributes,[]}. {labels,9}.
{function,f,0,2}. {label,1}. {func_info,{atom,m},{atom,f},0}. {label,2}.
{gc_bif,'+',{f,0},0,[{integer,9223372036854775807},{integer,1}],{x,0}}. return.";

/// Module `m`, whose `f/0` waits for a message for no time, and shows `late` where none comes.
const LATE: &str = "{module,m}. {exports,[{f,0}]}. {attributes,[]}. {labels,9}.
{function,f,0,2}. {label,1}. {func_info,{atom,m},{atom,f},0}. {label,2}.
{label,3}. {loop_rec,{f,4},{x,0}}. remove_message. {call_ext_only,1,{extfunc,erlang,display,1}}.
{label,4}. {wait_timeout,{f,3},{integer,0}}. timeout. {move,{atom,late},{x,0}}. {call_ext_only,1,{extfunc,erlang,display,1}}.";

const IN_ORDER: [Row<'static>; 16] = [
    (
        LOOP,
        "m:f",
        "go r0*130\nback 65\nstep r0\nforward 1\nback 67\nbreak m:4\ngo r0\nshow\nbreak m:3\nstep r1\n",
        "at 130 of 130: done\nat 65 of 130\nat 66 of 66\nrefused R23 AfterEnd line 4\nrefused R22 BeforeStart line 5\nok\nat 67 of 67: break <0.0.0> m:4\napplied 67\nstate open r0\nprocess <0.0.0> ready\nend\nrefused R33 BadCommand line 9\nrefused R20 NotEnabled line 10\n",
    ),
    (
        TRAPS,
        "m:f",
        "step r0\nbreak m:4\nstep r0\nstep r0\ngo r0\ngo\nshow\nback 1\nback 1\nforward 2\nback 1\nshow",
        "at 1 of 1\nok\nat 2 of 2\nrefused R21 Halted line 4\nat 2 of 2: trapped Unset <0.0.0>\nat 2 of 2: done\napplied 2\nstate trapped Unset <0.0.0>\nprocess <0.0.0> ready\nend\nat 1 of 2\nat 0 of 2\nat 2 of 2\nat 1 of 2\napplied 1\nstate open r0\nprocess <0.0.0> ready\nend\n",
    ),
    (
        ADDS,
        "m:f",
        "step r0\nstep r0\n",
        "at 1 of 1\nrefused R21 Halted line 2\n",
    ),
    (
        ADDS,
        "m:f",
        "step r0\ngo r0\nstep r0\ngo\n",
        "at 1 of 1\nat 1 of 1: trapped IntegerRange <0.0.0>\nrefused R21 Halted line 3\nat 1 of 1: done\n",
    ),
    (LATE, "m:f", "go r0*2 e0\n", "at 3 of 3: done\n"),
    (
        QUOTED,
        "'k k':f",
        "break 'k k':4\ngo r0*2\nclear 'k k':4\ngo r0*2 r7\nbreak k k:4\nbreak 'k k':3\n",
        "ok\nat 1 of 1: break <0.0.0> 'k k':4\nok\nat 3 of 3: stopped r7\nrefused R33 BadCommand line 5\nrefused R33 BadCommand line 6\n",
    ),
    // the lines of examples/hello-f.session, and the answers beside it
    (
        HELLO,
        "hello:f",
        "break hello:5\ngo r0*2\nshow\nback 1\nstep r0\ngo r0\nshow\nquit\n",
        "ok\nat 1 of 1: break <0.0.0> hello:5\napplied 1\nstate open r0\nprocess <0.0.0> ready\nend\nat 0 of 1\nat 1 of 1\nat 2 of 2: done\napplied 2\nstate quiet\nprocess <0.0.0> ended normal\nend\n",
    ),
    (LOOP, "m:f", "step r0\nquit\nstep r0\n", "at 1 of 1\n"),
    (LOOP, "m:f", "quit", ""),
    (LOOP, "m:f", "", ""),
    (
        LOOP,
        "m:f",
        "\n\ngo r0",
        "refused R33 BadCommand line 1\nrefused R33 BadCommand line 2\nat 1 of 1: done\n",
    ),
    (
        LOOP,
        "m:f",
        "go r0*3\nback 2\nstep r1\nforward 2\nback 2\ngo r1\nforward 2\ngo\nback 3\ngo r0 r1\nforward 1\n",
        "at 3 of 3: done\nat 1 of 3\nrefused R20 NotEnabled line 3\nat 3 of 3\nat 1 of 3\nat 1 of 3: stopped r1\nat 3 of 3\nat 3 of 3: done\nat 0 of 3\nat 1 of 1: stopped r1\nrefused R23 AfterEnd line 11\n",
    ),
    ("", "m:f", "show\n", "bxemu: R8 BadForm line 1 in m.S\n"),
    (LOOP, "m", "show\n", "bxemu: start\n"),
    (LOOP, "m:g", "show\n", "bxemu: R32 NoEntry\n"),
    (LOOP, "n:f", "show\n", "bxemu: R32 NoEntry\n"),
];

const NO_COMMANDS: [&[u8]; 37] = [
    b"step",
    b"step ",
    b"step r",
    b" step r0",
    b"step  r0",
    b"step r0 ",
    b"step r0 r0",
    b"step r0*2",
    b"step r0*1",
    b"step r00",
    b"step r1024",
    b"step d0",
    b"step d0>1024",
    b"step r0\r",
    b"step \xff",
    b"back",
    b"back -1",
    b"back 01",
    b"back 4294967296",
    b"back 1 1",
    b"forward x",
    b"go ",
    b"go r0*0",
    b"go r0*100001",
    b"go r0  r0",
    b"go r0 x",
    b"break",
    b"break m",
    b"break m:",
    b"break m:04",
    b"break m :4",
    b"break m:5",
    b"break n:4",
    b"clear m:0",
    b"break '\xff':4",
    b"show ",
    b"Show",
];

const ONE_COMMAND: [Row<'static>; 15] = [
    (LOOP, "m:f", "step r0", "at 1 of 1\n"),
    (LOOP, "m:f", "step r1023", "refused R20 NotEnabled line 1\n"),
    (LOOP, "m:f", "step d0>0", "refused R20 NotEnabled line 1\n"),
    (LOOP, "m:f", "back 0", "at 0 of 0\n"),
    (
        LOOP,
        "m:f",
        "back 4294967295",
        "refused R22 BeforeStart line 1\n",
    ),
    (LOOP, "m:f", "forward 0", "at 0 of 0\n"),
    (
        LOOP,
        "m:f",
        "forward 4294967295",
        "refused R23 AfterEnd line 1\n",
    ),
    (LOOP, "m:f", "go", "at 0 of 0: done\n"),
    (LOOP, "m:f", "go r0*1 r0", "at 2 of 2: done\n"),
    (LOOP, "m:f", "go d0>1", "at 0 of 0: stopped d0>1\n"),
    (LOOP, "m:f", "break m:4", "ok\n"),
    (LOOP, "m:f", "break 'm':4", "ok\n"),
    (LOOP, "m:f", "clear m:4", "ok\n"),
    (LOOP, "m:f", "clear m:1", "ok\n"),
    (
        LOOP,
        "m:f",
        "show",
        "applied 0\nstate open r0\nprocess <0.0.0> ready\nend\n",
    ),
];

#[test]
fn lines_are_answered_in_order(rt: HostRuntime) -> Result<(), Fail> {
    assert_eq!(rt; right_rows(rt.alloc(), &IN_ORDER)?, IN_ORDER.len());
    Ok(())
}

#[test]
fn lines_that_are_no_command(rt: HostRuntime) -> Result<(), Fail> {
    assert_eq!(rt; refused_lines(rt.alloc(), &NO_COMMANDS)?, NO_COMMANDS.len());
    Ok(())
}

#[test]
fn lines_that_are_one_command(rt: HostRuntime) -> Result<(), Fail> {
    assert_eq!(rt; right_rows(rt.alloc(), &ONE_COMMAND)?, ONE_COMMAND.len());
    Ok(())
}
