//! What a debugger answers to `tidy` and `undo`, and what it then tells of its choices.

use crate::samples::{Row, refused_lines, right_rows};
use crate::tidying::{LOOPS, SENDERS, TRAPS};
use std::test::Fail;

const TIDIED: [Row<'static>; 6] = [
    // there is nothing to do
    (LOOPS, "m:f", "tidy\nplan a\n", "at 0 of 0\na:\n"),
    // the choices before the position, the others stay
    (
        LOOPS,
        "m:f",
        "go r0*4 r1 r0 r1 r0\nback 1\ntidy\nplan a\nforward 1\nplan b\ntidy\nplan c\n",
        "at 8 of 8: done\nat 7 of 8\nat 7 of 8\na: r0*5 r1*2\nat 8 of 8\nb: r0*5 r1*2 r0\nat 8 of 8\nc: r0*6 r1*2\n",
    ),
    // what it made can be stepped back over, and is made again
    (
        LOOPS,
        "m:f",
        "go r0*4 r1 r0\ntidy\nback 1\nplan a\nforward 1\nplan b\nstep r0\nplan c",
        "at 6 of 6: done\nat 6 of 6\nat 5 of 6\na: r0*5\nat 6 of 6\nb: r0*5 r1\nat 7 of 7\nc: r0*5 r1 r0\n",
    ),
    // it would part more choices than it puts together
    (
        SENDERS,
        "m:f",
        "go r0*10 r1 r2 d1>0 d2>0 r0\ntidy\nplan a\n",
        "at 15 of 15: done\nat 15 of 15\na: r0*10 r1 r2 d1>0 d2>0 r0\n",
    ),
    // breakpoints stay: process 1 comes to item 13 again by its second run
    (
        LOOPS,
        "m:f",
        "break m:13\ngo r0*4 r1 r0\ntidy\ngo r1*3\n",
        "ok\nat 6 of 6: done\nat 6 of 6\nat 7 of 7: break <0.1.0> m:13\n",
    ),
    // a world that has trapped
    (
        TRAPS,
        "m:f",
        "go r0*4 r1 r0 r1 r0\ntidy\nplan a\nstep r1\n",
        "at 8 of 8: trapped Unset <0.0.0>\nat 8 of 8\na: r0*5 r1*2 r0\nrefused R21 Halted line 4\n",
    ),
];

const UNDONE: [Row<'static>; 7] = [
    // the runs of the other process go on without it, and it is made again behind them
    (
        LOOPS,
        "m:f",
        "go r0*4 r1 r0 r1 r0\nundo 5\nplan a\nforward 2\nplan b\n",
        "at 8 of 8: done\nat 6 of 8\na: r0*6\nat 8 of 8\nb: r0*6 r1*2\n",
    ),
    // what was ahead stays behind what is taken back
    (
        LOOPS,
        "m:f",
        "go r0*4 r1 r0 r1 r0\nback 2\nundo 5\nplan a\nforward 1\nplan b\nforward 2\nplan c\n",
        "at 8 of 8: done\nat 6 of 8\nat 5 of 8\na: r0*5\nat 6 of 8\nb: r0*5 r1\nat 8 of 8\nc: r0*5 r1*2 r0\n",
    ),
    // a choice made now is made without it
    (
        LOOPS,
        "m:f",
        "go r0*4 r1 r0\nundo 5\nstep r0\nplan a\nforward 1\n",
        "at 6 of 6: done\nat 5 of 6\nat 6 of 6\na: r0*6\nrefused R23 AfterEnd line 5\n",
    ),
    // the delivery of a message depends on its send, and the run that reads on the delivery; the other delivery does not
    (
        SENDERS,
        "m:f",
        "go r0*10 r1 r2 d1>0 d2>0 r0\nundo 12\nplan a\nforward 3\nplan b\nundo 1\nplan c\n",
        "at 15 of 15: done\nat 12 of 15\na: r0*10 r1 d1>0\nat 15 of 15\nb: r0*10 r1 d1>0 r2 d2>0 r0\nat 0 of 15\nc:\n",
    ),
    // a choice that is not before the position
    (
        LOOPS,
        "m:f",
        "undo 1\ngo r0*4 r1 r0\nback 1\nundo 0\nundo 6\nundo 7\nundo 4294967295\nundo 5\nplan a\n",
        "refused R27 NotIndependent line 1\nat 6 of 6: done\nat 5 of 6\nrefused R27 NotIndependent line 4\nrefused R27 NotIndependent line 5\nrefused R27 NotIndependent line 6\nrefused R27 NotIndependent line 7\nat 4 of 6\na: r0*4\n",
    ),
    // breakpoints stay: process 1 comes to item 13 again by its second run
    (
        LOOPS,
        "m:f",
        "break m:13\ngo r0*4 r1 r0\nundo 5\ngo r1*3\n",
        "ok\nat 6 of 6: done\nat 5 of 6\nat 7 of 7: break <0.1.0> m:13\n",
    ),
    // no choice passes one that traps
    (
        TRAPS,
        "m:f",
        "go r0*4 r1 r0 r1 r0\nundo 5\nplan a\nforward 3\nplan b\nstep r1\n",
        "at 8 of 8: trapped Unset <0.0.0>\nat 5 of 8\na: r0*5\nat 8 of 8\nb: r0*5 r1*2 r0\nrefused R21 Halted line 6\n",
    ),
];

const NO_COMMANDS: [&[u8]; 8] = [
    b"tidy ",
    b"tidy 1",
    b"undo",
    b"undo ",
    b"undo x",
    b"undo 01",
    b"undo 1 2",
    b"undo 4294967296",
];

#[test]
fn choices_before_the_position_are_tidied(rt: HostRuntime) -> Result<(), Fail> {
    assert_eq!(rt; right_rows(rt.alloc(), &TIDIED)?, TIDIED.len());
    Ok(())
}

#[test]
fn a_choice_is_taken_back(rt: HostRuntime) -> Result<(), Fail> {
    assert_eq!(rt; right_rows(rt.alloc(), &UNDONE)?, UNDONE.len());
    Ok(())
}

#[test]
fn lines_that_neither_tidy_nor_undo(rt: HostRuntime) -> Result<(), Fail> {
    assert_eq!(rt; refused_lines(rt.alloc(), &NO_COMMANDS)?, NO_COMMANDS.len());
    Ok(())
}
