//! What a debugger answers to `help` and `plan`.

use crate::samples::{HOLDS, LOOP, Row, SIGNALS, refused_lines, right_rows};
use std::test::Fail;

const TOLD: [Row<'static>; 6] = [
    (LOOP, "m:f", "plan a", "a:\n"),
    (
        LOOP,
        "m:f",
        "go r0*3\nplan a\nback 1\nplan B_2-c\nback 1\nplan 1\nforward 2\n",
        "at 3 of 3: done\na: r0*3\nat 2 of 3\nB_2-c: r0*2\nat 1 of 3\n1: r0\nat 3 of 3\n",
    ),
    (
        HOLDS,
        "h:f",
        "go r0*17 r0 r0 r0*4 e0 r0\nplan all",
        "at 25 of 25: done\nall: r0*23 e0 r0\n",
    ),
    (
        SIGNALS,
        "s:f",
        "go r0*7 d0>1 r1 r1 r0\nplan all",
        "at 11 of 11: done\nall: r0*7 d0>1 r1*2 r0\n",
    ),
    (
        LOOP,
        "m:f",
        "go r0*100000\nplan a\nstep r0\nplan a\n",
        "at 100000 of 100000: done\na: r0*100000\nat 100001 of 100001\nrefused R26 TooLong line 4\n",
    ),
    (
        LOOP,
        "m:f",
        "help\nback 0\n",
        "  step C       Makes a choice: r0 runs process 0, d0>1 delivers the first signal from 0 to 1, e0 ends the wait of 0\n  back N       Goes back over N choices\n  forward N    Goes forward over N choices\n  go C C ..    Makes choices in order, up to the first that stops it; C*N makes C N times\n  until P      Runs process P up to before it next sends, asks for something, times out or sets a flag, or to its wait or end\n  run P        Runs process P until it has sent or asked for something, or to its wait or end\n  swap K       Exchanges choices K and K+1 where they are independent\n  tidy         Puts the choices of one process together, as far as they are independent\n  undo K       Takes back choice K and all that depend on it; forward makes them again\n  break M:I    Lets go stop behind a run that leaves its process at item I of module M\n  break M:F/A  Lets go stop where a call of that function begins\n  clear M:I    Removes that breakpoint; M:F/A names one too\n  show         Shows the outcome of the choices so far\n  where        Shows for each process where it goes on, and the item there\n  look P       Shows all that process P holds\n  signals      Shows the signals that wait\n  open         Shows the choices that are enabled, each with what it would meet\n  list M:F/A   Shows the items of a function\n  trace N      Shows the last N choices, each with what it met\n  plan NAME    Shows the choices so far as a line of a plan\n  help         Shows these lines\n  quit         Ends the session\nend\nat 0 of 0\n",
    ),
];

const NO_COMMANDS: [&[u8]; 10] = [
    b"help ",
    b"plan",
    b"plan ",
    b"plan a b",
    b"plan a:",
    b"plan a: r0",
    b"plan #a",
    b"plan a\xc3\xa9",
    b"plan a\xff",
    b"plan 0123456789012345678901234567890123456789012345678901234567890123x",
];

#[test]
fn choices_are_told_as_a_plan(rt: HostRuntime) -> Result<(), Fail> {
    assert_eq!(rt; right_rows(rt.alloc(), &TOLD)?, TOLD.len());
    Ok(())
}

#[test]
fn names_that_a_plan_refuses(rt: HostRuntime) -> Result<(), Fail> {
    assert_eq!(rt; refused_lines(rt.alloc(), &NO_COMMANDS)?, NO_COMMANDS.len());
    Ok(())
}
