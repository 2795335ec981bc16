//! What a debugger answers to `swap`.

use crate::samples::{LOOP, Row, SIGNALS, TRAPS, refused_lines, right_rows};
use bxemu_testkit::TALK;
use std::test::Fail;

const SWAPPED: [Row<'static>; 5] = [
    // choices 10 to 12 are runs of 1, 0 and 0, each of an instruction that concerns its process alone
    (
        TALK,
        "m:f",
        "go r0*9 r1 r0*2\nback 1\nswap 10\nforward 1\ntrace 3\nswap 9\nswap 11\ntrace 2\nswap 0\nswap 12\nswap 4294967295\n",
        "at 12 of 12: done\nat 11 of 12\nat 11 of 12\nat 12 of 12\n10 r0 m:12 {move,{x,0},{y,0}}\n11 r1 m:36 {loop_rec,{f,10},{x,0}}\n12 r0 m:13 {bif,self,{f,0},[],{x,1}}\nend\nrefused R27 NotIndependent line 6\nat 12 of 12\n11 r0 m:13 {bif,self,{f,0},[],{x,1}}\n12 r1 m:36 {loop_rec,{f,10},{x,0}}\nend\nrefused R27 NotIndependent line 9\nrefused R27 NotIndependent line 10\nrefused R27 NotIndependent line 11\n",
    ),
    // before its spawn no process runs
    (
        TALK,
        "m:f",
        "go r0*9 r1\nswap 9\ntrace 1\n",
        "at 10 of 10: done\nrefused R27 NotIndependent line 2\n10 r1 m:36 {loop_rec,{f,10},{x,0}}\nend\n",
    ),
    // nothing is delivered before it was sent
    (
        SIGNALS,
        "s:f",
        "go r0*8 d0>1\nswap 8\ntrace 2\nswap 7\n",
        "at 9 of 9: done\nat 9 of 9\n8 d0>1 link\n9 r0 s:10 {move,{y,0},{x,0}}\nend\nrefused R27 NotIndependent line 4\n",
    ),
    (
        TRAPS,
        "m:f",
        "go r0*2\nswap 1\n",
        "at 2 of 2: trapped Unset <0.0.0>\nrefused R27 NotIndependent line 2\n",
    ),
    (LOOP, "m:f", "swap 1", "refused R27 NotIndependent line 1\n"),
];

const NO_COMMANDS: [&[u8]; 6] = [
    b"swap",
    b"swap ",
    b"swap x",
    b"swap 01",
    b"swap 1 2",
    b"swap 4294967296",
];

#[test]
fn independent_choices_are_exchanged(rt: HostRuntime) -> Result<(), Fail> {
    assert_eq!(rt; right_rows(rt.alloc(), &SWAPPED)?, SWAPPED.len());
    Ok(())
}

#[test]
fn lines_that_exchange_nothing(rt: HostRuntime) -> Result<(), Fail> {
    assert_eq!(rt; refused_lines(rt.alloc(), &NO_COMMANDS)?, NO_COMMANDS.len());
    Ok(())
}
