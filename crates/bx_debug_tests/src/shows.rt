//! What a debugger shows of where a program stands and what it holds.

use crate::samples::{HOLDS, LOOP, QUOTED, Row, SIGNALS, TRAPS, refused_lines, right_rows};
use std::test::Fail;

const SHOWN: [Row<'static>; 14] = [
    (
        LOOP,
        "m:f",
        "where",
        "<0.0.0> ready m:4 {jump,{f,3}}\nend\n",
    ),
    (LOOP, "m:f", "signals", "end\n"),
    (
        LOOP,
        "m:f",
        "look 0",
        "process <0.0.0> ready m:4 {jump,{f,3}}\nend\n",
    ),
    (
        LOOP,
        "m:f",
        "look 1\nlook 1023\n",
        "refused R33 BadCommand line 1\nrefused R33 BadCommand line 2\n",
    ),
    (
        LOOP,
        "m:f",
        "list m:f/0",
        "m:0 {label,1}\nm:1 {func_info,{atom,m},{atom,f},0}\nm:2 {label,2}\nm:3 {label,3}\nm:4 {jump,{f,3}}\nend\n",
    ),
    (
        QUOTED,
        "'k k':f",
        "list 'k k':'f'/0\nwhere\n",
        "'k k':0 {label,1}\n'k k':1 {func_info,{atom,'k k'},{atom,f},0}\n'k k':2 {label,2}\n'k k':3 {label,3}\n'k k':4 {jump,{f,3}}\nend\n<0.0.0> ready 'k k':4 {jump,{f,3}}\nend\n",
    ),
    (
        LOOP,
        "m:f",
        "break m:f/0\ngo r0*2\nclear m:f/0\ngo r0*2\n",
        "ok\nat 1 of 1: break <0.0.0> m:4\nok\nat 3 of 3: done\n",
    ),
    (
        HOLDS,
        "h:f",
        "go r0*20\nwhere\nlook 0\nlook 1\nsignals\n",
        "at 20 of 20: done\n<0.0.0> ready h:29 {loop_rec_end,{f,6}}\n<0.1.0> ready - -\nend\nprocess <0.0.0> ready h:29 {loop_rec_end,{f,6}}\ncp h:20\nx0 {low,1}\nx1 {low,1}\nx2 []\nframe h:20\nframe -\ny0 catch h:20\ny1\npassed hi\nmessage {low,1}\nlink <0.1.0>\ntraps exits\nend\nprocess <0.1.0> ready - -\nlink <0.0.0>\nend\nend\n",
    ),
    (
        HOLDS,
        "h:f",
        "go r0*23\nlook 0\ngo e0 r0*3\nlook 0\nstep r0\nlook 0\n",
        "at 23 of 23: done\nprocess <0.0.0> waiting h:28 {loop_rec,{f,7},{x,0}}\nexpires h:32\ncp h:20\nx0 {low,1}\nx1 {low,1}\nx2 []\nframe h:20\nframe -\ny0 catch h:20\ny1\npassed hi\npassed {low,1}\nlink <0.1.0>\ntraps exits\nend\nat 27 of 27: done\nprocess <0.0.0> ready h:20 {try_case,{y,0}}\ncp h:20\nx0 late\nx1 {low,1}\nx2 []\nframe -\ny0 catch h:20\ny1\nmessage hi\nmessage {low,1}\nlink <0.1.0>\ntraps exits\nfault error late\nend\nat 28 of 28\nprocess <0.0.0> ready h:21 {deallocate,2}\ncp h:20\nx0 error\nx1 late\nx2 trace error\nframe -\ny0 []\ny1\nmessage hi\nmessage {low,1}\nlink <0.1.0>\ntraps exits\nend\n",
    ),
    (
        HOLDS,
        "h:f",
        "list h:g/0\nbreak h:hear/0\ngo r0*20\n",
        "h:35 {label,8}\nh:36 {func_info,{atom,h},{atom,g},0}\nh:37 {label,9}\nh:38 return\nend\nok\nat 16 of 16: break <0.0.0> h:26\n",
    ),
    (
        SIGNALS,
        "s:f",
        "go r0*16\nsignals\nwhere\nlook 0\n",
        "at 16 of 16: done\nd0>1 link\nd0>1 exit/2 stop\nd0>1 unlink\nd0>1 link\nd0>1 exit bye\nend\n<0.0.0> ended bye\n<0.1.0> ready s:3 {allocate,1,0}\nend\nprocess <0.0.0> ended bye\nend\n",
    ),
    (
        TRAPS,
        "m:f",
        "go r0*2\nwhere\nlook 0\n",
        "at 2 of 2: trapped Unset <0.0.0>\n<0.0.0> ready m:4 {move,{x,5},{x,0}}\nend\nprocess <0.0.0> ready m:4 {move,{x,5},{x,0}}\nx0 ok\nend\n",
    ),
    (
        LOOP,
        "m:f",
        "where\nback 0\nlook 0\nback 0\nsignals\nback 0\n",
        "<0.0.0> ready m:4 {jump,{f,3}}\nend\nat 0 of 0\nprocess <0.0.0> ready m:4 {jump,{f,3}}\nend\nat 0 of 0\nend\nat 0 of 0\n",
    ),
    (
        "{module,m}. {exports,[{f,0}]}. {attributes,[]}. {labels,5}. {function,f,0,2}. {label,1}. {label,2}. return. {function,g,1,4}. {label,3}. {label,4}.",
        "m:f",
        "break m:g/1\nlist m:g/1\nstep r0\nwhere\n",
        "refused R33 BadCommand line 1\nm:3 {label,3}\nm:4 {label,4}\nend\nat 1 of 1\n<0.0.0> ended normal\nend\n",
    ),
];

const NO_COMMANDS: [&[u8]; 22] = [
    b"where ",
    b"signals x",
    b"help me",
    b"look",
    b"look x",
    b"look 00",
    b"look 1024",
    b"list",
    b"list m",
    b"list m:4",
    b"list m:f",
    b"list m:f/",
    b"list m:f/00",
    b"list m:f/0 ",
    b"list m:f/1",
    b"list m:g/0",
    b"list n:f/0",
    b"list m:f/4294967296",
    b"break m:f",
    b"break m:f/1",
    b"break m:g/0",
    b"clear n:f/0",
];

#[test]
fn what_a_program_holds_is_shown(rt: HostRuntime) -> Result<(), Fail> {
    assert_eq!(rt; right_rows(rt.alloc(), &SHOWN)?, SHOWN.len());
    Ok(())
}

#[test]
fn lines_that_show_nothing(rt: HostRuntime) -> Result<(), Fail> {
    assert_eq!(rt; refused_lines(rt.alloc(), &NO_COMMANDS)?, NO_COMMANDS.len());
    Ok(())
}
