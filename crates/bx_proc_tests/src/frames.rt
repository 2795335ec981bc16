//! Frames, calls and returns, told by the reason with which the process ends.

use crate::reports::right_ends;
use std::test::Fail;

/// Items, how many runs, and the reason with which the last of them ends the process.
const ROWS: [(&str, u32, &str); 15] = [
    ("return.", 1, "normal"),
    ("{allocate,0,0}. {deallocate,0}. return.", 3, "normal"),
    (
        "{allocate,1,0}. {call,0,{f,3}}. {deallocate,1}. return. {label,3}. return.",
        5,
        "normal",
    ),
    (
        "{move,{atom,a},{x,0}}. {call_only,1,{f,3}}. {label,3}. {call_ext_only,1,{extfunc,erlang,exit,1}}.",
        3,
        "a",
    ),
    (
        "{move,{atom,a},{x,0}}. {allocate,2,0}. {call_last,1,{f,3},2}. {label,3}. {call_ext_only,1,{extfunc,erlang,exit,1}}.",
        4,
        "a",
    ),
    (
        "{allocate,3,0}. {move,{atom,a},{y,2}}. {trim,2,1}. {move,{y,0},{x,0}}. {call_ext_last,1,{extfunc,erlang,exit,1},1}.",
        5,
        "a",
    ),
    (
        "{allocate,2,0}. {move,{atom,a},{y,0}}. {allocate,1,0}. {move,{atom,b},{y,0}}. {deallocate,1}. {move,{y,0},{x,0}}. {call_ext_only,1,{extfunc,erlang,exit,1}}.",
        7,
        "a",
    ),
    (
        "{allocate,1,0}. {init_yregs,{list,[{y,0}]}}. {move,{y,0},{x,0}}. {call_ext_only,1,{extfunc,erlang,exit,1}}.",
        4,
        "[]",
    ),
    (
        "{allocate_heap,1,{alloc,[{words,2}]},0}. {deallocate,1}. return.",
        3,
        "normal",
    ),
    (
        "{allocate,1,0}. {move,{literal,{a}},{x,0}}. {call_ext_last,1,{extfunc,erlang,exit,1},1}.",
        3,
        "{a}",
    ),
    (
        "{allocate,1,0}. {move,{literal,[a]},{x,0}}. {move,{literal,[b]},{x,1}}. {call_ext_last,2,{extfunc,erlang,'++',2},1}.",
        4,
        "normal",
    ),
    (
        "{move,{atom,a},{x,0}}. {call_ext_only,1,{extfunc,erlang,list_to_tuple,1}}.",
        2,
        "{badarg,[]}",
    ),
    (
        "{move,nil,{x,0}}. {call_ext_only,1,{extfunc,erlang,list_to_tuple,1}}.",
        2,
        "normal",
    ),
    (
        "{test,is_nil,{f,3},[{integer,1}]}. if_end. {label,3}. return.",
        2,
        "normal",
    ),
    (
        "{test,is_integer,{f,1},[{integer,1}]}. return.",
        2,
        "normal",
    ),
];

#[test]
fn calls_and_frames(rt: HostRuntime) -> Result<(), Fail> {
    assert_eq!(rt; right_ends(rt.alloc(), &ROWS)?, ROWS.len());
    Ok(())
}
