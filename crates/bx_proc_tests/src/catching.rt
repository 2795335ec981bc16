//! Faults that are caught, told by the reason with which the process ends afterwards.

use crate::reports::right_ends;
use std::test::Fail;

/// Items, how many runs, and the reason with which the last of them ends the process.
const CAUGHT: [(&str, u32, &str); 18] = [
    (
        "{allocate,1,0}. {'catch',{y,0},{f,3}}. {move,{atom,t},{x,0}}. {call_ext,1,{extfunc,erlang,throw,1}}. {label,3}. {catch_end,{y,0}}. {call_ext_only,1,{extfunc,erlang,exit,1}}.",
        6,
        "t",
    ),
    (
        "{allocate,1,0}. {'catch',{y,0},{f,3}}. {move,{atom,t},{x,0}}. {call_ext,1,{extfunc,erlang,exit,1}}. {label,3}. {catch_end,{y,0}}. {call_ext_only,1,{extfunc,erlang,exit,1}}.",
        6,
        "{'EXIT',t}",
    ),
    (
        "{allocate,1,0}. {'catch',{y,0},{f,3}}. {move,{atom,t},{x,0}}. {call_ext,1,{extfunc,erlang,error,1}}. {label,3}. {catch_end,{y,0}}. {call_ext_only,1,{extfunc,erlang,exit,1}}.",
        6,
        "{'EXIT',{t,[]}}",
    ),
    (
        "{allocate,1,0}. {'catch',{y,0},{f,3}}. {move,{atom,t},{x,0}}. {label,3}. {catch_end,{y,0}}. {call_ext_only,1,{extfunc,erlang,exit,1}}.",
        5,
        "t",
    ),
    (
        "{allocate,1,0}. {'catch',{y,0},{f,3}}. if_end. {label,3}. {catch_end,{y,0}}. {move,{y,0},{x,0}}. {call_ext_only,1,{extfunc,erlang,exit,1}}.",
        6,
        "[]",
    ),
    (
        "{allocate,1,0}. {'try',{y,0},{f,3}}. {badmatch,{integer,5}}. {label,3}. {try_case,{y,0}}. {call_ext_only,1,{extfunc,erlang,exit,1}}.",
        5,
        "error",
    ),
    (
        "{allocate,1,0}. {'try',{y,0},{f,3}}. {badmatch,{integer,5}}. {label,3}. {try_case,{y,0}}. {move,{x,1},{x,0}}. {call_ext_only,1,{extfunc,erlang,exit,1}}.",
        6,
        "{badmatch,5}",
    ),
    (
        "{allocate,1,0}. {'try',{y,0},{f,3}}. if_end. {label,3}. {try_case,{y,0}}. {move,{x,2},{x,0}}. build_stacktrace. {call_ext_only,1,{extfunc,erlang,exit,1}}.",
        7,
        "[]",
    ),
    (
        "{allocate,1,0}. {'try',{y,0},{f,3}}. if_end. {label,3}. {try_case,{y,0}}. {swap,{x,2},{x,0}}. build_stacktrace. {call_ext_only,1,{extfunc,erlang,exit,1}}.",
        7,
        "[]",
    ),
    (
        "{allocate,1,0}. {'try',{y,0},{f,3}}. if_end. {label,3}. {try_case,{y,0}}. {swap,{x,0},{x,2}}. build_stacktrace. {call_ext_only,1,{extfunc,erlang,exit,1}}.",
        7,
        "[]",
    ),
    (
        "{allocate,1,0}. {'try',{y,0},{f,3}}. if_end. {label,3}. {try_case,{y,0}}. {swap,{x,2},{x,0}}. {move,{x,2},{x,0}}. {call_ext_only,1,{extfunc,erlang,exit,1}}.",
        7,
        "error",
    ),
    (
        "{allocate,1,0}. {'try',{y,0},{f,3}}. if_end. {label,3}. {try_case,{y,0}}. {swap,{x,0},{x,2}}. {move,{x,2},{x,0}}. {call_ext_only,1,{extfunc,erlang,exit,1}}.",
        7,
        "error",
    ),
    (
        "{allocate,1,0}. {'try',{y,0},{f,3}}. {move,{atom,t},{x,0}}. {call_ext,1,{extfunc,erlang,throw,1}}. {label,3}. {try_case,{y,0}}. {raise,{f,0},[{x,2},{x,1}],{x,0}}.",
        6,
        "{{nocatch,t},[]}",
    ),
    (
        "{allocate,1,0}. {'try',{y,0},{f,3}}. {move,{atom,t},{x,0}}. {call_ext,1,{extfunc,erlang,exit,1}}. {label,3}. {try_case,{y,0}}. {raise,{f,0},[{x,2},{atom,u}],{x,0}}.",
        6,
        "u",
    ),
    (
        "{allocate,1,0}. {'try',{y,0},{f,3}}. {try_end,{y,0}}. if_end. {label,3}. return.",
        4,
        "{if_clause,[]}",
    ),
    (
        "{allocate,2,0}. {'catch',{y,1},{f,4}}. {'catch',{y,0},{f,3}}. if_end. {label,3}. {catch_end,{y,0}}. {move,{atom,low},{x,0}}. {call_ext_only,1,{extfunc,erlang,throw,1}}. {label,4}. {catch_end,{y,1}}. {call_ext_only,1,{extfunc,erlang,exit,1}}.",
        9,
        "low",
    ),
    (
        "{allocate,1,0}. {'catch',{y,0},{f,3}}. {call,0,{f,4}}. {label,3}. {catch_end,{y,0}}. {deallocate,1}. return. {label,4}. {allocate,9,0}. if_end.",
        8,
        "normal",
    ),
    (
        "{allocate,1,0}. {'catch',{y,0},{f,3}}. {gc_bif,'div',{f,4},0,[{integer,1},{integer,0}],{x,0}}. {label,3}. if_end. {label,4}. {try_end,{y,0}}. return.",
        5,
        "normal",
    ),
];

#[test]
fn faults_that_are_caught(rt: HostRuntime) -> Result<(), Fail> {
    assert_eq!(rt; right_ends(rt.alloc(), &CAUGHT)?, CAUGHT.len());
    Ok(())
}
