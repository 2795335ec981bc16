//! What is read from x0 on: arguments of natives, a receiver and its message; and the destinations that a message and an element
//! of a tuple are written to.

use crate::reports::right_traps;
use std::test::Fail;

/// Items, how many runs, and the trap that the last of them is. Behind the five runs of the longer ones a trace is in x0, or in
/// the register that is named last.
const ARGUMENTS: [(&str, u32, &str); 9] = [
    ("{call_ext,1,{extfunc,erlang,exit,1}}.", 1, "Unset"),
    ("{call_ext_only,1,{extfunc,erlang,exit,1}}.", 1, "Unset"),
    (
        "{move,nil,{x,0}}. {call_ext,2,{extfunc,erlang,'++',2}}.",
        2,
        "Unset",
    ),
    (
        "{move,nil,{x,0}}. {call_ext_only,2,{extfunc,erlang,send,2}}.",
        2,
        "Unset",
    ),
    (
        "{move,nil,{x,0}}. {move,nil,{x,1}}. {call_ext,3,{extfunc,erlang,setelement,3}}.",
        3,
        "Unset",
    ),
    (
        "{allocate,1,0}. {'try',{y,0},{f,3}}. if_end. {label,3}. {try_case,{y,0}}. {move,{x,2},{x,0}}. {call_ext,1,{extfunc,erlang,exit,1}}.",
        6,
        "NotATerm",
    ),
    (
        "{allocate,1,0}. {'try',{y,0},{f,3}}. if_end. {label,3}. {try_case,{y,0}}. {move,{x,2},{x,0}}. {call_ext_only,1,{extfunc,erlang,display,1}}.",
        6,
        "NotATerm",
    ),
    (
        "{allocate,1,0}. {'try',{y,0},{f,3}}. if_end. {label,3}. {try_case,{y,0}}. {move,{x,2},{x,0}}. {call_ext_last,1,{extfunc,erlang,display,1},9}.",
        6,
        "NotATerm",
    ),
    (
        "{allocate,1,0}. {'try',{y,0},{f,3}}. if_end. {label,3}. {try_case,{y,0}}. {call_ext,3,{extfunc,erlang,spawn,3}}.",
        5,
        "NotATerm",
    ),
];

#[test]
fn arguments_that_are_no_terms(rt: HostRuntime) -> Result<(), Fail> {
    assert_eq!(rt; right_traps(rt.alloc(), &ARGUMENTS)?, ARGUMENTS.len());
    Ok(())
}

/// The same of a message that is sent: its receiver is read first, and what is no pid is a fault only behind both.
const SENDS: [(&str, u32, &str); 5] = [
    ("send.", 1, "Unset"),
    ("{bif,self,{f,0},[],{x,0}}. send.", 2, "Unset"),
    ("{move,nil,{x,0}}. send.", 2, "Unset"),
    (
        "{allocate,1,0}. {'try',{y,0},{f,3}}. if_end. {label,3}. {try_case,{y,0}}. {move,{x,2},{x,0}}. send.",
        6,
        "NotATerm",
    ),
    (
        "{allocate,1,0}. {'try',{y,0},{f,3}}. if_end. {label,3}. {try_case,{y,0}}. {move,{x,2},{x,1}}. send.",
        6,
        "NotATerm",
    ),
];

#[test]
fn messages_that_are_not_sent(rt: HostRuntime) -> Result<(), Fail> {
    assert_eq!(rt; right_traps(rt.alloc(), &SENDS)?, SENDS.len());
    Ok(())
}

/// The same of what is read, and cannot be written.
const DESTINATIONS: [(&str, u32, &str); 6] = [
    (
        "{move,{literal,{a}},{x,0}}. {get_tuple_element,{x,0},0,{y,0}}.",
        2,
        "NoFrame",
    ),
    (
        "{move,{literal,{a}},{x,0}}. {allocate,1,0}. {get_tuple_element,{x,0},0,{y,1}}.",
        3,
        "FrameSize",
    ),
    (
        "{move,{literal,{a}},{x,0}}. {get_tuple_element,{x,0},1,{y,0}}.",
        2,
        "WrongShape",
    ),
    (
        "{bif,self,{f,0},[],{x,0}}. {move,{atom,a},{x,1}}. send. {label,3}. {loop_rec,{f,3},{y,0}}.",
        4,
        "NoFrame",
    ),
    (
        "{bif,self,{f,0},[],{x,0}}. {move,{atom,a},{x,1}}. send. {allocate,1,0}. {label,3}. {loop_rec,{f,3},{y,1}}.",
        5,
        "FrameSize",
    ),
    // without a message no register is looked at
    (
        "{label,3}. {loop_rec,{f,4},{y,0}}. {label,4}. int_code_end.",
        2,
        "BadPlace",
    ),
];

#[test]
fn destinations_that_are_not_written(rt: HostRuntime) -> Result<(), Fail> {
    assert_eq!(rt; right_traps(rt.alloc(), &DESTINATIONS)?, DESTINATIONS.len());
    Ok(())
}
