//! Faults that nothing catches, told by the reason with which they end the process.

use crate::reports::right_ends;
use std::test::Fail;

/// Items, how many runs, and the reason with which the last of them ends the process.
const INSTRUCTIONS: [(&str, u32, &str); 22] = [
    ("{jump,{f,1}}.", 2, "{function_clause,[]}"),
    ("if_end.", 1, "{if_clause,[]}"),
    ("{badmatch,{integer,5}}.", 1, "{{badmatch,5},[]}"),
    ("{case_end,{atom,a}}.", 1, "{{case_clause,a},[]}"),
    ("{try_case_end,nil}.", 1, "{{try_clause,[]},[]}"),
    ("{call_ext,0,{extfunc,m,g,0}}.", 1, "{undef,[]}"),
    ("{call_ext_only,0,{extfunc,n,f,0}}.", 1, "{undef,[]}"),
    (
        "{allocate,0,0}. {call_ext_last,0,{extfunc,n,f,0},0}.",
        2,
        "{undef,[]}",
    ),
    (
        "{gc_bif,'div',{f,0},0,[{integer,7},{integer,0}],{x,0}}.",
        1,
        "{badarith,[]}",
    ),
    (
        "{gc_bif,'rem',{f,0},0,[{integer,7},{integer,0}],{x,0}}.",
        1,
        "{badarith,[]}",
    ),
    (
        "{gc_bif,'+',{f,0},0,[{integer,7},nil],{x,0}}.",
        1,
        "{badarith,[]}",
    ),
    ("{gc_bif,'-',{f,0},0,[{atom,a}],{y,0}}.", 1, "{badarith,[]}"),
    ("{bif,hd,{f,0},[nil],{x,0}}.", 1, "{badarg,[]}"),
    ("{bif,abs,{f,0},[nil],{x,0}}.", 1, "{badarg,[]}"),
    ("{bif,'not',{f,0},[nil],{x,0}}.", 1, "{badarg,[]}"),
    (
        "{bif,length,{f,0},[{literal,[a|b]}],{x,0}}.",
        1,
        "{badarg,[]}",
    ),
    (
        "{bif,element,{f,0},[{integer,0},{literal,{a}}],{x,0}}.",
        1,
        "{badarg,[]}",
    ),
    (
        "{bif,element,{f,0},[{integer,2},{literal,{a}}],{x,0}}.",
        1,
        "{badarg,[]}",
    ),
    (
        "{move,{atom,a},{x,0}}. {move,{atom,b},{x,1}}. send.",
        3,
        "{badarg,[]}",
    ),
    (
        "{label,3}. {wait_timeout,{f,3},{atom,soon}}.",
        1,
        "{timeout_value,[]}",
    ),
    (
        "{label,3}. {wait_timeout,{f,3},{integer,-1}}.",
        1,
        "{timeout_value,[]}",
    ),
    (
        "{label,3}. {wait_timeout,{f,3},{integer,4294967296}}.",
        1,
        "{timeout_value,[]}",
    ),
];

#[test]
fn instructions_that_fault(rt: HostRuntime) -> Result<(), Fail> {
    assert_eq!(rt; right_ends(rt.alloc(), &INSTRUCTIONS)?, INSTRUCTIONS.len());
    Ok(())
}

/// The same, of calls by name.
const NATIVES: [(&str, u32, &str); 14] = [
    (
        "{move,{atom,t},{x,0}}. {call_ext,1,{extfunc,erlang,throw,1}}.",
        2,
        "{{nocatch,t},[]}",
    ),
    (
        "{move,{atom,t},{x,0}}. {call_ext,1,{extfunc,erlang,error,1}}.",
        2,
        "{t,[]}",
    ),
    (
        "{move,{atom,t},{x,0}}. {call_ext,1,{extfunc,erlang,exit,1}}.",
        2,
        "t",
    ),
    (
        "{move,{literal,[1|2]},{x,0}}. {move,nil,{x,1}}. {call_ext,2,{extfunc,erlang,'++',2}}.",
        3,
        "{badarg,[]}",
    ),
    (
        "{move,{atom,a},{x,0}}. {move,nil,{x,1}}. {call_ext_only,2,{extfunc,erlang,'++',2}}.",
        3,
        "{badarg,[]}",
    ),
    (
        "{move,{integer,3},{x,0}}. {move,{literal,{a,b}},{x,1}}. {move,nil,{x,2}}. {call_ext,3,{extfunc,erlang,setelement,3}}.",
        4,
        "{badarg,[]}",
    ),
    (
        "{move,{integer,0},{x,0}}. {move,{literal,{a,b}},{x,1}}. {move,nil,{x,2}}. {call_ext,3,{extfunc,erlang,setelement,3}}.",
        4,
        "{badarg,[]}",
    ),
    (
        "{move,{integer,1},{x,0}}. {move,{literal,[a]},{x,1}}. {move,nil,{x,2}}. {call_ext,3,{extfunc,erlang,setelement,3}}.",
        4,
        "{badarg,[]}",
    ),
    (
        "{move,{atom,a},{x,0}}. {move,{literal,{a}},{x,1}}. {move,nil,{x,2}}. {call_ext,3,{extfunc,erlang,setelement,3}}.",
        4,
        "{badarg,[]}",
    ),
    (
        "{move,{literal,[1|2]},{x,0}}. {call_ext,1,{extfunc,erlang,list_to_tuple,1}}.",
        2,
        "{badarg,[]}",
    ),
    (
        "{move,{literal,[1]},{x,0}}. {call_ext,1,{extfunc,erlang,tuple_to_list,1}}.",
        2,
        "{badarg,[]}",
    ),
    (
        "{move,{atom,other},{x,0}}. {move,{atom,true},{x,1}}. {call_ext,2,{extfunc,erlang,process_flag,2}}.",
        3,
        "{badarg,[]}",
    ),
    (
        "{move,{atom,trap_exit},{x,0}}. {move,{integer,1},{x,1}}. {call_ext,2,{extfunc,erlang,process_flag,2}}.",
        3,
        "{badarg,[]}",
    ),
    (
        "{move,{literal,[1|2]},{x,0}}. {call_ext,1,{extfunc,erlang,length,1}}.",
        2,
        "{badarg,[]}",
    ),
];

#[test]
fn natives_that_fault(rt: HostRuntime) -> Result<(), Fail> {
    assert_eq!(rt; right_ends(rt.alloc(), &NATIVES)?, NATIVES.len());
    Ok(())
}
