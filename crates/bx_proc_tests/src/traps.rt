//! Runs that have no meaning.

use crate::reports::{is_trapped, right_traps};
use bxemu_testkit::joined;
use std::alloc::Global;
use std::test::Fail;

/// Items, how many runs, and the trap that the last of them is.
const RUNS: [(&str, u32, &str); 50] = [
    ("", 1, "BadPlace"),
    ("int_code_end.", 1, "BadPlace"),
    ("{jump,{f,3}}. {label,3}.", 2, "BadPlace"),
    ("{deallocate,0}.", 1, "NoFrame"),
    ("{trim,0,0}.", 1, "NoFrame"),
    ("{call_last,0,{f,2},0}.", 1, "NoFrame"),
    ("{call_ext_last,0,{extfunc,m,f,0},0}.", 1, "NoFrame"),
    ("{allocate,1,0}. {deallocate,2}.", 2, "FrameSize"),
    ("{allocate,1,0}. {trim,1,1}.", 2, "FrameSize"),
    ("{allocate,3,0}. {trim,1,1}.", 2, "FrameSize"),
    ("{allocate,1,0}. {call_last,0,{f,2},0}.", 2, "FrameSize"),
    (
        "{allocate,2,0}. {call_ext_last,0,{extfunc,m,f,0},1}.",
        2,
        "FrameSize",
    ),
    (
        "{move,nil,{x,0}}. {call_ext_last,1,{extfunc,erlang,exit,1},0}.",
        2,
        "NoFrame",
    ),
    ("{call_ext_last,1,{extfunc,erlang,exit,1},0}.", 1, "Unset"),
    (
        "{move,{integer,-9223372036854775808},{x,0}}. {call_ext,1,{extfunc,erlang,abs,1}}.",
        2,
        "IntegerRange",
    ),
    (
        "{move,{integer,-9223372036854775808},{x,0}}. {call_ext_only,1,{extfunc,erlang,abs,1}}.",
        2,
        "IntegerRange",
    ),
    (
        "{move,{integer,-9223372036854775808},{x,0}}. {call_ext_last,1,{extfunc,erlang,abs,1},0}.",
        2,
        "NoFrame",
    ),
    (
        "{allocate,0,0}. {move,{integer,-9223372036854775808},{x,0}}. {call_ext_last,1,{extfunc,erlang,abs,1},1}.",
        3,
        "FrameSize",
    ),
    (
        "{allocate,0,0}. {move,{integer,-9223372036854775808},{x,0}}. {call_ext_last,1,{extfunc,erlang,abs,1},0}.",
        3,
        "IntegerRange",
    ),
    (
        "{move,{integer,1},{x,0}}. {move,{integer,64},{x,1}}. {call_ext_last,2,{extfunc,erlang,'bsl',2},0}.",
        3,
        "NoFrame",
    ),
    (
        "{allocate,2,0}. {move,{integer,1},{x,0}}. {move,{integer,64},{x,1}}. {call_ext_last,2,{extfunc,erlang,'bsl',2},1}.",
        4,
        "FrameSize",
    ),
    (
        "{move,{literal,[a]},{x,0}}. {move,{literal,[b]},{x,1}}. {call_ext_last,2,{extfunc,erlang,'++',2},0}.",
        3,
        "NoFrame",
    ),
    (
        "{allocate,1,0}. {move,{literal,[a]},{x,0}}. {move,{literal,[b]},{x,1}}. {call_ext_last,2,{extfunc,erlang,'++',2},0}.",
        4,
        "FrameSize",
    ),
    (
        "{allocate,1,0}. {move,{atom,a},{x,0}}. {move,{literal,[b]},{x,1}}. {call_ext_last,2,{extfunc,erlang,'++',2},0}.",
        4,
        "FrameSize",
    ),
    (
        "{allocate,1,0}. {move,{literal,[{a}]},{x,0}}. {call_ext_last,1,{extfunc,erlang,hd,1},0}.",
        3,
        "FrameSize",
    ),
    (
        "{move,{literal,{a}},{x,0}}. {call_ext_last,1,{extfunc,erlang,exit,1},0}.",
        2,
        "NoFrame",
    ),
    (
        "{allocate,1,0}. {move,{literal,{a}},{x,0}}. {call_ext_last,1,{extfunc,erlang,exit,1},0}.",
        3,
        "FrameSize",
    ),
    (
        "{allocate,1,0}. {move,{literal,{a}},{x,0}}. {call_ext_last,1,{extfunc,erlang,throw,1},2}.",
        3,
        "FrameSize",
    ),
    (
        "{allocate,1,0}. {move,{literal,{a}},{x,0}}. {call_ext_last,1,{extfunc,erlang,error,1},0}.",
        3,
        "FrameSize",
    ),
    ("{allocate,1023,0}. {move,{y,1022},{x,0}}.", 2, "Unset"),
    ("remove_message.", 1, "NoMessage"),
    ("{label,3}. {loop_rec_end,{f,3}}.", 1, "NoMessage"),
    (
        "{allocate,1,0}. {move,nil,{y,0}}. {catch_end,{y,0}}.",
        3,
        "NoTag",
    ),
    (
        "{allocate,1,0}. {move,nil,{y,0}}. {try_end,{y,0}}.",
        3,
        "NoTag",
    ),
    ("{allocate,1,0}. {try_case,{y,0}}.", 2, "NoPending"),
    (
        "{allocate,1,0}. {'try',{y,0},{f,3}}. if_end. {label,3}. {move,nil,{x,0}}.",
        4,
        "NoTag",
    ),
    (
        "{allocate,1,0}. {'try',{y,0},{f,3}}. if_end. {label,3}. {try_end,{y,0}}.",
        4,
        "NoTag",
    ),
    (
        "{allocate,1,0}. {'try',{y,0},{f,3}}. if_end. {label,3}.",
        4,
        "BadPlace",
    ),
    ("{move,nil,{x,0}}. {get_hd,{x,0},{x,0}}.", 2, "WrongShape"),
    ("{move,nil,{x,0}}. {get_tl,{x,0},{x,0}}.", 2, "WrongShape"),
    (
        "{move,nil,{x,0}}. {get_list,{x,0},{x,0},{x,1}}.",
        2,
        "WrongShape",
    ),
    (
        "{move,{literal,{a}},{x,0}}. {get_tuple_element,{x,0},1,{x,0}}.",
        2,
        "WrongShape",
    ),
    (
        "{move,nil,{x,0}}. {test,test_arity,{f,2},[{x,0},1]}.",
        2,
        "WrongShape",
    ),
    ("{move,nil,{x,0}}. build_stacktrace.", 2, "WrongShape"),
    ("{raise,{f,0},[nil,{x,0}],{x,0}}.", 1, "WrongShape"),
    ("build_stacktrace.", 1, "Unset"),
    (
        "{gc_bif,'+',{f,2},0,[{integer,9223372036854775807},{integer,1}],{x,0}}.",
        1,
        "IntegerRange",
    ),
    (
        "{gc_bif,'-',{f,0},0,[{integer,-9223372036854775808}],{x,0}}.",
        1,
        "IntegerRange",
    ),
    (
        "{gc_bif,'div',{f,0},0,[{integer,-9223372036854775808},{integer,-1}],{x,0}}.",
        1,
        "IntegerRange",
    ),
    (
        "{gc_bif,'bsl',{f,0},0,[{integer,1},{integer,64}],{x,0}}.",
        1,
        "IntegerRange",
    ),
];

#[test]
fn a_run_without_a_meaning_is_a_trap(rt: HostRuntime) -> Result<(), Fail> {
    assert_eq!(rt; right_traps(rt.alloc(), &RUNS)?, RUNS.len());
    Ok(())
}

/// Instructions that write a register, whose text is left out between the two.
const WRITERS: [(&str, &str); 19] = [
    ("{move,nil,", "}."),
    ("{bif,self,{f,0},[],", "}."),
    ("{bif,hd,{f,0},[{x,0}],", "}."),
    ("{bif,element,{f,0},[{integer,1},{literal,{a}}],", "}."),
    ("{swap,{x,0},", "}."),
    ("{swap,", ",{x,0}}."),
    ("{gc_bif,'-',{f,0},0,[{integer,1}],", "}."),
    ("{gc_bif,'+',{f,0},0,[{integer,1},{integer,1}],", "}."),
    ("{put_list,nil,nil,", "}."),
    ("{put_tuple2,", ",{list,[]}}."),
    ("{get_list,{x,0},", ",{x,1}}."),
    ("{get_list,{x,0},{x,1},", "}."),
    ("{get_hd,{x,0},", "}."),
    ("{get_tl,{x,0},", "}."),
    ("{'catch',", ",{f,2}}."),
    ("{'try',", ",{f,2}}."),
    ("{init_yregs,{list,[", "]}}."),
    ("{catch_end,", "}."),
    ("{try_end,", "}."),
];

/// How many of those instructions, from the first on, are that trap where they write that register behind these items.
fn refused_writes(
    alloc: Global,
    first: &str,
    register: &str,
    runs: u32,
    trap: &str,
) -> Result<usize, Fail> {
    for (number, (before, behind)) in WRITERS.iter().enumerate() {
        let begin = "{move,{literal,[a]},{x,0}}. ";
        let items = joined(alloc, &[begin, first, *before, register, *behind])?;
        if !is_trapped(alloc, items.as_str(), runs, trap)? {
            return Ok(number);
        }
    }
    Ok(WRITERS.len())
}

#[test]
fn a_y_register_without_a_frame_is_not_written(rt: HostRuntime) -> Result<(), Fail> {
    let refused = refused_writes(rt.alloc(), "", "{y,0}", 2, "NoFrame")?;
    assert_eq!(rt; refused, WRITERS.len());
    Ok(())
}

#[test]
fn a_y_register_past_the_size_is_not_written(rt: HostRuntime) -> Result<(), Fail> {
    let refused = refused_writes(rt.alloc(), "{allocate,1,0}. ", "{y,1}", 3, "FrameSize")?;
    assert_eq!(rt; refused, WRITERS.len());
    Ok(())
}
