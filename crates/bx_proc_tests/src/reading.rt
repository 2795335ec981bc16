//! Registers that hold nothing, a tag, or a trace, where a term is read.

use crate::reports::is_trapped;
use bxemu_testkit::joined;
use std::alloc::Global;
use std::test::Fail;

/// Instructions that copy what a register holds, whose text is left out between the two.
const CARRIERS: [(&str, &str); 3] = [
    ("{move,", ",{x,0}}."),
    ("{swap,", ",{x,0}}."),
    ("{swap,{x,0},", "}."),
];

/// Instructions that read a term in a register, whose text is left out between the two.
const READERS: [(&str, &str); 40] = [
    ("{bif,hd,{f,2},[", "],{x,0}}."),
    ("{bif,element,{f,2},[", ",{literal,{a}}],{x,0}}."),
    ("{bif,element,{f,2},[{integer,1},", "],{x,0}}."),
    ("{gc_bif,'-',{f,0},0,[", "],{x,0}}."),
    ("{gc_bif,'+',{f,0},0,[", ",{integer,1}],{x,0}}."),
    ("{gc_bif,'+',{f,0},0,[{integer,1},", "],{x,0}}."),
    ("{test,is_lt,{f,2},[", ",{integer,1}]}."),
    ("{test,is_ge,{f,2},[{integer,1},", "]}."),
    ("{test,is_eq,{f,2},[{integer,1},", "]}."),
    ("{test,is_ne,{f,2},[", ",nil]}."),
    ("{test,is_eq_exact,{f,2},[{integer,1},", "]}."),
    ("{test,is_ne_exact,{f,2},[", ",nil]}."),
    ("{test,is_integer,{f,2},[", "]}."),
    ("{test,is_float,{f,2},[", "]}."),
    ("{test,is_number,{f,2},[", "]}."),
    ("{test,is_atom,{f,2},[", "]}."),
    ("{test,is_pid,{f,2},[", "]}."),
    ("{test,is_reference,{f,2},[", "]}."),
    ("{test,is_port,{f,2},[", "]}."),
    ("{test,is_nil,{f,2},[", "]}."),
    ("{test,is_binary,{f,2},[", "]}."),
    ("{test,is_list,{f,2},[", "]}."),
    ("{test,is_nonempty_list,{f,2},[", "]}."),
    ("{test,is_tuple,{f,2},[", "]}."),
    ("{test,is_boolean,{f,2},[", "]}."),
    ("{test,test_arity,{f,2},[", ",2]}."),
    ("{test,is_tagged_tuple,{f,2},[", ",2,{atom,a}]}."),
    ("{select_val,", ",{f,2},{list,[{integer,1},{f,2}]}}."),
    ("{select_tuple_arity,", ",{f,2},{list,[1,{f,2}]}}."),
    ("{get_list,", ",{x,0},{x,1}}."),
    ("{get_hd,", ",{x,0}}."),
    ("{get_tl,", ",{x,0}}."),
    ("{get_tuple_element,", ",0,{x,0}}."),
    ("{put_list,", ",nil,{x,0}}."),
    ("{put_list,nil,", ",{x,0}}."),
    ("{put_tuple2,{x,0},{list,[nil,", "]}}."),
    ("{badmatch,", "}."),
    ("{case_end,", "}."),
    ("{try_case_end,", "}."),
    ("{wait_timeout,{f,2},", "}."),
];

/// Items, the register behind them that is read, and the trap that the last of so many runs is. The first holds nothing; y0 without
/// a frame, and past its size, is none; then one holds a tag, and one a trace.
const REGISTERS: [(&str, &str, u32, &str); 6] = [
    ("", "{x,9}", 1, "Unset"),
    ("{allocate,1,0}. ", "{y,0}", 2, "Unset"),
    ("", "{y,0}", 1, "NoFrame"),
    ("{allocate,1,0}. ", "{y,1}", 2, "FrameSize"),
    (
        "{allocate,1,0}. {'try',{y,0},{f,2}}. ",
        "{y,0}",
        3,
        "NotATerm",
    ),
    (
        "{allocate,1,0}. {'try',{y,0},{f,3}}. if_end. {label,3}. {try_case,{y,0}}. ",
        "{x,2}",
        5,
        "NotATerm",
    ),
];

/// The same of what is copied, a trace aside.
const UNCARRIED: [(&str, &str, u32, &str); 5] = [
    ("{move,nil,{x,0}}. ", "{y,0}", 2, "NoFrame"),
    ("{move,nil,{x,0}}. {allocate,1,0}. ", "{y,0}", 3, "Unset"),
    (
        "{move,nil,{x,0}}. {allocate,1,0}. ",
        "{y,1}",
        3,
        "FrameSize",
    ),
    ("{move,nil,{x,0}}. ", "{x,9}", 2, "Unset"),
    (
        "{move,nil,{x,0}}. {allocate,1,0}. {'try',{y,0},{f,2}}. ",
        "{y,0}",
        4,
        "NotATerm",
    ),
];

/// How many of those instructions, from the first on, are that trap with that register behind those items.
fn trapped_by(
    alloc: Global,
    instructions: &[(&str, &str)],
    (first, register, runs, trap): (&str, &str, u32, &str),
) -> Result<usize, Fail> {
    for (number, (before, behind)) in instructions.iter().enumerate() {
        let items = joined(alloc, &[first, *before, register, *behind])?;
        if !is_trapped(alloc, items.as_str(), runs, trap)? {
            return Ok(number);
        }
    }
    Ok(instructions.len())
}

#[test]
fn registers_that_are_not_read(rt: HostRuntime) -> Result<(), Fail> {
    for row in REGISTERS {
        assert_eq!(rt; trapped_by(rt.alloc(), &READERS, row)?, READERS.len());
    }
    Ok(())
}

#[test]
fn registers_that_are_not_carried(rt: HostRuntime) -> Result<(), Fail> {
    for row in UNCARRIED {
        assert_eq!(rt; trapped_by(rt.alloc(), &CARRIERS, row)?, CARRIERS.len());
    }
    Ok(())
}
