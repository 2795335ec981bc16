//! Terms that would be higher than terms may be: a list is as high as it is long, and 10,000 is the most.

use crate::reports::{ended, is_trapped, report_of};
use std::alloc::{AllocError, Global};
use std::test::Fail;

/// Items with a list left out between two of them, how long it is, how many runs, and whether the last is a trap: else the
/// process ends normally.
type Row = (&'static str, usize, &'static str, u32, bool);

/// Instructions that build a term around the list in x0.
const BUILT: [Row; 9] = [
    ("", 10_000, " {put_list,{x,0},nil,{x,1}}.", 2, true),
    ("", 10_000, " {put_list,nil,{x,0},{x,1}}.", 2, true),
    ("", 9_999, " {put_list,nil,{x,0},{x,1}}. return.", 3, false),
    (
        "",
        10_000,
        " {put_tuple2,{x,1},{list,[nil,{x,0}]}}.",
        2,
        true,
    ),
    (
        "",
        9_999,
        " {put_tuple2,{x,1},{list,[nil,{x,0}]}}. return.",
        3,
        false,
    ),
    ("", 10_000, " {badmatch,{x,0}}.", 2, true),
    ("", 9_999, " {badmatch,{x,0}}.", 2, true),
    ("", 10_000, " {case_end,{x,0}}.", 2, true),
    ("", 10_000, " {try_case_end,{x,0}}.", 2, true),
];

/// Calls by name that build one.
const CALLED: [Row; 5] = [
    (
        "{move,{literal,[a]},{x,1}}. ",
        10_000,
        " {swap,{x,0},{x,1}}. {call_ext,2,{extfunc,erlang,'++',2}}.",
        4,
        true,
    ),
    (
        "{move,{literal,[a]},{x,1}}. ",
        9_999,
        " {swap,{x,0},{x,1}}. {call_ext_only,2,{extfunc,erlang,'++',2}}.",
        4,
        false,
    ),
    (
        "{move,{literal,{a}},{x,1}}. ",
        10_000,
        " {move,{x,0},{x,2}}. {move,{integer,1},{x,0}}. {call_ext_only,3,{extfunc,erlang,setelement,3}}.",
        5,
        true,
    ),
    (
        "",
        9_999,
        " {put_tuple2,{x,0},{list,[nil,{x,0}]}}. {call_ext,1,{extfunc,erlang,tuple_to_list,1}}.",
        3,
        true,
    ),
    (
        "",
        9_999,
        " {put_tuple2,{x,0},{list,[{x,0},nil]}}. {call_ext_only,1,{extfunc,erlang,tuple_to_list,1}}.",
        3,
        false,
    ),
];

/// Faults whose reason is built where nothing catches them, or where they are caught.
const FAULTS: [Row; 15] = [
    (
        "",
        10_000,
        " {call_ext,1,{extfunc,erlang,error,1}}.",
        2,
        true,
    ),
    (
        "",
        9_999,
        " {call_ext,1,{extfunc,erlang,throw,1}}.",
        2,
        true,
    ),
    (
        "{allocate,1,0}. ",
        10_000,
        " {call_ext_last,1,{extfunc,erlang,error,1},1}.",
        3,
        true,
    ),
    (
        "{allocate,1,0}. {'try',{y,0},{f,3}}. ",
        10_000,
        " {call_ext_last,1,{extfunc,erlang,error,1},1}. {label,3}. {try_case,{y,0}}.",
        4,
        true,
    ),
    (
        "{allocate,1,0}. {'try',{y,0},{f,3}}. ",
        10_000,
        " {call,1,{f,4}}. {label,3}. {try_case,{y,0}}. {move,{atom,normal},{x,0}}. {call_ext_only,1,{extfunc,erlang,exit,1}}. {label,4}. {allocate,0,0}. {call_ext_last,1,{extfunc,erlang,error,1},0}.",
        9,
        false,
    ),
    (
        "{allocate,2,0}. {'try',{y,0},{f,3}}. if_end. {label,3}. {try_case,{y,0}}. {move,{x,2},{y,0}}. {'try',{y,1},{f,4}}. ",
        10_000,
        " {raise,{f,0},[{y,0},{x,0}],{x,0}}. {label,4}. {try_case,{y,1}}. return.",
        10,
        false,
    ),
    (
        "{allocate,1,0}. {'catch',{y,0},{f,3}}. ",
        9_999,
        " {call_ext,1,{extfunc,erlang,error,1}}. {label,3}. {catch_end,{y,0}}.",
        5,
        true,
    ),
    (
        "{allocate,1,0}. {'catch',{y,0},{f,3}}. ",
        9_998,
        " {call_ext,1,{extfunc,erlang,error,1}}. {label,3}. {catch_end,{y,0}}. return.",
        6,
        false,
    ),
    (
        "{allocate,1,0}. {'catch',{y,0},{f,3}}. ",
        10_000,
        " {call_ext,1,{extfunc,erlang,exit,1}}. {label,3}. {catch_end,{y,0}}.",
        5,
        true,
    ),
    (
        "{allocate,1,0}. {'catch',{y,0},{f,3}}. ",
        9_999,
        " {call_ext,1,{extfunc,erlang,exit,1}}. {label,3}. {catch_end,{y,0}}. return.",
        6,
        false,
    ),
    (
        "{allocate,1,0}. {'catch',{y,0},{f,3}}. ",
        10_000,
        " {call_ext,1,{extfunc,erlang,throw,1}}. {label,3}. {catch_end,{y,0}}. return.",
        6,
        false,
    ),
    (
        "{allocate,1,0}. {'try',{y,0},{f,3}}. ",
        10_000,
        " {call_ext,1,{extfunc,erlang,error,1}}. {label,3}. {try_case,{y,0}}. return.",
        6,
        false,
    ),
    (
        "{allocate,1,0}. {'try',{y,0},{f,3}}. ",
        10_000,
        " {badmatch,{x,0}}. {label,3}. {try_case,{y,0}}. return.",
        4,
        true,
    ),
    (
        "{allocate,1,0}. {'try',{y,0},{f,3}}. ",
        10_000,
        " {call_ext,1,{extfunc,erlang,error,1}}. {label,3}. {try_case,{y,0}}. {raise,{f,0},[{x,2},{x,1}],{x,0}}.",
        6,
        true,
    ),
    (
        "{allocate,1,0}. {'try',{y,0},{f,3}}. if_end. {label,3}. {try_case,{y,0}}. {move,{x,2},{y,0}}. ",
        10_000,
        " {raise,{f,0},[{y,0},{x,0}],{x,0}}.",
        7,
        true,
    ),
];

/// A row's items, with the list moved to x0.
fn items_of(
    alloc: Global,
    before: &str,
    length: usize,
    behind: &str,
) -> Result<String, AllocError> {
    let mut items = String::from_str(alloc, before)?;
    items.push_str("{move,{literal,\"")?;
    for _ in 0..length {
        items.push_str("a")?;
    }
    items.push_str("\"},{x,0}}.")?;
    items.push_str(behind)?;
    Ok(items)
}

fn is_right(alloc: Global, row: &Row) -> Result<bool, Fail> {
    let (before, length, behind, runs, traps) = *row;
    let items = items_of(alloc, before, length, behind)?;
    if traps {
        return is_trapped(alloc, items.as_str(), runs, "TermHeight");
    }
    let report = report_of(alloc, items.as_str(), runs)?;
    let wanted = ended(alloc, runs, "normal")?;
    Ok(report.as_str() == wanted.as_str())
}

/// How many rows, from the first on, are so.
fn right_rows(alloc: Global, rows: &[Row]) -> Result<usize, Fail> {
    for (number, row) in rows.iter().enumerate() {
        if !is_right(alloc, row)? {
            return Ok(number);
        }
    }
    Ok(rows.len())
}

#[test]
fn terms_that_would_be_too_high(rt: HostRuntime) -> Result<(), Fail> {
    assert_eq!(rt; right_rows(rt.alloc(), &BUILT)?, BUILT.len());
    assert_eq!(rt; right_rows(rt.alloc(), &CALLED)?, CALLED.len());
    Ok(())
}

#[test]
fn reasons_that_would_be_too_high(rt: HostRuntime) -> Result<(), Fail> {
    assert_eq!(rt; right_rows(rt.alloc(), &FAULTS)?, FAULTS.len());
    Ok(())
}
