//! The plain meaning of instructions and of built-in functions, told by the reason with which `exit` ends the process.

use crate::reports::{ended, report_of};
use bxemu_testkit::{joined, numbered};
use std::alloc::{AllocError, Global};
use std::test::Fail;

/// The report of a process that runs these items and then ends with what x0 holds.
fn report_of_x0(alloc: Global, items: &str, runs: u32) -> Result<String, Fail> {
    let items = joined(
        alloc,
        &[items, " {call_ext_only,1,{extfunc,erlang,exit,1}}."],
    )?;
    report_of(alloc, items.as_str(), runs)
}

/// How many rows of items, runs and a value, from the first on, leave that value in x0.
fn right_values(alloc: Global, rows: &[(&str, u32, &str)]) -> Result<usize, Fail> {
    for (number, (items, runs, value)) in rows.iter().enumerate() {
        let report = report_of_x0(alloc, items, *runs)?;
        let want = ended(alloc, *runs, value)?;
        if report.as_str() != want.as_str() {
            return Ok(number);
        }
    }
    Ok(rows.len())
}

/// Items, how many runs with the one that ends the process, and what x0 then holds.
const INSTRUCTIONS: [(&str, u32, &str); 26] = [
    ("{move,{integer,5},{x,0}}.", 2, "5"),
    ("{move,{literal,{a,[1|b]}},{x,0}}.", 2, "{a,[1|b]}"),
    ("{move,nil,{x,0}}.", 2, "[]"),
    (
        "{allocate,1,0}. {move,{atom,a},{y,0}}. {move,{y,0},{x,0}}.",
        4,
        "a",
    ),
    (
        "{move,{atom,a},{x,1}}. {move,{atom,b},{x,0}}. {swap,{x,0},{x,1}}.",
        4,
        "a",
    ),
    ("{move,{atom,a},{x,0}}. {swap,{x,0},{x,0}}.", 3, "a"),
    (
        "{allocate,1023,0}. {move,{integer,5},{y,1022}}. {move,{y,1022},{x,0}}.",
        4,
        "5",
    ),
    (
        "{move,{literal,[a|b]},{x,0}}. {get_list,{x,0},{x,1022},{x,1021}}. {swap,{x,1022},{x,1021}}. {move,{x,1022},{x,0}}.",
        5,
        "b",
    ),
    (
        "{move,{literal,[a|b]},{x,0}}. {get_list,{x,0},{x,1022},{x,1021}}. {swap,{x,1022},{x,1021}}. {move,{x,1021},{x,0}}.",
        5,
        "a",
    ),
    ("{put_list,{integer,1},nil,{x,0}}.", 2, "[1]"),
    ("{put_list,{integer,1},{integer,2},{x,0}}.", 2, "[1|2]"),
    ("{put_tuple2,{x,0},{list,[]}}.", 2, "{}"),
    ("{put_tuple2,{x,0},{list,[{atom,a},nil]}}.", 2, "{a,[]}"),
    (
        "{move,{literal,[1,2]},{x,1}}. {get_list,{x,1},{x,0},{x,1}}.",
        3,
        "1",
    ),
    (
        "{move,{literal,[1,2]},{x,1}}. {get_list,{x,1},{x,1},{x,0}}.",
        3,
        "[2]",
    ),
    (
        "{move,{literal,[1,2]},{x,1}}. {get_list,{x,1},{x,0},{x,0}}.",
        3,
        "[2]",
    ),
    (
        "{move,{literal,[1,2]},{x,1}}. {get_hd,{x,1},{x,0}}.",
        3,
        "1",
    ),
    (
        "{move,{literal,[1,2]},{x,1}}. {get_tl,{x,1},{x,0}}.",
        3,
        "[2]",
    ),
    (
        "{move,{literal,{a,b}},{x,1}}. {get_tuple_element,{x,1},1,{x,0}}.",
        3,
        "b",
    ),
    ("{bif,self,{f,0},[],{x,0}}.", 2, "<0.0.0>"),
    ("{test_heap,9,0}. {move,{atom,a},{x,0}}.", 3, "a"),
    (
        "{allocate,1,0}. {init_yregs,{list,[{y,0}]}}. {move,{y,0},{x,0}}.",
        4,
        "[]",
    ),
    (
        "{move,{atom,a},{x,0}}. {select_val,{x,0},{f,2},{list,[{atom,b},{f,1},{atom,a},{f,3}]}}. {label,3}.",
        3,
        "a",
    ),
    (
        "{move,{integer,7},{x,0}}. {select_val,{x,0},{f,3},{list,[{atom,b},{f,1}]}}. {label,3}.",
        3,
        "7",
    ),
    (
        "{move,{literal,{a}},{x,0}}. {select_tuple_arity,{x,0},{f,1},{list,[2,{f,1},1,{f,3}]}}. {label,3}.",
        3,
        "{a}",
    ),
    (
        "{move,nil,{x,0}}. {select_tuple_arity,{x,0},{f,3},{list,[0,{f,1}]}}. {label,3}.",
        3,
        "[]",
    ),
];

#[test]
fn instructions_that_build_and_move(rt: HostRuntime) -> Result<(), Fail> {
    assert_eq!(rt;
        right_values(rt.alloc(), &INSTRUCTIONS)?,
        INSTRUCTIONS.len()
    );
    Ok(())
}

/// A tuple of the integers from 0 to 299 in x1, and then these items.
fn with_a_long_tuple(alloc: Global, behind: &str) -> Result<String, AllocError> {
    let mut items = String::from_str(alloc, "{put_tuple2,{x,1},{list,[{integer,0}")?;
    for number in 1..300 {
        let element = numbered(alloc, ",{integer,", number, "}")?;
        items.push_str(element.as_str())?;
    }
    items.push_str("]}}. ")?;
    items.push_str(behind)?;
    Ok(items)
}

/// Items behind that tuple, how many runs in all, and what x0 then holds.
const BEHIND_A_LONG_TUPLE: [(&str, u32, &str); 5] = [
    ("{bif,tuple_size,{f,0},[{x,1}],{x,0}}.", 3, "300"),
    ("{get_tuple_element,{x,1},299,{x,0}}.", 3, "299"),
    (
        "{move,{integer,300},{x,0}}. {move,{atom,z},{x,2}}. {call_ext,3,{extfunc,erlang,setelement,3}}. {get_tuple_element,{x,0},299,{x,0}}.",
        6,
        "z",
    ),
    (
        "{move,{integer,300},{x,0}}. {move,{atom,z},{x,2}}. {call_ext,3,{extfunc,erlang,setelement,3}}. {get_tuple_element,{x,0},298,{x,0}}.",
        6,
        "298",
    ),
    (
        "{move,{integer,300},{x,0}}. {move,{atom,z},{x,2}}. {call_ext,3,{extfunc,erlang,setelement,3}}. {get_tuple_element,{x,1},299,{x,0}}.",
        6,
        "299",
    ),
];

#[test]
fn long_tuples(rt: HostRuntime) -> Result<(), Fail> {
    for (behind, runs, value) in BEHIND_A_LONG_TUPLE.iter() {
        let items = with_a_long_tuple(rt.alloc(), behind)?;
        assert_eq!(rt;
            right_values(rt.alloc(), &[(items.as_str(), *runs, value)])?,
            1
        );
    }
    Ok(())
}

/// The report of a process that ends with what this guard BIF gives.
fn report_of_bif(alloc: Global, name: &str, arguments: &str) -> Result<String, Fail> {
    let items = joined(alloc, &["{bif,", name, ",{f,0},[", arguments, "],{x,0}}."])?;
    report_of_x0(alloc, items.as_str(), 2)
}

/// How many rows of a name, arguments and a value, from the first on, are what that guard BIF gives.
fn right_bifs(alloc: Global, rows: &[(&str, &str, &str)]) -> Result<usize, Fail> {
    for (number, (name, arguments, value)) in rows.iter().enumerate() {
        let report = report_of_bif(alloc, name, arguments)?;
        let want = ended(alloc, 2, value)?;
        if report.as_str() != want.as_str() {
            return Ok(number);
        }
    }
    Ok(rows.len())
}

/// Operators, their operands, and the value.
const ARITHMETIC: [(&str, &str, &str); 19] = [
    ("'+'", "{integer,2},{integer,3}", "5"),
    ("'-'", "{integer,2},{integer,3}", "-1"),
    ("'*'", "{integer,-2},{integer,3}", "-6"),
    ("'div'", "{integer,-7},{integer,2}", "-3"),
    ("'rem'", "{integer,-7},{integer,2}", "-1"),
    ("'rem'", "{integer,7},{integer,-2}", "1"),
    ("'rem'", "{integer,-9223372036854775808},{integer,-1}", "0"),
    ("'band'", "{integer,12},{integer,10}", "8"),
    ("'bor'", "{integer,12},{integer,10}", "14"),
    ("'bxor'", "{integer,12},{integer,10}", "6"),
    ("'bsl'", "{integer,3},{integer,2}", "12"),
    ("'bsl'", "{integer,3},{integer,-1}", "1"),
    ("'bsr'", "{integer,-7},{integer,1}", "-4"),
    ("'bsr'", "{integer,3},{integer,-2}", "12"),
    ("'bsl'", "{integer,0},{integer,9223372036854775807}", "0"),
    ("'bnot'", "{integer,5}", "-6"),
    ("'-'", "{integer,5}", "-5"),
    ("'+'", "{integer,5}", "5"),
    ("abs", "{integer,-5}", "5"),
];

#[test]
fn arithmetic(rt: HostRuntime) -> Result<(), Fail> {
    assert_eq!(rt; right_bifs(rt.alloc(), &ARITHMETIC)?, ARITHMETIC.len());
    Ok(())
}

/// The same, of comparisons, of truth, and of parts of terms.
const COMPARISONS: [(&str, &str, &str); 23] = [
    ("'<'", "{integer,9},{atom,a}", "true"),
    ("'>'", "nil,{literal,{a}}", "true"),
    ("'=<'", "{literal,[1]},nil", "false"),
    ("'>='", "{integer,2},{integer,2}", "true"),
    ("'=:='", "{literal,{a,1}},{literal,{a,1}}", "true"),
    ("'=='", "{integer,1},{integer,2}", "false"),
    ("'=/='", "{atom,a},{atom,b}", "true"),
    ("'/='", "{atom,a},{atom,a}", "false"),
    ("min", "{integer,2},{integer,1}", "1"),
    ("max", "{atom,a},{integer,1}", "a"),
    ("'not'", "{atom,true}", "false"),
    ("'and'", "{atom,true},{atom,false}", "false"),
    ("'or'", "{atom,true},{atom,false}", "true"),
    ("'xor'", "{atom,true},{atom,true}", "false"),
    ("hd", "{literal,[a,b]}", "a"),
    ("tl", "{literal,[a,b]}", "[b]"),
    ("length", "{literal,[a,b]}", "2"),
    ("tuple_size", "{literal,{a,b,c}}", "3"),
    ("element", "{integer,2},{literal,{a,b,c}}", "b"),
    ("is_list", "{literal,[a|b]}", "true"),
    ("is_tuple", "nil", "false"),
    ("is_boolean", "{atom,false}", "true"),
    ("is_float", "{integer,1}", "false"),
];

#[test]
fn comparisons_and_parts(rt: HostRuntime) -> Result<(), Fail> {
    assert_eq!(rt; right_bifs(rt.alloc(), &COMPARISONS)?, COMPARISONS.len());
    Ok(())
}

/// The same, of calls by name.
const CALLS: [(&str, u32, &str); 17] = [
    (
        "{move,{literal,[1,2]},{x,0}}. {move,{literal,[3]},{x,1}}. {call_ext,2,{extfunc,erlang,'++',2}}.",
        4,
        "[1,2,3]",
    ),
    (
        "{move,{literal,[1,2]},{x,0}}. {move,{integer,3},{x,1}}. {call_ext,2,{extfunc,erlang,'++',2}}.",
        4,
        "[1,2|3]",
    ),
    (
        "{allocate,0,0}. {move,{literal,[1,2]},{x,0}}. {move,{literal,[3]},{x,1}}. {call,2,{f,3}}. {call_ext_only,1,{extfunc,erlang,exit,1}}. {label,3}. {allocate,0,0}. {call_ext_last,2,{extfunc,erlang,'++',2},0}.",
        7,
        "[1,2,3]",
    ),
    (
        "{move,nil,{x,0}}. {move,{atom,a},{x,1}}. {call_ext,2,{extfunc,erlang,'++',2}}.",
        4,
        "a",
    ),
    (
        "{move,{integer,2},{x,0}}. {move,{literal,{a,b}},{x,1}}. {move,nil,{x,2}}. {call_ext,3,{extfunc,erlang,setelement,3}}.",
        5,
        "{a,[]}",
    ),
    (
        "{move,{integer,1},{x,0}}. {move,{literal,{a,b}},{x,1}}. {move,nil,{x,2}}. {call_ext,3,{extfunc,erlang,setelement,3}}.",
        5,
        "{[],b}",
    ),
    (
        "{move,{literal,[1,2]},{x,0}}. {call_ext,1,{extfunc,erlang,list_to_tuple,1}}.",
        3,
        "{1,2}",
    ),
    (
        "{move,nil,{x,0}}. {call_ext,1,{extfunc,erlang,list_to_tuple,1}}.",
        3,
        "{}",
    ),
    (
        "{move,{literal,{1,[2]}},{x,0}}. {call_ext,1,{extfunc,erlang,tuple_to_list,1}}.",
        3,
        "[1,[2]]",
    ),
    (
        "{move,{literal,{}},{x,0}}. {call_ext,1,{extfunc,erlang,tuple_to_list,1}}.",
        3,
        "[]",
    ),
    (
        "{move,{atom,trap_exit},{x,0}}. {move,{atom,true},{x,1}}. {call_ext,2,{extfunc,erlang,process_flag,2}}.",
        4,
        "false",
    ),
    (
        "{move,{atom,trap_exit},{x,0}}. {move,{atom,true},{x,1}}. {call_ext,2,{extfunc,erlang,process_flag,2}}. {move,{atom,trap_exit},{x,0}}. {call_ext,2,{extfunc,erlang,process_flag,2}}.",
        6,
        "true",
    ),
    (
        "{move,{literal,[1,2]},{x,0}}. {call_ext,1,{extfunc,erlang,length,1}}.",
        3,
        "2",
    ),
    (
        "{move,{integer,3},{x,0}}. {move,{integer,4},{x,1}}. {call_ext,2,{extfunc,erlang,'*',2}}.",
        4,
        "12",
    ),
    ("{call_ext,0,{extfunc,erlang,self,0}}.", 2, "<0.0.0>"),
    (
        "{move,{literal,[b]},{x,0}}. {call,1,{f,3}}. {call_ext_only,1,{extfunc,erlang,exit,1}}. {label,3}. {call_ext_only,1,{extfunc,erlang,list_to_tuple,1}}.",
        4,
        "{b}",
    ),
    (
        "{allocate,0,0}. {move,{literal,[b]},{x,0}}. {call,1,{f,3}}. {call_ext_only,1,{extfunc,erlang,exit,1}}. {label,3}. {allocate,0,0}. {call_ext_last,1,{extfunc,erlang,list_to_tuple,1},0}.",
        6,
        "{b}",
    ),
];

#[test]
fn calls_by_name(rt: HostRuntime) -> Result<(), Fail> {
    assert_eq!(rt; right_values(rt.alloc(), &CALLS)?, CALLS.len());
    Ok(())
}
