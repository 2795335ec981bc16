//! Where tests and selects lead, told by the label that the process comes to.

use crate::reports::{ended, report_of};
use bxemu_testkit::{joined, numbered};
use std::alloc::Global;
use std::test::Fail;

/// Terms of every kind in their rising order; x9 holds a pid.
const RISING: [&str; 13] = [
    "{integer,-1}",
    "{integer,7}",
    "{atom,a}",
    "{atom,b}",
    "{x,9}",
    "{literal,{}}",
    "{literal,{b}}",
    "{literal,{a,1}}",
    "{literal,{a,2}}",
    "nil",
    "{literal,[1|2]}",
    "{literal,[1]}",
    "{literal,[1,0]}",
];

/// Tests of two terms, and whether they hold where the first is less, equal, or greater.
const COMPARISONS: [(&str, bool, bool, bool); 6] = [
    ("is_lt", true, false, false),
    ("is_ge", false, true, true),
    ("is_eq", false, true, false),
    ("is_ne", true, false, true),
    ("is_eq_exact", false, true, false),
    ("is_ne_exact", true, false, true),
];

/// A term of each kind, and two atoms more.
const KINDS: [&str; 10] = [
    "{integer,-1}",
    "{atom,a}",
    "{atom,true}",
    "{atom,false}",
    "{x,9}",
    "{literal,{}}",
    "{literal,{true,1}}",
    "nil",
    "{literal,[true,1]}",
    "{literal,[1|2]}",
];

/// Tests of one term, with a `y` for each of the terms above of which they hold.
const KIND_TESTS: [(&str, &str); 13] = [
    ("is_integer", "y---------"),
    ("is_number", "y---------"),
    ("is_float", "----------"),
    ("is_atom", "-yyy------"),
    ("is_boolean", "--yy------"),
    ("is_pid", "----y-----"),
    ("is_reference", "----------"),
    ("is_port", "----------"),
    ("is_binary", "----------"),
    ("is_tuple", "-----yy---"),
    ("is_nil", "-------y--"),
    ("is_list", "-------yyy"),
    ("is_nonempty_list", "--------yy"),
];

/// Each label ends the process with its number.
const LABELS: &str =
    "{label,3}. {move,{integer,3},{x,0}}. {call_ext_only,1,{extfunc,erlang,exit,1}}.
{label,4}. {move,{integer,4},{x,0}}. {call_ext_only,1,{extfunc,erlang,exit,1}}.
{label,5}. {move,{integer,5},{x,0}}. {call_ext_only,1,{extfunc,erlang,exit,1}}.";

/// Whether an instruction leads to the label of that number, where x0 holds this term; behind it stands label 3.
fn leads_to(alloc: Global, term: &str, instruction: &str, label: u8) -> Result<bool, Fail> {
    let first = "{bif,self,{f,0},[],{x,9}}. {move,";
    let items = joined(alloc, &[first, term, ",{x,0}}. ", instruction, " ", LABELS])?;
    let number = numbered(alloc, "", label as u32, "")?;
    let report = report_of(alloc, items.as_str(), 5)?;
    let want = ended(alloc, 5, number.as_str())?;
    Ok(report.as_str() == want.as_str())
}

/// Whether a test of x0, of which these are the operands behind it, goes on where it is to hold, and else to its label.
fn is_answered(
    alloc: Global,
    test: &str,
    term: &str,
    operands: &str,
    holds: bool,
) -> Result<bool, Fail> {
    let instruction = joined(alloc, &["{test,", test, ",{f,4},[{x,0}", operands, "]}."])?;
    leads_to(alloc, term, instruction.as_str(), if holds { 3 } else { 4 })
}

/// Whether that test of the term at a place of the row and of each in it holds as is said.
fn is_compared(
    alloc: Global,
    row: (&str, bool, bool, bool),
    place: usize,
    left: &str,
) -> Result<bool, Fail> {
    let (test, less, equal, greater) = row;
    for (other, right) in RISING.iter().enumerate() {
        let operands = joined(alloc, &[",", *right])?;
        let holds = if place < other {
            less
        } else if place == other {
            equal
        } else {
            greater
        };
        if !is_answered(alloc, test, left, operands.as_str(), holds)? {
            return Ok(false);
        }
    }
    Ok(true)
}

/// Whether that test of each of the row's terms and of each of them holds as is said.
fn compares(alloc: Global, row: (&str, bool, bool, bool)) -> Result<bool, Fail> {
    for (place, left) in RISING.iter().enumerate() {
        if !is_compared(alloc, row, place, left)? {
            return Ok(false);
        }
    }
    Ok(true)
}

#[test]
fn tests_of_two_terms(rt: HostRuntime) -> Result<(), Fail> {
    for row in COMPARISONS {
        assert!(rt; compares(rt.alloc(), row)?, "{}", row.0);
    }
    Ok(())
}

/// Whether that test of a term of each kind holds where the marks say so.
fn tells_kinds(alloc: Global, test: &str, marks: &str) -> Result<bool, Fail> {
    for (term, mark) in KINDS.iter().zip(marks.bytes()) {
        if !is_answered(alloc, test, term, "", mark == b'y')? {
            return Ok(false);
        }
    }
    Ok(true)
}

#[test]
fn tests_of_one_term(rt: HostRuntime) -> Result<(), Fail> {
    for (test, marks) in KIND_TESTS {
        assert!(rt; tells_kinds(rt.alloc(), test, marks)?, "{test}");
    }
    Ok(())
}

/// The term in x0, the instruction, and the label that it leads to; 3 stands behind it.
const TUPLES_AND_SELECTS: [(&str, &str, u8); 32] = [
    ("{literal,{}}", "{test,test_arity,{f,4},[{x,0},0]}.", 3),
    ("{literal,{}}", "{test,test_arity,{f,4},[{x,0},1]}.", 4),
    ("{literal,{a,b}}", "{test,test_arity,{f,4},[{x,0},2]}.", 3),
    ("{literal,{a,b}}", "{test,test_arity,{f,4},[{x,0},1]}.", 4),
    (
        "{literal,{t,1}}",
        "{test,is_tagged_tuple,{f,4},[{x,0},2,{atom,t}]}.",
        3,
    ),
    (
        "{literal,{t,1}}",
        "{test,is_tagged_tuple,{f,4},[{x,0},1,{atom,t}]}.",
        4,
    ),
    (
        "{literal,{t,1}}",
        "{test,is_tagged_tuple,{f,4},[{x,0},2,{atom,u}]}.",
        4,
    ),
    (
        "{literal,{1,t}}",
        "{test,is_tagged_tuple,{f,4},[{x,0},2,{atom,t}]}.",
        4,
    ),
    (
        "{literal,{}}",
        "{test,is_tagged_tuple,{f,4},[{x,0},0,{atom,t}]}.",
        4,
    ),
    (
        "{literal,[t,1]}",
        "{test,is_tagged_tuple,{f,4},[{x,0},2,{atom,t}]}.",
        4,
    ),
    (
        "{atom,t}",
        "{test,is_tagged_tuple,{f,4},[{x,0},1,{atom,t}]}.",
        4,
    ),
    (
        "{integer,0}",
        "{test,is_tagged_tuple,{f,4},[{x,0},1,{atom,true}]}.",
        4,
    ),
    (
        "{x,9}",
        "{test,is_tagged_tuple,{f,4},[{x,0},1,{atom,t}]}.",
        4,
    ),
    ("nil", "{test,is_tagged_tuple,{f,4},[{x,0},0,{atom,t}]}.", 4),
    (
        "{atom,a}",
        "{select_val,{x,0},{f,5},{list,[{atom,a},{f,3},{atom,b},{f,4}]}}.",
        3,
    ),
    (
        "{atom,b}",
        "{select_val,{x,0},{f,5},{list,[{atom,a},{f,3},{atom,b},{f,4}]}}.",
        4,
    ),
    (
        "{atom,c}",
        "{select_val,{x,0},{f,5},{list,[{atom,a},{f,3},{atom,b},{f,4}]}}.",
        5,
    ),
    (
        "{integer,7}",
        "{select_val,{x,0},{f,5},{list,[{integer,-7},{f,3},{integer,7},{f,4}]}}.",
        4,
    ),
    (
        "{integer,8}",
        "{select_val,{x,0},{f,5},{list,[{integer,-7},{f,3},{integer,7},{f,4}]}}.",
        5,
    ),
    (
        "{integer,0}",
        "{select_val,{x,0},{f,5},{list,[{atom,true},{f,3},{integer,0},{f,4}]}}.",
        4,
    ),
    (
        "{atom,true}",
        "{select_val,{x,0},{f,5},{list,[{integer,0},{f,3},{integer,1},{f,4}]}}.",
        5,
    ),
    (
        "{atom,a}",
        "{select_val,{x,0},{f,5},{list,[{atom,a},{f,4},{atom,a},{f,3}]}}.",
        4,
    ),
    ("{atom,a}", "{select_val,{x,0},{f,5},{list,[]}}.", 5),
    (
        "{literal,{a}}",
        "{select_val,{x,0},{f,5},{list,[{atom,a},{f,3},{integer,1},{f,4}]}}.",
        5,
    ),
    (
        "{literal,[a]}",
        "{select_val,{x,0},{f,5},{list,[{atom,a},{f,3},{integer,1},{f,4}]}}.",
        5,
    ),
    (
        "nil",
        "{select_val,{x,0},{f,5},{list,[{atom,'[]'},{f,3},{integer,0},{f,4}]}}.",
        5,
    ),
    (
        "{x,9}",
        "{select_val,{x,0},{f,5},{list,[{integer,0},{f,3},{atom,true},{f,4}]}}.",
        5,
    ),
    (
        "{literal,{a}}",
        "{select_tuple_arity,{x,0},{f,5},{list,[0,{f,3},1,{f,4}]}}.",
        4,
    ),
    (
        "{literal,{}}",
        "{select_tuple_arity,{x,0},{f,5},{list,[0,{f,3},1,{f,4}]}}.",
        3,
    ),
    (
        "{literal,{a,b}}",
        "{select_tuple_arity,{x,0},{f,5},{list,[0,{f,3},1,{f,4}]}}.",
        5,
    ),
    (
        "{literal,[a]}",
        "{select_tuple_arity,{x,0},{f,5},{list,[0,{f,3},1,{f,4}]}}.",
        5,
    ),
    (
        "{integer,1}",
        "{select_tuple_arity,{x,0},{f,5},{list,[0,{f,3},1,{f,4}]}}.",
        5,
    ),
];

/// How many of those rows, from the first on, lead where they say.
fn right_rows(alloc: Global) -> Result<usize, Fail> {
    for (number, (term, instruction, label)) in TUPLES_AND_SELECTS.iter().enumerate() {
        if !leads_to(alloc, term, instruction, *label)? {
            return Ok(number);
        }
    }
    Ok(TUPLES_AND_SELECTS.len())
}

#[test]
fn tuples_and_selects(rt: HostRuntime) -> Result<(), Fail> {
    assert_eq!(rt; right_rows(rt.alloc())?, TUPLES_AND_SELECTS.len());
    Ok(())
}
