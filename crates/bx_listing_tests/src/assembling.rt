//! Listings that are refused when they are numbered, each on both sides of its limit.

use bx_asm::assemble;
use bx_terms::Fault;
use bxemu_testkit::{module, read};
use std::alloc::{AllocError, Global};
use std::test::Fail;

/// The number of a refusal, and the line, label or function that it names, or 0.
fn number_and_detail(fault: &Fault) -> Option<(u8, usize)> {
    let detail = match fault {
        Fault::LabelTwice { label } | Fault::LabelMissing { label } => *label as usize,
        Fault::EntryMissing { function } => *function,
        Fault::RegisterRange { line } => *line,
        Fault::TooLarge => 0,
        _ => return None,
    };
    Some((fault.number()?, detail))
}

/// The refusal of numbering what was read; 0 where it is numbered.
fn refusal(alloc: Global, text: &str) -> Result<(u8, usize), Fault> {
    let (_, listing) = read(alloc, text)?;
    match assemble(alloc, &listing) {
        Ok(_) => Ok((0, 0)),
        Err(fault) => number_and_detail(&fault).ok_or(fault),
    }
}

fn refusal_of_items(alloc: Global, items: &str) -> Result<(u8, usize), Fault> {
    let text = module(alloc, items)?;
    refusal(alloc, text.as_str())
}

/// Items, and the number of the refusal with what it names; no number where they are within the limits.
const ITEMS: [(&str, u8, usize); 22] = [
    ("return. {label,2}.", 12, 2),
    ("{jump,{f,9}}.", 13, 9),
    ("{jump,{f,9}}.\n{move,{x,1023},{x,0}}.", 15, 10),
    ("{move,{x,0},{y,1023}}.", 15, 9),
    ("{label,0}. {move,{x,1023},{x,0}}.", 16, 0),
    ("{label,1000001}.", 16, 0),
    ("{call_ext_only,255,{extfunc,m,f,255}}.", 0, 0),
    ("{call_ext_only,256,{extfunc,m,f,256}}.", 16, 0),
    ("{call,256,{f,2}}.", 16, 0),
    ("{label,1000000}.", 0, 0),
    ("{allocate,1023,0}.", 0, 0),
    ("return.\n{allocate,1024,0}.", 15, 10),
    ("{allocate_heap,1024,0,0}.", 15, 9),
    (
        "{deallocate,1024}. {trim,1024,4294967295}. {test_heap,1024,0}.",
        0,
        0,
    ),
    ("{bif,hd,{f,9},[{x,0}],{x,0}}.", 13, 9),
    ("{bif,hd,{f,0},[{x,0}],{x,0}}.", 0, 0),
    ("{test,is_lt,{f,0},[{x,0},{x,1}]}.", 13, 0),
    (
        "{select_val,{x,0},{f,2},{list,[{atom,a},{f,7},{atom,b},{f,8}]}}.",
        13,
        7,
    ),
    ("{'catch',{y,0},{f,0}}.", 13, 0),
    ("{wait,{f,8}}. {label,2}.", 12, 2),
    ("{put_tuple2,{x,1023},{list,[]}}. {label,2}.", 15, 9),
    ("{init_yregs,{list,[{y,1022},{y,1023}]}}.", 15, 9),
];

/// How many rows from the first on are refused as is said.
fn right_rows(alloc: Global, rows: &[(&str, u8, usize)]) -> Result<usize, Fault> {
    for (row, (items, number, detail)) in rows.iter().enumerate() {
        if refusal_of_items(alloc, items)? != (*number, *detail) {
            return Ok(row);
        }
    }
    Ok(rows.len())
}

#[test]
fn items_over_a_limit(rt: HostRuntime) -> Result<(), Fail> {
    assert_eq!(rt; right_rows(rt.alloc(), &ITEMS)?, ITEMS.len());
    Ok(())
}

/// The refusal of a module with these functions.
fn refusal_of_functions(alloc: Global, functions: &str) -> Result<(u8, usize), Fault> {
    let mut text = String::from_str(alloc, "{module,m}. {exports,[]}. {labels,3}. ")?;
    text.push_str(functions)?;
    refusal(alloc, text.as_str())
}

#[test]
fn functions_over_a_limit(rt: HostRuntime) -> Result<(), Fail> {
    let rows = [
        (
            "{function,f,0,1}. {label,2}. {function,g,0,2}. {label,1}.",
            14,
            0,
        ),
        (
            "{function,f,0,2}. {label,2}. {function,g,0,2}. {label,1}.",
            14,
            1,
        ),
        (
            "{function,f,256,2}. {label,2}. {function,g,0,1}. {label,1}.",
            16,
            0,
        ),
    ];
    for (functions, number, detail) in rows {
        assert!(rt; refusal_of_functions(rt.alloc(), functions)? == (number, detail));
    }
    Ok(())
}

/// So many times the text, in an item that begins and ends so.
fn repeated(
    alloc: Global,
    begin: &str,
    text: &str,
    times: usize,
    end: &str,
) -> Result<String, AllocError> {
    let mut out = String::from_str(alloc, begin)?;
    for _ in 0..times {
        out.push_str(text)?;
    }
    out.push_str(end)?;
    Ok(out)
}

const TUPLE: &str = "{put_tuple2,{x,0},{list,[nil";

/// What is refused as too many, or too long; what is numbered has the number 0.
const TOO_LARGE: (u8, usize) = (16, 0);

const NUMBERED: (u8, usize) = (0, 0);

/// The refusal of a tuple's list with so many elements behind the first.
fn refusal_of_list(alloc: Global, times: usize) -> Result<(u8, usize), Fault> {
    let items = repeated(alloc, TUPLE, ",nil", times, "]}}.")?;
    refusal_of_items(alloc, items.as_str())
}

#[test]
fn the_longest_list(rt: HostRuntime) -> Result<(), Fail> {
    assert!(rt; refusal_of_list(rt.alloc(), 65_534)? == NUMBERED);
    Ok(())
}

#[test]
fn a_list_that_is_longer(rt: HostRuntime) -> Result<(), Fail> {
    assert!(rt; refusal_of_list(rt.alloc(), 65_535)? == TOO_LARGE);
    Ok(())
}

/// The refusal of so many items behind those that the function begins with.
fn refusal_of_sends(alloc: Global, times: usize) -> Result<(u8, usize), Fault> {
    let items = repeated(alloc, "", "send. ", times, "")?;
    refusal_of_items(alloc, items.as_str())
}

#[test]
fn as_many_items_as_may_be(rt: HostRuntime) -> Result<(), Fail> {
    assert!(rt; refusal_of_sends(rt.alloc(), 999_997)? == NUMBERED);
    Ok(())
}

#[test]
fn an_item_more(rt: HostRuntime) -> Result<(), Fail> {
    assert!(rt; refusal_of_sends(rt.alloc(), 999_998)? == TOO_LARGE);
    Ok(())
}

/// That many calls of different functions of a module `m`.
fn calls(alloc: Global, count: u32) -> Result<String, AllocError> {
    let mut out = String::new(alloc);
    for number in 0..count {
        let arity = number % 256;
        let name = number / 256;
        write!(out, "{{call_ext,{arity},{{extfunc,m,f{name},{arity}}}}}. ")?;
    }
    Ok(out)
}

/// The refusal of so many functions that are called.
fn refusal_of_calls(alloc: Global, count: u32) -> Result<(u8, usize), Fault> {
    let items = calls(alloc, count)?;
    refusal_of_items(alloc, items.as_str())
}

#[test]
fn as_many_functions_called_as_may_be(rt: HostRuntime) -> Result<(), Fail> {
    assert!(rt; refusal_of_calls(rt.alloc(), 65_535)? == NUMBERED);
    Ok(())
}

#[test]
fn a_function_called_more(rt: HostRuntime) -> Result<(), Fail> {
    assert!(rt; refusal_of_calls(rt.alloc(), 65_536)? == TOO_LARGE);
    Ok(())
}
