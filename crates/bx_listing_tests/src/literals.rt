//! Literals of other kinds of terms and literals that are too high, and atoms where no more have room.

use crate::refusals::{are_refused, number_and_line};
use bx_listing::read_listing;
use bx_terms::{AtomId, Atoms, Fault};
use bxemu_testkit::{answered, joined, module, numbered, read};
use std::alloc::{AllocError, Global};
use std::test::Fail;

static KINDS: [(&str, &str); 4] = [
    ("{move,{literal,1.5},{x,0}}.", "float"),
    ("{move,{literal,[a,#{}]},{x,0}}.", "map"),
    ("{move,{literal,{a,<<>>}},{x,0}}.", "binary"),
    ("{move,{literal,[a|fun m:f/1]},{x,0}}.", "fun"),
];

#[test]
fn kinds_outside_the_subset(rt: HostRuntime) -> Result<(), Fail> {
    for (items, name) in &KINDS {
        assert!(rt; are_refused(rt.alloc(), *items, 9, 9, *name)?, "{items}");
    }
    Ok(())
}

/// The rest of a list of so many integers, after the first.
fn push_ones(items: &mut String, length: usize) -> Result<(), AllocError> {
    for _ in 1..length {
        items.push_str(",1")?;
    }
    items.push_str("]")
}

/// A `move` of a literal: what stands before a list of so many integers, the list, and what stands behind it.
fn with_list(
    alloc: Global,
    before: &str,
    length: usize,
    behind: &str,
) -> Result<String, AllocError> {
    let mut items = joined(alloc, &["{move,{literal,", before, "[1"])?;
    push_ones(&mut items, length)?;
    items.push_str(behind)?;
    items.push_str("},{x,0}}.")?;
    Ok(items)
}

/// What stands before and behind a list, and how long it may be and may not.
static HIGHEST: [(&str, usize, usize, &str); 3] = [
    ("", 10_000, 10_001, ""),
    ("{", 9_999, 10_000, "}"),
    ("[", 9_999, 10_000, "|a]"),
];

fn read_list(alloc: Global, before: &str, length: usize, behind: &str) -> Result<(), Fault> {
    let items = with_list(alloc, before, length, behind)?;
    let text = module(alloc, items.as_str())?;
    read(alloc, text.as_str())?;
    Ok(())
}

fn is_too_high(alloc: Global, before: &str, length: usize, behind: &str) -> Result<bool, Fault> {
    let items = with_list(alloc, before, length, behind)?;
    are_refused(alloc, items.as_str(), 11, 9, "")
}

#[test]
fn literals_that_are_too_high(rt: HostRuntime) -> Result<(), Fail> {
    for (before, kept, refused, behind) in &HIGHEST {
        read_list(rt.alloc(), *before, *kept, *behind)?;
        assert!(rt;
            is_too_high(rt.alloc(), *before, *refused, *behind)?,
            "{refused}"
        );
    }
    Ok(())
}

/// Whether the next name, which holds its number, gets that number.
fn takes(alloc: Global, atoms: &mut Atoms, number: u32) -> Result<bool, Fault> {
    let text = numbered(alloc, "a", number, "")?;
    Ok(atoms.name(alloc, text.as_str())? == AtomId(number))
}

/// Fills a new table, with `m` and `f` in it: whether each name gets its number.
fn fill(alloc: Global, atoms: &mut Atoms) -> Result<bool, Fault> {
    atoms.name(alloc, "m")?;
    atoms.name(alloc, "f")?;
    for number in 82..65_536u32 {
        if !takes(alloc, atoms, number)? {
            return Ok(false);
        }
    }
    Ok(true)
}

/// Items with a name that a full table has no room for.
static NEW_NAMES: [&str; 5] = [
    "{move,{atom,new},{x,0}}.",
    "{move,{literal,[new]},{x,0}}.",
    "{call_ext,1,{extfunc,m,new,1}}.",
    "{test_heap,{alloc,[{new,1}]},0}.",
    "{function,new,0,1}.",
];

/// The number and the line of the refusal of these items, over that table.
fn refusal(alloc: Global, atoms: &mut Atoms, items: &str) -> Result<Option<(u8, usize)>, Fault> {
    let text = module(alloc, items)?;
    Ok(
        match answered(read_listing(alloc, atoms, text.as_bytes()))? {
            Ok(_) => None,
            Err(fault) => number_and_line(&fault),
        },
    )
}

/// How many of the items, from the first on, are refused over a full table.
fn refused_over_full(alloc: Global) -> Result<usize, Fault> {
    let mut atoms = Atoms::new(alloc)?;
    let is_full = fill(alloc, &mut atoms)?;
    for (row, items) in NEW_NAMES.iter().enumerate() {
        if !is_full || refusal(alloc, &mut atoms, *items)? != Some((1, 9)) {
            return Ok(row);
        }
    }
    Ok(NEW_NAMES.len())
}

#[test]
fn atoms_without_room(rt: HostRuntime) -> Result<(), Fail> {
    assert_eq!(rt; refused_over_full(rt.alloc())?, NEW_NAMES.len());
    Ok(())
}
