//! Numbered code. What is expected was read off the texts by hand; items count from 0.

use crate::samples::FORMS;
use bx_asm::{Head, Key, Register, Source, Unit};
use bx_share::Same;
use bx_terms::{Atoms, Fault};
use bxemu_testkit::{module, unit};
use std::alloc::Global;
use std::test::Fail;

fn of_items(alloc: Global, items: &str) -> Result<(Atoms, Unit), Fault> {
    let text = module(alloc, items)?;
    unit(alloc, text.as_str())
}

/// Whether the unit is `m` with `f/0`, which is exported.
fn has_its_heads(atoms: &Atoms, unit: &Unit) -> bool {
    let Some(name) = atoms.find("f") else {
        return false;
    };
    let head = Head {
        name,
        arity: 0,
        entry: 2,
        count: 78,
    };
    atoms.text(unit.name()) == Some("m")
        && unit.exports().len() == 1
        && unit.exports()[0].function == name
        && unit.functions() == [head].as_slice()
}

#[test]
fn heads_of_a_unit(rt: HostRuntime) -> Result<(), Fail> {
    let (atoms, unit) = of_items(rt.alloc(), FORMS)?;
    assert!(rt; has_its_heads(&atoms, &unit));
    Ok(())
}

/// Items of the sample, each with its opcode's number and how many operands it has, as `genop.tab` and the listing have them.
const NUMBERS: [(usize, u32, usize); 15] = [
    (0, 1, 1),
    (1, 2, 3),
    (2, 1, 1),
    (3, 153, 1),
    (4, 3, 0),
    (5, 4, 2),
    (8, 7, 2),
    (9, 8, 3),
    (10, 78, 2),
    (11, 9, 2),
    (12, 10, 4),
    (13, 11, 5),
    (15, 13, 3),
    (16, 13, 5),
    (77, 1, 1),
];

fn is_numbered(unit: &Unit, item: usize, number: u32, operands: usize) -> bool {
    match unit.item(item) {
        Some(numbered) => bx_ops::number(numbered.op()) == number && numbered.len() == operands,
        None => false,
    }
}

/// How many rows from the first on are as the unit has them.
fn right_rows(unit: &Unit, rows: &[(usize, u32, usize)]) -> usize {
    for (row, (item, number, operands)) in rows.iter().enumerate() {
        if !is_numbered(unit, *item, *number, *operands) {
            return row;
        }
    }
    rows.len()
}

#[test]
fn numbers_of_items(rt: HostRuntime) -> Result<(), Fail> {
    let (_, unit) = of_items(rt.alloc(), FORMS)?;
    assert_eq!(rt; right_rows(&unit, &NUMBERS), NUMBERS.len());
    Ok(())
}

/// How many rows from the first on are of an item that is told to be a mark exactly where its number is that of `label` or `line`.
fn told_rows(unit: &Unit, rows: &[(usize, u32, usize)]) -> usize {
    for (row, (item, number, _)) in rows.iter().enumerate() {
        let is_mark = *number == 1 || *number == 153;
        if unit.item(*item).map(|item| item.is_mark()) != Some(is_mark) {
            return row;
        }
    }
    rows.len()
}

#[test]
fn labels_and_lines_are_marks(rt: HostRuntime) -> Result<(), Fail> {
    let (_, unit) = of_items(rt.alloc(), FORMS)?;
    assert_eq!(rt; told_rows(&unit, &NUMBERS), NUMBERS.len());
    Ok(())
}

fn selects_values(atoms: &Atoms, unit: &Unit) -> bool {
    let Some(a) = atoms.find("a") else {
        return false;
    };
    let Some(item) = unit.item(3) else {
        return false;
    };
    let [_, _, row @ ..] = item.operands else {
        return false;
    };
    match item.tables.pairs(row) {
        Some(pairs) => {
            pairs.label(Key::Atom(a)) == Some(2)
                && pairs.label(Key::Integer(7)) == Some(1)
                && pairs.label(Key::Integer(2)).is_none()
        }
        None => false,
    }
}

#[test]
fn pairs_of_values(rt: HostRuntime) -> Result<(), Fail> {
    let items = "{select_val,{x,0},{f,1},{list,[{atom,a},{f,2},{integer,7},{f,1}]}}.";
    let (atoms, unit) = of_items(rt.alloc(), items)?;
    assert!(rt; selects_values(&atoms, &unit));
    Ok(())
}

fn selects_sizes(unit: &Unit) -> bool {
    let Some(item) = unit.item(3) else {
        return false;
    };
    let [_, _, row @ ..] = item.operands else {
        return false;
    };
    match item.tables.pairs(row) {
        Some(pairs) => {
            pairs.label(Key::Size(2)) == Some(1) && pairs.label(Key::Integer(2)).is_none()
        }
        None => false,
    }
}

#[test]
fn pairs_of_sizes(rt: HostRuntime) -> Result<(), Fail> {
    let (_, unit) = of_items(
        rt.alloc(),
        "{select_tuple_arity,{x,0},{f,2},{list,[2,{f,1}]}}.",
    )?;
    assert!(rt; selects_sizes(&unit));
    Ok(())
}

fn builds_of_two(unit: &Unit) -> bool {
    let Some(item) = unit.item(3) else {
        return false;
    };
    let [_, row @ ..] = item.operands else {
        return false;
    };
    match item.tables.sources(row) {
        Some(elements) => {
            matches!(elements.get(0), Some(Source::Register(Register::X(7))))
                && matches!(elements.get(1), Some(Source::Literal(_)))
                && elements.get(2).is_none()
        }
        None => false,
    }
}

#[test]
fn elements_of_a_tuple(rt: HostRuntime) -> Result<(), Fail> {
    let items = "{put_tuple2,{x,0},{list,[{x,7},{literal,[]}]}}.";
    let (_, unit) = of_items(rt.alloc(), items)?;
    assert!(rt; builds_of_two(&unit));
    Ok(())
}

/// Whether the code of two modules with these items is the same.
fn are_same(alloc: Global, one: &str, other: &str) -> Result<bool, Fault> {
    let (_, one) = of_items(alloc, one)?;
    let (_, other) = of_items(alloc, other)?;
    Ok(one.same(&other))
}

const SAMENESS: [(&str, &str, bool); 5] = [
    (FORMS, FORMS, true),
    ("return.", "return. % once\n", true),
    ("return.", "return. return.", false),
    ("{move,{x,1},{x,0}}.", "{move,{y,1},{x,0}}.", false),
    ("{call,0,{f,2}}.", "{call_only,0,{f,2}}.", false),
];

#[test]
fn sameness_of_units(rt: HostRuntime) -> Result<(), Fail> {
    for (one, other, want) in SAMENESS {
        assert!(rt; are_same(rt.alloc(), one, other)? == want);
    }
    Ok(())
}

/// Whether the unit of these items is the same as a deep copy, where there is so much room.
fn is_same_deep_copy(alloc: Global, items: &str, room: usize) -> Result<bool, Fault> {
    let (_, unit) = of_items(alloc, items)?;
    let mut room = room;
    Ok(unit.deep_copy(alloc, &mut room)?.same(&unit))
}

// With the three before them, five items with seven operands, a literal with one list cell, an export and a function: 16 in all.
const SMALL: &str = "{move,{literal,[a|b]},{x,0}}. return.";

#[test]
fn a_deep_copy_of_a_unit(rt: HostRuntime) -> Result<(), Fail> {
    assert!(rt; is_same_deep_copy(rt.alloc(), FORMS, 1000)?);
    assert!(rt; is_same_deep_copy(rt.alloc(), SMALL, 16)?);
    assert!(rt; is_same_deep_copy(rt.alloc(), SMALL, 15) == Err(Fault::Memory));
    Ok(())
}
