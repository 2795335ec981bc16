//! Atoms by number, and as they are printed.

use crate::built::{atom, table_of};
use bx_terms::{AtomId, Atoms, Fault, push_atom, push_pid};
use std::alloc::{AllocError, Global};
use std::test::Fail;

fn repeated(alloc: Global, character: char, times: usize) -> Result<String, AllocError> {
    let mut text = String::new(alloc);
    for _ in 0..times {
        text.push(character)?;
    }
    Ok(text)
}

static NAMED: [(&str, u32); 7] = [
    ("foo", 80),
    ("", 81),
    ("Foo", 82),
    ("foo", 80),
    ("true", 0),
    ("EXIT", 23),
    ("tuple_to_list", 79),
];

/// Whether a name gets that number, and is found by it.
fn gets(alloc: Global, atoms: &mut Atoms, text: &str, number: u32) -> Result<bool, Fault> {
    let wanted = AtomId(number);
    let is_named = atom(alloc, atoms, text)? == wanted && atoms.find(text) == Some(wanted);
    Ok(is_named && atoms.text(wanted) == Some(text))
}

/// The first name that does not get its number.
fn misnamed(alloc: Global, atoms: &mut Atoms) -> Result<Option<&'static str>, Fault> {
    for (text, number) in &NAMED {
        if !gets(alloc, atoms, *text, *number)? {
            return Ok(Some(*text));
        }
    }
    Ok(None)
}

fn are_unknown(atoms: &Atoms) -> bool {
    atoms.find("fo").is_none()
        && atoms.text(AtomId(83)).is_none()
        && atoms.text(AtomId(u32::MAX)).is_none()
}

fn names_are_kept(alloc: Global) -> Result<bool, Fault> {
    let mut atoms = Atoms::new(alloc)?;
    let is_new = atoms.len() == 80;
    let wrong = misnamed(alloc, &mut atoms)?;
    Ok(is_new && wrong.is_none() && atoms.len() == 83 && are_unknown(&atoms))
}

#[test]
fn names_and_texts(rt: HostRuntime) -> Result<(), Fail> {
    assert!(rt; names_are_kept(rt.alloc())?);
    Ok(())
}

static LENGTHS: [(char, usize, Option<u32>); 5] = [
    ('a', 255, Some(80)),
    ('a', 256, None),
    ('é', 255, Some(81)),
    ('é', 256, None),
    ('𐍈', 255, Some(82)),
];

/// Whether naming so many characters gives that number, or is refused as too long where none is meant.
fn is_named(
    alloc: Global,
    atoms: &mut Atoms,
    character: char,
    times: usize,
    number: Option<u32>,
) -> Result<bool, Fault> {
    let text = repeated(alloc, character, times)?;
    match atom(alloc, atoms, text.as_str()) {
        Ok(AtomId(named)) => Ok(number == Some(named)),
        Err(Fault::AtomTooLong { line: None }) => Ok(number.is_none()),
        Err(fault) => Err(fault),
    }
}

/// Whether each row is told, in a new table that has three atoms more then.
fn rows_are_told(alloc: Global) -> Result<bool, Fault> {
    let mut atoms = Atoms::new(alloc)?;
    let mut are_told = true;
    for (character, times, number) in &LENGTHS {
        are_told &= is_named(alloc, &mut atoms, *character, *times, *number)?;
    }
    Ok(are_told && atoms.len() == 83)
}

#[test]
fn characters_are_counted(rt: HostRuntime) -> Result<(), Fail> {
    assert!(rt; rows_are_told(rt.alloc())?);
    Ok(())
}

/// A name that holds that number.
fn numbered(alloc: Global, number: u32) -> Result<String, AllocError> {
    let mut text = String::new(alloc);
    push_pid(alloc, &mut text, number)?;
    Ok(text)
}

/// Whether the next name, which holds its number, gets that number.
fn takes(alloc: Global, atoms: &mut Atoms, number: u32) -> Result<bool, Fault> {
    let text = numbered(alloc, number)?;
    Ok(atom(alloc, atoms, text.as_str())? == AtomId(number))
}

/// Fills a new table: whether each name gets its number.
fn fill(alloc: Global, atoms: &mut Atoms) -> Result<bool, Fault> {
    for number in 80..65_536u32 {
        if !takes(alloc, atoms, number)? {
            return Ok(false);
        }
    }
    Ok(true)
}

/// Whether a full table takes no name more, one that is too long among them, and tells those that it has.
fn is_full(alloc: Global, atoms: &mut Atoms) -> Result<bool, Fault> {
    let is_refused = match atom(alloc, atoms, "one more") {
        Ok(_) => false,
        Err(Fault::TooManyAtoms { line: None }) => true,
        Err(fault) => return Err(fault),
    };
    let is_kept = is_named(alloc, atoms, 'a', 256, None)?
        && atom(alloc, atoms, "<0.65535.0>")? == AtomId(65_535);
    Ok(is_refused && is_kept && atoms.find("one more").is_none())
}

fn a_table_is_filled(alloc: Global) -> Result<bool, Fault> {
    let mut atoms = Atoms::new(alloc)?;
    let is_filled = fill(alloc, &mut atoms)?;
    Ok(is_filled && is_full(alloc, &mut atoms)? && atoms.len() == 65_536)
}

#[test]
fn a_full_table(rt: HostRuntime) -> Result<(), Fail> {
    assert!(rt; a_table_is_filled(rt.alloc())?);
    Ok(())
}

/// Whether two tables with these names are the same.
fn are_same(alloc: Global, one: &[&str], other: &[&str]) -> Result<bool, Fault> {
    let one = table_of(alloc, one)?;
    let other = table_of(alloc, other)?;
    Ok(one.same(&other))
}

static TABLES: [(&[&str], &[&str], bool); 4] = [
    (&[], &[], true),
    (&["foo"], &[], false),
    (&["foo"], &["foo"], true),
    (&["foo", "a", "b"], &["foo", "b", "a"], false),
];

#[test]
fn tables_with_the_same_atoms(rt: HostRuntime) -> Result<(), Fail> {
    for (one, other, want) in &TABLES {
        assert_eq!(rt; are_same(rt.alloc(), *one, *other)?, *want);
    }
    Ok(())
}

static PRINTED: [(&str, &str); 17] = [
    ("ok", "-ok"),
    ("a_B9@x", "-a_B9@x"),
    ("xors", "-xors"),
    ("else", "-else"),
    ("", "-''"),
    ("Ok", "-'Ok'"),
    ("_a", "-'_a'"),
    ("@a", "-'@a'"),
    ("+", "-'+'"),
    ("a b", "-'a b'"),
    ("after", "-'after'"),
    ("xor", "-'xor'"),
    ("é", "-'é'"),
    ("it's", "-'it\\'s'"),
    ("a\\b", "-'a\\\\b'"),
    ("\n\r\t", "-'\\n\\r\\t'"),
    ("\u{1}\u{1f}\u{7f}", "-'\\x{1}\\x{1f}\\x{7f}'"),
];

/// Whether an atom is printed so, after what stands there.
fn prints(alloc: Global, text: &str, want: &str) -> Result<bool, AllocError> {
    let mut out = String::from_str(alloc, "-")?;
    push_atom(alloc, &mut out, text)?;
    Ok(out.as_str() == want)
}

#[test]
fn atoms_in_print(rt: HostRuntime) -> Result<(), Fail> {
    for (text, want) in &PRINTED {
        assert!(rt; prints(rt.alloc(), *text, *want)?, "{want}");
    }
    Ok(())
}
