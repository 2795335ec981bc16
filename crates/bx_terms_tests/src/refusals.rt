//! Refusals with their numbers, names and texts, and the words of faults and traps.

use bx_terms::{Class, Fault, Name, Trap, fixed};
use std::alloc::{AllocError, Global};
use std::test::Fail;

fn is_shown(alloc: Global, text: &str) -> Result<bool, AllocError> {
    let name = Name::new(alloc, text)?;
    let shown = format!(in alloc; "{name}")?;
    Ok(name.as_str() == text && shown.as_str() == text)
}

#[test]
fn names_of_what_is_outside(rt: HostRuntime) -> Result<(), Fail> {
    assert!(rt; is_shown(rt.alloc(), "foo/2")?);
    Ok(())
}

fn is_at_line_7(fault: Fault, want: &Fault) -> bool {
    fault.at_line(7) == *want
}

#[test]
fn lines_of_atoms(rt: HostRuntime) {
    let many = Fault::TooManyAtoms { line: Some(7) };
    assert!(rt; is_at_line_7(Fault::TooManyAtoms { line: None }, &many));
    let long = Fault::AtomTooLong { line: Some(7) };
    assert!(rt; is_at_line_7(Fault::AtomTooLong { line: Some(1) }, &long));
    let other = Fault::BadToken { line: 1 };
    assert!(rt; is_at_line_7(Fault::BadToken { line: 1 }, &other));
}

#[test]
fn words(rt: HostRuntime) {
    assert_eq!(rt; Class::Throw.atom(), fixed::THROW);
    assert_eq!(rt; Trap::NotATerm.name(), "NotATerm");
}

/// The fault of a number, with its number and name, and what it says. Out of memory has none.
fn row(alloc: Global, number: u32) -> Result<(Fault, &'static str, &'static str), AllocError> {
    Ok(match number {
        1 => (
            Fault::TooManyAtoms { line: None },
            "1 TooManyAtoms",
            "the table of atoms is full",
        ),
        2 => (
            Fault::AtomTooLong { line: Some(2) },
            "2 AtomTooLong",
            "an atom has over 255 characters",
        ),
        3 => (
            Fault::BadToken { line: 3 },
            "3 BadToken",
            "line 3: no token begins here",
        ),
        4 => (
            Fault::BadTerm { line: 4 },
            "4 BadTerm",
            "line 4: a token that cannot stand here",
        ),
        5 => (
            Fault::TooDeep { line: 5 },
            "5 TooDeep",
            "line 5: brackets nest over 256 deep",
        ),
        6 => (
            Fault::Truncated { line: 6 },
            "6 Truncated",
            "line 6: the text ends within a token or a term, or before its full stop",
        ),
        7 => (
            Fault::NotUtf8 { line: 7 },
            "7 NotUtf8",
            "line 7: bytes that are no UTF-8",
        ),
        8 => (
            Fault::BadForm { line: 8 },
            "8 BadForm",
            "line 8: no form, a form out of order, or a missing one",
        ),
        9 => (
            Fault::Unsupported {
                line: 9,
                name: Name::new(alloc, "is_map")?,
            },
            "9 Unsupported",
            "line 9: is_map is outside the subset",
        ),
        10 => (
            Fault::BadOperand { line: 10 },
            "10 BadOperand",
            "line 10: a wrong number or kind of operands",
        ),
        11 => (
            Fault::LiteralRange { line: 11 },
            "11 LiteralRange",
            "line 11: an integer outside 64 bits, or a literal that is too high",
        ),
        12 => (
            Fault::LabelTwice { label: 12 },
            "12 LabelTwice",
            "label 12 stands twice",
        ),
        13 => (
            Fault::LabelMissing { label: 13 },
            "13 LabelMissing",
            "there is no label 13",
        ),
        14 => (
            Fault::EntryMissing { function: 14 },
            "14 EntryMissing",
            "the entry of function 14 is no label of its own",
        ),
        15 => (
            Fault::RegisterRange { line: 15 },
            "15 RegisterRange",
            "line 15: a register or a frame out of range",
        ),
        16 => (Fault::TooLarge, "16 TooLarge", "the input is past a limit"),
        17 => (
            Fault::ModuleTwice,
            "17 ModuleTwice",
            "two modules have one name",
        ),
        18 => (
            Fault::ExportMissing,
            "18 ExportMissing",
            "an export names no function of its module",
        ),
        19 => (
            Fault::TooManyModules,
            "19 TooManyModules",
            "more than 64 modules",
        ),
        20 => (
            Fault::NotEnabled,
            "20 NotEnabled",
            "the choice is not enabled",
        ),
        21 => (Fault::Halted, "21 Halted", "the world has trapped"),
        22 => (
            Fault::BeforeStart,
            "22 BeforeStart",
            "no choice stands that far back",
        ),
        23 => (
            Fault::AfterEnd,
            "23 AfterEnd",
            "no choice stands that far ahead",
        ),
        24 => (
            Fault::BadLine { line: 24 },
            "24 BadLine",
            "line 24: no line of a plan",
        ),
        25 => (
            Fault::NameTwice { line: 25 },
            "25 NameTwice",
            "line 25: two schedules have one name",
        ),
        26 => (
            Fault::TooLong { line: 26 },
            "26 TooLong",
            "line 26: too many choices, or too many in all",
        ),
        27 => (
            Fault::NotIndependent { position: 27 },
            "27 NotIndependent",
            "the choices at 27 cannot be exchanged",
        ),
        28 => (
            Fault::NotLeased,
            "28 NotLeased",
            "the unit is not leased to this worker",
        ),
        29 => (
            Fault::Foreign,
            "29 Foreign",
            "the piece belongs to another campaign",
        ),
        30 => (Fault::Twice, "30 Twice", "the unit is done already"),
        31 => (Fault::Unfinished, "31 Unfinished", "a unit is not done"),
        32 => (
            Fault::NoEntry,
            "32 NoEntry",
            "the start is no exported function of no arguments",
        ),
        33 => (
            Fault::BadCommand { line: 33 },
            "33 BadCommand",
            "line 33: no command",
        ),
        34 => (
            Fault::Workers,
            "34 Workers",
            "the number of workers is not 1 to 64",
        ),
        _ => (Fault::Memory, "0 Memory", "memory ran out"),
    })
}

/// Whether a fault has its number and name, and says what it is.
fn is_said(alloc: Global, number: u32) -> Result<bool, AllocError> {
    let (fault, row, text) = row(alloc, number)?;
    let number = fault.number().unwrap_or(0);
    let name = fault.name();
    let told = format!(in alloc; "{number} {name}: {fault}")?;
    let wanted = format!(in alloc; "{row}: {text}")?;
    Ok(told.as_str() == wanted.as_str())
}

#[test]
fn each_fault_says_what_it_is(rt: HostRuntime) -> Result<(), Fail> {
    for number in 0..35u32 {
        assert!(rt; is_said(rt.alloc(), number)?, "fault {number}");
    }
    Ok(())
}
