//! The line of a failure, and its status.

use bx_engine::{Failure, fault_line};
use bx_terms::{Fault, Name};
use bxemu_testkit::FailingWriter;
use std::alloc::{AllocError, Global};
use std::test::Fail;

/// The names of two listings and a plan.
fn names(alloc: Global) -> Result<Vec<String>, AllocError> {
    let mut names = Vec::new(alloc);
    for name in ["m.S", "a dir/n.S", "plan"] {
        names.push(String::from_str(alloc, name)?)?;
    }
    Ok(names)
}

/// A refusal of what is unsupported, by its name.
fn unsupported(alloc: Global, line: usize, name: &str) -> Result<Fault, AllocError> {
    let name = Name::new(alloc, name)?;
    Ok(Fault::Unsupported { line, name })
}

/// A failure's line without its end, and its status.
fn shown(alloc: Global, failure: &Failure) -> Result<(String, u8), Fail> {
    let names = names(alloc)?;
    let mut written = Vec::new(alloc);
    let status = fault_line(failure, names.as_slice(), &mut written);
    let text = String::from_utf8(written).ok().ok_or("text")?;
    let line = text.strip_suffix("\n").ok_or("a line's end")?;
    Ok((String::from_str(alloc, line)?, status))
}

#[test]
fn tells_a_refusal_in_a_line(rt: HostRuntime) -> Result<(), Fail> {
    let alloc = rt.alloc();
    let rows = [
        (
            Fault::Truncated { line: 1 },
            Some(0),
            "R6 Truncated line 1 in m.S",
        ),
        (
            Fault::RegisterRange { line: 9 },
            Some(1),
            "R15 RegisterRange line 9 in a dir/n.S",
        ),
        (
            Fault::TooManyAtoms { line: Some(12) },
            Some(0),
            "R1 TooManyAtoms line 12 in m.S",
        ),
        (
            Fault::AtomTooLong { line: Some(9) },
            Some(0),
            "R2 AtomTooLong line 9 in m.S",
        ),
        (Fault::AtomTooLong { line: None }, None, "R2 AtomTooLong"),
        (
            unsupported(alloc, 9, "is_map")?,
            Some(0),
            "R9 Unsupported line 9 is_map in m.S",
        ),
        (
            unsupported(alloc, 10, "foo bar/1")?,
            None,
            "R9 Unsupported line 10 foo bar/1",
        ),
        (
            unsupported(alloc, 3, "\n\u{b}a\u{7f}\u{1f} \u{e9}\u{80}\\")?,
            None,
            "R9 Unsupported line 3 \\x{a}\\x{b}a\\x{7f}\\x{1f} \u{e9}\u{80}\\",
        ),
        (
            unsupported(alloc, 1, "")?,
            Some(0),
            "R9 Unsupported line 1  in m.S",
        ),
        (
            Fault::LabelTwice { label: u32::MAX },
            Some(0),
            "R12 LabelTwice 4294967295 in m.S",
        ),
        (
            Fault::LabelMissing { label: 9 },
            Some(0),
            "R13 LabelMissing 9 in m.S",
        ),
        (
            Fault::EntryMissing { function: 0 },
            Some(0),
            "R14 EntryMissing 0 in m.S",
        ),
        (Fault::TooLarge, Some(2), "R16 TooLarge in plan"),
        (Fault::ModuleTwice, None, "R17 ModuleTwice"),
        (
            Fault::BadLine { line: 2 },
            Some(2),
            "R24 BadLine line 2 in plan",
        ),
        (
            Fault::TooLong { line: 11 },
            Some(2),
            "R26 TooLong line 11 in plan",
        ),
        (
            Fault::NotIndependent { position: 11 },
            None,
            "R27 NotIndependent 11",
        ),
        (Fault::NoEntry, None, "R32 NoEntry"),
        (Fault::Workers, Some(3), "R34 Workers"),
    ];
    for (fault, file, line) in rows {
        let (text, status) = shown(alloc, &Failure::Refused(fault, file))?;
        assert_eq!(rt; status, 1);
        assert!(rt; text.strip_prefix("bxemu: ") == Some(line), "{text}");
    }
    Ok(())
}

#[test]
fn tells_other_failures_in_a_line(rt: HostRuntime) -> Result<(), Fail> {
    let rows = [
        (Failure::Start, "bxemu: start", 2),
        (Failure::Refused(Fault::Memory, None), "bxemu: memory", 3),
        (Failure::Refused(Fault::Memory, Some(0)), "bxemu: memory", 3),
        (Failure::Read(1), "bxemu: read a dir/n.S", 4),
        (Failure::Read(3), "bxemu: read", 4),
        (Failure::Write, "bxemu: write", 4),
    ];
    for (failure, line, wanted) in &rows {
        let (text, status) = shown(rt.alloc(), failure)?;
        assert_eq!(rt; status, *wanted);
        assert!(rt; text.as_str() == *line, "{text}");
    }
    Ok(())
}

#[test]
fn gives_the_status_where_the_line_cannot_be_written(rt: HostRuntime) -> Result<(), Fail> {
    let alloc = rt.alloc();
    let names = names(alloc)?;
    let whole = b"bxemu: R9 Unsupported line 7 a\\x{a}b in plan\n".as_slice();
    let failure = Failure::Refused(unsupported(alloc, 7, "a\nb")?, Some(2));
    for calls_left in 0..32 {
        let mut writer = FailingWriter::new(alloc, usize::MAX, calls_left);
        assert_eq!(rt; fault_line(&failure, names.as_slice(), &mut writer), 1);
        assert!(rt; whole.starts_with(writer.written.as_slice()));
        assert!(rt; writer.calls_left == 0 || writer.written.as_slice() == whole);
    }
    Ok(())
}
