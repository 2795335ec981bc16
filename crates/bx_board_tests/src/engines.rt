//! Runs of whole texts: the report that is written, or the line of the first failure.

use bx_engine::{Failure, fault_line, run_text};
use bxemu_testkit::{FailingReader, FailingWriter, told};
use std::alloc::{AllocError, Global};
use std::test::Fail;

const M: &str = "{module,m}.
{exports,[{f,0}]}.
{attributes,[]}.
{labels,9}.
{function,f,0,2}.
{label,1}.
{func_info,{atom,m},{atom,f},0}.
{label,2}.
{call_ext_only,0,{extfunc,n,g,0}}.
";

const N: &str = "{module,n}. {exports,[{g,0}]}. {labels,3}. {function,g,0,2}.
{label,1}. {func_info,{atom,n},{atom,g},0}. {label,2}. return.";

/// A text whose labels are fine when it is read, and not when its code is numbered.
const UNLABELLED: &str =
    "{module,n}. {exports,[]}. {labels,3}. {function,g,0,2}. {label,2}. {jump,{f,9}}.";

/// The names of so many listings and of the plan.
fn names(alloc: Global, listings: usize) -> Result<Vec<String>, AllocError> {
    let mut names = Vec::new(alloc);
    for name in ["a.S", "b.S"].iter().take(listings) {
        names.push(String::from_str(alloc, name)?)?;
    }
    names.push(String::from_str(alloc, "plan")?)?;
    Ok(names)
}

fn readers<'a>(alloc: Global, listings: &[&'a str]) -> Result<Vec<&'a [u8]>, AllocError> {
    let mut readers = Vec::new(alloc);
    for listing in listings {
        readers.push(listing.as_bytes())?;
    }
    Ok(readers)
}

fn run<'a>(
    alloc: Global,
    listings: &[&'a str],
    start: &str,
    plan: &'a str,
    written: &mut Vec<u8>,
) -> Result<(), Failure> {
    let mut readers = readers(alloc, listings)?;
    let mut plan = plan.as_bytes();
    run_text(alloc, readers.as_mut_slice(), start, &mut plan, written)
}

/// What was written, and behind it the line of the failure, where the run failed.
fn with_line(
    alloc: Global,
    ended: Result<(), Failure>,
    listings: usize,
    mut written: Vec<u8>,
) -> Result<String, Fail> {
    if let Err(failure) = ended {
        let names = names(alloc, listings)?;
        fault_line(&failure, &names, &mut written);
    }
    Ok(told(written)?)
}

/// What a run writes, and behind it the line of its failure.
fn told_of_run<'a>(
    alloc: Global,
    listings: &[&'a str],
    start: &str,
    plan: &'a str,
) -> Result<String, Fail> {
    let mut written = Vec::new(alloc);
    let ended = run(alloc, listings, start, plan, &mut written);
    with_line(alloc, ended, listings.len(), written)
}

#[test]
fn reports_of_runs(rt: HostRuntime) -> Result<(), Fail> {
    let rows = [
        ("", ""),
        (
            "b:",
            "schedule b\napplied 0\nstate open r0\nprocess <0.0.0> ready\nend\n",
        ),
        (
            "b: r0*2\n# once more\na: r0 d0>1",
            "schedule b\napplied 2\nstate quiet\nprocess <0.0.0> ended normal\nend\nschedule a\napplied 1\nstate stopped d0>1\nprocess <0.0.0> ready\nend\n",
        ),
    ];
    for (plan, want) in rows {
        let text = told_of_run(rt.alloc(), &[M, N], "m:f", plan)?;
        assert!(rt; text.as_str() == want, "{text}");
    }
    let alone = told_of_run(rt.alloc(), &[M], "m:f", "a: r0")?;
    assert!(rt;
        alone.as_str()
            == "schedule a\napplied 1\nstate quiet\nprocess <0.0.0> ended {undef,[]}\nend\n"
    );
    Ok(())
}

#[test]
fn the_first_failure_is_told(rt: HostRuntime) -> Result<(), Fail> {
    let rows: [(&[&str], &str, &str, &str); 10] = [
        (&["", M], "m", "a r0", "bxemu: start\n"),
        (&["", M], "m:f", "a r0", "bxemu: R8 BadForm line 1 in a.S\n"),
        (
            &[M, "{module,'ab"],
            "m:f",
            "a r0",
            "bxemu: R6 Truncated line 1 in b.S\n",
        ),
        (
            &[UNLABELLED, ""],
            "m:f",
            "a r0",
            "bxemu: R13 LabelMissing 9 in a.S\n",
        ),
        (&[M, M], "m:f", "a r0", "bxemu: R17 ModuleTwice\n"),
        (
            &[M],
            "m:g",
            "a: r0\na r0",
            "bxemu: R24 BadLine line 2 in plan\n",
        ),
        (&[M], "m:g", "", "bxemu: R32 NoEntry\n"),
        (&[M, N], "n:f", "a: r0", "bxemu: R32 NoEntry\n"),
        (&[], "m:f", "", "bxemu: R32 NoEntry\n"),
        (&[], "m:f", "b", "bxemu: R24 BadLine line 1 in plan\n"),
    ];
    for (listings, start, plan, want) in rows {
        let text = told_of_run(rt.alloc(), listings, start, plan)?;
        assert!(rt; text.as_str() == want, "{text}");
    }
    Ok(())
}

/// A reader of a text that fails, or ends, behind it.
fn reader(text: &str, fails: bool) -> FailingReader<'_> {
    let fails_at = if fails {
        u32::try_from(text.len()).unwrap_or(u32::MAX)
    } else {
        u32::MAX
    };
    FailingReader::by_bytes(text.as_bytes(), fails_at)
}

/// What a run over `M` and a plan that is refused tells, where the listing's reader fails, or else the plan's.
fn told_of_readers(alloc: Global, listing_fails: bool) -> Result<String, Fail> {
    let mut listings = [reader(M, listing_fails)];
    let mut plan = reader("a r0", !listing_fails);
    let mut written = Vec::new(alloc);
    let ended = run_text(alloc, &mut listings, "m:f", &mut plan, &mut written);
    with_line(alloc, ended, 1, written)
}

#[test]
fn readers_that_fail(rt: HostRuntime) -> Result<(), Fail> {
    let listing = told_of_readers(rt.alloc(), true)?;
    assert!(rt; listing.as_str() == "bxemu: read a.S\n", "{listing}");
    let plan = told_of_readers(rt.alloc(), false)?;
    assert!(rt; plan.as_str() == "bxemu: read plan\n", "{plan}");
    Ok(())
}

/// The line of a run whose report has 61 bytes, where there is room for so many; nothing where it does not fail.
fn told_of_writer(alloc: Global, room: u32) -> Result<String, Fail> {
    let mut writer = FailingWriter::new(alloc, 1, room);
    let mut plan = b"b:".as_slice();
    let ended = run_text(alloc, &mut [M.as_bytes()], "m:f", &mut plan, &mut writer);
    with_line(alloc, ended, 1, Vec::new(alloc))
}

#[test]
fn writers_that_fail(rt: HostRuntime) -> Result<(), Fail> {
    for room in [0, 1, 60] {
        let line = told_of_writer(rt.alloc(), room)?;
        assert!(rt; line.as_str() == "bxemu: write\n", "{room}: {line}");
    }
    let line = told_of_writer(rt.alloc(), 61)?;
    assert!(rt; line.as_str() == "", "{line}");
    Ok(())
}
