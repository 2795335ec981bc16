//! What the report says of a process that runs these items.

use bx_engine::{fault_line, run_text};
use bxemu_testkit::{module, numbered, told};
use std::alloc::{AllocError, Global};
use std::test::Fail;

/// The report of so many runs of the process that begins at these items, or the line of what it failed by.
pub fn report_of(alloc: Global, items: &str, runs: u32) -> Result<String, Fail> {
    let listing = module(alloc, items)?;
    let plan = numbered(alloc, "a: r0*", runs, "")?;
    let mut readers = [listing.as_bytes()];
    let mut plan = plan.as_bytes();
    let mut written = Vec::new(alloc);
    if let Err(failure) = run_text(alloc, &mut readers, "m:f", &mut plan, &mut written) {
        fault_line(&failure, &[], &mut written);
    }
    Ok(told(written)?)
}

/// The report of a process that ended with this reason, after so many runs.
pub fn ended(alloc: Global, runs: u32, reason: &str) -> Result<String, AllocError> {
    let mut text = numbered(alloc, "schedule a\napplied ", runs, "\nstate quiet\n")?;
    text.push_str("process <0.0.0> ended ")?;
    text.push_str(reason)?;
    text.push_str("\nend\n")?;
    Ok(text)
}

/// The report of a process whose last run was this trap.
fn trapped(alloc: Global, runs: u32, trap: &str) -> Result<String, AllocError> {
    let mut text = numbered(alloc, "schedule a\napplied ", runs, "\nstate trapped ")?;
    text.push_str(trap)?;
    text.push_str(" <0.0.0>\nprocess <0.0.0> ready\nend\n")?;
    Ok(text)
}

/// How many rows of items, runs and a reason, from the first on, end the process so.
pub fn right_ends(alloc: Global, rows: &[(&str, u32, &str)]) -> Result<usize, Fail> {
    for (number, (items, runs, reason)) in rows.iter().enumerate() {
        let report = report_of(alloc, items, *runs)?;
        let want = ended(alloc, *runs, reason)?;
        if report.as_str() != want.as_str() {
            return Ok(number);
        }
    }
    Ok(rows.len())
}

/// Whether the last of so many runs of these items is that trap.
pub fn is_trapped(alloc: Global, items: &str, runs: u32, trap: &str) -> Result<bool, Fail> {
    let report = report_of(alloc, items, runs)?;
    let want = trapped(alloc, runs, trap)?;
    Ok(report.as_str() == want.as_str())
}

/// How many rows of items, runs and a trap, from the first on, are so.
pub fn right_traps(alloc: Global, rows: &[(&str, u32, &str)]) -> Result<usize, Fail> {
    for (number, (items, runs, trap)) in rows.iter().enumerate() {
        if !is_trapped(alloc, items, *runs, trap)? {
            return Ok(number);
        }
    }
    Ok(rows.len())
}
