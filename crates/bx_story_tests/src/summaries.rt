//! Summaries of reports: each outcome once.

use crate::samples::{ENDS, OVERFLOWS, SENDERS};
use bx_board::{Report, report_alone};
use bx_load::Image;
use bx_plan::{Plan, read_plan};
use bx_summary::summary_text;
use bx_terms::Fault;
use bxemu_testkit::{atom, image};
use std::alloc::Global;
use std::test::Fail;

/// A listing, a plan, and the summary of its report.
type Row = (&'static str, &'static str, &'static str);

const SUMMARIES: [Row; 6] = [
    (ENDS, "", "0 schedules, 0 outcomes\n"),
    (
        ENDS,
        "a: r0*2\n",
        "outcome of 1 schedules, first a\nstate quiet\nprocess <0.0.0> ended normal\nend\n1 schedules, 1 outcomes\n",
    ),
    // those that stand open at one state are one outcome, whatever is applied
    (
        ENDS,
        "q: r0*2\no: r0\np:\nr: r0 r0\n",
        "outcome of 2 schedules, first q\nstate quiet\nprocess <0.0.0> ended normal\nend\noutcome of 2 schedules, first o\nstate open\nprocess <0.0.0> ready\nend\n4 schedules, 2 outcomes\n",
    ),
    // two with other choices that are open
    (
        SENDERS,
        "x: r0*10 r1\ny: r0*10 r2\n",
        "outcome of 2 schedules, first x\nstate open\nprocess <0.0.0> ready\nprocess <0.1.0> ready\nprocess <0.2.0> ready\nend\n2 schedules, 1 outcomes\n",
    ),
    // who is first decides what is shown; a choice that is refused is told
    (
        SENDERS,
        "ab: r0*10 r1 r2 d1>0 d2>0 r0*3\nba: r0*10 r1 r2 d2>0 d1>0 r0*3\nb: r0*10 r2 r1 d2>0 d1>0 r0*3\nno: r0*3 r1 r0\nlate: r0*10 r2 d2>0 r0*3 r1\n",
        "outcome of 1 schedules, first ab\nstate open\nprocess <0.0.0> ended normal\nprocess <0.1.0> ready\nprocess <0.2.0> ready\noutput <0.0.0> a\nend\noutcome of 3 schedules, first ba\nstate open\nprocess <0.0.0> ended normal\nprocess <0.1.0> ready\nprocess <0.2.0> ready\noutput <0.0.0> b\nend\noutcome of 1 schedules, first no\nstate stopped r1\nprocess <0.0.0> ready\nend\n5 schedules, 3 outcomes\n",
    ),
    // a trap
    (
        OVERFLOWS,
        "t: r0\nu: r0 r0\nv: d0>0\n",
        "outcome of 2 schedules, first t\nstate trapped IntegerRange <0.0.0>\nprocess <0.0.0> ready\nend\noutcome of 1 schedules, first v\nstate stopped d0>0\nprocess <0.0.0> ready\nend\n3 schedules, 2 outcomes\n",
    ),
];

fn report_of(alloc: Global, image: &Image, plan: &Plan) -> Result<Report, Fault> {
    report_alone(alloc, image, atom(image, "m"), atom(image, "f"), plan)
}

/// The summary of a report, made once more where memory ran out.
fn summary_of(alloc: Global, image: &Image, report: &Report) -> Result<String, Fault> {
    match summary_text(alloc, image.atoms(), report) {
        Err(_) => summary_text(alloc, image.atoms(), report),
        answer => answer,
    }
}

/// The summary of a plan's report over a listing.
fn summed(alloc: Global, listing: &str, plan: &str) -> Result<String, Fault> {
    let image = image(alloc, &[listing])?;
    let plan = read_plan(alloc, plan.as_bytes())?;
    let report = report_of(alloc, &image, &plan)?;
    summary_of(alloc, &image, &report)
}

/// How many rows, from the first on, are summed as they should be.
fn right_rows(alloc: Global, rows: &[Row]) -> Result<usize, Fault> {
    for (number, (listing, plan, want)) in rows.iter().enumerate() {
        let text = summed(alloc, listing, plan)?;
        if text.as_str() != *want {
            return Ok(number);
        }
    }
    Ok(rows.len())
}

#[test]
fn each_outcome_once(rt: HostRuntime) -> Result<(), Fail> {
    assert_eq!(rt; right_rows(rt.alloc(), &SUMMARIES)?, SUMMARIES.len());
    Ok(())
}
