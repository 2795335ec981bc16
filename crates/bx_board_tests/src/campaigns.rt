//! Campaigns by many numbers of workers, and the same plans by one worker alone.

use crate::samples::{APART, APART_TEXT, image, plan, text_of};
use bx_board::{FreeGate, campaign, report_alone};
use bxemu_testkit::atom;
use std::test::Fail;

/// A plan, how many workers run it from which function, and the report or the name of the refusal.
const CAMPAIGNS: [(&str, u32, &str, &str); 14] = [
    ("", 1, "f", ""),
    ("", 2, "f", ""),
    ("", 64, "f", ""),
    ("", 0, "f", "Workers"),
    ("", 65, "f", "Workers"),
    ("", 0, "ok", "Workers"),
    ("", 1, "ok", "NoEntry"),
    (APART, 64, "ok", "NoEntry"),
    (APART, 1, "f", APART_TEXT),
    (APART, 2, "f", APART_TEXT),
    (APART, 64, "f", APART_TEXT),
    (SHARED, 1, "f", SHARED_TEXT),
    (SHARED, 3, "f", SHARED_TEXT),
    (SHARED, 64, "f", SHARED_TEXT),
];

/// One schedule begins another, one makes no choice, and two go on from the same choices.
const SHARED: &str = "a: r0\nb: r0*2\nc:\nd: r0 r5 r0\ne: r0*3\n";

const SHARED_TEXT: &str = "schedule a\napplied 1\nstate open r0\nprocess <0.0.0> ready\nend
schedule b\napplied 2\nstate quiet\nprocess <0.0.0> ended normal\nend
schedule c\napplied 0\nstate open r0\nprocess <0.0.0> ready\nend
schedule d\napplied 1\nstate stopped r5\nprocess <0.0.0> ready\nend
schedule e\napplied 2\nstate stopped r0\nprocess <0.0.0> ended normal\nend\n";

#[test]
fn campaigns_report_each_schedule(rt: HostRuntime) -> Result<(), Fail> {
    let alloc = rt.alloc();
    let image = image(alloc)?;
    for (text, workers, function, expected) in CAMPAIGNS.iter() {
        let plan = plan(alloc, text)?;
        let (module, function) = (atom(&image, "m"), atom(&image, function));
        let report = campaign(
            &rt, alloc, &image, module, function, &plan, *workers, &FreeGate,
        );
        let got = text_of(alloc, &image, report)?;
        assert_eq!(&rt; got.as_str(), *expected);
    }
    Ok(())
}

#[test]
fn one_worker_alone_reports_the_same(rt: HostRuntime) -> Result<(), Fail> {
    let alloc = rt.alloc();
    let image = image(alloc)?;
    for (text, expected) in [("", ""), (APART, APART_TEXT), (SHARED, SHARED_TEXT)] {
        let plan = plan(alloc, text)?;
        let report = report_alone(alloc, &image, atom(&image, "m"), atom(&image, "f"), &plan);
        let got = text_of(alloc, &image, report)?;
        assert_eq!(&rt; got.as_str(), expected);
    }
    Ok(())
}
