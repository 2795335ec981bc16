//! What `chart` writes of listings and plans that stand in memory.

use crate::drawings::{Drawing, HELLO, LEFT, LOOK, MARKS, ONE, OOPS, OVER};
use crate::samples;
use bx_chart::chart_text;
use bx_engine::Failure;
use bxemu_testkit::{FailingReader, FailingWriter, joined};
use std::alloc::{AllocError, Global};
use std::test::Fail;

/// A listing, a plan of one schedule, and its drawing.
type Row = (&'static str, &'static str, Drawing);

const ROWS: [Row; 6] = [
    (samples::HELLO, "hello: r0*2", HELLO),
    (samples::SENDS, "one: r0*6 d0>1 r1*2", ONE),
    (samples::SENDS, "left: r0*6", LEFT),
    (samples::OVERFLOWS, "over: r0 r0", OVER),
    (samples::EXITS, "oops: r0*3", OOPS),
    (samples::SHOWS, "marks: r0*4", MARKS),
];

/// Writes the drawing of a plan's only schedule.
fn chart(
    alloc: Global,
    listing: &str,
    plan: &str,
    writer: &mut FailingWriter,
) -> Result<(), Failure> {
    let mut listings = [FailingReader::new(listing.as_bytes())];
    let mut plan = FailingReader::new(plan.as_bytes());
    chart_text(alloc, &mut listings, "m:f", &mut plan, None, writer)
}

/// Whether the drawing of a row is the one that stands there.
fn is_drawn(alloc: Global, row: Row) -> Result<bool, AllocError> {
    let (listing, plan, (before, behind)) = row;
    let mut writer = FailingWriter::new(alloc, usize::MAX, u32::MAX);
    let ended = chart(alloc, listing, plan, &mut writer);
    let want = joined(alloc, &[before, LOOK, behind])?;
    Ok(ended.is_ok() && writer.written.as_slice() == want.as_bytes())
}

#[test]
fn whole_drawings(rt: HostRuntime) -> Result<(), Fail> {
    for row in ROWS {
        assert!(rt; is_drawn(rt.alloc(), row)?, "{}", row.1);
    }
    Ok(())
}

/// What is left of a drawing whose writer takes so many bytes, one a call.
fn is_cut_short(alloc: Global, calls: u32) -> Result<bool, AllocError> {
    let mut writer = FailingWriter::new(alloc, 1, calls);
    let ended = chart(alloc, samples::HELLO, "hello: r0*2", &mut writer);
    let failed = matches!(ended, Err(Failure::Write));
    Ok(failed && HELLO.0.as_bytes().get(..calls as usize) == Some(writer.written.as_slice()))
}

#[test]
fn a_writer_that_fails(rt: HostRuntime) -> Result<(), Fail> {
    for calls in [0, 1, 100] {
        assert!(rt; is_cut_short(rt.alloc(), calls)?, "{calls}");
    }
    Ok(())
}
