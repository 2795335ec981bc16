//! Engines whose readers and writers fail: each read and each write, a byte a call.

use crate::engines::{Engine, Streams, told_of};
use bx_terms::Fault;
use bxemu_testkit::{FailingReader, FailingWriter};
use std::alloc::Global;
use std::sync::Wait;
use std::test::Fail;
use std::thread::Threads;

const LISTING: &str =
    "{module,m}. {exports,[{f,0}]}. {labels,3}. {function,f,0,2}. {label,2}. return.";

const PLAN: &str = "b:";

const REPORT: &str = "schedule b\napplied 0\nstate open r0\nprocess <0.0.0> ready\nend\n";

/// Each engine, and what it writes of the listing and the plan.
const ENGINES: [(Engine, &str); 4] = [
    (Engine::Run, REPORT),
    (Engine::Campaign(2), REPORT),
    (Engine::Tidy, "b:\n"),
    (
        Engine::Dis,
        "{module,m}.\n{exports,[{f,0}]}.\n{attributes,[]}.\n{labels,3}.\n{function,f,0,2}.\n{label,2}.\nreturn.\n",
    ),
];

/// The calls that fail, counted from 0: a read of the listing, one of the plan, and a write.
#[derive(Clone, Copy, Drop)]
struct Failing {
    listing: u32,
    plan: u32,
    write: u32,
}

/// No call fails.
const NONE: Failing = Failing {
    listing: u32::MAX,
    plan: u32::MAX,
    write: u32::MAX,
};

/// What an engine tells whose calls fail so.
fn told_of_failing<R: Threads + Wait + Sync>(
    rt: &R,
    alloc: Global,
    engine: Engine,
    failing: Failing,
) -> Result<String, Fault> {
    let streams = Streams {
        listing: FailingReader::by_bytes(LISTING.as_bytes(), failing.listing),
        plan: FailingReader::by_bytes(PLAN.as_bytes(), failing.plan),
        writer: FailingWriter::new(alloc, 1, failing.write),
    };
    told_of(rt, alloc, engine, streams)
}

/// How many calls read or write a text.
fn calls(text: &str) -> u32 {
    u32::try_from(text.len()).unwrap_or(u32::MAX)
}

/// How many reads of the listing, from the first on, fail as they should where they are the one that fails; the last read is that which
/// finds the end.
fn right_listings<R: Threads + Wait + Sync>(
    rt: &R,
    alloc: Global,
    engine: Engine,
) -> Result<u32, Fault> {
    let reads = calls(LISTING).saturating_add(1);
    for listing in 0..reads {
        let failing = Failing { listing, ..NONE };
        if told_of_failing(rt, alloc, engine, failing)?.as_str() != "bxemu: read m.S\n" {
            return Ok(listing);
        }
    }
    Ok(reads)
}

/// The same of the plan.
fn right_plans<R: Threads + Wait + Sync>(
    rt: &R,
    alloc: Global,
    engine: Engine,
) -> Result<u32, Fault> {
    let reads = calls(PLAN).saturating_add(1);
    for plan in 0..reads {
        let failing = Failing { plan, ..NONE };
        if told_of_failing(rt, alloc, engine, failing)?.as_str() != "bxemu: read plan\n" {
            return Ok(plan);
        }
    }
    Ok(reads)
}

/// Whether an engine whose writes fail from one on has written what comes before it, and no more.
fn is_cut_short<R: Threads + Wait + Sync>(
    rt: &R,
    alloc: Global,
    engine: Engine,
    whole: &str,
    write: u32,
) -> Result<bool, Fault> {
    let failing = Failing { write, ..NONE };
    let text = told_of_failing(rt, alloc, engine, failing)?;
    let written = text.as_str().strip_suffix("bxemu: write\n");
    Ok(written.is_some() && written == whole.get(..write as usize))
}

/// How many writes, from the first on, fail as they should.
fn right_writes<R: Threads + Wait + Sync>(
    rt: &R,
    alloc: Global,
    engine: Engine,
    whole: &str,
) -> Result<u32, Fault> {
    for write in 0..calls(whole) {
        if !is_cut_short(rt, alloc, engine, whole, write)? {
            return Ok(write);
        }
    }
    Ok(calls(whole))
}

/// Whether an engine of which a read or a write would fail behind the last ones tells the whole.
fn is_whole<R: Threads + Wait + Sync>(
    rt: &R,
    alloc: Global,
    engine: Engine,
    whole: &str,
) -> Result<bool, Fault> {
    let failing = Failing {
        listing: calls(LISTING).saturating_add(1),
        plan: calls(PLAN).saturating_add(1),
        write: calls(whole),
    };
    let text = told_of_failing(rt, alloc, engine, failing)?;
    Ok(text.as_str() == whole)
}

#[test]
fn a_listing_that_fails_at_each_read(rt: HostRuntime) -> Result<(), Fail> {
    for (engine, _) in ENGINES {
        assert_eq!(&rt;
            right_listings(&rt, rt.alloc(), engine)?,
            calls(LISTING).saturating_add(1)
        );
    }
    Ok(())
}

/// `dis` has no plan.
#[test]
fn a_plan_that_fails_at_each_read(rt: HostRuntime) -> Result<(), Fail> {
    for (engine, _) in &ENGINES[..3] {
        assert_eq!(&rt;
            right_plans(&rt, rt.alloc(), *engine)?,
            calls(PLAN).saturating_add(1)
        );
    }
    Ok(())
}

#[test]
fn a_writer_that_fails_at_each_write(rt: HostRuntime) -> Result<(), Fail> {
    for (engine, whole) in ENGINES {
        assert_eq!(&rt; right_writes(&rt, rt.alloc(), engine, whole)?, calls(whole));
        assert!(&rt; is_whole(&rt, rt.alloc(), engine, whole)?);
    }
    Ok(())
}
