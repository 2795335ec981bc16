//! What the engines tell of texts: what they write, and behind it the line of the failure, where they fail.

use bx_engine::{Failure, campaign_text, dis_text, fault_line, run_text, tidy_text};
use bx_terms::Fault;
use bxemu_testkit::{FailingReader, FailingWriter, told};
use std::alloc::{AllocError, Global};
use std::sync::Wait;
use std::thread::Threads;

/// What is done over one listing `m.S` and a plan, or over the listing alone.
#[derive(Clone, Copy, Debug)]
pub enum Engine {
    Run,
    /// By so many workers.
    Campaign(u32),
    Tidy,
    Dis,
}

/// The streams of an engine.
#[derive(Drop)]
pub struct Streams<'a> {
    pub listing: FailingReader<'a>,
    pub plan: FailingReader<'a>,
    pub writer: FailingWriter,
}

impl<'a> Streams<'a> {
    /// Streams of which no call fails.
    pub fn new(alloc: Global, listing: &'a [u8], plan: &'a [u8]) -> Streams<'a> {
        Streams {
            listing: FailingReader::new(listing),
            plan: FailingReader::new(plan),
            writer: FailingWriter::new(alloc, usize::MAX, u32::MAX),
        }
    }
}

fn run<'a>(
    alloc: Global,
    listings: &mut [FailingReader<'a>],
    plan: &mut FailingReader<'a>,
    writer: &mut FailingWriter,
) -> Result<(), Failure> {
    run_text(alloc, listings, "m:f", plan, writer)
}

fn campaign<'a, R: Threads + Wait + Sync>(
    rt: &R,
    alloc: Global,
    listings: &mut [FailingReader<'a>],
    plan: &mut FailingReader<'a>,
    workers: u32,
    writer: &mut FailingWriter,
) -> Result<(), Failure> {
    campaign_text(rt, alloc, listings, "m:f", plan, workers, writer)
}

fn tidy<'a>(
    alloc: Global,
    listings: &mut [FailingReader<'a>],
    plan: &mut FailingReader<'a>,
    writer: &mut FailingWriter,
) -> Result<(), Failure> {
    tidy_text(alloc, listings, "m:f", plan, writer)
}

fn names(alloc: Global) -> Result<Vec<String>, AllocError> {
    let mut names = Vec::new(alloc);
    for name in ["m.S", "plan"] {
        names.push(String::from_str(alloc, name)?)?;
    }
    Ok(names)
}

/// Writes the line of a failure.
fn push_line(alloc: Global, failure: &Failure, written: &mut Vec<u8>) -> Result<(), AllocError> {
    let names = names(alloc)?;
    fault_line(failure, &names, written);
    Ok(())
}

/// What was written, and behind it the line of the failure, where there is one. Out of memory is handed on.
pub fn with_line(
    alloc: Global,
    ended: Result<(), Failure>,
    mut written: Vec<u8>,
) -> Result<String, Fault> {
    if let Err(failure) = ended {
        push_line(alloc, &failure, &mut written)?;
    }
    told(written)
}

/// What an engine tells.
pub fn told_of<R: Threads + Wait + Sync>(
    rt: &R,
    alloc: Global,
    engine: Engine,
    streams: Streams<'_>,
) -> Result<String, Fault> {
    let Streams {
        listing,
        mut plan,
        mut writer,
    } = streams;
    let mut listings = [listing];
    let ended = match engine {
        Engine::Run => run(alloc, &mut listings, &mut plan, &mut writer),
        Engine::Campaign(workers) => {
            campaign(rt, alloc, &mut listings, &mut plan, workers, &mut writer)
        }
        Engine::Tidy => tidy(alloc, &mut listings, &mut plan, &mut writer),
        Engine::Dis => dis_text(alloc, &mut listings[0], &mut writer),
    };
    with_line(alloc, ended, writer.written)
}

/// What a run over one listing tells.
pub fn told_of_run(alloc: Global, listing: &[u8], plan: &str) -> Result<String, Fault> {
    let Streams {
        listing,
        mut plan,
        mut writer,
    } = Streams::new(alloc, listing, plan.as_bytes());
    let ended = run(alloc, &mut [listing], &mut plan, &mut writer);
    with_line(alloc, ended, writer.written)
}

/// What a run over two listings tells.
pub fn told_of_two(alloc: Global, listings: [&str; 2], plan: &str) -> Result<String, Fault> {
    let mut listings = [
        FailingReader::new(listings[0].as_bytes()),
        FailingReader::new(listings[1].as_bytes()),
    ];
    let mut plan = FailingReader::new(plan.as_bytes());
    let mut writer = FailingWriter::new(alloc, usize::MAX, u32::MAX);
    let ended = run(alloc, &mut listings, &mut plan, &mut writer);
    with_line(alloc, ended, writer.written)
}
