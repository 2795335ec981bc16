//! Campaigns: a book served by threads.

ghost use Rattle.std.specs.Prelude.{⊤, ◌≡◌, ◌<◌, ◌≤◌, IsOk, IsSome};
ghost use Rattle.bx_terms.specs.Outcomes.{Gives};
ghost use Rattle.bx_load.specs.Image.{export};
ghost use Rattle.bx_world.specs.World.{started};
ghost use Rattle.bx_plan.specs.Planned.{schedules};
ghost use Rattle.bx_board.specs.Reported.{report_by, report_from};

use crate::boards::{Board, Campaign, Gate};
use crate::books::Book;
use crate::reports::Report;
use crate::walks::report_alone;
use bx_load::Image;
use bx_plan::Plan;
use bx_terms::{AtomId, Fault};
use std::alloc::Global;
use std::marker::Brand;
use std::sync::Wait;
use std::thread;
use std::thread::Threads;

/// How many workers a campaign may have at most.
const MOST_WORKERS: u32 = 64;

/// Serves a board by so many workers, each in a thread where one can be made; worker 0 in the caller's. False where
/// one of them ran out of memory.
fn serve_all<J: Campaign + Send + Sync, R: Threads + Wait + Sync, G: Gate + Sync>(
    rt: &R,
    alloc: Global,
    board: &Board<'_, J>,
    workers: usize,
    gate: &G,
) -> bool {
    let last = workers.saturating_sub(1);
    let ended = thread::map_indices(
        rt,
        alloc,
        workers,
        &|number| board
            .serve(rt, alloc, last.saturating_sub(number), gate)
            .is_ok(),
    );
    match ended {
        Ok(ended) => ended.iter().all(|well| *well),
        Err(_) => false,
    }
}

/// A book that so many workers have served, and whether all of them had the memory that they asked for.
fn served<'a, J: Campaign + Send + Sync, R: Threads + Wait + Sync, G: Gate + Sync>(
    rt: &R,
    alloc: Global,
    book: Book<'a>,
    workers: usize,
    gate: &G,
) -> (bool, Book<'a>)
    requires { book.job ≡ J.job }
    ensures { result.1.job ≡ J.job }
{
    let board = Board::<J>::new(book);
    let well = serve_all(rt, alloc, &board, workers, gate);
    (well, board.close())
}

/// The report of a campaign whose threads have ended: the chains that are left are run on the book, or all of them on a new
/// one where it was stopped.
fn settle(
    alloc: Global,
    mut book: Book<'_>,
    image: &Image,
    start: (AtomId, AtomId),
    plan: &Plan,
) -> Result<Report, Fault>
    requires exported { IsOk (started image.now start.0 start.1) }
    requires image { book.job.image ≡ image.now }
    requires start { book.job.start ≡ start }
    requires plan { book.job.plan ≡ plan.now }
    ensures { Gives ⊤ (λ report. report) result (report_from image.now start (schedules plan.now)) }
{
    if book.is_stopped() {
        return report_alone(alloc, image, start.0, start.1, plan);
    }
    book.take_back_all();
    book.finish_alone(alloc)
}

/// The report of the plan's schedules, each as if it were run alone from the start, by 1 to 64 workers that share the chains
/// of the plan's tree. The caller's thread is worker 0; a thread that cannot be started is done without. One worker alone leases
/// nothing, and the gate is told nothing.
///
/// `Workers` exactly where they are not 1 to 64; else `NoEntry` exactly where the module does not export that function of no
/// arguments. `Memory` where it ran out for a worker and chains are left, or for the report, and only where neither of these
/// faults is. The promise holds if the call returns, as it waits for its threads.
pub fn campaign<R: Threads + Wait + Sync, G: Gate + Sync>(
    rt: &R,
    alloc: Global,
    image: &Image,
    module: AtomId,
    function: AtomId,
    plan: &Plan,
    workers: u32,
    gate: &G,
) -> Result<Report, Fault>
    ensures { Gives ((0 < workers) × ((workers ≤ 64) × IsSome (export image.now «module» function 0))) (λ report. report) result
        (report_by workers image.now («module», function) (schedules plan.now)) }
{
    if workers == 0 || workers > MOST_WORKERS {
        return Err(Fault::Workers);
    }
    if workers == 1 {
        return report_alone(alloc, image, module, function, plan);
    }
    let book = Book::new(alloc, image, module, function, plan)?;
    let counts = book.counts();
    gate.begun(counts.unborn.saturating_add(counts.free));
    let (well, book) = served::<Brand, R, G>(rt, alloc, book, workers as usize, gate);
    gate.ended();
    if !well && !book.is_done() {
        return Err(Fault::Memory);
    }
    settle(alloc, book, image, (module, function), plan)
}
