//! Ends that are kept on the way, so that few choices are made again.

ghost use Rattle.std.specs.Prelude.{◌≡◌, ◌+◌, ◌-◌, ◌<◌, ◌≤◌, ◌^◌, length, IfOk, OnErr, IsTrue, slice_index_or};
ghost use Rattle.bx_replay.specs.Courses.{Course};
ghost use Rattle.bx_replay.specs.Keeping.{AreKept, IsNearest, IsReached, Parts, SameCounts, Turns};

use crate::runs::{RcEnd, advance_all, copied};
use bx_load::Image;
use bx_plan::Schedule;
use std::alloc::{AllocError, Global};

/// How many choices lie between one that is kept and the next, at the least.
const LEAST: u64 = 64;

/// Where a prefix leads of which each choice was applied.
#[derive(Drop)]
pub(crate) struct Kept {
    pub(crate) end: RcEnd,
    /// By how many choices the next one is reached that is kept, counted as `end` counts.
    pub(crate) next: u64,
}

impl Kept {
    /// The next one is kept once as many choices have been applied as this world has cells. So what is kept stays
    /// within a constant of the choices and the largest world.
    pub(crate) fn new(end: RcEnd) -> Kept
        ensures { result.end ≡ end }
    {
        let distance = end.world.cells().max(LEAST);
        let next = end.applied.saturating_add(distance);
        Kept { end, next }
    }

    /// The same end.
    pub(crate) fn copy(&self, alloc: Global) -> Result<Kept, AllocError>
        ensures { IfOk result (λ copy. copy ≡ self.now) }
    {
        Ok(Kept {
            end: copied(alloc, &self.end)?,
            next: self.next,
        })
    }

    /// How many choices lead there.
    pub(crate) fn count(&self) -> u64
        ensures { result ≡ self.now.end.applied }
    {
        self.end.applied
    }

    /// Whether an end that so many choices lead to is to be kept behind this one.
    pub(crate) fn is_due(&self, applied: u64) -> bool
        ensures { IsTrue result → self.now.end.applied < applied }
    {
        applied >= self.next && applied > self.end.applied
    }

    /// By how many choices more, where so many lead, the next one is kept; one at least.
    pub(crate) fn room(&self, applied: u64) -> usize
        ensures { 0 < result }
    {
        self.next.saturating_sub(applied).max(1) as usize
    }
}

/// How many of them lie within so many choices, found by halving.
pub(crate) fn within(kept: &[Kept], applied: u64) -> usize
    ensures { Parts kept.now applied result }
{
    let mut low = 0;
    let mut high = kept.len();
    while low < high {
        let middle = low + (high - low) / 2;
        if kept[middle].count() <= applied {
            low = middle + 1;
        } else {
            high = middle;
        }
    }
    low
}

/// The last of the first `count` that are kept, or the start where that is none.
pub(crate) fn last_of<'a>(start: &'a Kept, kept: &'a [Kept], count: usize) -> &'a Kept
    requires { count ≤ length kept.now }
    ensures start { count ≡ 0 → result.now ≡ start.now }
    ensures kept { 0 < count → result.now ≡ slice_index_or kept.now (count - 1) result.now }
{
    if count == 0 {
        return start;
    }
    &kept[count - 1]
}

/// The last that is kept of which no more than `count` choices lead there from the start on, or the start where there is none.
pub(crate) fn nearest<'a>(start: &'a Kept, kept: &'a [Kept], count: usize) -> &'a Kept
    requires { start.now.end.applied + count < 2 ^ 64 }
    ensures { (course : Course) → course.start ≡ start.now.end → AreKept course kept.now
        → IsNearest course kept.now count result.now.end }
{
    let near = within(kept, start.count() + count as u64);
    last_of(start, kept, near)
}

/// Keeps an end, where it is far enough behind the last one.
pub(crate) fn keep_if_due(
    alloc: Global,
    start: &Kept,
    kept: &mut Vec<Kept>,
    end: &RcEnd,
) -> Result<(), AllocError>
    ensures kept { (course : Course) → course.start ≡ start.now.end → AreKept course kept.old.items
        → IsReached course end.now → AreKept course kept.new.items }
    ensures err { OnErr result (kept.new.items ≡ kept.old.items) }
{
    if !last_of(start, kept, kept.len()).is_due(end.applied) {
        return Ok(());
    }
    let here = Kept::new(copied(alloc, end)?);
    kept.push(here)?;
    Ok(())
}

/// What is kept on one run of these choices, up to the first that is not applied.
pub(crate) fn keep_all(
    alloc: Global,
    image: &Image,
    start: &Kept,
    choices: &Schedule,
) -> Result<Vec<Kept>, AllocError>
    requires { start.now.end.applied + length choices.now < 2 ^ 64 }
    ensures { IfOk result (λ kept. AreKept (record { image = image.now; start = start.now.end; choices = choices.now }) kept.items) }
{
    let mut kept = Vec::new(alloc);
    let mut end = copied(alloc, &start.end)?;
    let mut at = 0;
    while at < choices.len() {
        let room = last_of(start, &kept, kept.len()).room(end.applied);
        let past = at + room.min(choices.len() - at);
        advance_all(alloc, &mut end, image, choices.part(at, past))?;
        if end.applied < start.count() + past as u64 {
            return Ok(kept); // nothing changes any more
        }
        keep_if_due(alloc, start, &mut kept, &end)?;
        at = past;
    }
    Ok(kept)
}

/// Keeps an end in the place of the one that as many choices led to, where such a one is kept.
pub(crate) fn replace(kept: &mut Vec<Kept>, end: RcEnd)
    ensures kept { (old new : Course) → AreKept old kept.old.items → Turns old new end
        → AreKept new kept.new.items }
    ensures counts { SameCounts kept.old.items kept.new.items }
{
    let count = within(kept, end.applied);
    if count > 0 && kept[count - 1].count() == end.applied {
        let next = kept[count - 1].next;
        kept[count - 1] = Kept { end, next };
    }
}
