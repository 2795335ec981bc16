//! Stretches of equal choices in a row.

ghost use Rattle.std.specs.Prelude.{◌≡◌, ◌+◌, ◌-◌, ◌^◌, ◌<◌, ◌≤◌, ◌++◌, ◌∷◌, [], ℕ, length, replicate, slice_get, take, IfOk, OnOk, OnErr};
ghost use Rattle.std.specs.List.{swap};
ghost use Rattle.std.specs.Vec.{vec_capacity};
ghost use Rattle.bx_plan.specs.Stretches.{behind, choices_from, made_before, AreStretches, IsOverBy};

use bx_share::Same;
use bx_world::Choice;
use std::alloc::AllocError;

/// A choice that is made in a row.
#[derive(Clone, Copy, Debug, PartialEq, Eq)]
pub(crate) struct Stretch {
    pub(super) choice: Choice,
    /// How many choices have been made where it is over.
    pub(super) past: usize,
}

impl Same for Stretch {
    fn same(&self, other: &Stretch) -> bool {
        self.past == other.past && self.choice.same(&other.choice)
    }
}

/// How many choices they make.
pub(super) fn made(stretches: &[Stretch]) -> usize
    requires { AreStretches 0 stretches.now }
    ensures { result ≡ length (choices_from 0 stretches.now) }
{
    match stretches.last() {
        Some(stretch) => stretch.past,
        None => 0,
    }
}

/// How many of them are over at a position, found by halving.
pub(super) fn over_by(stretches: &[Stretch], position: usize) -> usize
    requires { AreStretches 0 stretches.now }
    ensures { IsOverBy stretches.now position result }
{
    stretches.partition_point(|stretch| stretch.past <= position)
}

/// Those that are not over at a position on the first of them.
pub(super) fn behind(stretches: &[Stretch], position: usize) -> &[Stretch]
    requires { 0 < length stretches.now }
    ensures { result.now ≡ behind position stretches.now }
{
    if stretches[0].past <= position {
        &stretches[1..]
    } else {
        stretches
    }
}

/// Adds a stretch: the last one is longer, where it is of the same choice.
#[inline(always)]
pub(super) fn join(stretches: &mut Vec<Stretch>, stretch: Stretch) -> Result<(), AllocError>
    requires rising { AreStretches 0 stretches.old.items }
    requires some { length (choices_from 0 stretches.old.items) < stretch.past }
    ensures rising { OnOk result (AreStretches 0 stretches.new.items) }
    ensures longer { OnOk result ((times : ℕ) → length (choices_from 0 stretches.old.items) + times ≡ stretch.past →
        choices_from 0 stretches.new.items ≡ choices_from 0 stretches.old.items ++ replicate times stretch.choice) }
    ensures err { OnErr result (stretches.new.items ≡ stretches.old.items) }
{
    let count = stretches.len();
    if count > 0 && stretches[count - 1].choice.same(&stretch.choice) {
        stretches[count - 1] = stretch;
        return Ok(());
    }
    if count < stretches.capacity() {
        stretches.push_reserved(stretch);
        return Ok(());
    }
    push_grown(stretches, stretch)?;
    Ok(())
}

/// Adds a stretch where there is no room left. Apart, since `join` is called for each entry that is read.
#[cold]
#[inline(never)]
fn push_grown(stretches: &mut Vec<Stretch>, stretch: Stretch) -> Result<(), AllocError>
    ensures ok { OnOk result (stretches.new.items ≡ stretches.old.items ++ stretch ∷ []) }
    ensures err { OnErr result (stretches.new.items ≡ stretches.old.items) }
{
    stretches.push(stretch)?;
    Ok(())
}

/// Leaves the first so many choices.
pub(super) fn cut(stretches: &mut Vec<Stretch>, count: usize)
    requires { AreStretches 0 stretches.old.items }
    ensures rising { AreStretches 0 stretches.new.items }
    ensures choices { choices_from 0 stretches.new.items ≡ take count (choices_from 0 stretches.old.items) }
    ensures fewer { length stretches.new.items ≤ length stretches.old.items }
    ensures room { vec_capacity stretches.new ≡ vec_capacity stretches.old }
{
    if count >= made(stretches) {
        return;
    }
    if count == 0 {
        stretches.clear();
        return;
    }
    let last = over_by(stretches, count - 1);
    let choice = stretches[last].choice;
    let past = count;
    stretches.truncate(last);
    stretches.push_reserved(Stretch { choice, past });
}

/// Puts stretches behind so many choices, for which there is room.
pub(super) fn chain(stretches: &mut Vec<Stretch>, count: usize, behind: &[Stretch])
    requires rising { AreStretches 0 stretches.old.items }
    requires count { count ≡ length (choices_from 0 stretches.old.items) }
    requires behind { AreStretches 0 behind.now }
    requires room { length stretches.old.items + length behind.now ≤ vec_capacity stretches.old }
    requires few { count + length (choices_from 0 behind.now) < 2 ^ 64 }
    ensures rising { AreStretches 0 stretches.new.items }
    ensures choices { choices_from 0 stretches.new.items ≡ choices_from 0 stretches.old.items ++ choices_from 0 behind.now }
{
    for stretch in behind {
        stretches.push_reserved(Stretch {
            choice: stretch.choice,
            past: count + stretch.past,
        });
    }
}

/// Joins the stretch of that number and the one before it, where both are of one choice.
pub(super) fn merge(stretches: &mut Vec<Stretch>, at: usize)
    requires { AreStretches 0 stretches.old.items }
    ensures rising { AreStretches 0 stretches.new.items }
    ensures choices { choices_from 0 stretches.new.items ≡ choices_from 0 stretches.old.items }
{
    if at > 0 && at < stretches.len() && stretches[at - 1].choice.same(&stretches[at].choice) {
        stretches.remove(at - 1);
    }
}

/// Lets the stretch of that number be over at a position on it. It takes memory where it is over later.
pub(super) fn part_at(
    stretches: &mut Vec<Stretch>,
    at: usize,
    position: usize,
) -> Result<(), AllocError>
    requires rising { AreStretches 0 stretches.old.items }
    requires begin { made_before at stretches.old.items < position }
    requires end { position ≤ made_before (at + 1) stretches.old.items }
    ensures rising { AreStretches 0 stretches.new.items }
    ensures choices { choices_from 0 stretches.new.items ≡ choices_from 0 stretches.old.items }
    ensures front { take at stretches.new.items ≡ take at stretches.old.items }
    ensures over { OnOk result (made_before (at + 1) stretches.new.items ≡ position) }
    ensures err { OnErr result (slice_get (choices_from 0 stretches.old.items) (position - 1) ≡ slice_get (choices_from 0 stretches.old.items) position) }
{
    let mut stretch = stretches[at];
    if position < stretch.past {
        stretch.past = position;
        stretches.insert(at, stretch)?;
    }
    Ok(())
}

/// The number of the stretch that begins at a position. It takes memory where one is parted there.
pub(super) fn begin(stretches: &mut Vec<Stretch>, position: usize) -> Result<usize, AllocError>
    requires rising { AreStretches 0 stretches.old.items }
    requires within { position < length (choices_from 0 stretches.old.items) }
    ensures rising { AreStretches 0 stretches.new.items }
    ensures choices { choices_from 0 stretches.new.items ≡ choices_from 0 stretches.old.items }
    ensures begin { IfOk result (λ at. made_before at stretches.new.items ≡ position) }
    ensures some { OnErr result (0 < position) }
    ensures err { OnErr result (slice_get (choices_from 0 stretches.old.items) (position - 1) ≡ slice_get (choices_from 0 stretches.old.items) position) }
{
    let at = over_by(stretches, position);
    if made(&stretches[..at]) == position {
        return Ok(at);
    }
    part_at(stretches, at, position)?;
    Ok(at + 1)
}

/// Exchanges the choice of the stretch of that number and of the one behind it, which make one choice each.
pub(super) fn exchange(stretches: &mut Vec<Stretch>, at: usize)
    requires rising { AreStretches 0 stretches.old.items }
    requires first { made_before (at + 1) stretches.old.items ≡ made_before at stretches.old.items + 1 }
    requires second { made_before (at + 2) stretches.old.items ≡ made_before at stretches.old.items + 2 }
    ensures rising { AreStretches 0 stretches.new.items }
    ensures choices { choices_from 0 stretches.new.items ≡
        swap (choices_from 0 stretches.old.items) (made_before at stretches.old.items) (made_before at stretches.old.items + 1) }
{
    let first = stretches[at].choice;
    stretches[at].choice = stretches[at + 1].choice;
    stretches[at + 1].choice = first;
}
