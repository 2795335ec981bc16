//! The stack of a process.

ghost use Rattle.std.specs.Prelude.{◌≡◌, ◌≢◌, ◌↔◌, ◌++◌, ◌∷◌, [], ◌<◌, ◌≤◌, length, take, drop, reverse, replicate, slice_set, IfOk, IfSome, OnOk, OnErr, IsTrue, None, Some, Ok, Err, MatchOption, MatchResult, option_map};
ghost use Rattle.bx_cells.specs.StackRow.{frames_of, Fits, index_of, Catches};
ghost use Rattle.bx_cells.specs.Stack.{unwound, lowest_tag};
ghost use Rattle.bx_cells.specs.Weights.{stack_cells};
ghost use Rattle.bx_cells.specs.TopFrame.{y_cell, with_y, empty_frame, top_of, top_cells, trimmed};

use crate::deep_copies::deep_copy_cells;
use crate::values::Value;
use bx_share::{Same, same_rows};
use bx_terms::{Place, Trap, take_room};
use std::alloc::{AllocError, Global};
use std::marker::Model;

/// Where a frame's y registers begin in the row of all of them, and the address to return to that it saved.
#[derive(Clone, Copy, Debug)]
pub struct Head {
    pub(crate) first: usize,
    pub(crate) return_to: Option<Place>,
}

impl Same for Head {
    fn same(&self, other: &Head) -> bool {
        self.first == other.first && self.return_to.same(&other.return_to)
    }
}

/// A stack of frames. The y registers of all frames lie in one row, so that a frame takes memory only where the stack is
/// higher than it ever was.
///
/// Source: The BEAM Book, "The Stack".
#[derive(Debug, Drop)]
pub struct Frames {
    /// Those of the topmost frame are the last.
    cells: Vec<Option<Value>>,
    heads: Vec<Head>,
}

impl Model for Frames {
    ghost use Rattle.std.specs.Prelude.{List, reverse, length};
    ghost use Rattle.std.specs.Coded.{coded_list};
    ghost use Rattle.bx_cells.specs.StackFrame.{StackFrame, frame_code};
    ghost use Rattle.bx_cells.specs.StackRow.{frames_of, Fits};
    ghost use Rattle.bx_cells.specs.contracts.values.Value as held;
    ghost use Rattle.bx_terms.specs.contracts.places.Place as place;

    ghost Value = { List StackFrame };

    ghost coded = { coded_list (frame_code held.the_row.coded place.the_row.coded) };

    ghost view = { λ a. frames_of (reverse a.heads.items) a.cells.items };

    ghost invariant = { λ a. Fits (reverse a.heads.items) (length a.cells.items) };
}

impl Frames {
    /// An empty stack.
    pub fn new(alloc: Global) -> Frames
        ensures { result ≡ [] }
    {
        Frames {
            cells: Vec::new(alloc),
            heads: Vec::new(alloc),
        }
    }

    /// Puts a frame of `size` y registers that hold nothing on top. Where memory ran out nothing has changed.
    #[inline(always)]
    #[tactic(auto, using(crate::proofs::StackRows::pushed))]
    pub fn push(&mut self, size: usize, return_to: Option<Place>) -> Result<(), AllocError>
        ensures ok { OnOk result (self.new ≡ empty_frame size return_to ∷ self.old) }
        ensures err { OnErr result (self.new ≡ self.old) }
    {
        let first = self.cells.len();
        lengthen(&mut self.cells, size)?;
        if let Err(_) = self.heads.push(Head { first, return_to }) {
            self.cells.truncate(first);
            return Err(AllocError);
        }
        Ok(())
    }

    /// How many y registers the topmost frame has, and the address to return to that it saved; `None` where there is no frame.
    #[inline(always)]
    #[tactic(auto, using(crate::proofs::Stacks::reverse_last))]
    pub fn top(&self) -> Option<(usize, Option<Place>)>
        ensures { result ≡ top_of self.now }
    {
        let count = self.heads.len();
        if count == 0 {
            return None;
        }
        let head = self.heads[count - 1];
        Some((self.cells.len() - head.first, head.return_to))
    }

    /// What the y registers of the topmost frame hold, by their numbers from 0 on; none where there is no frame.
    #[tactic(auto, using(crate::proofs::Stacks::reverse_last))]
    pub fn top_cells(&self) -> &[Option<Value>]
        ensures { result.now ≡ top_cells self.now }
    {
        let count = self.heads.len();
        if count == 0 {
            return &[];
        }
        &self.cells[self.heads[count - 1].first..]
    }

    /// How much the stack holds: one for each frame and for each y register.
    #[tactic(auto, using(crate::proofs::StackRows::cells_of))]
    pub fn cells(&self) -> usize
        ensures { result ≡ stack_cells self.now }
    {
        self.heads.len() + self.cells.len()
    }

    /// Takes the topmost frame away, where there is one.
    #[inline(always)]
    pub fn pop(&mut self)
        ensures { self.new ≡ drop 1 self.old }
    {
        if let Some(head) = self.heads.pop() {
            self.cells.truncate(head.first);
        }
    }

    /// Takes the lowest `count` registers of the topmost frame away: the one of the number `count` is y0 then. Of a frame
    /// of fewer registers none is left.
    pub fn trim(&mut self, count: usize)
        ensures { self.new ≡ trimmed count self.old }
    {
        let frames = self.heads.len();
        if frames == 0 {
            return;
        }
        let first = self.heads[frames - 1].first;
        let gone = count.min(self.cells.len() - first);
        self.cells.drain(first..first + gone);
    }

    /// What the y register of this number holds, where it holds something. `NoFrame`: there is no frame; `FrameSize`: the
    /// topmost frame has no such register.
    #[inline(always)]
    pub fn get(&self, number: u16) -> Result<Option<&Value>, Trap>
        ensures { MatchResult result (λ cell. y_cell number self.now ≡ Ok (option_map (λ v. v.now) cell)) (λ trap. y_cell number self.now ≡ Err trap) }
    {
        let at = index_in(&self.heads, self.cells.len(), number)?;
        Ok(self.cells[at].as_ref())
    }

    /// Puts `value` into the y register of this number. `NoFrame`: there is no frame; `FrameSize`: the topmost frame has no
    /// such register. Then nothing has changed, and the value is handed back.
    #[inline(always)]
    #[tactic(auto, using(crate::proofs::StackRows::set_row, crate::proofs::StackRows::set_refused))]
    pub fn set(&mut self, number: u16, value: Value) -> Result<(), (Trap, Value)>
        ensures { MatchResult result (λ done. with_y number value self.old ≡ Ok self.new) (λ refused. (with_y number value self.old ≡ Err refused.0) × (refused.1 ≡ value) × (self.new ≡ self.old)) }
    {
        match index_in(&self.heads, self.cells.len(), number) {
            Ok(at) => {
                put(&mut self.cells, at, value);
                Ok(())
            }
            Err(trap) => Err((trap, value)),
        }
    }

    /// Where a fault is caught: how many frames stand above the topmost one that holds a catch tag, and the address of that
    /// frame's lowest tag.
    pub fn handler(&self) -> Option<(usize, Place)>
        ensures { Catches self.now result }
    {
        catcher(&self.heads, &self.cells)
    }

    /// Where a fault is caught in a stack without its topmost frame, which is counted among those above.
    pub fn handler_below(&self) -> Option<(usize, Place)>
        ensures { MatchOption result (unwound (drop 1 self.now) ≡ None) (λ h. unwound (drop 1 self.now) ≡ Some (h.1, drop h.0 self.now)) }
    {
        let count = self.heads.len();
        if count == 0 {
            return None;
        }
        let first = self.heads[count - 1].first;
        let (above, place) = catcher(&self.heads[..count - 1], &self.cells[..first])?;
        Some((above + 1, place))
    }

    /// Takes so many frames away from the top, or all where there are fewer.
    pub fn cut(&mut self, above: usize)
        ensures { self.new ≡ drop above self.old }
    {
        let count = self.heads.len();
        if above == 0 || count == 0 {
            return;
        }
        let kept = count.saturating_sub(above);
        let first = self.heads[kept].first;
        self.cells.truncate(first);
        self.heads.truncate(kept);
    }

    /// Whether both have the same frames.
    #[tactic(auto, using(crate::proofs::StackRows::same_frames))]
    pub fn same(&self, other: &Frames) -> bool
        ensures { IsTrue result ↔ (self.now ≡ other.now) }
    {
        same_rows(&self.heads, &other.heads) && same_rows(&self.cells, &other.cells)
    }

    /// The same stack. Terms are shared. Memory is taken only where there is a frame.
    pub fn copy(&self, alloc: Global) -> Result<Frames, AllocError>
        ensures copied { IfOk result (λ f. f ≡ self.now) }
        ensures memory { OnErr result (self.now ≢ []) }
    {
        let none = Frames::new(alloc);
        if self.same(&none) {
            return Ok(none);
        }
        let cells = cloned_cells(&self.cells)?;
        let heads = cloned_heads(&self.heads)?;
        Ok(Frames { cells, heads })
    }

    /// A deep copy. It takes one of the room for each frame and for each register, and what their terms take, and is out of
    /// memory past it.
    pub fn deep_copy(&self, alloc: Global, room: &mut usize) -> Result<Frames, AllocError>
        ensures { IfOk result (λ f. f ≡ self.now) }
    {
        take_room(room, self.heads.len())?;
        let cells = deep_copy_cells(alloc, room, &self.cells)?;
        let heads = cloned_heads(&self.heads)?;
        Ok(Frames { cells, heads })
    }
}

/// Where a y register of the topmost frame lies in the row of all, which has that many.
#[inline(always)]
#[tactic(auto, using(crate::proofs::Stacks::reverse_last))]
fn index_in(heads: &[Head], cells: usize, number: u16) -> Result<usize, Trap>
    requires { Fits (reverse heads.now) cells }
    ensures { result ≡ index_of (reverse heads.now) cells number }
{
    let count = heads.len();
    if count == 0 {
        return Err(Trap::NoFrame);
    }
    let first = heads[count - 1].first;
    if number as usize >= cells - first {
        return Err(Trap::FrameSize);
    }
    Ok(first + number as usize)
}

/// Adds registers that hold nothing. Where memory ran out nothing has changed.
#[inline(always)]
#[tactic(auto, using(std::proofs::lemmas::Grind::replicate_next))]
fn lengthen(cells: &mut Vec<Option<Value>>, count: usize) -> Result<(), AllocError>
    ensures ok { OnOk result (cells.new.items ≡ cells.old.items ++ replicate count None) }
    ensures err { OnErr result (cells.new.items ≡ cells.old.items) }
{
    let before = cells.len();
    for _next in 0..count {
        if let Err(_) = cells.push(None) {
            cells.truncate(before);
            return Err(AllocError);
        }
    }
    Ok(())
}

/// Writes into a register that the row has.
#[inline(always)]
fn put(cells: &mut Vec<Option<Value>>, at: usize, value: Value)
    requires { at < length cells.old.items }
    ensures { cells.new.items ≡ slice_set cells.old.items at (Some value) }
{
    cells[at] = Some(value);
}

fn cloned_cells(cells: &Vec<Option<Value>>) -> Result<Vec<Option<Value>>, AllocError>
    ensures { IfOk result (λ v. v.items ≡ cells.now.items) }
{
    cells.clone()
}

fn cloned_heads(heads: &Vec<Head>) -> Result<Vec<Head>, AllocError>
    ensures { IfOk result (λ v. v.items ≡ heads.now.items) }
{
    heads.clone()
}

/// Where a fault is caught: how many frames stand above, and the address of the lowest tag.
fn catcher(heads: &[Head], cells: &[Option<Value>]) -> Option<(usize, Place)>
    requires { Fits (reverse heads.now) (length cells.now) }
    ensures found { Catches (frames_of (reverse heads.now) cells.now) result }
    ensures within { IfSome result (λ h. h.0 < length heads.now) }
{
    let mut end = cells.len();
    for above in 0..heads.len() {
        let first = heads[heads.len() - 1 - above].first;
        if let Some(place) = lowest_between(cells, first, end) {
            return Some((above, place));
        }
        end = first;
    }
    None
}

/// The address of the lowest tag of a frame, by where its registers begin and end.
fn lowest_between(cells: &[Option<Value>], first: usize, end: usize) -> Option<Place>
    requires begins { first ≤ end }
    requires ends { end ≤ length cells.now }
    ensures { result ≡ lowest_tag (drop first (take end cells.now)) }
{
    lowest_tag(&cells[..end][first..])
}

#[tactic(auto, using(crate::proofs::Stacks::lowest_from))]
fn lowest_tag(cells: &[Option<Value>]) -> Option<Place>
    ensures { result ≡ lowest_tag cells.now }
{
    for cell in cells {
        if let Some(Value::Tag(place)) = cell {
            return Some(*place);
        }
    }
    None
}
