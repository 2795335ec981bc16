//! Deep copies of terms: threads that copy from the one and from the other never wait for one count.

ghost use Rattle.std.specs.Prelude.{◌≡◌, ◌+◌, ◌<◌, IfOk, OnErr, OnOk};
ghost use Rattle.bx_terms.specs.Tree.{cons, tuple, listed};

use crate::terms::{Term, View};
use std::alloc::{AllocError, Global};

/// Takes so much of the room that is left, as where memory runs out once there is less.
pub fn take_room(room: &mut usize, count: usize) -> Result<(), AllocError>
    ensures taken { OnOk result (room.new + count ≡ room.old) }
    ensures short { OnErr result (room.old < count) }
    ensures kept { OnErr result (room.new ≡ room.old) }
{
    let Some(left) = room.checked_sub(count) else {
        return Err(AllocError);
    };
    *room = left;
    Ok(())
}

impl Term {
    /// A deep copy: an equal term that shares nothing counted with this one.
    ///
    /// It takes one of the room for each list cell and each element of a tuple, and is out of memory past it.
    #[cycle(deep_copies)]
    pub fn deep_copy(&self, alloc: Global, room: &mut usize) -> Result<Term, AllocError>
        ensures { IfOk result (λ t. t ≡ self.now) }
    {
        match self.view() {
            View::Tuple(elements) => deep_copy_tuple(alloc, room, elements),
            View::Cons(head, tail) => deep_copy_cell(alloc, room, head, tail),
            _ => self.copy(alloc),
        }
    }

    /// Puts a deep copy in this one's place; where room or memory run out, this one stays.
    pub fn unshare(&mut self, alloc: Global, room: &mut usize) -> Result<(), AllocError>
        ensures { self.new ≡ self.old }
    {
        *self = self.deep_copy(alloc, room)?;
        Ok(())
    }
}

#[cycle(deep_copies)]
fn deep_copy_cell(
    alloc: Global,
    room: &mut usize,
    head: &Term,
    tail: &Term,
) -> Result<Term, AllocError>
    ensures { IfOk result (λ t. t ≡ cons head.now tail.now) }
{
    take_room(room, 1)?;
    let head = head.deep_copy(alloc, room)?;
    let tail = tail.deep_copy(alloc, room)?;
    match Term::cons(alloc, head, tail) {
        Ok(cell) => Ok(cell),
        Err(_) => Err(AllocError),
    }
}

#[cycle(deep_copies)]
fn deep_copy_tuple(alloc: Global, room: &mut usize, elements: &[Term]) -> Result<Term, AllocError>
    ensures { IfOk result (λ t. t ≡ tuple (listed elements.now)) }
{
    let elements = deep_copy_terms(alloc, room, elements)?;
    match Term::tuple(alloc, elements) {
        Ok(tuple) => Ok(tuple),
        Err(_) => Err(AllocError),
    }
}

/// Deep copies of these terms; it takes one more of the room for each.
#[cycle(deep_copies)]
#[tactic(auto, using(std::proofs::lemmas::List::take_more, crate::proofs::Rows::nodes_at))]
pub fn deep_copy_terms(
    alloc: Global,
    room: &mut usize,
    terms: &[Term],
) -> Result<Vec<Term>, AllocError>
    ensures { IfOk result (λ row. row.items ≡ terms.now) }
{
    take_room(room, terms.len())?;
    let mut row = Vec::with_capacity(alloc, terms.len())?;
    for at in 0..terms.len() {
        let term = terms[at].deep_copy(alloc, room)?;
        row.push(term)?;
    }
    Ok(row)
}
