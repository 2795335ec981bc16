//! Deep copies of tables and items: threads that copy from the one and from the other never wait for one count.

ghost use Rattle.std.specs.Prelude.{◌≡◌, IfOk, map};
ghost use Rattle.bx_asm.specs.Operands.{Tables};
ghost use Rattle.bx_asm.specs.Spelling.{spelled_item};

use crate::lookup::Named;
use crate::operands::NumberedItem;
use bx_terms::{deep_copy_terms, take_room};
use smallvec::SmallVec;
use std::alloc::{AllocError, Global};

impl Named {
    /// The same tables, whose literals are cells of their own.
    pub(crate) fn deep_copy(&self, alloc: Global, room: &mut usize) -> Result<Named, AllocError>
        ensures literals { IfOk result (λ n. n.literals.items ≡ self.now.literals.items) }
        ensures imports { IfOk result (λ n. n.imports.keys ≡ self.now.imports.keys) }
    {
        let literals = deep_copy_terms(alloc, room, &self.literals)?;
        take_room(room, self.imports.len())?;
        let imports = self.imports.clone()?;
        Ok(Named { literals, imports })
    }
}

fn copy_item(
    alloc: Global,
    room: &mut usize,
    item: &NumberedItem,
) -> Result<NumberedItem, AllocError>
    ensures { IfOk result (λ copy. (t : Tables) → spelled_item t copy ≡ spelled_item t item.now) }
{
    take_room(room, item.operands.as_slice().len())?;
    Ok(NumberedItem {
        op: item.op,
        operands: SmallVec::from_slice(alloc, item.operands.as_slice())?,
    })
}

/// Items that spell what these do, by any tables.
#[tactic(auto, using(crate::proofs::SpelledAlike::spelled_more))]
pub(crate) fn copy_items(
    alloc: Global,
    room: &mut usize,
    items: &[NumberedItem],
) -> Result<Vec<NumberedItem>, AllocError>
    ensures { IfOk result (λ copies. (t : Tables) → map (spelled_item t) copies.items
        ≡ map (spelled_item t) items.now) }
{
    take_room(room, items.len())?;
    let mut copies = Vec::with_capacity(alloc, items.len())?;
    for at in 0..items.len() {
        let copy = copy_item(alloc, room, &items[at])?;
        copies.push(copy)?;
    }
    Ok(copies)
}
