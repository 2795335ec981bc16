//! When code is the same.

ghost use Rattle.std.specs.Prelude.{◌≡◌, ◌↔◌, IsTrue, slice_get};
ghost use Rattle.bx_listing.specs.Code.{items};

use crate::unit::{Head, Unit};
use bx_share::{Same, same_rows};

/// Whether the items of one number are the same, or neither unit has one.
fn same_at(one: &Unit, other: &Unit, number: usize) -> bool
    ensures { IsTrue result ↔
        (slice_get (items one.now) number ≡ slice_get (items other.now) number) }
{
    match (one.item(number), other.item(number)) {
        (Some(item), Some(other)) => item.same(other),
        (None, None) => true,
        _ => false,
    }
}

#[tactic(auto, using(crate::proofs::SameCode::same_items_so_far, bx_share::specs::Rows::same_whole))]
fn same_items(one: &Unit, other: &Unit) -> bool
    ensures { IsTrue result ↔ (items one.now ≡ items other.now) }
{
    let count = one.item_count();
    if count != other.item_count() {
        return false;
    }
    for number in 0..count {
        if !same_at(one, other, number) {
            return false;
        }
    }
    true
}

impl Same for Head {
    fn same(&self, other: &Head) -> bool {
        *self == *other
    }
}

impl Same for Unit {
    /// Whether both hold the same code: the names, the exports, the functions and what their items spell.
    #[tactic(auto, using(crate::proofs::SameCode::same_code))]
    fn same(&self, other: &Unit) -> bool {
        self.name() == other.name()
            && same_rows(self.exports(), other.exports())
            && same_rows(self.functions(), other.functions())
            && same_items(self, other)
    }
}
