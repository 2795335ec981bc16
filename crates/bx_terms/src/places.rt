//! Where a process stands.

use bx_share::Same;

/// An address in loaded code: the number of its module, in the order of loading, and the number of an item of that
/// module, both from 0.
#[derive(Clone, Copy, Debug, PartialEq, Eq)]
pub struct Place {
    pub module: u32,
    pub item: u32,
}

impl Same for Place {
    fn same(&self, other: &Place) -> bool {
        *self == *other
    }
}
