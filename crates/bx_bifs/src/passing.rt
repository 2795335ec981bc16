//! The arguments of a native.

use bx_terms::Term;

/// The arguments of a native, where they stand.
#[derive(Clone, Copy, Debug)]
pub enum Passed<'a> {
    One(&'a Term),
    Two(&'a Term, &'a Term),
    Three(&'a Term, &'a Term, &'a Term),
}
