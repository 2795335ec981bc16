//! A process of a world, for those who look at it.

use bx_proc::Proc;
use bx_terms::Term;

/// A process, or of one that has ended the reason.
#[derive(Clone, Copy)]
pub enum Shown<'a> {
    Live(&'a Proc),
    Exited(&'a Term),
}
