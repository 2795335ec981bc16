//! Who acts.

use bx_load::Image;
use std::alloc::Global;

/// The process that acts, the code that it runs, and the memory that it takes.
#[derive(Clone, Copy)]
pub(crate) struct Actor<'a> {
    pub alloc: Global,
    pub image: &'a Image,
    pub pid: u32,
}
