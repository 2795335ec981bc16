//! Signals.

ghost use Rattle.std.specs.Prelude.{◌≡◌};

use bx_share::Same;
use bx_terms::Term;
use std::alloc::{AllocError, Global};

/// What goes from one process to another.
///
/// Source: Erlang Reference Manual, "Processes", "Signals".
#[derive(Debug, Drop)]
pub enum Signal {
    Message(Term),
    /// The sender has linked itself to the receiver.
    Link,
    /// The sender has taken its link to the receiver away.
    Unlink,
    /// The sender, to which the receiver is linked, has ended with this reason.
    LinkExit(Term),
    /// The sender asks the receiver, by `exit/2`, to end with this reason.
    Exit(Term),
}

impl Signal {
    /// Has the term share nothing counted with others; where room or memory run out, it stays as it was.
    pub(crate) fn unshare(&mut self, alloc: Global, room: &mut usize) -> Result<(), AllocError>
        ensures { self.new ≡ self.old }
    {
        match self {
            Signal::Message(term) => term.unshare(alloc, room),
            Signal::LinkExit(reason) => reason.unshare(alloc, room),
            Signal::Exit(reason) => reason.unshare(alloc, room),
            Signal::Link => Ok(()),
            Signal::Unlink => Ok(()),
        }
    }
}

impl Clone for Signal {
    ghost use Rattle.std.specs.Prelude.{◌≡◌};

    ghost is_clone = { λ s t. t ≡ s };

    fn clone(&self) -> Result<Signal, AllocError> {
        Ok(match self {
            Signal::Message(term) => Signal::Message(term.clone()?),
            Signal::Link => Signal::Link,
            Signal::Unlink => Signal::Unlink,
            Signal::LinkExit(reason) => Signal::LinkExit(reason.clone()?),
            Signal::Exit(reason) => Signal::Exit(reason.clone()?),
        })
    }
}

impl Same for Signal {
    fn same(&self, other: &Signal) -> bool {
        match (self, other) {
            (Signal::Message(term), Signal::Message(other)) => term.same(other),
            (Signal::Link, Signal::Link) => true,
            (Signal::Unlink, Signal::Unlink) => true,
            (Signal::LinkExit(reason), Signal::LinkExit(other)) => reason.same(other),
            (Signal::Exit(reason), Signal::Exit(other)) => reason.same(other),
            _ => false,
        }
    }
}
