//! Copy-on-write holders: many holders share one value, and one that is to change it gets a copy of its own first.
//! So a snapshot of a large value costs as much as one of a small value, and a change costs a copy only where the value is shared.
//! And what every value of the emulator can do: be copied, and be compared by content.
#![tactic(auto)]

ghost use Rattle.std.specs.Prelude.{◌≡◌, IfOk, IfErr};
ghost use Rattle.std.specs.Borrow.{sem};
ghost use Rattle.bx_share.specs.Loan.{LendsShown};

use std::alloc::{AllocError, AllocFailed, Global};

mod arc_hold;
mod list;
mod rc_hold;
mod same;

pub use arc_hold::ArcHold;
pub use list::List;
pub use rc_hold::RcHold;
pub use same::{Same, same_held, same_rows};

/// A value that can be copied where memory allows it. A copy equals its source.
pub trait Copied: Drop {
    /// A copy that shares nothing which a change of either could reach. `AllocError`: there was no memory for it.
    fn copy(&self, alloc: Global) -> Result<Self, AllocError>
        ensures { IfOk result (λ copy. copy ≡ self.now) };
}

/// A holder of a value that other holders may share. No call changes what another holder shows.
///
/// Of the value's type only `edit` asks more than that it can be dropped, so a holder for every type can copy its value nowhere else.
pub trait Hold<T: Drop>: Drop {
    // The value that the holder shows.
    ghost shown: { Self → T };

    /// The first holder of a value. `AllocFailed`: there was no memory for it, and the value comes back in the error.
    fn put(alloc: Global, value: T) -> Result<Self, AllocFailed<T>>
        ensures ok { IfOk result (λ holder. shown holder ≡ value) }
        ensures err { IfErr result (λ refused. refused.value ≡ value) };

    /// The value.
    fn see(&self) -> &T
        ensures { result.now ≡ shown self.now };

    /// One more holder of the same value, in a time that doesn't depend on the value.
    /// `AllocError`: no more holders can be counted, or there was no memory for the holder.
    fn share(&self, alloc: Global) -> Result<Self, AllocError>
        ensures { IfOk result (λ other. shown other ≡ shown self.now) };

    /// The value, to be written to: what is written shows here, and in no other holder.
    /// Where the value is shared, this holder gets a copy of its own first; where it isn't, no memory is taken.
    /// `AllocError`: there was no memory for the copy.
    fn edit(&mut self, alloc: Global) -> Result<&mut T, AllocError>
    where
        T: Copied,
        ensures* lends { sem 𝓛 (LendsShown Self.row T.row shown self.entry result) }
        ensures value { IfOk result (λ loan. loan.now ≡ shown self.old) };
}
