//! Why a measure was not taken.

use bx_terms::Fault;
use std::alloc::{AllocError, AllocFailed};
use std::num::ParseIntError;
use std::{fmt, io};

/// Why a measure was not taken.
#[derive(Debug, Drop)]
pub enum Trouble {
    /// The arguments ask for no measure.
    Usage,
    /// The arguments, a file or standard error failed.
    Machine,
    /// A call did what it must not do.
    Wrong,
    /// The measured call refused what it should take, or memory ran out.
    Refused(Fault),
}

impl fmt::Display for Trouble {
    fn fmt<W: fmt::Write>(&self, f: &mut fmt::Formatter<W>) -> fmt::Result {
        match self {
            Trouble::Usage => f.write_str("a measure, a number and, for some, a name"),
            Trouble::Machine => f.write_str("arguments, a file or standard error"),
            Trouble::Wrong => f.write_str("a call did what it must not do"),
            Trouble::Refused(fault) => write!(f, "{fault}"),
        }
    }
}

impl From<AllocError> for Trouble {
    fn from(_: AllocError) -> Trouble {
        Trouble::Refused(Fault::Memory)
    }
}

impl<T: Drop> From<AllocFailed<T>> for Trouble {
    fn from(_: AllocFailed<T>) -> Trouble {
        Trouble::Refused(Fault::Memory)
    }
}

impl From<ParseIntError> for Trouble {
    fn from(_: ParseIntError) -> Trouble {
        Trouble::Usage
    }
}

impl From<io::Error> for Trouble {
    fn from(_: io::Error) -> Trouble {
        Trouble::Machine
    }
}

impl From<Fault> for Trouble {
    fn from(fault: Fault) -> Trouble {
        Trouble::Refused(fault)
    }
}
