//! Classes of faults and kinds of traps.

ghost use Rattle.std.specs.Prelude.{◌≡◌};
ghost use Rattle.bx_terms.specs.Kinds.{class_atom, trap_name};

use crate::atom_table::AtomId;
use crate::fixed;
use bx_share::Same;

/// The class of a fault, as `catch` and `try` tell them apart.
///
/// Source: Erlang Reference Manual, "Errors and Error Handling".
#[derive(Clone, Copy, Debug, PartialEq, Eq)]
pub enum Class {
    Throw,
    Error,
    Exit,
}

impl Class {
    /// The atom that stands for the class in Erlang terms: `throw`, `error` or `exit`.
    pub fn atom(self) -> AtomId
        ensures { result ≡ class_atom self }
    {
        match self {
            Class::Throw => fixed::THROW,
            Class::Error => fixed::ERROR,
            Class::Exit => fixed::EXIT,
        }
    }
}

impl Same for Class {
    fn same(&self, other: &Class) -> bool {
        *self == *other
    }
}

/// Why a run of an instruction has no meaning: the world halts, and nothing else changes.
///
/// Traps are this emulator's own: on a node such code is refused when it is loaded, or has no defined behaviour.
#[derive(Clone, Copy, Debug, PartialEq, Eq)]
pub enum Trap {
    /// A register that holds nothing was read.
    Unset,
    /// A catch tag or a trace stood where a term is wanted.
    NotATerm,
    /// A y register was named while the process has no frame.
    NoFrame,
    /// A y register past the frame's size, or a frame of another size than the instruction says.
    FrameSize,
    /// A register held no catch tag where one is wanted, or a fault is pending.
    NoTag,
    /// No fault is pending where one is wanted.
    NoPending,
    /// There is no instruction at the process's address.
    BadPlace,
    /// An integer left 64 bits.
    IntegerRange,
    /// A term is higher than 10,000.
    TermHeight,
    /// There is no current message.
    NoMessage,
    /// A term or trace of another shape than the instruction takes.
    WrongShape,
    /// The instruction is loaded and not run by this emulator.
    Unsupported,
}

impl Trap {
    /// The name of the kind, as reports print it.
    pub fn name(self) -> &'static str
        ensures { result.now ≡ trap_name self }
    {
        match self {
            Trap::Unset => "Unset",
            Trap::NotATerm => "NotATerm",
            Trap::NoFrame => "NoFrame",
            Trap::FrameSize => "FrameSize",
            Trap::NoTag => "NoTag",
            Trap::NoPending => "NoPending",
            Trap::BadPlace => "BadPlace",
            Trap::IntegerRange => "IntegerRange",
            Trap::TermHeight => "TermHeight",
            Trap::NoMessage => "NoMessage",
            Trap::WrongShape => "WrongShape",
            Trap::Unsupported => "Unsupported",
        }
    }
}

impl Same for Trap {
    fn same(&self, other: &Trap) -> bool {
        *self == *other
    }
}
