//! What the operands of instructions stand for, and what sets the instructions of a family apart.

use bx_terms::{AtomId, Term};

/// A register of code that was assembled: x0 to x1022, or y0 to y1022.
///
/// Source: The BEAM Book, "The Registers".
#[derive(Clone, Copy, Debug, PartialEq, Eq)]
pub enum Register {
    /// A register of the process.
    X(u16),
    /// A register of the top stack frame.
    Y(u16),
}

/// What an instruction reads: a register, or a value that stands in the instruction.
#[derive(Clone, Copy, Debug)]
pub enum Source<'a> {
    Register(Register),
    Integer(i64),
    Atom(AtomId),
    Nil,
    Literal(&'a Term),
}

/// What becomes of the caller's stack frame and of the address to return to.
#[derive(Clone, Copy, Debug, PartialEq, Eq)]
pub enum CallKind {
    /// The frame stays, and the callee returns behind the call.
    Plain,
    /// A frame of that many registers goes first, and the callee returns to where the caller would have.
    Last(u32),
    /// There is no frame, and the callee returns to where the caller would have.
    Only,
}

/// How two terms are compared. Terms without floats are equal exactly where they are exactly equal.
#[derive(Clone, Copy, Debug, PartialEq, Eq)]
pub enum Comparison {
    Less,
    NotLess,
    Equal,
    NotEqual,
}

/// What a term is asked to be.
#[derive(Clone, Copy, Debug, PartialEq, Eq)]
pub enum Kind {
    Integer,
    Float,
    Number,
    Atom,
    Pid,
    Reference,
    Port,
    Nil,
    Binary,
    List,
    NonemptyList,
    Tuple,
    Boolean,
}

/// What did not match a value.
#[derive(Clone, Copy, Debug, PartialEq, Eq)]
pub enum Mismatch {
    Badmatch,
    CaseClause,
    TryClause,
}

/// What a select compares with.
#[derive(Clone, Copy, Debug, PartialEq, Eq)]
pub enum Key {
    Atom(AtomId),
    Integer(i64),
    /// A tuple of so many elements.
    Size(u32),
}
