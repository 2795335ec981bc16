//! The ways of writing an instruction, and the sorts of its operands.

/// What stands as one operand.
#[derive(Clone, Copy, Debug, PartialEq, Eq)]
pub enum Sort {
    /// `S`: a register, or a value that stands in the instruction.
    Source,
    /// `V` of `select_val`: an atom or an integer.
    Value,
    /// `R` or `D`: a register.
    Register,
    /// `Y`: a register of the top stack frame.
    YRegister,
    /// `L`: a label to go to.
    Target,
    /// `F`: a label to go to, or `{f,0}` for none.
    Fail,
    /// `N` of `{label,N}`.
    Place,
    /// `N`: a plain number.
    Number,
    /// `A`: a number of arguments.
    Arity,
    /// `{atom,A}`.
    Atom,
    /// `E`: a function of any module.
    Callee,
    /// `B`: a BIF without arguments.
    Bif0,
    /// `B`: a BIF of one argument.
    Bif1,
    /// `B`: a BIF of two arguments.
    Bif2,
    /// `T` of `{line,T}`, which is ignored.
    Mark,
    /// `{KIND,N}` of `{alloc,[{KIND,N},..]}`: how much of a kind of heap is asked for.
    Amount,
}

/// What stands in one place of an instruction.
#[derive(Clone, Copy, Debug, PartialEq, Eq)]
pub enum Slot {
    One(Sort),
    /// `{list,[A,..]}`.
    Many(Sort),
    /// `{list,[A,B,..]}`.
    Pairs(Sort, Sort),
    /// `{f,0}`, which is no operand.
    NoLabel,
    /// `{x,0}`, which is no operand.
    ToX0,
    /// `H`: a number, or `{alloc,[{KIND,N},..]}`.
    Heap,
}

/// How an instruction is written.
#[derive(Clone, Copy, Debug, PartialEq, Eq)]
pub enum Way {
    /// `NAME`.
    Bare,
    /// `{NAME,OPERAND,..}`.
    Plain,
    /// `{test,NAME,LABEL,[OPERAND,..]}`.
    Test,
    /// `{bif,BIF,FAIL,[SOURCE,..],REGISTER}`.
    Bif,
    /// `{gc_bif,BIF,FAIL,LIVE,[SOURCE,..],REGISTER}`.
    GcBif,
    /// `{raise,{f,0},[SOURCE,SOURCE],{x,0}}`, or `{bif,raise,..}` for the same.
    Raise,
}
