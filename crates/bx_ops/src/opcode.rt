//! The opcodes, and the table of them: a row each, by rising number.
//!
//! Source: `genop.tab` of Erlang/OTP (lib/compiler/src), and the listings that `erlc -S` writes.
ghost use Rattle.std.specs.Prelude.{◌≡◌};
ghost use Rattle.bx_ops.specs.Opcodes.{opcode};
ghost use Rattle.bx_ops.specs.Rows.{said_of_op};

use crate::sorts::Slot::{self, Heap, Many, NoLabel, One, Pairs, ToX0};
use crate::sorts::Sort::{
    Arity, Atom, Bif0, Bif1, Bif2, Callee, Fail, Mark, Number, Place, Register, Source, Target,
    Value, YRegister,
};
use crate::sorts::Way;

/// An opcode of the subset, named as in `genop.tab` of Erlang/OTP, by rising number.
#[derive(Clone, Copy, Debug, PartialEq, Eq)]
pub enum Op {
    Label,
    FuncInfo,
    IntCodeEnd,
    Call,
    CallLast,
    CallOnly,
    CallExt,
    CallExtLast,
    Bif0,
    Bif1,
    Bif2,
    Allocate,
    AllocateHeap,
    TestHeap,
    Deallocate,
    Return,
    Send,
    RemoveMessage,
    Timeout,
    LoopRec,
    LoopRecEnd,
    Wait,
    WaitTimeout,
    IsLt,
    IsGe,
    IsEq,
    IsNe,
    IsEqExact,
    IsNeExact,
    IsInteger,
    IsFloat,
    IsNumber,
    IsAtom,
    IsPid,
    IsReference,
    IsPort,
    IsNil,
    IsBinary,
    IsList,
    IsNonemptyList,
    IsTuple,
    TestArity,
    SelectVal,
    SelectTupleArity,
    Jump,
    Catch,
    CatchEnd,
    Move,
    GetList,
    GetTupleElement,
    PutList,
    Badmatch,
    IfEnd,
    CaseEnd,
    CallExtOnly,
    Try,
    TryEnd,
    TryCase,
    TryCaseEnd,
    Raise,
    IsBoolean,
    GcBif1,
    GcBif2,
    Trim,
    Line,
    IsTaggedTuple,
    BuildStacktrace,
    GetHd,
    GetTl,
    PutTuple2,
    Swap,
    InitYregs,
}

/// A row: the opcode, its number, its name, how listings write it, and its operands in the order in which they are written.
pub(crate) type Row = (Op, u32, &'static str, Way, &'static [Slot]);

/// Rows, each as `OPCODE NUMBER NAME WAY OPERANDS;`, and behind it in a few words what it does.
macro_rules! rows {
    ($($op:ident $number:literal $name:literal $way:ident [$($slot:expr),*];)*) => {
        &[$((Op::$op, $number, $name, Way::$way, &[$($slot),*])),*]
    };
}

pub(crate) static ROWS: &[Row] = rows! {
    Label 1 "label" Plain [One(Place)]; // a mark: calls and jumps lead here
    FuncInfo 2 "func_info" Plain [One(Atom), One(Atom), One(Arity)]; // no clause matched: function_clause
    IntCodeEnd 3 "int_code_end" Bare []; // the end of the code
    Call 4 "call" Plain [One(Arity), One(Target)]; // CP is the next address; go
    CallLast 5 "call_last" Plain [One(Arity), One(Target), One(Number)]; // the frame goes; then go
    CallOnly 6 "call_only" Plain [One(Arity), One(Target)]; // go, and CP stays
    CallExt 7 "call_ext" Plain [One(Arity), One(Callee)]; // a native, a BIF or an export
    CallExtLast 8 "call_ext_last" Plain [One(Arity), One(Callee), One(Number)]; // the frame goes; then as call_ext_only
    Bif0 9 "bif0" Bif [One(Bif0), NoLabel, One(Register)]; // self/0
    Bif1 10 "bif1" Bif [One(Bif1), One(Fail), One(Source), One(Register)]; // value of a BIF of one
    Bif2 11 "bif2" Bif [One(Bif2), One(Fail), One(Source), One(Source), One(Register)]; // value of a BIF of two
    Allocate 12 "allocate" Plain [One(Number), One(Number)]; // a new frame, which saves CP
    AllocateHeap 13 "allocate_heap" Plain [One(Number), Heap, One(Number)]; // a new frame, which saves CP
    TestHeap 16 "test_heap" Plain [Heap, One(Number)]; // nothing: there is no heap limit
    Deallocate 18 "deallocate" Plain [One(Number)]; // the top frame goes, CP back
    Return 19 "return" Bare []; // go to CP, else end
    Send 20 "send" Bare []; // x1 goes to pid x0
    RemoveMessage 21 "remove_message" Bare []; // the current message goes
    Timeout 22 "timeout" Bare []; // look at all messages again
    LoopRec 23 "loop_rec" Plain [One(Target), One(Register)]; // the current message, else go
    LoopRecEnd 24 "loop_rec_end" Plain [One(Target)]; // pass this message over; go
    Wait 25 "wait" Plain [One(Target)]; // wait for a message
    WaitTimeout 26 "wait_timeout" Plain [One(Target), One(Source)]; // wait so long for one
    IsLt 39 "is_lt" Test [One(Target), One(Source), One(Source)]; // less in the term order
    IsGe 40 "is_ge" Test [One(Target), One(Source), One(Source)]; // not less in the term order
    IsEq 41 "is_eq" Test [One(Target), One(Source), One(Source)]; // ==
    IsNe 42 "is_ne" Test [One(Target), One(Source), One(Source)]; // /=
    IsEqExact 43 "is_eq_exact" Test [One(Target), One(Source), One(Source)]; // =:=
    IsNeExact 44 "is_ne_exact" Test [One(Target), One(Source), One(Source)]; // =/=
    IsInteger 45 "is_integer" Test [One(Target), One(Source)]; // an integer
    IsFloat 46 "is_float" Test [One(Target), One(Source)]; // never holds
    IsNumber 47 "is_number" Test [One(Target), One(Source)]; // a number, so an integer
    IsAtom 48 "is_atom" Test [One(Target), One(Source)]; // an atom
    IsPid 49 "is_pid" Test [One(Target), One(Source)]; // a pid
    IsReference 50 "is_reference" Test [One(Target), One(Source)]; // never holds
    IsPort 51 "is_port" Test [One(Target), One(Source)]; // never holds
    IsNil 52 "is_nil" Test [One(Target), One(Source)]; // the empty list
    IsBinary 53 "is_binary" Test [One(Target), One(Source)]; // never holds
    IsList 55 "is_list" Test [One(Target), One(Source)]; // a cons or the empty list
    IsNonemptyList 56 "is_nonempty_list" Test [One(Target), One(Source)]; // a cons
    IsTuple 57 "is_tuple" Test [One(Target), One(Source)]; // a tuple
    TestArity 58 "test_arity" Test [One(Target), One(Register), One(Number)]; // a tuple of this size
    SelectVal 59 "select_val" Plain [One(Source), One(Target), Pairs(Value, Target)]; // go by the value
    SelectTupleArity 60 "select_tuple_arity" Plain [One(Register), One(Target), Pairs(Number, Target)]; // go by the size of a tuple
    Jump 61 "jump" Plain [One(Target)]; // go
    Catch 62 "catch" Plain [One(YRegister), One(Target)]; // a tag: faults are caught there
    CatchEnd 63 "catch_end" Plain [One(YRegister)]; // the tag goes, x0 tells the fault
    Move 64 "move" Plain [One(Source), One(Register)]; // a copy
    GetList 65 "get_list" Plain [One(Register), One(Register), One(Register)]; // the head and the tail
    GetTupleElement 66 "get_tuple_element" Plain [One(Register), One(Number), One(Register)]; // an element, from 0
    PutList 69 "put_list" Plain [One(Source), One(Source), One(Register)]; // a cons of head and tail
    Badmatch 72 "badmatch" Plain [One(Source)]; // error {badmatch,V}
    IfEnd 73 "if_end" Bare []; // error if_clause
    CaseEnd 74 "case_end" Plain [One(Source)]; // error {case_clause,V}
    CallExtOnly 78 "call_ext_only" Plain [One(Arity), One(Callee)]; // as call_ext, but CP stays
    Try 104 "try" Plain [One(YRegister), One(Target)]; // a tag: faults are caught there
    TryEnd 105 "try_end" Plain [One(YRegister)]; // the tag goes
    TryCase 106 "try_case" Plain [One(YRegister)]; // x0 to x2 tell the fault
    TryCaseEnd 107 "try_case_end" Plain [One(Source)]; // error {try_clause,V}
    Raise 108 "raise" Raise [NoLabel, One(Source), One(Source), ToX0]; // a fault with this trace's class
    IsBoolean 114 "is_boolean" Test [One(Target), One(Source)]; // true or false
    GcBif1 124 "gc_bif1" GcBif [One(Bif1), One(Fail), One(Number), One(Source), One(Register)]; // value of a BIF of one
    GcBif2 125 "gc_bif2" GcBif [One(Bif2), One(Fail), One(Number), One(Source), One(Source), One(Register)]; // value of a BIF of two
    Trim 136 "trim" Plain [One(Number), One(Number)]; // the lowest y registers go
    Line 153 "line" Plain [One(Mark)]; // a mark: a place in the source
    IsTaggedTuple 159 "is_tagged_tuple" Test [One(Target), One(Register), One(Number), One(Atom)]; // of this size, with this atom first
    BuildStacktrace 160 "build_stacktrace" Bare []; // the trace in x0 becomes []
    GetHd 162 "get_hd" Plain [One(Register), One(Register)]; // the head
    GetTl 163 "get_tl" Plain [One(Register), One(Register)]; // the tail
    PutTuple2 164 "put_tuple2" Plain [One(Register), Many(Source)]; // a tuple of these
    Swap 169 "swap" Plain [One(Register), One(Register)]; // the two are exchanged
    InitYregs 172 "init_yregs" Plain [Many(YRegister)]; // each gets nil
};

/// The opcode's row.
pub(crate) fn row_of(op: Op) -> &'static Row
    ensures { said_of_op result.now ≡ opcode op }
{
    &ROWS[op as usize]
}
