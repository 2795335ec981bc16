//! Rows of the tables, copied by hand from `genop.tab` and the Erlang Reference Manual.

use bx_ops::{
    Bif, Op, Slot, Sort, Way, bif_by_name, bif_name, is_local, name, number, op_by_name,
    op_by_number, op_named, shape, slots, way,
};

static OPCODES: [(u32, &str, usize, Op); 11] = [
    (1, "label", 1, Op::Label),
    (11, "bif2", 5, Op::Bif2),
    (39, "is_lt", 3, Op::IsLt),
    (59, "select_val", 3, Op::SelectVal),
    (62, "catch", 2, Op::Catch),
    (78, "call_ext_only", 2, Op::CallExtOnly),
    (108, "raise", 2, Op::Raise),
    (125, "gc_bif2", 6, Op::GcBif2),
    (153, "line", 1, Op::Line),
    (160, "build_stacktrace", 0, Op::BuildStacktrace),
    (172, "init_yregs", 1, Op::InitYregs),
];

fn is_found(opcode_number: u32, text: &str, arity: usize, op: Op) -> bool {
    op_by_number(opcode_number) == Some(op)
        && op_named(text) == Some(op)
        && op_by_name(text, arity) == Some(op)
}

/// Whether an opcode is found by its number and its name, and tells both.
fn is_row(opcode_number: u32, text: &str, arity: usize, op: Op) -> bool {
    let tells = number(op) == opcode_number && name(op) == text && shape(op) == arity;
    let is_found = is_found(opcode_number, text, arity, op);
    is_found && tells && op_by_name(text, arity + 1).is_none()
}

#[test]
fn rows_are_found_both_ways(rt: HostRuntime) {
    for (opcode_number, text, arity, op) in &OPCODES {
        assert!(rt; is_row(*opcode_number, *text, *arity, *op), "{text}");
    }
}

static NO_OPCODES: [&str; 9] = [
    "",
    "bif",
    "test",
    "kill",
    "Move",
    "move ",
    "is_map",
    "is_function2",
    "get_map_elements",
];

#[test]
fn other_numbers_and_names_are_not_found(rt: HostRuntime) {
    for unused in [0, 14, 27, 54, 67, 173, u32::MAX] {
        assert!(rt; op_by_number(unused).is_none());
    }
    for unused in &NO_OPCODES {
        assert!(rt; op_named(*unused).is_none(), "{unused}");
    }
}

fn are_local() -> bool {
    let others = is_local(Op::Send) || is_local(Op::CallExt) || is_local(Op::CallExtLast);
    let are_local = is_local(Op::CallOnly) && is_local(Op::LoopRec) && is_local(Op::Wait);
    are_local && !others && !is_local(Op::CallExtOnly)
}

#[test]
fn some_opcodes_are_not_local(rt: HostRuntime) {
    assert!(rt; are_local());
}

#[test]
fn listings_write_opcodes_in_their_ways(rt: HostRuntime) {
    for op in [Op::IsNil, Op::TestArity, Op::IsTaggedTuple] {
        assert_eq!(rt; way(op), Way::Test);
    }
    for op in [Op::TestHeap, Op::SelectVal, Op::Jump] {
        assert_eq!(rt; way(op), Way::Plain);
    }
    assert_eq!(rt; way(Op::Bif0), Way::Bif);
    assert_eq!(rt; way(Op::IfEnd), Way::Bare);
}

#[test]
fn a_bif_without_arguments_has_no_label_to_go_to(rt: HostRuntime) {
    let written = [
        Slot::One(Sort::Bif0),
        Slot::NoLabel,
        Slot::One(Sort::Register),
    ];
    assert_eq!(rt; slots(Op::Bif0), written.as_slice());
}

static BIFS: [(&str, usize, Bif); 9] = [
    ("self", 0, Bif::SelfPid),
    ("-", 1, Bif::UnaryMinus),
    ("-", 2, Bif::Subtract),
    ("=<", 2, Bif::LessOrEqual),
    ("=/=", 2, Bif::ExactlyNotEqual),
    ("not", 1, Bif::Not),
    ("tuple_size", 1, Bif::TupleSize),
    ("element", 2, Bif::Element),
    ("is_reference", 1, Bif::IsReference),
];

static NO_BIFS: [(&str, usize); 8] = [
    ("self", 1),
    ("/", 2),
    ("<=", 2),
    ("hd", 2),
    ("element", 1),
    ("is_map", 1),
    ("node", 0),
    ("+", 3),
];

/// Whether a guard BIF is found by its name and arity, and tells its name.
fn is_bif_row(text: &str, arity: usize, bif: Bif) -> bool {
    bif_by_name(text, arity) == Some(bif) && bif_name(bif) == text
}

#[test]
fn guard_bifs_are_found_by_name_and_arity(rt: HostRuntime) {
    for (text, arity, bif) in &BIFS {
        assert!(rt; is_bif_row(*text, *arity, *bif), "{text}");
    }
    for (text, arity) in &NO_BIFS {
        assert!(rt; bif_by_name(*text, *arity).is_none(), "{text}");
    }
}
