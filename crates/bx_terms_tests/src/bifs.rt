//! Guard BIFs and names, with what Erlang/OTP 25 answers: `max(1, 2)` for `("max", 1, 2, ..)`. An integer outside 64 bits, for
//! which Erlang has a value or `system_limit`, is `IntegerRange` here.

use crate::built::Flat::{Atom, Int};
use crate::built::{cons, int, list, table_of, tuple, tuple_of};
use bx_bifs::{Given, Native, guard, guard_decoded, guard_of_one, guard_of_two, is_guard, native};
use bx_ops::Bif;
use bx_terms::{AtomId, Atoms, Class, Fault, Term, fixed, print};
use std::alloc::{AllocError, Global};
use std::test::Fail;

static OF_TWO_INTEGERS: [(&str, i64, i64, &str); 97] = [
    ("+", i64::MAX, 1, "IntegerRange"),
    ("+", i64::MAX, 0, "9223372036854775807"),
    ("+", i64::MIN, -1, "IntegerRange"),
    ("+", i64::MIN, i64::MAX, "-1"),
    ("+", -1, 1, "0"),
    ("+", i64::MAX, -1, "9223372036854775806"),
    ("-", i64::MIN, 1, "IntegerRange"),
    ("-", i64::MIN, 0, "-9223372036854775808"),
    ("-", 0, i64::MIN, "IntegerRange"),
    ("-", -1, i64::MIN, "9223372036854775807"),
    ("-", i64::MAX, -1, "IntegerRange"),
    ("-", 0, 1, "-1"),
    ("*", i64::MIN, -1, "IntegerRange"),
    ("*", i64::MIN, 1, "-9223372036854775808"),
    ("*", i64::MAX, 2, "IntegerRange"),
    ("*", 3037000500, 3037000500, "IntegerRange"),
    ("*", 3037000499, 3037000499, "9223372030926249001"),
    ("*", -4611686018427387904, 2, "-9223372036854775808"),
    ("*", 4611686018427387904, 2, "IntegerRange"),
    ("*", 0, i64::MIN, "0"),
    ("*", -1, i64::MAX, "-9223372036854775807"),
    ("div", 7, 2, "3"),
    ("div", -7, 2, "-3"),
    ("div", 7, -2, "-3"),
    ("div", -7, -2, "3"),
    ("div", i64::MIN, -1, "IntegerRange"),
    ("div", i64::MIN, 1, "-9223372036854775808"),
    ("div", i64::MAX, -1, "-9223372036854775807"),
    ("div", 1, 0, "badarith"),
    ("div", 0, 0, "badarith"),
    ("div", 0, 5, "0"),
    ("div", i64::MIN, i64::MAX, "-1"),
    ("div", 1, i64::MIN, "0"),
    ("rem", 7, 2, "1"),
    ("rem", -7, 2, "-1"),
    ("rem", 7, -2, "1"),
    ("rem", -7, -2, "-1"),
    ("rem", i64::MIN, -1, "0"),
    ("rem", i64::MIN, 1, "0"),
    ("rem", i64::MAX, -1, "0"),
    ("rem", 1, 0, "badarith"),
    ("rem", 0, 0, "badarith"),
    ("rem", 0, 5, "0"),
    ("rem", i64::MIN, i64::MAX, "-1"),
    ("rem", 1, i64::MIN, "1"),
    ("band", -1, i64::MAX, "9223372036854775807"),
    ("band", i64::MIN, -1, "-9223372036854775808"),
    ("band", i64::MIN, i64::MAX, "0"),
    ("band", 12, 10, "8"),
    ("band", -12, 10, "0"),
    ("band", 12, -10, "4"),
    ("band", -12, -10, "-12"),
    ("band", 0, -1, "0"),
    ("bor", -1, i64::MAX, "-1"),
    ("bor", i64::MIN, -1, "-1"),
    ("bor", i64::MIN, i64::MAX, "-1"),
    ("bor", 12, 10, "14"),
    ("bor", -12, 10, "-2"),
    ("bor", 12, -10, "-2"),
    ("bor", -12, -10, "-10"),
    ("bor", 0, -1, "-1"),
    ("bxor", -1, i64::MAX, "-9223372036854775808"),
    ("bxor", i64::MIN, -1, "9223372036854775807"),
    ("bxor", i64::MIN, i64::MAX, "-1"),
    ("bxor", 12, 10, "6"),
    ("bxor", -12, 10, "-2"),
    ("bxor", 12, -10, "-6"),
    ("bxor", -12, -10, "2"),
    ("bxor", 0, -1, "-1"),
    ("bsl", 1, 62, "4611686018427387904"),
    ("bsl", 1, 63, "IntegerRange"),
    ("bsl", -1, 63, "-9223372036854775808"),
    ("bsl", -1, 64, "IntegerRange"),
    ("bsl", 1, 64, "IntegerRange"),
    ("bsl", 0, i64::MAX, "0"),
    ("bsl", 5, -1, "2"),
    ("bsl", -5, -1, "-3"),
    ("bsl", -5, i64::MIN, "-1"),
    ("bsl", i64::MIN, 0, "-9223372036854775808"),
    ("bsl", i64::MIN, 1, "IntegerRange"),
    ("bsl", 3, 61, "6917529027641081856"),
    ("bsl", 0, i64::MIN, "0"),
    ("bsl", -1, i64::MAX, "IntegerRange"),
    ("bsr", 5, 1, "2"),
    ("bsr", -5, 1, "-3"),
    ("bsr", -1, i64::MAX, "-1"),
    ("bsr", i64::MAX, i64::MAX, "0"),
    ("bsr", i64::MIN, 63, "-1"),
    ("bsr", i64::MIN, 64, "-1"),
    ("bsr", i64::MIN, -1, "IntegerRange"),
    ("bsr", 1, -62, "4611686018427387904"),
    ("bsr", 1, -63, "IntegerRange"),
    ("bsr", -1, -63, "-9223372036854775808"),
    ("bsr", 0, i64::MIN, "0"),
    ("bsr", 1, i64::MIN, "IntegerRange"),
    ("bsr", i64::MIN, 0, "-9223372036854775808"),
    ("bsr", -8, 3, "-1"),
];

static OF_ONE_INTEGER: [(&str, i64, &str); 16] = [
    ("+", i64::MIN, "-9223372036854775808"),
    ("+", -1, "-1"),
    ("+", 0, "0"),
    ("+", i64::MAX, "9223372036854775807"),
    ("-", i64::MIN, "IntegerRange"),
    ("-", -1, "1"),
    ("-", 0, "0"),
    ("-", i64::MAX, "-9223372036854775807"),
    ("bnot", i64::MIN, "9223372036854775807"),
    ("bnot", -1, "0"),
    ("bnot", 0, "-1"),
    ("bnot", i64::MAX, "-9223372036854775808"),
    ("abs", i64::MIN, "IntegerRange"),
    ("abs", -1, "1"),
    ("abs", 0, "0"),
    ("abs", i64::MAX, "9223372036854775807"),
];

/// What each gives on -1, 0, true, false, a, [], [1,2], [1|2], {} and {1,a}, in turn.
static OF_ONE_TERM: [(&str, &str); 21] = [
    (
        "+",
        "-1 0 badarith badarith badarith badarith badarith badarith badarith badarith",
    ),
    (
        "-",
        "1 0 badarith badarith badarith badarith badarith badarith badarith badarith",
    ),
    (
        "bnot",
        "0 -1 badarith badarith badarith badarith badarith badarith badarith badarith",
    ),
    (
        "abs",
        "1 0 badarg badarg badarg badarg badarg badarg badarg badarg",
    ),
    (
        "not",
        "badarg badarg false true badarg badarg badarg badarg badarg badarg",
    ),
    (
        "hd",
        "badarg badarg badarg badarg badarg badarg 1 1 badarg badarg",
    ),
    (
        "tl",
        "badarg badarg badarg badarg badarg badarg [2] 2 badarg badarg",
    ),
    (
        "length",
        "badarg badarg badarg badarg badarg 0 2 badarg badarg badarg",
    ),
    (
        "tuple_size",
        "badarg badarg badarg badarg badarg badarg badarg badarg 0 2",
    ),
    (
        "size",
        "badarg badarg badarg badarg badarg badarg badarg badarg 0 2",
    ),
    (
        "is_atom",
        "false false true true true false false false false false",
    ),
    (
        "is_boolean",
        "false false true true false false false false false false",
    ),
    (
        "is_integer",
        "true true false false false false false false false false",
    ),
    (
        "is_list",
        "false false false false false true true true false false",
    ),
    (
        "is_number",
        "true true false false false false false false false false",
    ),
    (
        "is_pid",
        "false false false false false false false false false false",
    ),
    (
        "is_tuple",
        "false false false false false false false false true true",
    ),
    (
        "is_float",
        "false false false false false false false false false false",
    ),
    (
        "is_binary",
        "false false false false false false false false false false",
    ),
    (
        "is_reference",
        "false false false false false false false false false false",
    ),
    (
        "is_port",
        "false false false false false false false false false false",
    ),
];

/// Pairs among these terms, by their places.
static PAIRS: [(u8, u8); 14] = [
    (0, 1),
    (1, 0),
    (2, 3),
    (3, 2),
    (5, 6),
    (6, 5),
    (9, 9),
    (7, 6),
    (1, 2),
    (4, 8),
    (9, 4),
    (3, 4),
    (2, 2),
    (3, 3),
];

/// What each gives on these pairs, in turn.
static OF_TWO_TERMS: [(&str, &str); 19] = [
    (
        "==",
        "false false false false false false true false false false false false true true",
    ),
    (
        "/=",
        "true true true true true true false true true true true true false false",
    ),
    (
        "=:=",
        "false false false false false false true false false false false false true true",
    ),
    (
        "=/=",
        "true true true true true true false true true true true true false false",
    ),
    (
        "<",
        "true false false true true false false true true true false false false false",
    ),
    (
        ">",
        "false true true false false true false false false false true true false false",
    ),
    (
        "=<",
        "true false false true true false true true true true false false true true",
    ),
    (
        ">=",
        "false true true false false true true false false false true true true true",
    ),
    (
        "min",
        "-1 -1 false false [] [] {1,a} [1|2] 0 a a a true false",
    ),
    (
        "max",
        "0 0 true true [1,2] [1,2] {1,a} [1,2] true {} {1,a} false true false",
    ),
    (
        "and",
        "badarg badarg false false badarg badarg badarg badarg badarg badarg badarg badarg true false",
    ),
    (
        "or",
        "badarg badarg true true badarg badarg badarg badarg badarg badarg badarg badarg true false",
    ),
    (
        "xor",
        "badarg badarg true true badarg badarg badarg badarg badarg badarg badarg badarg false false",
    ),
    (
        "+",
        "-1 -1 badarith badarith badarith badarith badarith badarith badarith badarith badarith badarith badarith badarith",
    ),
    (
        "*",
        "0 0 badarith badarith badarith badarith badarith badarith badarith badarith badarith badarith badarith badarith",
    ),
    (
        "div",
        "badarith 0 badarith badarith badarith badarith badarith badarith badarith badarith badarith badarith badarith badarith",
    ),
    (
        "band",
        "0 0 badarith badarith badarith badarith badarith badarith badarith badarith badarith badarith badarith badarith",
    ),
    (
        "bsl",
        "-1 0 badarith badarith badarith badarith badarith badarith badarith badarith badarith badarith badarith badarith",
    ),
    (
        "element",
        "badarg badarg badarg badarg badarg badarg badarg badarg badarg badarg badarg badarg badarg badarg",
    ),
];

/// What `element` gives at a place of {}, {1,a}, {{},[],b} and [1,2], in turn.
static ELEMENTS: [(i64, &str); 7] = [
    (-1, "badarg badarg badarg badarg"),
    (0, "badarg badarg badarg badarg"),
    (1, "badarg 1 {} badarg"),
    (2, "badarg a [] badarg"),
    (3, "badarg badarg b badarg"),
    (4, "badarg badarg badarg badarg"),
    (9223372036854775807, "badarg badarg badarg badarg"),
];

/// The two atoms that the table has beside those that are always there.
const A: AtomId = AtomId(80);

const B: AtomId = AtomId(81);

fn table(alloc: Global) -> Result<Atoms, Fault> {
    table_of(alloc, &["a", "b"])
}

fn term_at(alloc: Global, place: u8) -> Result<Term, AllocError> {
    match place {
        0 => Ok(Term::int(-1)),
        1 => Ok(Term::int(0)),
        2 => Ok(Term::atom(fixed::TRUE)),
        3 => Ok(Term::atom(fixed::FALSE)),
        4 => Ok(Term::atom(A)),
        5 => Ok(Term::nil()),
        6 => list(alloc, &[Int(1), Int(2)], Term::nil()),
        7 => list(alloc, &[Int(1)], Term::int(2)),
        8 => tuple(alloc, &[]),
        _ => tuple(alloc, &[Int(1), Atom(A)]),
    }
}

/// The value, the fault's reason or the trap's name.
fn text_of(alloc: Global, atoms: &Atoms, given: &Given) -> Result<String, AllocError> {
    match given {
        Given::Value(term) => print(alloc, atoms, term),
        Given::Fault(Class::Error, reason) => print(alloc, atoms, reason),
        Given::Fault(class, _) => print(alloc, atoms, &Term::atom(class.atom())),
        Given::Trap(kind) => String::from_str(alloc, kind.name()),
    }
}

/// What a call by name gives.
fn answer(alloc: Global, atoms: &Atoms, name: &str, arguments: &[Term]) -> Result<String, Fault> {
    let Some(name) = atoms.find(name) else {
        return Ok(String::from_str(alloc, "a name that is not there")?);
    };
    let given = guard(alloc, atoms, name, arguments)?;
    Ok(text_of(alloc, atoms, &given)?)
}

/// A call by name, whose answer is added to `out` after a space, if something stands there.
fn push_call(
    alloc: Global,
    out: &mut String,
    atoms: &Atoms,
    name: &str,
    arguments: &[Term],
) -> Result<(), Fault> {
    if !out.is_empty() {
        out.push(' ')?;
    }
    let answer = answer(alloc, atoms, name, arguments)?;
    Ok(out.push_str(answer.as_str())?)
}

fn is_of_two(alloc: Global, name: &str, m: i64, n: i64, want: &str) -> Result<bool, Fault> {
    let atoms = table(alloc)?;
    let arguments = [int(m), int(n)];
    let told = answer(alloc, &atoms, name, &arguments)?;
    Ok(told.as_str() == want)
}

fn is_of_one(alloc: Global, name: &str, n: i64, want: &str) -> Result<bool, Fault> {
    let atoms = table(alloc)?;
    let arguments = [int(n)];
    let told = answer(alloc, &atoms, name, &arguments)?;
    Ok(told.as_str() == want)
}

#[test]
fn arithmetic_at_the_edges(rt: HostRuntime) -> Result<(), Fail> {
    for (name, m, n, want) in &OF_TWO_INTEGERS {
        assert!(rt;
            is_of_two(rt.alloc(), *name, *m, *n, *want)?,
            "{name} of {m} and {n}"
        );
    }
    for (name, n, want) in &OF_ONE_INTEGER {
        assert!(rt; is_of_one(rt.alloc(), *name, *n, *want)?, "{name} of {n}");
    }
    Ok(())
}

fn push_of_one(
    alloc: Global,
    out: &mut String,
    atoms: &Atoms,
    name: &str,
    place: u8,
) -> Result<(), Fault> {
    let arguments = [term_at(alloc, place)?];
    push_call(alloc, out, atoms, name, &arguments)
}

/// Whether a BIF of one argument gives this on the ten terms.
fn gives_on_terms(alloc: Global, name: &str, want: &str) -> Result<bool, Fault> {
    let atoms = table(alloc)?;
    let mut answers = String::new(alloc);
    for place in 0..10u8 {
        push_of_one(alloc, &mut answers, &atoms, name, place)?;
    }
    Ok(answers.as_str() == want)
}

fn push_of_two(
    alloc: Global,
    out: &mut String,
    atoms: &Atoms,
    name: &str,
    places: (u8, u8),
) -> Result<(), Fault> {
    let first = term_at(alloc, places.0)?;
    let arguments = [first, term_at(alloc, places.1)?];
    push_call(alloc, out, atoms, name, &arguments)
}

/// Whether a BIF of two arguments gives this on the pairs.
fn gives_on_pairs(alloc: Global, name: &str, want: &str) -> Result<bool, Fault> {
    let atoms = table(alloc)?;
    let mut answers = String::new(alloc);
    for places in &PAIRS {
        push_of_two(alloc, &mut answers, &atoms, name, *places)?;
    }
    Ok(answers.as_str() == want)
}

#[test]
fn every_guard_bif_on_terms(rt: HostRuntime) -> Result<(), Fail> {
    for (name, want) in &OF_ONE_TERM {
        assert!(rt; gives_on_terms(rt.alloc(), *name, *want)?, "{name}");
    }
    for (name, want) in &OF_TWO_TERMS {
        assert!(rt; gives_on_pairs(rt.alloc(), *name, *want)?, "{name}");
    }
    Ok(())
}

/// {{},[],b}.
fn three(alloc: Global) -> Result<Term, AllocError> {
    let mut elements = Vec::new(alloc);
    elements.push(tuple(alloc, &[])?)?;
    elements.push(Term::nil())?;
    elements.push(Term::atom(B))?;
    tuple_of(alloc, elements)
}

fn push_element(
    alloc: Global,
    out: &mut String,
    atoms: &Atoms,
    place: i64,
    term: Term,
) -> Result<(), Fault> {
    push_call(alloc, out, atoms, "element", &[Term::int(place), term])
}

/// What `element` gives at a place of the four terms, after what stands in `out`.
fn push_elements(alloc: Global, out: &mut String, atoms: &Atoms, place: i64) -> Result<(), Fault> {
    push_element(alloc, out, atoms, place, term_at(alloc, 8)?)?;
    push_element(alloc, out, atoms, place, term_at(alloc, 9)?)?;
    push_element(alloc, out, atoms, place, three(alloc)?)?;
    push_element(alloc, out, atoms, place, term_at(alloc, 6)?)
}

fn are_elements(alloc: Global, place: i64, want: &str) -> Result<bool, Fault> {
    let atoms = table(alloc)?;
    let mut answers = String::new(alloc);
    push_elements(alloc, &mut answers, &atoms, place)?;
    Ok(answers.as_str() == want)
}

#[test]
fn elements_by_place(rt: HostRuntime) -> Result<(), Fail> {
    for (place, want) in &ELEMENTS {
        assert!(rt; are_elements(rt.alloc(), *place, *want)?, "at {place}");
    }
    Ok(())
}

/// A list of as many zeros, before `tail`.
fn zeros(alloc: Global, count: u32, tail: Term) -> Result<Term, AllocError> {
    let mut list = tail;
    for _ in 0..count {
        list = cons(alloc, int(0), list)?;
    }
    Ok(list)
}

/// What a BIF of one argument gives on 10,000 zeros before `tail`.
fn of_zeros(alloc: Global, bif: Bif, tail: Term) -> Result<Given, AllocError> {
    let list = zeros(alloc, 10_000, tail)?;
    guard_of_one(alloc, bif, &list)
}

fn is_integer(given: &Given, number: i64) -> bool {
    given.same(&Given::Value(Term::int(number)))
}

fn is_atom(given: &Given, atom: AtomId) -> bool {
    given.same(&Given::Value(Term::atom(atom)))
}

fn is_badarg(given: &Given) -> bool {
    given.same(&Given::Fault(Class::Error, Term::atom(fixed::BADARG)))
}

/// Whether it is a value of that height.
fn is_as_high(given: &Given, height: u32) -> bool {
    matches!(given, Given::Value(term) if term.height() == height)
}

fn lists_are_measured(alloc: Global) -> Result<bool, AllocError> {
    let is_length = is_integer(&of_zeros(alloc, Bif::Length, Term::nil())?, 10_000);
    let is_refused = is_badarg(&of_zeros(alloc, Bif::Length, Term::int(0))?);
    let is_tail = is_as_high(&of_zeros(alloc, Bif::Tl, Term::nil())?, 9_999);
    Ok(is_length && is_refused && is_tail)
}

#[test]
fn lists_as_high_as_terms_may_be(rt: HostRuntime) -> Result<(), Fail> {
    assert!(rt; lists_are_measured(rt.alloc())?);
    Ok(())
}

/// What a BIF of two arguments gives on two lists of 10,000 zeros.
fn of_two_lists(alloc: Global, atoms: &Atoms, bif: Bif) -> Result<Given, AllocError> {
    let list = zeros(alloc, 10_000, Term::nil())?;
    let other = zeros(alloc, 10_000, Term::nil())?;
    guard_of_two(alloc, atoms, bif, &list, &other)
}

fn lists_are_compared(alloc: Global, atoms: &Atoms) -> Result<bool, AllocError> {
    let is_equal = is_atom(&of_two_lists(alloc, atoms, Bif::Equal)?, fixed::TRUE);
    let is_not_greater = is_atom(&of_two_lists(alloc, atoms, Bif::Greater)?, fixed::FALSE);
    let is_greatest = is_as_high(&of_two_lists(alloc, atoms, Bif::Max)?, 10_000);
    Ok(is_equal && is_not_greater && is_greatest)
}

#[test]
fn comparisons_as_high_as_terms_may_be(rt: HostRuntime) -> Result<(), Fail> {
    let atoms = Atoms::new(rt.alloc())?;
    assert!(rt; lists_are_compared(rt.alloc(), &atoms)?);
    Ok(())
}

fn of_a_pid(alloc: Global, bif: Bif, want: AtomId) -> Result<bool, AllocError> {
    Ok(is_atom(&guard_of_one(alloc, bif, &Term::pid(7))?, want))
}

#[test]
fn pids_are_a_kind(rt: HostRuntime) -> Result<(), Fail> {
    assert!(rt; of_a_pid(rt.alloc(), Bif::IsPid, fixed::TRUE)?);
    assert!(rt; of_a_pid(rt.alloc(), Bif::IsNumber, fixed::FALSE)?);
    Ok(())
}

static NO_SUCH_ARITY: [(&str, i64); 5] = [
    ("self", 0),
    ("self", 1),
    ("hd", 2),
    ("+", 3),
    ("send", 2),
];

/// The integers from 0.
fn integers(alloc: Global, count: i64) -> Result<Vec<Term>, AllocError> {
    let mut integers = Vec::new(alloc);
    for n in 0..count {
        integers.push(Term::int(n))?;
    }
    Ok(integers)
}

/// Whether a call by name of so many integers is of no BIF.
fn is_undefined(alloc: Global, name: &str, count: i64) -> Result<bool, Fault> {
    let atoms = table(alloc)?;
    let arguments = integers(alloc, count)?;
    let told = answer(alloc, &atoms, name, &arguments)?;
    Ok(told.as_str() == "undef")
}

#[test]
fn another_number_of_arguments(rt: HostRuntime) -> Result<(), Fail> {
    for (name, count) in &NO_SUCH_ARITY {
        assert!(rt;
            is_undefined(rt.alloc(), *name, *count)?,
            "{name} of {count}"
        );
    }
    Ok(())
}

fn decoded(alloc: Global) -> Result<Given, Fault> {
    let atoms = Atoms::new(alloc)?;
    guard_decoded(alloc, &atoms, Bif::Abs, &[Term::int(-2)])
}

#[test]
fn decoded_calls_are_as_those_by_name(rt: HostRuntime) -> Result<(), Fail> {
    assert!(rt; is_integer(&decoded(rt.alloc())?, 2));
    Ok(())
}

static NATIVES: [(&str, u32, Native); 16] = [
    ("spawn", 3, Native::Spawn),
    ("spawn_link", 3, Native::SpawnLink),
    ("link", 1, Native::Link),
    ("unlink", 1, Native::Unlink),
    ("exit", 1, Native::Exit),
    ("throw", 1, Native::Throw),
    ("error", 1, Native::Error),
    ("exit", 2, Native::ExitSignal),
    ("process_flag", 2, Native::ProcessFlag),
    ("send", 2, Native::Send),
    ("!", 2, Native::Send),
    ("display", 1, Native::Display),
    ("++", 2, Native::Append),
    ("setelement", 3, Native::SetElement),
    ("list_to_tuple", 1, Native::ListToTuple),
    ("tuple_to_list", 1, Native::TupleToList),
];

/// Whether a native is told by its name and arity.
fn is_told(atoms: &Atoms, name: &str, arity: u32, want: Native) -> bool {
    let told = atoms
        .find(name)
        .and_then(|name| native(atoms, fixed::ERLANG, name, arity));
    told == Some(want)
}

#[test]
fn names_of_natives(rt: HostRuntime) -> Result<(), Fail> {
    let atoms = Atoms::new(rt.alloc())?;
    for (name, arity, want) in &NATIVES {
        assert!(rt; is_told(&atoms, *name, *arity, *want), "{name}");
    }
    Ok(())
}

/// Whether no native is told by another module, arity or name.
fn are_no_natives(atoms: &Atoms) -> bool {
    native(atoms, A, fixed::LINK, 1).is_none()
        && native(atoms, fixed::ERLANG, fixed::LINK, 2).is_none()
        && native(atoms, fixed::ERLANG, fixed::SELF, 0).is_none()
        && native(atoms, fixed::ERLANG, AtomId(70_000), 1).is_none()
}

fn is_self_alone(atoms: &Atoms) -> bool {
    let is_self = is_guard(atoms, fixed::SELF, 0) && !is_guard(atoms, fixed::SELF, 1);
    is_self && !is_guard(atoms, A, 1) && !is_guard(atoms, AtomId(70_000), 1)
}

#[test]
fn other_names(rt: HostRuntime) -> Result<(), Fail> {
    let atoms = table(rt.alloc())?;
    assert!(rt; are_no_natives(&atoms) && is_self_alone(&atoms));
    Ok(())
}
