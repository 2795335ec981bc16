//! Items that are refused: the number of the refusal, the line of the form, and the name that is outside the subset.

use bx_terms::Fault;
use bxemu_testkit::{answered, module, read};
use std::alloc::{AllocError, Global};
use std::test::Fail;

/// The number and the line of a refusal.
pub fn number_and_line(fault: &Fault) -> Option<(u8, usize)> {
    let line = match fault {
        Fault::Truncated { line }
        | Fault::BadForm { line }
        | Fault::Unsupported { line, .. }
        | Fault::BadOperand { line }
        | Fault::LiteralRange { line } => *line,
        Fault::AtomTooLong { line } | Fault::TooManyAtoms { line } => (*line)?,
        _ => return None,
    };
    Some((fault.number()?, line))
}

fn is_named(fault: &Fault, wanted: &str) -> bool {
    match fault {
        Fault::Unsupported { name, .. } => name.as_str() == wanted,
        _ => wanted.is_empty(),
    }
}

/// Whether a text is refused with this number and this name on this line.
fn is_refused(
    alloc: Global,
    text: &str,
    number: u8,
    line: usize,
    name: &str,
) -> Result<bool, Fault> {
    Ok(match answered(read(alloc, text))? {
        Ok(_) => false,
        Err(fault) => number_and_line(&fault) == Some((number, line)) && is_named(&fault, name),
    })
}

/// Whether the function of a module with these items is refused with this number on this line, by this name.
pub fn are_refused(
    alloc: Global,
    items: &str,
    number: u8,
    line: usize,
    name: &str,
) -> Result<bool, Fault> {
    let text = module(alloc, items)?;
    is_refused(alloc, text.as_str(), number, line, name)
}

/// How many rows of items, a line and a name, from the first on, are refused with this number.
fn right_rows(alloc: Global, number: u8, rows: &[(&str, usize, &str)]) -> Result<usize, Fault> {
    for (row, (items, line, name)) in rows.iter().enumerate() {
        if !are_refused(alloc, *items, number, *line, *name)? {
            return Ok(row);
        }
    }
    Ok(rows.len())
}

static MISPLACED: [(&str, usize, &str); 9] = [
    ("return. {labels,3}.", 9, ""),
    ("module.", 9, ""),
    ("[return].", 9, ""),
    ("7.", 9, ""),
    ("{7,a}.", 9, ""),
    ("{}.", 9, ""),
    ("{function,f,0}.", 9, ""),
    ("{function,f,0,-1}.", 9, ""),
    ("{function,\"f\",0,1}.", 9, ""),
];

#[test]
fn misplaced_or_misshapen_forms(rt: HostRuntime) -> Result<(), Fail> {
    assert_eq!(rt; right_rows(rt.alloc(), 8, &MISPLACED)?, MISPLACED.len());
    Ok(())
}

static OUTSIDE: [(&str, usize, &str); 20] = [
    ("\n{frob}.", 10, "frob"),
    ("marsh.", 9, "marsh"),
    ("{is_lt,{f,1},[{x,0},{x,1}]}.", 9, "is_lt"),
    ("{test,move,{f,1}}.", 9, "move"),
    ("{test,is_map,{f,1},[{x,0}]}.", 9, "is_map"),
    ("{test,is_map}.", 9, "is_map"),
    ("{bif,foo,{f,0},[{x,0}],{x,0}}.", 9, "foo/1"),
    ("{bif,hd,{f,0},[{x,0},{x,1}],{x,0}}.", 9, "hd/2"),
    ("{bif,'+',{f,0},[]}.", 9, "+/0"),
    ("{gc_bif,raise,{f,0},0,[{x,0},{x,1}],{x,0}}.", 9, "raise/2"),
    ("{bif,raise,{f,0},[{x,0}],{x,0}}.", 9, "raise/1"),
    ("{gc_bif,round,{f,0},1,[{x,0}],{x,0}}.", 9, "round/1"),
    ("'%'.", 9, "%"),
    ("{'%'}.", 9, "%"),
    ("{'%',a,b}.", 9, "%"),
    ("{bif0,self,{x,0}}.", 9, "bif0"),
    ("{kill,{y,0}}.", 9, "kill"),
    ("{raw_raise}.", 9, "raw_raise"),
    (
        "{select_val,{x,0},{f,1},{list,[{float,a},{f,1}]}}.",
        9,
        "float",
    ),
    ("{move,{float,a},{x,0}}.", 9, "float"),
];

#[test]
fn names_outside_the_subset(rt: HostRuntime) -> Result<(), Fail> {
    assert_eq!(rt; right_rows(rt.alloc(), 9, &OUTSIDE)?, OUTSIDE.len());
    Ok(())
}

static OPERANDS: [(&str, usize, &str); 48] = [
    ("raise.", 9, ""),
    ("{move,{x,0}}.", 9, ""),
    ("move.", 9, ""),
    ("{return}.", 9, ""),
    ("{return,a}.", 9, ""),
    ("{test}.", 9, ""),
    ("test.", 9, ""),
    ("{test,7}.", 9, ""),
    ("{test,is_lt,{f,1},[{x,0}]}.", 9, ""),
    ("{test,is_lt,{f,1},{x,0},{x,1}}.", 9, ""),
    ("{bif}.", 9, ""),
    ("{bif,self,{f,0}}.", 9, ""),
    ("{bif,self,{f,0},[],{x,0},{x,1}}.", 9, ""),
    ("{bif,7,{f,0},[],{x,0}}.", 9, ""),
    ("{gc_bif,self,{f,0},0,[],{x,0}}.", 9, ""),
    ("{raise,{f,0},[{x,2}],{x,0}}.", 9, ""),
    ("{raise,{f,0},{x,2},{x,0}}.", 9, ""),
    ("{move,{integer,1},{integer,2}}.", 9, ""),
    ("{move,{x,-1},{x,0}}.", 9, ""),
    ("{move,{x,4294967296},{x,0}}.", 9, ""),
    ("{move,x,{x,0}}.", 9, ""),
    ("return.\n{jump,2}.", 10, ""),
    ("{jump,{f,a}}.", 9, ""),
    ("{label,{f,1}}.", 9, ""),
    ("{call,{f,1},1}.", 9, ""),
    ("{call_ext_only,1,{extfunc,m,f,2}}.", 9, ""),
    ("{call_ext,1,{extfunc,m,f}}.", 9, ""),
    ("{call_ext,1,{extfunc,m,7,1}}.", 9, ""),
    ("{catch_end,{x,0}}.", 9, ""),
    ("{init_yregs,{list,[{y,0},{x,0}]}}.", 9, ""),
    ("{init_yregs,[{y,0}]}.", 9, ""),
    ("{get_hd,nil,{x,0}}.", 9, ""),
    ("{test,test_arity,{f,1},[{literal,{}},0]}.", 9, ""),
    ("{bif,self,{f,3},[],{x,0}}.", 9, ""),
    ("{raise,{f,3},[{x,2},{x,1}],{x,0}}.", 9, ""),
    ("{raise,{f,0},[{x,2},{x,1}],{x,1}}.", 9, ""),
    ("{select_val,{x,0},{f,1},{list,[{atom,a}]}}.", 9, ""),
    ("{select_val,{x,0},{f,1},{list,[nil,{f,1}]}}.", 9, ""),
    ("{select_val,{x,0},{f,1},{list,[{float,a}]}}.", 9, ""),
    (
        "{select_tuple_arity,{x,0},{f,1},{list,[{integer,2},{f,1}]}}.",
        9,
        "",
    ),
    ("{test_heap,{alloc,[{words}]},0}.", 9, ""),
    ("{test_heap,{alloc,[{words,a}]},0}.", 9, ""),
    ("{test_heap,{list,[]},0}.", 9, ""),
    ("{put_tuple2,{x,0},{list,[{f,1}]}}.", 9, ""),
    ("{move,{fr,0},{x,0}}.", 9, ""),
    ("{get_hd,{float,a},{x,0}}.", 9, ""),
    ("{get_hd,{integer,9223372036854775808},{x,0}}.", 9, ""),
    ("{move,x,{integer,9223372036854775808}}.", 9, ""),
];

#[test]
fn wrong_numbers_and_kinds_of_operands(rt: HostRuntime) -> Result<(), Fail> {
    assert_eq!(rt; right_rows(rt.alloc(), 10, &OPERANDS)?, OPERANDS.len());
    Ok(())
}

static OUT_OF_RANGE: [(&str, usize, &str); 3] = [
    ("{move,{integer,9223372036854775808},{x,0}}.", 9, ""),
    ("{move,{literal,[-9223372036854775809]},{x,0}}.", 9, ""),
    ("{move,{integer,9223372036854775808},x}.", 9, ""),
];

#[test]
fn integers_out_of_range(rt: HostRuntime) -> Result<(), Fail> {
    assert_eq!(rt;
        right_rows(rt.alloc(), 11, &OUT_OF_RANGE)?,
        OUT_OF_RANGE.len()
    );
    Ok(())
}

#[test]
fn a_form_that_is_cut_off(rt: HostRuntime) -> Result<(), Fail> {
    assert!(rt; are_refused(rt.alloc(), "return.\nreturn", 6, 10, "")?);
    Ok(())
}

/// Texts that are no listing, and the line where that shows.
static OUT_OF_ORDER: [(&str, usize); 11] = [
    ("", 1),
    ("\n{module,m}. {exports,[]}.\n", 3),
    ("{module,m}.\n{labels,1}. {exports,[]}.", 2),
    ("{exports,[]}. {module,m}. {labels,1}.", 1),
    ("{module,m}. {exports,[]}.\n{label,1}.", 2),
    ("{module,m}. {exports,[]}. {labels,2}.\n\n{label,1}.", 3),
    ("{module,m}. {exports,[]}. {labels,2}.\n{'%',a}.", 2),
    ("{module,m}. {exports,[f]}. {labels,2}.", 1),
    ("{module,m}. {exports,[]}. {labels,4294967296}.", 1),
    ("{module,m}. {exports,[]}. {labels,2}. \n[return].", 2),
    ("{module,m}. {exports,[]}. {labels,2}. {attributes,[]}.", 1),
];

#[test]
fn forms_out_of_order(rt: HostRuntime) -> Result<(), Fail> {
    for (text, line) in &OUT_OF_ORDER {
        assert!(rt; is_refused(rt.alloc(), *text, 8, *line, "")?, "{text}");
    }
    Ok(())
}

/// The listing of a module whose function has an item with an atom of so many characters.
fn with_long_atom(
    alloc: Global,
    before: &str,
    length: usize,
    behind: &str,
) -> Result<String, AllocError> {
    let mut items = String::from_str(alloc, before)?;
    for _ in 0..length {
        items.push_str("a")?;
    }
    items.push_str(behind)?;
    module(alloc, items.as_str())
}

/// What stands before and behind the atom, and the number of the refusal.
static REFUSED: [(&str, &str, u8); 6] = [
    ("{move,{atom,", "},{x,0}}.", 2),
    ("{move,{atom,", "},7}.", 2),
    ("{move,7,{atom,", "}}.", 10),
    ("{move,{literal,[", "]},{x,0}}.", 2),
    ("{test_heap,{alloc,[{", ",1}]},0}.", 2),
    ("{call_ext,1,{extfunc,", ",7,1}}.", 2),
];

/// The same, where the atom is left out.
static LEFT_OUT: [(&str, &str); 3] = [
    ("{'%',", "}."),
    ("{line,", "}."),
    ("{move,{tr,{x,0},", "},{x,0}}."),
];

fn is_refused_at_256(alloc: Global, before: &str, behind: &str, number: u8) -> Result<bool, Fault> {
    let text = with_long_atom(alloc, before, 256, behind)?;
    is_refused(alloc, text.as_str(), number, 9, "")
}

fn read_at_256(alloc: Global, before: &str, behind: &str) -> Result<(), Fault> {
    let text = with_long_atom(alloc, before, 256, behind)?;
    read(alloc, text.as_str())?;
    Ok(())
}

#[test]
fn atoms_of_256_characters(rt: HostRuntime) -> Result<(), Fail> {
    for (before, behind, number) in &REFUSED {
        assert!(rt;
            is_refused_at_256(rt.alloc(), *before, *behind, *number)?,
            "{before}"
        );
    }
    for (before, behind) in &LEFT_OUT {
        read_at_256(rt.alloc(), *before, *behind)?;
    }
    Ok(())
}
