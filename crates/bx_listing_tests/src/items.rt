//! Each form of an item, and how it is written back. What a form is written as was worked out by hand.

use crate::samples::code;
use bx_listing::{Code, write_listing};
use bx_share::Same;
use bx_terms::{Atoms, Fault};
use bxemu_testkit::module;
use std::alloc::Global;
use std::test::Fail;

/// Whether what stands behind the items that each function begins with is this.
fn is_behind(written: &str, wanted: &str) -> bool {
    match written.split_once("{label,2}.\n") {
        Some((_, behind)) => behind.strip_suffix("\n") == Some(wanted),
        None => false,
    }
}

/// Whether a code is written so, and what is written is read as the same code.
fn is_written(
    alloc: Global,
    atoms: &mut Atoms,
    written: &Code,
    wanted: &str,
) -> Result<bool, Fault> {
    let text = write_listing(alloc, atoms, written)?;
    let again = code(alloc, atoms, text.as_str())?;
    Ok(again.same(written) && is_behind(text.as_str(), wanted))
}

/// Whether a function with these items, behind those that it begins with, is written back with those.
fn are_written(alloc: Global, items: &str, wanted: &str) -> Result<bool, Fault> {
    let text = module(alloc, items)?;
    let mut atoms = Atoms::new(alloc)?;
    let written = code(alloc, &mut atoms, text.as_str())?;
    is_written(alloc, &mut atoms, &written, wanted)
}

static AS_READ: [&str; 89] = [
    "{label,3}.",
    "{func_info,{atom,a},{atom,b},4294967295}.",
    "int_code_end.",
    "{call,2,{f,7}}.",
    "{call_last,2,{f,7},3}.",
    "{call_only,0,{f,0}}.",
    "{call_ext,1,{extfunc,erlang,display,1}}.",
    "{call_ext_last,0,{extfunc,'A b',c,0},2}.",
    "{call_ext_only,3,{extfunc,m,f,3}}.",
    "{bif,self,{f,0},[],{x,0}}.",
    "{bif,hd,{f,0},[{x,1}],{y,2}}.",
    "{bif,'-',{f,4},[{literal,5}],{x,2}}.",
    "{bif,'=:=',{f,3},[{x,1},{atom,a}],{x,2}}.",
    "{gc_bif,length,{f,0},2,[{x,0}],{x,0}}.",
    "{gc_bif,'+',{f,9},1,[{x,0},{integer,1}],{x,0}}.",
    "{allocate,1,2}.",
    "{allocate_heap,1,3,2}.",
    "{allocate_heap,1,{alloc,[{words,3},{floats,0},{'fun s',7}]},2}.",
    "{test_heap,4,1}.",
    "{test_heap,{alloc,[]},1}.",
    "{deallocate,0}.",
    "return.",
    "{trim,1,2}.",
    "{init_yregs,{list,[{y,0},{y,2}]}}.",
    "{init_yregs,{list,[]}}.",
    "{move,{x,0},{y,0}}.",
    "{move,{integer,-9223372036854775808},{x,1022}}.",
    "{move,nil,{x,4294967295}}.",
    "{swap,{x,0},{y,1}}.",
    "send.",
    "{loop_rec,{f,5},{x,0}}.",
    "remove_message.",
    "{loop_rec_end,{f,3}}.",
    "{wait,{f,3}}.",
    "timeout.",
    "{wait_timeout,{f,3},{integer,10}}.",
    "{wait_timeout,{f,3},{atom,infinity}}.",
    "{jump,{f,3}}.",
    "{select_val,{x,0},{f,3},{list,[{atom,a},{f,4},{integer,7},{f,5}]}}.",
    "{select_val,{atom,a},{f,3},{list,[]}}.",
    "{select_tuple_arity,{x,0},{f,3},{list,[2,{f,4}]}}.",
    "{get_list,{x,0},{x,1},{x,2}}.",
    "{get_hd,{x,0},{y,1}}.",
    "{get_tl,{x,0},{x,1}}.",
    "{get_tuple_element,{x,0},3,{x,1}}.",
    "{put_list,{x,0},nil,{x,1}}.",
    "{put_tuple2,{x,0},{list,[{x,1},{atom,a},nil,{integer,2}]}}.",
    "{badmatch,{x,0}}.",
    "{case_end,{literal,[]}}.",
    "if_end.",
    "{try_case_end,{y,0}}.",
    "{'catch',{y,0},{f,3}}.",
    "{catch_end,{y,0}}.",
    "{try_end,{y,0}}.",
    "{try_case,{y,0}}.",
    "{raise,{f,0},[{x,2},{x,1}],{x,0}}.",
    "build_stacktrace.",
    "{line,[]}.",
    "{test,test_arity,{f,1},[{x,0},2]}.",
    "{test,is_tagged_tuple,{f,1},[{x,0},2,{atom,a}]}.",
    "{test,is_lt,{f,1},[{x,0},{integer,1}]}.",
    "{test,is_ge,{f,1},[{x,0},{integer,1}]}.",
    "{test,is_eq,{f,1},[{x,0},{integer,1}]}.",
    "{test,is_ne,{f,1},[{x,0},{integer,1}]}.",
    "{test,is_eq_exact,{f,1},[{x,0},{integer,1}]}.",
    "{test,is_ne_exact,{f,1},[{x,0},{integer,1}]}.",
    "{test,is_integer,{f,1},[{x,0}]}.",
    "{test,is_float,{f,1},[{x,0}]}.",
    "{test,is_number,{f,1},[{x,0}]}.",
    "{test,is_atom,{f,1},[{x,0}]}.",
    "{test,is_pid,{f,1},[{x,0}]}.",
    "{test,is_reference,{f,1},[{x,0}]}.",
    "{test,is_port,{f,1},[{x,0}]}.",
    "{test,is_nil,{f,1},[{x,0}]}.",
    "{test,is_binary,{f,1},[{x,0}]}.",
    "{test,is_list,{f,1},[{x,0}]}.",
    "{test,is_nonempty_list,{f,1},[{x,0}]}.",
    "{test,is_tuple,{f,1},[{x,0}]}.",
    "{test,is_boolean,{f,1},[{x,0}]}.",
    "{bif,'div',{f,0},[{x,0},{integer,-1}],{x,1}}.",
    "{bif,'not',{f,0},[{x,0}],{x,0}}.",
    "{move,{atom,''},{x,0}}.",
    "{move,{atom,'X'},{x,0}}.",
    "{move,{atom,'a b\\n'},{x,0}}.",
    "{move,{atom,'\\x{7f}\\'\\\\'},{x,0}}.",
    "{move,{atom,'é'},{x,0}}.",
    "{move,{literal,{}},{x,0}}.",
    "{move,{literal,[{a,[]},'fun',-7|'B']},{x,0}}.",
    "{move,{atom,maybe},{x,0}}.",
];

#[test]
fn written_as_read(rt: HostRuntime) -> Result<(), Fail> {
    for item in &AS_READ {
        assert!(rt; are_written(rt.alloc(), *item, *item)?, "{item}");
    }
    Ok(())
}

static OTHERWISE: [(&str, &str); 17] = [
    (
        "{move,{tr,{x,7},{t_integer,{0,1}}},{tr,{tr,{y,1},any},any}}.",
        "{move,{x,7},{y,1}}.",
    ),
    (
        "{move,{literal,{a,\"bc\",[d|e]}},{x,0}}.",
        "{move,{literal,{a,[98,99],[d|e]}},{x,0}}.",
    ),
    ("{'try',{tr,{y,0},any},{f,3}}.", "{'try',{y,0},{f,3}}."),
    (
        "{bif,raise,{f,0},[{x,2},{atom,a}],{tr,{x,0},any}}.",
        "{raise,{f,0},[{x,2},{atom,a}],{x,0}}.",
    ),
    (
        "{line,[{location,\"a.erl\",12345678901234567890}]}.",
        "{line,[]}.",
    ),
    ("{move,{integer,007},{x,0}}.", "{move,{integer,7},{x,0}}."),
    ("{move,{integer,-0},{x,00}}.", "{move,{integer,0},{x,0}}."),
    ("{move,{atom,'abc'},{x,0}}.", "{move,{atom,abc},{x,0}}."),
    (
        "{move,{atom,'\\x{e9}\\101\\s'},{x,0}}.",
        "{move,{atom,'éA '},{x,0}}.",
    ),
    (
        "{move,{literal,[1|[2|[3]]]},{x,0}}.",
        "{move,{literal,[1,2,3]},{x,0}}.",
    ),
    (
        "{move,{literal,\"a\" \"b\"},{x,0}}.",
        "{move,{literal,[97,98]},{x,0}}.",
    ),
    ("{move,{literal,\"\"},{x,0}}.", "{move,{literal,[]},{x,0}}."),
    ("{ move ,{x, 0} , % to\n {y,1}\t}.", "{move,{x,0},{y,1}}."),
    ("{'move',{x,0},{x,1}}.", "{move,{x,0},{x,1}}."),
    ("{'%',{var_info,{x,0},#{a => 1.5}}}. return.", "return."),
    ("return. {'%',<<\"a\">>}.", "return."),
    (
        "{test,is_lt,{f,1},[{tr,{x,0},any}|[{x,1}]]}.",
        "{test,is_lt,{f,1},[{x,0},{x,1}]}.",
    ),
];

#[test]
fn written_otherwise_than_read(rt: HostRuntime) -> Result<(), Fail> {
    for (item, written) in &OTHERWISE {
        assert!(rt; are_written(rt.alloc(), *item, *written)?, "{item}");
    }
    Ok(())
}
