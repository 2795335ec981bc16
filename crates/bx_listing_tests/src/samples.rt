//! Items in every form, and the code of a text.

use bx_listing::{Code, code_of, read_listing};
use bx_terms::{Atoms, Fault};
use std::alloc::Global;

/// The code of a text, whose atoms are in the table then.
pub fn code(alloc: Global, atoms: &mut Atoms, text: &str) -> Result<Code, Fault> {
    let listing = read_listing(alloc, atoms, text.as_bytes())?;
    code_of(alloc, &listing)
}

/// Items in every form, each opcode at least once.
pub const FORMS: &str =
    "{line,[]}. int_code_end. {call,0,{f,2}}. {call_last,0,{f,2},1}. {call_only,0,{f,2}}.
{call_ext,1,{extfunc,lists,last,1}}. {call_ext_last,2,{extfunc,lists,nth,2},3}. {call_ext_only,1,{extfunc,lists,last,1}}.
{bif,self,{f,0},[],{x,0}}. {bif,hd,{f,0},[{x,0}],{y,1}}. {bif,'+',{f,1},[{x,0},{integer,-7}],{x,1}}.
{allocate,1023,0}. {allocate_heap,2,3,0}. {allocate_heap,2,{alloc,[{words,3},{floats,0}]},0}. {test_heap,5,0}.
{test_heap,{alloc,[{words,5}]},0}. {deallocate,2}. return. send. remove_message. timeout.
{loop_rec,{f,1},{x,0}}. {loop_rec_end,{f,1}}. {wait,{f,1}}. {wait_timeout,{f,1},{integer,10}}.
{test,is_lt,{f,1},[{x,0},{y,0}]}. {test,is_ge,{f,1},[{x,0},nil]}. {test,is_eq,{f,1},[{x,0},{atom,a}]}.
{test,is_ne,{f,1},[{x,0},{literal,[1]}]}. {test,is_eq_exact,{f,1},[{x,0},{x,1}]}. {test,is_ne_exact,{f,1},[{x,0},{x,1}]}.
{test,is_integer,{f,1},[{x,0}]}. {test,is_float,{f,1},[{x,0}]}. {test,is_number,{f,1},[{x,0}]}. {test,is_atom,{f,1},[{x,0}]}.
{test,is_pid,{f,1},[{x,0}]}. {test,is_reference,{f,1},[{x,0}]}. {test,is_port,{f,1},[{x,0}]}. {test,is_nil,{f,1},[{x,0}]}.
{test,is_binary,{f,1},[{x,0}]}. {test,is_list,{f,1},[{x,0}]}. {test,is_nonempty_list,{f,1},[{x,0}]}.
{test,is_tuple,{f,1},[{x,0}]}. {test,is_boolean,{f,1},[{x,0}]}. {test,test_arity,{f,1},[{x,0},2]}.
{test,is_tagged_tuple,{f,1},[{x,0},2,{atom,t}]}. {select_val,{x,0},{f,1},{list,[{atom,a},{f,2},{integer,7},{f,1}]}}.
{select_tuple_arity,{x,0},{f,1},{list,[2,{f,2}]}}. {jump,{f,1}}. {'catch',{y,0},{f,1}}. {catch_end,{y,0}}.
{'try',{y,0},{f,1}}. {try_end,{y,0}}. {try_case,{y,0}}. {try_case_end,{x,0}}. {raise,{f,0},[{x,2},{x,1}],{x,0}}.
{move,{integer,-7},{x,1022}}. {move,{literal,{ok,[1|2]}},{y,1022}}. {swap,{x,0},{x,1}}. {get_list,{x,0},{x,1},{x,2}}.
{get_hd,{x,0},{x,1}}. {get_tl,{x,0},{x,1}}. {get_tuple_element,{x,0},0,{x,1}}. {put_list,{x,0},nil,{x,1}}.
{put_tuple2,{x,0},{list,[{x,0},{atom,a},{literal,[]}]}}. {put_tuple2,{x,0},{list,[]}}. {badmatch,{x,0}}. if_end. {case_end,{x,0}}.
{gc_bif,length,{f,0},1,[{x,0}],{x,0}}. {gc_bif,'+',{f,1},2,[{x,0},{x,1}],{x,0}}. {trim,1,2}. build_stacktrace.
{init_yregs,{list,[{y,0},{y,1}]}}. {label,1000000}.";
