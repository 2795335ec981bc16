//! Schedules of one process, and what is told of each; and what is spelled of listings.

use crate::engines::{Engine, Streams, told_of, told_of_run};
use bx_terms::Fault;
use bxemu_testkit::module;
use std::alloc::Global;
use std::sync::Wait;
use std::test::Fail;
use std::thread::Threads;

/// The items of `f/0` of `m`, or a listing of `m`; a plan; and what is told of both.
pub type Row = (&'static str, &'static str, &'static str);

const ALONE: [Row; 33] = [
    (
        "{move,{atom,m},{x,0}}. {call_ext_only,1,{extfunc,erlang,get_module_info,1}}.",
        "a: r0 r0\n",
        "schedule a\napplied 2\nstate quiet\nprocess <0.0.0> ended {undef,[]}\nend\n",
    ),
    (
        "{move,{atom,ok},{x,0}}. return.",
        "a: r0 r0\n",
        "schedule a\napplied 2\nstate quiet\nprocess <0.0.0> ended normal\nend\n",
    ),
    (
        "{gc_bif,'+',{f,0},0,[{integer,9223372036854775807},{integer,1}],{x,0}}. return.",
        "a: r0 r0\n",
        "schedule a\napplied 1\nstate trapped IntegerRange <0.0.0>\nprocess <0.0.0> ready\nend\n",
    ),
    (
        "{gc_bif,'div',{f,0},0,[{integer,7},{integer,0}],{x,0}}. return.",
        "a: r0\n",
        "schedule a\napplied 1\nstate quiet\nprocess <0.0.0> ended {badarith,[]}\nend\n",
    ),
    (
        "{gc_bif,'div',{f,3},0,[{integer,7},{integer,0}],{x,0}}. return. {label,3}. {move,{atom,no},{x,0}}. {call_ext_only,1,{extfunc,erlang,display,1}}.",
        "a: r0*3\n",
        "schedule a\napplied 3\nstate quiet\nprocess <0.0.0> ended normal\noutput <0.0.0> no\nend\n",
    ),
    (
        "{allocate,2,0}. {'catch',{y,1},{f,4}}. {'catch',{y,0},{f,3}}. {move,{atom,t},{x,0}}. {call_ext,1,{extfunc,erlang,throw,1}}. {label,3}. {catch_end,{y,0}}. {put_tuple2,{x,0},{list,[{atom,inner},{x,0}]}}. {call_ext,1,{extfunc,erlang,display,1}}. {label,4}. {catch_end,{y,1}}. {deallocate,2}. return.",
        "a: r0*11\n",
        "schedule a\napplied 11\nstate quiet\nprocess <0.0.0> ended normal\noutput <0.0.0> {inner,t}\nend\n",
    ),
    (
        "{allocate,1,0}. {'try',{y,0},{f,3}}. {badmatch,{integer,5}}. {label,3}. {try_case,{y,0}}. {move,{x,1},{x,0}}. {call_ext_last,1,{extfunc,erlang,display,1},1}.",
        "a: r0*6\n",
        "schedule a\napplied 6\nstate quiet\nprocess <0.0.0> ended normal\noutput <0.0.0> {badmatch,5}\nend\n",
    ),
    (
        "{move,{atom,t},{x,0}}. {call_ext_only,1,{extfunc,erlang,throw,1}}.",
        "a: r0*2\n",
        "schedule a\napplied 2\nstate quiet\nprocess <0.0.0> ended {{nocatch,t},[]}\nend\n",
    ),
    (
        "{bif,self,{f,0},[],{x,0}}. {move,{integer,1},{x,1}}. send.
{bif,self,{f,0},[],{x,0}}. {move,{atom,b},{x,1}}. send.
{bif,self,{f,0},[],{x,0}}. {move,{integer,2},{x,1}}. send.
{label,3}. {loop_rec,{f,5},{x,0}}.
{test,is_eq_exact,{f,4},[{x,0},{atom,b}]}. remove_message. {jump,{f,6}}.
{label,4}. {loop_rec_end,{f,3}}. {label,5}. {wait,{f,3}}.
{label,6}. {loop_rec,{f,7},{x,0}}. remove_message.
{call_ext_only,1,{extfunc,erlang,display,1}}. {label,7}. {wait,{f,6}}.",
        "a: r0*19\n",
        "schedule a\napplied 19\nstate quiet\nprocess <0.0.0> ended normal\noutput <0.0.0> 1\nend\n",
    ),
    (
        "{bif,self,{f,0},[],{x,0}}. {move,{integer,1},{x,1}}. send.
{bif,self,{f,0},[],{x,0}}. {move,{atom,b},{x,1}}. send.
{bif,self,{f,0},[],{x,0}}. {move,{integer,2},{x,1}}. send.
{label,3}. {loop_rec,{f,5},{x,0}}.
{test,is_eq_exact,{f,4},[{x,0},{atom,b}]}. remove_message. {jump,{f,6}}.
{label,4}. {loop_rec_end,{f,3}}. {label,5}. {wait,{f,3}}.
{label,6}. {loop_rec,{f,7},{x,0}}. remove_message.
{call_ext_only,1,{extfunc,erlang,display,1}}. {label,7}. {wait,{f,6}}.",
        "a: r0*20\n",
        "schedule a\napplied 19\nstate stopped r0\nprocess <0.0.0> ended normal\noutput <0.0.0> 1\nend\n",
    ),
    (
        "{move,{atom,true},{x,1}}. {move,{atom,trap_exit},{x,0}}. {call_ext,2,{extfunc,erlang,process_flag,2}}. {bif,self,{f,0},[],{x,0}}. {move,{atom,kill},{x,1}}. {call_ext,2,{extfunc,erlang,exit,2}}. return.",
        "a: r0*6\n",
        "schedule a\napplied 6\nstate quiet\nprocess <0.0.0> ended killed\nend\n",
    ),
    (
        "{move,{x,5},{x,0}}.",
        "a: r0\n",
        "schedule a\napplied 1\nstate trapped Unset <0.0.0>\nprocess <0.0.0> ready\nend\n",
    ),
    (
        "{allocate,1,0}. {deallocate,2}.",
        "a: r0*2\n",
        "schedule a\napplied 2\nstate trapped FrameSize <0.0.0>\nprocess <0.0.0> ready\nend\n",
    ),
    (
        "{deallocate,0}.",
        "a: r0\n",
        "schedule a\napplied 1\nstate trapped NoFrame <0.0.0>\nprocess <0.0.0> ready\nend\n",
    ),
    (
        "remove_message.",
        "a: r0\n",
        "schedule a\napplied 1\nstate trapped NoMessage <0.0.0>\nprocess <0.0.0> ready\nend\n",
    ),
    (
        "{move,nil,{x,0}}. {get_hd,{x,0},{x,0}}.",
        "a: r0*2\n",
        "schedule a\napplied 2\nstate trapped WrongShape <0.0.0>\nprocess <0.0.0> ready\nend\n",
    ),
    (
        "",
        "a: r0\n",
        "schedule a\napplied 1\nstate trapped BadPlace <0.0.0>\nprocess <0.0.0> ready\nend\n",
    ),
    (
        "{label,3}. {wait_timeout,{f,3},{integer,10}}. timeout. return.",
        "a: r0\n",
        "schedule a\napplied 1\nstate open e0\nprocess <0.0.0> waiting\nend\n",
    ),
    (
        "{label,3}. {wait_timeout,{f,3},{integer,10}}. timeout. return.",
        "b: r0 e0 r0 r0\n",
        "schedule b\napplied 4\nstate quiet\nprocess <0.0.0> ended normal\nend\n",
    ),
    (
        "{jump,{f,1}}.",
        "a: r0*2\n",
        "schedule a\napplied 2\nstate quiet\nprocess <0.0.0> ended {function_clause,[]}\nend\n",
    ),
    (
        "{jump,{f,1}}.",
        "a: r0 d0>1\n",
        "schedule a\napplied 1\nstate stopped d0>1\nprocess <0.0.0> ready\nend\n",
    ),
    (
        "{allocate,1,0}. {'catch',{y,0},{f,3}}. {move,{y,0},{x,0}}. {label,3}. return.",
        "a: r0*3\n",
        "schedule a\napplied 3\nstate trapped NotATerm <0.0.0>\nprocess <0.0.0> ready\nend\n",
    ),
    (
        "{allocate,1,0}. {init_yregs,{list,[{y,0}]}}. {catch_end,{y,0}}.",
        "a: r0*3\n",
        "schedule a\napplied 3\nstate trapped NoTag <0.0.0>\nprocess <0.0.0> ready\nend\n",
    ),
    (
        "{allocate,1,0}. {'try',{y,0},{f,3}}. {label,3}. {try_case,{y,0}}.",
        "a: r0*3\n",
        "schedule a\napplied 3\nstate trapped NoPending <0.0.0>\nprocess <0.0.0> ready\nend\n",
    ),
    (
        "{allocate,1,0}. {'catch',{y,0},{f,3}}. if_end. {label,3}. {move,nil,{x,0}}.",
        "a: r0*4\n",
        "schedule a\napplied 4\nstate trapped NoTag <0.0.0>\nprocess <0.0.0> ready\nend\n",
    ),
    (
        "{allocate,2,0}. {trim,1,1}. {deallocate,2}.",
        "a: r0*3\n",
        "schedule a\napplied 3\nstate trapped FrameSize <0.0.0>\nprocess <0.0.0> ready\nend\n",
    ),
    (
        "{allocate,2,0}. {trim,1,1}. {deallocate,1}. return.",
        "a: r0*4\n",
        "schedule a\napplied 4\nstate quiet\nprocess <0.0.0> ended normal\nend\n",
    ),
    (
        "{allocate,0,0}. {call_ext,0,{extfunc,n,g,0}}. {call_ext_last,1,{extfunc,erlang,display,1},0}.",
        "a: r0*2\n",
        "schedule a\napplied 2\nstate quiet\nprocess <0.0.0> ended {undef,[]}\nend\n",
    ),
    (
        "{label,3}. {loop_rec,{f,4},{x,0}}. remove_message. {call_ext_only,1,{extfunc,erlang,display,1}}. {label,4}. {wait_timeout,{f,3},{integer,0}}. timeout. {move,{atom,late},{x,0}}. {call_ext_only,1,{extfunc,erlang,display,1}}.",
        "a: r0*2 e0 r0*3\n",
        "schedule a\napplied 6\nstate quiet\nprocess <0.0.0> ended normal\noutput <0.0.0> late\nend\n",
    ),
    (
        "{label,3}. {loop_rec,{f,4},{x,0}}. remove_message. {call_ext_only,1,{extfunc,erlang,display,1}}. {label,4}. {wait_timeout,{f,3},{atom,infinity}}. timeout. {move,{atom,late},{x,0}}. {call_ext_only,1,{extfunc,erlang,display,1}}.",
        "b: r0*2 e0\n",
        "schedule b\napplied 2\nstate stopped e0\nprocess <0.0.0> waiting\nend\n",
    ),
    (
        "{label,3}. {loop_rec,{f,4},{x,0}}. remove_message. {call_ext_only,1,{extfunc,erlang,display,1}}. {label,4}. {wait_timeout,{f,3},{atom,soon}}. timeout. {move,{atom,late},{x,0}}. {call_ext_only,1,{extfunc,erlang,display,1}}.",
        "c: r0*2\n",
        "schedule c\napplied 2\nstate quiet\nprocess <0.0.0> ended {timeout_value,[]}\nend\n",
    ),
    (
        "{label,3}. {loop_rec,{f,4},{x,0}}. remove_message. {call_ext_only,1,{extfunc,erlang,display,1}}. {label,4}. {wait_timeout,{f,3},{integer,4294967296}}. timeout. {move,{atom,late},{x,0}}. {call_ext_only,1,{extfunc,erlang,display,1}}.",
        "c: r0*2\n",
        "schedule c\napplied 2\nstate quiet\nprocess <0.0.0> ended {timeout_value,[]}\nend\n",
    ),
    (
        "{bif,self,{f,0},[],{x,0}}. {move,{atom,x},{x,1}}. send. {label,3}. {loop_rec,{f,5},{x,0}}. {test,is_eq_exact,{f,4},[{x,0},{atom,y}]}. remove_message. return. {label,4}. {loop_rec_end,{f,3}}. {label,5}. {wait_timeout,{f,3},{integer,5}}. timeout. {label,6}. {loop_rec,{f,7},{x,0}}. remove_message. {call_ext_only,1,{extfunc,erlang,display,1}}. {label,7}. {wait,{f,6}}.",
        "d: r0*8 e0 r0*4\n",
        "schedule d\napplied 13\nstate quiet\nprocess <0.0.0> ended normal\noutput <0.0.0> x\nend\n",
    ),
];

/// Terms as high as a term may be, made by 10,000 runs of which each makes a tuple; and higher ones.
const HIGH: [Row; 3] = [
    (
        "{move,nil,{x,0}}. {label,3}. {put_tuple2,{x,0},{list,[{x,0}]}}. {jump,{f,3}}.",
        "a: r0*20001\n",
        "schedule a\napplied 20001\nstate open r0\nprocess <0.0.0> ready\nend\n",
    ),
    (
        "{move,nil,{x,0}}. {label,3}. {put_tuple2,{x,0},{list,[{x,0}]}}. {jump,{f,3}}.",
        "a: r0*20002\n",
        "schedule a\napplied 20002\nstate trapped TermHeight <0.0.0>\nprocess <0.0.0> ready\nend\n",
    ),
    // each level holds the one below it twice
    (
        "{move,nil,{x,0}}. {label,3}. {put_tuple2,{x,0},{list,[{x,0},{x,0}]}}. {jump,{f,3}}.",
        "a: r0*20001\nb: r0*20002\n",
        "schedule a\napplied 20001\nstate open r0\nprocess <0.0.0> ready\nend\nschedule b\napplied 20002\nstate trapped TermHeight <0.0.0>\nprocess <0.0.0> ready\nend\n",
    ),
];

/// What is told of a module whose `f/0` has these items.
fn told_of_items(alloc: Global, items: &str, plan: &str) -> Result<String, Fault> {
    let listing = module(alloc, items)?;
    told_of_run(alloc, listing.as_bytes(), plan)
}

/// How many rows, from the first on, are told of these items as they should be.
pub fn right_items(alloc: Global, rows: &[Row]) -> Result<usize, Fault> {
    for (number, (items, plan, want)) in rows.iter().enumerate() {
        let text = told_of_items(alloc, items, plan)?;
        if text.as_str() != *want {
            return Ok(number);
        }
    }
    Ok(rows.len())
}

#[test]
fn schedules_of_one_process(rt: HostRuntime) -> Result<(), Fail> {
    assert_eq!(rt; right_items(rt.alloc(), &ALONE)?, ALONE.len());
    Ok(())
}

#[test]
fn schedules_of_high_terms(rt: HostRuntime) -> Result<(), Fail> {
    assert_eq!(rt; right_items(rt.alloc(), &HIGH)?, HIGH.len());
    Ok(())
}

/// Listings, and what `dis` writes of each.
const SPELLED: [(&str, &str); 2] = [
    (
        "{module,m}. {exports,[]}. {attributes,[]}. {labels,1}.",
        "{module,m}.\n{exports,[]}.\n{attributes,[]}.\n{labels,1}.\n",
    ),
    (
        "{module,m}. {exports,[{f,0}]}. {attributes,[]}. {labels,9}. {function,f,0,2}.
{label,1}. {func_info,{atom,m},{atom,f},0}. {label,2}.
{move,{tr,{x,0},{t_integer,{0,'+inf'}}},{x,1}}. {'%',{var_info,{x,0},#{a => 1.5}}}. {line,[{location,\"a.erl\",3}]}. return.",
        "{module,m}.\n{exports,[{f,0}]}.\n{attributes,[]}.\n{labels,3}.\n{function,f,0,2}.\n{label,1}.\n{func_info,{atom,m},{atom,f},0}.\n{label,2}.\n{move,{x,0},{x,1}}.\n{line,[]}.\nreturn.\n",
    ),
];

/// How many rows, from the first on, are spelled as they should be.
fn right_spelled<R: Threads + Wait + Sync>(
    rt: &R,
    alloc: Global,
    rows: &[(&str, &str)],
) -> Result<usize, Fault> {
    for (number, (listing, want)) in rows.iter().enumerate() {
        let streams = Streams::new(alloc, listing.as_bytes(), b"");
        let text = told_of(rt, alloc, Engine::Dis, streams)?;
        if text.as_str() != *want {
            return Ok(number);
        }
    }
    Ok(rows.len())
}

#[test]
fn code_that_listings_spell(rt: HostRuntime) -> Result<(), Fail> {
    assert_eq!(&rt; right_spelled(&rt, rt.alloc(), &SPELLED)?, SPELLED.len());
    Ok(())
}
