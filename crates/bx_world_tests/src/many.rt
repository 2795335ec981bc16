//! Worlds of many: processes, links, senders, messages on the way, lines of output and modules.

use crate::reports::{end_of, text_of};
use bx_terms::Fault;
use bx_world::{Choice, Shown};
use bxemu_testkit::{image, image_of_items, numbered};
use std::alloc::{AllocError, Global};
use std::test::Fail;

/// Spawns a process whose function is not there in each five runs, for ever.
const SPAWNS: &str =
    "{label,3}. {move,nil,{x,2}}. {move,{atom,g},{x,1}}. {move,{atom,m},{x,0}}. {call_ext,3,{extfunc,erlang,spawn,3}}. {jump,{f,3}}.";

/// What is told of 5,119 runs: of 1,024 spawns the last one was one too many.
fn told_of_spawns(alloc: Global) -> Result<String, AllocError> {
    let mut text = String::from_str(alloc, "applied 5119\nstate open")?;
    for pid in 1..1024 {
        text.push_str(numbered(alloc, " r", pid, "")?.as_str())?;
    }
    text.push_str("\nprocess <0.0.0> ended {system_limit,[]}\n")?;
    for pid in 1..1024 {
        text.push_str(numbered(alloc, "process <0.", pid, ".0> ready\n")?.as_str())?;
    }
    text.push_str("end\n")?;
    Ok(text)
}

/// Whether the runs of just these processes are all that is enabled.
fn are_all(enabled: &[Choice], pids: std::ops::Range<u32>) -> bool {
    enabled.iter().copied().eq(pids.map(Choice::Run))
}

#[test]
fn as_many_processes_as_there_may_be(rt: HostRuntime) -> Result<(), Fail> {
    let alloc = rt.alloc();
    let image = image_of_items(alloc, SPAWNS)?;
    let end = end_of(alloc, &image, "m", "r0*5119")?;
    let enabled = end.world.enabled(alloc)?;
    assert!(rt; are_all(enabled.as_slice(), 1..1024));
    let text = text_of(alloc, &image, &end)?;
    assert!(rt; text.as_str() == told_of_spawns(alloc)?.as_str(), "{text}");
    Ok(())
}

/// `f/0` spawns 300 linked `g/1`, six runs each behind the first three, and ends with `done`. Each of them tells it its own pid,
/// in each four runs.
const TELLERS: &str = "{module,m}. {exports,[{f,0},{g,1}]}. {attributes,[]}. {labels,9}.
{function,f,0,2}. {label,1}. {func_info,{atom,m},{atom,f},0}. {label,2}.
{bif,self,{f,0},[],{x,5}}. {put_list,{x,5},nil,{x,6}}. {move,{integer,300},{x,7}}.
{label,5}. {move,{atom,m},{x,0}}. {move,{atom,g},{x,1}}. {move,{x,6},{x,2}}. {call_ext,3,{extfunc,erlang,spawn_link,3}}.
{gc_bif,'-',{f,0},8,[{x,7},{integer,1}],{x,7}}. {test,is_eq_exact,{f,5},[{x,7},{integer,0}]}.
{move,{atom,done},{x,0}}. {call_ext_only,1,{extfunc,erlang,exit,1}}.
{function,g,1,7}. {label,6}. {func_info,{atom,m},{atom,g},1}. {label,7}. {move,{x,0},{x,5}}.
{label,8}. {move,{x,5},{x,0}}. {bif,self,{f,0},[],{x,1}}. send. {jump,{f,8}}.";

/// The spawns; one message of each process and 2,000 of process 7, all on the way at once; and all of them delivered.
fn telling(alloc: Global) -> Result<String, AllocError> {
    let mut text = String::from_str(alloc, "r0*1803")?;
    for pid in 1..301 {
        let runs = if pid == 7 { 8000 } else { 4 };
        text.push_str(numbered(alloc, " r", pid, "*")?.as_str())?;
        text.push_str(numbered(alloc, "", runs, "")?.as_str())?;
    }
    for pid in 1..301 {
        let signals = if pid == 7 { 2000 } else { 1 };
        text.push_str(numbered(alloc, " d", pid, ">0*")?.as_str())?;
        text.push_str(numbered(alloc, "", signals, "")?.as_str())?;
    }
    Ok(text)
}

/// How many messages and links process 0 has behind these choices.
fn counted(alloc: Global, choices: &str) -> Result<Option<(usize, usize)>, Fault> {
    let image = image(alloc, &[TELLERS])?;
    let end = end_of(alloc, &image, "m", choices)?;
    match end.world.process(0) {
        Some(Shown::Live(process)) => {
            Ok(Some((process.messages().len(), process.links().len())))
        }
        _ => Ok(None),
    }
}

#[test]
fn messages_of_many_to_one(rt: HostRuntime) -> Result<(), Fail> {
    let choices = telling(rt.alloc())?;
    let counts = counted(rt.alloc(), choices.as_str())?;
    assert_eq!(rt; counts, Some((2299, 300)));
    Ok(())
}

/// The end of process 0 besides, and what becomes of it at each of the others.
fn ending(alloc: Global) -> Result<String, AllocError> {
    let mut text = telling(alloc)?;
    text.push_str(" r0*2")?;
    for pid in 1..301 {
        text.push_str(numbered(alloc, " d0>", pid, "")?.as_str())?;
    }
    Ok(text)
}

fn told_of_ends(alloc: Global) -> Result<String, AllocError> {
    let mut text = String::from_str(alloc, "applied 13600\nstate quiet\n")?;
    for pid in 0..301 {
        text.push_str(numbered(alloc, "process <0.", pid, ".0> ended done\n")?.as_str())?;
    }
    text.push_str("end\n")?;
    Ok(text)
}

#[test]
fn an_end_is_told_to_many(rt: HostRuntime) -> Result<(), Fail> {
    let alloc = rt.alloc();
    let image = image(alloc, &[TELLERS])?;
    let end = end_of(alloc, &image, "m", ending(alloc)?.as_str())?;
    let text = text_of(alloc, &image, &end)?;
    assert!(rt; text.as_str() == told_of_ends(alloc)?.as_str(), "{text}");
    Ok(())
}

/// Shows 1, 2, 3 and so on, each in four runs.
const SHOWS: &str =
    "{move,{integer,0},{x,1}}. {label,3}. {gc_bif,'+',{f,0},2,[{x,1},{integer,1}],{x,1}}. {move,{x,1},{x,0}}. {call_ext,1,{extfunc,erlang,display,1}}. {jump,{f,3}}.";

fn told_of_terms(alloc: Global) -> Result<String, AllocError> {
    let head = "applied 4400\nstate open r0\nprocess <0.0.0> ready\n";
    let mut text = String::from_str(alloc, head)?;
    for number in 1..1101 {
        text.push_str(numbered(alloc, "output <0.0.0> ", number, "\n")?.as_str())?;
    }
    text.push_str("end\n")?;
    Ok(text)
}

#[test]
fn many_terms_are_shown(rt: HostRuntime) -> Result<(), Fail> {
    let alloc = rt.alloc();
    let image = image_of_items(alloc, SHOWS)?;
    let end = end_of(alloc, &image, "m", "r0*4400")?;
    let text = text_of(alloc, &image, &end)?;
    assert!(rt; text.as_str() == told_of_terms(alloc)?.as_str(), "{text}");
    Ok(())
}

/// A module of that number, whose `f/0` shows `far`; that of each but the first calls the first.
fn module(alloc: Global, number: u32) -> Result<String, AllocError> {
    let items = if number == 0 {
        "{move,{atom,far},{x,0}}. {call_ext_only,1,{extfunc,erlang,display,1}}."
    } else {
        "{call_ext_only,0,{extfunc,m0,f,0}}."
    };
    let name = numbered(alloc, "m", number, "")?;
    let mut text = String::from_str(alloc, "{module,")?;
    text.push_str(name.as_str())?;
    text.push_str(
        "}. {exports,[{f,0}]}. {labels,3}. {function,f,0,2}. {label,1}. {func_info,{atom,",
    )?;
    text.push_str(name.as_str())?;
    text.push_str("},{atom,f},0}. {label,2}. ")?;
    text.push_str(items)?;
    Ok(text)
}

/// So many modules of different names.
fn modules(alloc: Global, count: u32) -> Result<Vec<String>, AllocError> {
    let mut texts = Vec::new(alloc);
    for number in 0..count {
        texts.push(module(alloc, number)?)?;
    }
    Ok(texts)
}

#[test]
fn a_call_from_the_last_module_to_the_first(rt: HostRuntime) -> Result<(), Fail> {
    let alloc = rt.alloc();
    let texts = modules(alloc, 64)?;
    let mut listings = Vec::new(alloc);
    for text in &texts {
        listings.push(text.as_str())?;
    }
    let image = image(alloc, listings.as_slice())?;
    let end = end_of(alloc, &image, "m63", "r0*3")?;
    let text = text_of(alloc, &image, &end)?;
    let want = "applied 3\nstate quiet\nprocess <0.0.0> ended normal\noutput <0.0.0> far\nend\n";
    assert!(rt; text.as_str() == want, "{text}");
    Ok(())
}
