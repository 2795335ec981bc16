//! Natives that ask the world, with an argument of each wrong kind: the fault `badarg`.

use crate::reports::report_of;
use bx_terms::Fault;
use bxemu_testkit::{joined, numbered};
use std::alloc::Global;
use std::test::Fail;

/// Natives whose first argument has to be a pid, and how many they have.
const TO_A_PID: [(&str, u8); 5] = [
    ("link", 1),
    ("unlink", 1),
    ("exit", 2),
    ("send", 2),
    ("'!'", 2),
];

const NO_PIDS: [&str; 5] = [
    "{integer,0}",
    "{atom,a}",
    "{literal,{0}}",
    "nil",
    "{literal,[0]}",
];

/// x9 holds a pid.
const NO_ATOMS: [&str; 5] = [
    "{integer,0}",
    "{x,9}",
    "{literal,{m}}",
    "nil",
    "{literal,[m]}",
];

const NO_PROPER_LISTS: [&str; 5] = [
    "{integer,0}",
    "{atom,a}",
    "{x,9}",
    "{literal,{a}}",
    "{literal,[a|b]}",
];

/// Whether a call of that native with these in x0, x1 and x2 ends the process with `badarg`.
fn is_refused(alloc: Global, native: &str, arity: u8, arguments: [&str; 3]) -> Result<bool, Fault> {
    let [first, second, third] = arguments;
    let moves = [
        "{bif,self,{f,0},[],{x,9}}. {move,",
        first,
        ",{x,0}}. {move,",
        second,
        ",{x,1}}. {move,",
        third,
    ];
    let mut items = joined(alloc, &moves)?;
    items.push_str(numbered(
        alloc,
        ",{x,2}}. {call_ext,",
        arity as u32,
        ",{extfunc,erlang,",
    )?
    .as_str())?;
    items.push_str(native)?;
    items.push_str(numbered(alloc, ",", arity as u32, "}}. return.")?.as_str())?;
    let report = report_of(alloc, items.as_str(), "return.", "r0*5")?;
    Ok(report.as_str() == "applied 5\nstate quiet\nprocess <0.0.0> ended {badarg,[]}\nend\n")
}

/// Whether that native takes none of these for a pid.
fn wants_a_pid(alloc: Global, native: &str, arity: u8) -> Result<bool, Fault> {
    for wrong in NO_PIDS {
        if !is_refused(alloc, native, arity, [wrong, "{atom,a}", "nil"])? {
            return Ok(false);
        }
    }
    Ok(true)
}

#[test]
fn natives_that_want_a_pid(rt: HostRuntime) -> Result<(), Fail> {
    for (native, arity) in TO_A_PID {
        assert!(rt; wants_a_pid(rt.alloc(), native, arity)?, "{native}");
    }
    Ok(())
}

/// Whether that native takes none of these for the name of a module, nor for that of a function.
fn wants_names(alloc: Global, native: &str) -> Result<bool, Fault> {
    for wrong in NO_ATOMS {
        if !is_refused(alloc, native, 3, [wrong, "{atom,g}", "nil"])?
            || !is_refused(alloc, native, 3, ["{atom,m}", wrong, "nil"])?
        {
            return Ok(false);
        }
    }
    Ok(true)
}

/// Whether that native takes none of these for arguments.
fn wants_a_list(alloc: Global, native: &str) -> Result<bool, Fault> {
    for wrong in NO_PROPER_LISTS {
        if !is_refused(alloc, native, 3, ["{atom,m}", "{atom,g}", wrong])? {
            return Ok(false);
        }
    }
    Ok(true)
}

#[test]
fn spawns_that_are_refused(rt: HostRuntime) -> Result<(), Fail> {
    for native in ["spawn", "spawn_link"] {
        let refused = wants_names(rt.alloc(), native)? && wants_a_list(rt.alloc(), native)?;
        assert!(rt; refused, "{native}");
    }
    Ok(())
}
