//! Modules that were written by hand, and what a debugger over one tells.

use bx_debugger::debug_text;
use bx_engine::{Failure, fault_line};
use std::alloc::{AllocError, Global};
use std::io::Read;

/// Writes the line of a failure, if it is one.
pub fn tell(
    alloc: Global,
    ended: Result<(), Failure>,
    written: &mut Vec<u8>,
) -> Result<(), AllocError> {
    if let Err(failure) = ended {
        let mut names = Vec::new(alloc);
        names.push(String::from_str(alloc, "m.S")?)?;
        names.push(String::from_str(alloc, "-")?)?;
        fault_line(&failure, &names, written);
    }
    Ok(())
}

/// Whether a debugger over a listing answers this to the commands, the line of its failure behind the answers.
pub fn is_told<C: Read>(
    alloc: Global,
    listing: &str,
    start: &str,
    commands: &mut C,
    want: &str,
) -> Result<bool, AllocError> {
    let mut written = Vec::new(alloc);
    let ended = debug_text(
        alloc,
        &mut [listing.as_bytes()],
        start,
        commands,
        &mut written,
    );
    tell(alloc, ended, &mut written)?;
    Ok(written.as_slice() == want.as_bytes())
}

/// A listing, the start, lines, and what is answered to them, behind it the line of the failure where there is one.
pub type Row<'a> = (&'a str, &'a str, &'a str, &'a str);

/// How many rows, from the first on, are answered so.
pub fn right_rows(alloc: Global, rows: &[Row<'_>]) -> Result<usize, AllocError> {
    for (number, (listing, start, lines, want)) in rows.iter().enumerate() {
        if !is_told(alloc, listing, start, &mut lines.as_bytes(), want)? {
            return Ok(number);
        }
    }
    Ok(rows.len())
}

/// How many lines, from the first on, are refused since they are no command.
pub fn refused_lines(alloc: Global, rows: &[&[u8]]) -> Result<usize, AllocError> {
    for (number, line) in rows.iter().enumerate() {
        let mut commands = *line;
        let want = "refused R33 BadCommand line 1\n";
        if !is_told(alloc, LOOP, "m:f", &mut commands, want)? {
            return Ok(number);
        }
    }
    Ok(rows.len())
}

/// Module `m`, whose `f/0` jumps to itself at item 4.
pub const LOOP: &str = "{module,m}. {exports,[{f,0}]}. {attributes,[]}. {labels,9}.
{function,f,0,2}. {label,1}. {func_info,{atom,m},{atom,f},0}. {label,2}.
{label,3}. {jump,{f,3}}.";

/// The same in a module `'k k'`.
pub const QUOTED: &str = "{module,'k k'}. {exports,[{f,0}]}. {attributes,[]}. {labels,9}.
{function,f,0,2}. {label,1}. {func_info,{atom,'k k'},{atom,f},0}. {label,2}.
{label,3}. {jump,{f,3}}.";

/// Module `m`, whose `f/0` traps at item 4, since x5 holds nothing.
pub const TRAPS: &str = "{module,m}. {exports,[{f,0}]}. {attributes,[]}. {labels,9}.
{function,f,0,2}. {label,1}. {func_info,{atom,m},{atom,f},0}. {label,2}.
{move,{atom,ok},{x,0}}. {move,{x,5},{x,0}}.";

/// The same with `return` for item 4, which ends the process.
pub const TWO: &str = "{module,m}. {exports,[{f,0}]}. {attributes,[]}. {labels,9}.
{function,f,0,2}. {label,1}. {func_info,{atom,m},{atom,f},0}. {label,2}.
{move,{atom,ok},{x,0}}. return.";

/// The example's listing, as `erlc -S` made it, but for its other functions.
pub const HELLO: &str = "{module, hello}.  %% version = 0
{exports, [{f,0}]}.
{attributes, []}.
{labels, 3}.
{function, f, 0, 2}.
  {label,1}.
    {line,[{location,\"hello.erl\",3}]}.
    {func_info,{atom,hello},{atom,f},0}.
  {label,2}.
    {move,{atom,ok},{x,0}}.
    return.
";

/// Module `h`, whose `f/0` comes to hold something of each kind: it traps exits, links itself to a process whose function is
/// not there, sends itself two messages, and passes them over in a receive with a time, within a `try`.
pub const HOLDS: &str = "{module,h}. {exports,[{f,0}]}. {attributes,[]}. {labels,10}.
{function,f,0,2}. {label,1}. {func_info,{atom,h},{atom,f},0}. {label,2}.
{allocate,2,0}. {'try',{y,0},{f,3}}.
{move,{atom,true},{x,1}}. {move,{atom,trap_exit},{x,0}}. {call_ext,2,{extfunc,erlang,process_flag,2}}.
{move,nil,{x,2}}. {move,{atom,g},{x,1}}. {move,{atom,h},{x,0}}. {call_ext,3,{extfunc,erlang,spawn_link,3}}.
{bif,self,{f,0},[],{x,0}}. {move,{atom,hi},{x,1}}. send.
{bif,self,{f,0},[],{x,0}}. {move,{literal,{low,1}},{x,1}}. send.
{call,0,{f,5}}. {label,3}. {try_case,{y,0}}. {deallocate,2}. return.
{function,hear,0,5}. {label,4}. {func_info,{atom,h},{atom,hear},0}. {label,5}. {allocate,0,0}.
{label,6}. {loop_rec,{f,7},{x,0}}. {loop_rec_end,{f,6}}. {label,7}. {wait_timeout,{f,6},{integer,10}}.
timeout. {move,{atom,late},{x,0}}. {call_ext,1,{extfunc,erlang,error,1}}.
{function,g,0,9}. {label,8}. {func_info,{atom,h},{atom,g},0}. {label,9}. return.";

/// The module `LOOP` with lines: of a file in whose name are a tab, a delete and an e with an accent, and of one without a name.
pub const NAMES: &str = "{module,m}. {exports,[{f,0}]}. {attributes,[]}. {labels,9}.
{function,f,0,2}. {label,1}. {line,[{location,\"a b\\t\\x{7f}\u{e9}\",3}]}. {func_info,{atom,m},{atom,f},0}. {label,2}.
{label,3}. {line,[{location,\"\",4294967295}]}. {jump,{f,3}}.";

/// Module `l`, whose `f/0` calls `g/0` within a `try`, and that waits for a time. The last `line` says nothing.
pub const LINES: &str = "{module,l}. {exports,[{f,0}]}. {attributes,[]}. {labels,8}.
{function,f,0,2}. {label,1}. {line,[{location,\"l.erl\",3}]}. {func_info,{atom,l},{atom,f},0}. {label,2}.
{allocate,1,0}. {'try',{y,0},{f,3}}. {line,[{location,\"l.erl\",4}]}. {call,0,{f,5}}.
{line,[{location,\"l.erl\",6}]}. {label,3}. {try_case,{y,0}}. {deallocate,1}. return.
{function,g,0,5}. {label,4}. {line,[{location,\"l.erl\",8}]}. {func_info,{atom,l},{atom,g},0}. {label,5}. {allocate,0,0}.
{line,[{location,\"l.erl\",9}]}. {label,6}. {loop_rec,{f,7},{x,0}}. {loop_rec_end,{f,6}}. {label,7}.
{wait_timeout,{f,6},{integer,10}}. timeout. {line,[]}. {deallocate,0}. return.";

/// Module `s`, whose `f/0` sends a process each kind of signal but a message, and ends.
pub const SIGNALS: &str = "{module,s}. {exports,[{f,0}]}. {attributes,[]}. {labels,3}.
{function,f,0,2}. {label,1}. {func_info,{atom,s},{atom,f},0}. {label,2}.
{allocate,1,0}. {move,nil,{x,2}}. {move,{atom,f},{x,1}}. {move,{atom,s},{x,0}}. {call_ext,3,{extfunc,erlang,spawn,3}}.
{move,{x,0},{y,0}}. {call_ext,1,{extfunc,erlang,link,1}}.
{move,{y,0},{x,0}}. {move,{atom,stop},{x,1}}. {call_ext,2,{extfunc,erlang,exit,2}}.
{move,{y,0},{x,0}}. {call_ext,1,{extfunc,erlang,unlink,1}}.
{move,{y,0},{x,0}}. {call_ext,1,{extfunc,erlang,link,1}}.
{move,{atom,bye},{x,0}}. {call_ext,1,{extfunc,erlang,exit,1}}.";

/// `f/0` calls by name: a loaded function, a native that is its own affair, `display/1`, a guard, and at last `'!'/2` with its own pid.
pub const CALLS: &str = "{module,m}. {exports,[{f,0},{g,0}]}. {attributes,[]}. {labels,5}.
{function,f,0,2}. {label,1}. {func_info,{atom,m},{atom,f},0}. {label,2}. {allocate,0,0}.
{call_ext,0,{extfunc,m,g,0}}. {call_ext,2,{extfunc,erlang,'++',2}}. {call_ext,1,{extfunc,erlang,display,1}}.
{call_ext,0,{extfunc,erlang,self,0}}. {move,{atom,late},{x,1}}. {call_ext_last,2,{extfunc,erlang,'!',2},0}.
{function,g,0,4}. {label,3}. {func_info,{atom,m},{atom,g},0}. {label,4}. {move,nil,{x,0}}. {move,nil,{x,1}}. return.";
