//! Modules that were written by hand.

/// `f/0` shows `hello`; it stands in two lines of `m.erl`.
pub const HELLO: &str = "{module,m}. {exports,[{f,0}]}. {attributes,[]}. {labels,3}.
{function,f,0,2}. {label,1}. {line,[{location,\"m.erl\",4}]}. {func_info,{atom,m},{atom,f},0}. {label,2}.
{move,{atom,hello},{x,0}}. {line,[{location,\"m.erl\",5}]}. {call_ext_only,1,{extfunc,erlang,display,1}}.";

/// `f/0` spawns `g/0`, sends it `a` and ends; `g/0`, of which alone it is said where it stands, takes it and ends.
pub const SENDS: &str = "{module,m}. {exports,[{f,0},{g,0}]}. {attributes,[]}. {labels,7}.
{function,f,0,2}. {label,1}. {func_info,{atom,m},{atom,f},0}. {label,2}.
{move,{atom,m},{x,0}}. {move,{atom,g},{x,1}}. {move,nil,{x,2}}. {call_ext,3,{extfunc,erlang,spawn,3}}.
{move,{atom,a},{x,1}}. send. return.
{function,g,0,4}. {label,3}. {line,[{location,\"m.erl\",9}]}. {func_info,{atom,m},{atom,g},0}. {label,4}.
{label,5}. {loop_rec,{f,6},{x,0}}. remove_message. return. {label,6}. {wait,{f,5}}.";

/// `f/0` adds 1 to the greatest integer.
pub const OVERFLOWS: &str = "{module,m}. {exports,[{f,0}]}. {attributes,[]}. {labels,3}.
{function,f,0,2}. {label,1}. {func_info,{atom,m},{atom,f},0}. {label,2}.
{gc_bif,'+',{f,0},0,[{integer,9223372036854775807},{integer,1}],{x,0}}. return.";

/// `f/0` exits with `oops`.
pub const EXITS: &str = "{module,m}. {exports,[{f,0}]}. {attributes,[]}. {labels,3}.
{function,f,0,2}. {label,1}. {func_info,{atom,m},{atom,f},0}. {label,2}.
{move,{atom,oops},{x,0}}. {call_ext_only,1,{extfunc,erlang,exit,1}}.";

/// `f/0` shows an atom of marks, and then one of 41 letters.
pub const SHOWS: &str = "{module,m}. {exports,[{f,0}]}. {attributes,[]}. {labels,3}.
{function,f,0,2}. {label,1}. {func_info,{atom,m},{atom,f},0}. {label,2}.
{move,{atom,'<a> & \"b\"'},{x,0}}. {call_ext,1,{extfunc,erlang,display,1}}.
{move,{atom,abcdefghijklmnopqrstuvwxyzabcdefghijklmno},{x,0}}. {call_ext_only,1,{extfunc,erlang,display,1}}.";
