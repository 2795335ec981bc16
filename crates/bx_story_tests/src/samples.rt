//! Modules that were written by hand.

/// `f/0` moves an atom and ends.
pub const ENDS: &str =
    "{module,m}. {exports,[{f,0}]}. {attributes,[]}. {labels,9}. {function,f,0,2}.
{label,1}. {func_info,{atom,m},{atom,f},0}. {label,2}. {move,{atom,ok},{x,0}}. return.";

/// `f/0` adds 1 to the greatest integer.
pub const OVERFLOWS: &str =
    "{module,m}. {exports,[{f,0}]}. {attributes,[]}. {labels,9}. {function,f,0,2}.
{label,1}. {func_info,{atom,m},{atom,f},0}. {label,2}.
{gc_bif,'+',{f,0},0,[{integer,9223372036854775807},{integer,1}],{x,0}}. return.";

/// `f/0` spawns two `g/2` by its tenth run, which each send it a letter and end, and shows the first letter that it receives.
pub const SENDERS: &str =
    "{module,m}. {exports,[{f,0},{g,2}]}. {attributes,[]}. {labels,9}. {function,f,0,2}.
{label,1}. {func_info,{atom,m},{atom,f},0}. {label,2}.
{bif,self,{f,0},[],{x,3}}. {put_list,{atom,a},nil,{x,2}}.
{put_list,{x,3},{x,2},{x,2}}. {move,{atom,g},{x,1}}.
{move,{atom,m},{x,0}}. {call_ext,3,{extfunc,erlang,spawn,3}}.
{put_list,{atom,b},nil,{x,2}}. {put_list,{x,3},{x,2},{x,2}}.
{move,{atom,m},{x,0}}. {call_ext,3,{extfunc,erlang,spawn,3}}.
{label,3}. {loop_rec,{f,4},{x,0}}. remove_message.
{call_ext_only,1,{extfunc,erlang,display,1}}. {label,4}. {wait,{f,3}}.
{function,g,2,6}. {label,5}. {func_info,{atom,m},{atom,g},2}. {label,6}.
send. return.";
