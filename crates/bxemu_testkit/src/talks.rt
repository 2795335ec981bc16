//! A program in which two processes hold all that a process may, a mailbox, links, a frame and a tag among it.

/// `f/0` traps exits, spawns a linked `g/0` and tells it its pid from within a try; it shows the second of the two messages that
/// come back, and passes over the first. What it leaves in its mailbox are the first one and the exit of `g/0`.
pub const TALK: &str = "{module,m}. {exports,[{f,0},{g,0}]}. {labels,11}.
{function,f,0,2}. {label,1}. {func_info,{atom,m},{atom,f},0}. {label,2}. {allocate,2,0}. {'try',{y,1},{f,3}}.
{move,{atom,trap_exit},{x,0}}. {move,{atom,true},{x,1}}. {call_ext,2,{extfunc,erlang,process_flag,2}}.
{move,{atom,m},{x,0}}. {move,{atom,g},{x,1}}. {move,nil,{x,2}}. {call_ext,3,{extfunc,erlang,spawn_link,3}}.
{move,{x,0},{y,0}}. {bif,self,{f,0},[],{x,1}}. {put_tuple2,{x,1},{list,[{atom,from},{x,1}]}}. send.
{label,4}. {loop_rec,{f,6},{x,0}}. {test,is_eq_exact,{f,5},[{x,0},{atom,b}]}. remove_message.
{call_ext,1,{extfunc,erlang,display,1}}. {try_end,{y,1}}. {deallocate,2}. return.
{label,5}. {loop_rec_end,{f,4}}. {label,6}. {wait,{f,4}}. {label,3}. {try_case,{y,1}}. {deallocate,2}. return.
{function,g,0,8}. {label,7}. {func_info,{atom,m},{atom,g},0}. {label,8}. {label,9}. {loop_rec,{f,10},{x,0}}.
{get_tuple_element,{x,0},1,{x,0}}. remove_message. {allocate,1,1}. {move,{x,0},{y,0}}. {move,{atom,a},{x,1}}. send.
{move,{y,0},{x,0}}. {move,{atom,b},{x,1}}. send. {deallocate,1}. return. {label,10}. {wait,{f,9}}.";
