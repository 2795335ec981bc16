//! Places that are to hold a tag, and registers that are to hold a trace: each with what may stand there instead.

use crate::reports::right_traps;
use std::test::Fail;

/// Items, how many runs, and the trap that the last of them is, where no fault is pending.
const TAGS: [(&str, u32, &str); 12] = [
    ("{catch_end,{y,0}}.", 1, "NoFrame"),
    ("{allocate,1,0}. {catch_end,{y,1}}.", 2, "FrameSize"),
    ("{allocate,1,0}. {catch_end,{y,0}}.", 2, "NoTag"),
    (
        "{allocate,1,0}. {'try',{y,0},{f,3}}. if_end. {label,3}. {try_case,{y,0}}. {move,{x,2},{y,0}}. {catch_end,{y,0}}.",
        6,
        "NoTag",
    ),
    ("{try_end,{y,0}}.", 1, "NoFrame"),
    ("{allocate,1,0}. {try_end,{y,1}}.", 2, "FrameSize"),
    ("{allocate,1,0}. {try_end,{y,0}}.", 2, "NoTag"),
    (
        "{allocate,1,0}. {'try',{y,0},{f,3}}. if_end. {label,3}. {try_case,{y,0}}. {move,{x,2},{y,0}}. {try_end,{y,0}}.",
        6,
        "NoTag",
    ),
    ("{try_case,{y,0}}.", 1, "NoFrame"),
    ("{allocate,1,0}. {try_case,{y,1}}.", 2, "FrameSize"),
    (
        "{allocate,1,0}. {move,nil,{y,0}}. {try_case,{y,0}}.",
        3,
        "NoPending",
    ),
    (
        "{allocate,1,0}. {'try',{y,0},{f,3}}. if_end. {label,3}. {try_case,{y,0}}. {move,{x,2},{y,0}}. {try_case,{y,0}}.",
        6,
        "NoPending",
    ),
];

/// The same while a fault is pending.
const TAGS_OF_A_FAULT: [(&str, u32, &str); 9] = [
    (
        "{allocate,1,0}. {'try',{y,0},{f,3}}. if_end. {label,3}. {try_case,{y,1}}.",
        4,
        "FrameSize",
    ),
    (
        "{allocate,2,0}. {'try',{y,0},{f,3}}. if_end. {label,3}. {try_case,{y,1}}.",
        4,
        "NoTag",
    ),
    (
        "{allocate,2,0}. {'try',{y,0},{f,3}}. {badmatch,{integer,5}}. {label,3}. {try_case,{y,1}}.",
        4,
        "NoTag",
    ),
    (
        "{allocate,2,0}. {move,nil,{y,1}}. {'try',{y,0},{f,3}}. if_end. {label,3}. {try_case,{y,1}}.",
        5,
        "NoTag",
    ),
    (
        "{allocate,2,0}. {'try',{y,0},{f,3}}. if_end. {label,3}. {try_case,{y,0}}. {move,{x,2},{y,1}}. {'try',{y,0},{f,4}}. if_end. {label,4}. {try_case,{y,1}}.",
        8,
        "NoTag",
    ),
    (
        "{allocate,1,0}. {'catch',{y,0},{f,3}}. if_end. {label,3}. {catch_end,{y,1}}.",
        4,
        "FrameSize",
    ),
    (
        "{allocate,2,0}. {'catch',{y,0},{f,3}}. if_end. {label,3}. {catch_end,{y,1}}.",
        4,
        "NoTag",
    ),
    (
        "{allocate,2,0}. {move,nil,{y,1}}. {'catch',{y,0},{f,3}}. if_end. {label,3}. {catch_end,{y,1}}.",
        5,
        "NoTag",
    ),
    (
        "{allocate,2,0}. {'try',{y,0},{f,3}}. if_end. {label,3}. {try_case,{y,0}}. {move,{x,2},{y,1}}. {'catch',{y,0},{f,4}}. if_end. {label,4}. {catch_end,{y,1}}.",
        8,
        "NoTag",
    ),
];

#[test]
fn places_that_hold_no_tag(rt: HostRuntime) -> Result<(), Fail> {
    assert_eq!(rt; right_traps(rt.alloc(), &TAGS)?, TAGS.len());
    assert_eq!(rt;
        right_traps(rt.alloc(), &TAGS_OF_A_FAULT)?,
        TAGS_OF_A_FAULT.len()
    );
    Ok(())
}

/// The same of what raises a fault once more: its trace, and then its value.
const RAISES: [(&str, u32, &str); 11] = [
    ("{raise,{f,0},[{x,0},nil],{x,0}}.", 1, "Unset"),
    (
        "{allocate,1,0}. {raise,{f,0},[{y,0},nil],{x,0}}.",
        2,
        "Unset",
    ),
    ("{raise,{f,0},[{y,0},nil],{x,0}}.", 1, "NoFrame"),
    (
        "{allocate,1,0}. {raise,{f,0},[{y,1},nil],{x,0}}.",
        2,
        "FrameSize",
    ),
    (
        "{allocate,1,0}. {'try',{y,0},{f,2}}. {raise,{f,0},[{y,0},nil],{x,0}}.",
        3,
        "WrongShape",
    ),
    (
        "{move,nil,{x,0}}. {raise,{f,0},[{x,0},{x,9}],{x,0}}.",
        2,
        "WrongShape",
    ),
    (
        "{allocate,1,0}. {'try',{y,0},{f,3}}. if_end. {label,3}. {try_case,{y,0}}. {raise,{f,0},[{x,2},{x,9}],{x,0}}.",
        5,
        "Unset",
    ),
    (
        "{allocate,2,0}. {'try',{y,1},{f,2}}. {'try',{y,0},{f,3}}. if_end. {label,3}. {try_case,{y,0}}. {raise,{f,0},[{x,2},{y,1}],{x,0}}.",
        6,
        "NotATerm",
    ),
    (
        "{allocate,1,0}. {'try',{y,0},{f,3}}. if_end. {label,3}. {try_case,{y,0}}. {raise,{f,0},[{x,2},{x,2}],{x,0}}.",
        5,
        "NotATerm",
    ),
    (
        "{allocate,1,0}. {'try',{y,0},{f,3}}. if_end. {label,3}. {try_case,{y,0}}. {deallocate,1}. {raise,{f,0},[{x,2},{y,0}],{x,0}}.",
        6,
        "NoFrame",
    ),
    (
        "{allocate,1,0}. {'try',{y,0},{f,3}}. if_end. {label,3}. {try_case,{y,0}}. {raise,{f,0},[{x,2},{y,1}],{x,0}}.",
        5,
        "FrameSize",
    ),
];

#[test]
fn faults_that_are_not_raised_again(rt: HostRuntime) -> Result<(), Fail> {
    assert_eq!(rt; right_traps(rt.alloc(), &RAISES)?, RAISES.len());
    Ok(())
}
