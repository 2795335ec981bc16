//! What names the function to start with.

use bx_engine::{Failure, start_of};
use std::test::Fail;

#[test]
fn reads_two_atoms_round_a_colon(rt: HostRuntime) -> Result<(), Fail> {
    let rows = [
        ("m:f", "m", "f"),
        ("fun:start_1@x", "fun", "start_1@x"),
        ("'k k':'a:b'", "k k", "a:b"),
        ("'':''", "", ""),
    ];
    for (text, module, function) in rows {
        let start = start_of(rt.alloc(), text)?;
        assert!(rt; start.module() == module, "{text}");
        assert!(rt; start.function() == function, "{text}");
    }
    Ok(())
}

#[test]
fn refuses_all_else(rt: HostRuntime) {
    let texts = [
        "", ":", "m", "m:", ":f", "m:f ", " m:f", "m :f", "m: f", "m:f:g", "m:f/0", "m.f", "M:f",
        "m:F", "1:f", "m:'f", "m:'\\x'", "'m:f", "m::f", "m:f.",
    ];
    for text in texts {
        let refused = start_of(rt.alloc(), text);
        assert!(rt; matches!(refused, Err(Failure::Start)), "{text}");
    }
}

#[test]
fn starts_are_compared_by_both_names(rt: HostRuntime) -> Result<(), Fail> {
    let one = start_of(rt.alloc(), "m:f")?;
    for (text, same) in [("'m':f", true), ("m:g", false), ("n:f", false)] {
        let other = start_of(rt.alloc(), text)?;
        assert!(rt; one.same(&other) == same, "{text}");
    }
    Ok(())
}
