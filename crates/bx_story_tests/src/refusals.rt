//! Listings and plans that are refused, and the line that tells it.

use crate::engines::told_of_run;
use crate::rows::{Row, right_items};
use bx_terms::Fault;
use std::alloc::Global;
use std::test::Fail;

/// Of items and plans that are refused.
const REFUSED: [Row; 16] = [
    (
        "{jump,{f,9}}.",
        "a: r0\n",
        "bxemu: R13 LabelMissing 9 in m.S\n",
    ),
    (
        "{move,{float,1.5},{x,0}}.",
        "a: r0\n",
        "bxemu: R9 Unsupported line 9 float in m.S\n",
    ),
    (
        "{test,is_map,{f,1},[{x,0}]}.",
        "a: r0\n",
        "bxemu: R9 Unsupported line 9 is_map in m.S\n",
    ),
    (
        "{move,{integer,9223372036854775808},{x,0}}.",
        "a: r0\n",
        "bxemu: R11 LiteralRange line 9 in m.S\n",
    ),
    (
        "{move,{x,1023},{x,0}}.",
        "a: r0\n",
        "bxemu: R15 RegisterRange line 9 in m.S\n",
    ),
    (
        "{get_hd,nil,{x,0}}.",
        "a: r0\n",
        "bxemu: R10 BadOperand line 9 in m.S\n",
    ),
    (
        "{jump,{f,9}}.
{move,{x,1023},{x,0}}.",
        "a: r0\n",
        "bxemu: R15 RegisterRange line 10 in m.S\n",
    ),
    (
        "{jump,{f,9}}.
{move,{x,1023},{x,0}}.
{label,1000001}.",
        "a: r0\n",
        "bxemu: R16 TooLarge in m.S\n",
    ),
    (
        "{frob,{float,1.5}}.",
        "a: r0\n",
        "bxemu: R9 Unsupported line 9 frob in m.S\n",
    ),
    (
        "{move,{x,0}}.",
        "a: r0\n",
        "bxemu: R10 BadOperand line 9 in m.S\n",
    ),
    ("return.", "a r0\n", "bxemu: R24 BadLine line 1 in plan\n"),
    (
        "return.",
        "a:\na:\n",
        "bxemu: R25 NameTwice line 2 in plan\n",
    ),
    (
        "return.",
        "a: r0*100001\n",
        "bxemu: R24 BadLine line 1 in plan\n",
    ),
    (
        "return.",
        "a: r0*100000 r0\n",
        "bxemu: R26 TooLong line 1 in plan\n",
    ),
    (
        "return.",
        "a: r0\na: r0*100001\n",
        "bxemu: R24 BadLine line 2 in plan\n",
    ),
    (
        "return.",
        "a: r0\na: r0*100000 r0\n",
        "bxemu: R25 NameTwice line 2 in plan\n",
    ),
];

/// Of listings that are refused.
const LISTINGS: [Row; 7] = [
    (
        "{module,m}.\n{exports,[]}.\n{attributes,[]}.\n{labels,1}.\n",
        "a: r0\n",
        "bxemu: R32 NoEntry\n",
    ),
    ("", "a: r0\n", "bxemu: R8 BadForm line 1 in m.S\n"),
    (
        "{module,m}.\n{exports,[{f,0}]}.\n",
        "a: r0\n",
        "bxemu: R8 BadForm line 3 in m.S\n",
    ),
    (
        "{module,m}.\n{exports,[{f",
        "a: r0\n",
        "bxemu: R6 Truncated line 2 in m.S\n",
    ),
    (
        "{module,m}.\n{exports,[{f,0}]}",
        "a: r0\n",
        "bxemu: R6 Truncated line 2 in m.S\n",
    ),
    (
        "{module,'ab",
        "a: r0\n",
        "bxemu: R6 Truncated line 1 in m.S\n",
    ),
    (
        "{exports,[]}. {module,m}.",
        "a: r0\n",
        "bxemu: R8 BadForm line 1 in m.S\n",
    ),
];

/// How many rows, from the first on, are told of these listings as they should be.
fn right_listings(alloc: Global, rows: &[Row]) -> Result<usize, Fault> {
    for (number, (listing, plan, want)) in rows.iter().enumerate() {
        let text = told_of_run(alloc, listing.as_bytes(), plan)?;
        if text.as_str() != *want {
            return Ok(number);
        }
    }
    Ok(rows.len())
}

#[test]
fn items_and_plans_that_are_refused(rt: HostRuntime) -> Result<(), Fail> {
    assert_eq!(rt; right_items(rt.alloc(), &REFUSED)?, REFUSED.len());
    Ok(())
}

#[test]
fn listings_that_are_refused(rt: HostRuntime) -> Result<(), Fail> {
    assert_eq!(rt; right_listings(rt.alloc(), &LISTINGS)?, LISTINGS.len());
    Ok(())
}

#[test]
fn a_byte_that_is_no_utf8(rt: HostRuntime) -> Result<(), Fail> {
    let text = told_of_run(rt.alloc(), b"{module,m}.\n\xff", "a: r0\n")?;
    assert_eq!(rt; text.as_str(), "bxemu: R7 NotUtf8 line 2 in m.S\n");
    Ok(())
}
