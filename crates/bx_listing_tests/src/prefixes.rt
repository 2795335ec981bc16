//! Each prefix of a listing of one item.

use bx_terms::Fault;
use bxemu_testkit::{number_of, read};
use std::alloc::Global;
use std::test::Fail;

/// A listing, and how many of its forms stand at its head, those that no listing lacks. No full stop stands in one but those that
/// end a form.
const LISTINGS: [(&str, usize); 2] = [
    (
        "{module,m}.\n{exports,[{f,0}]}.\n{labels,1}. {function,f,0,1}.\n{move,{literal,\"a\"},{x,0}}. ",
        3,
    ),
    (
        "{module,m}.\n{exports,[{f,0}]}.\n{attributes,[]}.\n{labels,9}.\n{function,f,0,2}.\n{label,1}.\n{func_info,{atom,m},{atom,f},0}.\n{label,2}.\nreturn.\n",
        4,
    ),
];

/// What is wanted of a prefix: 0 where it is a listing, else the number of its refusal. `{fun` is a token too: it may go on to
/// `{function`.
fn wanted(text: &str, head: usize) -> u8 {
    let forms = text.bytes().filter(|byte| *byte == b'.').count();
    let text = text.trim_end();
    if !text.is_empty() && !text.ends_with(".") {
        6
    } else if forms < head {
        8
    } else {
        0
    }
}

/// Whether the prefix that ends there is a listing, or refused, as is wanted.
fn is_as_wanted(alloc: Global, listing: &str, head: usize, end: usize) -> Result<bool, Fault> {
    match listing.get(0..end) {
        Some(text) => Ok(number_of(read(alloc, text))? == wanted(text, head)),
        None => Ok(true),
    }
}

#[test]
fn prefixes_of_a_listing(rt: HostRuntime) -> Result<(), Fail> {
    for (listing, head) in LISTINGS {
        for end in 0..listing.len() + 1 {
            assert!(rt; is_as_wanted(rt.alloc(), listing, head, end)?, "{end}");
        }
    }
    Ok(())
}
