//! Terms as they are printed, worked out by hand (Erlang Reference Manual, "Data Types").

use bx_terms::Fault;
use bx_text::{next_term, print_node};
use std::alloc::Global;
use std::test::Fail;

static PRINTED: [(&str, &str); 22] = [
    ("[1|'X'].", "[1|'X']"),
    ("[1,2|b].", "[1,2|b]"),
    ("[ 1 | [ 2 | {} ] ].", "[1,2|{}]"),
    ("[1|[2,a]].", "[1,2,a]"),
    ("[1|\"b\"].", "[1,98]"),
    ("\"ab\" \"c\".", "[97,98,99]"),
    ("\"\".", "[]"),
    ("[ ] .", "[]"),
    ("{ } .", "{}"),
    ("{a,\n{'B',[c]},[[]]}.", "{a,{'B',[c]},[[]]}"),
    ("007.", "7"),
    ("-0.", "0"),
    ("-9223372036854775808.", "-9223372036854775808"),
    ("0009223372036854775808.", "9223372036854775808"),
    ("-00123456789012345678901.", "-123456789012345678901"),
    ("'hello_World@1'.", "hello_World@1"),
    ("'hello world'.", "'hello world'"),
    ("'_a'.", "'_a'"),
    ("''.", "''"),
    ("{1.50,#{a => 1}}.", "{1.50,#{a => 1}}"),
    ("[<<1, 2>>|fun a : b/1].", "[<<1, 2>>|fun a : b/1]"),
    ("'\\x62c'.", "bc"),
];

/// The text of a text's first term.
fn printed(alloc: Global, text: &str) -> Result<String, Fault> {
    match next_term(alloc, text.as_bytes(), 0)? {
        Some((node, _)) => print_node(alloc, &node),
        None => Ok(String::from_str(alloc, "none")?),
    }
}

#[test]
fn terms_are_printed_without_spaces(rt: HostRuntime) -> Result<(), Fail> {
    for (text, wanted) in &PRINTED {
        let printed = printed(rt.alloc(), text)?;
        assert_eq!(rt; printed.as_str(), *wanted);
    }
    Ok(())
}
