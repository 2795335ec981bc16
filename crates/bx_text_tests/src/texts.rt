//! Texts with what they spell, or their first refusal, worked out by hand.

use bx_terms::Fault;
use bx_text::{Elements, Node, Reader, View, atom_at, next_term};
use std::alloc::{AllocError, Global};
use std::test::Fail;

/// Writes a node in Erlang's notation, so many levels of it.
#[cycle(show)]
fn show(out: &mut String, node: &Node<'_>, levels: u32) -> Result<(), AllocError> {
    match node.view() {
        View::Integer(n) => write!(out, "{n}"),
        View::Large(digits) => write!(out, "large {digits}"),
        View::Atom(text) => out.push_str(text),
        View::Tuple(elements) => {
            out.push_str("{")?;
            show_all(out, Elements::Nodes(elements), levels)?;
            out.push_str("}")
        }
        View::List(elements, tail) => {
            out.push_str("[")?;
            show_all(out, elements, levels)?;
            if let Some(tail) = tail {
                out.push_str("|")?;
                show_below(out, tail, levels)?;
            }
            out.push_str("]")
        }
        View::Other(sort, text) => write!(out, "{sort:?} {text}"),
    }
}

#[cycle(show)]
fn show_all(out: &mut String, elements: Elements<'_, '_>, levels: u32) -> Result<(), AllocError> {
    for i in 0..elements.len() {
        if i > 0 {
            out.push_str(",")?;
        }
        show_below(out, elements.at(i).node(), levels)?;
    }
    Ok(())
}

#[cycle(show)]
fn show_below(out: &mut String, node: &Node<'_>, levels: u32) -> Result<(), AllocError> {
    if levels == 0 {
        return out.push_str("..");
    }
    show(out, node, levels - 1)
}

/// The number and the line of a refusal of a text.
fn number_and_line(fault: &Fault) -> Option<(u8, usize)> {
    match fault {
        Fault::BadToken { line } => Some((3, *line)),
        Fault::BadTerm { line } => Some((4, *line)),
        Fault::TooDeep { line } => Some((5, *line)),
        Fault::Truncated { line } => Some((6, *line)),
        Fault::NotUtf8 { line } => Some((7, *line)),
        _ => None,
    }
}

/// A refusal's number and line in words; what is no refusal of a text is handed on.
fn refusal(alloc: Global, fault: Fault) -> Result<String, Fault> {
    match number_and_line(&fault) {
        Some((number, line)) => Ok(format!(in alloc; "R{number} {line}")?),
        None => Err(fault),
    }
}

/// What a form is, with its end.
fn shown(alloc: Global, node: &Node<'_>, end: usize) -> Result<String, AllocError> {
    let mut out = String::new(alloc);
    show(&mut out, node, 8)?;
    write!(out, " {end}")?;
    Ok(out)
}

/// What the first form of a text is, with its end, or its refusal.
fn first(alloc: Global, text: &[u8]) -> Result<String, Fault> {
    match next_term(alloc, text, 0) {
        Ok(None) => Ok(String::from_str(alloc, "none")?),
        Ok(Some((node, end))) => Ok(shown(alloc, &node, end)?),
        Err(fault) => refusal(alloc, fault),
    }
}

static TERMS: [(&[u8], &str); 67] = [
    (b"1.5.", "Float 1.5 4"),
    (b"-0.5e10.", "Float -0.5e10 8"),
    (b"1.5E+3.", "Float 1.5E+3 7"),
    (b"0.0e-007.", "Float 0.0e-007 9"),
    (b"12.50.", "Float 12.50 6"),
    (b"#{}.", "Map #{} 4"),
    (b"#{a => 1.5, \"k\"=>[]}.", "Map #{a => 1.5, \"k\"=>[]} 21"),
    (b"#{#{}=>{},b=>#{c=>d}}.", "Map #{#{}=>{},b=>#{c=>d}} 22"),
    (b"#{a%}\n=>b}.", "Map #{a%}\n=>b} 11"),
    (b"<<>>.", "Binary <<>> 5"),
    (
        b"<<1,\"ab\":8/utf8,-2:16>>.",
        "Binary <<1,\"ab\":8/utf8,-2:16>> 24",
    ),
    (
        b"<<\"a\" \"b\"/'utf8'>>.",
        "Binary <<\"a\" \"b\"/'utf8'>> 19",
    ),
    (b"<<1/'ut\\x66\\070'>>.", "Binary <<1/'ut\\x66\\070'>> 19"),
    (b"fun a:b/1.", "Fun fun a:b/1 10"),
    (b"fun 'k k' : f / 2.", "Fun fun 'k k' : f / 2 18"),
    (b"fun a:b/-1.", "Fun fun a:b/-1 11"),
    (
        b"{f,fun a:b/1,<<\"x\">>}.",
        "{f,Fun fun a:b/1,Binary <<\"x\">>} 22",
    ),
    (b"1. ", "1 2"),
    (b"1.", "1 2"),
    (b"'a\\nb'.", "a\nb 7"),
    (b"'\\x{e9}\\101\\^A'.", "\u{E9}A\u{1} 16"),
    (b"'\\x{E9}' .", "\u{E9} 10"),
    (
        b"\"\\b\\d\\e\\f\\n\\r\\s\\t\\v\".",
        "[8,127,27,12,10,13,32,9,11] 21",
    ),
    (b"\"\\8\\q\\\\\\'\\\"\".", "[56,113,92,39,34] 13"),
    (b"\"\\777\\1\\12x\".", "[511,1,10,120] 13"),
    (b"\"\\1234\\18\".", "[83,52,1,56] 11"),
    (b"\"\\^@\\^_\\^z\\^[\".", "[0,31,26,27] 15"),
    (b"\"\\x41\\x{10FFFF}\\x{0000041}\".", "[65,1114111,65] 28"),
    (b"\"\\\n\\\xC3\xA9\".", "[10,233] 8"),
    (b"\"a\" %c\n \"\\x{62}\"\"\".", "[97,98] 19"),
    (b"[a|\"b\\x63\"].", "[a,98,99] 12"),
    (b"a.", "a 2"),
    (b" a . b", "a 4"),
    (b"a.%c", "a 2"),
    (b"12.", "12 3"),
    (b"-0.", "0 3"),
    (b"007.", "7 4"),
    (b"-12 .", "-12 5"),
    (b"9223372036854775807.", "9223372036854775807 20"),
    (b"-9223372036854775808.", "-9223372036854775808 21"),
    (b"9223372036854775808.", "large 9223372036854775808 20"),
    (b"-9223372036854775809.", "large -9223372036854775809 21"),
    (b"000000000000000000000000000005.", "5 31"),
    (b"{}.", "{} 3"),
    (b"{a}.", "{a} 4"),
    (b"{ a , {b,1} }.", "{a,{b,1}} 14"),
    (b"[].", "[] 3"),
    (b"[a,b].", "[a,b] 6"),
    (b"[a|b].", "[a|b] 6"),
    (b"[a,b|c].", "[a,b|c] 8"),
    (b"[a|[b]].", "[a,b] 8"),
    (b"[a|[]].", "[a] 7"),
    (b"[a|[b|[c|d]]].", "[a,b,c|d] 14"),
    (b"[a|\"bc\"].", "[a,98,99] 9"),
    (b"[a|{b}].", "[a|{b}] 8"),
    (b"\"\".", "[] 3"),
    (b"\"ab\" \"c\".", "[97,98,99] 9"),
    (b"\"a\"%x\n\"b\".", "[97,98] 10"),
    (b"\"\xC3\xA9\n\".", "[233,10] 6"),
    (b"''.", " 3"),
    (b"'k k'.", "k k 6"),
    (b"'fun'.", "fun 6"),
    (b"function.", "function 9"),
    (b"aB_9@.", "aB_9@ 6"),
    (b"\xC3\x9F\xC3\x80a.", "\u{DF}\u{C0}a 6"),
    (b"%\xC3\xA9\n a.", "a 7"),
    (b" \n%b", "none"),
];

static FIRST_REFUSALS: [(&[u8], &str); 59] = [
    (b"<<1/'\\x75tf9'>>.", "R4 1"),
    (b"<<1/'\\x75tf'>>.", "R4 1"),
    (b"<<1/'\\x75tf88'>>.", "R4 1"),
    (b"<<1/'\\x{175}tf8'>>.", "R4 1"),
    (b"<<1/\n'utf8\\^@'>>.", "R4 2"),
    (b"'\\xZZ'.", "R3 1"),
    (b"'\\x{}'", "R3 1"),
    (b"'\\x{110000}'", "R3 1"),
    (b"\"\\x{d800}\"", "R3 1"),
    (b"'\\^1'", "R3 1"),
    (b"'\\x'", "R3 1"),
    (b"'\\x4'", "R3 1"),
    (b"'\\x{41'", "R3 1"),
    (b"'\\x\xFF", "R3 1"),
    (b"'\\^\xFF", "R3 1"),
    (b"'\\x{4\xFF", "R3 1"),
    (b"\n'a\n\\xq", "R3 2"),
    (b"\"a\n\\xq\xFF", "R3 1"),
    (b"1.5.5.", "R3 1"),
    (b"#a", "R3 1"),
    (b"=a", "R3 1"),
    (b"<a", "R3 1"),
    (b">a", "R3 1"),
    (b"fun A:b/1", "R3 1"),
    (b"=>.", "R4 1"),
    (b">>.", "R4 1"),
    (b"1.5e.", "R4 1"),
    (b"1.5e+ ", "R4 1"),
    (b"1.5e5x.", "R4 1"),
    (b"#{a}", "R4 1"),
    (b"#{a,b}", "R4 1"),
    (b"#{a=>}", "R4 1"),
    (b"#{a=>b,}", "R4 1"),
    (b"#{a=>b]", "R4 1"),
    (b"<<a>>", "R4 1"),
    (b"<<1:a>>", "R4 1"),
    (b"<<1/latin1>>", "R4 1"),
    (b"<<1,>>", "R4 1"),
    (b"<<1}", "R4 1"),
    (b"<<1.5>>", "R4 1"),
    (b"fun a:b/c.", "R4 1"),
    (b"fun\nfun:a/1.", "R4 2"),
    (b"fun a:fun/1.", "R4 1"),
    (b"fun a/1.", "R4 1"),
    (b"fun a. ", "R4 1"),
    (b"'\\x", "R6 1"),
    (b"'\\", "R6 1"),
    (b"'\\x{41", "R6 1"),
    (b"'\\x{110000", "R6 1"),
    (b"'\\^", "R6 1"),
    (b"'\\1", "R6 1"),
    (b"\n'a\n\\q", "R6 3"),
    (b"#{", "R6 1"),
    (b"#{a=>b", "R6 1"),
    (b"#{a=", "R6 1"),
    (b"<<", "R6 1"),
    (b"<<1\n", "R6 2"),
    (b"<<1:", "R6 1"),
    (b"<<1>", "R6 1"),
];

static MORE_REFUSALS: [(&[u8], &str); 54] = [
    (b"fun", "R6 1"),
    (b"fun\n", "R6 2"),
    (b"fun a", "R6 1"),
    (b"fun a:b/", "R6 1"),
    (b"1.5", "R6 1"),
    (b"'\\\xFF", "R7 1"),
    (b"'\\1\xFF", "R7 1"),
    (b"\"a\n\\q\xFF", "R7 2"),
    (b"#{a=>\n\xFF", "R7 2"),
    (b"'\\n\xE2\x82'", "R7 1"),
    // No token begins here.
    (b"1.a.", "R3 1"),
    (b"--1.", "R3 1"),
    (b"-a.", "R3 1"),
    (b"_a.", "R3 1"),
    (b"A.", "R3 1"),
    (b"16#FF.", "R3 1"),
    (b"1_0.", "R3 1"),
    (b"$c.", "R3 1"),
    (b"\xC3\x80.", "R3 1"),
    (b"\xC3\xB7.", "R3 1"),
    (b"a\xC3\x97.", "R3 1"),
    (b"\xC2\xA0a.", "R3 1"),
    (b"\xEF\xBB\xBFa.", "R3 1"),
    (b">=", "R3 1"),
    (b".a", "R3 1"),
    (b"#\xFF", "R3 1"),
    (b".\xFF", "R3 1"),
    (b"-\xFF", "R3 1"),
    (b"{a #\xFF", "R3 1"),
    // A token that cannot stand here.
    (b".", "R4 1"),
    (b"\n. ", "R4 2"),
    (b"(a).", "R4 1"),
    (b")", "R4 1"),
    (b"a b.", "R4 1"),
    (b"12ab.", "R4 1"),
    (b"1e5.", "R4 1"),
    (b"1 2.", "R4 1"),
    (b"{a. ", "R4 1"),
    (b"{a.", "R4 1"),
    (b"{a,}.", "R4 1"),
    (b"{,a}.", "R4 1"),
    (b"{a,,b}.", "R4 1"),
    (b"[|a].", "R4 1"),
    (b"[a|].", "R4 1"),
    (b"[a|b,c].", "R4 1"),
    (b"[a|b|c].", "R4 1"),
    (b"[a|b\n}.", "R4 2"),
    (b"{a].", "R4 1"),
    (b"[a}.", "R4 1"),
    (b"{].", "R4 1"),
    (b"{a|b}.", "R4 1"),
    (b"}.", "R4 1"),
    (b"|.", "R4 1"),
    (b"fun.", "R4 1"),
];

static LAST_REFUSALS: [(&[u8], &str); 53] = [
    (b"{fun}.", "R4 1"),
    (b"a:b.", "R4 1"),
    (b"a/1.", "R4 1"),
    (b"a,b.", "R4 1"),
    (b"{a\n\nb}.", "R4 3"),
    (b"'a'b.", "R4 1"),
    (b"\"a\" 1.", "R4 1"),
    (b"{a b\xFF", "R4 1"),
    // The text ends in a token, in a term or before a full stop.
    (b"a", "R6 1"),
    (b"a\n", "R6 2"),
    (b"a %c\n\n", "R6 3"),
    (b"1", "R6 1"),
    (b"-", "R6 1"),
    (b"\n-", "R6 2"),
    (b"#", "R6 1"),
    (b"=", "R6 1"),
    (b"<", "R6 1"),
    (b">", "R6 1"),
    (b"{", "R6 1"),
    (b"{a", "R6 1"),
    (b"{a,", "R6 1"),
    (b"{a,\n", "R6 2"),
    (b"{a,-", "R6 1"),
    (b"[a|", "R6 1"),
    (b"[a|b", "R6 1"),
    (b"[a|[b]", "R6 1"),
    (b"'ab", "R6 1"),
    (b"'ab\n\n", "R6 3"),
    (b"\"a\n", "R6 2"),
    (b"\"a\" \"b", "R6 1"),
    (b"\"a\"", "R6 1"),
    (b"{module,'ab", "R6 1"),
    // Bytes that are no UTF-8.
    (b"\xFF.", "R7 1"),
    (b"\x80.", "R7 1"),
    (b"\n\xC3", "R7 2"),
    (b"\xC3(", "R7 1"),
    (b"\xE2\x82", "R7 1"),
    (b"a\xFF", "R7 1"),
    (b"a\xC3", "R7 1"),
    (b"a\n \xC3\x28", "R7 2"),
    (b"%\xFF", "R7 1"),
    (b"%\xC3", "R7 1"),
    (b"\n%a\xFFb\nc.", "R7 2"),
    (b"a %\xFF\n.", "R7 1"),
    (b"'a\xFF'.", "R7 1"),
    (b"'a\n\xFFb", "R7 2"),
    (b"'\n\n\xC3'.", "R7 3"),
    (b"'a\xC3", "R7 1"),
    (b"'a\xFF\n\\", "R7 1"),
    (b"\"a\" \"\xFF", "R7 1"),
    (b"\"a\" \n\"\xFF", "R7 2"),
    (b"{a, \xFF", "R7 1"),
    (b"\"\xED\xA0\x80\".", "R7 1"),
];

static DEPTHS: [(&str, usize, &str, &str); 21] = [
    ("[", 257, "", "R5 1"),
    ("{", 257, "", "R5 1"),
    ("[\n", 257, "", "R5 257"),
    ("[", 256, "", "R6 1"),
    ("[", 256, ")", "R4 1"),
    ("[", 256, "\n\"a\"", "R5 2"),
    ("{", 256, "\"\"", "R5 1"),
    ("[", 255, "\"a\"", "R6 1"),
    ("[", 256, "\"a", "R6 1"),
    ("[", 256, "\"\\q\"", "R5 1"),
    ("[", 256, "\"\\xq\"", "R3 1"),
    ("#{", 257, "", "R5 1"),
    ("[", 256, "<<", "R5 1"),
    ("[", 255, "<<\"a\"", "R5 1"),
    ("[", 255, "<<1", "R6 1"),
    ("[", 256, "1.5", "R6 1"),
    ("[", 256, "fun a:b/1", "R6 1"),
    ("[", 256, "a", "R6 1"),
    ("[a|", 257, "", "R5 1"),
    ("[a|", 256, "\"\"", "R5 1"),
    ("[a|", 256, "b", "R6 1"),
];

static ATOMS: [(&[u8], usize, &str); 25] = [
    (b"ab:c", 0, "ab 2"),
    (b"ab:c", 3, "c 4"),
    (b"ab:c", 1, "b 2"),
    (b"ab:c", 2, "none"),
    (b"ab:c", 4, "none"),
    (b"'k k':3", 0, "k k 5"),
    (b"''", 0, " 2"),
    (b"fun", 0, "fun 3"),
    (b"\xC3\x9F1:x", 0, "\u{DF}1 3"),
    (b"\xC3\x80", 0, "none"),
    (b"1a", 0, "none"),
    (b"A", 0, "none"),
    (b" a", 0, "none"),
    (b"\"a\"", 0, "none"),
    (b"\xFF", 0, "none"),
    (b"'a", 0, "R6 1"),
    (b"a\n'b", 2, "R6 2"),
    (b"'\\n'", 0, "\n 4"),
    (b"'\\^\\'", 0, "\u{1C} 5"),
    (b"'\\^\\''", 0, "\u{1C} 5"),
    (b"'\\^\\\\''", 0, "\u{1C}' 7"),
    (b"'\\^'", 0, "R3 1"),
    (b"'\\xq'", 0, "R3 1"),
    (b"a\n'\\x{6B}'b", 2, "k 10"),
    (b"'\xFF'", 0, "R7 1"),
];

fn is_first(alloc: Global, text: &[u8], wanted: &str) -> Result<bool, Fault> {
    let first = first(alloc, text)?;
    Ok(first.as_str() == wanted)
}

/// How many rows of a text and its first form, from the first on, are so.
fn right_rows(alloc: Global, rows: &[(&[u8], &str)]) -> Result<usize, Fault> {
    for (row, (text, wanted)) in rows.iter().enumerate() {
        if !is_first(alloc, text, wanted)? {
            return Ok(row);
        }
    }
    Ok(rows.len())
}

#[test]
fn terms(rt: HostRuntime) -> Result<(), Fail> {
    assert_eq!(rt; right_rows(rt.alloc(), &TERMS)?, TERMS.len());
    Ok(())
}

#[test]
fn first_refusals(rt: HostRuntime) -> Result<(), Fail> {
    assert_eq!(rt;
        right_rows(rt.alloc(), &FIRST_REFUSALS)?,
        FIRST_REFUSALS.len()
    );
    Ok(())
}

#[test]
fn more_refusals(rt: HostRuntime) -> Result<(), Fail> {
    assert_eq!(rt;
        right_rows(rt.alloc(), &MORE_REFUSALS)?,
        MORE_REFUSALS.len()
    );
    Ok(())
}

#[test]
fn last_refusals(rt: HostRuntime) -> Result<(), Fail> {
    assert_eq!(rt;
        right_rows(rt.alloc(), &LAST_REFUSALS)?,
        LAST_REFUSALS.len()
    );
    Ok(())
}

fn push_times(text: &mut String, part: &str, count: usize) -> Result<(), AllocError> {
    for _ in 0..count {
        text.push_str(part)?;
    }
    Ok(())
}

/// What follows so many times the same text.
fn nested(alloc: Global, open: &str, count: usize, rest: &str) -> Result<String, AllocError> {
    let mut text = String::new(alloc);
    push_times(&mut text, open, count)?;
    text.push_str(rest)?;
    Ok(text)
}

fn is_nested(
    alloc: Global,
    open: &str,
    count: usize,
    rest: &str,
    wanted: &str,
) -> Result<bool, Fault> {
    let text = nested(alloc, open, count, rest)?;
    is_first(alloc, text.as_bytes(), wanted)
}

/// Reads a list that is as deep as may be: whether there is one.
fn is_deepest_read(alloc: Global) -> Result<bool, Fault> {
    let mut text = nested(alloc, "[", 256, "")?;
    push_times(&mut text, "]", 256)?;
    text.push_str(".")?;
    Ok(next_term(alloc, text.as_bytes(), 0)?.is_some())
}

#[test]
fn depths(rt: HostRuntime) -> Result<(), Fail> {
    for (open, count, rest, wanted) in &DEPTHS {
        assert!(rt;
            is_nested(rt.alloc(), *open, *count, *rest, *wanted)?,
            "{open} {rest}"
        );
    }
    assert!(rt; is_deepest_read(rt.alloc())?);
    Ok(())
}

/// Writes a form with its span, and where it ends.
fn push_form(out: &mut String, node: &Node<'_>, end: usize) -> Result<(), AllocError> {
    show(out, node, 8)?;
    let span = node.span();
    write!(
        out,
        " {}-{} line {}, then {}.",
        span.from, span.to, span.line, end
    )
}

/// Writes the next form, or that there is none: the reader behind it.
fn push_next<'a>(alloc: Global, out: &mut String, reader: Reader<'a>) -> Result<Reader<'a>, Fault> {
    match reader.next(alloc)? {
        Some((node, end)) => {
            push_form(out, &node, end.line)?;
            Ok(end)
        }
        None => {
            out.push_str(" end")?;
            Ok(reader)
        }
    }
}

const FORMS: &[u8] = b"a.\n{b,\n \"c\n\"} .\n% d\n";

fn three_forms(alloc: Global) -> Result<String, Fault> {
    let mut seen = String::new(alloc);
    let mut reader = Reader::at(FORMS, 0);
    for _ in 0..3 {
        reader = push_next(alloc, &mut seen, reader)?;
    }
    Ok(seen)
}

fn are_three_forms(alloc: Global, wanted: &str) -> Result<bool, Fault> {
    let forms = three_forms(alloc)?;
    Ok(forms.as_str() == wanted)
}

fn is_none_behind(alloc: Global) -> Result<bool, Fault> {
    Ok(next_term(alloc, FORMS, 16)?.is_none())
}

/// Whether a text whose second form is refused is refused on its third line.
fn is_refused_behind(alloc: Global) -> Result<bool, Fault> {
    match next_term(alloc, b"a.\n\n )", 2) {
        Err(fault) => {
            let refused = refusal(alloc, fault)?;
            Ok(refused.as_str() == "R4 3")
        }
        Ok(_) => Ok(false),
    }
}

#[test]
fn forms_in_a_row(rt: HostRuntime) -> Result<(), Fail> {
    let wanted = "a 0-1 line 1, then 1.{b,[99,10]} 3-13 line 2, then 4. end";
    assert!(rt; are_three_forms(rt.alloc(), wanted)?);
    assert!(rt; is_none_behind(rt.alloc())?);
    assert!(rt; is_refused_behind(rt.alloc())?);
    Ok(())
}

fn push_span(out: &mut String, node: &Node<'_>) -> Result<(), AllocError> {
    let span = node.span();
    write!(out, "{}-{} line {}", span.from, span.to, span.line)
}

/// Writes the spans of a list's elements and of its tail.
fn push_spans(out: &mut String, node: &Node<'_>) -> Result<(), AllocError> {
    let View::List(elements, tail) = node.view() else {
        return Ok(());
    };
    for i in 0..elements.len() {
        push_span(out, elements.at(i).node())?;
        out.push_str(". ")?;
    }
    match tail {
        Some(tail) => push_span(out, tail),
        None => Ok(()),
    }
}

fn spans(alloc: Global, text: &[u8]) -> Result<String, Fault> {
    let mut seen = String::new(alloc);
    if let Some((node, _)) = next_term(alloc, text, 0)? {
        push_spans(&mut seen, &node)?;
    }
    Ok(seen)
}

#[test]
fn spans_of_parts(rt: HostRuntime) -> Result<(), Fail> {
    let seen = spans(rt.alloc(), b"\n[ 'b c' ,\n-12|{ }].")?;
    assert_eq!(rt; seen.as_str(), "3-8 line 2. 11-14 line 3. 15-18 line 3");
    Ok(())
}

#[test]
fn characters_stand_where_their_string_does(rt: HostRuntime) -> Result<(), Fail> {
    let row = spans(rt.alloc(), b"\"ab\" \"\"\n\"c\".")?;
    assert_eq!(rt; row.as_str(), "0-4 line 1. 0-4 line 1. 8-11 line 2. ");
    let tail = spans(rt.alloc(), b"[x|\"ab\"].")?;
    assert_eq!(rt; tail.as_str(), "1-2 line 1. 3-7 line 1. 3-7 line 1. ");
    Ok(())
}

/// Texts, a word, and where the first form of the text ends if it is a pair of that word and a term.
static DROPPED: [(&[u8], &str, Option<usize>); 16] = [
    (b"{attributes,[{a,1}]}. x", "attributes", Some(21)),
    (
        b" %c\n{'attributes' , \"a\" \"b\" } .",
        "attributes",
        Some(31),
    ),
    (b"{'%',#{}}.", "%", Some(10)),
    (b"{'%',#{}}.", "attributes", None),
    (b"{attributes,1}", "attributes", None),
    (b"{attributes,1} x.", "attributes", None),
    (b"{attributes,1,2}.", "attributes", None),
    (b"{attributes|1}.", "attributes", None),
    (b"{attributes}.", "attributes", None),
    (b"{'\\x61ttributes',1}.", "attributes", None),
    (b"{\"attributes\",1}.", "attributes", None),
    (b"[attributes,1].", "attributes", None),
    (b"attributes.", "attributes", None),
    (b"{attributes,\"\\xq\"}.", "attributes", None),
    (b"{attributes,,1}.", "attributes", None),
    (b"%{attributes,1}.", "attributes", None),
];

fn end_of_pair(text: &[u8], word: &str) -> Option<usize> {
    let behind = Reader::at(text, 0).behind_pair(word)?;
    Some(behind.at)
}

#[test]
fn pairs_that_are_passed_over(rt: HostRuntime) -> Result<(), Fail> {
    for (text, word, wanted) in &DROPPED {
        assert_eq!(rt; end_of_pair(*text, *word), *wanted, "{text:?}");
    }
    Ok(())
}

/// What stands as an atom at a place of a text.
fn atom(alloc: Global, text: &[u8], at: usize) -> Result<String, Fault> {
    if at > text.len() {
        return Ok(String::from_str(alloc, "past the end")?);
    }
    match atom_at(alloc, text, at) {
        Ok(Some((name, end))) => Ok(format!(in alloc; "{name} {end}")?),
        Ok(None) => Ok(String::from_str(alloc, "none")?),
        Err(fault) => refusal(alloc, fault),
    }
}

fn is_atom(alloc: Global, text: &[u8], at: usize, wanted: &str) -> Result<bool, Fault> {
    let atom = atom(alloc, text, at)?;
    Ok(atom.as_str() == wanted)
}

#[test]
fn atoms(rt: HostRuntime) -> Result<(), Fail> {
    for (text, at, wanted) in &ATOMS {
        assert!(rt; is_atom(rt.alloc(), *text, *at, *wanted)?, "{text:?} {at}");
    }
    Ok(())
}

/// Texts of one term each, and whether the terms are the same.
static PAIRS: [(&[u8], &[u8], bool); 41] = [
    (b"1.5.", b"1.5. ", true),
    (b"1.5.", b"1.50.", false),
    (b"1.5.", b"2.5.", false),
    (b"#{}.", b"#{}.%", true),
    (b"#{}.", b"{}.", false),
    (b"<<1>>.", b"<<2>>.", false),
    (b"fun a:b/1.", b"fun a:b/2.", false),
    (b"'\\x61b'.", b"'\\x61b'.", true),
    (b"'\\x61b'.", b"'\\x61c'.", false),
    (b"{a,[1,'b c'|d],\"e\"}.", b"{a,[1,'b c'|d],\"e\"}.", true),
    (b"a.", b"a. b", true),
    (b"'a'.", b"'a'.%", true),
    (b"-9223372036854775809.", b"-9223372036854775809.", true),
    (b"[a|{b}].", b"[a|{b}]. ", true),
    (b"a.", b"b.", false),
    (b"a.", b" a.", false),
    (b"a.", b"\na.", false),
    (b"aa.", b"a.", false),
    (b"'a'.", b"aaa.", false),
    (b"1.", b"2.", false),
    (b"1.", b"a.", false),
    (b"9223372036854775808.", b"9223372036854775809.", false),
    (b"9223372036854775808.", b"9223372036854775807.", false),
    (b"09223372036854775809.", b"-9223372036854775809.", false),
    (b"[].", b"{}.", false),
    (b"{a,b}.", b"[a,b].", false),
    (b"{a,b}.", b"{a,c}.", false),
    (b"{a,b}.", b"{aab}.", false),
    (b"[a,b].", b"[a|b].", false),
    (b"[a|b].", b"[a|c].", false),
    (b"\"ab\".", b"\"ac\".", false),
    (b"\"ab\".", b"\"abc\".", false),
    (b"\"a\x62\".", b"\"\x61b\".", true),
    (b"\"a\" \"b\".", b"\"a\" \"b\".%", true),
    (b"\"a\" \"b\".", b"\"ab\"  .", false),
    (b"\"ab\"\"\".", b"\"\"\"ab\".", false),
    (b"\"\".", b"[].", true),
    (b"[  ].", b"\"\"\"\".", true),
    (b"\"a\".", b"[97].", false),
    (b"[97].", b"\"aa\".", false),
    (b"[\"a\"|b].", b"[\"a\"|b].%", true),
];

/// Whether the first terms of two texts are the same.
fn are_same(alloc: Global, one: &[u8], other: &[u8]) -> Result<bool, Fault> {
    let found = next_term(alloc, one, 0)?;
    let other_found = next_term(alloc, other, 0)?;
    Ok(match (&found, &other_found) {
        (Some((node, _)), Some((other_node, _))) => node.same(other_node),
        _ => false,
    })
}

#[test]
fn sameness_of_terms(rt: HostRuntime) -> Result<(), Fail> {
    for (one, other, wanted) in &PAIRS {
        assert!(rt;
            are_same(rt.alloc(), *one, *other)? == *wanted,
            "{one:?} {other:?}"
        );
    }
    Ok(())
}
