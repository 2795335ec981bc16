//! Atoms in print: bare where the syntax allows it, else between quotes.
//!
//! Source: Erlang Reference Manual, "Data Types" ("Atom", "Escape Sequences") and "Introduction" ("Reserved Words").

ghost use Rattle.std.specs.Prelude.{◌≡◌, ◌++◌, IfOk, OnOk, if◌then◌else◌, is_ok, string_bytes, bytes_eq};
ghost use Rattle.std.specs.List.{list_any, list_all};
ghost use Rattle.bx_terms.specs.AtomText.{printed_atom, quoted, escaped, is_bare, is_name_byte, begins_lower};

use std::alloc::{AllocError, Global};

const RESERVED_WORDS: [&str; 27] = [
    "after", "and", "andalso", "band", "begin", "bnot", "bor", "bsl", "bsr", "bxor", "case",
    "catch", "cond", "div", "end", "fun", "if", "let", "not", "of", "or", "orelse", "receive",
    "rem", "try", "when", "xor",
];

/// Adds the atom that `text` spells to `out`, as it is printed; `out` is as before where memory runs out.
///
/// It is bare where it begins with a to z, goes on with ASCII letters, digits, `_` and `@`, and is no reserved word.
/// Else it is in single quotes: quote and backslash after a backslash, line feed, carriage return and tab as `\n`, `\r` and
/// `\t`, other codes below 32 and 127 as `\x{h}` in lower-case hexadecimal, all else as itself.
pub fn push_atom(alloc: Global, out: &mut String, text: &str) -> Result<(), AllocError>
    ensures { string_bytes out.new ≡ (if is_ok result then string_bytes out.old ++ printed_atom text.now else string_bytes out.old) }
{
    if is_bare(text) {
        return out.push_str(text);
    }
    let quoted = quoted(alloc, text)?;
    out.push_str(quoted.as_str())
}

fn is_bare(text: &str) -> bool
    ensures { result ≡ is_bare text.now }
{
    begins_lower(text) && is_name(text) && !is_among(&RESERVED_WORDS, text)
}

fn begins_lower(text: &str) -> bool
    ensures { result ≡ begins_lower text.now }
{
    match text.as_bytes() {
        [first, ..] => first.is_ascii_lowercase(),
        [] => false,
    }
}

fn is_name(text: &str) -> bool
    ensures { result ≡ list_all is_name_byte text.now }
{
    text.as_bytes().iter().all(|b| is_name_byte(*b))
}

fn is_name_byte(b: u8) -> bool
    ensures { result ≡ is_name_byte b }
{
    matches!(b, b'a'..=b'z' | b'A'..=b'Z' | b'0'..=b'9' | b'_' | b'@')
}

fn is_among(words: &[&str], text: &str) -> bool
    ensures { result ≡ list_any (λ word. bytes_eq text.now word.now) words.now }
{
    words
        .iter()
        .any(|word| text.len() == word.len() && text == *word)
}

#[tactic(auto, using(std::proofs::lemmas::Str::chars_from_encodes))]
fn quoted(alloc: Global, text: &str) -> Result<String, AllocError>
    ensures { IfOk result (λ out. string_bytes out ≡ quoted text.now) }
{
    let mut out = String::new(alloc);
    out.push('\'')?;
    for c in text.chars() {
        push_escaped(alloc, &mut out, c)?;
    }
    out.push('\'')?;
    Ok(out)
}

fn push_escaped(alloc: Global, out: &mut String, c: char) -> Result<(), AllocError>
    ensures { OnOk result (string_bytes out.new ≡ string_bytes out.old ++ escaped c) }
{
    match c {
        '\'' => out.push_str("\\'"),
        '\\' => out.push_str("\\\\"),
        '\n' => out.push_str("\\n"),
        '\r' => out.push_str("\\r"),
        '\t' => out.push_str("\\t"),
        _ if (c as u32) < 32 || c == '\u{7f}' => {
            let code = format!(in alloc; "\\x{{{:x}}}", c as u32)?;
            out.push_str(code.as_str())
        }
        _ => out.push(c),
    }
}
