//! Texts inside markup.

ghost use Rattle.std.specs.Prelude.{◌≡◌, ◌++◌, OnOk, string_bytes};
ghost use Rattle.bx_svg.specs.Markup.{character, escaped, plain};

use std::alloc::{AllocError, Global};

/// Adds a text, its marks of markup by their names and its control codes spelled.
#[tactic(auto, using(std::proofs::lemmas::Str::chars_from_encodes))]
pub fn push_words(alloc: Global, out: &mut String, text: &str) -> Result<(), AllocError>
    ensures { OnOk result (string_bytes out.new ≡ string_bytes out.old ++ escaped text.now) }
{
    for c in text.chars() {
        push_character(alloc, out, c)?;
    }
    Ok(())
}

fn push_character(alloc: Global, out: &mut String, c: char) -> Result<(), AllocError>
    ensures { OnOk result (string_bytes out.new ≡ string_bytes out.old ++ character c) }
{
    match c {
        '&' => out.push_str("&amp;"),
        '<' => out.push_str("&lt;"),
        '>' => out.push_str("&gt;"),
        '"' => out.push_str("&quot;"),
        '\'' => out.push_str("&#39;"),
        c => push_plain(alloc, out, c),
    }
}

/// Adds a character that is no mark of markup.
fn push_plain(alloc: Global, out: &mut String, c: char) -> Result<(), AllocError>
    ensures { OnOk result (string_bytes out.new ≡ string_bytes out.old ++ plain c) }
{
    let code = c as u32;
    if code >= 32 && code != 127 && code != 0xFFFE && code != 0xFFFF {
        return out.push(c);
    }
    let spelled = format!(in alloc; "\\x{{{code:x}}}")?;
    out.push_str(spelled.as_str())
}
