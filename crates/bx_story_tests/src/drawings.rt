//! Drawings as SVG: each element, and the marks of markup in texts.

use bx_svg::{
    Point, close_empty, close_group, close_tag, open_element, open_group, open_tag, push_box,
    push_counted, push_dot, push_element, push_label, push_line, push_tip, push_valued, push_words,
};
use std::alloc::{AllocError, Global};
use std::test::Fail;

/// Texts, and how they stand in markup. Codes from 128 on are characters of XML, but for the last two of the first plane.
const WORDS: [(&str, &str); 9] = [
    ("", ""),
    ("ab 1", "ab 1"),
    ("a<b>&\"c\"'d'", "a&lt;b&gt;&amp;&quot;c&quot;&#39;d&#39;"),
    ("&amp;", "&amp;amp;"),
    ("a\tb\nc\r", "a\\x{9}b\\x{a}c\\x{d}"),
    ("\u{0}\u{1f} ~\u{7f}", "\\x{0}\\x{1f} ~\\x{7f}"),
    ("\u{80}\u{9f}\u{e9}\u{20ac}", "\u{80}\u{9f}\u{e9}\u{20ac}"),
    (
        "\u{fffd}\u{fffe}\u{ffff}\u{10000}",
        "\u{fffd}\\x{fffe}\\x{ffff}\u{10000}",
    ),
    ("\u{1fffe}\u{10ffff}", "\u{1fffe}\u{10ffff}"),
];

/// What is added to a text that holds one letter.
fn words_of(alloc: Global, text: &str) -> Result<String, AllocError> {
    let mut out = String::from_str(alloc, "<")?;
    push_words(alloc, &mut out, text)?;
    Ok(out)
}

/// How many rows, from the first on, are right; each made once more where memory ran out.
fn right_words(alloc: Global, rows: &[(&str, &str)]) -> Result<usize, AllocError> {
    for (number, (text, want)) in rows.iter().enumerate() {
        let out = match words_of(alloc, text) {
            Ok(out) => out,
            Err(_) => words_of(alloc, text)?,
        };
        if out.as_str().strip_prefix("<") != Some(*want) {
            return Ok(number);
        }
    }
    Ok(rows.len())
}

#[test]
fn texts_inside_markup(rt: HostRuntime) -> Result<(), Fail> {
    assert_eq!(rt; right_words(rt.alloc(), &WORDS)?, WORDS.len());
    Ok(())
}

const FAR: Point = Point {
    x: usize::MAX,
    y: 0,
};

const NEAR: Point = Point { x: 12, y: 345 };

fn push_shapes(alloc: Global, out: &mut String) -> Result<(), AllocError> {
    push_line(out, "sent", NEAR, FAR)?;
    push_box(out, "ran", NEAR, 6, 7)?;
    push_dot(out, "heard", FAR, 8)?;
    push_label(alloc, out, "name", NEAR, "<0.1.0>")
}

const SHAPES: &str =
    "<line class=\"sent\" x1=\"12\" y1=\"345\" x2=\"18446744073709551615\" y2=\"0\"></line>
<rect class=\"ran\" x=\"12\" y=\"345\" width=\"6\" height=\"7\"></rect>
<circle class=\"heard\" cx=\"18446744073709551615\" cy=\"0\" r=\"8\"></circle>
<text class=\"name\" x=\"12\" y=\"345\">&lt;0.1.0&gt;</text>
";

/// A group with a tip and an element inside.
fn push_group(alloc: Global, out: &mut String) -> Result<(), AllocError> {
    open_group(out, "event")?;
    push_tip(alloc, out, "a & b")?;
    push_element(alloc, out, "desc", "\u{1b}")?;
    close_group(out)
}

const GROUP: &str = "<g class=\"event\"><title>a &amp; b</title>
<desc>\\x{1b}</desc>
</g>
";

/// An element inside another, of tags that are opened and closed by hand.
fn push_tags(out: &mut String) -> Result<(), AllocError> {
    open_element(out, "defs")?;
    open_tag(out, "path")?;
    push_valued(out, "d", "M0 0")?;
    push_counted(out, "n", 10)?;
    close_empty(out, "path")?;
    close_tag(out, "defs")
}

const TAGS: &str = "<defs><path d=\"M0 0\" n=\"10\"></path>
</defs>
";

/// Which of the three is drawn.
#[derive(Clone, Copy, Debug)]
enum Part {
    Shapes,
    Group,
    Tags,
}

fn drawn(alloc: Global, part: Part) -> Result<String, AllocError> {
    let mut out = String::new(alloc);
    match part {
        Part::Shapes => push_shapes(alloc, &mut out)?,
        Part::Group => push_group(alloc, &mut out)?,
        Part::Tags => push_tags(&mut out)?,
    }
    Ok(out)
}

/// Whether a part is drawn so; once more where memory ran out.
fn is_drawn(alloc: Global, part: Part, want: &str) -> Result<bool, AllocError> {
    let out = match drawn(alloc, part) {
        Ok(out) => out,
        Err(_) => drawn(alloc, part)?,
    };
    Ok(out.as_str() == want)
}

#[test]
fn elements_of_each_kind(rt: HostRuntime) -> Result<(), Fail> {
    for (part, want) in [
        (Part::Shapes, SHAPES),
        (Part::Group, GROUP),
        (Part::Tags, TAGS),
    ] {
        assert!(rt; is_drawn(rt.alloc(), part, want)?, "{part:?}");
    }
    Ok(())
}
