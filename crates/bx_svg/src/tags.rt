//! Tags and their attributes.

ghost use Rattle.std.specs.Prelude.{◌≡◌, ◌++◌, OnOk, codes, string_bytes};
ghost use Rattle.bx_svg.specs.Markup.{counted, valued};
ghost use Rattle.bx_svg.specs.Shapes.{classed};

use std::alloc::AllocError;

/// Begins an element's tag: its attributes, and what ends the tag, come behind it.
pub fn open_tag(out: &mut String, name: &str) -> Result<(), AllocError>
    ensures { OnOk result (string_bytes out.new ≡ string_bytes out.old ++ (codes "<" ++ name.now)) }
{
    out.push_str("<")?;
    out.push_str(name)
}

/// Closes an element.
pub fn close_tag(out: &mut String, name: &str) -> Result<(), AllocError>
    ensures { OnOk result (string_bytes out.new
        ≡ string_bytes out.old ++ (codes "</" ++ name.now ++ codes ">\n")) }
{
    out.push_str("</")?;
    out.push_str(name)?;
    out.push_str(">\n")
}

/// Opens an element that has no attributes.
pub fn open_element(out: &mut String, name: &str) -> Result<(), AllocError>
    ensures { OnOk result (string_bytes out.new
        ≡ string_bytes out.old ++ (codes "<" ++ name.now ++ codes ">")) }
{
    open_tag(out, name)?;
    out.push_str(">")
}

/// Adds an attribute whose value is a fixed word.
pub fn push_valued(out: &mut String, name: &str, value: &str) -> Result<(), AllocError>
    ensures { OnOk result
        (string_bytes out.new ≡ string_bytes out.old ++ valued name.now value.now) }
{
    out.push_str(" ")?;
    out.push_str(name)?;
    out.push_str("=\"")?;
    out.push_str(value)?;
    out.push_str("\"")
}

/// Adds an attribute whose value is a number.
pub fn push_counted(out: &mut String, name: &str, value: usize) -> Result<(), AllocError>
    ensures { OnOk result
        (string_bytes out.new ≡ string_bytes out.old ++ counted name.now value) }
{
    out.push_str(" ")?;
    out.push_str(name)?;
    write!(out, "=\"{value}\"")
}

/// Opens a group of that class.
pub fn open_group(out: &mut String, class: &str) -> Result<(), AllocError>
    ensures { OnOk result (string_bytes out.new
        ≡ string_bytes out.old ++ (codes "<" ++ codes "g" ++ classed class.now ++ codes ">")) }
{
    open_tag(out, "g")?;
    push_valued(out, "class", class)?;
    out.push_str(">")
}

/// Closes a group.
pub fn close_group(out: &mut String) -> Result<(), AllocError>
    ensures { OnOk result (string_bytes out.new
        ≡ string_bytes out.old ++ (codes "</" ++ codes "g" ++ codes ">\n")) }
{
    close_tag(out, "g")
}
