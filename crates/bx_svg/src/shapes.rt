//! The shapes of a drawing.

ghost use Rattle.std.specs.Prelude.{◌≡◌, ◌++◌, [], OnOk, codes, string_bytes};
ghost use Rattle.bx_svg.specs.Markup.{element, escaped, words, written};
ghost use Rattle.bx_svg.specs.Shapes.{at, box, classed, dot, ends, label, line, round, sides, tip};

use crate::escapes::push_words;
use crate::tags::{close_tag, open_tag, push_counted, push_valued};
use std::alloc::{AllocError, Global};

/// A point of a drawing, counted to the right and down.
#[derive(Clone, Copy, Debug, PartialEq, Eq)]
pub struct Point {
    pub x: usize,
    pub y: usize,
}

/// Adds the attributes that say where a shape begins.
fn push_at(out: &mut String, place: Point) -> Result<(), AllocError>
    ensures { OnOk result (string_bytes out.new ≡ string_bytes out.old ++ at place) }
{
    push_counted(out, "x", place.x)?;
    push_counted(out, "y", place.y)
}

/// Adds the attributes that say from where to where a line goes.
fn push_ends(out: &mut String, from: Point, to: Point) -> Result<(), AllocError>
    ensures { OnOk result (string_bytes out.new ≡ string_bytes out.old ++ ends from to) }
{
    push_counted(out, "x1", from.x)?;
    push_counted(out, "y1", from.y)?;
    push_counted(out, "x2", to.x)?;
    push_counted(out, "y2", to.y)
}

fn push_line_attributes(
    out: &mut String,
    class: &str,
    from: Point,
    to: Point,
) -> Result<(), AllocError>
    ensures { OnOk result (string_bytes out.new
        ≡ string_bytes out.old ++ (classed class.now ++ ends from to)) }
{
    push_valued(out, "class", class)?;
    push_ends(out, from, to)
}

/// Adds a line from one point to another.
pub fn push_line(out: &mut String, class: &str, from: Point, to: Point) -> Result<(), AllocError>
    ensures { OnOk result
        (string_bytes out.new ≡ string_bytes out.old ++ written (line class.now from to)) }
{
    open_tag(out, "line")?;
    push_line_attributes(out, class, from, to)?;
    close_empty(out, "line")?;
    Ok(())
}

/// Adds the attributes of a rectangle.
fn push_sides(
    out: &mut String,
    corner: Point,
    width: usize,
    height: usize,
) -> Result<(), AllocError>
    ensures { OnOk result
        (string_bytes out.new ≡ string_bytes out.old ++ sides corner width height) }
{
    push_at(out, corner)?;
    push_counted(out, "width", width)?;
    push_counted(out, "height", height)
}

fn push_box_attributes(
    out: &mut String,
    class: &str,
    corner: Point,
    width: usize,
    height: usize,
) -> Result<(), AllocError>
    ensures { OnOk result (string_bytes out.new
        ≡ string_bytes out.old ++ (classed class.now ++ sides corner width height)) }
{
    push_valued(out, "class", class)?;
    push_sides(out, corner, width, height)
}

/// Adds a rectangle by its upper left corner.
pub fn push_box(
    out: &mut String,
    class: &str,
    corner: Point,
    width: usize,
    height: usize,
) -> Result<(), AllocError>
    ensures { OnOk result (string_bytes out.new
        ≡ string_bytes out.old ++ written (box class.now corner width height)) }
{
    open_tag(out, "rect")?;
    push_box_attributes(out, class, corner, width, height)?;
    close_empty(out, "rect")?;
    Ok(())
}

/// Adds the attributes of a disk.
fn push_round(out: &mut String, center: Point, radius: usize) -> Result<(), AllocError>
    ensures { OnOk result
        (string_bytes out.new ≡ string_bytes out.old ++ round center radius) }
{
    push_counted(out, "cx", center.x)?;
    push_counted(out, "cy", center.y)?;
    push_counted(out, "r", radius)
}

fn push_dot_attributes(
    out: &mut String,
    class: &str,
    center: Point,
    radius: usize,
) -> Result<(), AllocError>
    ensures { OnOk result (string_bytes out.new
        ≡ string_bytes out.old ++ (classed class.now ++ round center radius)) }
{
    push_valued(out, "class", class)?;
    push_round(out, center, radius)
}

/// Adds a disk.
pub fn push_dot(
    out: &mut String,
    class: &str,
    center: Point,
    radius: usize,
) -> Result<(), AllocError>
    ensures { OnOk result
        (string_bytes out.new ≡ string_bytes out.old ++ written (dot class.now center radius)) }
{
    open_tag(out, "circle")?;
    push_dot_attributes(out, class, center, radius)?;
    close_empty(out, "circle")
}

fn push_label_attributes(out: &mut String, class: &str, place: Point) -> Result<(), AllocError>
    ensures { OnOk result
        (string_bytes out.new ≡ string_bytes out.old ++ (classed class.now ++ at place)) }
{
    push_valued(out, "class", class)?;
    push_at(out, place)
}

/// Adds a text that begins, has its middle or ends there, as its class says.
pub fn push_label(
    alloc: Global,
    out: &mut String,
    class: &str,
    place: Point,
    text: &str,
) -> Result<(), AllocError>
    ensures { OnOk result (string_bytes out.new
        ≡ string_bytes out.old ++ written (label class.now place text.now)) }
{
    open_tag(out, "text")?;
    push_label_attributes(out, class, place)?;
    close_behind(alloc, out, "text", text)
}

/// Adds what a reader shows where one points at the group around it.
pub fn push_tip(alloc: Global, out: &mut String, text: &str) -> Result<(), AllocError>
    ensures { OnOk result
        (string_bytes out.new ≡ string_bytes out.old ++ written (tip text.now)) }
{
    push_element(alloc, out, "title", text)
}

/// Adds an element that has no attributes, with a text inside.
pub fn push_element(
    alloc: Global,
    out: &mut String,
    name: &str,
    text: &str,
) -> Result<(), AllocError>
    ensures { OnOk result (string_bytes out.new
        ≡ string_bytes out.old ++ written (element name.now [] (words text.now))) }
{
    open_tag(out, name)?;
    close_behind(alloc, out, name, text)
}

/// Ends the tag of an element in which nothing stands, and closes it.
pub fn close_empty(out: &mut String, name: &str) -> Result<(), AllocError>
    ensures { OnOk result (string_bytes out.new
        ≡ string_bytes out.old ++ (codes ">" ++ codes "</" ++ name.now ++ codes ">\n")) }
{
    out.push_str(">")?;
    close_tag(out, name)
}

/// Ends the tag of an element in which a text stands, and closes it behind that.
fn close_behind(alloc: Global, out: &mut String, name: &str, text: &str) -> Result<(), AllocError>
    ensures { OnOk result (string_bytes out.new
        ≡ string_bytes out.old ++ (codes ">" ++ escaped text.now ++ codes "</" ++ name.now ++ codes ">\n")) }
{
    out.push_str(">")?;
    push_words(alloc, out, text)?;
    close_tag(out, name)
}
