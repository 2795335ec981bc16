//! A drawing of the story of a schedule.

ghost use Rattle.std.specs.Prelude.{◌≡◌, ◌++◌, [], IfOk, OnOk, codes, string_bytes};
ghost use Rattle.bx_svg.specs.Markup.{counted, element, nothing, words, written, ◌⨾◌};
ghost use Rattle.bx_svg.specs.Shapes.{box, label, tip};
ghost use Rattle.bx_chart.specs.Points.{spot};
ghost use Rattle.bx_chart.specs.Sheets.{arrow_head, arrow_heads, body, ends, front, height_of, last_line, notes, sheet, sheet_attributes, texts_of, view, width_of};
ghost use Rattle.bx_chart.specs.Words.{sentence, state_words, title_words};

use crate::arrows::{push_arrows, push_waiting_arrows, push_waiting_labels};
use crate::lanes::{push_lanes, push_statuses};
use crate::points::{row_behind, spot};
use crate::rows::push_rows;
use crate::words::{Code, push_state, sentence, title_text};
use bx_engine::Sources;
use bx_events::Story;
use bx_load::Image;
use bx_svg::{
    close_tag, open_element, open_tag, push_box, push_counted, push_element, push_label, push_tip,
};
use std::alloc::{AllocError, Global};

/// How a drawing paints the classes of its shapes.
const STYLE: &str = "\
    text{font:12px DejaVu Sans,Verdana,sans-serif;fill:#1f2933;paint-order:stroke;stroke:#fff;stroke-width:3px;stroke-linejoin:round}\
    .paper{fill:#fff}.title{font-size:14px}.state{fill:#52606d}\
    .lane{stroke:#9aa5b1;stroke-width:1.5}.head{fill:#f0f4f8;stroke:#9aa5b1}.pid,.status{text-anchor:middle}.pid{stroke:none}\
    .number{fill:#7b8794;text-anchor:end}.place{fill:#52606d;font-size:11px}.bar{fill:#cfe3f7;stroke:#3f77b0}.put{fill:#b35c00}\
    .over{fill:#fff;stroke:#3f77b0;stroke-width:2}.name,.left{fill:#6b3fa0}.shown{fill:#0b6e4f;font-weight:bold}.bad{fill:#ba2525;font-weight:bold}\
    .message,.signal,.spawn{fill:none;stroke-width:1.6}.waiting{stroke-dasharray:5 4}\
    .message{stroke:#b35c00;marker-end:url(#message-head)}.message-head{fill:#b35c00}\
    .signal{stroke:#8a4fc7;marker-end:url(#signal-head)}.signal-head{fill:#8a4fc7}\
    .spawn{stroke:#3f77b0;marker-end:url(#spawn-head)}.spawn-head{fill:#3f77b0}";

// ---- the heads of arrows

/// Adds the path that an arrow's head is.
fn push_head_path(out: &mut String) -> Result<(), AllocError>
    ensures { OnOk result (string_bytes out.new ≡ string_bytes out.old
        ++ written (element (codes "path") (codes " d=\"M0 0L8 4L0 8z\"") nothing)) }
{
    out.push_str("<path d=\"M0 0L8 4L0 8z\"></path>\n")
}

fn push_marker_attributes(out: &mut String, names: &str) -> Result<(), AllocError>
    ensures { OnOk result (string_bytes out.new ≡ string_bytes out.old ++ (names.now
        ++ codes " viewBox=\"0 0 8 8\" refX=\"8\" refY=\"4\" markerWidth=\"8\" markerHeight=\"8\" orient=\"auto\"")) }
{
    out.push_str(names)?;
    out.push_str(
        " viewBox=\"0 0 8 8\" refX=\"8\" refY=\"4\" markerWidth=\"8\" markerHeight=\"8\" orient=\"auto\"",
    )
}

/// Adds the head of an arrow, which is named by these attributes.
fn push_arrow_head(out: &mut String, names: &str) -> Result<(), AllocError>
    ensures { OnOk result
        (string_bytes out.new ≡ string_bytes out.old ++ written (arrow_head names.now)) }
{
    open_tag(out, "marker")?;
    push_marker_attributes(out, names)?;
    out.push_str(">")?;
    push_head_path(out)?;
    close_tag(out, "marker")?;
    Ok(())
}

/// Adds the heads of arrows.
fn push_arrow_heads(out: &mut String) -> Result<(), AllocError>
    ensures { OnOk result (string_bytes out.new
        ≡ string_bytes out.old ++ written (element (codes "defs") [] arrow_heads)) }
{
    open_element(out, "defs")?;
    push_arrow_head(out, " id=\"message-head\" class=\"message-head\"")?;
    push_arrow_head(out, " id=\"signal-head\" class=\"signal-head\"")?;
    push_arrow_head(out, " id=\"spawn-head\" class=\"spawn-head\"")?;
    close_tag(out, "defs")?;
    Ok(())
}

// ---- what a reader that can't see is told

fn push_title(alloc: Global, out: &mut String, name: &str) -> Result<(), AllocError>
    ensures { OnOk result
        (string_bytes out.new ≡ string_bytes out.old ++ written (tip (title_words name.now))) }
{
    let text = title_text(alloc, name)?;
    push_tip(alloc, out, text.as_str())
}

fn push_description(
    alloc: Global,
    out: &mut String,
    name: &str,
    story: &Story,
) -> Result<(), AllocError>
    ensures { OnOk result (string_bytes out.new ≡ string_bytes out.old
        ++ written (element (codes "desc") [] (words (sentence name.now story.now)))) }
{
    let text = sentence(alloc, name, story)?;
    push_element(alloc, out, "desc", text.as_str())
}

fn push_front(alloc: Global, out: &mut String, name: &str, story: &Story) -> Result<(), AllocError>
    ensures { OnOk result
        (string_bytes out.new ≡ string_bytes out.old ++ written (front name.now story.now)) }
{
    push_title(alloc, out, name)?;
    push_description(alloc, out, name, story)?;
    push_element(alloc, out, "style", STYLE)?;
    push_arrow_heads(out)?;
    Ok(())
}

// ---- what is drawn

fn width_of(story: &Story) -> usize
    ensures { result ≡ width_of story.now }
{
    spot(story.lanes.as_slice().len(), 0, 250, 0).x
}

fn last_line(story: &Story) -> usize
    ensures { result ≡ last_line story.now }
{
    row_behind(
        story.events.as_slice().len(),
        story.waiting.as_slice().len(),
    )
}

fn height_of(story: &Story) -> usize
    ensures { result ≡ height_of story.now }
{
    spot(0, last_line(story), 0, 96).y
}

fn push_paper(out: &mut String, story: &Story) -> Result<(), AllocError>
    ensures { OnOk result (string_bytes out.new ≡ string_bytes out.old
        ++ written (box (codes "paper") (spot 0 0 0 0) (width_of story.now) (height_of story.now))) }
{
    push_box(
        out,
        "paper",
        spot(0, 0, 0, 0),
        width_of(story),
        height_of(story),
    )
}

fn push_heading(
    alloc: Global,
    out: &mut String,
    name: &str,
    story: &Story,
) -> Result<(), AllocError>
    ensures { OnOk result (string_bytes out.new ≡ string_bytes out.old
        ++ written (label (codes "title") (spot 0 0 12 18) (sentence name.now story.now))) }
{
    let text = sentence(alloc, name, story)?;
    push_label(alloc, out, "title", spot(0, 0, 12, 18), text.as_str())
}

fn state_text(alloc: Global, story: &Story) -> Result<String, AllocError>
    ensures { IfOk result (λ text. string_bytes text
        ≡ codes "state " ++ state_words story.now.refused story.now.outcome.state) }
{
    let mut out = String::from_str(alloc, "state ")?;
    push_state(alloc, &mut out, story.refused, &story.outcome.state)?;
    Ok(out)
}

/// Adds where the run led.
fn push_footer(alloc: Global, out: &mut String, story: &Story) -> Result<(), AllocError>
    ensures { OnOk result (string_bytes out.new ≡ string_bytes out.old ++ written (label (codes "state")
        (spot 0 (last_line story.now) 12 76) (codes "state " ++ state_words story.now.refused story.now.outcome.state))) }
{
    let text = state_text(alloc, story)?;
    push_label(
        alloc,
        out,
        "state",
        spot(0, last_line(story), 12, 76),
        text.as_str(),
    )
}

fn push_notes(alloc: Global, out: &mut String, name: &str, story: &Story) -> Result<(), AllocError>
    ensures { OnOk result
        (string_bytes out.new ≡ string_bytes out.old ++ written (notes name.now story.now)) }
{
    push_heading(alloc, out, name, story)?;
    push_footer(alloc, out, story)
}

fn push_ends(
    alloc: Global,
    out: &mut String,
    image: &Image,
    story: &Story,
) -> Result<(), AllocError>
    ensures { OnOk result (string_bytes out.new
        ≡ string_bytes out.old ++ written (ends image.now.atoms story.now)) }
{
    push_statuses(alloc, out, image.atoms(), story)?;
    push_waiting_labels(alloc, out, image.atoms(), story)
}

/// Adds the texts that lie over the arrows.
fn push_texts(
    alloc: Global,
    out: &mut String,
    code: &Code<'_>,
    name: &str,
    story: &Story,
) -> Result<(), AllocError>
    ensures { OnOk result (string_bytes out.new ≡ string_bytes out.old
        ++ written (texts_of code.now.image.now code.now.sources.now name.now story.now)) }
{
    push_rows(alloc, out, code, story.events.as_slice())?;
    push_ends(alloc, out, code.image, story)?;
    push_notes(alloc, out, name, story)?;
    Ok(())
}

fn push_body(
    alloc: Global,
    out: &mut String,
    code: &Code<'_>,
    name: &str,
    story: &Story,
) -> Result<(), AllocError>
    ensures { OnOk result (string_bytes out.new ≡ string_bytes out.old
        ++ written (body code.now.image.now code.now.sources.now name.now story.now)) }
{
    push_paper(out, story)?;
    push_lanes(alloc, out, story)?;
    push_arrows(out, story)?;
    push_waiting_arrows(out, story)?;
    push_texts(alloc, out, code, name, story)?;
    Ok(())
}

fn push_inside(
    alloc: Global,
    out: &mut String,
    code: &Code<'_>,
    name: &str,
    story: &Story,
) -> Result<(), AllocError>
    ensures { OnOk result (string_bytes out.new ≡ string_bytes out.old ++ written
        (front name.now story.now ⨾ body code.now.image.now code.now.sources.now name.now story.now)) }
{
    push_front(alloc, out, name, story)?;
    push_body(alloc, out, code, name, story)
}

fn push_view(out: &mut String, width: usize, height: usize) -> Result<(), AllocError>
    ensures { OnOk result (string_bytes out.new ≡ string_bytes out.old ++ view width height) }
{
    write!(out, " viewBox=\"0 0 {width} {height}\"")?;
    Ok(())
}

fn push_size(out: &mut String, width: usize, height: usize) -> Result<(), AllocError>
    ensures { OnOk result (string_bytes out.new ≡ string_bytes out.old
        ++ (counted (codes "width") width ++ (counted (codes "height") height ++ view width height))) }
{
    push_counted(out, "width", width)?;
    push_counted(out, "height", height)?;
    push_view(out, width, height)?;
    Ok(())
}

fn push_sheet_attributes(out: &mut String, width: usize, height: usize) -> Result<(), AllocError>
    ensures { OnOk result
        (string_bytes out.new ≡ string_bytes out.old ++ sheet_attributes width height) }
{
    out.push_str(" xmlns=\"http://www.w3.org/2000/svg\" role=\"img\"")?;
    push_size(out, width, height)
}

/// Opens a story's drawing.
fn open_sheet(out: &mut String, story: &Story) -> Result<(), AllocError>
    ensures { OnOk result (string_bytes out.new ≡ string_bytes out.old
        ++ (codes "<" ++ codes "svg" ++ sheet_attributes (width_of story.now) (height_of story.now) ++ codes ">")) }
{
    open_tag(out, "svg")?;
    push_sheet_attributes(out, width_of(story), height_of(story))?;
    out.push_str(">")
}

fn push_sheet(
    alloc: Global,
    out: &mut String,
    code: &Code<'_>,
    name: &str,
    story: &Story,
) -> Result<(), AllocError>
    ensures { OnOk result (string_bytes out.new ≡ string_bytes out.old
        ++ written (sheet code.now.image.now code.now.sources.now name.now story.now)) }
{
    open_sheet(out, story)?;
    push_inside(alloc, out, code, name, story)?;
    close_tag(out, "svg")?;
    Ok(())
}

/// The drawing of the story of the schedule of that name, as SVG: a column for each process, in the order of pids, and a row for each event,
/// in order, with the numbers of its choices; an arrow from where a signal was sent to where it arrived, and from where a process was
/// spawned to its column; a dashed arrow, which ends in nothing, for each signal that waits.
///
/// It can only run out of memory. It takes a time and a space of the size of the story.
pub fn charted(
    alloc: Global,
    image: &Image,
    sources: &Sources,
    name: &str,
    story: &Story,
) -> Result<String, AllocError>
    ensures { IfOk result (λ text. string_bytes text
        ≡ written (sheet image.now sources.now name.now story.now)) }
{
    let code = Code { image, sources };
    let mut out = String::new(alloc);
    push_sheet(alloc, &mut out, &code, name, story)?;
    Ok(out)
}
