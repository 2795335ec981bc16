//! A module, plans over it, and what they come to, each worked out by hand.

use bx_board::{Book, Report, report_text};
use bx_load::Image;
use bx_plan::{Plan, read_plan};
use bx_terms::Fault;
use bxemu_testkit::{answered, atom};
use std::alloc::Global;

/// `f/0` of `m` moves an atom and ends: two runs.
const LISTING: &str = "{module,m}. {exports,[{f,0}]}. {labels,3}. {function,f,0,2}.
{label,1}. {func_info,{atom,m},{atom,f},0}. {label,2}. {move,{atom,ok},{x,0}}. return.";

/// One schedule of one choice.
pub const ONE: &str = "x: r0\n";

/// What comes of it.
pub const ONE_TEXT: &str = "schedule x\napplied 1\nstate open r0\nprocess <0.0.0> ready\nend\n";

/// Two schedules that share nothing; the second one's choice is refused.
pub const APART: &str = "x: r0\ny: r1\n";

/// What comes of them.
pub const APART_TEXT: &str = "schedule x\napplied 1\nstate open r0\nprocess <0.0.0> ready\nend
schedule y\napplied 0\nstate stopped r1\nprocess <0.0.0> ready\nend\n";

/// Two schedules that begin with the same choice, so that nothing is free while it is made.
pub const BELOW: &str = "x: r0*2\ny: r0 r1\n";

/// What comes of them.
pub const BELOW_TEXT: &str = "schedule x\napplied 2\nstate quiet\nprocess <0.0.0> ended normal\nend
schedule y\napplied 1\nstate stopped r1\nprocess <0.0.0> ready\nend\n";

/// The module, loaded.
pub fn image(alloc: Global) -> Result<Image, Fault> {
    bxemu_testkit::image(alloc, &[LISTING])
}

/// A plan's text, read.
pub fn plan(alloc: Global, text: &str) -> Result<Plan, Fault> {
    read_plan(alloc, text.as_bytes())
}

/// A campaign of that plan from `m:f`.
pub fn book<'a>(alloc: Global, image: &'a Image, plan: &'a Plan) -> Result<Book<'a>, Fault> {
    Book::new(alloc, image, atom(image, "m"), atom(image, "f"), plan)
}

/// A report's text, or the name of the refusal; out of memory is handed on.
pub fn text_of(
    alloc: Global,
    image: &Image,
    report: Result<Report, Fault>,
) -> Result<String, Fault> {
    match answered(report)? {
        Ok(report) => report_text(alloc, image.atoms(), &report),
        Err(fault) => Ok(String::from_str(alloc, fault.name())?),
    }
}

/// The text of what a book finishes with.
pub fn finished(alloc: Global, image: &Image, book: Book<'_>) -> Result<String, Fault> {
    match book.finish(alloc) {
        Ok(report) => text_of(alloc, image, Ok(report)),
        Err((fault, _book)) => text_of(alloc, image, Err(fault)),
    }
}
