//! Steps from a place to a later one.

ghost use Rattle.std.specs.Prelude.{◌≡◌, ◌≤◌, length};
ghost use Rattle.bx_text.specs.Place.{place, after};

use crate::reader::Reader;
use bx_terms::Fault;

/// The place `n` bytes further on, where none of them is a line feed.
pub(crate) fn ahead<'a>(r: Reader<'a>, n: usize) -> Reader<'a>
    requires { n ≤ length r.rest.now }
    ensures { place result ≡ after (place r.entry) n }
{
    Reader {
        rest: &r.rest[n..],
        at: r.at + n,
        line: r.line,
    }
}

/// The fault of a text that ends at `r`.
pub(crate) fn truncated(r: Reader<'_>) -> Fault
    ensures { result ≡ Fault.Truncated r.entry.line }
{
    Fault::Truncated { line: r.line }
}
