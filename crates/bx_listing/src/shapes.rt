//! The shapes of terms from which listings are made.

ghost use Rattle.std.specs.Prelude.{◌≡◌, option_map};
ghost use Rattle.bx_listing.specs.Shape.{shape, number, word, list_elements};
ghost use Rattle.bx_text.specs.View.{elements_seen};
ghost use Rattle.bx_listing.specs.Seen.{seen};

use bx_text::{Elements, Node, View};

/// What a term begins with.
#[derive(Clone, Copy)]
pub(crate) enum Shape<'v, 'a> {
    /// An atom alone.
    Bare(&'v str),
    /// A tuple that begins with an atom, and what follows it.
    Tagged(&'v str, &'v [Node<'a>]),
    Other,
}

pub(crate) fn shape_of<'v, 'a>(node: &'v Node<'a>) -> Shape<'v, 'a>
    ensures { seen result ≡ shape node.now }
{
    match node.view() {
        View::Atom(word) => Shape::Bare(word),
        View::Tuple([first, rest @ ..]) => match word(first) {
            Some(word) => Shape::Tagged(word, rest),
            None => Shape::Other,
        },
        _ => Shape::Other,
    }
}

/// A number from 0 to 4294967295.
pub(crate) fn number(node: &Node) -> Option<u32>
    ensures { result ≡ number node.now }
{
    match node.view() {
        View::Integer(value) => u32::try_from(value).ok(),
        _ => None,
    }
}

/// The text of an atom.
pub(crate) fn word<'v>(node: &'v Node) -> Option<&'v str>
    ensures { option_map (λ text. text.now) result ≡ word node.now }
{
    match node.view() {
        View::Atom(text) => Some(text),
        _ => None,
    }
}

/// The elements of a proper list.
pub(crate) fn list_elements<'v, 'a>(node: &'v Node<'a>) -> Option<Elements<'v, 'a>>
    ensures { option_map (λ elements. elements_seen elements) result ≡ list_elements node.now }
{
    match node.view() {
        View::List(elements, None) => Some(elements),
        View::List(_, Some(tail)) => {
            // A tail is a term, and no row of further elements, as its view shows.
            let _view = tail.view();
            None
        }
        _ => None,
    }
}
