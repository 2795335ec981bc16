//! A term as it is spelled, and where it stands.

ghost use Rattle.std.specs.Prelude.{◌≡◌, ◌↔◌, IfSome, IsTrue};
ghost use Rattle.bx_text.specs.Form.{tail_tree};
ghost use Rattle.bx_text.specs.Tree.{IsWhole, IsEnd};
ghost use Rattle.bx_text.specs.Tree.{chain, nil};
ghost use Rattle.bx_text.specs.View.{tail_seen, elements_seen};

use crate::letters::Letters;
use crate::spellings::same_number;
use crate::tokens::Large;
use crate::word::Word;
use std::marker::Model;

/// The part of a text that a token or a term takes.
#[derive(Clone, Copy, Debug, PartialEq, Eq)]
pub struct Span {
    /// Where its first byte stands in the text, from 0.
    pub from: usize,
    /// The place behind its last byte.
    pub to: usize,
    /// The line of its first byte, from 1.
    pub line: usize,
}

/// Which terms stand for no value here.
#[derive(Clone, Copy, Debug, PartialEq, Eq)]
pub enum Sort {
    Float,
    Map,
    Binary,
    /// An external fun.
    Fun,
}

/// A term that was read, with the part of the text that it takes.
#[cycle(node)]
#[derive(Debug, Drop)]
pub struct Node<'a> {
    span: Span,
    form: Form<'a>,
}

#[cycle(node)]
#[derive(Debug, Drop)]
enum Form<'a> {
    Integer(i64),
    Large(Word<'a>),
    Atom(Word<'a>),
    Tuple(Vec<Node<'a>>),
    List(Vec<Node<'a>>, Option<Box<Node<'a>>>),
    /// A list that is spelled as strings.
    Text(Box<Letters>),
    Other(Sort, Word<'a>),
}

impl<'a> Model for Node<'a> {
    ghost use Rattle.bx_text.specs.Tree.{Tree, tree_code, nodes};

    ghost Value = { Tree };

    ghost coded = { tree_code };

    ghost use Rattle.bx_text.specs.Form.{form_tree, IsForm};

    ghost view = { λ n. form_tree n.span n.form };

    ghost invariant = { λ n. IsForm n.form };

    ghost size = { nodes };

    ghost use Rattle.bx_text.specs.Falls.{form_falls};

    ghost size_decreases = { λ a h. form_falls a.span a.form };
}

/// The elements of a tuple or a list.
#[derive(Clone, Copy)]
pub enum Elements<'v, 'a> {
    Nodes(&'v [Node<'a>]),
    /// The characters of strings.
    Letters(&'v Letters),
}

/// An element of a tuple or a list.
#[derive(Drop)]
pub enum Element<'v, 'a> {
    Node(&'v Node<'a>),
    /// A character of a string.
    Letter(Node<'a>),
}

impl<'v, 'a> Element<'v, 'a> {
    ghost use Rattle.std.specs.Prelude.{◌≡◌};
    ghost use Rattle.bx_text.specs.View.{element_seen};

    /// The element as a node.
    pub fn node(&self) -> &Node<'a>
        ensures { result.now ≡ element_seen self.now }
    {
        match self {
            Element::Node(node) => node,
            Element::Letter(node) => node,
        }
    }
}

impl<'v, 'a> Elements<'v, 'a> {
    ghost use Rattle.std.specs.Prelude.{◌≡◌, ◌<◌, get_or, length};
    ghost use Rattle.bx_text.specs.View.{elements_seen, element_seen};

    /// How many there are.
    pub fn len(self) -> usize
        ensures { result ≡ length (elements_seen self.entry) }
    {
        match self {
            Elements::Nodes(nodes) => nodes.len(),
            Elements::Letters(letters) => letters.len(),
        }
    }

    /// The element of that number, from 0.
    pub fn at(self, number: usize) -> Element<'v, 'a>
        requires { number < length (elements_seen self) }
        ensures { element_seen result ≡ get_or (elements_seen self.entry) number (element_seen result) }
    {
        match self {
            Elements::Nodes(nodes) => Element::Node(&nodes[number]),
            Elements::Letters(letters) => {
                let (span, code) = letters.at(number);
                Element::Letter(Node::integer(span, code))
            }
        }
    }
}

/// What a node is.
#[derive(Drop)]
pub enum View<'v, 'a> {
    /// An integer of 64 bits.
    Integer(i64),
    /// An integer outside 64 bits: an optional `-` and digits.
    Large(&'v str),
    /// An atom's text.
    Atom(&'v str),
    /// A tuple's elements.
    Tuple(&'v [Node<'a>]),
    /// A list's elements, and its tail where it has one that is no list.
    List(Elements<'v, 'a>, Option<&'v Node<'a>>),
    /// A float, map, binary or external fun: which of them, and its text as it was read.
    Other(Sort, &'v str),
}

fn beyond<'v, 'a>(tail: &'v Option<Box<Node<'a>>>) -> Option<&'v Node<'a>>
    ensures seen { tail_seen result ≡ tail_tree tail.now }
    ensures whole { IfSome result (λ node. IsWhole node.now) }
{
    match tail {
        Some(node) => {
            let node: &Node<'a> = &**node;
            // A look at what the node holds tells that it is a whole term.
            let _ = &node.form;
            Some(node)
        }
        None => None,
    }
}

impl<'a> Node<'a> {
    ghost use Rattle.std.specs.Prelude.{◌≡◌, ◌↔◌, IsTrue, List};
    ghost use Rattle.bx_text.specs.Number.{number};
    ghost use Rattle.bx_text.specs.Tree.{integer, atom, tuple, list, other, nil, chain, span_of};
    ghost use Rattle.bx_text.specs.Form.{tail_tree};
    ghost use Rattle.bx_text.specs.Grammar.{SpelledAs};
    ghost use Rattle.bx_text.specs.View.{seen, IsView};

    pub(crate) fn integer(span: Span, n: i64) -> Node<'a>
        ensures { result ≡ integer span n }
    {
        Node {
            span,
            form: Form::Integer(n),
        }
    }

    pub(crate) fn large(span: Span, large: Large<'a>) -> Node<'a>
        ensures { result ≡ integer span (number large.entry.text.now) }
    {
        Node {
            span,
            form: Form::Large(Word::borrowed(large.text)),
        }
    }

    pub(crate) fn atom(span: Span, text: Word<'a>) -> Node<'a>
        ensures { result ≡ atom span text.entry }
    {
        Node {
            span,
            form: Form::Atom(text),
        }
    }

    pub(crate) fn other(span: Span, sort: Sort, text: &'a str) -> Node<'a>
        requires { SpelledAs sort text.now }
        ensures { result ≡ other span sort text.entry.now }
    {
        Node {
            span,
            form: Form::Other(sort, Word::borrowed(text)),
        }
    }

    pub(crate) fn tuple(span: Span, elements: Vec<Node<'a>>) -> Node<'a>
        ensures { result ≡ tuple span (chain elements.entry.items nil) }
    {
        Node {
            span,
            form: Form::Tuple(elements),
        }
    }

    pub(crate) fn list(span: Span, elements: Vec<Node<'a>>, tail: Option<Box<Node<'a>>>) -> Node<'a>
        ensures { result ≡ list span (chain elements.entry.items (tail_tree tail.entry)) }
    {
        Node {
            span,
            form: Form::List(elements, tail),
        }
    }

    pub(crate) fn text(span: Span, letters: Box<Letters>) -> Node<'a>
        ensures { result ≡ list span (chain letters.value nil) }
    {
        Node {
            span,
            form: Form::Text(letters),
        }
    }

    /// What the node is, to be matched on.
    pub fn view(&self) -> View<'_, 'a>
        ensures content { seen (span_of self.now) result ≡ self.now }
        ensures large { IsView result }
    {
        match &self.form {
            Form::Integer(n) => View::Integer(*n),
            Form::Large(digits) => View::Large(digits.as_str()),
            Form::Atom(text) => View::Atom(text.as_str()),
            Form::Tuple(elements) => View::Tuple(elements.as_slice()),
            Form::List(elements, tail) => {
                View::List(Elements::Nodes(elements.as_slice()), beyond(tail))
            }
            Form::Text(letters) => View::List(Elements::Letters(&**letters), None),
            Form::Other(sort, text) => View::Other(*sort, text.as_str()),
        }
    }

    /// Where the node stands.
    pub fn span(&self) -> Span
        ensures { result ≡ span_of self.now }
    {
        self.span
    }

    /// Whether the two terms have the same content, and each part stands in the same place.
    #[cycle(same)]
    #[tactic(auto, using(crate::proofs::Contents::unlike_integer, crate::proofs::Contents::unlike_large))]
    pub fn same(&self, other: &Node<'_>) -> bool
        ensures { IsTrue result ↔ (self.now ≡ other.now) }
    {
        if self.span != other.span {
            return false;
        }
        match (&self.form, &other.form) {
            (Form::Integer(m), Form::Integer(n)) => m == n,
            (Form::Large(one), Form::Large(two)) => {
                same_number(one.as_str().as_bytes(), two.as_str().as_bytes())
            }
            (Form::Atom(text), Form::Atom(other_text)) => text.same(other_text),
            (Form::Tuple(xs), Form::Tuple(ys)) => {
                same_elements(Elements::Nodes(xs), Elements::Nodes(ys))
            }
            (Form::List(xs, tail), Form::List(ys, other_tail)) => {
                same_tails(tail, other_tail)
                    && same_elements(Elements::Nodes(xs), Elements::Nodes(ys))
            }
            (Form::List(xs, tail), Form::Text(ys)) => {
                same_tails(tail, &None) && same_elements(Elements::Nodes(xs), Elements::Letters(ys))
            }
            (Form::Text(xs), Form::List(ys, tail)) => {
                same_tails(&None, tail) && same_elements(Elements::Letters(xs), Elements::Nodes(ys))
            }
            (Form::Text(xs), Form::Text(ys)) => {
                same_elements(Elements::Letters(xs), Elements::Letters(ys))
            }
            (Form::Other(sort, text), Form::Other(other_sort, other_text)) => {
                sort == other_sort && text.same(other_text)
            }
            _ => false,
        }
    }
}

#[cycle(same)]
#[tactic(auto, using(crate::proofs::Contents::row_at, crate::proofs::Contents::nodes_at))]
fn same_elements(xs: Elements<'_, '_>, ys: Elements<'_, '_>) -> bool
    ensures { IsTrue result ↔ (elements_seen xs.entry ≡ elements_seen ys.entry) }
{
    if xs.len() != ys.len() {
        return false;
    }
    for i in 0..xs.len() {
        let x = xs.at(i);
        let y = ys.at(i);
        if !x.node().same(y.node()) {
            return false;
        }
    }
    true
}

/// Whether the tails are the same, or there is none.
#[cycle(same)]
fn same_tails(one: &Option<Box<Node<'_>>>, other: &Option<Box<Node<'_>>>) -> bool
    ensures same { IsTrue result ↔ (tail_tree one.now ≡ tail_tree other.now) }
    ensures ends { IsEnd (tail_tree one.now) × IsEnd (tail_tree other.now) }
{
    match (beyond(one), beyond(other)) {
        (Some(one), Some(other)) => one.same(other),
        (None, None) => true,
        _ => false,
    }
}
