//! Which instruction a form is, and what stands as its operands: the ways of writing.

ghost use Rattle.std.specs.Prelude.{◌≡◌, [], length};
ghost use Rattle.bx_ops.specs.Opcodes.{with_name};
ghost use Rattle.bx_ops.specs.GuardBifs.{guard_bif_with};
ghost use Rattle.bx_listing.specs.Ways.{counted, named_form, bare_op, bare_form, test_form, test_row, bif_form, is_raise, bif_found, bif_row, bif_op, gc_bif_op, gc_bif_form, raise_form, tuple_form};
ghost use Rattle.bx_text.specs.View.{elements_seen};
ghost use Rattle.bx_listing.specs.Formed.{formed, terms};
ghost use Rattle.bx_listing.specs.Taking.{FormGives};

use crate::form_reader::{FormReader, bad_form, bad_operand};
use crate::shapes::{list_elements, word};
use crate::words::FormWord;
use bx_ops::{Op, Way, bif_by_name, op_named, slots, way};
use bx_terms::Fault;
use bx_text::{Element, Elements, Node};

/// The terms that stand as operands: those before a list, those in it, and those behind it.
#[derive(Clone, Copy)]
pub(crate) struct Arguments<'v, 'a> {
    pub before: &'v [Node<'a>],
    pub list: Elements<'v, 'a>,
    pub behind: &'v [Node<'a>],
}

impl<'v, 'a> Arguments<'v, 'a> {
    ghost use Rattle.std.specs.Prelude.{◌≡◌, option_map, slice_get};
    ghost use Rattle.bx_text.specs.View.{element_seen};
    ghost use Rattle.bx_listing.specs.Formed.{terms};

    /// The term that stands as the operand of that number, from 0.
    pub(crate) fn part(&self, number: usize) -> Option<Element<'v, 'a>>
        ensures { option_map (λ part. element_seen part) result ≡ slice_get (terms self.now) number }
    {
        if number < self.before.len() {
            return Some(Element::Node(&self.before[number]));
        }
        let number = number - self.before.len();
        if number < self.list.len() {
            return Some(self.list.at(number));
        }
        let number = number - self.list.len();
        if number < self.behind.len() {
            return Some(Element::Node(&self.behind[number]));
        }
        None
    }
}

/// An instruction, and the terms that stand as its operands.
#[derive(Clone, Copy)]
pub(crate) struct Form<'v, 'a> {
    pub op: Op,
    pub arguments: Arguments<'v, 'a>,
}

impl FormReader {
    /// The instruction that is written as a tuple of its name and its operands.
    fn named_form<'v, 'a>(self, text: &str, parts: &'v [Node<'a>]) -> Result<Form<'v, 'a>, Fault>
        ensures { FormGives formed result (named_form text.now parts.now) }
    {
        let Some(op) = op_named(text) else {
            return Err(self.unsupported(text)?);
        };
        match way(op) {
            Way::Plain => {
                let arguments = Arguments {
                    before: parts,
                    list: Elements::Nodes(&parts[..0]),
                    behind: &parts[..0],
                };
                counted(Form { op, arguments })
            }
            Way::Bare => Err(bad_operand()),
            _ => Err(self.unsupported(text)?),
        }
    }

    /// The instruction that is written as its name alone.
    fn bare_op(self, text: &str) -> Result<Op, Fault>
        ensures { FormGives (λ op. (op, [])) result
            (bare_op text.now (with_name text.now)) }
    {
        let Some(op) = op_named(text) else {
            return Err(self.unsupported(text)?);
        };
        match way(op) {
            Way::Bare => Ok(op),
            Way::Plain => Err(bad_operand()),
            _ => Err(self.unsupported(text)?),
        }
    }

    /// The instruction that is written as this word alone.
    pub(crate) fn bare_form(self, text: &str, form: FormWord) -> Result<Op, Fault>
        ensures { FormGives (λ op. (op, [])) result (bare_form text.now form) }
    {
        match form {
            FormWord::Module
            | FormWord::Exports
            | FormWord::Attributes
            | FormWord::Labels
            | FormWord::Function => Err(bad_form()),
            FormWord::Annotation => Err(self.unsupported(text)?),
            FormWord::Named => self.bare_op(text),
            _ => Err(bad_operand()),
        }
    }

    fn test_form<'v, 'a>(self, parts: &'v [Node<'a>]) -> Result<Form<'v, 'a>, Fault>
        ensures { FormGives formed result (test_form parts.now) }
    {
        let [name, rest @ ..] = parts else {
            return Err(bad_operand());
        };
        let Some(text) = word(name) else {
            return Err(bad_operand());
        };
        let Some(op) = op_named(text) else {
            return Err(self.unsupported(text)?);
        };
        match way(op) {
            Way::Test => test_row(op, rest),
            _ => Err(self.unsupported(text)?),
        }
    }

    /// The BIF of this name, which there must be with so many arguments.
    fn bif_found<'v, 'a>(
        self,
        text: &str,
        op: Option<Op>,
        arguments: Arguments<'v, 'a>,
    ) -> Result<Form<'v, 'a>, Fault>
        ensures { FormGives formed result (bif_found text.now op
            arguments.entry.before.now (elements_seen arguments.entry.list)
            arguments.entry.behind.now
            (guard_bif_with text.now (length (elements_seen arguments.entry.list)))) }
    {
        let count = arguments.list.len();
        if bif_by_name(text, count).is_none() {
            let called = format!(in self.alloc; "{text}/{count}")?;
            return Err(self.unsupported(called.as_str())?);
        }
        bif_row(op, arguments)
    }

    #[tactic(auto, using(crate::proofs::BifParts::bif_parts))]
    fn bif_form<'v, 'a>(self, parts: &'v [Node<'a>]) -> Result<Form<'v, 'a>, Fault>
        ensures { FormGives formed result (bif_form parts.now) }
    {
        let [name, _, list, behind @ ..] = parts else {
            return Err(bad_operand());
        };
        let (Some(text), Some(list)) = (word(name), list_elements(list)) else {
            return Err(bad_operand());
        };
        if is_raise(text, list) {
            let before = &parts[1..2];
            return bif_row(
                Some(Op::Raise),
                Arguments {
                    before,
                    list,
                    behind,
                },
            );
        }
        let before = &parts[..2];
        self.bif_found(
            text,
            bif_op(list.len()),
            Arguments {
                before,
                list,
                behind,
            },
        )
    }

    #[tactic(auto, using(crate::proofs::BifParts::gc_bif_parts))]
    fn gc_bif_form<'v, 'a>(self, parts: &'v [Node<'a>]) -> Result<Form<'v, 'a>, Fault>
        ensures { FormGives formed result (gc_bif_form parts.now) }
    {
        let [name, _, _, list, behind @ ..] = parts else {
            return Err(bad_operand());
        };
        let (Some(text), Some(list)) = (word(name), list_elements(list)) else {
            return Err(bad_operand());
        };
        let before = &parts[..3];
        self.bif_found(
            text,
            gc_bif_op(list.len()),
            Arguments {
                before,
                list,
                behind,
            },
        )
    }

    /// The instruction that is written as a tuple of this word and these parts.
    pub(crate) fn tuple_form<'v, 'a>(
        self,
        text: &str,
        form: FormWord,
        parts: &'v [Node<'a>],
    ) -> Result<Form<'v, 'a>, Fault>
        ensures { FormGives formed result (tuple_form text.now form parts.now) }
    {
        match form {
            FormWord::Module
            | FormWord::Exports
            | FormWord::Attributes
            | FormWord::Labels
            | FormWord::Function => Err(bad_form()),
            FormWord::Annotation => Err(self.unsupported(text)?),
            FormWord::Test => self.test_form(parts),
            FormWord::Bif => self.bif_form(parts),
            FormWord::GcBif => self.gc_bif_form(parts),
            FormWord::Raise => raise_form(parts),
            FormWord::Named => self.named_form(text, parts),
        }
    }
}

/// An instruction whose operands are as many as the table says.
fn counted<'v, 'a>(form: Form<'v, 'a>) -> Result<Form<'v, 'a>, Fault>
    ensures { FormGives formed result
        (counted form.entry.op (terms form.entry.arguments)) }
{
    let Arguments {
        before,
        list,
        behind,
    } = form.arguments;
    let left = slots(form.op).len();
    if before.len() <= left {
        let left = left - before.len();
        if list.len() <= left && behind.len() == left - list.len() {
            return Ok(form);
        }
    }
    Err(bad_operand())
}

/// The test that is written as `{test,NAME,LABEL,[OPERAND,..]}`, without the first two.
fn test_row<'v, 'a>(op: Op, rest: &'v [Node<'a>]) -> Result<Form<'v, 'a>, Fault>
    ensures { FormGives formed result (test_row op rest.now) }
{
    let [_, list] = rest else {
        return Err(bad_operand());
    };
    let Some(list) = list_elements(list) else {
        return Err(bad_operand());
    };
    let arguments = Arguments {
        before: &rest[..1],
        list,
        behind: &rest[..0],
    };
    counted(Form { op, arguments })
}

/// A BIF of these arguments, or `raise`, with its register behind them.
fn bif_row<'v, 'a>(op: Option<Op>, arguments: Arguments<'v, 'a>) -> Result<Form<'v, 'a>, Fault>
    ensures { FormGives formed result (bif_row op arguments.entry.before.now
        (elements_seen arguments.entry.list) arguments.entry.behind.now) }
{
    match (op, arguments.behind) {
        (Some(op), [_]) => counted(Form { op, arguments }),
        _ => Err(bad_operand()),
    }
}

fn raise_form<'v, 'a>(parts: &'v [Node<'a>]) -> Result<Form<'v, 'a>, Fault>
    ensures { FormGives formed result (raise_form parts.now) }
{
    let [_, list, behind @ ..] = parts else {
        return Err(bad_operand());
    };
    let Some(list) = list_elements(list) else {
        return Err(bad_operand());
    };
    let before = &parts[..1];
    bif_row(
        Some(Op::Raise),
        Arguments {
            before,
            list,
            behind,
        },
    )
}

fn bif_op(arguments: usize) -> Option<Op>
    ensures { result ≡ bif_op arguments }
{
    match arguments {
        0 => Some(Op::Bif0),
        1 => Some(Op::Bif1),
        2 => Some(Op::Bif2),
        _ => None,
    }
}

fn gc_bif_op(arguments: usize) -> Option<Op>
    ensures { result ≡ gc_bif_op arguments }
{
    match arguments {
        1 => Some(Op::GcBif1),
        2 => Some(Op::GcBif2),
        _ => None,
    }
}

fn is_raise(text: &str, list: Elements) -> bool
    ensures { result ≡ is_raise text.now (elements_seen list.entry) }
{
    text == "raise" && list.len() == 2
}
