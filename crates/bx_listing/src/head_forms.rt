//! The forms of a listing that hold no item: `module`, `exports`, `attributes`, `labels` and `function`.

ghost use Rattle.std.specs.Prelude.{◌≡◌, option_map};
ghost use Rattle.bx_listing.specs.HeadForms.{module_name, module_form, offer, are_offers, named_offer, named_offers, offers, exports_form, is_attributes, is_labels, function_form};
ghost use Rattle.bx_text.specs.View.{elements_seen};
ghost use Rattle.bx_listing.specs.Seen.{seen};
ghost use Rattle.bx_listing.specs.Reading.{Answers};

use crate::code_form::Export;
use crate::form_reader::{FormReader, bad_form};
use crate::listing::Function;
use crate::shapes::{Shape, list_elements, number, shape_of, word};
use crate::words::{FormWord, form_word};
use bx_terms::{AtomId, Atoms, Fault};
use bx_text::{Elements, Node};

impl FormReader {
    /// The module's name, of `{module,M}`.
    pub(crate) fn module_form(self, atoms: &mut Atoms, form: Shape) -> Result<AtomId, Fault>
        ensures { Answers (λ name. name) atoms.old atoms.new result
            (module_form (seen form.entry)) }
    {
        match module_name(form) {
            Some(name) => self.name_atom(atoms, name),
            None => Err(bad_form()),
        }
    }

    /// The exported functions, of `{exports,[{F,A},..]}`.
    pub(crate) fn exports_form(self, atoms: &mut Atoms, form: Shape) -> Result<Vec<Export>, Fault>
        ensures { Answers (λ exports. exports.items) atoms.old atoms.new result
            (exports_form (seen form.entry)) }
    {
        let Shape::Tagged(text, [list]) = form else {
            return Err(bad_form());
        };
        match (form_word(text), list_elements(list)) {
            (FormWord::Exports, Some(list)) => self.offers(atoms, list),
            _ => Err(bad_form()),
        }
    }

    fn offers(self, atoms: &mut Atoms, list: Elements) -> Result<Vec<Export>, Fault>
        ensures { Answers (λ exports. exports.items) atoms.old atoms.new result
            (offers (elements_seen list.entry)) }
    {
        if are_offers(list) {
            self.named_offers(atoms, list)
        } else {
            Err(bad_form())
        }
    }

    fn named_offers(self, atoms: &mut Atoms, list: Elements) -> Result<Vec<Export>, Fault>
        ensures { Answers (λ exports. exports.items) atoms.old atoms.new result
            (named_offers (elements_seen list.entry)) }
    {
        let mut exports = Vec::new(self.alloc);
        for i in 0..list.len() {
            match self.named_offer(atoms, list.at(i).node()) {
                Ok(export) => exports.push(export)?,
                Err(fault) => return Err(fault),
            }
        }
        Ok(exports)
    }

    fn named_offer(self, atoms: &mut Atoms, node: &Node) -> Result<Export, Fault>
        ensures { Answers (λ export. export) atoms.old atoms.new result
            (named_offer node.now) }
    {
        match offer(node) {
            Some((name, arity)) => {
                let function = self.name_atom(atoms, name)?;
                Ok(Export { function, arity })
            }
            None => Err(bad_form()),
        }
    }

    /// The function that begins with `{function,F,A,Entry}`, of which these are the parts.
    pub(crate) fn function_form(self, atoms: &mut Atoms, parts: &[Node]) -> Result<Function, Fault>
        ensures { Answers (λ function. function) atoms.old atoms.new result
            (function_form parts.now) }
    {
        let [name, arity, entry] = parts else {
            return Err(bad_form());
        };
        match (word(name), number(arity), number(entry)) {
            (Some(name), Some(arity), Some(entry)) => {
                let name = self.name_atom(atoms, name)?;
                Ok(Function::new(self.alloc, name, arity, entry))
            }
            _ => Err(bad_form()),
        }
    }
}

fn module_name<'v>(form: Shape<'v, '_>) -> Option<&'v str>
    ensures { option_map (λ name. name.now) result ≡ module_name (seen form.entry) }
{
    let Shape::Tagged(text, [name]) = form else {
        return None;
    };
    match form_word(text) {
        FormWord::Module => word(name),
        _ => None,
    }
}

/// Whether all of them are `{F,A}`.
fn are_offers(list: Elements) -> bool
    ensures { result ≡ are_offers (elements_seen list.entry) }
{
    for i in 0..list.len() {
        if offer(list.at(i).node()).is_none() {
            return false;
        }
    }
    true
}

/// The name and the arity of `{F,A}`.
fn offer<'v>(node: &'v Node) -> Option<(&'v str, u32)>
    ensures { option_map (λ offer. (offer.0.now, offer.1)) result ≡ offer node.now }
{
    match shape_of(node) {
        Shape::Tagged(name, [arity]) => Some((name, number(arity)?)),
        _ => None,
    }
}

/// Whether the form is `{attributes,T}`.
pub(crate) fn is_attributes(form: Shape) -> bool
    ensures { result ≡ is_attributes (seen form.entry) }
{
    match form {
        Shape::Tagged(text, [_]) => matches!(form_word(text), FormWord::Attributes),
        _ => false,
    }
}

/// Whether the form is `{labels,N}`.
pub(crate) fn is_labels(form: Shape) -> bool
    ensures { result ≡ is_labels (seen form.entry) }
{
    match form {
        Shape::Tagged(text, [count]) => {
            matches!(form_word(text), FormWord::Labels) && number(count).is_some()
        }
        _ => false,
    }
}
