//! Listings, read form by form.

ghost use Rattle.std.specs.Prelude.{◌≡◌, ◌≤◌, ◌<◌, ◌⊎◌, [], None, length, option_map, IfOk, IfSome, IsTrue, OnOk};
ghost use Rattle.bx_terms.specs.Outcomes.{Gives};
ghost use Rattle.bx_text.specs.Place.{place, place_in};
ghost use Rattle.bx_text.specs.Forms.{takes_memory};
ghost use Rattle.bx_text.specs.Tree.{span_of};
ghost use Rattle.bx_listing.specs.Shape.{shape};
ghost use Rattle.bx_listing.specs.Forms.{next_form, forms, last_line};
ghost use Rattle.bx_listing.specs.Dropped.{dropped, IsDropped, MakeSame};
ghost use Rattle.bx_listing.specs.Listing as listings;
ghost use Rattle.bx_listing.specs.Locations.{located, located_behind, located_exports, locations, passed};
ghost use Rattle.bx_listing.specs.Taking.{ReadsForms};
ghost use Rattle.bx_listing.specs.Reading.{Reads, Answers, on_line};
ghost use Rattle.bx_listing.specs.HeadForms.{module_form, exports_form};

use crate::code_form::Export;
use crate::form_reader::{FormReader, on_line};
use crate::head_forms::{is_attributes, is_labels};
use crate::items::Operand;
use crate::listing::{Function, Listing};
use crate::locations::Locations;
use crate::shapes::shape_of;
use bx_terms::{AtomId, Atoms, Fault};
use bx_text::{Node, Reader};
use std::alloc::{AllocError, Global};

/// The text of a listing, and whether it is asked where its items stand in its sources.
#[derive(Clone, Copy)]
struct Source<'a> {
    text: &'a [u8],
    located: bool,
}

/// The next form and a reader behind it; `None` where only blanks follow.
#[tactic(auto, unfolding(crate::specs::Forms::next_form))]
fn next_form<'a>(alloc: Global, reader: Reader<'a>) -> Result<Option<(Node<'a>, Reader<'a>)>, Fault>
    ensures form { Gives (takes_memory (place reader.entry))
        (λ o. option_map (λ x. (x.0, place x.1)) o) result (next_form (place reader.entry)) }
    ensures shorter { IfOk result
        (λ o. IfSome o (λ x. length x.1.rest.now < length reader.entry.rest.now)) }
{
    // That each form takes bytes bounds the number of forms.
    match reader.next(alloc)? {
        Some((form, after)) if after.rest.len() < reader.rest.len() => Ok(Some((form, after))),
        _ => Ok(None),
    }
}

/// A reader behind the next form, where it is a pair of that word and a term, which is passed over.
#[tactic(auto, using(crate::proofs::Dropped::dropped_form))]
fn dropped<'a>(reader: Reader<'a>, word: &str) -> Option<Reader<'a>>
    ensures end { option_map (λ r. place r) result ≡ dropped word.now (place reader.entry) }
    ensures form { IfSome result (λ r. IsDropped word.now (place reader.entry) (place r)) }
    ensures shorter { IfSome result (λ r. length r.rest.now < length reader.entry.rest.now) }
{
    // That each form takes bytes bounds the number of forms.
    match reader.behind_pair(word) {
        Some(behind) if behind.rest.len() < reader.rest.len() => Some(behind),
        _ => None,
    }
}

/// A reader behind the annotations that follow, which are passed over.
#[tactic(auto, using(crate::proofs::Dropped::same_none, crate::proofs::Dropped::same_more, crate::proofs::Dropped::annotation_dropped))]
fn behind_annotations<'a>(reader: Reader<'a>) -> Reader<'a>
    ensures same { MakeSame (forms (place reader.entry)) (forms (place result)) }
    ensures shorter { length result.rest.now ≤ length reader.entry.rest.now }
{
    let mut here = reader;
    while let Some(behind) = dropped(here, "%") {
        here = behind;
    }
    here
}

/// The line in which a text ends.
fn last_line(text: &[u8]) -> usize
    ensures { result ≡ last_line text.now }
{
    1 + text.iter().filter(|byte| **byte == b'\n').count()
}

#[tactic(auto, using(crate::proofs::Forms::forms_next))]
/// A form that must be there, and a reader behind it.
fn head_form<'a>(
    alloc: Global,
    text: &[u8],
    reader: Reader<'a>,
) -> Result<(Node<'a>, Reader<'a>), Fault>
    ensures { Gives (takes_memory (place reader.entry)) (λ x. listings.taken_at x.0 (place x.1))
        result (listings.taken (last_line text.now) (forms (place reader.entry))) }
{
    match next_form(alloc, reader)? {
        Some(form) => Ok(form),
        None => Err(Fault::BadForm {
            line: last_line(text),
        }),
    }
}

/// A reader behind `{labels,N}`, before which `{attributes,T}` may stand.
#[tactic(auto, using(crate::proofs::Dropped::attributes_read))]
fn behind_head<'a>(alloc: Global, text: &[u8], reader: Reader<'a>) -> Result<Reader<'a>, Fault>
    ensures { Gives (ReadsForms (place reader.entry)) (λ r. forms (place r)) result
        (listings.behind_head (last_line text.now) (forms (place reader.entry))) }
{
    if let Some(behind) = dropped(reader, "attributes") {
        return labels_form(alloc, text, behind);
    }
    let (form, behind) = head_form(alloc, text, reader)?;
    if is_attributes(shape_of(&form)) {
        return labels_form(alloc, text, behind);
    }
    behind_labels(form, behind)
}

/// A reader behind the next form, which must be `{labels,N}`.
fn labels_form<'a>(alloc: Global, text: &[u8], reader: Reader<'a>) -> Result<Reader<'a>, Fault>
    ensures { Gives (takes_memory (place reader.entry)) (λ r. forms (place r)) result (listings.and_so
        (listings.taken (last_line text.now) (forms (place reader.entry))) listings.behind_labels) }
{
    let (form, behind) = head_form(alloc, text, reader)?;
    behind_labels(form, behind)
}

/// The reader behind a form, which must be `{labels,N}`.
fn behind_labels<'a>(form: Node<'a>, behind: Reader<'a>) -> Result<Reader<'a>, Fault>
    ensures { Gives ⊥ (λ r. forms (place r)) result
        (listings.behind_labels (listings.taken_at form.entry (place behind.entry))) }
{
    if is_labels(shape_of(&form)) {
        Ok(behind)
    } else {
        Err(Fault::BadForm {
            line: form.span().line,
        })
    }
}

/// The functions, each with its items, up to the end of the text, and, where that is asked, where the items stand in its sources.
fn functions(
    alloc: Global,
    atoms: &mut Atoms,
    reader: Reader,
    asked: bool,
) -> Result<(Vec<Function>, Locations), Fault>
    ensures read { Reads (ReadsForms (place reader.entry)) (λ r. r.0.items) atoms.old atoms.new result
        (listings.functions [] (forms (place reader.entry))) }
    ensures located { IsTrue asked → IfOk result
        (λ r. r.1.items ≡ located None (forms (place reader.entry))) }
{
    let mut functions = Vec::new(alloc);
    let mut operands = Vec::new(alloc);
    let mut locations = Locations::new(alloc);
    let mut here = reader;
    while let Some((form, behind)) = next_form(alloc, here)? {
        take_form(alloc, atoms, &mut functions, &mut operands, &form)?;
        place_form(alloc, asked, &mut locations, form)?;
        here = behind_annotations(behind);
    }
    Ok((functions, locations.fitted()))
}

#[tactic(auto, using(crate::proofs::Readings::answers_placed))]
fn take_form(
    alloc: Global,
    atoms: &mut Atoms,
    functions: &mut Vec<Function>,
    operands: &mut Vec<Operand>,
    form: &Node,
) -> Result<(), Fault>
    ensures { Answers (λ done. functions.new.items) atoms.old atoms.new result
        (listings.part (span_of form.now).line functions.old.items (shape form.now)) }
{
    let reader = FormReader { alloc };
    on_line(
        form.span().line,
        reader.part(atoms, functions, operands, form),
    )
}

#[tactic(auto, using(crate::proofs::Readings::answers_placed))]
fn take_name(alloc: Global, atoms: &mut Atoms, form: &Node) -> Result<AtomId, Fault>
    ensures { Answers (λ name. name) atoms.old atoms.new result
        (on_line (span_of form.now).line (module_form (shape form.now))) }
{
    let reader = FormReader { alloc };
    on_line(form.span().line, reader.module_form(atoms, shape_of(form)))
}

#[tactic(auto, using(crate::proofs::Readings::answers_placed))]
fn take_exports(alloc: Global, atoms: &mut Atoms, form: &Node) -> Result<Vec<Export>, Fault>
    ensures { Answers (λ exports. exports.items) atoms.old atoms.new result
        (on_line (span_of form.now).line (exports_form (shape form.now))) }
{
    let reader = FormReader { alloc };
    on_line(form.span().line, reader.exports_form(atoms, shape_of(form)))
}

/// Where the items stand is asked: one form more.
fn place_form(
    alloc: Global,
    asked: bool,
    locations: &mut Locations,
    form: Node,
) -> Result<(), AllocError>
    ensures { IsTrue asked → OnOk result
        (locations.new ≡ passed locations.old (shape form.entry)) }
{
    if asked {
        locations.pass(alloc, shape_of(&form))
    } else {
        Ok(())
    }
}

/// Reads a listing: the forms `{module,M}`, `{exports,[{F,A},..]}`, `{attributes,T}` (which may be missing) and
/// `{labels,N}`, and then for each function `{function,F,A,Entry}` and its items, each form ended by a full stop.
///
/// The atoms of the code are numbered in `atoms`, in reading order; what is ignored (attributes, annotations `{'%',T}`,
/// the types of registers, the operand of `line`, the number of `labels`) names none.
///
/// A refusal is the first fault in reading order, form by form, with the line on which its form begins, and stands for what
/// comes before it: a form's text (3 to 7) before its place and shape (8), an instruction's name (9) before the number of its
/// operands (10), and these before the operands, from left to right (1, 2, 9, 10, 11). The names before the fault stay.
///
/// Source: the listings that `erlc -S` writes, and `genop.tab` of Erlang/OTP.
pub fn read_listing(alloc: Global, atoms: &mut Atoms, text: &[u8]) -> Result<Listing, Fault>
    ensures { Reads
        (takes_memory (place_in text.now 0) ⊎ listings.IsNamed (forms (place_in text.now 0)))
        (λ listing. listing) atoms.old atoms.new result
        (listings.listing (last_line text.now) (forms (place_in text.now 0))) }
{
    let source = Source {
        text,
        located: false,
    };
    match read(alloc, atoms, source) {
        Ok((listing, _)) => Ok(listing),
        Err(fault) => Err(fault),
    }
}

/// Reads a listing, and where its items stand in its sources: `{line,[{location,STRING,N},..]}` says it of itself and of the
/// items behind it in its function. A `line` that names no place is read all the same.
pub fn read_located(
    alloc: Global,
    atoms: &mut Atoms,
    text: &[u8],
) -> Result<(Listing, Locations), Fault>
    ensures read { Reads
        (takes_memory (place_in text.now 0) ⊎ listings.IsNamed (forms (place_in text.now 0)))
        (λ r. r.0) atoms.old atoms.new result
        (listings.listing (last_line text.now) (forms (place_in text.now 0))) }
    ensures located { IfOk result
        (λ r. r.1.items ≡ locations (last_line text.now) (forms (place_in text.now 0))) }
{
    let source = Source {
        text,
        located: true,
    };
    read(alloc, atoms, source)
}

/// The listing of that text, and, where that is asked, where its items stand in its sources.
fn read(alloc: Global, atoms: &mut Atoms, source: Source<'_>) -> Result<(Listing, Locations), Fault>
    ensures read { Reads
        (takes_memory (place_in source.entry.text.now 0) ⊎ listings.IsNamed (forms (place_in source.entry.text.now 0)))
        (λ r. r.0) atoms.old atoms.new result
        (listings.listing (last_line source.entry.text.now) (forms (place_in source.entry.text.now 0))) }
    ensures located { IsTrue source.entry.located → IfOk result (λ r. r.1.items ≡ locations
        (last_line source.entry.text.now) (forms (place_in source.entry.text.now 0))) }
{
    let (form, behind) = head_form(alloc, source.text, Reader::at(source.text, 0))?;
    let name = take_name(alloc, atoms, &form)?;
    behind_name(alloc, atoms, source, name, behind)
}

/// The listing of that name, of which the exports come next.
fn behind_name(
    alloc: Global,
    atoms: &mut Atoms,
    source: Source<'_>,
    name: AtomId,
    behind: Reader,
) -> Result<(Listing, Locations), Fault>
    ensures read { Reads (ReadsForms (place behind.entry)) (λ r. r.0) atoms.old atoms.new result
        (listings.behind_name (last_line source.entry.text.now) (forms (place behind.entry)) name) }
    ensures located { IsTrue source.entry.located → IfOk result (λ r. r.1.items ≡ located_exports
        (last_line source.entry.text.now) (forms (place behind.entry))) }
{
    let (form, behind) = head_form(alloc, source.text, behind)?;
    let exports = take_exports(alloc, atoms, &form)?;
    let (functions, locations) = functions_behind(alloc, atoms, source, behind)?;
    Ok((Listing::new(name, exports, functions), locations))
}

/// The functions behind the rest of the head, and where their items stand in their sources.
fn functions_behind(
    alloc: Global,
    atoms: &mut Atoms,
    source: Source<'_>,
    behind: Reader,
) -> Result<(Vec<Function>, Locations), Fault>
    ensures read { Reads (ReadsForms (place behind.entry)) (λ r. r.0.items) atoms.old atoms.new
        result (listings.functions_behind (last_line source.entry.text.now) (forms (place behind.entry))) }
    ensures located { IsTrue source.entry.located → IfOk result (λ r. r.1.items ≡ located_behind
        (listings.behind_head (last_line source.entry.text.now) (forms (place behind.entry)))) }
{
    let behind = behind_head(alloc, source.text, behind)?;
    functions(alloc, atoms, behind, source.located)
}
