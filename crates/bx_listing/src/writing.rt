//! The text of a code form, as a listing writes it.

ghost use Rattle.std.specs.Prelude.{◌≡◌, ◌++◌, ◌+◌, Ok, OnOk, drop, string_bytes};
ghost use Rattle.std.specs.List.{flat_map};
ghost use Rattle.bx_terms.specs.Outcomes.{Gives};
ghost use Rattle.bx_listing.specs.Writing.{item_text, function_head_text, function_text, offer_text, offers_text, label_above, labels_above, greatest_label, label_count, module_text, exports_text, labels_text, head_text, code_text};

use crate::code_form::{Code, CodeFunction, Export};
use crate::item_texts::push_item;
use crate::items::Operand;
use crate::operand_texts::{push_name, push_number};
use bx_terms::{AtomId, Atoms, Fault};
use std::alloc::{AllocError, Global};

/// Adds `{F,A}`.
fn push_offer(
    alloc: Global,
    out: &mut String,
    atoms: &Atoms,
    export: Export,
) -> Result<(), AllocError>
    ensures { OnOk result
        (string_bytes out.new ≡ string_bytes out.old ++ offer_text atoms.now export) }
{
    out.push_str("{")?;
    push_name(alloc, out, atoms, export.function)?;
    out.push_str(",")?;
    push_number(out, export.arity)?;
    out.push_str("}")
}

/// Adds exports with commas between them.
#[tactic(auto, using(bx_share::specs::Rows::rest_at))]
fn push_offers(
    alloc: Global,
    out: &mut String,
    atoms: &Atoms,
    exports: &[Export],
) -> Result<(), AllocError>
    ensures { OnOk result
        (string_bytes out.new ≡ string_bytes out.old ++ offers_text atoms.now exports.now) }
{
    match exports {
        [] => Ok(()),
        [first, rest @ ..] => {
            push_offer(alloc, out, atoms, *first)?;
            for export in rest {
                out.push_str(",")?;
                push_offer(alloc, out, atoms, *export)?;
            }
            Ok(())
        }
    }
}

/// The greater of a number and the label that an item with these operands sets, if it sets one.
fn label_above(number: u32, operands: &[Operand]) -> u32
    ensures { result ≡ label_above number operands.now }
{
    match operands {
        [Operand::Place(label), ..] => number.max(*label),
        _ => number,
    }
}

/// The greater of a number and the label that the function's item of that place sets, if it sets one.
fn label_above_at(number: u32, function: &CodeFunction, place: usize) -> u32
    ensures { labels_above result (drop (place + 1) function.now.items)
        ≡ labels_above number (drop place function.now.items) }
{
    match function.item(place) {
        Some(item) => label_above(number, item.operands),
        None => number,
    }
}

/// The greatest of a number and the labels of a function.
#[tactic(auto, using(std::proofs::lemmas::List::drop_all))]
fn labels_above(number: u32, function: &CodeFunction) -> u32
    ensures { result ≡ labels_above number function.now.items }
{
    let mut greatest = number;
    for place in 0..function.item_count() {
        greatest = label_above_at(greatest, function, place);
    }
    greatest
}

/// The greatest label of all functions, or 0.
#[tactic(auto, using(bx_share::specs::Rows::rest_at))]
fn greatest_label(functions: &[CodeFunction]) -> u32
    ensures { result ≡ greatest_label functions.now }
{
    let mut greatest = 0;
    for function in functions {
        greatest = labels_above(greatest, function);
    }
    greatest
}

/// What stands in `{labels,N}`.
fn label_count(greatest: u32) -> u32
    ensures { result ≡ label_count greatest }
{
    if greatest < u32::MAX {
        greatest + 1
    } else {
        greatest
    }
}

/// Adds `{module,M}`.
fn push_module(
    alloc: Global,
    out: &mut String,
    atoms: &Atoms,
    name: AtomId,
) -> Result<(), AllocError>
    ensures { OnOk result
        (string_bytes out.new ≡ string_bytes out.old ++ module_text atoms.now name) }
{
    out.push_str("{module,")?;
    push_name(alloc, out, atoms, name)?;
    out.push_str("}.\n")
}

/// Adds `{exports,[{F,A},..]}`.
fn push_exports(
    alloc: Global,
    out: &mut String,
    atoms: &Atoms,
    exports: &[Export],
) -> Result<(), AllocError>
    ensures { OnOk result (string_bytes out.new
        ≡ string_bytes out.old ++ exports_text atoms.now exports.now) }
{
    out.push_str("{exports,[")?;
    push_offers(alloc, out, atoms, exports)?;
    out.push_str("]}.\n")
}

/// Adds `{labels,N}`.
fn push_labels(out: &mut String, count: u32) -> Result<(), AllocError>
    ensures { OnOk result (string_bytes out.new ≡ string_bytes out.old ++ labels_text count) }
{
    out.push_str("{labels,")?;
    push_number(out, count)?;
    out.push_str("}.\n")
}

/// Adds the forms that stand before the functions.
fn push_head(alloc: Global, out: &mut String, atoms: &Atoms, code: &Code) -> Result<(), AllocError>
    ensures { OnOk result
        (string_bytes out.new ≡ string_bytes out.old ++ head_text atoms.now code.now) }
{
    push_module(alloc, out, atoms, code.name())?;
    push_exports(alloc, out, atoms, code.exports())?;
    out.push_str("{attributes,[]}.\n")?;
    push_labels(out, label_count(greatest_label(code.functions())))
}

/// Adds `{function,F,A,Entry}`.
fn push_function_head(
    alloc: Global,
    out: &mut String,
    atoms: &Atoms,
    function: &CodeFunction,
) -> Result<(), AllocError>
    ensures { OnOk result (string_bytes out.new
        ≡ string_bytes out.old ++ function_head_text atoms.now function.now) }
{
    out.push_str("{function,")?;
    push_name(alloc, out, atoms, function.name())?;
    out.push_str(",")?;
    push_number(out, function.arity())?;
    out.push_str(",")?;
    push_number(out, function.entry())?;
    out.push_str("}.\n")
}

/// Adds the function's item of that place, where there is one.
fn push_item_at(
    alloc: Global,
    out: &mut String,
    atoms: &Atoms,
    function: &CodeFunction,
    place: usize,
) -> Result<(), AllocError>
    ensures { OnOk result (string_bytes out.new ++ flat_map (item_text atoms.now) (drop (place + 1) function.now.items)
        ≡ string_bytes out.old ++ flat_map (item_text atoms.now) (drop place function.now.items)) }
{
    match function.item(place) {
        Some(item) => push_item(alloc, out, atoms, item),
        None => Ok(()),
    }
}

/// Adds a function's items.
#[tactic(auto, using(std::proofs::lemmas::List::drop_all))]
fn push_items(
    alloc: Global,
    out: &mut String,
    atoms: &Atoms,
    function: &CodeFunction,
) -> Result<(), AllocError>
    ensures { OnOk result (string_bytes out.new
        ≡ string_bytes out.old ++ flat_map (item_text atoms.now) function.now.items) }
{
    for place in 0..function.item_count() {
        push_item_at(alloc, out, atoms, function, place)?;
    }
    Ok(())
}

fn push_function(
    alloc: Global,
    out: &mut String,
    atoms: &Atoms,
    function: &CodeFunction,
) -> Result<(), AllocError>
    ensures { OnOk result (string_bytes out.new
        ≡ string_bytes out.old ++ function_text atoms.now function.now) }
{
    push_function_head(alloc, out, atoms, function)?;
    push_items(alloc, out, atoms, function)
}

/// Adds all functions, in order.
#[tactic(auto, using(bx_share::specs::Rows::rest_at))]
fn push_functions(
    alloc: Global,
    out: &mut String,
    atoms: &Atoms,
    functions: &[CodeFunction],
) -> Result<(), AllocError>
    ensures { OnOk result (string_bytes out.new
        ≡ string_bytes out.old ++ flat_map (function_text atoms.now) functions.now) }
{
    for function in functions {
        push_function(alloc, out, atoms, function)?;
    }
    Ok(())
}

/// The text of a listing with this code: each form on a line of its own, without spaces. What a code form lacks is written
/// empty, as `{attributes,[]}` and `{line,[]}`, and `{labels,N}` has one more than the greatest label.
///
/// An atom that is not in `atoms` is written `?`. It can only run out of memory.
pub fn write_listing(alloc: Global, atoms: &Atoms, code: &Code) -> Result<String, Fault>
    ensures { Gives (Unit {0}) (λ text. string_bytes text) result
        (Ok (code_text atoms.now code.now)) }
{
    let mut out = String::new(alloc);
    push_head(alloc, &mut out, atoms, code)?;
    push_functions(alloc, &mut out, atoms, code.functions())?;
    Ok(out)
}
