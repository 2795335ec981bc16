//! Code that was numbered, and what it is spelled back to.

use crate::samples::FORMS;
use bx_asm::assemble;
use bx_dis::{disassemble, disassemble_image};
use bx_listing::{Code, Listing, code_of};
use bx_load::Image;
use bx_share::Same;
use bx_terms::Fault;
use bxemu_testkit::{atom, image, module, read};
use std::alloc::Global;
use std::test::Fail;

const EMPTY: &str = "{module,m}. {exports,[]}. {attributes,[]}. {labels,1}.";

const TWO: &str = "{module,n}. {exports,[{g,1},{h,0},{g,1}]}. {labels,5}.
{function,g,1,2}. {label,1}. {func_info,{atom,n},{atom,g},1}. {label,2}. {move,{literal,[a|b]},{x,0}}. return.
{function,h,0,4}. {label,3}. {func_info,{atom,n},{atom,h},0}. {label,4}. {line,[]}. {call_ext,1,{extfunc,n,g,1}}.";

/// What the numbered code of a listing is spelled back to.
fn spelled_back(alloc: Global, listing: &Listing) -> Result<Code, Fault> {
    let unit = assemble(alloc, listing)?;
    disassemble(alloc, &unit)
}

/// Whether that is the listing's code.
fn is_same_code(alloc: Global, listing: &Listing) -> Result<bool, Fault> {
    let code = code_of(alloc, listing)?;
    Ok(spelled_back(alloc, listing)?.same(&code))
}

fn is_spelled_back(alloc: Global, text: &str) -> Result<bool, Fault> {
    let (_, listing) = read(alloc, text)?;
    is_same_code(alloc, &listing)
}

fn are_forms_spelled_back(alloc: Global) -> Result<bool, Fault> {
    let forms = module(alloc, FORMS)?;
    is_spelled_back(alloc, forms.as_str())
}

#[test]
fn units_are_spelled_back(rt: HostRuntime) -> Result<(), Fail> {
    assert!(rt; is_spelled_back(rt.alloc(), EMPTY)?);
    assert!(rt; is_spelled_back(rt.alloc(), TWO)?);
    assert!(rt; are_forms_spelled_back(rt.alloc())?);
    Ok(())
}

/// An annotation, a register with its type, and a line with its place, which no code has.
const ANNOTATED: &str =
    "{move,{tr,{x,0},{t_integer,{0,'+inf'}}},{x,1}}. {'%',{var_info,{x,0},#{a => 1.5}}}. {line,[{location,\"a.erl\",3}]}. return.";

/// The same code, as it is written.
const PLAIN: &str = "{move,{x,0},{x,1}}. {line,[]}. return.";

/// Whether a module with the first items is spelled back to the code of one with the second, from its unit and from its image.
fn is_spelled(alloc: Global, items: &str, want: &str) -> Result<bool, Fault> {
    let (text, want) = (module(alloc, items)?, module(alloc, want)?);
    let (_, plain) = read(alloc, want.as_str())?;
    let code = code_of(alloc, &plain)?;
    let (_, listing) = read(alloc, text.as_str())?;
    let image = image(alloc, &[text.as_str()])?;
    let Some(of_image) = disassemble_image(alloc, &image, atom(&image, "m"))? else {
        return Ok(false);
    };
    Ok(spelled_back(alloc, &listing)?.same(&code) && of_image.same(&code))
}

#[test]
fn units_and_images_are_spelled_alike(rt: HostRuntime) -> Result<(), Fail> {
    assert!(rt; is_spelled(rt.alloc(), ANNOTATED, PLAIN)?);
    assert!(rt; is_spelled(rt.alloc(), FORMS, FORMS)?);
    Ok(())
}

/// How many functions, and how many items in all of them, the module of that name has in the image.
fn counted(alloc: Global, image: &Image, name: &str) -> Result<Option<(usize, usize)>, Fault> {
    let Some(code) = disassemble_image(alloc, image, atom(image, name))? else {
        return Ok(None);
    };
    let mut items = 0;
    for function in code.functions() {
        items = function.item_count().saturating_add(items);
    }
    Ok(Some((code.functions().len(), items)))
}

static MODULES: [(&str, Option<(usize, usize)>); 3] = [
    ("m", Some((0, 0))),
    ("n", Some((2, 10))),
    ("g", None),
];

/// How many rows, from the first on, are as the image of the two modules has them.
fn right_rows(alloc: Global) -> Result<usize, Fault> {
    let image = image(alloc, &[EMPTY, TWO])?;
    for (row, (name, want)) in MODULES.iter().enumerate() {
        if counted(alloc, &image, *name)? != *want {
            return Ok(row);
        }
    }
    Ok(MODULES.len())
}

#[test]
fn modules_of_an_image(rt: HostRuntime) -> Result<(), Fail> {
    assert_eq!(rt; right_rows(rt.alloc())?, MODULES.len());
    Ok(())
}

/// Whether the image of the two modules is the same as a deep copy, where there is so much room beside that for the atoms.
fn is_same_deep_copy(alloc: Global, room: usize) -> Result<bool, Fault> {
    let image = image(alloc, &[EMPTY, TWO])?;
    let room = image.atoms().len().saturating_add(room);
    Ok(image.deep_copy(alloc, room)?.same(&image))
}

// The two have ten items with 15 operands, one literal with one list cell, three exports, two functions and an import.
#[test]
fn a_deep_copy_of_an_image(rt: HostRuntime) -> Result<(), Fail> {
    assert!(rt; is_same_deep_copy(rt.alloc(), 33)?);
    assert!(rt; is_same_deep_copy(rt.alloc(), 32) == Err(Fault::Memory));
    Ok(())
}
