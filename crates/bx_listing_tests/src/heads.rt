//! Heads of listings and of functions, as they are read and as they are written. Lines count from 1.

use crate::samples::code;
use bx_listing::{Function, Listing, write_listing};
use bx_terms::{Atoms, Fault};
use bxemu_testkit::read;
use std::alloc::Global;
use std::test::Fail;

const SAMPLE: &str = "{module,m}.
{exports,[{f,0},{g,2}]}.
{attributes,[{vsn,[1]}]}.
{labels,7}.
{function,f,0,2}.
{label,1}.
{line,[{location,\"m.erl\",3}]}.
{func_info,{atom,m},{atom,f},0}.
{label,2}.
{'%',{type_info,{x,0}}}.
{move,{literal,{ok,[1|2]}},
      {x,5}}.
{function,g,2,4}. {label,3}. {func_info,{atom,m},{atom,g},2}. {label,4}.
return. {call_ext_only,1,{extfunc,lists,last,1}}.
";

const WRITTEN: &str = "{module,m}.
{exports,[{f,0},{g,2}]}.
{attributes,[]}.
{labels,5}.
{function,f,0,2}.
{label,1}.
{line,[]}.
{func_info,{atom,m},{atom,f},0}.
{label,2}.
{move,{literal,{ok,[1|2]}},{x,5}}.
{function,g,2,4}.
{label,3}.
{func_info,{atom,m},{atom,g},2}.
{label,4}.
return.
{call_ext_only,1,{extfunc,lists,last,1}}.
";

fn has_its_heads(atoms: &Atoms, listing: &Listing) -> bool {
    let is_module = atoms.text(listing.module()) == Some("m");
    match listing.exports() {
        [_, export] => is_module && atoms.text(export.function) == Some("g") && export.arity == 2,
        _ => false,
    }
}

#[test]
fn heads_of_a_listing(rt: HostRuntime) -> Result<(), Fail> {
    let (atoms, listing) = read(rt.alloc(), SAMPLE)?;
    assert!(rt; has_its_heads(&atoms, &listing));
    Ok(())
}

fn has_its_lines(function: &Function, lines: &[usize]) -> bool {
    function.lines() == lines
}

fn has_its_functions(atoms: &Atoms, listing: &Listing) -> bool {
    match listing.functions() {
        [first, second] => {
            atoms.text(second.name()) == Some("g")
                && second.entry() == 4
                && has_its_lines(first, &[6, 7, 8, 9, 11])
                && has_its_lines(second, &[13, 13, 13, 14, 14])
        }
        _ => false,
    }
}

#[test]
fn functions_of_a_listing(rt: HostRuntime) -> Result<(), Fail> {
    let (atoms, listing) = read(rt.alloc(), SAMPLE)?;
    assert!(rt; has_its_functions(&atoms, &listing));
    Ok(())
}

/// Whether a listing is written so.
fn is_written(alloc: Global, text: &str, wanted: &str) -> Result<bool, Fault> {
    let mut atoms = Atoms::new(alloc)?;
    let code = code(alloc, &mut atoms, text)?;
    let written = write_listing(alloc, &atoms, &code)?;
    Ok(written.as_str() == wanted)
}

static WHOLE: [(&str, &str); 5] = [
    (SAMPLE, WRITTEN),
    (
        "{module,'M m'}. {exports,[]}. {labels,7}.",
        "{module,'M m'}.\n{exports,[]}.\n{attributes,[]}.\n{labels,1}.\n",
    ),
    (
        "{module,m}. {exports,[{'div',3}]}. {labels,0}. {function,'div',3,4294967295}. {label,4294967295}.",
        "{module,m}.\n{exports,[{'div',3}]}.\n{attributes,[]}.\n{labels,4294967295}.\n{function,'div',3,4294967295}.\n{label,4294967295}.\n",
    ),
    (
        "{module,m}. {exports,[]}. {labels,1}. {function,f,0,9}. {jump,{f,8}}. {label,4294967294}. {label,7}.",
        "{module,m}.\n{exports,[]}.\n{attributes,[]}.\n{labels,4294967295}.\n{function,f,0,9}.\n{jump,{f,8}}.\n{label,4294967294}.\n{label,7}.\n",
    ),
    (
        "{module,m}. {exports,[]}. {labels,1}. {function,f,0,9}. {label,0}. {function,g,0,9}.",
        "{module,m}.\n{exports,[]}.\n{attributes,[]}.\n{labels,1}.\n{function,f,0,9}.\n{label,0}.\n{function,g,0,9}.\n",
    ),
];

#[test]
fn whole_listings(rt: HostRuntime) -> Result<(), Fail> {
    for (text, wanted) in &WHOLE {
        assert!(rt; is_written(rt.alloc(), *text, *wanted)?, "{text}");
    }
    Ok(())
}
