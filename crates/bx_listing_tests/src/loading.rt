//! Two modules that are loaded together, and modules that can't be. Items were counted in the texts by hand.

use bx_load::Image;
use bx_share::Same;
use bx_terms::{Fault, Place};
use bxemu_testkit::{atom, image, loaded, numbered};
use std::alloc::{AllocError, Global};
use std::test::Fail;

const M: &str = "{module,m}. {exports,[{f,0}]}. {attributes,[]}. {labels,3}.
{function,f,0,2}. {label,1}. {func_info,{atom,m},{atom,f},0}. {label,2}. return.";

/// Nine items: `g/1` begins at item 3, and `h/0` at item 8, behind a line.
const N: &str = "{module,n}. {exports,[{g,1},{h,0}]}. {labels,5}.
{function,g,1,2}. {label,1}. {func_info,{atom,n},{atom,g},1}. {label,2}. return.
{function,h,0,4}. {label,3}. {func_info,{atom,n},{atom,h},0}. {label,4}. {line,[]}. {jump,{f,2}}.";

fn at(module: u32, item: u32) -> Option<Place> {
    Some(Place { module, item })
}

/// Where a call of that function of that module begins.
fn entry(image: &Image, module: &str, function: &str, arity: u32) -> Option<Place> {
    image.entry(atom(image, module), atom(image, function), arity)
}

#[test]
fn exported_functions(rt: HostRuntime) -> Result<(), Fail> {
    let image = image(rt.alloc(), &[M, N])?;
    let rows = [
        ("m", "f", 0, at(0, 3)),
        ("n", "g", 1, at(1, 3)),
        ("n", "h", 0, at(1, 8)),
        ("n", "h", 1, None),
        ("m", "h", 0, None),
        ("o", "h", 0, None),
    ];
    for (module, function, arity, want) in rows {
        assert!(rt;
            entry(&image, module, function, arity) == want,
            "{module}:{function}/{arity}"
        );
    }
    Ok(())
}

#[test]
fn instructions_by_place(rt: HostRuntime) -> Result<(), Fail> {
    let image = image(rt.alloc(), &[M, N])?;
    let n = atom(&image, "n");
    assert!(rt; image.place(n, 5) == at(1, 5));
    assert!(rt; image.place(n, 7).is_none(), "a line");
    assert!(rt; image.place(n, 9).is_none(), "past the items");
    assert!(rt; image.place(atom(&image, "g"), 3).is_none(), "no module");
    assert!(rt; image.target(1, 4) == at(1, 8));
    assert!(rt; image.target_at_once(1, 4) == at(1, 8));
    Ok(())
}

/// Whether the modules of both rows are loaded as the same image.
fn are_same(alloc: Global, one: &[&str], other: &[&str]) -> Result<bool, Fault> {
    let one = image(alloc, one)?;
    let other = image(alloc, other)?;
    Ok(one.same(&other))
}

#[test]
fn sameness_of_images(rt: HostRuntime) -> Result<(), Fail> {
    assert!(rt; are_same(rt.alloc(), &[M, N], &[M, N])?);
    assert!(rt; !are_same(rt.alloc(), &[M, N], &[N, M])?);
    assert!(rt; !are_same(rt.alloc(), &[M], &[M, N])?);
    Ok(())
}

/// The number of the refusal of these modules, how many were handed back, and whether this atom was; 0 where they are loaded.
fn refusal(alloc: Global, texts: &[&str], atom: &str) -> Result<(u8, usize, bool), Fault> {
    match loaded(alloc, texts)? {
        Ok(_) => Ok((0, 0, false)),
        Err(refused) => {
            let number = refused.fault.number().ok_or(Fault::Memory)?;
            let is_there = refused.atoms.find(atom).is_some();
            Ok((number, refused.units.len(), is_there))
        }
    }
}

/// So many modules of different names, or all of one.
fn modules(alloc: Global, count: u32, differ: bool) -> Result<Vec<String>, AllocError> {
    let mut texts = Vec::new(alloc);
    for number in 0..count {
        let number = if differ { number } else { 0 };
        texts.push(numbered(alloc, "{module,m", number, "}. {exports,[]}. {labels,1}.")?)?;
    }
    Ok(texts)
}

/// What is told of so many modules, as of rows.
fn refusal_of(
    alloc: Global,
    count: u32,
    differ: bool,
    atom: &str,
) -> Result<(u8, usize, bool), Fault> {
    let texts = modules(alloc, count, differ)?;
    let mut rows = Vec::new(alloc);
    for text in &texts {
        rows.push(text.as_str())?;
    }
    refusal(alloc, rows.as_slice(), atom)
}

#[test]
fn modules_that_cannot_be_loaded(rt: HostRuntime) -> Result<(), Fail> {
    let missing = "{module,o}. {exports,[{f,1}]}. {labels,2}. {function,f,0,1}. {label,1}.";
    let alloc = rt.alloc();
    assert!(rt; refusal(alloc, &[missing], "o")? == (18, 1, true));
    assert!(rt; refusal(alloc, &[missing, M, missing], "m")? == (17, 3, true));
    assert!(rt; refusal_of(alloc, 64, true, "m63")? == (0, 0, false));
    assert!(rt; refusal_of(alloc, 65, true, "m64")? == (19, 65, true));
    assert!(rt; refusal_of(alloc, 64, false, "m0")? == (17, 64, true));
    assert!(rt; refusal_of(alloc, 65, false, "m0")? == (19, 65, true));
    Ok(())
}
