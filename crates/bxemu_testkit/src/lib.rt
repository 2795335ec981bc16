//! What crates of tests share: modules that were written by hand, what each crate makes of them, what tells a refused growth from
//! a changed answer, and streams that fail.
#![tactic(auto)]

mod answers;
mod streams;
mod talks;
mod texts;

pub use answers::{answered, number_of, told};
use bx_asm::{Unit, assemble};
use bx_listing::{Listing, read_listing};
use bx_load::{Image, LoadRefused, load};
use bx_terms::{AtomId, Atoms, Fault};
use std::alloc::{AllocError, Global};
pub use streams::{FailingReader, FailingWriter, Interrupted};
pub use talks::TALK;
pub use texts::{joined, numbered};

/// Module `m` with `f/0`, which is exported. The items that are given stand behind these, from line 9 and item 3 on.
const HEAD: &str = "{module,m}.
{exports,[{f,0}]}.
{attributes,[]}.
{labels,9}.
{function,f,0,2}.
{label,1}.
{func_info,{atom,m},{atom,f},0}.
{label,2}.
";

/// The listing of a module `m` whose `f/0` has these items.
pub fn module(alloc: Global, items: &str) -> Result<String, AllocError> {
    let mut text = String::from_str(alloc, HEAD)?;
    text.push_str(items)?;
    Ok(text)
}

/// What a text is read as, with its atoms.
pub fn read(alloc: Global, text: &str) -> Result<(Atoms, Listing), Fault> {
    let mut atoms = Atoms::new(alloc)?;
    let listing = read_listing(alloc, &mut atoms, text.as_bytes())?;
    Ok((atoms, listing))
}

fn next_unit(alloc: Global, atoms: &mut Atoms, text: &str) -> Result<Unit, Fault> {
    let listing = read_listing(alloc, atoms, text.as_bytes())?;
    assemble(alloc, &listing)
}

/// The numbered code of a listing, with its atoms.
pub fn unit(alloc: Global, text: &str) -> Result<(Atoms, Unit), Fault> {
    let mut atoms = Atoms::new(alloc)?;
    let unit = next_unit(alloc, &mut atoms, text)?;
    Ok((atoms, unit))
}

/// The image of these listings, or how loading them was refused.
pub fn loaded(alloc: Global, texts: &[&str]) -> Result<Result<Image, LoadRefused>, Fault> {
    let mut atoms = Atoms::new(alloc)?;
    let mut units = Vec::new(alloc);
    for text in texts {
        units.push(next_unit(alloc, &mut atoms, text)?)?;
    }
    Ok(load(alloc, atoms, units))
}

/// The image of these listings.
pub fn image(alloc: Global, texts: &[&str]) -> Result<Image, Fault> {
    loaded(alloc, texts)?.map_err(|refused| refused.fault)
}

/// The image of a module `m` whose `f/0` has these items.
pub fn image_of_items(alloc: Global, items: &str) -> Result<Image, Fault> {
    let text = module(alloc, items)?;
    image(alloc, &[text.as_str()])
}

/// The atom that a text spells; one that no table has, where the image's has none.
pub fn atom(image: &Image, text: &str) -> AtomId {
    image.atoms().find(text).unwrap_or(AtomId(u32::MAX))
}
