//! Which listings are the same, and which have the same code.

use bx_listing::{Listing, code_of, read_listing};
use bx_share::Same;
use bx_terms::{Atoms, Fault};
use bxemu_testkit::module;
use std::alloc::Global;
use std::test::Fail;

const ITEMS: &str = "{move,{literal,[1|2]},{x,7}}.
{select_val,{x,0},{f,2},{list,[{atom,a},{f,1},{integer,3},{f,2}]}}. return.";

fn have_same_code(alloc: Global, one: &Listing, other: &Listing) -> Result<bool, Fault> {
    let one_code = code_of(alloc, one)?;
    Ok(code_of(alloc, other)?.same(&one_code))
}

/// Whether two texts are read as the same listing, and whether they have the same code, over one table of atoms.
fn are_same(alloc: Global, one: &str, other: &str) -> Result<(bool, bool), Fault> {
    let mut atoms = Atoms::new(alloc)?;
    let one = read_listing(alloc, &mut atoms, one.as_bytes())?;
    let other = read_listing(alloc, &mut atoms, other.as_bytes())?;
    Ok((one.same(&other), have_same_code(alloc, &one, &other)?))
}

/// What is put in place of what, and whether the listing is the same then, and the code.
static CHANGES: [(&str, &str, (bool, bool)); 13] = [
    ("return.", "return.", (true, true)),
    ("{labels,9}.", "{labels,8}. % at most", (true, true)),
    ("{attributes,[]}.", "", (true, true)),
    ("return.", "\nreturn.", (false, true)),
    ("{module,m}", "{module,n}", (false, false)),
    ("{f,0}]", "{f,1}]", (false, false)),
    ("{function,f,0,2}", "{function,f,1,2}", (false, false)),
    ("{function,f,0,2}", "{function,f,0,3}", (false, false)),
    ("[1|2]", "[1|3]", (false, false)),
    ("{x,7}", "{y,7}", (false, false)),
    ("{integer,3}", "{integer,4}", (false, false)),
    ("{integer,3},{f,2}]", "{integer,3},{f,3}]", (false, false)),
    ("return.", "return. return.", (false, false)),
];

/// Whether the sample and one that is changed so are the same, and have the same code.
fn changed(alloc: Global, old: &str, new: &str) -> Result<(bool, bool), Fault> {
    let sample = module(alloc, ITEMS)?;
    let text = sample.as_str().replace(alloc, old, new)?;
    are_same(alloc, sample.as_str(), text.as_str())
}

#[test]
fn sameness_of_listings(rt: HostRuntime) -> Result<(), Fail> {
    for (old, new, want) in &CHANGES {
        assert!(rt;
            changed(rt.alloc(), *old, *new)? == *want,
            "{old} and {new}"
        );
    }
    Ok(())
}
