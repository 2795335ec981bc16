//! Where the items of a listing stand in its sources. A wanted line of 0 is a place of which nothing is said.

use bx_listing::{Locations, read_located};
use bx_terms::{Atoms, Fault};
use std::alloc::Global;
use std::test::Fail;

const SAMPLE: &str = "{module,m}. {exports,[]}. {attributes,[]}. {labels,9}.
{function,f,0,2}. {label,1}.
{line,[{location,\"m.erl\",3}]}. {func_info,{atom,m},{atom,f},0}. {label,2}.
{'%',{location,\"no.erl\",1}}.
{line,[{name,\"f/0\"},{location,m,4},{location,\"m.erl\",0},{location,\"lib/k.hrl\",4294967295},{location,\"m.erl\",5}]}.
return.
{function,g,0,4}. {label,3}. {line,[]}. return.
{line,[{location,[109,46,101,114,108],11}]}. return.
{line,[{location,\"m.erl\",4294967296}]}. return.
{line,[{location,\"\",7}]}. return.
{line,{location,\"m.erl\",8}}. return. {line,[{location,[-1],9}]}. return.
{line,[{location,\"\u{e9}\",10}]}. return.";

/// Of each item, in order.
const WANTED: [(&str, u32); 20] = [
    ("", 0),
    ("m.erl", 3),
    ("m.erl", 3),
    ("m.erl", 3),
    ("lib/k.hrl", 4294967295),
    ("lib/k.hrl", 4294967295),
    ("", 0),
    ("", 0),
    ("", 0),
    ("m.erl", 11),
    ("m.erl", 11),
    ("", 0),
    ("", 0),
    ("", 7),
    ("", 7),
    ("", 0),
    ("", 0),
    ("", 0),
    ("", 0),
    ("\u{e9}", 10),
];

fn locations(alloc: Global, text: &str) -> Result<Locations, Fault> {
    let mut atoms = Atoms::new(alloc)?;
    let (_, locations) = read_located(alloc, &mut atoms, text.as_bytes())?;
    Ok(locations)
}

fn stands_there(locations: &Locations, item: usize, file: &str, line: u32) -> bool {
    match locations.at(item) {
        Some((name, number)) => name == file && number == line,
        None => line == 0,
    }
}

#[test]
fn places_of_items(rt: HostRuntime) -> Result<(), Fail> {
    let locations = locations(rt.alloc(), SAMPLE)?;
    for item in 0..WANTED.len() {
        let (file, line) = WANTED[item];
        assert!(rt; stands_there(&locations, item, file, line), "{item}");
    }
    Ok(())
}

#[test]
fn no_place_past_the_last_item(rt: HostRuntime) -> Result<(), Fail> {
    let locations = locations(rt.alloc(), SAMPLE)?;
    assert!(rt; locations.at(20).is_some() && locations.at(21).is_none());
    Ok(())
}
