//! A list as high as a term may be, in two threads: copied with the code, built, compared and dropped there.

use crate::boards::{FIRST, SECOND, met};
use crate::samples::plan;
use bx_load::Image;
use bx_terms::Fault;
use std::alloc::Global;
use std::test::Fail;

/// `f/0` of `m` builds a list, three choices an element, and compares it with a literal, in which the rest of the elements stand
/// between these parts.
const PARTS: [&str; 2] = [
    "{module,m}. {exports,[{f,0}]}. {labels,4}. {function,f,0,2}.
{label,1}. {func_info,{atom,m},{atom,f},0}. {label,2}. {move,nil,{x,0}}. {move,{integer,10000},{x,1}}.
{label,3}. {put_list,{integer,7},{x,0},{x,0}}. {gc_bif,'-',{f,0},2,[{x,1},{integer,1}],{x,1}}.
{test,is_eq_exact,{f,3},[{x,1},{integer,0}]}. {test,is_eq_exact,{f,1},[{x,0},{literal,[7",
    "]}]}. {move,nil,{x,0}}. {move,{atom,ok},{x,0}}. return.",
];

/// How many elements the list has, as many as it may have.
const ELEMENTS: usize = 10_000;

/// All choices of the program, and none of them.
const PLAN: &str = "x: r0*30006\ny: r1\n";

const REPORT: &str = "schedule x\napplied 30006\nstate quiet\nprocess <0.0.0> ended normal\nend
schedule y\napplied 0\nstate stopped r1\nprocess <0.0.0> ready\nend\n";

/// The module, loaded.
fn image(alloc: Global) -> Result<Image, Fault> {
    let mut text = String::from_str(alloc, PARTS[0])?;
    for _ in 1..ELEMENTS {
        text.push_str(",7")?;
    }
    text.push_str(PARTS[1])?;
    bxemu_testkit::image(alloc, &[text.as_str()])
}

#[test]
fn lists_as_high_as_may_be_in_two_threads(rt: HostRuntime) -> Result<(), Fail> {
    let alloc = rt.alloc();
    let image = image(alloc)?;
    let plan = plan(alloc, PLAN)?;
    let (text, counts) = met(&rt, alloc, &image, &plan, 0)?;
    assert_eq!(&rt; counts, (2, FIRST + SECOND, 0));
    assert_eq!(&rt; text.as_str(), REPORT);
    Ok(())
}
