//! Integers that guard BIFs give on two integers, told without a term; none where they give anything else.

use bx_bifs::guard_of_integers;
use bx_ops::Bif;
use bx_terms::{Atoms, Fault};
use std::alloc::Global;
use std::test::Fail;

static INTEGERS: [(Bif, i64, i64, Option<i64>); 12] = [
    (Bif::Add, 2, 3, Some(5)),
    (Bif::Add, i64::MAX, 1, None),
    (Bif::Subtract, 2, 3, Some(-1)),
    (Bif::Subtract, i64::MIN, 1, None),
    (Bif::Multiply, 2, 3, Some(6)),
    (Bif::Div, 7, 0, None),
    (Bif::Rem, -7, 2, Some(-1)),
    (Bif::Bsr, -5, 1, Some(-3)),
    (Bif::Min, 2, -3, Some(-3)),
    (Bif::Max, 2, -3, Some(2)),
    (Bif::Less, 2, 3, None),
    (Bif::UnaryMinus, 2, 3, None),
];

fn gives(alloc: Global, bif: Bif, m: i64, n: i64, want: Option<i64>) -> Result<bool, Fault> {
    let atoms = Atoms::new(alloc)?;
    Ok(guard_of_integers(&atoms, bif, m, n) == want)
}

#[test]
fn integers_without_a_term(rt: HostRuntime) -> Result<(), Fail> {
    for (bif, m, n, want) in &INTEGERS {
        assert!(rt; gives(rt.alloc(), *bif, *m, *n, *want)?, "{m} and {n}");
    }
    Ok(())
}
