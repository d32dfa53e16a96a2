//! Small layers by several cuts.

use crate::cases::{CASES, Expected, Lined, are_edges, segments};
use geom::NoMemory;
use phases::{ascend, edges_in_strips};
use std::alloc::Global;
use std::test::*;

// None; one; several; some twice, so that strips are empty; a strip of each column; all beyond the layers.
const CUTS: [&[i32]; 6] = [
    &[],
    &[4],
    &[0, 3, 5, 6],
    &[2, 2, 5, 9, 9],
    &[-3, -2, -1, 0, 1, 2, 3, 4, 5, 6, 7, 8, 9],
    &[-2_147_483_648, -100, 100, 200],
];

fn is_rounded(
    alloc: Global,
    list: &[Lined],
    cuts: &[i32],
    expected: &[Expected],
) -> Result<bool, NoMemory> {
    if !ascend(cuts) {
        return Ok(false);
    }
    let segments = segments(alloc, list)?;
    let edges = edges_in_strips(alloc, &segments, cuts)?;
    Ok(are_edges(&edges, expected))
}

#[test]
fn rounds_by_any_cuts(rt: HostRuntime) {
    for cuts in CUTS {
        for (list, expected) in CASES {
            assert_eq!(rt;
                is_rounded(rt.alloc(), list, cuts, expected),
                Ok(true),
                "{cuts:?}"
            );
        }
    }
}
