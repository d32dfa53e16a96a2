//! The labels of strips, over the rounded edges of two triangles that overlap, the first one with a spike: its edges, their lists and the
//! directed edges of each result as the definitions give them by exact fractions.

ghost use Rattle.std.specs.Prelude.{IfOk};
ghost use Rattle.points_law.specs.Law.{AreLayers};

use crate::cases::{Ends, Expected, are_edges, point};
use geom::{Counted, DirectedEdge, NoMemory, Op, Pt, Seg, Source};
use label_sweep::strip_labels;
use phases::{
    changing_of_strip, edges_in_strips, edges_of_strip, going_on, labels, labels_in_strips,
};
use std::alloc::Global;
use std::test::*;

const TRIANGLES: [Seg; 8] = [
    Seg {
        a: Pt { x: 0, y: 0 },
        b: Pt { x: 9, y: 1 },
        layer: Source::A,
    },
    Seg {
        a: Pt { x: 9, y: 1 },
        b: Pt { x: 12, y: 1 },
        layer: Source::A,
    },
    Seg {
        a: Pt { x: 12, y: 1 },
        b: Pt { x: 9, y: 1 },
        layer: Source::A,
    },
    Seg {
        a: Pt { x: 9, y: 1 },
        b: Pt { x: 4, y: 8 },
        layer: Source::A,
    },
    Seg {
        a: Pt { x: 4, y: 8 },
        b: Pt { x: 0, y: 0 },
        layer: Source::A,
    },
    Seg {
        a: Pt { x: 3, y: -2 },
        b: Pt { x: 8, y: 6 },
        layer: Source::B,
    },
    Seg {
        a: Pt { x: 8, y: 6 },
        b: Pt { x: 1, y: 5 },
        layer: Source::B,
    },
    Seg {
        a: Pt { x: 1, y: 5 },
        b: Pt { x: 3, y: -2 },
        layer: Source::B,
    },
];

// None; one through edges; one at a vertex; several, some twice, so that strips are empty; a strip of each column; all beyond the edges.
const CUTS: [&[i32]; 7] = [
    &[],
    &[8],
    &[4],
    &[0, 3, 5, 6],
    &[2, 2, 5, 9, 9],
    &[-1, 0, 1, 2, 3, 4, 5, 6, 7, 8, 9, 10, 11, 12],
    &[-2_147_483_648, -100, 100, 200],
];

// Cuts of five strips, the second of them empty.
const FIVE: [i32; 4] = [2, 2, 6, 7];

// The edges that begin in each of these strips.
const OWN: [&[Expected]; 5] = [
    &[
        (((0, 0), (2, 0)), 1, 0),
        (((0, 0), (2, 3)), 1, 0),
        (((1, 5), (2, 3)), 0, 1),
        (((1, 5), (3, 5)), 0, 1),
    ],
    &[],
    &[
        (((2, 0), (2, 3)), 0, 1),
        (((2, 0), (3, -2)), 0, 1),
        (((2, 0), (5, 1)), 1, 0),
        (((2, 3), (3, 5)), 1, 0),
        (((3, -2), (5, 1)), 0, 1),
        (((3, 5), (4, 8)), 1, 0),
        (((3, 5), (6, 6)), 0, 1),
        (((4, 8), (6, 6)), 1, 0),
        (((5, 1), (7, 4)), 0, 1),
        (((5, 1), (9, 1)), 1, 0),
    ],
    &[(((6, 6), (7, 4)), 1, 0), (((6, 6), (8, 6)), 0, 1)],
    &[
        (((7, 4), (8, 6)), 0, 1),
        (((7, 4), (9, 1)), 1, 0),
        (((9, 1), (12, 1)), 2, 0),
    ],
];

// Those of them that change a parity: all but the spike.
const CHANGING: [&[Expected]; 5] = [
    &[
        (((0, 0), (2, 0)), 1, 0),
        (((0, 0), (2, 3)), 1, 0),
        (((1, 5), (2, 3)), 0, 1),
        (((1, 5), (3, 5)), 0, 1),
    ],
    &[],
    &[
        (((2, 0), (2, 3)), 0, 1),
        (((2, 0), (3, -2)), 0, 1),
        (((2, 0), (5, 1)), 1, 0),
        (((2, 3), (3, 5)), 1, 0),
        (((3, -2), (5, 1)), 0, 1),
        (((3, 5), (4, 8)), 1, 0),
        (((3, 5), (6, 6)), 0, 1),
        (((4, 8), (6, 6)), 1, 0),
        (((5, 1), (7, 4)), 0, 1),
        (((5, 1), (9, 1)), 1, 0),
    ],
    &[(((6, 6), (7, 4)), 1, 0), (((6, 6), (8, 6)), 0, 1)],
    &[(((7, 4), (8, 6)), 0, 1), (((7, 4), (9, 1)), 1, 0)],
];

// The directed edges of each result, and those along the edges of each of the five strips.
const RESULTS: [(Op, &[Ends], [&[Ends]; 5]); 4] = [
    (
        Op::Union,
        &[
            ((0, 0), (2, 0)),
            ((1, 5), (2, 3)),
            ((2, 0), (3, -2)),
            ((2, 3), (0, 0)),
            ((3, -2), (5, 1)),
            ((3, 5), (1, 5)),
            ((4, 8), (3, 5)),
            ((5, 1), (9, 1)),
            ((6, 6), (4, 8)),
            ((7, 4), (8, 6)),
            ((8, 6), (6, 6)),
            ((9, 1), (7, 4)),
        ],
        [
            &[
                ((0, 0), (2, 0)),
                ((1, 5), (2, 3)),
                ((2, 3), (0, 0)),
                ((3, 5), (1, 5)),
            ],
            &[],
            &[
                ((2, 0), (3, -2)),
                ((3, -2), (5, 1)),
                ((4, 8), (3, 5)),
                ((5, 1), (9, 1)),
                ((6, 6), (4, 8)),
            ],
            &[((8, 6), (6, 6))],
            &[((7, 4), (8, 6)), ((9, 1), (7, 4))],
        ],
    ),
    (
        Op::Intersection,
        &[
            ((2, 0), (5, 1)),
            ((2, 3), (2, 0)),
            ((3, 5), (2, 3)),
            ((5, 1), (7, 4)),
            ((6, 6), (3, 5)),
            ((7, 4), (6, 6)),
        ],
        [
            &[],
            &[],
            &[
                ((2, 0), (5, 1)),
                ((2, 3), (2, 0)),
                ((3, 5), (2, 3)),
                ((5, 1), (7, 4)),
                ((6, 6), (3, 5)),
            ],
            &[((7, 4), (6, 6))],
            &[],
        ],
    ),
    (
        Op::Difference,
        &[
            ((0, 0), (2, 0)),
            ((2, 0), (2, 3)),
            ((2, 3), (0, 0)),
            ((3, 5), (6, 6)),
            ((4, 8), (3, 5)),
            ((5, 1), (9, 1)),
            ((6, 6), (4, 8)),
            ((7, 4), (5, 1)),
            ((9, 1), (7, 4)),
        ],
        [
            &[((0, 0), (2, 0)), ((2, 3), (0, 0))],
            &[],
            &[
                ((2, 0), (2, 3)),
                ((3, 5), (6, 6)),
                ((4, 8), (3, 5)),
                ((5, 1), (9, 1)),
                ((6, 6), (4, 8)),
                ((7, 4), (5, 1)),
            ],
            &[],
            &[((9, 1), (7, 4))],
        ],
    ),
    (
        Op::SymDifference,
        &[
            ((0, 0), (2, 0)),
            ((1, 5), (2, 3)),
            ((2, 0), (2, 3)),
            ((2, 0), (3, -2)),
            ((2, 3), (0, 0)),
            ((2, 3), (3, 5)),
            ((3, -2), (5, 1)),
            ((3, 5), (1, 5)),
            ((3, 5), (6, 6)),
            ((4, 8), (3, 5)),
            ((5, 1), (2, 0)),
            ((5, 1), (9, 1)),
            ((6, 6), (4, 8)),
            ((6, 6), (7, 4)),
            ((7, 4), (5, 1)),
            ((7, 4), (8, 6)),
            ((8, 6), (6, 6)),
            ((9, 1), (7, 4)),
        ],
        [
            &[
                ((0, 0), (2, 0)),
                ((1, 5), (2, 3)),
                ((2, 3), (0, 0)),
                ((3, 5), (1, 5)),
            ],
            &[],
            &[
                ((2, 0), (2, 3)),
                ((2, 0), (3, -2)),
                ((2, 3), (3, 5)),
                ((3, -2), (5, 1)),
                ((3, 5), (6, 6)),
                ((4, 8), (3, 5)),
                ((5, 1), (2, 0)),
                ((5, 1), (9, 1)),
                ((6, 6), (4, 8)),
                ((7, 4), (5, 1)),
            ],
            &[((6, 6), (7, 4)), ((8, 6), (6, 6))],
            &[((7, 4), (8, 6)), ((9, 1), (7, 4))],
        ],
    ),
];

/// The rounded edges of the triangles.
fn rounded(alloc: Global) -> Result<Vec<Counted, Global>, NoMemory>
    ensures { IfOk result (λ v. AreLayers v.items) }
{
    edges_in_strips(alloc, &TRIANGLES, &[])
}

/// Whether the directed edges are these, in their order.
fn are_directed(edges: &[DirectedEdge], expected: &[Ends]) -> bool {
    for (found, wanted) in edges.iter().zip(expected) {
        if found.from != point(wanted.0) || found.to != point(wanted.1) {
            return false;
        }
    }
    edges.len() == expected.len()
}

/// Whether these are the directed edges of the result of an operation, by these cuts.
fn are_labels(alloc: Global, cuts: &[i32], op: Op, expected: &[Ends]) -> Result<bool, NoMemory> {
    let counted = rounded(alloc)?;
    let edges = labels_in_strips(alloc, cuts, &counted, op)?;
    Ok(are_directed(&edges, expected))
}

/// Whether these are the directed edges along the edges of each of the five strips, from all edges that begin in it and all that come into it:
/// by `labels`, and by the sweep of the strip.
fn are_labels_of_strips(alloc: Global, op: Op, expected: &[&[Ends]]) -> Result<bool, NoMemory> {
    let counted = rounded(alloc)?;
    let mut crossing = Vec::new(alloc);
    for strip in 0..expected.len() {
        let own = edges_of_strip(alloc, &FIVE, strip, &counted)?;
        let along = labels(alloc, &crossing, &own, op)?;
        let swept = strip_labels(alloc, &crossing, &own, op)?;
        if !are_directed(&along, expected[strip]) || !are_directed(&swept, expected[strip]) {
            return Ok(false);
        }
        crossing = going_on(alloc, &FIVE, strip, &crossing, &own)?;
    }
    Ok(crossing.is_empty())
}

/// Whether these edges begin in a strip, and these of them change a parity.
fn are_own(
    alloc: Global,
    strip: usize,
    expected: &[Expected],
    changing: &[Expected],
) -> Result<bool, NoMemory> {
    let counted = rounded(alloc)?;
    let own = edges_of_strip(alloc, &FIVE, strip, &counted)?;
    let odd = changing_of_strip(alloc, &own)?;
    Ok(are_edges(&own, expected) && are_edges(&odd, changing))
}

#[test]
fn labels_by_any_cuts(rt: HostRuntime) {
    for cuts in CUTS {
        for (op, expected, _) in RESULTS {
            assert_eq!(rt;
                are_labels(rt.alloc(), cuts, op, expected),
                Ok(true),
                "{op:?} {cuts:?}"
            );
        }
    }
}

#[test]
fn labels_each_strip(rt: HostRuntime) {
    for (op, _, strips) in RESULTS {
        assert_eq!(rt;
            are_labels_of_strips(rt.alloc(), op, &strips),
            Ok(true),
            "{op:?}"
        );
    }
}

#[test]
fn edges_begin_in_one_strip(rt: HostRuntime) {
    for strip in 0..5 {
        assert_eq!(rt;
            are_own(rt.alloc(), strip, OWN[strip], CHANGING[strip]),
            Ok(true),
            "{strip}"
        );
    }
}
