//! Segments of two layers, and their rounded edges with their counts, as the definitions give them by exact fractions.

ghost use Rattle.std.specs.Prelude.{All, IfOk, IfSome};
ghost use Rattle.geom.specs.Limit.{AreInLimit};

use geom::{Counted, NoMemory, Pt, Seg, Source};
use std::alloc::Global;

pub type Ends = ((i32, i32), (i32, i32));

pub type Lined = (Ends, Source);

pub type Expected = (Ends, u32, u32);

pub fn point(at: (i32, i32)) -> Pt {
    Pt { x: at.0, y: at.1 }
}

/// A segment of a layer.
fn segment(lined: &Lined) -> Option<Seg>
    ensures { IfSome result (λ s. AreInLimit s.a s.b) }
{
    let (ends, layer) = *lined;
    let (a, b) = (point(ends.0), point(ends.1));
    if a.is_in_limit() && b.is_in_limit() {
        Seg::new(a, b, layer)
    } else {
        None
    }
}

/// Segments of both layers.
pub fn segments(alloc: Global, list: &[Lined]) -> Result<Vec<Seg, Global>, NoMemory>
    ensures { IfOk result (λ v. All (λ s. AreInLimit s.a s.b) v.items) }
{
    let mut segments = Vec::new(alloc);
    for lined in list {
        let Some(s) = segment(lined) else {
            return Err(NoMemory);
        };
        segments.push(s)?;
    }
    Ok(segments)
}

/// Whether the edges are these, in their order.
pub fn are_edges(edges: &[Counted], expected: &[Expected]) -> bool {
    for (found, wanted) in edges.iter().zip(expected) {
        let ((p, q), in_a, in_b) = *wanted;
        let ends = found.edge.p == point(p) && found.edge.q == point(q);
        if !ends || (found.in_a, found.in_b) != (in_a, in_b) {
            return false;
        }
    }
    edges.len() == expected.len()
}

pub const CASES: [(&[Lined], &[Expected]); 6] = [
    (
        &[
            (((3, 0), (-2, 8)), Source::A),
            (((-2, 8), (-2, 5)), Source::A),
            (((-2, 5), (3, 0)), Source::A),
            (((5, 3), (-3, 1)), Source::B),
            (((-3, 1), (3, 6)), Source::B),
            (((3, 6), (-2, 3)), Source::B),
            (((-2, 3), (5, 3)), Source::B),
        ],
        &[
            (((-3, 1), (-1, 3)), 0, 1),
            (((-3, 1), (1, 2)), 0, 1),
            (((-2, 3), (-1, 3)), 0, 2),
            (((-2, 5), (-2, 8)), 1, 0),
            (((-2, 5), (-1, 4)), 1, 0),
            (((-2, 8), (0, 4)), 1, 0),
            (((-1, 3), (-1, 4)), 0, 1),
            (((-1, 3), (0, 3)), 0, 2),
            (((-1, 4), (0, 4)), 1, 1),
            (((0, 3), (0, 4)), 1, 1),
            (((0, 3), (1, 3)), 1, 1),
            (((0, 4), (1, 4)), 1, 1),
            (((0, 4), (3, 6)), 0, 1),
            (((1, 2), (1, 3)), 2, 0),
            (((1, 2), (2, 2)), 2, 1),
            (((1, 3), (1, 4)), 1, 0),
            (((1, 3), (5, 3)), 0, 1),
            (((1, 4), (3, 6)), 0, 1),
            (((2, 2), (3, 0)), 2, 0),
            (((2, 2), (5, 3)), 0, 1),
        ],
    ),
    (
        &[
            (((3, 0), (16, 1)), Source::A),
            (((16, 1), (-3, 0)), Source::A),
            (((-3, 0), (3, 0)), Source::A),
            (((2, 0), (-3, 0)), Source::B),
            (((-3, 0), (7, 2)), Source::B),
            (((7, 2), (-1, 6)), Source::B),
            (((-1, 6), (2, 0)), Source::B),
        ],
        &[
            (((-3, 0), (2, 0)), 2, 1),
            (((-3, 0), (2, 1)), 0, 1),
            (((-1, 6), (2, 1)), 0, 1),
            (((-1, 6), (7, 2)), 0, 1),
            (((2, 0), (2, 1)), 0, 1),
            (((2, 0), (3, 0)), 2, 0),
            (((2, 1), (7, 2)), 0, 1),
            (((3, 0), (16, 1)), 2, 0),
        ],
    ),
    (
        &[
            (((-7, 4), (7, 2)), Source::A),
            (((7, 2), (-7, 3)), Source::A),
            (((-7, 3), (-7, 4)), Source::A),
            (((5, 1), (-3, 3)), Source::B),
            (((-3, 3), (4, 8)), Source::B),
            (((4, 8), (5, 1)), Source::B),
        ],
        &[
            (((-7, 3), (-7, 4)), 1, 0),
            (((-7, 3), (-3, 3)), 1, 0),
            (((-7, 4), (-3, 3)), 1, 0),
            (((-3, 3), (-2, 3)), 2, 2),
            (((-2, 3), (-1, 3)), 2, 1),
            (((-2, 3), (4, 8)), 0, 1),
            (((-1, 3), (5, 1)), 0, 1),
            (((-1, 3), (5, 2)), 2, 0),
            (((4, 8), (5, 2)), 0, 1),
            (((5, 1), (5, 2)), 0, 1),
            (((5, 2), (7, 2)), 2, 0),
        ],
    ),
    (
        &[
            (((8, 7), (5, 4)), Source::A),
            (((5, 4), (1, 2)), Source::A),
            (((1, 2), (8, 7)), Source::A),
            (((-2, 4), (5, 7)), Source::B),
            (((5, 7), (2, 7)), Source::B),
            (((2, 7), (1, 1)), Source::B),
            (((1, 1), (-2, 4)), Source::B),
        ],
        &[
            (((-2, 4), (1, 2)), 0, 1),
            (((-2, 4), (2, 6)), 0, 1),
            (((1, 1), (1, 2)), 0, 2),
            (((1, 2), (2, 6)), 0, 1),
            (((1, 2), (5, 4)), 1, 0),
            (((1, 2), (8, 7)), 1, 0),
            (((2, 6), (2, 7)), 0, 1),
            (((2, 6), (5, 7)), 0, 1),
            (((2, 7), (5, 7)), 0, 1),
            (((5, 4), (8, 7)), 1, 0),
        ],
    ),
    (
        &[
            (((3, 2), (14, 5)), Source::A),
            (((14, 5), (-6, 7)), Source::A),
            (((-6, 7), (3, 2)), Source::A),
            (((-2, 8), (2, 5)), Source::B),
            (((2, 5), (2, 7)), Source::B),
            (((2, 7), (-2, 8)), Source::B),
        ],
        &[
            (((-6, 7), (0, 6)), 1, 0),
            (((-6, 7), (3, 2)), 1, 0),
            (((-2, 8), (0, 6)), 0, 1),
            (((-2, 8), (2, 7)), 0, 1),
            (((0, 6), (2, 5)), 0, 1),
            (((0, 6), (2, 6)), 1, 0),
            (((2, 5), (2, 6)), 0, 1),
            (((2, 6), (2, 7)), 0, 1),
            (((2, 6), (14, 5)), 1, 0),
            (((3, 2), (14, 5)), 1, 0),
        ],
    ),
    (
        &[
            (((-4, 1), (2, 7)), Source::A),
            (((2, 7), (-4, 0)), Source::A),
            (((-4, 0), (3, 7)), Source::A),
            (((3, 7), (-4, 1)), Source::A),
            (((2, 5), (-10, 7)), Source::B),
            (((-10, 7), (1, 2)), Source::B),
            (((1, 2), (2, 5)), Source::B),
            (((2, 7), (-4, 1)), Source::B),
            (((-4, 0), (2, 7)), Source::B),
            (((3, 7), (-4, 0)), Source::B),
        ],
        &[
            (((-10, 7), (-2, 3)), 0, 1),
            (((-10, 7), (0, 5)), 0, 1),
            (((-4, 0), (-4, 1)), 1, 1),
            (((-4, 0), (-1, 3)), 1, 1),
            (((-4, 1), (-2, 3)), 3, 2),
            (((-2, 3), (-1, 3)), 2, 2),
            (((-2, 3), (-1, 4)), 1, 1),
            (((-1, 3), (-1, 4)), 2, 1),
            (((-1, 3), (1, 2)), 0, 1),
            (((-1, 3), (1, 5)), 1, 1),
            (((-1, 4), (0, 5)), 3, 2),
            (((0, 5), (1, 5)), 2, 2),
            (((0, 5), (2, 7)), 1, 1),
            (((1, 2), (2, 5)), 0, 1),
            (((1, 5), (2, 5)), 0, 1),
            (((1, 5), (2, 7)), 2, 1),
            (((1, 5), (3, 7)), 1, 1),
            (((2, 7), (3, 7)), 1, 0),
        ],
    ),
];
