//! Whether two edges meet only at ends.

ghost use Rattle.std.specs.Prelude.{IfSome};
ghost use Rattle.geom.specs.Limit.{AreInLimit};

use geom::{COORDINATE_LIMIT, Edge, Pt};
use noding_test::meet_only_at_ends;

/// Two edges by their ends, and whether they meet only at ends.
type Row = ((i32, i32), (i32, i32), (i32, i32), (i32, i32), bool);

/// By shape.
const NEAR: [Row; 20] = [
    ((0, 0), (4, 4), (4, 4), (8, 0), true),
    ((0, 0), (4, 4), (0, 4), (4, 0), false),
    ((0, 0), (4, 0), (2, 0), (6, 0), false),
    ((0, 0), (4, 0), (2, 0), (2, 3), false),
    ((0, 0), (4, 0), (0, 0), (8, 0), false),
    ((0, 0), (4, 0), (5, 0), (8, 0), true),
    ((0, 0), (4, 0), (4, 0), (8, 0), true),
    ((0, 0), (4, 0), (0, 0), (0, 4), true),
    ((0, 0), (4, 4), (1, 0), (5, 4), true),
    ((0, 0), (4, 4), (2, 2), (2, 5), false),
    ((0, 0), (4, 4), (2, 0), (2, 2), false),
    ((0, 0), (0, 4), (0, 2), (0, 6), false),
    ((0, 0), (0, 4), (0, 4), (0, 6), true),
    ((0, 0), (0, 4), (0, 5), (0, 6), true),
    ((0, 0), (2, 1), (2, 0), (3, 3), true),
    ((0, 0), (6, 2), (3, 1), (9, 3), false),
    ((0, 0), (6, 2), (6, 2), (9, 3), true),
    ((0, 0), (1, 3), (0, 1), (3, 1), false),
    ((0, 0), (4, 2), (0, 2), (4, 4), true),
    ((0, 0), (4, 2), (1, 3), (2, 1), false),
];

/// Over the whole range.
const FAR: [Row; 10] = [
    (
        (-268_435_456, -268_435_456),
        (268_435_456, 268_435_456),
        (-268_435_456, 268_435_456),
        (268_435_456, -268_435_456),
        false,
    ),
    (
        (-268_435_456, -268_435_456),
        (268_435_456, 268_435_456),
        (-268_435_456, -268_435_455),
        (268_435_456, 268_435_456),
        true,
    ),
    (
        (-268_435_456, -268_435_456),
        (268_435_456, 268_435_456),
        (-268_435_456, -268_435_456),
        (268_435_456, 268_435_455),
        true,
    ),
    (
        (-268_435_456, -268_435_456),
        (268_435_456, 268_435_456),
        (0, 0),
        (0, 268_435_456),
        false,
    ),
    (
        (-268_435_456, -268_435_456),
        (268_435_456, 268_435_455),
        (0, 0),
        (0, 268_435_456),
        true,
    ),
    (
        (-268_435_456, -268_435_456),
        (268_435_456, 268_435_455),
        (0, -1),
        (0, 268_435_456),
        false,
    ),
    (
        (-268_435_456, 268_435_456),
        (268_435_456, 268_435_456),
        (-268_435_456, -268_435_456),
        (268_435_456, -268_435_456),
        true,
    ),
    (
        (-268_435_456, -268_435_456),
        (268_435_456, 268_435_456),
        (-268_435_455, -268_435_456),
        (268_435_456, 268_435_455),
        true,
    ),
    (
        (-268_435_456, -268_435_456),
        (0, 0),
        (0, 0),
        (268_435_456, 268_435_456),
        true,
    ),
    (
        (-268_435_456, -268_435_456),
        (1, 1),
        (0, 0),
        (268_435_456, 268_435_456),
        false,
    ),
];

fn edge(a: (i32, i32), b: (i32, i32)) -> Option<Edge>
    ensures { IfSome result (λ e. AreInLimit e.p e.q) }
{
    let start = Pt { x: a.0, y: a.1 };
    let end = Pt { x: b.0, y: b.1 };
    if start.is_in_limit() && end.is_in_limit() {
        Edge::between(start, end)
    } else {
        None
    }
}

fn is_clean(a: (i32, i32), b: (i32, i32), c: (i32, i32), d: (i32, i32)) -> Option<bool> {
    let e = edge(a, b)?;
    let f = edge(c, d)?;
    Some(meet_only_at_ends(&e, &f))
}

fn sum(a: (i32, i32), b: (i32, i32)) -> (i32, i32) {
    (a.0.wrapping_add(b.0), a.1.wrapping_add(b.1))
}

/// A row moved by a vector.
fn moved(row: Row, by: (i32, i32)) -> Row {
    let (a, b, c, d, clean) = row;
    (sum(a, by), sum(b, by), sum(c, by), sum(d, by), clean)
}

/// The vector that brings the greatest coordinates of a row's points to the limit.
fn to_greatest(row: Row) -> (i32, i32) {
    let (a, b, c, d, _) = row;
    let x = a.0.max(b.0).max(c.0).max(d.0);
    let y = a.1.max(b.1).max(c.1).max(d.1);
    (
        COORDINATE_LIMIT.wrapping_sub(x),
        COORDINATE_LIMIT.wrapping_sub(y),
    )
}

/// Whether a row's answer is right for the edges in either order.
fn is_right(row: Row) -> bool {
    let (a, b, c, d, clean) = row;
    is_clean(a, b, c, d) == Some(clean) && is_clean(c, d, a, b) == Some(clean)
}

/// Whether a row's answer is right wherever the row is moved: where its least coordinates are 0, at the greatest and at the least.
fn is_right_everywhere(row: Row) -> bool {
    is_right(row)
        && is_right(moved(row, to_greatest(row)))
        && is_right(moved(row, (-COORDINATE_LIMIT, -COORDINATE_LIMIT)))
}

#[test]
fn pairs_by_shape(rt: HostRuntime) {
    for row in NEAR {
        assert!(rt; is_right_everywhere(row), "{row:?}");
    }
}

#[test]
fn pairs_over_the_whole_range(rt: HostRuntime) {
    for row in FAR {
        assert!(rt; is_right(row), "{row:?}");
    }
}

#[test]
fn an_edge_meets_itself_everywhere(rt: HostRuntime) {
    assert_eq!(rt; is_clean((0, 0), (4, 2), (4, 2), (0, 0)), Some(false));
}
