//! Tests of the pixels that a segment meets.

use crate::shapes::{Ends, Point, point, segment};
use geom::{COORDINATE_LIMIT, Pt, Rect};
use routing::meets;

/// The greatest coordinate.
const END: i32 = COORDINATE_LIMIT;

/// A segment by its ends, a pixel, and whether the segment meets it.
type Row = (Ends, Point, bool);

const MET: [Row; 26] = [
    (((0, 0), (10, 1)), (0, 0), true),
    (((0, 0), (10, 1)), (5, 0), true),
    (((0, 0), (10, 1)), (5, 1), true),
    (((0, 0), (10, 1)), (4, 1), false),
    (((0, 0), (10, 1)), (10, 0), false),
    (((0, 1), (1, 0)), (1, 1), true),
    (((0, 1), (1, 0)), (0, 0), false),
    (((0, 0), (1, -1)), (1, 0), true),
    (((0, 0), (1, -1)), (0, -1), false),
    (((-END, -END), (END, END)), (0, 0), true),
    (((-END, -END), (END, END)), (1, 0), false),
    (((-END, -END), (END, END - 1)), (0, 0), true),
    (((-END, -END), (END, END - 1)), (0, -1), true),
    (((-END, -END), (END, END - 1)), (0, 1), false),
    (((END, -END), (-END, END)), (1, 0), true),
    (((END, -END), (1 - END, END)), (0, 0), true),
    (((END, 0), (-END, 1)), (0, 0), true),
    (((END, 0), (-END, 1)), (0, 1), true),
    (((END, 0), (-END, 1)), (1, 1), false),
    (((-END, -END), (END, 1 - END)), (0, 1 - END), true),
    (((-END, -END), (END, 1 - END)), (-1, 1 - END), false),
    (((-END, END), (END, END)), (3, END - 1), false),
    (((0, -END), (0, END)), (0, 5), true),
    (((0, END), (0, -END)), (1, 5), false),
    (((-END, END), (1 - END, END - 1)), (1 - END, END), true),
    (((-END, END), (1 - END, END - 1)), (-END, END - 1), false),
];

/// The vector from a corner of a rectangle to another point.
fn vector(from: Pt, to: Point) -> Point {
    (to.0.wrapping_sub(from.x), to.1.wrapping_sub(from.y))
}

/// The vectors that lead a segment and a pixel to both ends of the coordinate limit, and the one that leaves them.
fn moves(ends: Ends, pixel: Point) -> [Point; 3] {
    let bounds = Rect::spanned_by(point(ends.0), point(ends.1)).with(point(pixel));
    [
        (0, 0),
        vector(bounds.lo, (-END, -END)),
        vector(bounds.hi, (END, END)),
    ]
}

/// A point, moved by a vector.
fn moved(at: Point, by: Point) -> Point {
    (at.0.wrapping_add(by.0), at.1.wrapping_add(by.1))
}

/// Whether a moved segment meets a moved pixel, if the answer is the same for the segment turned round.
fn is_met(ends: Ends, pixel: Point, by: Point) -> Option<bool> {
    let (a, b) = (moved(ends.0, by), moved(ends.1, by));
    let s = segment((a, b))?;
    let turned = segment((b, a))?;
    let centre = point(moved(pixel, by));
    if centre.is_in_limit() && meets(&s, centre) == meets(&turned, centre) {
        Some(meets(&s, centre))
    } else {
        None
    }
}

/// Whether the answer of a row is right wherever the row is moved.
fn is_right(row: Row) -> bool {
    let (ends, pixel, met) = row;
    for by in moves(ends, pixel) {
        if is_met(ends, pixel, by) != Some(met) {
            return false;
        }
    }
    true
}

/// The first row whose answer isn't right.
fn first_wrong(rows: &[Row]) -> Option<Row> {
    for row in rows {
        if !is_right(*row) {
            return Some(*row);
        }
    }
    None
}

#[test]
fn met_pixels(rt: HostRuntime) {
    assert_eq!(rt; first_wrong(&MET), None);
}
