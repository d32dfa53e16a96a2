//! Tests of lines that run side by side through a rectangle, all or nearly all.

use crate::shapes::{Ends, point, rectangle};
use geom::{Edge, NoMemory};
use hot_region::{Line, ascending, hot_beside, is_bundle};
use std::alloc::Allocator;

// Two corners of a rectangle, two lines, and whether these are a bundle there.
type BundleRow = (Ends, [Ends; 2], bool);

// The last two meet in (15/2, 17/2).
const BUNDLES: [BundleRow; 9] = [
    (
        ((0, 0), (7, 7)),
        [((-9, 0), (9, 3)), ((9, 4), (-9, 1))],
        true,
    ),
    (
        ((0, 0), (7, 7)),
        [((0, -9), (3, 9)), ((4, 9), (1, -9))],
        true,
    ),
    (
        ((0, 0), (7, 7)),
        [((0, 9), (1, -9)), ((5, -9), (3, 9))],
        true,
    ),
    (((1, 0), (7, 7)), [((0, 0), (9, 3)), ((0, 0), (9, 4))], true),
    (
        ((0, 0), (7, 7)),
        [((0, 0), (9, 3)), ((0, 0), (9, 4))],
        false,
    ),
    (
        ((0, 0), (7, 7)),
        [((-9, 0), (9, 3)), ((-9, 0), (18, 4))],
        true,
    ),
    (
        ((0, 0), (7, 7)),
        [((-9, -9), (9, 9)), ((-9, 9), (9, -9))],
        false,
    ),
    (
        ((0, 1), (6, 7)),
        [((-1, 0), (16, 17)), ((-1, 17), (16, 0))],
        true,
    ),
    (
        ((0, 1), (7, 8)),
        [((-1, 0), (16, 17)), ((-1, 17), (16, 0))],
        false,
    ),
];

fn line(ends: Ends) -> Option<Line> {
    let edge = Edge::between(point(ends.0), point(ends.1))?;
    if edge.p.is_in_limit() && edge.q.is_in_limit() {
        Some(Line {
            edge,
            first: 0,
            past: 0,
        })
    } else {
        None
    }
}

fn lines_of<A: Allocator>(alloc: A, ends: &[Ends]) -> Result<Vec<Line, A>, NoMemory> {
    let mut lines = Vec::new(alloc);
    for pair in ends {
        let Some(made) = line(*pair) else {
            return Err(NoMemory);
        };
        lines.push(made)?;
    }
    Ok(lines)
}

fn are_bundle<A: Allocator + Copy>(
    alloc: A,
    corners: Ends,
    ends: &[Ends],
) -> Result<bool, NoMemory> {
    let rect = rectangle(corners)?;
    let lines = lines_of(alloc, ends)?;
    is_bundle(alloc, &rect, &lines)
}

// Whether each row is told.
fn tells_rows<A: Allocator + Copy>(alloc: A) -> Result<bool, NoMemory> {
    for (corners, ends, told) in &BUNDLES {
        if are_bundle(alloc, *corners, ends)? != *told {
            return Ok(false);
        }
    }
    Ok(true)
}

// Three lines side by side, and one across two of them that ends between the second and the third.
const BESIDE: [Ends; 4] = [
    ((-9, 0), (9, 0)),
    ((-9, 2), (9, 2)),
    ((-9, 6), (9, 6)),
    ((3, -9), (3, 4)),
];

// How many pixels are found to be hot.
fn count_beside<A: Allocator + Copy>(alloc: A) -> Result<usize, NoMemory> {
    let rect = rectangle(((0, 0), (7, 7)))?;
    let lines = lines_of(alloc, &BESIDE)?;
    match hot_beside(alloc, &rect, &lines)? {
        None => Ok(0),
        Some(found) => Ok(ascending(found).len()),
    }
}

#[test]
fn finds_the_hot_beside(rt: HostRuntime) {
    assert_eq!(rt; count_beside(rt.alloc()), Ok(3));
}

#[test]
fn tells_bundles(rt: HostRuntime) {
    assert_eq!(rt; tells_rows(rt.alloc()), Ok(true));
}
