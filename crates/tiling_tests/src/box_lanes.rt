//! Which boxes meet a rectangle, by lanes and by plain loops.

ghost use Rattle.std.specs.Prelude.{◌≤◌, length};

use crate::lengths::LENGTHS;
use crate::rects::{boxes_of, rect};
use geom::{COORDINATE_LIMIT, NoMemory, Rect};
use lane_tests::{Boxes, meet_boxes, meet_in};
use std::alloc::Global;

/// Whether the numbers are those of the boxes from `from` to below `to` that share a point with the rectangle, ascending, by a
// plain loop.
fn is_plain(boxes: &Boxes<Global>, from: u32, to: u32, rect: Rect, found: &[u32]) -> bool
    requires { to ≤ length boxes.now }
{
    let mut rest = found.iter();
    for number in from..to {
        if boxes.get(number as usize).shares_point(&rect) && rest.next() != Some(&number) {
            return false;
        }
    }
    rest.next().is_none()
}

/// Whether the boxes that meet the rectangle are found as by the plain loop, among all and in two parts.
fn boxes_agree(alloc: Global, boxes: &Boxes<Global>, rect: Rect) -> Result<bool, NoMemory> {
    let count = boxes.len() as u32;
    let half = count / 2;
    let mut found = Vec::new(alloc);
    meet_boxes(boxes, rect, &mut found)?;
    let whole = is_plain(boxes, 0, count, rect, &found);
    meet_in(boxes, 0, half, rect, &mut found)?;
    let first = is_plain(boxes, 0, half, rect, &found);
    meet_in(boxes, half, count, rect, &mut found)?;
    Ok(whole && first && is_plain(boxes, half, count, rect, &found))
}

/// Boxes with one at a place and another at all others.
fn boxes_with_one(
    alloc: Global,
    length: u32,
    place: u32,
    one: Rect,
    other: Rect,
) -> Result<Boxes<Global>, NoMemory> {
    let mut boxes = Boxes::new(alloc);
    for at in 0..length {
        boxes.push(if at == place { one } else { other })?;
    }
    Ok(boxes)
}

/// Whether these of five boxes share a point with a rectangle.
fn meets_of_five(alloc: Global, area: Rect, numbers: &[u32]) -> Result<bool, NoMemory> {
    let five = [
        rect(15, 15, 20, 20),
        rect(16, 0, 20, 5),
        rect(-5, -5, 0, 0),
        rect(-5, 3, 40, 3),
        rect(3, -9, 3, -1),
    ];
    let boxes = boxes_of(alloc, &five)?;
    let mut found = Vec::new(alloc);
    meet_boxes(&boxes, area, &mut found)?;
    Ok(found.as_slice() == numbers)
}

#[test]
fn boxes_of_the_table(rt: HostRuntime) {
    assert!(rt; meets_of_five(rt.alloc(), rect(0, 0, 15, 15), &[0, 2, 3]) == Ok(true));
}

/// Whether boxes of which all but one are the same are found as by the plain loop.
fn one_agrees(
    alloc: Global,
    length: u32,
    place: u32,
    (one, other): (Rect, Rect),
    rect: Rect,
) -> Result<bool, NoMemory> {
    let boxes = boxes_with_one(alloc, length, place, one, other)?;
    boxes_agree(alloc, &boxes, rect)
}

#[test]
fn boxes_at_every_length(rt: HostRuntime) {
    let limit = COORDINATE_LIMIT;
    let corner = rect(limit, limit, limit, limit);
    let whole = rect(-limit, -limit, limit, limit);
    let outside = rect(-limit, -limit, limit - 1, limit);
    for length in LENGTHS {
        for place in 0..length.max(1) {
            for both in [(whole, outside), (outside, whole)] {
                assert!(rt; one_agrees(rt.alloc(), length, place, both, corner) == Ok(true));
            }
        }
    }
}
