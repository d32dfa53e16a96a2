//! Vertical strips on small examples, and against a plain loop over all boxes.

ghost use Rattle.std.specs.Prelude.{◌≡◌, IfOk, pos};

use crate::rects::{boxes_of, rect, scattered};
use geom::{COORDINATE_LIMIT, NoMemory, Pt, Rect};
use std::alloc::Global;
use std::test::Fail;
use tiling::Strips;

/// Whether the numbers are those of the boxes that have an x from left to right, ascending, by a plain loop.
fn is_plain_fill(list: &[Rect], left: i64, right: i64, found: &[u32]) -> bool {
    let mut next = 0usize;
    let mut number = 0u32;
    for b in list {
        if i64::from(b.lo.x) <= right && left <= i64::from(b.hi.x) {
            if found.get(next) != Some(&number) {
                return false;
            }
            next = next.wrapping_add(1);
        }
        number = number.wrapping_add(1);
    }
    next == found.len()
}

/// The strips over these boxes, where their ends are in the coordinate limit and in order.
fn strips_over(
    alloc: Global,
    low: i32,
    high: i32,
    width: u32,
    list: &[Rect],
) -> Result<Option<Strips<Global>>, NoMemory> {
    let first = Pt { x: low, y: 0 };
    let last = Pt { x: high, y: 0 };
    if !(first.is_in_limit() && last.is_in_limit() && low <= high && width > 0) {
        return Ok(None);
    }
    let boxes = boxes_of(alloc, list)?;
    Ok(Some(Strips::build(alloc, low, high, width, &boxes)?))
}

/// How many strips there are, where what each has is as by the plain loop.
fn strips_agree(
    alloc: Global,
    low: i32,
    high: i32,
    width: u32,
    list: &[Rect],
) -> Result<Option<u32>, NoMemory> {
    let Some(strips) = strips_over(alloc, low, high, width, list)? else {
        return Ok(None);
    };
    let mut found = Vec::new(alloc);
    let mut left = i64::from(low);
    for strip in 0..strips.strips() {
        strips.fill(strip, &mut found)?;
        let right = left.wrapping_add(i64::from(width) - 1);
        if !is_plain_fill(list, left, right, &found) {
            return Ok(None);
        }
        left = right.wrapping_add(1);
    }
    Ok(Some(strips.strips()))
}

#[test]
fn strips_against_the_plain_loop(rt: HostRuntime) -> Result<(), Fail> {
    let limit = COORDINATE_LIMIT;
    let many = scattered(rt.alloc(), 100)?;
    let ends = [
        rect(limit, 0, i32::MAX, 0),
        rect(i32::MIN, 0, -limit - 1, 0),
        rect(i32::MAX, 0, i32::MAX, 0),
        rect(-limit, 0, -limit, 0),
    ];
    let table = [
        (-17, 500, 7, many.as_slice(), 74u32),
        (3, 3, 1, many.as_slice(), 1),
        (-limit, limit, u32::MAX, ends.as_slice(), 1),
        (-limit, limit, 2_097_153, ends.as_slice(), 256),
    ];
    for (low, high, width, list, strips) in table {
        assert!(rt; strips_agree(rt.alloc(), low, high, width, list) == Ok(Some(strips)));
    }
    Ok(())
}

/// The strips of width 5 from 0 to 9 over three boxes.
fn example_strips(alloc: Global) -> Result<Strips<Global>, NoMemory>
    ensures low { IfOk result (λ s. s.low ≡ pos 0) }
    ensures high { IfOk result (λ s. s.high ≡ pos 9) }
{
    let list = [rect(0, 0, 5, 1), rect(4, 0, 4, 9), rect(6, 0, 9, 0)];
    let boxes = boxes_of(alloc, list.as_slice())?;
    Strips::build(alloc, 0, 9, 5, &boxes)
}

/// How many strips there are, and the strips of two places.
fn places_of_the_example(alloc: Global) -> Result<(u32, u32, u32), NoMemory> {
    let strips = example_strips(alloc)?;
    Ok((strips.strips(), strips.strip_of(9), strips.strip_of(10)))
}

/// Whether a strip of the example has these boxes.
fn has_boxes(alloc: Global, strip: u32, numbers: &[u32]) -> Result<bool, NoMemory> {
    let strips = example_strips(alloc)?;
    if strip >= strips.strips() {
        return Ok(false);
    }
    let mut found = Vec::new(alloc);
    strips.fill(strip, &mut found)?;
    Ok(found.as_slice() == numbers)
}

#[test]
fn strips_of_the_example(rt: HostRuntime) {
    assert!(rt;
        places_of_the_example(rt.alloc()) == Ok((2, 0, 1))
            && has_boxes(rt.alloc(), 0, &[0, 1]) == Ok(true)
            && has_boxes(rt.alloc(), 1, &[0, 2]) == Ok(true)
    );
}
