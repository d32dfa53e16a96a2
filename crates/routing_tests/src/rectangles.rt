//! Tests of how many rectangles a tile is parted into. Each one asks for memory, so an allocator that refuses the request past a bound
//! tells whether they are few: as many for each line as there may be, however far the lines reach.

ghost use Rattle.std.specs.Prelude.{◌<◌, All, length};

use crate::pieces::all_numbers;
use crate::shapes::{Ends, rectangle, segments_of};
use geom::{NoMemory, Rect};
use grid::Grid;
use refusing::Refusing;
use routing::{LimitedSegments, found_in};
use std::alloc::{Allocator, Global};

// How far coordinates reach.
const REACHES: [i32; 5] = [1 << 10, 1 << 14, 1 << 18, 1 << 23, 1 << 28];

// Enough lines that a tile of them is parted.
const LINES: i32 = 80;

#[derive(Clone, Copy)]
enum Kind {
    ToAndFro,
    Slivers,
    Confetti,
}

// One of the lines of one row, each a step shorter at both ends than the one before.
fn to_and_fro(reach: i32, at: i32) -> [Ends; 1] {
    let end = reach.wrapping_sub(at);
    [((end.wrapping_neg(), 0), (end, 0))]
}

// Two of the nearly parallel lines, all from one point, that end side by side in a row.
fn slivers(reach: i32, at: i32) -> [Ends; 3] {
    let tip = (reach.wrapping_neg(), 0);
    let end = reach.wrapping_sub(at.wrapping_mul(2));
    let beside = end.wrapping_sub(1);
    [(tip, (end, 1)), ((end, 1), (beside, 1)), ((beside, 1), tip)]
}

// One of the lines along diagonals, all over the plane, and a short one beside it.
fn confetti(reach: i32, at: i32) -> [Ends; 2] {
    let step = reach.div_euclid(LINES);
    let aside = at.wrapping_mul(step);
    let low = reach.wrapping_neg();
    let x = low.wrapping_add(at.wrapping_mul(37).rem_euclid(LINES).wrapping_mul(step));
    let y = x.wrapping_add(aside).wrapping_add(2);
    [
        (
            (low, low.wrapping_add(aside)),
            (reach.wrapping_sub(aside), reach),
        ),
        ((x, y), (x.wrapping_add(2), y.wrapping_sub(1))),
    ]
}

fn lines<A: Allocator>(alloc: A, kind: Kind, reach: i32) -> Result<Vec<Ends, A>, NoMemory> {
    let mut ends = Vec::new(alloc);
    for at in 0..LINES {
        match kind {
            Kind::ToAndFro => ends.extend_from_slice(&to_and_fro(reach, at))?,
            Kind::Slivers => ends.extend_from_slice(&slivers(reach, at))?,
            Kind::Confetti => ends.extend_from_slice(&confetti(reach, at))?,
        }
    }
    Ok(ends)
}

// Whether the pixels of segments are found with ten requests for memory for each.
fn are_few_rectangles<A: Allocator + Copy>(
    alloc: A,
    tile: &Rect,
    limited: LimitedSegments<'_>,
    numbers: &[u32],
) -> bool
    requires { All (λ k. k < length limited.list.now) numbers.now }
{
    let heap = Refusing::new(alloc, 10u64.saturating_mul(limited.list.len() as u64));
    found_in(&heap, tile, limited, numbers).is_ok()
}

fn parts_few(alloc: Global, kind: Kind, reach: i32) -> Result<bool, NoMemory> {
    let low = reach.wrapping_neg();
    let grid = Grid::one_tile(rectangle(((low, low), (reach, reach)))?);
    let segments = segments_of(alloc, &lines(alloc, kind, reach)?)?;
    let numbers = all_numbers(alloc, &grid, 0, &segments)?;
    let limited = LimitedSegments { list: &segments };
    Ok(are_few_rectangles(alloc, &grid.rect(0), limited, &numbers))
}

// The first reach at which the lines are parted into many rectangles.
fn first_many(alloc: Global, kind: Kind) -> Result<Option<i32>, NoMemory> {
    for reach in REACHES {
        if !parts_few(alloc, kind, reach)? {
            return Ok(Some(reach));
        }
    }
    Ok(None)
}

#[test]
fn lines_of_one_row_part_few_rectangles(rt: HostRuntime) {
    assert_eq!(rt; first_many(rt.alloc(), Kind::ToAndFro), Ok(None));
}

#[test]
fn nearly_parallel_lines_part_few_rectangles(rt: HostRuntime) {
    assert_eq!(rt; first_many(rt.alloc(), Kind::Slivers), Ok(None));
}

#[test]
fn confetti_parts_few_rectangles(rt: HostRuntime) {
    assert_eq!(rt; first_many(rt.alloc(), Kind::Confetti), Ok(None));
}
