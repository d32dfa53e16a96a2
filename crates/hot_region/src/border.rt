//! The border between two halves of a rectangle, moved.
//!
//! 1. The ends of lines are counted in both halves, along the columns or the rows that these part.
//! 2. Where one half has few ends and the other one more, nearly all lines may run through the first, side by side. It is made as
//!    large as that may hold: the border is moved into the other half, up to the next end.
//!
//! So a tip at which many lines meet takes some cuts, and not one for each binary digit of its distance, and so do lines in a small
//! part of a rectangle. A half with few ends keeps few, so it grows no second time.

ghost use Rattle.std.specs.Prelude.{◌<ℤ◌, ◌≤ℤ◌};
ghost use Rattle.geom.specs.Limit.{AreInLimit};
ghost use Rattle.hot_region.specs.Halving.{AreHalves};

use crate::bundle::Course;
use crate::carrier::x_of;
use crate::lines::Line;
use geom::{Pt, Rect};

/// How many ends of lines in a half are few.
const A_FEW: usize = 8;

/// How many ends of lines lie in the first of two halves and in the second, and those next to the border: columns, or rows.
#[derive(Clone, Copy)]
struct Ends {
    first: usize,
    second: usize,
    last_in_first: i32,
    first_in_second: i32,
}

/// Those with an end more, if it lies from low to the middle, or behind it to high.
fn with_end(ends: &Ends, low: i32, middle: i32, high: i32, end: i32) -> Ends {
    let mut more = *ends;
    if low <= end && end <= middle {
        more.first = more.first.saturating_add(1);
        more.last_in_first = more.last_in_first.max(end);
    }
    if middle < end && end <= high {
        more.second = more.second.saturating_add(1);
        more.first_in_second = more.first_in_second.min(end);
    }
    more
}

/// The ends of lines from low to the middle, and behind it to high, along a course.
fn ends_of(course: Course, low: i32, middle: i32, high: i32, lines: &[Line]) -> Ends {
    let mut ends = Ends {
        first: 0,
        second: 0,
        last_in_first: low,
        first_in_second: high,
    };
    for line in lines {
        ends = with_end(&ends, low, middle, high, x_of(course, line.edge.p));
        ends = with_end(&ends, low, middle, high, x_of(course, line.edge.q));
    }
    ends
}

/// Where the border behind the middle is moved to: the last column, or row, of the first half.
fn moved(course: Course, low: i32, middle: i32, high: i32, lines: &[Line]) -> i32
    requires from { low ≤ℤ middle }
    requires below { middle <ℤ high }
    ensures from { low ≤ℤ result }
    ensures below { result <ℤ high }
{
    let ends = ends_of(course, low, middle, high, lines);
    let is_first_bare = ends.first <= A_FEW;
    if is_first_bare == (ends.second <= A_FEW) {
        return middle;
    }
    // That these ends lie in their halves is written again, so that nothing has to be proved of them.
    if is_first_bare {
        ends.first_in_second.max(middle + 1).min(high) - 1
    } else {
        ends.last_in_first.max(low).min(middle)
    }
}

/// A rectangle's columns up to x, and those behind it.
fn columns_at(rect: &Rect, x: i32) -> (Rect, Rect)
    requires rect_in { AreInLimit rect.now.lo rect.now.hi }
    requires from { rect.now.lo.x ≤ℤ x }
    requires below { x <ℤ rect.now.hi.x }
    ensures halves { AreHalves rect.now result.0 result.1 }
    ensures first_in { AreInLimit result.0.lo result.0.hi }
    ensures second_in { AreInLimit result.1.lo result.1.hi }
{
    let left = Rect {
        lo: rect.lo,
        hi: Pt { x, y: rect.hi.y },
    };
    let right = Rect {
        lo: Pt {
            x: x + 1,
            y: rect.lo.y,
        },
        hi: rect.hi,
    };
    (left, right)
}

/// Its rows up to y, and those above it.
fn rows_at(rect: &Rect, y: i32) -> (Rect, Rect)
    requires rect_in { AreInLimit rect.now.lo rect.now.hi }
    requires from { rect.now.lo.y ≤ℤ y }
    requires below { y <ℤ rect.now.hi.y }
    ensures halves { AreHalves rect.now result.0 result.1 }
    ensures first_in { AreInLimit result.0.lo result.0.hi }
    ensures second_in { AreInLimit result.1.lo result.1.hi }
{
    let low = Rect {
        lo: rect.lo,
        hi: Pt { x: rect.hi.x, y },
    };
    let high = Rect {
        lo: Pt {
            x: rect.lo.x,
            y: y + 1,
        },
        hi: rect.hi,
    };
    (low, high)
}

/// Halves of a rectangle, the border between them moved.
pub(crate) fn with_border_moved(rect: &Rect, halves: (Rect, Rect), lines: &[Line]) -> (Rect, Rect)
    requires rect_in { AreInLimit rect.now.lo rect.now.hi }
    requires halves { AreHalves rect.now halves.0 halves.1 }
    requires first_in { AreInLimit halves.0.lo halves.0.hi }
    requires second_in { AreInLimit halves.1.lo halves.1.hi }
    ensures halves { AreHalves rect.now result.0 result.1 }
    ensures first_in { AreInLimit result.0.lo result.0.hi }
    ensures second_in { AreInLimit result.1.lo result.1.hi }
{
    let (x, y) = (halves.0.hi.x, halves.0.hi.y);
    if rect.lo.x <= x && x < rect.hi.x {
        return columns_at(rect, moved(Course::Columns, rect.lo.x, x, rect.hi.x, lines));
    }
    if rect.lo.y <= y && y < rect.hi.y {
        return rows_at(rect, moved(Course::Rows, rect.lo.y, y, rect.hi.y, lines));
    }
    halves
}
