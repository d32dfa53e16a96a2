//! One line of each carrier, among the lines of a rectangle.
//!
//! 1. A line that runs through the columns of the rectangle has a strand there. Two lines that have one strand have one carrier:
//!    they never cross, and between the borders each point of the one is a point of the other.
//! 2. The lines are sorted by strand, and of those that have one strand the first is kept. A line that doesn't run through has
//!    none, and is kept.
//! 3. The same is done by the rows, with x and y exchanged.

ghost use Rattle.std.specs.Prelude.{◌≡◌, ◌<◌, ◌≤ℤ◌, All, Contains, IfOk, IfSome, IsTrue, Some, get_or, length, slice_get, take};
ghost use Rattle.geom.specs.Limit.{AreInLimit};
ghost use Rattle.hot_region.specs.declared.carrier.Carried.{Carried};
ghost use Rattle.hot_region.specs.Bundle.{IsStrandSeen, seen_point};
ghost use Rattle.hot_region.specs.Carriers.{AreCarried, HasOneOfEach, HaveOneStrand, KeepsCrossings};

use crate::bundle::{Course, Strand, runs_through, seen, strand_of};
use crate::lines::Line;
use geom::{Edge, NoMemory, Pt, Rect};
use std::alloc::Allocator;

/// A line by its place among the lines, with its strand if it runs through.
#[derive(Clone, Copy, Debug, PartialEq, Eq, PartialOrd, Ord)]
pub(crate) struct Carried {
    pub strand: Option<Strand>,
    pub place: usize,
}

impl Carried {
    /// Whether it and another one run through and have one strand.
    fn has_strand_of(&self, other: &Carried) -> bool
        ensures { IsTrue result → HaveOneStrand self.now other.now }
    {
        match (self.strand, other.strand) {
            (Some(a), Some(b)) => a.left == b.left && a.right == b.right,
            _ => false,
        }
    }
}

/// The strand of a line that runs through.
pub(crate) fn strand_if_through(course: Course, low: i32, high: i32, line: &Edge) -> Option<Strand>
    requires line_in { AreInLimit line.now.p line.now.q }
    requires apart { low ≤ℤ high }
    ensures { IfSome result (λ s. IsStrandSeen course low high line.now s) }
{
    let edge = seen(course, line);
    if runs_through(low, high, &edge) {
        return Some(strand_of(low, high, &edge));
    }
    None
}

/// Each line by its place, with its strand if it runs through.
fn with_strands<A: Allocator>(
    alloc: A,
    course: Course,
    low: i32,
    high: i32,
    lines: &[Line],
) -> Result<Vec<Carried, A>, NoMemory>
    requires { low ≤ℤ high }
    ensures { IfOk result (λ v. AreCarried course low high lines.now v.items) }
{
    let mut list = Vec::new(alloc);
    for place in 0..lines.len() {
        let strand = strand_if_through(course, low, high, &lines[place].edge);
        list.push(Carried { strand, place })?;
    }
    Ok(list)
}

/// Whether an item has the strand of the one before.
fn repeats_strand(items: &[Carried], place: usize) -> bool
    requires { place < length items.now }
    ensures { (c : Carried) → IsTrue result → c ≡ get_or items.now place c → (d : Carried) × Contains (take place items.now) d × HaveOneStrand c d }
{
    place > 0 && items[place].has_strand_of(&items[place - 1])
}

/// The line of an item.
fn line_of(lines: &[Line], items: &[Carried], place: usize) -> Line
    requires items_in { All (λ c. c.place < length lines.now) items.now }
    requires place_in { place < length items.now }
    ensures { (c : Carried) → c ≡ get_or items.now place c → slice_get lines.now c.place ≡ Some result }
{
    lines[items[place].place]
}

/// The line of each item that doesn't have the strand of the one before.
fn first_of_each<A: Allocator>(
    alloc: A,
    lines: &[Line],
    items: &[Carried],
) -> Result<Vec<Line, A>, NoMemory>
    requires { All (λ c. c.place < length lines.now) items.now }
    ensures { IfOk result (λ v. HasOneOfEach lines.now items.now v.items) }
{
    let mut kept = Vec::new(alloc);
    for place in 0..items.len() {
        if !repeats_strand(items, place) {
            kept.push(line_of(lines, items, place))?;
        }
    }
    Ok(kept)
}

/// The x of a point as it is seen along the course.
pub(crate) fn x_of(course: Course, p: Pt) -> i32
    ensures { result ≡ (seen_point course p).x }
{
    match course {
        Course::Columns => p.x,
        Course::Rows => p.y,
    }
}

/// One line of each carrier, of the lines that run through a rectangle along a course, and all that don't run through.
fn one_of_each<A: Allocator + Copy>(
    alloc: A,
    course: Course,
    rect: &Rect,
    lines: &[Line],
) -> Result<Vec<Line, A>, NoMemory>
    ensures { IfOk result (λ v. KeepsCrossings rect.now lines.now v.items) }
{
    let low = x_of(course, rect.lo);
    let high = x_of(course, rect.hi);
    let mut items = with_strands(alloc, course, low, high, lines)?;
    items.sort_unstable();
    first_of_each(alloc, lines, &items)
}

/// One line of each carrier, of the lines that run through the columns or the rows of a rectangle, and all others. In each pixel
/// of it in which two of the lines cross, two of these cross.
pub(crate) fn one_of_each_carrier<A: Allocator + Copy>(
    alloc: A,
    rect: &Rect,
    lines: &[Line],
) -> Result<Vec<Line, A>, NoMemory>
    ensures { IfOk result (λ v. KeepsCrossings rect.now lines.now v.items) }
{
    let part = one_of_each(alloc, Course::Columns, rect, lines)?;
    one_of_each(alloc, Course::Rows, rect, &part)
}
