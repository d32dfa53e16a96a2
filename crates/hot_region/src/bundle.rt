//! Whether the lines of a rectangle are a bundle: they run side by side, so no pixel of it is hot for them.
//!
//! 1. Each line runs through the columns of the rectangle and has no end there.
//! 2. A line's strand is its height at the left and at the right border of these columns, in parts of which heights that
//!    differ have different numbers.
//! 3. The strands are sorted. Where each follows the one before, higher at both borders or equal at both, the lines stand in
//!    one order there: two of them have no point in common between the borders, or one carrier, and so no crossing.
//! 4. The same is asked of the rows, with x and y exchanged.

ghost use Rattle.std.specs.Prelude.{◌≡◌, ◌^◌, ◌<ℤ◌, ◌≤ℤ◌, ◌+ℤ◌, ◌-ℤ◌, ◌*ℤ◌, All, AllPairs, IfOk, IfSome, IsTrue, pos};
ghost use Rattle.geom.specs.declared.point.Pt.{Pt};
ghost use Rattle.geom.specs.Limit.{AreInLimit, InLimit, IsWithin};
ghost use Rattle.hot_region.specs.Bundle.{AreStrands, HasNoHot, IsFloor, IsFollowedBy, IsSeen, IsStrand, RunsThrough, RunsThroughSeen, height};
ghost use Rattle.hot_region.specs.Halving.{IsHotFor, edges_of};
ghost use Rattle.hot_region.specs.Rects.{IsIn};

use crate::halving::{Wide, determinant};
use crate::lines::Line;
use geom::{Edge, NoMemory, Pt, Rect};
use std::alloc::Allocator;

/// How many steps half a unit has, and parts a step. The heights of two lines are fractions with denominators of at most 2^29: where
/// they differ, it is by more than one part.
const STEP: i64 = 1_073_741_824;

/// Which borders lines are looked at between.
#[derive(Clone, Copy, Debug)]
pub(crate) enum Course {
    Columns,
    Rows,
}

/// The heights of a line at two borders, in parts.
#[derive(Clone, Copy, Debug, PartialEq, Eq, PartialOrd, Ord)]
pub(crate) struct Strand {
    pub left: i128,
    pub right: i128,
}

impl Strand {
    /// Whether another one is greater than it at both borders, or equal to it.
    pub(crate) fn is_followed_by(&self, other: &Strand) -> bool
        ensures { IsTrue result → IsFollowedBy self.now other.now }
    {
        self.left < other.left && self.right < other.right
            || self.left == other.left && self.right == other.right
    }
}

/// A point with x and y exchanged.
fn exchanged(p: Pt) -> Pt
    ensures x { result.x ≡ p.y }
    ensures y { result.y ≡ p.x }
{
    Pt { x: p.y, y: p.x }
}

/// A line as it is seen along its course: for rows with x and y exchanged.
pub(crate) fn seen(course: Course, line: &Edge) -> Edge
    ensures { IsSeen course line.now result }
{
    match course {
        Course::Columns => *line,
        Course::Rows => {
            let a = exchanged(line.p);
            let b = exchanged(line.q);
            if a < b {
                Edge { p: a, q: b }
            } else {
                Edge { p: b, q: a }
            }
        }
    }
}

/// Whether a line runs through the columns from low to high and has no end there.
pub(crate) fn runs_through(low: i32, high: i32, line: &Edge) -> bool
    ensures { IsTrue result → RunsThrough low high line.now }
{
    line.p.x < low && high < line.q.x
}

/// Whether each line runs through.
fn all_run_through(course: Course, low: i32, high: i32, lines: &[Line]) -> bool
    ensures { IsTrue result → All (λ l. RunsThroughSeen course low high l.edge) lines.now }
{
    for line in lines {
        let edge = seen(course, &line.edge);
        if !runs_through(low, high, &edge) {
            return false;
        }
    }
    true
}

/// A quotient, rounded down, and what is left of the number.
fn parted(number: i64, divisor: i64) -> (i64, i64)
    requires positive { pos 0 <ℤ divisor }
    requires small { IsWithin (2 ^ 60) number }
    requires divisor_small { divisor ≤ℤ pos (2 ^ 30) }
    ensures sum { number ≡ (divisor *ℤ result.0) +ℤ result.1 }
    ensures from { pos 0 ≤ℤ result.1 }
    ensures below { result.1 <ℤ divisor }
    ensures within { IsWithin (2 ^ 60) result.0 }
{
    let quotient = number.div_euclid(divisor);
    (quotient, number - quotient * divisor)
}

/// The number of parts in some halves of a unit, some steps, and some parts.
fn summed(halves: i64, steps: i64, parts: i64) -> i128
    requires halves_in { IsWithin (2 ^ 60) halves }
    requires steps_in { IsWithin (2 ^ 60) steps }
    requires parts_in { IsWithin (2 ^ 60) parts }
    ensures { result ≡ (((halves *ℤ pos (2 ^ 30)) +ℤ steps) *ℤ pos (2 ^ 30)) +ℤ parts }
{
    let step = i128::from(STEP);
    (i128::from(halves) * step + i128::from(steps)) * step + i128::from(parts)
}

/// The number of parts in a quotient, rounded down.
fn parts_of(height: i64, run: i64) -> i128
    requires small { IsWithin (2 ^ 60) height }
    requires positive { pos 0 <ℤ run }
    requires run_small { run ≤ℤ pos (2 ^ 30) }
    ensures { IsFloor height run result }
{
    let (halves, rest) = parted(height, run);
    let (steps, rest) = parted(rest * STEP, run);
    let (parts, _) = parted(rest * STEP, run);
    summed(halves, steps, parts)
}

/// Twice the vector from half of a border on the axis to a point.
fn from_border(p: Pt, border: i64) -> Wide
    requires p_in { InLimit p }
    requires from { (p.x +ℤ p.x) ≤ℤ border }
    requires to { border ≤ℤ pos (2 ^ 29) }
    ensures dx { result.dx ≡ (p.x +ℤ p.x) -ℤ border }
    ensures dy { result.dy ≡ p.y +ℤ p.y }
{
    Wide {
        dx: 2 * i64::from(p.x) - border,
        dy: 2 * i64::from(p.y),
    }
}

/// Twice the height of a line over half of a border, in parts, rounded down.
fn height_at(line: &Edge, border: i64) -> i128
    requires line_in { AreInLimit line.now.p line.now.q }
    requires from { (line.now.p.x +ℤ line.now.p.x) ≤ℤ border }
    requires to { border ≤ℤ (line.now.q.x +ℤ line.now.q.x) }
    requires apart { line.now.p.x <ℤ line.now.q.x }
    ensures { IsFloor (height line.now border) (line.now.q.x -ℤ line.now.p.x) result }
{
    let run = line.p.vector_to(line.q);
    let height = determinant(run, from_border(line.p, border));
    parts_of(height, run.dx)
}

/// Twice the x of the left border of a column.
fn left_of(low: i32) -> i64
    ensures { result ≡ (low +ℤ low) -ℤ pos 1 }
{
    2 * i64::from(low) - 1
}

/// Twice the x of the right border of a column.
fn right_of(high: i32) -> i64
    ensures { result ≡ (high +ℤ high) +ℤ pos 1 }
{
    2 * i64::from(high) + 1
}

/// The strand of a line.
pub(crate) fn strand_of(low: i32, high: i32, line: &Edge) -> Strand
    requires line_in { AreInLimit line.now.p line.now.q }
    requires through { RunsThrough low high line.now }
    requires apart { low ≤ℤ high }
    ensures { IsStrand low high line.now result }
{
    Strand {
        left: height_at(line, left_of(low)),
        right: height_at(line, right_of(high)),
    }
}

/// Whether a strand changes places with the last one of a list.
fn crosses_last(strands: &[Strand], strand: &Strand) -> bool {
    match strands.last() {
        None => false,
        Some(last) => !last.is_followed_by(strand) && !strand.is_followed_by(last),
    }
}

/// The strand of each line, unless two that follow each other change places.
fn strands<A: Allocator>(
    alloc: A,
    course: Course,
    low: i32,
    high: i32,
    lines: &[Line],
) -> Result<Option<Vec<Strand, A>>, NoMemory>
    requires through { All (λ l. RunsThroughSeen course low high l.edge) lines.now }
    requires apart { low ≤ℤ high }
    ensures { IfOk result (λ o. IfSome o (λ v. AreStrands course low high lines.now v.items)) }
{
    let mut list = Vec::new(alloc);
    for line in lines {
        let edge = seen(course, &line.edge);
        let strand = strand_of(low, high, &edge);
        if crosses_last(&list, &strand) {
            return Ok(None);
        }
        list.push(strand)?;
    }
    Ok(Some(list))
}

/// Whether each strand is followed by the next one.
fn ascend(strands: &[Strand]) -> bool
    ensures { IsTrue result → AllPairs IsFollowedBy strands.now }
{
    for k in 1..strands.len() {
        if !strands[k - 1].is_followed_by(&strands[k]) {
            return false;
        }
    }
    true
}

/// Whether lines run side by side between two borders.
fn run_side_by_side<A: Allocator>(
    alloc: A,
    course: Course,
    low: i32,
    high: i32,
    lines: &[Line],
) -> Result<bool, NoMemory>
    ensures { IfOk result (λ b. IsTrue b → HasNoHot course low high (edges_of lines.now)) }
{
    if high < low || !all_run_through(course, low, high, lines) {
        return Ok(false);
    }
    match strands(alloc, course, low, high, lines)? {
        None => Ok(false),
        Some(mut list) => {
            list.sort_unstable();
            Ok(ascend(&list))
        }
    }
}

/// Whether lines run side by side through the columns or the rows of a rectangle: then no pixel of it is hot for them.
pub fn is_bundle<A: Allocator + Copy>(
    alloc: A,
    rect: &Rect,
    lines: &[Line],
) -> Result<bool, NoMemory>
    requires { AreInLimit rect.now.lo rect.now.hi }
    ensures { IfOk result (λ b. IsTrue b → (c : Pt) → IsIn rect.now c → IsHotFor (edges_of lines.now) c → ⊥) }
{
    Ok(
        run_side_by_side(alloc, Course::Columns, rect.lo.x, rect.hi.x, lines)?
            || run_side_by_side(alloc, Course::Rows, rect.lo.y, rect.hi.y, lines)?,
    )
}
