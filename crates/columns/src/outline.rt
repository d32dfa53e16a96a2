//! The outline of rings.
//!
//! A ring's segments are counted, and their box is that of its points where it has segments.

ghost use Rattle.std.specs.Prelude.{◌≡◌, if◌then◌else◌, ◌≤◌, ◌<◌, ◌+◌, ◌-◌, ◌++◌, ◌∷◌, [], IsTrue, List, filter, length, not, slice_range};
ghost use Rattle.geom.specs.Segments.{neighbours, same_point};
ghost use Rattle.geom.specs.declared.point.Pt.{Pt as PtOf};
ghost use Rattle.wkt.specs.Outlines.{IsOutline};
ghost use Rattle.columns.specs.Layout.{plain_ring, points_of};
ghost use Rattle.columns.specs.Reach.{IsBoxOfBoth, IsPointBox, IsSoundRing};

use crate::layout::Points;
use crate::points::are_same;
use geom::{Pt, Rect};
use wkt::Outline;

/// How many segments two neighbours have: one where they differ.
#[inline(always)]
fn step_count(from: Pt, to: Pt) -> usize
    ensures { result ≡ (if same_point from to then 0 else 1) }
{
    if are_same(from, to) { 0 } else { 1 }
}

/// How many neighbours among the points from one to another differ.
fn count_steps(points: &Points<'_>, from: usize, past: usize) -> usize
    requires order { from < past }
    requires inside { past ≤ length (points_of points.now) }
    ensures count { result ≡ length (filter (λ step. not (same_point step.0 step.1)) (neighbours (slice_range (points_of points.now) from past))) }
    ensures few { result + from < past }
{
    let mut count = 0;
    for end in from + 1..past {
        count += step_count(points.at(end - 1), points.at(end));
    }
    count
}

/// The box of the points from one to another.
fn box_of(points: &Points<'_>, from: usize, past: usize) -> Rect
    requires order { from < past }
    requires inside { past ≤ length (points_of points.now) }
    ensures { IsPointBox (slice_range (points_of points.now) from past) result }
{
    let first = points.at(from);
    let mut bounds = Rect::spanned_by(first, first);
    for number in from + 1..past {
        bounds = bounds.with(points.at(number));
    }
    bounds
}

/// The box of rings with this one, if they have any, and of one more.
fn box_of_both(before: Option<Rect>, bounds: Rect) -> Rect
    ensures { IsBoxOfBoth before bounds result }
{
    match before {
        Some(before) => before.with(bounds.lo).with(bounds.hi),
        None => bounds,
    }
}

/// The outline with one more ring, of the points from one to another.
pub(crate) fn with_ring(outline: Outline, points: &Points<'_>, from: usize, past: usize) -> Outline
    requires inside { past ≤ length (points_of points.now) }
    requires room { outline.segments + (past - from) ≤ 4_294_967_295 }
    requires sound { IsSoundRing (slice_range (points_of points.now) from past) }
    ensures outline { (rings : List (List PtOf)) → IsOutline rings outline → IsOutline (rings ++ plain_ring (slice_range (points_of points.now) from past) ∷ []) result }
    ensures few { result.segments ≤ outline.segments + (past - from) }
{
    let count = count_steps(points, from, past);
    if count == 0 {
        return outline;
    }
    let bounds = box_of(points, from, past);
    Outline {
        segments: outline.segments + count as u32,
        bounds: Some(box_of_both(outline.bounds, bounds)),
    }
}
