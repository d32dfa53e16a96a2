//! The records of a strip: which of its hot pixels each of its lines meets.

ghost use Rattle.std.specs.Prelude.{◌≡◌, ◌↔◌, ◌<◌, ◌≤◌, ◌^◌, ◌≤ℤ◌, ℕ, ℤ, All, AllPairs, IfOk, MatchOption, Some, get_or, length};
ghost use Rattle.geom.specs.declared.point.Pt.{Pt};
ghost use Rattle.geom.specs.Limit.{AreInLimit};
ghost use Rattle.grid.specs.Tiles.{AreBounds, BoundsHold};
ghost use Rattle.hot_region.specs.Rects.{IsIn};
ghost use Rattle.strips_law.specs.Strips.{IsInStrip, segments_of, strip_at, strip_of};
ghost use Rattle.phases.specs.Records.{AreRecordsIn};

use crate::lines::cut_at;
use geom::{NoMemory, Pt, Rect, Seg};
use routing::{LimitedSegments, Part, Record, add_ends, found_in};
use std::alloc::Allocator;
use strips_law::Line;

/// The segments of lines.
pub(crate) fn segments_of<A: Allocator>(alloc: A, lines: &[Line]) -> Result<Vec<Seg, A>, NoMemory>
    ensures { IfOk result (λ v. v.items ≡ segments_of lines.now) }
{
    let mut segments = Vec::with_capacity(alloc, lines.len())?;
    for line in lines {
        segments.push(line.segment)?;
    }
    Ok(segments)
}

/// A box of all segments: the least one, or that of the origin where there are none.
fn box_of(segments: &[Seg]) -> Rect
    requires { All (λ s. AreInLimit s.a s.b) segments.now }
    ensures in_limit { AreBounds (Some result) }
    ensures holds { BoundsHold (Some result) segments.now }
{
    let origin = Pt { x: 0, y: 0 };
    let Some(first) = segments.first() else {
        return Rect::spanned_by(origin, origin);
    };
    let mut bounds = first.bounds();
    for s in segments {
        bounds = bounds.with(s.a).with(s.b);
    }
    bounds
}

/// The first column of a box in a strip or behind it.
fn first_column(cuts: &[i32], strip: usize, bounds: &Rect) -> i32
    requires ascending { AllPairs (λ c d. c ≤ℤ d) cuts.now }
    requires within { strip ≤ length cuts.now }
    ensures { (x : ℤ) → bounds.now.lo.x ≤ℤ x → (result ≤ℤ x) ↔ (strip ≤ strip_of cuts.now x) }
{
    if strip == 0 {
        return bounds.lo.x;
    }
    bounds.lo.x.max(cut_at(cuts, strip - 1))
}

/// The last column of a box in a strip or before it.
fn last_column(cuts: &[i32], strip: usize, bounds: &Rect) -> i32
    requires ascending { AllPairs (λ c d. c ≤ℤ d) cuts.now }
    requires within { strip ≤ length cuts.now }
    requires in_limit { AreBounds (Some bounds.now) }
    ensures { (x : ℤ) → bounds.now.lo.x ≤ℤ x → x ≤ℤ bounds.now.hi.x → (x ≤ℤ result) ↔ (strip_of cuts.now x ≤ strip) }
{
    if strip == cuts.len() {
        return bounds.hi.x;
    }
    let past = cut_at(cuts, strip).max(bounds.lo.x);
    bounds.hi.x.min(past - 1)
}

/// The part of a box in a strip, if it has a column there.
fn part_in(cuts: &[i32], strip: usize, bounds: Rect) -> Option<Rect>
    requires ascending { AllPairs (λ c d. c ≤ℤ d) cuts.now }
    requires within { strip ≤ length cuts.now }
    requires in_limit { AreBounds (Some bounds) }
    ensures { (c : Pt) → IsIn bounds c → MatchOption result (strip_at cuts.now c ≡ strip → ⊥) (λ part. IsIn part c ↔ (strip_at cuts.now c ≡ strip)) }
{
    let left = first_column(cuts, strip, &bounds);
    let right = last_column(cuts, strip, &bounds);
    if left > right {
        return None;
    }
    Some(Rect {
        lo: Pt {
            x: left,
            y: bounds.lo.y,
        },
        hi: Pt {
            x: right,
            y: bounds.hi.y,
        },
    })
}

/// The records of segments in a rectangle, in order. More segments than a `u32` counts are refused as want of memory.
fn records_in<A: Allocator + Copy>(
    alloc: A,
    tile: &Rect,
    limited: LimitedSegments<'_>,
) -> Result<Vec<Record, A>, NoMemory>
    ensures { IfOk result (λ v. AreRecordsIn (IsIn tile.now) limited.entry.list.now v.items) }
{
    let numbers = limited.numbers(alloc)?;
    let Part {
        pixels,
        mut records,
    } = found_in(alloc, tile, limited, &numbers)?;
    drop(pixels);
    add_ends(&mut records, tile, limited, &numbers)?;
    records.sort_unstable();
    records.dedup();
    Ok(records)
}

/// The records of segments in a strip, in order. More segments than a `u32` counts are refused as want of memory.
pub(crate) fn strip_records<A: Allocator + Copy>(
    alloc: A,
    cuts: &[i32],
    strip: usize,
    segments: &[Seg],
) -> Result<Vec<Record, A>, NoMemory>
    requires ascending { AllPairs (λ c d. c ≤ℤ d) cuts.now }
    requires within { strip ≤ length cuts.now }
    requires limits { All (λ s. AreInLimit s.a s.b) segments.now }
    ensures { IfOk result (λ v. AreRecordsIn (IsInStrip cuts.now strip) segments.now v.items) }
{
    match part_in(cuts, strip, box_of(segments)) {
        None => Ok(Vec::new(alloc)),
        Some(tile) => records_in(alloc, &tile, LimitedSegments { list: segments }),
    }
}
