//! Lists from outside are tested: the first item that isn't as it should be, or doesn't stand behind the one before it.

ghost use Rattle.std.specs.Prelude.{◌≡◌, MatchBool, MatchOption};
ghost use Rattle.geom.specs.Limit.{AreInLimit};
ghost use Rattle.geom.specs.Order.{IsBefore};
ghost use Rattle.overlay_c.specs.Strips.{AreInPlace, IsCarried, IsCarriedBefore, IsCounted, IsCountedBefore, IsCut, IsCutBefore, IsFirstBad, IsLine, IsLineBefore, IsOpen, IsOpenBefore, IsStripLine, IsWithinStrip, line_end, line_start};

use crate::search::first_bad;
use crate::strip_items::{OverlayCarried, OverlayCounted, OverlayLine, OverlayOpen};
use geom::Pt;
use strips_law::strip_at;

/// Whether a point is less than another one.
pub fn is_before(p: Pt, q: Pt) -> bool
    ensures { MatchBool result (IsBefore p q) (¬ (IsBefore p q)) }
{
    p.x < q.x || (p.x == q.x && p.y < q.y)
}

/// The place of the first cut that is less than the one before it.
pub fn bad_cut(cuts: &[i32]) -> Option<usize>
    ensures { MatchOption result (AreInPlace IsCut IsCutBefore cuts.now) (λ place. IsFirstBad IsCut IsCutBefore cuts.now place) }
{
    first_bad(cuts, |_| true, |one, next| one <= next)
}

/// Whether a line is one of a layer, its lesser end first.
fn is_line(item: OverlayLine) -> bool
    ensures { MatchBool result (IsLine item) (¬ (IsLine item)) }
{
    item.layer < 2 && is_before(item.start(), item.end())
}

/// Whether a line is within the limit.
fn is_in_limit(item: OverlayLine) -> bool
    ensures { MatchBool result (AreInLimit (line_start item) (line_end item)) (¬ (AreInLimit (line_start item) (line_end item))) }
{
    item.start().is_in_limit() && item.end().is_in_limit()
}

/// Whether a line has a column of a strip.
fn is_within(cuts: &[i32], strip: usize, item: OverlayLine) -> bool
    ensures { MatchBool result (IsWithinStrip cuts.now strip item) (¬ (IsWithinStrip cuts.now strip item)) }
{
    strip_at(cuts, item.start()) <= strip && strip <= strip_at(cuts, item.end())
}

/// Whether a line is one of a strip.
fn is_strip_line(cuts: &[i32], strip: usize, item: OverlayLine) -> bool
    ensures { MatchBool result (IsStripLine cuts.now strip item) (¬ (IsStripLine cuts.now strip item)) }
{
    is_line(item) && is_in_limit(item) && is_within(cuts, strip, item)
}

/// The place of the first line that isn't in place.
pub fn bad_line(cuts: &[i32], strip: usize, items: &[OverlayLine]) -> Option<usize>
    ensures { MatchOption result (AreInPlace (IsStripLine cuts.now strip) IsLineBefore items.now) (λ place. IsFirstBad (IsStripLine cuts.now strip) IsLineBefore items.now place) }
{
    first_bad(
        items,
        |item| is_strip_line(cuts, strip, item),
        |one, next| one.number < next.number,
    )
}

/// Whether an open line is as it should be.
fn is_open(item: OverlayOpen) -> bool
    ensures { MatchBool result (IsOpen item) (¬ (IsOpen item)) }
{
    item.layer < 2 && item.has_pixel < 2 && (item.has_pixel == 1 || (item.x == 0 && item.y == 0))
}

/// The place of the first open line that isn't in place.
pub fn bad_open(items: &[OverlayOpen]) -> Option<usize>
    ensures { MatchOption result (AreInPlace IsOpen IsOpenBefore items.now) (λ place. IsFirstBad IsOpen IsOpenBefore items.now place) }
{
    first_bad(items, is_open, |one, next| one.number < next.number)
}

/// The place of the first carried line that isn't in place.
pub fn bad_carried(items: &[OverlayCarried]) -> Option<usize>
    ensures { MatchOption result (AreInPlace IsCarried IsCarriedBefore items.now) (λ place. IsFirstBad IsCarried IsCarriedBefore items.now place) }
{
    first_bad(items, |_| true, |one, next| one.number < next.number)
}

/// Whether an edge is less than another one.
pub fn is_counted_before(item: OverlayCounted, other: OverlayCounted) -> bool
    ensures { MatchBool result (IsCountedBefore item other) (¬ (IsCountedBefore item other)) }
{
    is_before(item.start(), other.start())
        || (item.px == other.px && item.py == other.py && is_before(item.end(), other.end()))
}

/// Whether an edge has its lesser end first.
pub fn is_ordered(item: OverlayCounted) -> bool
    ensures { MatchBool result (IsCounted item) (¬ (IsCounted item)) }
{
    is_before(item.start(), item.end())
}

/// The place of the first edge that isn't in place.
pub fn bad_counted(items: &[OverlayCounted]) -> Option<usize>
    ensures { MatchOption result (AreInPlace IsCounted IsCountedBefore items.now) (λ place. IsFirstBad IsCounted IsCountedBefore items.now place) }
{
    first_bad(items, is_ordered, is_counted_before)
}
