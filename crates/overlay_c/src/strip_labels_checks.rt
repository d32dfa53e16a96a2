//! The edges of a strip from outside are tested for its labels: the first one that isn't as it should be, or doesn't stand behind the one before it.

ghost use Rattle.std.specs.Prelude.{◌≡◌, ◌<ℤ◌, MatchBool, MatchOption};
ghost use Rattle.geom.specs.Limit.{AreInLimit};
ghost use Rattle.strips_law.specs.Strips.{strip_at};
ghost use Rattle.overlay_c.specs.Strips.{AnyOrder, AreInPlace, IsCountedBefore, IsFirstBad, counted_end, counted_start};
ghost use Rattle.overlay_c.specs.StripLabels.{BeginsLeft, ComesIn, CrossesInto, IsLimited, IsOwn};

use crate::search::first_bad;
use crate::strip_checks::{is_counted_before, is_ordered};
use crate::strip_items::OverlayCounted;
use strips_law::strip_at;

// ---- edges that have labels

/// Whether the ends of an edge are within the limit.
fn is_in_limit(item: OverlayCounted) -> bool
    ensures { MatchBool result (AreInLimit (counted_start item) (counted_end item)) (¬ (AreInLimit (counted_start item) (counted_end item))) }
{
    item.start().is_in_limit() && item.end().is_in_limit()
}

/// Whether an edge has its lesser end first, and is within the limit.
fn is_limited(item: OverlayCounted) -> bool
    ensures { MatchBool result (IsLimited item) (¬ (IsLimited item)) }
{
    is_ordered(item) && is_in_limit(item)
}

/// The place of the first edge that isn't in place.
pub fn bad_limited(items: &[OverlayCounted]) -> Option<usize>
    ensures { MatchOption result (AreInPlace IsLimited IsCountedBefore items.now) (λ place. IsFirstBad IsLimited IsCountedBefore items.now place) }
{
    first_bad(items, is_limited, is_counted_before)
}

/// Whether an edge begins on the left of another one.
fn is_left(item: OverlayCounted, other: OverlayCounted) -> bool
    ensures { MatchBool result (item.px <ℤ other.px) (¬ (item.px <ℤ other.px)) }
{
    item.px < other.px
}

/// Whether an edge begins on the left of a strip's own ones.
fn begins_left(own: &[OverlayCounted], item: OverlayCounted) -> bool
    requires { AreInPlace IsLimited IsCountedBefore own.now }
    ensures { MatchBool result (BeginsLeft own.now item) (¬ (BeginsLeft own.now item)) }
{
    own.is_empty() || is_left(item, own[0])
}

/// The place of the first edge that comes into a strip and doesn't begin on the left of its own ones.
pub fn late(own: &[OverlayCounted], crossing: &[OverlayCounted]) -> Option<usize>
    requires { AreInPlace IsLimited IsCountedBefore own.now }
    ensures { MatchOption result (AreInPlace (BeginsLeft own.now) AnyOrder crossing.now) (λ place. IsFirstBad (BeginsLeft own.now) AnyOrder crossing.now place) }
{
    first_bad(crossing, |item| begins_left(own, item), |_, _| true)
}

// ---- edges that come into a strip

/// Whether the lesser end lies on the left of a strip, and the greater one doesn't.
fn crosses_into(cuts: &[i32], strip: usize, item: OverlayCounted) -> bool
    ensures { MatchBool result (CrossesInto cuts.now strip item) (¬ (CrossesInto cuts.now strip item)) }
{
    strip_at(cuts, item.start()) < strip && strip <= strip_at(cuts, item.end())
}

/// Whether an edge does, and has its lesser end first.
fn comes_in(cuts: &[i32], strip: usize, item: OverlayCounted) -> bool
    ensures { MatchBool result (ComesIn cuts.now strip item) (¬ (ComesIn cuts.now strip item)) }
{
    is_ordered(item) && crosses_into(cuts, strip, item)
}

/// The place of the first edge that isn't in place.
pub fn bad_crossing(cuts: &[i32], strip: usize, items: &[OverlayCounted]) -> Option<usize>
    ensures { MatchOption result (AreInPlace (ComesIn cuts.now strip) IsCountedBefore items.now) (λ place. IsFirstBad (ComesIn cuts.now strip) IsCountedBefore items.now place) }
{
    first_bad(items, |item| comes_in(cuts, strip, item), is_counted_before)
}

// ---- a strip's own edges

/// Whether the lesser end lies in a strip.
fn begins_in(cuts: &[i32], strip: usize, item: OverlayCounted) -> bool
    ensures { MatchBool result (strip_at cuts.now (counted_start item) ≡ strip) (¬ (strip_at cuts.now (counted_start item) ≡ strip)) }
{
    strip_at(cuts, item.start()) == strip
}

/// Whether it does, and stands first.
fn is_own(cuts: &[i32], strip: usize, item: OverlayCounted) -> bool
    ensures { MatchBool result (IsOwn cuts.now strip item) (¬ (IsOwn cuts.now strip item)) }
{
    is_ordered(item) && begins_in(cuts, strip, item)
}

/// The place of the first edge that isn't in place.
pub fn bad_own(cuts: &[i32], strip: usize, items: &[OverlayCounted]) -> Option<usize>
    ensures { MatchOption result (AreInPlace (IsOwn cuts.now strip) IsCountedBefore items.now) (λ place. IsFirstBad (IsOwn cuts.now strip) IsCountedBefore items.now place) }
{
    first_bad(items, |item| is_own(cuts, strip, item), is_counted_before)
}
