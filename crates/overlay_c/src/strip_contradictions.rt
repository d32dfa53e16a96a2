//! Lists from outside that contradict each other.

ghost use Rattle.std.specs.Prelude.{◌≡◌, MatchBool, MatchOption};
ghost use Rattle.overlay_c.specs.Strips.{AnyOrder, AreInPlace, IsCarried, IsCarriedBefore, IsCounted, IsCountedBefore, IsFirstBad, IsFirstDifference, IsKnown, IsOther, carried_numbers, counted_end, counted_start, open_numbers};

use crate::search::first_bad;
use crate::strip_checks::is_counted_before;
use crate::strip_items::{OverlayCarried, OverlayCounted, OverlayOpen};

/// The first place at which lines that cross a border and what is carried over it have no common number.
pub fn differing(right: &[OverlayOpen], carried: &[OverlayCarried]) -> Option<usize>
    ensures { MatchOption result (open_numbers right.now ≡ carried_numbers carried.now) (λ place. IsFirstDifference (open_numbers right.now) (carried_numbers carried.now) place) }
{
    let common = right.len().min(carried.len());
    for place in 0..common {
        if right[place].number != carried[place].number {
            return Some(place);
        }
    }
    if right.len() == carried.len() {
        None
    } else {
        Some(common)
    }
}

/// Whether a pixel is carried for a line, where it has none.
fn is_known(carried: &[OverlayCarried], item: OverlayOpen) -> bool
    requires { AreInPlace IsCarried IsCarriedBefore carried.now }
    ensures { MatchBool result (IsKnown carried.now item) (¬ (IsKnown carried.now item)) }
{
    if item.has_pixel != 0 {
        return true;
    }
    let place = carried.partition_point(|c| c.number < item.number);
    place < carried.len() && carried[place].number == item.number
}

/// The place of the first line that has no pixel and for which none is carried.
pub fn lost(carried: &[OverlayCarried], left: &[OverlayOpen]) -> Option<usize>
    requires { AreInPlace IsCarried IsCarriedBefore carried.now }
    ensures { MatchOption result (AreInPlace (IsKnown carried.now) AnyOrder left.now) (λ place. IsFirstBad (IsKnown carried.now) AnyOrder left.now place) }
{
    first_bad(left, |item| is_known(carried, item), |_, _| true)
}

/// Whether two edges have the same ends.
fn has_same_ends(item: OverlayCounted, other: OverlayCounted) -> bool
    ensures { MatchBool result ((counted_start item ≡ counted_start other) × (counted_end item ≡ counted_end other)) (¬ ((counted_start item ≡ counted_start other) × (counted_end item ≡ counted_end other))) }
{
    item.start() == other.start() && item.end() == other.end()
}

/// Whether no edge of a list has the ends of this one.
fn is_other(edges: &[OverlayCounted], item: OverlayCounted) -> bool
    requires { AreInPlace IsCounted IsCountedBefore edges.now }
    ensures { MatchBool result (IsOther edges.now item) (¬ (IsOther edges.now item)) }
{
    let place = edges.partition_point(|c| is_counted_before(*c, item));
    place == edges.len() || !has_same_ends(edges[place], item)
}

/// The place of the first edge that another list has too.
pub fn common(edges: &[OverlayCounted], others: &[OverlayCounted]) -> Option<usize>
    requires { AreInPlace IsCounted IsCountedBefore edges.now }
    ensures { MatchOption result (AreInPlace (IsOther edges.now) AnyOrder others.now) (λ place. IsFirstBad (IsOther edges.now) AnyOrder others.now place) }
{
    first_bad(others, |item| is_other(edges, item), |_, _| true)
}
