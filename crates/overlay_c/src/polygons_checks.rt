//! Directed edges from outside are tested: the first one that isn't as it should be, or doesn't stand behind the one before it.

ghost use Rattle.std.specs.Prelude.{◌≡◌, MatchBool, MatchOption};
ghost use Rattle.overlay_c.specs.Polygons.{AreDirectedItems, IsDirectedItem, IsDirectedItemBefore, directed_edge};
ghost use Rattle.overlay_c.specs.Strips.{IsFirstBad};

use crate::search::first_bad;
use crate::strip_checks::is_before;
use crate::strip_items::OverlayDirected;
use geom::{DirectedEdge, Pt};

/// The edge that C sees so.
pub fn directed_edge(item: OverlayDirected) -> DirectedEdge
    ensures { result ≡ directed_edge item }
{
    DirectedEdge {
        from: Pt {
            x: item.ax,
            y: item.ay,
        },
        to: Pt {
            x: item.bx,
            y: item.by,
        },
    }
}

/// Whether an edge is less than another one.
pub fn is_directed_before(item: OverlayDirected, other: OverlayDirected) -> bool
    ensures { MatchBool result (IsDirectedItemBefore item other) (¬ (IsDirectedItemBefore item other)) }
{
    let (d, e) = (directed_edge(item), directed_edge(other));
    is_before(d.from, e.from) || (d.from == e.from && is_before(d.to, e.to))
}

/// Whether an edge is within the limit, and no point alone.
pub fn is_proper(item: OverlayDirected) -> bool
    ensures { MatchBool result (IsDirectedItem item) (¬ (IsDirectedItem item)) }
{
    let d = directed_edge(item);
    d.from.is_in_limit() && d.to.is_in_limit() && d.from != d.to
}

/// The place of the first edge that isn't in place.
pub fn bad_directed(items: &[OverlayDirected]) -> Option<usize>
    ensures { MatchOption result (AreDirectedItems items.now) (λ place. IsFirstBad IsDirectedItem IsDirectedItemBefore items.now place) }
{
    first_bad(items, is_proper, is_directed_before)
}
