//! The directed edges that a range of strips knows are tested: the first one that isn't as it should be, or doesn't stand behind the one before it.

ghost use Rattle.std.specs.Prelude.{MatchBool, MatchOption};
ghost use Rattle.parts_law.specs.Ties.{HasColumn};
ghost use Rattle.overlay_c.specs.Polygons.{IsDirectedItemBefore};
ghost use Rattle.overlay_c.specs.StripClosed.{AreStrips, IsKnownItem};
ghost use Rattle.overlay_c.specs.Strips.{AreInPlace, IsFirstBad};

use crate::polygons_checks::{directed_edge, is_directed_before, is_proper};
use crate::search::first_bad;
use crate::strip_items::OverlayDirected;
use geom::{DirectedEdge, Edge};
use strips_law::strip_at;

/// Whether there are strips from one to before another one.
pub fn are_strips(cuts: &[i32], first: usize, past: usize) -> bool
    ensures { MatchBool result (AreStrips cuts.now first past) (¬ (AreStrips cuts.now first past)) }
{
    first < past && past <= cuts.len() + 1
}

/// Whether an edge has a column of them.
fn has_column(cuts: &[i32], first: usize, past: usize, edge: DirectedEdge) -> bool
    ensures { MatchBool result (HasColumn cuts.now first past edge) (¬ (HasColumn cuts.now first past edge)) }
{
    match Edge::between(edge.from, edge.to) {
        Some(along) => strip_at(cuts, along.p) < past && first <= strip_at(cuts, along.q),
        None => false,
    }
}

/// Whether an edge is one that they may know.
fn is_known(cuts: &[i32], first: usize, past: usize, item: OverlayDirected) -> bool
    ensures { MatchBool result (IsKnownItem cuts.now first past item) (¬ (IsKnownItem cuts.now first past item)) }
{
    is_proper(item) && has_column(cuts, first, past, directed_edge(item))
}

/// The place of the first edge that isn't in place.
pub fn bad_known(
    cuts: &[i32],
    first: usize,
    past: usize,
    items: &[OverlayDirected],
) -> Option<usize>
    ensures { MatchOption result (AreInPlace (IsKnownItem cuts.now first past) IsDirectedItemBefore items.now) (λ place. IsFirstBad (IsKnownItem cuts.now first past) IsDirectedItemBefore items.now place) }
{
    first_bad(
        items,
        |item| is_known(cuts, first, past, item),
        is_directed_before,
    )
}
