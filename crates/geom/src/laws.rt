//! What the definitions mean, as contracts of functions that do nothing.

ghost use Rattle.std.specs.Prelude.{◌≡◌};
ghost use Rattle.std.specs.Ordering.{MatchOrdering};
ghost use Rattle.geom.specs.Order.{IsBefore};
ghost use Rattle.geom.specs.EdgeOrder.{IsEdgeBefore};
ghost use Rattle.geom.specs.Laws.{CrossingHasNoDirection, CrossingIsSymmetric, MetPixelsAreInBounds, OrderIsAlongSegment, PixelIsNearest, PixelOfAnyFraction, PixelOfGridPoint, RouteIsOne, RouteRunsFromEndToEnd};

use crate::edge::Edge;
use crate::point::Pt;

/// A point has one pixel, the nearest point of the grid with halves to the right and upward, however its coordinates
/// are written.
pub fn pixel_is_nearest()
    ensures nearest { PixelIsNearest }
    ensures of_any_fraction { PixelOfAnyFraction }
    ensures of_grid_point { PixelOfGridPoint }
{}

/// Every pixel that a segment meets lies in the closed box of its ends.
pub fn met_pixels_are_in_bounds()
    ensures { MetPixelsAreInBounds }
{}

/// Order by column, then by row, in the directions of a segment, is order along it.
pub fn order_is_along_segment()
    ensures { OrderIsAlongSegment }
{}

/// A segment has at most one route, and it runs from the segment's first end to its second.
pub fn route_is_one()
    ensures one { RouteIsOne }
    ensures from_end_to_end { RouteRunsFromEndToEnd }
{}

/// Two segments cross in the same pixel when they are exchanged or one is turned round.
pub fn crossing_has_no_order()
    ensures symmetric { CrossingIsSymmetric }
    ensures no_direction { CrossingHasNoDirection }
{}

/// The order that points and edges are compared by is that of the definitions.
pub fn comparisons_are_the_order()
    ensures points { (p q : Pt) → MatchOrdering (⟦<Pt as Ord>⟧.cmp p q) (IsBefore p q) (p ≡ q) (IsBefore q p) }
    ensures edges { (e f : Edge) → MatchOrdering (⟦<Edge as Ord>⟧.cmp e f) (IsEdgeBefore e f) (e ≡ f) (IsEdgeBefore f e) }
{}
