//! The tiles in which edges are tested.

ghost use Rattle.std.specs.Prelude.{All};
ghost use Rattle.geom.specs.Limit.{AreInLimit};
ghost use Rattle.grid.specs.Tiles.{AreBounds, IsSide};
ghost use Rattle.noding_test.specs.Passes.{BoundsHoldEdges, EdgesHaveTiles};
ghost use Rattle.std.specs.Prelude.{Some};

use geom::{Edge, Rect};
use grid::{GREATEST_SIDE, Grid, LEAST_SIDE, MOST_TILES};

/// How many edges are worth a tile.
const EDGES: u64 = 256;

/// How often the least side, 16, can be doubled up to the greatest, 33,554,432.
const DOUBLINGS: u32 = 21;

/// How far edges reach: the widths and heights of their boxes, and the areas of these, added up.
#[derive(Clone, Copy)]
struct Reach {
    count: u64,
    lengths: u128,
    areas: u128,
}

/// The least box of edges, or none where there are none.
pub(crate) fn bounds_of(edges: &[Edge]) -> Option<Rect>
    requires { All (λ e. AreInLimit e.p e.q) edges.now }
    ensures in_limit { AreBounds result }
    ensures holds { BoundsHoldEdges result edges.now }
{
    if edges.is_empty() {
        return None;
    }
    let mut bounds = edges[0].bounds();
    for edge in edges {
        bounds = bounds.with(edge.p).with(edge.q);
    }
    Some(bounds)
}

/// A grid over the box of edges.
pub(crate) fn grid_over(bounds: Rect, edges: &[Edge]) -> Grid
    requires in_limit { AreBounds (Some bounds) }
    requires holds { BoundsHoldEdges (Some bounds) edges.now }
    ensures { EdgesHaveTiles result edges.now }
{
    Grid::of_cells(bounds, side_over(&bounds, &reach_of(edges)))
}

/// How far edges reach.
fn reach_of(edges: &[Edge]) -> Reach {
    let mut reach = Reach {
        count: edges.len() as u64,
        lengths: 0,
        areas: 0,
    };
    for edge in edges {
        let width = u64::from(edge.p.x.abs_diff(edge.q.x));
        let height = u64::from(edge.p.y.abs_diff(edge.q.y));
        reach.lengths = reach.lengths.saturating_add(u128::from(width + height));
        reach.areas = reach
            .areas
            .saturating_add(u128::from(width.saturating_mul(height)));
    }
    reach
}

/// The side of tiles over a box, a power of two: the least one that isn't too fine for edges that reach so far.
fn side_over(bounds: &Rect, reach: &Reach) -> u32
    ensures { IsSide result }
{
    let mut side = LEAST_SIDE;
    for _doubling in 0..DOUBLINGS {
        if side <= GREATEST_SIDE / 2 && is_too_fine(bounds, reach, side) {
            side *= 2;
        }
    }
    side
}

/// Whether there are too many tiles of this side for the edges, or the edges lie in more than two tiles on average.
fn is_too_fine(bounds: &Rect, reach: &Reach, side: u32) -> bool {
    let most = (reach.count / EDGES).min(u64::from(MOST_TILES));
    tiles_over(bounds, side) > most || doubles_over(reach, side) > u128::from(reach.count)
}

/// How many tiles of this side there are over a box.
fn tiles_over(bounds: &Rect, side: u32) -> u64 {
    let across = bounds.lo.x.abs_diff(bounds.hi.x) / side.max(1);
    let up = bounds.lo.y.abs_diff(bounds.hi.y) / side.max(1);
    (u64::from(across) + 1).saturating_mul(u64::from(up) + 1)
}

/// How many more times than once the edges lie in tiles of this side, about.
fn doubles_over(reach: &Reach, side: u32) -> u128 {
    let side = u128::from(side.max(1));
    (reach.lengths / side).saturating_add(reach.areas / side / side)
}
