//! The cells that the workers draw: a grid of its own over the box of all segments, whatever the plan's tiles are.
//!
//! 1. The box of all segments (`bounds_of`), and how far they reach (`reach_of`).
//! 2. From the greatest side on the cells are halved while that is worth it: where the workers have too few, or where few
//!    segments come to lie in several (`side_over`). Where they would lie in more than 17 on average, they aren't, for any number
//!    of workers; and if that is so at the greatest side there is but one cell (`grid_of`). So the bins stay in proportion to
//!    the segments, whatever these are.
//! 3. Each segment goes to the cells that its box meets (`bins_of`).
//! 4. The calling thread alone takes one cell for few segments, and needs no bins for one (`cells_alone`; `alone: one_piece`).

ghost use Rattle.std.specs.Prelude.{◌≡◌, ◌++◌, IfOk, List, None, Some};
ghost use Rattle.geom.specs.declared.segment.Seg.{Seg};
ghost use Rattle.grid.specs.Tiles.{AreBounds, BoundsHold, CoversBounds, IsSide};
ghost use Rattle.linking.specs.Gathered.{HaveTiles};
ghost use Rattle.layers.specs.Segments.{AllInLimit};
ghost use Rattle.engine.specs.Rounds.{AreCellBins};

use geom::{NoMemory, Rect, Seg};
use grid::{GREATEST_SIDE, Grid, KeptBins, LEAST_SIDE, MOST_CELLS};
use hot_region::FEW;
use layers::joint_bounds;
use std::alloc::Allocator;

/// How many cells a worker has at least, where that is cheap.
const CELLS: u64 = 4;

/// How many segments are worth a cell.
const SEGMENTS: u64 = 16;

/// How many more times than once the segments may lie in cells on average.
const DOUBLES: u128 = 16;

/// The same, where it is worth it only that the workers have several cells each: one may hold nearly all that is to be found.
const DOUBLES_FOR_SHARES: u128 = 6;

/// The powers of two that are a side: 2^25 is the greatest and 2^4 the least.
const HALVINGS: u32 = 21;

/// How far segments reach: the widths and heights of their boxes, and the areas of these, added up.
#[derive(Clone, Copy)]
pub(crate) struct Reach {
    count: u64,
    lengths: u128,
    areas: u128,
}

impl Reach {
    /// How far these segments and others reach.
    pub(crate) fn and(self, others: Reach) -> Reach {
        Reach {
            count: self.count.saturating_add(others.count),
            lengths: self.lengths.saturating_add(others.lengths),
            areas: self.areas.saturating_add(others.areas),
        }
    }
}

/// The box of segments, or none where there are none, and how far they reach.
#[derive(Clone, Copy)]
pub(crate) struct Extent {
    pub bounds: Option<Rect>,
    pub reach: Reach,
}

impl Extent {
    /// That of no segments.
    pub(crate) fn of_none() -> Extent
        ensures { result.bounds ≡ None }
    {
        Extent {
            bounds: None,
            reach: reach_of(&[]),
        }
    }

    /// That of these segments and others.
    pub(crate) fn and(self, others: Extent) -> Extent
        ensures in_limit { AreBounds self.bounds → AreBounds others.bounds → AreBounds result.bounds }
        ensures holds { (front back : List Seg) → BoundsHold self.bounds front → BoundsHold others.bounds back → BoundsHold result.bounds (front ++ back) }
    {
        Extent {
            bounds: joint_bounds(self.bounds, others.bounds),
            reach: self.reach.and(others.reach),
        }
    }
}

/// The cells for workers over segments that a grid covers.
pub(crate) fn cells_of(grid: &Grid, workers: u32, segments: &[Seg]) -> Grid
    requires in_limit { AllInLimit segments.now }
    requires covered { HaveTiles grid.now segments.now }
    ensures { HaveTiles result segments.now }
{
    cells_within(grid, &extent_of(segments), workers)
}

/// The same, over the extent of segments.
pub(crate) fn cells_within(grid: &Grid, extent: &Extent, workers: u32) -> Grid
    requires { AreBounds extent.now.bounds }
    ensures { (segments : List Seg) → BoundsHold extent.now.bounds segments → HaveTiles grid.now segments → HaveTiles result segments }
{
    match extent.bounds {
        Some(bounds) => grid_of(bounds, &extent.reach, workers),
        None => *grid,
    }
}

/// The cells for the calling thread alone: one, where segments are so few that all pairs of their lines are crossed.
pub(crate) fn cells_alone(grid: &Grid, segments: &[Seg]) -> Grid
    requires in_limit { AllInLimit segments.now }
    requires covered { HaveTiles grid.now segments.now }
    ensures { HaveTiles result segments.now }
{
    if segments.len() > FEW {
        return cells_of(grid, 1, segments);
    }
    match bounds_of(segments) {
        Some(bounds) => one_cell(bounds),
        None => *grid,
    }
}

/// One cell over a box, and no wider than that where it has a side.
fn one_cell(bounds: Rect) -> Grid
    requires { AreBounds (Some bounds) }
    ensures { CoversBounds (Some bounds) result }
{
    let width = bounds.lo.x.abs_diff(bounds.hi.x);
    let height = bounds.lo.y.abs_diff(bounds.hi.y);
    let side = width.max(height).saturating_add(1);
    if side > GREATEST_SIDE {
        return Grid::one_tile(bounds);
    }
    Grid::of_cells(bounds, side.max(LEAST_SIDE))
}

/// The box of segments and how far they reach.
pub(crate) fn extent_of(segments: &[Seg]) -> Extent
    requires { AllInLimit segments.now }
    ensures in_limit { AreBounds result.bounds }
    ensures holds { BoundsHold result.bounds segments.now }
{
    Extent {
        bounds: bounds_of(segments),
        reach: reach_of(segments),
    }
}

/// The cells over a box for workers: one, where segments that reach so far lie in too many of any other side.
fn grid_of(bounds: Rect, reach: &Reach, workers: u32) -> Grid
    requires { AreBounds (Some bounds) }
    ensures { CoversBounds (Some bounds) result }
{
    if lie_in_many(reach, GREATEST_SIDE) {
        return Grid::one_tile(bounds);
    }
    Grid::of_cells(bounds, side_over(&bounds, reach, workers))
}

/// The segments of each cell, by their boxes.
pub(crate) fn bins_of<A: Allocator + Copy>(
    alloc: A,
    cells: &Grid,
    segments: &[Seg],
) -> Result<KeptBins<A>, NoMemory>
    requires { HaveTiles cells.now segments.now }
    ensures { IfOk result (λ bins. ∥ AreCellBins cells.now segments.now bins ∥₁) }
{
    let mut bins = KeptBins::new(alloc, cells)?;
    for segment in segments {
        bins.add(segment.bounds())?;
    }
    Ok(bins)
}

/// The least box of all segments, or none where there are none.
fn bounds_of(segments: &[Seg]) -> Option<Rect>
    requires { AllInLimit segments.now }
    ensures in_limit { AreBounds result }
    ensures holds { BoundsHold result segments.now }
{
    if segments.is_empty() {
        return None;
    }
    let mut bounds = segments[0].bounds();
    for segment in segments {
        bounds = bounds.with(segment.a).with(segment.b);
    }
    Some(bounds)
}

/// How far segments reach.
fn reach_of(segments: &[Seg]) -> Reach {
    let mut reach = Reach {
        count: segments.len() as u64,
        lengths: 0,
        areas: 0,
    };
    for segment in segments {
        let width = u64::from(segment.a.x.abs_diff(segment.b.x));
        let height = u64::from(segment.a.y.abs_diff(segment.b.y));
        reach.lengths = reach.lengths.saturating_add(u128::from(width + height));
        reach.areas = reach
            .areas
            .saturating_add(u128::from(width.saturating_mul(height)));
    }
    reach
}

/// The side of the cells over a box, a power of two: as fine as is worth it.
fn side_over(bounds: &Rect, reach: &Reach, workers: u32) -> u32
    ensures { IsSide result }
{
    let mut side = GREATEST_SIDE;
    for _halving in 0..HALVINGS {
        if LEAST_SIDE <= side / 2 && is_worth(bounds, reach, workers, side) {
            side /= 2;
        }
    }
    side
}

/// How many cells of this side there are over a box.
fn cells_over(bounds: &Rect, side: u32) -> u64 {
    let across = bounds.lo.x.abs_diff(bounds.hi.x) / side.max(1);
    let up = bounds.lo.y.abs_diff(bounds.hi.y) / side.max(1);
    (u64::from(across) + 1).saturating_mul(u64::from(up) + 1)
}

/// How many more times than once the segments lie in cells of this side, about.
fn doubles_over(reach: &Reach, side: u32) -> u128 {
    let side = u128::from(side.max(1));
    (reach.lengths / side).saturating_add(reach.areas / side / side)
}

/// How many cells so many segments are worth at most.
fn most_cells(segments: u64) -> u64 {
    (segments / SEGMENTS).min(u64::from(MOST_CELLS))
}

/// Whether the segments lie in too many cells of this side for any number of workers.
fn lie_in_many(reach: &Reach, side: u32) -> bool {
    doubles_over(reach, side) > DOUBLES * u128::from(reach.count)
}

/// Whether cells of half this side are worth it: where there are fewer cells than workers, and a segment lies in 17 cells on
/// average at most; where the workers have few, and it lies in seven at most; and where it lies in two at most, and the cells are
/// few for the segments.
fn is_worth(bounds: &Rect, reach: &Reach, workers: u32, side: u32) -> bool {
    let workers = u64::from(workers);
    let cells = cells_over(bounds, side);
    let finer = cells_over(bounds, side / 2);
    let doubles = doubles_over(reach, side / 2);
    let count = u128::from(reach.count);
    cells < workers && !lie_in_many(reach, side / 2)
        || cells < CELLS * workers && doubles <= DOUBLES_FOR_SHARES * count
        || finer <= most_cells(reach.count) && doubles <= count
}
