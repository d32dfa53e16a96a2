//! The cells and their bins in parts.
//!
//! 1. The segments are parted, and the boxes and reaches of all parts are put together (`cells_in_parts`).
//! 2. The rows of the cells are parted: for each part all segments are gone over, and the bins of its own rows are kept (`bins_of_rows`),
//!    those of all parts at once. The bins of rows are put behind those of the rows before (`bins_in_parts`).
//! 3. Both are done in as many parts as the segments are worth (`cells_with_bins`).

ghost use Rattle.std.specs.Prelude.{◌^◌, ◌<◌, ◌≤◌, IfOk, length, slice_range};
ghost use Rattle.grid.specs.Tiles.{AreBounds, BoundsHold};
ghost use Rattle.linking.specs.Gathered.{HaveTiles};
ghost use Rattle.layers.specs.Segments.{AllInLimit};
ghost use Rattle.engine.specs.Rounds.{AreCellBins, AreCellRows};

use crate::cells::{Extent, bins_of, cells_within, extent_of};
use geom::{NoMemory, Seg};
use grid::{Grid, KeptBins, RowBins};
use hands::{Part, even_parts, map_parts, worth};
use std::alloc::Allocator;
use std::thread::Threads;

/// The cells for workers over segments that a grid covers, with the segments of each.
pub(crate) fn cells_with_bins<A: Allocator + Copy + Send + Sync, R: Threads + Sync>(
    rt: &R,
    alloc: A,
    grid: &Grid,
    workers: u32,
    segments: &[Seg],
) -> Result<(Grid, KeptBins<A>), NoMemory>
    requires in_limit { AllInLimit segments.now }
    requires covered { HaveTiles grid.now segments.now }
    ensures covered { IfOk result (λ cells. HaveTiles cells.0 segments.now) }
    ensures bins { IfOk result (λ cells. ∥ AreCellBins cells.0 segments.now cells.1 ∥₁) }
{
    let parts = worth::parts(workers, segments.len(), worth::SEGMENTS);
    let cells = cells_in_parts(rt, alloc, parts, grid, workers, segments)?;
    let bins = bins_in_parts(rt, alloc, parts, &cells, segments)?;
    Ok((cells, bins))
}

/// As `cells_of`, in at most so many parts.
fn cells_in_parts<A: Allocator + Copy + Send + Sync, R: Threads + Sync>(
    rt: &R,
    alloc: A,
    parts: usize,
    grid: &Grid,
    workers: u32,
    segments: &[Seg],
) -> Result<Grid, NoMemory>
    requires in_limit { AllInLimit segments.now }
    requires covered { HaveTiles grid.now segments.now }
    ensures { IfOk result (λ cells. HaveTiles cells segments.now) }
{
    let extent = extent_in_parts(rt, alloc, parts, segments)?;
    Ok(cells_within(grid, &extent, workers))
}

/// As `extent_of`, in at most so many parts.
fn extent_in_parts<A: Allocator + Copy + Send + Sync, R: Threads + Sync>(
    rt: &R,
    alloc: A,
    parts: usize,
    segments: &[Seg],
) -> Result<Extent, NoMemory>
    requires { AllInLimit segments.now }
    ensures in_limit { IfOk result (λ extent. AreBounds extent.bounds) }
    ensures holds { IfOk result (λ extent. BoundsHold extent.bounds segments.now) }
{
    let parts = even_parts(alloc, segments.len(), parts)?;
    let extents = map_parts(
        rt,
        alloc,
        &parts,
        |part: Part| -> Result<Extent, NoMemory>
            requires { (part.from ≤ part.past) × (part.past ≤ length segments.now) × AllInLimit segments.now }
            ensures { IfOk result (λ extent. AreBounds extent.bounds × BoundsHold extent.bounds (slice_range segments.entry.now part.from part.past)) }
        { Ok(extent_of(&segments[part.from..part.past])) },
    )?;
    let mut extent = Extent::of_none();
    for next in extents {
        extent = extent.and(next);
    }
    Ok(extent)
}

/// As `bins_of`, in at most so many parts.
fn bins_in_parts<A: Allocator + Copy + Send + Sync, R: Threads + Sync>(
    rt: &R,
    alloc: A,
    parts: usize,
    cells: &Grid,
    segments: &[Seg],
) -> Result<KeptBins<A>, NoMemory>
    requires { HaveTiles cells.now segments.now }
    ensures { IfOk result (λ bins. ∥ AreCellBins cells.now segments.now bins ∥₁) }
{
    let parts = even_parts(alloc, cells.rows() as usize, parts)?;
    let mut rows = map_parts(
        rt,
        alloc,
        &parts,
        |part: Part| -> Result<RowBins<A>, NoMemory>
            requires { HaveTiles cells.now segments.now × (part.from ≤ part.past) × (part.past ≤ cells.now.rows) × (cells.now.rows < 2 ^ 32) }
            ensures { IfOk result (λ bins. AreCellRows cells.entry.now part.from part.past segments.entry.now bins) }
        { bins_of_rows(alloc, cells, part.from as u32, part.past as u32, segments) },
    )?
    .into_iter();
    let Some(mut all) = rows.next() else {
        return bins_of(alloc, cells, segments);
    };
    for next in rows {
        all = all.joined(next)?;
    }
    Ok(KeptBins::of_rows(all))
}

/// The bins of the cells in the rows from one to below another.
fn bins_of_rows<A: Allocator + Copy>(
    alloc: A,
    cells: &Grid,
    from: u32,
    past: u32,
    segments: &[Seg],
) -> Result<RowBins<A>, NoMemory>
    requires covered { HaveTiles cells.now segments.now }
    requires order { from ≤ past }
    requires within { past ≤ cells.now.rows }
    ensures { IfOk result (λ bins. AreCellRows cells.now from past segments.now bins) }
{
    let mut bins = RowBins::new(alloc, cells, from, past)?;
    for segment in segments {
        bins.add(segment.bounds())?;
    }
    Ok(bins)
}
