//! How many hot pixels and how many records each tile of a grid has, wherever they were found.
//!
//! 1. Points are counted in the tiles that own them (`TileCounts`), of which most have the tile of the one before (`owner_of`): the pixels of
//!    records as these are linked, and the hot pixels (`count_by_tile`).
//! 2. Where several hands count, what they found is added tile by tile (`summed`).
//! 3. Both counts of a tile are its numbers (`paired`).

ghost use Rattle.std.specs.Prelude.{◌≡◌, ◌≢◌, ◌<◌, ◌≤◌, ◌++◌, All, AllPairs, IfOk, IfSome, List, OnOk, flat_map, get_or, length, map, replicate, slice_range, sum_by};
ghost use Rattle.geom.specs.declared.point.Pt.{Pt};
ghost use Rattle.grid.specs.Tiles.{HasTile, Owns, tile_count};
ghost use Rattle.linking.specs.Numbers.{ArePaired, AreTileCounts, CountsMore, HasOwned};
ghost use Rattle.linking.specs.Shares.{AreSums};

use crate::rounded::TileNumbers;
use crate::tile_piece::{TilePiece, Tiled};
use geom::{NoMemory, Pt, Rect};
use grid::Grid;
use hands::{Part, even_parts, map_parts};
use std::alloc::Allocator;
use std::thread::Threads;

/// A tile, and the rectangle of the points that it owns.
#[derive(Clone, Copy, Debug)]
struct OwnedRect {
    tile: u32,
    rect: Rect,
}

/// The tile that owns a point, with its rectangle, where that of another point is at hand.
#[inline(always)]
fn owner_of(grid: &Grid, last: Option<OwnedRect>, point: Pt) -> OwnedRect
    requires tile { HasTile grid.now point }
    requires last { IfSome last (HasOwned grid.now) }
    ensures owner { Owns grid.now result.tile point }
    ensures owned { HasOwned grid.now result }
{
    if let Some(owned) = last {
        if owned.rect.holds(point) {
            return owned;
        }
    }
    let tile = grid.tile_of(point);
    OwnedRect {
        tile,
        rect: grid.rect(tile),
    }
}

/// How many of the items so far each tile has, and the tile of the last one.
#[derive(Drop)]
pub(crate) struct TileCounts<A: Allocator> {
    counts: Vec<u32, A>,
    last: Option<OwnedRect>,
}

impl<A: Allocator> TileCounts<A> {
    /// The counts of no items.
    pub fn none(alloc: A, grid: &Grid) -> Result<TileCounts<A>, NoMemory>
        ensures counts { IfOk result (λ c. c.counts.items ≡ replicate (tile_count grid.now) 0) }
        ensures last { IfOk result (λ c. IfSome c.last (HasOwned grid.now)) }
    {
        Ok(TileCounts {
            counts: vec![in alloc; 0u32; grid.tiles() as usize]?,
            last: None,
        })
    }

    /// Counts an item at a point so many times. More than a `u32` counts are refused as want of memory.
    #[inline(always)]
    pub fn add(&mut self, grid: &Grid, point: Pt, times: u32) -> Result<(), NoMemory>
        requires tile { HasTile grid.now point }
        requires size { length self.now.counts.items ≡ tile_count grid.now }
        requires last { IfSome self.now.last (HasOwned grid.now) }
        ensures counted { OnOk result (CountsMore grid.now point times self.old.counts.items self.new.counts.items) }
        ensures last { OnOk result (IfSome self.new.last (HasOwned grid.now)) }
    {
        let owned = owner_of(grid, self.last, point);
        self.last = Some(owned);
        let tile = owned.tile as usize;
        let Some(count) = self.counts[tile].checked_add(times) else {
            return Err(NoMemory);
        };
        self.counts[tile] = count;
        Ok(())
    }

    /// How many each tile has.
    pub fn into_counts(self) -> Vec<u32, A>
        ensures { result.items ≡ self.counts.items }
    {
        let TileCounts { counts, .. } = self;
        counts
    }
}

/// Counts each of some hot pixels once. More than a `u32` counts are refused as want of memory.
fn count_pixels<A: Allocator>(
    counts: &mut TileCounts<A>,
    grid: &Grid,
    pixels: &[Pt],
) -> Result<(), NoMemory>
    requires tiles { All (λ p. HasTile grid.now p) pixels.now }
    requires size { length counts.old.counts.items ≡ tile_count grid.now }
    requires last { IfSome counts.old.last (HasOwned grid.now) }
    ensures counted { OnOk result ((done : List Pt) → AllPairs (λ p q. p ≢ q) (done ++ pixels.now)
        → AreTileCounts grid.now (λ p. p) (λ p. 1) done counts.old.counts.items → AreTileCounts grid.now (λ p. p) (λ p. 1) (done ++ pixels.now) counts.new.counts.items) }
    ensures size { OnOk result (length counts.new.counts.items ≡ tile_count grid.now) }
    ensures last { OnOk result (IfSome counts.new.last (HasOwned grid.now)) }
{
    for pixel in pixels {
        counts.add(grid, *pixel, 1)?;
    }
    Ok(())
}

/// How many of the hot pixels of pieces each tile has. More than a `u32` counts are refused as want of memory.
pub(crate) fn count_by_tile<T: Tiled, A: Allocator>(
    alloc: A,
    grid: &Grid,
    pieces: &[TilePiece<T, A>],
) -> Result<Vec<u32, A>, NoMemory>
    requires tiles { All (λ p. HasTile grid.now p) (flat_map (λ p. p.pixels.items) pieces.now) }
    requires once { AllPairs (λ p q. p ≢ q) (flat_map (λ p. p.pixels.items) pieces.now) }
    ensures { IfOk result (λ v. AreTileCounts grid.now (λ p. p) (λ p. 1) (flat_map (λ p. p.pixels.items) pieces.now) v.items) }
{
    let mut counts = TileCounts::none(alloc, grid)?;
    for piece in pieces {
        count_pixels(&mut counts, grid, &piece.pixels)?;
    }
    Ok(counts.into_counts())
}

/// The sum of the counts that lists have of a tile. More than a `u32` counts are refused as want of memory.
fn sum_at<A: Allocator>(lists: &[Vec<u32, A>], tile: usize) -> Result<u32, NoMemory>
    requires { All (λ l. tile < length l.items) lists.now }
    ensures { IfOk result (λ n. n ≡ sum_by (λ l. get_or l.items tile 0) lists.now) }
{
    let mut sum = 0u32;
    for list in lists {
        let Some(more) = sum.checked_add(list[tile]) else {
            return Err(NoMemory);
        };
        sum = more;
    }
    Ok(sum)
}

/// The sums of the counts that lists have of so many tiles. More than a `u32` counts are refused as want of memory.
pub(crate) fn summed<A: Allocator + Copy>(
    alloc: A,
    tiles: usize,
    lists: &[Vec<u32, A>],
) -> Result<Vec<u32, A>, NoMemory>
    requires { All (λ l. length l.items ≡ tiles) lists.now }
    ensures { IfOk result (λ v. AreSums tiles (map (λ l. l.items) lists.now) v.items) }
{
    let mut sums = Vec::with_capacity(alloc, tiles)?;
    for tile in 0..tiles {
        sums.push(sum_at(lists, tile)?)?;
    }
    Ok(sums)
}

/// How many of the hot pixels of pieces each tile has, counted in so many even parts of the pieces. More than a `u32` counts are refused
/// as want of memory.
pub(crate) fn hot_in_parts<T: Tiled + Sync, A: Allocator + Copy + Send + Sync, R: Threads + Sync>(
    rt: &R,
    alloc: A,
    parts: usize,
    grid: &Grid,
    pieces: &[TilePiece<T, A>],
) -> Result<Vec<u32, A>, NoMemory>
    requires tiles { All (λ p. HasTile grid.now p) (flat_map (λ p. p.pixels.items) pieces.now) }
    requires once { AllPairs (λ p q. p ≢ q) (flat_map (λ p. p.pixels.items) pieces.now) }
    ensures { IfOk result (λ v. AreTileCounts grid.now (λ p. p) (λ p. 1) (flat_map (λ p. p.pixels.items) pieces.now) v.items) }
{
    let cuts = even_parts(alloc, pieces.len(), parts)?;
    let lists = map_parts(
        rt,
        alloc,
        &cuts,
        |part: Part| -> Result<Vec<u32, A>, NoMemory>
            requires { (part.from ≤ part.past) × (part.past ≤ length pieces.now) × All (λ p. HasTile grid.now p) (flat_map (λ p. p.pixels.items) pieces.now) × AllPairs (λ p q. p ≢ q) (flat_map (λ p. p.pixels.items) pieces.now) }
            ensures { IfOk result (λ v. AreTileCounts grid.entry.now (λ p. p) (λ p. 1) (flat_map (λ p. p.pixels.items) (slice_range pieces.entry.now part.from part.past)) v.items) }
        { count_by_tile(alloc, grid, &pieces[part.from..part.past]) },
    )?;
    summed(alloc, grid.tiles() as usize, &lists)
}

/// Two counts of each tile.
pub(crate) fn paired<A: Allocator>(
    alloc: A,
    hot: &[u32],
    records: &[u32],
) -> Result<Vec<TileNumbers, A>, NoMemory>
    requires { length hot.now ≡ length records.now }
    ensures { IfOk result (λ v. ArePaired hot.now records.now v.items) }
{
    let mut tiles = Vec::with_capacity(alloc, hot.len())?;
    for tile in 0..hot.len() {
        tiles.push(TileNumbers {
            hot: hot[tile],
            records: records[tile],
        })?;
    }
    Ok(tiles)
}
