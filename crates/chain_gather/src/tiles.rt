//! Gathering the pieces of all tiles.

ghost use Rattle.std.specs.Prelude.{◌≡◌, ◌+◌, ◌<◌, ◌≤◌, ◌++◌, ◌∷◌, [], All, IfOk, OnOk, length};
ghost use Rattle.geom.specs.Limit.{AreInLimit};
ghost use Rattle.geom.specs.Noded.{IsNoded};
ghost use Rattle.geom.specs.declared.segment.Source.{Source};
ghost use Rattle.geom.specs.Rounded.{AreRounded, HasEvenDegrees, edges_of, odd_edges};
ghost use Rattle.geom.specs.Segments.{AreClosed};
ghost use Rattle.grid.specs.Tiles.{tile_count, Owns};
ghost use Rattle.hot_region.specs.Candidates.{AreCandidates};
ghost use Rattle.routing.specs.Pieces.{candidates_of};
ghost use Rattle.linking.specs.Gathered.{AreTileNumbers, HaveTiles};
ghost use Rattle.chain_gather.specs.Gathered.{AreBinsOf, AreGathered, AreTileCandidates, HoldsOwn, IsCountBelow};

use crate::own::own_piece;
use geom::{NoMemory, Seg};
use grid::{Grid, MOST_CELLS};
use linking::{Rounded, TileNumbers, rounded_by_records};
use routing::{Piece, Record, piece};
use std::alloc::Allocator;
use tile_book::{Book, Limited};
use tiling::Bins;

/// What was gathered from some tiles: their records, their numbers, and how many of their pieces were made anew.
#[derive(Drop)]
pub(crate) struct Gathering<A: Allocator> {
    pub records: Vec<Record, A>,
    pub tiles: Vec<TileNumbers, A>,
    pub remade: u32,
}

impl<A: Allocator> Gathering<A> {
    /// Adds a tile's records and numbers. More records than a `u32` counts are refused as want of memory.
    fn add(&mut self, pixels: u32, records: &[Record]) -> Result<(), NoMemory>
        ensures records { OnOk result (self.new.records.items ≡ self.old.records.items ++ records.now) }
        ensures tiles { OnOk result (self.new.tiles.items ≡ self.old.tiles.items ++ (record { hot = pixels; records = length records.now }) ∷ []) }
        ensures remade { self.new.remade ≡ self.old.remade }
    {
        if records.len() > u32::MAX as usize {
            return Err(NoMemory);
        }
        self.records.extend_from_slice(records)?;
        self.tiles.push(TileNumbers {
            hot: pixels,
            records: records.len() as u32,
        })?;
        Ok(())
    }

    /// Adds a tile whose piece was made anew.
    fn add_anew(&mut self, made: &Piece<A>) -> Result<(), NoMemory>
        requires { self.old.remade < MOST_CELLS }
        ensures records { OnOk result (self.new.records.items ≡ self.old.records.items ++ made.now.records.items) }
        ensures tiles { OnOk result (self.new.tiles.items ≡ self.old.tiles.items ++ (record { hot = made.now.hot; records = length made.now.records.items }) ∷ []) }
        ensures remade { OnOk result (self.new.remade ≡ self.old.remade + 1) }
    {
        self.add(made.hot, &made.records)?;
        self.remade += 1;
        Ok(())
    }
}

/// Adds a tile: by the book's piece, or where that is missing or was made from something else, by a new one. The numbers are
/// those of the segments near the tile.
fn add_tile<L: Limited, A: Allocator + Copy>(
    alloc: A,
    found: &mut Gathering<A>,
    book: &Book<Piece<A>, L, A>,
    grid: &Grid,
    tile: u32,
    segments: &[Seg],
    numbers: &[u32],
) -> Result<(), NoMemory>
    requires tile { tile < tile_count grid.now }
    requires limits { All (λ s. AreInLimit s.a s.b) segments.now }
    requires candidates { AreCandidates (Owns grid.now tile) segments.now numbers.now }
    requires near { AreTileCandidates grid.now segments.now tile (candidates_of segments.now numbers.now) }
    requires few { tile < MOST_CELLS }
    requires before { AreGathered grid.now segments.now book.now.held tile found.old.records.items found.old.tiles.items found.old.remade }
    ensures { OnOk result (AreGathered grid.now segments.now book.now.held (tile + 1) found.new.records.items found.new.tiles.items found.new.remade) }
{
    if let Some(held) = own_piece(book, grid, tile, segments, numbers) {
        return found.add(held.hot, &held.records);
    }
    let made = piece(alloc, grid, tile, segments, numbers)?;
    found.add_anew(&made)
}

/// All tiles, in the order of their numbers.
fn all_tiles<L: Limited, A: Allocator + Copy>(
    alloc: A,
    book: &Book<Piece<A>, L, A>,
    grid: &Grid,
    bins: &Bins<A>,
    segments: &[Seg],
) -> Result<Gathering<A>, NoMemory>
    requires limits { All (λ s. AreInLimit s.a s.b) segments.now }
    requires bins { AreBinsOf grid.now segments.now bins.now }
    ensures { IfOk result (λ f. AreGathered grid.now segments.now book.now.held (tile_count grid.now) f.records.items f.tiles.items f.remade) }
{
    let mut found = Gathering {
        records: Vec::new(alloc),
        tiles: Vec::new(alloc),
        remade: 0,
    };
    let mut numbers = Vec::new(alloc);
    for tile in 0..grid.tiles() {
        bins.bin(tile, &mut numbers)?;
        add_tile(alloc, &mut found, book, grid, tile, segments, &numbers)?;
    }
    Ok(found)
}

/// The rounded edges of the segments, ascending with their counts, and each tile's numbers. Where the segments of a layer
/// close, every point is an end of an even number of the edges that its count has odd. A piece of the book counts where
/// its own input is what its tile has now; a missing or strange one is made anew, and `remade` says how many were. More
/// records than a `u32` counts are refused as want of memory.
pub fn gather<L: Limited, A: Allocator + Copy>(
    alloc: A,
    book: Book<Piece<A>, L, A>,
    grid: &Grid,
    bins: &Bins<A>,
    segments: &[Seg],
) -> Result<Rounded<A>, NoMemory>
    requires limits { All (λ s. AreInLimit s.a s.b) segments.now }
    requires covered { HaveTiles grid.now segments.now }
    requires bins { AreBinsOf grid.now segments.now bins.now }
    ensures rounded { IfOk result (λ r. ∥ AreRounded segments.now r.edges.items ∥₁) }
    ensures noded { IfOk result (λ r. IsNoded (edges_of r.edges.items)) }
    ensures even { IfOk result (λ r. (layer : Source) → AreClosed layer segments.now → HasEvenDegrees (odd_edges layer r.edges.items)) }
    ensures tiles { IfOk result (λ r. AreTileNumbers grid.now segments.now (tile_count grid.now) r.tiles.items) }
    ensures few { IfOk result (λ r. r.remade ≤ tile_count grid.now) }
    ensures remade { IfOk result (λ r. IsCountBelow (tile_count grid.now) (λ k. ¬ (HoldsOwn grid.now segments.now book.held k)) r.remade) }
{
    let Gathering {
        records,
        tiles,
        remade,
    } = all_tiles(alloc, &book, grid, bins, segments)?;
    drop(book);
    rounded_by_records(alloc, segments, records, tiles, remade)
}
