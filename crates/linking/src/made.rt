//! Gathering the pieces of all cells.

ghost use Rattle.std.specs.Prelude.{◌≡◌, ◌<◌, ◌^◌, IfOk, flat_map, length};
ghost use Rattle.geom.specs.Noded.{IsNoded};
ghost use Rattle.geom.specs.declared.segment.Source.{Source};
ghost use Rattle.geom.specs.Rounded.{AreRounded, HasEvenDegrees, edges_of, odd_edges};
ghost use Rattle.geom.specs.Segments.{AreClosed};
ghost use Rattle.grid.specs.Tiles.{tile_count};
ghost use Rattle.distinct.specs.Copies.{AreCopiesRounded, all_copies};
ghost use Rattle.linking.specs.Gathered.{AreTileNumbersBy, HaveTiles};
ghost use Rattle.linking.specs.Links.{AreRouteLinks, HasRecords};
ghost use Rattle.tile_book.specs.Books.{StandInOrder};

use crate::counting::{counts, counts_in_order, counts_in_parts};
use crate::link::MakesLinks;
use crate::linked::{AllLinked, Linked, in_order, link_in_parts, link_share};
use crate::neighbours::links;
use crate::numbers::{count_by_tile, hot_in_parts, paired};
use crate::ordered::{InOrder, Ordered};
use crate::rounded::{Rounded, TileNumbers};
use crate::shares::item_count;
use crate::span::Share;
use crate::tile_piece::{TilePiece, Tiled};
use distinct::Copies;
use geom::{Counted, NoMemory, Seg};
use grid::Grid;
use routing::Record;
use std::alloc::Allocator;
use std::thread::Threads;

/// The links of all routes, in lists, each in order, and each tile's numbers.
#[derive(Drop)]
pub(crate) struct LinkedPieces<L: Ordered + Copy, A: Allocator> {
    pub links: Vec<InOrder<L, A>, A>,
    pub tiles: Vec<TileNumbers, A>,
}

/// The links of all routes in one list, and each tile's numbers.
#[derive(Drop)]
pub(crate) struct LinkedAlone<L: Ordered + Copy, A: Allocator> {
    pub links: InOrder<L, A>,
    pub tiles: Vec<TileNumbers, A>,
}

/// The rounded edges of segments, of the records of all their routes, in any order and as often as they come, with numbers of
/// tiles as they are told. More records than a `u32` counts are refused as want of memory.
pub fn rounded_by_records<A: Allocator + Copy>(
    alloc: A,
    segments: &[Seg],
    records: Vec<Record, A>,
    tiles: Vec<TileNumbers, A>,
    remade: u32,
) -> Result<Rounded<A>, NoMemory>
    requires { ∥ HasRecords segments.now records.items ∥₁ }
    ensures rounded { IfOk result (λ r. ∥ AreRounded segments.now r.edges.items ∥₁) }
    ensures noded { IfOk result (λ r. IsNoded (edges_of r.edges.items)) }
    ensures even { IfOk result (λ r. (layer : Source) → AreClosed layer segments.now → HasEvenDegrees (odd_edges layer r.edges.items)) }
    ensures tiles { IfOk result (λ r. r.tiles.items ≡ tiles.items) }
    ensures remade { IfOk result (λ r. r.remade ≡ remade) }
{
    let records = in_order(records);
    let list = links(alloc, segments, &records)?;
    drop(records);
    let edges = counts(alloc, list)?;
    Ok(rounded_of(segments, edges, tiles, remade))
}

/// The rounded edges of segments, each as often as it has copies, ascending with their counts, and each tile's numbers, of the pieces of
/// all cells in their order, which are known to be those of the segments over these cells: nothing is binned, compared or made anew. The
/// cells needn't be the tiles of the grid, whose numbers are counted from what the pieces have. More records than a `u32` counts are
/// refused as want of memory.
pub fn gather_made<T: Tiled, A: Allocator + Copy>(
    alloc: A,
    pieces: Vec<TilePiece<T, A>, A>,
    remade: u32,
    cells: &Grid,
    grid: &Grid,
    segments: &[Seg],
    copies: &[Copies],
) -> Result<Rounded<A>, NoMemory>
    requires cells { cells.now ≡ T.grid }
    requires segments { segments.now ≡ T.segments }
    requires covered_by_cells { HaveTiles cells.now segments.now }
    requires covered { HaveTiles grid.now segments.now }
    requires one_each { length pieces.items ≡ tile_count cells.now }
    requires in_order { StandInOrder (λ p. p.number) pieces.items }
    requires copies { length copies.now ≡ length segments.now }
    ensures rounded { IfOk result (λ r. ∥ AreCopiesRounded segments.now copies.now r.edges.items ∥₁) }
    ensures tiles { IfOk result (λ r. AreTileNumbersBy all_copies grid.now segments.now copies.now (tile_count grid.now) r.tiles.items) }
    ensures remade { IfOk result (λ r. r.remade ≡ remade) }
{
    let found = link_alone(alloc, pieces, cells, grid, segments, copies)?;
    let LinkedAlone { links, tiles } = found;
    let edges = counts_in_order(alloc, &links)?;
    Ok(rounded_of_copies(segments, copies, edges, tiles, remade))
}

/// As `gather_made`, in at most so many parts, each in a thread of its own.
pub fn gather_made_in_parts<T: Tiled + Sync, A: Allocator + Copy + Send + Sync, R: Threads + Sync>(
    rt: &R,
    alloc: A,
    parts: usize,
    pieces: Vec<TilePiece<T, A>, A>,
    remade: u32,
    cells: &Grid,
    grid: &Grid,
    segments: &[Seg],
    copies: &[Copies],
) -> Result<Rounded<A>, NoMemory>
    requires cells { cells.now ≡ T.grid }
    requires segments { segments.now ≡ T.segments }
    requires covered_by_cells { HaveTiles cells.now segments.now }
    requires covered { HaveTiles grid.now segments.now }
    requires one_each { length pieces.items ≡ tile_count cells.now }
    requires in_order { StandInOrder (λ p. p.number) pieces.items }
    requires copies { length copies.now ≡ length segments.now }
    ensures rounded { IfOk result (λ r. ∥ AreCopiesRounded segments.now copies.now r.edges.items ∥₁) }
    ensures tiles { IfOk result (λ r. AreTileNumbersBy all_copies grid.now segments.now copies.now (tile_count grid.now) r.tiles.items) }
    ensures remade { IfOk result (λ r. r.remade ≡ remade) }
{
    let found = link_pieces(rt, alloc, parts, pieces, cells, grid, segments, copies)?;
    let LinkedPieces { links, tiles } = found;
    let edges = counts_in_parts(rt, alloc, parts, links)?;
    Ok(rounded_of_copies(segments, copies, edges, tiles, remade))
}

/// The links of the pieces of all cells, made by what stands for the segments, and each tile's numbers, in at most so many parts.
pub(crate) fn link_pieces<
    M: MakesLinks<L> + Sync,
    L: Ordered + Copy + Send + Sync,
    T: Tiled + Sync,
    A: Allocator + Copy + Send + Sync,
    R: Threads + Sync,
>(
    rt: &R,
    alloc: A,
    parts: usize,
    pieces: Vec<TilePiece<T, A>, A>,
    cells: &Grid,
    grid: &Grid,
    segments: &[Seg],
    makers: &[M],
) -> Result<LinkedPieces<L, A>, NoMemory>
    requires cells { cells.now ≡ T.grid }
    requires segments { segments.now ≡ T.segments }
    requires covered_by_cells { HaveTiles cells.now segments.now }
    requires covered { HaveTiles grid.now segments.now }
    requires one_each { length pieces.items ≡ tile_count cells.now }
    requires in_order { StandInOrder (λ p. p.number) pieces.items }
    requires one_for_each { length makers.now ≡ length segments.now }
    ensures links { IfOk result (λ r. ∥ AreRouteLinks M.link_of segments.now makers.now (flat_map (λ l. l.items.items) r.links.items) ∥₁) }
    ensures tiles { IfOk result (λ r. AreTileNumbersBy M.times_of grid.now segments.now makers.now (tile_count grid.now) r.tiles.items) }
{
    let found = link_in_parts(rt, alloc, parts, grid, &pieces, segments, makers)?;
    let AllLinked { links, records } = found;
    let hot = hot_in_parts(rt, alloc, parts, grid, &pieces)?;
    drop(pieces);
    let tiles = paired(alloc, &hot, &records)?;
    Ok(LinkedPieces { links, tiles })
}

/// As `link_pieces`, by the calling thread.
pub(crate) fn link_alone<M: MakesLinks<L>, L: Ordered + Copy, T: Tiled, A: Allocator + Copy>(
    alloc: A,
    pieces: Vec<TilePiece<T, A>, A>,
    cells: &Grid,
    grid: &Grid,
    segments: &[Seg],
    makers: &[M],
) -> Result<LinkedAlone<L, A>, NoMemory>
    requires cells { cells.now ≡ T.grid }
    requires segments { segments.now ≡ T.segments }
    requires covered_by_cells { HaveTiles cells.now segments.now }
    requires covered { HaveTiles grid.now segments.now }
    requires one_each { length pieces.items ≡ tile_count cells.now }
    requires in_order { StandInOrder (λ p. p.number) pieces.items }
    requires one_for_each { length makers.now ≡ length segments.now }
    ensures links { IfOk result (λ r. ∥ AreRouteLinks M.link_of segments.now makers.now r.links.items.items ∥₁) }
    ensures short { IfOk result (λ r. length r.links.items.items < 2 ^ 32) }
    ensures tiles { IfOk result (λ r. AreTileNumbersBy M.times_of grid.now segments.now makers.now (tile_count grid.now) r.tiles.items) }
{
    let whole = Share::whole(item_count(&pieces));
    let linked = link_share(alloc, grid, &pieces, segments, makers, whole)?;
    let Linked { links, records } = linked;
    let hot = count_by_tile(alloc, grid, &pieces)?;
    drop(pieces);
    let tiles = paired(alloc, &hot, &records)?;
    Ok(LinkedAlone { links, tiles })
}

/// What was gathered, by the rounded edges of segments.
fn rounded_of<A: Allocator>(
    segments: &[Seg],
    edges: Vec<Counted, A>,
    tiles: Vec<TileNumbers, A>,
    remade: u32,
) -> Rounded<A>
    requires { ∥ AreRounded segments.now edges.items ∥₁ }
    ensures rounded { ∥ AreRounded segments.now result.edges.items ∥₁ }
    ensures noded { IsNoded (edges_of result.edges.items) }
    ensures even { (layer : Source) → AreClosed layer segments.now → HasEvenDegrees (odd_edges layer result.edges.items) }
    ensures tiles { result.tiles.items ≡ tiles.items }
    ensures remade { result.remade ≡ remade }
{
    Rounded {
        edges,
        tiles,
        remade,
    }
}

/// What was gathered, by the rounded edges of segments with copies.
fn rounded_of_copies<A: Allocator>(
    segments: &[Seg],
    copies: &[Copies],
    edges: Vec<Counted, A>,
    tiles: Vec<TileNumbers, A>,
    remade: u32,
) -> Rounded<A>
    requires { ∥ AreCopiesRounded segments.now copies.now edges.items ∥₁ }
    ensures edges { result.edges.items ≡ edges.items }
    ensures tiles { result.tiles.items ≡ tiles.items }
    ensures remade { result.remade ≡ remade }
{
    Rounded {
        edges,
        tiles,
        remade,
    }
}
