//! The rounded edges of two layers, or the borders of features, over the tiles of a grid and by many workers.
//!
//! 1. Of segments with the same ends one is kept, with its copies (`rounded_segments`); those of features are all kept.
//! 2. The segments of each cell are told (`cells_with_bins`).
//! 3. Workers make the pieces of the cells, each from its segments (`Pieces`, `fill`).
//! 4. These are gathered: edges with their counts in both layers (`by_cells`), or edges with the features whose border they are
//!    (`features_by_cells`).

ghost use Rattle.std.specs.Prelude.{◌≡◌, ◌+◌, ◌<◌, ◌≤◌, IfOk, length, map, sum_by};
ghost use Rattle.geom.specs.Rounded.{AreRounded};
ghost use Rattle.grid.specs.Tiles.{tile_count};
ghost use Rattle.distinct.specs.Copies.{AreCopiesRounded, all_copies};
ghost use Rattle.linking.specs.Gathered.{AreTileNumbers, AreTileNumbersBy, HaveTiles};
ghost use Rattle.engine.specs.FaceBorders.{AreRoundedBorders};
ghost use Rattle.layers.specs.Segments.{AllInLimit};
ghost use Rattle.tile_book.specs.Books.{KeepsHeld, StandInOrder};
ghost use Rattle.engine.specs.Rounds.{AreCellBins, IsRemade, TellsTiles};

use crate::cell_parts::cells_with_bins;
use distinct::{Copies, distinct_in_parts};
use geom::{NoMemory, Seg};
use grid::{Grid, KeptBins, MOST_TILES};
use hands::worth;
use linking::{
    LimitedSegments, Noded, Rounded, RoundedBorders, TileNumbers, TilePiece, Tiled,
    gather_borders_in_parts, gather_made_in_parts, settled,
};
use results::Report;
use routing::found_in;
use std::alloc::Allocator;
use std::marker::{Brand, PhantomData};
use std::sync::Wait;
use std::sync::ledger::Blank;
use std::thread::Threads;
use tile_book::{
    AllPieces, FilledBook, Gate, Job, Limited, MOST_HANDS, MOST_NUMBERS, Phase, complete, fill,
};

/// Makes the piece of each cell from the segments in its bin.
#[derive(Drop)]
pub(crate) struct Pieces<'a, T: Tiled, A: Allocator> {
    pub grid: &'a Grid,
    pub bins: &'a KeptBins<A>,
    pub limited: LimitedSegments<'a>,
    pub of: PhantomData<T>,
    ghost are_bins: { ∥ AreCellBins grid.now limited.list.now bins.now ∥₁ },
    ghost are_tiled: { (grid.now ≡ T.grid) × (limited.list.now ≡ T.segments) },
}

impl<'a, T: Tiled, A: Allocator> Pieces<'a, T, A> {
    /// Over cells with their bins, of segments, where the type of the pieces knows the cells and the segments.
    fn over(grid: &'a Grid, bins: &'a KeptBins<A>, limited: LimitedSegments<'a>) -> Pieces<'a, T, A>
        requires bins { ∥ AreCellBins grid.now limited.list.now bins.now ∥₁ }
        requires tiled { (grid.now ≡ T.grid) × (limited.list.now ≡ T.segments) }
        ensures { result.grid.now ≡ grid.now }
    {
        Pieces {
            grid,
            bins,
            limited,
            of: PhantomData,
        }
    }
}

impl<T: Tiled, A: Allocator + Copy> Job<A> for Pieces<'_, T, A> {
    type Piece = TilePiece<T, A>;

    ghost count = { λ p. tile_count p.grid.now };

    fn piece(&self, alloc: A, number: u32) -> Result<TilePiece<T, A>, NoMemory> {
        let numbers = self.bins.bin(number);
        let found = found_in(alloc, &self.grid.rect(number), self.limited, numbers)?;
        Ok(TilePiece::of_part(number, found))
    }
}

/// The rounded edges of segments, with the numbers of the tiles. The workers call the gate.
pub(crate) fn rounded_segments<
    A: Allocator + Copy + Send + Sync,
    G: Gate + Sync,
    R: Threads + Wait + Sync,
>(
    rt: &R,
    alloc: A,
    grid: &Grid,
    workers: u32,
    segments: Vec<Seg, A>,
    gate: &G,
) -> Result<Noded<A>, NoMemory>
    requires workers { (0 < workers) × (workers ≤ MOST_HANDS) }
    requires in_limit { AllInLimit segments.items }
    requires covered { HaveTiles grid.now segments.items }
    ensures rounded { IfOk result (λ n. ∥ AreRounded segments.items n.edges.items ∥₁) }
    ensures tiles { IfOk result (λ n. AreTileNumbers grid.now segments.items (tile_count grid.now) n.tiles.items) }
    ensures remade { IfOk result (λ n. IsRemade n.remade) }
{
    let parts = worth::parts(workers, segments.len(), worth::SEGMENTS);
    let kept = distinct_in_parts(rt, alloc, parts, segments)?;
    let rounded = rounded_copies(rt, alloc, grid, workers, &kept.segments, &kept.copies, gate)?;
    Ok(settled(rounded))
}

/// The rounded edges of segments with copies, with the numbers of the tiles. The workers call the gate.
fn rounded_copies<A: Allocator + Copy + Send + Sync, G: Gate + Sync, R: Threads + Wait + Sync>(
    rt: &R,
    alloc: A,
    grid: &Grid,
    workers: u32,
    segments: &[Seg],
    copies: &[Copies],
    gate: &G,
) -> Result<Rounded<A>, NoMemory>
    requires workers { (0 < workers) × (workers ≤ MOST_HANDS) }
    requires in_limit { AllInLimit segments.now }
    requires covered { HaveTiles grid.now segments.now }
    requires copies { length copies.now ≡ length segments.now }
    ensures rounded { IfOk result (λ r. ∥ AreCopiesRounded segments.now copies.now r.edges.items ∥₁) }
    ensures tiles { IfOk result (λ r. AreTileNumbersBy all_copies grid.now segments.now copies.now (tile_count grid.now) r.tiles.items) }
    ensures remade { IfOk result (λ r. IsRemade r.remade) }
{
    let (cells, bins) = cells_with_bins(rt, alloc, grid, workers, segments)?;
    let blank = Blank::new(u64::from(workers));
    let limited = LimitedSegments { list: segments };
    by_cells::<Brand, Brand, A, G, R>(
        rt, alloc, blank, grid, &cells, bins, workers, limited, copies, gate,
    )
}

/// The same: the workers make the pieces of the cells, which are gathered. A ledger of its own counts the pieces that are posted, and
/// their type knows the cells and the segments.
fn by_cells<
    L: Limited + Send + Sync,
    T: Tiled + Send + Sync,
    A: Allocator + Copy + Send + Sync,
    G: Gate + Sync,
    R: Threads + Wait + Sync,
>(
    rt: &R,
    alloc: A,
    blank: Blank,
    grid: &Grid,
    cells: &Grid,
    bins: KeptBins<A>,
    workers: u32,
    limited: LimitedSegments<'_>,
    copies: &[Copies],
    gate: &G,
) -> Result<Rounded<A>, NoMemory>
    requires name { blank.name ≡ L.name }
    requires parts { (blank.parts ≡ L.parts) × (blank.parts ≡ workers) }
    requires limit { tile_count cells.now ≡ L.limit }
    requires bins { ∥ AreCellBins cells.now limited.list.now bins ∥₁ }
    requires tiled { (cells.now ≡ T.grid) × (limited.list.now ≡ T.segments) }
    requires workers { (0 < workers) × (workers ≤ MOST_HANDS) }
    requires covered_by_cells { HaveTiles cells.now limited.list.now }
    requires covered { HaveTiles grid.now limited.list.now }
    requires copies { length copies.now ≡ length limited.list.now }
    ensures rounded { IfOk result (λ r. ∥ AreCopiesRounded limited.entry.list.now copies.now r.edges.items ∥₁) }
    ensures tiles { IfOk result (λ r. AreTileNumbersBy all_copies grid.now limited.entry.list.now copies.now (tile_count grid.now) r.tiles.items) }
    ensures remade { IfOk result (λ r. IsRemade r.remade) }
{
    let job = Pieces::<T, A>::over(cells, &bins, limited);
    let filled: FilledBook<TilePiece<T, A>, L, A> = fill(
        rt,
        alloc,
        blank,
        cells.tiles(),
        workers,
        &job,
        Phase::Route,
        gate,
    )?;
    gathered_copies(
        rt, alloc, filled, grid, cells, bins, workers, limited, copies,
    )
}

/// The rounded edges of the pieces that the workers have made. Those that came back are made again, and no other one: their number is
/// `remade`.
fn gathered_copies<
    L: Limited,
    T: Tiled + Sync,
    A: Allocator + Copy + Send + Sync,
    R: Threads + Sync,
>(
    rt: &R,
    alloc: A,
    filled: FilledBook<TilePiece<T, A>, L, A>,
    grid: &Grid,
    cells: &Grid,
    bins: KeptBins<A>,
    workers: u32,
    limited: LimitedSegments<'_>,
    copies: &[Copies],
) -> Result<Rounded<A>, NoMemory>
    requires limit { filled.book.limit ≡ tile_count cells.now }
    requires few { filled.book.limit ≤ MOST_NUMBERS }
    requires counted { length filled.book.accepted + filled.returned ≡ filled.book.limit }
    requires bins { ∥ AreCellBins cells.now limited.list.now bins ∥₁ }
    requires tiled { (cells.now ≡ T.grid) × (limited.list.now ≡ T.segments) }
    requires covered_by_cells { HaveTiles cells.now limited.list.now }
    requires covered { HaveTiles grid.now limited.list.now }
    requires copies { length copies.now ≡ length limited.list.now }
    ensures rounded { IfOk result (λ r. ∥ AreCopiesRounded limited.entry.list.now copies.now r.edges.items ∥₁) }
    ensures tiles { IfOk result (λ r. AreTileNumbersBy all_copies grid.now limited.entry.list.now copies.now (tile_count grid.now) r.tiles.items) }
    ensures remade { IfOk result (λ r. r.remade ≡ filled.returned) }
{
    let segments = limited.list;
    let job = Pieces::<T, A>::over(cells, &bins, limited);
    let AllPieces { pieces, remade } = whole_pass(alloc, &job, filled)?;
    drop(bins);
    let parts = gathering_parts(workers, &pieces, segments);
    gather_made_in_parts(
        rt, alloc, parts, pieces, remade, cells, grid, segments, copies,
    )
}

/// The rounded edges that are the border of some feature, with the numbers of the tiles: owners are the features of the segments. The
/// workers call the gate.
pub(crate) fn rounded_features<
    A: Allocator + Copy + Send + Sync,
    G: Gate + Sync,
    R: Threads + Wait + Sync,
>(
    rt: &R,
    alloc: A,
    grid: &Grid,
    workers: u32,
    segments: &[Seg],
    owners: &[u32],
    gate: &G,
) -> Result<RoundedBorders<A>, NoMemory>
    requires workers { (0 < workers) × (workers ≤ MOST_HANDS) }
    requires in_limit { AllInLimit segments.now }
    requires covered { HaveTiles grid.now segments.now }
    requires owners { length owners.now ≡ length segments.now }
    ensures borders { IfOk result (λ r. AreRoundedBorders segments.now owners.now r) }
    ensures tiles { IfOk result (λ r. AreTileNumbers grid.now segments.now (tile_count grid.now) r.tiles.items) }
    ensures remade { IfOk result (λ r. IsRemade r.remade) }
{
    let (cells, bins) = cells_with_bins(rt, alloc, grid, workers, segments)?;
    let blank = Blank::new(u64::from(workers));
    let limited = LimitedSegments { list: segments };
    features_by_cells::<Brand, Brand, A, G, R>(
        rt, alloc, blank, grid, &cells, bins, workers, limited, owners, gate,
    )
}

/// The same, where a ledger of its own counts the pieces that are posted, and their type knows the cells and the segments.
fn features_by_cells<
    L: Limited + Send + Sync,
    T: Tiled + Send + Sync,
    A: Allocator + Copy + Send + Sync,
    G: Gate + Sync,
    R: Threads + Wait + Sync,
>(
    rt: &R,
    alloc: A,
    blank: Blank,
    grid: &Grid,
    cells: &Grid,
    bins: KeptBins<A>,
    workers: u32,
    limited: LimitedSegments<'_>,
    owners: &[u32],
    gate: &G,
) -> Result<RoundedBorders<A>, NoMemory>
    requires name { blank.name ≡ L.name }
    requires parts { (blank.parts ≡ L.parts) × (blank.parts ≡ workers) }
    requires limit { tile_count cells.now ≡ L.limit }
    requires bins { ∥ AreCellBins cells.now limited.list.now bins ∥₁ }
    requires tiled { (cells.now ≡ T.grid) × (limited.list.now ≡ T.segments) }
    requires workers { (0 < workers) × (workers ≤ MOST_HANDS) }
    requires covered_by_cells { HaveTiles cells.now limited.list.now }
    requires covered { HaveTiles grid.now limited.list.now }
    requires owners { length owners.now ≡ length limited.list.now }
    ensures borders { IfOk result (λ r. AreRoundedBorders limited.entry.list.now owners.now r) }
    ensures tiles { IfOk result (λ r. AreTileNumbers grid.now limited.entry.list.now (tile_count grid.now) r.tiles.items) }
    ensures remade { IfOk result (λ r. IsRemade r.remade) }
{
    let job = Pieces::<T, A>::over(cells, &bins, limited);
    let filled: FilledBook<TilePiece<T, A>, L, A> = fill(
        rt,
        alloc,
        blank,
        cells.tiles(),
        workers,
        &job,
        Phase::Route,
        gate,
    )?;
    gathered_borders(
        rt, alloc, filled, grid, cells, bins, workers, limited, owners,
    )
}

/// The borders of features, of the pieces that the workers have made. Those that came back are made again, and no other one: their
/// number is `remade`.
fn gathered_borders<
    L: Limited,
    T: Tiled + Sync,
    A: Allocator + Copy + Send + Sync,
    R: Threads + Sync,
>(
    rt: &R,
    alloc: A,
    filled: FilledBook<TilePiece<T, A>, L, A>,
    grid: &Grid,
    cells: &Grid,
    bins: KeptBins<A>,
    workers: u32,
    limited: LimitedSegments<'_>,
    owners: &[u32],
) -> Result<RoundedBorders<A>, NoMemory>
    requires limit { filled.book.limit ≡ tile_count cells.now }
    requires few { filled.book.limit ≤ MOST_NUMBERS }
    requires counted { length filled.book.accepted + filled.returned ≡ filled.book.limit }
    requires bins { ∥ AreCellBins cells.now limited.list.now bins ∥₁ }
    requires tiled { (cells.now ≡ T.grid) × (limited.list.now ≡ T.segments) }
    requires covered_by_cells { HaveTiles cells.now limited.list.now }
    requires covered { HaveTiles grid.now limited.list.now }
    requires owners { length owners.now ≡ length limited.list.now }
    ensures borders { IfOk result (λ r. AreRoundedBorders limited.entry.list.now owners.now r) }
    ensures tiles { IfOk result (λ r. AreTileNumbers grid.now limited.entry.list.now (tile_count grid.now) r.tiles.items) }
    ensures remade { IfOk result (λ r. r.remade ≡ filled.returned) }
{
    let segments = limited.list;
    let job = Pieces::<T, A>::over(cells, &bins, limited);
    let AllPieces { pieces, remade } = whole_pass(alloc, &job, filled)?;
    drop(bins);
    let parts = gathering_parts(workers, &pieces, segments);
    gather_borders_in_parts(
        rt, alloc, parts, pieces, remade, cells, grid, segments, owners,
    )
}

/// The pieces of a pass in the order of their numbers: those that its book holds, and a new one for each that came back. So `remade` is
/// the number of those that came back, and none is made again where none did.
fn whole_pass<L: Limited, J: Job<A>, A: Allocator + Copy>(
    alloc: A,
    job: &J,
    filled: FilledBook<J::Piece, L, A>,
) -> Result<AllPieces<J::Piece, A>, NoMemory>
    requires few { filled.book.limit ≤ MOST_NUMBERS }
    requires count { filled.book.limit ≤ J.count job.now }
    requires counted { length filled.book.accepted + filled.returned ≡ filled.book.limit }
    ensures one_each { IfOk result (λ all. length all.pieces.items ≡ filled.book.limit) }
    ensures in_order { IfOk result (λ all. StandInOrder J.Piece.Numbered.number_of all.pieces.items) }
    ensures kept { IfOk result (λ all. KeepsHeld filled.book.held all.pieces.items) }
    ensures remade { IfOk result (λ all. all.remade ≡ filled.returned) }
{
    let all = complete(alloc, job, filled.book)?;
    Ok(all)
}

/// In how many parts the pieces of segments are gathered: by their records, with those of both ends of each segment.
fn gathering_parts<T: Tiled, A: Allocator>(
    workers: u32,
    pieces: &[TilePiece<T, A>],
    segments: &[Seg],
) -> usize {
    let mut count = segments.len().saturating_mul(2);
    for piece in pieces {
        count = count.saturating_add(piece.records.len());
    }
    worth::parts(workers, count, worth::RECORDS)
}

/// The numbers of a run on two layers with so many segments.
pub(crate) fn report_of<A: Allocator + Copy>(
    alloc: A,
    segments_a: u32,
    segments_b: u32,
    noded: &Noded<A>,
) -> Result<Report<A>, NoMemory>
    requires { length noded.now.tiles.items ≤ MOST_TILES }
    ensures segments_a { IfOk result (λ r. r.segments_a ≡ segments_a) }
    ensures segments_b { IfOk result (λ r. r.segments_b ≡ segments_b) }
    ensures edges { IfOk result (λ r. r.edges ≡ length noded.now.edges.items) }
    ensures tiles { IfOk result (λ r. TellsTiles noded.now.tiles.items r.hot r.records r.tiles.items) }
    ensures remade { IfOk result (λ r. r.remade ≡ noded.now.remade) }
{
    let tiles = told_of(alloc, &noded.tiles)?;
    Ok(Report {
        segments_a,
        segments_b,
        hot: all_hot(&noded.tiles),
        records: all_records(&noded.tiles),
        edges: u32::try_from(noded.edges.len()).map_err(|_| NoMemory)?,
        remade: noded.remade,
        tiles,
    })
}

/// The numbers of each tile.
pub(crate) fn told_of<A: Allocator>(
    alloc: A,
    tiles: &[TileNumbers],
) -> Result<Vec<(u32, u32), A>, NoMemory>
    ensures { IfOk result (λ told. told.items ≡ map (λ t. (t.hot, t.records)) tiles.now) }
{
    let mut told = Vec::with_capacity(alloc, tiles.len())?;
    for tile in tiles {
        told.push((tile.hot, tile.records))?;
    }
    Ok(told)
}

/// The hot pixels of all tiles.
pub(crate) fn all_hot(tiles: &[TileNumbers]) -> u64
    requires { length tiles.now ≤ MOST_TILES }
    ensures { result ≡ sum_by (λ t. t.hot) tiles.now }
{
    let mut sum = 0;
    for tile in tiles {
        sum += u64::from(tile.hot);
    }
    sum
}

/// The records of all tiles.
pub(crate) fn all_records(tiles: &[TileNumbers]) -> u64
    requires { length tiles.now ≤ MOST_TILES }
    ensures { result ≡ sum_by (λ t. t.records) tiles.now }
{
    let mut sum = 0;
    for tile in tiles {
        sum += u64::from(tile.records);
    }
    sum
}
