//! The engine's calls on the calling thread alone, from memory to memory, for a caller that has no threads to lend.

ghost use Rattle.std.specs.Prelude.{◌≡◌, ◌<◌, ◌≤◌, IfOk, MatchResult, length};
ghost use Rattle.tile_book.specs.Books.{StandInOrder};
ghost use Rattle.geom.specs.Rounded.{AreRounded};
ghost use Rattle.grid.specs.Tiles.{tile_count};
ghost use Rattle.distinct.specs.Copies.{AreCopiesRounded, all_copies};
ghost use Rattle.linking.specs.Gathered.{AreTileNumbers, AreTileNumbersBy, HaveTiles};
ghost use Rattle.points_law.specs.Law.{AreLayers};
ghost use Rattle.engine.specs.FaceBorders.{AreRoundedBorders};
ghost use Rattle.layers.specs.Segments.{AllInLimit};
ghost use Rattle.engine.specs.Rounds.{AreRoundedOver};
ghost use Rattle.engine.specs.Results.{IsResultWritten, IsResultWrittenWithin, IsWrittenWithin};
ghost use Rattle.engine.specs.Runs.{AreEdgesWritten, AreEdgesWrittenWithin, Declines, DeclinesWithin, alone};
ghost use Rattle.layers.specs.Refusals.{HasOwnRings};

use crate::cells::{bins_of, cells_alone};
use crate::engine::{Output, or_fault, report_for};
use crate::rounds::Pieces;
use distinct::{Copies, distinct};
use geom::{NoMemory, Op, RunFault, Seg};
use grid::Grid;
use layers::{CheckedInput, Limits, Plan, Reading, check, check_plan, read_one, read_segments};
use linking::{
    LimitedSegments, Noded, Rounded, RoundedBorders, TilePiece, Tiled, gather_borders, gather_made,
    settled,
};
use results::{Wanted, text_of};
use routing::found_in;
use std::alloc::Allocator;
use std::marker::{Brand, PhantomData};
use tile_book::{Job, MOST_NUMBERS};

/// The text of the rounded edges of two layers, over tiles of this side, and its report. It is refused as `edges` is,
/// but for the number of workers and the sink. No piece is made twice.
pub fn edges_alone<A: Allocator + Copy>(
    alloc: A,
    a: &[u8],
    b: &[u8],
    side: u32,
) -> Result<Output<A>, RunFault>
    ensures answer { MatchResult result (λ m. AreEdgesWritten (alone side) a.now b.now m.text.items m.report) (λ f. Declines (alone side) a.now b.now f.at f.fault) }
    ensures none_remade { IfOk result (λ m. m.report.remade ≡ 0) }
{
    edges_alone_within(alloc, a, b, side, Limits::default())
}

/// The same within a limit of segments that is given: too many are more than that.
pub fn edges_alone_within<A: Allocator + Copy>(
    alloc: A,
    a: &[u8],
    b: &[u8],
    side: u32,
    limits: Limits,
) -> Result<Output<A>, RunFault>
    ensures answer { MatchResult result (λ m. AreEdgesWrittenWithin limits.segments (alone side) a.now b.now m.text.items m.report) (λ f. DeclinesWithin limits.segments (alone side) a.now b.now f.at f.fault) }
    ensures none_remade { IfOk result (λ m. m.report.remade ≡ 0) }
{
    made_alone(alloc, Wanted::Edges, a, b, side, limits)
}

/// The canonical line of the result of an operation on two layers, over tiles of this side, and its report. It is refused
/// as `edges_alone` is.
pub fn run_alone<A: Allocator + Copy>(
    alloc: A,
    op: Op,
    a: &[u8],
    b: &[u8],
    side: u32,
) -> Result<Output<A>, RunFault>
    ensures answer { MatchResult result (λ m. IsResultWritten op (alone side) a.now b.now m.text.items m.report) (λ f. Declines (alone side) a.now b.now f.at f.fault) }
    ensures none_remade { IfOk result (λ m. m.report.remade ≡ 0) }
{
    run_alone_within(alloc, op, a, b, side, Limits::default())
}

/// The same within a limit of segments that is given: too many are more than that.
pub fn run_alone_within<A: Allocator + Copy>(
    alloc: A,
    op: Op,
    a: &[u8],
    b: &[u8],
    side: u32,
    limits: Limits,
) -> Result<Output<A>, RunFault>
    ensures answer { MatchResult result (λ m. IsResultWrittenWithin limits.segments op (alone side) a.now b.now m.text.items m.report) (λ f. DeclinesWithin limits.segments (alone side) a.now b.now f.at f.fault) }
    ensures none_remade { IfOk result (λ m. m.report.remade ≡ 0) }
{
    made_alone(alloc, Wanted::Apply(op), a, b, side, limits)
}

/// The text that is wanted of two layers, and the report, where nothing is refused.
fn made_alone<A: Allocator + Copy>(
    alloc: A,
    wanted: Wanted,
    a: &[u8],
    b: &[u8],
    side: u32,
    limits: Limits,
) -> Result<Output<A>, RunFault>
    ensures answer { MatchResult result (λ m. IsWrittenWithin limits.segments wanted (alone side) a.now b.now m.text.items m.report) (λ f. DeclinesWithin limits.segments (alone side) a.now b.now f.at f.fault) }
    ensures none_remade { IfOk result (λ m. m.report.remade ≡ 0) }
{
    let plan = Plan { side, workers: 1 };
    check_plan(plan)?;
    let read_a = read_one(alloc, limits, a);
    let read_b = read_one(alloc, limits, b);
    match check(a, b, plan, limits, &read_a, &read_b) {
        Ok(checked) => or_fault(by_one(alloc, wanted, &checked, read_a, read_b)),
        Err(fault) => Err(fault),
    }
}

/// The same of two layers that were checked: the calling thread rounds them.
fn by_one<A: Allocator + Copy>(
    alloc: A,
    wanted: Wanted,
    checked: &CheckedInput<'_, '_>,
    read_a: Reading<A>,
    read_b: Reading<A>,
) -> Result<Output<A>, NoMemory>
    requires read_a { HasOwnRings checked.now.a.now read_a }
    requires read_b { HasOwnRings checked.now.b.now read_b }
    ensures written { IfOk result (λ m. IsWrittenWithin checked.now.limits.segments wanted checked.now.plan checked.now.a.now checked.now.b.now m.text.items m.report) }
    ensures none_remade { IfOk result (λ m. m.report.remade ≡ 0) }
{
    let noded = rounded_alone(alloc, checked, read_a, read_b)?;
    let report = report_for(alloc, checked, &noded)?;
    let Noded { edges, .. } = noded;
    let text = text_of(alloc, wanted, edges)?;
    Ok(Output { text, report })
}

/// The rounded edges of two layers, with the numbers of the tiles.
pub(crate) fn rounded_alone<A: Allocator + Copy>(
    alloc: A,
    checked: &CheckedInput<'_, '_>,
    read_a: Reading<A>,
    read_b: Reading<A>,
) -> Result<Noded<A>, NoMemory>
    requires read_a { HasOwnRings checked.now.a.now read_a }
    requires read_b { HasOwnRings checked.now.b.now read_b }
    ensures rounded { IfOk result (λ n. AreRoundedOver checked.now.a.now checked.now.b.now checked.now.grid n.edges.items n.tiles.items) }
    ensures layers { IfOk result (λ n. ∥ AreLayers n.edges.items ∥₁) }
    ensures none_remade { IfOk result (λ n. n.remade ≡ 0) }
{
    let segments = read_segments(alloc, checked, read_a, read_b)?;
    gathered_alone(alloc, &checked.grid, segments)
}

/// The rounded edges of segments.
pub(crate) fn gathered_alone<A: Allocator + Copy>(
    alloc: A,
    grid: &Grid,
    segments: Vec<Seg, A>,
) -> Result<Noded<A>, NoMemory>
    requires in_limit { AllInLimit segments.items }
    requires covered { HaveTiles grid.now segments.items }
    ensures rounded { IfOk result (λ n. ∥ AreRounded segments.items n.edges.items ∥₁) }
    ensures tiles { IfOk result (λ n. AreTileNumbers grid.now segments.items (tile_count grid.now) n.tiles.items) }
    ensures none_remade { IfOk result (λ n. n.remade ≡ 0) }
{
    let kept = distinct(alloc, segments)?;
    let rounded = copies_alone(alloc, grid, &kept.segments, &kept.copies)?;
    Ok(settled(rounded))
}

/// The rounded edges of segments with copies.
fn copies_alone<A: Allocator + Copy>(
    alloc: A,
    grid: &Grid,
    segments: &[Seg],
    copies: &[Copies],
) -> Result<Rounded<A>, NoMemory>
    requires in_limit { AllInLimit segments.now }
    requires covered { HaveTiles grid.now segments.now }
    requires copies { length copies.now ≡ length segments.now }
    ensures rounded { IfOk result (λ r. ∥ AreCopiesRounded segments.now copies.now r.edges.items ∥₁) }
    ensures tiles { IfOk result (λ r. AreTileNumbersBy all_copies grid.now segments.now copies.now (tile_count grid.now) r.tiles.items) }
    ensures none_remade { IfOk result (λ r. r.remade ≡ 0) }
{
    let cells = cells_alone(grid, segments);
    let limited = LimitedSegments { list: segments };
    by_cells_alone::<Brand, A>(alloc, grid, &cells, limited, copies)
}

/// The same, where the type of the pieces knows the cells and the segments.
fn by_cells_alone<T: Tiled, A: Allocator + Copy>(
    alloc: A,
    grid: &Grid,
    cells: &Grid,
    limited: LimitedSegments<'_>,
    copies: &[Copies],
) -> Result<Rounded<A>, NoMemory>
    requires tiled { (cells.now ≡ T.grid) × (limited.list.now ≡ T.segments) }
    requires covered_by_cells { HaveTiles cells.now limited.list.now }
    requires covered { HaveTiles grid.now limited.list.now }
    requires copies { length copies.now ≡ length limited.list.now }
    ensures rounded { IfOk result (λ r. ∥ AreCopiesRounded limited.entry.list.now copies.now r.edges.items ∥₁) }
    ensures tiles { IfOk result (λ r. AreTileNumbersBy all_copies grid.now limited.entry.list.now copies.now (tile_count grid.now) r.tiles.items) }
    ensures none_remade { IfOk result (λ r. r.remade ≡ 0) }
{
    let segments = limited.list;
    let pieces = pieces_alone::<T, A>(alloc, cells, limited)?;
    gather_made(alloc, pieces, 0, cells, grid, segments, copies)
}

/// The rounded edges that are the border of some feature, with the numbers of the tiles: owners are the features of the segments.
pub(crate) fn features_alone<A: Allocator + Copy>(
    alloc: A,
    grid: &Grid,
    segments: &[Seg],
    owners: &[u32],
) -> Result<RoundedBorders<A>, NoMemory>
    requires in_limit { AllInLimit segments.now }
    requires covered { HaveTiles grid.now segments.now }
    requires owners { length owners.now ≡ length segments.now }
    ensures borders { IfOk result (λ r. AreRoundedBorders segments.now owners.now r) }
    ensures tiles { IfOk result (λ r. AreTileNumbers grid.now segments.now (tile_count grid.now) r.tiles.items) }
    ensures none_remade { IfOk result (λ r. r.remade ≡ 0) }
{
    let cells = cells_alone(grid, segments);
    let limited = LimitedSegments { list: segments };
    features_by_cells_alone::<Brand, A>(alloc, grid, &cells, limited, owners)
}

/// The same, where the type of the pieces knows the cells and the segments.
fn features_by_cells_alone<T: Tiled, A: Allocator + Copy>(
    alloc: A,
    grid: &Grid,
    cells: &Grid,
    limited: LimitedSegments<'_>,
    owners: &[u32],
) -> Result<RoundedBorders<A>, NoMemory>
    requires tiled { (cells.now ≡ T.grid) × (limited.list.now ≡ T.segments) }
    requires covered_by_cells { HaveTiles cells.now limited.list.now }
    requires covered { HaveTiles grid.now limited.list.now }
    requires owners { length owners.now ≡ length limited.list.now }
    ensures borders { IfOk result (λ r. AreRoundedBorders limited.entry.list.now owners.now r) }
    ensures tiles { IfOk result (λ r. AreTileNumbers grid.now limited.entry.list.now (tile_count grid.now) r.tiles.items) }
    ensures none_remade { IfOk result (λ r. r.remade ≡ 0) }
{
    let segments = limited.list;
    let pieces = pieces_alone::<T, A>(alloc, cells, limited)?;
    gather_borders(alloc, pieces, 0, cells, grid, segments, owners)
}

/// The pieces of all cells.
fn pieces_alone<T: Tiled, A: Allocator + Copy>(
    alloc: A,
    cells: &Grid,
    limited: LimitedSegments<'_>,
) -> Result<Vec<TilePiece<T, A>, A>, NoMemory>
    requires tiled { (cells.now ≡ T.grid) × (limited.list.now ≡ T.segments) }
    requires covered_by_cells { HaveTiles cells.now limited.list.now }
    ensures one_each { IfOk result (λ v. length v.items ≡ tile_count cells.now) }
    ensures in_order { IfOk result (λ v. StandInOrder (λ p. p.number) v.items) }
{
    if cells.tiles() == 1 {
        return one_piece(alloc, cells, limited);
    }
    let bins = bins_of(alloc, cells, limited.list)?;
    let job: Pieces<T, A> = Pieces {
        grid: cells,
        bins: &bins,
        limited,
        of: PhantomData,
    };
    in_turn(alloc, &job, cells.tiles())
}

/// The piece of the only cell, of all segments. More segments than a `u32` counts are refused as want of memory.
fn one_piece<T: Tiled, A: Allocator + Copy>(
    alloc: A,
    cells: &Grid,
    limited: LimitedSegments<'_>,
) -> Result<Vec<TilePiece<T, A>, A>, NoMemory>
    requires tiled { (cells.now ≡ T.grid) × (limited.list.now ≡ T.segments) }
    requires one { tile_count cells.now ≡ 1 }
    ensures one_each { IfOk result (λ v. length v.items ≡ 1) }
    ensures in_order { IfOk result (λ v. StandInOrder (λ p. p.number) v.items) }
{
    let numbers = limited.numbers(alloc)?;
    let found = found_in(alloc, &cells.rect(0), limited, &numbers)?;
    let mut pieces = Vec::with_capacity(alloc, 1)?;
    pieces.push(TilePiece::of_part(0, found))?;
    Ok(pieces)
}

/// The pieces of the numbers below a limit, made one after another.
#[tactic(auto, using(crate::proofs::InTurn::in_order_none, crate::proofs::InTurn::in_order_more))]
fn in_turn<A: Allocator + Copy, J: Job<A>>(
    alloc: A,
    job: &J,
    limit: u32,
) -> Result<Vec<J::Piece, A>, NoMemory>
    requires few { limit ≤ MOST_NUMBERS }
    requires count { limit ≤ J.count job.now }
    ensures one_each { IfOk result (λ v. length v.items ≡ limit) }
    ensures in_order { IfOk result (λ v. StandInOrder J.Piece.Numbered.number_of v.items) }
{
    let mut pieces = Vec::with_capacity(alloc, limit as usize)?;
    for number in 0..limit {
        let piece = job.piece(alloc, number)?;
        pieces.push(piece)?;
    }
    Ok(pieces)
}
