//! Whether a piece was made from what its tile has now.

ghost use Rattle.std.specs.Prelude.{◌≡◌, ◌↔◌, ◌<◌, All, IsTrue, MatchBool, MatchOption, Some, length, slice_get};
ghost use Rattle.geom.specs.Segments.{same_source};
ghost use Rattle.grid.specs.Tiles.{tile_count};
ghost use Rattle.routing.specs.Pieces.{candidates_of};
ghost use Rattle.chain_gather.specs.Gathered.{is_candidate, AreTileCandidates, HoldsOwn, IsOwn};

use geom::{Seg, Source};
use grid::Grid;
use routing::{Candidate, Piece};
use std::alloc::Allocator;
use tile_book::{Book, Limited};

/// Whether both are the same layer.
fn same_layer(layer: Source, other: Source) -> bool
    ensures { result ≡ same_source layer other }
{
    layer == other
}

/// Whether a candidate is this segment with this number.
fn is_candidate(candidate: &Candidate, number: u32, s: &Seg) -> bool
    ensures { result ≡ is_candidate candidate.now number s.now }
{
    candidate.number == number
        && candidate.segment.a == s.a
        && candidate.segment.b == s.b
        && same_layer(candidate.segment.layer, s.layer)
}

/// Whether the candidates are the segments of these numbers.
fn are_candidates(candidates: &[Candidate], segments: &[Seg], numbers: &[u32]) -> bool
    requires { All (λ k. k < length segments.now) numbers.now }
    ensures { IsTrue result ↔ (candidates.now ≡ candidates_of segments.now numbers.now) }
{
    if candidates.len() != numbers.len() {
        return false;
    }
    for i in 0..numbers.len() {
        let number = numbers[i];
        if !is_candidate(&candidates[i], number, &segments[number as usize]) {
            return false;
        }
    }
    true
}

/// Whether a piece has the tile's rectangle and the segments of these numbers.
fn is_own<A: Allocator>(
    piece: &Piece<A>,
    grid: &Grid,
    tile: u32,
    segments: &[Seg],
    numbers: &[u32],
) -> bool
    requires tile { tile < tile_count grid.now }
    requires below { All (λ k. k < length segments.now) numbers.now }
    requires candidates { AreTileCandidates grid.now segments.now tile (candidates_of segments.now numbers.now) }
    ensures { MatchBool result (IsOwn grid.now segments.now tile piece.now) (¬ (IsOwn grid.now segments.now tile piece.now)) }
{
    piece.tile == grid.rect(tile) && are_candidates(&piece.candidates, segments, numbers)
}

/// The book's piece of a tile, if it was made from what the tile has now: the segments of these numbers.
pub(crate) fn own_piece<'a, L: Limited, A: Allocator>(
    book: &'a Book<Piece<A>, L, A>,
    grid: &Grid,
    tile: u32,
    segments: &[Seg],
    numbers: &[u32],
) -> Option<&'a Piece<A>>
    requires tile { tile < tile_count grid.now }
    requires below { All (λ k. k < length segments.now) numbers.now }
    requires candidates { AreTileCandidates grid.now segments.now tile (candidates_of segments.now numbers.now) }
    ensures { MatchOption result (¬ (HoldsOwn grid.now segments.now book.now.held tile)) (λ p. (slice_get book.now.held tile ≡ Some (Some p.now)) × IsOwn grid.now segments.now tile p.now) }
{
    let Some(Some(piece)) = book.held().get(tile as usize) else {
        return None;
    };
    if is_own(piece, grid, tile, segments, numbers) {
        Some(piece)
    } else {
        None
    }
}
