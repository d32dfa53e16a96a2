//! Whether a verdict was made from what its tile has now.

ghost use Rattle.std.specs.Prelude.{◌≡◌, ◌↔◌, ◌<◌, All, IsTrue, MatchBool, MatchOption, length};
ghost use Rattle.grid.specs.Tiles.{tile_count};
ghost use Rattle.noding_test.specs.Verdicts.{chosen_edges};
ghost use Rattle.noding_test.specs.Passes.{HoldsOwnVerdict, IsHeldVerdict, IsOwnVerdict};

use crate::verdicts::Verdict;
use geom::{Counted, Edge};
use std::alloc::Allocator;
use tile_book::{Book, Limited};
use tiling::Grid;

/// Whether the edges are those of these numbers.
fn are_near(edges: &[Edge], counted: &[Counted], numbers: &[u32]) -> bool
    requires { All (λ n. n < length counted.now) numbers.now }
    ensures { IsTrue result ↔ (edges.now ≡ chosen_edges counted.now numbers.now) }
{
    if edges.len() != numbers.len() {
        return false;
    }
    for i in 0..numbers.len() {
        let number = numbers[i];
        if edges[i] != counted[number as usize].edge {
            return false;
        }
    }
    true
}

/// Whether a verdict has the tile's rectangle and the edges of these numbers.
fn is_own<A: Allocator>(
    verdict: &Verdict<A>,
    grid: &Grid,
    tile: u32,
    counted: &[Counted],
    numbers: &[u32],
) -> bool
    requires tile { tile < tile_count grid.now }
    requires below { All (λ n. n < length counted.now) numbers.now }
    ensures { MatchBool result (IsOwnVerdict grid.now tile counted.now numbers.now verdict.now) (¬ (IsOwnVerdict grid.now tile counted.now numbers.now verdict.now)) }
{
    verdict.tile == grid.rect(tile) && are_near(&verdict.edges, counted, numbers)
}

/// The book's verdict of a tile, if it was made from what the tile has now: the edges of these numbers.
pub(crate) fn own_verdict<'a, L: Limited, A: Allocator>(
    book: &'a Book<Verdict<A>, L, A>,
    grid: &Grid,
    tile: u32,
    counted: &[Counted],
    numbers: &[u32],
) -> Option<&'a Verdict<A>>
    requires tile { tile < tile_count grid.now }
    requires below { All (λ n. n < length counted.now) numbers.now }
    ensures { MatchOption result (¬ (HoldsOwnVerdict grid.now tile counted.now numbers.now book.now.held)) (λ v. IsHeldVerdict book.now.held grid.now tile counted.now numbers.now v.now) }
{
    let Some(Some(verdict)) = book.held().get(tile as usize) else {
        return None;
    };
    if is_own(verdict, grid, tile, counted, numbers) {
        Some(verdict)
    } else {
        None
    }
}
