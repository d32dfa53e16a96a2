//! Verdicts: the least bad pair of edges of a tile.

ghost use Rattle.hot_region.specs.Rects.{IsIn};
ghost use Rattle.noding_test.specs.Verdicts.{IsLeastPair, IsOwnBad};

use geom::{Edge, Rect};
use std::alloc::Allocator;
use tile_book::Numbered;

/// What is known of the pairs of edges that belong to one tile: its number, its rectangle, the edges that come near it, and
/// the least pair of these that is bad and belongs to the tile. A pair belongs to the tile in which the common rectangle of
/// the two boxes begins.
#[derive(Drop)]
pub struct Verdict<A: Allocator> {
    pub number: u32,
    pub tile: Rect,
    pub edges: Vec<Edge, A>,
    pub bad: Option<(Edge, Edge)>,
    ghost exact: { ∥ IsLeastPair (IsOwnBad (IsIn tile) edges.items) bad ∥₁ },
}

impl<A: Allocator> Numbered for Verdict<A> {
    ghost number_of = { λ v. v.number };

    fn number(&self) -> u32 {
        self.number
    }
}
