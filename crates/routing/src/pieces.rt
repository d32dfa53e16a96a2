//! Pieces: what the routes have in one tile.

ghost use Rattle.routing.specs.Pieces.{IsPiece};

use crate::record::{Candidate, Record};
use geom::{Pt, Rect};
use std::alloc::Allocator;
use tile_book::Numbered;

/// What the routes have in one tile: its number, its rectangle, the candidate segments, how many of its pixels are hot, and
/// the records of the candidates' hot pixels in it.
#[derive(Drop)]
pub struct Piece<A: Allocator> {
    pub number: u32,
    pub tile: Rect,
    pub candidates: Vec<Candidate, A>,
    pub hot: u32,
    pub records: Vec<Record, A>,
    ghost exact: { ∥ IsPiece tile candidates.items hot records.items ∥₁ },
}

impl<A: Allocator> Numbered for Piece<A> {
    ghost number_of = { λ p. p.number };

    fn number(&self) -> u32 {
        self.number
    }
}

/// What the routes have in one tile, as it is found: its hot pixels, ascending and each once, and the records of those that
/// segments meet between their ends, in any order.
#[derive(Drop)]
pub struct Part<A: Allocator> {
    pub pixels: Vec<Pt, A>,
    pub records: Vec<Record, A>,
}
