//! Pieces of the cells of one grid over one list of segments, which their type knows.

ghost use Rattle.std.specs.Prelude.{◌≡◌, [], All, List, pos};
ghost use Rattle.std.proofs.lemmas.List.Elements.{All-nil};
ghost use Rattle.geom.specs.declared.segment.Seg.{Seg};
ghost use Rattle.geom.specs.Limit.{AreInLimit};
ghost use Rattle.grid.specs.Tiles.{Owns, Tiling};
ghost use Rattle.routing.specs.Pieces.{IsPartOf};

use geom::Pt;
use routing::{Part, Record};
use std::alloc::Allocator;
use std::marker::{Brand, PhantomData};
use tile_book::Numbered;

/// Segments within the coordinate limit over a grid, which contracts alone know.
pub trait Tiled {
    ghost grid: { Tiling };

    ghost segments: { List Seg };

    ghost in_limit: { All (λ s. AreInLimit s.a s.b) segments };
}

impl Tiled for Brand {
    ghost grid = { record { left = pos 0; bottom = pos 0; side = 1; columns = 0; rows = 0 } };

    ghost segments = { [] };

    ghost in_limit = { All-nil (λ s. AreInLimit s.a s.b) };
}

/// What the routes of all segments have in one cell: its number, its hot pixels, and the records of those that segments meet
/// between their ends.
#[derive(Drop)]
pub struct TilePiece<T: Tiled, A: Allocator> {
    pub number: u32,
    pub pixels: Vec<Pt, A>,
    pub records: Vec<Record, A>,
    of: PhantomData<T>,
    ghost exact: { ∥ IsPartOf (Owns T.grid number) T.segments pixels.items records.items ∥₁ },
}

impl<T: Tiled, A: Allocator> Numbered for TilePiece<T, A> {
    ghost number_of = { λ p. p.number };

    fn number(&self) -> u32 {
        self.number
    }
}

impl<T: Tiled, A: Allocator> TilePiece<T, A> {
    /// What was found in the cell of this number.
    pub fn of_part(number: u32, part: Part<A>) -> TilePiece<T, A>
        requires { ∥ IsPartOf (Owns T.grid number) T.segments part.pixels.items part.records.items ∥₁ }
        ensures { result.number ≡ number }
    {
        let Part { pixels, records } = part;
        TilePiece {
            number,
            pixels,
            records,
            of: PhantomData,
        }
    }
}
