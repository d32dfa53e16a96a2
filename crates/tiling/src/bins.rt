//! The boxes that meet each tile.

ghost use Rattle.std.specs.Prelude.{◌≡◌, ◌<◌, ◌≤◌, ◌+◌, ◌*◌, ◌^◌, ℕ, [], IfOk, List, OnErr, OnOk, length, max};
ghost use Rattle.geom.specs.declared.rect.Rect.{Rect};
ghost use Rattle.grid.specs.Tiles.{tile_count, tile_left, tile_right};
ghost use Rattle.tiling.specs.Index.{AreIndexed, count_begun, first_reaching};
ghost use Rattle.grid.specs.Bins.{IsBin};
ghost use Rattle.tiling.specs.Bins.{Binned};

use crate::index::Index;
use geom::NoMemory;
use grid::{Count, Grid};
use lane_tests::Boxes;
use std::alloc::Allocator;
use std::marker::Model;
use std::sync::ledger::Ledger;

/// Boxes over a grid, kept in the order of their left sides, ties by number.
#[derive(Drop)]
pub struct Bins<A: Allocator> {
    grid: Grid,
    index: Index<A>,
}

impl<A: Allocator> Model for Bins<A> {
    ghost Value = { Binned };

    ghost view = { λ b. record { grid = b.grid; items = b.index } };
}

impl<A: Allocator + Copy> Bins<A> {
    /// The bins of these boxes.
    pub fn build<B: Allocator>(alloc: A, grid: &Grid, boxes: &Boxes<B>) -> Result<Bins<A>, NoMemory>
        ensures grid { IfOk result (λ bins. bins.grid ≡ grid.now) }
        ensures items { IfOk result (λ bins. AreIndexed boxes.now bins.items) }
    {
        let index = Index::build(alloc, boxes)?;
        Ok(Bins { grid: *grid, index })
    }
}

impl<A: Allocator> Bins<A> {
    /// The places of the boxes that may meet a tile: from the first whose right side reaches the tile's left side, to below
    /// as many as have a left side not past the tile's right side. It ticks at each read of a place, at most twice as often
    /// as the number of boxes has binary digits.
    pub fn places<L: Ledger>(&self, number: u32, count: &mut Count<L>) -> (u32, u32)
        requires { number < tile_count self.now.grid }
        ensures from { result.0 ≡ first_reaching (tile_left self.now.grid number) self.now.items }
        ensures to { result.1 ≡ max result.0 (count_begun (tile_right self.now.grid number) self.now.items) }
        ensures grows { count.old ≤ count.new }
        ensures cost { (d : ℕ) → length self.now.items < 2 ^ d → count.new ≤ count.old + 2 * d }
    {
        let rect = self.grid.rect(number);
        self.index.places(rect.lo.x, rect.hi.x, count)
    }

    /// The vector becomes the numbers, ascending, of the boxes that share a point with a tile's rectangle. After an `Err` it
    /// is empty.
    pub fn bin<B: Allocator>(&self, number: u32, out: &mut Vec<u32, B>) -> Result<(), NoMemory>
        requires { number < tile_count self.now.grid }
        ensures ok { OnOk result ((boxes : List Rect) → AreIndexed boxes self.now.items → IsBin self.now.grid number boxes out.new.items) }
        ensures err { OnErr result (out.new.items ≡ []) }
    {
        let rect = self.grid.rect(number);
        self.index.find(rect, out)
    }
}
