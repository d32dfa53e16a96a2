//! The boxes that meet each tile, kept tile by tile.

ghost use Rattle.std.specs.Prelude.{◌≡◌, ◌<◌, ◌++◌, ◌∷◌, [], IfOk, List, OnOk, get_or};
ghost use Rattle.geom.specs.declared.rect.Rect.{Rect};
ghost use Rattle.grid.specs.Tiles.{HasTile, tile_count};
ghost use Rattle.grid.specs.Bins.{AreBins, AreRowBins, TileBins};

use crate::grid::Grid;
use crate::row_bins::RowBins;
use geom::{NoMemory, Rect};
use std::alloc::Allocator;
use std::marker::Model;

/// The bin of each tile of a grid: the numbers, ascending, of the boxes that have a point which the tile owns.
#[derive(Drop)]
pub struct KeptBins<A: Allocator> {
    all: RowBins<A>,
}

impl<A: Allocator> Model for KeptBins<A> {
    ghost Value = { TileBins };

    ghost view = { λ b. record { grid = b.all.grid; count = b.all.count; bins = b.all.bins } };

    ghost invariant = { λ b. (b.all.from ≡ 0) × (b.all.past ≡ b.all.grid.rows) };
}

impl<A: Allocator + Copy> KeptBins<A> {
    /// The bins of no boxes.
    pub fn new(alloc: A, grid: &Grid) -> Result<KeptBins<A>, NoMemory>
        ensures grid { IfOk result (λ kept. kept.grid ≡ grid.now) }
        ensures bins { IfOk result (λ kept. AreBins [] kept) }
    {
        let all = RowBins::new(alloc, grid, 0, grid.rows())?;
        Ok(KeptBins { all })
    }
}

impl<A: Allocator> KeptBins<A> {
    /// The bins of all rows of a grid.
    pub fn of_rows(all: RowBins<A>) -> KeptBins<A>
        requires from { all.from ≡ 0 }
        requires past { all.past ≡ all.grid.rows }
        ensures grid { result.grid ≡ all.grid }
        ensures bins { (boxes : List Rect) → AreRowBins boxes all → AreBins boxes result }
    {
        KeptBins { all }
    }

    /// Adds a box, of the next number. After an `Err` the bins are of no use.
    pub fn add(&mut self, rect: Rect) -> Result<(), NoMemory>
        requires lo { HasTile self.old.grid rect.lo }
        requires hi { HasTile self.old.grid rect.hi }
        ensures grid { self.new.grid ≡ self.old.grid }
        ensures bins { OnOk result ((boxes : List Rect) → AreBins boxes self.old → AreBins (boxes ++ rect ∷ []) self.new) }
    {
        self.all.add(rect)
    }

    /// The numbers, ascending, of the boxes that have a point which a tile owns.
    pub fn bin(&self, number: u32) -> &[u32]
        requires { number < tile_count self.now.grid }
        ensures { result.now ≡ get_or self.now.bins number [] }
    {
        self.all.bin(number)
    }
}
