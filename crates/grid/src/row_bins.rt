//! The boxes that meet each tile in some of a grid's rows, kept tile by tile.
//!
//! 1. At first no tile has a box (`RowBins::new`).
//! 2. A box that lies below these rows or above them goes to no tile (`RowBins::is_beside`). Where these are few of many rows,
//!    most boxes are such, so two comparisons tell it.
//! 3. Any other goes to the tiles from that of its least corner to that of its greatest, as far as they are in these rows
//!    (`RowBins::give`): at once where that is one tile, else row by row (`add_rows`).
//! 4. The bins of the rows that follow are put behind (`RowBins::joined`).

ghost use Rattle.std.specs.Prelude.{◌≡◌, ◌↔◌, ◌⊎◌, ◌<◌, ◌≤◌, ◌+◌, ◌-◌, ◌*◌, ◌+ℤ◌, ◌<ℤ◌, ◌≤ℤ◌, ◌++◌, ◌∷◌, ℕ, pos, [], IfOk, IsTrue, List, OnOk, get_or, length};
ghost use Rattle.geom.specs.declared.rect.Rect.{Rect};
ghost use Rattle.grid.specs.Tiles.{HasTile};
ghost use Rattle.grid.specs.Bins.{AreGiven, AreRowBins, HasPointOf, IsAmong, TileRows, lists_of};

use crate::grid::{Grid, MOST_CELLS};
use geom::{NoMemory, Rect};
use std::alloc::Allocator;
use std::marker::Model;

/// The bin of each tile in neighbouring rows of a grid: the numbers, ascending, of the boxes that have a point which the tile
/// owns.
#[derive(Drop)]
pub struct RowBins<A: Allocator> {
    grid: Grid,
    from: u32,
    past: u32,
    /// Where these rows begin on the ordinate axis, in grid units.
    low: i64,
    /// Where these rows end: the first ordinate above them, in grid units.
    high: i64,
    count: u32,
    bins: Vec<Vec<u32, A>, A>,
}

impl<A: Allocator> Model for RowBins<A> {
    ghost Value = { TileRows };

    ghost view = { λ b. record { grid = b.grid; from = b.from; past = b.past; count = b.count; bins = lists_of b.bins.items } };

    ghost invariant = { λ b. (b.from ≤ b.past) × (b.past ≤ b.grid.rows) × (length b.bins.items ≡ (b.past - b.from) * b.grid.columns) × (0 < b.grid.side) × (b.low ≡ b.grid.bottom +ℤ pos (b.from * b.grid.side)) × (b.high ≡ b.grid.bottom +ℤ pos (b.past * b.grid.side)) };
}

impl<A: Allocator + Copy> RowBins<A> {
    /// The bins of no boxes, in the rows from one to below another.
    pub fn new(alloc: A, grid: &Grid, from: u32, past: u32) -> Result<RowBins<A>, NoMemory>
        requires order { from ≤ past }
        requires within { past ≤ grid.now.rows }
        ensures grid { IfOk result (λ b. b.grid ≡ grid.now) }
        ensures from { IfOk result (λ b. b.from ≡ from) }
        ensures past { IfOk result (λ b. b.past ≡ past) }
        ensures bins { IfOk result (λ b. AreRowBins [] b) }
    {
        let tiles = grid.tiles_in(past - from);
        let mut bins = Vec::with_capacity(alloc, tiles as usize)?;
        for _tile in 0..tiles {
            bins.push(Vec::new(alloc))?;
        }
        Ok(RowBins {
            grid: *grid,
            from,
            past,
            low: grid.row_start(from),
            high: grid.row_start(past),
            count: 0,
            bins,
        })
    }
}

impl<A: Allocator> RowBins<A> {
    /// Adds a box, of the next number. After an `Err` the bins are of no use.
    #[inline(always)]
    pub fn add(&mut self, rect: Rect) -> Result<(), NoMemory>
        requires lo { HasTile self.old.grid rect.lo }
        requires hi { HasTile self.old.grid rect.hi }
        ensures grid { self.new.grid ≡ self.old.grid }
        ensures from { self.new.from ≡ self.old.from }
        ensures past { self.new.past ≡ self.old.past }
        ensures bins { OnOk result ((boxes : List Rect) → AreRowBins boxes self.old → AreRowBins (boxes ++ rect ∷ []) self.new) }
    {
        let number = self.count;
        if number == u32::MAX {
            return Err(NoMemory);
        }
        self.count += 1;
        if self.is_beside(&rect) {
            return Ok(());
        }
        self.give(&rect, number)
    }

    /// Gives a number to the tiles in these rows that a box meets; the box lies neither below these rows nor above them.
    #[inline(never)]
    fn give(&mut self, rect: &Rect, number: u32) -> Result<(), NoMemory>
        requires lo { HasTile self.old.grid rect.now.lo }
        requires hi { HasTile self.old.grid rect.now.hi }
        requires not_below { (self.old.grid.bottom +ℤ pos (self.old.from * self.old.grid.side)) ≤ℤ rect.now.hi.y }
        requires not_above { rect.now.lo.y <ℤ (self.old.grid.bottom +ℤ pos (self.old.past * self.old.grid.side)) }
        ensures grid { self.new.grid ≡ self.old.grid }
        ensures from { self.new.from ≡ self.old.from }
        ensures past { self.new.past ≡ self.old.past }
        ensures count { self.new.count ≡ self.old.count }
        ensures given { OnOk result (AreGiven (λ k. HasPointOf self.old.grid (self.old.from * self.old.grid.columns + k) rect.now) number self.old.bins self.new.bins) }
    {
        let lo = self.grid.place_of(rect.lo);
        let hi = self.grid.place_of(rect.hi);
        if lo == hi {
            let tile = self.grid.tile_at(lo.0, lo.1 - self.from);
            self.bins[tile as usize].push(number)?;
            return Ok(());
        }
        let first = lo.1.saturating_sub(self.from);
        let past = (hi.1 + 1)
            .saturating_sub(self.from)
            .min(self.past - self.from);
        add_rows(
            &mut self.bins,
            &self.grid,
            (lo.0, hi.0),
            (first, past),
            number,
        )
    }

    /// These bins with those of the rows that follow.
    pub fn joined(self, next: RowBins<A>) -> Result<RowBins<A>, NoMemory>
        requires grid { next.grid ≡ self.grid }
        requires next { next.from ≡ self.past }
        ensures grid { IfOk result (λ all. all.grid ≡ self.grid) }
        ensures from { IfOk result (λ all. all.from ≡ self.from) }
        ensures past { IfOk result (λ all. all.past ≡ next.past) }
        ensures bins { IfOk result (λ all. (boxes : List Rect) → AreRowBins boxes self → AreRowBins boxes next → AreRowBins boxes all) }
    {
        let mut bins = self.bins;
        let mut behind = next.bins;
        bins.append(&mut behind)?;
        Ok(RowBins {
            grid: self.grid,
            from: self.from,
            past: next.past,
            low: self.low,
            high: next.high,
            count: self.count,
            bins,
        })
    }

    /// Whether a box lies below these rows or above them.
    #[inline(always)]
    fn is_beside(&self, rect: &Rect) -> bool
        ensures value { IsTrue result ↔ ((rect.now.hi.y <ℤ (self.now.grid.bottom +ℤ pos (self.now.from * self.now.grid.side))) ⊎ ((self.now.grid.bottom +ℤ pos (self.now.past * self.now.grid.side)) ≤ℤ rect.now.lo.y)) }
        ensures some_side { 0 < self.now.grid.side }
    {
        i64::from(rect.hi.y) < self.low || i64::from(rect.lo.y) >= self.high
    }

    /// The bin of a tile, of this number from the first in these rows on.
    pub(crate) fn bin(&self, number: u32) -> &[u32]
        requires { number < (self.now.past - self.now.from) * self.now.grid.columns }
        ensures { result.now ≡ get_or self.now.bins number [] }
    {
        &self.bins[number as usize]
    }
}

/// Gives a number to the tiles of a block, from its first column to its last, and from its first row to below the one past it.
fn add_rows<A: Allocator>(
    bins: &mut [Vec<u32, A>],
    grid: &Grid,
    columns: (u32, u32),
    rows: (u32, u32),
    number: u32,
) -> Result<(), NoMemory>
    requires columns { (columns.0 ≤ columns.1) × (columns.1 < grid.now.columns) }
    requires rows { rows.1 ≤ grid.now.rows }
    requires tiles { rows.1 * grid.now.columns ≤ length bins.old }
    ensures given { OnOk result (AreGiven (IsAmong grid.now.columns columns rows) number (lists_of bins.old) (lists_of bins.new)) }
{
    for row in rows.0..rows.1 {
        let first = grid.tile_at(columns.0, row);
        let last = grid.tile_at(columns.1, row);
        add_row(bins, first, last + 1, number)?;
    }
    Ok(())
}

/// Gives a number to the tiles from one to below another.
fn add_row<A: Allocator>(
    bins: &mut [Vec<u32, A>],
    from: u32,
    to: u32,
    number: u32,
) -> Result<(), NoMemory>
    requires order { from ≤ to }
    requires within { to ≤ length bins.old }
    ensures given { OnOk result (AreGiven (λ k. (from ≤ k) × (k < to)) number (lists_of bins.old) (lists_of bins.new)) }
{
    for tile in from..to {
        bins[tile as usize].push(number)?;
    }
    Ok(())
}
