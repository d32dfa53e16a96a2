//! The grid of tiles.

ghost use Rattle.std.specs.Prelude.{◌≡◌, ◌↔◌, ◌^◌, ℕ, pos, ◌+◌, ◌-◌, ◌*◌, ◌/◌, ◌<◌, ◌≤◌, ◌+ℤ◌, ◌≤ℤ◌, ◌⊎◌, IfOk, MatchResult, Some};
ghost use Rattle.geom.specs.Limit.{IsWithin};
ghost use Rattle.geom.specs.declared.point.Pt.{Pt};
ghost use Rattle.geom.specs.Box.{IsInBox};
ghost use Rattle.grid.specs.Tiles.{AreBounds, CoversBounds, HasRoom, HasTile, IsGridOf, IsOver, IsPlaced, IsRefusal, IsSide, Owns, Tiling, steps, tile_count, tile_left, tile_right};

use geom::{Fault, Pt, Rect};
use std::marker::Model;

/// The least side of a tile, in grid units.
pub const LEAST_SIDE: u32 = 16;

/// The greatest side of a tile, in grid units.
pub const GREATEST_SIDE: u32 = 33_554_432;

/// A side that no box within the coordinate limit reaches over.
const WHOLE_SIDE: u32 = 536_870_913;

/// The greatest number of tiles of a plan.
pub const MOST_TILES: u32 = 65_536;

/// The greatest number of tiles of any grid.
pub const MOST_CELLS: u32 = 4_194_304;

/// Square tiles of one side over a box, in columns from its left side and rows from its bottom. Tiles are numbered row by
/// row from 0.
#[derive(Clone, Copy)]
pub struct Grid {
    left: i32,
    bottom: i32,
    side: u32,
    columns: u32,
    rows: u32,
}

impl Model for Grid {
    ghost Value = { Tiling };

    ghost view = { λ g. record { left = g.left; bottom = g.bottom; side = g.side; columns = g.columns; rows = g.rows } };

    ghost inverse = { λ t. record { left = t.left; bottom = t.bottom; side = t.side; columns = t.columns; rows = t.rows } };

    ghost invariant = { λ g. HasRoom record { left = g.left; bottom = g.bottom; side = g.side; columns = g.columns; rows = g.rows } };
}

impl Grid {
    /// The grid of this side over a box; without a box it has no tiles. Refuses a side outside its limits, then a grid with
    /// too many tiles.
    pub fn new(bounds: Option<Rect>, side: u32) -> Result<Grid, Fault>
        requires { AreBounds bounds }
        ensures exact { MatchResult result (λ g. IsSide side × IsGridOf bounds side g × (tile_count g ≤ MOST_TILES)) (λ e. IsRefusal bounds side e) }
        ensures covers { IfOk result (λ g. CoversBounds bounds g) }
    {
        if side < LEAST_SIDE || side > GREATEST_SIDE {
            return Err(Fault::BadTile);
        }
        match bounds {
            None => Ok(Grid {
                left: 0,
                bottom: 0,
                side,
                columns: 0,
                rows: 0,
            }),
            Some(r) => grid_over(r, side, MOST_TILES).map_err(Fault::TooManyTiles),
        }
    }

    /// The grid of this side over a box, or of one tile where it would have more than `MOST_CELLS`.
    pub fn of_cells(bounds: Rect, side: u32) -> Grid
        requires bounds { AreBounds (Some bounds) }
        requires side { IsSide side }
        ensures exact { IsOver bounds side result ⊎ ((tile_count result ≡ 1) × (g : Tiling) × IsOver bounds side g × (MOST_CELLS < tile_count g)) }
        ensures covers { CoversBounds (Some bounds) result }
    {
        match grid_over(bounds, side, MOST_CELLS) {
            Ok(grid) => grid,
            Err(_) => Grid::one_tile(bounds),
        }
    }

    /// The grid of one tile over a box.
    pub fn one_tile(bounds: Rect) -> Grid
        requires { AreBounds (Some bounds) }
        ensures one { tile_count result ≡ 1 }
        ensures covers { CoversBounds (Some bounds) result }
    {
        Grid {
            left: bounds.lo.x,
            bottom: bounds.lo.y,
            side: WHOLE_SIDE,
            columns: 1,
            rows: 1,
        }
    }

    /// How many tiles there are.
    pub fn tiles(&self) -> u32
        ensures value { result ≡ tile_count self.now }
        ensures few { result ≤ MOST_CELLS }
    {
        self.rows * self.columns
    }

    /// How many rows there are.
    pub fn rows(&self) -> u32
        ensures { result ≡ self.now.rows }
    {
        self.rows
    }

    /// How many tiles so many rows have.
    pub(crate) fn tiles_in(&self, rows: u32) -> u32
        requires { rows ≤ self.now.rows }
        ensures value { result ≡ rows * self.now.columns }
        ensures few { result ≤ MOST_CELLS }
    {
        rows * self.columns
    }

    /// Where a row begins on the ordinate axis, in grid units; of the one past the last, where the rows end.
    pub(crate) fn row_start(&self, row: u32) -> i64
        ensures value { result ≡ self.now.bottom +ℤ pos (row * self.now.side) }
        ensures some_side { 0 < self.now.side }
    {
        let up = (u64::from(row) * u64::from(self.side)) as i64;
        i64::from(self.bottom) + up
    }

    /// The column and the row of a point.
    pub fn place_of(&self, p: Pt) -> (u32, u32)
        requires { HasTile self.now p }
        ensures placed { IsPlaced self.now p result }
        ensures few { (result.0 < MOST_CELLS) × (result.1 < MOST_CELLS) }
        ensures some_side { 0 < self.now.side }
    {
        let column = steps_to(self.left, p.x, self.side);
        let row = steps_to(self.bottom, p.y, self.side);
        (column, row)
    }

    /// The tile in a column and a row.
    pub fn tile_at(&self, column: u32, row: u32) -> u32
        requires column { column < self.now.columns }
        requires row { row < self.now.rows }
        ensures value { result ≡ row * self.now.columns + column }
        ensures below { result < tile_count self.now }
        ensures few { result < MOST_CELLS }
    {
        number_of(self.columns, self.rows, column, row)
    }

    /// The one tile that owns a point.
    pub fn tile_of(&self, p: Pt) -> u32
        requires { HasTile self.now p }
        ensures owner { Owns self.now result p }
        ensures alone { (k : ℕ) → Owns self.now k p → k ≡ result }
    {
        let (column, row) = self.place_of(p);
        self.tile_at(column, row)
    }

    /// The rectangle that has exactly the points that a tile owns.
    pub fn rect(&self, number: u32) -> Rect
        requires { number < tile_count self.now }
        ensures exact { (p : Pt) → IsInBox result.lo result.hi p ↔ Owns self.now number p }
        ensures left { result.lo.x ≡ tile_left self.now number }
        ensures right { result.hi.x ≡ tile_right self.now number }
        ensures near { result.hi.x ≤ℤ pos (2 ^ 30) }
    {
        let (left, right) = ends(self.left, number % self.columns, self.side, self.columns);
        let (bottom, top) = ends(self.bottom, number / self.columns, self.side, self.rows);
        Rect {
            lo: Pt { x: left, y: bottom },
            hi: Pt { x: right, y: top },
        }
    }
}

// The grid over a box with at most so many tiles, or how many it would have.
fn grid_over(r: Rect, side: u32, most: u32) -> Result<Grid, u64>
    requires bounds { AreBounds (Some r) }
    requires side { IsSide side }
    requires most { most ≤ MOST_CELLS }
    ensures exact { MatchResult result (λ g. IsOver r side g × (tile_count g ≤ most)) (λ count. (g : Tiling) × IsOver r side g × (count ≡ tile_count g) × (most < count)) }
    ensures covers { IfOk result (λ g. CoversBounds (Some r) g) }
{
    let columns = steps_over(r.lo.x, r.hi.x, side);
    let rows = steps_over(r.lo.y, r.hi.y, side);
    let tiles = rows * columns;
    if tiles > u64::from(most) {
        return Err(tiles);
    }
    Ok(Grid {
        left: r.lo.x,
        bottom: r.lo.y,
        side,
        columns: columns as u32,
        rows: rows as u32,
    })
}

// The tile in a column and a row.
fn number_of(columns: u32, rows: u32, column: u32, row: u32) -> u32
    requires column { column < columns }
    requires row { row < rows }
    requires few { rows * columns ≤ MOST_CELLS }
    ensures value { result ≡ row * columns + column }
    ensures below { result < rows * columns }
{
    row * columns + column
}

// The first and the last coordinate of a column.
fn ends(low: i32, index: u32, side: u32, columns: u32) -> (i32, i32)
    requires index { index < columns }
    requires low { IsWithin (2 ^ 28) low }
    requires side { (0 < side) × (side ≤ 2 ^ 30) }
    requires small { columns * side ≤ 2 ^ 29 + 2 ^ 26 }
    ensures first { result.0 ≡ low +ℤ pos (index * side) }
    ensures last { result.1 ≡ low +ℤ pos (index * side + side - 1) }
    ensures order { result.0 ≤ℤ result.1 }
{
    let first = low + (index * side) as i32;
    (first, first + (side - 1) as i32)
}

// How many sides go into a width. Most sides are powers of two, by which a shift divides in a tenth of the time.
#[inline(always)]
fn sides_in(width: u64, side: u32) -> u64
    requires { 0 < side }
    ensures { result ≡ width / side }
{
    let bits = side.trailing_zeros();
    if bits < u32::BITS && 1 << bits == u64::from(side) {
        return width >> bits;
    }
    width / u64::from(side)
}

// How many columns of this side reach from low to high.
pub fn steps_over(low: i32, high: i32, side: u32) -> u64
    requires order { low ≤ℤ high }
    requires low { IsWithin (2 ^ 28) low }
    requires high { IsWithin (2 ^ 28) high }
    requires side { 0 < side }
    ensures value { pos result ≡ steps low side high +ℤ pos 1 }
    ensures few { result ≤ 2 ^ 29 + 1 }
{
    let width = (i64::from(high) - i64::from(low)) as u64;
    width / u64::from(side) + 1
}

// The column of a coordinate.
pub fn steps_to(low: i32, x: i32, side: u32) -> u32
    requires order { low ≤ℤ x }
    requires side { 0 < side }
    ensures { steps low side x ≡ pos result }
{
    let width = (i64::from(x) - i64::from(low)) as u64;
    sides_in(width, side) as u32
}
