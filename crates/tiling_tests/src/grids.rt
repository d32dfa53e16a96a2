//! The tiles of grids.

use crate::rects::{grid_over, rect};
use geom::{COORDINATE_LIMIT, Fault, Pt, Rect};
use tiling::Grid;

/// The tile of a point, where it lies in the bounds.
fn tile_in(r: Rect, side: u32, p: Pt) -> Option<u32> {
    if r.lo.is_in_limit() && r.hi.is_in_limit() && r.holds(p) {
        if let Ok(grid) = Grid::new(Some(r), side) {
            return Some(grid.tile_of(p));
        }
    }
    None
}

/// The rectangle of a tile.
fn rect_of(r: Rect, side: u32, number: u32) -> Option<Rect> {
    let grid = grid_over(Some(r), side).ok()?;
    if number < grid.tiles() {
        Some(grid.rect(number))
    } else {
        None
    }
}

/// How many tiles there are, or the fault.
fn tiles_over(bounds: Option<Rect>, side: u32) -> Result<u32, Fault> {
    match grid_over(bounds, side) {
        Ok(grid) => Ok(grid.tiles()),
        Err(e) => Err(e),
    }
}

#[test]
fn grids(rt: HostRuntime) {
    let limit = COORDINATE_LIMIT;
    let whole = Some(rect(-limit, -limit, limit, limit));
    let table = [
        (Some(rect(0, 0, 600, 600)), 16, Ok(1444)),
        (Some(rect(-17, 0, 15, 0)), 16, Ok(3)),
        (Some(rect(0, 0, 16, 16)), 16, Ok(4)),
        (None, 16, Ok(0)),
        (whole, 15, Err(Fault::BadTile)),
        (None, 33_554_433, Err(Fault::BadTile)),
        (whole, 16, Err(Fault::TooManyTiles(1_125_899_973_951_489))),
        (whole, 33_554_432, Ok(289)),
    ];
    for (bounds, side, tiles) in table {
        assert!(rt; tiles_over(bounds, side) == tiles);
    }
}

/// How many columns and rows there are: tiles whose rectangle begins as far down, and as far left, as that of the first.
fn columns_and_rows(bounds: Option<Rect>, side: u32) -> Result<(u32, u32), Fault> {
    let grid = grid_over(bounds, side)?;
    let (mut columns, mut rows) = (0u32, 0u32);
    for number in 0..grid.tiles() {
        let (first, lo) = (grid.rect(0).lo, grid.rect(number).lo);
        if lo.y == first.y {
            columns = columns.wrapping_add(1);
        }
        if lo.x == first.x {
            rows = rows.wrapping_add(1);
        }
    }
    Ok((columns, rows))
}

#[test]
fn columns_and_rows_of_grids(rt: HostRuntime) {
    let table = [
        (Some(rect(0, 0, 600, 600)), (38u32, 38u32)),
        (Some(rect(-17, 0, 15, 0)), (3, 1)),
        (Some(rect(0, 0, 16, 16)), (2, 2)),
        (None, (0, 0)),
    ];
    for (bounds, counts) in table {
        assert!(rt; columns_and_rows(bounds, 16) == Ok(counts));
    }
}

#[test]
fn points_and_tiles(rt: HostRuntime) {
    let wide = rect(0, 0, 600, 600);
    let flat = rect(-17, 0, 15, 0);
    let table = [
        (wide, 400, 200, 481u32),
        (flat, -17, 0, 0),
        (flat, -2, 0, 0),
        (flat, -1, 0, 1),
        (flat, 14, 0, 1),
        (flat, 15, 0, 2),
    ];
    for (bounds, x, y, tile) in table {
        assert!(rt; tile_in(bounds, 16, Pt { x, y }) == Some(tile));
    }
    for (tile, tiles) in [
        (481, rect(400, 192, 415, 207)),
        (1443, rect(592, 592, 607, 607)),
    ] {
        assert!(rt; rect_of(wide, 16, tile) == Some(tiles));
    }
}
