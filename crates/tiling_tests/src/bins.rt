//! The bins of tiles on small examples, and against a plain loop over all boxes.

ghost use Rattle.std.specs.Prelude.{◌≡◌, ◌<◌, IfOk};
ghost use Rattle.grid.specs.Tiles.{tile_count};

use crate::rects::{boxes_of, grid_over, rect, scattered};
use geom::{COORDINATE_LIMIT, NoMemory, Rect};
use std::alloc::Global;
use std::marker::Brand;
use std::sync::ledger::{Blank, Ledger};
use std::test::Fail;
use tiling::{Bins, Count, Grid};

/// Whether the numbers are those of the boxes that share a point with a rectangle, ascending, by a plain loop.
fn is_plain(list: &[Rect], area: Rect, found: &[u32]) -> bool {
    let mut next = 0usize;
    let mut number = 0u32;
    for b in list {
        if b.shares_point(&area) {
            if found.get(next) != Some(&number) {
                return false;
            }
            next = next.wrapping_add(1);
        }
        number = number.wrapping_add(1);
    }
    next == found.len()
}

/// The bins of a grid over boxes.
fn bins_of(alloc: Global, grid: &Grid, list: &[Rect]) -> Result<Bins<Global>, NoMemory>
    ensures { IfOk result (λ bins. bins.grid ≡ grid.now) }
{
    let boxes = boxes_of(alloc, list)?;
    Bins::build(alloc, grid, &boxes)
}

/// Whether the bin of each tile is that of the plain loop.
fn bins_agree(alloc: Global, grid: &Grid, list: &[Rect]) -> Result<bool, NoMemory> {
    let bins = bins_of(alloc, grid, list)?;
    let mut found = Vec::new(alloc);
    for number in 0..grid.tiles() {
        bins.bin(number, &mut found)?;
        if !is_plain(list, grid.rect(number), &found) {
            return Ok(false);
        }
    }
    Ok(true)
}

fn example() -> [Rect; 4] {
    [
        rect(0, 0, 600, 600),
        rect(100, 0, 101, 1),
        rect(500, 0, 501, 1),
        rect(100, 100, 100, 100),
    ]
}

/// Whether a tile of a grid has this bin in the example.
fn has_bin(alloc: Global, grid: &Grid, number: u32, numbers: &[u32]) -> Result<bool, NoMemory>
    requires { number < tile_count grid.now }
{
    let bins = bins_of(alloc, grid, &example())?;
    let mut found = Vec::new(alloc);
    bins.bin(number, &mut found)?;
    Ok(found.as_slice() == numbers)
}

/// The places of a tile of a grid in the example.
fn places_of<L: Ledger>(
    alloc: Global,
    grid: &Grid,
    number: u32,
    blank: Blank,
) -> Result<(u32, u32), NoMemory>
    requires name { blank.name ≡ L.name }
    requires parts { blank.parts ≡ L.parts }
    requires some { 0 < L.parts }
    requires tile { number < tile_count grid.now }
{
    let bins = bins_of(alloc, grid, &example())?;
    Ok(bins.places(number, &mut Count::<L>::new(blank)))
}

/// Whether a tile of a grid has this bin and these places in the example.
fn is_found<L: Ledger>(
    alloc: Global,
    grid: &Grid,
    row: (u32, &[u32], (u32, u32)),
    blank: Blank,
) -> bool
    requires name { blank.name ≡ L.name }
    requires parts { blank.parts ≡ L.parts }
    requires some { 0 < L.parts }
{
    let (number, numbers, places) = row;
    number < grid.tiles()
        && has_bin(alloc, grid, number, numbers) == Ok(true)
        && places_of::<L>(alloc, grid, number, blank) == Ok(places)
}

#[test]
fn bins_of_the_table(rt: HostRuntime) -> Result<(), Fail> {
    let table = [
        (6u32, [0u32, 1].as_slice(), (0u32, 3u32)),
        (31, [0, 2].as_slice(), (0, 4)),
        (37, [0].as_slice(), (0, 4)),
        (234, [0, 3].as_slice(), (0, 3)),
    ];
    let grid = grid_over(Some(rect(0, 0, 600, 600)), 16)?;
    for row in table {
        assert!(rt; is_found::<Brand>(rt.alloc(), &grid, row, Blank::new(1)));
    }
    Ok(())
}

/// Whether the bins of a grid over bounds are those of the plain loop.
fn bins_over(alloc: Global, bounds: Rect, side: u32, list: &[Rect]) -> Result<bool, NoMemory> {
    match grid_over(Some(bounds), side) {
        Ok(grid) => bins_agree(alloc, &grid, list),
        Err(_) => Ok(false),
    }
}

#[test]
fn bins_against_the_plain_loop(rt: HostRuntime) -> Result<(), Fail> {
    let limit = COORDINATE_LIMIT;
    let bounds = rect(0, 0, 600, 600);
    let whole = rect(-limit, -limit, limit, limit);
    let four = example();
    let many = scattered(rt.alloc(), 100)?;
    let ends = [
        rect(limit, limit, limit, limit),
        rect(-limit, -limit, -limit, -limit),
        whole,
    ];
    let table = [
        (bounds, 16, four.as_slice()),
        (bounds, 16, [].as_slice()),
        (bounds, 50, many.as_slice()),
        (whole, 33_554_432, ends.as_slice()),
    ];
    for (bounds, side, list) in table {
        assert!(rt; bins_over(rt.alloc(), bounds, side, list) == Ok(true));
    }
    Ok(())
}
