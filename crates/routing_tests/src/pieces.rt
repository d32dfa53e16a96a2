//! Tests of the hot pixels of tiles, found in both ways, and of their pieces.

ghost use Rattle.std.specs.Prelude.{◌≡◌, ◌<◌, All, IfOk};
ghost use Rattle.geom.specs.Limit.{AreInLimit};
ghost use Rattle.grid.specs.Tiles.{Owns, tile_count};
ghost use Rattle.hot_region.specs.Candidates.{AreCandidates};

use crate::shapes::{Ends, rectangle, segments_of};
use geom::{NoMemory, Pt, Seg};
use grid::{Count, Grid};
use hot_pixel::{hot_in, sweep};
use routing::{meets, piece};
use std::alloc::{Allocator, Global};
use std::marker::Brand;
use std::sync::ledger::{Blank, Ledger};

// A triangle, and a bow tie whose crossing lies on the corner of four tiles.
const ROW: [Ends; 7] = [
    ((0, 0), (1, 0)),
    ((1, 0), (0, 1)),
    ((0, 1), (0, 0)),
    ((15, 15), (16, 16)),
    ((16, 16), (15, 16)),
    ((15, 16), (16, 15)),
    ((16, 15), (15, 15)),
];

// The hot pixels of its tiles, and how many records each has.
const ROW_TILES: [(&[Pt], usize); 4] = [
    (
        &[
            Pt { x: 0, y: 0 },
            Pt { x: 0, y: 1 },
            Pt { x: 1, y: 0 },
            Pt { x: 15, y: 15 },
        ],
        8,
    ),
    (&[Pt { x: 16, y: 15 }], 2),
    (&[Pt { x: 15, y: 16 }], 2),
    (&[Pt { x: 16, y: 16 }], 3),
];

// How many pixels are hot, as they are found in both ways and as the pieces tell, and how many records the pieces have.
type Counts = (usize, usize, usize, usize);

// Forty lines along and forty across, each in both directions. No line has an end on another one.
fn lattice<A: Allocator>(alloc: A) -> Result<Vec<Ends, A>, NoMemory> {
    let mut ends = Vec::new(alloc);
    for number in 0..40i32 {
        let at = number.wrapping_mul(2);
        ends.extend_from_slice(&[
            ((-1, at), (79, at)),
            ((79, at), (-1, at)),
            ((at, -1), (at, 79)),
            ((at, 79), (at, -1)),
        ])?;
    }
    Ok(ends)
}

// A hundred and fifty segments over one another on one line, each one to seven steps long: enough of them to be cut.
fn pile<A: Allocator>(alloc: A) -> Result<Vec<Ends, A>, NoMemory> {
    let mut ends = Vec::new(alloc);
    for at in 0..150i32 {
        let past = at.wrapping_add(at.rem_euclid(7)).wrapping_add(1);
        ends.push(((at.wrapping_mul(2), at), (past.wrapping_mul(2), past)))?;
    }
    Ok(ends)
}

// One of seventy slanted lines side by side, and a short one beside it, which may cross it or its neighbour.
fn slanted(at: i32) -> [Ends; 2] {
    let low = at.wrapping_mul(6);
    let x = at.wrapping_mul(37).rem_euclid(290);
    let y = low
        .wrapping_add(x.div_euclid(3).wrapping_mul(2))
        .wrapping_add(at.rem_euclid(5));
    let across = (x.wrapping_add(2), y.wrapping_add(at.rem_euclid(3)));
    [
        ((0, low), (300, low.wrapping_add(200))),
        ((x, y), (across.0, across.1.wrapping_sub(1))),
    ]
}

fn confetti<A: Allocator>(alloc: A) -> Result<Vec<Ends, A>, NoMemory> {
    let mut ends = Vec::new(alloc);
    for at in 0..70i32 {
        ends.extend_from_slice(&slanted(at))?;
    }
    Ok(ends)
}

// How often a segment meets one of some pixels.
fn count_met(segments: &[Seg], pixels: &[Pt]) -> usize
    requires { All (λ s. AreInLimit s.a s.b) segments.now }
{
    let mut count = 0usize;
    for s in segments {
        for pixel in pixels {
            if pixel.is_in_limit() && meets(s, *pixel) {
                count = count.wrapping_add(1);
            }
        }
    }
    count
}

/// The numbers of all segments.
pub(crate) fn all_numbers<A: Allocator>(
    alloc: A,
    grid: &Grid,
    tile: u32,
    segments: &[Seg],
) -> Result<Vec<u32, A>, NoMemory>
    ensures { IfOk result (λ v. AreCandidates (Owns grid.now tile) segments.now v.items) }
{
    let Ok(count) = u32::try_from(segments.len()) else {
        return Err(NoMemory);
    };
    let mut numbers = Vec::new(alloc);
    for number in 0..count {
        numbers.push(number)?;
    }
    Ok(numbers)
}

fn grid_over(corners: Ends, side: u32) -> Result<Grid, NoMemory> {
    let bounds = rectangle(corners)?;
    Grid::new(Some(bounds), side).map_err(|_| NoMemory)
}

fn sweep_counting<L: Ledger, A: Allocator + Copy>(
    blank: Blank,
    alloc: A,
    grid: &Grid,
    tile: u32,
    segments: &[Seg],
    numbers: &[u32],
) -> Result<Vec<Pt, A>, NoMemory>
    requires name { blank.name ≡ L.name }
    requires parts { (blank.parts ≡ L.parts) × (blank.parts ≡ 1) }
    requires tile { tile < tile_count grid.now }
    requires limits { All (λ s. AreInLimit s.a s.b) segments.now }
    requires candidates { AreCandidates (Owns grid.now tile) segments.now numbers.now }
{
    let mut count = Count::<L>::new(blank);
    sweep(alloc, grid, tile, segments, numbers, &mut count)
}

// The hot pixels of a tile, found by a sweep.
fn swept<A: Allocator + Copy>(
    alloc: A,
    grid: &Grid,
    tile: u32,
    segments: &[Seg],
    numbers: &[u32],
) -> Result<Vec<Pt, A>, NoMemory>
    requires tile { tile < tile_count grid.now }
    requires limits { All (λ s. AreInLimit s.a s.b) segments.now }
    requires candidates { AreCandidates (Owns grid.now tile) segments.now numbers.now }
{
    sweep_counting::<Brand, _>(Blank::new(1), alloc, grid, tile, segments, numbers)
}

// The number of hot pixels and that of records of a tile's piece.
fn piece_counts<A: Allocator + Copy>(
    alloc: A,
    grid: &Grid,
    tile: u32,
    segments: &[Seg],
    numbers: &[u32],
) -> Result<(usize, usize), NoMemory>
    requires tile { tile < tile_count grid.now }
    requires limits { All (λ s. AreInLimit s.a s.b) segments.now }
    requires candidates { AreCandidates (Owns grid.now tile) segments.now numbers.now }
{
    let found = piece(alloc, grid, tile, segments, numbers)?;
    Ok((found.hot as usize, found.records.len()))
}

// The counts of a tile.
fn tile_counts<A: Allocator + Copy>(
    alloc: A,
    grid: &Grid,
    tile: u32,
    segments: &[Seg],
) -> Result<Counts, NoMemory>
    requires tile { tile < tile_count grid.now }
    requires limits { All (λ s. AreInLimit s.a s.b) segments.now }
{
    let numbers = all_numbers(alloc, grid, tile, segments)?;
    let found = hot_in(alloc, grid, tile, segments, &numbers)?.len();
    let swept = swept(alloc, grid, tile, segments, &numbers)?.len();
    let (told, records) = piece_counts(alloc, grid, tile, segments, &numbers)?;
    Ok((found, swept, told, records))
}

// Whether these are the hot pixels of a tile, in both ways.
fn are_hot<A: Allocator + Copy>(
    alloc: A,
    grid: &Grid,
    tile: u32,
    segments: &[Seg],
    pixels: &[Pt],
) -> Result<bool, NoMemory>
    requires tile { tile < tile_count grid.now }
    requires limits { All (λ s. AreInLimit s.a s.b) segments.now }
{
    let numbers = all_numbers(alloc, grid, tile, segments)?;
    let found = hot_in(alloc, grid, tile, segments, &numbers)?;
    let swept = swept(alloc, grid, tile, segments, &numbers)?;
    Ok(found.as_slice() == pixels && swept.as_slice() == pixels)
}

// Whether a tile has these hot pixels, and so many records.
fn is_tile<A: Allocator + Copy>(
    alloc: A,
    grid: &Grid,
    tile: u32,
    segments: &[Seg],
    expected: (&[Pt], usize),
) -> Result<bool, NoMemory>
    requires { All (λ s. AreInLimit s.a s.b) segments.now }
{
    let (pixels, records) = expected;
    let hot = pixels.len();
    Ok(
        tile < grid.tiles()
            && are_hot(alloc, grid, tile, segments, pixels)?
            && tile_counts(alloc, grid, tile, segments)? == (hot, hot, hot, records),
    )
}

// How many tiles of the row, from the first on, are as they were worked out.
fn row_tiles<A: Allocator + Copy>(alloc: A) -> Result<u32, NoMemory> {
    let grid = grid_over(((0, 0), (16, 16)), 16)?;
    let segments = segments_of(alloc, &ROW)?;
    let mut number = 0u32;
    for expected in ROW_TILES {
        if !is_tile(alloc, &grid, number, &segments, expected)? {
            return Ok(number);
        }
        number = number.wrapping_add(1);
    }
    Ok(number)
}

// The counts of all tiles together.
fn counts<A: Allocator + Copy>(alloc: A, grid: &Grid, segments: &[Seg]) -> Result<Counts, NoMemory>
    requires { All (λ s. AreInLimit s.a s.b) segments.now }
{
    let (mut found, mut swept, mut told, mut records) = (0usize, 0usize, 0usize, 0usize);
    for tile in 0..grid.tiles() {
        let one = tile_counts(alloc, grid, tile, segments)?;
        found = found.wrapping_add(one.0);
        swept = swept.wrapping_add(one.1);
        told = told.wrapping_add(one.2);
        records = records.wrapping_add(one.3);
    }
    Ok((found, swept, told, records))
}

fn counts_over(alloc: Global, corners: Ends, side: u32, ends: &[Ends]) -> Result<Counts, NoMemory> {
    let grid = grid_over(corners, side)?;
    counts(alloc, &grid, &segments_of(alloc, ends)?)
}

fn lattice_counts(alloc: Global) -> Result<Counts, NoMemory> {
    counts_over(alloc, ((-1, -1), (79, 79)), 32, &lattice(alloc)?)
}

fn pile_counts(alloc: Global) -> Result<Counts, NoMemory> {
    counts_over(alloc, ((0, 0), (306, 153)), 512, &pile(alloc)?)
}

// How often the segments meet the hot pixels of all tiles.
fn count_all_met<A: Allocator + Copy>(
    alloc: A,
    grid: &Grid,
    segments: &[Seg],
) -> Result<usize, NoMemory>
    requires { All (λ s. AreInLimit s.a s.b) segments.now }
{
    let mut count = 0usize;
    for tile in 0..grid.tiles() {
        let numbers = all_numbers(alloc, grid, tile, segments)?;
        let hot = hot_in(alloc, grid, tile, segments, &numbers)?;
        count = count.wrapping_add(count_met(segments, &hot));
    }
    Ok(count)
}

// Whether all ways find as many hot pixels of the confetti, and there is a record wherever a segment meets one.
fn finds_all_confetti(alloc: Global) -> Result<bool, NoMemory> {
    let grid = grid_over(((0, -1), (300, 620)), 1024)?;
    let segments = segments_of(alloc, &confetti(alloc)?)?;
    let (found, swept, told, records) = counts(alloc, &grid, &segments)?;
    let met = count_all_met(alloc, &grid, &segments)?;
    Ok((found, told, records) == (swept, swept, met))
}

#[test]
fn finds_a_row(rt: HostRuntime) {
    assert_eq!(rt; row_tiles(rt.alloc()), Ok(4));
}

// 1600 crossings and 160 ends; each of the 160 segments passes 40 crossings and has two ends.
#[test]
fn finds_a_lattice(rt: HostRuntime) {
    assert_eq!(rt; lattice_counts(rt.alloc()), Ok((1760, 1760, 1760, 6720)));
}

// The ends are hot, and each segment meets those from its first to its last.
#[test]
fn finds_a_pile(rt: HostRuntime) {
    assert_eq!(rt; pile_counts(rt.alloc()), Ok((154, 154, 154, 744)));
}

// The lines between which the short ones stand go into both halves of each rectangle.
#[test]
fn finds_confetti(rt: HostRuntime) {
    assert_eq!(rt; finds_all_confetti(rt.alloc()), Ok(true));
}
