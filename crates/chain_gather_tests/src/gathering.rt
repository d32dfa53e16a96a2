//! Tests of gathering, with books that hold nothing, pieces of other segments, or the tiles' own pieces.

ghost use Rattle.std.specs.Prelude.{◌≡◌, ◌<◌, All, IfOk, IfSome, Some, length};
ghost use Rattle.grid.specs.Tiles.{CoversBounds, tile_count};
ghost use Rattle.tile_book.specs.Books.{StandInOrder};
ghost use Rattle.geom.specs.Box.{IsInBox};
ghost use Rattle.geom.specs.Limit.{AreInLimit};
ghost use Rattle.linking.specs.Gathered.{AreBoxesOf, HaveTiles};
ghost use Rattle.chain_gather.specs.Gathered.{AreBinsOf};

use bumpalo::Bump;
use chain_gather::{
    LimitedSegments, Rounded, TilePiece, Tiled, gather, gather_made, gather_made_in_parts,
};
use distinct::Copies;
use geom::{Counted, NoMemory, Pt, Rect, Seg, Source};
use grid::Grid;
use lane_tests::Boxes;
use linking::TileNumbers;
use routing::{Piece, found_in, piece};
use std::alloc::{Allocator, Global};
use std::marker::Brand;
use std::sync::Wait;
use std::sync::ledger::Blank;
use std::test::*;
use std::thread::Threads;
use tile_book::{Book, Desk, Limited, Share, close};
use tiling::Bins;

pub type Ends = ((i32, i32), (i32, i32));

// A triangle, and a bow tie whose crossing lies on the corner of four tiles.
const ROW: [Ends; 7] = [
    ((0, 0), (1, 0)),
    ((1, 0), (0, 1)),
    ((0, 1), (0, 0)),
    ((15, 15), (16, 16)),
    ((16, 16), (15, 16)),
    ((15, 16), (16, 15)),
    ((16, 15), (15, 15)),
];

const BOW_TIE: [Ends; 4] = [
    ((0, 0), (1, 1)),
    ((1, 1), (0, 1)),
    ((0, 1), (1, 0)),
    ((1, 0), (0, 0)),
];

// The rounded edges of the row, with their counts in layer A.
const EDGES: [(Ends, u32); 7] = [
    (((0, 0), (0, 1)), 1),
    (((0, 0), (1, 0)), 1),
    (((0, 1), (1, 0)), 1),
    (((15, 15), (16, 15)), 1),
    (((15, 15), (16, 16)), 1),
    (((15, 16), (16, 16)), 2),
    (((16, 15), (16, 16)), 1),
];

// The sides of the cells whose pieces are known.
const SIDES: [u32; 3] = [16, 17, 1_024];

// The hot pixels and the records of the row's tiles.
const TILES: [(u32, u32); 4] = [(4, 8), (1, 2), (1, 2), (1, 3)];

pub fn point(at: (i32, i32)) -> Pt {
    Pt { x: at.0, y: at.1 }
}

/// The box of the row.
fn row_bounds() -> Result<Rect, NoMemory>
    ensures { IfOk result (λ r. AreInLimit r.lo r.hi) }
{
    let bounds = Rect::spanned_by(point((0, 0)), point((16, 16)));
    if bounds.lo.is_in_limit() && bounds.hi.is_in_limit() {
        Ok(bounds)
    } else {
        Err(NoMemory)
    }
}

fn grid_over(bounds: &Rect, side: u32) -> Result<Grid, NoMemory>
    requires { AreInLimit bounds.now.lo bounds.now.hi }
    ensures { IfOk result (λ g. CoversBounds (Some bounds.now) g) }
{
    match Grid::new(Some(*bounds), side) {
        Ok(grid) => Ok(grid),
        Err(_) => Err(NoMemory),
    }
}

fn segment_in(bounds: &Rect, ends: Ends) -> Option<Seg>
    ensures { IfSome result (λ s. AreInLimit s.a s.b × IsInBox bounds.now.lo bounds.now.hi s.a × IsInBox bounds.now.lo bounds.now.hi s.b) }
{
    let (a, b) = (point(ends.0), point(ends.1));
    if a.is_in_limit() && b.is_in_limit() && bounds.holds(a) && bounds.holds(b) {
        Seg::new(a, b, Source::A)
    } else {
        None
    }
}

fn segments_in<A: Allocator>(
    alloc: A,
    bounds: &Rect,
    ends: &[Ends],
) -> Result<Vec<Seg, A>, NoMemory>
    ensures { IfOk result (λ v. All (λ s. AreInLimit s.a s.b × IsInBox bounds.now.lo bounds.now.hi s.a × IsInBox bounds.now.lo bounds.now.hi s.b) v.items) }
{
    let mut segments = Vec::new(alloc);
    for pair in ends {
        let Some(segment) = segment_in(bounds, *pair) else {
            return Err(NoMemory);
        };
        segments.push(segment)?;
    }
    Ok(segments)
}

fn boxes_of<A: Allocator + Copy>(alloc: A, segments: &[Seg]) -> Result<Boxes<A>, NoMemory>
    ensures { IfOk result (λ boxes. AreBoxesOf segments.now boxes) }
{
    let mut boxes = Boxes::new(alloc);
    for segment in segments {
        boxes.push(segment.bounds())?;
    }
    Ok(boxes)
}

fn bins_of<A: Allocator + Copy>(
    alloc: A,
    grid: &Grid,
    segments: &[Seg],
) -> Result<Bins<A>, NoMemory>
    ensures { IfOk result (λ bins. AreBinsOf grid.now segments.now bins) }
{
    let boxes = boxes_of(alloc, segments)?;
    Bins::build(alloc, grid, &boxes)
}

fn piece_in<A: Allocator + Copy>(
    alloc: A,
    grid: &Grid,
    bins: &Bins<A>,
    tile: u32,
    segments: &[Seg],
) -> Result<Piece<A>, NoMemory>
    requires tile { tile < tile_count grid.now }
    requires limits { All (λ s. AreInLimit s.a s.b) segments.now }
    requires bins { AreBinsOf grid.now segments.now bins.now }
{
    let mut numbers = Vec::new(alloc);
    bins.bin(tile, &mut numbers)?;
    piece(alloc, grid, tile, segments, &numbers)
}

// Posts the pieces of the first tiles.
fn post_pieces<L: Limited, A: Allocator + Copy>(
    rt: &impl Wait,
    alloc: A,
    desk: &Desk<Piece<A>, L, A>,
    share: Share<L>,
    grid: &Grid,
    posted: u32,
    segments: &[Seg],
) -> Result<Share<L>, NoMemory>
    requires { All (λ s. AreInLimit s.a s.b) segments.now }
{
    let bins = bins_of(alloc, grid, segments)?;
    let mut share = share;
    for tile in 0..posted.min(grid.tiles()) {
        let made = piece_in(alloc, grid, &bins, tile, segments)?;
        let (same, _answer) = desk.post(rt, share, made);
        share = same;
    }
    Ok(share)
}

// A book of the pieces of the first tiles, made from these segments.
fn book_of<L: Limited, A: Allocator + Copy>(
    rt: &impl Wait,
    alloc: A,
    blank: Blank,
    grid: &Grid,
    posted: u32,
    segments: &[Seg],
) -> Result<Book<Piece<A>, L, A>, NoMemory>
    requires name { blank.name ≡ L.name }
    requires parts { (blank.parts ≡ L.parts) × (blank.parts ≡ 1) }
    requires limit { L.limit ≡ 4 }
    requires segments { All (λ s. AreInLimit s.a s.b) segments.now }
{
    let (desk, mut shares) = Desk::new(alloc, blank, 4, 1)?;
    let Some(share) = shares.pop() else {
        return Err(NoMemory);
    };
    shares.push(post_pieces(rt, alloc, &desk, share, grid, posted, segments)?)?;
    match close(desk, shares) {
        Ok(book) => Ok(book),
        Err(_) => Err(NoMemory),
    }
}

// The same, of the segments with these ends.
fn book_of_ends<L: Limited, A: Allocator + Copy>(
    rt: &impl Wait,
    alloc: A,
    blank: Blank,
    bounds: &Rect,
    grid: &Grid,
    posted: u32,
    ends: &[Ends],
) -> Result<Book<Piece<A>, L, A>, NoMemory>
    requires name { blank.name ≡ L.name }
    requires parts { (blank.parts ≡ L.parts) × (blank.parts ≡ 1) }
    requires limit { L.limit ≡ 4 }
{
    let segments = segments_in(alloc, bounds, ends)?;
    book_of::<L, A>(rt, alloc, blank, grid, posted, &segments)
}

// The row gathered in the second allocator, with a book.
fn gathered_with<L: Limited, A: Allocator + Copy>(
    alloc: A,
    own: A,
    book: Book<Piece<A>, L, A>,
    bounds: &Rect,
    grid: &Grid,
) -> Result<Rounded<A>, NoMemory>
    requires { CoversBounds (Some bounds.now) grid.now }
{
    let segments = segments_in(alloc, bounds, &ROW)?;
    let bins = bins_of(alloc, grid, &segments)?;
    gather(own, book, grid, &bins, &segments)
}

// The row gathered over tiles of side 16, in the second allocator, with a book of the first tiles' pieces, made from other
// segments.
fn gathered<L: Limited, A: Allocator + Copy>(
    rt: &impl Wait,
    alloc: A,
    own: A,
    blank: Blank,
    posted: u32,
    others: &[Ends],
) -> Result<Rounded<A>, NoMemory>
    requires name { blank.name ≡ L.name }
    requires parts { (blank.parts ≡ L.parts) × (blank.parts ≡ 1) }
    requires limit { L.limit ≡ 4 }
{
    let bounds = row_bounds()?;
    let grid = grid_over(&bounds, 16)?;
    let book = book_of_ends::<L, A>(rt, alloc, blank, &bounds, &grid, posted, others)?;
    gathered_with(alloc, own, book, &bounds, &grid)
}

// The pieces of all tiles of a grid over segments.
fn pieces_of<T: Tiled, A: Allocator + Copy>(
    alloc: A,
    grid: &Grid,
    limited: LimitedSegments<'_>,
) -> Result<Vec<TilePiece<T, A>, A>, NoMemory>
    requires tiled { (grid.now ≡ T.grid) × (limited.list.now ≡ T.segments) }
    ensures one_each { IfOk result (λ v. length v.items ≡ tile_count grid.now) }
    ensures in_order { IfOk result (λ v. StandInOrder (λ p. p.number) v.items) }
{
    let bins = bins_of(alloc, grid, limited.list)?;
    let mut pieces = Vec::new(alloc);
    let mut numbers = Vec::new(alloc);
    for tile in 0..grid.tiles() {
        bins.bin(tile, &mut numbers)?;
        let found = found_in(alloc, &grid.rect(tile), limited, &numbers)?;
        pieces.push(TilePiece::of_part(tile, found))?;
    }
    Ok(pieces)
}

// The rounded edges of segments whose boxes two grids cover, from the pieces of the cells of one, over the tiles of the other, in so
// many parts, or by the call that has none.
fn gathered_made<T: Tiled + Sync, R: Threads + Sync>(
    rt: &R,
    alloc: Global,
    parts: Option<usize>,
    cells: &Grid,
    grid: &Grid,
    limited: LimitedSegments<'_>,
) -> Result<Rounded<Global>, NoMemory>
    requires tiled { (cells.now ≡ T.grid) × (limited.list.now ≡ T.segments) }
    requires covered_by_cells { HaveTiles cells.now limited.list.now }
    requires covered { HaveTiles grid.now limited.list.now }
{
    let segments = limited.list;
    let copies = vec![in alloc; Copies::one(Source::A); segments.len()]?;
    let pieces: Vec<TilePiece<T, Global>> = pieces_of(alloc, cells, limited)?;
    match parts {
        None => gather_made(alloc, pieces, 0, cells, grid, segments, &copies),
        Some(parts) => gather_made_in_parts(
            rt, alloc, parts, pieces, 0, cells, grid, segments, &copies,
        ),
    }
}

// The row over tiles of side 16, from the pieces of cells of this side.
fn row_made<R: Threads + Sync>(
    rt: &R,
    alloc: Global,
    parts: Option<usize>,
    side: u32,
) -> Result<Rounded<Global>, NoMemory> {
    let bounds = row_bounds()?;
    let grid = grid_over(&bounds, 16)?;
    let cells = grid_over(&bounds, side)?;
    let segments = segments_in(alloc, &bounds, &ROW)?;
    let limited = LimitedSegments { list: &segments };
    gathered_made::<Brand, R>(rt, alloc, parts, &cells, &grid, limited)
}

// How many pieces are made anew where the row is gathered from such pieces; none where it isn't the row.
fn remade_of_made<R: Threads + Sync>(
    rt: &R,
    alloc: Global,
    parts: Option<usize>,
    side: u32,
) -> Result<Option<u32>, NoMemory> {
    let rounded = row_made(rt, alloc, parts, side)?;
    Ok(remade_of(&rounded))
}

#[test]
fn gathers_known_pieces(rt: HostRuntime) {
    for side in SIDES {
        assert_eq!(rt;
            remade_of_made(&rt, rt.alloc(), None, side),
            Ok(Some(0)),
            "{side}"
        );
    }
}

// The first side of cells from whose pieces the row isn't gathered in so many parts.
fn first_lost<R: Threads + Sync>(
    rt: &R,
    alloc: Global,
    parts: usize,
) -> Result<Option<u32>, NoMemory> {
    for side in SIDES {
        if remade_of_made(rt, alloc, Some(parts), side)? != Some(0) {
            return Ok(Some(side));
        }
    }
    Ok(None)
}

#[test]
fn gathers_known_pieces_in_parts(rt: HostRuntime) {
    for parts in [0, 1, 2, 3, 64] {
        assert_eq!(rt; first_lost(&rt, rt.alloc(), parts), Ok(None), "{parts}");
    }
}

fn is_edge(counted: &Counted, expected: &(Ends, u32)) -> bool {
    let ((p, q), in_a) = *expected;
    counted.edge.p == point(p)
        && counted.edge.q == point(q)
        && counted.in_a == in_a
        && counted.in_b == 0
}

fn are_edges(edges: &[Counted]) -> bool {
    for (counted, expected) in edges.iter().zip(&EDGES) {
        if !is_edge(counted, expected) {
            return false;
        }
    }
    edges.len() == EDGES.len()
}

fn are_tiles(tiles: &[TileNumbers]) -> bool {
    for (tile, expected) in tiles.iter().zip(&TILES) {
        if (tile.hot, tile.records) != *expected {
            return false;
        }
    }
    tiles.len() == TILES.len()
}

// How many pieces were made anew, where this is the row.
fn remade_of<A: Allocator>(rounded: &Rounded<A>) -> Option<u32> {
    if are_edges(&rounded.edges) && are_tiles(&rounded.tiles) {
        Some(rounded.remade)
    } else {
        None
    }
}

// The segments whose pieces a book has, those of how many tiles, and how many pieces are made anew.
const BOOKS: [(&[Ends], u32, u32); 6] = [
    (&ROW, 0, 4),
    (&ROW, 1, 3),
    (&ROW, 2, 2),
    (&ROW, 3, 1),
    (&ROW, 4, 0),
    (&BOW_TIE, 4, 4),
];

fn remade_of_book(
    rt: &impl Wait,
    alloc: Global,
    posted: u32,
    others: &[Ends],
) -> Result<Option<u32>, NoMemory> {
    let rounded = gathered::<Brand, _>(rt, alloc, alloc, Blank::new(1), posted, others)?;
    Ok(remade_of(&rounded))
}

#[test]
fn gathers_from_books(rt: HostRuntime) {
    for (others, posted, remade) in BOOKS {
        let found = remade_of_book(&rt, rt.alloc(), posted, others);
        assert_eq!(rt; found, Ok(Some(remade)), "{posted}");
    }
}

const ROOM: usize = 4_032;

// Whether the row is gathered in a heap of `ROOM` bytes of which that many are taken, with the first tiles' own pieces.
fn fits(rt: &impl Wait, alloc: Global, posted: u32, taken: usize) -> Result<bool, NoMemory> {
    let others = Bump::new(alloc);
    let heap = Bump::try_with_capacity(alloc, ROOM)?;
    heap.set_allocation_limit(Some(0));
    heap.try_alloc_slice_fill_clone(taken, 0u8)?;
    Ok(gathered::<Brand, _>(rt, &others, &heap, Blank::new(1), posted, &ROW).is_ok())
}

// With less and less room the last request is refused first, and then each before it. The first place, in words of 8 bytes,
// at which one is.
fn spare(rt: &impl Wait, alloc: Global, posted: u32) -> Result<usize, NoMemory> {
    for taken in 0..ROOM / 8 {
        if !fits(rt, alloc, posted, 8 * taken)? {
            return Ok(taken);
        }
    }
    Err(NoMemory)
}

// Whether the place comes sooner with no piece in the book than with all.
fn is_spared(rt: &impl Wait, alloc: Global) -> Result<bool, NoMemory> {
    let with_none = spare(rt, alloc, 0)?;
    let with_all = spare(rt, alloc, 4)?;
    Ok(0 < with_none && with_none < with_all)
}

// The tiles' own pieces are taken from the book, and not made anew.
#[test]
fn asks_for_less_with_a_full_book(rt: HostRuntime) {
    assert_eq!(rt; is_spared(&rt, rt.alloc()), Ok(true));
}
