//! How a piece is made: the records of its tile, in order, with what they were found among.

ghost use Rattle.std.specs.Prelude.{◌≡◌, ◌↔◌, ◌<◌, All, IfOk, OnOk, length};
ghost use Rattle.geom.specs.declared.point.Pt.{Pt};
ghost use Rattle.geom.specs.Limit.{AreInLimit, InLimit};
ghost use Rattle.hot_region.specs.Rects.{IsIn};
ghost use Rattle.grid.specs.Tiles.{tile_count, Owns};
ghost use Rattle.hot_region.specs.Candidates.{AreCandidates};
ghost use Rattle.routing.specs.Pieces.{candidates_of, IsPieceOf};
ghost use Rattle.routing.specs.Recording.{AddsEnds, AddsEndAt};

use crate::halved::found_in;
use crate::limited::LimitedSegments;
use crate::pieces::{Part, Piece};
use crate::record::{Candidate, Record, record_at};
use geom::{NoMemory, Pt, Rect, Seg};
use grid::Grid;
use std::alloc::Allocator;

/// The segments of these numbers, with them.
fn candidates_of<A: Allocator>(
    alloc: A,
    segments: &[Seg],
    numbers: &[u32],
) -> Result<Vec<Candidate, A>, NoMemory>
    requires { All (λ k. k < length segments.now) numbers.now }
    ensures { IfOk result (λ v. v.items ≡ candidates_of segments.now numbers.now) }
{
    let mut candidates = Vec::new(alloc);
    for number in numbers {
        candidates.push(Candidate {
            number: *number,
            segment: segments[*number as usize],
        })?;
    }
    Ok(candidates)
}

/// Adds the record of a segment at a pixel, if that lies in a tile.
fn add_end<A: Allocator>(
    records: &mut Vec<Record, A>,
    tile: &Rect,
    limited: LimitedSegments<'_>,
    number: u32,
    pixel: Pt,
) -> Result<(), NoMemory>
    requires below { number < length limited.list.now }
    requires pixel_in { InLimit pixel }
    ensures { OnOk result (AddsEndAt tile.now limited.entry.list.now number pixel records.old.items records.new.items) }
{
    if !tile.holds(pixel) {
        return Ok(());
    }
    records.push(record_at(limited.list, number, pixel))?;
    Ok(())
}

/// Adds the records of the segments of these numbers at those of their ends that lie in a tile.
pub fn add_ends<A: Allocator>(
    records: &mut Vec<Record, A>,
    tile: &Rect,
    limited: LimitedSegments<'_>,
    numbers: &[u32],
) -> Result<(), NoMemory>
    requires { All (λ k. k < length limited.list.now) numbers.now }
    ensures { OnOk result (AddsEnds tile.now limited.entry.list.now numbers.now records.old.items records.new.items) }
{
    for number in numbers {
        let s = limited.list[*number as usize];
        add_end(records, tile, limited, *number, s.a)?;
        add_end(records, tile, limited, *number, s.b)?;
    }
    Ok(())
}

/// The piece of a tile, found among the segments of these numbers.
pub fn piece<A: Allocator + Copy>(
    alloc: A,
    grid: &Grid,
    number: u32,
    segments: &[Seg],
    numbers: &[u32],
) -> Result<Piece<A>, NoMemory>
    requires number { number < tile_count grid.now }
    requires limits { All (λ s. AreInLimit s.a s.b) segments.now }
    requires candidates { AreCandidates (Owns grid.now number) segments.now numbers.now }
    ensures number { IfOk result (λ p. p.number ≡ number) }
    ensures tile { IfOk result (λ p. (c : Pt) → IsIn p.tile c ↔ Owns grid.now number c) }
    ensures candidates { IfOk result (λ p. p.candidates.items ≡ candidates_of segments.now numbers.now) }
    ensures exact { IfOk result (λ p. IsPieceOf (Owns grid.now number) segments.now p.hot p.records.items) }
{
    let limited = LimitedSegments { list: segments };
    let tile = grid.rect(number);
    let Part {
        pixels,
        mut records,
    } = found_in(alloc, &tile, limited, numbers)?;
    add_ends(&mut records, &tile, limited, numbers)?;
    let candidates = candidates_of(alloc, segments, numbers)?;
    records.sort_unstable();
    records.dedup();
    if pixels.len() > u32::MAX as usize || records.len() > u32::MAX as usize {
        return Err(NoMemory);
    }
    Ok(Piece {
        number,
        tile,
        candidates,
        hot: pixels.len() as u32,
        records,
    })
}
