//! The hot pixels of a tile with the records of the segments that meet them, found in ever smaller halves of it.
//!
//! 1. Where segments are many they are cut into portions, of which no two overlap on one carrier (`by_line`). These are the lines.
//! 2. A region, at first the tile, with many lines that run side by side in its rectangle is left: it has no hot pixel. Where nearly
//!    all do, the others are crossed with all lines (`hot_region: hot_beside`).
//! 3. Another one with many lines is parted (`hot_region: parts`), and each part is left with the lines that may meet its pixels.
//! 4. Where few are left, or one pixel, all pairs are crossed; in a pixel with many lines those of one line of each carrier.
//! 5. Each line is tested on the hot pixels that were found there (`recording`); where both are many, on those that it comes near
//!    (`spread`). Where it meets one, each segment on the line has a record.

ghost use Rattle.std.specs.Prelude.{◌<◌, ◌≤◌, All, IfOk, IfSome, List, OnOk, [], length};
ghost use Rattle.geom.specs.declared.rect.Rect.{Rect};
ghost use Rattle.geom.specs.Limit.{AreInLimit};
ghost use Rattle.hot_region.specs.declared.wall.Wall.{Wall};
ghost use Rattle.hot_region.specs.Candidates.{chosen, AreOwnedHot};
ghost use Rattle.hot_region.specs.Halving.{edges_of, AreReaching, HasHot, HasHotInside};
ghost use Rattle.hot_region.specs.Rects.{IsIn};
ghost use Rattle.hot_region.specs.Walls.{IsInside};
ghost use Rattle.routing.specs.Found.{HasInnerRecords};
ghost use Rattle.routing.specs.Pieces.{candidates_of};
ghost use Rattle.routing.specs.Recording.{AddsRecordsInside};

use crate::by_line::{by_line, lines_of};
use crate::limited::{LimitedSegments, LinedSegments};
use crate::pieces::Part;
use crate::spread::add_spread;
use geom::{NoMemory, Pt, Rect};
use hot_region::{
    FEW, Line, Region, ascending, hot_beside, hot_by_pairs, kept, parts, reaching, within_limit,
};
use std::alloc::Allocator;

/// How often a region is parted at most. Within the coordinate limit a single pixel is left after 60 halvings of its rectangle, but
/// that once by columns and once by rows a part may be larger than a half (`hot_region: parts`); and it has 60 walls at most.
const DEPTH: u32 = 122;

/// Adds those of the pixels that are hot for the lines of a rectangle that lie in a region of it, and the records there.
fn add_found<A: Allocator + Copy>(
    alloc: A,
    here: Vec<Pt, A>,
    lined: &LinedSegments<'_>,
    region: &Region<A>,
    lines: &[Line],
    found: &mut Part<A>,
) -> Result<(), NoMemory>
    requires here { HasHot region.now.rect (edges_of lines.now) [] here.items }
    requires lines_past { All (λ l. l.past ≤ length lined.now.table.now) lines.now }
    ensures pixels { OnOk result (HasHotInside (IsInside region.now.rect region.now.walls.items) (edges_of lines.now) found.old.pixels.items found.new.pixels.items) }
    ensures records { OnOk result (AddsRecordsInside lined.now.segments.now lined.now.table.now (IsInside region.now.rect region.now.walls.items) lines.now found.old.records.items found.new.records.items) }
{
    let mut pixels = kept(alloc, &region.walls, ascending(here))?;
    add_spread(alloc, &mut found.records, lined, lines, &pixels, DEPTH)?;
    found.pixels.append(&mut pixels)?;
    Ok(())
}

/// The lines that may meet a pixel of a part of a region. None stands for all of them, which so never stand in memory twice.
pub(crate) fn fewer<A: Allocator>(
    alloc: A,
    part: &Region<A>,
    lines: &[Line],
) -> Result<Option<Vec<Line, A>>, NoMemory>
    requires { AreInLimit part.now.rect.lo part.now.rect.hi }
    ensures { IfOk result (λ f. IfSome f (λ some. AreReaching (IsInside part.now.rect part.now.walls.items) lines.now some.items)) }
{
    let some = reaching(alloc, part, lines)?;
    if some.len() == lines.len() {
        return Ok(None);
    }
    Ok(Some(some))
}

/// The lines that a part is left with: the fewer ones, or all.
pub(crate) fn left_of<'a, A: Allocator>(
    lines: &'a [Line],
    fewer: &'a Option<Vec<Line, A>>,
) -> &'a [Line]
    ensures { (rect : Rect) (walls : List Wall) → IfSome fewer.now (λ some. AreReaching (IsInside rect walls) lines.now some.items) → AreReaching (IsInside rect walls) lines.now result.now }
{
    match fewer {
        Some(some) => some,
        None => lines,
    }
}

/// Adds the pixels of a region that are hot for its lines, and the records there. Where many lines run side by side, or nearly all
/// do, these are found at once; else it is parted, and each part is left with those that may meet its pixels.
fn halve<A: Allocator + Copy>(
    alloc: A,
    lined: &LinedSegments<'_>,
    region: &Region<A>,
    lines: &[Line],
    depth: u32,
    found: &mut Part<A>,
) -> Result<(), NoMemory>
    requires rect_in { AreInLimit region.now.rect.lo region.now.rect.hi }
    requires lines_past { All (λ l. l.past ≤ length lined.now.table.now) lines.now }
    ensures pixels { OnOk result (HasHotInside (IsInside region.now.rect region.now.walls.items) (edges_of lines.now) found.old.pixels.items found.new.pixels.items) }
    ensures records { OnOk result (AddsRecordsInside lined.now.segments.now lined.now.table.now (IsInside region.now.rect region.now.walls.items) lines.now found.old.records.items found.new.records.items) }
{
    if depth == 0 || lines.len() <= FEW {
        let here = hot_by_pairs(alloc, &region.rect, lines)?;
        return add_found(alloc, here, lined, region, lines, found);
    }
    if region.is_empty() {
        return Ok(());
    }
    if let Some(here) = hot_beside(alloc, &region.rect, lines)? {
        return add_found(alloc, here, lined, region, lines, found);
    }
    match parts(alloc, region, lines)? {
        None => {
            let here = hot_by_pairs(alloc, &region.rect, lines)?;
            add_found(alloc, here, lined, region, lines, found)
        }
        Some((first, second)) => {
            let part = fewer(alloc, &first, lines)?;
            let left = left_of(lines, &part);
            halve(alloc, lined, &first, left, depth - 1, found)?;
            drop(part);
            let rest = fewer(alloc, &second, lines)?;
            let left = left_of(lines, &rest);
            halve(alloc, lined, &second, left, depth - 1, found)?;
            Ok(())
        }
    }
}

/// The hot pixels of a tile among the chosen segments, ascending and each once, and the records of these segments at those that are no
/// ends of them.
pub fn found_in<A: Allocator + Copy>(
    alloc: A,
    tile: &Rect,
    limited: LimitedSegments<'_>,
    numbers: &[u32],
) -> Result<Part<A>, NoMemory>
    requires { All (λ k. k < length limited.list.now) numbers.now }
    ensures pixels { IfOk result (λ f. AreOwnedHot (IsIn tile.now) (chosen limited.entry.list.now numbers.now) f.pixels.items) }
    ensures records { IfOk result (λ f. HasInnerRecords (candidates_of limited.entry.list.now numbers.now) f.pixels.items f.records.items) }
{
    let table = by_line(alloc, tile, limited, numbers)?;
    let lines = lines_of(alloc, &table)?;
    let mut found = Part {
        pixels: Vec::new(alloc),
        records: Vec::new(alloc),
    };
    match within_limit(tile) {
        None => Ok(found),
        Some(part) => {
            let whole = Region::open(alloc, part);
            let lined = LinedSegments {
                segments: limited.list,
                table: &table,
            };
            halve(alloc, &lined, &whole, &lines, DEPTH, &mut found)?;
            Ok(Part {
                pixels: ascending(found.pixels),
                records: found.records,
            })
        }
    }
}
