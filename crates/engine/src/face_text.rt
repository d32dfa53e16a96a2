//! The text of rows, of parts of them at once with about as much to write in each.

ghost use Rattle.std.specs.Prelude.{◌≡◌, ◌<◌, ◌≤◌, All, AllPairs, IfOk, length, map, slice_range, sum};
ghost use Rattle.cover_law.specs.Areas.{row_area};
ghost use Rattle.faces_text.specs.Text.{rows_text};
ghost use Rattle.rows.specs.Made.{row_of};

use faces_text::push_row;
use geom::{NoMemory, Polygon};
use hands::{Part, map_parts, parts_of_work, worth};
use layers::LayerSize;
use results::TextParts;
use rows::Row;
use std::alloc::Allocator;
use std::thread::Threads;

/// The numbers of the layers' features.
pub(crate) fn feature_counts<A: Allocator>(
    alloc: A,
    sizes: &[LayerSize],
) -> Result<Vec<u32, A>, NoMemory>
    ensures { IfOk result (λ counts. counts.items ≡ map (λ s. s.features) sizes.now) }
{
    let mut counts = Vec::with_capacity(alloc, sizes.len())?;
    for size in sizes {
        counts.push(size.features)?;
    }
    Ok(counts)
}

/// How many points polygons have.
fn points_of<A: Allocator>(polygons: &[Polygon<A>]) -> usize {
    let mut points = 0usize;
    for polygon in polygons {
        points = points.saturating_add(polygon.shell().points().len());
        for hole in polygon.holes() {
            points = points.saturating_add(hole.points().len());
        }
    }
    points
}

/// How much there is to write of a row: a number for each of its features and points, and some words.
fn work_of<A: Allocator>(row: &Row<A>) -> usize {
    points_of(&row.polygons)
        .saturating_add(row.features.len())
        .saturating_add(4)
}

/// How much there is to write of all rows.
fn work_of_all<A: Allocator>(rows: &[Row<A>]) -> usize {
    let mut work = 0usize;
    for row in rows {
        work = work.saturating_add(work_of(row));
    }
    work
}

/// The lines of the rows of a part.
fn part_text<A: Allocator + Copy>(
    alloc: A,
    counts: &[u32],
    rows: &[Row<A>],
) -> Result<Vec<u8, A>, NoMemory>
    requires counts { sum counts.now ≤ u32.MAX }
    requires ascending { All (λ r. AllPairs (λ f g. f < g) r.features.items) rows.now }
    requires areas { All (λ r. r.twice_area ≡ row_area (row_of r)) rows.now }
    ensures { IfOk result (λ text. text.items ≡ rows_text counts.now (map row_of rows.now)) }
{
    let mut text = Vec::new(alloc);
    for row in rows {
        push_row(
            alloc,
            &mut text,
            counts,
            &row.features,
            row.twice_area,
            &row.polygons,
        )?;
    }
    Ok(text)
}

/// The text of rows, for layers of these sizes.
pub(crate) fn rows_text_alone<A: Allocator + Copy>(
    alloc: A,
    sizes: &[LayerSize],
    rows: &[Row<A>],
) -> Result<Vec<u8, A>, NoMemory>
    requires counts { sum (map (λ s. s.features) sizes.now) ≤ u32.MAX }
    requires ascending { All (λ r. AllPairs (λ f g. f < g) r.features.items) rows.now }
    requires areas { All (λ r. r.twice_area ≡ row_area (row_of r)) rows.now }
    ensures { IfOk result (λ text. text.items ≡ rows_text (map (λ s. s.features) sizes.now) (map row_of rows.now)) }
{
    let counts = feature_counts(alloc, sizes)?;
    part_text(alloc, &counts, rows)
}

/// The same by so many workers.
pub(crate) fn rows_text_by_workers<A: Allocator + Copy + Send + Sync, R: Threads + Sync>(
    rt: &R,
    alloc: A,
    workers: u32,
    sizes: &[LayerSize],
    rows: &[Row<A>],
) -> Result<TextParts<A>, NoMemory>
    requires counts { sum (map (λ s. s.features) sizes.now) ≤ u32.MAX }
    requires ascending { All (λ r. AllPairs (λ f g. f < g) r.features.items) rows.now }
    requires areas { All (λ r. r.twice_area ≡ row_area (row_of r)) rows.now }
    ensures { IfOk result (λ text. text ≡ rows_text (map (λ s. s.features) sizes.now) (map row_of rows.now)) }
{
    let counts = feature_counts(alloc, sizes)?;
    let parts = worth::parts(workers, work_of_all(rows), worth::ROW_LINES);
    rows_text_in_parts(rt, alloc, parts, &counts, rows)
}

/// The text of rows, in at most so many parts.
fn rows_text_in_parts<A: Allocator + Copy + Send + Sync, R: Threads + Sync>(
    rt: &R,
    alloc: A,
    parts: usize,
    counts: &[u32],
    rows: &[Row<A>],
) -> Result<TextParts<A>, NoMemory>
    requires counts { sum counts.now ≤ u32.MAX }
    requires ascending { All (λ r. AllPairs (λ f g. f < g) r.features.items) rows.now }
    requires areas { All (λ r. r.twice_area ≡ row_area (row_of r)) rows.now }
    ensures { IfOk result (λ text. text ≡ rows_text counts.now (map row_of rows.now)) }
{
    let parts = parts_of_work(
        alloc,
        rows.len(),
        parts,
        |place: usize| -> usize
            requires { place < length rows.now }
        { work_of(&rows[place]) },
    )?;
    let texts = map_parts(
        rt,
        alloc,
        &parts,
        |part: Part| -> Result<Vec<u8, A>, NoMemory>
            requires { (part.from ≤ part.past) × (part.past ≤ length rows.now) × (sum counts.now ≤ u32.MAX) × All (λ r. AllPairs (λ f g. f < g) r.features.items) rows.now × All (λ r. r.twice_area ≡ row_area (row_of r)) rows.now }
            ensures { IfOk result (λ text. text.items ≡ rows_text counts.entry.now (map row_of (slice_range rows.entry.now part.from part.past))) }
        { part_text(alloc, counts, &rows[part.from..part.past]) },
    )?;
    Ok(TextParts::of(texts))
}
