//! Segments by their lines: those with the same ends stand together, whatever their direction and layer.
//!
//! 1. Few segments of which hardly any have the same ends stay as they are (`are_apart`).
//! 2. Others are brought in order by their ends (`in_order`), cut where they overlap on one carrier, and their portions are brought in
//!    order likewise (`portions_of`).
//!
//! That those with the same ends stand together saves work, and no more: each of them has a line where they don't.

ghost use Rattle.std.specs.Prelude.{ℕ, ◌≡◌, ◌+◌, ◌<◌, ◌≤◌, All, IfOk, Some, length, slice_get};
ghost use Rattle.std.specs.List.Sorted.{IsPermutation};
ghost use Rattle.routing.specs.Cutting.{AreCut};
ghost use Rattle.routing.specs.Recording.{IsCutTable, IsTable, AreLinesOf};
ghost use Rattle.routing.specs.declared.on_line.OnLine.{OnLine};

use crate::cutting::{cut_at, marks_between};
use crate::limited::LimitedSegments;
use crate::on_line::OnLine;
use geom::{Edge, NoMemory, Pt, Rect};
use hot_region::{Line, edge_of};
use std::alloc::Allocator;

/// How many segments of a tile are many. Fewer aren't cut: to look for their carriers would cost more than it saves.
const MANY: usize = 256;

/// How many words of 64 bits tell which ends were seen.
const WORDS: usize = 32;

/// One in how many of a few segments may have ends that were seen before.
const SHARE: usize = 4;

/// Odd factors, whose products are far apart for ends that are near each other.
const COLUMNS: (u64, u64) = (0x9E37_79B9_7F4A_7C15, 0xA24B_AED4_963E_E407);

const ROWS: (u64, u64) = (0xD1B5_4A32_D192_ED03, 0x9FB2_1C65_1E98_DF25);

/// The segments of these numbers, in the order of the numbers.
fn each_on_line<A: Allocator>(
    alloc: A,
    limited: LimitedSegments<'_>,
    numbers: &[u32],
) -> Result<Vec<OnLine, A>, NoMemory>
    requires { All (λ k. k < length limited.list.now) numbers.now }
    ensures { IfOk result (λ v. IsTable limited.entry.list.now numbers.now v.items) }
{
    let mut table = Vec::with_capacity(alloc, numbers.len())?;
    for number in numbers {
        table.push(OnLine {
            edge: edge_of(&limited.list[*number as usize]),
            number: *number,
        })?;
    }
    Ok(table)
}

/// A number of a point, by a factor for its column and one for its row.
fn number_of(point: Pt, column: u64, row: u64) -> u64 {
    let by_column = u64::from(point.x.cast_unsigned()).wrapping_mul(column);
    by_column.wrapping_add(u64::from(point.y.cast_unsigned()).wrapping_mul(row))
}

/// A number that few edges have in common.
fn mixed(edge: &Edge) -> u64 {
    let first = number_of(edge.p, COLUMNS.0, ROWS.0);
    first.wrapping_add(number_of(edge.q, COLUMNS.1, ROWS.1))
}

/// Whether hardly any of the edges of a table are equal, as their numbers tell.
fn are_apart(table: &[OnLine]) -> bool {
    let mut seen = [0u64; WORDS];
    let mut again = 0usize;
    for entry in table {
        let number = mixed(&entry.edge);
        let word = (number >> 59) as usize % WORDS;
        let bit = 1 << (number >> 53 & 63);
        again = again.saturating_add(usize::from(seen[word] & bit != 0));
        seen[word] |= bit;
    }
    again <= table.len() / SHARE
}

/// The edges of a table, cut where they are many.
fn portions_of<A: Allocator + Copy>(
    alloc: A,
    tile: &Rect,
    table: Vec<OnLine, A>,
) -> Result<Vec<OnLine, A>, NoMemory>
    ensures { IfOk result (λ v. AreCut table.items table.items v.items) }
{
    if table.len() > MANY {
        let marks = marks_between(alloc, tile, &table)?;
        if !marks.is_empty() {
            return cut_at(alloc, &table, &marks);
        }
    }
    Ok(table)
}

/// The same entries by their edges.
fn in_order<A: Allocator + Copy>(table: Vec<OnLine, A>) -> Vec<OnLine, A>
    ensures { IsPermutation table.items result.items }
{
    if table.is_sorted() {
        return table;
    }
    range_sort::sorted(table, |entry: &OnLine| i64::from(entry.edge.p.x))
}

/// The segments of these numbers by their lines, or their portions, whose cuts lie in a tile or next to it.
pub(crate) fn by_line<A: Allocator + Copy>(
    alloc: A,
    tile: &Rect,
    limited: LimitedSegments<'_>,
    numbers: &[u32],
) -> Result<Vec<OnLine, A>, NoMemory>
    requires { All (λ k. k < length limited.list.now) numbers.now }
    ensures { IfOk result (λ v. IsCutTable limited.entry.list.now numbers.now v.items) }
{
    let entries = each_on_line(alloc, limited, numbers)?;
    if entries.len() <= MANY && are_apart(&entries) {
        return Ok(entries);
    }
    let whole = in_order(entries);
    let table = portions_of(alloc, tile, whole)?;
    Ok(in_order(table))
}

/// The place after the last of the segments from a place on that have the same ends as the one there.
fn past_of(table: &[OnLine], first: usize) -> usize
    requires { first < length table.now }
    ensures above { first < result }
    ensures within { result ≤ length table.now }
    ensures same { (k : ℕ) (x y : OnLine) → slice_get table.now first ≡ Some x → first ≤ k → k < result → slice_get table.now k ≡ Some y → y.edge ≡ x.edge }
{
    let edge = table[first].edge;
    let mut past = first + 1;
    while past < table.len() && table[past].edge == edge {
        past += 1;
    }
    past
}

/// The lines of segments that stand by their lines.
pub(crate) fn lines_of<A: Allocator>(alloc: A, table: &[OnLine]) -> Result<Vec<Line, A>, NoMemory>
    ensures { IfOk result (λ v. AreLinesOf table.now v.items) }
{
    let mut lines = Vec::with_capacity(alloc, table.len())?;
    let mut first = 0;
    while first < table.len() {
        let past = past_of(table, first);
        let edge = table[first].edge;
        lines.push(Line { edge, first, past })?;
        first = past;
    }
    Ok(lines)
}
