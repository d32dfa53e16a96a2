//! The texts that the program writes.

ghost use Rattle.std.specs.Prelude.{◌≡◌, ◌++◌, ◌∷◌, [], IfOk, OnOk};
ghost use Rattle.results.specs.Texts.{edge_line, edges_text_of, counts_of, report_of, sizes_of, tile_line, totals_of};

use geom::{Counted, NoMemory};
use itoa::Integer;
use std::alloc::{AllocError, Allocator};
use wkt::{push_number, push_point};

// How many bytes the line of an edge has at most, where its ends are of up to six digits and its counts of one.
const LINE: usize = 32;

/// The numbers of a run.
#[derive(Debug, Drop)]
pub struct Report<A: Allocator> {
    /// The segments of the first layer.
    pub segments_a: u32,
    /// The segments of the second layer.
    pub segments_b: u32,
    /// The hot pixels.
    pub hot: u64,
    /// The pixels on the routes of all segments.
    pub records: u64,
    /// The rounded edges.
    pub edges: u32,
    /// The pieces of cells that were made anew.
    pub remade: u32,
    /// Each tile's own hot pixels, and its records.
    pub tiles: Vec<(u32, u32), A>,
}

fn push_edge<A: Allocator>(text: &mut Vec<u8, A>, counted: Counted) -> Result<(), AllocError>
    ensures { OnOk result (text.new.items ≡ text.old.items ++ edge_line counted) }
{
    push_point(text, counted.edge.p)?;
    text.push(b' ')?;
    push_point(text, counted.edge.q)?;
    text.push(b' ')?;
    push_number(text, counted.in_a)?;
    text.push(b' ')?;
    push_number(text, counted.in_b)?;
    text.push(b'\n')?;
    Ok(())
}

/// Room for the lines of so many edges, in bytes, as long as they are in most maps.
fn room_for(edges: usize) -> usize {
    edges.saturating_mul(LINE)
}

/// A line for each rounded edge.
pub fn edges_text<A: Allocator>(alloc: A, edges: &[Counted]) -> Result<Vec<u8, A>, NoMemory>
    ensures { IfOk result (λ text. text.items ≡ edges_text_of edges.now) }
{
    let mut text = Vec::with_capacity(alloc, room_for(edges.len()))?;
    for counted in edges {
        push_edge(&mut text, *counted)?;
    }
    Ok(text)
}

/// Adds a line of the report: a name and its number.
pub fn push_line<I: Integer, A: Allocator>(
    text: &mut Vec<u8, A>,
    name: &str,
    number: I,
) -> Result<(), AllocError>
    ensures { OnOk result (text.new.items ≡ text.old.items ++ (name.now ++ 32 ∷ (I.text number ++ 10 ∷ []))) }
{
    text.extend_from_slice(name.as_bytes())?;
    text.push(b' ')?;
    push_number(text, number)?;
    text.push(b'\n')?;
    Ok(())
}

/// Adds the line of a tile: its number, its own hot pixels, and its records.
pub fn push_tile<A: Allocator>(
    text: &mut Vec<u8, A>,
    number: usize,
    tile: (u32, u32),
) -> Result<(), AllocError>
    ensures { OnOk result (text.new.items ≡ text.old.items ++ tile_line number tile) }
{
    text.extend_from_slice(b"tile ")?;
    push_number(text, number)?;
    text.push(b' ')?;
    push_number(text, tile.0)?;
    text.push(b' ')?;
    push_number(text, tile.1)?;
    text.push(b'\n')?;
    Ok(())
}

fn push_sizes<A: Allocator>(text: &mut Vec<u8, A>, report: &Report<A>) -> Result<(), AllocError>
    ensures { OnOk result (text.new.items ≡ text.old.items ++ sizes_of report.now) }
{
    text.extend_from_slice(b"segments ")?;
    push_number(text, report.segments_a)?;
    push_line(text, "", report.segments_b)?;
    push_line(text, "hot", report.hot)?;
    push_line(text, "records", report.records)
}

fn push_counts<A: Allocator>(text: &mut Vec<u8, A>, report: &Report<A>) -> Result<(), AllocError>
    ensures { OnOk result (text.new.items ≡ text.old.items ++ counts_of report.now) }
{
    push_line(text, "edges", report.edges)?;
    push_line(text, "tiles", report.tiles.len())?;
    push_line(text, "remade", report.remade)
}

fn push_totals<A: Allocator>(text: &mut Vec<u8, A>, report: &Report<A>) -> Result<(), AllocError>
    ensures { OnOk result (text.new.items ≡ text.old.items ++ totals_of report.now) }
{
    push_sizes(text, report)?;
    push_counts(text, report)
}

/// The report's text.
pub fn report_text<A: Allocator>(alloc: A, report: &Report<A>) -> Result<Vec<u8, A>, NoMemory>
    ensures { IfOk result (λ text. text.items ≡ report_of report.now) }
{
    let mut text = Vec::new(alloc);
    push_totals(&mut text, report)?;
    for (number, tile) in report.tiles.iter().enumerate() {
        push_tile(&mut text, number, *tile)?;
    }
    Ok(text)
}
