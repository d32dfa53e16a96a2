//! The lines of a text, and their edges.

ghost use Rattle.std.specs.Prelude.{◌≡◌, All, IfOk, MatchResult, map};
ghost use Rattle.geom.specs.Limit.{AreInLimit};
ghost use Rattle.edge_lines.specs.Lines.{AreEdges, AreLinesRefused, IsAdded, IsLineFault, IsReadFault, lines_of};

use crate::fault::ReadFault;
use crate::line::line_edge;
use geom::Edge;
use std::alloc::{AllocError, Allocator};

/// The lines of a text, without their ends.
fn lines_of<A: Allocator>(alloc: A, text: &[u8]) -> Result<Vec<&[u8], A>, AllocError>
    ensures { IfOk result (λ lines. map (λ l. l.now) lines.items ≡ lines_of text.now) }
{
    text.split(|byte| *byte == b'\n').collect(alloc)
}

/// Adds the edge of the line of this number, if it has words.
fn add_line<A: Allocator + Copy>(
    alloc: A,
    number: usize,
    line: &[u8],
    edges: &mut Vec<Edge, A>,
) -> Result<(), ReadFault>
    ensures { MatchResult result (λ _. IsAdded line.now edges.old.items edges.new.items) (IsLineFault number line.now) }
{
    match line_edge(alloc, line)? {
        Ok(Some(edge)) => Ok(edges.push(edge)?),
        Ok(None) => Ok(()),
        Err(fault) => Err(ReadFault::Line(number, fault)),
    }
}

/// The edges of lines, in their order.
fn edges_of<A: Allocator + Copy>(alloc: A, lines: &[&[u8]]) -> Result<Vec<Edge, A>, ReadFault>
    ensures { MatchResult result (λ edges. AreEdges (map (λ l. l.now) lines.now) edges.items) (AreLinesRefused (map (λ l. l.now) lines.now)) }
{
    let mut edges = Vec::new(alloc);
    for i in 0..lines.len() {
        if let Err(fault) = add_line(alloc, i + 1, lines[i], &mut edges) {
            return Err(fault);
        }
    }
    Ok(edges)
}

/// The edges of lines `x1 y1 x2 y2`, in their order: two ends that differ, in whole grid units within the coordinate limit, by spaces or
/// tabs. What a line has behind these is passed over, and so is a line without words. Refuses the first line that has no edge.
pub fn read_edges<A: Allocator + Copy>(alloc: A, text: &[u8]) -> Result<Vec<Edge, A>, ReadFault>
    ensures edges { MatchResult result (λ edges. AreEdges (lines_of text.now) edges.items) (IsReadFault text.now) }
    ensures limits { IfOk result (λ edges. All (λ e. AreInLimit e.p e.q) edges.items) }
{
    match lines_of(alloc, text) {
        Ok(lines) => edges_of(alloc, &lines),
        Err(_) => Err(ReadFault::Memory),
    }
}
