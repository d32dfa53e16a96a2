//! A line, and its edge.

ghost use Rattle.std.specs.Prelude.{◌≡◌, IfOk, map};
ghost use Rattle.edge_lines.specs.Lines.{IsEdgeBy, IsLine, IsPointBy, IsSaid, is_blank, words_of};

use crate::coordinate::coordinate;
use crate::fault::{LineFault, ReadFault};
use geom::{Edge, Pt};
use std::alloc::{AllocError, Allocator};

/// Whether a byte stands between words: a space, a tab or a carriage return.
fn is_blank(byte: u8) -> bool
    ensures { result ≡ is_blank byte }
{
    byte == b' ' || byte == b'\t' || byte == b'\r'
}

/// The words of a line.
fn words_of<A: Allocator>(alloc: A, line: &[u8]) -> Result<Vec<&[u8], A>, AllocError>
    ensures { IfOk result (λ words. map (λ w. w.now) words.items ≡ words_of line.now) }
{
    line.split(|byte| is_blank(*byte))
        .filter(|word| !word.is_empty())
        .collect(alloc)
}

/// The point of two coordinates.
fn point(x: &[u8], y: &[u8]) -> Result<Pt, LineFault>
    ensures { IsPointBy x.now y.now result }
{
    let x = coordinate(x)?;
    let y = coordinate(y)?;
    Ok(Pt { x, y })
}

/// The edge between the points of four coordinates.
fn edge_between(a: &[u8], b: &[u8], c: &[u8], d: &[u8]) -> Result<Edge, LineFault>
    ensures { IsEdgeBy a.now b.now c.now d.now result }
{
    let p = point(a, b)?;
    let q = point(c, d)?;
    match Edge::between(p, q) {
        Some(edge) => Ok(edge),
        None => Err(LineFault::OnePoint),
    }
}

/// The edge of these words, if there are any.
fn edge_of(words: &[&[u8]]) -> Result<Option<Edge>, LineFault>
    ensures { IsSaid (map (λ w. w.now) words.now) result }
{
    if words.is_empty() {
        return Ok(None);
    }
    if words.len() < 4 {
        return Err(LineFault::Syntax);
    }
    match edge_between(words[0], words[1], words[2], words[3]) {
        Ok(edge) => Ok(Some(edge)),
        Err(fault) => Err(fault),
    }
}

/// The edge of a line, if it has words.
pub(crate) fn line_edge<A: Allocator>(
    alloc: A,
    line: &[u8],
) -> Result<Result<Option<Edge>, LineFault>, AllocError>
    ensures { IfOk result (λ said. IsLine line.now said) }
{
    let words = words_of(alloc, line)?;
    Ok(edge_of(&words))
}
