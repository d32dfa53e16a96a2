//! Canonical texts: the edges of their rings give the text again.

ghost use Rattle.std.specs.Prelude.{All, IfOk};
ghost use Rattle.geom.specs.Limit.{AreInLimit};
ghost use Rattle.geom.specs.Rings.{Closes};

use crate::closing::{are_in_limit, closes, each_once};
use geom::{Directed, DirectedEdge, NoMemory, Polygon, Pt, SimpleRing};
use polygonize::polygons;
use std::alloc::{Allocator, Global};

fn point(text: &str) -> Option<Pt> {
    let (x, y) = text.split_once(' ')?;
    Some(Pt {
        x: x.parse().ok()?,
        y: y.parse().ok()?,
    })
}

/// The edges of a ring as it is written, its first point again at the end.
fn add_ring<A: Allocator + Copy>(
    edges: &mut Vec<DirectedEdge, A>,
    text: &str,
) -> Result<(), NoMemory> {
    let mut last = None;
    for word in text.split(", ") {
        if let Some(to) = point(word) {
            if let Some(from) = last {
                edges.push(DirectedEdge { from, to })?;
            }
            last = Some(to);
        }
    }
    Ok(())
}

fn edges_of<A: Allocator + Copy>(alloc: A, text: &str) -> Result<Vec<DirectedEdge, A>, NoMemory> {
    let mut edges = Vec::new(alloc);
    for part in text.split('(') {
        if let Some((ring, _)) = part.split_once(')') {
            add_ring(&mut edges, ring)?;
        }
    }
    Ok(edges)
}

/// The edges of a text that close into cycles within the coordinate limit.
pub fn directed_of<A: Allocator + Copy>(alloc: A, text: &str) -> Result<Directed<A>, NoMemory>
    ensures closes { IfOk result (λ directed. Closes directed) }
    ensures in_limit { IfOk result (λ directed. All (λ d. AreInLimit d.from d.to) directed) }
{
    let edges = each_once(edges_of(alloc, text)?);
    if !closes(alloc, &edges)? || !are_in_limit(&edges) {
        return Err(NoMemory);
    }
    Ok(Directed::new(edges))
}

/// Writes a ring's points, and before them what is to stand there.
pub fn write_ring<A: Allocator + Copy>(
    out: &mut String<A>,
    before: &str,
    ring: &SimpleRing<A>,
) -> Result<(), NoMemory> {
    out.push_str(before)?;
    for point in ring.points() {
        write!(out, "{point}, ")?;
    }
    write!(out, "{})", ring.points()[0])?;
    Ok(())
}

/// What a text ends with, behind so many rings.
pub fn ending(rings: usize) -> &'static str {
    if rings == 0 {
        "MULTIPOLYGON EMPTY"
    } else {
        "))"
    }
}

fn write_polygon<A: Allocator + Copy>(
    out: &mut String<A>,
    before: &str,
    polygon: &Polygon<A>,
) -> Result<(), NoMemory> {
    write_ring(out, before, polygon.shell())?;
    for hole in polygon.holes() {
        write_ring(out, ", (", hole)?;
    }
    Ok(())
}

/// Writes polygons.
pub fn write_polygons<A: Allocator + Copy>(
    out: &mut String<A>,
    polygons: &[Polygon<A>],
) -> Result<(), NoMemory> {
    let mut before = "MULTIPOLYGON (((";
    for polygon in polygons {
        write_polygon(out, before, polygon)?;
        before = "), ((";
    }
    out.push_str(ending(polygons.len()))?;
    Ok(())
}

/// Writes the polygons of the edges of a text.
fn write_again<A: Allocator + Copy>(
    out: &mut String<A>,
    alloc: A,
    text: &str,
) -> Result<(), NoMemory> {
    let directed = directed_of(alloc, text)?;
    write_polygons(out, &polygons(alloc, &directed)?)
}

/// Whether the polygons of the edges of a text are those of the text.
pub fn gives_again(alloc: Global, text: &str) -> bool {
    let mut out = String::new(alloc);
    write_again(&mut out, alloc, text).is_ok() && out.as_str() == text
}

/// The first of these texts that isn't given again.
pub fn first_lost(alloc: Global, texts: &[&'static str]) -> Option<&'static str> {
    for text in texts {
        if !gives_again(alloc, text) {
            return Some(text);
        }
    }
    None
}
