//! The polygons of the same texts by strips, and what is closed in a strip of a worked example.

use crate::again::{directed_of, write_polygons};
use crate::closing::{are_in_limit, each_once};
use crate::{generated, worked};
use geom::{DirectedEdge, NoMemory, Polygon, Pt};
use std::alloc::{Allocator, Global};
use strip_polygons::{parted, polygons_in_strips};
use strips_law::strip_at;

// None; one; two; one twice, so that a strip is empty; a strip of each column; all beyond the edges.
const CUTS: [&[i32]; 6] = [
    &[],
    &[3],
    &[2, 5],
    &[4, 4, 8],
    &[0, 1, 2, 3, 4, 5, 6, 7, 8, 9, 10, 11, 12, 13, 14, 15],
    &[-2_147_483_648, 100_000, 2_147_483_647],
];

// A shell over the border at 6, with a hole left of it, one over it and, in that one, an island behind it.
const EXAMPLE: &str =
    "MULTIPOLYGON (((0 0, 3 0, 3 -2, 5 -2, 5 0, 12 0, 12 6, 5 6, 5 8, 3 8, 3 6, 0 6, 0 0), (1 2, 1 3, 3 3, 3 2, 1 2), (5 1, 5 4, 8 4, 8 1, 5 1)), ((6 2, 7 2, 7 3, 6 2)))";

// Shells on both sides of the border at 6, and a hole in either; the second one has an island.
const APART: &str =
    "MULTIPOLYGON (((0 0, 5 0, 5 5, 0 5, 0 0), (1 1, 1 4, 4 4, 4 1, 1 1)), ((7 0, 16 0, 16 9, 7 9, 7 0), (8 1, 8 8, 15 8, 15 1, 8 1)), ((9 2, 14 2, 14 7, 9 2)))";

/// The first edge of a polygon's shell.
fn first_edge<A: Allocator>(polygon: &Polygon<A>) -> (Pt, Pt) {
    let points = polygon.shell().points();
    (points[0], points[1])
}

/// Writes the polygons that the edges of a text have strip by strip.
fn write_in_strips<A: Allocator + Copy>(
    out: &mut String<A>,
    alloc: A,
    cuts: &[i32],
    text: &str,
) -> Result<(), NoMemory> {
    let directed = directed_of(alloc, text)?;
    let Some(mut polygons) = polygons_in_strips(alloc, cuts, directed.edges())? else {
        return Err(NoMemory);
    };
    polygons.sort_unstable_by_key(|polygon| first_edge(polygon));
    write_polygons(out, &polygons)
}

/// Whether they are those of the text.
fn gives_again_in_strips(alloc: Global, cuts: &[i32], text: &str) -> bool {
    let mut out = String::new(alloc);
    write_in_strips(&mut out, alloc, cuts, text).is_ok() && out.as_str() == text
}

/// The first of these texts for which they aren't, by some cuts.
fn first_lost_in_strips(alloc: Global, texts: &[&'static str]) -> Option<&'static str> {
    for text in texts {
        for cuts in CUTS {
            if !gives_again_in_strips(alloc, cuts, text) {
                return Some(text);
            }
        }
    }
    None
}

/// Whether an edge has a column of the strips from one to before another one.
fn has_column(cuts: &[i32], from: usize, past: usize, edge: DirectedEdge) -> bool {
    strip_at(cuts, edge.from.min(edge.to)) < past && from <= strip_at(cuts, edge.from.max(edge.to))
}

/// How many of the edges of a text that have a column of the strips are closed there, and how many of the others begin there.
fn counts(
    alloc: Global,
    text: &str,
    cuts: &[i32],
    from: usize,
    past: usize,
) -> Result<(usize, usize), NoMemory> {
    let directed = directed_of(alloc, text)?;
    let mut known = Vec::new(alloc);
    for edge in directed.edges() {
        if has_column(cuts, from, past, *edge) {
            known.push(*edge)?;
        }
    }
    let known = each_once(known);
    if !are_in_limit(&known) {
        return Err(NoMemory);
    }
    let found = parted(alloc, cuts, from, past, &known)?;
    Ok((found.closed.len(), found.open.len()))
}

#[test]
fn worked_examples_in_strips(rt: HostRuntime) {
    assert_eq!(rt; first_lost_in_strips(rt.alloc(), worked::texts()), None);
    assert_eq!(rt; first_lost_in_strips(rt.alloc(), &[EXAMPLE, APART]), None);
}

#[test]
fn generated_layers_in_strips(rt: HostRuntime) {
    assert_eq!(rt; first_lost_in_strips(rt.alloc(), generated::texts()), None);
}

/// Both strips together close all. The hole in the first strip of the example waits for its shell; the island in the second one doesn't.
#[test]
fn what_is_closed(rt: HostRuntime) {
    assert_eq!(rt; counts(rt.alloc(), EXAMPLE, &[6], 0, 2), Ok((23, 0)));
    assert_eq!(rt; counts(rt.alloc(), EXAMPLE, &[6], 0, 1), Ok((0, 18)));
    assert_eq!(rt; counts(rt.alloc(), EXAMPLE, &[6], 1, 2), Ok((3, 2)));
    assert_eq!(rt; counts(rt.alloc(), APART, &[6], 0, 1), Ok((8, 0)));
    assert_eq!(rt; counts(rt.alloc(), APART, &[6], 1, 2), Ok((11, 0)));
}
