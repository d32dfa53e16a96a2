//! All strips in turn, in one process.
//!
//! 1. The first strips know their own edges and the open ones of those before (`known_of`).
//! 2. What is closed there has polygons (`closed_polygons`), and what is open goes on.

ghost use Rattle.std.specs.Prelude.{◌↔◌, All, AllPairs, IfOk, IsTrue, List, MatchOption};
ghost use Rattle.geom.specs.Canonical.{ArePolygons, Shape};
ghost use Rattle.geom.specs.Directed.{IsDirectedBefore};
ghost use Rattle.geom.specs.Limit.{AreInLimit};
ghost use Rattle.parts_law.specs.Bounds.{AreBounds};
ghost use Rattle.strip_polygons.specs.Strips.{AreInOrder, AreMet, BeginsIn};

use crate::parting::{Parts, parted};
use geom::{DirectedEdge, Edge, NoMemory, Polygon};
use label_sweep::in_order;
use polygonize::{first_open, polygons_along};
use std::alloc::Allocator;
use strips_law::strip_at;

/// Whether the lesser end of a directed edge lies in the strip.
fn begins_in(cuts: &[i32], strip: usize, d: DirectedEdge) -> bool
    ensures { IsTrue result ↔ BeginsIn cuts.now strip d }
{
    match Edge::between(d.from, d.to) {
        Some(edge) => strip_at(cuts, edge.p) == strip,
        None => false,
    }
}

/// The edges that wait, and those of the directed edges that begin in the strip, in order.
fn known_of<A: Allocator>(
    cuts: &[i32],
    strip: usize,
    waiting: Vec<DirectedEdge, A>,
    directed: &[DirectedEdge],
) -> Result<Vec<DirectedEdge, A>, NoMemory>
    ensures { IfOk result (λ known. AreMet cuts.now strip waiting.items directed.now known.items) }
{
    let mut known = waiting;
    for d in directed {
        if begins_in(cuts, strip, *d) {
            known.push(*d)?;
        }
    }
    Ok(in_order(known))
}

/// The polygons of edges that bound a part of the plane; none where edges don't close.
fn closed_polygons<A: Allocator + Copy>(
    alloc: A,
    closed: &[DirectedEdge],
) -> Result<Option<Vec<Polygon<A>, A>>, NoMemory>
    requires ascending { AllPairs IsDirectedBefore closed.now }
    requires in_limit { All (λ d. AreInLimit d.from d.to) closed.now }
    ensures { AreBounds closed.now → IfOk result (λ found. MatchOption found ⊥ (λ polygons. ArePolygons closed.now polygons.items)) }
{
    match first_open(alloc, closed)? {
        Some(_) => Ok(None),
        None => Ok(Some(polygons_along(alloc, closed)?)),
    }
}

/// The polygons of directed edges that bound a part of the plane, strip by strip, in no order; none where edges don't close.
pub fn polygons_in_strips<A: Allocator + Copy>(
    alloc: A,
    cuts: &[i32],
    directed: &[DirectedEdge],
) -> Result<Option<Vec<Polygon<A>, A>>, NoMemory>
    requires ascending { AllPairs IsDirectedBefore directed.now }
    requires in_limit { All (λ d. AreInLimit d.from d.to) directed.now }
    ensures { AreBounds directed.now → IfOk result (λ found. MatchOption found ⊥ (λ polygons. (all : List Shape) → AreInOrder polygons.items all → ArePolygons directed.now all)) }
{
    let mut polygons = Vec::new(alloc);
    let mut waiting = Vec::new(alloc);
    for strip in 0..cuts.len() + 1 {
        let known = known_of(cuts, strip, waiting, directed)?;
        let Parts { closed, open } = parted(alloc, cuts, 0, strip + 1, &known)?;
        let Some(mut found) = closed_polygons(alloc, &closed)? else {
            return Ok(None);
        };
        polygons.append(&mut found)?;
        waiting = open;
    }
    Ok(Some(polygons))
}
