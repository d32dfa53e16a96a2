//! The polygons of directed edges that C passes, as columns, or the answer where there are none.

ghost use Rattle.std.specs.Prelude.{◌≡◌, All, IfOk, MatchResult};
ghost use Rattle.geom.specs.Limit.{AreInLimit};
ghost use Rattle.geom.specs.Rings.{Closes};
ghost use Rattle.overlay_c.specs.Columns.{lists_of, refused_answer};
ghost use Rattle.overlay_c.specs.Polygons.{AreDirectedItems, ArePolygonColumns, ArePolygonsAlong, FailsPolygons, directed_edges};

use crate::columns_answer::{OverlayColumnsAnswer, told};
use crate::polygons_checks::{bad_directed, directed_edge};
use crate::strip_items::OverlayDirected;
use columns::{OwnedColumns, columns_of};
use geom::{Directed, DirectedEdge, NoMemory};
use polygonize::{first_open, polygons};
use std::alloc::Global;

/// The answer where an edge is out of place.
fn bad_edge(place: usize) -> OverlayColumnsAnswer
    ensures { result ≡ refused_answer 3 18 0 place }
{
    told(3, 18, 0, place as u64)
}

/// The answer where the edges don't close at an end of this one.
fn open_edge(place: usize) -> OverlayColumnsAnswer
    ensures { result ≡ refused_answer 3 19 0 place }
{
    told(3, 19, 0, place as u64)
}

/// The answer where memory ran out.
pub fn no_memory() -> OverlayColumnsAnswer
    ensures { result ≡ refused_answer 1 10 2 0 }
{
    told(1, 10, 2, 0)
}

/// The edges that C sees so.
pub fn directed_edges(
    alloc: Global,
    items: &[OverlayDirected],
) -> Result<Vec<DirectedEdge>, NoMemory>
    ensures { IfOk result (λ v. v.items ≡ directed_edges items.now) }
{
    let mut edges = Vec::with_capacity(alloc, items.len())?;
    for item in items {
        edges.push(directed_edge(*item))?;
    }
    Ok(edges)
}

/// The edges, where they close.
fn closed_edges(
    alloc: Global,
    items: &[OverlayDirected],
) -> Result<Vec<DirectedEdge>, OverlayColumnsAnswer>
    requires { AreDirectedItems items.now }
    ensures { MatchResult result (λ v. (v.items ≡ directed_edges items.now) × Closes (directed_edges items.now)) (FailsPolygons items.now) }
{
    let Ok(edges) = directed_edges(alloc, items) else {
        return Err(no_memory());
    };
    match first_open(alloc, &edges) {
        Ok(None) => Ok(edges),
        Ok(Some(place)) => Err(open_edge(place)),
        Err(_) => Err(no_memory()),
    }
}

/// The columns of the polygons of edges that close.
fn columns_along(alloc: Global, edges: Vec<DirectedEdge>) -> Result<OwnedColumns<Global>, NoMemory>
    requires closes { Closes edges.items }
    requires in_limit { All (λ d. AreInLimit d.from d.to) edges.items }
    ensures { IfOk result (λ c. ArePolygonsAlong edges.items (lists_of c)) }
{
    let directed = Directed::new(edges);
    let polygons = polygons(alloc, &directed)?;
    columns_of(alloc, &polygons)
}

/// The columns of the polygons of directed edges, or the answer where there are none.
pub fn polygons_made(
    alloc: Global,
    items: &[OverlayDirected],
) -> Result<OwnedColumns<Global>, OverlayColumnsAnswer>
    ensures { MatchResult result (λ c. ArePolygonColumns items.now (lists_of c)) (FailsPolygons items.now) }
{
    if let Some(place) = bad_directed(items) {
        return Err(bad_edge(place));
    }
    let edges = closed_edges(alloc, items)?;
    match columns_along(alloc, edges) {
        Ok(columns) => Ok(columns),
        Err(_) => Err(no_memory()),
    }
}
