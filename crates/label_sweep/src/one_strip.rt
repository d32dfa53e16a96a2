//! The directed edges of a result along the edges of one strip of columns, for maps that are labelled strip by strip:
//! 1. The vertices in the strip's columns are listed, from the first column in which an edge begins to the last one (`strip_vertices`).
//! 2. The strip is swept, from the edges that come into it (`sweep`), for the directed edges, which are sorted (`sorted_once`).

ghost use Rattle.std.specs.Prelude.{◌≡◌, ◌++◌, [], ◌∷◌, if◌then◌else◌, All, AllPairs, IfOk, List, OnOk, filter};
ghost use Rattle.geom.specs.Directed.{IsDirectedBefore};
ghost use Rattle.geom.specs.Limit.{AreInLimit};
ghost use Rattle.geom.specs.Rounded.{edges_of};
ghost use Rattle.geom.specs.declared.edge.Counted.{Counted};
ghost use Rattle.label_sweep.specs.Column.{IsStripOf};
ghost use Rattle.label_sweep.specs.Status.{AreVertices, IsVertexOf};
ghost use Rattle.label_sweep.specs.StripLabels.{AreResultEdgesAlong, AreStripEdges, lies_in};

use crate::directed::{directed_edges, sorted_once};
use crate::pass::sweep;
use crate::vertices::{each_once, ends_of};
use geom::{Counted, DirectedEdge, NoMemory, Op, Pt};
use std::alloc::Allocator;

/// Whether a point lies in one of the columns from that of a point to that of another one.
fn is_between(v: Pt, first: Pt, last: Pt) -> bool
    ensures { result ≡ lies_in first.x last.x v }
{
    first.x <= v.x && v.x <= last.x
}

/// Adds a point, if it does.
fn add_between<A: Allocator>(
    kept: &mut Vec<Pt, A>,
    v: Pt,
    first: Pt,
    last: Pt,
) -> Result<(), NoMemory>
    ensures { OnOk result (kept.new.items ≡ kept.old.items ++ (if lies_in first.x last.x v then v ∷ [] else [])) }
{
    if is_between(v, first, last) {
        kept.push(v)?;
    }
    Ok(())
}

/// The points that do, in their order.
fn between<A: Allocator>(
    alloc: A,
    points: &[Pt],
    first: Pt,
    last: Pt,
) -> Result<Vec<Pt, A>, NoMemory>
    ensures { IfOk result (λ kept. kept.items ≡ filter (lies_in first.x last.x) points.now) }
{
    let mut kept = Vec::with_capacity(alloc, points.len())?;
    for v in points {
        add_between(&mut kept, *v, first, last)?;
    }
    Ok(kept)
}

/// Where an edge begins.
fn begin_of(one: &Counted) -> Pt
    ensures { result ≡ one.now.edge.p }
{
    one.edge.p
}

/// The ends of two lists of edges, each once, ascending.
fn vertices_of_both<A: Allocator + Copy>(
    alloc: A,
    crossing: &[Counted],
    own: &[Counted],
) -> Result<Vec<Pt, A>, NoMemory>
    ensures { IfOk result (λ vertices. AreVertices (edges_of (crossing.now ++ own.now)) vertices.items) }
{
    let mut ends = ends_of(alloc, crossing)?;
    let more = ends_of(alloc, own)?;
    ends.extend_from_slice(&more)?;
    each_once(ends)
}

/// The vertices in the columns of a strip in which its edges begin, ascending.
fn strip_vertices<A: Allocator + Copy>(
    alloc: A,
    crossing: &[Counted],
    own: &[Counted],
) -> Result<Vec<Pt, A>, NoMemory>
    ensures ends { IfOk result (λ vertices. All (IsVertexOf (edges_of (crossing.now ++ own.now))) vertices.items) }
    ensures strip { (all : List Counted) → AreStripEdges all crossing.now own.now → IfOk result (λ vertices. IsStripOf all crossing.now own.now vertices.items) }
{
    if own.is_empty() {
        return Ok(Vec::new(alloc));
    }
    let vertices = vertices_of_both(alloc, crossing, own)?;
    between(
        alloc,
        &vertices,
        begin_of(&own[0]),
        begin_of(&own[own.len() - 1]),
    )
}

/// The directed edges of the result of an operation along the edges whose lesser end lies in a strip of columns, `own`, ascending by start,
/// then by end. Of all other edges those that come into the strip are needed, `crossing`: their lesser end lies on the left of the strip, and
/// their greater end in it or on its right. Of lists that are no strip's the answer says nothing.
pub fn strip_labels<A: Allocator + Copy>(
    alloc: A,
    crossing: &[Counted],
    own: &[Counted],
    op: Op,
) -> Result<Vec<DirectedEdge, A>, NoMemory>
    requires crossing_in { All (λ e. AreInLimit e.p e.q) (edges_of crossing.now) }
    requires own_in { All (λ e. AreInLimit e.p e.q) (edges_of own.now) }
    ensures ascending { IfOk result (λ edges. AllPairs IsDirectedBefore edges.items) }
    ensures along { (all : List Counted) → AreStripEdges all crossing.now own.now → IfOk result (λ edges. AreResultEdgesAlong op all own.now edges.items) }
{
    let vertices = strip_vertices(alloc, crossing, own)?;
    let labelled = sweep(alloc, crossing, own, &vertices)?;
    let edges = directed_edges(alloc, &labelled, op)?;
    Ok(sorted_once(edges))
}
