//! The directed edges of a result.

ghost use Rattle.std.specs.Prelude.{◌≡◌, ◌++◌, All, IfOk, OnOk, length, map};
ghost use Rattle.geom.specs.Limit.{AreInLimit};
ghost use Rattle.geom.specs.Directed.{AreResultEdges};
ghost use Rattle.geom.specs.Label.{both_ways, ways_by, ways_of};
ghost use Rattle.face_label.specs.Strip.{IsSetOf, IsSpanned, layers_at};

use crate::odd::directions_in;
use crate::strip::{Layers, StripSet};
use geom::{Counted, Directed, DirectedEdge, NoMemory, Op, add_directions};
use linking::Noded;
use rayon::prelude::*;
use std::alloc::{AllocError, Allocator};
use std::thread::Threads;

/// The directions of all edges, one after another.
fn in_turn<A: Allocator + Copy>(
    alloc: A,
    layers: &Layers<A>,
    counted: &[Counted],
    op: Op,
) -> Result<Vec<(bool, bool), A>, AllocError>
    requires in_limit { All (λ c. AreInLimit c.edge.p c.edge.q) counted.now }
    requires spanned { All (λ c. IsSpanned layers.now.a c.edge × IsSpanned layers.now.b c.edge) counted.now }
    ensures { IfOk result (λ all. all.items ≡ map (λ c. both_ways op (layers_at layers.now.a layers.now.b c.edge) c.edge) counted.now) }
{
    counted
        .iter()
        .map(|one| directions_in(layers, one.edge, op))
        .collect(alloc)
}

/// The directions of all edges, by many threads, or one after another where these find no memory.
fn by_strips<A: Allocator + Copy + Sync + Send, R: Threads + Sync>(
    rt: &R,
    alloc: A,
    layers: &Layers<A>,
    counted: &[Counted],
    op: Op,
) -> Result<Vec<(bool, bool), A>, AllocError>
    requires in_limit { All (λ c. AreInLimit c.edge.p c.edge.q) counted.now }
    requires spanned { All (λ c. IsSpanned layers.now.a c.edge × IsSpanned layers.now.b c.edge) counted.now }
    ensures { IfOk result (λ all. all.items ≡ map (λ c. both_ways op (layers_at layers.now.a layers.now.b c.edge) c.edge) counted.now) }
{
    let made: Result<Vec<(bool, bool), A>, AllocError> = counted
        .par_iter()
        .map(
            |one: &Counted| -> (bool, bool)
                requires in_limit { AreInLimit one.now.edge.p one.now.edge.q }
                requires spanned { IsSpanned layers.now.a one.now.edge × IsSpanned layers.now.b one.now.edge }
                ensures { result ≡ both_ways op (layers_at layers.entry.now.a layers.entry.now.b one.now.edge) one.now.edge }
            { directions_in(layers, one.edge, op) },
        )
        .collect(rt, alloc);
    match made {
        Ok(all) => Ok(all),
        Err(_) => in_turn(alloc, layers, counted, op),
    }
}

/// The directions of all edges that the strips are of.
fn labelled<A: Allocator + Copy + Sync + Send, R: Threads + Sync>(
    rt: &R,
    alloc: A,
    strips: &StripSet<A>,
    counted: &[Counted],
    op: Op,
) -> Result<Vec<(bool, bool), A>, AllocError>
    requires { IsSetOf counted.now strips.now }
    ensures { IfOk result (λ all. all.items ≡ map (λ c. ways_by op counted.now c.edge) counted.now) }
{
    match strips.layers() {
        None => Ok(Vec::new(alloc)),
        Some(layers) => by_strips(rt, alloc, layers, counted, op),
    }
}

/// All edges in their directions.
fn directed_edges<A: Allocator + Copy>(
    alloc: A,
    counted: &[Counted],
    labels: &[(bool, bool)],
) -> Result<Vec<DirectedEdge, A>, NoMemory>
    requires { length labels.now ≡ length counted.now }
    ensures { IfOk result (λ edges. edges.items ≡ ways_of counted.now labels.now) }
{
    let mut edges = Vec::new(alloc);
    for i in 0..counted.len() {
        add_directions(&mut edges, counted[i].edge, labels[i])?;
    }
    Ok(edges)
}

/// The directed edges of the result of edges that the strips are of, ascending by start, then by end.
fn directed_by<A: Allocator + Copy + Sync + Send, R: Threads + Sync>(
    rt: &R,
    alloc: A,
    strips: &StripSet<A>,
    counted: &[Counted],
    op: Op,
) -> Result<Directed<A>, NoMemory>
    requires { IsSetOf counted.now strips.now }
    ensures { IfOk result (λ directed. AreResultEdges op counted.now directed) }
{
    let labels = labelled(rt, alloc, strips, counted, op)?;
    let mut edges = directed_edges(alloc, counted, &labels)?;
    edges.sort_unstable();
    // an edge is listed once, so this leaves the list as it is
    edges.dedup();
    Ok(Directed::new(edges))
}

/// The directed edges of the result of noded edges, ascending by start, then by end.
pub fn labels<A: Allocator + Copy + Sync + Send, B: Allocator, R: Threads + Sync>(
    rt: &R,
    alloc: A,
    noded: &Noded<B>,
    op: Op,
) -> Result<Directed<A>, NoMemory>
    requires { All (λ c. AreInLimit c.edge.p c.edge.q) noded.now.edges.items }
    ensures { IfOk result (λ directed. AreResultEdges op noded.now.edges.items directed) }
{
    let strips = StripSet::build(alloc, noded)?;
    directed_by(rt, alloc, &strips, noded.edges.as_slice(), op)
}
