//! Numbers of vertices: that of a vertex is the place of the first edge that leaves it, so numbers are ordered as points are.

ghost use Rattle.std.specs.Prelude.{◌≡◌, ◌<◌, All, IfOk, OnOk, length, map, slice_index};
ghost use Rattle.polygonize.specs.Next.{first_vertex, ring_of};
ghost use Rattle.polygonize.specs.Number.{AreNumbers, IsLastNumber, IsNumber};

use crate::angle::are_same;
use crate::closing_edges::ClosingEdges;
use crate::counting::counted;
use crate::cycle::Cycles;
use geom::{DirectedEdge, NoMemory, Pt};
use std::alloc::{AllocError, Allocator};

/// The number of the vertex where the edge at i starts, from that of the edge before it.
fn number_at(edges: ClosingEdges<'_>, last: usize, i: usize) -> usize
    requires inside { i < length edges.list.now }
    requires last { IsLastNumber edges.list.now i last }
    ensures { IsNumber edges.entry.list.now i result }
{
    if are_same(edges.list[last].from, edges.list[i].from) {
        last
    } else {
        i
    }
}

/// For each edge the number of the vertex where it starts.
pub fn start_numbers<A: Allocator + Copy>(
    alloc: A,
    edges: ClosingEdges<'_>,
) -> Result<Vec<u32, A>, NoMemory>
    ensures { IfOk result (λ numbers. AreNumbers edges.entry.list.now numbers.items) }
{
    let mut numbers = Vec::with_capacity(alloc, edges.list.len())?;
    let mut last = 0;
    for i in 0..edges.list.len() {
        last = number_at(edges, last, i);
        numbers.push(counted(last)?)?;
    }
    Ok(numbers)
}

/// Lists the vertices of a cycle of edges, by their numbers.
pub fn list_vertices<A: Allocator>(
    ring: &mut Vec<u32, A>,
    numbers: &[u32],
    cycle: &[u32],
) -> Result<(), NoMemory>
    requires { All (λ k. k < length numbers.now) cycle.now }
    ensures { OnOk result (ring.new.items ≡ map (λ k. slice_index numbers.now k) cycle.now) }
{
    ring.clear();
    for place in cycle {
        ring.push(numbers[*place as usize])?;
    }
    Ok(())
}

/// The points of a ring of vertices.
pub fn points_of<A: Allocator + Copy>(
    alloc: A,
    edges: &[DirectedEdge],
    ring: &[u32],
) -> Result<Vec<Pt, A>, NoMemory>
    requires { All (λ k. k < length edges.now) ring.now }
    ensures { IfOk result (λ points. points.items ≡ ring_of edges.now ring.now) }
{
    let points: Result<Vec<Pt, A>, AllocError> = ring
        .iter()
        .map(|vertex| edges[*vertex as usize].from)
        .collect(alloc);
    Ok(points?)
}

/// The vertices where those cycles of edges begin that have the given numbers.
pub fn first_vertices<A: Allocator + Copy>(
    alloc: A,
    edges: &[DirectedEdge],
    cycles: &Cycles<A>,
    numbers: &[usize],
) -> Result<Vec<Pt, A>, NoMemory>
    requires some { All (λ c. 0 < length c) cycles.now }
    requires edges_inside { All (λ c. All (λ k. k < length edges.now) c) cycles.now }
    requires inside { All (λ r. r < length cycles.now) numbers.now }
    ensures { IfOk result (λ vertices. vertices.items ≡ map (first_vertex edges.now cycles.now) numbers.now) }
{
    let mut vertices = Vec::with_capacity(alloc, numbers.len())?;
    for number in numbers {
        vertices.push(edges[cycles.numbers(*number)[0] as usize].from)?;
    }
    Ok(vertices)
}
