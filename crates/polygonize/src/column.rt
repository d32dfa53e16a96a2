//! Vertical columns, and the edges that lie across them.

ghost use Rattle.std.specs.Prelude.{◌↔◌, ◌<◌, ◌≤ℤ◌, ◌<ℤ◌, All, IfOk, IsTrue, length};
ghost use Rattle.geom.specs.Limit.{AreInLimit, InLimit, IsWithin, coordinate_limit};
ghost use Rattle.polygonize.specs.Column.{AreColumnsOf, HasMeeting, Meets, Spans};

use crate::limited_edges::LimitedEdges;
use geom::{COORDINATE_LIMIT, DirectedEdge, NoMemory, Pt};
use std::alloc::Allocator;

/// The whole x from a least to a greatest one.
#[derive(Clone, Copy)]
pub struct Columns {
    pub low: i32,
    pub high: i32,
}

/// The columns of the vertices that are asked for.
pub fn columns_of(vertices: &[Pt], asked: &[usize]) -> Columns
    requires vertices_in { All InLimit vertices.now }
    requires inside { All (λ r. r < length vertices.now) asked.now }
    ensures { AreColumnsOf vertices.now asked.now result }
{
    let mut low = COORDINATE_LIMIT;
    let mut high = -COORDINATE_LIMIT;
    for place in asked {
        low = low.min(vertices[*place].x);
        high = high.max(vertices[*place].x);
    }
    Columns { low, high }
}

/// Whether what begins at one x and ends at another begins before a column, and reaches another one.
fn reaches(begin: i32, end: i32, before: i32, to: i32) -> bool
    ensures { IsTrue result ↔ ((begin <ℤ before) × (to ≤ℤ end)) }
{
    begin < before && to <= end
}

/// Whether an edge begins left of the columns, and ends in the last one or right of it.
pub fn spans(edge: DirectedEdge, columns: Columns) -> bool
    requires edge_in { AreInLimit edge.from edge.to }
    requires low_in { IsWithin coordinate_limit columns.low }
    requires high_in { IsWithin coordinate_limit columns.high }
    ensures { IsTrue result ↔ Spans edge columns }
{
    reaches(edge.from.x, edge.to.x, columns.low, columns.high)
        || reaches(edge.to.x, edge.from.x, columns.low, columns.high)
}

/// Whether an edge begins left of one of the columns, and ends there or right of it.
pub fn meets(edge: DirectedEdge, columns: Columns) -> bool
    requires edge_in { AreInLimit edge.from edge.to }
    requires low_in { IsWithin coordinate_limit columns.low }
    requires high_in { IsWithin coordinate_limit columns.high }
    ensures { IsTrue result ↔ Meets edge columns }
{
    reaches(edge.from.x, edge.to.x, columns.high, columns.low)
        || reaches(edge.to.x, edge.from.x, columns.high, columns.low)
}

/// Those of the edges that don't span all columns, and meet some of a part of them.
pub fn meeting<A: Allocator>(
    alloc: A,
    edges: LimitedEdges<'_>,
    numbers: &[usize],
    all: Columns,
    part: Columns,
) -> Result<Vec<usize, A>, NoMemory>
    requires inside { All (λ k. k < length edges.list.now) numbers.now }
    requires low_in { IsWithin coordinate_limit all.low }
    requires high_in { IsWithin coordinate_limit all.high }
    requires part_low_in { IsWithin coordinate_limit part.low }
    requires part_high_in { IsWithin coordinate_limit part.high }
    ensures inside { IfOk result (λ found. All (λ k. k < length edges.entry.list.now) found.items) }
    ensures complete { IfOk result (λ found. HasMeeting edges.entry.list.now all part numbers.now found.items) }
{
    let mut found = Vec::new(alloc);
    for number in numbers {
        let edge = edges.list[*number];
        if !spans(edge, all) && meets(edge, part) {
            found.push(*number)?;
        }
    }
    Ok(found)
}
