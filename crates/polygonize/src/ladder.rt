//! Edges that span columns, from low to high, and the highest of them below a point there.
//!
//! 1. The edges are sorted by their heights over the border left of the columns, then over the last column.
//! 2. One pass checks, exactly, that neighbours are in that order at both borders. Noded edges are.
//! 3. Between the borders lines keep that order, so those below a point come before the others, and the last of them is
//!    the nearest one: a binary search finds it.

ghost use Rattle.std.specs.Prelude.{◌≡◌, ℕ, ◌↔◌, ◌<◌, All, Contains, IfOk, IfSome, IsTrue, length, map};
ghost use Rattle.geom.specs.Limit.{AreInLimit, InLimit, IsWithin, coordinate_limit};
ghost use Rattle.polygonize.specs.Below.{IsAsNear, IsGapOf};
ghost use Rattle.polygonize.specs.Column.{Spans};
ghost use Rattle.polygonize.specs.Ladder.{AreInOrder, AreSpanning, IsLadder, IsUnder, StandInOrder};
ghost use Rattle.polygonize.specs.Next.{edge_at};

use crate::below::{Gap, gap_below};
use crate::column::{Columns, spans};
use crate::limited_edges::LimitedEdges;
use geom::{DirectedEdge, Edge, NoMemory, Pt, wide_product};
use std::alloc::{AllocError, Allocator};

/// By so much heights are multiplied before they are rounded down: two that differ, of edges within the limit, differ by
/// at least 1 / 2^58.
const SCALE: i128 = 576_460_752_303_423_488;

/// Heights over two columns, rounded down.
#[derive(Clone, Copy, Debug, PartialEq, Eq, PartialOrd, Ord)]
struct Heights {
    left: i128,
    right: i128,
}

/// An edge by its number, with its heights.
#[derive(Clone, Copy)]
struct Rung {
    heights: Heights,
    number: usize,
}

/// The height of an edge's line over a column, rounded down. It only serves to sort: the order is checked afterwards.
fn height_over(edge: &Edge, column: i32) -> i128
    requires edge_in { AreInLimit edge.now.p edge.now.q }
    requires column_in { IsWithin coordinate_limit column }
{
    let run = edge.p.vector_to(edge.q).dx;
    if run <= 0 {
        return 0;
    }
    let rise = -edge.side(Pt { x: column, y: 0 });
    (i128::from(rise) * SCALE).div_euclid(i128::from(run))
}

/// The heights of an edge over the border left of the columns, and over the last column.
fn heights_of(edge: DirectedEdge, columns: Columns) -> Heights
    requires edge_in { AreInLimit edge.from edge.to }
    requires low_in { IsWithin coordinate_limit columns.low }
    requires high_in { IsWithin coordinate_limit columns.high }
    requires spans { Spans edge columns }
{
    match Edge::between(edge.from, edge.to) {
        None => Heights { left: 0, right: 0 },
        Some(edge) => Heights {
            left: height_over(&edge, columns.low - 1),
            right: height_over(&edge, columns.high),
        },
    }
}

/// Those of the edges that span the columns.
fn rungs_of<A: Allocator>(
    alloc: A,
    edges: LimitedEdges<'_>,
    numbers: &[usize],
    columns: Columns,
) -> Result<Vec<Rung, A>, NoMemory>
    requires inside { All (λ k. k < length edges.list.now) numbers.now }
    requires low_in { IsWithin coordinate_limit columns.low }
    requires high_in { IsWithin coordinate_limit columns.high }
    ensures { IfOk result (λ rungs. AreSpanning edges.entry.list.now columns numbers.now (map (λ r. r.number) rungs.items)) }
{
    let mut rungs = Vec::new(alloc);
    for number in numbers {
        let edge = edges.list[*number];
        if spans(edge, columns) {
            let heights = heights_of(edge, columns);
            rungs.push(Rung {
                heights,
                number: *number,
            })?;
        }
    }
    Ok(rungs)
}

/// The numbers of rungs.
fn numbers_of<A: Allocator + Copy>(alloc: A, rungs: &[Rung]) -> Result<Vec<usize, A>, NoMemory>
    ensures { IfOk result (λ numbers. numbers.items ≡ map (λ r. r.number) rungs.now) }
{
    let numbers: Result<Vec<usize, A>, AllocError> = rungs
        .iter()
        .map(|rung| rung.number)
        .collect(alloc);
    Ok(numbers?)
}

/// Those of the edges that span the columns, as they are sorted by their heights.
pub fn spanning<A: Allocator + Copy>(
    alloc: A,
    edges: LimitedEdges<'_>,
    numbers: &[usize],
    columns: Columns,
) -> Result<Vec<usize, A>, NoMemory>
    requires inside { All (λ k. k < length edges.list.now) numbers.now }
    requires low_in { IsWithin coordinate_limit columns.low }
    requires high_in { IsWithin coordinate_limit columns.high }
    ensures { IfOk result (λ found. AreSpanning edges.entry.list.now columns numbers.now found.items) }
{
    let mut rungs = rungs_of(alloc, edges, numbers, columns)?;
    rungs.sort_unstable_by_key(|rung| rung.heights);
    numbers_of(alloc, &rungs)
}

/// Whether an edge's line lies at or under another one's over a column.
fn is_under(e: &Edge, f: &Edge, column: i32) -> bool
    requires e_in { AreInLimit e.now.p e.now.q }
    requires f_in { AreInLimit f.now.p f.now.q }
    requires column_in { IsWithin coordinate_limit column }
    ensures { IsTrue result ↔ IsUnder e.now f.now column }
{
    let point = Pt { x: column, y: 0 };
    let first = wide_product(f.side(point), e.p.vector_to(e.q).dx);
    let second = wide_product(e.side(point), f.p.vector_to(f.q).dx);
    first <= second
}

/// Whether an edge lies at or under another one over both borders of columns that both span.
fn are_in_order(below: DirectedEdge, above: DirectedEdge, columns: Columns) -> bool
    requires below_in { AreInLimit below.from below.to }
    requires above_in { AreInLimit above.from above.to }
    requires low_in { IsWithin coordinate_limit columns.low }
    requires high_in { IsWithin coordinate_limit columns.high }
    requires spans { Spans below columns }
    ensures { IsTrue result → AreInOrder below above columns }
{
    match (
        Edge::between(below.from, below.to),
        Edge::between(above.from, above.to),
    ) {
        (Some(e), Some(f)) => is_under(&e, &f, columns.low - 1) && is_under(&e, &f, columns.high),
        _ => false,
    }
}

/// Whether edges that span the columns stand from low to high there.
pub fn is_ladder(edges: LimitedEdges<'_>, numbers: &[usize], columns: Columns) -> bool
    requires low_in { IsWithin coordinate_limit columns.low }
    requires high_in { IsWithin coordinate_limit columns.high }
    requires inside { All (λ k. k < length edges.list.now) numbers.now }
    requires spans { All (λ k. Spans (edge_at edges.list.now k) columns) numbers.now }
    ensures { IsTrue result → IsLadder edges.entry.list.now columns numbers.now }
{
    for place in 1..numbers.len() {
        if !are_in_order(
            edges.list[numbers[place - 1]],
            edges.list[numbers[place]],
            columns,
        ) {
            return false;
        }
    }
    true
}

/// The gap to the nearest edge of a ladder below the point just left of v.
pub fn highest_below(edges: LimitedEdges<'_>, ladder: &[usize], v: Pt) -> Option<Gap>
    requires v_in { InLimit v }
    requires inside { All (λ k. k < length edges.list.now) ladder.now }
    requires order { StandInOrder edges.list.now v ladder.now }
    ensures known { IfSome result (λ g. IsGapOf edges.entry.list.now v g) }
    ensures near { (k : ℕ) → Contains ladder.now k → IsAsNear (edge_at edges.entry.list.now k) v result }
{
    let mut best = None;
    let mut low = 0;
    let mut high = ladder.len();
    while low < high {
        let middle = low + (high - low) / 2;
        let number = ladder[middle];
        let found = gap_below(edges.list[number], number, v);
        if found.is_some() {
            best = found;
            low = middle + 1;
        } else {
            high = middle;
        }
    }
    best
}
