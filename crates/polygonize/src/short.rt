//! The edges that few vertices stand over, each taken into account by itself.
//!
//! 1. An edge that doesn't meet the columns from the first vertex to the last one lies over none.
//! 2. The first vertex right of an edge's left end is found by stripes of columns (`stripes`). Those up to its right end stand from
//!    there on.
//! 3. Where they are few, the edge is taken into account for those of them that it reaches (`add_edge`). The other edges are left, by
//!    their numbers.
//!
//! Each vertex has a floor: a row below which the nearest edge so far has no point, or the least row where there is none yet. An edge
//! reaches a vertex where it has points below the vertex's row and above its floor: elsewhere it isn't below, or isn't nearer. Sixteen
//! vertices are told at once, by lanes.

ghost use Rattle.std.specs.Prelude.{◌≡◌, ◌⊎◌, ℕ, ◌+◌, ◌<◌, ◌≤◌, ◌≤ℤ◌, ◌<ℤ◌, All, IfOk, IfSome, IsTrue, OnOk, get_or, int_le, length, pos};
ghost use Rattle.box_lanes.specs.Places.{IsPlace};
ghost use Rattle.box_lanes.specs.Sides.{IsColumn, sixteen};
ghost use Rattle.geom.specs.Limit.{AreInLimit, InLimit, IsWithin, coordinate_limit};
ghost use Rattle.polygonize.specs.Below.{AreFloors, AreKnown, AreNearerFor, AreNearerWithin, AreTakenBut, IsAsNear, IsFloor, best_at, highest_row, lowest_row, vertex_at};
ghost use Rattle.polygonize.specs.Column.{IsIn, StandFromLeft, StandsOver};
ghost use Rattle.polygonize.specs.Next.{edge_at};
ghost use Rattle.polygonize.specs.Reaching.{AreHeights, IsLengthened, reaches};

use crate::below::{Gap, gap_below, nearer};
use crate::column::{Columns, meets};
use crate::limited_edges::LimitedEdges;
use crate::stripes::Stripes;
use box_lanes::split_first;
use geom::{DirectedEdge, NoMemory, Pt};
use hands::Part;
use std::alloc::Allocator;
use std::simd::prelude::*;

/// An edge over so many vertices is left.
const MANY: usize = 256;

/// So many vertices are told at once.
const LANES: usize = 16;

/// The rows of an edge's lowest and highest point.
#[derive(Clone, Copy)]
struct Rows {
    low: i32,
    high: i32,
}

/// Whether a vertex stands in a column, or left of it.
fn is_up_to(v: Pt, column: i32) -> bool
    ensures { result ≡ int_le v.x column }
{
    v.x <= column
}

/// Whether all vertices before a place stand in a column, or left of it.
fn are_up_to(vertices: &[Pt], past: usize, column: i32) -> bool
    requires from_left { StandFromLeft vertices.now }
    requires column_in { IsWithin coordinate_limit column }
    requires inside { past ≤ length vertices.now }
    ensures { IsTrue result → (r : ℕ) → r < past → (vertex_at vertices.now r).x ≤ℤ column }
{
    past == 0 || is_up_to(vertices[past - 1], column)
}

/// The place of the first vertex right of a column. The stripes say where to look, and no more.
fn first_past<A: Allocator + Copy>(vertices: &[Pt], stripes: &Stripes<A>, column: i32) -> usize
    requires from_left { StandFromLeft vertices.now }
    requires column_in { IsWithin coordinate_limit column }
    ensures inside { result ≤ length vertices.now }
    ensures before { (r : ℕ) → r < result → (vertex_at vertices.now r).x ≤ℤ column }
    ensures past { (r : ℕ) → result ≤ r → r < length vertices.now → column <ℤ (vertex_at vertices.now r).x }
{
    let from = stripes.begin_at(column, vertices.len());
    if from <= vertices.len() && are_up_to(vertices, from, column) {
        if let Some(past) = first_past_near(vertices, from, column) {
            return past;
        }
    }
    vertices.partition_point(|v| is_up_to(*v, column))
}

/// The same from a place on, where it isn't far.
fn first_past_near(vertices: &[Pt], from: usize, column: i32) -> Option<usize>
    requires from_left { StandFromLeft vertices.now }
    requires column_in { IsWithin coordinate_limit column }
    requires inside { from ≤ length vertices.now }
    ensures inside { IfSome result (λ past. (from ≤ past) × (past ≤ length vertices.now)) }
    ensures before { IfSome result (λ past. (r : ℕ) → from ≤ r → r < past → (vertex_at vertices.now r).x ≤ℤ column) }
    ensures past { IfSome result (λ past. (r : ℕ) → past ≤ r → r < length vertices.now → column <ℤ (vertex_at vertices.now r).x) }
{
    let to = vertices.len().min(from.saturating_add(MANY));
    for past in from..to {
        if !is_up_to(vertices[past], column) {
            return Some(past);
        }
    }
    if to == vertices.len() { Some(to) } else { None }
}

/// The columns from the first vertex to the last one.
fn all_columns(vertices: &[Pt]) -> Columns
    requires vertices_in { All InLimit vertices.now }
    requires from_left { StandFromLeft vertices.now }
    requires some { 0 < length vertices.now }
    ensures low_in { IsWithin coordinate_limit result.low }
    ensures high_in { IsWithin coordinate_limit result.high }
    ensures each { (r : ℕ) → r < length vertices.now → IsIn result (vertex_at vertices.now r) }
{
    Columns {
        low: vertices[0].x,
        high: vertices[vertices.len() - 1].x,
    }
}

/// The places of the vertices in whose columns an edge lies, where they aren't many.
fn places_over<A: Allocator + Copy>(
    vertices: &[Pt],
    stripes: &Stripes<A>,
    all: Columns,
    edge: DirectedEdge,
) -> Option<Part>
    requires edge_in { AreInLimit edge.from edge.to }
    requires low_in { IsWithin coordinate_limit all.low }
    requires high_in { IsWithin coordinate_limit all.high }
    requires from_left { StandFromLeft vertices.now }
    requires each { (r : ℕ) → r < length vertices.now → IsIn all (vertex_at vertices.now r) }
    ensures { IfSome result (λ part. StandsOver edge vertices.now part.from part.past) }
{
    if !meets(edge, all) {
        return Some(Part { from: 0, past: 0 });
    }
    let from = first_past(vertices, stripes, edge.from.x.min(edge.to.x));
    let past = first_past_near(vertices, from, edge.from.x.max(edge.to.x))?;
    Some(Part { from, past })
}

/// The rows of an edge.
fn rows_of(edge: DirectedEdge) -> Rows
    requires edge_in { AreInLimit edge.from edge.to }
    ensures low { result.low ≡ lowest_row edge }
    ensures high { result.high ≡ highest_row edge }
{
    Rows {
        low: edge.from.y.min(edge.to.y),
        high: edge.from.y.max(edge.to.y),
    }
}

/// The floor of a vertex whose nearest edge so far is that of a gap.
fn floor_of(edges: LimitedEdges<'_>, best: Option<Gap>) -> i32
    requires inside { IfSome best (λ g. g.number < length edges.list.now) }
    ensures { IsFloor edges.entry.list.now best result }
{
    match best {
        Some(gap) => rows_of(edges.list[gap.number]).low,
        None => i32::MIN,
    }
}

/// Adds so many numbers as there are lanes, which are read behind the last vertex.
fn lengthen<A: Allocator>(numbers: &mut Vec<i32, A>) -> Result<(), NoMemory>
    ensures { OnOk result (IsLengthened numbers.old.items numbers.new.items) }
{
    for _ in 0..LANES {
        numbers.push(0)?;
    }
    Ok(())
}

/// The rows of the vertices, and some numbers behind them.
fn heights_of<A: Allocator>(alloc: A, vertices: &[Pt]) -> Result<Vec<i32, A>, NoMemory>
    requires { All InLimit vertices.now }
    ensures { IfOk result (λ heights. AreHeights vertices.now heights.items) }
{
    let mut heights = Vec::with_capacity(alloc, vertices.len().saturating_add(LANES))?;
    for v in vertices {
        heights.push(v.y)?;
    }
    lengthen(&mut heights)?;
    Ok(heights)
}

/// The floors of vertices by the nearest edges so far, and some numbers behind them: the least row, which is one of each.
fn lowest_floors<A: Allocator>(
    alloc: A,
    edges: LimitedEdges<'_>,
    vertices: &[Pt],
    best: &[Option<Gap>],
) -> Result<Vec<i32, A>, NoMemory>
    requires same_length { length best.now ≡ length vertices.now }
    requires known { AreKnown edges.list.now vertices.now best.now }
    ensures { IfOk result (λ floors. AreFloors edges.entry.list.now best.now floors.items) }
{
    let mut floors = vec![in alloc; i32::MIN; best.len()]?;
    lengthen(&mut floors)?;
    Ok(floors)
}

/// Which of sixteen vertices an edge with these rows reaches, by their heights and floors from a place on, as bits.
fn reached(heights: &[i32], floors: &[i32], at: usize, rows: Rows) -> u64
    requires heights_fit { IsColumn heights.now }
    requires floors_fit { IsColumn floors.now }
    requires heights { at + 16 ≤ length heights.now }
    requires floors { at + 16 ≤ length floors.now }
    ensures { result ≡ sixteen (λ k. reaches rows (get_or heights.now k (pos 0)) (get_or floors.now k (pos 0))) at }
{
    (i32x16::from_slice(&heights[at..]).simd_gt(i32x16::splat(rows.low))
        & i32x16::splat(rows.high).simd_gt(i32x16::from_slice(&floors[at..]))).to_bitmask()
}

/// Takes an edge into account for a vertex.
fn add_at(
    edges: LimitedEdges<'_>,
    number: usize,
    vertices: &[Pt],
    place: usize,
    best: &mut [Option<Gap>],
    floors: &mut [i32],
)
    requires vertices_in { All InLimit vertices.now }
    requires number_in { number < length edges.list.now }
    requires place_in { place < length vertices.now }
    requires same_length { length best.old ≡ length vertices.now }
    requires known { AreKnown edges.list.now vertices.now best.old }
    requires floors { AreFloors edges.list.now best.old floors.old }
    ensures nearer { AreNearerWithin edges.entry.list.now vertices.now number place (place + 1) best.old best.new }
    ensures floors { AreFloors edges.entry.list.now best.new floors.new }
{
    let found = gap_below(edges.list[number], number, vertices[place]);
    best[place] = nearer(best[place], found);
    floors[place] = floor_of(edges, best[place]);
}

/// Takes an edge into account for those of sixteen vertices from a place on, but before another one, that it reaches, which are told as bits.
fn add_reached(
    edges: LimitedEdges<'_>,
    number: usize,
    vertices: &[Pt],
    at: usize,
    past: usize,
    reached: u64,
    best: &mut [Option<Gap>],
    floors: &mut [i32],
)
    requires vertices_in { All InLimit vertices.now }
    requires number_in { number < length edges.list.now }
    requires past_in { past ≤ length vertices.now }
    requires same_length { length best.old ≡ length vertices.now }
    requires known { AreKnown edges.list.now vertices.now best.old }
    requires floors { AreFloors edges.list.now best.old floors.old }
    requires others { (k : ℕ) → k < 16 → at + k < past → IsPlace reached k ⊎ IsAsNear (edge_at edges.list.now number) (vertex_at vertices.now (at + k)) (best_at best.old (at + k)) }
    ensures nearer { AreNearerFor edges.entry.list.now vertices.now (λ r. (at ≤ r) × (r < at + 16) × (r < past)) (λ k. k ≡ number) best.old best.new }
    ensures floors { AreFloors edges.entry.list.now best.new floors.new }
{
    let mut left = reached;
    while left != 0 {
        let (lane, rest) = split_first(left);
        if lane < past.saturating_sub(at) {
            add_at(edges, number, vertices, at + lane, best, floors);
        }
        left = rest;
    }
}

/// Takes an edge into account, for the vertices of a part.
fn add_edge(
    edges: LimitedEdges<'_>,
    number: usize,
    vertices: &[Pt],
    heights: &[i32],
    part: Part,
    best: &mut [Option<Gap>],
    floors: &mut [i32],
)
    requires vertices_in { All InLimit vertices.now }
    requires number_in { number < length edges.list.now }
    requires heights { AreHeights vertices.now heights.now }
    requires part_in { part.past ≤ length vertices.now }
    requires same_length { length best.old ≡ length vertices.now }
    requires known { AreKnown edges.list.now vertices.now best.old }
    requires floors { AreFloors edges.list.now best.old floors.old }
    ensures nearer { AreNearerWithin edges.entry.list.now vertices.now number part.from part.past best.old best.new }
    ensures floors { AreFloors edges.entry.list.now best.new floors.new }
{
    let rows = rows_of(edges.list[number]);
    let mut at = part.from;
    while at < part.past {
        let near = reached(heights, floors, at, rows);
        add_reached(edges, number, vertices, at, part.past, near, best, floors);
        at += LANES;
    }
}

/// Takes the edges over few vertices into account, and answers the numbers of the others.
pub fn add_short<A: Allocator + Copy>(
    alloc: A,
    edges: LimitedEdges<'_>,
    vertices: &[Pt],
    best: &mut [Option<Gap>],
) -> Result<Vec<usize, A>, NoMemory>
    requires vertices_in { All InLimit vertices.now }
    requires from_left { StandFromLeft vertices.now }
    requires some { 0 < length vertices.now }
    requires same_length { length best.old ≡ length vertices.now }
    requires known { AreKnown edges.list.now vertices.now best.old }
    ensures inside { IfOk result (λ left. All (λ k. k < length edges.entry.list.now) left.items) }
    ensures taken { IfOk result (λ left. AreTakenBut edges.entry.list.now vertices.now (length edges.entry.list.now) left.items best.old best.new) }
{
    let all = all_columns(vertices);
    let stripes = Stripes::of(alloc, vertices, |v: &Pt| *v)?;
    let heights = heights_of(alloc, vertices)?;
    let mut floors = lowest_floors(alloc, edges, vertices, best)?;
    let mut left = Vec::new(alloc);
    for number in 0..edges.list.len() {
        match places_over(vertices, &stripes, all, edges.list[number]) {
            Some(part) => add_edge(edges, number, vertices, &heights, part, best, &mut floors),
            None => left.push(number)?,
        }
    }
    Ok(left)
}
