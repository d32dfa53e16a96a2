//! The nearest edges below vertices, for all vertices that are asked for at once.
//!
//! 1. The edges over few vertices are taken into account by themselves (`short`).
//! 2. Those of the others that span the columns of the vertices are put into order from low to high. For each vertex a
//!    binary search finds the nearest one below it.
//! 3. The vertices are halved. Each half is left with those of the other edges that meet its columns.
//! 4. Where few vertices are left, or no edge, the edges that are left are looked at one by one.
//! 5. Parts of the vertices are gone through by several threads at once (`gaps_below_in_parts`).
//!
//! The vertices stand from left to right, so that an edge spans or ends in few of the parts at each depth, and is looked
//! at some log n times.

ghost use Rattle.std.specs.Prelude.{◌≡◌, ℕ, ◌<◌, ◌≤◌, All, Contains, IfOk, IfSome, IsTrue, OnOk, length, map, slice_range};
ghost use Rattle.geom.specs.Limit.{AreInLimit, InLimit};
ghost use Rattle.polygonize.specs.Below.{AreEdgesBelow, AreGapsBelow, AreKnown, AreNearer, AreNearerSpanning, IsAsNear, IsGapOf, place_of};
ghost use Rattle.polygonize.specs.Column.{AreColumnsOf, IsIn, StandFromLeft};
ghost use Rattle.polygonize.specs.Ladder.{IsLadder};
ghost use Rattle.polygonize.specs.Next.{edge_at};

use crate::below::{Gap, nearer, nearest_among};
use crate::column::{Columns, columns_of, meeting};
use crate::ladder::{highest_below, is_ladder, spanning};
use crate::limited_edges::LimitedEdges;
use crate::short::add_short;
use geom::{DirectedEdge, NoMemory, Pt};
use hands::{Part, even_parts, joined, map_parts};
use std::alloc::Allocator;
use std::thread::Threads;

/// So few vertices are not halved.
const FEW: usize = 4;

/// The gap to the nearest of some edges below the point just left of v, by a binary search where they are a ladder.
fn nearest_of(
    edges: LimitedEdges<'_>,
    numbers: &[usize],
    columns: Columns,
    is_ladder: bool,
    v: Pt,
) -> Option<Gap>
    requires v_in { InLimit v }
    requires inside { All (λ k. k < length edges.list.now) numbers.now }
    requires ladder { IsTrue is_ladder → IsLadder edges.list.now columns numbers.now }
    requires column { IsTrue is_ladder → IsIn columns v }
    ensures known { IfSome result (λ g. IsGapOf edges.entry.list.now v g) }
    ensures near { (k : ℕ) → Contains numbers.now k → IsAsNear (edge_at edges.entry.list.now k) v result }
{
    if is_ladder {
        highest_below(edges, numbers, v)
    } else {
        nearest_among(edges, numbers, v)
    }
}

/// Takes some edges into account, for each of the vertices that are asked for.
fn add_edges(
    edges: LimitedEdges<'_>,
    vertices: &[Pt],
    asked: &[usize],
    numbers: &[usize],
    columns: Columns,
    is_ladder: bool,
    best: &mut [Option<Gap>],
)
    requires vertices_in { All InLimit vertices.now }
    requires asked_in { All (λ r. r < length vertices.now) asked.now }
    requires numbers_in { All (λ k. k < length edges.list.now) numbers.now }
    requires same_length { length best.old ≡ length vertices.now }
    requires known { AreKnown edges.list.now vertices.now best.old }
    requires ladder { IsTrue is_ladder → IsLadder edges.list.now columns numbers.now }
    requires columns { IsTrue is_ladder → AreColumnsOf vertices.now asked.now columns }
    ensures { AreNearer edges.entry.list.now vertices.now asked.now numbers.now best.old best.new }
{
    for place in asked {
        let found = nearest_of(edges, numbers, columns, is_ladder, vertices[*place]);
        best[*place] = nearer(best[*place], found);
    }
}

/// Takes the edges that span the columns into account, for each of the vertices that are asked for.
fn add_spanning<A: Allocator + Copy>(
    alloc: A,
    edges: LimitedEdges<'_>,
    vertices: &[Pt],
    asked: &[usize],
    numbers: &[usize],
    columns: Columns,
    best: &mut [Option<Gap>],
) -> Result<(), NoMemory>
    requires vertices_in { All InLimit vertices.now }
    requires asked_in { All (λ r. r < length vertices.now) asked.now }
    requires numbers_in { All (λ k. k < length edges.list.now) numbers.now }
    requires same_length { length best.old ≡ length vertices.now }
    requires known { AreKnown edges.list.now vertices.now best.old }
    requires columns { AreColumnsOf vertices.now asked.now columns }
    ensures { OnOk result (AreNearerSpanning edges.entry.list.now vertices.now asked.now numbers.now columns best.old best.new) }
{
    let ladder = spanning(alloc, edges, numbers, columns)?;
    let ordered = is_ladder(edges, &ladder, columns);
    add_edges(edges, vertices, asked, &ladder, columns, ordered, best);
    Ok(())
}

/// Takes edges into account, for each of the vertices that are asked for.
fn add<A: Allocator + Copy>(
    alloc: A,
    edges: LimitedEdges<'_>,
    vertices: &[Pt],
    asked: &[usize],
    numbers: &[usize],
    best: &mut [Option<Gap>],
) -> Result<(), NoMemory>
    requires vertices_in { All InLimit vertices.now }
    requires asked_in { All (λ r. r < length vertices.now) asked.now }
    requires numbers_in { All (λ k. k < length edges.list.now) numbers.now }
    requires same_length { length best.old ≡ length vertices.now }
    requires known { AreKnown edges.list.now vertices.now best.old }
    ensures { OnOk result (AreNearer edges.entry.list.now vertices.now asked.now numbers.now best.old best.new) }
{
    let columns = columns_of(vertices, asked);
    if asked.len() <= FEW || numbers.is_empty() {
        add_edges(edges, vertices, asked, numbers, columns, false, best);
        return Ok(());
    }
    add_spanning(alloc, edges, vertices, asked, numbers, columns, best)?;
    let (first, second) = asked.split_at(asked.len() / 2);
    let part = meeting(alloc, edges, numbers, columns, columns_of(vertices, first))?;
    add(alloc, edges, vertices, first, &part, best)?;
    let rest = meeting(alloc, edges, numbers, columns, columns_of(vertices, second))?;
    add(alloc, edges, vertices, second, &rest, best)?;
    Ok(())
}

/// All numbers below a bound.
fn numbers_below<A: Allocator>(alloc: A, bound: usize) -> Result<Vec<usize, A>, NoMemory>
    ensures inside { IfOk result (λ all. All (λ r. r < bound) all.items) }
    ensures complete { IfOk result (λ all. (r : ℕ) → r < bound → Contains all.items r) }
{
    let mut all = Vec::with_capacity(alloc, bound)?;
    for number in 0..bound {
        all.push(number)?;
    }
    Ok(all)
}

/// The place of the edge of a gap.
fn place_of(gap: Option<Gap>) -> Option<usize>
    ensures { result ≡ place_of gap }
{
    Some(gap?.number)
}

/// The places of the edges of gaps.
fn places_of<A: Allocator>(
    alloc: A,
    gaps: &[Option<Gap>],
) -> Result<Vec<Option<usize>, A>, NoMemory>
    ensures { IfOk result (λ places. places.items ≡ map place_of gaps.now) }
{
    let mut places = Vec::with_capacity(alloc, gaps.len())?;
    for gap in gaps {
        places.push(place_of(*gap))?;
    }
    Ok(places)
}

/// For each vertex the gap to the nearest edge below the point just left of it.
pub fn gaps_below<A: Allocator + Copy>(
    alloc: A,
    edges: LimitedEdges<'_>,
    vertices: &[Pt],
) -> Result<Vec<Option<Gap>, A>, NoMemory>
    requires vertices_in { All InLimit vertices.now }
    requires from_left { StandFromLeft vertices.now }
    ensures { IfOk result (λ best. AreGapsBelow edges.entry.list.now vertices.now best.items) }
{
    if vertices.is_empty() {
        return Ok(Vec::new(alloc));
    }
    let mut best = vec![in alloc; None; vertices.len()]?;
    let left = add_short(alloc, edges, vertices, &mut best)?;
    let asked = numbers_below(alloc, vertices.len())?;
    add(alloc, edges, vertices, &asked, &left, &mut best)?;
    Ok(best)
}

/// For each vertex, of which none stands left of the one before it, the place of a nearest edge below the point just left of it.
pub fn edges_below<A: Allocator + Copy>(
    alloc: A,
    edges: &[DirectedEdge],
    vertices: &[Pt],
) -> Result<Vec<Option<usize>, A>, NoMemory>
    requires edges_in { All (λ d. AreInLimit d.from d.to) edges.now }
    requires vertices_in { All InLimit vertices.now }
    requires from_left { StandFromLeft vertices.now }
    ensures { IfOk result (λ below. AreEdgesBelow edges.now vertices.now below.items) }
{
    let gaps = gaps_below(alloc, LimitedEdges { list: edges }, vertices)?;
    places_of(alloc, &gaps)
}

/// The same in so many parts.
pub fn gaps_below_in_parts<R: Threads + Sync, A: Allocator + Copy + Send + Sync>(
    rt: &R,
    alloc: A,
    parts: usize,
    edges: LimitedEdges<'_>,
    vertices: &[Pt],
) -> Result<Vec<Option<Gap>, A>, NoMemory>
    requires vertices_in { All InLimit vertices.now }
    requires from_left { StandFromLeft vertices.now }
    ensures { IfOk result (λ best. AreGapsBelow edges.entry.list.now vertices.now best.items) }
{
    let all = even_parts(alloc, vertices.len(), parts)?;
    let lists = map_parts(
        rt,
        alloc,
        &all,
        |part: Part| -> Result<Vec<Option<Gap>, A>, NoMemory>
            requires { All InLimit vertices.now × StandFromLeft vertices.now × (part.from ≤ part.past) × (part.past ≤ length vertices.now) }
            ensures { IfOk result (λ best. AreGapsBelow edges.entry.list.now (slice_range vertices.entry.now part.from part.past) best.items) }
        { gaps_below(alloc, edges, &vertices[part.from..part.past]) },
    )?;
    Ok(joined(alloc, lists)?)
}
