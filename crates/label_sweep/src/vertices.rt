//! The vertices of rounded edges, and the edges that begin at one. The vertices are found so:
//! 1. The first ends are listed, in their order (`first_ends`).
//! 2. From the last edge to the first, a second end is added unless a small table has it, which holds first ends of later edges: on a map
//!    few are (`add_second_ends`).
//! 3. The list is sorted, by a sort that keeps the run of the first ends, and rid of repeats (`each_once`).

ghost use Rattle.std.specs.Prelude.{◌≡◌, ◌≤◌, ◌⊎◌, All, AllPairs, Contains, IfOk, List, OnOk, false, length, true};
ghost use Rattle.std.specs.List.{AllWithin};
ghost use Rattle.geom.specs.EdgeOrder.{IsEdgeBefore};
ghost use Rattle.geom.specs.Order.{IsBefore, IsUpTo};
ghost use Rattle.geom.specs.Rounded.{edges_of};
ghost use Rattle.geom.specs.declared.edge.Edge.{Edge};
ghost use Rattle.label_sweep.specs.Status.{AreEnds, AreVertices, IsVertexOf};

use geom::{Counted, NoMemory, Pt};
use std::alloc::Allocator;

/// How many places the table of first ends has at most.
const MOST_PLACES: usize = 65_536;

/// How many places of the table an edge is worth.
const PLACES: usize = 4;

/// Points in their order, each once: a look at each where they ascend.
pub fn each_once<A: Allocator>(mut points: Vec<Pt, A>) -> Result<Vec<Pt, A>, NoMemory>
    ensures { IfOk result (λ vertices. (es : List Edge) → AreEnds es points.items → AreVertices es vertices.items) }
{
    points.sort()?;
    points.dedup();
    Ok(points)
}

/// Both ends of each edge, of those that are listed one after another only the first.
pub fn ends_of<A: Allocator + Copy>(alloc: A, counted: &[Counted]) -> Result<Vec<Pt, A>, NoMemory>
    ensures { IfOk result (λ ends. AreEnds (edges_of counted.now) ends.items) }
{
    let mut ends = first_ends(alloc, counted)?;
    if counted.is_empty() {
        return Ok(ends);
    }
    let places = counted.len().saturating_mul(PLACES).min(MOST_PLACES);
    let mut held = vec![in alloc; counted[0].edge.p; places]?;
    add_second_ends(&mut ends, &mut held, counted)?;
    Ok(ends)
}

/// Adds a first end, if it isn't the last that is listed.
fn add_first_end<A: Allocator>(ends: &mut Vec<Pt, A>, one: &Counted) -> Result<(), NoMemory>
    ensures added { OnOk result (Contains ends.new.items one.now.edge.p) }
    ensures kept { OnOk result ((v : Pt) → Contains ends.old.items v → Contains ends.new.items v) }
    ensures only { OnOk result ((v : Pt) → Contains ends.new.items v → Contains ends.old.items v ⊎ (v ≡ one.now.edge.p)) }
{
    if ends.last() != Some(&one.edge.p) {
        ends.push(one.edge.p)?;
    }
    Ok(())
}

/// The first ends of the edges.
fn first_ends<A: Allocator + Copy>(alloc: A, counted: &[Counted]) -> Result<Vec<Pt, A>, NoMemory>
    ensures all { IfOk result (λ ends. All (λ c. Contains ends.items c.edge.p) counted.now) }
    ensures only { IfOk result (λ ends. All (IsVertexOf (edges_of counted.now)) ends.items) }
{
    let mut ends = Vec::with_capacity(alloc, counted.len())?;
    for one in counted {
        add_first_end(&mut ends, one)?;
    }
    Ok(ends)
}

/// A point's place in a table with so many: neighbours have different ones.
pub fn place_of(v: Pt, places: usize) -> usize {
    let by_column = v.x.cast_unsigned().wrapping_mul(0x9E37_79B1);
    let by_row = v.y.cast_unsigned().wrapping_mul(0x85EB_CA77);
    let mixed = u64::from(by_column.wrapping_add(by_row));
    (mixed.wrapping_mul(places as u64) >> 32) as usize
}

/// Whether the table has a point in its place.
fn is_held(held: &[Pt], v: Pt) -> bool
    ensures { result ≡ true → Contains held.now v }
{
    match held.get(place_of(v, held.len())) {
        Some(other) => *other == v,
        None => false,
    }
}

/// Adds a second end, if it isn't among the ends that the table holds.
fn add_second_end<A: Allocator>(
    ends: &mut Vec<Pt, A>,
    held: &[Pt],
    one: &Counted,
) -> Result<(), NoMemory>
    requires held { All (Contains ends.old.items) held.now }
    ensures added { OnOk result (Contains ends.new.items one.now.edge.q) }
    ensures kept { OnOk result ((v : Pt) → Contains ends.old.items v → Contains ends.new.items v) }
    ensures only { OnOk result ((v : Pt) → Contains ends.new.items v → Contains ends.old.items v ⊎ (v ≡ one.now.edge.q)) }
{
    if !is_held(held, one.edge.q) {
        ends.push(one.edge.q)?;
    }
    Ok(())
}

/// Puts a point in its place in the table.
fn hold(held: &mut [Pt], v: Pt)
    ensures { (w : Pt) → Contains held.new w → Contains held.old w ⊎ (w ≡ v) }
{
    let place = place_of(v, held.len());
    if place < held.len() {
        held[place] = v;
    }
}

/// Adds the second ends, where the first ends are listed and the table holds some of them.
fn add_second_ends<A: Allocator>(
    ends: &mut Vec<Pt, A>,
    held: &mut [Pt],
    counted: &[Counted],
) -> Result<(), NoMemory>
    requires held { All (Contains ends.old.items) held.old }
    requires all { All (λ c. Contains ends.old.items c.edge.p) counted.now }
    requires only { All (IsVertexOf (edges_of counted.now)) ends.old.items }
    ensures { OnOk result (AreEnds (edges_of counted.now) ends.new.items) }
{
    let mut number = counted.len();
    while number > 0 {
        number -= 1;
        add_second_end(ends, held, &counted[number])?;
        hold(held, counted[number].edge.p);
    }
    Ok(())
}

/// Whether an edge begins at a vertex or before.
fn begins_up_to(one: &Counted, v: Pt) -> bool
    ensures upto { result ≡ true → IsUpTo one.now.edge.p v }
    ensures past { result ≡ false → IsBefore v one.now.edge.p }
{
    one.edge.p <= v
}

/// The number of edges that begin at a vertex or before, where those up to a number begin before.
pub fn last_of(counted: &[Counted], from: usize, v: Pt) -> usize
    requires { from ≤ length counted.now }
    ensures from { from ≤ result }
    ensures within { result ≤ length counted.now }
    ensures begun { AllWithin (λ c. IsUpTo c.edge.p v) counted.now from result }
    ensures past { AllPairs (λ c d. IsEdgeBefore c.edge d.edge) counted.now → AllWithin (λ c. IsBefore v c.edge.p) counted.now result (length counted.now) }
{
    let mut next = from;
    while next < counted.len() && begins_up_to(&counted[next], v) {
        next += 1;
    }
    next
}
