//! Directed edges whose rings are all shells, and visit no vertex twice: a polygon without holes for each, without a table of what lies below.
//!
//! 1. Each edge has to leave a vertex of its own, so that the starts ascend strictly (`leave_apart`). The test ends at the first vertex
//!    that is left twice.
//! 2. From the least vertex that no ring has yet, the edge that leaves each end is looked for by halves, until one leads back (`walk`).
//! 3. At the first hole it is given up. Else the rings stand in the order of the text already.

ghost use Rattle.std.specs.Prelude.{◌≡◌, ◌<◌, ◌≤◌, ℕ, List, IfOk, IfSome, IsTrue, OnOk, length};
ghost use Rattle.polygonize.specs.Cycle.{IsClosed, IsOneToOne, IsUnseen, Walked};
ghost use Rattle.polygonize.specs.LoneShells.{AreLoneShells, IsLoneShell};
ghost use Rattle.polygonize.specs.Next.{AreNext, edge_at};
ghost use Rattle.polygonize.specs.Number.{LeaveApart};
ghost use Rattle.polygonize.specs.Written.{IsCanonical};

use crate::angle::are_same;
use crate::closing_edges::ClosingEdges;
use crate::counting::counted;
use crate::hole::is_hole;
use crate::polygon::simple_ring;
use crate::stripes::first_leaving;
use geom::{NoMemory, Polygon};
use std::alloc::Allocator;

/// Fewer edges are no ring.
const LEAST: usize = 3;

/// More edges are not looked at here.
const MOST: usize = 1024;

/// Whether each edge leaves a vertex of its own.
fn leave_apart(edges: ClosingEdges<'_>) -> bool
    ensures { IsTrue result → LeaveApart edges.entry.list.now }
{
    for place in 1..edges.list.len() {
        if are_same(edges.list[place - 1].from, edges.list[place].from) {
            return false;
        }
    }
    true
}

/// The place of the edge that leaves the end of the one at a place.
fn place_after(edges: ClosingEdges<'_>, place: usize) -> usize
    requires { place < length edges.list.now }
    ensures inside { result < length edges.entry.list.now }
    ensures joins { (edge_at edges.entry.list.now result).from ≡ (edge_at edges.entry.list.now place).to }
{
    first_leaving(edges, edges.list[place].to)
}

/// Walks the ring of the edge at `start`, begun there, in place of what the list had. What it passes is marked as seen.
fn walk<A: Allocator>(
    edges: ClosingEdges<'_>,
    seen: &mut [bool],
    start: usize,
    cycle: &mut Vec<u32, A>,
) -> Result<(), NoMemory>
    requires apart { LeaveApart edges.list.now }
    requires same_length { length seen.old ≡ length edges.list.now }
    requires closed { (next : List ℕ) → AreNext edges.list.now next → IsOneToOne next → IsClosed next seen.old }
    requires inside { start < length edges.list.now }
    requires unseen { IsUnseen seen.old start }
    ensures { OnOk result ((next : List ℕ) → AreNext edges.entry.list.now next → IsOneToOne next → Walked next seen.old seen.new start cycle.new.items) }
{
    cycle.clear();
    seen[start] = true;
    cycle.push(counted(start)?)?;
    let mut at = place_after(edges, start);
    while at != start {
        seen[at] = true;
        cycle.push(counted(at)?)?;
        at = place_after(edges, at);
    }
    Ok(())
}

/// The polygon of a ring, unless it is a hole.
fn shell_of<A: Allocator + Copy>(
    alloc: A,
    edges: ClosingEdges<'_>,
    cycle: &[u32],
) -> Result<Option<Polygon<A>>, NoMemory>
    requires { 3 ≤ length cycle.now → IsCanonical edges.list.now cycle.now }
    ensures { IfOk result (λ found. IfSome found (IsLoneShell edges.entry.list.now cycle.now)) }
{
    if cycle.len() < LEAST || is_hole(edges, cycle) {
        return Ok(None);
    }
    let shell = simple_ring(alloc, edges.list, cycle)?;
    Ok(Some(Polygon::new(shell, Vec::new(alloc))))
}

/// The polygons of edges that each leave a vertex of their own, where their rings are all shells.
fn shells_apart<A: Allocator + Copy>(
    alloc: A,
    edges: ClosingEdges<'_>,
) -> Result<Option<Vec<Polygon<A>, A>>, NoMemory>
    requires { LeaveApart edges.list.now }
    ensures { IfOk result (λ found. IfSome found (λ polygons. AreLoneShells edges.entry.list.now polygons.items)) }
{
    let mut seen = vec![in alloc; false; edges.list.len()]?;
    let mut cycle = Vec::with_capacity(alloc, edges.list.len())?;
    let mut polygons = Vec::with_capacity(alloc, 1)?;
    for start in 0..edges.list.len() {
        if !seen[start] {
            walk(edges, &mut seen, start, &mut cycle)?;
            let Some(polygon) = shell_of(alloc, edges, &cycle)? else {
                return Ok(None);
            };
            polygons.push(polygon)?;
        }
    }
    Ok(Some(polygons))
}

/// The polygons of the edges, where their rings are all shells that visit no vertex twice.
pub fn lone_shells<A: Allocator + Copy>(
    alloc: A,
    edges: ClosingEdges<'_>,
) -> Result<Option<Vec<Polygon<A>, A>>, NoMemory>
    ensures { IfOk result (λ found. IfSome found (λ polygons. AreLoneShells edges.entry.list.now polygons.items)) }
{
    if edges.list.len() > MOST || !leave_apart(edges) {
        return Ok(None);
    }
    shells_apart(alloc, edges)
}
