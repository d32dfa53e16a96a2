//! The sweep in strips, each by a hand of its own:
//! 1. The edges are cut where a column opens, into a strip for each hand (`strips_of`).
//! 2. The vertices in a strip's columns are swept from the edges that cross the column before it (`sweep_leaving`), for the directed edges that
//!    leave them.
//! 3. The strips' lists stand behind one another.

ghost use Rattle.std.specs.Prelude.{◌≡◌, ◌<◌, ◌≤◌, All, AllPairs, IfOk, int_le, length};
ghost use Rattle.geom.specs.EdgeOrder.{IsEdgeBefore};
ghost use Rattle.hands.specs.Consecutive.{ArePartsOf};
ghost use Rattle.points_law.specs.Law.{AreLayers};
ghost use Rattle.label_sweep.specs.Column.{IsStrip, OpensColumn};
ghost use Rattle.label_sweep.specs.Leaving.{AreLeavingBetween};

use crate::leaving::sweep_leaving;
use crate::second_ends::vertices_in;
use geom::{Counted, DirectedEdge, NoMemory, Op};
use hands::{Part, joined, map_parts};
use std::alloc::Allocator;
use std::thread::Threads;

/// Whether an edge begins in the column where another one does, or on its left.
fn begins_up_to(one: &Counted, other: &Counted) -> bool
    ensures { result ≡ int_le one.now.edge.p.x other.now.edge.p.x }
{
    one.edge.p.x <= other.edge.p.x
}

/// The number of edges up to the end of the column where one of them begins.
fn column_end(counted: &[Counted], number: usize) -> usize
    requires within { number < length counted.now }
    requires ascending { AllPairs (λ c d. IsEdgeBefore c.edge d.edge) counted.now }
    ensures past { number < result }
    ensures within { result ≤ length counted.now }
    ensures column { OpensColumn counted.now result }
{
    let last = &counted[number];
    counted.partition_point(|one| begins_up_to(one, last))
}

/// The edges in at most so many strips, all of as many edges but for the last one, and but for what begins in a strip's last column.
pub fn strips_of<A: Allocator>(
    alloc: A,
    counted: &[Counted],
    parts: usize,
) -> Result<Vec<Part, A>, NoMemory>
    requires { AllPairs (λ c d. IsEdgeBefore c.edge d.edge) counted.now }
    ensures parts { IfOk result (λ strips. ArePartsOf 0 (length counted.now) strips.items) }
    ensures strips { IfOk result (λ strips. All (IsStrip counted.now) strips.items) }
{
    let size = counted.len().div_ceil(parts.max(1)).max(1);
    let mut strips = Vec::new(alloc);
    let mut from = 0;
    while from < counted.len() {
        let last = from.saturating_add(size).min(counted.len()) - 1;
        let past = column_end(counted, last);
        strips.push(Part { from, past })?;
        from = past;
    }
    Ok(strips)
}

/// The directed edges of the result of an operation that leave the vertices of a strip.
pub fn strip_edges<A: Allocator + Copy>(
    alloc: A,
    counted: &[Counted],
    strip: Part,
    op: Op,
) -> Result<Vec<DirectedEdge, A>, NoMemory>
    requires layers { AreLayers counted.now }
    requires strip { IsStrip counted.now strip }
    ensures { IfOk result (λ edges. AreLeavingBetween op counted.now strip.from strip.past edges.items) }
{
    if strip.from == counted.len() {
        return Ok(Vec::new(alloc));
    }
    let vertices = vertices_in(alloc, counted, strip)?;
    sweep_leaving(
        alloc,
        &counted[..strip.from],
        &counted[strip.from..strip.past],
        &vertices.points,
        &vertices.endings,
        op,
    )
}

/// The directed edges of the result of an operation, from so many strips at once.
pub fn edges_in_parts<R: Threads + Sync, A: Allocator + Copy + Send + Sync>(
    rt: &R,
    alloc: A,
    parts: usize,
    counted: &[Counted],
    op: Op,
) -> Result<Vec<DirectedEdge, A>, NoMemory>
    requires { AreLayers counted.now }
    ensures { IfOk result (λ edges. AreLeavingBetween op counted.now 0 (length counted.now) edges.items) }
{
    let strips = strips_of(alloc, counted, parts)?;
    let lists = map_parts(
        rt,
        alloc,
        &strips,
        |strip: Part| -> Result<Vec<DirectedEdge, A>, NoMemory>
            requires { AreLayers counted.now × IsStrip counted.now strip }
            ensures { IfOk result (λ edges. AreLeavingBetween op counted.entry.now strip.from strip.past edges.items) }
        { strip_edges(alloc, counted, strip, op) },
    )?;
    Ok(joined(alloc, lists)?)
}
