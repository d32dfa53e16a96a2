//! The polygons of a result.

ghost use Rattle.std.specs.Prelude.{◌≡◌, ◌∷◌, [], ◌+◌, ◌<◌, ◌≤◌, true, All, IfOk, drop, length, map, take, vec_len};
ghost use Rattle.geom.specs.Canonical.{ArePolygons, HaveEachEdge, written_rings};
ghost use Rattle.geom.specs.Holes.{HasGroundedRings};
ghost use Rattle.geom.specs.Limit.{AreInLimit};
ghost use Rattle.geom.specs.ListOrder.{IsLeastRotation};
ghost use Rattle.geom.specs.NodedEdges.{AreNodedEdges};
ghost use Rattle.geom.specs.Rings.{Closes};
ghost use Rattle.polygonize.specs.Grouped.{AreGrouped, BeginsWithShell};
ghost use Rattle.polygonize.specs.Next.{ring_of};
ghost use Rattle.polygonize.specs.Placed.{AreAllWritten, points, rings_in, stands_as_hole};
ghost use Rattle.polygonize.specs.Written.{AreSimple, HaveEdges, IsCanonical, IsSound};

use crate::closing_edges::ClosingEdges;
use crate::lone_shells::lone_shells;
use crate::number::points_of;
use crate::successor::successors;
use crate::written::{WrittenRing, written_rings};
use geom::{Directed, DirectedEdge, NoMemory, Polygon, SimpleRing};
use std::alloc::Allocator;

/// A ring of vertices by its points.
pub fn simple_ring<A: Allocator + Copy>(
    alloc: A,
    edges: &[DirectedEdge],
    ring: &[u32],
) -> Result<SimpleRing<A>, NoMemory>
    requires { IsSound edges.now ring.now }
    ensures { IfOk result (λ points. points ≡ ring_of edges.now ring.now) }
{
    Ok(SimpleRing::new(points_of(alloc, edges, ring)?))
}

/// The holes that stand from a place on.
fn holes_from<A: Allocator + Copy>(
    alloc: A,
    edges: &[DirectedEdge],
    written: &[WrittenRing<A>],
    start: usize,
) -> Result<Vec<SimpleRing<A>, A>, NoMemory>
    requires inside { start ≤ length written.now }
    requires sound { All (λ w. IsSound edges.now w.ring) written.now }
    ensures inside { IfOk result (λ holes. start + vec_len holes ≤ length written.now) }
    ensures rings { IfOk result (λ holes. holes.items ≡ map (points edges.now) (take (vec_len holes) (drop start written.now))) }
    ensures holes { IfOk result (λ holes. All (λ w. stands_as_hole w ≡ true) (take (vec_len holes) (drop start written.now))) }
    ensures then_shell { IfOk result (λ holes. BeginsWithShell stands_as_hole (drop (start + vec_len holes) written.now)) }
{
    let mut holes = Vec::new(alloc);
    let mut end = start;
    while end < written.len() && written[end].place().is_hole {
        holes.push(simple_ring(alloc, edges, written[end].ring().numbers())?)?;
        end += 1;
    }
    Ok(holes)
}

/// The polygons of rings that stand in the order of the text: each shell begins one.
fn grouped<A: Allocator + Copy>(
    alloc: A,
    edges: &[DirectedEdge],
    written: &[WrittenRing<A>],
) -> Result<Vec<Polygon<A>, A>, NoMemory>
    requires sound { All (λ w. IsSound edges.now w.ring) written.now }
    ensures rings { IfOk result (λ found. written_rings found.items ≡ map (points edges.now) written.now) }
    ensures groups { BeginsWithShell stands_as_hole written.now → IfOk result (λ found. AreGrouped stands_as_hole (points edges.now) written.now found.items) }
{
    let mut polygons = Vec::with_capacity(alloc, written.len())?;
    let mut at = 0;
    while at < written.len() {
        let shell = simple_ring(alloc, edges, written[at].ring().numbers())?;
        let holes = holes_from(alloc, edges, written, at + 1)?;
        at += 1 + holes.len();
        polygons.push(Polygon::new(shell, holes))?;
    }
    Ok(polygons)
}

/// The polygons of directed edges by the rings as they are written, in canonical order.
fn polygons_of<A: Allocator + Copy>(
    alloc: A,
    edges: ClosingEdges<'_>,
    mut written: Vec<WrittenRing<A>, A>,
) -> Result<Vec<Polygon<A>, A>, NoMemory>
    requires edges { HaveEdges edges.list.now (rings_in written.items) }
    requires sound { All (IsCanonical edges.list.now) (rings_in written.items) }
    requires written { AreNodedEdges edges.list.now → HasGroundedRings edges.list.now → AreAllWritten edges.list.now written.items }
    ensures polygons { AreNodedEdges edges.entry.list.now → HasGroundedRings edges.entry.list.now → IfOk result (λ found. ArePolygons edges.entry.list.now found.items) }
    ensures each_edge { IfOk result (λ found. HaveEachEdge edges.entry.list.now found.items) }
    ensures simple { IfOk result (λ found. AreSimple (written_rings found.items)) }
    ensures least { IfOk result (λ found. All (λ ring. IsLeastRotation ring ring) (written_rings found.items)) }
{
    written.sort_unstable_by_key(|ring| ring.place());
    grouped(alloc, edges.list, &written)
}

/// The polygons of directed edges by the cycles of their next edges.
fn polygons_by_cycles<A: Allocator + Copy>(
    alloc: A,
    edges: ClosingEdges<'_>,
) -> Result<Vec<Polygon<A>, A>, NoMemory>
    ensures polygons { AreNodedEdges edges.entry.list.now → HasGroundedRings edges.entry.list.now → IfOk result (λ found. ArePolygons edges.entry.list.now found.items) }
    ensures each_edge { IfOk result (λ found. HaveEachEdge edges.entry.list.now found.items) }
    ensures simple { IfOk result (λ found. AreSimple (written_rings found.items)) }
    ensures least { IfOk result (λ found. All (λ ring. IsLeastRotation ring ring) (written_rings found.items)) }
{
    let next = successors(alloc, edges)?;
    let written = written_rings(alloc, edges, &next)?;
    polygons_of(alloc, edges, written)
}

/// The polygons of directed edges that close, in canonical order: a ring that visits a vertex twice is cut there, each
/// ring begins at its least vertex, and a polygon's holes and the polygons stand in the order of their points.
/// That they are the polygons of the edges has two premises: the edges are noded, so that they meet at ends alone, and the rings are
/// grounded, so that below each hole lies a nearest edge, which begins further left. The directed edges of an operation's result
/// close and meet both, by `points_law`.
pub fn polygons_along<A: Allocator + Copy>(
    alloc: A,
    edges: &[DirectedEdge],
) -> Result<Vec<Polygon<A>, A>, NoMemory>
    requires closes { Closes edges.now }
    requires in_limit { All (λ d. AreInLimit d.from d.to) edges.now }
    ensures polygons { AreNodedEdges edges.now → HasGroundedRings edges.now → IfOk result (λ found. ArePolygons edges.now found.items) }
    ensures each_edge { IfOk result (λ found. HaveEachEdge edges.now found.items) }
    ensures simple { IfOk result (λ found. AreSimple (written_rings found.items)) }
    ensures least { IfOk result (λ found. All (λ ring. IsLeastRotation ring ring) (written_rings found.items)) }
{
    let closing = ClosingEdges { list: edges };
    match lone_shells(alloc, closing)? {
        Some(shells) => Ok(shells),
        None => polygons_by_cycles(alloc, closing),
    }
}

/// The same of directed edges in their type.
pub fn polygons<A: Allocator + Copy>(
    alloc: A,
    directed: &Directed<A>,
) -> Result<Vec<Polygon<A>, A>, NoMemory>
    requires closes { Closes directed.now }
    requires in_limit { All (λ d. AreInLimit d.from d.to) directed.now }
    ensures polygons { AreNodedEdges directed.now → HasGroundedRings directed.now → IfOk result (λ found. ArePolygons directed.now found.items) }
    ensures each_edge { IfOk result (λ found. HaveEachEdge directed.now found.items) }
    ensures simple { IfOk result (λ found. AreSimple (written_rings found.items)) }
    ensures least { IfOk result (λ found. All (λ ring. IsLeastRotation ring ring) (written_rings found.items)) }
{
    polygons_along(alloc, directed.edges())
}
