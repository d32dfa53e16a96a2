//! The rings of a result in the order of its text, made in parts, for a caller who doesn't need them together.
//!
//! 1. The next edges are looked for in all parts but one; beside them the vertices are numbered (`next_and_numbers`).
//! 2. The rings are cut in all parts, and so are the edges below holes looked for (`written_rings_in_parts`).
//! 3. The points of a ring are made when they are asked for (`ResultRings::ring`).

ghost use Rattle.std.specs.Prelude.{◌≡◌, ◌<◌, ◌≤◌, Bool, List, All, IfOk, length, map};
ghost use Rattle.std.specs.Thread.{IsSend, IsSync};
ghost use Rattle.geom.specs.Holes.{HasGroundedRings};
ghost use Rattle.geom.specs.Limit.{AreInLimit};
ghost use Rattle.geom.specs.NodedEdges.{AreNodedEdges};
ghost use Rattle.geom.specs.Rings.{Closes};
ghost use Rattle.geom.specs.declared.point.Pt.{Pt};
ghost use Rattle.polygonize.specs.Cycle.{IsOneToOne};
ghost use Rattle.polygonize.specs.Next.{AreNext};
ghost use Rattle.polygonize.specs.Number.{AreNumbers};
ghost use Rattle.polygonize.specs.Told.{AreToldRings, ring_told, told_at};
ghost use Rattle.polygonize.specs.Written.{IsSound};

use crate::closing_edges::ClosingEdges;
use crate::number::start_numbers;
use crate::polygon::simple_ring;
use crate::successor::{successors, successors_in_parts};
use crate::written::{WrittenRing, written_rings_in_parts};
use geom::{Directed, NoMemory, SimpleRing};
use hands::join;
use std::alloc::Allocator;
use std::marker::Model;
use std::thread::Threads;

/// A part for either of two calls.
const BOTH: usize = 2;

/// The rings of a result in the order of its text: each polygon's shell, and then its holes.
#[derive(Drop)]
pub struct ResultRings<A: Allocator> {
    directed: Directed<A>,
    written: Vec<WrittenRing<A>, A>,
}

impl<A: Allocator> Model for ResultRings<A> {
    ghost Value = { List (Bool × List Pt) };

    ghost view = { λ r. map (ring_told r.directed) r.written.items };

    ghost invariant = { λ r. All (λ w. IsSound r.directed w.ring) r.written.items };
}

impl<A: Allocator> ResultRings<A> {
    /// How many rings there are.
    pub fn count(&self) -> usize
        ensures { result ≡ length self.now }
    {
        self.written.len()
    }

    /// How many points a ring has.
    pub fn points(&self, number: usize) -> usize
        requires { number < length self.now }
        ensures { result ≡ length (told_at self.now number).1 }
    {
        self.written[number].ring().numbers().len()
    }

    /// Whether a ring is a hole, which belongs to the last shell before it.
    pub fn is_hole(&self, number: usize) -> bool
        requires { number < length self.now }
        ensures { result ≡ (told_at self.now number).0 }
    {
        self.written[number].place().is_hole
    }

    /// A ring.
    pub fn ring<B: Allocator + Copy>(
        &self,
        alloc: B,
        number: usize,
    ) -> Result<SimpleRing<B>, NoMemory>
        requires { number < length self.now }
        ensures { IfOk result (λ ring. ring ≡ (told_at self.now number).1) }
    {
        simple_ring(
            alloc,
            self.directed.edges(),
            self.written[number].ring().numbers(),
        )
    }
}

/// The next edges in all parts but one, and beside them the numbers of the vertices where the edges start.
fn next_and_numbers<R: Threads + Sync, A: Allocator + Copy + Send + Sync>(
    rt: &R,
    alloc: A,
    parts: usize,
    edges: ClosingEdges<'_>,
) -> (Result<Vec<u32, A>, NoMemory>, Result<Vec<u32, A>, NoMemory>)
    ensures next { IfOk result.0 (λ next. AreNext edges.entry.list.now next.items) }
    ensures one_to_one { IfOk result.0 (λ next. IsOneToOne next.items) }
    ensures numbers { IfOk result.1 (λ numbers. AreNumbers edges.entry.list.now numbers.items) }
{
    if parts < BOTH {
        return (successors(alloc, edges), start_numbers(alloc, edges));
    }
    let list = edges.list;
    join(
        rt,
        BOTH,
        || -> Result<Vec<u32, A>, NoMemory>
            requires { IsSync R.row × IsSend A.row × IsSync A.row × (2 ≤ parts) × ∥ Closes list.now ∥₁ × All (λ d. AreInLimit d.from d.to) list.now }
            ensures { IfOk result (λ next. AreNext list.entry.now next.items × IsOneToOne next.items) }
        { successors_in_parts(rt, alloc, parts - 1, ClosingEdges { list }) },
        || -> Result<Vec<u32, A>, NoMemory>
            requires { IsSync A.row × ∥ Closes list.now ∥₁ × All (λ d. AreInLimit d.from d.to) list.now }
            ensures { IfOk result (λ numbers. AreNumbers list.entry.now numbers.items) }
        { start_numbers(alloc, ClosingEdges { list }) },
    )
}

/// The rings of the polygons of directed edges that close, as `polygons` has them, made in so many parts.
pub fn rings_in_parts<R: Threads + Sync, A: Allocator + Copy + Send + Sync>(
    rt: &R,
    alloc: A,
    parts: usize,
    directed: Directed<A>,
) -> Result<ResultRings<A>, NoMemory>
    requires closes { Closes directed }
    requires in_limit { All (λ d. AreInLimit d.from d.to) directed }
    ensures { AreNodedEdges directed → HasGroundedRings directed → IfOk result (λ rings. AreToldRings directed rings) }
{
    let edges = ClosingEdges {
        list: directed.edges(),
    };
    let (next, numbers) = next_and_numbers(rt, alloc, parts, edges);
    let mut written = written_rings_in_parts(rt, alloc, parts, edges, &next?, numbers?)?;
    written.sort_unstable_by_key(|ring| ring.place());
    Ok(ResultRings { directed, written })
}
