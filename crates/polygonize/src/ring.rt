//! The rings of directed edges, as lists of the edges' places, and the number of each edge's ring: the cycles of the next edges.

ghost use Rattle.std.specs.Prelude.{All, AllPairs, IfOk, length};
ghost use Rattle.geom.specs.Rings.{AreRings};
ghost use Rattle.polygonize.specs.Cycle.{Begins, IsOneToOne};
ghost use Rattle.polygonize.specs.Next.{AreNext, rings_of};
ghost use Rattle.polygonize.specs.RingNumbers.{AreRingNumbers};
ghost use Rattle.polygonize.specs.Written.{ArePlaces, HasItsEdges};

use crate::closing_edges::ClosingEdges;
use crate::cycle::{NumberedCycles, cycles_of};
use geom::NoMemory;
use std::alloc::Allocator;

/// The rings by the next edges, each from its least rotation, in order, and for each edge the number of its ring.
pub fn ring_places<A: Allocator + Copy>(
    alloc: A,
    edges: ClosingEdges<'_>,
    next: &[u32],
) -> Result<NumberedCycles<A>, NoMemory>
    requires next { AreNext edges.list.now next.now }
    requires one_to_one { IsOneToOne next.now }
    ensures places { IfOk result (λ found. All (ArePlaces edges.entry.list.now) found.cycles) }
    ensures rings { IfOk result (λ found. AreRings edges.entry.list.now (rings_of edges.entry.list.now found.cycles)) }
    ensures edges { IfOk result (λ found. All (HasItsEdges edges.entry.list.now) found.cycles) }
    ensures ascending { IfOk result (λ found. AllPairs Begins found.cycles) }
    ensures numbers { IfOk result (λ found. AreRingNumbers (length edges.entry.list.now) found.cycles found.cycle_at.items) }
{
    cycles_of(alloc, next)
}
