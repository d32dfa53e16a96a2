//! The rings of cycles, cut at the vertices that they visit twice.

ghost use Rattle.std.specs.Prelude.{◌≡◌, ◌<◌, ◌≤◌, IfOk, length};
ghost use Rattle.polygonize.specs.CutRing.{AreCyclesCut, AreCyclesOf, AreHoleNumbers, IsCycleCut};
ghost use Rattle.polygonize.specs.Number.{AreNumbers};
ghost use Rattle.polygonize.specs.Written.{ArePlaces};

use crate::closing_edges::ClosingEdges;
use crate::cut::cut;
use crate::cycle::{Cycle, Cycles};
use crate::hole::is_hole;
use crate::number::list_vertices;
use crate::piece::first_piece;
use geom::NoMemory;
use hands::{Part, joined, map_parts, parts_of_work};
use std::alloc::Allocator;
use std::thread::Threads;

/// A ring that is cut: whether it is a hole, its pieces, and which of them is the first.
#[derive(Drop)]
pub struct CutRing<A: Allocator> {
    pub is_hole: bool,
    pub first: usize,
    pub pieces: Vec<Cycle<A>, A>,
}

/// The ring of a cycle, cut. `ring` takes its vertices in place of what it had, and `places` has a place for each number.
fn cut_ring<A: Allocator + Copy>(
    alloc: A,
    edges: ClosingEdges<'_>,
    numbers: &[u32],
    cycle: &[u32],
    ring: &mut Vec<u32, A>,
    places: &mut [u32],
) -> Result<CutRing<A>, NoMemory>
    requires numbers { AreNumbers edges.list.now numbers.now }
    requires cycle { ArePlaces edges.list.now cycle.now }
    requires places { length places.old ≡ length edges.list.now }
    ensures { IfOk result (λ ring. IsCycleCut edges.entry.list.now cycle.now ring) }
{
    list_vertices(ring, numbers, cycle)?;
    let is_hole = is_hole(edges, ring);
    let pieces = cut(alloc, ring, places)?;
    let first = first_piece(edges, ring[0], &pieces);
    Ok(CutRing {
        is_hole,
        first,
        pieces,
    })
}

/// The rings of the cycles from one number to before another one, cut.
pub fn cut_rings<A: Allocator + Copy>(
    alloc: A,
    edges: ClosingEdges<'_>,
    numbers: &[u32],
    cycles: &Cycles<A>,
    from: usize,
    past: usize,
) -> Result<Vec<CutRing<A>, A>, NoMemory>
    requires cycles { AreCyclesOf edges.list.now numbers.now cycles.now }
    requires order { from ≤ past }
    requires inside { past ≤ length cycles.now }
    ensures { IfOk result (λ rings. AreCyclesCut edges.entry.list.now cycles.now from past rings.items) }
{
    let mut places = vec![in alloc; 0; edges.list.len()]?;
    let mut rings = Vec::with_capacity(alloc, past - from)?;
    let mut ring = Vec::new(alloc);
    for number in from..past {
        let cycle = cycles.numbers(number);
        rings.push(cut_ring(alloc, edges, numbers, cycle, &mut ring, &mut places)?)?;
    }
    Ok(rings)
}

/// The rings of all cycles, cut in so many parts of about as many edges.
pub fn cut_rings_in_parts<R: Threads + Sync, A: Allocator + Copy + Send + Sync>(
    rt: &R,
    alloc: A,
    parts: usize,
    edges: ClosingEdges<'_>,
    numbers: &[u32],
    cycles: &Cycles<A>,
) -> Result<Vec<CutRing<A>, A>, NoMemory>
    requires { AreCyclesOf edges.list.now numbers.now cycles.now }
    ensures { IfOk result (λ rings. AreCyclesCut edges.entry.list.now cycles.now 0 (length cycles.now) rings.items) }
{
    let all = parts_of_work(
        alloc,
        cycles.count(),
        parts,
        |number: usize| -> usize
            requires { number < length cycles.now }
        { cycles.numbers(number).len() },
    )?;
    let lists = map_parts(
        rt,
        alloc,
        &all,
        |part: Part| -> Result<Vec<CutRing<A>, A>, NoMemory>
            requires { AreCyclesOf edges.list.now numbers.now cycles.now × (part.from ≤ part.past) × (part.past ≤ length cycles.now) }
            ensures { IfOk result (λ rings. AreCyclesCut edges.entry.list.now cycles.entry.now part.from part.past rings.items) }
        { cut_rings(alloc, edges, numbers, cycles, part.from, part.past) },
    )?;
    Ok(joined(alloc, lists)?)
}

/// The numbers of those rings that are holes, in order.
pub fn holes_among<A: Allocator + Copy>(
    alloc: A,
    rings: &[CutRing<A>],
) -> Result<Vec<usize, A>, NoMemory>
    ensures { IfOk result (λ holes. AreHoleNumbers rings.now holes.items) }
{
    let mut holes = Vec::new(alloc);
    for number in 0..rings.len() {
        if rings[number].is_hole {
            holes.push(number)?;
        }
    }
    Ok(holes)
}
