//! The rings of the result as they are written, each with its place in the order of the text.

ghost use Rattle.std.specs.Prelude.{◌≡◌, ◌<◌, ◌≤◌, ◌==◌, ◌||◌, ◌++◌, ◌∷◌, [], None, All, AllPairs, IfOk, IfSome, OnOk, false, is_some, length, not, slice_index_or, true, unwrap_or};
ghost use Rattle.geom.specs.Holes.{AreGrounded, HasGroundedRings, IsHole};
ghost use Rattle.geom.specs.NodedEdges.{AreNodedEdges};
ghost use Rattle.geom.specs.Rings.{AreRings};
ghost use Rattle.polygonize.specs.Below.{AreFoundBelow, IsFoundBelow, StandAt};
ghost use Rattle.polygonize.specs.CutRing.{AreCyclesCut, Ascend, IsCycleCut};
ghost use Rattle.polygonize.specs.Cycle.{Begins, IsOneToOne};
ghost use Rattle.polygonize.specs.Next.{AreNext, edge_at, ring_of, rings_of};
ghost use Rattle.polygonize.specs.Number.{AreNumbers};
ghost use Rattle.polygonize.specs.Owning.{ArePiecesWritten, IsRingPlaced, kept_for};
ghost use Rattle.polygonize.specs.Placed.{AreAllWritten, AreWritten, opening_of, rings_in};
ghost use Rattle.polygonize.specs.RingNumbers.{AreRingNumbers, IsRingOf, kept_by};
ghost use Rattle.polygonize.specs.Written.{AreAdded, ArePlaces, HasItsEdges, HaveEdges, IsCanonical, IsRingWritten};

use crate::below::Gap;
use crate::closing_edges::ClosingEdges;
use crate::cut_ring::{CutRing, cut_rings, cut_rings_in_parts, holes_among};
use crate::cycle::{Cycle, Cycles, NumberedCycles};
use crate::nearest::{gaps_below, gaps_below_in_parts};
use crate::number::{first_vertices, start_numbers};
use crate::piece::turned;
use crate::ring::ring_places;
use geom::{DirectedEdge, NoMemory};
use std::alloc::Allocator;
use std::marker::Model;
use std::thread::Threads;

/// The first two vertices of a ring, which tell it from all others: they are an edge's.
#[derive(Clone, Copy, Debug, PartialEq, Eq, PartialOrd, Ord)]
pub struct Opening {
    first: u32,
    second: u32,
}

impl Opening {
    fn of(ring: &[u32]) -> Opening
        requires { 2 ≤ length ring.now }
        ensures { result ≡ opening_of ring.now }
    {
        Opening {
            first: ring[0],
            second: ring[1],
        }
    }
}

/// The place of a ring in the text: by its polygon's shell, the shell first, then by its own opening.
#[derive(Clone, Copy, Debug, PartialEq, Eq, PartialOrd, Ord)]
pub struct Place {
    shell: Opening,
    pub is_hole: bool,
    opening: Opening,
}

/// A ring of vertices as it is written.
#[derive(Debug, Drop)]
pub struct WrittenRing<A: Allocator> {
    place: Place,
    ring: Cycle<A>,
}

impl<A: Allocator> Model for WrittenRing<A> {
    ghost use Rattle.polygonize.specs.Placed.{PlacedRing};

    ghost Value = { PlacedRing };

    ghost view = { λ w. record { place = w.place; ring = w.ring } };
}

impl<A: Allocator> WrittenRing<A> {
    pub fn place(&self) -> Place
        ensures { result ≡ self.now.place }
    {
        self.place
    }

    /// Its vertices by their numbers.
    pub fn ring(&self) -> &Cycle<A>
        ensures { result.now ≡ self.now.ring }
    {
        &self.ring
    }
}

/// The shell that is given, or else the first piece.
fn shell_of_pieces(owner: Option<Opening>, first: &[u32]) -> Opening
    requires { 2 ≤ length first.now }
    ensures { result ≡ unwrap_or owner (opening_of first.now) }
{
    match owner {
        Some(shell) => shell,
        None => Opening::of(first),
    }
}

/// Whether the piece at i is a hole: of a hole's pieces each is one, and of a shell's each but the first.
fn is_written_as_hole(owner: Option<Opening>, first: usize, i: usize) -> bool
    ensures { result ≡ is_some owner || not (i == first) }
{
    owner.is_some() || i != first
}

/// Adds a ring to those that are written.
fn add_ring<A: Allocator>(
    written: &mut Vec<WrittenRing<A>, A>,
    place: Place,
    ring: Cycle<A>,
) -> Result<(), NoMemory>
    ensures { OnOk result (written.new.items ≡ written.old.items ++ (record { place = place; ring = ring }) ∷ []) }
{
    written.push(WrittenRing { place, ring })?;
    Ok(())
}

/// Writes the pieces of a ring. A hole's go to the polygon of the shell that is given; a shell's first piece is a shell itself.
fn write_pieces<A: Allocator>(
    ring: CutRing<A>,
    owner: Option<Opening>,
    written: &mut Vec<WrittenRing<A>, A>,
) -> Result<Opening, NoMemory>
    requires inside { ring.first < length ring.pieces.items }
    requires long { All (λ piece. 3 ≤ length piece) ring.pieces.items }
    ensures added { OnOk result (AreAdded ring.pieces.items (rings_in written.old.items) (rings_in written.new.items)) }
    ensures pieces { IfOk result (λ shell. ArePiecesWritten ring.first ring.pieces.items owner shell written.old.items written.new.items) }
{
    let CutRing {
        first,
        mut pieces,
        ..
    } = ring;
    let shell = shell_of_pieces(owner, pieces[first].numbers());
    while let Some(piece) = pieces.pop() {
        let ring = turned(piece);
        let place = Place {
            shell,
            is_hole: is_written_as_hole(owner, first, pieces.len()),
            opening: Opening::of(ring.numbers()),
        };
        add_ring(written, place, ring)?;
    }
    Ok(shell)
}

/// The shell of the ring's polygon, where the ring is a hole and the ring of the edge below it was written.
fn owner_of(
    is_hole: bool,
    below: Option<Gap>,
    ring_at: &[u32],
    shells: &[Option<Opening>],
) -> Option<Opening>
    requires { is_hole ≡ true → IfSome below (λ g. g.number < length ring_at.now) }
    ensures shell { is_hole ≡ false → result ≡ None }
    ensures hole { is_hole ≡ true → result ≡ kept_for below (kept_by ring_at.now shells.now) }
{
    if !is_hole {
        return None;
    }
    *shells.get(ring_at[below?.number] as usize)?
}

/// Writes the pieces of the ring of these edges, and keeps the shell of its polygon.
fn write_ring<A: Allocator>(
    edges: &[DirectedEdge],
    cycle: &[u32],
    number: usize,
    ring: CutRing<A>,
    below: Option<Gap>,
    ring_at: &[u32],
    shells: &mut [Option<Opening>],
    written: &mut Vec<WrittenRing<A>, A>,
) -> Result<(), NoMemory>
    requires cycle { ArePlaces edges.now cycle.now }
    requires ring { IsCycleCut edges.now cycle.now ring }
    requires number { number < length shells.old }
    requires numbered { IsRingOf ring_at.now cycle.now number }
    requires one_each { length ring_at.now ≡ length edges.now }
    requires below { IsHole (ring_of edges.now cycle.now) → IsFoundBelow edges.now (edge_at edges.now (slice_index_or cycle.now 0 0)).from below }
    ensures written { OnOk result (IsRingWritten edges.now cycle.now (rings_in written.old.items) (rings_in written.new.items)) }
    ensures placed { OnOk result (IsRingPlaced edges.now cycle.now (kept_by ring_at.now shells.old) (kept_by ring_at.now shells.new) written.old.items written.new.items) }
{
    let owner = owner_of(ring.is_hole, below, ring_at, shells);
    let shell = write_pieces(ring, owner, written)?;
    shells[number] = Some(shell);
    Ok(())
}

/// Writes the rings of all cycles, which are cut. They ascend by their least vertices, so that of an edge below a hole comes before the
/// hole.
fn write_cycles<A: Allocator + Copy>(
    alloc: A,
    edges: ClosingEdges<'_>,
    cycles: &Cycles<A>,
    ring_at: &[u32],
    rings: Vec<CutRing<A>, A>,
    below: &[Option<Gap>],
) -> Result<Vec<WrittenRing<A>, A>, NoMemory>
    requires cycles { All (ArePlaces edges.list.now) cycles.now }
    requires rings { AreRings edges.list.now (rings_of edges.list.now cycles.now) }
    requires cut { AreCyclesCut edges.list.now cycles.now 0 (length cycles.now) rings.items }
    requires numbers { AreRingNumbers (length edges.list.now) cycles.now ring_at.now }
    requires found { AreFoundBelow edges.list.now cycles.now below.now }
    requires its_edges { All (HasItsEdges edges.list.now) cycles.now }
    ensures written { let rings = rings_of edges.entry.list.now cycles.now in AreNodedEdges edges.entry.list.now → AreGrounded edges.entry.list.now rings → IfOk result (λ written. AreWritten edges.entry.list.now rings written.items) }
    ensures edges { IfOk result (λ written. HaveEdges edges.entry.list.now (rings_in written.items)) }
    ensures sound { IfOk result (λ written. All (IsCanonical edges.entry.list.now) (rings_in written.items)) }
{
    let mut written = Vec::with_capacity(alloc, cycles.count())?;
    let mut shells = vec![in alloc; None; cycles.count()]?;
    let mut number = 0;
    for ring in rings {
        write_ring(
            edges.list,
            cycles.numbers(number),
            number,
            ring,
            below[number],
            ring_at,
            &mut shells,
            &mut written,
        )?;
        number += 1;
    }
    Ok(written)
}

/// For each of so many rings the gap that was found for it, where it is one of the holes.
fn gaps_of_rings<A: Allocator + Copy>(
    alloc: A,
    rings: usize,
    holes: &[usize],
    gaps: &[Option<Gap>],
) -> Result<Vec<Option<Gap>, A>, NoMemory>
    requires ascend { Ascend holes.now }
    requires inside { All (λ r. r < rings) holes.now }
    requires same_length { length gaps.now ≡ length holes.now }
    ensures { IfOk result (λ below. (length below.items ≡ rings) × StandAt holes.now gaps.now below.items) }
{
    let mut below = vec![in alloc; None; rings]?;
    for place in 0..holes.len() {
        below[holes[place]] = gaps[place];
    }
    Ok(below)
}

/// For each cycle whose ring is a hole the gap to the nearest edge below it.
fn edges_below<A: Allocator + Copy>(
    alloc: A,
    edges: ClosingEdges<'_>,
    cycles: &Cycles<A>,
    rings: &[CutRing<A>],
) -> Result<Vec<Option<Gap>, A>, NoMemory>
    requires cycles { All (ArePlaces edges.list.now) cycles.now }
    requires ascending { AllPairs Begins cycles.now }
    requires cut { AreCyclesCut edges.list.now cycles.now 0 (length cycles.now) rings.now }
    ensures { IfOk result (λ below. AreFoundBelow edges.entry.list.now cycles.now below.items) }
{
    let holes = holes_among(alloc, rings)?;
    let vertices = first_vertices(alloc, edges.list, cycles, &holes)?;
    let gaps = gaps_below(alloc, edges.limited(), &vertices)?;
    gaps_of_rings(alloc, rings.len(), &holes, &gaps)
}

/// The same in so many parts.
fn edges_below_in_parts<R: Threads + Sync, A: Allocator + Copy + Send + Sync>(
    rt: &R,
    alloc: A,
    parts: usize,
    edges: ClosingEdges<'_>,
    cycles: &Cycles<A>,
    rings: &[CutRing<A>],
) -> Result<Vec<Option<Gap>, A>, NoMemory>
    requires cycles { All (ArePlaces edges.list.now) cycles.now }
    requires ascending { AllPairs Begins cycles.now }
    requires cut { AreCyclesCut edges.list.now cycles.now 0 (length cycles.now) rings.now }
    ensures { IfOk result (λ below. AreFoundBelow edges.entry.list.now cycles.now below.items) }
{
    let holes = holes_among(alloc, rings)?;
    let vertices = first_vertices(alloc, edges.list, cycles, &holes)?;
    let gaps = gaps_below_in_parts(rt, alloc, parts, edges.limited(), &vertices)?;
    gaps_of_rings(alloc, rings.len(), &holes, &gaps)
}

/// All rings as they are written, in no order yet, by the next edges.
pub fn written_rings<A: Allocator + Copy>(
    alloc: A,
    edges: ClosingEdges<'_>,
    next: &[u32],
) -> Result<Vec<WrittenRing<A>, A>, NoMemory>
    requires next { AreNext edges.list.now next.now }
    requires one_to_one { IsOneToOne next.now }
    ensures edges { IfOk result (λ written. HaveEdges edges.entry.list.now (rings_in written.items)) }
    ensures sound { IfOk result (λ written. All (IsCanonical edges.entry.list.now) (rings_in written.items)) }
    ensures written { AreNodedEdges edges.entry.list.now → HasGroundedRings edges.entry.list.now → IfOk result (λ written. AreAllWritten edges.entry.list.now written.items) }
{
    let numbers = start_numbers(alloc, edges)?;
    let NumberedCycles { cycles, cycle_at } = ring_places(alloc, edges, next)?;
    let rings = cut_rings(alloc, edges, &numbers, &cycles, 0, cycles.count())?;
    drop(numbers);
    let below = edges_below(alloc, edges, &cycles, &rings)?;
    write_cycles(alloc, edges, &cycles, &cycle_at, rings, &below)
}

/// The same by the numbers of vertices, which are there already: the rings are cut in so many parts, and the edges below holes are looked
/// for in as many.
pub fn written_rings_in_parts<R: Threads + Sync, A: Allocator + Copy + Send + Sync>(
    rt: &R,
    alloc: A,
    parts: usize,
    edges: ClosingEdges<'_>,
    next: &[u32],
    numbers: Vec<u32, A>,
) -> Result<Vec<WrittenRing<A>, A>, NoMemory>
    requires next { AreNext edges.list.now next.now }
    requires one_to_one { IsOneToOne next.now }
    requires numbers { AreNumbers edges.list.now numbers.items }
    ensures edges { IfOk result (λ written. HaveEdges edges.entry.list.now (rings_in written.items)) }
    ensures sound { IfOk result (λ written. All (IsCanonical edges.entry.list.now) (rings_in written.items)) }
    ensures written { AreNodedEdges edges.entry.list.now → HasGroundedRings edges.entry.list.now → IfOk result (λ written. AreAllWritten edges.entry.list.now written.items) }
{
    let NumberedCycles { cycles, cycle_at } = ring_places(alloc, edges, next)?;
    let rings = cut_rings_in_parts(rt, alloc, parts, edges, &numbers, &cycles)?;
    drop(numbers);
    let below = edges_below_in_parts(rt, alloc, parts, edges, &cycles, &rings)?;
    write_cycles(alloc, edges, &cycles, &cycle_at, rings, &below)
}
