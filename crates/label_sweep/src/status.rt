//! The edges that stand, from low to high. Each has a slot, and the slots' numbers are kept in their order, in chunks, so that a vertex moves
//! no more than a few of them:
//! 1. A place is found by the first edges of the chunks, and then within one chunk (`place`).
//! 2. The slots of the edges between two places are freed, and those that come in their place take free ones (`Slots::seat`), or new ones.
//! 3. Where as many edges begin as end, in one chunk, their numbers stand in the same places (`overwrite`).
//!    Else the chunk of the lower place keeps what is below it, and takes what begins and what the chunk of the higher place has from there on (`refill`).
//! 4. The chunks after it, up to that of the higher place, are dropped (`drop_chunks`), and a chunk that has grown is split (`split`).
//! 5. Where one edge goes on as another, that one takes its slot, and no number moves (`pass_on`).

ghost use Rattle.std.specs.Prelude.{◌≡◌, ℕ, ◌+◌, ◌-◌, ◌<◌, ◌≤◌, ◌≤ℤ◌, ◌<ℤ◌, ◌++◌, [], ◌∷◌, pos, All, AllPairs, Contains, IfOk, None, OnOk, Some, drop, false, int_le, int_lt, length, map, set, slice_range, take, true, vec_len};
ghost use Rattle.std.specs.List.{AllWithin, HoldsAt, range_with_len};
ghost use Rattle.std.specs.List.Sorted.{IsPartitionedBy, IsPermutation};
ghost use Rattle.geom.specs.Limit.{InLimit};
ghost use Rattle.geom.specs.Determinant.{side};
ghost use Rattle.geom.specs.Order.{IsUpTo};
ghost use Rattle.geom.specs.declared.point.Pt.{Pt};
ghost use Rattle.label_sweep.specs.declared.standing.StandingEdge.{StandingEdge};
ghost use Rattle.label_sweep.specs.Chunks.{AreChunks, IsPlace, LiesWithin, joined, number_of, opens};
ghost use Rattle.label_sweep.specs.Slots.{HaveEnded, IsKept, IsPlaceBetween, all_standing, in_slot, passes};
ghost use Rattle.label_sweep.specs.Labels.{edge_beside, lowest_of, parities_beside};

use crate::parities::Parities;
use crate::standing::StandingEdge;
use geom::{Edge, NoMemory, Pt};
use std::alloc::Allocator;

/// A place among the edges that stand: a chunk, and the number of edges before it in this chunk.
#[derive(Clone, Copy, Debug)]
pub struct Place {
    pub chunk: usize,
    pub within: usize,
}

/// The edges that stand: the numbers of their slots, in chunks. There is always a first chunk, and no other is empty.
#[derive(Drop)]
pub struct Status<A: Allocator> {
    chunks: Vec<Vec<u32, A>, A>,
    slots: Vec<StandingEdge, A>,
    free: Vec<u32, A>,
    seated: Vec<u32, A>,
    rest: Vec<u32, A>,
}

/// The edges of a chunk, at most, after a change.
const LIMIT: usize = 256;

/// The edges of a chunk that is split off.
const HALF: usize = 128;

/// Whether a vertex is at least so far on the left of the edge in a slot: with 1, whether the edge is below it, and with 0, whether it is not
/// above.
fn is_from(slots: &[StandingEdge], number: u32, v: Pt, bound: i64) -> bool
    requires { InLimit v }
    ensures { result ≡ passes (λ s. int_le bound (side s.spoke.one.edge.p s.spoke.one.edge.q v)) slots.now number }
{
    match slots.get(number as usize) {
        Some(one) => one.spoke.one.edge.side(v) >= bound,
        None => false,
    }
}

/// Whether that holds of the first edge of a chunk.
fn opens_from<A: Allocator>(slots: &[StandingEdge], chunk: &Vec<u32, A>, v: Pt, bound: i64) -> bool
    requires { InLimit v }
    ensures { result ≡ opens (passes (λ s. int_le bound (side s.spoke.one.edge.p s.spoke.one.edge.q v)) slots.now) chunk.now.items }
{
    match chunk.first() {
        Some(number) => is_from(slots, *number, v, bound),
        None => false,
    }
}

/// The number of a chunk's edges before the first one, from a number on, that is above a vertex.
fn level_end(slots: &[StandingEdge], chunk: &[u32], from: usize, v: Pt) -> usize
    requires v_in { InLimit v }
    requires within { from ≤ length chunk.now }
    ensures from { from ≤ result }
    ensures within { result ≤ length chunk.now }
    ensures level { AllWithin (λ i. passes (λ s. int_le (pos 0) (side s.spoke.one.edge.p s.spoke.one.edge.q v)) slots.now i ≡ true) chunk.now from result }
    ensures above { result < length chunk.now → HoldsAt (λ i. passes (λ s. int_le (pos 0) (side s.spoke.one.edge.p s.spoke.one.edge.q v)) slots.now i ≡ false) chunk.now result }
{
    let mut end = from;
    while end < chunk.len() && is_from(slots, chunk[end], v, 0) {
        end += 1;
    }
    end
}

impl<A: Allocator + Copy> Status<A> {
    /// Where nothing stands.
    pub fn new(alloc: A) -> Result<Status<A>, NoMemory>
        ensures empty { IfOk result (λ status. all_standing status ≡ []) }
        ensures kept { IfOk result (λ status. IsKept status) }
        ensures free { IfOk result (λ status. status.free.items ≡ []) }
    {
        let mut chunks = Vec::new(alloc);
        chunks.push(Vec::new(alloc))?;
        Ok(Status {
            chunks,
            slots: Vec::new(alloc),
            free: Vec::new(alloc),
            seated: Vec::new(alloc),
            rest: Vec::new(alloc),
        })
    }

    /// The place behind the edges below a vertex, where these are the first ones.
    pub fn first_not_below(&self, v: Pt) -> Place
        requires v_in { InLimit v }
        requires some { 0 < length self.now.chunks.items }
        ensures inside { LiesWithin self.now.chunks.items result }
        ensures between { IsKept self.now → IsPartitionedBy (λ s. int_lt (pos 0) (side s.spoke.one.edge.p s.spoke.one.edge.q v)) (all_standing self.now)
            → IsPlaceBetween (λ s. pos 0 <ℤ side s.spoke.one.edge.p s.spoke.one.edge.q v) (λ s. side s.spoke.one.edge.p s.spoke.one.edge.q v ≤ℤ pos 0) self.now result }
    {
        self.place(v, 1)
    }

    /// The place behind the edges that are not above a vertex, where these are the first ones, from that behind those below it. Few edges end
    /// at most vertices.
    pub fn first_above(&self, v: Pt, low: Place) -> Place
        requires v_in { InLimit v }
        requires low { LiesWithin self.now.chunks.items low }
        ensures inside { LiesWithin self.now.chunks.items result }
        ensures between { IsKept self.now → IsPartitionedBy (λ s. int_le (pos 0) (side s.spoke.one.edge.p s.spoke.one.edge.q v)) (all_standing self.now)
            → IsPlaceBetween (λ s. pos 0 <ℤ side s.spoke.one.edge.p s.spoke.one.edge.q v) (λ s. side s.spoke.one.edge.p s.spoke.one.edge.q v ≤ℤ pos 0) self.now low
            → IsPlaceBetween (λ s. pos 0 ≤ℤ side s.spoke.one.edge.p s.spoke.one.edge.q v) (λ s. side s.spoke.one.edge.p s.spoke.one.edge.q v <ℤ pos 0) self.now result }
    {
        let chunk = &self.chunks[low.chunk];
        let within = level_end(&self.slots, chunk, low.within, v);
        if within < chunk.len() {
            Place {
                chunk: low.chunk,
                within,
            }
        } else {
            self.place(v, 0)
        }
    }

    /// The place behind the edges to which a vertex lies at least so far on the left, where these are the first ones.
    fn place(&self, v: Pt, bound: i64) -> Place
        requires v_in { InLimit v }
        requires some { 0 < length self.now.chunks.items }
        ensures inside { LiesWithin self.now.chunks.items result }
        ensures between { IsKept self.now → IsPartitionedBy (λ s. int_le bound (side s.spoke.one.edge.p s.spoke.one.edge.q v)) (all_standing self.now)
            → IsPlaceBetween (λ s. bound ≤ℤ side s.spoke.one.edge.p s.spoke.one.edge.q v) (λ s. side s.spoke.one.edge.p s.spoke.one.edge.q v <ℤ bound) self.now result }
    {
        let slots = self.slots.as_slice();
        let chunk = self.chunks[1..].partition_point(
            |chunk: &Vec<u32, A>| -> bool
                requires { InLimit v }
                ensures { result ≡ opens (passes (λ s. int_le bound (side s.spoke.one.edge.p s.spoke.one.edge.q v)) slots.entry.now) chunk.now.items }
            { opens_from(slots, chunk, v, bound) },
        );
        let within = self.chunks[chunk].partition_point(
            |number: &u32| -> bool
                requires { InLimit v }
                ensures { result ≡ passes (λ s. int_le bound (side s.spoke.one.edge.p s.spoke.one.edge.q v)) slots.entry.now number.now }
            { is_from(slots, *number, v, bound) },
        );
        Place { chunk, within }
    }

    /// The edge in a slot, if there is such a slot.
    pub fn slot(&self, number: u32) -> Option<StandingEdge>
        ensures some { (s : StandingEdge) → result ≡ Some s → (number < length self.now.slots.items) × (in_slot self.now.slots.items number ≡ s) }
        ensures none { result ≡ None → length self.now.slots.items ≤ number }
    {
        self.slots.get(number as usize).copied()
    }

    /// The lowest of the edges from a place on, if there is one.
    pub fn lowest_from(&self, place: Place) -> Option<StandingEdge>
        requires { LiesWithin self.now.chunks.items place }
        ensures { IsKept self.now → result ≡ lowest_of (drop (number_of self.now.chunks.items place) (all_standing self.now)) }
    {
        let chunk = &self.chunks[place.chunk];
        if place.within < chunk.len() {
            self.slot(chunk[place.within])
        } else if place.chunk + 1 < self.chunks.len() {
            self.first_of(&self.chunks[place.chunk + 1])
        } else {
            None
        }
    }

    /// The first edge of a chunk, if there is one.
    fn first_of(&self, chunk: &[u32]) -> Option<StandingEdge>
        ensures { All (λ i. i < length self.now.slots.items) chunk.now → result ≡ lowest_of (map (in_slot self.now.slots.items) chunk.now) }
    {
        match chunk.first() {
            Some(number) => self.slot(*number),
            None => None,
        }
    }

    /// The numbers of the slots of those edges that came last.
    pub fn seated(&self) -> &[u32]
        ensures { result.now ≡ self.now.seated.items }
    {
        &self.seated
    }

    /// Lets an edge stand where the one in a slot did.
    pub fn pass_on(&mut self, number: u32, one: StandingEdge)
        ensures chunks { self.new.chunks ≡ self.old.chunks }
        ensures free { self.new.free ≡ self.old.free }
        ensures slots { self.new.slots.items ≡ set self.old.slots.items number one }
    {
        put(&mut self.slots, number, one);
    }

    /// Puts these edges in the place of those from one place to another, which are listed. There stays a first chunk, wherever these places are.
    pub fn replace(
        &mut self,
        low: Place,
        high: Place,
        fresh: &[StandingEdge],
        ended: &mut Vec<StandingEdge, A>,
    ) -> Result<(), NoMemory>
        requires low { LiesWithin self.old.chunks.items low }
        requires high { LiesWithin self.old.chunks.items high }
        ensures some { OnOk result (0 < length self.new.chunks.items) }
        ensures all { IsKept self.old → low.chunk ≤ high.chunk → number_of self.old.chunks.items low ≤ number_of self.old.chunks.items high → OnOk result (all_standing self.new
            ≡ take (number_of self.old.chunks.items low) (all_standing self.old) ++ fresh.now ++ drop (number_of self.old.chunks.items high) (all_standing self.old)) }
        ensures kept { IsKept self.old → IsPlace self.old.chunks.items low → low.chunk ≤ high.chunk → number_of self.old.chunks.items low ≤ number_of self.old.chunks.items high → OnOk result (IsKept self.new) }
        ensures ended { IsKept self.old → low.chunk ≤ high.chunk → number_of self.old.chunks.items low ≤ number_of self.old.chunks.items high
            → OnOk result (ended.new.items ≡ slice_range (all_standing self.old) (number_of self.old.chunks.items low) (number_of self.old.chunks.items high)) }
        ensures free { (v : Pt) → IsKept self.old → low.chunk ≤ high.chunk → number_of self.old.chunks.items low ≤ number_of self.old.chunks.items high → HaveEnded v self.old
            → All (λ s. IsUpTo s.spoke.one.edge.q v) (slice_range (all_standing self.old) (number_of self.old.chunks.items low) (number_of self.old.chunks.items high)) → OnOk result (HaveEnded v self.new) }
    {
        list_between(&self.chunks, low, high, &mut self.rest)?;
        list_edges(&self.slots, &self.rest, ended)?;
        self.free.extend_from_slice(&self.rest)?;
        seat(&mut self.slots, &mut self.free, fresh, &mut self.seated)?;
        replace_between(&mut self.chunks, low, high, &self.seated, &mut self.rest)?;
        Ok(())
    }
}

/// The numbers between two places.
fn list_between<A: Allocator>(
    chunks: &[Vec<u32, A>],
    low: Place,
    high: Place,
    numbers: &mut Vec<u32, A>,
) -> Result<(), NoMemory>
    requires low { LiesWithin chunks.now low }
    requires high { LiesWithin chunks.now high }
    ensures { low.chunk ≤ high.chunk → number_of chunks.now low ≤ number_of chunks.now high
        → OnOk result (numbers.new.items ≡ slice_range (joined chunks.now) (number_of chunks.now low) (number_of chunks.now high)) }
{
    numbers.clear();
    for number in low.chunk..high.chunk + 1 {
        let chunk = &chunks[number];
        let from = if number == low.chunk { low.within } else { 0 };
        let past = if number == high.chunk {
            high.within
        } else {
            chunk.len()
        };
        numbers.extend_from_slice(&chunk[from.min(past)..past])?;
    }
    Ok(())
}

/// The edges in these slots.
fn list_edges<A: Allocator>(
    slots: &[StandingEdge],
    numbers: &[u32],
    edges: &mut Vec<StandingEdge, A>,
) -> Result<(), NoMemory>
    ensures { All (λ i. i < length slots.now) numbers.now → OnOk result (edges.new.items ≡ map (in_slot slots.now) numbers.now) }
{
    edges.clear();
    for number in numbers {
        if let Some(one) = slots.get(*number as usize) {
            edges.push(*one)?;
        }
    }
    Ok(())
}

/// Puts an edge into a slot, if there is such a slot.
fn put<A: Allocator>(slots: &mut Vec<StandingEdge, A>, number: u32, one: StandingEdge)
    ensures { slots.new.items ≡ set slots.old.items number one }
{
    if let Some(slot) = slots.get_mut(number as usize) {
        *slot = one;
    }
}

/// Puts an edge into a free slot, or a new one.
fn seat_one<A: Allocator>(
    slots: &mut Vec<StandingEdge, A>,
    free: &mut Vec<u32, A>,
    one: StandingEdge,
) -> Result<u32, NoMemory>
    ensures grown { OnOk result (length slots.old.items ≤ length slots.new.items) }
    ensures taken { IfOk result (λ number. IsPermutation (free.old.items ++ range_with_len (length slots.old.items) (length slots.new.items - length slots.old.items)) (number ∷ free.new.items)) }
    ensures edge { IfOk result (λ number. number < length slots.new.items → in_slot slots.new.items number ≡ one) }
    ensures others { (i : ℕ) → IfOk result (λ number. ¬ (i ≡ number) → in_slot slots.new.items i ≡ in_slot slots.old.items i) }
    ensures left { (i : ℕ) → OnOk result (Contains free.new.items i → Contains free.old.items i) }
{
    let Some(number) = free.pop() else {
        let number = u32::try_from(slots.len()).map_err(|_| NoMemory)?;
        slots.push(one)?;
        return Ok(number);
    };
    put(slots, number, one);
    Ok(number)
}

/// Puts edges into free slots, and then into new ones, and lists their numbers.
fn seat<A: Allocator>(
    slots: &mut Vec<StandingEdge, A>,
    free: &mut Vec<u32, A>,
    fresh: &[StandingEdge],
    seated: &mut Vec<u32, A>,
) -> Result<(), NoMemory>
    ensures grown { OnOk result (length slots.old.items ≤ length slots.new.items) }
    ensures taken { OnOk result (IsPermutation (free.old.items ++ range_with_len (length slots.old.items) (length slots.new.items - length slots.old.items)) (seated.new.items ++ free.new.items)) }
    ensures edges { All (λ i. i < length slots.old.items) free.old.items → AllPairs (λ i j. ¬ (i ≡ j)) free.old.items → OnOk result (map (in_slot slots.new.items) seated.new.items ≡ fresh.now) }
    ensures others { (i : ℕ) → OnOk result (¬ (Contains seated.new.items i) → in_slot slots.new.items i ≡ in_slot slots.old.items i) }
    ensures left { (i : ℕ) → OnOk result (Contains free.new.items i → Contains free.old.items i) }
{
    seated.clear();
    for one in fresh {
        let number = seat_one(slots, free, *one)?;
        seated.push(number)?;
    }
    Ok(())
}

/// Puts these numbers in the place of those from one place to another.
fn replace_between<A: Allocator + Copy>(
    chunks: &mut Vec<Vec<u32, A>, A>,
    low: Place,
    high: Place,
    fresh: &[u32],
    rest: &mut Vec<u32, A>,
) -> Result<(), NoMemory>
    requires low { LiesWithin chunks.old.items low }
    requires high { LiesWithin chunks.old.items high }
    ensures some { OnOk result (0 < length chunks.new.items) }
    ensures all { low.chunk ≤ high.chunk → OnOk result (joined chunks.new.items
        ≡ take (number_of chunks.old.items low) (joined chunks.old.items) ++ fresh.now ++ drop (number_of chunks.old.items high) (joined chunks.old.items)) }
    ensures chunked { AreChunks chunks.old.items → IsPlace chunks.old.items low → low.chunk ≤ high.chunk → OnOk result (AreChunks chunks.new.items) }
{
    if low.chunk == high.chunk && is_so_far(low.within, high.within, fresh.len()) {
        overwrite(&mut chunks[low.chunk], low.within, high.within, fresh);
        return Ok(());
    }
    rest.clear();
    rest.extend_from_slice(&chunks[high.chunk][high.within..])?;
    refill(&mut chunks[low.chunk], low.within, fresh, rest)?;
    drop_chunks(chunks, low.chunk + 1, high.chunk + 1)?;
    split(chunks, low.chunk)?;
    Ok(())
}

/// Whether one number is so far before another.
fn is_so_far(from: usize, to: usize, far: usize) -> bool
    ensures { result ≡ true → from + far ≡ to }
{
    from <= to && to - from == far
}

/// Puts these edges in the place of as many of a chunk's edges.
fn overwrite<A: Allocator>(chunk: &mut Vec<u32, A>, from: usize, to: usize, fresh: &[u32])
    requires many { from + length fresh.now ≡ to }
    requires within { to ≤ vec_len chunk.old }
    ensures { chunk.new.items ≡ take from chunk.old.items ++ fresh.now ++ drop to chunk.old.items }
{
    chunk[from..to].copy_from_slice(fresh);
}

/// Puts these edges, and then those, in the place of a chunk's edges from a number on.
fn refill<A: Allocator>(
    chunk: &mut Vec<u32, A>,
    keep: usize,
    fresh: &[u32],
    rest: &[u32],
) -> Result<(), NoMemory>
    ensures { OnOk result (chunk.new.items ≡ take keep chunk.old.items ++ fresh.now ++ rest.now) }
{
    chunk.truncate(keep);
    chunk.extend_from_slice(fresh)?;
    chunk.extend_from_slice(rest)?;
    Ok(())
}

/// Drops the chunks from one number to another, or none, where the other one is less.
fn drop_chunks<A: Allocator + Copy>(
    chunks: &mut Vec<Vec<u32, A>, A>,
    from: usize,
    to: usize,
) -> Result<(), NoMemory>
    requires from { from ≤ vec_len chunks.old }
    requires to { to ≤ vec_len chunks.old }
    ensures dropped { from ≤ to → OnOk result (chunks.new.items ≡ take from chunks.old.items ++ drop to chunks.old.items) }
    ensures kept { OnOk result (from ≤ vec_len chunks.new) }
{
    if from < to {
        let mut rest = chunks.split_off(to)?;
        chunks.truncate(from);
        chunks.append(&mut rest)?;
    }
    Ok(())
}

/// Splits a chunk until it is small.
fn split<A: Allocator + Copy>(chunks: &mut Vec<Vec<u32, A>, A>, at: usize) -> Result<(), NoMemory>
    requires { at < vec_len chunks.old }
    ensures inside { OnOk result (at < vec_len chunks.new) }
    ensures all { OnOk result (joined chunks.new.items ≡ joined chunks.old.items) }
    ensures chunked { AreChunks chunks.old.items → OnOk result (AreChunks chunks.new.items) }
    ensures small { OnOk result (HoldsAt (λ c. length c.items ≤ 256) chunks.new.items at) }
{
    while chunks[at].len() > LIMIT {
        let keep = chunks[at].len() - HALF;
        split_once(chunks, at, keep)?;
    }
    Ok(())
}

/// Makes two chunks of one, the first with so many edges.
fn split_once<A: Allocator + Copy>(
    chunks: &mut Vec<Vec<u32, A>, A>,
    at: usize,
    keep: usize,
) -> Result<(), NoMemory>
    requires inside { at < vec_len chunks.old }
    requires some { 0 < keep }
    requires others { HoldsAt (λ c. keep < length c.items) chunks.old.items at }
    ensures all { OnOk result (joined chunks.new.items ≡ joined chunks.old.items) }
    ensures chunked { AreChunks chunks.old.items → OnOk result (AreChunks chunks.new.items) }
    ensures inside { OnOk result (at < vec_len chunks.new) }
    ensures kept { OnOk result (HoldsAt (λ c. length c.items ≡ keep) chunks.new.items at) }
{
    let tail = chunks[at].split_off(keep)?;
    chunks.insert(at + 1, tail)?;
    Ok(())
}

/// The parities below an edge, or none where there is no edge.
pub fn parities_beside(lowest: Option<StandingEdge>) -> Parities
    ensures { result ≡ parities_beside lowest }
{
    match lowest {
        Some(one) => one.under,
        None => Parities { a: false, b: false },
    }
}

/// The edge itself, if there is one.
pub fn edge_beside(lowest: Option<StandingEdge>) -> Option<Edge>
    ensures { result ≡ edge_beside lowest }
{
    match lowest {
        Some(one) => Some(one.spoke.one.edge),
        None => None,
    }
}
