//! Whether directed edges close, and where they don't.
//!
//! 1. Each edge is listed at both of its ends, and the ends are brought into the order of their vertices, those of one vertex clockwise
//!    round it (`sorted_ends`).
//! 2. At a vertex the edges close where no two ends lie in one direction, and an end that leaves stands behind each one that arrives
//!    (`closes_between`).
//! 3. Of the edges at vertices where they don't close the first one is told (`first_open`).

ghost use Rattle.std.specs.Prelude.{◌≡◌, ◌↔◌, ◌+◌, ◌<◌, ◌≤◌, ℕ, All, AllPairs, IfOk, IsSortedBy, IsTrue, MatchOption, length, slice_index_or};
ghost use Rattle.std.specs.List.Sorted.{IsPermutation};
ghost use Rattle.std.specs.Ordering.{is_lt};
ghost use Rattle.geom.specs.Directed.{IsDirectedBefore};
ghost use Rattle.geom.specs.Limit.{AreInLimit};
ghost use Rattle.geom.specs.Rings.{Closes};
ghost use Rattle.polygonize.specs.Closing.{AreBothEnds, AreSortedEnds, GoesOn, IsArriving, IsFirstOpen, IsFound, IsLeastPlace, IsPastVertex, IsStarting, is_sooner_end, lesser, next_round};

use crate::leaving::LeavingEdge;
use crate::listing::{compare, is_at};
use geom::{DirectedEdge, NoMemory};
use std::alloc::Allocator;
use std::cmp::Ordering;

/// An end of a directed edge: the way from there to the other end, with the edge's place, and whether the edge goes it.
#[derive(Clone, Copy, Debug)]
pub struct EdgeEnd {
    pub way: LeavingEdge,
    pub leaves: bool,
}

/// The end that an edge leaves.
fn starting(d: DirectedEdge, place: usize) -> EdgeEnd
    requires { AreInLimit d.from d.to }
    ensures { IsStarting d place result }
{
    EdgeEnd {
        way: LeavingEdge {
            at: d.from,
            end: d.to,
            place,
        },
        leaves: true,
    }
}

/// The end at which it arrives.
fn arriving(d: DirectedEdge, place: usize) -> EdgeEnd
    requires { AreInLimit d.from d.to }
    ensures { IsArriving d place result }
{
    EdgeEnd {
        way: LeavingEdge {
            at: d.to,
            end: d.from,
            place,
        },
        leaves: false,
    }
}

/// Both ends of each edge.
fn both_ends<A: Allocator + Copy>(
    alloc: A,
    edges: &[DirectedEdge],
) -> Result<Vec<EdgeEnd, A>, NoMemory>
    requires { All (λ d. AreInLimit d.from d.to) edges.now }
    ensures { IfOk result (λ ends. AreBothEnds edges.now (length edges.now) ends.items) }
{
    let mut ends = Vec::with_capacity(alloc, edges.len().saturating_mul(2))?;
    for (place, d) in edges.iter().enumerate() {
        ends.push(starting(*d, place))?;
        ends.push(arriving(*d, place))?;
    }
    Ok(ends)
}

/// By the vertex, then clockwise round it.
fn compare_ends(s: &EdgeEnd, t: &EdgeEnd) -> Ordering
    ensures { is_lt result ≡ is_sooner_end s.now t.now }
{
    compare(&s.way, &t.way)
}

fn sort(ends: &mut [EdgeEnd])
    ensures permutation { IsPermutation ends.old ends.new }
    ensures len { length ends.new ≡ length ends.old }
    ensures sorted { IsSortedBy is_sooner_end ends.new }
{
    ends.sort_unstable_by(|s, t| compare_ends(s, t));
}

/// Both ends of each edge, in the order of their vertices, and clockwise round these.
fn sorted_ends<A: Allocator + Copy>(
    alloc: A,
    edges: &[DirectedEdge],
) -> Result<Vec<EdgeEnd, A>, NoMemory>
    requires { All (λ d. AreInLimit d.from d.to) edges.now }
    ensures { IfOk result (λ ends. AreSortedEnds edges.now ends.items) }
{
    let mut ends = both_ends(alloc, edges)?;
    sort(ends.as_mut_slice());
    Ok(ends)
}

/// The place behind the ends at the vertex of the one at `from`, the first of them.
fn past_vertex(ends: &[EdgeEnd], from: usize) -> usize
    requires { from < length ends.now }
    ensures { IsPastVertex ends.now from result }
{
    let v = ends[from].way.at;
    for place in from + 1..ends.len() {
        if !is_at(ends[place].way, v) {
            return place;
        }
    }
    ends.len()
}

/// The place behind this one, or the first where this is the last, round the places from one to before another one.
fn next_round(from: usize, past: usize, place: usize) -> usize
    requires { place < past }
    ensures { result ≡ next_round from past place }
{
    if place + 1 < past { place + 1 } else { from }
}

/// Whether the end at a place is met sooner than the one behind it.
fn is_apart(ends: &[EdgeEnd], place: usize) -> bool
    requires { place + 1 < length ends.now }
    ensures { (s t : EdgeEnd) → result ≡ is_sooner_end (slice_index_or ends.now place s) (slice_index_or ends.now (place + 1) t) }
{
    compare_ends(&ends[place], &ends[place + 1]).is_lt()
}

/// Whether round a vertex, whose ends stand from one place to before another one, the end at a place lies in another direction than the
/// next one, and that one leaves where this one arrives.
fn goes_on(ends: &[EdgeEnd], from: usize, past: usize, place: usize) -> bool
    requires behind { from ≤ place }
    requires before { place < past }
    requires inside { past ≤ length ends.now }
    ensures { IsTrue result ↔ GoesOn ends.now from past place }
{
    if place + 1 < past && !is_apart(ends, place) {
        return false;
    }
    ends[place].leaves || ends[next_round(from, past, place)].leaves
}

/// Whether all of them do.
fn closes_between(ends: &[EdgeEnd], from: usize, past: usize) -> bool
    requires { past ≤ length ends.now }
    ensures { IsTrue result ↔ ((place : ℕ) → from ≤ place → place < past → GoesOn ends.now from past place) }
{
    for place in from..past {
        if !goes_on(ends, from, past, place) {
            return false;
        }
    }
    true
}

/// The least place of an edge that has one of these ends.
fn least_place(ends: &[EdgeEnd], from: usize, past: usize) -> usize
    requires some { from < past }
    requires inside { past ≤ length ends.now }
    ensures { IsLeastPlace ends.now from past result }
{
    let mut least = ends[from].way.place;
    for k in from + 1..past {
        least = least.min(ends[k].way.place);
    }
    least
}

/// The lesser place, where one was found before.
fn lesser(found: Option<usize>, place: usize) -> Option<usize>
    ensures { result ≡ lesser found place }
{
    match found {
        Some(other) if other < place => Some(other),
        _ => Some(place),
    }
}

/// The first place of an edge that has an end at a vertex where the ends don't close.
fn first_found(ends: &[EdgeEnd]) -> Option<usize>
    ensures { IsFound ends.now result }
{
    let mut found = None;
    let mut from = 0;
    while from < ends.len() {
        let past = past_vertex(ends, from);
        if !closes_between(ends, from, past) {
            found = lesser(found, least_place(ends, from, past));
        }
        from = past;
    }
    found
}

/// The place of the first edge that starts or ends at a vertex where the edges don't close; none where they close. They close at a
/// vertex where none runs both ways, no two lie in one direction, and the next one, clockwise, of each that arrives leaves.
pub fn first_open<A: Allocator + Copy>(
    alloc: A,
    edges: &[DirectedEdge],
) -> Result<Option<usize>, NoMemory>
    requires ascending { AllPairs IsDirectedBefore edges.now }
    requires in_limit { All (λ d. AreInLimit d.from d.to) edges.now }
    ensures { IfOk result (λ found. MatchOption found (Closes edges.now) (λ place. IsFirstOpen edges.now place)) }
{
    let ends = sorted_ends(alloc, edges)?;
    Ok(first_found(&ends))
}
