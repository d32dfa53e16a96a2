//! Whether directed edges close into cycles, decided by a look at all pairs of them.

ghost use Rattle.std.specs.Prelude.{◌≡◌, ◌≢◌, All, AllPairs, Contains, IfOk, IsTrue, true};
ghost use Rattle.geom.specs.Directed.{IsDirectedBefore};
ghost use Rattle.geom.specs.Limit.{AreInLimit};
ghost use Rattle.geom.specs.Rings.{Closes};
ghost use Rattle.polygonize.specs.Clockwise.{sooner};
ghost use Rattle.polygonize_tests.specs.Closing.{HaveBothWays, HasNext, IsFirst, are_apart, is_passed, met};

use crate::wide::is_sooner;
use geom::{DirectedEdge, NoMemory, Pt};
use std::alloc::Allocator;

/// The directed edges in order, each once.
pub fn each_once<A: Allocator>(mut edges: Vec<DirectedEdge, A>) -> Vec<DirectedEdge, A>
    ensures { AllPairs IsDirectedBefore result.items }
{
    edges.sort_unstable();
    edges.dedup();
    edges
}

/// Whether all ends are within the coordinate limit.
pub fn are_in_limit(edges: &[DirectedEdge]) -> bool
    ensures { IsTrue result → All (λ d. AreInLimit d.from d.to) edges.now }
{
    edges
        .iter()
        .all(|d| d.from.is_in_limit() && d.to.is_in_limit())
}

/// Whether an edge stands in one direction alone.
fn is_one_way(edges: &[DirectedEdge], d: DirectedEdge) -> bool
    ensures { IsTrue result → ¬ (Contains edges.now (record { from = d.to; to = d.from })) }
{
    !edges.contains(&DirectedEdge {
        from: d.to,
        to: d.from,
    })
}

fn are_one_way(edges: &[DirectedEdge]) -> bool
    ensures { IsTrue result → All (λ d. ¬ (Contains edges.now (record { from = d.to; to = d.from }))) edges.now }
{
    edges.iter().all(|d| is_one_way(edges, *d))
}

/// Whether two edges lead in two directions from a vertex, or from two vertices.
fn lie_apart(s: DirectedEdge, t: DirectedEdge) -> bool
    ensures { result ≡ are_apart s t }
{
    s.from != t.from
        || s.to == t.to
        || is_sooner(s.from, s.to, t.to)
        || is_sooner(s.from, t.to, s.to)
}

fn lies_apart(s: DirectedEdge, both: &[DirectedEdge]) -> bool
    ensures { IsTrue result → All (λ t. are_apart s t ≡ true) both.now }
{
    both.iter().all(|t| lie_apart(s, *t))
}

fn all_lie_apart(both: &[DirectedEdge]) -> bool
    ensures { IsTrue result → All (λ s. All (λ t. are_apart s t ≡ true) both.now) both.now }
{
    both.iter().all(|s| lies_apart(*s, both))
}

/// Whether a is met before b, turning clockwise round v from u.
fn is_met_before(v: Pt, u: Pt, a: Pt, b: Pt) -> bool
    ensures { result ≡ met v u a b }
{
    is_sooner(v, u, a) && is_sooner(v, a, b)
        || is_sooner(v, a, b) && is_sooner(v, b, u)
        || is_sooner(v, b, u) && is_sooner(v, u, a)
}

fn passes(r: DirectedEdge, u: Pt, v: Pt, w: Pt) -> bool
    ensures { result ≡ is_passed u v w r }
{
    r.from != v || r.to == u || r.to == w || is_met_before(v, u, w, r.to)
}

/// Whether w is the first neighbour of v, turning clockwise from u.
fn is_first(both: &[DirectedEdge], u: Pt, v: Pt, w: Pt) -> bool
    ensures { IsTrue result → IsFirst both.now u v w }
{
    both.iter().all(|r| passes(*r, u, v, w))
}

/// Whether e comes next after d.
fn is_next(both: &[DirectedEdge], d: DirectedEdge, e: DirectedEdge) -> bool
    ensures from { IsTrue result → e.from ≡ d.to }
    ensures other { IsTrue result → e.to ≢ d.from }
    ensures first { IsTrue result → IsFirst both.now d.from d.to e.to }
{
    e.from == d.to && e.to != d.from && is_first(both, d.from, d.to, e.to)
}

fn has_next(edges: &[DirectedEdge], both: &[DirectedEdge], d: DirectedEdge) -> bool
    ensures { IsTrue result → HasNext edges.now both.now d }
{
    for e in edges {
        if is_next(both, d, *e) {
            return true;
        }
    }
    false
}

fn all_have_next(edges: &[DirectedEdge], both: &[DirectedEdge]) -> bool
    ensures { IsTrue result → All (HasNext edges.now both.now) edges.now }
{
    edges.iter().all(|d| has_next(edges, both, *d))
}

/// Each edge, and the way back along it.
fn both_ways<A: Allocator + Copy>(
    alloc: A,
    edges: &[DirectedEdge],
) -> Result<Vec<DirectedEdge, A>, NoMemory>
    ensures { IfOk result (λ both. HaveBothWays edges.now both.items) }
{
    let mut both = Vec::new(alloc);
    for d in edges {
        both.push(*d)?;
        both.push(DirectedEdge {
            from: d.to,
            to: d.from,
        })?;
    }
    Ok(both)
}

/// Whether directed edges that stand in order close into cycles.
pub fn closes<A: Allocator + Copy>(alloc: A, edges: &[DirectedEdge]) -> Result<bool, NoMemory>
    requires { AllPairs IsDirectedBefore edges.now }
    ensures { IfOk result (λ yes. IsTrue yes → Closes edges.now) }
{
    if !are_one_way(edges) {
        return Ok(false);
    }
    let both = both_ways(alloc, edges)?;
    if !all_lie_apart(&both) {
        return Ok(false);
    }
    Ok(all_have_next(edges, &both))
}
