//! The nearest edge below a point, of some that are looked at one by one.

ghost use Rattle.std.specs.Prelude.{◌≡◌, ℕ, ◌↔◌, ◌^◌, ◌<◌, ◌+ℤ◌, ◌*ℤ◌, ◌<ℤ◌, All, Contains, IfSome, IsTrue, MatchOption, length, pos, true};
ghost use Rattle.geom.specs.declared.edge.Edge.{Edge};
ghost use Rattle.geom.specs.Holes.{left_of};
ghost use Rattle.geom.specs.Limit.{AreInLimit, InLimit, IsWithin};
ghost use Rattle.geom.specs.Parity.{covers};
ghost use Rattle.polygonize.specs.Below.{HasGapRoom, IsAsNear, IsGap, IsGapOf, IsLesserGap, IsLessGap, RunsBelow};
ghost use Rattle.polygonize.specs.Next.{edge_at};

use crate::limited_edges::LimitedEdges;
use geom::{DirectedEdge, Edge, Pt, wide_product};

/// The gap between an edge and a point just left of a vertex above it: (side + rise / 2^64) / run grid units.
#[derive(Clone, Copy)]
pub struct Gap {
    pub number: usize,
    side: i64,
    rise: i64,
    run: i64,
}

/// Whether the point just left of v has an x from the edge's first end, inclusive, to its second, exclusive.
fn is_over(edge: &Edge, v: Pt) -> bool
    requires edge_in { AreInLimit edge.now.p edge.now.q }
    requires v_in { InLimit v }
    ensures { IsTrue result ↔ (covers edge.now (left_of v) ≡ true) }
{
    edge.p.x < v.x && v.x <= edge.q.x
}

/// Whether side + rise / 2^64 is above 0.
fn is_above(side: i64, rise: i64) -> bool
    requires { IsWithin (2 ^ 29) rise }
    ensures { IsTrue result ↔ (pos 0 <ℤ ((pos (2 ^ 64) *ℤ side) +ℤ rise)) }
{
    side > 0 || side == 0 && rise > 0
}

/// The gap to the edge with this number, if it lies below the point just left of v.
pub fn gap_below(edge: DirectedEdge, number: usize, v: Pt) -> Option<Gap>
    requires edge_in { AreInLimit edge.from edge.to }
    requires v_in { InLimit v }
    ensures number { IfSome result (λ g. g.number ≡ number) }
    ensures gap { MatchOption result ((e : Edge) → ¬ (RunsBelow edge (left_of v) e)) (λ g. IsGap edge v g) }
{
    let edge = Edge::between(edge.from, edge.to)?;
    if !is_over(&edge, v) {
        return None;
    }
    let side = edge.side(v);
    let along = edge.p.vector_to(edge.q);
    if !is_above(side, along.dy) {
        return None;
    }
    Some(Gap {
        number,
        side,
        rise: along.dy,
        run: along.dx,
    })
}

/// Whether the point is nearer to the first edge than to the second.
fn is_nearer(e: Gap, f: Gap) -> bool
    requires e_room { HasGapRoom e }
    requires f_room { HasGapRoom f }
    ensures { IsTrue result ↔ IsLessGap e f }
{
    let first = wide_product(e.side, f.run);
    let second = wide_product(f.side, e.run);
    if first < second {
        return true;
    }
    if second < first {
        return false;
    }
    wide_product(e.rise, f.run) < wide_product(f.rise, e.run)
}

/// The lesser of two gaps, the first one of equal ones.
pub fn nearer(best: Option<Gap>, found: Option<Gap>) -> Option<Gap>
    requires best_room { IfSome best HasGapRoom }
    requires found_room { IfSome found HasGapRoom }
    ensures { IsLesserGap best found result }
{
    match (best, found) {
        (Some(e), Some(f)) => { if is_nearer(f, e) { Some(f) } else { Some(e) } }
        (Some(e), None) => Some(e),
        (None, found) => found,
    }
}

/// The gap to the nearest edge below the point just left of v, among those of the given numbers.
pub fn nearest_among(edges: LimitedEdges<'_>, numbers: &[usize], v: Pt) -> Option<Gap>
    requires v_in { InLimit v }
    requires inside { All (λ k. k < length edges.list.now) numbers.now }
    ensures known { IfSome result (λ g. IsGapOf edges.entry.list.now v g) }
    ensures near { (k : ℕ) → Contains numbers.now k → IsAsNear (edge_at edges.entry.list.now k) v result }
{
    let mut best = None;
    for number in numbers {
        best = nearer(best, gap_below(edges.list[*number], *number, v));
    }
    best
}
