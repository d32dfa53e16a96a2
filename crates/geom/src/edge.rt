//! Edges between points of the grid, and their counts in the two layers.

ghost use Rattle.std.specs.Prelude.{◌≡◌, ◌⊎◌, ◌^◌, MatchOption};
ghost use Rattle.geom.specs.Limit.{AreInLimit, InLimit, IsWithin};
ghost use Rattle.geom.specs.Box.{greatest_corner, least_corner};
ghost use Rattle.geom.specs.Determinant.{side};
ghost use Rattle.geom.specs.Order.{IsBefore};

use crate::point::Pt;
use crate::rect::Rect;

/// An edge between two points of the grid, the lesser one first.
#[derive(Clone, Copy, Debug, PartialEq, Eq, PartialOrd, Ord)]
pub struct Edge {
    pub p: Pt,
    pub q: Pt,
    ghost ordered: { IsBefore p q },
}

impl Edge {
    /// The edge between two points, unless they are equal.
    pub fn between(c: Pt, e: Pt) -> Option<Edge>
        ensures { MatchOption result (c ≡ e) (λ edge. ((edge.p ≡ c) × (edge.q ≡ e)) ⊎ ((edge.p ≡ e) × (edge.q ≡ c))) }
    {
        if c < e {
            return Some(Edge { p: c, q: e });
        }
        if e < c {
            return Some(Edge { p: e, q: c });
        }
        None
    }

    /// The least rectangle that has the edge.
    pub fn bounds(&self) -> Rect
        ensures lo { result.lo ≡ least_corner self.now.p self.now.q }
        ensures hi { result.hi ≡ greatest_corner self.now.p self.now.q }
    {
        Rect::spanned_by(self.p, self.q)
    }

    /// Above 0 where a point is to the left of the edge's line, below 0 where it is to the right.
    pub fn side(&self, point: Pt) -> i64
        requires self_in { AreInLimit self.now.p self.now.q }
        requires point_in { InLimit point }
        ensures value { result ≡ side self.now.p self.now.q point }
        ensures small { IsWithin (2 ^ 59) result }
    {
        let along = self.p.vector_to(self.q);
        along.determinant(self.p.vector_to(point))
    }
}

/// A rounded edge, with the number of places where the routes of each layer run along it.
#[derive(Clone, Copy, Debug)]
pub struct Counted {
    pub edge: Edge,
    pub in_a: u32,
    pub in_b: u32,
}
