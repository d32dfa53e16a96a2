//! Segments of a layer's rings.

ghost use Rattle.std.specs.Prelude.{◌≡◌, ◌≢◌, ◌^◌, ◌-ℤ◌, MatchOption};
ghost use Rattle.geom.specs.Limit.{AreInLimit, InLimit, IsWithin};
ghost use Rattle.geom.specs.Box.{greatest_corner, least_corner};
ghost use Rattle.geom.specs.Determinant.{side, turn};

use crate::point::Pt;
use crate::rect::Rect;
use crate::vector::Vector;

/// One of the two layers of an overlay.
#[derive(Clone, Copy, Debug, PartialEq, Eq, PartialOrd, Ord)]
pub enum Source {
    A,
    B,
}

/// A segment of a layer's ring, directed as written.
#[derive(Clone, Copy, Debug)]
pub struct Seg {
    pub a: Pt,
    pub b: Pt,
    pub layer: Source,
    ghost proper: { a ≢ b },
}

impl Seg {
    /// The segment from one point to another, unless they are equal.
    pub fn new(a: Pt, b: Pt, layer: Source) -> Option<Seg>
        ensures { MatchOption result (a ≡ b) (λ s. (s.a ≡ a) × (s.b ≡ b) × (s.layer ≡ layer)) }
    {
        if a == b {
            return None;
        }
        Some(Seg { a, b, layer })
    }

    /// The vector from the segment's start to its end.
    pub fn direction(&self) -> Vector
        requires { AreInLimit self.now.a self.now.b }
        ensures dx { result.dx ≡ self.now.b.x -ℤ self.now.a.x }
        ensures dy { result.dy ≡ self.now.b.y -ℤ self.now.a.y }
    {
        self.a.vector_to(self.b)
    }

    /// The least rectangle that has the segment.
    pub fn bounds(&self) -> Rect
        ensures lo { result.lo ≡ least_corner self.now.a self.now.b }
        ensures hi { result.hi ≡ greatest_corner self.now.a self.now.b }
    {
        Rect::spanned_by(self.a, self.b)
    }

    /// The determinant of the directions of two segments: 0 where they are parallel.
    pub fn turn(&self, other: &Seg) -> i64
        requires self_in { AreInLimit self.now.a self.now.b }
        requires other_in { AreInLimit other.now.a other.now.b }
        ensures value { result ≡ turn self.now.a self.now.b other.now.a other.now.b }
        ensures small { IsWithin (2 ^ 59) result }
    {
        self.direction().determinant(other.direction())
    }

    /// Above 0 where a point is to the left of the segment's line, below 0 where it is to the right.
    pub fn side(&self, point: Pt) -> i64
        requires self_in { AreInLimit self.now.a self.now.b }
        requires point_in { InLimit point }
        ensures value { result ≡ side self.now.a self.now.b point }
        ensures small { IsWithin (2 ^ 59) result }
    {
        self.direction().determinant(self.a.vector_to(point))
    }
}
