//! Rectangles of the grid.

ghost use Rattle.std.specs.Prelude.{◌≡◌, ◌↔◌, ◌≤ℤ◌, IsTrue};
ghost use Rattle.std.specs.Int.{int_max, int_min};
ghost use Rattle.geom.specs.Box.{IsInBox, ShareAPoint, greatest_corner, least_corner};

use crate::point::Pt;

/// A closed rectangle, by its least and its greatest corner.
#[derive(Clone, Copy, Debug, PartialEq, Eq)]
pub struct Rect {
    pub lo: Pt,
    pub hi: Pt,
    ghost wide: { lo.x ≤ℤ hi.x },
    ghost high: { lo.y ≤ℤ hi.y },
}

impl Rect {
    /// The least rectangle that has both points.
    pub fn spanned_by(a: Pt, b: Pt) -> Rect
        ensures lo { result.lo ≡ least_corner a b }
        ensures hi { result.hi ≡ greatest_corner a b }
    {
        let lo = Pt {
            x: a.x.min(b.x),
            y: a.y.min(b.y),
        };
        let hi = Pt {
            x: a.x.max(b.x),
            y: a.y.max(b.y),
        };
        Rect { lo, hi }
    }

    /// The least rectangle that holds this one and a point.
    pub fn with(self, point: Pt) -> Rect
        ensures left { result.lo.x ≡ int_min self.lo.x point.x }
        ensures below { result.lo.y ≡ int_min self.lo.y point.y }
        ensures right { result.hi.x ≡ int_max self.hi.x point.x }
        ensures above { result.hi.y ≡ int_max self.hi.y point.y }
    {
        Rect {
            lo: Pt {
                x: self.lo.x.min(point.x),
                y: self.lo.y.min(point.y),
            },
            hi: Pt {
                x: self.hi.x.max(point.x),
                y: self.hi.y.max(point.y),
            },
        }
    }

    /// Whether a point lies in the rectangle, its border included.
    pub fn holds(&self, point: Pt) -> bool
        ensures { IsTrue result ↔ IsInBox self.now.lo self.now.hi point }
    {
        is_from(self.lo.x, self.hi.x, point.x) && is_from(self.lo.y, self.hi.y, point.y)
    }

    /// Whether some point lies in both rectangles, their borders included.
    pub fn shares_point(&self, other: &Rect) -> bool
        ensures { IsTrue result ↔ ShareAPoint self.now.lo self.now.hi other.now.lo other.now.hi }
    {
        overlap(self.lo.x, self.hi.x, other.lo.x, other.hi.x)
            && overlap(self.lo.y, self.hi.y, other.lo.y, other.hi.y)
    }
}

/// Whether a number is from low to high.
fn is_from(low: i32, high: i32, number: i32) -> bool
    ensures { IsTrue result ↔ ((low ≤ℤ number) × (number ≤ℤ high)) }
{
    low <= number && number <= high
}

/// Whether each of two closed intervals begins where the other has not ended.
fn overlap(low: i32, high: i32, other_low: i32, other_high: i32) -> bool
    ensures { IsTrue result ↔ ((low ≤ℤ other_high) × (other_low ≤ℤ high)) }
{
    low <= other_high && other_low <= high
}
