//! The points of columns, by number.

ghost use Rattle.std.specs.Prelude.{◌≡◌, ◌<◌, ◌+◌, ◌*◌, IsTrue, get_or, length, pos};
ghost use Rattle.geom.specs.Segments.{same_point};
ghost use Rattle.geom.specs.declared.point.Pt.{Pt as PtOf};
ghost use Rattle.columns.specs.Layout.{paired, pairs, points_of};
ghost use Rattle.columns.specs.Refusals.{are_whole};

use crate::layout::Points;
use geom::Pt;

impl<'a> Points<'a> {
    /// Whether each x has its y.
    pub(crate) fn are_whole(&self) -> bool
        ensures { result ≡ are_whole self.now }
    {
        match *self {
            Points::Interleaved(coordinates) => coordinates.len() % 2 == 0,
            Points::Separate { x, y } => x.len() == y.len(),
        }
    }

    /// How many points there are.
    pub(crate) fn count(&self) -> usize
        requires { IsTrue (are_whole self.now) }
        ensures { result ≡ length (points_of self.now) }
    {
        match *self {
            Points::Interleaved(coordinates) => coordinates.len() / 2,
            Points::Separate { x, .. } => x.len(),
        }
    }

    /// The point with this number.
    #[inline(always)]
    pub(crate) fn at(&self, number: usize) -> Pt
        requires { number < length (points_of self.now) }
        ensures { (other : PtOf) → result ≡ get_or (points_of self.now) number other }
    {
        match *self {
            Points::Interleaved(coordinates) => pair_at(coordinates, number),
            Points::Separate { x, y } => paired_at(x, y, number),
        }
    }
}

/// The number at a place.
#[inline(always)]
fn number_at(numbers: &[i32], at: usize) -> i32
    requires { at < length numbers.now }
    ensures { result ≡ get_or numbers.now at (pos 0) }
{
    numbers[at]
}

/// The point with this number, of coordinates x y x y ..
#[inline(always)]
fn pair_at(coordinates: &[i32], number: usize) -> Pt
    requires { number < length (pairs coordinates.now) }
    ensures x { result.x ≡ get_or coordinates.now (2 * number) (pos 0) }
    ensures y { result.y ≡ get_or coordinates.now (2 * number + 1) (pos 0) }
{
    Pt {
        x: number_at(coordinates, 2 * number),
        y: number_at(coordinates, 2 * number + 1),
    }
}

/// The point with this number, of a column of x and one of y.
#[inline(always)]
fn paired_at(x: &[i32], y: &[i32], number: usize) -> Pt
    requires { number < length (paired x.now y.now) }
    ensures x { result.x ≡ get_or x.now number (pos 0) }
    ensures y { result.y ≡ get_or y.now number (pos 0) }
{
    Pt {
        x: number_at(x, number),
        y: number_at(y, number),
    }
}

/// Whether two points are the same.
#[inline(always)]
pub(crate) fn are_same(p: Pt, q: Pt) -> bool
    ensures { result ≡ same_point p q }
{
    p == q
}
