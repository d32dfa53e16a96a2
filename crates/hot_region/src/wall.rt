//! Walls: halves of the plane, and how far points lie to the left of a wall's direction.

ghost use Rattle.std.specs.Prelude.{◌≡◌, ◌^◌, ◌≤ℤ◌, ◌+ℤ◌, ◌*ℤ◌, ℤ, nat_abs, pos};
ghost use Rattle.geom.specs.declared.point.Pt.{Pt};
ghost use Rattle.geom.specs.Limit.{AreInLimit, InLimit, IsWithin};
ghost use Rattle.geom.specs.Determinant.{determinant};
ghost use Rattle.hot_region.specs.Rects.{IsIn};

use geom::{Pt, Rect, Vector};

/// A half of the plane: the pixels that lie as far to the left of a direction, seen from the origin, as a bound says, or farther.
#[derive(Clone, Copy, Debug)]
pub struct Wall {
    pub run: Vector,
    pub bound: i64,
    ghost bound_small: { IsWithin (2 ^ 61) bound },
}

/// How far a point lies to the left of a direction, seen from the origin, in the determinant's unit.
pub(crate) fn offset(run: Vector, p: Pt) -> i64
    requires { InLimit p }
    ensures value { result ≡ determinant run.dx run.dy p.x p.y }
    ensures small { IsWithin (2 ^ 59) result }
{
    run.determinant(Vector {
        dx: i64::from(p.x),
        dy: i64::from(p.y),
    })
}

/// The sum of the absolute values of a vector's coordinates.
pub(crate) fn span(v: Vector) -> i64
    ensures value { result ≡ pos (nat_abs v.dx) +ℤ pos (nat_abs v.dy) }
    ensures small { IsWithin (2 ^ 30) result }
{
    v.dx.abs() + v.dy.abs()
}

/// The number from low to high whose product with a factor is the greatest.
pub(crate) fn greatest_times(factor: i64, low: i32, high: i32) -> i32
    requires { low ≤ℤ high }
    ensures from { low ≤ℤ result }
    ensures to { result ≤ℤ high }
    ensures greatest { (x : ℤ) → low ≤ℤ x → x ≤ℤ high → (factor *ℤ x) ≤ℤ (factor *ℤ result) }
{
    if factor < 0 { low } else { high }
}

/// The pixel of a rectangle that lies farthest to the left of a direction.
pub(crate) fn leftmost(run: Vector, rect: &Rect) -> Pt
    requires { AreInLimit rect.now.lo rect.now.hi }
    ensures within { InLimit result }
    ensures farthest { (c : Pt) → IsIn rect.now c → determinant run.dx run.dy c.x c.y ≤ℤ determinant run.dx run.dy result.x result.y }
{
    Pt {
        x: greatest_times(-run.dy, rect.lo.x, rect.hi.x),
        y: greatest_times(run.dx, rect.lo.y, rect.hi.y),
    }
}
