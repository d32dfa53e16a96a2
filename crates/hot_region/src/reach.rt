//! How far lines come to the left of a wall's direction in a rectangle: a line stays near its own direction, however far its ends are.

ghost use Rattle.std.specs.Prelude.{◌≡◌, ◌^◌, ◌≤ℤ◌, ◌+ℤ◌, ◌*ℤ◌, IfSome, IsTrue, pos};
ghost use Rattle.geom.specs.declared.point.Pt.{Pt};
ghost use Rattle.geom.specs.Limit.{AreInLimit, IsWithin};
ghost use Rattle.hot_region.specs.Halving.{IsMetOn};
ghost use Rattle.hot_region.specs.Rects.{IsIn};
ghost use Rattle.hot_region.specs.Walls.{IsBehind};

use crate::wall::{Wall, greatest_times, offset, span};
use geom::{Edge, Rect, wide_product};

/// The sum of three numbers, where there is room for it.
fn sum(x: i128, y: i128, z: i128) -> Option<i128>
    ensures { IfSome result (λ s. s ≡ (x +ℤ y) +ℤ z) }
{
    let first = x.checked_add(y)?;
    first.checked_add(z)
}

/// Half of a number, rounded down.
fn half(x: i64) -> i64
    requires { IsWithin (2 ^ 30) x }
    ensures rounded { x ≤ℤ ((result +ℤ result) +ℤ pos 1) }
    ensures small { IsWithin (2 ^ 30) result }
{
    x.div_euclid(2)
}

/// Whether a line may come as far to the left of a wall's direction as its bound says, in the columns of a rectangle: it stays near its
/// own direction, however far its ends are.
pub(crate) fn may_come_behind(wall: &Wall, rect: &Rect, line: &Edge) -> bool
    requires rect_in { AreInLimit rect.now.lo rect.now.hi }
    requires line_in { AreInLimit line.now.p line.now.q }
    ensures { (c : Pt) → IsIn rect.now c → IsBehind wall.now c → IsMetOn line.now c → IsTrue result }
{
    let run = line.p.vector_to(line.q);
    if run.dx < 0 {
        return true;
    }
    let drift = wall.run.determinant(run);
    let x = greatest_times(drift, rect.lo.x, rect.hi.x);
    let level = wide_product(wall.run.dx, offset(run, line.p));
    let aside = wide_product(drift, i64::from(x));
    let slack = wide_product(wall.run.dx.abs(), half(span(run)));
    match sum(level, aside, slack) {
        None => true,
        Some(most) => wide_product(run.dx, wall.bound) <= most,
    }
}
