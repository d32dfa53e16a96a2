//! The pixels that a segment meets.

ghost use Rattle.std.specs.Prelude.{◌≡◌, ◌↔◌, ◌^◌, IsTrue, pos, ◌+ℤ◌};
ghost use Rattle.std.specs.Int.RustNames.{unsigned_abs};
ghost use Rattle.geom.specs.Limit.{AreInLimit, InLimit, IsWithin};
ghost use Rattle.geom.specs.Route.{Meets};
ghost use Rattle.routing.specs.Corners.{PassesCorners};

use geom::{Pt, Seg, Vector};

/// Whether some point of a segment has the given pixel. No division is done.
pub fn meets(s: &Seg, pixel: Pt) -> bool
    requires s_in { AreInLimit s.now.a s.now.b }
    requires pixel_in { InLimit pixel }
    ensures { IsTrue result ↔ Meets s.now pixel }
{
    s.bounds().holds(pixel) && passes_corners(s.direction(), s.a.vector_to(pixel))
}

/// Whether a segment passes between the corners of a pixel, by its direction and the vector from its start to the
/// pixel's centre.
#[inline(never)]
fn passes_corners(run: Vector, to: Vector) -> bool
    ensures { IsTrue result ↔ PassesCorners run.dx run.dy to.dx to.dy }
{
    let twice = doubled(run.determinant(to));
    let size = span(run);
    if twice == size {
        return run.dx > 0 && run.dy < 0;
    }
    if twice == -size {
        return run.dx < 0 && run.dy > 0;
    }
    -size < twice && twice < size
}

/// The sum of the absolute values of a vector's coordinates.
fn span(v: Vector) -> i64
    ensures value { result ≡ pos (unsigned_abs v.dx) +ℤ pos (unsigned_abs v.dy) }
    ensures small { IsWithin (2 ^ 30) result }
{
    v.dx.abs() + v.dy.abs()
}

/// Twice a number.
fn doubled(x: i64) -> i64
    requires { IsWithin (2 ^ 59) x }
    ensures value { result ≡ x +ℤ x }
    ensures small { IsWithin (2 ^ 60) result }
{
    2 * x
}
