//! Vectors between points, and their determinants.

ghost use Rattle.std.specs.Prelude.{◌≡◌, ◌^◌, ◌*ℤ◌};
ghost use Rattle.geom.specs.Limit.{IsWithin};
ghost use Rattle.geom.specs.Determinant.{determinant};

/// A difference of two points. It has room for coordinates up to the limit, 2^28.
#[derive(Clone, Copy, Debug)]
pub struct Vector {
    pub dx: i64,
    pub dy: i64,
    ghost dx_small: { IsWithin (2 ^ 29) dx },
    ghost dy_small: { IsWithin (2 ^ 29) dy },
}

impl Vector {
    /// The determinant of two vectors: above 0 where the other one points to the left of this one.
    pub fn determinant(self, other: Vector) -> i64
        ensures value { result ≡ determinant self.dx self.dy other.dx other.dy }
        ensures small { IsWithin (2 ^ 59) result }
    {
        let first = self.dx * other.dy;
        let second = self.dy * other.dx;
        first - second
    }
}

/// The product of two numbers, in twice their width.
pub fn wide_product(x: i64, y: i64) -> i128
    ensures { result ≡ x *ℤ y }
{
    i128::from(x) * i128::from(y)
}
