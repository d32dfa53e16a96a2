//! Points of the grid.

ghost use Rattle.std.specs.Prelude.{◌≡◌, ◌↔◌, ◌-ℤ◌, IsTrue};
ghost use Rattle.geom.specs.Limit.{InLimit};

use crate::vector::Vector;

/// The greatest absolute value of a coordinate.
pub const COORDINATE_LIMIT: i32 = 268_435_456;

#[derive(Clone, Copy, Debug, PartialEq, Eq, PartialOrd, Ord)]
pub struct Pt {
    pub x: i32,
    pub y: i32,
}

impl Pt {
    /// Whether both coordinates are within the limit.
    pub fn is_in_limit(self) -> bool
        ensures { IsTrue result ↔ InLimit self }
    {
        -COORDINATE_LIMIT <= self.x
            && self.x <= COORDINATE_LIMIT
            && -COORDINATE_LIMIT <= self.y
            && self.y <= COORDINATE_LIMIT
    }

    /// The vector from this point to another.
    pub fn vector_to(self, other: Pt) -> Vector
        requires self_in { InLimit self }
        requires other_in { InLimit other }
        ensures dx { result.dx ≡ other.x -ℤ self.x }
        ensures dy { result.dy ≡ other.y -ℤ self.y }
    {
        Vector {
            dx: i64::from(other.x) - i64::from(self.x),
            dy: i64::from(other.y) - i64::from(self.y),
        }
    }
}
