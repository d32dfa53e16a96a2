//! Points of the plane with rational coordinates.

ghost use Rattle.std.specs.Prelude.{◌<ℤ◌, pos};

/// The point (x / n, y / n) of the plane.
#[derive(Clone, Copy, Debug)]
pub struct RationalPoint {
    pub x: i128,
    pub y: i128,
    pub n: i64,
    ghost positive: { pos 0 <ℤ n },
}
