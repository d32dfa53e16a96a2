//! Points between those of the grid.

ghost use Rattle.std.specs.Prelude.{◌↔◌, IsTrue};
ghost use Rattle.lane_tests.specs.Sides.{IsHalf};

use geom::COORDINATE_LIMIT;

/// The point (x2 / 2, y2 / 2).
#[derive(Clone, Copy, Debug)]
pub struct Half {
    pub x2: i32,
    pub y2: i32,
}

impl Half {
    /// Whether the point is at most 1/2 outside the coordinate limit.
    pub fn is_near(self) -> bool
        ensures { IsTrue result ↔ IsHalf self }
    {
        let most = 2 * COORDINATE_LIMIT + 1;
        -most <= self.x2 && self.x2 <= most && -most <= self.y2 && self.y2 <= most
    }
}

/// The point (x2 / 2 + dx / 2^64, y2 / 2 + dy / 2^64).
#[derive(Clone, Copy, Debug)]
pub struct Probe {
    pub x2: i32,
    pub y2: i32,
    pub dx: i32,
    pub dy: i32,
}
