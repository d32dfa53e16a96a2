//! The pixels of points of the plane.

ghost use Rattle.std.specs.Prelude.{◌≡◌, IsTrue, pos, ◌<ℤ◌};
ghost use Rattle.geom.specs.Limit.{IsQuotientWithin, coordinate_limit};
ghost use Rattle.geom.specs.Pixel.{nearest, pixel, point_of};

use crate::point::Pt;
use crate::rational::RationalPoint;

impl RationalPoint {
    /// The pixel of the point, named by its centre: the nearest point of the grid, halves to the right and upward.
    pub fn pixel(&self) -> Pt
        requires x_in { IsQuotientWithin coordinate_limit self.now.x self.now.n }
        requires y_in { IsQuotientWithin coordinate_limit self.now.y self.now.n }
        ensures { result ≡ pixel (point_of self.now) }
    {
        Pt {
            x: nearest(self.x, self.n),
            y: nearest(self.y, self.n),
        }
    }
}

/// The whole number nearest to z / n, halves upward.
fn nearest(z: i128, n: i64) -> i32
    requires positive { pos 0 <ℤ n }
    requires within { IsQuotientWithin coordinate_limit z n }
    ensures { result ≡ nearest z n }
{
    let width = i128::from(n);
    (2 * z + width).div_euclid(2 * width) as i32
}
