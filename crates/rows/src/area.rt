//! The area that directed edges bound.

ghost use Rattle.std.specs.Prelude.{◌≡◌, ◌^◌, All};
ghost use Rattle.geom.specs.Limit.{AreInLimit, IsWithin};
ghost use Rattle.cover_law.specs.Areas.{side_area, twice_area};

use geom::{DirectedEdge, Pt};

/// Twice the area of the triangle that the edge makes with the origin, above 0 where it turns to the left.
fn side_area(edge: DirectedEdge) -> i64
    requires { AreInLimit edge.from edge.to }
    ensures value { result ≡ side_area edge }
    ensures small { IsWithin (2 ^ 59) result }
{
    let origin = Pt { x: 0, y: 0 };
    origin
        .vector_to(edge.from)
        .determinant(origin.vector_to(edge.to))
}

/// Twice the area that directed edges bound on their left, in grid units.
pub fn twice_area(edges: &[DirectedEdge]) -> i128
    requires { All (λ d. AreInLimit d.from d.to) edges.now }
    ensures { result ≡ twice_area edges.now }
{
    let mut area = 0i128;
    for edge in edges {
        area += i128::from(side_area(*edge));
    }
    area
}
