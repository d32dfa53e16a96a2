//! Squares, as rings of polygons.

ghost use Rattle.std.specs.Prelude.{◌<ℤ◌};

use geom::{NoMemory, Pt, SimpleRing};
use std::alloc::Allocator;

fn quadrangle<A: Allocator>(alloc: A, a: Pt, b: Pt, c: Pt, d: Pt) -> Result<SimpleRing<A>, NoMemory>
    requires ab { a.x <ℤ b.x }
    requires ac { a.x <ℤ c.x }
    requires ad { a.y <ℤ d.y }
    requires bc { b.y <ℤ c.y }
    requires db { d.x <ℤ b.x }
    requires dc { d.x <ℤ c.x }
{
    Ok(SimpleRing::new(Vec::from_slice(alloc, &[a, b, c, d])?))
}

/// The square from (lo, lo) to (hi, hi), counter-clockwise.
pub fn square<A: Allocator>(alloc: A, lo: i32, hi: i32) -> Result<SimpleRing<A>, NoMemory>
    requires { lo <ℤ hi }
{
    quadrangle(
        alloc,
        Pt { x: lo, y: lo },
        Pt { x: hi, y: lo },
        Pt { x: hi, y: hi },
        Pt { x: lo, y: hi },
    )
}
