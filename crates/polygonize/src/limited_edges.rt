//! Directed edges whose type knows that distances between them have room.

ghost use Rattle.std.specs.Prelude.{All};
ghost use Rattle.geom.specs.Limit.{AreInLimit};

use geom::DirectedEdge;

/// Directed edges within the coordinate limit.
#[derive(Clone, Copy)]
pub struct LimitedEdges<'a> {
    pub list: &'a [DirectedEdge],
    ghost in_limit: { All (λ d. AreInLimit d.from d.to) list.now },
}
