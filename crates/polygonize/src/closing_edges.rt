//! Directed edges whose type knows what the search for their polygons stands on.

ghost use Rattle.std.specs.Prelude.{◌≡◌, All};
ghost use Rattle.geom.specs.Limit.{AreInLimit};
ghost use Rattle.geom.specs.Rings.{Closes};

use crate::limited_edges::LimitedEdges;
use geom::DirectedEdge;

/// Directed edges that close, within the coordinate limit.
#[derive(Clone, Copy)]
pub struct ClosingEdges<'a> {
    pub list: &'a [DirectedEdge],
    ghost closes: { ∥ Closes list.now ∥₁ },
    ghost in_limit: { All (λ d. AreInLimit d.from d.to) list.now },
}

impl<'a> ClosingEdges<'a> {
    /// The same edges, for what doesn't need that they close.
    pub fn limited(self) -> LimitedEdges<'a>
        ensures { result.list.now ≡ self.entry.list.now }
    {
        LimitedEdges { list: self.list }
    }
}
