//! Edges at the vertices that they leave.

ghost use Rattle.geom.specs.Limit.{InLimit};

use geom::Pt;

/// A directed edge by the vertex that it leaves, its end, and its place among the edges.
#[derive(Clone, Copy, Debug)]
pub struct LeavingEdge {
    pub at: Pt,
    pub end: Pt,
    pub place: usize,
    ghost at_in: { InLimit at },
    ghost end_in: { InLimit end },
}
