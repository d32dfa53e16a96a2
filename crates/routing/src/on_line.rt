//! Segments, and portions of them, on their lines.

ghost use Rattle.geom.specs.Limit.{AreInLimit};

use geom::Edge;

/// A segment's number, with its ends, or those of a portion of it, within the coordinate limit.
#[derive(Clone, Copy, Debug, PartialEq, Eq, PartialOrd, Ord)]
pub(crate) struct OnLine {
    pub edge: Edge,
    pub number: u32,
    ghost in_limit: { AreInLimit edge.p edge.q },
}
