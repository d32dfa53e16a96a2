//! The ends of segments, on their carriers.

ghost use Rattle.geom.specs.Limit.{InLimit};

use geom::Pt;

/// A carrier: its direction in lowest terms, whether that goes down, and the determinant of it with the vector to a point from the
/// origin, which is the same for all points, with whether that is below 0.
#[derive(Clone, Copy, Debug, PartialEq, Eq, PartialOrd, Ord)]
pub(crate) struct Carrier {
    pub run: u64,
    pub rise: u64,
    pub goes_down: bool,
    pub is_below: bool,
    pub side: u64,
}

/// An end of a segment, on its carrier.
#[derive(Clone, Copy, Debug, PartialEq, Eq, PartialOrd, Ord)]
pub(crate) struct Mark {
    pub carrier: Carrier,
    pub point: Pt,
    ghost in_limit: { InLimit point },
}
