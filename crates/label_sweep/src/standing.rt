//! What the sweep keeps of an edge.

ghost use Rattle.geom.specs.Limit.{AreInLimit};

use crate::parities::Parities;
use geom::{Counted, Edge};

/// An edge that begins at the place of the sweep.
#[derive(Clone, Copy, Debug)]
pub struct Spoke {
    pub one: Counted,
    ghost in_limit: { AreInLimit one.edge.p one.edge.q },
}

/// An edge that reaches the place of the sweep, and the parities just below it.
#[derive(Clone, Copy, Debug)]
pub struct StandingEdge {
    pub spoke: Spoke,
    pub under: Parities,
}

/// An edge, and the parities at its side points.
#[derive(Clone, Copy, Debug)]
pub struct LabelledEdge {
    pub edge: Edge,
    pub left: Parities,
    pub right: Parities,
}
