//! Links between neighbours in the routes of features.

use geom::Edge;

/// Two neighbours in a route of a feature's segment.
#[derive(Clone, Copy, Debug, PartialEq, Eq, PartialOrd, Ord)]
pub struct FeatureLink {
    pub edge: Edge,
    pub feature: u32,
}
