//! Which rings the features of columns reach.

ghost use Rattle.std.specs.Prelude.{◌≡◌, ◌+◌, ◌<◌};
ghost use Rattle.columns.specs.Reach.{AreReached, first_ring_of};
ghost use Rattle.columns.specs.Refusals.{list_count};

use crate::layout::Columns;
use crate::offsets::{list_count, offset_at};

/// Rings next to one another: the number of the first one, and of the one behind the last.
#[derive(Clone, Copy, Debug)]
pub(crate) struct RingRange {
    pub first: usize,
    pub past: usize,
}

/// The rings of all features.
pub(crate) fn reached_rings(columns: &Columns<'_>) -> RingRange
    ensures { AreReached columns.now result }
{
    RingRange {
        first: offset_at(columns.polygons, offset_at(columns.features, 0)),
        past: offset_at(
            columns.polygons,
            offset_at(columns.features, list_count(columns.features)),
        ),
    }
}

/// The rings of a feature.
pub(crate) fn feature_rings(columns: &Columns<'_>, feature: usize) -> RingRange
    requires { feature < list_count columns.now.features.now }
    ensures first { result.first ≡ first_ring_of columns.now feature }
    ensures past { result.past ≡ first_ring_of columns.now (feature + 1) }
{
    RingRange {
        first: offset_at(columns.polygons, offset_at(columns.features, feature)),
        past: offset_at(columns.polygons, offset_at(columns.features, feature + 1)),
    }
}
