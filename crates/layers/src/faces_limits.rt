//! How large faces may be.

ghost use Rattle.std.specs.Prelude.{◌≡◌};
ghost use Rattle.layers.specs.FacesRefusals.{faces_limits};

use crate::plan::SEGMENT_LIMIT;

/// The most features that all rows may have together, where no limit is given: the least text of so many takes 512 MiB.
const MOST_IDS: u64 = 268_435_456;

/// How large layers and their faces may be. A greater limit costs no time or memory by itself.
#[derive(Clone, Copy, Debug)]
pub struct FacesLimits {
    /// The most segments that all layers may have together: 1,048,576 where no limit is given.
    pub segments: u32,
    /// The most features that all rows may have together: 268,435,456 where no limit is given.
    pub ids: u64,
}

impl Default for FacesLimits {
    fn default() -> FacesLimits
        ensures { result ≡ faces_limits }
    {
        FacesLimits {
            segments: SEGMENT_LIMIT,
            ids: MOST_IDS,
        }
    }
}
