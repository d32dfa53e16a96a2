//! How a run is divided, and how large its input may be.

ghost use Rattle.std.specs.Prelude.{◌≡◌};
ghost use Rattle.layers.specs.Refusals.{segment_limit, text_limit};

use wkt::LENGTH_LIMIT;

/// How a run is divided. It has no influence on the text.
#[derive(Clone, Copy, Debug)]
pub struct Plan {
    /// The side of a tile, in grid units, 16 to 33,554,432.
    pub side: u32,
    /// The number of threads at work, 1 to 64.
    pub workers: u32,
}

/// The greatest number of segments in both layers together, where no limit is given.
pub const SEGMENT_LIMIT: u32 = 1_048_576;

/// How large an input may be. A greater limit costs no time or memory by itself.
#[derive(Clone, Copy, Debug)]
pub struct Limits {
    /// The most segments that both layers may have together: 1,048,576 where no limit is given. A layer text may have 256 bytes for each
    /// of them (`text_limit`).
    pub segments: u32,
}

impl Default for Limits {
    fn default() -> Limits
        ensures { result.segments ≡ segment_limit }
    {
        Limits {
            segments: SEGMENT_LIMIT,
        }
    }
}

/// How many bytes a layer text may have for each segment of a limit.
const BYTES_A_SEGMENT: u32 = 256;

/// The most bytes that a layer text may have, by the most segments that the layers may have: 256 for each of them, but no fewer than where
/// no limit is given, and no more than 4,294,967,295.
pub fn text_limit(segments: u32) -> u32
    ensures { result ≡ text_limit segments }
{
    segments.saturating_mul(BYTES_A_SEGMENT).max(LENGTH_LIMIT)
}
