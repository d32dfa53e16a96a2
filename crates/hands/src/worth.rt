//! How much work of each stage is worth several parts, each of which a thread of its own makes.

ghost use Rattle.std.specs.Prelude.{◌≤◌, max};

/// Bytes of two layer texts, read at once.
pub const TEXTS: usize = 16_384;

/// Bytes of one layer text, read.
pub const BYTES: usize = 131_072;

/// Segments, from which come the cells and their bins.
pub const SEGMENTS: usize = 16_384;

/// Records of pieces, linked.
pub const RECORDS: usize = 16_384;

/// Rounded edges, whose lines are written.
pub const LINES: usize = 4_096;

/// Rounded edges, swept.
pub const EDGES: usize = 4_096;

/// Directed edges, of which rings are cut and written.
pub const DIRECTED: usize = 8_192;

/// Rows of faces, whose polygons are made, by their directed edges.
pub const ROW_EDGES: usize = 4_096;

/// Rows of faces, whose lines are written, by their features and points.
pub const ROW_LINES: usize = 8_192;

/// In how many parts workers make as much work of a stage: one each, where it is worth several.
pub fn parts(workers: u32, work: usize, worth: usize) -> usize
    ensures some { 1 ≤ result }
    ensures most { result ≤ max 1 workers }
{
    if work < worth {
        return 1;
    }
    workers.max(1) as usize
}
