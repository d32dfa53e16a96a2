//! The noding test of a text of edges.

ghost use Rattle.edge_test.specs.Tested.{IsTextTested};

use crate::fault::TextFault;
use crate::tested::test_edges;
use edge_lines::{ReadFault, read_edges};
use std::alloc::Allocator;
use std::sync::Wait;
use std::thread::Threads;
use tile_book::{Gate, MOST_HANDS};

/// The most bytes of a text.
pub const LONGEST_TEXT: u32 = 4_294_967_294;

/// Passes a text of lines `x1 y1 x2 y2` whose edges are noded, tested by 1 to 64 workers; of all others it tells why not. The number of
/// workers is looked at first, then the length of the text, then its lines in their order, and at last its edges.
pub fn test_text<A: Allocator + Copy + Send + Sync, G: Gate + Sync, R: Threads + Wait + Sync>(
    rt: &R,
    alloc: A,
    text: &[u8],
    workers: u32,
    gate: &G,
) -> Result<(), TextFault>
    ensures { IsTextTested workers text.now result }
{
    if workers == 0 || workers > MOST_HANDS {
        return Err(TextFault::BadWorkers);
    }
    if text.len() > LONGEST_TEXT as usize {
        return Err(TextFault::TooLong);
    }
    match read_edges(alloc, text) {
        Ok(edges) => test_edges(rt, alloc, edges, workers, gate),
        Err(ReadFault::Line(number, why)) => Err(TextFault::Line(number, why)),
        Err(ReadFault::Memory) => Err(TextFault::Memory),
    }
}
