//! What is kept of segments.

use crate::copies::Copies;
use geom::Seg;
use std::alloc::Allocator;

/// Segments of which few have the same ends, each with how many it stands for.
#[derive(Drop)]
pub struct Distinct<A: Allocator> {
    pub segments: Vec<Seg, A>,
    pub copies: Vec<Copies, A>,
}
