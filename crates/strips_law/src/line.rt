//! What passes from phase to phase of a rounding by strips: plain data.

use geom::{Pt, Seg, Source};

/// A segment, its lesser end first, with its place among all segments.
#[derive(Clone, Copy, Debug)]
pub struct Line {
    pub number: u32,
    pub segment: Seg,
}

/// A line that crosses a border of a strip, with the hot pixel of its route in the strip that is nearest to that border.
#[derive(Clone, Copy, Debug)]
pub struct Open {
    pub number: u32,
    pub layer: Source,
    pub near: Option<Pt>,
}

/// A line that crosses the border on the left of a strip, with the first hot pixel of its route in that strip or a later one.
#[derive(Clone, Copy, Debug)]
pub struct Carried {
    pub number: u32,
    pub pixel: Pt,
}
