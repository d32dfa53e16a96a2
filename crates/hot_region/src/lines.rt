//! The lines of segments: their ends without direction and layer.

ghost use Rattle.std.specs.Prelude.{◌≡◌, ◌≤◌};
ghost use Rattle.geom.specs.Limit.{AreInLimit};
ghost use Rattle.hot_region.specs.Lines.{IsLine};

use geom::{Edge, Seg, Source};

/// The line of some segments: the edge with their ends, within the coordinate limit. In a list of segments by lines they stand from
/// the first place on, up to the one past them.
#[derive(Clone, Copy, Debug)]
pub struct Line {
    pub edge: Edge,
    pub first: usize,
    pub past: usize,
    ghost ordered: { first ≤ past },
    ghost in_limit: { AreInLimit edge.p edge.q },
}

/// The edge with the ends of a segment.
pub fn edge_of(s: &Seg) -> Edge
    ensures { IsLine result s.now }
{
    if s.a < s.b {
        Edge { p: s.a, q: s.b }
    } else {
        Edge { p: s.b, q: s.a }
    }
}

/// A segment on a line.
pub fn on_line(e: &Edge) -> Seg
    ensures a { result.a ≡ e.now.p }
    ensures b { result.b ≡ e.now.q }
{
    Seg {
        a: e.p,
        b: e.q,
        layer: Source::A,
    }
}
