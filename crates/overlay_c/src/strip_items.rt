//! The items of the lists that pass from phase to phase of a rounding by strips, as C sees them.

ghost use Rattle.std.specs.Prelude.{◌≡◌};
ghost use Rattle.overlay_c.specs.Strips.{counted_end, counted_start, line_end, line_start};

use geom::Pt;

/// A segment, its lesser end first, with its place among all segments.
#[repr(C)]
#[derive(Clone, Copy)]
pub struct OverlayLine {
    pub number: u32,
    /// 0 the first layer, 1 the second one.
    pub layer: u32,
    pub ax: i32,
    pub ay: i32,
    pub bx: i32,
    pub by: i32,
}

/// A line that crosses a border of a strip, with the hot pixel of its route in the strip that is nearest to that border.
#[repr(C)]
#[derive(Clone, Copy)]
pub struct OverlayOpen {
    pub number: u32,
    /// 0 the first layer, 1 the second one.
    pub layer: u32,
    /// 1 where the route has a pixel in the strip, otherwise 0, and so are then `x` and `y`.
    pub has_pixel: u32,
    pub x: i32,
    pub y: i32,
}

/// A line that crosses the border on the left of a strip, with the first hot pixel of its route in that strip or a later one.
#[repr(C)]
#[derive(Clone, Copy)]
pub struct OverlayCarried {
    pub number: u32,
    pub x: i32,
    pub y: i32,
}

/// A rounded edge, its lesser end first, with its count in either layer.
#[repr(C)]
#[derive(Clone, Copy)]
pub struct OverlayCounted {
    pub px: i32,
    pub py: i32,
    pub qx: i32,
    pub qy: i32,
    pub in_a: u32,
    pub in_b: u32,
}

/// An edge of a result, directed so that the result lies on its left: from its first end to its second.
#[repr(C)]
#[derive(Clone, Copy)]
pub struct OverlayDirected {
    pub ax: i32,
    pub ay: i32,
    pub bx: i32,
    pub by: i32,
}

impl OverlayLine {
    /// The line's lesser end.
    pub fn start(self) -> Pt
        ensures { result ≡ line_start self }
    {
        Pt {
            x: self.ax,
            y: self.ay,
        }
    }

    /// And its other one.
    pub fn end(self) -> Pt
        ensures { result ≡ line_end self }
    {
        Pt {
            x: self.bx,
            y: self.by,
        }
    }
}

impl OverlayCounted {
    /// The edge's lesser end.
    pub fn start(self) -> Pt
        ensures { result ≡ counted_start self }
    {
        Pt {
            x: self.px,
            y: self.py,
        }
    }

    /// And its other one.
    pub fn end(self) -> Pt
        ensures { result ≡ counted_end self }
    {
        Pt {
            x: self.qx,
            y: self.qy,
        }
    }
}
