//! Records of routes, and the candidates that they are found among.

ghost use Rattle.std.specs.Prelude.{◌≡◌, ◌↔◌, ◌<◌, All, IsTrue, length};
ghost use Rattle.geom.specs.Limit.{AreInLimit, InLimit};
ghost use Rattle.routing.specs.Pieces.{IsEnd};
ghost use Rattle.routing.specs.Recording.{IsRecordAt};
ghost use Rattle.routing.specs.Steps.{steps_to};

use geom::{Pt, Seg};

/// A hot pixel on the route of a segment: the segment's number, the steps along both axes from its start to the pixel, in
/// grid units, and the pixel. Records are ordered by segment, then along it.
#[derive(Clone, Copy, Debug, PartialEq, Eq, PartialOrd, Ord)]
pub struct Record {
    pub segment: u32,
    pub steps: u32,
    pub pixel: Pt,
}

/// A segment with its number.
#[derive(Clone, Copy, Debug)]
pub struct Candidate {
    pub number: u32,
    pub segment: Seg,
}

/// The steps along both axes from the start of a segment to a pixel.
pub(crate) fn steps_to(s: &Seg, pixel: Pt) -> u32
    requires segment_in { AreInLimit s.now.a s.now.b }
    requires pixel_in { InLimit pixel }
    ensures { result ≡ steps_to s.now pixel }
{
    pixel.x.abs_diff(s.a.x) + pixel.y.abs_diff(s.a.y)
}

/// Whether a pixel is an end of a segment.
#[inline(always)]
pub(crate) fn is_end(s: &Seg, pixel: Pt) -> bool
    ensures { IsTrue result ↔ IsEnd s.now pixel }
{
    s.a == pixel || s.b == pixel
}

/// The record of the segment of a number at a pixel.
#[inline(always)]
pub fn record_at(segments: &[Seg], number: u32, pixel: Pt) -> Record
    requires segments_in { All (λ s. AreInLimit s.a s.b) segments.now }
    requires number_in { number < length segments.now }
    requires pixel_in { InLimit pixel }
    ensures { IsRecordAt segments.now number pixel result }
{
    let steps = steps_to(&segments[number as usize], pixel);
    Record {
        segment: number,
        steps,
        pixel,
    }
}
