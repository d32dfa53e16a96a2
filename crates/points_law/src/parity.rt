//! The parity of every point, and even degrees.

ghost use Rattle.points_law.specs.Law.{ResultHasEvenDegrees, ResultHasParity, RoundedAreLayers, RoundedHasEvenDegrees, SegmentsOfRingsClose, TextHasParity};

/// The parity of any point over the edges of the result is what the operation says of its parities in the two layers.
pub fn result_has_parity()
    ensures { ResultHasParity }
{}

/// Any point lies in the polygons of a text, by parity over their rings, exactly where the operation holds of its parities
/// in the two layers: for polygons whose rings together have each directed edge of the result once.
pub fn text_has_parity()
    ensures { TextHasParity }
{}

/// Every point is an end of an even number of edges of the result.
pub fn result_has_even_degrees()
    ensures { ResultHasEvenDegrees }
{}

/// In a layer of rings every point begins as many segments as it ends.
pub fn segments_of_rings_close()
    ensures { SegmentsOfRingsClose }
{}

/// Where the segments of a layer close, every point is an end of an even number of its rounded edges of odd count.
pub fn rounded_has_even_degrees()
    ensures { RoundedHasEvenDegrees }
{}

/// The rounded edges of closed segments, once they are noded, are layers that the laws of this crate speak of.
pub fn rounded_are_layers()
    ensures { RoundedAreLayers }
{}
