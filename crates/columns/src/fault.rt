//! Why columns are refused.

ghost use Rattle.std.specs.Prelude.{◌≡◌, Some};
ghost use Rattle.columns.specs.Faults.{fault_words, number_of};

use std::fmt;

/// Why columns are refused. Points, rings and offsets are told by their number in their column, counted from 0.
#[derive(Clone, Copy, Debug, PartialEq, Eq)]
pub enum ColumnsFault {
    /// A coordinate is outside the coordinate limit; the first such point.
    PointRange(usize),
    /// A ring has fewer than four points as written; its number.
    RingShort(usize),
    /// A ring's last point isn't its first; its number.
    RingOpen(usize),
    /// Interleaved coordinates of uneven number, or columns of different length.
    PointsUneven,
    /// An offset of a feature is below the one before it, or beyond the last polygon; the first such offset.
    FeatureOffset(usize),
    /// An offset of a polygon is below the one before it, or beyond the last ring; the first such offset.
    PolygonOffset(usize),
    /// An offset of a ring is below the one before it, or beyond the last point; the first such offset.
    RingOffset(usize),
}

impl ColumnsFault {
    /// The refusal's number: 2 to 4 as of a text, 13 to 16.
    pub fn number(&self) -> u8
        ensures { result ≡ number_of self.now }
    {
        match self {
            ColumnsFault::PointRange(_) => 2,
            ColumnsFault::RingShort(_) => 3,
            ColumnsFault::RingOpen(_) => 4,
            ColumnsFault::PointsUneven => 13,
            ColumnsFault::FeatureOffset(_) => 14,
            ColumnsFault::PolygonOffset(_) => 15,
            ColumnsFault::RingOffset(_) => 16,
        }
    }
}

impl fmt::Display for ColumnsFault {
    ghost output = { λ f. Some (fault_words f) };

    fn fmt<W: fmt::Write>(&self, f: &mut fmt::Formatter<W>) -> fmt::Result {
        match self {
            ColumnsFault::PointRange(at) => write!(f, "2 number out of range at point {at}"),
            ColumnsFault::RingShort(at) => write!(f, "3 short ring {at}"),
            ColumnsFault::RingOpen(at) => write!(f, "4 open ring {at}"),
            ColumnsFault::PointsUneven => write!(f, "13 coordinate missing"),
            ColumnsFault::FeatureOffset(at) => write!(f, "14 bad offset of features at {at}"),
            ColumnsFault::PolygonOffset(at) => write!(f, "15 bad offset of polygons at {at}"),
            ColumnsFault::RingOffset(at) => write!(f, "16 bad offset of rings at {at}"),
        }
    }
}
