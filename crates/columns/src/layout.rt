//! Columns of coordinates and offsets.

/// The points of a layer, in grid units.
#[derive(Clone, Copy, Debug)]
pub enum Points<'a> {
    /// x y x y ..
    Interleaved(&'a [i32]),
    /// A column of x, and one of y with as many.
    Separate { x: &'a [i32], y: &'a [i32] },
}

/// A layer as columns, in the layout of GeoArrow's MultiPolygon: features, their polygons, their rings, their points.
///
/// Offsets say where each list begins in the next level; there is one more of them than there are lists, and none where there are no
/// lists. What the features' offsets don't reach has no meaning, so slices of longer columns will do. Rings are closed: their last
/// point is their first. Their grouping into polygons has no meaning.
#[derive(Clone, Copy, Debug)]
pub struct Columns<'a> {
    pub points: Points<'a>,
    /// Where each ring begins among the points.
    pub rings: &'a [u32],
    /// Where each polygon begins among the rings.
    pub polygons: &'a [u32],
    /// Where each feature begins among the polygons.
    pub features: &'a [u32],
}
