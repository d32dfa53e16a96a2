//! Polygons as columns that somebody else holds.

/// Polygons as columns, in the layout of GeoArrow's Polygon, in grid units: the shell before the holes. A ring's last point is its first.
#[derive(Clone, Copy, Debug)]
pub struct PolygonColumns<'a> {
    /// x y x y ..
    pub coordinates: &'a [i32],
    /// Where each ring begins among the points, and where the last one ends.
    pub rings: &'a [u32],
    /// Where each polygon begins among the rings, and where the last one ends.
    pub polygons: &'a [u32],
}
