//! Polygons as columns.
//!
//! Point by point, ring by ring and polygon by polygon; behind each ring and each polygon stands an offset.

ghost use Rattle.std.specs.Prelude.{◌≡◌, ◌++◌, ◌∷◌, [], IfOk, List, OnOk};
ghost use Rattle.geom.specs.Canonical.{Shape};
ghost use Rattle.geom.specs.declared.point.Pt.{Pt as PtOf};
ghost use Rattle.wkt.specs.Canonical.{closed};
ghost use Rattle.columns.specs.Answers.{AreColumnsOf, HaveRings, ReadBackAs};

use geom::{NoMemory, Polygon, Pt, SimpleRing};
use std::alloc::Allocator;

/// Polygons as columns, in the layout of GeoArrow's MultiPolygon, in grid units: the shell before the holes, rings closed.
#[derive(Debug, Drop)]
pub struct OwnedColumns<A: Allocator> {
    /// x y x y ..
    pub coordinates: Vec<i32, A>,
    /// Where each ring begins among the points, and where the last one ends.
    pub rings: Vec<u32, A>,
    /// Where each polygon begins among the rings, and where the last one ends.
    pub polygons: Vec<u32, A>,
}

impl<A: Allocator + Copy> OwnedColumns<A> {
    /// Those of no polygons, with room for so many points.
    fn new(alloc: A, points: usize) -> Result<OwnedColumns<A>, NoMemory>
        ensures { IfOk result (λ columns. AreColumnsOf [] columns) }
    {
        let mut rings = Vec::new(alloc);
        rings.push(0)?;
        let mut polygons = Vec::new(alloc);
        polygons.push(0)?;
        Ok(OwnedColumns {
            coordinates: Vec::with_capacity(alloc, points.saturating_mul(2))?,
            rings,
            polygons,
        })
    }

    /// Adds a polygon, the shell before the holes.
    fn push_polygon<B: Allocator>(&mut self, polygon: &Polygon<B>) -> Result<(), NoMemory>
        ensures { (polygons : List Shape) → AreColumnsOf polygons self.old → OnOk result (AreColumnsOf (polygons ++ polygon.now ∷ []) self.new) }
    {
        self.push_ring(polygon.shell())?;
        for hole in polygon.holes() {
            self.push_ring(hole)?;
        }
        let rings = self.rings.len().saturating_sub(1);
        self.polygons
            .push(u32::try_from(rings).map_err(|_| NoMemory)?)?;
        Ok(())
    }

    /// Adds a ring, its first point again at its end.
    fn push_ring<B: Allocator>(&mut self, ring: &SimpleRing<B>) -> Result<(), NoMemory>
        ensures rings { (rings : List (List PtOf)) → HaveRings rings self.old → OnOk result (HaveRings (rings ++ closed ring.now ∷ []) self.new) }
        ensures polygons { self.new.polygons ≡ self.old.polygons }
    {
        let points = ring.points();
        for point in points {
            self.push_point(*point)?;
        }
        self.push_point(points[0])?;
        let past = self.coordinates.len() / 2;
        self.rings.push(u32::try_from(past).map_err(|_| NoMemory)?)?;
        Ok(())
    }

    /// Adds a point.
    fn push_point(&mut self, point: Pt) -> Result<(), NoMemory>
        ensures added { OnOk result (self.new.coordinates.items ≡ self.old.coordinates.items ++ point.x ∷ point.y ∷ []) }
        ensures rings { self.new.rings ≡ self.old.rings }
        ensures polygons { self.new.polygons ≡ self.old.polygons }
    {
        self.coordinates.push(point.x)?;
        self.coordinates.push(point.y)?;
        Ok(())
    }
}

/// How many points a polygon has, as it is written.
fn points_of<A: Allocator>(polygon: &Polygon<A>) -> usize {
    let mut points = polygon.shell().points().len() + 1;
    for hole in polygon.holes() {
        points = points.saturating_add(hole.points().len() + 1);
    }
    points
}

/// How many points polygons have, as they are written.
fn points_in<A: Allocator>(polygons: &[Polygon<A>]) -> usize {
    let mut points = 0usize;
    for polygon in polygons {
        points = points.saturating_add(points_of(polygon));
    }
    points
}

/// The columns of polygons. More points than offsets can tell are want of memory.
pub fn columns_of<A: Allocator + Copy, B: Allocator>(
    alloc: A,
    polygons: &[Polygon<B>],
) -> Result<OwnedColumns<A>, NoMemory>
    ensures columns { IfOk result (λ columns. AreColumnsOf polygons.now columns) }
    ensures read_back { IfOk result (λ columns. ReadBackAs polygons.now columns) }
{
    let mut columns = OwnedColumns::new(alloc, points_in(polygons))?;
    for polygon in polygons {
        columns.push_polygon(polygon)?;
    }
    Ok(columns)
}
