//! Polygons, copied from columns to columns.

ghost use Rattle.std.specs.Prelude.{◌≡◌, ◌<◌, ◌≤◌, ◌-◌, ◌++◌, ◌∷◌, [], IfOk, List, OnOk, get_or, length, slice_range};
ghost use Rattle.geom.specs.declared.point.Pt.{Pt};
ghost use Rattle.columns.specs.Answers.{HaveRings, coordinates_of};
ghost use Rattle.polygon_order.specs.Order.{AreColumnsAsWritten, AreWhole, polygons_of, rings_of};

use crate::given::PolygonColumns;
use columns::OwnedColumns;
use geom::NoMemory;
use std::alloc::Allocator;

/// The columns of no polygons, with room for those of so many coordinates and rings.
pub fn no_polygons<A: Allocator + Copy>(
    alloc: A,
    like: PolygonColumns<'_>,
) -> Result<OwnedColumns<A>, NoMemory>
    ensures { IfOk result (λ made. AreColumnsAsWritten [] made) }
{
    let mut made = OwnedColumns {
        coordinates: Vec::with_capacity(alloc, like.coordinates.len())?,
        rings: Vec::with_capacity(alloc, like.rings.len().saturating_add(1))?,
        polygons: Vec::with_capacity(alloc, like.polygons.len().saturating_add(1))?,
    };
    made.rings.push(0)?;
    made.polygons.push(0)?;
    Ok(made)
}

/// Adds a ring by the coordinates of its points.
fn push_ring<A: Allocator>(made: &mut OwnedColumns<A>, ring: &[i32]) -> Result<(), NoMemory>
    ensures rings { (rings : List (List Pt)) (points : List Pt) → HaveRings rings made.old → ring.now ≡ coordinates_of points → OnOk result (HaveRings (rings ++ points ∷ []) made.new) }
    ensures polygons { made.new.polygons ≡ made.old.polygons }
{
    made.coordinates.extend_from_slice(ring)?;
    let past = made.coordinates.len() / 2;
    made.rings.push(u32::try_from(past).map_err(|_| NoMemory)?)?;
    Ok(())
}

/// The coordinates of the ring with this number.
fn ring_at<'a>(columns: PolygonColumns<'a>, ring: usize) -> &'a [i32]
    requires whole { AreWhole columns.coordinates.now columns.rings.now columns.polygons.now }
    requires inside { ring < length columns.rings.now - 1 }
    ensures { result.now ≡ coordinates_of (get_or (rings_of columns.entry.coordinates.now columns.entry.rings.now) ring []) }
{
    let from = columns.rings[ring] as usize;
    let past = columns.rings[ring + 1] as usize;
    &columns.coordinates[2 * from..2 * past]
}

/// Adds the rings from one number to before another one.
fn push_rings<A: Allocator>(
    made: &mut OwnedColumns<A>,
    columns: PolygonColumns<'_>,
    first: usize,
    past: usize,
) -> Result<(), NoMemory>
    requires whole { AreWhole columns.coordinates.now columns.rings.now columns.polygons.now }
    requires order { first ≤ past }
    requires inside { past ≤ length columns.rings.now - 1 }
    ensures rings { (rings : List (List Pt)) → HaveRings rings made.old → OnOk result (HaveRings (rings ++ slice_range (rings_of columns.entry.coordinates.now columns.entry.rings.now) first past) made.new) }
    ensures polygons { made.new.polygons ≡ made.old.polygons }
{
    for ring in first..past {
        push_ring(made, ring_at(columns, ring))?;
    }
    Ok(())
}

/// Adds the polygon with this number.
pub fn push_polygon<A: Allocator>(
    made: &mut OwnedColumns<A>,
    columns: PolygonColumns<'_>,
    number: usize,
) -> Result<(), NoMemory>
    requires whole { AreWhole columns.coordinates.now columns.rings.now columns.polygons.now }
    requires inside { number < length columns.polygons.now - 1 }
    ensures { (done : List (List (List Pt))) → AreColumnsAsWritten done made.old → OnOk result (AreColumnsAsWritten (done ++ get_or (polygons_of columns.entry.coordinates.now columns.entry.rings.now columns.entry.polygons.now) number [] ∷ []) made.new) }
{
    let first = columns.polygons[number] as usize;
    let past = columns.polygons[number + 1] as usize;
    push_rings(made, columns, first, past)?;
    let rings = made.rings.len().saturating_sub(1);
    made.polygons
        .push(u32::try_from(rings).map_err(|_| NoMemory)?)?;
    Ok(())
}
