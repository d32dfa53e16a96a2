//! The call on directed edges that C sees.

ghost use Rattle.overlay_c.specs.Columns.{FillsRooms};
ghost use Rattle.overlay_c.specs.Polygons.{ArePolygonColumns, FailsPolygons};

use crate::columns_answer::OverlayColumnsAnswer;
use crate::columns_rooms::fill_rooms;
use crate::polygons_made::polygons_made;
use crate::strip_items::OverlayDirected;
use std::alloc::Global;

/// Puts the columns of the polygons of directed edges, which ascend by start, then by end, at the beginning of three rooms, where all of
/// them fit. Nothing else in the rooms changes.
#[unsafe(no_mangle)]
pub extern "C" fn overlay_polygons(
    alloc: Global,
    directed: &[OverlayDirected],
    coordinates: &mut [i32],
    rings: &mut [u32],
    polygons: &mut [u32],
    answer: &mut OverlayColumnsAnswer,
)
    ensures { FillsRooms (ArePolygonColumns directed.now) (FailsPolygons directed.now) (record { coordinates = coordinates.old; rings = rings.old; polygons = polygons.old }) (record { coordinates = coordinates.new; rings = rings.new; polygons = polygons.new }) answer.new }
{
    let made = polygons_made(alloc, directed);
    *answer = fill_rooms(made, coordinates, rings, polygons);
}
