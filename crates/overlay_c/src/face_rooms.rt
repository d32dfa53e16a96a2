//! The columns of faces, put into rooms of the caller's.

ghost use Rattle.std.specs.Prelude.{◌≡◌, MatchBool, MatchResult};
ghost use Rattle.overlay_c.specs.FacesColumns.{AreFaceListsKept, AreFacesPutOrSmall, AreSameRooms, AreShort, FitIn, HoldFaceLists, face_lists_of, lists_in};

use crate::answer::{ANSWERED, SMALL};
use crate::columns_rooms::put;
use crate::faces_answer::{OverlayFacesAnswer, lengths_of_faces};
use rows::RowColumns;
use std::alloc::Global;

/// Rooms for the rows of faces as columns.
#[repr(C)]
pub struct OverlayFaceRooms<'a> {
    /// x y x y ..
    pub coordinates: &'a mut [i32],
    /// Where each ring begins among the points.
    pub rings: &'a mut [u32],
    /// Where each polygon begins among the rings.
    pub polygons: &'a mut [u32],
    /// Where each row begins among the polygons.
    pub rows: &'a mut [u32],
    /// Twice the area of each row.
    pub twice_areas: &'a mut [i64],
    /// For each layer, and each row in it, the numbers of the layer's features that the row has, counted from 0.
    pub ids: &'a mut [u32],
    /// Where each of these lists begins among the numbers.
    pub lists: &'a mut [u32],
}

/// Puts columns that were made at the beginning of seven rooms, where all of them fit.
pub fn fill_face_rooms(
    made: Result<RowColumns<Global>, OverlayFacesAnswer>,
    rooms: &mut OverlayFaceRooms<'_>,
) -> OverlayFacesAnswer
    ensures same { AreSameRooms rooms.old rooms.new }
    ensures put { MatchResult made (λ m. AreFacesPutOrSmall (face_lists_of m) (lists_in rooms.old) (lists_in rooms.new) result) (λ told. (result ≡ told) × AreFaceListsKept (lists_in rooms.old) (lists_in rooms.new)) }
{
    match made {
        Ok(columns) => put_faces(&columns, rooms),
        Err(told) => told,
    }
}

/// Puts columns at the beginning of seven rooms, where all of them fit.
fn put_faces(made: &RowColumns<Global>, rooms: &mut OverlayFaceRooms<'_>) -> OverlayFacesAnswer
    ensures same { AreSameRooms rooms.old rooms.new }
    ensures put { AreFacesPutOrSmall (face_lists_of made.now) (lists_in rooms.old) (lists_in rooms.new) result }
{
    if are_short(made, rooms) {
        return lengths_of_faces(SMALL, made);
    }
    put_all(made, rooms);
    lengths_of_faces(ANSWERED, made)
}

/// Whether some room is shorter than its column.
fn are_short(made: &RowColumns<Global>, rooms: &OverlayFaceRooms<'_>) -> bool
    ensures { MatchBool result (AreShort (lists_in rooms.now) (face_lists_of made.now)) (FitIn (lists_in rooms.now) (face_lists_of made.now)) }
{
    rooms.coordinates.len() < made.columns.coordinates.len()
        || rooms.rings.len() < made.columns.rings.len()
        || rooms.polygons.len() < made.columns.polygons.len()
        || rooms.rows.len() < made.rows.len()
        || rooms.twice_areas.len() < made.twice_areas.len()
        || rooms.ids.len() < made.features.numbers.len()
        || rooms.lists.len() < made.features.offsets.len()
}

/// Puts columns at the beginning of seven rooms in which all of them fit.
fn put_all(made: &RowColumns<Global>, rooms: &mut OverlayFaceRooms<'_>)
    requires { FitIn (lists_in rooms.old) (face_lists_of made.now) }
    ensures same { AreSameRooms rooms.old rooms.new }
    ensures put { HoldFaceLists (face_lists_of made.now) (lists_in rooms.old) (lists_in rooms.new) }
{
    put(&made.columns.coordinates, rooms.coordinates);
    put(&made.columns.rings, rooms.rings);
    put(&made.columns.polygons, rooms.polygons);
    put(&made.rows, rooms.rows);
    put(&made.twice_areas, rooms.twice_areas);
    put(&made.features.numbers, rooms.ids);
    put(&made.features.offsets, rooms.lists);
}
