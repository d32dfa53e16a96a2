//! What the call on faces of columns answers.

ghost use Rattle.std.specs.Prelude.{◌≡◌};
ghost use Rattle.overlay_c.specs.FacesColumns.{face_lengths, face_lists_of, face_refusal, told_of_faces};

use crate::answer::answer_of_faces;
use crate::columns_answer::place_of;
use engine::{FacesColumnsRefused, FacesFault, FacesPart};
use rows::RowColumns;
use std::alloc::Global;

/// What a call on faces of columns answers. What doesn't belong to its status is 0.
#[repr(C)]
#[derive(Clone, Copy)]
pub struct OverlayFacesAnswer {
    /// How many coordinates the rows have, where there are any columns.
    pub coordinates: u64,
    /// How many offsets of rings.
    pub rings: u64,
    /// How many offsets of polygons.
    pub polygons: u64,
    /// How many offsets of rows.
    pub rows: u64,
    /// How many rows there are.
    pub twice_areas: u64,
    /// How many features all rows have.
    pub ids: u64,
    /// How many offsets of lists.
    pub lists: u64,
    /// The number of the point, ring or offset at fault in its column, or the count of segments, tiles or ids.
    pub detail: u64,
    /// 0 answered, 1 out of memory, 2 too many layers, 3 refused, 4 a room is too small.
    pub status: u32,
    /// The refusal's number: 2 to 6, 8, 12 or 13 to 16, or 10 where memory ran out.
    pub number: u32,
    /// What is refused: the number of a layer, from 0 on, or the count of layers for the run.
    pub part: u32,
}

/// The answer that there are these columns.
pub fn lengths_of_faces(status: u32, made: &RowColumns<Global>) -> OverlayFacesAnswer
    ensures { result ≡ face_lengths status (face_lists_of made.now) }
{
    OverlayFacesAnswer {
        coordinates: made.columns.coordinates.len() as u64,
        rings: made.columns.rings.len() as u64,
        polygons: made.columns.polygons.len() as u64,
        rows: made.rows.len() as u64,
        twice_areas: made.twice_areas.len() as u64,
        ids: made.features.numbers.len() as u64,
        lists: made.features.offsets.len() as u64,
        detail: 0,
        status,
        number: 0,
        part: 0,
    }
}

/// An answer without columns.
pub fn no_faces(status: u32, number: u32, part: u32, detail: u64) -> OverlayFacesAnswer
    ensures { result ≡ told_of_faces status number part detail }
{
    OverlayFacesAnswer {
        coordinates: 0,
        rings: 0,
        polygons: 0,
        rows: 0,
        twice_areas: 0,
        ids: 0,
        lists: 0,
        detail,
        status,
        number,
        part,
    }
}

/// The answer of a refusal, over so many layers. Of the run it is that of the call on texts.
pub fn answer_of_face_columns(layers: u32, refused: FacesColumnsRefused) -> OverlayFacesAnswer
    ensures { result ≡ face_refusal layers refused }
{
    match refused {
        FacesColumnsRefused::Layer(number, fault) => no_faces(
            3,
            u32::from(fault.number()),
            u32::from(number),
            place_of(fault),
        ),
        FacesColumnsRefused::Run(refusal) => {
            let at = FacesPart::Run;
            let told = answer_of_faces(layers, &FacesFault { at, refusal });
            no_faces(told.status, told.number, told.part, told.detail)
        }
    }
}
