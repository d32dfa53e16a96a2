//! The calls on the faces of columns that C sees.

ghost use Rattle.overlay_c.specs.FacesColumns.{AreSameRooms, FillsFaces, IsSideOfLayers, layers_in, lists_in};

use crate::columns_layer::OverlayColumns;
use crate::face_rooms::{OverlayFaceRooms, fill_face_rooms};
use crate::faces_answer::OverlayFacesAnswer;
use crate::faces_columns::{face_columns, side_of_layers};
use engine::FacesLimits;
use std::alloc::Global;

/// Puts the columns of the faces of up to 64 layers, over tiles of this side, at the beginning of seven rooms, where all of them fit; the
/// layers have at most so many segments together, and all rows at most so many ids. Nothing else in the rooms changes.
#[unsafe(no_mangle)]
pub extern "C" fn overlay_faces_columns_fill(
    alloc: Global,
    side: u32,
    segments: u32,
    ids: u64,
    layers: &[OverlayColumns<'_>],
    rooms: &mut OverlayFaceRooms<'_>,
    answer: &mut OverlayFacesAnswer,
)
    ensures same { AreSameRooms rooms.old rooms.new }
    ensures fills { FillsFaces (record { segments = segments; ids = ids }) side (layers_in layers.now) (lists_in rooms.old) (lists_in rooms.new) answer.new }
{
    let limits = FacesLimits { segments, ids };
    let made = face_columns(alloc, side, limits, layers);
    *answer = fill_face_rooms(made, rooms);
}

/// The side of a tile that fits up to 64 layers that are columns, as `overlay_side` says it, or 262,144 where they are more.
#[unsafe(no_mangle)]
pub extern "C" fn overlay_faces_columns_side(layers: &[OverlayColumns<'_>]) -> u32
    ensures { IsSideOfLayers (layers_in layers.now) result }
{
    side_of_layers(layers)
}
