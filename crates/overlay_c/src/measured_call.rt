//! The calls that tell areas, as C sees them.

ghost use Rattle.std.specs.Prelude.{◌≡◌, length};
ghost use Rattle.overlay_c.specs.Boundary.{Fills};
ghost use Rattle.overlay_c.specs.Columns.{FailsColumns, FillsRooms, columns_in};
ghost use Rattle.overlay_c.specs.Measured.{AreMeasuredColumns, FailsMeasured, IsMeasuredText, no_measures};

use crate::answer::OverlayAnswer;
use crate::columns_answer::OverlayColumnsAnswer;
use crate::columns_layer::OverlayColumns;
use crate::columns_rooms::fill_rooms;
use crate::measured::{OverlayMeasures, measured_columns, measured_text};
use crate::room::fill_with;
use engine::Limits;
use std::alloc::Global;

/// Puts the canonical line of an operation (0 union, 1 intersection, 2 difference, 3 symmetric difference) on two layer texts, over tiles of
/// this side, at the beginning of a room, where it fits, and tells the areas of both layers and of the result. The layers have together at
/// most so many segments. Nothing else in the room changes.
#[unsafe(no_mangle)]
pub extern "C" fn overlay_measured_fill(
    alloc: Global,
    call: u32,
    side: u32,
    segments: u32,
    a: &[u8],
    b: &[u8],
    room: &mut [u8],
    answer: &mut OverlayAnswer,
    measures: &mut OverlayMeasures,
)
    ensures size { length room.new ≡ length room.old }
    ensures fills { Fills (λ text. IsMeasuredText segments call side a.now b.now text measures.new) (λ told. FailsMeasured segments call side a.now b.now told × (measures.new ≡ no_measures)) room.old room.new answer.new }
{
    let made = measured_text(alloc, call, side, Limits { segments }, a, b, measures);
    *answer = fill_with(made, room);
}

/// Puts the columns of the result of an operation on two layers at the beginning of three rooms, as `overlay_columns_fill` does, and tells
/// the areas of both layers and of the result.
#[unsafe(no_mangle)]
pub extern "C" fn overlay_measured_columns_fill(
    alloc: Global,
    call: u32,
    side: u32,
    segments: u32,
    a: &OverlayColumns,
    b: &OverlayColumns,
    coordinates: &mut [i32],
    rings: &mut [u32],
    polygons: &mut [u32],
    answer: &mut OverlayColumnsAnswer,
    measures: &mut OverlayMeasures,
)
    ensures { FillsRooms (λ c. AreMeasuredColumns segments call side (columns_in a.now) (columns_in b.now) c measures.new) (λ told. FailsColumns segments call side (columns_in a.now) (columns_in b.now) told × (measures.new ≡ no_measures)) (record { coordinates = coordinates.old; rings = rings.old; polygons = polygons.old }) (record { coordinates = coordinates.new; rings = rings.new; polygons = polygons.new }) answer.new }
{
    let made = measured_columns(alloc, call, side, Limits { segments }, a, b, measures);
    *answer = fill_rooms(made, coordinates, rings, polygons);
}
