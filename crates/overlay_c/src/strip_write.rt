//! Polygons that several tasks have told, brought in order, for C.

ghost use Rattle.std.specs.Prelude.{MatchOption, MatchResult};
ghost use Rattle.polygon_order.specs.Order.{AreWhole};
ghost use Rattle.overlay_c.specs.Columns.{FillsRooms, lists_of};
ghost use Rattle.overlay_c.specs.StripWrite.{AreOffsetsInPlace, AreWrittenTold, FailsWrite, IsBadOffset};

use crate::columns_answer::{OverlayColumnsAnswer, told};
use crate::columns_rooms::fill_rooms;
use crate::polygons_made::no_memory;
use crate::search::first_bad;
use columns::OwnedColumns;
use polygon_order::{OrderFault, PolygonColumns, ordered};
use std::alloc::Global;

/// The place of the first offset that is further than so many items, or isn't behind the one before it.
fn bad_offset(count: usize, offsets: &[u32]) -> Option<usize>
    ensures { MatchOption result (AreOffsetsInPlace count offsets.now) (λ place. IsBadOffset count offsets.now place) }
{
    first_bad(
        offsets,
        |offset| offset as usize <= count,
        |one, next| one < next,
    )
}

/// The answer where columns are refused.
fn refused_columns(given: PolygonColumns<'_>) -> Option<OverlayColumnsAnswer>
    ensures { MatchOption result (AreWhole given.entry.coordinates.now given.entry.rings.now given.entry.polygons.now) (FailsWrite (record { coordinates = given.entry.coordinates.now; rings = given.entry.rings.now; polygons = given.entry.polygons.now })) }
{
    if given.coordinates.len() % 2 != 0 {
        return Some(told(3, 13, 0, 0));
    }
    if let Some(place) = bad_offset(given.coordinates.len() / 2, given.rings) {
        return Some(told(3, 16, 0, place as u64));
    }
    if let Some(place) = bad_offset(given.rings.len().saturating_sub(1), given.polygons) {
        return Some(told(3, 15, 0, place as u64));
    }
    None
}

/// The columns of the same polygons in order, or the answer where there are none.
fn columns_written(
    alloc: Global,
    given: PolygonColumns<'_>,
) -> Result<OwnedColumns<Global>, OverlayColumnsAnswer>
    ensures { MatchResult result (λ c. AreWrittenTold (record { coordinates = given.entry.coordinates.now; rings = given.entry.rings.now; polygons = given.entry.polygons.now }) (lists_of c)) (FailsWrite (record { coordinates = given.entry.coordinates.now; rings = given.entry.rings.now; polygons = given.entry.polygons.now })) }
{
    if let Some(answer) = refused_columns(given) {
        return Err(answer);
    }
    match ordered(alloc, given) {
        Ok(columns) => Ok(columns),
        Err(OrderFault::ShellTwice(number)) => Err(told(3, 19, 0, number as u64)),
        Err(OrderFault::Memory) => Err(no_memory()),
    }
}

/// Puts the columns of the polygons that others have, in the order of their shells, at the beginning of three rooms, where all of them fit. Nothing
/// else in the rooms changes.
#[unsafe(no_mangle)]
pub extern "C" fn overlay_strip_write(
    alloc: Global,
    made_coordinates: &[i32],
    made_rings: &[u32],
    made_polygons: &[u32],
    coordinates: &mut [i32],
    rings: &mut [u32],
    polygons: &mut [u32],
    answer: &mut OverlayColumnsAnswer,
)
    ensures { FillsRooms (AreWrittenTold (record { coordinates = made_coordinates.now; rings = made_rings.now; polygons = made_polygons.now })) (FailsWrite (record { coordinates = made_coordinates.now; rings = made_rings.now; polygons = made_polygons.now })) (record { coordinates = coordinates.old; rings = rings.old; polygons = polygons.old }) (record { coordinates = coordinates.new; rings = rings.new; polygons = polygons.new }) answer.new }
{
    let given = PolygonColumns {
        coordinates: made_coordinates,
        rings: made_rings,
        polygons: made_polygons,
    };
    *answer = fill_rooms(columns_written(alloc, given), coordinates, rings, polygons);
}
