//! The columns of a result, put into rooms of the caller's.

ghost use Rattle.std.specs.Prelude.{◌≡◌, ◌≤◌, MatchResult, length};
ghost use Rattle.overlay_c.specs.Columns.{AreKept, HoldsItems, IsPutOrSmall, lists_of};

use crate::answer::{ANSWERED, SMALL};
use crate::columns_answer::{OverlayColumnsAnswer, lengths_of};
use columns::OwnedColumns;
use std::alloc::Allocator;

/// Puts columns that were made at the beginning of three rooms, where all of them fit.
pub fn fill_rooms<A: Allocator>(
    made: Result<OwnedColumns<A>, OverlayColumnsAnswer>,
    coordinates: &mut [i32],
    rings: &mut [u32],
    polygons: &mut [u32],
) -> OverlayColumnsAnswer
    ensures put { MatchResult made (λ c. IsPutOrSmall (lists_of c) (record { coordinates = coordinates.old; rings = rings.old; polygons = polygons.old }) (record { coordinates = coordinates.new; rings = rings.new; polygons = polygons.new }) result) (λ told. (result ≡ told) × AreKept (record { coordinates = coordinates.old; rings = rings.old; polygons = polygons.old }) (record { coordinates = coordinates.new; rings = rings.new; polygons = polygons.new })) }
{
    match made {
        Ok(columns) => put_columns(&columns, coordinates, rings, polygons),
        Err(told) => told,
    }
}

/// Puts columns at the beginning of three rooms, where all of them fit.
pub fn put_columns<A: Allocator>(
    columns: &OwnedColumns<A>,
    coordinates: &mut [i32],
    rings: &mut [u32],
    polygons: &mut [u32],
) -> OverlayColumnsAnswer
    ensures { IsPutOrSmall (lists_of columns.now) (record { coordinates = coordinates.old; rings = rings.old; polygons = polygons.old }) (record { coordinates = coordinates.new; rings = rings.new; polygons = polygons.new }) result }
{
    if coordinates.len() < columns.coordinates.len()
        || rings.len() < columns.rings.len()
        || polygons.len() < columns.polygons.len()
    {
        return lengths_of(SMALL, columns);
    }
    put(&columns.coordinates, coordinates);
    put(&columns.rings, rings);
    put(&columns.polygons, polygons);
    lengths_of(ANSWERED, columns)
}

/// Puts a column at the beginning of a room.
pub fn put<T: Copy>(column: &[T], room: &mut [T])
    requires { length column.now ≤ length room.old }
    ensures { HoldsItems column.now room.old room.new }
{
    room[..column.len()].copy_from_slice(column);
}
