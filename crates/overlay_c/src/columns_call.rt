//! The calls on columns that C sees. All that is made of few points is made in one block of memory.

ghost use Rattle.engine.specs.Fitting.{IsFittingSideOfColumns};
ghost use Rattle.overlay_c.specs.Columns.{FailsColumns, FillsRooms, IsColumnsResult, columns_in};

use crate::columns_answer::OverlayColumnsAnswer;
use crate::columns_layer::{OverlayColumns, columns_result, side_of_columns};
use crate::columns_rooms::fill_rooms;
use bumpalo::Bump;
use engine::Limits;
use std::alloc::{Allocator, Global};

/// How many coordinates are few.
const FEW: usize = 256;

/// What is made of so few coordinates takes less, in bytes, unless nearly all segments cross one another.
const BLOCK: usize = 100_000;

/// Whether two layers have few coordinates.
fn are_few(a: &OverlayColumns, b: &OverlayColumns) -> bool {
    a.coordinates.len().saturating_add(b.coordinates.len()) <= FEW
}

/// An arena with a block of memory, or with none yet where there is none so large.
fn block_from(alloc: Global) -> Bump<Global> {
    match Bump::try_with_capacity(alloc, BLOCK) {
        Ok(block) => block,
        Err(_) => Bump::new(alloc),
    }
}

/// As `overlay_columns_fill`, with memory from any allocator.
fn filled<A: Allocator + Copy>(
    alloc: A,
    call: u32,
    side: u32,
    limits: Limits,
    a: &OverlayColumns,
    b: &OverlayColumns,
    coordinates: &mut [i32],
    rings: &mut [u32],
    polygons: &mut [u32],
) -> OverlayColumnsAnswer
    ensures { FillsRooms (IsColumnsResult limits.segments call side (columns_in a.now) (columns_in b.now)) (FailsColumns limits.segments call side (columns_in a.now) (columns_in b.now)) (record { coordinates = coordinates.old; rings = rings.old; polygons = polygons.old }) (record { coordinates = coordinates.new; rings = rings.new; polygons = polygons.new }) result }
{
    let made = columns_result(alloc, call, side, limits, a, b);
    fill_rooms(made, coordinates, rings, polygons)
}

/// Puts the columns of the result of an operation (0 union, 1 intersection, 2 difference, 3 symmetric difference) on two layers, over
/// tiles of this side, at the beginning of three rooms, where all of them fit; the layers have together at most so many segments. Nothing
/// else in the rooms changes.
#[unsafe(no_mangle)]
pub extern "C" fn overlay_columns_fill(
    alloc: Global,
    call: u32,
    side: u32,
    segments: u32,
    a: &OverlayColumns,
    b: &OverlayColumns,
    coordinates: &mut [i32],
    rings: &mut [u32],
    polygons: &mut [u32],
    answer: &mut OverlayColumnsAnswer,
)
    ensures { FillsRooms (IsColumnsResult segments call side (columns_in a.now) (columns_in b.now)) (FailsColumns segments call side (columns_in a.now) (columns_in b.now)) (record { coordinates = coordinates.old; rings = rings.old; polygons = polygons.old }) (record { coordinates = coordinates.new; rings = rings.new; polygons = polygons.new }) answer.new }
{
    let limits = Limits { segments };
    if are_few(a, b) {
        let block = block_from(alloc);
        *answer = filled(
            &block,
            call,
            side,
            limits,
            a,
            b,
            coordinates,
            rings,
            polygons,
        );
    } else {
        *answer = filled(
            alloc,
            call,
            side,
            limits,
            a,
            b,
            coordinates,
            rings,
            polygons,
        );
    }
}

/// The side of a tile that fits two layers that are columns, as `overlay_side` says it.
#[unsafe(no_mangle)]
pub extern "C" fn overlay_columns_side(a: &OverlayColumns, b: &OverlayColumns) -> u32
    ensures { IsFittingSideOfColumns (columns_in a.now) (columns_in b.now) result }
{
    side_of_columns(a, b)
}
