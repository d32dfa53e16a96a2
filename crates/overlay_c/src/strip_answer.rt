//! What a call on a phase answers, and its lists, put into rooms of the caller's.

ghost use Rattle.std.specs.Prelude.{◌≡◌};
ghost use Rattle.overlay_c.specs.Strips.{IsPutOrSmall, one_list, strip_lengths, three_lists, told_of_strip, two_lists};

use crate::answer::{ANSWERED, NO_CALL, SMALL};
use crate::columns_rooms::put;

/// The number of a refusal for an item that may not stand in its list, or not behind the one before it.
pub const BAD_ITEM: u32 = 18;

/// The number of a refusal for lists that contradict each other.
pub const CONTRADICTION: u32 = 19;

/// What stands for the cuts, where they are refused.
pub const CUTS: u32 = 3;

/// What a call on a phase answers. What doesn't belong to its status is 0.
#[repr(C)]
#[derive(Clone, Copy)]
pub struct OverlayStripAnswer {
    /// How many items the list has that goes into the first room, where there is one.
    pub first: u64,
    /// The same of the second room, where the call has one.
    pub second: u64,
    /// The same of the third room.
    pub third: u64,
    /// The number of the item at fault in its list, or of the point, ring or offset in its column.
    pub detail: u64,
    /// 0 answered, 1 out of memory, 2 no such strip, layer or operation, 3 refused, 4 a room is too small.
    pub status: u32,
    /// The refusal's number: 2 to 4, 13 to 16, 18 or 19, or 10 where memory ran out.
    pub number: u32,
    /// Which list is refused: 0 the first one that is passed behind the cuts, 1 the second, 2 the third; 3 the cuts.
    pub part: u32,
}

/// An answer without lists.
pub fn told_of_strip(status: u32, number: u32, part: u32, detail: u64) -> OverlayStripAnswer
    ensures { result ≡ told_of_strip status number part detail }
{
    OverlayStripAnswer {
        first: 0,
        second: 0,
        third: 0,
        detail,
        status,
        number,
        part,
    }
}

/// The answer where there is no such strip, layer or operation.
pub fn no_strip() -> OverlayStripAnswer
    ensures { result ≡ told_of_strip 2 0 0 0 }
{
    told_of_strip(NO_CALL, 0, 0, 0)
}

/// The answer where memory ran out.
pub fn no_strip_memory() -> OverlayStripAnswer
    ensures { result ≡ told_of_strip 1 10 0 0 }
{
    told_of_strip(1, 10, 0, 0)
}

/// The answer where an item of a list is at fault.
pub fn bad_item(part: u32, place: usize) -> OverlayStripAnswer
    ensures { result ≡ told_of_strip 3 18 part place }
{
    told_of_strip(3, BAD_ITEM, part, place as u64)
}

/// The answer where an item of a list contradicts another list.
pub fn contradiction(part: u32, place: usize) -> OverlayStripAnswer
    ensures { result ≡ told_of_strip 3 19 part place }
{
    told_of_strip(3, CONTRADICTION, part, place as u64)
}

/// The answer that there are lists of these lengths.
fn lengths_told(status: u32, first: usize, second: usize, third: usize) -> OverlayStripAnswer
    ensures { result ≡ strip_lengths status first second third }
{
    OverlayStripAnswer {
        first: first as u64,
        second: second as u64,
        third: third as u64,
        detail: 0,
        status,
        number: 0,
        part: 0,
    }
}

/// Puts a list at the beginning of a room, where it fits.
pub fn put_list<X: Copy>(list: &[X], room: &mut [X]) -> OverlayStripAnswer
    ensures { IsPutOrSmall (one_list list.now) (one_list room.old) (one_list room.new) result }
{
    if room.len() < list.len() {
        return lengths_told(SMALL, list.len(), 0, 0);
    }
    put(list, room);
    lengths_told(ANSWERED, list.len(), 0, 0)
}

/// Puts two lists at the beginning of two rooms, where both fit.
pub fn put_two_lists<X: Copy, Y: Copy>(
    first: &[X],
    second: &[Y],
    first_room: &mut [X],
    second_room: &mut [Y],
) -> OverlayStripAnswer
    ensures { IsPutOrSmall (two_lists first.now second.now) (two_lists first_room.old second_room.old) (two_lists first_room.new second_room.new) result }
{
    if first_room.len() < first.len() || second_room.len() < second.len() {
        return lengths_told(SMALL, first.len(), second.len(), 0);
    }
    put(first, first_room);
    put(second, second_room);
    lengths_told(ANSWERED, first.len(), second.len(), 0)
}

/// Puts three lists at the beginning of three rooms, where all of them fit.
pub fn put_three_lists<X: Copy, Y: Copy, Z: Copy>(
    first: &[X],
    second: &[Y],
    third: &[Z],
    first_room: &mut [X],
    second_room: &mut [Y],
    third_room: &mut [Z],
) -> OverlayStripAnswer
    ensures { IsPutOrSmall (three_lists first.now second.now third.now) (three_lists first_room.old second_room.old third_room.old) (three_lists first_room.new second_room.new third_room.new) result }
{
    if first_room.len() < first.len()
        || second_room.len() < second.len()
        || third_room.len() < third.len()
    {
        return lengths_told(SMALL, first.len(), second.len(), third.len());
    }
    put(first, first_room);
    put(second, second_room);
    put(third, third_room);
    lengths_told(ANSWERED, first.len(), second.len(), third.len())
}
