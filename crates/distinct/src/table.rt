//! Which of the kept segments to look at for one with the same ends.
//!
//! 1. A segment's ends, in either order, have a number, and this a slot in the table (`ends_of`, `slot_of`).
//! 2. A slot has the number of the last ends there, crossed with the place of the segment that was kept with them (`tell`). Crossed with
//!    the same number again it gives the place, and with another one mostly a number past all places, so that no segment is looked at in
//!    vain (`told`).
//!
//! What a table tells is a hint: there may be other ends, or no segment, at the place.

ghost use Rattle.std.specs.Prelude.{◌<◌, length};

use geom::{NoMemory, Seg};
use std::alloc::Allocator;

/// The least number of slots.
const LEAST: usize = 64;

/// The greatest number of slots: they take a megabyte, and so stay in a processor's second cache.
const MOST: usize = 131_072;

/// Odd factors, whose products are far apart for ends that are near each other.
const COLUMNS: u64 = 0x9E37_79B9_7F4A_7C15;

const ROWS: u64 = 0xD1B5_4A32_D192_ED03;

/// The number of a segment's ends, whichever of them is first. Few ends have the same.
#[inline(always)]
pub(crate) fn ends_of(s: &Seg) -> u64 {
    let column = s.a.x.cast_unsigned().wrapping_add(s.b.x.cast_unsigned());
    let row = s.a.y.cast_unsigned().wrapping_add(s.b.y.cast_unsigned());
    let by_column = u64::from(column).wrapping_mul(COLUMNS);
    by_column.wrapping_add(u64::from(row).wrapping_mul(ROWS))
}

/// The places of kept segments, by their ends.
#[derive(Drop)]
pub(crate) struct Table<A: Allocator> {
    slots: Vec<u64, A>,
    ghost some: { 0 < length slots.items },
}

impl<A: Allocator> Table<A> {
    /// A table for so many segments.
    pub fn for_segments(alloc: A, segments: usize) -> Result<Table<A>, NoMemory> {
        let slots = segments.clamp(LEAST, MOST).next_power_of_two();
        Ok(Table {
            slots: vec![in alloc; 0u64; slots]?,
        })
    }

    /// The place to look at for these ends.
    #[inline(always)]
    pub fn told(&self, ends: u64) -> usize {
        (self.slots[self.slot_of(ends)] ^ ends) as usize
    }

    /// Tells of a place for these ends from now on.
    #[inline(always)]
    pub fn tell(&mut self, ends: u64, place: usize) {
        let slot = self.slot_of(ends);
        self.slots[slot] = ends ^ place as u64;
    }

    /// The slot of these ends.
    #[inline(always)]
    fn slot_of(&self, ends: u64) -> usize
        ensures { result < length self.now.slots.items }
    {
        (ends >> 32) as usize & (self.slots.len() - 1)
    }
}
