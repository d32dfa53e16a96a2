//! Records of a pile: of many segments on one line.
//!
//! 1. Where a segment is cut a portion of it ends, and the next one begins. Both meet the pixel there, and so both tell its record.
//! 2. The records of the line before stand last. Those of a line and a pixel are looked for among them, in the order of the segments,
//!    and only those that are not found there and tell no ends are added.

ghost use Rattle.std.specs.Prelude.{◌⊎◌, ◌≤◌, Contains, IsTrue, MatchBool, OnOk, length};
ghost use Rattle.geom.specs.Limit.{InLimit};
ghost use Rattle.routing.specs.Pieces.{IsEnd};
ghost use Rattle.routing.specs.Recording.{AddsAt};

use crate::limited::LinedSegments;
use crate::record::{Record, is_end, record_at};
use geom::{NoMemory, Pt, Seg};
use hot_region::Line;
use std::alloc::Allocator;

/// How many segments on one line are a pile.
const PILE: usize = 8;

/// Whether the segments on a line are a pile.
pub(crate) fn is_pile(line: &Line) -> bool {
    line.past - line.first >= PILE
}

/// Where the records at a pixel begin that stand last, of so many at most.
fn last_at(records: &[Record], pixel: Pt, most: usize) -> usize {
    let mut place = records.len();
    for _step in 0..most {
        if place == 0 || records[place - 1].pixel != pixel {
            break;
        }
        place -= 1;
    }
    place
}

/// The next place, from one on, at which a record isn't before another one, or the end.
fn past_lesser(records: &[Record], from: usize, wanted: &Record) -> usize {
    let mut place = from;
    while place < records.len() && records[place] < *wanted {
        place += 1;
    }
    place
}

/// Whether a record stands at a place.
fn stands_at(records: &[Record], place: usize, wanted: &Record) -> bool
    ensures { IsTrue result → Contains records.now wanted.now }
{
    place < records.len() && records[place] == *wanted
}

/// Whether a record tells no end of its segment, and doesn't stand at a place.
fn is_new(records: &[Record], place: usize, s: &Seg, wanted: &Record) -> bool
    ensures { MatchBool result (¬ (IsEnd s.now wanted.now.pixel)) (IsEnd s.now wanted.now.pixel ⊎ Contains records.now wanted.now) }
{
    if is_end(s, wanted.pixel) {
        return false;
    }
    !stands_at(records, place, wanted)
}

/// Adds those of the records of the segments on a line at a pixel that aren't found among the last ones.
#[inline(never)]
pub(crate) fn add_new_at<A: Allocator>(
    records: &mut Vec<Record, A>,
    lined: &LinedSegments<'_>,
    line: &Line,
    pixel: Pt,
) -> Result<(), NoMemory>
    requires line_in { line.now.past ≤ length lined.now.table.now }
    requires pixel_in { InLimit pixel }
    ensures { OnOk result (AddsAt lined.now.segments.now lined.now.table.now line.now.first line.now.past pixel records.old.items records.new.items) }
{
    let mut told = last_at(records, pixel, (line.past - line.first).saturating_mul(2));
    for place in line.first..line.past {
        let number = lined.table[place].number;
        let record = record_at(lined.segments, number, pixel);
        told = past_lesser(records, told, &record);
        if is_new(records, told, &lined.segments[number as usize], &record) {
            records.push(record)?;
        }
    }
    Ok(())
}
