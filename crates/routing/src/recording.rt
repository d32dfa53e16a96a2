//! The records of lines at hot pixels: which pixels lie in the box of a line is told by lanes.
//!
//! 1. So many pixels are taken at once as there are lanes.
//! 2. Each line is tested on those in its box. Where it meets one, each segment on the line has a record there.

ghost use Rattle.std.specs.Prelude.{◌≡◌, ◌≤◌, All, IsTrue, List, OnOk, length};
ghost use Rattle.geom.specs.Limit.{InLimit};
ghost use Rattle.routing.specs.Boxes.{boxes_of};
ghost use Rattle.routing.specs.Recording.{AddsAlong, AddsAt, AddsRecordsAt};

use crate::limited::LinedSegments;
use crate::met::meets;
use crate::piled::{add_new_at, is_pile};
use crate::record::{Record, is_end, record_at};
use box_lanes::{Boxes, LANES, split_first};
use geom::{NoMemory, Pt, Rect};
use hot_region::{Line, on_line};
use std::alloc::Allocator;

/// Adds the record of each segment on a line at a pixel that is no end of it.
#[inline(never)]
fn add_at<A: Allocator>(
    records: &mut Vec<Record, A>,
    lined: &LinedSegments<'_>,
    line: &Line,
    pixel: Pt,
) -> Result<(), NoMemory>
    requires line_in { line.now.past ≤ length lined.now.table.now }
    requires pixel_in { InLimit pixel }
    ensures { OnOk result (AddsAt lined.now.segments.now lined.now.table.now line.now.first line.now.past pixel records.old.items records.new.items) }
{
    for place in line.first..line.past {
        let number = lined.table[place].number;
        if !is_end(&lined.segments[number as usize], pixel) {
            records.push(record_at(lined.segments, number, pixel))?;
        }
    }
    Ok(())
}

/// The same; of a pile those that aren't told yet.
fn add_met<A: Allocator>(
    records: &mut Vec<Record, A>,
    lined: &LinedSegments<'_>,
    line: &Line,
    pixel: Pt,
) -> Result<(), NoMemory>
    requires line_in { line.now.past ≤ length lined.now.table.now }
    requires pixel_in { InLimit pixel }
    ensures { OnOk result (AddsAt lined.now.segments.now lined.now.table.now line.now.first line.now.past pixel records.old.items records.new.items) }
{
    if is_pile(line) {
        add_new_at(records, lined, line, pixel)
    } else {
        add_at(records, lined, line, pixel)
    }
}

/// Pixels as boxes, in their order.
fn boxes_of(pixels: &[Pt]) -> Boxes
    requires { length pixels.now ≤ 32 }
    ensures { result ≡ boxes_of pixels.now }
{
    let mut boxes = Boxes::none();
    for pixel in pixels {
        boxes.push(&Rect {
            lo: *pixel,
            hi: *pixel,
        });
    }
    boxes
}

/// Whether a pixel is an end of each segment on a line, which then has no record there. Of a pile that isn't looked for.
#[inline(always)]
fn ends_each(lined: &LinedSegments<'_>, line: &Line, pixel: Pt) -> bool
    requires line_in { line.now.past ≤ length lined.now.table.now }
    ensures { IsTrue result → (records : List Record) → AddsAt lined.now.segments.now lined.now.table.now line.now.first line.now.past pixel records records }
{
    if is_pile(line) {
        return false;
    }
    for place in line.first..line.past {
        if !is_end(&lined.segments[lined.table[place].number as usize], pixel) {
            return false;
        }
    }
    true
}

/// Adds the records of the segments on a line at those of the pixels that it meets, where the pixels are told as boxes.
fn add_along<A: Allocator>(
    records: &mut Vec<Record, A>,
    lined: &LinedSegments<'_>,
    line: &Line,
    pixels: &[Pt],
    boxes: &Boxes,
) -> Result<(), NoMemory>
    requires line_in { line.now.past ≤ length lined.now.table.now }
    requires pixels_in { All InLimit pixels.now }
    requires boxes { boxes.now ≡ boxes_of pixels.now }
    ensures { OnOk result (AddsAlong lined.now.segments.now lined.now.table.now line.now pixels.now records.old.items records.new.items) }
{
    let s = on_line(&line.edge);
    let mut near = boxes.sharing(&line.edge.bounds());
    while near != 0 {
        let (place, rest) = split_first(near);
        let pixel = pixels[place];
        if !ends_each(lined, line, pixel) && meets(&s, pixel) {
            add_met(records, lined, line, pixel)?;
        }
        near = rest;
    }
    Ok(())
}

/// Adds the records of the segments on lines at those of a few pixels that they meet.
fn add_few<A: Allocator>(
    records: &mut Vec<Record, A>,
    lined: &LinedSegments<'_>,
    lines: &[Line],
    pixels: &[Pt],
) -> Result<(), NoMemory>
    requires few { length pixels.now ≤ 32 }
    requires lines_past { All (λ l. l.past ≤ length lined.now.table.now) lines.now }
    requires pixels_in { All InLimit pixels.now }
    ensures { OnOk result (AddsRecordsAt lined.now.segments.now lined.now.table.now lines.now pixels.now records.old.items records.new.items) }
{
    let boxes = boxes_of(pixels);
    for line in lines {
        add_along(records, lined, line, pixels, &boxes)?;
    }
    Ok(())
}

/// Adds the records of the segments on lines at those of the pixels that they meet.
pub(crate) fn add_records<A: Allocator>(
    records: &mut Vec<Record, A>,
    lined: &LinedSegments<'_>,
    lines: &[Line],
    pixels: &[Pt],
) -> Result<(), NoMemory>
    requires lines_past { All (λ l. l.past ≤ length lined.now.table.now) lines.now }
    requires pixels_in { All InLimit pixels.now }
    ensures { OnOk result (AddsRecordsAt lined.now.segments.now lined.now.table.now lines.now pixels.now records.old.items records.new.items) }
{
    let mut from = 0;
    while from < pixels.len() {
        let past = (from + LANES).min(pixels.len());
        add_few(records, lined, lines, &pixels[from..past])?;
        from = past;
    }
    Ok(())
}
