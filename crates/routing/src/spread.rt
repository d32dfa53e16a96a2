//! The records of many lines at many pixels: a line is tested on those that it comes near, and not on all.
//!
//! 1. Few pixels are tested on each line, and on few lines all are.
//! 2. Else the lines that don't pass the box of the pixels are left out. The box is halved, and each half goes on with its pixels.

ghost use Rattle.std.specs.Prelude.{◌<◌, ◌≤◌, All, Contains, IfOk, OnOk, length};
ghost use Rattle.geom.specs.declared.point.Pt.{Pt};
ghost use Rattle.geom.specs.Limit.{AreInLimit, InLimit};
ghost use Rattle.hot_region.specs.Rects.{IsIn};
ghost use Rattle.routing.specs.Recording.{AddsRecordsAt};
ghost use Rattle.routing.specs.Spread.{AreThoseIn};

use crate::halved::{fewer, left_of};
use crate::limited::LinedSegments;
use crate::record::Record;
use crate::recording::add_records;
use geom::{NoMemory, Pt, Rect};
use hot_region::{FEW, Line, Region, cut};
use std::alloc::Allocator;

/// How many pixels are tested on each line, however many lines there are.
const A_FEW: usize = 4;

/// The box of some pixels.
fn box_of(pixels: &[Pt]) -> Rect
    requires some { 0 < length pixels.now }
    requires pixels_in { All InLimit pixels.now }
    ensures within { AreInLimit result.lo result.hi }
    ensures all { (c : Pt) → Contains pixels.now c → IsIn result c }
{
    let first = pixels[0];
    let mut rect = Rect::spanned_by(first, first);
    for pixel in pixels {
        rect = rect.with(*pixel);
    }
    rect
}

/// Those of some pixels that lie in a rectangle.
fn within<A: Allocator>(alloc: A, rect: &Rect, pixels: &[Pt]) -> Result<Vec<Pt, A>, NoMemory>
    ensures { IfOk result (λ v. AreThoseIn rect.now pixels.now v.items) }
{
    let mut part = Vec::new(alloc);
    for pixel in pixels {
        if rect.holds(*pixel) {
            part.push(*pixel)?;
        }
    }
    Ok(part)
}

/// Adds the records of the segments on lines at those of the pixels that they meet. These are halved so often at most.
pub(crate) fn add_spread<A: Allocator + Copy>(
    alloc: A,
    records: &mut Vec<Record, A>,
    lined: &LinedSegments<'_>,
    lines: &[Line],
    pixels: &[Pt],
    depth: u32,
) -> Result<(), NoMemory>
    requires lines_past { All (λ l. l.past ≤ length lined.now.table.now) lines.now }
    requires pixels_in { All InLimit pixels.now }
    ensures { OnOk result (AddsRecordsAt lined.now.segments.now lined.now.table.now lines.now pixels.now records.old.items records.new.items) }
{
    if depth == 0 || lines.len() <= FEW || pixels.len() <= A_FEW {
        return add_records(records, lined, lines, pixels);
    }
    let whole = Region::open(alloc, box_of(pixels));
    let part = fewer(alloc, &whole, lines)?;
    let left = left_of(lines, &part);
    match cut(&whole.rect, left) {
        None => add_records(records, lined, left, pixels),
        Some((first, second)) => {
            let some = within(alloc, &first, pixels)?;
            add_spread(alloc, records, lined, left, &some, depth - 1)?;
            drop(some);
            let rest = within(alloc, &second, pixels)?;
            add_spread(alloc, records, lined, left, &rest, depth - 1)?;
            Ok(())
        }
    }
}
