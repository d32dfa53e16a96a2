//! The hot pixels of a rectangle with few lines, or of a single pixel: by all ends and all pairs, of many lines by the pairs of
//! one line of each carrier. Boxes are compared by lanes, and only lines whose boxes share a point are crossed.

ghost use Rattle.std.specs.Prelude.{◌≡◌, ◌⊎◌, ◌≤◌, [], Contains, IfOk, IfSome, IsTrue, OnOk, length, take, true};
ghost use Rattle.geom.specs.declared.point.Pt.{Pt};
ghost use Rattle.geom.specs.declared.rect.Rect.{Rect};
ghost use Rattle.hot_region.specs.Boxes.{boxes_of};
ghost use Rattle.hot_region.specs.Carriers.{KeepsCrossings};
ghost use Rattle.hot_region.specs.Halving.{edges_of, HasEndsToo, HasHot, IsEndOf};
ghost use Rattle.hot_region.specs.Lines.{CrossAt, HasBothCrossed, HasCrossed, HasPushed};
ghost use Rattle.hot_region.specs.Rects.{IsIn};

use crate::carrier::one_of_each_carrier;
use crate::lines::{Line, on_line};
use crate::pixels::push_in;
use box_lanes::{Boxes, LANES, split_first};
use crossing::cross;
use geom::{Edge, NoMemory, Pt, Rect};
use std::alloc::Allocator;

/// How many lines of a rectangle are few: all pairs of them are crossed.
pub const FEW: usize = 96;

/// Whether a pixel is one of the last two of a list.
fn is_last_of(found: &[Pt], pixel: Pt) -> bool
    ensures { IsTrue result → Contains found.now pixel }
{
    for place in found.len().saturating_sub(2)..found.len() {
        if found[place] == pixel {
            return true;
        }
    }
    false
}

/// Adds an end of a line, if the rectangle has it and it wasn't just added: lines that follow one another have a common end.
fn push_end<A: Allocator>(found: &mut Vec<Pt, A>, rect: &Rect, end: Pt) -> Result<(), NoMemory>
    ensures { OnOk result (HasPushed rect.now end found.old.items found.new.items) }
{
    if is_last_of(found, end) {
        return Ok(());
    }
    push_in(found, rect, end)
}

/// Adds the ends of the lines that lie in the rectangle.
pub(crate) fn add_ends<A: Allocator>(
    rect: &Rect,
    lines: &[Line],
    found: &mut Vec<Pt, A>,
) -> Result<(), NoMemory>
    ensures { OnOk result (HasEndsToo rect.now (edges_of lines.now) found.old.items found.new.items) }
{
    for line in lines {
        push_end(found, rect, line.edge.p)?;
        push_end(found, rect, line.edge.q)?;
    }
    Ok(())
}

/// Whether a point is an end of a line.
fn is_end_of(point: Pt, line: &Edge) -> bool
    ensures { result ≡ true → (point ≡ line.now.p) ⊎ (point ≡ line.now.q) }
{
    point == line.p || point == line.q
}

/// Whether two lines have a common end. Where they do and cross, they cross there.
fn have_common_end(e: &Edge, f: &Edge) -> bool
    ensures { (c : Pt) → result ≡ true → CrossAt f.now e.now c → (e.now.p ≡ c) ⊎ (e.now.q ≡ c) }
{
    is_end_of(e.p, f) || is_end_of(e.q, f)
}

/// Adds the crossings of a line with others that lie in the rectangle, where its ends there are found and the boxes of the others
/// are told.
pub(crate) fn cross_near<A: Allocator>(
    rect: &Rect,
    line: &Line,
    others: &[Line],
    boxes: &Boxes,
    found: &mut Vec<Pt, A>,
) -> Result<(), NoMemory>
    requires boxes { boxes.now ≡ boxes_of (edges_of others.now) }
    requires ends { (c : Pt) → (line.now.edge.p ≡ c) ⊎ (line.now.edge.q ≡ c) → IsIn rect.now c → Contains found.old.items c }
    ensures { OnOk result (HasCrossed rect.now line.now.edge (edges_of others.now) found.old.items found.new.items) }
{
    let s = on_line(&line.edge);
    let mut near = boxes.sharing(&line.edge.bounds());
    while near != 0 {
        let (place, rest) = split_first(near);
        let other = &others[place].edge;
        if !have_common_end(&line.edge, other) {
            if let Some(pixel) = cross(&s, &on_line(other)) {
                push_in(found, rect, pixel)?;
            }
        }
        near = rest;
    }
    Ok(())
}

/// The lines before a place.
fn earlier(lines: &[Line], place: usize) -> &[Line]
    requires { place ≤ length lines.now }
    ensures { result.now ≡ take place lines.now }
{
    lines.split_at(place).0
}

/// Whether a rectangle is one pixel, which was found last.
fn is_found(rect: &Rect, found: &[Pt]) -> bool
    ensures { (c : Pt) → IsTrue result → IsIn rect.now c → Contains found.now c }
{
    match found.last() {
        None => false,
        Some(pixel) => rect.lo == rect.hi && rect.lo == *pixel,
    }
}

/// Adds the crossings of the first lines, as many as there are lanes, with all lines that lie in the rectangle, where all ends there
/// are found. Where it is one pixel, a crossing in it is the last one that is looked for.
fn cross_first<A: Allocator>(
    rect: &Rect,
    lines: &[Line],
    found: &mut Vec<Pt, A>,
) -> Result<(), NoMemory>
    requires { (c : Pt) → IsEndOf (edges_of lines.now) c → IsIn rect.now c → Contains found.old.items c }
    ensures { OnOk result (HasBothCrossed rect.now (take 32 (edges_of lines.now)) (edges_of lines.now) found.old.items found.new.items) }
{
    let mut boxes = Boxes::none();
    for place in 0..lines.len() {
        if is_found(rect, found) {
            return Ok(());
        }
        let line = &lines[place];
        cross_near(rect, line, earlier(lines, place.min(LANES)), &boxes, found)?;
        if place < LANES {
            boxes.push(&line.edge.bounds());
        }
    }
    Ok(())
}

/// One of each carrier of the lines of a rectangle where these are many. None stands for all of them.
fn some_of<A: Allocator + Copy>(
    alloc: A,
    rect: &Rect,
    lines: &[Line],
) -> Result<Option<Vec<Line, A>>, NoMemory>
    ensures { IfOk result (λ o. IfSome o (λ some. KeepsCrossings rect.now lines.now some.items)) }
{
    if lines.len() <= FEW {
        return Ok(None);
    }
    Ok(Some(one_of_each_carrier(alloc, rect, lines)?))
}

/// The lines that are left: some, or all.
fn left_of<'a, A: Allocator>(lines: &'a [Line], some: &'a Option<Vec<Line, A>>) -> &'a [Line]
    ensures { (rect : Rect) → IfSome some.now (λ part. KeepsCrossings rect lines.now part.items) → KeepsCrossings rect lines.now result.now }
{
    match some {
        Some(part) => part,
        None => lines,
    }
}

/// The pixels of a rectangle that are hot for its lines, by all ends and the pairs of all lines, or of one line of each carrier.
pub fn hot_by_pairs<A: Allocator + Copy>(
    alloc: A,
    rect: &Rect,
    lines: &[Line],
) -> Result<Vec<Pt, A>, NoMemory>
    ensures { IfOk result (λ v. HasHot rect.now (edges_of lines.now) [] v.items) }
{
    let ends = lines.len().saturating_mul(2);
    let mut found = Vec::with_capacity(alloc, ends)?;
    add_ends(rect, lines, &mut found)?;
    if is_found(rect, &found) {
        return Ok(found);
    }
    let some = some_of(alloc, rect, lines)?;
    let left = left_of(lines, &some);
    let mut from = 0;
    while from < left.len() {
        cross_first(rect, &left[from..], &mut found)?;
        from = (from + LANES).min(left.len());
    }
    Ok(found)
}
