//! Boxes, and which of them meet a rectangle.

ghost use Rattle.std.specs.Prelude.{◌≡◌, ℕ, List, ◌+◌, ◌-◌, ◌*◌, ◌<◌, ◌≤◌, ◌≤ℤ◌, ◌^◌, ◌++◌, ◌∷◌, [], OnOk, OnErr, All, Some, length, map, slice_get, take};
ghost use Rattle.lane_tests.specs.Columns.{AreColumns, IsColumn, corners, mask_of, pair_at, pairs_of, passing, touches};
ghost use Rattle.lane_tests.specs.Boxes.{AreRects, AreSmall, rects_of};
ghost use Rattle.lane_tests.specs.Hulls.{AreHulls};
ghost use Rattle.lane_tests.specs.Meeting.{AreMeeting};
ghost use Rattle.geom.specs.declared.rect.Rect.{Rect};

use crate::columns::Columns;
use crate::hulls::{RUN, hold};
use geom::{NoMemory, Pt, Rect};
use std::alloc::Allocator;
use std::marker::Model;
use std::simd::prelude::*;

// How many chunks of eight boxes are tested before what was found is added.
const CHUNKS: usize = 32;

/// Closed boxes, numbered from 0 in the order in which they were added.
#[derive(Drop)]
pub struct Boxes<A: Allocator> {
    columns: Columns<A>,
    hulls: Vec<Rect, A>,
    ghost are_rects: { AreRects columns },
    ghost are_hulls: { AreHulls hulls.items columns },
}

impl<A: Allocator> Model for Boxes<A> {
    ghost Value = { List Rect };

    ghost view = { λ b. rects_of b.columns b.are_rects };
}

impl<A: Allocator + Copy> Boxes<A> {
    /// No boxes.
    pub fn new(alloc: A) -> Boxes<A>
        ensures { result ≡ [] }
    {
        Boxes {
            columns: Columns::new(alloc),
            hulls: Vec::new(alloc),
        }
    }
}

impl<A: Allocator> Boxes<A> {
    /// How many boxes there are.
    pub fn len(&self) -> usize
        ensures value { result ≡ length self.now }
        ensures few { result < 2 ^ 32 }
    {
        self.columns.len()
    }

    /// The box of a number.
    pub fn get(&self, number: usize) -> Rect
        requires { number < length self.now }
        ensures { slice_get self.now number ≡ Some result }
    {
        let columns = &self.columns;
        box_at(&columns.px, &columns.py, &columns.qx, &columns.qy, number)
    }

    /// The left sides, in the order of the boxes.
    pub fn lefts(&self) -> &[i32]
        ensures value { result.now ≡ map (λ r. r.lo.x) self.now }
        ensures fit { All AreSmall self.now }
    {
        let columns = &self.columns;
        &columns.px
    }

    /// Adds a box. An `Err` changes nothing.
    pub fn push(&mut self, rect: Rect) -> Result<(), NoMemory>
        ensures ok { OnOk result (self.new ≡ self.old ++ rect ∷ []) }
        ensures err { OnErr result (self.new ≡ self.old) }
    {
        hold(&mut self.hulls, self.columns.len() / RUN, rect)?;
        self.columns.push(rect.lo, rect.hi)
    }
}

/// The vector becomes the numbers, ascending, of the boxes that share a point with the rectangle. After an `Err` it is
/// empty.
pub fn meet_boxes<A: Allocator, B: Allocator>(
    boxes: &Boxes<A>,
    rect: Rect,
    out: &mut Vec<u32, B>,
) -> Result<(), NoMemory>
    ensures ok { OnOk result (AreMeeting boxes.now rect 0 (length boxes.now) out.new.items) }
    ensures err { OnErr result (out.new.items ≡ []) }
{
    meet_in(boxes, 0, boxes.len() as u32, rect, out)
}

/// As `meet_boxes`, of the boxes from `from` to below `to` alone.
pub fn meet_in<A: Allocator, B: Allocator>(
    boxes: &Boxes<A>,
    from: u32,
    to: u32,
    rect: Rect,
    out: &mut Vec<u32, B>,
) -> Result<(), NoMemory>
    requires in_order { from ≤ to }
    requires in_range { to ≤ length boxes.now }
    ensures ok { OnOk result (AreMeeting boxes.now rect from to out.new.items) }
    ensures err { OnErr result (out.new.items ≡ []) }
{
    out.clear();
    let columns = &boxes.columns;
    match push_runs(
        &boxes.hulls,
        &columns.px,
        &columns.py,
        &columns.qx,
        &columns.qy,
        from as usize,
        to as usize,
        rect,
        out,
    ) {
        Ok(()) => Ok(()),
        Err(e) => {
            out.clear();
            Err(e)
        }
    }
}

// One box of columns.
fn box_at(left: &[i32], bottom: &[i32], right: &[i32], top: &[i32], at: usize) -> Rect
    requires columns { AreColumns left.now bottom.now right.now top.now }
    requires in_range { at < length left.now }
    requires wide { (pair_at left.now bottom.now right.now top.now at).0.x ≤ℤ (pair_at left.now bottom.now right.now top.now at).1.x }
    requires high { (pair_at left.now bottom.now right.now top.now at).0.y ≤ℤ (pair_at left.now bottom.now right.now top.now at).1.y }
    ensures { corners result ≡ pair_at left.now bottom.now right.now top.now at }
{
    Rect {
        lo: Pt {
            x: left[at],
            y: bottom[at],
        },
        hi: Pt {
            x: right[at],
            y: top[at],
        },
    }
}

// Adds the numbers of the boxes from `from` on that touch the rectangle, run by run.
fn push_runs<A: Allocator>(
    hulls: &[Rect],
    left: &[i32],
    bottom: &[i32],
    right: &[i32],
    top: &[i32],
    from: usize,
    end: usize,
    rect: Rect,
    out: &mut Vec<u32, A>,
) -> Result<(), NoMemory>
    requires hulls { AreHulls hulls.now (pairs_of left.now bottom.now right.now top.now) }
    requires columns { AreColumns left.now bottom.now right.now top.now }
    requires in_order { from ≤ end }
    requires in_range { end ≤ length left.now }
    ensures { OnOk result (out.new.items ≡ out.old.items ++ passing (λ k. touches (pair_at left.now bottom.now right.now top.now k) (corners rect)) from (end - from)) }
{
    let mut at = from;
    while at < end {
        let run = at / RUN;
        let next = end.min(RUN * (run + 1));
        if hulls[run].shares_point(&rect) {
            push_touching(left, bottom, right, top, at, next, rect, out)?;
        }
        at = next;
    }
    Ok(())
}

// Adds the numbers of the boxes from `from` on that touch the rectangle.
fn push_touching<A: Allocator>(
    left: &[i32],
    bottom: &[i32],
    right: &[i32],
    top: &[i32],
    from: usize,
    end: usize,
    rect: Rect,
    out: &mut Vec<u32, A>,
) -> Result<(), NoMemory>
    requires columns { AreColumns left.now bottom.now right.now top.now }
    requires in_order { from ≤ end }
    requires in_range { end ≤ length left.now }
    ensures { OnOk result (out.new.items ≡ out.old.items ++ passing (λ k. touches (pair_at left.now bottom.now right.now top.now k) (corners rect)) from (end - from)) }
{
    let mut at = from;
    while end - at >= 8 {
        let chunks = ((end - at) / 8).min(CHUNKS);
        push_chunks(left, bottom, right, top, at, chunks, rect, out)?;
        at += 8 * chunks;
    }
    while at < end {
        if touches_at(left, bottom, right, top, at, rect) {
            out.push(at as u32)?;
        }
        at += 1;
    }
    Ok(())
}

// Adds the numbers of those boxes of some chunks of eight from `from` on that touch the rectangle.
fn push_chunks<A: Allocator>(
    left: &[i32],
    bottom: &[i32],
    right: &[i32],
    top: &[i32],
    from: usize,
    chunks: usize,
    rect: Rect,
    out: &mut Vec<u32, A>,
) -> Result<(), NoMemory>
    requires columns { AreColumns left.now bottom.now right.now top.now }
    requires few { chunks ≤ 32 }
    requires in_range { from + 8 * chunks ≤ length left.now }
    ensures { OnOk result (out.new.items ≡ out.old.items ++ passing (λ k. touches (pair_at left.now bottom.now right.now top.now k) (corners rect)) from (8 * chunks)) }
{
    let mut found = [0u32; 8 * CHUNKS];
    let mut count = 0;
    for chunk in 0..chunks {
        let at = from + 8 * chunk;
        count = note_eight(left, bottom, right, top, at, rect, &mut found, count);
    }
    out.extend_from_slice(&found[..count])?;
    Ok(())
}

// Writes the numbers of those of the eight boxes from `at` on that touch the rectangle behind the first `count` numbers.
// Each number is written, and the next one in its place where its box doesn't touch, so that no branch depends on a box.
#[inline(always)]
fn note_eight(
    left: &[i32],
    bottom: &[i32],
    right: &[i32],
    top: &[i32],
    at: usize,
    rect: Rect,
    found: &mut [u32],
    count: usize,
) -> usize
    requires columns { AreColumns left.now bottom.now right.now top.now }
    requires in_range { at + 8 ≤ length left.now }
    requires room { count + 8 ≤ length found.old }
    ensures noted { take result found.new ≡ take count found.old ++ passing (λ k. touches (pair_at left.now bottom.now right.now top.now k) (corners rect)) at 8 }
    ensures few { result ≤ count + 8 }
    ensures room { length found.new ≡ length found.old }
{
    let mut rest = touching(left, bottom, right, top, at, rect);
    let mut end = count;
    for lane in 0..8u32 {
        found[end] = at as u32 + lane;
        end += (rest % 2) as usize;
        rest /= 2;
    }
    end
}

// Whether one box touches the rectangle.
#[inline(always)]
fn touches_at(
    left: &[i32],
    bottom: &[i32],
    right: &[i32],
    top: &[i32],
    at: usize,
    rect: Rect,
) -> bool
    requires columns { AreColumns left.now bottom.now right.now top.now }
    requires in_range { at < length left.now }
    ensures { result ≡ touches (pair_at left.now bottom.now right.now top.now at) (corners rect) }
{
    (left[at] <= rect.hi.x)
        & (bottom[at] <= rect.hi.y)
        & (rect.lo.x <= right[at])
        & (rect.lo.y <= top[at])
}

// Which of the eight boxes from `at` on touch the rectangle.
#[inline(always)]
fn touching(left: &[i32], bottom: &[i32], right: &[i32], top: &[i32], at: usize, rect: Rect) -> u64
    requires left_fits { IsColumn left.now }
    requires bottom_fits { IsColumn bottom.now }
    requires right_fits { IsColumn right.now }
    requires top_fits { IsColumn top.now }
    requires left { at + 8 ≤ length left.now }
    requires bottom { at + 8 ≤ length bottom.now }
    requires right { at + 8 ≤ length right.now }
    requires top { at + 8 ≤ length top.now }
    ensures { result ≡ mask_of (λ k. touches (pair_at left.now bottom.now right.now top.now k) (corners rect)) at }
{
    (i32x8::from_slice(&left[at..]).simd_le(i32x8::splat(rect.hi.x))
        & i32x8::from_slice(&bottom[at..]).simd_le(i32x8::splat(rect.hi.y))
        & i32x8::from_slice(&right[at..]).simd_ge(i32x8::splat(rect.lo.x))
        & i32x8::from_slice(&top[at..]).simd_ge(i32x8::splat(rect.lo.y))).to_bitmask()
}
