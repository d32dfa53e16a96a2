//! Closed boxes with a lane for each, and which of them share a point with a rectangle: none, where their hull shares none.

ghost use Rattle.std.specs.Prelude.{ℕ, ◌≡◌, ◌↔◌, ◌+◌, ◌<◌, ◌≤◌, ◌++◌, ◌∷◌, List, None, Option, Some, [], IsTrue, length};
ghost use Rattle.box_lanes.specs.Places.{IsPlace};
ghost use Rattle.geom.specs.Box.{ShareAPoint};
ghost use Rattle.geom.specs.declared.rect.Rect.{Rect};
ghost use Rattle.box_lanes.specs.Sides.{AreHeld, AreOrdered, Corners, IsColumn, LiesWithin, SharesAt, boxes_of, corners, corners_at, is_beside, sixteen};

use geom::Rect;
use std::marker::Model;
use std::simd::prelude::*;

/// How many boxes there are at most.
pub const LANES: usize = 32;

/// How many boxes are compared at once.
const HALF: usize = 16;

/// Closed boxes, numbered from 0 in the order in which they were added, by their sides with a lane for each.
#[derive(Drop)]
pub struct Boxes {
    left: [i32; LANES],
    bottom: [i32; LANES],
    right: [i32; LANES],
    top: [i32; LANES],
    count: usize,
    hull: Option<Rect>,
    ghost few: { count ≤ 32 },
    ghost lefts: { IsColumn left },
    ghost bottoms: { IsColumn bottom },
    ghost rights: { IsColumn right },
    ghost tops: { IsColumn top },
    ghost wide: { AreOrdered left right count },
    ghost high: { AreOrdered bottom top count },
    ghost held: { AreHeld hull left bottom right top count },
}

impl Model for Boxes {
    ghost Value = { List Corners };

    ghost view = { λ b. boxes_of b.left b.bottom b.right b.top b.count };
}

impl Boxes {
    /// No boxes.
    pub fn none() -> Boxes
        ensures { result ≡ [] }
    {
        Boxes {
            left: [0; LANES],
            bottom: [0; LANES],
            right: [0; LANES],
            top: [0; LANES],
            count: 0,
            hull: None,
        }
    }

    /// Adds a box.
    pub fn push(&mut self, rect: &Rect)
        requires { length self.old < 32 }
        ensures { self.new ≡ self.old ++ corners rect.now ∷ [] }
    {
        self.left[self.count] = rect.lo.x;
        self.bottom[self.count] = rect.lo.y;
        self.right[self.count] = rect.hi.x;
        self.top[self.count] = rect.hi.y;
        self.hull = Some(widened(self.hull, rect));
        self.count += 1;
    }

    /// The numbers of the boxes that share a point with a rectangle, as bits.
    pub fn sharing(&self, rect: &Rect) -> u64
        ensures { (k : ℕ) → IsPlace result k ↔ SharesAt self.now rect.now k }
    {
        if misses(self.hull, rect) {
            return 0;
        }
        let some = ones(self.count);
        let first = beside(&self.left, &self.bottom, &self.right, &self.top, 0, rect);
        if self.count <= HALF {
            return some & !first;
        }
        let second = beside(&self.left, &self.bottom, &self.right, &self.top, HALF, rect);
        some & !(first + (second << 16))
    }
}

/// A hull that holds a box too; of a box alone where there is none.
#[inline(always)]
fn widened(hull: Option<Rect>, rect: &Rect) -> Rect
    ensures added { LiesWithin result (corners rect.now) }
    ensures held { (h : Rect) (c : Corners) → hull ≡ Some h → LiesWithin h c → LiesWithin result c }
{
    match hull {
        None => *rect,
        Some(hull) => hull.with(rect.lo).with(rect.hi),
    }
}

/// Whether a rectangle shares no point with a hull, or there is none.
#[inline(always)]
fn misses(hull: Option<Rect>, rect: &Rect) -> bool
    ensures { (h : Rect) → IsTrue result → hull ≡ Some h → ¬ (ShareAPoint h.lo h.hi rect.now.lo rect.now.hi) }
{
    match hull {
        None => true,
        Some(hull) => !hull.shares_point(rect),
    }
}

/// So many places from the lowest one on.
fn ones(count: usize) -> u64
    requires { count ≤ 32 }
    ensures { (k : ℕ) → IsPlace result k ↔ (k < count) }
{
    (1 << count) - 1
}

/// Which of the sixteen boxes from one on lie wholly on one side of a rectangle, as bits.
fn beside(left: &[i32], bottom: &[i32], right: &[i32], top: &[i32], at: usize, rect: &Rect) -> u64
    requires left_fits { IsColumn left.now }
    requires bottom_fits { IsColumn bottom.now }
    requires right_fits { IsColumn right.now }
    requires top_fits { IsColumn top.now }
    requires left { at + 16 ≤ length left.now }
    requires bottom { at + 16 ≤ length bottom.now }
    requires right { at + 16 ≤ length right.now }
    requires top { at + 16 ≤ length top.now }
    ensures { result ≡ sixteen (λ k. is_beside (corners_at left.now bottom.now right.now top.now k) rect.now) at }
{
    (i32x16::from_slice(&left[at..]).simd_gt(i32x16::splat(rect.hi.x))
        | i32x16::from_slice(&bottom[at..]).simd_gt(i32x16::splat(rect.hi.y))
        | i32x16::splat(rect.lo.x).simd_gt(i32x16::from_slice(&right[at..]))
        | i32x16::splat(rect.lo.y).simd_gt(i32x16::from_slice(&top[at..]))).to_bitmask()
}
