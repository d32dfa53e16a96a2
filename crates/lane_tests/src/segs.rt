//! Segments, and on which side of each a point lies.

ghost use Rattle.std.specs.Prelude.{◌≡◌, ℕ, List, ◌+◌, ◌-◌, ◌<◌, ◌≤◌, ◌^◌, ◌++◌, ◌∷◌, [], OnOk, OnErr, length, take, map, pos, ◌+ℤ◌, ◌-ℤ◌, ◌*ℤ◌};
ghost use Rattle.geom.specs.Limit.{AreInLimit, IsWithin};
ghost use Rattle.lane_tests.specs.Columns.{Ends};
ghost use Rattle.lane_tests.specs.Edges.{AreNear};
ghost use Rattle.lane_tests.specs.Above.{AreEnds};
ghost use Rattle.lane_tests.specs.Sides.{IsHalf, side_at, side_sign, siding, sign};

use crate::columns::Columns;
use crate::edges::{difference, offset, product, products};
use crate::points::Half;
use geom::{NoMemory, Seg};
use std::alloc::Allocator;
use std::marker::Model;
use std::simd::prelude::*;

/// Segments, numbered from 0 in the order in which they were added, by their ends.
#[derive(Drop)]
pub struct Segs<A: Allocator> {
    columns: Columns<A>,
    ghost are_near: { AreNear columns },
}

impl<A: Allocator> Model for Segs<A> {
    ghost Value = { List Ends };

    ghost view = { λ s. s.columns };
}

impl<A: Allocator + Copy> Segs<A> {
    /// No segments.
    pub fn new(alloc: A) -> Segs<A>
        ensures { result ≡ [] }
    {
        Segs {
            columns: Columns::new(alloc),
        }
    }
}

impl<A: Allocator> Segs<A> {
    /// How many segments there are.
    pub fn len(&self) -> usize
        ensures value { result ≡ length self.now }
        ensures few { result < 2 ^ 32 }
    {
        self.columns.len()
    }

    /// Adds a segment. An `Err` changes nothing.
    pub fn push(&mut self, seg: Seg) -> Result<(), NoMemory>
        requires { AreInLimit seg.a seg.b }
        ensures ok { OnOk result (self.new ≡ self.old ++ (seg.a, seg.b) ∷ []) }
        ensures err { OnErr result (self.new ≡ self.old) }
    {
        self.columns.push(seg.a, seg.b)
    }
}

/// Writes for each segment, from a to b, the sign of the determinant of b - a and z - a, where z is the point: 1 where z is
/// to the left, -1 where it is to the right, 0 on the line.
pub fn sides<A: Allocator>(segs: &Segs<A>, half: Half, out: &mut [i8])
    requires room { length out.old ≡ length segs.now }
    requires half { IsHalf half }
    ensures { out.new ≡ map (λ s. side_sign s half) segs.now }
{
    let columns = &segs.columns;
    put_sides(
        &columns.px,
        &columns.py,
        &columns.qx,
        &columns.qy,
        half.x2,
        half.y2,
        out,
    );
}

// Writes the sides of all segments.
fn put_sides(ax: &[i32], ay: &[i32], bx: &[i32], by: &[i32], x2: i32, y2: i32, out: &mut [i8])
    requires ends { AreEnds ax.now ay.now bx.now by.now }
    requires room { length out.old ≡ length ax.now }
    requires x2_near { IsWithin (2 ^ 29 + 1) x2 }
    requires y2_near { IsWithin (2 ^ 29 + 1) y2 }
    ensures { out.new ≡ siding (side_at ax.now ay.now bx.now by.now x2 y2) 0 (length ax.now) }
{
    let end = ax.len();
    let mut at = 0;
    while end - at >= 8 {
        put_eight(ax, ay, bx, by, at, x2, y2, out);
        at += 8;
    }
    while at < end {
        out[at] = one_side(ax[at], ay[at], bx[at], by[at], x2, y2);
        at += 1;
    }
}

// The side of one segment.
#[inline(always)]
fn one_side(ax: i32, ay: i32, bx: i32, by: i32, x2: i32, y2: i32) -> i8
    requires ax { IsWithin (2 ^ 28) ax }
    requires ay { IsWithin (2 ^ 28) ay }
    requires bx { IsWithin (2 ^ 28) bx }
    requires by { IsWithin (2 ^ 28) by }
    requires x2_near { IsWithin (2 ^ 29 + 1) x2 }
    requires y2_near { IsWithin (2 ^ 29 + 1) y2 }
    ensures { result ≡ sign ((bx -ℤ ax) *ℤ (y2 -ℤ (ay +ℤ ay))) ((by -ℤ ay) *ℤ (x2 -ℤ (ax +ℤ ax))) }
{
    sign(
        product(difference(bx, ax), offset(y2, ay)),
        product(difference(by, ay), offset(x2, ax)),
    )
}

// The sign of u - v.
#[inline(always)]
fn sign(u: i64, v: i64) -> i8
    ensures { result ≡ sign u v }
{
    if u < v {
        -1
    } else if v < u {
        1
    } else {
        0
    }
}

// The sides of the eight segments from `at` on.
#[inline(always)]
fn eight_sides(ax: &[i32], ay: &[i32], bx: &[i32], by: &[i32], at: usize, x2: i32, y2: i32) -> i8x8
    requires ends { AreEnds ax.now ay.now bx.now by.now }
    requires in_range { at + 8 ≤ length ax.now }
    requires x2_near { IsWithin (2 ^ 29 + 1) x2 }
    requires y2_near { IsWithin (2 ^ 29 + 1) y2 }
    ensures { result ≡ siding (side_at ax.now ay.now bx.now by.now x2 y2) at 8 }
{
    let (over, under) = products(ax, ay, bx, by, at, x2, y2);
    (over.simd_lt(under).to_simd() - under.simd_lt(over).to_simd()).cast::<i8>()
}

// Writes the sides of the eight segments from `at` on.
#[inline(always)]
fn put_eight(
    ax: &[i32],
    ay: &[i32],
    bx: &[i32],
    by: &[i32],
    at: usize,
    x2: i32,
    y2: i32,
    out: &mut [i8],
)
    requires ends { AreEnds ax.now ay.now bx.now by.now }
    requires in_range { at + 8 ≤ length ax.now }
    requires room { length out.old ≡ length ax.now }
    requires x2_near { IsWithin (2 ^ 29 + 1) x2 }
    requires y2_near { IsWithin (2 ^ 29 + 1) y2 }
    ensures { take (at + 8) out.new ≡ take at out.old ++ siding (side_at ax.now ay.now bx.now by.now x2 y2) at 8 }
{
    eight_sides(ax, ay, bx, by, at, x2, y2).copy_to_slice(&mut out[at..]);
}
