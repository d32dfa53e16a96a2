//! Edges, and the parity of a point over them.

ghost use Rattle.std.specs.Prelude.{◌≡◌, ℕ, ◌+◌, ◌<◌, ◌≤◌, ◌^◌, ◌++◌, ◌∷◌, [], OnOk, OnErr, IfOk, All, List, Some, length, map, slice_get, pos, ◌≤ℤ◌, ◌<ℤ◌, ◌+ℤ◌, ◌-ℤ◌, ◌*ℤ◌};
ghost use Rattle.std.specs.List.{range_with_len};
ghost use Rattle.geom.specs.Limit.{AreInLimit, IsWithin};
ghost use Rattle.geom.specs.Parity.{parity};
ghost use Rattle.geom.specs.declared.edge.Edge.{Edge};
ghost use Rattle.lane_tests.specs.Columns.{mask_of};
ghost use Rattle.lane_tests.specs.Edges.{AreEdges, AreNear, edges_of};
ghost use Rattle.lane_tests.specs.Probe.{IsProbe, point_of};
ghost use Rattle.lane_tests.specs.Above.{AreEnds, HasRoom, IsFloor, counting, is_above, is_at_most, is_covering, is_leaning, is_less, offset_at, one_is_above, run_at};

use crate::columns::Columns;
use crate::points::Probe;
use geom::{Edge, NoMemory};
use std::alloc::Allocator;
use std::marker::Model;
use std::simd::prelude::*;

/// Edges, numbered from 0 in the order in which they were added.
#[derive(Drop)]
pub struct Edges<A: Allocator> {
    columns: Columns<A>,
    ghost are_edges: { AreEdges columns },
    ghost are_near: { AreNear columns },
}

impl<A: Allocator> Model for Edges<A> {
    ghost Value = { List Edge };

    ghost view = { λ e. edges_of e.columns e.are_edges };
}

impl<A: Allocator + Copy> Edges<A> {
    /// No edges.
    pub fn new(alloc: A) -> Edges<A>
        ensures { result ≡ [] }
    {
        Edges {
            columns: Columns::new(alloc),
        }
    }

    /// The chosen edges, in the order of the numbers.
    pub fn of(alloc: A, edges: &[Edge], numbers: &[u32]) -> Result<Edges<A>, NoMemory>
        requires in_limit { All (λ e. AreInLimit e.p e.q) edges.now }
        requires in_range { All (λ k. k < length edges.now) numbers.now }
        ensures { IfOk result (λ chosen. map (λ e. Some e) chosen ≡ map (slice_get edges.now) numbers.now) }
    {
        let mut chosen = Edges::new(alloc);
        for number in numbers {
            chosen.push(edges[*number as usize])?;
        }
        Ok(chosen)
    }
}

impl<A: Allocator> Edges<A> {
    /// How many edges there are.
    pub fn len(&self) -> usize
        ensures value { result ≡ length self.now }
        ensures few { result < 2 ^ 32 }
    {
        self.columns.len()
    }

    /// Adds an edge. An `Err` changes nothing.
    pub fn push(&mut self, edge: Edge) -> Result<(), NoMemory>
        requires { AreInLimit edge.p edge.q }
        ensures ok { OnOk result (self.new ≡ self.old ++ edge ∷ []) }
        ensures err { OnErr result (self.new ≡ self.old) }
    {
        self.columns.push(edge.p, edge.q)
    }
}

/// The parity of a point over the edges: whether the number of edges that cover its column and lie strictly above it is
/// odd.
pub fn odd_above<A: Allocator>(edges: &Edges<A>, probe: Probe) -> bool
    requires { IsProbe probe }
    ensures { result ≡ parity edges.now (point_of probe) }
{
    let column = column_of(probe.x2, probe.dx);
    let columns = &edges.columns;
    count_above(
        &columns.px,
        &columns.py,
        &columns.qx,
        &columns.qy,
        column,
        probe,
    ) % 2
        == 1
}

// The floor of x2 / 2 + dx / 2^64.
fn column_of(x2: i32, dx: i32) -> i32
    requires { IsWithin (2 ^ 29) x2 }
    ensures { IsFloor result x2 dx }
{
    if dx < 0 { half(x2 - 1) } else { half(x2) }
}

// The floor of half a number.
#[inline(always)]
fn half(x: i32) -> i32
    ensures { ((result +ℤ result) ≤ℤ x) × (x <ℤ ((result +ℤ result) +ℤ pos 2)) }
{
    x >> 1
}

// How many edges lie above.
fn count_above(px: &[i32], py: &[i32], qx: &[i32], qy: &[i32], column: i32, probe: Probe) -> u64
    requires ends { AreEnds px.now py.now qx.now qy.now }
    requires probe { HasRoom probe }
    ensures { result ≡ counting (is_above px.now py.now qx.now qy.now column probe) 0 (length px.now) }
{
    let end = px.len();
    let mut at = 0;
    let mut total = 0u64;
    while end - at >= 8 {
        total += u64::from(eight_above(px, py, qx, qy, at, column, probe).count_ones());
        at += 8;
    }
    while at < end {
        if one_above(px[at], py[at], qx[at], qy[at], column, probe) {
            total += 1;
        }
        at += 1;
    }
    total
}

// Which of the eight edges from `at` on lie above.
#[inline(always)]
fn eight_above(
    px: &[i32],
    py: &[i32],
    qx: &[i32],
    qy: &[i32],
    at: usize,
    column: i32,
    probe: Probe,
) -> u64
    requires ends { AreEnds px.now py.now qx.now qy.now }
    requires in_range { at + 8 ≤ length px.now }
    requires probe { HasRoom probe }
    ensures { result ≡ mask_of (is_above px.now py.now qx.now qy.now column probe) at }
{
    let cover = covering(px, py, qx, qy, at, column);
    if cover == 0 {
        return 0;
    }
    let (less, at_most) = rising(px, py, qx, qy, at, probe.x2, probe.y2);
    if cover & at_most == cover & less {
        cover & less
    } else {
        let lean = leaning(px, py, qx, qy, at, probe.dx, probe.dy);
        (cover & less) | ((cover & at_most) & lean)
    }
}

// Whether one edge lies above.
#[inline(always)]
fn one_above(px: i32, py: i32, qx: i32, qy: i32, column: i32, probe: Probe) -> bool
    requires px { IsWithin (2 ^ 28) px }
    requires py { IsWithin (2 ^ 28) py }
    requires qx { IsWithin (2 ^ 28) qx }
    requires qy { IsWithin (2 ^ 28) qy }
    requires probe { HasRoom probe }
    ensures { result ≡ one_is_above px py qx qy column probe }
{
    let run = difference(qx, px);
    let rise = difference(qy, py);
    let over = product(run, offset(probe.y2, py));
    let under = product(rise, offset(probe.x2, px));
    let lean = product(run, probe.dy) < product(rise, probe.dx);
    (px <= column) & (column < qx) & ((over < under) | ((over <= under) & lean))
}

// The difference of two coordinates.
#[inline(always)]
pub(crate) fn difference(q: i32, p: i32) -> i32
    requires q { IsWithin (2 ^ 28) q }
    requires p { IsWithin (2 ^ 28) p }
    ensures value { result ≡ q -ℤ p }
    ensures small { IsWithin (2 ^ 29) result }
{
    q - p
}

// How far a half is from a coordinate, doubled.
#[inline(always)]
pub(crate) fn offset(x2: i32, p: i32) -> i32
    requires x2 { IsWithin (2 ^ 29 + 1) x2 }
    requires p { IsWithin (2 ^ 28) p }
    ensures value { result ≡ x2 -ℤ (p +ℤ p) }
    ensures small { IsWithin (2 ^ 30 + 1) result }
{
    x2 - (p + p)
}

// The product of a difference and an offset.
#[inline(always)]
pub(crate) fn product(a: i32, b: i32) -> i64
    requires a { IsWithin (2 ^ 29) a }
    requires b { IsWithin (2 ^ 30 + 1) b }
    ensures { result ≡ a *ℤ b }
{
    i64::from(a) * i64::from(b)
}

// Which of the eight edges from `at` on cover the column.
#[inline(always)]
fn covering(px: &[i32], py: &[i32], qx: &[i32], qy: &[i32], at: usize, column: i32) -> u64
    requires ends { AreEnds px.now py.now qx.now qy.now }
    requires in_range { at + 8 ≤ length px.now }
    ensures { result ≡ mask_of (is_covering px.now qx.now column) at }
{
    (i32x8::from_slice(&px[at..]).simd_le(i32x8::splat(column))
        & i32x8::from_slice(&qx[at..]).simd_gt(i32x8::splat(column))).to_bitmask()
}

// Which of the eight edges from `at` on lie above (x2 / 2, y2 / 2), and which of them above or at it.
#[inline(always)]
fn rising(px: &[i32], py: &[i32], qx: &[i32], qy: &[i32], at: usize, x2: i32, y2: i32) -> (u64, u64)
    requires ends { AreEnds px.now py.now qx.now qy.now }
    requires in_range { at + 8 ≤ length px.now }
    requires x2_near { IsWithin (2 ^ 29 + 1) x2 }
    requires y2_near { IsWithin (2 ^ 29 + 1) y2 }
    ensures less { result.0 ≡ mask_of (is_less px.now py.now qx.now qy.now x2 y2) at }
    ensures at_most { result.1 ≡ mask_of (is_at_most px.now py.now qx.now qy.now x2 y2) at }
{
    let (over, under) = products(px, py, qx, qy, at, x2, y2);
    (
        over.simd_lt(under).to_bitmask(),
        over.simd_le(under).to_bitmask(),
    )
}

// Of the eight edges or segments from `at` on, the two products whose difference is twice the determinant of each and of
// the way from its first end to (x2 / 2, y2 / 2).
#[inline(always)]
pub(crate) fn products(
    px: &[i32],
    py: &[i32],
    qx: &[i32],
    qy: &[i32],
    at: usize,
    x2: i32,
    y2: i32,
) -> (i64x8, i64x8)
    requires ends { AreEnds px.now py.now qx.now qy.now }
    requires in_range { at + 8 ≤ length px.now }
    requires x2_near { IsWithin (2 ^ 29 + 1) x2 }
    requires y2_near { IsWithin (2 ^ 29 + 1) y2 }
    ensures over { result.0 ≡ map (λ k. run_at px.now qx.now k *ℤ offset_at py.now y2 k) (range_with_len at 8) }
    ensures under { result.1 ≡ map (λ k. run_at py.now qy.now k *ℤ offset_at px.now x2 k) (range_with_len at 8) }
{
    let left = i32x8::from_slice(&px[at..]);
    let bottom = i32x8::from_slice(&py[at..]);
    let run = (i32x8::from_slice(&qx[at..]) - left).cast::<i64>();
    let rise = (i32x8::from_slice(&qy[at..]) - bottom).cast::<i64>();
    let up = (i32x8::splat(y2) - (bottom + bottom)).cast::<i64>();
    let along = (i32x8::splat(x2) - (left + left)).cast::<i64>();
    (run * up, rise * along)
}

// Which of the eight edges from `at` on rise above the direction (dx, dy).
#[inline(always)]
fn leaning(px: &[i32], py: &[i32], qx: &[i32], qy: &[i32], at: usize, dx: i32, dy: i32) -> u64
    requires ends { AreEnds px.now py.now qx.now qy.now }
    requires in_range { at + 8 ≤ length px.now }
    requires dx_near { IsWithin (2 ^ 29) dx }
    requires dy_near { IsWithin (2 ^ 29) dy }
    ensures { result ≡ mask_of (is_leaning px.now py.now qx.now qy.now dx dy) at }
{
    let run = (i32x8::from_slice(&qx[at..]) - i32x8::from_slice(&px[at..])).cast::<i64>();
    let rise = (i32x8::from_slice(&qy[at..]) - i32x8::from_slice(&py[at..])).cast::<i64>();
    (run * i32x8::splat(dy).cast::<i64>())
        .simd_lt(rise * i32x8::splat(dx).cast::<i64>())
        .to_bitmask()
}
