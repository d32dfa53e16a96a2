//! The halving of a rectangle, and the lines that may pass it.

ghost use Rattle.std.specs.Prelude.{◌≡◌, ◌↔◌, ◌⊎◌, ◌^◌, ◌<ℤ◌, ◌≤ℤ◌, ◌+ℤ◌, ◌-ℤ◌, All, IfOk, IsTrue, MatchOption, length, nat_abs, neg_ℤ, pos};
ghost use Rattle.geom.specs.declared.point.Pt.{Pt};
ghost use Rattle.geom.specs.Limit.{AreInLimit, InLimit, IsWithin, coordinate_limit};
ghost use Rattle.geom.specs.Determinant.{determinant};
ghost use Rattle.hot_region.specs.Halving.{AreHalves, ArePassing, IsMetOn, IsNear, IsOnePixel, IsPartInLimit};
ghost use Rattle.hot_region.specs.Rects.{IsIn};

use crate::lines::Line;
use geom::{COORDINATE_LIMIT, Edge, NoMemory, Pt, Rect, Vector};
use std::alloc::Allocator;

/// How many lines are asked before a rectangle is cut.
pub(crate) const SAMPLE: usize = 16;

/// A vector with room for twice the differences of points.
#[derive(Clone, Copy, Debug)]
pub(crate) struct Wide {
    pub dx: i64,
    pub dy: i64,
    ghost dx_small: { IsWithin (2 ^ 30) dx },
    ghost dy_small: { IsWithin (2 ^ 30) dy },
}

/// Twice the vector from a point to the centre of a rectangle.
fn to_centre(p: Pt, rect: &Rect) -> Wide
    requires p_in { InLimit p }
    requires rect_in { AreInLimit rect.now.lo rect.now.hi }
    ensures dx { result.dx ≡ (rect.now.lo.x +ℤ rect.now.hi.x) -ℤ (p.x +ℤ p.x) }
    ensures dy { result.dy ≡ (rect.now.lo.y +ℤ rect.now.hi.y) -ℤ (p.y +ℤ p.y) }
{
    let low = p.vector_to(rect.lo);
    let high = p.vector_to(rect.hi);
    Wide {
        dx: low.dx + high.dx,
        dy: low.dy + high.dy,
    }
}

/// The diagonal of the square round the pixels of a rectangle, from its right lower corner to its left upper one.
fn diagonal(rect: &Rect) -> Wide
    requires rect_in { AreInLimit rect.now.lo rect.now.hi }
    ensures dx { result.dx ≡ (rect.now.lo.x -ℤ rect.now.hi.x) -ℤ pos 1 }
    ensures dy { result.dy ≡ (rect.now.hi.y -ℤ rect.now.lo.y) +ℤ pos 1 }
{
    let back = rect.hi.vector_to(rect.lo);
    let across = rect.lo.vector_to(rect.hi);
    Wide {
        dx: back.dx - 1,
        dy: across.dy + 1,
    }
}

/// The vector, turned into the first quadrant by its signs.
fn unsigned(v: Vector) -> Vector
    ensures dx { result.dx ≡ pos (nat_abs v.dx) }
    ensures dy { result.dy ≡ pos (nat_abs v.dy) }
{
    Vector {
        dx: v.dx.abs(),
        dy: v.dy.abs(),
    }
}

/// The determinant of two vectors.
pub(crate) fn determinant(run: Vector, other: Wide) -> i64
    ensures value { result ≡ determinant run.dx run.dy other.dx other.dy }
    ensures small { IsWithin (2 ^ 60) result }
{
    let first = run.dx * other.dy;
    let second = run.dy * other.dx;
    first - second
}

/// Whether a number's absolute value is at most another one.
fn is_reached(off: i64, reach: i64) -> bool
    requires off_small { IsWithin (2 ^ 60) off }
    requires reach_small { IsWithin (2 ^ 60) reach }
    ensures { IsTrue result ↔ ((neg_ℤ reach ≤ℤ off) × (off ≤ℤ reach)) }
{
    -reach <= off && off <= reach
}

/// Whether the line of an edge comes as near to the centre of a rectangle as some corner of the square round its pixels.
fn is_near(rect: &Rect, line: &Edge) -> bool
    requires rect_in { AreInLimit rect.now.lo rect.now.hi }
    requires line_in { AreInLimit line.now.p line.now.q }
    ensures { IsTrue result ↔ IsNear rect.now line.now }
{
    let run = line.p.vector_to(line.q);
    let off = determinant(run, to_centre(line.p, rect));
    let reach = determinant(unsigned(run), diagonal(rect));
    is_reached(off, reach)
}

/// Whether a line may meet a pixel of a rectangle: its box shares a point with it, and it passes the square round it.
pub(crate) fn passes(rect: &Rect, line: &Edge) -> bool
    requires rect_in { AreInLimit rect.now.lo rect.now.hi }
    requires line_in { AreInLimit line.now.p line.now.q }
    ensures { (c : Pt) → IsIn rect.now c → IsMetOn line.now c → IsTrue result }
{
    line.bounds().shares_point(rect) && is_near(rect, line)
}

/// The lines that may meet a pixel of a rectangle.
pub fn passing<A: Allocator>(
    alloc: A,
    rect: &Rect,
    lines: &[Line],
) -> Result<Vec<Line, A>, NoMemory>
    requires { AreInLimit rect.now.lo rect.now.hi }
    ensures { IfOk result (λ v. ArePassing rect.now lines.now v.items) }
{
    let mut part = Vec::with_capacity(alloc, lines.len())?;
    for line in lines {
        if passes(rect, &line.edge) {
            part.push(*line)?;
        }
    }
    part.shrink_to_fit();
    Ok(part)
}

/// The greatest number of the lower half of those from low to high.
fn middle(low: i32, high: i32) -> i32
    requires low_in { IsWithin coordinate_limit low }
    requires high_in { IsWithin coordinate_limit high }
    requires apart { low <ℤ high }
    ensures from { low ≤ℤ result }
    ensures below { result <ℤ high }
{
    low + (high - low) / 2
}

/// The left and the right half of a rectangle.
fn columns(rect: &Rect) -> (Rect, Rect)
    requires rect_in { AreInLimit rect.now.lo rect.now.hi }
    requires apart { rect.now.lo.x <ℤ rect.now.hi.x }
    ensures halves { AreHalves rect.now result.0 result.1 }
    ensures first_in { AreInLimit result.0.lo result.0.hi }
    ensures second_in { AreInLimit result.1.lo result.1.hi }
{
    let x = middle(rect.lo.x, rect.hi.x);
    let left = Rect {
        lo: rect.lo,
        hi: Pt { x, y: rect.hi.y },
    };
    let right = Rect {
        lo: Pt {
            x: x + 1,
            y: rect.lo.y,
        },
        hi: rect.hi,
    };
    (left, right)
}

/// The lower and the upper half of a rectangle.
fn rows(rect: &Rect) -> (Rect, Rect)
    requires rect_in { AreInLimit rect.now.lo rect.now.hi }
    requires apart { rect.now.lo.y <ℤ rect.now.hi.y }
    ensures halves { AreHalves rect.now result.0 result.1 }
    ensures first_in { AreInLimit result.0.lo result.0.hi }
    ensures second_in { AreInLimit result.1.lo result.1.hi }
{
    let y = middle(rect.lo.y, rect.hi.y);
    let low = Rect {
        lo: rect.lo,
        hi: Pt { x: rect.hi.x, y },
    };
    let high = Rect {
        lo: Pt {
            x: rect.lo.x,
            y: y + 1,
        },
        hi: rect.hi,
    };
    (low, high)
}

/// How many of some lines each of two rectangles has, one of each some being asked, both numbers added up.
fn shared(first: &Rect, second: &Rect, lines: &[Line]) -> usize
    requires first_in { AreInLimit first.now.lo first.now.hi }
    requires second_in { AreInLimit second.now.lo second.now.hi }
{
    let step = lines.len() / SAMPLE;
    let mut count = 0;
    for k in 0..SAMPLE {
        if k * step < lines.len() {
            let line = &lines[k * step];
            if passes(first, &line.edge) {
                count += 1;
            }
            if passes(second, &line.edge) {
                count += 1;
            }
        }
    }
    count
}

/// Two halves of a rectangle, those that have fewer of the lines in common. Only a single pixel has none.
pub fn cut(rect: &Rect, lines: &[Line]) -> Option<(Rect, Rect)>
    requires { AreInLimit rect.now.lo rect.now.hi }
    ensures { MatchOption result (IsOnePixel rect.now) (λ h. AreHalves rect.now h.0 h.1 × AreInLimit h.0.lo h.0.hi × AreInLimit h.1.lo h.1.hi) }
{
    if rect.lo.x < rect.hi.x {
        let (left, right) = columns(rect);
        if rect.lo.y < rect.hi.y {
            let (low, high) = rows(rect);
            if shared(&low, &high, lines) < shared(&left, &right, lines) {
                return Some((low, high));
            }
        }
        return Some((left, right));
    }
    if rect.lo.y < rect.hi.y {
        let (low, high) = rows(rect);
        return Some((low, high));
    }
    None
}

/// The part of a rectangle within the coordinate limit.
pub fn within_limit(rect: &Rect) -> Option<Rect>
    ensures { MatchOption result ((c : Pt) → InLimit c → IsIn rect.now c → ⊥) (λ part. IsPartInLimit rect.now part) }
{
    let left = rect.lo.x.max(-COORDINATE_LIMIT);
    let bottom = rect.lo.y.max(-COORDINATE_LIMIT);
    let right = rect.hi.x.min(COORDINATE_LIMIT);
    let top = rect.hi.y.min(COORDINATE_LIMIT);
    if left <= right && bottom <= top {
        Some(Rect {
            lo: Pt { x: left, y: bottom },
            hi: Pt { x: right, y: top },
        })
    } else {
        None
    }
}
