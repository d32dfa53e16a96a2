//! The pixel of the common point of two segments.

ghost use Rattle.std.specs.Prelude.{◌≡◌, ◌↔◌, ◌^◌, ◌⊎◌, IsTrue, ℤ, pos, ◌+ℤ◌, ◌-ℤ◌, ◌*ℤ◌, ◌≤ℤ◌, ◌<ℤ◌, neg_ℤ};
ghost use Rattle.geom.specs.Limit.{AreInLimit, IsQuotientWithin, IsWithin, coordinate_limit};
ghost use Rattle.geom.specs.Hot.{CrossIn};
ghost use Rattle.geom.specs.Pixel.{nearest};
ghost use Rattle.geom.specs.declared.point.Pt.{Pt};
ghost use Rattle.crossing.specs.Crossing.{CrossesAt};

use geom::{Pt, RationalPoint, Seg, wide_product};

/// The pixel of the common point of two segments, unless they are parallel or have none.
pub fn cross(s: &Seg, t: &Seg) -> Option<Pt>
    requires s_in { AreInLimit s.now.a s.now.b }
    requires t_in { AreInLimit t.now.a t.now.b }
    ensures { (p : Pt) → (result ≡ Some p) ↔ CrossIn s.now t.now p }
{
    let det = s.turn(t);
    let e = t.side(s.a);
    let f = s.side(t.a);
    if det > 0 {
        crossing_at(s, det, e, negated(f))
    } else if det < 0 {
        crossing_at(s, negated(det), negated(e), f)
    } else {
        None
    }
}

/// The pixel of the point of s at e / det, where e / det and f / det are from 0 to 1.
fn crossing_at(s: &Seg, det: i64, e: i64, f: i64) -> Option<Pt>
    requires s_in { AreInLimit s.now.a s.now.b }
    requires det_small { IsWithin (2 ^ 59) det }
    requires positive { pos 0 <ℤ det }
    ensures { (p : Pt) → (result ≡ Some p) ↔ CrossesAt s.now.a s.now.b det e f p }
{
    if is_ratio(e, det) && is_ratio(f, det) {
        Some(pixel_at(s, det, e))
    } else {
        None
    }
}

/// Whether m / n is from 0 to 1.
fn is_ratio(m: i64, n: i64) -> bool
    ensures { IsTrue result ↔ ((pos 0 ≤ℤ m) × (m ≤ℤ n)) }
{
    0 <= m && m <= n
}

/// The pixel of the point of s at e / det. An end is its own pixel, without a division.
fn pixel_at(s: &Seg, det: i64, e: i64) -> Pt
    requires s_in { AreInLimit s.now.a s.now.b }
    requires det_small { IsWithin (2 ^ 59) det }
    requires positive { pos 0 <ℤ det }
    requires low { pos 0 ≤ℤ e }
    requires high { e ≤ℤ det }
    ensures x { result.x ≡ nearest ((det *ℤ s.now.a.x) +ℤ (e *ℤ (s.now.b.x -ℤ s.now.a.x))) det }
    ensures y { result.y ≡ nearest ((det *ℤ s.now.a.y) +ℤ (e *ℤ (s.now.b.y -ℤ s.now.a.y))) det }
{
    if e == 0 {
        s.a
    } else if e == det {
        s.b
    } else {
        point_at(s, det, e).pixel()
    }
}

/// The point of s at e / det.
fn point_at(s: &Seg, det: i64, e: i64) -> RationalPoint
    requires s_in { AreInLimit s.now.a s.now.b }
    requires det_small { IsWithin (2 ^ 59) det }
    requires positive { pos 0 <ℤ det }
    requires low { pos 0 ≤ℤ e }
    requires high { e ≤ℤ det }
    ensures x { result.x ≡ (det *ℤ s.now.a.x) +ℤ (e *ℤ (s.now.b.x -ℤ s.now.a.x)) }
    ensures y { result.y ≡ (det *ℤ s.now.a.y) +ℤ (e *ℤ (s.now.b.y -ℤ s.now.a.y)) }
    ensures n { result.n ≡ det }
    ensures x_in { IsQuotientWithin coordinate_limit result.x det }
    ensures y_in { IsQuotientWithin coordinate_limit result.y det }
{
    RationalPoint {
        x: numerator_at(s.a.x, s.b.x, det, e),
        y: numerator_at(s.a.y, s.b.y, det, e),
        n: det,
    }
}

/// The numerator of start + (e / det) (end - start) over det.
fn numerator_at(start: i32, end: i32, det: i64, e: i64) -> i128
    requires start_in { IsWithin coordinate_limit start }
    requires end_in { IsWithin coordinate_limit end }
    requires det_small { IsWithin (2 ^ 59) det }
    requires positive { pos 0 <ℤ det }
    requires low { pos 0 ≤ℤ e }
    requires high { e ≤ℤ det }
    ensures value { result ≡ (det *ℤ start) +ℤ (e *ℤ (end -ℤ start)) }
    ensures within { IsQuotientWithin coordinate_limit result det }
{
    let first = wide_product(det, i64::from(start));
    let rest = wide_product(e, difference(end, start));
    first + rest
}

/// The difference of two coordinates.
fn difference(x: i32, y: i32) -> i64
    ensures { result ≡ x -ℤ y }
{
    i64::from(x) - i64::from(y)
}

/// The negative of a determinant.
fn negated(x: i64) -> i64
    requires { IsWithin (2 ^ 59) x }
    ensures value { result ≡ neg_ℤ x }
    ensures small { IsWithin (2 ^ 59) result }
{
    -x
}
