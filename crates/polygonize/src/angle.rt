//! The order of directions round a vertex, by exact comparisons.

ghost use Rattle.std.specs.Prelude.{◌≡◌, ◌≢◌, false, true};
ghost use Rattle.std.specs.Ordering.{is_lt};
ghost use Rattle.geom.specs.Determinant.{side};
ghost use Rattle.geom.specs.Limit.{InLimit};
ghost use Rattle.polygonize.specs.Clockwise.{half, less, met_before, sooner};

use geom::Pt;
use std::cmp::Ordering;

/// By x, then by y.
pub fn is_less(p: Pt, q: Pt) -> bool
    ensures { result ≡ less p q }
{
    p < q
}

pub fn are_same(p: Pt, q: Pt) -> bool
    ensures yes { result ≡ true → p ≡ q }
    ensures no { result ≡ false → p ≢ q }
{
    p == q
}

/// The determinant of a - v and b - v: above 0 where b lies counter-clockwise of a.
pub fn side_of(v: Pt, a: Pt, b: Pt) -> i64
    requires v_in { InLimit v }
    requires a_in { InLimit a }
    requires b_in { InLimit b }
    ensures { result ≡ side v a b }
{
    v.vector_to(a).determinant(v.vector_to(b))
}

/// Which half turn from straight up has a; the last for v itself.
pub fn half_turn(v: Pt, a: Pt) -> u8
    ensures { result ≡ half v a }
{
    if is_less(v, a) {
        0
    } else if is_less(a, v) {
        1
    } else {
        2
    }
}

/// The order round v, clockwise from straight up.
pub fn clockwise(v: Pt, a: Pt, b: Pt) -> Ordering
    requires v_in { InLimit v }
    requires a_in { InLimit a }
    requires b_in { InLimit b }
    ensures { is_lt result ≡ sooner v a b }
{
    let first = half_turn(v, a);
    let second = half_turn(v, b);
    if first < second {
        return Ordering::Less;
    }
    if second < first {
        return Ordering::Greater;
    }
    if side_of(v, a, b) < 0 {
        Ordering::Less
    } else {
        Ordering::Greater
    }
}

fn is_sooner(v: Pt, a: Pt, b: Pt) -> bool
    requires v_in { InLimit v }
    requires a_in { InLimit a }
    requires b_in { InLimit b }
    ensures { result ≡ sooner v a b }
{
    clockwise(v, a, b).is_lt()
}

/// Whether a is met before b, turning clockwise round v from u.
pub fn is_met_before(v: Pt, u: Pt, a: Pt, b: Pt) -> bool
    requires v_in { InLimit v }
    requires u_in { InLimit u }
    requires a_in { InLimit a }
    requires b_in { InLimit b }
    ensures { result ≡ met_before v u a b }
{
    let from_u = is_sooner(v, u, a);
    let to_b = is_sooner(v, a, b);
    let to_u = is_sooner(v, b, u);
    from_u && to_b || to_b && to_u || to_u && from_u
}
