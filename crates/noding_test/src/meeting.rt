//! Whether two edges share a point that isn't a common end.

ghost use Rattle.std.specs.Prelude.{◌≡◌, ◌⊎◌, ◌↔◌, IfSome, IsTrue, MatchBool, pos, ◌<ℤ◌};
ghost use Rattle.std.specs.Bool.{OnFalse};
ghost use Rattle.geom.specs.Limit.{AreInLimit};
ghost use Rattle.geom.specs.Order.{IsBefore, IsUpTo};
ghost use Rattle.geom.specs.Noded.{IsBad, MeetOnlyAtEnds};

use geom::{Edge, Pt};

/// Whether every common point of two edges is an end of both. An edge doesn't meet itself so.
pub fn meet_only_at_ends(e: &Edge, f: &Edge) -> bool
    requires e_in { AreInLimit e.now.p e.now.q }
    requires f_in { AreInLimit f.now.p f.now.q }
    ensures exact { IsTrue result ↔ MeetOnlyAtEnds e.now f.now }
    ensures bad { OnFalse result (IsBad e.now f.now) }
{
    let to_p = e.side(f.p);
    let to_q = e.side(f.q);
    if are_zero(to_p, to_q) {
        return follow_each_other(e, f);
    }
    if are_on_one_side(to_p, to_q) {
        return true;
    }
    let from_p = f.side(e.p);
    let from_q = f.side(e.q);
    if are_on_one_side(from_p, from_q) {
        return true;
    }
    has_zero(to_p, to_q) && has_zero(from_p, from_q)
}

/// Whether one of two edges ends before or where the other begins, in the order of points. On one line that is the
/// order along it.
fn follow_each_other(e: &Edge, f: &Edge) -> bool
    ensures { MatchBool result (IsUpTo e.now.q f.now.p ⊎ IsUpTo f.now.q e.now.p) (IsBefore f.now.p e.now.q × IsBefore e.now.p f.now.q) }
{
    is_up_to(e.q, f.p) || is_up_to(f.q, e.p)
}

fn is_up_to(p: Pt, q: Pt) -> bool
    ensures { MatchBool result (IsUpTo p q) (IsBefore q p) }
{
    p <= q
}

fn are_zero(a: i64, b: i64) -> bool
    ensures { IsTrue result ↔ ((a ≡ pos 0) × (b ≡ pos 0)) }
{
    a == 0 && b == 0
}

fn has_zero(a: i64, b: i64) -> bool
    ensures { IsTrue result ↔ ((a ≡ pos 0) ⊎ (b ≡ pos 0)) }
{
    a == 0 || b == 0
}

fn are_on_one_side(a: i64, b: i64) -> bool
    ensures { IsTrue result ↔ (((pos 0 <ℤ a) × (pos 0 <ℤ b)) ⊎ ((a <ℤ pos 0) × (b <ℤ pos 0))) }
{
    (a > 0 && b > 0) || (a < 0 && b < 0)
}
