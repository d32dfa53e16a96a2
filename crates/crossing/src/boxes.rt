//! Whether the boxes of two segments share a point.

ghost use Rattle.std.specs.Prelude.{◌≡◌, ◌↔◌, IsTrue, int_le};
ghost use Rattle.std.specs.Int.{int_min, int_max};
ghost use Rattle.geom.specs.declared.point.Pt.{Pt};
ghost use Rattle.geom.specs.Box.{ShareAPoint, greatest_corner, least_corner};
ghost use Rattle.geom.specs.Hot.{CrossIn};
ghost use Rattle.crossing.specs.Boxes.{boxes_meet, spans_meet};

use geom::Seg;

/// Whether the closed boxes of two segments share a point. Where they don't, `cross` answers None.
pub fn may_meet(s: &Seg, t: &Seg) -> bool
    ensures value { result ≡ boxes_meet s.now t.now }
    ensures exact { IsTrue result ↔ ShareAPoint (least_corner s.now.a s.now.b) (greatest_corner s.now.a s.now.b) (least_corner t.now.a t.now.b) (greatest_corner t.now.a t.now.b) }
    ensures crossing { (c : Pt) → CrossIn s.now t.now c → IsTrue result }
{
    boxes_meet(s, t)
}

/// Whether the columns of two segments have one in common, and their rows too.
fn boxes_meet(s: &Seg, t: &Seg) -> bool
    ensures { result ≡ boxes_meet s.now t.now }
{
    spans_meet(s.a.x, s.b.x, t.a.x, t.b.x) && spans_meet(s.a.y, s.b.y, t.a.y, t.b.y)
}

#[tactic(auto, unfolding(crate::specs::Boxes::spans_meet))]
/// Whether the numbers between a and b and those between c and d have one in common.
fn spans_meet(a: i32, b: i32, c: i32, d: i32) -> bool
    ensures { result ≡ spans_meet a b c d }
{
    reaches(a, b, c, d) && reaches(c, d, a, b)
}

/// Whether the lesser one of a and b isn't past the greater one of c and d.
fn reaches(a: i32, b: i32, c: i32, d: i32) -> bool
    ensures { result ≡ int_le (int_min a b) (int_max c d) }
{
    let low = a.min(b);
    let high = c.max(d);
    low <= high
}
