//! Which strip a column and a point lie in.

ghost use Rattle.std.specs.Prelude.{◌≡◌, ◌≤◌, length};
ghost use Rattle.strips_law.specs.Strips.{strip_at, strip_of};

use geom::Pt;

/// The strip of a column: how many of the cuts are not past it.
pub fn strip_of(cuts: &[i32], x: i32) -> usize
    ensures value { result ≡ strip_of cuts.now x }
    ensures within { result ≤ length cuts.now }
{
    cuts.iter().filter(|cut| **cut <= x).count()
}

/// The strip of a point.
pub fn strip_at(cuts: &[i32], p: Pt) -> usize
    ensures value { result ≡ strip_at cuts.now p }
    ensures within { result ≤ length cuts.now }
{
    strip_of(cuts, p.x)
}
