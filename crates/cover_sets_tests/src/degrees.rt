//! Whether every point is an end of an even number of edges of each feature.

ghost use Rattle.std.specs.Prelude.{◌≡◌, All, IsTrue, count_by};
ghost use Rattle.cover_law.specs.Cover.{has};
ghost use Rattle.cover_sets_tests.specs.Deciding.{HasEvenEnds, IsListed, ends_at, is_end};

use cover_law::Border;
use geom::Pt;

/// Whether a feature is among these.
fn has(features: &[u32], f: u32) -> bool
    ensures { result ≡ has f features.now }
{
    features.contains(&f)
}

/// Whether a point is an end of an edge.
fn is_end(v: Pt, b: &Border) -> bool
    ensures { result ≡ is_end v b.now }
{
    b.edge.p == v || b.edge.q == v
}

/// Whether an edge is a border of the feature and ends at a point.
fn ends_at(b: &Border, features: &[u32], f: u32, v: Pt) -> bool
    requires { IsListed features.now b.now }
    ensures { result ≡ ends_at features.now f v b.now }
{
    has(&features[b.from..b.to], f) && is_end(v, b)
}

/// The number of borders of the feature that end at a point.
fn degree(borders: &[Border], features: &[u32], f: u32, v: Pt) -> usize
    requires { All (IsListed features.now) borders.now }
    ensures { result ≡ count_by (ends_at features.now f v) borders.now }
{
    let mut count = 0;
    for b in borders {
        if ends_at(b, features, f, v) {
            count += 1;
        }
    }
    count
}

/// Whether both ends of each edge are ends of an even number of borders of the feature.
fn ends_are_even(borders: &[Border], features: &[u32], f: u32) -> bool
    requires { All (IsListed features.now) borders.now }
    ensures { IsTrue result → HasEvenEnds features.now borders.now f }
{
    for b in borders {
        if degree(borders, features, f, b.edge.p) % 2 == 1
            || degree(borders, features, f, b.edge.q) % 2 == 1
        {
            return false;
        }
    }
    true
}

/// Whether every point is an end of an even number of borders of each feature.
pub fn have_even_degrees(borders: &[Border], features: &[u32]) -> bool
    requires { All (IsListed features.now) borders.now }
    ensures { IsTrue result → All (HasEvenEnds features.now borders.now) features.now }
{
    for f in features {
        if !ends_are_even(borders, features, *f) {
            return false;
        }
    }
    true
}
