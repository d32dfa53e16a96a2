//! Whether edges with features are borders, decided by a look at all pairs of them.

ghost use Rattle.std.specs.Prelude.{◌<◌, All, AllPairs, IsTrue, map};
ghost use Rattle.geom.specs.EdgeOrder.{IsEdgeBefore};
ghost use Rattle.geom.specs.Limit.{AreInLimit};
ghost use Rattle.cover_law.specs.Cover.{AreBorders, bordered};
ghost use Rattle.cover_sets_tests.specs.Deciding.{AreApart, IsListed, MeetAll};

use crate::degrees::have_even_degrees;
use cover_law::Border;
use geom::Edge;
use noding_test::meet_only_at_ends;

/// Whether these are features, ascending.
pub fn are_features(list: &[u32]) -> bool
    ensures ascending { IsTrue result → AllPairs (λ f g. f < g) list.now }
    ensures below { IsTrue result → All (λ f. f < 2147483647) list.now }
{
    let mut least = 0;
    for f in list {
        if *f < least || *f >= 2_147_483_647 {
            return false;
        }
        least = *f + 1;
    }
    true
}

/// Whether the features of an edge stand in the list, and ascend.
fn is_listed(b: &Border, features: &[u32]) -> bool
    ensures { IsTrue result → IsListed features.now b.now }
{
    b.from <= b.to && b.to <= features.len() && are_features(&features[b.from..b.to])
}

pub fn are_listed(borders: &[Border], features: &[u32]) -> bool
    ensures { IsTrue result → All (IsListed features.now) borders.now }
{
    borders.iter().all(|b| is_listed(b, features))
}

pub fn are_below(features: &[u32]) -> bool
    ensures { IsTrue result → All (λ f. f < 2147483647) features.now }
{
    features.iter().all(|f| *f < 2_147_483_647)
}

fn is_before(e: Edge, f: Edge) -> bool
    ensures { IsTrue result → IsEdgeBefore e f }
{
    e < f
}

fn are_before(borders: &[Border], f: Edge) -> bool
    ensures { IsTrue result → All (λ b. IsEdgeBefore b.edge f) borders.now }
{
    borders.iter().all(|b| is_before(b.edge, f))
}

fn are_ascending(borders: &[Border]) -> bool
    ensures { IsTrue result → AllPairs (λ b c. IsEdgeBefore b.edge c.edge) borders.now }
{
    for k in 0..borders.len() {
        if !are_before(&borders[..k], borders[k].edge) {
            return false;
        }
    }
    true
}

fn is_in_limit(e: Edge) -> bool
    ensures { IsTrue result → AreInLimit e.p e.q }
{
    e.p.is_in_limit() && e.q.is_in_limit()
}

fn are_in_limit(borders: &[Border]) -> bool
    ensures { IsTrue result → All (λ b. AreInLimit b.edge.p b.edge.q) borders.now }
{
    borders.iter().all(|b| is_in_limit(b.edge))
}

/// Whether two different edges share no point but a common end.
fn meet_at_ends(e: Edge, f: Edge) -> bool
    ensures { IsTrue result → AreApart e f }
{
    if e == f {
        return true;
    }
    is_in_limit(e) && is_in_limit(f) && meet_only_at_ends(&e, &f)
}

fn meet_all_at_ends(borders: &[Border], e: Edge) -> bool
    ensures { IsTrue result → MeetAll borders.now e }
{
    borders.iter().all(|b| meet_at_ends(e, b.edge))
}

fn are_noded(borders: &[Border]) -> bool
    ensures { IsTrue result → All (λ b. MeetAll borders.now b.edge) borders.now }
{
    borders.iter().all(|b| meet_all_at_ends(borders, b.edge))
}

/// Whether edges whose features are listed are borders.
pub fn are_borders(borders: &[Border], features: &[u32]) -> bool
    requires { All (IsListed features.now) borders.now }
    ensures { IsTrue result → AreBorders (map (bordered features.now) borders.now) }
{
    if !are_ascending(borders) {
        return false;
    }
    if !are_in_limit(borders) {
        return false;
    }
    if !are_noded(borders) {
        return false;
    }
    have_even_degrees(borders, features)
}
