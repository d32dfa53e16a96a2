//! How a verdict is found: by a search over the edges near the tile, from left to right.

ghost use Rattle.std.specs.Prelude.{ℕ, ◌≡◌, ◌↔◌, ◌<◌, ◌<ℤ◌, All, AllPairs, IfOk, IsTrue, MatchBool, length};
ghost use Rattle.geom.specs.Limit.{AreInLimit};
ghost use Rattle.geom.specs.declared.point.Pt.{Pt};
ghost use Rattle.geom.specs.EdgeOrder.{IsEdgeBefore};
ghost use Rattle.geom.specs.Noded.{IsBad};
ghost use Rattle.geom.specs.Rounded.{edges_of};
ghost use Rattle.grid.specs.Tiles.{tile_count, Owns};
ghost use Rattle.hot_region.specs.Rects.{IsIn};
ghost use Rattle.noding_test.specs.Verdicts.{chosen_edges, common_corner, AreNear, IsLeastPair, IsOwnBad};
ghost use Rattle.noding_test.specs.Search.{IsFirstPartner};

use crate::meeting::meet_only_at_ends;
use crate::verdicts::Verdict;
use geom::{Counted, Edge, NoMemory, Pt, Rect};
use std::alloc::Allocator;
use tiling::Grid;

/// The least corner of the rectangle that the boxes of two edges have in common, where they have one.
fn common_corner(e: &Edge, f: &Edge) -> Pt
    ensures { result ≡ common_corner e.now f.now }
{
    Rect::spanned_by(e.bounds().lo, f.bounds().lo).hi
}

/// Whether two edges share a point that isn't a common end, and their pair belongs to the tile.
fn is_own_bad(tile: &Rect, e: &Edge, f: &Edge) -> bool
    requires e_in { AreInLimit e.now.p e.now.q }
    requires f_in { AreInLimit f.now.p f.now.q }
    ensures { MatchBool result (IsBad e.now f.now × IsIn tile.now (common_corner e.now f.now)) (¬ (IsBad e.now f.now × IsIn tile.now (common_corner e.now f.now))) }
{
    tile.holds(common_corner(e, f)) && !meet_only_at_ends(e, f)
}

/// Whether an edge ends to the left of where another one begins.
fn ends_before(e: &Edge, f: &Edge) -> bool
    ensures { IsTrue result ↔ (e.now.q.x <ℤ f.now.p.x) }
{
    e.q.x < f.p.x
}

/// The first edge after a place that makes a bad pair of the tile with the edge at the place. The edges are ascending, so
/// the search ends where edges begin to the right of that edge.
fn partner(tile: &Rect, edges: &[Edge], place: usize) -> Option<Edge>
    requires ascending { AllPairs IsEdgeBefore edges.now }
    requires limits { All (λ e. AreInLimit e.p e.q) edges.now }
    requires place { place < length edges.now }
    ensures { IsFirstPartner (IsIn tile.now) edges.now place result }
{
    let e = edges[place];
    for other in place + 1..edges.len() {
        let f = edges[other];
        if ends_before(&e, &f) {
            return None;
        }
        if is_own_bad(tile, &e, &f) {
            return Some(f);
        }
    }
    None
}

/// The least bad pair of a tile among ascending edges.
fn least_bad(tile: &Rect, edges: &[Edge]) -> Option<(Edge, Edge)>
    requires ascending { AllPairs IsEdgeBefore edges.now }
    requires limits { All (λ e. AreInLimit e.p e.q) edges.now }
    ensures { IsLeastPair (IsOwnBad (IsIn tile.now) edges.now) result }
{
    for place in 0..edges.len() {
        if let Some(other) = partner(tile, edges, place) {
            return Some((edges[place], other));
        }
    }
    None
}

/// The edges of these numbers.
fn near_edges<A: Allocator>(
    alloc: A,
    counted: &[Counted],
    numbers: &[u32],
) -> Result<Vec<Edge, A>, NoMemory>
    requires { All (λ n. n < length counted.now) numbers.now }
    ensures { IfOk result (λ v. v.items ≡ chosen_edges counted.now numbers.now) }
{
    let mut edges = Vec::new(alloc);
    for number in numbers {
        edges.push(counted[*number as usize].edge)?;
    }
    Ok(edges)
}

/// The verdict of a tile on ascending edges, found among those of these numbers: every edge whose box has a point of the tile
/// is among them.
pub fn verdict<A: Allocator>(
    alloc: A,
    grid: &Grid,
    number: u32,
    counted: &[Counted],
    numbers: &[u32],
) -> Result<Verdict<A>, NoMemory>
    requires number { number < tile_count grid.now }
    requires limits { All (λ c. AreInLimit c.edge.p c.edge.q) counted.now }
    requires ascending { AllPairs (λ c d. IsEdgeBefore c.edge d.edge) counted.now }
    requires near { AreNear grid.now number counted.now numbers.now }
    ensures number { IfOk result (λ v. v.number ≡ number) }
    ensures tile { IfOk result (λ v. (p : Pt) → IsIn v.tile p ↔ Owns grid.now number p) }
    ensures edges { IfOk result (λ v. v.edges.items ≡ chosen_edges counted.now numbers.now) }
    ensures bad { IfOk result (λ v. IsLeastPair (IsOwnBad (Owns grid.now number) (edges_of counted.now)) v.bad) }
{
    let tile = grid.rect(number);
    let edges = near_edges(alloc, counted, numbers)?;
    let bad = least_bad(&tile, &edges);
    Ok(Verdict {
        number,
        tile,
        edges,
        bad,
    })
}
