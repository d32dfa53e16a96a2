//! Shells and holes.

ghost use Rattle.std.specs.Prelude.{◌≡◌, ◌↔◌, ◌+◌, ◌<◌, ◌≤◌, All, IsTrue, if◌then◌else◌, int_lt, length, nat_lt, pos, slice_index_or};
ghost use Rattle.geom.specs.Determinant.{side};
ghost use Rattle.geom.specs.Holes.{IsHole};
ghost use Rattle.polygonize.specs.Next.{edge_at, ring_of};
ghost use Rattle.polygonize.specs.Number.{IsVertex};

use crate::angle::side_of;
use crate::closing_edges::ClosingEdges;

/// The place after another one in a ring of n.
fn following(n: usize, i: usize) -> usize
    requires { i < n }
    ensures value { result ≡ (if nat_lt (i + 1) n then i + 1 else 0) }
    ensures inside { result < n }
{
    if i + 1 < n { i + 1 } else { 0 }
}

/// Whether the ring turns to the right at its vertex at the place i: the next edge lies counter-clockwise of the way back.
fn turns_right(edges: ClosingEdges<'_>, before: u32, at: u32, after: u32) -> bool
    requires before_in { before < length edges.list.now }
    requires at_in { at < length edges.list.now }
    requires after_in { after < length edges.list.now }
    ensures { result ≡ int_lt (pos 0) (side (edge_at edges.entry.list.now at).from (edge_at edges.entry.list.now before).from (edge_at edges.entry.list.now after).from) }
{
    side_of(
        edges.list[at as usize].from,
        edges.list[before as usize].from,
        edges.list[after as usize].from,
    ) > 0
}

/// Whether a ring of vertices, begun at its least one, is a hole.
pub fn is_hole(edges: ClosingEdges<'_>, ring: &[u32]) -> bool
    requires vertices { All (IsVertex edges.list.now) ring.now }
    requires least { All (λ k. slice_index_or ring.now 0 0 ≤ k) ring.now }
    ensures { IsTrue result ↔ IsHole (ring_of edges.entry.list.now ring.now) }
{
    for i in 0..ring.len() {
        let at = following(ring.len(), i);
        let after = following(ring.len(), at);
        if ring[at] == ring[0] && turns_right(edges, ring[i], ring[at], ring[after]) {
            return true;
        }
    }
    false
}
