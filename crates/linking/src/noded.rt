//! Noded edges, known by their type.

ghost use Rattle.std.specs.Prelude.{◌≡◌, ◌+◌, ◌<◌, All, AllPairs};
ghost use Rattle.geom.specs.Noded.{IsNoded};
ghost use Rattle.geom.specs.Rounded.{edges_of, IsEdgeBefore};

use crate::rounded::{Rounded, TileNumbers};
use geom::Counted;
use std::alloc::Allocator;

/// Rounded edges with their tiles' numbers, of which no two share a point but a common end.
#[derive(Drop)]
pub struct Noded<A: Allocator> {
    pub edges: Vec<Counted, A>,
    pub tiles: Vec<TileNumbers, A>,
    pub remade: u32,
    ghost ascending: { ∥ AllPairs (λ c d. IsEdgeBefore c.edge d.edge) edges.items ∥₁ },
    ghost counted: { All (λ c. 0 < c.in_a + c.in_b) edges.items },
    ghost noded: { IsNoded (edges_of edges.items) },
}

/// The same edges, counts and numbers, where the edges are known to be noded. It takes no memory.
pub fn settled<A: Allocator>(rounded: Rounded<A>) -> Noded<A>
    requires { IsNoded (edges_of rounded.edges.items) }
    ensures edges { result.edges ≡ rounded.edges }
    ensures tiles { result.tiles ≡ rounded.tiles }
    ensures remade { result.remade ≡ rounded.remade }
{
    let Rounded {
        edges,
        tiles,
        remade,
    } = rounded;
    Noded {
        edges,
        tiles,
        remade,
    }
}
