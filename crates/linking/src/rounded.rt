//! The rounded edges of two layers, with the numbers of the tiles that they were gathered from.

ghost use Rattle.std.specs.Prelude.{◌≡◌, ◌+◌, ◌<◌, [], All, AllPairs, IfOk};
ghost use Rattle.geom.specs.Rounded.{IsEdgeBefore};

use geom::{Counted, NoMemory};
use std::alloc::Allocator;

/// How many hot pixels a tile owns, and how many records it has.
#[derive(Clone, Copy, Debug, PartialEq, Eq)]
pub struct TileNumbers {
    pub hot: u32,
    pub records: u32,
}

/// Edges in order with their counts in both layers, of which one at least is above 0; each tile's numbers; and how many
/// tiles' pieces were made anew.
#[derive(Drop)]
pub struct Rounded<A: Allocator> {
    pub edges: Vec<Counted, A>,
    pub tiles: Vec<TileNumbers, A>,
    pub remade: u32,
    ghost ascending: { ∥ AllPairs (λ c d. IsEdgeBefore c.edge d.edge) edges.items ∥₁ },
    ghost counted: { All (λ c. 0 < c.in_a + c.in_b) edges.items },
}

impl<A: Allocator + Copy> Rounded<A> {
    /// Edges from elsewhere, ascending and each once. They have no tiles.
    pub fn of_edges(alloc: A, edges: &[Counted]) -> Result<Rounded<A>, NoMemory>
        requires ascending { AllPairs (λ c d. IsEdgeBefore c.edge d.edge) edges.now }
        requires counted { All (λ c. 0 < c.in_a + c.in_b) edges.now }
        ensures edges { IfOk result (λ r. r.edges.items ≡ edges.now) }
        ensures tiles { IfOk result (λ r. r.tiles.items ≡ []) }
        ensures remade { IfOk result (λ r. r.remade ≡ 0) }
    {
        let mut copy = Vec::new(alloc);
        copy.extend_from_slice(edges)?;
        Ok(Rounded {
            edges: copy,
            tiles: Vec::new(alloc),
            remade: 0,
        })
    }
}
