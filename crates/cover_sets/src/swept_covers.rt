//! The cover sets on both sides of all edges, by one way along a sweep.

ghost use Rattle.std.specs.Prelude.{◌<◌, ◌≤◌, ℕ, All, AllPairs, IfOk, length, map};
ghost use Rattle.label_sweep.specs.Swept.{AreSwept};
ghost use Rattle.cover_law.specs.Cover.{AreBorders, bordered, edges_in};
ghost use Rattle.cover_sets.specs.Covers.{AreCovers};

use crate::edge_covers::{Covers, columns_of};
use cover_law::Border;
use geom::NoMemory;
use label_sweep::SweptEdge;
use std::alloc::Allocator;

/// The cover sets on both sides of each border. `features` has those of all borders, below 2^31 - 1, and `swept` has each edge behind the one
/// beside it. In n log n steps and those of the sets (`Sets::beyond`).
pub fn covers<A: Allocator + Copy>(
    alloc: A,
    borders: &[Border],
    features: &[u32],
    swept: &[SweptEdge],
) -> Result<Covers<A>, NoMemory>
    requires borders { AreBorders (map (bordered features.now) borders.now) }
    requires inside { All (λ b. (b.from ≤ b.to) × (b.to ≤ length features.now)) borders.now }
    requires ordered { All (λ b. AllPairs (λ f g. f < g) (bordered features.now b).features) borders.now }
    requires below { All (λ f. f < 2147483647) features.now }
    requires swept { AreSwept (edges_in (map (bordered features.now) borders.now)) swept.now }
    ensures { (count : ℕ) → All (λ f. f < count) features.now → IfOk result (λ c. AreCovers count (map (bordered features.now) borders.now) c.sets c.left.items c.right.items) }
{
    let columns = columns_of(alloc, borders)?;
    let mut covers = Covers::new(alloc, borders.len())?;
    let mut last = 0;
    for one in swept {
        last = covers.pass(borders, &columns, features, *one, last)?;
    }
    Ok(covers)
}
