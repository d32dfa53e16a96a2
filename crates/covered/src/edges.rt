//! The directed edges of a result, by the cover sets on both sides of each edge.

ghost use Rattle.std.specs.Prelude.{◌≡◌, ◌↔◌, ℕ, List, All, AllPairs, Contains, IfOk, length, map};
ghost use Rattle.geom.specs.declared.directed.DirectedEdge.{DirectedEdge};
ghost use Rattle.geom.specs.Directed.{IsDirectedBefore};
ghost use Rattle.cover_law.specs.Cover.{bordered};
ghost use Rattle.cover_sets.specs.Covers.{AreCovers};
ghost use Rattle.cover_sets.specs.Sets.{IsNumber};
ghost use Rattle.covered.specs.Covered.{AreCoveredEdges};
ghost use Rattle.covered.specs.Sides.{directed_of};

use crate::inside::directions;
use cover_law::Border;
use cover_sets::Covers;
use geom::{DirectedEdge, NoMemory, Op, add_directions};
use label_sweep::in_order;
use std::alloc::Allocator;

/// All edges in their directions.
fn directed_edges<A: Allocator + Copy>(
    alloc: A,
    op: Op,
    split: u32,
    borders: &[Border],
    covers: &Covers<A>,
) -> Result<Vec<DirectedEdge, A>, NoMemory>
    requires left { length covers.now.left.items ≡ length borders.now }
    requires right { length covers.now.right.items ≡ length borders.now }
    requires left_numbers { All (IsNumber covers.now.sets) covers.now.left.items }
    requires right_numbers { All (IsNumber covers.now.sets) covers.now.right.items }
    ensures { IfOk result (λ list. list.items ≡ directed_of op split covers.now.sets borders.now covers.now.left.items covers.now.right.items) }
{
    let mut list = Vec::new(alloc);
    for number in 0..borders.len() {
        let left = covers.left[number];
        let right = covers.right[number];
        let way = directions(op, split, &covers.sets, left, right);
        add_directions(&mut list, borders[number].edge, way)?;
    }
    Ok(list)
}

/// The directed edges of the result of an operation on two layers that are read as covered, ascending by start, then by end. `covers` has the
/// cover sets on both sides of each border, and the features of the first layer are those below `split`. In n log n steps, and at most 31 for
/// each side of an edge, however large the sets are.
pub fn covered_edges<A: Allocator + Copy>(
    alloc: A,
    op: Op,
    split: u32,
    borders: &[Border],
    covers: &Covers<A>,
) -> Result<Vec<DirectedEdge, A>, NoMemory>
    requires left { length covers.now.left.items ≡ length borders.now }
    requires right { length covers.now.right.items ≡ length borders.now }
    requires left_numbers { All (IsNumber covers.now.sets) covers.now.left.items }
    requires right_numbers { All (IsNumber covers.now.sets) covers.now.right.items }
    ensures ascending { IfOk result (λ list. AllPairs IsDirectedBefore list.items) }
    ensures edges { (count : ℕ) (features : List ℕ) → AreCovers count (map (bordered features) borders.now) covers.now.sets covers.now.left.items covers.now.right.items
        → IfOk result (λ list. AreCoveredEdges op split count (map (bordered features) borders.now) list.items) }
{
    let list = directed_edges(alloc, op, split, borders, covers)?;
    Ok(in_order(list))
}
