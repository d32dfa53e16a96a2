//! Whether row edges are ready for their rows, decided by a look at all pairs of each row's edges.

ghost use Rattle.std.specs.Prelude.{◌≡◌, ◌<◌, ◌≤◌, ℕ, List, All, AllPairs, IfOk, IsTrue, length};
ghost use Rattle.geom.specs.Directed.{IsDirectedBefore};
ghost use Rattle.cover_sets.specs.Sets.{AreSets, IsNumber};
ghost use Rattle.rows.specs.Made.{AreReady, IsBound};
ghost use Rattle.rows.specs.RowEdges.{IsRowEdgeBefore};
ghost use Rattle.rows.specs.RowSets.{AreRowSets, edges_at};

use cover_sets::Sets;
use geom::{DirectedEdge, NoMemory};
use polygonize_tests::closing::{are_in_limit, closes};
use rows::{RowEdge, RowEdges, RowSet};
use std::alloc::Allocator;

fn directed_of<A: Allocator>(
    alloc: A,
    edges: &[RowEdge],
    row_set: RowSet,
) -> Result<Vec<DirectedEdge, A>, NoMemory>
    requires some { row_set.from < row_set.to }
    requires within { row_set.to ≤ length edges.now }
    ensures { IfOk result (λ list. list.items ≡ edges_at edges.now row_set) }
{
    let run = &edges[row_set.from..row_set.to];
    let mut list = Vec::new(alloc);
    for edge in run {
        list.push(edge.edge)?;
    }
    Ok(list)
}

/// Whether the edges of a set close and lie within the limit, and its number is one of these.
fn is_bound<A: Allocator + Copy>(
    alloc: A,
    edges: &[RowEdge],
    row_set: RowSet,
    numbers: &[u32],
) -> Result<bool, NoMemory>
    requires some { row_set.from < row_set.to }
    requires within { row_set.to ≤ length edges.now }
    requires ascending { AllPairs IsDirectedBefore (edges_at edges.now row_set) }
    ensures { IfOk result (λ yes. IsTrue yes → (sets : List (List ℕ)) → All (IsNumber sets) numbers.now → IsBound sets edges.now row_set) }
{
    let directed = directed_of(alloc, edges, row_set)?;
    let all_close = closes(alloc, &directed)?;
    Ok(all_close && are_in_limit(&directed) && numbers.contains(&row_set.set))
}

pub fn is_ready<A: Allocator + Copy>(
    alloc: A,
    sets: &Sets<A>,
    row_edges: &RowEdges<A>,
    numbers: &[u32],
) -> Result<bool, NoMemory>
    requires sets { AreSets sets.now }
    requires numbers { All (IsNumber sets.now) numbers.now }
    requires ascending { AllPairs IsRowEdgeBefore row_edges.now.edges.items }
    requires row_sets { AreRowSets row_edges.now.edges.items row_edges.now.sets.items }
    ensures { IfOk result (λ yes. IsTrue yes → AreReady sets.now row_edges.now.edges.items row_edges.now.sets.items) }
{
    let row_sets: &[RowSet] = &row_edges.sets;
    for row_set in row_sets {
        if !is_bound(alloc, &row_edges.edges, *row_set, numbers)? {
            return Ok(false);
        }
    }
    let _sets = sets;
    Ok(true)
}
