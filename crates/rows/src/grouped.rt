//! The directed edges of all rows by their sets.

ghost use Rattle.std.specs.Prelude.{◌≡◌, ℕ, List, AllPairs, IfOk, length, map, sum_by};
ghost use Rattle.cover_law.specs.Cover.{Bordered, bordered};
ghost use Rattle.cover_law.specs.Rows.{AreRows, Row};
ghost use Rattle.cover_sets.specs.Sets.{set_of};
ghost use Rattle.rows.specs.Made.{AreReady, ids_in};
ghost use Rattle.rows.specs.RowEdges.{AreCoveredBorders, AreEdgesOfRows, IsRowEdgeBefore};
ghost use Rattle.rows.specs.RowSets.{AreRowSets};

use crate::edges::{RowEdge, edges_in_order};
use crate::runs::{RowSet, ids_of, row_sets};
use cover_law::Border;
use cover_sets::Sets;
use geom::NoMemory;
use std::alloc::Allocator;

/// The directed edges of all rows, and the sets of the rows, each with where its edges stand.
#[derive(Debug, Drop)]
pub struct RowEdges<A: Allocator> {
    pub edges: Vec<RowEdge, A>,
    pub sets: Vec<RowSet, A>,
}

/// The directed edges of all rows, by the numbers of the cover sets on the left and on the right of each border. Each border is to be that
/// of some feature, so that these sets differ.
pub fn row_edges<A: Allocator + Copy>(
    alloc: A,
    borders: &[Border],
    left: &[u32],
    right: &[u32],
) -> Result<RowEdges<A>, NoMemory>
    requires left { length left.now ≡ length borders.now }
    requires right { length right.now ≡ length borders.now }
    ensures ascending { IfOk result (λ r. AllPairs IsRowEdgeBefore r.edges.items) }
    ensures sets { IfOk result (λ r. AreRowSets r.edges.items r.sets.items) }
    ensures edges { (count : ℕ) (features : List ℕ) (sets : List (List ℕ)) → AreCoveredBorders count features borders.now sets left.now right.now → IfOk result (λ r. AreEdgesOfRows count (map (bordered features) borders.now) sets r.edges.items) }
    ensures ready { (count : ℕ) (features : List ℕ) (sets : List (List ℕ)) → AreCoveredBorders count features borders.now sets left.now right.now → IfOk result (λ r. AreReady sets r.edges.items r.sets.items) }
{
    let edges = edges_in_order(alloc, borders, left, right)?;
    let sets = row_sets(alloc, &edges)?;
    Ok(RowEdges { edges, sets })
}

/// How many features all rows have together, in a look at each row's set.
pub fn count_ids<A: Allocator + Copy>(sets: &Sets<A>, row_edges: &RowEdges<A>) -> u64
    requires { AreReady sets.now row_edges.now.edges.items row_edges.now.sets.items }
    ensures sets { result ≡ sum_by (λ r. length (set_of sets.now r.set)) row_edges.now.sets.items }
    ensures rows { (count : ℕ) (borders : List Bordered) (rows : List Row) → AreEdgesOfRows count borders sets.now row_edges.now.edges.items → AreRows count borders rows → result ≡ ids_in rows }
{
    ids_of(sets, &row_edges.sets)
}
