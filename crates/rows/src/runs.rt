//! The cover sets that have a row: runs of row edges with one set, one after another.

ghost use Rattle.std.specs.Prelude.{◌≡◌, ◌≢◌, ◌+◌, ◌<◌, ◌≤◌, All, AllPairs, IfOk, length, slice_index_or, sum_by};
ghost use Rattle.std.specs.List.{AllWithin};
ghost use Rattle.cover_sets.specs.Sets.{AreSets, IsNumber, set_of};
ghost use Rattle.rows.specs.RowEdges.{IsRowEdgeBefore};
ghost use Rattle.rows.specs.RowSets.{AreRowSets};
ghost use Rattle.rows.specs.declared.edges.RowEdge.{RowEdge};

use crate::edges::RowEdge;
use cover_sets::Sets;
use geom::NoMemory;
use std::alloc::Allocator;

/// The number of a cover set, and from where to before where the directed edges of its row stand.
#[derive(Clone, Copy, Debug, PartialEq, Eq, PartialOrd, Ord)]
pub struct RowSet {
    pub set: u32,
    pub from: usize,
    pub to: usize,
}

/// The place of the first edge behind those of a set that begin at a place.
fn end_of_run(edges: &[RowEdge], from: usize, set: u32) -> usize
    requires begins { from < length edges.now }
    requires first { AllWithin (λ e. e.set ≡ set) edges.now from (from + 1) }
    ensures after { from < result }
    ensures within { result ≤ length edges.now }
    ensures run { AllWithin (λ e. e.set ≡ set) edges.now from result }
    ensures past { (d : RowEdge) → result < length edges.now → (slice_index_or edges.now result d).set ≢ set }
{
    let mut to = from + 1;
    while to < edges.len() && edges[to].set == set {
        to += 1;
    }
    to
}

/// The sets of row edges in order, each with where its edges stand.
pub fn row_sets<A: Allocator>(alloc: A, edges: &[RowEdge]) -> Result<Vec<RowSet, A>, NoMemory>
    requires { AllPairs IsRowEdgeBefore edges.now }
    ensures { IfOk result (λ list. AreRowSets edges.now list.items) }
{
    let mut list = Vec::new(alloc);
    let mut from = 0;
    while from < edges.len() {
        let set = edges[from].set;
        let to = end_of_run(edges, from, set);
        list.push(RowSet { set, from, to })?;
        from = to;
    }
    Ok(list)
}

/// How many features the sets have together.
pub fn ids_of<A: Allocator + Copy>(sets: &Sets<A>, row_sets: &[RowSet]) -> u64
    requires sets { AreSets sets.now }
    requires ascending { AllPairs (λ r s. r.set < s.set) row_sets.now }
    requires numbers { All (λ r. IsNumber sets.now r.set) row_sets.now }
    ensures { result ≡ sum_by (λ r. length (set_of sets.now r.set)) row_sets.now }
{
    let mut ids = 0u64;
    for row_set in row_sets {
        ids += sets.size(row_set.set);
    }
    ids
}
