//! The directed edges of all rows: each with the number of the cover set on its left, grouped by these numbers.
//!
//! 1. An edge gives two: from its first end to its second with the set on its left, and back with the set on its right. What has the empty
//!    set on its left bounds no row (`sides_of`).
//! 2. They are brought in order, by their sets first (`in_order`), in linear time, since these are numbered nearly without gaps (`key_of`).

ghost use Rattle.std.specs.Prelude.{◌≡◌, ◌↔◌, ◌++◌, ℕ, List, AllPairs, Contains, IfOk, OnOk, length, map};
ghost use Rattle.cover_law.specs.Cover.{bordered};
ghost use Rattle.rows.specs.RowEdges.{AreCoveredBorders, AreEdgesOfRows, IsRowEdgeBefore, side, sides};
ghost use Rattle.rows.specs.declared.edges.RowEdge.{RowEdge};

use cover_law::Border;
use cover_sets::{ALONE, EMPTY};
use geom::{DirectedEdge, NoMemory};
use std::alloc::Allocator;

/// More than the plane has columns, in grid units.
const COLUMNS: i64 = 1 << 30;

/// A directed edge, and the number of the cover set on its left. Ordered by that number, then by the edge.
#[derive(Clone, Copy, Debug, PartialEq, Eq, PartialOrd, Ord)]
pub struct RowEdge {
    pub set: u32,
    pub edge: DirectedEdge,
}

/// Adds an edge, unless what lies on its left is covered by nothing.
fn push_side<A: Allocator>(
    list: &mut Vec<RowEdge, A>,
    set: u32,
    edge: DirectedEdge,
) -> Result<(), NoMemory>
    ensures { OnOk result (list.new.items ≡ list.old.items ++ side set edge) }
{
    if set != EMPTY {
        list.push(RowEdge { set, edge })?;
    }
    Ok(())
}

/// Both directions of all edges, but for those with the empty set on their left.
fn sides_of<A: Allocator>(
    alloc: A,
    borders: &[Border],
    left: &[u32],
    right: &[u32],
) -> Result<Vec<RowEdge, A>, NoMemory>
    requires left { length left.now ≡ length borders.now }
    requires right { length right.now ≡ length borders.now }
    ensures { IfOk result (λ list. list.items ≡ sides borders.now left.now right.now) }
{
    let mut list = Vec::with_capacity(alloc, borders.len().saturating_mul(2))?;
    for number in 0..borders.len() {
        let edge = borders[number].edge;
        let along = DirectedEdge {
            from: edge.p,
            to: edge.q,
        };
        let back = DirectedEdge {
            from: edge.q,
            to: edge.p,
        };
        push_side(&mut list, left[number], along)?;
        push_side(&mut list, right[number], back)?;
    }
    Ok(list)
}

/// One more than the greatest number of a set that isn't one feature alone.
fn trees_in(list: &[RowEdge]) -> u32 {
    let mut trees = 0u32;
    for edge in list {
        if edge.set < ALONE {
            trees = trees.max(edge.set + 1);
        }
    }
    trees
}

/// The number of a set where features alone follow so many other sets, in the place above the column in which an edge begins.
fn key_of(edge: &RowEdge, trees: u32) -> i64 {
    let number = if edge.set < ALONE {
        i64::from(edge.set)
    } else {
        i64::from(trees) + i64::from(edge.set - ALONE)
    };
    number
        .wrapping_mul(COLUMNS)
        .wrapping_add(i64::from(edge.edge.from.x))
}

/// These in order, each once.
fn in_order<A: Allocator + Copy>(list: Vec<RowEdge, A>) -> Vec<RowEdge, A>
    ensures ascending { AllPairs IsRowEdgeBefore result.items }
    ensures same { (e : RowEdge) → Contains result.items e ↔ Contains list.items e }
{
    let trees = trees_in(&list);
    let mut list = range_sort::sorted(list, |edge: &RowEdge| key_of(edge, trees));
    list.dedup();
    list
}

/// The directed edges of all rows in order, by the numbers of the cover sets on the left and on the right of each edge.
pub fn edges_in_order<A: Allocator + Copy>(
    alloc: A,
    borders: &[Border],
    left: &[u32],
    right: &[u32],
) -> Result<Vec<RowEdge, A>, NoMemory>
    requires left { length left.now ≡ length borders.now }
    requires right { length right.now ≡ length borders.now }
    ensures ascending { IfOk result (λ list. AllPairs IsRowEdgeBefore list.items) }
    ensures edges { (count : ℕ) (features : List ℕ) (sets : List (List ℕ)) → AreCoveredBorders count features borders.now sets left.now right.now → IfOk result (λ list. AreEdgesOfRows count (map (bordered features) borders.now) sets list.items) }
{
    let list = sides_of(alloc, borders, left, right)?;
    Ok(in_order(list))
}
