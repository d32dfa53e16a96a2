//! The rows: those of parts of their sets at once, with about as many edges in each part, in the order of their features.

ghost use Rattle.std.specs.Prelude.{◌≡◌, ◌<◌, ◌≤◌, ℕ, List, All, AllPairs, IfOk, IsPermutation, OnOk, length, map, slice_range};
ghost use Rattle.std.specs.List.{AllZip};
ghost use Rattle.cover_law.specs.Areas.{row_area};
ghost use Rattle.cover_law.specs.Cover.{AreBorders, Bordered};
ghost use Rattle.cover_law.specs.Rows.{AreRows, IsSetBefore};
ghost use Rattle.rows.specs.Made.{AreReady, IsBound, IsRowOf, row_of};
ghost use Rattle.rows.specs.RowEdges.{AreEdgesOfRows};
ghost use Rattle.rows.specs.RowSets.{edges_at};

use crate::area::twice_area;
use crate::edges::RowEdge;
use crate::ends::nearly_in_order;
use crate::grouped::RowEdges;
use crate::runs::RowSet;
use cover_sets::Sets;
use geom::{DirectedEdge, NoMemory, Polygon};
use hands::{Part, joined, map_parts, parts_of_work};
use polygonize::polygons_along;
use std::alloc::Allocator;
use std::thread::Threads;

/// A cover set, twice the area of its points in grid units, and their polygons.
#[derive(Debug, Drop)]
pub struct Row<A: Allocator> {
    /// Ascending.
    pub features: Vec<u32, A>,
    pub twice_area: i128,
    pub polygons: Vec<Polygon<A>, A>,
}

/// Puts the directed edges of a set's row in place of what the list had.
fn put_edges<A: Allocator>(
    directed: &mut Vec<DirectedEdge, A>,
    edges: &[RowEdge],
    row_set: RowSet,
) -> Result<(), NoMemory>
    requires some { row_set.from < row_set.to }
    requires within { row_set.to ≤ length edges.now }
    ensures { OnOk result (directed.new.items ≡ edges_at edges.now row_set) }
{
    let run = &edges[row_set.from..row_set.to];
    directed.clear();
    for edge in run {
        directed.push(edge.edge)?;
    }
    Ok(())
}

/// The row of a set. The list is room for its directed edges.
fn row_of_set<A: Allocator + Copy>(
    alloc: A,
    sets: &Sets<A>,
    edges: &[RowEdge],
    row_set: RowSet,
    directed: &mut Vec<DirectedEdge, A>,
) -> Result<Row<A>, NoMemory>
    requires { IsBound sets.now edges.now row_set }
    ensures { IfOk result (IsRowOf sets.now edges.now row_set) }
{
    put_edges(directed, edges, row_set)?;
    let twice_area = twice_area(directed);
    let polygons = polygons_along(alloc, directed)?;
    let mut features = Vec::with_capacity(alloc, sets.size(row_set.set) as usize)?;
    sets.push_features(row_set.set, &mut features)?;
    Ok(Row {
        features,
        twice_area,
        polygons,
    })
}

/// The rows of a part of the sets.
fn rows_of_part<A: Allocator + Copy>(
    alloc: A,
    sets: &Sets<A>,
    edges: &[RowEdge],
    row_sets: &[RowSet],
    part: Part,
) -> Result<Vec<Row<A>, A>, NoMemory>
    requires order { part.from ≤ part.past }
    requires within { part.past ≤ length row_sets.now }
    requires bound { All (IsBound sets.now edges.now) row_sets.now }
    ensures { IfOk result (λ rows. AllZip (IsRowOf sets.now edges.now) (slice_range row_sets.now part.from part.past) rows.items) }
{
    let mut rows = Vec::with_capacity(alloc, part.past - part.from)?;
    let mut directed = Vec::new(alloc);
    for place in part.from..part.past {
        rows.push(row_of_set(alloc, sets, edges, row_sets[place], &mut directed)?)?;
    }
    Ok(rows)
}

/// The rows of all sets, in the order of these.
fn made_in_parts<R: Threads + Sync, A: Allocator + Copy + Send + Sync>(
    rt: &R,
    alloc: A,
    parts: usize,
    sets: &Sets<A>,
    edges: &[RowEdge],
    row_sets: &[RowSet],
) -> Result<Vec<Row<A>, A>, NoMemory>
    requires { All (IsBound sets.now edges.now) row_sets.now }
    ensures { IfOk result (λ rows. AllZip (IsRowOf sets.now edges.now) row_sets.now rows.items) }
{
    let parts = parts_of_work(
        alloc,
        row_sets.len(),
        parts,
        |place: usize| -> usize
            requires { (place < length row_sets.now) × All (λ r. r.from < r.to) row_sets.now }
        { row_sets[place].to - row_sets[place].from },
    )?;
    let lists = map_parts(
        rt,
        alloc,
        &parts,
        |part: Part| -> Result<Vec<Row<A>, A>, NoMemory>
            requires { (part.from ≤ part.past) × (part.past ≤ length row_sets.now) × All (IsBound sets.now edges.now) row_sets.now }
            ensures { IfOk result (λ rows. AllZip (IsRowOf sets.entry.now edges.entry.now) (slice_range row_sets.entry.now part.from part.past) rows.items) }
        { rows_of_part(alloc, sets, edges, row_sets, part) },
    )?;
    Ok(joined(alloc, lists)?)
}

/// Rows by their features: by the first in which they differ, a list before those that it is the front of.
fn in_order<A: Allocator>(mut rows: Vec<Row<A>, A>) -> Vec<Row<A>, A>
    ensures permutation { IsPermutation rows.items result.items }
    ensures sorted { AllPairs (λ r s. ¬ (IsSetBefore s.features.items r.features.items)) result.items }
{
    rows.sort_unstable_by(|r, s| r.features.cmp(&s.features));
    rows
}

/// The rows of all cover sets, in the order of these.
pub fn rows_of<A: Allocator + Copy>(
    alloc: A,
    sets: &Sets<A>,
    row_edges: &RowEdges<A>,
) -> Result<Vec<Row<A>, A>, NoMemory>
    requires { AreReady sets.now row_edges.now.edges.items row_edges.now.sets.items }
    ensures rows { (count : ℕ) (borders : List Bordered) → AreBorders borders → AreEdgesOfRows count borders sets.now row_edges.now.edges.items → IfOk result (λ rows. AreRows count borders (map row_of rows.items)) }
    ensures areas { IfOk result (λ rows. All (λ r. r.twice_area ≡ row_area (row_of r)) rows.items) }
{
    let row_sets = nearly_in_order(alloc, sets, &row_edges.sets)?;
    let all = Part {
        from: 0,
        past: row_sets.len(),
    };
    let rows = rows_of_part(alloc, sets, &row_edges.edges, &row_sets, all)?;
    Ok(in_order(rows))
}

/// The same, made in so many parts.
pub fn rows_in_parts<R: Threads + Sync, A: Allocator + Copy + Send + Sync>(
    rt: &R,
    alloc: A,
    parts: usize,
    sets: &Sets<A>,
    row_edges: &RowEdges<A>,
) -> Result<Vec<Row<A>, A>, NoMemory>
    requires { AreReady sets.now row_edges.now.edges.items row_edges.now.sets.items }
    ensures rows { (count : ℕ) (borders : List Bordered) → AreBorders borders → AreEdgesOfRows count borders sets.now row_edges.now.edges.items → IfOk result (λ rows. AreRows count borders (map row_of rows.items)) }
    ensures areas { IfOk result (λ rows. All (λ r. r.twice_area ≡ row_area (row_of r)) rows.items) }
{
    let row_sets = nearly_in_order(alloc, sets, &row_edges.sets)?;
    let rows = made_in_parts(rt, alloc, parts, sets, &row_edges.edges, &row_sets)?;
    Ok(in_order(rows))
}
