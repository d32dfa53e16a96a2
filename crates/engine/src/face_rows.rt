//! The rows of faces, by the borders of features.
//!
//! 1. The edges are swept, which tells the edge beside each (`swept_of`).
//! 2. So the cover sets on both sides of each edge are known, and the directed edges of each row (`face_sets`).
//! 3. Before any row is made its features can be counted (`FaceSets::ids`); then the rows are made, parts of them at once (`rows`).

ghost use Rattle.std.specs.Prelude.{◌≡◌, ◌<◌, ◌≤◌, ℕ, true, All, AllPairs, IfOk, List, length, map};
ghost use Rattle.cover_law.specs.Areas.{row_area};
ghost use Rattle.cover_law.specs.Changing.{has_some};
ghost use Rattle.cover_law.specs.Cover.{AreBorders, Bordered, bordered, edges_in};
ghost use Rattle.cover_law.specs.Rows.{AreRows, Row as RowOf};
ghost use Rattle.label_sweep.specs.Swept.{AreSwept};
ghost use Rattle.rows.specs.Made.{AreReady, ids_in, row_of};
ghost use Rattle.rows.specs.RowEdges.{AreEdgesOfRows};
ghost use Rattle.engine.specs.FaceRows.{AreFaceSets, uncounted};
ghost use Rattle.layers.specs.FacesRefusals.{IsNumberOfIds};

use cover_law::Border;
use cover_sets::{Sets, covers};
use geom::{Counted, NoMemory};
use hands::worth;
use label_sweep::{SweptEdge, swept_edges, swept_edges_in_parts};
use rows::{Row, RowEdges, count_ids, row_edges, rows_in_parts, rows_of};
use std::alloc::Allocator;
use std::thread::Threads;

/// The cover sets of features, and the directed edges of those that have rows.
#[derive(Drop)]
pub(crate) struct FaceSets<A: Allocator> {
    pub sets: Sets<A>,
    pub edges: RowEdges<A>,
}

/// The edges of borders without counts, for which a sweep doesn't ask.
fn uncounted_of<A: Allocator>(alloc: A, borders: &[Border]) -> Result<Vec<Counted, A>, NoMemory>
    ensures { IfOk result (λ list. list.items ≡ map uncounted borders.now) }
{
    let mut list = Vec::with_capacity(alloc, borders.len())?;
    for border in borders {
        list.push(Counted {
            edge: border.edge,
            in_a: 0,
            in_b: 0,
        })?;
    }
    Ok(list)
}

/// The edges with the one beside each.
pub(crate) fn swept_of<A: Allocator + Copy + Send + Sync, R: Threads + Sync>(
    rt: &R,
    alloc: A,
    workers: u32,
    borders: &[Border],
    features: &[u32],
) -> Result<Vec<SweptEdge, A>, NoMemory>
    requires { AreBorders (map (bordered features.now) borders.now) }
    ensures { IfOk result (λ swept. AreSwept (edges_in (map (bordered features.now) borders.now)) swept.items) }
{
    let parts = worth::parts(workers, borders.len(), worth::EDGES);
    let counted = uncounted_of(alloc, borders)?;
    swept_edges_in_parts(rt, alloc, parts, &counted)
}

/// The same by the calling thread.
pub(crate) fn swept_alone<A: Allocator + Copy>(
    alloc: A,
    borders: &[Border],
    features: &[u32],
) -> Result<Vec<SweptEdge, A>, NoMemory>
    requires { AreBorders (map (bordered features.now) borders.now) }
    ensures { IfOk result (λ swept. AreSwept (edges_in (map (bordered features.now) borders.now)) swept.items) }
{
    let counted = uncounted_of(alloc, borders)?;
    swept_edges(alloc, &counted)
}

/// The cover sets that have rows, by the borders of features.
pub(crate) fn face_sets<A: Allocator + Copy + Send + Sync, R: Threads + Sync>(
    rt: &R,
    alloc: A,
    workers: u32,
    borders: &[Border],
    features: &[u32],
) -> Result<FaceSets<A>, NoMemory>
    requires borders { AreBorders (map (bordered features.now) borders.now) }
    requires some { All (λ b. has_some b.features ≡ true) (map (bordered features.now) borders.now) }
    requires inside { All (λ b. (b.from ≤ b.to) × (b.to ≤ length features.now)) borders.now }
    requires ordered { All (λ b. AllPairs (λ f g. f < g) (bordered features.now b).features) borders.now }
    requires below { All (λ f. f < 2147483647) features.now }
    ensures { IfOk result (λ s. AreFaceSets features.now (map (bordered features.now) borders.now) s.sets s.edges.edges.items s.edges.sets.items) }
{
    let swept = swept_of(rt, alloc, workers, borders, features)?;
    sets_by(alloc, borders, features, swept)
}

/// The same by the calling thread.
pub(crate) fn face_sets_alone<A: Allocator + Copy>(
    alloc: A,
    borders: &[Border],
    features: &[u32],
) -> Result<FaceSets<A>, NoMemory>
    requires borders { AreBorders (map (bordered features.now) borders.now) }
    requires some { All (λ b. has_some b.features ≡ true) (map (bordered features.now) borders.now) }
    requires inside { All (λ b. (b.from ≤ b.to) × (b.to ≤ length features.now)) borders.now }
    requires ordered { All (λ b. AllPairs (λ f g. f < g) (bordered features.now b).features) borders.now }
    requires below { All (λ f. f < 2147483647) features.now }
    ensures { IfOk result (λ s. AreFaceSets features.now (map (bordered features.now) borders.now) s.sets s.edges.edges.items s.edges.sets.items) }
{
    let swept = swept_alone(alloc, borders, features)?;
    sets_by(alloc, borders, features, swept)
}

/// The same by the edges with the one beside each.
fn sets_by<A: Allocator + Copy>(
    alloc: A,
    borders: &[Border],
    features: &[u32],
    swept: Vec<SweptEdge, A>,
) -> Result<FaceSets<A>, NoMemory>
    requires borders { AreBorders (map (bordered features.now) borders.now) }
    requires some { All (λ b. has_some b.features ≡ true) (map (bordered features.now) borders.now) }
    requires inside { All (λ b. (b.from ≤ b.to) × (b.to ≤ length features.now)) borders.now }
    requires ordered { All (λ b. AllPairs (λ f g. f < g) (bordered features.now b).features) borders.now }
    requires below { All (λ f. f < 2147483647) features.now }
    requires swept { AreSwept (edges_in (map (bordered features.now) borders.now)) swept.items }
    ensures { IfOk result (λ s. AreFaceSets features.now (map (bordered features.now) borders.now) s.sets s.edges.edges.items s.edges.sets.items) }
{
    let covers = covers(alloc, borders, features, &swept)?;
    drop(swept);
    let edges = row_edges(alloc, borders, &covers.left, &covers.right)?;
    Ok(FaceSets {
        sets: covers.sets,
        edges,
    })
}

impl<A: Allocator + Copy> FaceSets<A> {
    /// How many features all rows have together.
    pub(crate) fn ids(&self) -> u64
        requires { AreReady self.now.sets self.now.edges.edges.items self.now.edges.sets.items }
        ensures number { (count : ℕ) (edges : List Bordered) → AreEdgesOfRows count edges self.now.sets self.now.edges.edges.items → IsNumberOfIds count edges result }
        ensures rows { (count : ℕ) (edges : List Bordered) (rows : List RowOf) → AreEdgesOfRows count edges self.now.sets self.now.edges.edges.items → AreRows count edges rows → result ≡ ids_in rows }
    {
        count_ids(&self.sets, &self.edges)
    }

    /// The rows, in the order of their sets.
    pub(crate) fn rows<R: Threads + Sync>(
        &self,
        rt: &R,
        alloc: A,
        workers: u32,
    ) -> Result<Vec<Row<A>, A>, NoMemory>
    where
        A: Send + Sync,
        requires { AreReady self.now.sets self.now.edges.edges.items self.now.edges.sets.items }
        ensures rows { (count : ℕ) (edges : List Bordered) → AreBorders edges → AreEdgesOfRows count edges self.now.sets self.now.edges.edges.items → IfOk result (λ rows. AreRows count edges (map row_of rows.items)) }
        ensures areas { IfOk result (λ rows. All (λ r. r.twice_area ≡ row_area (row_of r)) rows.items) }
    {
        let parts = worth::parts(workers, self.edges.edges.len(), worth::ROW_EDGES);
        rows_in_parts(rt, alloc, parts, &self.sets, &self.edges)
    }
    /// The same by the calling thread.
    pub(crate) fn rows_alone(&self, alloc: A) -> Result<Vec<Row<A>, A>, NoMemory>
        requires { AreReady self.now.sets self.now.edges.edges.items self.now.edges.sets.items }
        ensures rows { (count : ℕ) (edges : List Bordered) → AreBorders edges → AreEdgesOfRows count edges self.now.sets self.now.edges.edges.items → IfOk result (λ rows. AreRows count edges (map row_of rows.items)) }
        ensures areas { IfOk result (λ rows. All (λ r. r.twice_area ≡ row_area (row_of r)) rows.items) }
    {
        rows_of(alloc, &self.sets, &self.edges)
    }
}
