//! The result of an operation on two layers that are read as covered, by the borders of their features.
//!
//! 1. The edges are swept, which tells the edge beside each (`swept_of`, `swept_alone`).
//! 2. So the cover sets on both sides of each are known, and these tell the directed edges of the result (`covered_directed`).
//! 3. They give the canonical line, as those of any operation do (`line_by_workers`, `line_along`).

ghost use Rattle.std.specs.Prelude.{◌<◌, ◌≤◌, ℕ, All, AllPairs, IfOk, length, map};
ghost use Rattle.cover_law.specs.Cover.{AreBorders, bordered, edges_in};
ghost use Rattle.covered.specs.Covered.{AreCoveredEdges};
ghost use Rattle.engine.specs.CoveredResults.{IsCoveredText};
ghost use Rattle.label_sweep.specs.Swept.{AreSwept};

use crate::face_rows::{swept_alone, swept_of};
use cover_law::Border;
use cover_sets::covers;
use covered::covered_edges;
use geom::{Directed, NoMemory, Op};
use label_sweep::SweptEdge;
use results::{TextParts, line_along, line_by_workers};
use std::alloc::Allocator;
use std::thread::Threads;

/// The directed edges of the result, by the edge beside each, where the features of the first layer are those below `split`.
fn covered_directed<A: Allocator + Copy>(
    alloc: A,
    op: Op,
    split: u32,
    borders: &[Border],
    features: &[u32],
    swept: Vec<SweptEdge, A>,
) -> Result<Directed<A>, NoMemory>
    requires borders { AreBorders (map (bordered features.now) borders.now) }
    requires inside { All (λ b. (b.from ≤ b.to) × (b.to ≤ length features.now)) borders.now }
    requires ordered { All (λ b. AllPairs (λ f g. f < g) (bordered features.now b).features) borders.now }
    requires below { All (λ f. f < 2147483647) features.now }
    requires swept { AreSwept (edges_in (map (bordered features.now) borders.now)) swept.items }
    ensures { (count : ℕ) → All (λ f. f < count) features.now → IfOk result (AreCoveredEdges op split count (map (bordered features.now) borders.now)) }
{
    let covers = covers(alloc, borders, features, &swept)?;
    drop(swept);
    let edges = covered_edges(alloc, op, split, borders, &covers)?;
    Ok(Directed::new(edges))
}

/// The canonical line of the result.
pub(crate) fn covered_text<A: Allocator + Copy + Send + Sync, R: Threads + Sync>(
    rt: &R,
    alloc: A,
    workers: u32,
    op: Op,
    split: u32,
    borders: &[Border],
    features: &[u32],
) -> Result<TextParts<A>, NoMemory>
    requires borders { AreBorders (map (bordered features.now) borders.now) }
    requires inside { All (λ b. (b.from ≤ b.to) × (b.to ≤ length features.now)) borders.now }
    requires ordered { All (λ b. AllPairs (λ f g. f < g) (bordered features.now b).features) borders.now }
    requires below { All (λ f. f < 2147483647) features.now }
    ensures { (count : ℕ) → All (λ f. f < count) features.now → IfOk result (IsCoveredText op split count (map (bordered features.now) borders.now)) }
{
    let swept = swept_of(rt, alloc, workers, borders, features)?;
    let directed = covered_directed(alloc, op, split, borders, features, swept)?;
    line_by_workers(rt, alloc, workers, directed)
}

/// The same line, by the calling thread.
pub(crate) fn covered_text_alone<A: Allocator + Copy>(
    alloc: A,
    op: Op,
    split: u32,
    borders: &[Border],
    features: &[u32],
) -> Result<Vec<u8, A>, NoMemory>
    requires borders { AreBorders (map (bordered features.now) borders.now) }
    requires inside { All (λ b. (b.from ≤ b.to) × (b.to ≤ length features.now)) borders.now }
    requires ordered { All (λ b. AllPairs (λ f g. f < g) (bordered features.now b).features) borders.now }
    requires below { All (λ f. f < 2147483647) features.now }
    ensures { (count : ℕ) → All (λ f. f < count) features.now → IfOk result (λ text. IsCoveredText op split count (map (bordered features.now) borders.now) text.items) }
{
    let swept = swept_alone(alloc, borders, features)?;
    let directed = covered_directed(alloc, op, split, borders, features, swept)?;
    line_along(alloc, &directed)
}
