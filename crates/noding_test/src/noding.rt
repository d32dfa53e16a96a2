//! The noding test of edges from elsewhere, over the tiles of a grid and by many workers.

ghost use Rattle.std.specs.Prelude.{◌≡◌, ◌<◌, ◌≤◌, All, AllPairs, IfOk, MatchOption, MatchResult};
ghost use Rattle.geom.specs.Limit.{AreInLimit};
ghost use Rattle.geom.specs.EdgeOrder.{IsEdgeBefore};
ghost use Rattle.geom.specs.Noded.{IsLeastBad, IsNoded};
ghost use Rattle.geom.specs.Rounded.{edges_of};
ghost use Rattle.grid.specs.Tiles.{tile_count};
ghost use Rattle.noding_test.specs.Passes.{AreBinsOfEdges, AreBoxesOfEdges, EdgesHaveTiles, IsAllOf, IsTestFault};

use crate::finding::verdict;
use crate::pairs::bad_of_all;
use crate::verdicts::Verdict;
use geom::{Counted, Edge, Fault, NoMemory};
use lane_tests::Boxes;
use linking::{Noded, Rounded, settled};
use std::alloc::Allocator;
use std::marker::Brand;
use std::sync::Wait;
use std::sync::ledger::Blank;
use std::thread::Threads;
use tile_book::{FilledBook, Gate, Job, Limited, MOST_HANDS, Phase, fill};
use tiling::{Bins, Grid};

/// Makes the verdict of each tile from the edges in its bin.
#[derive(Drop)]
struct Verdicts<'a, A: Allocator> {
    grid: &'a Grid,
    bins: &'a Bins<A>,
    counted: &'a [Counted],
    ghost in_limit: { All (λ c. AreInLimit c.edge.p c.edge.q) counted.now },
    ghost ascending: { ∥ AllPairs (λ c d. IsEdgeBefore c.edge d.edge) counted.now ∥₁ },
    ghost are_bins: { ∥ AreBinsOfEdges grid.now counted.now bins.now ∥₁ },
}

impl<A: Allocator + Copy> Job<A> for Verdicts<'_, A> {
    type Piece = Verdict<A>;

    ghost count = { λ v. tile_count v.grid.now };

    fn piece(&self, alloc: A, number: u32) -> Result<Verdict<A>, NoMemory> {
        let mut numbers = Vec::new(alloc);
        self.bins.bin(number, &mut numbers)?;
        verdict(alloc, self.grid, number, self.counted, &numbers)
    }
}

/// The same edges, counts and numbers where no two different edges share a point but a common end; otherwise the least pair
/// that does. The tiles are tested by 1 to 64 workers, one of them in the calling thread. They call the gate.
pub fn noded<A: Allocator + Copy + Send + Sync, G: Gate + Sync, R: Threads + Wait + Sync>(
    rt: &R,
    alloc: A,
    rounded: Rounded<A>,
    grid: &Grid,
    workers: u32,
    gate: &G,
) -> Result<Noded<A>, Fault>
    requires workers { (0 < workers) × (workers ≤ MOST_HANDS) }
    requires limits { All (λ c. AreInLimit c.edge.p c.edge.q) rounded.edges.items }
    requires covered { EdgesHaveTiles grid.now (edges_of rounded.edges.items) }
    ensures { MatchResult result (IsAllOf rounded) (IsTestFault (edges_of rounded.edges.items)) }
{
    let blank = Blank::new(u64::from(workers));
    match least_bad_of::<Brand, A, G, R>(rt, alloc, blank, &rounded.edges, grid, workers, gate) {
        Ok(None) => Ok(settled(rounded)),
        Ok(Some((e, f))) => Err(Fault::NotNoded(e, f)),
        Err(NoMemory) => Err(Fault::Memory),
    }
}

/// The least bad pair of ascending edges: the workers make the verdicts of the tiles, and a ledger of its own counts those that
/// are posted.
fn least_bad_of<
    L: Limited + Send + Sync,
    A: Allocator + Copy + Send + Sync,
    G: Gate + Sync,
    R: Threads + Wait + Sync,
>(
    rt: &R,
    alloc: A,
    blank: Blank,
    counted: &[Counted],
    grid: &Grid,
    workers: u32,
    gate: &G,
) -> Result<Option<(Edge, Edge)>, NoMemory>
    requires name { blank.name ≡ L.name }
    requires parts { (blank.parts ≡ L.parts) × (blank.parts ≡ workers) }
    requires limit { tile_count grid.now ≡ L.limit }
    requires workers { (0 < workers) × (workers ≤ MOST_HANDS) }
    requires limits { All (λ c. AreInLimit c.edge.p c.edge.q) counted.now }
    requires ascending { ∥ AllPairs (λ c d. IsEdgeBefore c.edge d.edge) counted.now ∥₁ }
    requires covered { EdgesHaveTiles grid.now (edges_of counted.now) }
    ensures { IfOk result (λ bad. MatchOption bad (IsNoded (edges_of counted.now)) (λ pair. IsLeastBad (edges_of counted.now) pair.0 pair.1)) }
{
    let boxes = boxes_of(alloc, counted)?;
    let bins = Bins::build(alloc, grid, &boxes)?;
    drop(boxes);
    let job = Verdicts {
        grid,
        bins: &bins,
        counted,
    };
    let filled: FilledBook<Verdict<A>, L, A> = fill(
        rt,
        alloc,
        blank,
        grid.tiles(),
        workers,
        &job,
        Phase::Node,
        gate,
    )?;
    bad_of_all(alloc, &filled.book, grid, &bins, counted)
}

/// The least box of each edge, in their order.
fn boxes_of<A: Allocator + Copy>(alloc: A, counted: &[Counted]) -> Result<Boxes<A>, NoMemory>
    ensures { IfOk result (λ boxes. AreBoxesOfEdges counted.now boxes) }
{
    let mut boxes = Boxes::new(alloc);
    for item in counted {
        boxes.push(item.edge.bounds())?;
    }
    Ok(boxes)
}
