//! The noding test of edges in any order, by workers over tiles.

ghost use Rattle.std.specs.Prelude.{◌<◌, ◌≤◌, All, AllPairs, List, MatchResult};
ghost use Rattle.geom.specs.declared.edge.Edge.{Edge};
ghost use Rattle.geom.specs.EdgeOrder.{IsEdgeBefore};
ghost use Rattle.geom.specs.Limit.{AreInLimit};
ghost use Rattle.geom.specs.Noded.{IsNoded};
ghost use Rattle.noding_test.specs.Passes.{IsTestFault};
ghost use Rattle.edge_test.specs.Tested.{IsEdgesFault};

use crate::fault::TextFault;
use crate::ordered::{put_in_order, rounded_of};
use crate::tiles::{bounds_of, grid_over};
use geom::{Edge, Fault};
use noding_test::noded;
use std::alloc::Allocator;
use std::sync::Wait;
use std::thread::Threads;
use tile_book::{Gate, MOST_HANDS};

/// Passes edges, in any order and also repeated, of which no two different ones share a point but a common end; of all others
/// it tells the least pair that does. The tiles are tested by 1 to 64 workers, one of them in the calling thread.
pub fn test_edges<A: Allocator + Copy + Send + Sync, G: Gate + Sync, R: Threads + Wait + Sync>(
    rt: &R,
    alloc: A,
    edges: Vec<Edge, A>,
    workers: u32,
    gate: &G,
) -> Result<(), TextFault>
    requires workers { (0 < workers) × (workers ≤ MOST_HANDS) }
    requires limits { All (λ e. AreInLimit e.p e.q) edges.items }
    ensures { MatchResult result (λ _. IsNoded edges.items) (IsEdgesFault edges.items) }
{
    let mut edges = edges;
    put_in_order(&mut edges);
    test_ascending(rt, alloc, &edges, workers, gate)
}

/// The same of edges that are ascending.
fn test_ascending<A: Allocator + Copy + Send + Sync, G: Gate + Sync, R: Threads + Wait + Sync>(
    rt: &R,
    alloc: A,
    edges: &[Edge],
    workers: u32,
    gate: &G,
) -> Result<(), TextFault>
    requires workers { (0 < workers) × (workers ≤ MOST_HANDS) }
    requires limits { All (λ e. AreInLimit e.p e.q) edges.now }
    requires ascending { AllPairs IsEdgeBefore edges.now }
    ensures { MatchResult result (λ _. IsNoded edges.now) (IsEdgesFault edges.now) }
{
    let Some(bounds) = bounds_of(edges) else {
        return Ok(());
    };
    let grid = grid_over(bounds, edges);
    let Ok(rounded) = rounded_of(alloc, edges) else {
        return Err(TextFault::Memory);
    };
    match noded(rt, alloc, rounded, &grid, workers, gate) {
        Ok(noded) => {
            drop(noded);
            Ok(())
        }
        Err(fault) => Err(fault_of(fault)),
    }
}

/// What is told where the noding test doesn't pass edges.
fn fault_of(fault: Fault) -> TextFault
    ensures { (edges : List Edge) → IsTestFault edges fault → IsEdgesFault edges result }
{
    match fault {
        Fault::NotNoded(e, f) => TextFault::NotNoded(e, f),
        _ => TextFault::Memory,
    }
}
