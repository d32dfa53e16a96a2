//! An operation on two layer texts, by workers, whose answer has the areas of both layers and of the result.
//!
//! 1. Plan and layers are checked (`check`): only here is an input refused.
//! 2. The segments of both layers are read (`read_segments_by_workers`), workers round them (`rounded_segments`), and label the directed
//!    edges of the result.
//! 3. These and the rounded edges are measured (`measures_by_workers`), and give text and report.
//! 4. Only now is the sink called: it is sent the text whole (`send`).

ghost use Rattle.std.specs.Prelude.{◌<◌, IfOk, MatchResult};
ghost use Rattle.engine.specs.Measures.{IsMeasuredWithin};
ghost use Rattle.points_law.specs.Law.{AreLayers};
ghost use Rattle.engine.specs.Rounds.{AreRoundedOver, IsRemade};
ghost use Rattle.engine.specs.Runs.{DeclinesWithin, RunsWithin};
ghost use Rattle.layers.specs.Refusals.{HasOwnRings};

use crate::engine::{MadeInParts, or_fault, report_for, send};
use crate::measures::{Measured, measures_by_workers};
use crate::rounds::rounded_segments;
use geom::{NoMemory, Op, RunFault};
use hands::worth;
use label_sweep::layer_labels_in_parts;
use layers::{
    CheckedInput, Limits, Plan, Reading, check, check_plan, read_both, read_segments_by_workers,
};
use linking::Noded;
use results::{Report, Sink, line_by_workers};
use std::alloc::Allocator;
use std::sync::Wait;
use std::thread::Threads;
use tile_book::Gate;

/// Writes the result of an operation on two layers to a sink, as `run_within` does, and answers the areas of both layers and of the result
/// beside the report.
pub fn run_measured_within<
    A: Allocator + Copy + Send + Sync,
    G: Gate + Sync,
    S: Sink,
    R: Threads + Wait + Sync,
>(
    rt: &R,
    alloc: A,
    op: Op,
    a: &[u8],
    b: &[u8],
    plan: Plan,
    limits: Limits,
    gate: &G,
    sink: &mut S,
) -> Result<Measured<Report<A>>, RunFault>
    requires { (S.state sink.old).failed < u64.MAX }
    ensures { RunsWithin limits.segments S.state sink.old sink.new plan a.now b.now (λ text m. IsMeasuredWithin limits.segments op plan a.now b.now text m.answer m.measures) result }
{
    let made = measured(rt, alloc, op, a, b, plan, limits, gate)?;
    let Measured { answer, measures } = made;
    match send(answer, sink) {
        Ok(answer) => Ok(Measured { answer, measures }),
        Err(fault) => Err(fault),
    }
}

/// The text of the result, the report and the measures, where nothing is refused. The workers call the gate.
fn measured<A: Allocator + Copy + Send + Sync, G: Gate + Sync, R: Threads + Wait + Sync>(
    rt: &R,
    alloc: A,
    op: Op,
    a: &[u8],
    b: &[u8],
    plan: Plan,
    limits: Limits,
    gate: &G,
) -> Result<Measured<MadeInParts<A>>, RunFault>
    ensures { MatchResult result (λ m. IsMeasuredWithin limits.segments op plan a.now b.now m.answer.text m.answer.report m.measures) (λ f. DeclinesWithin limits.segments plan a.now b.now f.at f.fault) }
{
    check_plan(plan)?;
    let (read_a, read_b) = read_both(rt, alloc, limits, plan.workers, a, b);
    match check(a, b, plan, limits, &read_a, &read_b) {
        Ok(checked) => or_fault(measured_by_workers(rt, alloc, op, &checked, read_a, read_b, gate)),
        Err(fault) => Err(fault),
    }
}

/// The same of two layers that were checked.
fn measured_by_workers<A: Allocator + Copy + Send + Sync, G: Gate + Sync, R: Threads + Wait + Sync>(
    rt: &R,
    alloc: A,
    op: Op,
    checked: &CheckedInput<'_, '_>,
    read_a: Reading<A>,
    read_b: Reading<A>,
    gate: &G,
) -> Result<Measured<MadeInParts<A>>, NoMemory>
    requires read_a { HasOwnRings checked.now.a.now read_a }
    requires read_b { HasOwnRings checked.now.b.now read_b }
    ensures { IfOk result (λ m. IsMeasuredWithin checked.now.limits.segments op checked.now.plan checked.now.a.now checked.now.b.now m.answer.text m.answer.report m.measures) }
{
    let read = read_segments_by_workers(rt, alloc, checked, read_a, read_b)?;
    let workers = checked.plan.workers;
    let noded = rounded_segments(rt, alloc, &checked.grid, workers, read, gate)?;
    measured_by_edges(rt, alloc, op, checked, &noded)
}

/// The same of two layers that were checked, by their rounded edges.
fn measured_by_edges<A: Allocator + Copy + Send + Sync, R: Threads + Sync>(
    rt: &R,
    alloc: A,
    op: Op,
    checked: &CheckedInput<'_, '_>,
    noded: &Noded<A>,
) -> Result<Measured<MadeInParts<A>>, NoMemory>
    requires rounded { AreRoundedOver checked.now.a.now checked.now.b.now checked.now.grid noded.now.edges.items noded.now.tiles.items }
    requires layers { ∥ AreLayers noded.now.edges.items ∥₁ }
    requires remade { IsRemade noded.now.remade }
    ensures { IfOk result (λ m. IsMeasuredWithin checked.now.limits.segments op checked.now.plan checked.now.a.now checked.now.b.now m.answer.text m.answer.report m.measures) }
{
    let workers = checked.plan.workers;
    let parts = worth::parts(workers, noded.edges.len(), worth::EDGES);
    let directed = layer_labels_in_parts(rt, alloc, parts, &noded.edges, op)?;
    let measures = measures_by_workers(rt, alloc, workers, &noded.edges, &directed)?;
    let text = line_by_workers(rt, alloc, workers, directed)?;
    let report = report_for(alloc, checked, noded)?;
    let answer = MadeInParts { text, report };
    Ok(Measured { answer, measures })
}
