//! Operations on two layers that are columns, by workers.
//!
//! 1. Plan and layers are checked (`check_columns`): only here is an input refused.
//! 2. The segments of both layers are rounded by workers (`rounded_columns`), as those of texts are.
//! 3. The rounded edges give the polygons of the result (`result_polygons_by_workers`), and these their columns, with the report (`output_of`).

ghost use Rattle.std.specs.Prelude.{IfOk, MatchResult};
ghost use Rattle.geom.specs.Segments.{AreSegments};
ghost use Rattle.points_law.specs.Law.{AreLayers};
ghost use Rattle.layers.specs.ColumnsRefusals.{AreBothAccepted, IsCheckOf, rings_of};
ghost use Rattle.engine.specs.ColumnsRuns.{AreColumnsMade, DeclinesColumns};
ghost use Rattle.engine.specs.RingLayers.{AreRingsRounded};
ghost use Rattle.layers.specs.Segments.{AllInLimit};
ghost use Rattle.engine.specs.Rounds.{IsRemade};

use crate::columns_output::{ColumnsOutput, or_refused, output_of};
use crate::rounds::rounded_segments;
use columns::{Columns, push_segments};
use geom::{NoMemory, Op, Seg, Source};
use layers::{CheckedColumns, ColumnsRefused, Limits, Plan, check_columns};
use linking::Noded;
use results::result_polygons_by_workers;
use std::alloc::Allocator;
use std::sync::Wait;
use std::thread::Threads;
use tile_book::Gate;

/// The result of an operation on two layers that are columns, as columns of its polygons in canonical order, and its report. It is refused
/// for the first of these: a bad tile side, a bad number of workers, layer A, layer B, more segments than the limit, too many tiles; then
/// for want of memory. The workers call the gate.
pub fn run_columns_within<
    A: Allocator + Copy + Send + Sync,
    G: Gate + Sync,
    R: Threads + Wait + Sync,
>(
    rt: &R,
    alloc: A,
    op: Op,
    a: &Columns<'_>,
    b: &Columns<'_>,
    plan: Plan,
    limits: Limits,
    gate: &G,
) -> Result<ColumnsOutput<A>, ColumnsRefused>
    ensures { MatchResult result (AreColumnsMade limits.segments op plan a.now b.now) (DeclinesColumns limits.segments plan a.now b.now) }
{
    match check_columns(a, b, plan, limits) {
        Ok(checked) => or_refused(columns_by_workers(rt, alloc, op, a, b, &checked, gate)),
        Err(refused) => Err(refused),
    }
}

/// The same of two layers that were checked.
fn columns_by_workers<A: Allocator + Copy + Send + Sync, G: Gate + Sync, R: Threads + Wait + Sync>(
    rt: &R,
    alloc: A,
    op: Op,
    a: &Columns<'_>,
    b: &Columns<'_>,
    checked: &CheckedColumns,
    gate: &G,
) -> Result<ColumnsOutput<A>, NoMemory>
    requires { IsCheckOf a.now b.now checked.now }
    ensures { IfOk result (AreColumnsMade checked.now.limits.segments op checked.now.plan a.now b.now) }
{
    let noded = rounded_columns(rt, alloc, a, b, checked, gate)?;
    let workers = checked.plan.workers;
    let polygons = result_polygons_by_workers(rt, alloc, workers, &noded.edges, op)?;
    output_of(alloc, checked, &noded, &polygons)
}

/// The rounded edges of two layers, with the numbers of the tiles. The workers call the gate.
fn rounded_columns<A: Allocator + Copy + Send + Sync, G: Gate + Sync, R: Threads + Wait + Sync>(
    rt: &R,
    alloc: A,
    a: &Columns<'_>,
    b: &Columns<'_>,
    checked: &CheckedColumns,
    gate: &G,
) -> Result<Noded<A>, NoMemory>
    requires { IsCheckOf a.now b.now checked.now }
    ensures rounded { IfOk result (λ n. AreRingsRounded (rings_of a.now) (rings_of b.now) checked.now.grid n.edges.items n.tiles.items) }
    ensures layers { IfOk result (λ n. ∥ AreLayers n.edges.items ∥₁) }
    ensures remade { IfOk result (λ n. IsRemade n.remade) }
{
    let segments = columns_segments(alloc, a, b, checked)?;
    rounded_segments(
        rt,
        alloc,
        &checked.grid,
        checked.plan.workers,
        segments,
        gate,
    )
}

/// The segments of both layers in their order, those of the first layer first.
pub(crate) fn columns_segments<A: Allocator>(
    alloc: A,
    a: &Columns<'_>,
    b: &Columns<'_>,
    checked: &CheckedColumns,
) -> Result<Vec<Seg, A>, NoMemory>
    requires { AreBothAccepted a.now b.now }
    ensures segments { IfOk result (λ v. AreSegments (rings_of a.now) (rings_of b.now) v.items) }
    ensures in_limit { IfOk result (λ v. AllInLimit v.items) }
{
    let count = u64::from(checked.segments_a) + u64::from(checked.segments_b);
    let mut segments = Vec::with_capacity(alloc, count as usize)?;
    push_segments(&mut segments, a, Source::A)?;
    push_segments(&mut segments, b, Source::B)?;
    Ok(segments)
}
