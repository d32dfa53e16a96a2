//! Operations whose answers have the areas of both layers and of the result, on the calling thread alone, from memory to memory.

ghost use Rattle.std.specs.Prelude.{◌≡◌, IfOk, MatchResult};
ghost use Rattle.engine.specs.ColumnsRuns.{DeclinesColumns};
ghost use Rattle.engine.specs.Measures.{AreColumnsMeasured, IsMeasuredWithin};
ghost use Rattle.engine.specs.Runs.{DeclinesWithin, alone};
ghost use Rattle.layers.specs.ColumnsRefusals.{IsCheckOf};
ghost use Rattle.layers.specs.Refusals.{HasOwnRings};

use crate::alone::rounded_alone;
use crate::columns_alone::columns_rounded_alone;
use crate::columns_output::{ColumnsOutput, or_refused, output_of};
use crate::engine::{Output, or_fault, report_for};
use crate::measures::{Measured, measures_of};
use columns::Columns;
use geom::{NoMemory, Op, RunFault};
use label_sweep::layer_labels;
use layers::{
    CheckedColumns, CheckedInput, ColumnsRefused, Limits, Plan, Reading, check, check_columns,
    check_plan, read_one,
};
use results::{line_along, polygons_along};
use std::alloc::Allocator;

/// The canonical line of the result of an operation on two layers, its report, and the areas of both layers and of the result. It is
/// refused as `run_alone_within` is.
pub fn run_measured_alone_within<A: Allocator + Copy>(
    alloc: A,
    op: Op,
    a: &[u8],
    b: &[u8],
    side: u32,
    limits: Limits,
) -> Result<Measured<Output<A>>, RunFault>
    ensures answer { MatchResult result (λ m. IsMeasuredWithin limits.segments op (alone side) a.now b.now m.answer.text.items m.answer.report m.measures) (λ f. DeclinesWithin limits.segments (alone side) a.now b.now f.at f.fault) }
    ensures none_remade { IfOk result (λ m. m.answer.report.remade ≡ 0) }
{
    let plan = Plan { side, workers: 1 };
    check_plan(plan)?;
    let read_a = read_one(alloc, limits, a);
    let read_b = read_one(alloc, limits, b);
    match check(a, b, plan, limits, &read_a, &read_b) {
        Ok(checked) => or_fault(measured_by_one(alloc, op, &checked, read_a, read_b)),
        Err(fault) => Err(fault),
    }
}

/// The same of two layers that were checked.
fn measured_by_one<A: Allocator + Copy>(
    alloc: A,
    op: Op,
    checked: &CheckedInput<'_, '_>,
    read_a: Reading<A>,
    read_b: Reading<A>,
) -> Result<Measured<Output<A>>, NoMemory>
    requires read_a { HasOwnRings checked.now.a.now read_a }
    requires read_b { HasOwnRings checked.now.b.now read_b }
    ensures measured { IfOk result (λ m. IsMeasuredWithin checked.now.limits.segments op checked.now.plan checked.now.a.now checked.now.b.now m.answer.text.items m.answer.report m.measures) }
    ensures none_remade { IfOk result (λ m. m.answer.report.remade ≡ 0) }
{
    let noded = rounded_alone(alloc, checked, read_a, read_b)?;
    let directed = layer_labels(alloc, &noded.edges, op)?;
    let measures = measures_of(alloc, &noded.edges, &directed)?;
    let text = line_along(alloc, &directed)?;
    let report = report_for(alloc, checked, &noded)?;
    let answer = Output { text, report };
    Ok(Measured { answer, measures })
}

/// The result of an operation on two layers that are columns, and the areas of both layers and of the result. It is refused as
/// `run_columns_alone_within` is.
pub fn run_columns_measured_alone_within<A: Allocator + Copy>(
    alloc: A,
    op: Op,
    a: &Columns<'_>,
    b: &Columns<'_>,
    side: u32,
    limits: Limits,
) -> Result<Measured<ColumnsOutput<A>>, ColumnsRefused>
    ensures answer { MatchResult result (λ m. AreColumnsMeasured limits.segments op (alone side) a.now b.now m.answer m.measures) (DeclinesColumns limits.segments (alone side) a.now b.now) }
    ensures none_remade { IfOk result (λ m. m.answer.report.remade ≡ 0) }
{
    let plan = Plan { side, workers: 1 };
    match check_columns(a, b, plan, limits) {
        Ok(checked) => or_refused(columns_measured_by_one(alloc, op, a, b, &checked)),
        Err(refused) => Err(refused),
    }
}

/// The same of two layers that were checked.
fn columns_measured_by_one<A: Allocator + Copy>(
    alloc: A,
    op: Op,
    a: &Columns<'_>,
    b: &Columns<'_>,
    checked: &CheckedColumns,
) -> Result<Measured<ColumnsOutput<A>>, NoMemory>
    requires { IsCheckOf a.now b.now checked.now }
    ensures measured { IfOk result (λ m. AreColumnsMeasured checked.now.limits.segments op checked.now.plan a.now b.now m.answer m.measures) }
    ensures none_remade { IfOk result (λ m. m.answer.report.remade ≡ 0) }
{
    let noded = columns_rounded_alone(alloc, a, b, checked)?;
    let directed = layer_labels(alloc, &noded.edges, op)?;
    let measures = measures_of(alloc, &noded.edges, &directed)?;
    let polygons = polygons_along(alloc, &directed)?;
    let answer = output_of(alloc, checked, &noded, &polygons)?;
    Ok(Measured { answer, measures })
}
