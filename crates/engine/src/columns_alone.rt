//! Operations on two layers that are columns, on the calling thread alone, for a caller that has no threads to lend.

ghost use Rattle.std.specs.Prelude.{◌≡◌, IfOk, MatchResult};
ghost use Rattle.points_law.specs.Law.{AreLayers};
ghost use Rattle.engine.specs.ColumnsRuns.{AreColumnsMade, DeclinesColumns};
ghost use Rattle.layers.specs.ColumnsRefusals.{IsCheckOf, rings_of};
ghost use Rattle.engine.specs.RingLayers.{AreRingsRounded};
ghost use Rattle.engine.specs.Runs.{alone};

use crate::alone::gathered_alone;
use crate::columns_output::{ColumnsOutput, or_refused, output_of};
use crate::columns_run::columns_segments;
use columns::Columns;
use geom::{NoMemory, Op};
use layers::{CheckedColumns, ColumnsRefused, Limits, Plan, check_columns};
use linking::Noded;
use results::result_polygons;
use std::alloc::Allocator;

/// The result of an operation on two layers that are columns, over tiles of this side, and its report. It is refused as
/// `run_columns_within` is, but for the number of workers. No piece is made twice.
pub fn run_columns_alone_within<A: Allocator + Copy>(
    alloc: A,
    op: Op,
    a: &Columns<'_>,
    b: &Columns<'_>,
    side: u32,
    limits: Limits,
) -> Result<ColumnsOutput<A>, ColumnsRefused>
    ensures answer { MatchResult result (AreColumnsMade limits.segments op (alone side) a.now b.now) (DeclinesColumns limits.segments (alone side) a.now b.now) }
    ensures none_remade { IfOk result (λ m. m.report.remade ≡ 0) }
{
    let plan = Plan { side, workers: 1 };
    match check_columns(a, b, plan, limits) {
        Ok(checked) => or_refused(columns_by_one(alloc, op, a, b, &checked)),
        Err(refused) => Err(refused),
    }
}

/// The same of two layers that were checked.
fn columns_by_one<A: Allocator + Copy>(
    alloc: A,
    op: Op,
    a: &Columns<'_>,
    b: &Columns<'_>,
    checked: &CheckedColumns,
) -> Result<ColumnsOutput<A>, NoMemory>
    requires { IsCheckOf a.now b.now checked.now }
    ensures made { IfOk result (AreColumnsMade checked.now.limits.segments op checked.now.plan a.now b.now) }
    ensures none_remade { IfOk result (λ m. m.report.remade ≡ 0) }
{
    let noded = columns_rounded_alone(alloc, a, b, checked)?;
    let polygons = result_polygons(alloc, &noded.edges, op)?;
    output_of(alloc, checked, &noded, &polygons)
}

/// The rounded edges of two layers, with the numbers of the tiles.
pub(crate) fn columns_rounded_alone<A: Allocator + Copy>(
    alloc: A,
    a: &Columns<'_>,
    b: &Columns<'_>,
    checked: &CheckedColumns,
) -> Result<Noded<A>, NoMemory>
    requires { IsCheckOf a.now b.now checked.now }
    ensures rounded { IfOk result (λ n. AreRingsRounded (rings_of a.now) (rings_of b.now) checked.now.grid n.edges.items n.tiles.items) }
    ensures layers { IfOk result (λ n. ∥ AreLayers n.edges.items ∥₁) }
    ensures none_remade { IfOk result (λ n. n.remade ≡ 0) }
{
    let segments = columns_segments(alloc, a, b, checked)?;
    gathered_alone(alloc, &checked.grid, segments)
}
