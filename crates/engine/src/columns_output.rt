//! What an operation on columns answers, or why it is refused.

ghost use Rattle.std.specs.Prelude.{◌≡◌, ◌≤◌, IfOk, MatchResult, length};
ghost use Rattle.columns.specs.declared.layout.Columns.{Columns};
ghost use Rattle.geom.specs.declared.op.Op.{Op};
ghost use Rattle.engine.specs.ColumnsRuns.{AreColumnsOver};
ghost use Rattle.layers.specs.ColumnsRefusals.{IsCheckOf, rings_of};
ghost use Rattle.results.specs.Results.{IsResult};
ghost use Rattle.engine.specs.RingLayers.{AreRingsRounded};
ghost use Rattle.engine.specs.Rounds.{IsRemade};

use crate::rounds::report_of;
use columns::{OwnedColumns, columns_of};
use geom::{Fault, NoMemory, Polygon};
use grid::MOST_TILES;
use layers::{CheckedColumns, ColumnsRefused};
use linking::Noded;
use results::Report;
use std::alloc::Allocator;

/// The polygons of a result as columns, and the numbers of the run that made them.
#[derive(Drop)]
pub struct ColumnsOutput<A: Allocator> {
    pub columns: OwnedColumns<A>,
    pub report: Report<A>,
}

/// The columns of a result's polygons, and the report on the rounded edges.
pub(crate) fn output_of<A: Allocator + Copy>(
    alloc: A,
    checked: &CheckedColumns,
    noded: &Noded<A>,
    polygons: &[Polygon<A>],
) -> Result<ColumnsOutput<A>, NoMemory>
    requires { length noded.now.tiles.items ≤ MOST_TILES }
    ensures made { (op : Op) (a b : Columns) → IsCheckOf a b checked.now → AreRingsRounded (rings_of a) (rings_of b) checked.now.grid noded.now.edges.items noded.now.tiles.items → IsRemade noded.now.remade → IsResult op noded.now.edges.items polygons.now → IfOk result (AreColumnsOver checked.now.limits.segments op checked.now.plan a b noded.now.edges.items polygons.now) }
    ensures remade { IfOk result (λ m. m.report.remade ≡ noded.now.remade) }
{
    let columns = columns_of(alloc, polygons)?;
    let report = report_of(alloc, checked.segments_a, checked.segments_b, noded)?;
    Ok(ColumnsOutput { columns, report })
}

/// What was made, or that the run wants memory.
pub(crate) fn or_refused<M>(made: Result<M, NoMemory>) -> Result<M, ColumnsRefused>
    ensures { MatchResult result (λ m. made ≡ Ok m) (λ f. f ≡ ColumnsRefused.Run Fault.Memory) }
{
    match made {
        Ok(made) => Ok(made),
        Err(_) => Err(ColumnsRefused::Run(Fault::Memory)),
    }
}
