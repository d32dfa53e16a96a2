//! What columns and a plan are refused for, before anything is rounded, and what is known where nothing is.
//!
//! 1. The plan is in its limits (`plan_fault`).
//! 2. Either layer is surveyed (`survey`): its columns are accepted, its segments counted and boxed.
//! 3. Both together have no more segments than the limit that is given, and the grid over both boxes has few tiles (`checked_grid`).

ghost use Rattle.std.specs.Prelude.{◌≡◌, IfOk, MatchResult};
ghost use Rattle.grid.specs.Tiles.{AreBounds, IsSide};
ghost use Rattle.layers.specs.ColumnsRefusals.{AreColumnsRefused, IsCheckOf, IsFewOver, IsManyOver};

use crate::checking::{check_total, grid_over, plan_fault};
use crate::columns_refused::ColumnsRefused;
use crate::plan::{Limits, Plan};
use columns::{Columns, survey};
use geom::Fault;
use grid::Grid;
use wkt::Outline;

/// A plan and the limits, for two layers that are not refused within them, with the layers' numbers of segments and the grid over them.
#[derive(Clone, Copy)]
pub struct CheckedColumns {
    pub plan: Plan,
    pub limits: Limits,
    pub segments_a: u32,
    pub segments_b: u32,
    pub grid: Grid,
}

/// Two layers and a plan, where nothing is refused.
pub fn check_columns(
    a: &Columns<'_>,
    b: &Columns<'_>,
    plan: Plan,
    limits: Limits,
) -> Result<CheckedColumns, ColumnsRefused>
    ensures same { IfOk result (λ c. (c.plan ≡ plan) × (c.limits ≡ limits)) }
    ensures answer { MatchResult result (λ c. IsCheckOf a.now b.now c) (λ f. AreColumnsRefused limits.segments plan a.now b.now f) }
{
    if let Some(fault) = plan_fault(plan) {
        return Err(ColumnsRefused::Run(fault));
    }
    let first = match survey(a) {
        Ok(outline) => outline,
        Err(fault) => return Err(ColumnsRefused::A(fault)),
    };
    let second = match survey(b) {
        Ok(outline) => outline,
        Err(fault) => return Err(ColumnsRefused::B(fault)),
    };
    match checked_grid(first, second, plan.side, limits) {
        Ok(grid) => Ok(CheckedColumns {
            plan,
            limits,
            segments_a: first.segments,
            segments_b: second.segments,
            grid,
        }),
        Err(fault) => Err(ColumnsRefused::Run(fault)),
    }
}

/// The grid over two layers with these outlines, where both together have few segments and it has few tiles.
fn checked_grid(a: Outline, b: Outline, side: u32, limits: Limits) -> Result<Grid, Fault>
    requires a_in { AreBounds a.bounds }
    requires b_in { AreBounds b.bounds }
    requires side { IsSide side }
    ensures { MatchResult result (λ g. IsFewOver limits.segments a b side g) (λ f. IsManyOver limits.segments a b side f) }
{
    if let Err(fault) = check_total(a.segments, b.segments, limits.segments) {
        return Err(fault.fault);
    }
    match grid_over(a.bounds, b.bounds, side) {
        Ok(grid) => Ok(grid),
        Err(fault) => Err(fault.fault),
    }
}
