//! The faces of layers that are columns, as columns, on the calling thread alone.
//!
//! 1. Plan and layers are checked (`check_column_layers`): only here is an input refused, but for too many features in all rows.
//! 2. The segments of all features are rounded together, and the borders of the features give rows, as those of texts do.
//! 3. The rows give their columns (`columns_of_rows`), and the report.

ghost use Rattle.std.specs.Prelude.{◌≡◌, ◌<◌, ◌≤◌, All, AllPairs, IfOk, MatchResult, length, map, sum};
ghost use Rattle.cover_law.specs.Areas.{row_area};
ghost use Rattle.rows.specs.Made.{row_of};
ghost use Rattle.layers.specs.ColumnLayers.{IsCheckOfColumns, features_in};
ghost use Rattle.engine.specs.FaceColumns.{AreColumnsOfBorders, AreFaceColumnsMade, DeclinesFaceColumns};
ghost use Rattle.engine.specs.Faces.{AreBordersOf};
ghost use Rattle.engine.specs.Runs.{alone};

use crate::alone_faces::borders_of_alone;
use crate::bounded_rows::{BoundedRows, bounded_rows_alone};
use crate::face_text::feature_counts;
use crate::faces_report::FacesReport;
use crate::faces_run::{FaceBorders, faces_report_of, or_want};
use columns::Columns;
use geom::NoMemory;
use grid::MOST_TILES;
use layers::{
    CheckedColumnLayers, FacesColumnsRefused, FacesFault, FacesLimits, MOST_LAYERS, Plan,
    check_column_layers, column_segments,
};
use rows::{RowColumns, columns_of_rows};
use std::alloc::Allocator;

/// The rows of faces as columns, and the numbers of the run that made them.
#[derive(Debug, Drop)]
pub struct FacesColumns<A: Allocator> {
    pub columns: RowColumns<A>,
    pub report: FacesReport<A>,
}

/// The rows of the faces of up to 64 layers that are columns, over tiles of this side, as columns, and the report. It is refused for the first of
/// these: a bad tile side, each layer in turn, too many segments, too many tiles, too many features in all rows; then for want of memory. No
/// piece is made twice.
pub fn faces_columns_alone<A: Allocator + Copy>(
    alloc: A,
    layers: &[Columns<'_>],
    side: u32,
    limits: FacesLimits,
) -> Result<FacesColumns<A>, FacesColumnsRefused>
    requires { length layers.now ≤ MOST_LAYERS }
    ensures answer { MatchResult result (λ m. AreFaceColumnsMade limits (alone side) layers.now m.columns m.report) (DeclinesFaceColumns limits (alone side) layers.now) }
    ensures none_remade { IfOk result (λ m. m.report.remade ≡ 0) }
{
    let plan = Plan { side, workers: 1 };
    let checked = match check_column_layers(layers, plan, limits) {
        Ok(checked) => checked,
        Err(refused) => return Err(refused),
    };
    match columns_by_segments(alloc, layers, &checked) {
        Ok(made) => Ok(made),
        Err(fault) => Err(FacesColumnsRefused::Run(fault.refusal)),
    }
}

/// The same of layers that were checked.
fn columns_by_segments<A: Allocator + Copy>(
    alloc: A,
    layers: &[Columns<'_>],
    checked: &CheckedColumnLayers,
) -> Result<FacesColumns<A>, FacesFault>
    requires { IsCheckOfColumns layers.now checked.now }
    ensures answer { MatchResult result (λ m. AreFaceColumnsMade checked.now.limits checked.now.plan layers.now m.columns m.report) (λ f. DeclinesFaceColumns checked.now.limits checked.now.plan layers.now (FacesColumnsRefused.Run f.refusal)) }
    ensures none_remade { IfOk result (λ m. m.report.remade ≡ 0) }
{
    let borders = or_want(column_borders(alloc, layers, checked))?;
    let rows = bounded_rows_alone(alloc, checked.limits.ids, &borders.rounded)?;
    or_want(columns_of_borders(alloc, borders, rows))
}

/// The borders of the features of layers that were checked.
fn column_borders<A: Allocator + Copy>(
    alloc: A,
    layers: &[Columns<'_>],
    checked: &CheckedColumnLayers,
) -> Result<FaceBorders<A>, NoMemory>
    requires { IsCheckOfColumns layers.now checked.now }
    ensures borders { IfOk result (AreBordersOf (features_in layers.now) checked.now.grid) }
    ensures none_remade { IfOk result (λ b. b.rounded.remade ≡ 0) }
{
    let all = column_segments(alloc, layers, checked.segments)?;
    borders_of_alone(alloc, &checked.grid, all)
}

/// The columns of the rows over borders, and the report.
fn columns_of_borders<A: Allocator + Copy>(
    alloc: A,
    borders: FaceBorders<A>,
    rows: BoundedRows<A>,
) -> Result<FacesColumns<A>, NoMemory>
    requires counts { sum (map (λ s. s.features) borders.sizes.items) ≤ u32.MAX }
    requires ascending { All (λ r. AllPairs (λ f g. f < g) r.features.items) rows.rows.items }
    requires areas { All (λ r. r.twice_area ≡ row_area (row_of r)) rows.rows.items }
    requires tiles { length borders.rounded.tiles.items ≤ MOST_TILES }
    ensures { IfOk result (AreColumnsOfBorders borders rows) }
{
    let FaceBorders { rounded, sizes } = borders;
    let BoundedRows { rows, ids } = rows;
    let counts = feature_counts(alloc, &sizes)?;
    let report = faces_report_of(alloc, sizes, &rounded, &rows, ids)?;
    let columns = columns_of_rows(alloc, &counts, rows)?;
    Ok(FacesColumns { columns, report })
}
