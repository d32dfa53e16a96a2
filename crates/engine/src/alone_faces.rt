//! The faces of layers on the calling thread alone, from memory to memory, for a caller that has no threads to lend.

ghost use Rattle.std.specs.Prelude.{◌≡◌, ◌≤◌, IfOk, List, MatchResult, length, map};
ghost use Rattle.geom.specs.declared.point.Pt.{Pt};
ghost use Rattle.linking.specs.Gathered.{HaveTiles};
ghost use Rattle.engine.specs.Faces.{AreBordersOf, AreBordersOver, AreFacesWritten, DeclinesFaces};
ghost use Rattle.layers.specs.FeatureSegments.{AreFeaturesOf, AreOwned};
ghost use Rattle.layers.specs.FeatureLayers.{HaveKept};
ghost use Rattle.engine.specs.Runs.{alone};

use crate::alone::features_alone;
use crate::bounded_rows::{BoundedRows, bounded_rows_alone};
use crate::face_text::rows_text_alone;
use crate::faces_report::FacesReport;
use crate::faces_run::{FaceBorders, faces_report_of, or_want};
use geom::NoMemory;
use grid::Grid;
use layers::{
    CheckedLayers, FacesFault, FacesLimits, FeatureSegments, KeptFeatures, MOST_LAYERS, Plan,
    check_layers, plan_fault, read_layers_alone, segments_of_texts,
};
use std::alloc::Allocator;

/// A text of faces, and the numbers of the run that made it.
#[derive(Debug, Drop)]
pub struct FacesOutput<A: Allocator> {
    pub text: Vec<u8, A>,
    pub report: FacesReport<A>,
}

/// The text of the faces of up to 64 layers, over tiles of this side, and its report. It is refused as `faces_within` is, but for the
/// number of workers and the sink. No piece is made twice.
pub fn faces_alone<A: Allocator + Copy>(
    alloc: A,
    layers: &[&[u8]],
    side: u32,
    limits: FacesLimits,
) -> Result<FacesOutput<A>, FacesFault>
    requires { length layers.now ≤ MOST_LAYERS }
    ensures answer { MatchResult result (λ m. AreFacesWritten limits (alone side) (map (λ t. t.now) layers.now) m.text.items m.report) (λ f. DeclinesFaces limits (alone side) (map (λ t. t.now) layers.now) f.at f.refusal) }
    ensures none_remade { IfOk result (λ m. m.report.remade ≡ 0) }
{
    let plan = Plan { side, workers: 1 };
    if let Some(fault) = plan_fault(plan) {
        return Err(FacesFault::of_run(fault));
    }
    let read = read_layers_alone(alloc, limits, layers)?;
    let checked = match check_layers(layers, plan, limits, &read) {
        Ok(checked) => checked,
        Err(fault) => return Err(fault),
    };
    let borders = or_want(borders_alone(alloc, &checked, read.kept))?;
    by_borders_alone(alloc, &checked, borders)
}

/// The borders of the features of layers that were checked, by what was kept of these.
pub(crate) fn borders_alone<A: Allocator + Copy>(
    alloc: A,
    checked: &CheckedLayers<'_, '_>,
    kept: KeptFeatures<A>,
) -> Result<FaceBorders<A>, NoMemory>
    requires { HaveKept (map (λ t. t.now) checked.now.layers.now) kept }
    ensures borders { IfOk result (AreBordersOver (map (λ t. t.now) checked.now.layers.now) checked.now.grid) }
    ensures none_remade { IfOk result (λ b. b.rounded.remade ≡ 0) }
{
    let all = segments_of_texts(alloc, checked, kept)?;
    borders_of_alone(alloc, &checked.grid, all)
}

/// The borders of features, over a grid, by their segments.
pub(crate) fn borders_of_alone<A: Allocator + Copy>(
    alloc: A,
    grid: &Grid,
    all: FeatureSegments<A>,
) -> Result<FaceBorders<A>, NoMemory>
    requires owned { AreOwned all }
    requires covered { HaveTiles grid.now all.segments.items }
    ensures borders { (layers : List (List (List (List Pt)))) → AreFeaturesOf layers all → IfOk result (AreBordersOf layers grid.now) }
    ensures none_remade { IfOk result (λ b. b.rounded.remade ≡ 0) }
{
    let FeatureSegments {
        segments,
        owners,
        sizes,
        ..
    } = all;
    let rounded = features_alone(alloc, grid, &segments, &owners)?;
    Ok(FaceBorders { rounded, sizes })
}

/// The faces and the report of layers that were checked, by the borders of their features.
fn by_borders_alone<A: Allocator + Copy>(
    alloc: A,
    checked: &CheckedLayers<'_, '_>,
    borders: FaceBorders<A>,
) -> Result<FacesOutput<A>, FacesFault>
    requires { AreBordersOver (map (λ t. t.now) checked.now.layers.now) checked.now.grid borders }
    ensures answer { MatchResult result (λ m. AreFacesWritten checked.now.limits checked.now.plan (map (λ t. t.now) checked.now.layers.now) m.text.items m.report) (λ f. DeclinesFaces checked.now.limits checked.now.plan (map (λ t. t.now) checked.now.layers.now) f.at f.refusal) }
    ensures same_remade { IfOk result (λ m. m.report.remade ≡ borders.rounded.remade) }
{
    let FaceBorders { rounded, sizes } = borders;
    let BoundedRows { rows, ids } = bounded_rows_alone(alloc, checked.limits.ids, &rounded)?;
    let text = or_want(rows_text_alone(alloc, &sizes, &rows))?;
    let report = or_want(faces_report_of(alloc, sizes, &rounded, &rows, ids))?;
    Ok(FacesOutput { text, report })
}
