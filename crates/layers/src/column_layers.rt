//! Layers that are columns, for their faces: what they are refused for, and the segments of their features.
//!
//! 1. Each layer is surveyed in turn; the first one at fault is refused (`survey_layers`).
//! 2. All layers together have no more segments than the limit, and the grid over them few tiles (`check_column_layers`).
//! 3. The features of accepted layers give segments with owners, as those of texts do (`column_segments`).

ghost use Rattle.std.specs.Prelude.{◌≡◌, ◌≤◌, ◌+◌, ◌*◌, ◌++◌, ◌∷◌, [], IfOk, List, MatchResult, length};
ghost use Rattle.columns.specs.Refusals.{AreAccepted};
ghost use Rattle.columns.specs.declared.layout.Columns.{Columns as ColumnsOf};
ghost use Rattle.grid.specs.Tiles.{AreBounds};
ghost use Rattle.wkt.specs.Outlines.{IsOutline};
ghost use Rattle.layers.specs.ColumnsRefusals.{rings_of};
ghost use Rattle.layers.specs.ColumnLayers.{AllAccepted, AreSurveyed, IsCheckOfColumns, TellsBadColumns, features_in};
ghost use Rattle.layers.specs.FaceColumnsRefusals.{IsFaceColumnsRefused};
ghost use Rattle.layers.specs.FeatureSegments.{AreFeaturesOf};

use crate::checking::{joint_bounds, plan_fault};
use crate::columns_refused::FacesColumnsRefused;
use crate::faces_fault::FacesRefusal;
use crate::faces_limits::FacesLimits;
use crate::feature_checking::{few_segments, grid_over_all};
use crate::feature_reading::MOST_LAYERS;
use crate::feature_segments::FeatureSegments;
use crate::plan::Plan;
use columns::{Columns, survey};
use geom::{NoMemory, Rect};
use grid::Grid;
use std::alloc::Allocator;
use wkt::Outline;

/// Layers that are accepted: how many segments they have together, and the box of these.
#[derive(Clone, Copy)]
pub struct SurveyedLayers {
    pub segments: u64,
    pub bounds: Option<Rect>,
}

impl SurveyedLayers {
    /// No layers.
    fn none() -> SurveyedLayers
        ensures { AreSurveyed [] result }
    {
        SurveyedLayers {
            segments: 0,
            bounds: None,
        }
    }

    /// These and one more.
    fn and(self, next: Outline) -> SurveyedLayers
        requires few { self.segments ≤ 64 * u32.MAX }
        requires in_limit { AreBounds next.bounds }
        ensures surveyed { (layers : List ColumnsOf) (layer : ColumnsOf) → AreSurveyed layers self → AreAccepted layer → IsOutline (rings_of layer) next → AreSurveyed (layers ++ layer ∷ []) result }
        ensures few { result.segments ≤ self.segments + u32.MAX }
    {
        SurveyedLayers {
            segments: self.segments + u64::from(next.segments),
            bounds: joint_bounds(self.bounds, next.bounds),
        }
    }
}

/// What layers have together, or the first one that is refused.
fn survey_layers(layers: &[Columns<'_>]) -> Result<SurveyedLayers, FacesColumnsRefused>
    requires { length layers.now ≤ MOST_LAYERS }
    ensures { MatchResult result (AreSurveyed layers.now) (TellsBadColumns layers.now) }
{
    let mut all = SurveyedLayers::none();
    for number in 0..layers.len() {
        match survey(&layers[number]) {
            Ok(outline) => all = all.and(outline),
            Err(fault) => return Err(FacesColumnsRefused::Layer(number as u8, fault)),
        }
    }
    Ok(all)
}

/// A plan and the limits, for layers that are not refused within them, with the number of segments of all layers and the grid over them.
#[derive(Clone, Copy)]
pub struct CheckedColumnLayers {
    pub plan: Plan,
    pub limits: FacesLimits,
    pub segments: u32,
    pub grid: Grid,
}

/// Layers and a plan, where nothing is refused.
pub fn check_column_layers(
    layers: &[Columns<'_>],
    plan: Plan,
    limits: FacesLimits,
) -> Result<CheckedColumnLayers, FacesColumnsRefused>
    requires { length layers.now ≤ MOST_LAYERS }
    ensures same { IfOk result (λ c. (c.plan ≡ plan) × (c.limits ≡ limits)) }
    ensures answer { MatchResult result (IsCheckOfColumns layers.now) (IsFaceColumnsRefused limits plan layers.now) }
{
    if let Some(fault) = plan_fault(plan) {
        return Err(FacesColumnsRefused::Run(FacesRefusal::Usual(fault)));
    }
    let all = match survey_layers(layers) {
        Ok(all) => all,
        Err(refused) => return Err(refused),
    };
    let segments = match few_segments(all.segments, limits.segments) {
        Ok(segments) => segments,
        Err(fault) => return Err(FacesColumnsRefused::Run(fault.refusal)),
    };
    match grid_over_all(all.bounds, plan.side) {
        Ok(grid) => Ok(CheckedColumnLayers {
            plan,
            limits,
            segments,
            grid,
        }),
        Err(fault) => Err(FacesColumnsRefused::Run(fault.refusal)),
    }
}

/// The segments of the features of all layers.
pub fn column_segments<A: Allocator + Copy>(
    alloc: A,
    layers: &[Columns<'_>],
    room: u32,
) -> Result<FeatureSegments<A>, NoMemory>
    requires { AllAccepted layers.now }
    ensures { IfOk result (AreFeaturesOf (features_in layers.now)) }
{
    let mut all = FeatureSegments::new(alloc, room as usize)?;
    for layer in layers {
        all.push_columns(layer)?;
    }
    Ok(all)
}
