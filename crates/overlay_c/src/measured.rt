//! Operations on two layers that C passes, with the areas of both layers and of the result.

ghost use Rattle.std.specs.Prelude.{◌≡◌, MatchResult};
ghost use Rattle.overlay_c.specs.Columns.{FailsColumns, columns_in, lists_of};
ghost use Rattle.overlay_c.specs.Measured.{AreMeasuredColumns, FailsMeasured, IsMeasuredText, layer_told, no_measures, told_measures};

use crate::answer::{NO_CALL, OverlayAnswer, answer_of, plain_answer};
use crate::columns_answer::{OverlayColumnsAnswer, answer_of_columns, no_such_call};
use crate::columns_layer::{OverlayColumns, columns_from, op_of};
use columns::OwnedColumns;
use engine::{
    ColumnsOutput, LayerMeasures, Limits, Measured, Measures, Output,
    run_columns_measured_alone_within, run_measured_alone_within,
};
use std::alloc::Global;

/// What became of a layer that was rounded with another one.
#[repr(C)]
#[derive(Clone, Copy)]
pub struct OverlayLayerMeasures {
    /// Twice the area of its points by parity, in squares of the grid.
    pub twice_area: i64,
    /// How many steps the routes of its segments have: the sum of its counts.
    pub steps: u64,
}

/// What became of both layers, and the area of the result. All is 0 where there is no result.
#[repr(C)]
#[derive(Clone, Copy)]
pub struct OverlayMeasures {
    pub a: OverlayLayerMeasures,
    pub b: OverlayLayerMeasures,
    /// Twice the area of the result.
    pub twice_area: i64,
}

/// What is told of a layer.
fn told_of_layer(layer: LayerMeasures) -> OverlayLayerMeasures
    ensures { result ≡ layer_told layer }
{
    OverlayLayerMeasures {
        twice_area: layer.twice_area,
        steps: layer.steps,
    }
}

/// What is told of measures.
fn told_of(measures: Measures) -> OverlayMeasures
    ensures { result ≡ told_measures measures }
{
    OverlayMeasures {
        a: told_of_layer(measures.a),
        b: told_of_layer(measures.b),
        twice_area: measures.twice_area,
    }
}

/// What is told where there is no result.
fn nothing_measured() -> OverlayMeasures
    ensures { result ≡ no_measures }
{
    let layer = OverlayLayerMeasures {
        twice_area: 0,
        steps: 0,
    };
    OverlayMeasures {
        a: layer,
        b: layer,
        twice_area: 0,
    }
}

/// The text of a result within a limit of segments, and its measures; or the answer where there is none.
pub fn measured_text(
    alloc: Global,
    call: u32,
    side: u32,
    limits: Limits,
    a: &[u8],
    b: &[u8],
    measures: &mut OverlayMeasures,
) -> Result<Vec<u8>, OverlayAnswer>
    ensures { MatchResult result (λ text. IsMeasuredText limits.segments call side a.now b.now text.items measures.new) (λ answer. FailsMeasured limits.segments call side a.now b.now answer × (measures.new ≡ no_measures)) }
{
    *measures = nothing_measured();
    let Some(op) = op_of(call) else {
        return Err(plain_answer(NO_CALL, 0));
    };
    match run_measured_alone_within(alloc, op, a, b, side, limits) {
        Ok(made) => {
            let Measured {
                answer,
                measures: found,
            } = made;
            let Output { text, .. } = answer;
            *measures = told_of(found);
            Ok(text)
        }
        Err(fault) => Err(answer_of(&fault)),
    }
}

/// The columns of a result within a limit of segments, and its measures; or the answer where there are none.
pub fn measured_columns(
    alloc: Global,
    call: u32,
    side: u32,
    limits: Limits,
    a: &OverlayColumns<'_>,
    b: &OverlayColumns<'_>,
    measures: &mut OverlayMeasures,
) -> Result<OwnedColumns<Global>, OverlayColumnsAnswer>
    ensures { MatchResult result (λ c. AreMeasuredColumns limits.segments call side (columns_in a.now) (columns_in b.now) (lists_of c) measures.new) (λ answer. FailsColumns limits.segments call side (columns_in a.now) (columns_in b.now) answer × (measures.new ≡ no_measures)) }
{
    *measures = nothing_measured();
    let Some(op) = op_of(call) else {
        return Err(no_such_call());
    };
    let first = columns_from(a);
    let second = columns_from(b);
    match run_columns_measured_alone_within(alloc, op, &first, &second, side, limits) {
        Ok(made) => {
            let Measured {
                answer,
                measures: found,
            } = made;
            let ColumnsOutput { columns, .. } = answer;
            *measures = told_of(found);
            Ok(columns)
        }
        Err(refused) => Err(answer_of_columns(refused)),
    }
}
