//! The faces of layers that C passes as columns.

ghost use Rattle.std.specs.Prelude.{◌≡◌, ◌≤◌, MatchResult, length, take};
ghost use Rattle.overlay_c.specs.FacesColumns.{AreFaceColumns, FailsFaceColumns, IsSideOfLayers, face_lists_of, layers_in};

use crate::answer::NO_CALL;
use crate::columns_layer::{OverlayColumns, columns_from};
use crate::faces_answer::{OverlayFacesAnswer, answer_of_face_columns, no_faces};
use columns::{Columns, Points, survey};
use engine::{FacesColumns, FacesLimits, MOST_LAYERS, faces_columns_alone};
use grid::{DEFAULT_SIDE, default_side};
use layers::joint_bounds;
use rows::RowColumns;
use std::alloc::Global;

/// The columns of layers, and none behind them.
fn columns_of_layers<'a>(layers: &[OverlayColumns<'a>]) -> [Columns<'a>; MOST_LAYERS]
    requires { length layers.now ≤ MOST_LAYERS }
    ensures { take (length layers.now) result ≡ layers_in layers.now }
{
    let none: &[u32] = &[];
    let mut all = [Columns {
        points: Points::Interleaved(&[]),
        rings: none,
        polygons: none,
        features: none,
    }; MOST_LAYERS];
    for (number, layer) in layers.iter().enumerate() {
        all[number] = columns_from(layer);
    }
    all
}

/// The columns of the faces of layers within limits, or the answer where there are none.
pub fn face_columns(
    alloc: Global,
    side: u32,
    limits: FacesLimits,
    layers: &[OverlayColumns<'_>],
) -> Result<RowColumns<Global>, OverlayFacesAnswer>
    ensures { MatchResult result (λ m. AreFaceColumns limits side (layers_in layers.now) (face_lists_of m)) (λ answer. FailsFaceColumns limits side (layers_in layers.now) answer) }
{
    if layers.len() > MOST_LAYERS {
        return Err(no_faces(NO_CALL, 0, 0, 0));
    }
    let all = columns_of_layers(layers);
    match faces_columns_alone(alloc, &all[..layers.len()], side, limits) {
        Ok(FacesColumns { columns, .. }) => Ok(columns),
        Err(refused) => Err(answer_of_face_columns(layers.len() as u32, refused)),
    }
}

/// The side of a tile that fits layers, where these aren't too many. Takes no memory.
pub fn side_of_layers(layers: &[OverlayColumns<'_>]) -> u32
    ensures { IsSideOfLayers (layers_in layers.now) result }
{
    if layers.len() > MOST_LAYERS {
        return DEFAULT_SIDE;
    }
    let mut bounds = None;
    for layer in layers {
        match survey(&columns_from(layer)) {
            Ok(outline) => bounds = joint_bounds(bounds, outline.bounds),
            Err(_) => return DEFAULT_SIDE,
        }
    }
    default_side(bounds)
}
