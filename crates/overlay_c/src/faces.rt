//! The faces of layers that C passes.

ghost use Rattle.std.specs.Prelude.{◌≡◌, ◌≤◌, MatchResult, length, map, take};
ghost use Rattle.overlay_c.specs.Faces.{AreFacesMade, FailsFaces, IsSideOver, texts_in};

use crate::answer::{NO_CALL, OverlayAnswer, answer_of_faces, plain_answer};
use engine::{FacesLimits, FacesOutput, MOST_LAYERS, faces_alone, fitting_side_over};
use grid::DEFAULT_SIDE;
use std::alloc::Global;

/// A layer text.
#[repr(C)]
#[derive(Clone, Copy)]
pub struct OverlayLayer<'a> {
    pub bytes: &'a [u8],
}

/// The texts of layers, and no bytes behind them.
fn texts_of<'a>(layers: &[OverlayLayer<'a>]) -> [&'a [u8]; MOST_LAYERS]
    requires { length layers.now ≤ MOST_LAYERS }
    ensures { map (λ t. t.now) (take (length layers.now) result) ≡ texts_in layers.now }
{
    let none: &[u8] = &[];
    let mut texts = [none; MOST_LAYERS];
    for (number, layer) in layers.iter().enumerate() {
        texts[number] = layer.bytes;
    }
    texts
}

/// The text of the faces of layers within limits, or the answer where there is none.
pub fn faces_text(
    alloc: Global,
    side: u32,
    limits: FacesLimits,
    layers: &[OverlayLayer],
) -> Result<Vec<u8>, OverlayAnswer>
    ensures { MatchResult result (λ text. AreFacesMade limits side (texts_in layers.now) text.items) (λ answer. FailsFaces limits side (texts_in layers.now) answer) }
{
    if layers.len() > MOST_LAYERS {
        return Err(plain_answer(NO_CALL, 0));
    }
    let texts = texts_of(layers);
    match faces_alone(alloc, &texts[..layers.len()], side, limits) {
        Ok(FacesOutput { text, .. }) => Ok(text),
        Err(fault) => Err(answer_of_faces(layers.len() as u32, &fault)),
    }
}

/// The side of a tile that fits layers, where these aren't too many.
pub fn side_over(layers: &[OverlayLayer]) -> u32
    ensures { IsSideOver (texts_in layers.now) result }
{
    if layers.len() > MOST_LAYERS {
        return DEFAULT_SIDE;
    }
    let texts = texts_of(layers);
    fitting_side_over(&texts[..layers.len()])
}
