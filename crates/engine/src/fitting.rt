//! The side of a tile where none is given.

ghost use Rattle.std.specs.Prelude.{ℕ, ◌≡◌, IfOk, MatchResult, map};
ghost use Rattle.grid.specs.Tiles.{AreBounds};
ghost use Rattle.wkt.specs.Refusals.{IsRefusedWithin};
ghost use Rattle.layers.specs.ColumnsRefusals.{AreColumnsRefused};
ghost use Rattle.layers.specs.FacesRefusals.{IsFacesRefusedAt};
ghost use Rattle.engine.specs.Fitting.{IsFittingSide, IsFittingSideOfColumns, IsFittingSideOver};
ghost use Rattle.layers.specs.Refusals.{HasOutlineWithin, IsRefusedAtWithin, greatest_text};

use columns::{Columns, survey};
use geom::{Fault, Part};
use grid::{DEFAULT_SIDE, default_side};
use layers::{ColumnsRefused, FacesLimits, FacesPart, FacesRefusal, Plan, joint_bounds};
use wkt::{Outline, check_layer_within};

/// The side of a tile over two layers, in grid units, where none is given: 262,144, or where that gives too many tiles, the
/// least power of two that doesn't. So no plan with this side is refused for its tiles, whatever the limit
/// of segments is.
pub fn fitting_side(a: &[u8], b: &[u8]) -> u32
    ensures side { IsFittingSide a.now b.now result }
    ensures fits { (limit : ℕ) (plan : Plan) → plan.side ≡ result → (count : ℕ) → ¬ IsRefusedAtWithin limit plan a.now b.now Part.Run (Fault.TooManyTiles count) }
{
    let (Ok(outline_a), Ok(outline_b)) = (outline_of(a), outline_of(b)) else {
        return DEFAULT_SIDE;
    };
    default_side(joint_bounds(outline_a.bounds, outline_b.bounds))
}

/// The same over any number of layers.
pub fn fitting_side_over(layers: &[&[u8]]) -> u32
    ensures side { IsFittingSideOver (map (λ t. t.now) layers.now) result }
    ensures fits { (limits : FacesLimits) (plan : Plan) → plan.side ≡ result → (count : ℕ) → ¬ IsFacesRefusedAt limits plan (map (λ t. t.now) layers.now) FacesPart.Run (FacesRefusal.Usual (Fault.TooManyTiles count)) }
{
    let mut bounds = None;
    for text in layers {
        match outline_of(text) {
            Ok(outline) => bounds = joint_bounds(bounds, outline.bounds),
            Err(_) => return DEFAULT_SIDE,
        }
    }
    default_side(bounds)
}

/// The same over two layers that are columns. Takes no memory.
pub fn fitting_side_of_columns(a: &Columns<'_>, b: &Columns<'_>) -> u32
    ensures side { IsFittingSideOfColumns a.now b.now result }
    ensures fits { (limit : ℕ) (plan : Plan) → plan.side ≡ result → (count : ℕ) → ¬ AreColumnsRefused limit plan a.now b.now (ColumnsRefused.Run (Fault.TooManyTiles count)) }
{
    let (Ok(first), Ok(second)) = (survey(a), survey(b)) else {
        return DEFAULT_SIDE;
    };
    default_side(joint_bounds(first.bounds, second.bounds))
}

/// The outline of a layer text, where it isn't refused within any limit of bytes.
fn outline_of(text: &[u8]) -> Result<Outline, Fault>
    ensures answer { MatchResult result (λ o. HasOutlineWithin greatest_text text.now o) (λ f. IsRefusedWithin greatest_text text.now f) }
    ensures in_limit { IfOk result (λ o. AreBounds o.bounds) }
{
    check_layer_within(u32::MAX, text)
}
