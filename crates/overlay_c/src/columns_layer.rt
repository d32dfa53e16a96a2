//! Layers that C passes as columns, and the columns of an operation's result on them.

ghost use Rattle.std.specs.Prelude.{◌≡◌, MatchResult};
ghost use Rattle.engine.specs.Fitting.{IsFittingSideOfColumns};
ghost use Rattle.overlay_c.specs.Columns.{FailsColumns, IsColumnsResult, columns_in, lists_of, op_from};

use crate::columns_answer::{OverlayColumnsAnswer, answer_of_columns, no_such_call};
use columns::{Columns, OwnedColumns, Points};
use engine::{ColumnsOutput, Limits, fitting_side_of_columns, run_columns_alone_within};
use geom::Op;
use std::alloc::Allocator;

/// A layer as columns of coordinates and offsets.
#[repr(C)]
#[derive(Clone, Copy)]
pub struct OverlayColumns<'a> {
    /// x y x y ..
    pub coordinates: &'a [i32],
    /// Where each ring begins among the points.
    pub rings: &'a [u32],
    /// Where each polygon begins among the rings.
    pub polygons: &'a [u32],
    /// Where each feature begins among the polygons.
    pub features: &'a [u32],
}

/// The operation that the number of a call asks for.
pub fn op_of(call: u32) -> Option<Op>
    ensures { result ≡ op_from call }
{
    match call {
        0 => Some(Op::Union),
        1 => Some(Op::Intersection),
        2 => Some(Op::Difference),
        3 => Some(Op::SymDifference),
        _ => None,
    }
}

/// The columns of a layer, as it is passed.
pub fn columns_from<'a>(layer: &OverlayColumns<'a>) -> Columns<'a>
    ensures { result ≡ columns_in layer.now }
{
    Columns {
        points: Points::Interleaved(layer.coordinates),
        rings: layer.rings,
        polygons: layer.polygons,
        features: layer.features,
    }
}

/// The columns of the result within a limit of segments, or the answer where there are none.
pub fn columns_result<A: Allocator + Copy>(
    alloc: A,
    call: u32,
    side: u32,
    limits: Limits,
    a: &OverlayColumns<'_>,
    b: &OverlayColumns<'_>,
) -> Result<OwnedColumns<A>, OverlayColumnsAnswer>
    ensures { MatchResult result (λ c. IsColumnsResult limits.segments call side (columns_in a.now) (columns_in b.now) (lists_of c)) (λ answer. FailsColumns limits.segments call side (columns_in a.now) (columns_in b.now) answer) }
{
    let Some(op) = op_of(call) else {
        return Err(no_such_call());
    };
    let first = columns_from(a);
    let second = columns_from(b);
    match run_columns_alone_within(alloc, op, &first, &second, side, limits) {
        Ok(ColumnsOutput { columns, .. }) => Ok(columns),
        Err(refused) => Err(answer_of_columns(refused)),
    }
}

/// The side of a tile that fits two layers.
pub fn side_of_columns(a: &OverlayColumns<'_>, b: &OverlayColumns<'_>) -> u32
    ensures { IsFittingSideOfColumns (columns_in a.now) (columns_in b.now) result }
{
    fitting_side_of_columns(&columns_from(a), &columns_from(b))
}
