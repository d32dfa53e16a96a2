//! Operations on two layers that C passes, which are read as covered.

ghost use Rattle.std.specs.Prelude.{MatchResult};
ghost use Rattle.overlay_c.specs.Covered.{FailsCovered, IsCoveredMade};

use crate::answer::{NO_CALL, OverlayAnswer, answer_of_faces, plain_answer};
use crate::columns_layer::op_of;
use engine::{Limits, Output, run_covered_alone_within};
use std::alloc::Global;

/// How many layers an operation has.
const BOTH: u32 = 2;

/// The text within a limit of segments, or the answer where there is none.
pub fn covered_text(
    alloc: Global,
    call: u32,
    side: u32,
    limits: Limits,
    a: &[u8],
    b: &[u8],
) -> Result<Vec<u8>, OverlayAnswer>
    ensures { MatchResult result (λ text. IsCoveredMade limits.segments call side a.now b.now text.items) (λ answer. FailsCovered limits.segments call side a.now b.now answer) }
{
    let Some(op) = op_of(call) else {
        return Err(plain_answer(NO_CALL, 0));
    };
    match run_covered_alone_within(alloc, op, a, b, side, limits) {
        Ok(Output { text, .. }) => Ok(text),
        Err(fault) => Err(answer_of_faces(BOTH, &fault)),
    }
}
