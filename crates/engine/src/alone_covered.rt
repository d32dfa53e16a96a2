//! Operations on two layers that are read as covered, on the calling thread alone, from memory to memory, for a caller that has no threads
//! to lend.

ghost use Rattle.std.specs.Prelude.{◌≡◌, [], ◌∷◌, ℕ, IfOk, List, MatchResult, length, map};
ghost use Rattle.engine.specs.CoveredRuns.{DeclinesCovered, IsCoveredWritten};
ghost use Rattle.engine.specs.Faces.{AreBordersOver};
ghost use Rattle.engine.specs.Runs.{alone};

use crate::alone_faces::borders_alone;
use crate::covered_result::covered_text_alone;
use crate::covered_run::{covered_report, limits_of};
use crate::engine::Output;
use crate::faces_run::{FaceBorders, or_want};
use geom::{NoMemory, Op};
use layers::{
    CheckedLayers, FacesFault, Limits, Plan, check_layers, plan_fault, read_layers_alone,
};
use std::alloc::Allocator;

/// The canonical line of the result of an operation on two layers that are read as covered, over tiles of this side, and its report. It is
/// refused as `run_covered_within` is, but for the number of workers and the sink. No piece is made twice.
pub fn run_covered_alone_within<A: Allocator + Copy>(
    alloc: A,
    op: Op,
    a: &[u8],
    b: &[u8],
    side: u32,
    limits: Limits,
) -> Result<Output<A>, FacesFault>
    ensures answer { MatchResult result (λ m. IsCoveredWritten limits.segments op (alone side) a.now b.now m.text.items m.report) (λ f. DeclinesCovered limits.segments (alone side) a.now b.now f.at f.refusal) }
    ensures none_remade { IfOk result (λ m. m.report.remade ≡ 0) }
{
    let plan = Plan { side, workers: 1 };
    if let Some(fault) = plan_fault(plan) {
        return Err(FacesFault::of_run(fault));
    }
    let layers = [a, b];
    let limits = limits_of(limits);
    let read = read_layers_alone(alloc, limits, &layers)?;
    let checked = match check_layers(&layers, plan, limits, &read) {
        Ok(checked) => checked,
        Err(fault) => return Err(fault),
    };
    let borders = or_want(borders_alone(alloc, &checked, read.kept))?;
    or_want(covered_by_one(alloc, op, &checked, borders))
}

/// The result and the report for layers that were checked, by the borders of their features.
fn covered_by_one<A: Allocator + Copy>(
    alloc: A,
    op: Op,
    checked: &CheckedLayers<'_, '_>,
    borders: FaceBorders<A>,
) -> Result<Output<A>, NoMemory>
    requires two { length checked.now.layers.now ≡ 2 }
    requires borders { AreBordersOver (map (λ t. t.now) checked.now.layers.now) checked.now.grid borders }
    ensures answer { (a b : List ℕ) → map (λ t. t.now) checked.now.layers.now ≡ a ∷ b ∷ [] → IfOk result (λ m. IsCoveredWritten checked.now.limits.segments op checked.now.plan a b m.text.items m.report) }
    ensures same_remade { IfOk result (λ m. m.report.remade ≡ borders.rounded.remade) }
{
    let FaceBorders { rounded, sizes } = borders;
    let (first, second) = (sizes[0], sizes[1]);
    let text = covered_text_alone(
        alloc,
        op,
        first.features,
        &rounded.borders,
        &rounded.features,
    )?;
    let report = covered_report(alloc, first, second, &rounded)?;
    Ok(Output { text, report })
}
