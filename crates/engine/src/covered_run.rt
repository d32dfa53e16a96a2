//! Operations on two layers that are read as covered: a point lies in a layer where one of its features at least covers it.
//!
//! 1. Plan and layers are read, checked and rounded as for faces (`faces_run`): only here is an input refused.
//! 2. The borders of the features give the canonical line (`covered_result`) and the report.
//! 3. Only now is the sink called: it is sent the text whole.

ghost use Rattle.std.specs.Prelude.{◌≡◌, ◌≤◌, ◌<◌, [], ◌∷◌, ℕ, IfOk, List, MatchResult, length, map};
ghost use Rattle.engine.specs.CoveredRuns.{DeclinesCovered, DeliversCovered, IsCoveredWritten, RunsCovered, covered_limits};
ghost use Rattle.engine.specs.Faces.{AreBordersOver};
ghost use Rattle.engine.specs.Rounds.{TellsTiles};
ghost use Rattle.layers.specs.Refusals.{segment_limit};

use crate::covered_result::covered_text;
use crate::engine::MadeInParts;
use crate::faces_run::{FaceBorders, face_borders, or_want};
use crate::rounds::{all_hot, all_records, told_of};
use geom::{Fault, NoMemory, Op};
use grid::MOST_TILES;
use layers::{
    CheckedLayers, FacesFault, FacesLimits, LayerSize, Limits, Plan, check_layers, plan_fault,
    read_layers,
};
use linking::RoundedBorders;
use results::{Report, Sink, write_parts};
use std::alloc::Allocator;
use std::sync::Wait;
use std::thread::Threads;
use tile_book::Gate;

/// Writes the result of an operation on two layers to a sink, as one canonical line, where a point lies in a layer if one of its features
/// at least covers it, so that features that overlap don't cancel. It is refused as `faces` is, but for the number of features in all rows:
/// for the first of a bad tile side, a bad number of workers, either layer, too many segments, too many tiles; then for want of memory, and
/// where the sink fails. Only a sink that fails has taken anything then. The workers call the gate.
pub fn run_covered<
    A: Allocator + Copy + Send + Sync,
    G: Gate + Sync,
    S: Sink,
    R: Threads + Wait + Sync,
>(
    rt: &R,
    alloc: A,
    op: Op,
    a: &[u8],
    b: &[u8],
    plan: Plan,
    gate: &G,
    sink: &mut S,
) -> Result<Report<A>, FacesFault>
    requires { (S.state sink.old).failed < u64.MAX }
    ensures { RunsCovered segment_limit S.state sink.old sink.new op plan a.now b.now result }
{
    run_covered_within(rt, alloc, op, a, b, plan, Limits::default(), gate, sink)
}

/// The same within a limit of segments that is given: too many are more than that.
pub fn run_covered_within<
    A: Allocator + Copy + Send + Sync,
    G: Gate + Sync,
    S: Sink,
    R: Threads + Wait + Sync,
>(
    rt: &R,
    alloc: A,
    op: Op,
    a: &[u8],
    b: &[u8],
    plan: Plan,
    limits: Limits,
    gate: &G,
    sink: &mut S,
) -> Result<Report<A>, FacesFault>
    requires { (S.state sink.old).failed < u64.MAX }
    ensures { RunsCovered limits.segments S.state sink.old sink.new op plan a.now b.now result }
{
    let made = made_covered(rt, alloc, op, a, b, plan, limits, gate)?;
    send_covered(made, sink)
}

/// The limits of faces, with no limit for the features of rows, which aren't made.
pub(crate) fn limits_of(limits: Limits) -> FacesLimits
    ensures { result ≡ covered_limits limits.segments }
{
    FacesLimits {
        segments: limits.segments,
        ids: u64::MAX,
    }
}

/// The result and the report, where nothing is refused. The workers call the gate.
fn made_covered<A: Allocator + Copy + Send + Sync, G: Gate + Sync, R: Threads + Wait + Sync>(
    rt: &R,
    alloc: A,
    op: Op,
    a: &[u8],
    b: &[u8],
    plan: Plan,
    limits: Limits,
    gate: &G,
) -> Result<MadeInParts<A>, FacesFault>
    ensures { MatchResult result (λ m. IsCoveredWritten limits.segments op plan a.now b.now m.text m.report) (λ f. DeclinesCovered limits.segments plan a.now b.now f.at f.refusal) }
{
    if let Some(fault) = plan_fault(plan) {
        return Err(FacesFault::of_run(fault));
    }
    let layers = [a, b];
    let limits = limits_of(limits);
    let read = read_layers(rt, alloc, limits, plan.workers, &layers)?;
    let checked = match check_layers(&layers, plan, limits, &read) {
        Ok(checked) => checked,
        Err(fault) => return Err(fault),
    };
    let borders = or_want(face_borders(rt, alloc, &checked, read.kept, gate))?;
    or_want(covered_by_borders(rt, alloc, op, &checked, borders))
}

/// The result and the report for layers that were checked, by the borders of their features.
fn covered_by_borders<A: Allocator + Copy + Send + Sync, R: Threads + Sync>(
    rt: &R,
    alloc: A,
    op: Op,
    checked: &CheckedLayers<'_, '_>,
    borders: FaceBorders<A>,
) -> Result<MadeInParts<A>, NoMemory>
    requires two { length checked.now.layers.now ≡ 2 }
    requires borders { AreBordersOver (map (λ t. t.now) checked.now.layers.now) checked.now.grid borders }
    ensures { (a b : List ℕ) → map (λ t. t.now) checked.now.layers.now ≡ a ∷ b ∷ [] → IfOk result (λ m. IsCoveredWritten checked.now.limits.segments op checked.now.plan a b m.text m.report) }
{
    let FaceBorders { rounded, sizes } = borders;
    let (first, second) = (sizes[0], sizes[1]);
    let text = covered_text(
        rt,
        alloc,
        checked.plan.workers,
        op,
        first.features,
        &rounded.borders,
        &rounded.features,
    )?;
    let report = covered_report(alloc, first, second, &rounded)?;
    Ok(MadeInParts { text, report })
}

/// The numbers of a run.
pub(crate) fn covered_report<A: Allocator + Copy>(
    alloc: A,
    first: LayerSize,
    second: LayerSize,
    rounded: &RoundedBorders<A>,
) -> Result<Report<A>, NoMemory>
    requires { length rounded.now.tiles.items ≤ MOST_TILES }
    ensures layers { IfOk result (λ r. (r.segments_a ≡ first.segments) × (r.segments_b ≡ second.segments)) }
    ensures edges { IfOk result (λ r. r.edges ≡ length rounded.now.borders.items) }
    ensures tiles { IfOk result (λ r. TellsTiles rounded.now.tiles.items r.hot r.records r.tiles.items) }
    ensures remade { IfOk result (λ r. r.remade ≡ rounded.now.remade) }
{
    let tiles = told_of(alloc, &rounded.tiles)?;
    Ok(Report {
        segments_a: first.segments,
        segments_b: second.segments,
        hot: all_hot(&rounded.tiles),
        records: all_records(&rounded.tiles),
        edges: u32::try_from(rounded.borders.len()).map_err(|_| NoMemory)?,
        remade: rounded.remade,
        tiles,
    })
}

/// Sends a text whole, and answers its report.
fn send_covered<A: Allocator, S: Sink>(
    made: MadeInParts<A>,
    sink: &mut S,
) -> Result<Report<A>, FacesFault>
    requires { (S.state sink.old).failed < u64.MAX }
    ensures { DeliversCovered (S.state sink.old) (S.state sink.new) made result }
{
    if write_parts(sink, made.text.parts()).is_err() {
        return Err(FacesFault::of_run(Fault::Write));
    }
    Ok(made.report)
}
