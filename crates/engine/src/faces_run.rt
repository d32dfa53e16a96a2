//! The faces of layers: which features cover which part of the plane, a line for each set of features.
//!
//! 1. The plan is checked, each layer is read into its features, and what was read is checked (`read_layers`, `check_layers`).
//! 2. The segments of all features are rounded together, which gives the borders of the features (`segments_of_texts`, `rounds`).
//! 3. The cover sets on both sides of the edges tell the rows, whose features are counted before any row is made (`face_rows`).
//! 4. The rows give the text and the report (`face_text`); only then is the sink called: it is sent the text whole.

ghost use Rattle.std.specs.Prelude.{◌≡◌, ◌<◌, ◌≤◌, IfOk, MatchResult, length, map};
ghost use Rattle.engine.specs.Faces.{AreBordersOver, AreFacesWritten, DeclinesFaces, DeliversFaces, RunsFaces};
ghost use Rattle.layers.specs.FacesRefusals.{faces_limits};
ghost use Rattle.layers.specs.FeatureLayers.{HaveKept};
ghost use Rattle.engine.specs.Rounds.{TellsTiles};

use crate::face_rows::face_sets;
use crate::face_text::rows_text_by_workers;
use crate::faces_report::FacesReport;
use crate::rounds::{all_hot, all_records, rounded_features, told_of};
use geom::{Fault, NoMemory};
use grid::MOST_TILES;
use layers::{
    CheckedLayers, FacesFault, FacesLimits, FacesPart, FacesRefusal, FeatureSegments, KeptFeatures,
    LayerSize, MOST_LAYERS, Plan, check_layers, plan_fault, read_layers, segments_of_texts,
};
use linking::RoundedBorders;
use results::{Sink, TextParts, write_parts};
use rows::Row;
use std::alloc::Allocator;
use std::sync::Wait;
use std::thread::Threads;
use tile_book::Gate;

/// A text of faces in parts, and the numbers of the run that made it.
#[derive(Drop)]
pub(crate) struct MadeFaces<A: Allocator> {
    pub text: TextParts<A>,
    pub report: FacesReport<A>,
}

/// The borders of the features of layers, and the sizes of the layers.
#[derive(Drop)]
pub(crate) struct FaceBorders<A: Allocator> {
    pub rounded: RoundedBorders<A>,
    pub sizes: Vec<LayerSize, A>,
}

/// Writes the faces of up to 64 layers to a sink, a line for each set of features that covers some points together. It is refused for the
/// first of these: a bad tile side, a bad number of workers, each layer in turn, too many segments, too many tiles, too many features in
/// all rows; then for want of memory, and where the sink fails. Only a sink that fails has taken anything then. The workers call the gate.
pub fn faces<A: Allocator + Copy + Send + Sync, G: Gate + Sync, S: Sink, R: Threads + Wait + Sync>(
    rt: &R,
    alloc: A,
    layers: &[&[u8]],
    plan: Plan,
    gate: &G,
    sink: &mut S,
) -> Result<FacesReport<A>, FacesFault>
    requires layers { length layers.now ≤ MOST_LAYERS }
    requires sink { (S.state sink.old).failed < u64.MAX }
    ensures { RunsFaces faces_limits S.state sink.old sink.new plan (map (λ t. t.now) layers.now) result }
{
    faces_within(rt, alloc, layers, plan, FacesLimits::default(), gate, sink)
}

/// The same within limits that are given: too many segments, and too many features in all rows, are more than these.
pub fn faces_within<
    A: Allocator + Copy + Send + Sync,
    G: Gate + Sync,
    S: Sink,
    R: Threads + Wait + Sync,
>(
    rt: &R,
    alloc: A,
    layers: &[&[u8]],
    plan: Plan,
    limits: FacesLimits,
    gate: &G,
    sink: &mut S,
) -> Result<FacesReport<A>, FacesFault>
    requires layers { length layers.now ≤ MOST_LAYERS }
    requires sink { (S.state sink.old).failed < u64.MAX }
    ensures { RunsFaces limits S.state sink.old sink.new plan (map (λ t. t.now) layers.now) result }
{
    let made = made_faces(rt, alloc, layers, plan, limits, gate)?;
    send_faces(made, sink)
}

/// The faces of layers and the report, where nothing is refused. The workers call the gate.
fn made_faces<A: Allocator + Copy + Send + Sync, G: Gate + Sync, R: Threads + Wait + Sync>(
    rt: &R,
    alloc: A,
    layers: &[&[u8]],
    plan: Plan,
    limits: FacesLimits,
    gate: &G,
) -> Result<MadeFaces<A>, FacesFault>
    requires { length layers.now ≤ MOST_LAYERS }
    ensures { MatchResult result (λ m. AreFacesWritten limits plan (map (λ t. t.now) layers.now) m.text m.report) (λ f. DeclinesFaces limits plan (map (λ t. t.now) layers.now) f.at f.refusal) }
{
    if let Some(fault) = plan_fault(plan) {
        return Err(FacesFault::of_run(fault));
    }
    let read = read_layers(rt, alloc, limits, plan.workers, layers)?;
    let checked = match check_layers(layers, plan, limits, &read) {
        Ok(checked) => checked,
        Err(fault) => return Err(fault),
    };
    let borders = or_want(face_borders(rt, alloc, &checked, read.kept, gate))?;
    by_borders(rt, alloc, &checked, borders)
}

/// The borders of the features of layers that were checked, by what was kept of these.
pub(crate) fn face_borders<
    A: Allocator + Copy + Send + Sync,
    G: Gate + Sync,
    R: Threads + Wait + Sync,
>(
    rt: &R,
    alloc: A,
    checked: &CheckedLayers<'_, '_>,
    kept: KeptFeatures<A>,
    gate: &G,
) -> Result<FaceBorders<A>, NoMemory>
    requires { HaveKept (map (λ t. t.now) checked.now.layers.now) kept }
    ensures { IfOk result (AreBordersOver (map (λ t. t.now) checked.now.layers.now) checked.now.grid) }
{
    let all = segments_of_texts(alloc, checked, kept)?;
    let FeatureSegments {
        segments,
        owners,
        sizes,
        ..
    } = all;
    let rounded = rounded_features(
        rt,
        alloc,
        &checked.grid,
        checked.plan.workers,
        &segments,
        &owners,
        gate,
    )?;
    Ok(FaceBorders { rounded, sizes })
}

/// The faces and the report of layers that were checked, by the borders of their features.
fn by_borders<A: Allocator + Copy + Send + Sync, R: Threads + Sync>(
    rt: &R,
    alloc: A,
    checked: &CheckedLayers<'_, '_>,
    borders: FaceBorders<A>,
) -> Result<MadeFaces<A>, FacesFault>
    requires { AreBordersOver (map (λ t. t.now) checked.now.layers.now) checked.now.grid borders }
    ensures { MatchResult result (λ m. AreFacesWritten checked.now.limits checked.now.plan (map (λ t. t.now) checked.now.layers.now) m.text m.report) (λ f. DeclinesFaces checked.now.limits checked.now.plan (map (λ t. t.now) checked.now.layers.now) f.at f.refusal) }
{
    let workers = checked.plan.workers;
    let FaceBorders { rounded, sizes } = borders;
    let sets = or_want(face_sets(rt, alloc, workers, &rounded.borders, &rounded.features))?;
    let ids = few_ids(sets.ids(), checked.limits.ids)?;
    let rows = or_want(sets.rows(rt, alloc, workers))?;
    drop(sets);
    let text = or_want(rows_text_by_workers(rt, alloc, workers, &sizes, &rows))?;
    let report = or_want(faces_report_of(alloc, sizes, &rounded, &rows, ids))?;
    Ok(MadeFaces { text, report })
}

/// How many features all rows have together, where they aren't more than the limit.
pub(crate) fn few_ids(ids: u64, limit: u64) -> Result<u64, FacesFault>
    ensures { MatchResult result (λ n. (n ≡ ids) × (ids ≤ limit)) (λ f. (f.at ≡ FacesPart.Run) × (f.refusal ≡ FacesRefusal.TooManyIds ids) × (limit < ids)) }
{
    if ids > limit {
        return Err(FacesFault {
            at: FacesPart::Run,
            refusal: FacesRefusal::TooManyIds(ids),
        });
    }
    Ok(ids)
}

/// The numbers of a run.
pub(crate) fn faces_report_of<A: Allocator + Copy>(
    alloc: A,
    layers: Vec<LayerSize, A>,
    rounded: &RoundedBorders<A>,
    rows: &[Row<A>],
    ids: u64,
) -> Result<FacesReport<A>, NoMemory>
    requires { length rounded.now.tiles.items ≤ MOST_TILES }
    ensures layers { IfOk result (λ r. r.layers ≡ layers) }
    ensures edges { IfOk result (λ r. r.edges ≡ length rounded.now.borders.items) }
    ensures rows { IfOk result (λ r. (r.rows ≡ length rows.now) × (r.ids ≡ ids)) }
    ensures tiles { IfOk result (λ r. TellsTiles rounded.now.tiles.items r.hot r.records r.tiles.items) }
    ensures remade { IfOk result (λ r. r.remade ≡ rounded.now.remade) }
{
    let tiles = told_of(alloc, &rounded.tiles)?;
    Ok(FacesReport {
        layers,
        hot: all_hot(&rounded.tiles),
        records: all_records(&rounded.tiles),
        edges: u32::try_from(rounded.borders.len()).map_err(|_| NoMemory)?,
        rows: rows.len() as u64,
        ids,
        remade: rounded.remade,
        tiles,
    })
}

/// What was made, or that the run wants memory.
pub(crate) fn or_want<M>(made: Result<M, NoMemory>) -> Result<M, FacesFault>
    ensures { MatchResult result (λ m. made ≡ Ok m) (λ f. (f.at ≡ FacesPart.Run) × (f.refusal ≡ FacesRefusal.Usual Fault.Memory)) }
{
    match made {
        Ok(made) => Ok(made),
        Err(_) => Err(FacesFault::of_run(Fault::Memory)),
    }
}

/// Sends a text whole, and answers its report.
fn send_faces<A: Allocator, S: Sink>(
    made: MadeFaces<A>,
    sink: &mut S,
) -> Result<FacesReport<A>, FacesFault>
    requires { (S.state sink.old).failed < u64.MAX }
    ensures { DeliversFaces (S.state sink.old) (S.state sink.new) made result }
{
    if write_parts(sink, made.text.parts()).is_err() {
        return Err(FacesFault::of_run(Fault::Write));
    }
    Ok(made.report)
}
