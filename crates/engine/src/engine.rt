//! The engine's calls: two layer texts in, a text to a sink.
//!
//! 1. The plan is checked and the layers are read (`read_both`), and what was read is checked (`check`): only here is an input
//!    refused.
//! 2. The segments of both layers are read (`read_segments_by_workers`), and workers round them (`rounded_segments`).
//! 3. The rounded edges give the text that is wanted (`text_by_workers`), and the report (`report_for`), in `by_edges`.
//! 4. Only now is the sink called: it is sent the text whole (`send`).

ghost use Rattle.std.specs.Prelude.{◌≡◌, ◌<◌, ℕ, IfOk, List, MatchResult};
ghost use Rattle.engine.specs.Results.{IsResultWritten, IsResultWrittenWithin, IsWrittenWithin};
ghost use Rattle.results.specs.Results.{IsWantedText};
ghost use Rattle.points_law.specs.Law.{AreLayers};
ghost use Rattle.engine.specs.Rounds.{AreRoundedOver, IsRemade};
ghost use Rattle.engine.specs.Runs.{AreEdgesWritten, AreEdgesWrittenWithin, DeclinesWithin, Delivers, ReportsWithin, Runs, RunsWithin};

use crate::rounds::{report_of, rounded_segments};
use geom::{Fault, NoMemory, Op, Part, RunFault};
use layers::{CheckedInput, Limits, Plan, check, check_plan, read_both, read_segments_by_workers};
use linking::Noded;
use results::{Report, Sink, TextParts, Wanted, text_by_workers, write_parts};
use std::alloc::Allocator;
use std::sync::Wait;
use std::thread::Threads;
use tile_book::Gate;

/// A text, and the numbers of the run that made it.
#[derive(Drop)]
pub struct Output<A: Allocator> {
    pub text: Vec<u8, A>,
    pub report: Report<A>,
}

/// The same, where several workers made the text in parts.
#[derive(Drop)]
pub(crate) struct MadeInParts<A: Allocator> {
    pub text: TextParts<A>,
    pub report: Report<A>,
}

/// Writes the rounded edges of two layers to a sink. It is refused for the first of these: a bad tile side, a bad number
/// of workers, layer A, layer B, too many segments, too many tiles; then for want of memory, and where the sink fails. Only
/// a sink that fails has taken anything then. The workers call the gate.
pub fn edges<A: Allocator + Copy + Send + Sync, G: Gate + Sync, S: Sink, R: Threads + Wait + Sync>(
    rt: &R,
    alloc: A,
    a: &[u8],
    b: &[u8],
    plan: Plan,
    gate: &G,
    sink: &mut S,
) -> Result<Report<A>, RunFault>
    requires { (S.state sink.old).failed < u64.MAX }
    ensures { Runs S.state sink.old sink.new plan a.now b.now (AreEdgesWritten plan a.now b.now) result }
{
    let usual = Limits::default();
    let made = made(rt, alloc, Wanted::Edges, a, b, plan, usual, gate)?;
    send(made, sink)
}

/// The same within a limit of segments that is given: too many are more than that, and a layer text may have 256 bytes for each of them
/// (`layers::text_limit`).
pub fn edges_within<
    A: Allocator + Copy + Send + Sync,
    G: Gate + Sync,
    S: Sink,
    R: Threads + Wait + Sync,
>(
    rt: &R,
    alloc: A,
    a: &[u8],
    b: &[u8],
    plan: Plan,
    limits: Limits,
    gate: &G,
    sink: &mut S,
) -> Result<Report<A>, RunFault>
    requires { (S.state sink.old).failed < u64.MAX }
    ensures { RunsWithin limits.segments S.state sink.old sink.new plan a.now b.now (AreEdgesWrittenWithin limits.segments plan a.now b.now) result }
{
    let made = made(rt, alloc, Wanted::Edges, a, b, plan, limits, gate)?;
    send(made, sink)
}

/// Writes the result of an operation on two layers to a sink, as one canonical line. It is refused as `edges` is, for the
/// first of these: a bad tile side, a bad number of workers, layer A, layer B, too many segments, too many tiles; then for
/// want of memory, and where the sink fails. Only a sink that fails has taken anything then. The workers call the gate.
pub fn run<A: Allocator + Copy + Send + Sync, G: Gate + Sync, S: Sink, R: Threads + Wait + Sync>(
    rt: &R,
    alloc: A,
    op: Op,
    a: &[u8],
    b: &[u8],
    plan: Plan,
    gate: &G,
    sink: &mut S,
) -> Result<Report<A>, RunFault>
    requires { (S.state sink.old).failed < u64.MAX }
    ensures { Runs S.state sink.old sink.new plan a.now b.now (IsResultWritten op plan a.now b.now) result }
{
    let usual = Limits::default();
    let made = made(rt, alloc, Wanted::Apply(op), a, b, plan, usual, gate)?;
    send(made, sink)
}

/// The same within a limit of segments that is given: too many are more than that, and a layer text may have 256 bytes for each of them
/// (`layers::text_limit`).
pub fn run_within<
    A: Allocator + Copy + Send + Sync,
    G: Gate + Sync,
    S: Sink,
    R: Threads + Wait + Sync,
>(
    rt: &R,
    alloc: A,
    op: Op,
    a: &[u8],
    b: &[u8],
    plan: Plan,
    limits: Limits,
    gate: &G,
    sink: &mut S,
) -> Result<Report<A>, RunFault>
    requires { (S.state sink.old).failed < u64.MAX }
    ensures { RunsWithin limits.segments S.state sink.old sink.new plan a.now b.now (IsResultWrittenWithin limits.segments op plan a.now b.now) result }
{
    let made = made(rt, alloc, Wanted::Apply(op), a, b, plan, limits, gate)?;
    send(made, sink)
}

/// The text that is wanted of two layers, and the report, where nothing is refused. The workers call the gate.
fn made<A: Allocator + Copy + Send + Sync, G: Gate + Sync, R: Threads + Wait + Sync>(
    rt: &R,
    alloc: A,
    wanted: Wanted,
    a: &[u8],
    b: &[u8],
    plan: Plan,
    limits: Limits,
    gate: &G,
) -> Result<MadeInParts<A>, RunFault>
    ensures { MatchResult result (λ m. IsWrittenWithin limits.segments wanted plan a.now b.now m.text m.report) (λ f. DeclinesWithin limits.segments plan a.now b.now f.at f.fault) }
{
    check_plan(plan)?;
    let (read_a, read_b) = read_both(rt, alloc, limits, plan.workers, a, b);
    let checked = match check(a, b, plan, limits, &read_a, &read_b) {
        Ok(checked) => checked,
        Err(fault) => return Err(fault),
    };
    let read = or_fault(read_segments_by_workers(rt, alloc, &checked, read_a, read_b))?;
    let noded = or_fault(rounded_segments(rt, alloc, &checked.grid, plan.workers, read, gate))?;
    or_fault(by_edges(rt, alloc, wanted, &checked, noded))
}

/// The same of two layers that were checked, by their rounded edges.
fn by_edges<A: Allocator + Copy + Send + Sync, R: Threads + Sync>(
    rt: &R,
    alloc: A,
    wanted: Wanted,
    checked: &CheckedInput<'_, '_>,
    noded: Noded<A>,
) -> Result<MadeInParts<A>, NoMemory>
    requires rounded { AreRoundedOver checked.now.a.now checked.now.b.now checked.now.grid noded.edges.items noded.tiles.items }
    requires layers { ∥ AreLayers noded.edges.items ∥₁ }
    requires remade { IsRemade noded.remade }
    ensures { IfOk result (λ m. IsWrittenWithin checked.now.limits.segments wanted checked.now.plan checked.now.a.now checked.now.b.now m.text m.report) }
{
    let report = report_for(alloc, checked, &noded)?;
    let Noded { edges, .. } = noded;
    let text = text_by_workers(rt, alloc, checked.plan.workers, wanted, edges)?;
    Ok(MadeInParts { text, report })
}

/// The report on two layers that were checked, by their rounded edges.
pub(crate) fn report_for<A: Allocator + Copy>(
    alloc: A,
    checked: &CheckedInput<'_, '_>,
    noded: &Noded<A>,
) -> Result<Report<A>, NoMemory>
    requires rounded { AreRoundedOver checked.now.a.now checked.now.b.now checked.now.grid noded.now.edges.items noded.now.tiles.items }
    requires remade { IsRemade noded.now.remade }
    ensures reports { IfOk result (ReportsWithin checked.now.limits.segments checked.now.plan checked.now.a.now checked.now.b.now noded.now.edges.items) }
    ensures remade { IfOk result (λ r. r.remade ≡ noded.now.remade) }
{
    report_of(alloc, checked.segments_a, checked.segments_b, noded)
}

/// What was made, or that the run wants memory.
pub(crate) fn or_fault<M>(made: Result<M, NoMemory>) -> Result<M, RunFault>
    ensures { MatchResult result (λ m. made ≡ Ok m) (λ f. (f.at ≡ Part.Run) × (f.fault ≡ Fault.Memory)) }
{
    match made {
        Ok(made) => Ok(made),
        Err(_) => Err(RunFault {
            at: Part::Run,
            fault: Fault::Memory,
        }),
    }
}

/// Sends a text whole, and answers its report.
pub(crate) fn send<A: Allocator, S: Sink>(
    made: MadeInParts<A>,
    sink: &mut S,
) -> Result<Report<A>, RunFault>
    requires { (S.state sink.old).failed < u64.MAX }
    ensures { Delivers (S.state sink.old) (S.state sink.new) made result }
{
    if write_parts(sink, made.text.parts()).is_err() {
        return Err(RunFault {
            at: Part::Run,
            fault: Fault::Write,
        });
    }
    Ok(made.report)
}
