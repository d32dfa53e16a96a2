//! An operation, or the edges, of two layers.

ghost use Rattle.std.specs.Prelude.{◌<◌};

use engine::{MemSink, Plan, Report, Sink, edges, report_text, run};
use geom::{NoMemory, Op, RunFault};
use std::alloc::{Allocator, Global};
use std::sync::Wait;
use std::thread::Threads;
use tile_book::{Gate, OpenGate};

/// Writes the result of an operation on two layers, or their edges.
pub fn overlaid<
    A: Allocator + Copy + Send + Sync,
    G: Gate + Sync,
    S: Sink,
    R: Threads + Wait + Sync,
>(
    rt: &R,
    alloc: A,
    op: Option<Op>,
    layers: (&str, &str),
    plan: Plan,
    gate: &G,
    sink: &mut S,
) -> Result<Report<A>, RunFault>
    requires { (S.state sink.old).failed < u64.MAX }
{
    let (a, b) = (layers.0.as_bytes(), layers.1.as_bytes());
    match op {
        Some(op) => run(rt, alloc, op, a, b, plan, gate, sink),
        None => edges(rt, alloc, a, b, plan, gate, sink),
    }
}

/// Whether a run gives this text, settled, and a report that begins so.
pub fn is_overlaid<R: Threads + Wait + Sync>(
    rt: &R,
    alloc: Global,
    op: Option<Op>,
    layers: (&str, &str),
    plan: Plan,
    text: &str,
    report: &str,
) -> Result<bool, NoMemory> {
    let mut sink = MemSink::new(alloc, 4000)?;
    let Ok(answer) = overlaid(rt, alloc, op, layers, plan, &OpenGate, &mut sink) else {
        return Ok(false);
    };
    let told = report_text(alloc, &answer)?;
    Ok(sink.bytes() == text.as_bytes() && sink.is_settled() && told.starts_with(report.as_bytes()))
}
