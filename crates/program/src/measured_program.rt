//! An operation on two layers that are read by parity, whose areas are told, over sinks.

ghost use Rattle.std.specs.Prelude.{ℕ, ◌≡◌, ◌<◌, IfErr, IfOk};
ghost use Rattle.program.specs.Program.{DoesMeasured, PerformsMeasured, RunsMeasuredFor, ShowsMeasured, measured_text_of};

use crate::asked::Request;
use crate::program::{limits_of, show, tell_fault, tell_no_memory};
use engine::{
    Measured, Plan, Report, Sink, fitting_side, measures_text, report_text, run_measured_within,
};
use geom::{Fault, NoMemory, Op, RunFault};
use grid::DEFAULT_SIDE;
use std::alloc::Global;
use std::sync::Wait;
use std::thread::Threads;
use tile_book::OpenGate;

/// Runs an operation on two layer texts, tells of it and of the areas, and answers the exit status.
pub(crate) fn answer_measured<R: Threads + Wait + Sync, O: Sink, E: Sink>(
    rt: &R,
    alloc: Global,
    asked: &Request<'_>,
    op: Op,
    a: &[u8],
    b: &[u8],
    out: &mut O,
    err: &mut E,
) -> u8
    requires out { (O.state out.old).failed < u64.MAX }
    requires err { (E.state err.old).failed < u64.MAX }
    ensures { DoesMeasured O.state E.state out.old out.new err.old err.new asked.now a.now b.now op result }
{
    match perform(rt, alloc, asked, op, a, b, out) {
        Ok(measured) => show_measured(alloc, asked.report, &measured, err),
        Err(fault) => tell_fault(alloc, &fault, err),
    }
}

/// Writes the report, where it is wanted, and the areas behind it, and answers 0, or 1 where they can't be written.
fn show_measured<E: Sink>(
    alloc: Global,
    wanted: bool,
    measured: &Measured<Report<Global>>,
    err: &mut E,
) -> u8
    requires { (E.state err.old).failed < u64.MAX }
    ensures { ShowsMeasured (E.state err.old) (E.state err.new) wanted measured.now result }
{
    match measured_text(alloc, wanted, measured) {
        Ok(text) => show(err, text.as_slice()),
        Err(_) => tell_no_memory(err),
    }
}

/// What is told of an answer: its report, where it is wanted, and the areas behind it.
fn measured_text(
    alloc: Global,
    wanted: bool,
    measured: &Measured<Report<Global>>,
) -> Result<Vec<u8>, NoMemory>
    ensures { IfOk result (λ text. text.items ≡ measured_text_of wanted measured.now) }
{
    let areas = measures_text(alloc, &measured.measures)?;
    if !wanted {
        return Ok(areas);
    }
    let mut text = report_text(alloc, &measured.answer)?;
    text.extend_from_slice(&areas)?;
    Ok(text)
}

/// Writes the result, by the side of a tile that was given. Where none was, the side is the default one, or where that gives too many tiles
/// the least that fits the layers: nothing is written before that is known.
fn perform<R: Threads + Wait + Sync, O: Sink>(
    rt: &R,
    alloc: Global,
    asked: &Request<'_>,
    op: Op,
    a: &[u8],
    b: &[u8],
    out: &mut O,
) -> Result<Measured<Report<Global>>, RunFault>
    requires { (O.state out.old).failed < u64.MAX }
    ensures { PerformsMeasured O.state out.old out.new asked.now op a.now b.now result }
{
    let side = asked.side.unwrap_or(DEFAULT_SIDE);
    match perform_by(rt, alloc, asked, op, side, a, b, out) {
        Err(
            RunFault {
                fault: Fault::TooManyTiles(_),
                ..
            },
        ) if asked.side.is_none() => {
            perform_by(rt, alloc, asked, op, fitting_side(a, b), a, b, out)
        }
        answer => answer,
    }
}

/// The same, by this side of a tile.
fn perform_by<R: Threads + Wait + Sync, O: Sink>(
    rt: &R,
    alloc: Global,
    asked: &Request<'_>,
    op: Op,
    side: u32,
    a: &[u8],
    b: &[u8],
    out: &mut O,
) -> Result<Measured<Report<Global>>, RunFault>
    requires { (O.state out.old).failed < u64.MAX }
    ensures runs { RunsMeasuredFor O.state out.old out.new asked.now op side a.now b.now result }
    ensures unwritten { IfErr result (λ f. (count : ℕ) → f.fault ≡ Fault.TooManyTiles count → out.new ≡ out.old) }
{
    let plan = Plan {
        side,
        workers: asked.workers,
    };
    let limits = limits_of(asked.segments);
    run_measured_within(rt, alloc, op, a, b, plan, limits, &OpenGate, out)
}
