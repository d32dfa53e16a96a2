//! An operation on two layers that are read as covered, over sinks.

ghost use Rattle.std.specs.Prelude.{ℕ, ◌≡◌, ◌<◌, IfErr};
ghost use Rattle.program.specs.Program.{DoesCovered, PerformsCovered, RunsCoveredFor};

use crate::asked::Request;
use crate::faces_program::tell_fault;
use crate::program::{ANSWERED, limits_of, show_report};
use engine::{FacesFault, FacesRefusal, Plan, Report, Sink, fitting_side_over, run_covered_within};
use geom::{Fault, Op};
use grid::DEFAULT_SIDE;
use std::alloc::Global;
use std::sync::Wait;
use std::thread::Threads;
use tile_book::OpenGate;

/// Runs an operation on two layer texts, tells of it, and answers the exit status.
pub(crate) fn answer_covered<R: Threads + Wait + Sync, O: Sink, E: Sink>(
    rt: &R,
    alloc: Global,
    asked: &Request<'_>,
    op: Op,
    a: &[u8],
    b: &[u8],
    out: &mut O,
    err: &mut E,
) -> u8
    requires out { (O.state out.old).failed < u64.MAX }
    requires err { (E.state err.old).failed < u64.MAX }
    ensures { DoesCovered O.state E.state out.old out.new err.old err.new asked.now a.now b.now op result }
{
    match perform(rt, alloc, asked, op, a, b, out) {
        Ok(report) if asked.report => show_report(alloc, &report, err),
        Ok(_) => ANSWERED,
        Err(fault) => tell_fault(alloc, &fault, err),
    }
}

/// Writes the result, by the side of a tile that was given. Where none was, the side is the default one, or where that gives too many tiles
/// the least that fits the layers: nothing is written before that is known.
fn perform<R: Threads + Wait + Sync, O: Sink>(
    rt: &R,
    alloc: Global,
    asked: &Request<'_>,
    op: Op,
    a: &[u8],
    b: &[u8],
    out: &mut O,
) -> Result<Report<Global>, FacesFault>
    requires { (O.state out.old).failed < u64.MAX }
    ensures { PerformsCovered O.state out.old out.new asked.now op a.now b.now result }
{
    let side = asked.side.unwrap_or(DEFAULT_SIDE);
    match perform_by(rt, alloc, asked, op, side, a, b, out) {
        Err(
            FacesFault {
                refusal: FacesRefusal::Usual(Fault::TooManyTiles(_)),
                ..
            },
        ) if asked.side.is_none() => {
            let side = fitting_side_over(&[a, b]);
            perform_by(rt, alloc, asked, op, side, a, b, out)
        }
        answer => answer,
    }
}

/// The same, by this side of a tile.
fn perform_by<R: Threads + Wait + Sync, O: Sink>(
    rt: &R,
    alloc: Global,
    asked: &Request<'_>,
    op: Op,
    side: u32,
    a: &[u8],
    b: &[u8],
    out: &mut O,
) -> Result<Report<Global>, FacesFault>
    requires { (O.state out.old).failed < u64.MAX }
    ensures runs { RunsCoveredFor O.state out.old out.new asked.now op side a.now b.now result }
    ensures unwritten { IfErr result (λ f. (count : ℕ) → f.refusal ≡ FacesRefusal.Usual (Fault.TooManyTiles count) → out.new ≡ out.old) }
{
    let plan = Plan {
        side,
        workers: asked.workers,
    };
    let limits = limits_of(asked.segments);
    run_covered_within(rt, alloc, op, a, b, plan, limits, &OpenGate, out)
}
