//! The program, over files and sinks.

ghost use Rattle.std.specs.Prelude.{ℕ, ◌≡◌, ◌<◌, IfErr, map};
ghost use Rattle.layers.specs.Refusals.{text_limit};
ghost use Rattle.program.specs.FacesProgram.{DoesAnyLine};
ghost use Rattle.program.specs.Process.{DoesProcess};
ghost use Rattle.program.specs.Program.{Does, DoesByParity, DoesUnmeasured, IsSent, limit_of, Performs, RunsFor, Shows, ShowsReport, TellsFault, TellsFile, TellsLine, TellsMemory};

use crate::asked::{CliFault, Command, Request, operation_covered, operation_measured};
use crate::cli::request;
use crate::covered_program::answer_covered;
use crate::faces_cli::is_for_faces;
use crate::faces_program::drive_faces;
use crate::files::{Files, LoadFault};
use crate::measured_program::answer_measured;
use crate::noded_cli::is_for_noded;
use crate::noded_program::drive_noded;
use crate::words::{Words, WordsFault};
use engine::{
    Limits, Plan, Report, Sink, edges_within, fitting_side, line, report_text, run_within, status,
    text_limit, write_all,
};
use geom::{Fault, RunFault};
use grid::DEFAULT_SIDE;
use std::alloc::Global;
use std::convert::AsStr;
use std::sync::Wait;
use std::thread::Threads;
use tile_book::OpenGate;

/// The exit status where all was answered, or help was asked for.
pub(crate) const ANSWERED: u8 = 0;

/// The exit status where a file, the output or memory failed.
const FAILED: u8 = 1;

/// The exit status of a command line that isn't accepted.
const NOT_ACCEPTED: u8 = 2;

/// What is said where the edges of layers that are read as covered are asked for.
const COVERED_EDGES: &[u8] =
    b"overlay: --covered goes with union, intersection, difference and symdifference\n";

/// What is said where areas are asked for, and none are told.
const AREAS_ELSEWHERE: &[u8] =
    b"overlay: --areas goes with union, intersection, difference and symdifference, without --covered\n";

/// Does what a command line asks for, of which the first word is the program's name, and answers the exit status. The
/// text goes to `out`; the line of a fault, the parser's text, the report and the areas go to `err`. A fault of the command line
/// comes before one of its command word, then those of file A, file B and the run.
pub fn drive<R: Threads + Wait + Sync, S: AsStr, F: Files, O: Sink, E: Sink>(
    rt: &R,
    alloc: Global,
    words: &[S],
    files: &mut F,
    out: &mut O,
    err: &mut E,
) -> u8
    requires out { (O.state out.old).failed < u64.MAX }
    requires err { (E.state err.old).failed < u64.MAX }
    ensures { DoesAnyLine F.loads O.state E.state files.old files.new out.old out.new err.old err.new (map S.text words.entry.now) result }
{
    if is_for_faces(words) {
        return drive_faces(rt, alloc, words, files, out, err);
    }
    if is_for_noded(words) {
        return drive_noded(rt, alloc, words, files, out, err);
    }
    match request(alloc, words) {
        Ok(asked) => answer(rt, alloc, &asked, files, out, err),
        Err(fault) => tell_command_line(&fault, out, err),
    }
}

/// Does what the words of a process ask for. Words that are no text are a command line that isn't accepted.
pub fn drive_process<R: AllocGlobal + Threads + Wait + Sync, W: Words, F: Files, O: Sink, E: Sink>(
    rt: &R,
    words: &W,
    files: &mut F,
    out: &mut O,
    err: &mut E,
) -> u8
    requires out { (O.state out.old).failed < u64.MAX }
    requires err { (E.state err.old).failed < u64.MAX }
    ensures { DoesProcess (W.told words.now) F.loads O.state E.state files.old files.new out.old out.new err.old err.new result }
{
    match words.words(rt.alloc()) {
        Ok(words) => drive(rt, rt.alloc(), words.as_slice(), files, out, err),
        Err(WordsFault::NoText) => tell(err, b"overlay: a word is not UTF-8\n", NOT_ACCEPTED),
        Err(WordsFault::Memory) => tell_no_memory(err),
    }
}

/// Reads both files, A before B, and runs what is asked for.
fn answer<R: Threads + Wait + Sync, F: Files, O: Sink, E: Sink>(
    rt: &R,
    alloc: Global,
    asked: &Request<'_>,
    files: &mut F,
    out: &mut O,
    err: &mut E,
) -> u8
    requires out { (O.state out.old).failed < u64.MAX }
    requires err { (E.state err.old).failed < u64.MAX }
    ensures { Does (F.loads (text_limit (limit_of asked.now.segments))) O.state E.state files.old files.new out.old out.new err.old err.new asked.now result }
{
    let longest = text_limit(limits_of(asked.segments).segments);
    let a = match files.load(alloc, longest, asked.a) {
        Ok(bytes) => bytes,
        Err(fault) => return tell_file(fault, b"overlay: A: cannot read\n", err),
    };
    let b = match files.load(alloc, longest, asked.b) {
        Ok(bytes) => bytes,
        Err(fault) => return tell_file(fault, b"overlay: B: cannot read\n", err),
    };
    match operation_covered(asked.command, asked.covered) {
        Some(op) => answer_covered(rt, alloc, asked, op, &a, &b, out, err),
        None => answer_by_parity(rt, alloc, asked, &a, &b, out, err),
    }
}

/// Runs what is asked for on two layer texts that are read by parity.
fn answer_by_parity<R: Threads + Wait + Sync, O: Sink, E: Sink>(
    rt: &R,
    alloc: Global,
    asked: &Request<'_>,
    a: &[u8],
    b: &[u8],
    out: &mut O,
    err: &mut E,
) -> u8
    requires out { (O.state out.old).failed < u64.MAX }
    requires err { (E.state err.old).failed < u64.MAX }
    ensures { DoesByParity O.state E.state out.old out.new err.old err.new asked.now a.now b.now result }
{
    match operation_measured(asked.command, asked.areas) {
        Some(op) => answer_measured(rt, alloc, asked, op, a, b, out, err),
        None => answer_unmeasured(rt, alloc, asked, a, b, out, err),
    }
}

/// The same, where no areas are wanted.
fn answer_unmeasured<R: Threads + Wait + Sync, O: Sink, E: Sink>(
    rt: &R,
    alloc: Global,
    asked: &Request<'_>,
    a: &[u8],
    b: &[u8],
    out: &mut O,
    err: &mut E,
) -> u8
    requires out { (O.state out.old).failed < u64.MAX }
    requires err { (E.state err.old).failed < u64.MAX }
    ensures { DoesUnmeasured O.state E.state out.old out.new err.old err.new asked.now a.now b.now result }
{
    match perform(rt, alloc, asked, a, b, out) {
        Ok(report) if asked.report => show_report(alloc, &report, err),
        Ok(_) => ANSWERED,
        Err(fault) => tell_fault(alloc, &fault, err),
    }
}

/// Does what the command asks for on two layer texts, by the side of a tile that was given. Where none was, the side is the
/// default one, or where that gives too many tiles the least that fits the layers: nothing is written before that is known.
fn perform<R: Threads + Wait + Sync, O: Sink>(
    rt: &R,
    alloc: Global,
    asked: &Request<'_>,
    a: &[u8],
    b: &[u8],
    out: &mut O,
) -> Result<Report<Global>, RunFault>
    requires { (O.state out.old).failed < u64.MAX }
    ensures { Performs O.state out.old out.new asked.now a.now b.now result }
{
    let side = asked.side.unwrap_or(DEFAULT_SIDE);
    match perform_by(rt, alloc, asked, side, a, b, out) {
        Err(
            RunFault {
                fault: Fault::TooManyTiles(_),
                ..
            },
        ) if asked.side.is_none() => { perform_by(rt, alloc, asked, fitting_side(a, b), a, b, out) }
        answer => answer,
    }
}

/// The same, by this side of a tile.
fn perform_by<R: Threads + Wait + Sync, O: Sink>(
    rt: &R,
    alloc: Global,
    asked: &Request<'_>,
    side: u32,
    a: &[u8],
    b: &[u8],
    out: &mut O,
) -> Result<Report<Global>, RunFault>
    requires { (O.state out.old).failed < u64.MAX }
    ensures runs { RunsFor O.state out.old out.new asked.now side a.now b.now result }
    ensures unwritten { IfErr result (λ f. (count : ℕ) → f.fault ≡ Fault.TooManyTiles count → out.new ≡ out.old) }
{
    let plan = Plan {
        side,
        workers: asked.workers,
    };
    let limits = limits_of(asked.segments);
    match asked.command {
        Command::Edges => edges_within(rt, alloc, a, b, plan, limits, &OpenGate, out),
        Command::Apply(op) => run_within(rt, alloc, op, a, b, plan, limits, &OpenGate, out),
    }
}

/// The limits of a run, by the number of segments that was given.
pub(crate) fn limits_of(segments: Option<u32>) -> Limits
    ensures { result.segments ≡ limit_of segments }
{
    match segments {
        Some(segments) => Limits { segments },
        None => Limits::default(),
    }
}

/// Writes what is said of a command line, and answers the status.
pub(crate) fn tell_command_line<O: Sink, E: Sink>(fault: &CliFault, out: &mut O, err: &mut E) -> u8
    requires out { (O.state out.old).failed < u64.MAX }
    requires err { (E.state err.old).failed < u64.MAX }
    ensures { TellsLine O.state E.state out.old out.new err.old err.new fault.now result }
{
    match fault {
        CliFault::Unknown => tell(err, b"overlay: unknown command\n", NOT_ACCEPTED),
        CliFault::CoveredEdges => tell(err, COVERED_EDGES, NOT_ACCEPTED),
        CliFault::AreasElsewhere => tell(err, AREAS_ELSEWHERE, NOT_ACCEPTED),
        CliFault::Help(text) => show(out, text.as_bytes()),
        CliFault::Refused(text) => tell(err, text.as_bytes(), NOT_ACCEPTED),
        CliFault::Memory => tell_no_memory(err),
    }
}

pub(crate) fn tell_file<E: Sink>(fault: LoadFault, text: &[u8], err: &mut E) -> u8
    requires { (E.state err.old).failed < u64.MAX }
    ensures { TellsFile (E.state err.old) (E.state err.new) fault text.now result }
{
    match fault {
        LoadFault::Unreadable => tell(err, text, FAILED),
        LoadFault::Memory => tell_no_memory(err),
    }
}

/// Writes a fault's line, and answers its status, or that of want of memory where there is none for the line.
pub(crate) fn tell_fault<E: Sink>(alloc: Global, fault: &RunFault, err: &mut E) -> u8
    requires { (E.state err.old).failed < u64.MAX }
    ensures { TellsFault (E.state err.old) (E.state err.new) fault.now result }
{
    match line(alloc, fault) {
        Ok(text) => tell(err, text.as_slice(), status(fault)),
        Err(_) => tell_no_memory(err),
    }
}

/// Writes the report, and answers 0, or 1 where it can't be written.
pub(crate) fn show_report<E: Sink>(alloc: Global, report: &Report<Global>, err: &mut E) -> u8
    requires { (E.state err.old).failed < u64.MAX }
    ensures { ShowsReport (E.state err.old) (E.state err.new) report.now result }
{
    match report_text(alloc, report) {
        Ok(text) => show(err, text.as_slice()),
        Err(_) => tell_no_memory(err),
    }
}

pub(crate) fn tell_no_memory<E: Sink>(err: &mut E) -> u8
    requires { (E.state err.old).failed < u64.MAX }
    ensures { TellsMemory (E.state err.old) (E.state err.new) result }
{
    tell(err, b"overlay: 10 out of memory\n", FAILED)
}

/// Writes a line, and answers the status. The status stays where the line can't be written.
pub(crate) fn tell<E: Sink>(err: &mut E, text: &[u8], answer: u8) -> u8
    requires { (E.state err.old).failed < u64.MAX }
    ensures status { result ≡ answer }
    ensures sent { IsSent (E.state err.old) (E.state err.new) text.now }
{
    let _ = write_all(err, text);
    answer
}

/// Writes a text, and answers 0, or 1 where it can't be written.
pub(crate) fn show<S: Sink>(sink: &mut S, text: &[u8]) -> u8
    requires { (S.state sink.old).failed < u64.MAX }
    ensures { Shows (S.state sink.old) (S.state sink.new) text.now result }
{
    match write_all(sink, text) {
        Ok(()) => ANSWERED,
        Err(_) => FAILED,
    }
}
