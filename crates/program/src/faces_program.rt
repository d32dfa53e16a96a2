//! The command `faces`, over files and sinks.

ghost use Rattle.std.specs.Prelude.{ℕ, ◌≡◌, ◌⊎◌, ◌<◌, ◌≤◌, IfErr, IfOk, MatchResult, length, map, string_bytes};
ghost use Rattle.program.specs.Loading.{AreLoadedInTurn, AreNotAllLoaded, IsLoadedNext, IsNotLoadedNext};
ghost use Rattle.program.specs.FacesProgram.{DoesFaces, DoesFacesLine, PerformsFaces, RunsFacesFor, ShowsFacesReport, faces_limits_of, unread_line};
ghost use Rattle.layers.specs.Refusals.{text_limit};
ghost use Rattle.program.specs.Program.{TellsFacesFault, TellsFile, TellsMemory, limit_of};

use crate::asked::{CliFault, FacesRequest};
use crate::faces_cli::faces_request;
use crate::files::{Files, LoadFault};
use crate::program::{ANSWERED, show, tell, tell_command_line, tell_file, tell_no_memory};
use engine::{
    FacesFault, FacesLimits, FacesRefusal, FacesReport, Plan, Sink, faces_line, faces_report_text,
    faces_status, faces_within, fitting_side_over, layer_name, text_limit,
};
use geom::{Fault, NoMemory};
use grid::DEFAULT_SIDE;
use std::alloc::Global;
use std::convert::AsStr;
use std::sync::Wait;
use std::thread::Threads;
use tile_book::OpenGate;

/// Does what a command line asks of `faces`, and answers the exit status, as `drive` does.
pub fn drive_faces<R: Threads + Wait + Sync, S: AsStr, F: Files, O: Sink, E: Sink>(
    rt: &R,
    alloc: Global,
    words: &[S],
    files: &mut F,
    out: &mut O,
    err: &mut E,
) -> u8
    requires out { (O.state out.old).failed < u64.MAX }
    requires err { (E.state err.old).failed < u64.MAX }
    ensures { DoesFacesLine F.loads O.state E.state files.old files.new out.old out.new err.old err.new (map S.text words.entry.now) result }
{
    match faces_request(alloc, words) {
        Ok(asked) => answer(rt, alloc, &asked, files, out, err),
        Err(fault) => tell_command_line(&fault, out, err),
    }
}

/// A file that isn't read, by the number of its layer.
#[derive(Clone, Copy)]
struct Unread {
    number: u8,
    fault: LoadFault,
}

/// Reads all files in their order, and runs what is asked for.
fn answer<R: Threads + Wait + Sync, F: Files, O: Sink, E: Sink>(
    rt: &R,
    alloc: Global,
    asked: &FacesRequest<'_>,
    files: &mut F,
    out: &mut O,
    err: &mut E,
) -> u8
    requires out { (O.state out.old).failed < u64.MAX }
    requires err { (E.state err.old).failed < u64.MAX }
    requires few { length asked.now.layers.items ≤ 64 }
    ensures { DoesFaces (F.loads (text_limit (limit_of asked.now.segments))) O.state E.state files.old files.new out.old out.new err.old err.new asked.now result }
{
    let longest = text_limit(faces_limits_of(asked.segments).segments);
    let texts = match load_all(alloc, longest, &asked.layers, files) {
        Ok(texts) => texts,
        Err(unread) => return tell_unread(alloc, unread, err),
    };
    let Ok(layers) = slices_of(alloc, &texts) else {
        return tell_no_memory(err);
    };
    match perform(rt, alloc, asked, &layers, out) {
        Ok(report) if asked.report => show_report(alloc, &report, err),
        Ok(_) => ANSWERED,
        Err(fault) => tell_fault(alloc, &fault, err),
    }
}

/// The bytes of all files, where a layer text may have so many, or the first one that isn't read.
fn load_all<F: Files>(
    alloc: Global,
    longest: u32,
    names: &[&str],
    files: &mut F,
) -> Result<Vec<Vec<u8>>, Unread>
    requires { length names.now ≤ 64 }
    ensures { MatchResult result (λ texts. AreLoadedInTurn (F.loads longest) files.old (map (λ n. n.now) names.now) (map (λ t. t.items) texts.items) files.new) (λ unread. AreNotAllLoaded (F.loads longest) files.old (map (λ n. n.now) names.now) unread.number unread.fault files.new) }
{
    let mut texts = Vec::new(alloc);
    for number in 0..names.len() {
        if let Err(fault) = load_next(alloc, longest, names[number], files, &mut texts) {
            return Err(Unread {
                number: number as u8,
                fault,
            });
        }
    }
    Ok(texts)
}

/// Adds the bytes of one more file.
fn load_next<F: Files>(
    alloc: Global,
    longest: u32,
    name: &str,
    files: &mut F,
    texts: &mut Vec<Vec<u8>>,
) -> Result<(), LoadFault>
    ensures { MatchResult result (λ _. IsLoadedNext (F.loads longest) files.old name.now (map (λ t. t.items) texts.old.items) (map (λ t. t.items) texts.new.items) files.new) (λ fault. IsNotLoadedNext (F.loads longest) files.old name.now fault files.new) }
{
    let bytes = files.load(alloc, longest, name)?;
    match texts.push(bytes) {
        Ok(()) => Ok(()),
        Err(_) => Err(LoadFault::Memory),
    }
}

/// The texts, as they are lent.
fn slices_of(alloc: Global, texts: &[Vec<u8>]) -> Result<Vec<&[u8]>, NoMemory>
    ensures { IfOk result (λ layers. map (λ t. t.now) layers.items ≡ map (λ t. t.items) texts.entry.now) }
{
    let mut layers = Vec::with_capacity(alloc, texts.len())?;
    for text in texts {
        layers.push(text.as_slice())?;
    }
    Ok(layers)
}

/// Writes the faces of layers, by the side of a tile that was given. Where none was, the side is the default one, or where that gives too
/// many tiles the least that fits the layers: nothing is written before that is known.
fn perform<R: Threads + Wait + Sync, O: Sink>(
    rt: &R,
    alloc: Global,
    asked: &FacesRequest<'_>,
    layers: &[&[u8]],
    out: &mut O,
) -> Result<FacesReport<Global>, FacesFault>
    requires few { length layers.now ≤ 64 }
    requires out { (O.state out.old).failed < u64.MAX }
    ensures { PerformsFaces O.state out.old out.new asked.now (map (λ t. t.now) layers.now) result }
{
    let side = asked.side.unwrap_or(DEFAULT_SIDE);
    match perform_by(rt, alloc, asked, side, layers, out) {
        Err(
            FacesFault {
                refusal: FacesRefusal::Usual(Fault::TooManyTiles(_)),
                ..
            },
        ) if asked.side.is_none() => {
            perform_by(rt, alloc, asked, fitting_side_over(layers), layers, out)
        }
        answer => answer,
    }
}

/// The same, by this side of a tile.
fn perform_by<R: Threads + Wait + Sync, O: Sink>(
    rt: &R,
    alloc: Global,
    asked: &FacesRequest<'_>,
    side: u32,
    layers: &[&[u8]],
    out: &mut O,
) -> Result<FacesReport<Global>, FacesFault>
    requires few { length layers.now ≤ 64 }
    requires out { (O.state out.old).failed < u64.MAX }
    ensures runs { RunsFacesFor O.state out.old out.new asked.now side (map (λ t. t.now) layers.now) result }
    ensures unwritten { IfErr result (λ f. (count : ℕ) → f.refusal ≡ FacesRefusal.Usual (Fault.TooManyTiles count) → out.new ≡ out.old) }
{
    let plan = Plan {
        side,
        workers: asked.workers,
    };
    let limits = faces_limits_of(asked.segments);
    faces_within(rt, alloc, layers, plan, limits, &OpenGate, out)
}

/// The limits of a run, by the number of segments that was given.
fn faces_limits_of(segments: Option<u32>) -> FacesLimits
    ensures { result ≡ faces_limits_of segments }
{
    let usual = FacesLimits::default();
    FacesLimits {
        segments: segments.unwrap_or(usual.segments),
        ids: usual.ids,
    }
}

/// Writes why a layer's file isn't read, and answers the status.
fn tell_unread<E: Sink>(alloc: Global, unread: Unread, err: &mut E) -> u8
    requires { (E.state err.old).failed < u64.MAX }
    ensures { TellsFile (E.state err.old) (E.state err.new) unread.fault (unread_line unread.number) result ⊎ TellsMemory (E.state err.old) (E.state err.new) result }
{
    match line_of_unread(alloc, unread.number) {
        Ok(text) => tell_file(unread.fault, text.as_bytes(), err),
        Err(_) => tell_no_memory(err),
    }
}

fn line_of_unread(alloc: Global, number: u8) -> Result<String, NoMemory>
    ensures { IfOk result (λ text. string_bytes text ≡ unread_line number) }
{
    let name = layer_name(alloc, number)?;
    Ok(format!(in alloc; "overlay: {name}: cannot read\n")?)
}

/// Writes a fault's line, and answers its status, or that of want of memory where there is none for the line.
pub(crate) fn tell_fault<E: Sink>(alloc: Global, fault: &FacesFault, err: &mut E) -> u8
    requires { (E.state err.old).failed < u64.MAX }
    ensures { TellsFacesFault (E.state err.old) (E.state err.new) fault.now result }
{
    match faces_line(alloc, fault) {
        Ok(text) => tell(err, text.as_slice(), faces_status(fault)),
        Err(_) => tell_no_memory(err),
    }
}

/// Writes the report, and answers 0, or 1 where it can't be written.
fn show_report<E: Sink>(alloc: Global, report: &FacesReport<Global>, err: &mut E) -> u8
    requires { (E.state err.old).failed < u64.MAX }
    ensures { ShowsFacesReport (E.state err.old) (E.state err.new) report.now result }
{
    match faces_report_text(alloc, report) {
        Ok(text) => show(err, text.as_slice()),
        Err(_) => tell_no_memory(err),
    }
}
