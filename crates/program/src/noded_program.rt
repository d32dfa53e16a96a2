//! The command `noded`, over a file and sinks.

ghost use Rattle.std.specs.Prelude.{◌≡◌, ◌<◌, IfOk, map, string_bytes};
ghost use Rattle.program.specs.NodedProgram.{DoesNoded, DoesNodedLine, TellsTested, TellsTextFault, line_of_text};
ghost use Rattle.edge_test.specs.Tested.{IsTextTested};

use crate::files::Files;
use crate::noded_cli::{NodedRequest, noded_request};
use crate::program::{show, tell, tell_command_line, tell_file, tell_no_memory};
use edge_test::{LONGEST_TEXT, TextFault, test_text};
use engine::Sink;
use geom::NoMemory;
use std::alloc::Global;
use std::convert::AsStr;
use std::sync::Wait;
use std::thread::Threads;
use tile_book::OpenGate;

/// Does what a command line asks of `noded`, and answers the exit status, as `drive` does.
pub fn drive_noded<R: Threads + Wait + Sync, S: AsStr, F: Files, O: Sink, E: Sink>(
    rt: &R,
    alloc: Global,
    words: &[S],
    files: &mut F,
    out: &mut O,
    err: &mut E,
) -> u8
    requires out { (O.state out.old).failed < u64.MAX }
    requires err { (E.state err.old).failed < u64.MAX }
    ensures { DoesNodedLine F.loads O.state E.state files.old files.new out.old out.new err.old err.new (map S.text words.entry.now) result }
{
    match noded_request(alloc, words) {
        Ok(asked) => answer(rt, alloc, &asked, files, out, err),
        Err(fault) => tell_command_line(&fault, out, err),
    }
}

/// Reads the file, tests its edges, and tells what was found.
fn answer<R: Threads + Wait + Sync, F: Files, O: Sink, E: Sink>(
    rt: &R,
    alloc: Global,
    asked: &NodedRequest<'_>,
    files: &mut F,
    out: &mut O,
    err: &mut E,
) -> u8
    requires out { (O.state out.old).failed < u64.MAX }
    requires err { (E.state err.old).failed < u64.MAX }
    ensures { DoesNoded (F.loads LONGEST_TEXT) O.state E.state files.old files.new out.old out.new err.old err.new asked.now result }
{
    let text = match files.load(alloc, LONGEST_TEXT, asked.edges) {
        Ok(bytes) => bytes,
        Err(fault) => return tell_file(fault, b"overlay: EDGES: cannot read\n", err),
    };
    tell_tested(
        alloc,
        test_text(rt, alloc, &text, asked.workers, &OpenGate),
        out,
        err,
    )
}

/// Writes `noded` where a text of edges passed, and else why it didn't, and answers the status.
fn tell_tested<O: Sink, E: Sink>(
    alloc: Global,
    tested: Result<(), TextFault>,
    out: &mut O,
    err: &mut E,
) -> u8
    requires out { (O.state out.old).failed < u64.MAX }
    requires err { (E.state err.old).failed < u64.MAX }
    ensures { TellsTested O.state E.state out.old out.new err.old err.new tested result }
{
    match tested {
        Ok(()) => show(out, b"noded\n"),
        Err(fault) => tell_text_fault(alloc, fault, err),
    }
}

/// Writes why a text of edges didn't pass, and answers the status, or that of want of memory where there is none for the line.
fn tell_text_fault<E: Sink>(alloc: Global, fault: TextFault, err: &mut E) -> u8
    requires { (E.state err.old).failed < u64.MAX }
    ensures { TellsTextFault (E.state err.old) (E.state err.new) fault result }
{
    match line_of_text(alloc, fault) {
        Ok(text) => tell(err, text.as_bytes(), fault.status()),
        Err(_) => tell_no_memory(err),
    }
}

fn line_of_text(alloc: Global, fault: TextFault) -> Result<String, NoMemory>
    ensures { IfOk result (λ text. string_bytes text ≡ line_of_text fault) }
{
    Ok(format!(in alloc; "overlay: {fault}\n")?)
}
