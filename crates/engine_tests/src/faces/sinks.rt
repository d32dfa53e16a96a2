//! Sinks that fail while they take rows, at each of their calls.

ghost use Rattle.std.specs.Prelude.{◌<◌};

use crate::faces::cases::{WORKED, lent};
use crate::one_by_one::OneByOne;
use engine::{FacesFault, FacesPart, FacesRefusal, MemSink, Plan, Sink, faces, faces_status};
use geom::{Fault, NoMemory};
use std::alloc::Global;
use std::sync::Wait;
use std::test::Fail;
use std::thread::Threads;
use tile_book::OpenGate;

/// What the faces of the worked example are refused for when they are sent to a sink.
fn refusal<R: Threads + Wait + Sync, S: Sink>(
    rt: &R,
    alloc: Global,
    sink: &mut S,
) -> Result<Option<FacesFault>, NoMemory>
    requires { (S.state sink.old).failed < u64.MAX }
{
    let layers = lent(alloc, WORKED.0)?;
    let plan = Plan {
        side: 16,
        workers: 2,
    };
    Ok(faces(rt, alloc, &layers, plan, &OpenGate, sink).err())
}

fn is_of_the_sink(fault: &FacesFault) -> bool {
    fault.at == FacesPart::Run
        && fault.refusal == FacesRefusal::Usual(Fault::Write)
        && faces_status(fault) == 1
}

/// Whether the rows are sent byte by byte and settled, and where a call fails, no further one is made. There is one call for each byte, and
/// one behind them.
fn is_sent<R: Threads + Wait + Sync>(
    rt: &R,
    alloc: Global,
    fails_at: u64,
) -> Result<bool, NoMemory> {
    let text = WORKED.1.as_bytes();
    let mut sink = OneByOne::new(alloc, fails_at);
    let fault = refusal(rt, alloc, &mut sink)?;
    let fails = fails_at != 0;
    let calls = if fails {
        fails_at
    } else {
        text.len() as u64 + 1
    };
    Ok(
        fault.as_ref().is_some_and(is_of_the_sink) == fails
            && fault.is_some() == fails
            && sink.taken.len() as u64 == calls - 1
            && text.starts_with(&sink.taken)
            && sink.calls == calls
            && sink.failures == u64::from(fails)
            && sink.settled != fails,
    )
}

#[test]
fn sends_byte_by_byte(rt: HostRuntime) -> Result<(), Fail> {
    for fails_at in 0..WORKED.1.len() as u64 + 2 {
        assert!(rt; is_sent(&rt, rt.alloc(), fails_at)?, "{fails_at}");
    }
    Ok(())
}

/// The room of a sink, and what it has taken when it fails.
const CUT: [(usize, &str); 3] = [(0, ""), (1, "1"), (22, "16\t1\t\tMULTIPOLYGON (((")];

/// Whether the faces are refused since their sink fails, and have written so much.
fn is_cut<R: Threads + Wait + Sync>(
    rt: &R,
    alloc: Global,
    room: usize,
    written: &str,
) -> Result<bool, NoMemory> {
    let mut sink = MemSink::new(alloc, room)?;
    let fault = refusal(rt, alloc, &mut sink)?;
    Ok(fault.as_ref().is_some_and(is_of_the_sink) && sink.bytes() == written.as_bytes())
}

#[test]
fn tells_that_the_sink_failed(rt: HostRuntime) -> Result<(), Fail> {
    for (room, written) in CUT {
        assert!(rt; is_cut(&rt, rt.alloc(), room, written)?, "{room}");
    }
    Ok(())
}
