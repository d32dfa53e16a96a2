//! Sinks that fail, at each of their calls.

use crate::one_by_one::OneByOne;
use crate::overlaid::overlaid;
use crate::texts::{OTHER, SQUARE, SQUARES_COMMON, SQUARES_EDGES};
use engine::{MemSink, Plan, Sink};
use geom::{Fault, NoMemory, Op};
use refusing::Refusing;
use std::alloc::Global;
use std::sync::Wait;
use std::test::Fail;
use std::thread::Threads;
use tile_book::OpenGate;

const PLAN: Plan = Plan {
    side: 16,
    workers: 1,
};

/// Whether a text is sent byte by byte and settled, and where a call fails, no further one is made. There is one call for
/// each byte, and one behind them.
fn is_sent<R: Threads + Wait + Sync>(
    rt: &R,
    alloc: Global,
    op: Option<Op>,
    text: &[u8],
    fails_at: u64,
) -> bool {
    let mut sink = OneByOne::new(alloc, fails_at);
    let answer = overlaid(rt, alloc, op, (SQUARE, OTHER), PLAN, &OpenGate, &mut sink);
    let fails = fails_at != 0;
    let calls = if fails {
        fails_at
    } else {
        text.len() as u64 + 1
    };
    answer.err().map(|fault| fault.fault) == fails.then_some(Fault::Write)
        && sink.taken.len() as u64 == calls - 1
        && text.starts_with(&sink.taken)
        && sink.calls == calls
        && sink.failures == u64::from(fails)
        && sink.settled != fails
}

const SENT: [(Option<Op>, &str); 2] = [
    (Some(Op::Intersection), SQUARES_COMMON),
    (None, SQUARES_EDGES),
];

#[test]
fn sends_byte_by_byte(rt: HostRuntime) -> Result<(), Fail> {
    for (op, text) in SENT {
        for fails_at in 0..text.len() as u64 + 2 {
            assert!(rt;
                is_sent(&rt, rt.alloc(), op, text.as_bytes(), fails_at),
                "{text} {fails_at}"
            );
        }
    }
    Ok(())
}

/// An operation, or the edges, of two squares that overlap, the room of the sink, and what it has taken when it fails.
type Cut = (Option<Op>, usize, &'static str);

const CUT: [Cut; 4] = [
    (Some(Op::Intersection), 5, "MULTI"),
    (Some(Op::Intersection), 0, ""),
    (None, 5, "0 0 0"),
    (None, 0, ""),
];

/// Whether a run is refused since its sink fails, and has written so much.
fn is_cut<R: Threads + Wait + Sync>(rt: &R, alloc: Global, cut: Cut) -> Result<bool, NoMemory> {
    let (op, room, written) = cut;
    let plan = Plan {
        side: 16,
        workers: 2,
    };
    let mut sink = MemSink::new(alloc, room)?;
    let answer = overlaid(rt, alloc, op, (SQUARE, OTHER), plan, &OpenGate, &mut sink);
    let found = answer.err().map(|found| found.fault);
    Ok(found == Some(Fault::Write) && sink.bytes() == written.as_bytes())
}

#[test]
fn tells_that_the_sink_failed(rt: HostRuntime) -> Result<(), Fail> {
    for cut in CUT {
        assert!(rt; is_cut(&rt, rt.alloc(), cut)?, "{cut:?}");
    }
    Ok(())
}

/// Whether a sink in memory takes what fits, fails where nothing does and is settled, though its allocator refuses every
/// request once the room was made.
fn takes_without_memory(alloc: Global) -> Result<bool, NoMemory> {
    let heap = Refusing::new(alloc, u64::MAX);
    let mut sink = MemSink::new(&heap, 5)?;
    heap.close();
    if MemSink::new(&heap, 5).is_ok() {
        return Ok(false);
    }
    let first = sink.write(b"MULT");
    let second = sink.write(b"IPOLYGON");
    let third = sink.write(b"POLYGON");
    let is_unsettled = !sink.is_settled();
    let finished = sink.finish();
    Ok(
        first.ok() == Some(4)
            && second.ok() == Some(1)
            && third.is_err()
            && is_unsettled
            && finished.is_ok()
            && sink.is_settled()
            && sink.failures() == 1
            && sink.bytes() == b"MULTI".as_slice(),
    )
}

#[test]
fn sinks_take_no_memory(rt: HostRuntime) -> Result<(), Fail> {
    assert!(rt; takes_without_memory(rt.alloc())?);
    Ok(())
}
