//! As many features of rows as there may be, and as many segments, and one more.

use crate::faces::cases::{ALONE, COPIES, Case, EMPTIES, NONE, THREE, WORKED, lent};
use engine::{
    FacesFault, FacesLimits, FacesPart, FacesRefusal, MemSink, Plan, Sink, faces_line,
    faces_status, faces_within,
};
use geom::{Fault, NoMemory};
use std::alloc::Global;
use std::sync::Wait;
use std::test::Fail;
use std::thread::Threads;
use tile_book::OpenGate;

/// Layers, the most segments, the most features of all rows, and the line of the refusal, or none where these are enough.
type Row = (Case, u32, u64, Option<&'static str>);

const ROWS: [Row; 17] = [
    (WORKED, 12, 6, None),
    (WORKED, 12, 5, Some("overlay: 12 too many ids: 6\n")),
    (WORKED, 11, 6, Some("overlay: 5 too many segments: 12\n")),
    // The segments go before the features of the rows.
    (WORKED, 11, 5, Some("overlay: 5 too many segments: 12\n")),
    (WORKED, 12, 0, Some("overlay: 12 too many ids: 6\n")),
    (WORKED, 4_294_967_295, 18_446_744_073_709_551_615, None),
    (THREE, 20, 13, None),
    (THREE, 20, 12, Some("overlay: 12 too many ids: 13\n")),
    (THREE, 19, 13, Some("overlay: 5 too many segments: 20\n")),
    (EMPTIES, 4, 1, None),
    (EMPTIES, 4, 0, Some("overlay: 12 too many ids: 1\n")),
    (ALONE, 16, 18, None),
    (ALONE, 16, 17, Some("overlay: 12 too many ids: 18\n")),
    (COPIES, 16, 7, None),
    (COPIES, 16, 6, Some("overlay: 12 too many ids: 7\n")),
    (COPIES, 15, 6, Some("overlay: 5 too many segments: 16\n")),
    (NONE, 0, 0, None),
];

/// Whether this is the line of a refusal of the run, and its kind is one of a limit.
fn is_told(alloc: Global, fault: &FacesFault, words: &str) -> Result<bool, NoMemory> {
    let line = faces_line(alloc, fault)?;
    let of_limit = match fault.refusal {
        FacesRefusal::TooManyIds(_) => true,
        FacesRefusal::Usual(Fault::TooManySegments(_)) => true,
        FacesRefusal::Usual(_) => false,
    };
    Ok(
        of_limit
            && fault.at == FacesPart::Run
            && faces_status(fault) == 3
            && line.as_slice() == words.as_bytes(),
    )
}

/// Whether layers are answered within their limits, or refused with the line and nothing written.
fn is_within<R: Threads + Wait + Sync>(
    rt: &R,
    alloc: Global,
    row: Row,
    plan: Plan,
) -> Result<bool, NoMemory> {
    let (case, segments, ids, words) = row;
    let layers = lent(alloc, case.0)?;
    let mut sink = MemSink::new(alloc, 4096)?;
    let limits = FacesLimits { segments, ids };
    match (
        faces_within(rt, alloc, &layers, plan, limits, &OpenGate, &mut sink),
        words,
    ) {
        (Ok(report), None) => Ok(report.ids <= ids && sink.bytes() == case.1.as_bytes()),
        (Err(fault), Some(words)) => {
            Ok(is_told(alloc, &fault, words)? && sink.bytes().is_empty() && sink.failures() == 0)
        }
        _ => Ok(false),
    }
}

/// Sides of tiles, and numbers of workers.
const PLANS: [(u32, u32); 3] = [(16, 1), (262_144, 1), (16, 3)];

/// Whether they are by each plan.
fn is_within_by_all<R: Threads + Wait + Sync>(
    rt: &R,
    alloc: Global,
    row: Row,
) -> Result<bool, NoMemory> {
    let mut all = true;
    for (side, workers) in PLANS {
        all &= is_within(rt, alloc, row, Plan { side, workers })?;
    }
    Ok(all)
}

#[test]
fn takes_as_many_as_the_limits_say(rt: HostRuntime) -> Result<(), Fail> {
    for row in ROWS {
        assert!(rt; is_within_by_all(&rt, rt.alloc(), row)?, "{row:?}");
    }
    Ok(())
}
