//! As many segments as both layers may have together, and one more: where no limit is given, and within limits that are.

use engine::{
    Limits, MemSink, Plan, edges_alone_within, edges_within, run, run_alone_within, run_within,
    text_limit,
};
use geom::{Fault, NoMemory, Op, RunFault};
use std::alloc::Global;
use std::sync::Wait;
use std::test::Fail;
use std::thread::Threads;
use tile_book::OpenGate;

const SQUARE: &str = "POLYGON ((0 0, 1 0, 1 1, 0 1, 0 0))\n";

/// How often the first layer has the square: 1,048,572 segments. An odd number of copies covers what one does.
const COPIES: u32 = 262_143;

/// The square once more, apart: with it there are 1,048,576 segments.
const APART: &str = "POLYGON ((3 3, 4 3, 4 4, 3 4, 3 3))\n";

const BOTH: &str = "MULTIPOLYGON (((0 0, 1 0, 1 1, 0 1, 0 0)), ((3 3, 4 3, 4 4, 3 4, 3 3)))\n";

/// The edges of the two squares.
const EDGES: &str =
    "0 0 0 1 1 0\n0 0 1 0 1 0\n0 1 1 1 1 0\n1 0 1 1 1 0\n3 3 3 4 0 1\n3 3 4 3 0 1\n3 4 4 4 0 1\n4 3 4 4 0 1\n";

/// A pentagon: with it there is one segment too many.
const PENTAGON: &str = "POLYGON ((3 3, 4 3, 5 4, 4 5, 3 4, 3 3))\n";

/// A layer that has the square so often.
fn copies(alloc: Global, count: u32) -> Result<Vec<u8, Global>, NoMemory> {
    let mut text = Vec::new(alloc);
    for _ in 0..count {
        text.extend_from_slice(SQUARE.as_bytes())?;
    }
    Ok(text)
}

/// What the union of the copies and another layer is refused for, or none where it is this text and tells these segments.
fn refused<R: Threads + Wait + Sync>(
    rt: &R,
    alloc: Global,
    copies: &[u8],
    other: &str,
    text: &str,
) -> Result<Option<Fault>, NoMemory> {
    let plan = Plan {
        side: 16,
        workers: 4,
    };
    let mut sink = MemSink::new(alloc, 200)?;
    match run(
        rt,
        alloc,
        Op::Union,
        copies,
        other.as_bytes(),
        plan,
        &OpenGate,
        &mut sink,
    ) {
        Ok(report)
            if (report.segments_a, report.segments_b) == (1_048_572, 4)
                && sink.bytes() == text.as_bytes() => Ok(None),
        Ok(_) => Ok(Some(Fault::Memory)),
        Err(refusal) => Ok(Some(refusal.fault)),
    }
}

#[test]
fn takes_as_many_segments_as_there_may_be(rt: HostRuntime) -> Result<(), Fail> {
    let copies = copies(rt.alloc(), COPIES)?;
    assert_eq!(rt; refused(&rt, rt.alloc(), &copies, APART, BOTH)?, None);
    let fault = Fault::TooManySegments(1_048_577);
    assert_eq!(rt;
        refused(&rt, rt.alloc(), &copies, PENTAGON, "")?,
        Some(fault)
    );
    Ok(())
}

/// What the calls within a limit are refused for on the two squares, or none where they give the union and the edges: by
/// workers, and alone.
fn refused_within<R: Threads + Wait + Sync>(
    rt: &R,
    alloc: Global,
    segments: u32,
) -> Result<[Option<Fault>; 4], NoMemory> {
    let (a, b, op) = (SQUARE.as_bytes(), APART.as_bytes(), Op::Union);
    let limits = Limits { segments };
    let plan = Plan {
        side: 16,
        workers: 2,
    };
    let mut line = MemSink::new(alloc, 200)?;
    let mut lines = MemSink::new(alloc, 200)?;
    let result = run_within(rt, alloc, op, a, b, plan, limits, &OpenGate, &mut line);
    let edges = edges_within(rt, alloc, a, b, plan, limits, &OpenGate, &mut lines);
    let alone = run_alone_within(alloc, op, a, b, 16, limits);
    let edges_alone = edges_alone_within(alloc, a, b, 16, limits);
    let is_line = alone
        .as_ref()
        .is_ok_and(|made| made.text.as_slice() == BOTH.as_bytes());
    let are_lines = edges_alone
        .as_ref()
        .is_ok_and(|made| made.text.as_slice() == EDGES.as_bytes());
    Ok([
        fault_of(result, line.bytes() == BOTH.as_bytes()),
        fault_of(edges, lines.bytes() == EDGES.as_bytes()),
        fault_of(alone, is_line),
        fault_of(edges_alone, are_lines),
    ])
}

/// What is refused, or that a write failed where nothing is and the text isn't the one that was wanted.
fn fault_of<M: Drop>(answer: Result<M, RunFault>, is_text: bool) -> Option<Fault> {
    match answer {
        Ok(_) if is_text => None,
        Ok(_) => Some(Fault::Write),
        Err(found) => Some(found.fault),
    }
}

#[test]
fn takes_as_many_segments_as_the_limit_says(rt: HostRuntime) -> Result<(), Fail> {
    for segments in [8, 9, 1_048_576, u32::MAX] {
        assert_eq!(rt; refused_within(&rt, rt.alloc(), segments)?, [None; 4]);
    }
    let fault = Fault::TooManySegments(8);
    for segments in [0, 1, 7] {
        assert_eq!(rt;
            refused_within(&rt, rt.alloc(), segments)?,
            [Some(fault); 4]
        );
    }
    Ok(())
}

/// The most segments, and the most bytes of a text then: 256 for each, but 2^28 at least and 2^32 - 1 at most.
const TEXT_LIMITS: [(u32, u32); 7] = [
    (0, 268_435_456),
    (1_048_576, 268_435_456),
    (1_048_577, 268_435_712),
    (10_000_000, 2_560_000_000),
    (16_777_215, 4_294_967_040),
    (16_777_216, 4_294_967_295),
    (4_294_967_295, 4_294_967_295),
];

#[test]
fn limits_of_texts(rt: HostRuntime) {
    for (segments, bytes) in TEXT_LIMITS {
        assert!(rt; text_limit(segments) == bytes, "{segments}");
    }
}
