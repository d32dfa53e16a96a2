//! What is answered where a request for memory is refused.

use crate::overlaid::overlaid;
use crate::texts::{
    APART, APART_UNION, BESIDE, BOW_TIE, BOW_TIE_EDGES, OTHER, SLOPE, SLOPE_COMMON, SLOPE_UNION,
    SQUARE, SQUARES_COMMON,
};
use engine::{MemSink, Plan, run_alone};
use geom::{Fault, NoMemory, Op};
use refusing::Refusing;
use std::alloc::{Allocator, Global};
use std::sync::Wait;
use std::test::Fail;
use std::thread::Threads;
use tile_book::OpenGate;

/// An operation, or the edges, of two layers, and its text.
type Row = (Option<Op>, &'static str, &'static str, &'static str);

const ROWS: [Row; 5] = [
    (Some(Op::Intersection), SQUARE, OTHER, SQUARES_COMMON),
    (None, BOW_TIE, "", BOW_TIE_EDGES),
    (Some(Op::Intersection), SLOPE, BESIDE, SLOPE_COMMON),
    (Some(Op::Union), SLOPE, BESIDE, SLOPE_UNION),
    (Some(Op::Union), APART, "", APART_UNION),
];

/// More requests for memory than any of the rows makes.
const REQUESTS: u64 = 400;

/// What a call ends with.
#[derive(Clone, Copy, PartialEq, Eq, Debug)]
enum Ending {
    /// The right answer.
    Right,
    /// Want of memory, and nothing is written.
    OutOfMemory,
    /// Anything else.
    Strange,
}

/// What a row gives by so many workers, with memory from this allocator.
fn given<A: Allocator + Copy + Send + Sync, R: Threads + Wait + Sync>(
    rt: &R,
    alloc: A,
    room: Global,
    row: Row,
    workers: u32,
) -> Result<Ending, NoMemory> {
    let (op, a, b, text) = row;
    let plan = Plan { side: 16, workers };
    let mut sink = MemSink::new(room, 100)?;
    let answer = overlaid(rt, alloc, op, (a, b), plan, &OpenGate, &mut sink);
    let fault = answer.err().map(|found| found.fault);
    Ok(told(fault, sink.bytes(), text))
}

fn told(fault: Option<Fault>, bytes: &[u8], text: &str) -> Ending {
    if fault.is_none() && bytes == text.as_bytes() {
        Ending::Right
    } else if fault == Some(Fault::Memory) && bytes.is_empty() {
        Ending::OutOfMemory
    } else {
        Ending::Strange
    }
}

/// What a row gives where this request for memory is refused, and what the same call gives then with ample memory.
fn given_twice<R: Threads + Wait + Sync>(
    rt: &R,
    alloc: Global,
    row: Row,
    workers: u32,
    number: u64,
) -> Result<(Ending, Ending), NoMemory> {
    let heap = Refusing::new(alloc, number);
    let first = given(rt, &heap, alloc, row, workers)?;
    let second = given(rt, alloc, alloc, row, workers)?;
    Ok((first, second))
}

/// How many numbers of requests are refused with want of memory, where each other one is answered with the text and so is each
/// call after it.
fn refusals<R: Threads + Wait + Sync>(
    rt: &R,
    alloc: Global,
    row: Row,
    workers: u32,
) -> Result<Option<u64>, NoMemory> {
    let mut count = 0u64;
    for number in 0..REQUESTS {
        let (first, second) = given_twice(rt, alloc, row, workers, number)?;
        if first == Ending::Strange || second != Ending::Right {
            return Ok(None);
        }
        count = count.wrapping_add(u64::from(first == Ending::OutOfMemory));
    }
    Ok(Some(count))
}

#[test]
fn refuses_each_request(rt: HostRuntime) -> Result<(), Fail> {
    for row in ROWS {
        for workers in [1, 2] {
            let count = refusals(&rt, rt.alloc(), row, workers)?;
            assert!(rt;
                count.is_some_and(|count| 20 < count && count < REQUESTS),
                "{row:?} {workers} {count:?}"
            );
        }
    }
    Ok(())
}

/// What `run` by one worker may ask for beyond what `run_alone` asks for: the draw, the desk and the hands, the bins, and for each stage
/// the lists of its one part. It asks for nearly as much in the rows below, so to make a piece again would take more.
const BEYOND: u64 = 38;

/// What it may ask for beyond that for each cell but the first: `run_alone` takes one cell for few segments.
const BEYOND_FOR_A_CELL: u64 = 5;

/// The least number from which on no request that is refused changes the answer of `run_alone`.
fn least_alone(alloc: Global, row: Row) -> Result<u64, NoMemory> {
    let Some(op) = row.0 else {
        return Err(NoMemory);
    };
    let mut least = 0u64;
    for number in 0..REQUESTS {
        let heap = Refusing::new(alloc, number);
        if run_alone(&heap, op, row.1.as_bytes(), row.2.as_bytes(), 16).is_err() {
            least = number.wrapping_add(1);
        }
    }
    Ok(least)
}

/// The same of `run` by one worker, which gathers the pieces that the worker posted.
fn least_of_run<R: Threads + Wait + Sync>(
    rt: &R,
    alloc: Global,
    row: Row,
) -> Result<u64, NoMemory> {
    let mut least = 0u64;
    for number in 0..REQUESTS {
        let heap = Refusing::new(alloc, number);
        if given(rt, &heap, alloc, row, 1)? != Ending::Right {
            least = number.wrapping_add(1);
        }
    }
    Ok(least)
}

/// Whether `run` over so many cells asks for more than `run_alone`, and for no more than that beyond it.
fn makes_none_again<R: Threads + Wait + Sync>(
    rt: &R,
    alloc: Global,
    row: Row,
    cells: u64,
) -> Result<bool, NoMemory> {
    let alone = least_alone(alloc, row)?;
    let run = least_of_run(rt, alloc, row)?;
    let others = cells.saturating_sub(1);
    let beyond = BEYOND.saturating_add(BEYOND_FOR_A_CELL.saturating_mul(others));
    Ok(0 < alone && alone < run && run <= alone.saturating_add(beyond))
}

#[test]
fn makes_no_piece_again(rt: HostRuntime) -> Result<(), Fail> {
    for (row, cells) in [(ROWS[0], 1), (ROWS[4], 4)] {
        assert!(rt; makes_none_again(&rt, rt.alloc(), row, cells)?, "{row:?}");
    }
    Ok(())
}
