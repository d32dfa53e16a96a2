//! What is answered where a request for memory is refused.

use crate::faces::cases::{Case, EMPTIES, WORKED, lent};
use engine::{FacesPart, FacesRefusal, MemSink, Plan, faces, faces_status};
use geom::{Fault, NoMemory};
use refusing::Refusing;
use std::alloc::{Allocator, Global};
use std::sync::Wait;
use std::test::Fail;
use std::thread::Threads;
use tile_book::OpenGate;

/// Layers, and fewer requests for memory than their faces take.
const ROWS: [(Case, u64); 2] = [(WORKED, 60), (EMPTIES, 40)];

/// More requests for memory than any of the cases makes.
const REQUESTS: u64 = 400;

/// What a call ends with.
#[derive(Clone, Copy, PartialEq, Eq, Debug)]
enum Ending {
    /// The right answer.
    Right,
    /// Want of memory, and nothing is written.
    OutOfMemory,
    /// Anything else.
    Strange,
}

/// What a case gives by so many workers, with memory from this allocator.
fn given<A: Allocator + Copy + Send + Sync, R: Threads + Wait + Sync>(
    rt: &R,
    alloc: A,
    room: Global,
    case: Case,
    workers: u32,
) -> Result<Ending, NoMemory> {
    let layers = lent(room, case.0)?;
    let mut sink = MemSink::new(room, 1000)?;
    let plan = Plan { side: 16, workers };
    let ending = match faces(rt, alloc, &layers, plan, &OpenGate, &mut sink) {
        Ok(_) if sink.bytes() == case.1.as_bytes() => Ending::Right,
        Err(fault)
            if fault.at == FacesPart::Run
                && fault.refusal == FacesRefusal::Usual(Fault::Memory)
                && faces_status(&fault) == 1
                && sink.bytes().is_empty() => Ending::OutOfMemory,
        _ => Ending::Strange,
    };
    Ok(ending)
}

/// What a case gives where this request for memory is refused, and what the same call gives then with ample memory.
fn given_twice<R: Threads + Wait + Sync>(
    rt: &R,
    alloc: Global,
    case: Case,
    workers: u32,
    number: u64,
) -> Result<(Ending, Ending), NoMemory> {
    let heap = Refusing::new(alloc, number);
    let first = given(rt, &heap, alloc, case, workers)?;
    let second = given(rt, alloc, alloc, case, workers)?;
    Ok((first, second))
}

/// How many numbers of requests are refused with want of memory, where each other one is answered with the rows and so is each call after
/// it.
fn refusals<R: Threads + Wait + Sync>(
    rt: &R,
    alloc: Global,
    case: Case,
    workers: u32,
) -> Result<Option<u64>, NoMemory> {
    let mut count = 0u64;
    for number in 0..REQUESTS {
        let (first, second) = given_twice(rt, alloc, case, workers, number)?;
        if first == Ending::Strange || second != Ending::Right {
            return Ok(None);
        }
        count = count.wrapping_add(u64::from(first == Ending::OutOfMemory));
    }
    Ok(Some(count))
}

#[test]
fn refuses_each_request(rt: HostRuntime) -> Result<(), Fail> {
    for (case, least) in ROWS {
        for workers in [1, 2] {
            let count = refusals(&rt, rt.alloc(), case, workers)?;
            assert!(rt;
                count.is_some_and(|count| least < count && count < REQUESTS),
                "{} {workers} {count:?}",
                case.1
            );
        }
    }
    Ok(())
}
