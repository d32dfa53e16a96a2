//! What is refused, whatever memory there is.

use crate::overlaid::overlaid;
use crate::texts::{BROAD, OTHER, SQUARE, WHOLE};
use engine::{MemSink, Plan};
use geom::{Fault, NoMemory, Op};
use refusing::Refusing;
use std::alloc::{Allocator, Global};
use std::sync::Wait;
use std::test::Fail;
use std::thread::Threads;
use tile_book::OpenGate;

/// Two layers, the side of a tile, the number of workers, and what each command is refused for.
type RefusalRow = (&'static str, &'static str, u32, u32, Fault);

const REFUSED: [RefusalRow; 13] = [
    (
        "POLYGON ((0 0, 268435457 0, 0 1, 0 0))",
        "",
        16,
        2,
        Fault::NumberRange(15),
    ),
    ("POLYGON ((0 0, 1 0, 0 1))", "", 16, 2, Fault::RingShort(9)),
    (
        "POLYGON ((0 0, 1 0, 1 1, 0 1))",
        "",
        16,
        2,
        Fault::RingOpen(9),
    ),
    (
        "POLYGON ((0 0, 4 0, 4 4, 0 4, 0 0), (1 1, 2 2, 1 1))",
        "",
        16,
        2,
        Fault::RingShort(36),
    ),
    (
        "POLYGON ((99999999 0, 1 0, 1 1)",
        "",
        16,
        2,
        Fault::Syntax(31),
    ),
    (
        SQUARE,
        "POLYGON ((999999999 0, 1 0, 1 1)",
        16,
        2,
        Fault::Syntax(32),
    ),
    (SQUARE, OTHER, 15, 2, Fault::BadTile),
    ("POLYGON ((0 0, 1 0, 0 1))", "", 15, 2, Fault::BadTile),
    (SQUARE, OTHER, 16, 0, Fault::BadWorkers),
    (SQUARE, OTHER, 16, 65, Fault::BadWorkers),
    (BROAD, "", 16, 2, Fault::TooManyTiles(4_398_050_705_409)),
    ("", BROAD, 16, 2, Fault::TooManyTiles(4_398_050_705_409)),
    (WHOLE, "", 16, 2, Fault::TooManyTiles(1_125_899_973_951_489)),
];

/// Whether an operation, or the edges, with memory from an allocator is refused so and writes nothing.
fn is_refused<A: Allocator + Copy + Send + Sync, R: Threads + Wait + Sync>(
    rt: &R,
    alloc: A,
    room: Global,
    op: Option<Op>,
    refused: RefusalRow,
) -> Result<bool, NoMemory> {
    let (a, b, side, workers, fault) = refused;
    let plan = Plan { side, workers };
    let mut sink = MemSink::new(room, 100)?;
    let answer = overlaid(rt, alloc, op, (a, b), plan, &OpenGate, &mut sink);
    let found = answer.err().map(|found| found.fault);
    Ok(found == Some(fault) && sink.bytes().is_empty())
}

/// Whether it is where there is ample memory, and where the first request for memory is refused.
fn is_always_refused<R: Threads + Wait + Sync>(
    rt: &R,
    alloc: Global,
    op: Option<Op>,
    refused: RefusalRow,
) -> Result<bool, NoMemory> {
    let heap = Refusing::new(alloc, 0);
    let with_little = is_refused(rt, &heap, alloc, op, refused)?;
    Ok(with_little & is_refused(rt, alloc, alloc, op, refused)?)
}

const COMMANDS: [Option<Op>; 5] = [
    None,
    Some(Op::Union),
    Some(Op::Intersection),
    Some(Op::Difference),
    Some(Op::SymDifference),
];

#[test]
fn refuses_whatever_memory_there_is(rt: HostRuntime) -> Result<(), Fail> {
    for refused in REFUSED {
        for op in COMMANDS {
            assert!(rt;
                is_always_refused(&rt, rt.alloc(), op, refused)?,
                "{refused:?}"
            );
        }
    }
    Ok(())
}
