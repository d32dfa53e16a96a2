//! Two workers at the same time.

use crate::overlaid::overlaid;
use crate::texts::{LARGE, LARGE_OTHER};
use engine::{MemSink, Plan};
use geom::{NoMemory, Op};
use holding::Holding;
use std::alloc::Global;
use std::sync::Wait;
use std::test::Fail;
use std::thread::Threads;
use tile_book::Phase;

/// Whether a second worker posts a piece while the first one is held.
fn is_shared<R: Threads + Wait + Sync>(
    rt: &R,
    alloc: Global,
    op: Option<Op>,
) -> Result<bool, NoMemory> {
    let gate = Holding::until(Phase::Route, 1);
    let plan = Plan {
        side: 16,
        workers: 2,
    };
    let mut sink = MemSink::new(alloc, 4000)?;
    let answer = overlaid(rt, alloc, op, (LARGE, LARGE_OTHER), plan, &gate, &mut sink);
    Ok(answer.is_ok() && gate.has_seen())
}

#[test]
fn works_side_by_side(rt: HostRuntime) -> Result<(), Fail> {
    for op in [None, Some(Op::Intersection)] {
        assert!(rt; is_shared(&rt, rt.alloc(), op)?, "{op:?}");
    }
    Ok(())
}
