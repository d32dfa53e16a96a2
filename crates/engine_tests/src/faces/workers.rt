//! Two workers at the same time.

use crate::texts::{LARGE, LARGE_OTHER};
use engine::{MemSink, Plan, faces};
use geom::NoMemory;
use holding::Holding;
use std::alloc::Global;
use std::sync::Wait;
use std::test::Fail;
use std::thread::Threads;
use tile_book::Phase;

/// Whether a second worker posts a piece while the first one is held.
fn is_shared<R: Threads + Wait + Sync>(rt: &R, alloc: Global) -> Result<bool, NoMemory> {
    let gate = Holding::until(Phase::Route, 1);
    let plan = Plan {
        side: 16,
        workers: 2,
    };
    let layers = [LARGE.as_bytes(), LARGE_OTHER.as_bytes()];
    let mut sink = MemSink::new(alloc, 8000)?;
    let answer = faces(rt, alloc, layers.as_slice(), plan, &gate, &mut sink);
    Ok(answer.is_ok() && gate.has_seen())
}

#[test]
fn works_side_by_side(rt: HostRuntime) -> Result<(), Fail> {
    assert!(rt; is_shared(&rt, rt.alloc())?);
    Ok(())
}
