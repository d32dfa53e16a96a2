//! The measures of layers that are large enough for each stage to be cut into parts: two maps of squares, one of them shifted by half a
//! square. Both together are two squares of 480 units that have one of 475 in common.

use crate::faces::map_from;
use engine::{LayerMeasures, Limits, Measures, MemSink, Plan, run_measured_within};
use geom::{NoMemory, Op};
use std::alloc::Global;
use std::sync::Wait;
use std::test::Fail;
use std::thread::Threads;
use tile_book::OpenGate;

/// A map is a square of 480 units. It has 2304 squares of 10 units, and each of their sides is crossed once by a line of the other map, so
/// that its route has two steps; but for 48 sides on each of two borders of the map, to which the other one doesn't reach.
const MAP: LayerMeasures = LayerMeasures {
    twice_area: 2 * 480 * 480,
    steps: 2 * 4 * 2304 - 2 * 48,
};

/// Twice the area that both maps have in common.
const COMMON: i64 = 2 * 475 * 475;

/// The operations, with twice the areas of their results.
const AREAS: [(Op, i64); 4] = [
    (Op::Union, 2 * MAP.twice_area - COMMON),
    (Op::Intersection, COMMON),
    (Op::Difference, MAP.twice_area - COMMON),
    (Op::SymDifference, 2 * (MAP.twice_area - COMMON)),
];

/// More bytes than a line has.
const ROOM: usize = 10_000;

/// Sides of tiles, and numbers of workers.
const PLANS: [(u32, u32); 4] = [(262_144, 1), (262_144, 3), (262_144, 64), (32, 2)];

/// The measures of an operation on two maps by a plan, where it is answered.
fn measures_by<R: Threads + Wait + Sync>(
    rt: &R,
    alloc: Global,
    op: Op,
    a: &[u8],
    b: &[u8],
    plan: (u32, u32),
) -> Result<Option<Measures>, NoMemory> {
    let mut sink = MemSink::new(alloc, ROOM)?;
    let (side, workers) = plan;
    let plan = Plan { side, workers };
    let limits = Limits::default();
    let answer = run_measured_within(rt, alloc, op, a, b, plan, limits, &OpenGate, &mut sink);
    Ok(answer.ok().map(|told| told.measures))
}

/// The first operation and plan by which the maps don't have their measures.
fn mismeasured<R: Threads + Wait + Sync>(
    rt: &R,
    alloc: Global,
) -> Result<Option<(Op, (u32, u32))>, NoMemory> {
    let a = map_from(alloc, 0)?;
    let b = map_from(alloc, 5)?;
    for (op, twice_area) in AREAS {
        for plan in PLANS {
            let told = measures_by(rt, alloc, op, a.as_bytes(), b.as_bytes(), plan)?;
            let measures = Measures {
                a: MAP,
                b: MAP,
                twice_area,
            };
            if told != Some(measures) {
                return Ok(Some((op, plan)));
            }
        }
    }
    Ok(None)
}

#[test]
fn measures_of_many_parts_are_exact(rt: HostRuntime) -> Result<(), Fail> {
    assert!(rt; mismeasured(&rt, rt.alloc())?.is_none());
    Ok(())
}
