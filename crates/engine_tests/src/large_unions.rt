//! Layers that are large enough for each stage to be cut into parts, united: two maps of squares, one of them shifted by half a square, read
//! as covered and as columns. Both together are two squares of 480 units that have one of 475 in common.

use crate::faces::map_from;
use columns::{Columns, Points};
use engine::{ColumnsOutput, Limits, MemSink, Plan, run_columns_within, run_covered};
use geom::{NoMemory, Op};
use std::alloc::Global;
use std::sync::Wait;
use std::test::Fail;
use std::thread::Threads;
use tile_book::OpenGate;

/// The corners of the union's border: four sides with a corner every 10 units, and four of 5 units.
const CORNERS: usize = 196;

/// More bytes than the line has.
const ROOM: usize = 10_000;

/// How many squares a map has along either side; each is 10 units wide.
const SQUARES: i32 = 48;

/// Sides of tiles, and numbers of workers.
const PLANS: [(u32, u32); 4] = [(262_144, 1), (262_144, 3), (262_144, 64), (32, 2)];

/// The points of a line of one ring, but for the last one.
fn corners_of(line: &[u8]) -> usize {
    let mut commas = 0usize;
    for byte in line {
        commas = commas.wrapping_add((*byte == b',') as usize);
    }
    commas
}

/// The union of two maps that are read as covered, where its border has as many corners as it should.
fn covered_by<R: Threads + Wait + Sync>(
    rt: &R,
    alloc: Global,
    a: &[u8],
    b: &[u8],
    plan: (u32, u32),
) -> Result<Option<MemSink<Global>>, NoMemory> {
    let mut sink = MemSink::new(alloc, ROOM)?;
    let (side, workers) = plan;
    let plan = Plan { side, workers };
    match run_covered(rt, alloc, Op::Union, a, b, plan, &OpenGate, &mut sink) {
        Ok(_) if corners_of(sink.bytes()) == CORNERS => Ok(Some(sink)),
        _ => Ok(None),
    }
}

/// The first plan by which the maps that are read as covered don't have the union that they have by the first one of all.
fn differing_covered<R: Threads + Wait + Sync>(
    rt: &R,
    alloc: Global,
) -> Result<Option<(u32, u32)>, NoMemory> {
    let a = map_from(alloc, 0)?;
    let b = map_from(alloc, 5)?;
    let Some(first) = covered_by(rt, alloc, a.as_bytes(), b.as_bytes(), PLANS[0])? else {
        return Ok(Some(PLANS[0]));
    };
    for plan in PLANS {
        let line = covered_by(rt, alloc, a.as_bytes(), b.as_bytes(), plan)?;
        if !line.is_some_and(|line| line.bytes() == first.bytes()) {
            return Ok(Some(plan));
        }
    }
    Ok(None)
}

/// A map of squares as columns.
#[derive(Drop)]
struct SquareMap {
    coordinates: Vec<i32, Global>,
    /// Where each ring begins among the points.
    rings: Vec<u32, Global>,
    /// Where each polygon begins among the rings, and each feature among the polygons.
    ones: Vec<u32, Global>,
}

impl SquareMap {
    /// Adds a square from (x, y) on.
    fn push(&mut self, x: i32, y: i32) -> Result<(), NoMemory> {
        let (right, top) = (x.wrapping_add(10), y.wrapping_add(10));
        let corners = [x, y, right, y, right, top, x, top, x, y];
        self.coordinates.extend_from_slice(&corners)?;
        let past = u32::try_from(self.ones.len()).map_err(|_| NoMemory)?;
        self.rings.push(past.wrapping_mul(5))?;
        self.ones.push(past)?;
        Ok(())
    }

    /// The map from (start, start) on.
    fn from(alloc: Global, start: i32) -> Result<SquareMap, NoMemory> {
        let mut map = SquareMap {
            coordinates: Vec::new(alloc),
            rings: Vec::new(alloc),
            ones: Vec::new(alloc),
        };
        map.rings.push(0)?;
        map.ones.push(0)?;
        for place in 0..SQUARES.wrapping_mul(SQUARES) {
            let column = place.wrapping_div(SQUARES).wrapping_mul(10);
            let row = place.wrapping_rem(SQUARES).wrapping_mul(10);
            map.push(column.wrapping_add(start), row.wrapping_add(start))?;
        }
        Ok(map)
    }

    fn columns(&self) -> Columns<'_> {
        Columns {
            points: Points::Interleaved(&self.coordinates),
            rings: &self.rings,
            polygons: &self.ones,
            features: &self.ones,
        }
    }
}

/// The union of two maps as columns, where its border has as many corners as it should.
fn united_by<R: Threads + Wait + Sync>(
    rt: &R,
    alloc: Global,
    a: &SquareMap,
    b: &SquareMap,
    plan: (u32, u32),
) -> Option<ColumnsOutput<Global>> {
    let (side, workers) = plan;
    let plan = Plan { side, workers };
    let (a, b) = (a.columns(), b.columns());
    let limits = Limits::default();
    match run_columns_within(rt, alloc, Op::Union, &a, &b, plan, limits, &OpenGate) {
        Ok(made) if made.columns.coordinates.len() == 2 * (CORNERS + 1) => Some(made),
        _ => None,
    }
}

/// The first plan by which the maps as columns don't have the union that they have by the first one of all.
fn differing_columns<R: Threads + Wait + Sync>(
    rt: &R,
    alloc: Global,
) -> Result<Option<(u32, u32)>, NoMemory> {
    let a = SquareMap::from(alloc, 0)?;
    let b = SquareMap::from(alloc, 5)?;
    let Some(first) = united_by(rt, alloc, &a, &b, PLANS[0]) else {
        return Ok(Some(PLANS[0]));
    };
    for plan in PLANS {
        let made = united_by(rt, alloc, &a, &b, plan);
        if !made.is_some_and(|made| made.columns.coordinates == first.columns.coordinates) {
            return Ok(Some(plan));
        }
    }
    Ok(None)
}

#[test]
fn covered_union_of_many_parts_is_one(rt: HostRuntime) -> Result<(), Fail> {
    assert_eq!(rt; differing_covered(&rt, rt.alloc())?, None);
    Ok(())
}

#[test]
fn union_of_columns_of_many_parts_is_one(rt: HostRuntime) -> Result<(), Fail> {
    assert_eq!(rt; differing_columns(&rt, rt.alloc())?, None);
    Ok(())
}
