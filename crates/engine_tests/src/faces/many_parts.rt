//! Layers that are large enough for each stage to be cut into parts: two maps of squares, one of them shifted by half a square.

use engine::{FacesReport, MemSink, Plan, faces};
use geom::NoMemory;
use std::alloc::Global;
use std::sync::Wait;
use std::test::Fail;
use std::thread::Threads;
use tile_book::OpenGate;

/// How many squares a map has along either side; each is 10 units wide.
const SQUARES: u32 = 48;

/// Along either side 95 pairs of a square of the one map and one of the other overlap, and in each map 95 squares have a part that none of the
/// other map covers.
const ROWS: u64 = 9_215;

const IDS: u64 = 18_240;

/// Twice what both maps cover together: two squares of 480 units that have one of 475 in common.
const TWICE_AREA: u64 = 470_350;

/// More bytes than the rows have.
const ROOM: usize = 1_000_000;

/// Sides of tiles, and numbers of workers.
const PLANS: [(u32, u32); 7] = [
    (262_144, 1),
    (262_144, 2),
    (262_144, 3),
    (262_144, 64),
    (32, 1),
    (32, 3),
    (100, 64),
];

/// Adds a column of squares from (x, y) on.
fn push_column(alloc: Global, text: &mut String, x: u32, y: u32) -> Result<(), NoMemory> {
    let mut low = y;
    let right = x.wrapping_add(10);
    for _ in 0..SQUARES {
        let high = low.wrapping_add(10);
        let square = format!(in alloc;
            "POLYGON (({x} {low}, {right} {low}, {right} {high}, {x} {high}, {x} {low}))\n"
        )?;
        text.push_str(&square)?;
        low = high;
    }
    Ok(())
}

/// A map of squares from (start, start) on.
pub fn map_from(alloc: Global, start: u32) -> Result<String, NoMemory> {
    let mut text = String::new(alloc);
    let mut x = start;
    for _ in 0..SQUARES {
        push_column(alloc, &mut text, x, start)?;
        x = x.wrapping_add(10);
    }
    Ok(text)
}

/// How many lines a text has, and the sum of the numbers that they begin with.
fn lines_and_sum(text: &[u8]) -> (u64, u64) {
    let (mut lines, mut sum, mut number, mut leads) = (0u64, 0u64, 0u64, true);
    for byte in text {
        if *byte == b'\n' {
            lines = lines.wrapping_add(1);
            leads = true;
        } else if leads && *byte == b'\t' {
            sum = sum.wrapping_add(number);
            number = 0;
            leads = false;
        } else if leads {
            number = number
                .wrapping_mul(10)
                .wrapping_add(u64::from(byte.wrapping_sub(b'0')));
        }
    }
    (lines, sum)
}

/// Whether a report tells as many rows, and features of rows, as both maps have.
fn is_report(report: &FacesReport<Global>) -> bool {
    report.rows == ROWS && report.ids == IDS
}

/// The rows of layers by a plan, where they are as many as those of both maps, with their area.
fn rows_by<R: Threads + Wait + Sync>(
    rt: &R,
    alloc: Global,
    layers: &[&[u8]],
    plan: (u32, u32),
) -> Result<Option<MemSink<Global>>, NoMemory> {
    let mut sink = MemSink::new(alloc, ROOM)?;
    if layers.len() > 2 {
        return Ok(None);
    }
    let (side, workers) = plan;
    let plan = Plan { side, workers };
    match faces(rt, alloc, layers, plan, &OpenGate, &mut sink) {
        Ok(report) if is_report(&report) && lines_and_sum(sink.bytes()) == (ROWS, TWICE_AREA) => {
            Ok(Some(sink))
        }
        _ => Ok(None),
    }
}

/// The first plan by which layers don't have the rows that they have by the first one of all.
fn differing<R: Threads + Wait + Sync>(
    rt: &R,
    alloc: Global,
    layers: &[&[u8]],
) -> Result<Option<(u32, u32)>, NoMemory> {
    let Some(first) = rows_by(rt, alloc, layers, PLANS[0])? else {
        return Ok(Some(PLANS[0]));
    };
    for plan in PLANS {
        let rows = rows_by(rt, alloc, layers, plan)?;
        if !rows.is_some_and(|rows| rows.bytes() == first.bytes()) {
            return Ok(Some(plan));
        }
    }
    Ok(None)
}

/// The first plan by which both maps in one layer don't.
fn differing_in_one<R: Threads + Wait + Sync>(
    rt: &R,
    alloc: Global,
) -> Result<Option<(u32, u32)>, NoMemory> {
    let mut both = map_from(alloc, 0)?;
    both.push_str(&map_from(alloc, 5)?)?;
    differing(rt, alloc, &[both.as_bytes()])
}

/// The first plan by which they don't in two.
fn differing_in_two<R: Threads + Wait + Sync>(
    rt: &R,
    alloc: Global,
) -> Result<Option<(u32, u32)>, NoMemory> {
    let map = map_from(alloc, 0)?;
    let shifted = map_from(alloc, 5)?;
    differing(rt, alloc, &[map.as_bytes(), shifted.as_bytes()])
}

#[test]
fn rows_of_many_parts_are_one(rt: HostRuntime) -> Result<(), Fail> {
    assert_eq!(rt; differing_in_one(&rt, rt.alloc())?, None);
    assert_eq!(rt; differing_in_two(&rt, rt.alloc())?, None);
    Ok(())
}
