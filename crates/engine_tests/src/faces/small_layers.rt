//! The rows of small layers, by plans of all kinds, and their reports.

use crate::faces::cases::{CASES, Case, lent};
use engine::{MemSink, Plan, faces, faces_report_text};
use geom::NoMemory;
use std::alloc::Global;
use std::sync::Wait;
use std::test::Fail;
use std::thread::Threads;
use tile_book::OpenGate;

/// Whether layers have these rows, and this report unless it is left out, by a plan.
fn are_rows<R: Threads + Wait + Sync>(
    rt: &R,
    alloc: Global,
    case: Case,
    plan: Plan,
    told: bool,
) -> Result<bool, NoMemory> {
    let (texts, rows, report) = case;
    let layers = lent(alloc, texts)?;
    let mut sink = MemSink::new(alloc, 4096)?;
    match faces(rt, alloc, &layers, plan, &OpenGate, &mut sink) {
        Ok(found) => {
            let text = faces_report_text(alloc, &found)?;
            let same = !told || text.as_slice() == report.as_bytes();
            Ok(same && sink.bytes() == rows.as_bytes() && sink.is_settled())
        }
        Err(_) => Ok(false),
    }
}

/// Sides of tiles, and whether that is one tile, of which the report tells.
const SIDES: [(u32, bool); 2] = [(33_554_432, true), (16, false)];

/// Whether layers have these rows by so many workers.
fn are_rows_by<R: Threads + Wait + Sync>(
    rt: &R,
    alloc: Global,
    case: Case,
    workers: u32,
) -> Result<bool, NoMemory> {
    let mut all = true;
    for (side, told) in SIDES {
        all &= are_rows(rt, alloc, case, Plan { side, workers }, told)?;
    }
    Ok(all)
}

#[test]
fn rows_are_those_of_the_definition(rt: HostRuntime) -> Result<(), Fail> {
    for case in CASES {
        for workers in [1, 3, 64] {
            assert!(rt; are_rows_by(&rt, rt.alloc(), case, workers)?, "{}", case.1);
        }
    }
    Ok(())
}
