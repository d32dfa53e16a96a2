//! Results on small layers, worked out by hand.

use columns::{Columns, Points};
use engine::{
    ColumnsOutput, ColumnsRefused, Limits, Plan, run_columns_alone_within, run_columns_within,
};
use geom::Op;
use std::alloc::Global;
use std::sync::Wait;
use std::test::Fail;
use std::thread::Threads;
use tile_book::OpenGate;

/// Coordinates, and the offsets of rings and polygons.
type Answer = (&'static [i32], &'static [u32], &'static [u32]);

/// An operation, two layers, and the result.
type Row = (Op, Columns<'static>, Columns<'static>, Answer);

const NONE: Columns<'static> = Columns {
    points: Points::Interleaved(&[]),
    rings: &[],
    polygons: &[],
    features: &[],
};

const SQUARE: Columns<'static> = Columns {
    points: Points::Interleaved(&[0, 0, 4, 0, 4, 4, 0, 4, 0, 0]),
    rings: &[0, 5],
    polygons: &[0, 1],
    features: &[0, 1],
};

/// The second feature of two, x and y apart.
const OTHER: Columns<'static> = Columns {
    points: Points::Separate {
        x: &[9, 9, 8, 9, 2, 6, 6, 2, 2],
        y: &[9, 8, 8, 9, 2, 2, 6, 6, 2],
    },
    rings: &[0, 4, 9],
    polygons: &[0, 1, 2],
    features: &[1, 2],
};

/// Two features that cover each other, and so cancel.
const TWICE: Columns<'static> = Columns {
    points: Points::Interleaved(&[0, 0, 4, 0, 4, 4, 0, 4, 0, 0, 0, 0, 0, 4, 4, 4, 4, 0, 0, 0]),
    rings: &[0, 5, 10],
    polygons: &[0, 1, 2],
    features: &[0, 1, 2],
};

/// A square with a hole, and a square in it: one feature of two polygons.
const FRAME: Columns<'static> = Columns {
    points: Points::Interleaved(&[
        0, 0, 9, 0, 9, 9, 0, 9, 0, 0, 3, 3, 6, 3, 6, 6, 3, 6, 3, 3, 4, 4, 5, 4, 5, 5, 4, 5, 4, 4,
    ]),
    rings: &[0, 5, 10, 15],
    polygons: &[0, 2, 3],
    features: &[0, 2],
};

const EMPTY: Answer = (&[], &[0], &[0]);

const BOTH: Answer = (
    &[0, 0, 4, 0, 4, 2, 6, 2, 6, 6, 2, 6, 2, 4, 0, 4, 0, 0],
    &[0, 9],
    &[0, 1],
);

const COMMON: Answer = (&[2, 2, 4, 2, 4, 4, 2, 4, 2, 2], &[0, 5], &[0, 1]);

const WITHOUT_CORNER: Answer = (
    &[0, 0, 4, 0, 4, 2, 2, 2, 2, 4, 0, 4, 0, 0],
    &[0, 7],
    &[0, 1],
);

/// The hole is a clockwise ring, behind its shell.
const FRAME_AGAIN: Answer = (
    &[
        0, 0, 9, 0, 9, 9, 0, 9, 0, 0, 3, 3, 3, 6, 6, 6, 6, 3, 3, 3, 4, 4, 5, 4, 5, 5, 4, 5, 4, 4,
    ],
    &[0, 5, 10, 15],
    &[0, 2, 3],
);

const ROWS: [Row; 7] = [
    (Op::Union, SQUARE, OTHER, BOTH),
    (Op::Union, OTHER, SQUARE, BOTH),
    (Op::Intersection, SQUARE, OTHER, COMMON),
    (Op::Difference, SQUARE, OTHER, WITHOUT_CORNER),
    (Op::Union, FRAME, NONE, FRAME_AGAIN),
    (Op::Union, TWICE, NONE, EMPTY),
    (Op::Intersection, NONE, NONE, EMPTY),
];

/// Whether an output has these columns.
fn has(output: Result<ColumnsOutput<Global>, ColumnsRefused>, answer: Answer) -> bool {
    match output {
        Ok(ColumnsOutput { columns, .. }) => {
            columns.coordinates.as_slice() == answer.0
                && columns.rings.as_slice() == answer.1
                && columns.polygons.as_slice() == answer.2
        }
        Err(_) => false,
    }
}

/// Sides of tiles, and numbers of workers.
const PLANS: [(u32, u32); 4] = [(16, 1), (16, 3), (33_554_432, 1), (33_554_432, 3)];

/// Whether a row has its answer by a plan, and on one thread.
fn is_answered<R: Threads + Wait + Sync>(rt: &R, alloc: Global, row: Row, plan: Plan) -> bool {
    let (op, a, b, answer) = row;
    let limits = Limits::default();
    let alone = run_columns_alone_within(alloc, op, &a, &b, plan.side, limits);
    let by_workers = run_columns_within(rt, alloc, op, &a, &b, plan, limits, &OpenGate);
    has(alone, answer) && has(by_workers, answer)
}

/// Whether it has by each plan.
fn is_answered_by_all<R: Threads + Wait + Sync>(rt: &R, alloc: Global, row: Row) -> bool {
    let mut all = true;
    for (side, workers) in PLANS {
        all &= is_answered(rt, alloc, row, Plan { side, workers });
    }
    all
}

#[test]
fn rows_have_their_columns(rt: HostRuntime) -> Result<(), Fail> {
    for (number, row) in ROWS.iter().enumerate() {
        assert!(rt; is_answered_by_all(&rt, rt.alloc(), *row), "{number}");
    }
    Ok(())
}

/// The numbers of the segments, the edges, the hot pixels and the pieces that were made again.
fn numbers_of(
    output: Result<ColumnsOutput<Global>, ColumnsRefused>,
) -> Option<(u32, u32, u32, u64, u32)> {
    match output {
        Ok(ColumnsOutput { report, .. }) => Some((
            report.segments_a,
            report.segments_b,
            report.edges,
            report.hot,
            report.remade,
        )),
        Err(_) => None,
    }
}

#[test]
fn report_has_the_numbers(rt: HostRuntime) -> Result<(), Fail> {
    let limits = Limits::default();
    let made = run_columns_alone_within(rt.alloc(), Op::Union, &SQUARE, &OTHER, 16, limits);
    assert_eq!(rt; numbers_of(made), Some((4, 4, 12, 10, 0)));
    Ok(())
}
