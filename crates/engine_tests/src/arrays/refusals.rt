//! What columns are refused for, and in which order.

use columns::{Columns, ColumnsFault, Points};
use engine::{
    ColumnsOutput, ColumnsRefused, Limits, Plan, run_columns_alone_within, run_columns_within,
};
use geom::{Fault, Op};
use std::alloc::Global;
use std::sync::Wait;
use std::test::Fail;
use std::thread::Threads;
use tile_book::OpenGate;

const SQUARE: Columns<'static> = Columns {
    points: Points::Interleaved(&[0, 0, 4, 0, 4, 4, 0, 4, 0, 0]),
    rings: &[0, 5],
    polygons: &[0, 1],
    features: &[0, 1],
};

/// A ring that ends beside its first point.
const OPEN: Columns<'static> = Columns {
    points: Points::Interleaved(&[0, 0, 4, 0, 4, 4, 0, 4, 0, 1]),
    rings: &[0, 5],
    polygons: &[0, 1],
    features: &[0, 1],
};

/// A ring of three points.
const SHORT: Columns<'static> = Columns {
    points: Points::Interleaved(&[0, 0, 4, 0, 0, 0]),
    rings: &[0, 3],
    polygons: &[0, 1],
    features: &[0, 1],
};

const UNEVEN: Columns<'static> = Columns {
    points: Points::Interleaved(&[0, 0, 4]),
    rings: &[],
    polygons: &[],
    features: &[],
};

/// A square over more than 65,536 tiles of side 16: 257 columns and rows.
const WIDE: Columns<'static> = Columns {
    points: Points::Separate {
        x: &[0, 4096, 4096, 0, 0],
        y: &[0, 0, 4096, 4096, 0],
    },
    rings: &[0, 5],
    polygons: &[0, 1],
    features: &[0, 1],
};

/// Two layers, the side and the workers of a plan, the most segments, and what they are refused for.
type Row = (
    Columns<'static>,
    Columns<'static>,
    u32,
    u32,
    u32,
    ColumnsRefused,
);

const ROWS: [Row; 8] = [
    (SHORT, OPEN, 15, 0, 0, ColumnsRefused::Run(Fault::BadTile)),
    (
        SHORT,
        OPEN,
        16,
        65,
        0,
        ColumnsRefused::Run(Fault::BadWorkers),
    ),
    (
        SHORT,
        OPEN,
        16,
        1,
        0,
        ColumnsRefused::A(ColumnsFault::RingShort(0)),
    ),
    (
        SQUARE,
        OPEN,
        16,
        1,
        0,
        ColumnsRefused::B(ColumnsFault::RingOpen(0)),
    ),
    (
        UNEVEN,
        SQUARE,
        16,
        1,
        8,
        ColumnsRefused::A(ColumnsFault::PointsUneven),
    ),
    (
        SQUARE,
        WIDE,
        16,
        1,
        7,
        ColumnsRefused::Run(Fault::TooManySegments(8)),
    ),
    (
        SQUARE,
        WIDE,
        16,
        1,
        8,
        ColumnsRefused::Run(Fault::TooManyTiles(66_049)),
    ),
    (
        WIDE,
        SQUARE,
        16,
        1,
        8,
        ColumnsRefused::Run(Fault::TooManyTiles(66_049)),
    ),
];

fn refused_for(output: Result<ColumnsOutput<Global>, ColumnsRefused>) -> Option<ColumnsRefused> {
    match output {
        Ok(_) => None,
        Err(refused) => Some(refused),
    }
}

/// What the layers of a row are refused for, by workers and, with the same side, on one thread.
fn refused<R: Threads + Wait + Sync>(
    rt: &R,
    alloc: Global,
    row: Row,
) -> [Option<ColumnsRefused>; 2] {
    let (a, b, side, workers, segments, _) = row;
    let plan = Plan { side, workers };
    let limits = Limits { segments };
    let by_workers = run_columns_within(rt, alloc, Op::Union, &a, &b, plan, limits, &OpenGate);
    let alone = run_columns_alone_within(alloc, Op::Union, &a, &b, side, limits);
    [refused_for(by_workers), refused_for(alone)]
}

/// Whether the layers of a row are refused for what it says: on one thread only where that number of workers is one that may be.
fn is_refused<R: Threads + Wait + Sync>(rt: &R, alloc: Global, row: Row) -> bool {
    let [by_workers, alone] = refused(rt, alloc, row);
    by_workers == Some(row.5) && (row.3 != 1 || alone == Some(row.5))
}

#[test]
fn rows_are_refused_for_the_first(rt: HostRuntime) -> Result<(), Fail> {
    for (number, row) in ROWS.iter().enumerate() {
        assert!(rt; is_refused(&rt, rt.alloc(), *row), "{number}");
    }
    Ok(())
}

#[test]
fn as_many_segments_as_the_limit_says(rt: HostRuntime) -> Result<(), Fail> {
    let row = (SQUARE, SQUARE, 16, 2, 8, ColumnsRefused::Run(Fault::Memory));
    assert_eq!(rt; refused(&rt, rt.alloc(), row), [None, None]);
    Ok(())
}
