//! The four operations on small layers, whose results were worked out by hand from the rules.

use crate::overlaid::is_overlaid;
use crate::texts::*;
use engine::Plan;
use geom::{NoMemory, Op};
use std::alloc::Global;
use std::sync::Wait;
use std::test::Fail;
use std::thread::Threads;

/// Two layers, an operation, and its result.
type Row = (&'static str, &'static str, Op, &'static str);

const COMMON: Row = (SQUARE, OTHER, Op::Intersection, SQUARES_COMMON);

const NOTHING: Row = ("", "polygon empty", Op::Union, EMPTY);

const LARGE_ROW: Row = (LARGE, LARGE_OTHER, Op::Intersection, LARGE_COMMON);

const APART_ROW: Row = (APART, "", Op::Union, APART_UNION);

const BROAD_ROW: Row = (BROAD, "", Op::Union, BROAD_UNION);

const WHOLE_ROW: Row = (WHOLE, "", Op::Union, WHOLE_UNION);

const VAST_ROW: Row = (VAST, VAST_OTHER, Op::Intersection, VAST_COMMON);

const ROWS: [Row; 17] = [
    (
        SQUARE,
        OTHER,
        Op::SymDifference,
        "MULTIPOLYGON (((0 0, 4 0, 4 2, 2 2, 2 4, 0 4, 0 0)), ((2 4, 4 4, 4 2, 6 2, 6 6, 2 6, 2 4)))\n",
    ),
    // a hole
    (
        "POLYGON ((0 0, 9 0, 9 9, 0 9, 0 0))\n",
        "POLYGON ((3 3, 6 3, 6 6, 3 6, 3 3))\n",
        Op::Difference,
        "MULTIPOLYGON (((0 0, 9 0, 9 9, 0 9, 0 0), (3 3, 3 6, 6 6, 6 3, 3 3)))\n",
    ),
    // a crossing at one half
    (
        BOW_TIE,
        "",
        Op::Union,
        "MULTIPOLYGON (((0 0, 1 0, 1 1, 0 0)))\n",
    ),
    // a corner just above, and on, a side
    (
        WEDGE,
        BELOW,
        Op::Union,
        "MULTIPOLYGON (((0 0, 5 0, 10 1, 0 8, 0 0)), ((5 -4, 9 -4, 5 0, 5 -4)))\n",
    ),
    (
        "POLYGON ((0 0, 10 1, 10 0, 0 0))\n",
        BELOW,
        Op::Union,
        "MULTIPOLYGON (((5 -4, 9 -4, 5 0, 5 -4)), ((5 0, 10 0, 10 1, 5 0)))\n",
    ),
    // crossings between grid points
    (SLOPE, BESIDE, Op::Intersection, SLOPE_COMMON),
    (SLOPE, BESIDE, Op::Union, SLOPE_UNION),
    ("", "polygon empty", Op::Intersection, EMPTY),
    ("", "polygon empty", Op::Difference, EMPTY),
    ("", "polygon empty", Op::SymDifference, EMPTY),
    // equal layers, and a layer that has each segment twice
    (SQUARE, SQUARE, Op::Difference, EMPTY),
    (
        "POLYGON ((0 0, 4 0, 4 4, 0 4, 0 0))\nPOLYGON ((0 0, 4 0, 4 4, 0 4, 0 0))\n",
        "",
        Op::Union,
        EMPTY,
    ),
    // a hole that touches the shell at its least vertex
    (
        SQUARE,
        "POLYGON ((0 0, 3 1, 1 3, 0 0))\n",
        Op::Difference,
        "MULTIPOLYGON (((0 0, 4 0, 4 4, 0 4, 0 0), (0 0, 1 3, 3 1, 0 0)))\n",
    ),
    // four squares, each inside the one before
    (
        "POLYGON ((0 0, 9 0, 9 9, 0 9, 0 0), (1 1, 8 1, 8 8, 1 8, 1 1), (2 2, 7 2, 7 7, 2 7, 2 2), (3 3, 6 3, 6 6, 3 6, 3 3))\n",
        "",
        Op::Union,
        "MULTIPOLYGON (((0 0, 9 0, 9 9, 0 9, 0 0), (1 1, 1 8, 8 8, 8 1, 1 1)), ((2 2, 7 2, 7 7, 2 7, 2 2), (3 3, 3 6, 6 6, 6 3, 3 3)))\n",
    ),
    // a hole below which there is another hole
    (
        "POLYGON ((0 0, 9 0, 9 9, 0 9, 0 0), (1 1, 4 1, 4 3, 1 3, 1 1), (3 5, 7 5, 7 7, 3 7, 3 5))\n",
        "",
        Op::Union,
        "MULTIPOLYGON (((0 0, 9 0, 9 9, 0 9, 0 0), (1 1, 1 3, 4 3, 4 1, 1 1), (3 5, 3 7, 7 7, 7 5, 3 5)))\n",
    ),
    // holes that touch one another
    (
        "POLYGON ((0 0, 9 0, 9 9, 0 9, 0 0), (2 2, 4 2, 4 4, 2 4, 2 2), (4 4, 6 4, 6 6, 4 6, 4 4))\n",
        "",
        Op::Union,
        "MULTIPOLYGON (((0 0, 9 0, 9 9, 0 9, 0 0), (2 2, 2 4, 4 4, 4 2, 2 2), (4 4, 4 6, 6 6, 6 4, 4 4)))\n",
    ),
    // a hole that touches a side
    (
        "POLYGON ((0 0, 9 0, 9 9, 0 9, 0 0), (5 0, 6 3, 4 3, 5 0))\n",
        "",
        Op::Union,
        "MULTIPOLYGON (((0 0, 5 0, 9 0, 9 9, 0 9, 0 0), (4 3, 6 3, 5 0, 4 3)))\n",
    ),
];

/// A row, the side of a tile, the number of workers, and how the report begins.
type ReportRow = (Row, u32, u32, &'static str);

const FINE_REPORT: &str =
    "segments 4 4\nhot 10\nrecords 20\nedges 12\ntiles 1444\nremade 0\ntile 0 1 2\n";

const REPORTED: [ReportRow; 10] = [
    (COMMON, 16, 2, SQUARES_REPORT),
    (NOTHING, 16, 2, EMPTY_REPORT),
    (LARGE_ROW, 16, 1, FINE_REPORT),
    (LARGE_ROW, 16, 3, FINE_REPORT),
    (LARGE_ROW, 16, 64, FINE_REPORT),
    (LARGE_ROW, 33_554_432, 2, SQUARES_REPORT),
    (APART_ROW, 16, 2, APART_REPORT),
    (BROAD_ROW, 33_554_432, 2, BROAD_REPORT),
    (WHOLE_ROW, 33_554_432, 2, WHOLE_REPORT),
    (VAST_ROW, 33_554_432, 2, VAST_REPORT),
];

/// Whether a row by this plan gives its result, and a report that begins so.
fn is_given<R: Threads + Wait + Sync>(
    rt: &R,
    alloc: Global,
    reported: ReportRow,
) -> Result<bool, NoMemory> {
    let ((a, b, op, text), side, workers, report) = reported;
    let plan = Plan { side, workers };
    is_overlaid(rt, alloc, Some(op), (a, b), plan, text, report)
}

#[test]
fn overlays_rows(rt: HostRuntime) -> Result<(), Fail> {
    for row in ROWS {
        let reported = (row, 16, 2, "segments ");
        assert!(rt; is_given(&rt, rt.alloc(), reported)?, "{row:?}");
    }
    Ok(())
}

#[test]
fn reports_rows(rt: HostRuntime) -> Result<(), Fail> {
    for reported in REPORTED {
        assert!(rt; is_given(&rt, rt.alloc(), reported)?, "{reported:?}");
    }
    Ok(())
}
