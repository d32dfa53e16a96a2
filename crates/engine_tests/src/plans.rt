//! The rounded edges of two layers, by plans of all kinds.

use crate::overlaid::{is_overlaid, overlaid};
use crate::texts::*;
use engine::{MemSink, Plan, Report, fitting_side};
use geom::{NoMemory, Op};
use std::alloc::Global;
use std::sync::Wait;
use std::test::Fail;
use std::thread::Threads;
use tile_book::OpenGate;

/// Two layers, the side of a tile, their edges, and how the report begins.
type Row = (&'static str, &'static str, u32, &'static str, &'static str);

const ROWS: [Row; 12] = [
    (SQUARE, OTHER, 16, SQUARES_EDGES, SQUARES_REPORT),
    (
        BOW_TIE,
        "",
        16,
        BOW_TIE_EDGES,
        "segments 4 0\nhot 4\nrecords 9\nedges 4\ntiles 1\nremade 0\ntile 0 4 9\n",
    ),
    (
        WEDGE,
        BELOW,
        16,
        WEDGE_EDGES,
        "segments 3 3\nhot 6\nrecords 13\nedges 7\ntiles 1\nremade 0\ntile 0 6 13\n",
    ),
    ("", "polygon empty", 16, "", EMPTY_REPORT),
    (
        SQUARE,
        "POLYGON ((0 0, 4 0,\r\n4 4, 0 4, 0 0))\r\n",
        16,
        TWICE_EDGES,
        "segments 4 4\nhot 4\nrecords 16\nedges 4\ntiles 1\nremade 0\ntile 0 4 16\n",
    ),
    (
        LARGE,
        LARGE_OTHER,
        16,
        LARGE_EDGES,
        "segments 4 4\nhot 10\nrecords 20\nedges 12\ntiles 1444\nremade 0\ntile 0 1 2\ntile 1 0 0\n",
    ),
    (LARGE, LARGE_OTHER, 33_554_432, LARGE_EDGES, SQUARES_REPORT),
    (APART, "", 16, APART_EDGES, APART_REPORT),
    (
        APART,
        "",
        33_554_432,
        APART_EDGES,
        "segments 7 0\nhot 7\nrecords 15\nedges 7\ntiles 1\nremade 0\ntile 0 7 15\n",
    ),
    (BROAD, "", 33_554_432, BROAD_EDGES, BROAD_REPORT),
    (WHOLE, "", 33_554_432, WHOLE_EDGES, WHOLE_REPORT),
    (VAST, VAST_OTHER, 33_554_432, VAST_EDGES, VAST_REPORT),
];

/// Whether each number of workers gives the bytes of a row.
fn is_rounded<R: Threads + Wait + Sync>(rt: &R, alloc: Global, row: Row) -> Result<bool, NoMemory> {
    let (a, b, side, text, report) = row;
    let mut all = true;
    for workers in [1, 3, 64] {
        let plan = Plan { side, workers };
        all &= is_overlaid(rt, alloc, None, (a, b), plan, text, report)?;
    }
    Ok(all)
}

#[test]
fn rounds_rows(rt: HostRuntime) -> Result<(), Fail> {
    for row in ROWS {
        assert!(rt; is_rounded(&rt, rt.alloc(), row)?, "{row:?}");
    }
    Ok(())
}

/// Some tiles, each with its hot pixels and its records.
type Tiles = &'static [(usize, (u32, u32))];

/// Of the greatest side over the whole range: the four corners have all.
const CORNERS: Tiles = &[
    (0, (1, 2)),
    (1, (0, 0)),
    (16, (1, 2)),
    (17, (0, 0)),
    (271, (0, 0)),
    (272, (1, 2)),
    (288, (1, 2)),
];

/// Of side 16 over the two large squares: the eight corners and the two crossings have all.
const FINE: Tiles = &[
    (0, (1, 2)),
    (25, (1, 2)),
    (468, (1, 2)),
    (480, (0, 0)),
    (481, (1, 2)),
    (482, (0, 0)),
    (493, (1, 2)),
    (950, (1, 2)),
    (962, (1, 2)),
    (975, (1, 2)),
    (1418, (1, 2)),
    (1443, (1, 2)),
];

/// Two layers, the side of a tile, the numbers of tiles, hot pixels and records, and some of the tiles.
type Tiled = ((&'static str, &'static str), u32, (usize, u64, u64), Tiles);

const TILED: [Tiled; 2] = [
    ((WHOLE, ""), 33_554_432, (289, 4, 8), CORNERS),
    ((LARGE, LARGE_OTHER), 16, (1444, 10, 20), FINE),
];

/// Whether a report has these numbers, and these of some tiles.
fn has_tiles(report: &Report<Global>, numbers: (usize, u64, u64), tiles: Tiles) -> bool {
    (report.tiles.len(), report.hot, report.records) == numbers
        && tiles.iter().all(|(number, tile)| report.tiles.get(*number).copied() == Some(*tile))
}

/// Whether the report of an operation, or of the edges, has the tiles' numbers.
fn is_tiled<R: Threads + Wait + Sync>(
    rt: &R,
    alloc: Global,
    op: Option<Op>,
    tiled: Tiled,
    workers: u32,
) -> Result<bool, NoMemory> {
    let (layers, side, numbers, tiles) = tiled;
    let plan = Plan { side, workers };
    let mut sink = MemSink::new(alloc, 4000)?;
    let answer = overlaid(rt, alloc, op, layers, plan, &OpenGate, &mut sink);
    Ok(answer.is_ok_and(|report| has_tiles(&report, numbers, tiles)))
}

#[test]
fn reports_tiles(rt: HostRuntime) -> Result<(), Fail> {
    for tiled in TILED {
        for op in [None, Some(Op::Intersection)] {
            for workers in [1, 3, 64] {
                assert!(rt;
                    is_tiled(&rt, rt.alloc(), op, tiled, workers)?,
                    "{op:?} {workers}"
                );
            }
        }
    }
    Ok(())
}

/// Two layers, and the side of a tile that fits them.
const FITTING: [(&str, &str, u32); 7] = [
    ("", "", 262_144),
    (SQUARE, OTHER, 262_144),
    // 256 columns and as many rows, and one more of either
    (
        "POLYGON ((0 0, 67108863 0, 67108863 67108863, 0 0))",
        "",
        262_144,
    ),
    (
        "POLYGON ((0 0, 67108864 0, 0 0, 0 0))",
        "POLYGON ((0 0, 0 67108864, 0 0, 0 0))",
        524_288,
    ),
    // one row of 2,049 columns
    (
        "POLYGON ((-268435456 0, 268435456 0, 0 0, -268435456 0))",
        "",
        262_144,
    ),
    (WHOLE, "", 4_194_304),
    // a layer that is refused
    (WHOLE, "POLYGON", 262_144),
];

#[test]
fn fits_the_side_to_the_layers(rt: HostRuntime) -> Result<(), Fail> {
    for (a, b, side) in FITTING {
        assert_eq!(rt; fitting_side(a.as_bytes(), b.as_bytes()), side, "{a:?}");
    }
    Ok(())
}
