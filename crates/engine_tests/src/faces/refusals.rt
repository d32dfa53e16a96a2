//! What faces are refused for: the first of the refusals in their order, with nothing written.

use crate::faces::cases::lent;
use engine::{
    FacesLimits, FacesPart, FacesRefusal, MemSink, Plan, faces_line, faces_status, faces_within,
};
use geom::{Fault, NoMemory};
use std::alloc::Global;
use std::sync::Wait;
use std::test::Fail;
use std::thread::Threads;
use tile_book::OpenGate;

const SQUARE: &str = "POLYGON ((0 0, 4 0, 4 4, 0 4, 0 0))";

const OPEN: &str = "POLYGON ((0 0, 4 0, 4 4, 0 4))";

const SHORT: &str = "POLYGON ((0 0, 4 0, 0 0))";

const BROKEN: &str = "POLYGON ((0 0, 4 0";

const BROAD: &str = "POLYGON ((-99999999 0, 99999999 0, 0 99999999, -99999999 0))";

/// Layers, the side of a tile, the number of workers, the most segments, what is refused, and its line.
type Row = (
    &'static [&'static str],
    u32,
    u32,
    u32,
    FacesPart,
    Fault,
    &'static str,
);

const REFUSED: [Row; 9] = [
    (
        &[OPEN, BROKEN],
        15,
        0,
        1,
        FacesPart::Run,
        Fault::BadTile,
        "overlay: 6 bad tile side\n",
    ),
    (
        &[OPEN, BROKEN],
        16,
        65,
        1,
        FacesPart::Run,
        Fault::BadWorkers,
        "overlay: 7 bad number of workers\n",
    ),
    (
        &[OPEN, BROKEN],
        16,
        2,
        1,
        FacesPart::Layer(0),
        Fault::RingOpen(9),
        "overlay: A: 4 open ring at 9\n",
    ),
    (
        &[SQUARE, BROKEN, OPEN],
        16,
        2,
        1,
        FacesPart::Layer(1),
        Fault::Syntax(18),
        "overlay: B: 1 syntax at 18\n",
    ),
    (
        &[SQUARE, "", SHORT],
        16,
        2,
        1,
        FacesPart::Layer(2),
        Fault::RingShort(9),
        "overlay: C: 3 short ring at 9\n",
    ),
    (
        &[SQUARE, SQUARE, BROAD],
        16,
        2,
        10,
        FacesPart::Run,
        Fault::TooManySegments(11),
        "overlay: 5 too many segments: 11\n",
    ),
    (
        &[BROAD],
        16,
        2,
        3,
        FacesPart::Run,
        Fault::TooManyTiles(78_125_000_000_000),
        "overlay: 8 too many tiles: 78125000000000\n",
    ),
    (
        &[
            "", "", "", "", "", "", "", "", "", "", "", "", "", "", "", "", "", "", "", "", "", "",
            "", "", "", SHORT,
        ],
        16,
        2,
        1,
        FacesPart::Layer(25),
        Fault::RingShort(9),
        "overlay: Z: 3 short ring at 9\n",
    ),
    (
        &[
            "", "", "", "", "", "", "", "", "", "", "", "", "", "", "", "", "", "", "", "", "", "",
            "", "", "", "", SHORT,
        ],
        16,
        2,
        1,
        FacesPart::Layer(26),
        Fault::RingShort(9),
        "overlay: 27: 3 short ring at 9\n",
    ),
];

/// Whether layers are refused so, with this line, and nothing is written.
fn is_refused<R: Threads + Wait + Sync>(rt: &R, alloc: Global, row: Row) -> Result<bool, NoMemory> {
    let (texts, side, workers, segments, at, fault, words) = row;
    let layers = lent(alloc, texts)?;
    let mut sink = MemSink::new(alloc, 4096)?;
    let plan = Plan { side, workers };
    let limits = FacesLimits {
        segments,
        ..FacesLimits::default()
    };
    match faces_within(rt, alloc, &layers, plan, limits, &OpenGate, &mut sink) {
        Ok(_) => Ok(false),
        Err(found) => {
            let line = faces_line(alloc, &found)?;
            Ok(
                found.at == at
                    && found.refusal == FacesRefusal::Usual(fault)
                    && line.as_slice() == words.as_bytes()
                    && faces_status(&found) == 3
                    && sink.bytes().is_empty(),
            )
        }
    }
}

#[test]
fn refusals_come_in_their_order(rt: HostRuntime) -> Result<(), Fail> {
    for row in REFUSED {
        assert!(rt; is_refused(&rt, rt.alloc(), row)?, "{}", row.6);
    }
    Ok(())
}
