//! The side of a tile where none is given, over layers that are columns.

use columns::{Columns, Points};
use engine::{Limits, fitting_side_of_columns, run_columns_alone_within};
use geom::Op;
use std::test::Fail;

const REACH: i32 = 268_435_456;

const NONE: Columns<'static> = Columns {
    points: Points::Interleaved(&[]),
    rings: &[],
    polygons: &[],
    features: &[],
};

/// The left half of the range of coordinates.
const LEFT: Columns<'static> = Columns {
    points: Points::Separate {
        x: &[-REACH, 0, 0, -REACH, -REACH],
        y: &[-REACH, -REACH, REACH, REACH, -REACH],
    },
    rings: &[0, 5],
    polygons: &[0, 1],
    features: &[0, 1],
};

/// A triangle at the right end of the range; a second one, out of reach, is short.
const RIGHT: Columns<'static> = Columns {
    points: Points::Interleaved(&[
        REACH,
        0,
        REACH,
        9,
        268_435_450,
        0,
        REACH,
        0,
        0,
        0,
        1,
        0,
        0,
        0,
    ]),
    rings: &[0, 4, 7],
    polygons: &[0, 1, 2],
    features: &[0, 1],
};

/// The second triangle.
const SHORT: Columns<'static> = Columns {
    features: &[1, 2],
    ..RIGHT
};

/// Two layers, and their side.
const ROWS: [(Columns<'static>, Columns<'static>, u32); 7] = [
    (NONE, NONE, 262_144),
    (RIGHT, NONE, 262_144),
    (LEFT, NONE, 2_097_152),
    (LEFT, RIGHT, 4_194_304),
    (RIGHT, LEFT, 4_194_304),
    (LEFT, SHORT, 262_144),
    (SHORT, LEFT, 262_144),
];

#[test]
fn sides_fit(rt: HostRuntime) {
    for (a, b, side) in ROWS {
        assert_eq!(rt; fitting_side_of_columns(&a, &b), side);
    }
}

#[test]
fn half_the_side_is_refused(rt: HostRuntime) -> Result<(), Fail> {
    for (side, is_answered) in [(4_194_304, true), (2_097_152, false)] {
        let limits = Limits::default();
        let made = run_columns_alone_within(rt.alloc(), Op::Union, &LEFT, &RIGHT, side, limits);
        assert_eq!(rt; made.is_ok(), is_answered, "{side}");
    }
    Ok(())
}
