//! Tables of columns that are surveyed, with their answers by hand.

use columns::{Columns, ColumnsFault, Points, survey};
use geom::{Pt, Rect};
use std::alloc::Global;
use wkt::Outline;

/// A square, a triangle with a point twice, and a ring that is open.
const COORDINATES: [i32; 28] = [
    0, 0, 4, 0, 4, 4, 0, 4, 0, 0, 9, 9, 9, 9, 12, 9, 9, 12, 9, 9, 1, 1, 2, 1, 2, 2, 1, 2,
];

fn rect(x0: i32, y0: i32, x1: i32, y1: i32) -> Option<Rect> {
    Some(Rect::spanned_by(Pt { x: x0, y: y0 }, Pt { x: x1, y: y1 }))
}

#[test]
fn accepted(rt: HostRuntime) {
    let points = Points::Interleaved(&COORDINATES);
    let rings: &[u32] = &[0, 5, 10, 14];
    let table: [(&[u32], &[u32], u32, Option<Rect>); 7] = [
        (&[], &[], 0, None),
        (&[0, 1, 3], &[], 0, None),
        (&[0, 1, 3], &[1], 0, None),
        (&[0, 1, 3], &[0, 1], 4, rect(0, 0, 4, 4)),
        (&[0, 2, 3], &[0, 0, 1, 1], 7, rect(0, 0, 12, 12)),
        (&[0, 1, 2, 3], &[1, 2], 3, rect(9, 9, 12, 12)),
        (&[0, 0, 2, 2], &[0, 3], 7, rect(0, 0, 12, 12)),
    ];
    for (polygons, features, segments, bounds) in table {
        let columns = Columns {
            points,
            rings,
            polygons,
            features,
        };
        let outline = Outline { segments, bounds };
        assert!(rt; survey(&columns) == Ok(outline), "{segments}");
    }
}

#[test]
fn refused(rt: HostRuntime) {
    let points = Points::Interleaved(&COORDINATES);
    let odd = Points::Interleaved(&COORDINATES[..27]);
    let uneven = Points::Separate {
        x: &COORDINATES[..14],
        y: &COORDINATES[..13],
    };
    let far = Points::Separate {
        x: &[0, 1, 268_435_457, 0],
        y: &[0, 0, 1, 1],
    };
    let table: [(Points<'_>, &[u32], &[u32], &[u32], ColumnsFault); 12] = [
        (odd, &[9, 0], &[9, 0], &[9, 0], ColumnsFault::PointsUneven),
        (uneven, &[], &[], &[], ColumnsFault::PointsUneven),
        (
            points,
            &[9, 0],
            &[9, 0],
            &[0],
            ColumnsFault::PolygonOffset(0),
        ),
        (
            points,
            &[0, 5],
            &[0, 1],
            &[0, 1, 0],
            ColumnsFault::FeatureOffset(2),
        ),
        (
            points,
            &[0, 5],
            &[0, 1],
            &[0, 2],
            ColumnsFault::FeatureOffset(1),
        ),
        (points, &[0, 5], &[], &[1], ColumnsFault::FeatureOffset(0)),
        (
            points,
            &[0, 5, 4],
            &[0, 1],
            &[0, 1],
            ColumnsFault::RingOffset(2),
        ),
        (
            points,
            &[0, 15],
            &[0, 1],
            &[0, 1],
            ColumnsFault::RingOffset(1),
        ),
        (
            points,
            &[0, 5, 10, 14],
            &[0, 3],
            &[0, 1],
            ColumnsFault::RingOpen(2),
        ),
        (
            points,
            &[0, 5, 8, 14],
            &[0, 3],
            &[0, 1],
            ColumnsFault::RingShort(1),
        ),
        (far, &[0, 4], &[0, 1], &[0, 1], ColumnsFault::PointRange(2)),
        (
            far,
            &[0, 0, 3],
            &[0, 2],
            &[0, 1],
            ColumnsFault::PointRange(2),
        ),
    ];
    for (points, rings, polygons, features, fault) in table {
        let columns = Columns {
            points,
            rings,
            polygons,
            features,
        };
        assert!(rt; survey(&columns) == Err(fault), "{fault}");
    }
}

#[test]
fn out_of_reach(rt: HostRuntime) {
    let columns = Columns {
        points: Points::Separate {
            x: &[0, 1, 268_435_457, 0],
            y: &[0, 0, 1, 1],
        },
        rings: &[0, 2, 4],
        polygons: &[0, 1, 2],
        features: &[1, 1],
    };
    assert!(rt; survey(&columns) == Ok(Outline::of_none()));
}

/// Whether a fault is written so.
fn reads(alloc: Global, fault: ColumnsFault, words: &str) -> bool {
    match format!(in alloc; "{fault}") {
        Ok(text) => text.as_str() == words,
        Err(_) => false,
    }
}

#[test]
fn words(rt: HostRuntime) {
    let table = [
        (
            ColumnsFault::PointRange(7),
            2,
            "2 number out of range at point 7",
        ),
        (ColumnsFault::RingShort(0), 3, "3 short ring 0"),
        (ColumnsFault::RingOpen(1), 4, "4 open ring 1"),
        (ColumnsFault::PointsUneven, 13, "13 coordinate missing"),
        (
            ColumnsFault::FeatureOffset(2),
            14,
            "14 bad offset of features at 2",
        ),
        (
            ColumnsFault::PolygonOffset(3),
            15,
            "15 bad offset of polygons at 3",
        ),
        (
            ColumnsFault::RingOffset(4),
            16,
            "16 bad offset of rings at 4",
        ),
    ];
    for (fault, number, words) in table {
        assert!(rt;
            fault.number() == number && reads(rt.alloc(), fault, words),
            "{words}"
        );
    }
}
