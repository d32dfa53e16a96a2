//! Pairs of features: the results are those of operations on these features alone.

use columns::{Columns, ColumnsFault, OwnedColumns, Points};
use engine::{
    ColumnsOutput, ColumnsRefused, Limits, PairsOutput, PairsRefused, run_columns_alone_within,
    run_pairs_alone_within,
};
use geom::{Fault, Op};
use std::alloc::Global;
use std::test::Fail;

const OPS: [Op; 4] = [
    Op::Union,
    Op::Intersection,
    Op::Difference,
    Op::SymDifference,
];

/// A square, a square with a hole and a square in it, nothing, and a triangle.
const FIRST: Columns<'static> = Columns {
    points: Points::Interleaved(&[
        0, 0, 4, 0, 4, 4, 0, 4, 0, 0, 0, 0, 9, 0, 9, 9, 0, 9, 0, 0, 3, 3, 6, 3, 6, 6, 3, 6, 3, 3,
        4, 4, 5, 4, 5, 5, 4, 5, 4, 4, 0, 0, 7, 1, 1, 7, 0, 0,
    ]),
    rings: &[0, 5, 10, 15, 20, 24],
    polygons: &[0, 1, 3, 4, 5],
    features: &[0, 1, 3, 3, 4],
};

/// The features from the second on of five: a square, a band across, a square, and a triangle beside it.
const SECOND: Columns<'static> = Columns {
    points: Points::Separate {
        x: &[
            9, 9, 8, 9, 2, 6, 6, 2, 2, -1, 10, 10, -1, -1, 1, 2, 2, 1, 1, 6, 1, 7, 6,
        ],
        y: &[
            9, 8, 8, 9, 2, 2, 6, 6, 2, 4, 4, 7, 7, 4, 1, 1, 2, 2, 1, 0, 6, 7, 0,
        ],
    },
    rings: &[0, 4, 9, 14, 19, 23],
    polygons: &[0, 1, 2, 3, 4, 5],
    features: &[1, 2, 3, 4, 5],
};

/// One feature of a layer.
fn alone(layer: Columns<'static>, feature: usize) -> Columns<'static> {
    Columns {
        points: layer.points,
        rings: layer.rings,
        polygons: layer.polygons,
        features: layer
            .features
            .get(feature..feature.saturating_add(2))
            .unwrap_or(&[]),
    }
}

/// The offset of a number, or 0 where there is none.
fn offset(offsets: &[u32], number: usize) -> usize {
    offsets.get(number).map_or(0, |offset| *offset as usize)
}

/// Whether offsets from one place to another are others, moved by where the first one is.
fn are_moved(offsets: &[u32], others: &[u32]) -> bool {
    let from = offset(offsets, 0);
    offsets.len() == others.len()
        && (0..offsets.len()).all(|at| offset(offsets, at)
            == offset(others, at).saturating_add(from))
}

/// Whether the polygons of a pair are those of columns.
fn has(pairs: &PairsOutput<Global>, pair: usize, columns: &OwnedColumns<Global>) -> bool {
    let from = offset(&pairs.features, pair);
    let past = offset(&pairs.features, pair.saturating_add(1));
    let first = offset(&pairs.columns.polygons, from);
    let last = offset(&pairs.columns.polygons, past);
    let begin = offset(&pairs.columns.rings, first).saturating_mul(2);
    let end = offset(&pairs.columns.rings, last).saturating_mul(2);
    match (
        pairs.columns.polygons.get(from..past.saturating_add(1)),
        pairs.columns.rings.get(first..last.saturating_add(1)),
        pairs.columns.coordinates.get(begin..end),
    ) {
        (Some(polygons), Some(rings), Some(coordinates)) => {
            are_moved(polygons, &columns.polygons)
                && are_moved(rings, &columns.rings)
                && coordinates == columns.coordinates.as_slice()
        }
        _ => false,
    }
}

/// Whether the result of a pair is that of its two features alone.
fn is_same(alloc: Global, op: Op, pairs: &PairsOutput<Global>, pair: usize) -> bool {
    let (a, b) = (alone(FIRST, pair), alone(SECOND, pair));
    match run_columns_alone_within(alloc, op, &a, &b, 16, Limits::default()) {
        Ok(ColumnsOutput { columns, .. }) => has(pairs, pair, &columns),
        Err(_) => false,
    }
}

#[test]
fn each_pair_has_the_result_of_its_features(rt: HostRuntime) -> Result<(), Fail> {
    for op in OPS {
        match run_pairs_alone_within(rt.alloc(), op, &FIRST, &SECOND, Limits::default()) {
            Ok(pairs) => {
                assert_eq!(rt; pairs.features.len(), 5);
                for pair in 0..4usize {
                    assert!(rt; is_same(rt.alloc(), op, &pairs, pair), "{pair}");
                }
            }
            Err(_) => assert!(rt; false),
        }
    }
    Ok(())
}

#[test]
fn no_pairs(rt: HostRuntime) -> Result<(), Fail> {
    let none = alone(FIRST, 7);
    match run_pairs_alone_within(rt.alloc(), Op::Union, &none, &none, Limits { segments: 0 }) {
        Ok(pairs) => {
            assert!(rt; pairs.features.as_slice() == [0].as_slice());
            assert!(rt; pairs.columns.polygons.as_slice() == [0].as_slice());
        }
        Err(_) => assert!(rt; false),
    }
    Ok(())
}

fn refused_for(output: Result<PairsOutput<Global>, PairsRefused>) -> Option<PairsRefused> {
    match output {
        Ok(_) => None,
        Err(refused) => Some(refused),
    }
}

/// A ring that ends beside its first point.
const OPEN: Columns<'static> = Columns {
    rings: &[0, 4],
    polygons: &[0, 1],
    features: &[0, 1],
    ..FIRST
};

/// What two layers of so many segments at most are refused for.
fn refused(alloc: Global, a: &Columns<'_>, b: &Columns<'_>, segments: u32) -> Option<PairsRefused> {
    refused_for(run_pairs_alone_within(alloc, Op::Union, a, b, Limits { segments }))
}

#[test]
fn rows_are_refused_for_the_first(rt: HostRuntime) -> Result<(), Fail> {
    let open = ColumnsFault::RingOpen(0);
    let of_layers = [ColumnsRefused::A(open), ColumnsRefused::B(open)];
    let too_many = ColumnsRefused::Run(Fault::TooManySegments(34));
    for (a, b, segments, reason) in [
        (OPEN, OPEN, 0, Some(PairsRefused::Layers(of_layers[0]))),
        (FIRST, OPEN, 0, Some(PairsRefused::Layers(of_layers[1]))),
        (alone(FIRST, 0), SECOND, 0, Some(PairsRefused::Unpaired(1))),
        (FIRST, alone(SECOND, 9), 0, Some(PairsRefused::Unpaired(0))),
        (FIRST, SECOND, 33, Some(PairsRefused::Layers(too_many))),
        (FIRST, SECOND, 34, None),
    ] {
        assert_eq!(rt; refused(rt.alloc(), &a, &b, segments), reason);
    }
    Ok(())
}
