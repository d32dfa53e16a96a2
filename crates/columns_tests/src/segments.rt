//! The segments of columns.

use columns::{Columns, Points, feature_count, push_feature, push_segments, survey};
use geom::{NoMemory, Seg, Source};
use std::alloc::Global;

/// Two squares, of which the second has a point twice; the last point of each is its first.
const X: [i32; 11] = [0, 4, 4, 0, 0, 9, 9, 8, 8, 9, 9];

const Y: [i32; 11] = [0, 0, 4, 4, 0, 9, 8, 8, 9, 9, 9];

/// The segments of all features, or of one.
fn segments_of(
    alloc: Global,
    columns: &Columns<'_>,
    feature: Option<usize>,
) -> Result<Vec<Seg>, NoMemory> {
    let mut segments = Vec::new(alloc);
    if survey(columns).is_err() {
        return Ok(segments);
    }
    match feature {
        Some(number) => {
            if number < feature_count(columns) {
                push_feature(&mut segments, columns, number, Source::B)?;
            }
        }
        None => push_segments(&mut segments, columns, Source::B)?,
    }
    Ok(segments)
}

/// The ends of a segment.
type Ends = (i32, i32, i32, i32);

/// Whether the segments of all features, or of one, are of B and go round by these points.
fn go_round(
    alloc: Global,
    columns: &Columns<'_>,
    feature: Option<usize>,
    round: &[Ends],
) -> Result<bool, NoMemory> {
    let segments = segments_of(alloc, columns, feature)?;
    Ok(
        segments.len() == round.len()
            && segments.iter().zip(round).all(|(segment, ends)| {
                segment.layer == Source::B
                    && (segment.a.x, segment.a.y, segment.b.x, segment.b.y) == *ends
            }),
    )
}

/// What the two squares' segments go round.
const ROUND: [Ends; 8] = [
    (0, 0, 4, 0),
    (4, 0, 4, 4),
    (4, 4, 0, 4),
    (0, 4, 0, 0),
    (9, 9, 9, 8),
    (9, 8, 8, 8),
    (8, 8, 8, 9),
    (8, 9, 9, 9),
];

/// Whether they are found, the first as those of feature 0, none of 1, and the second of 2.
fn are_found(alloc: Global, points: Points<'_>) -> Result<bool, NoMemory> {
    let columns = Columns {
        points,
        rings: &[0, 5, 11],
        polygons: &[0, 1, 2],
        features: &[0, 1, 1, 2],
    };
    Ok(
        go_round(alloc, &columns, None, &ROUND)?
            && go_round(alloc, &columns, Some(0), &ROUND[..4])?
            && go_round(alloc, &columns, Some(1), &[])?
            && go_round(alloc, &columns, Some(2), &ROUND[4..])?,
    )
}

/// The same of points that are interleaved.
fn are_found_interleaved(alloc: Global) -> Result<bool, NoMemory> {
    let mut coordinates = Vec::new(alloc);
    for (x, y) in X.iter().zip(&Y) {
        coordinates.push(*x)?;
        coordinates.push(*y)?;
    }
    are_found(alloc, Points::Interleaved(&coordinates))
}

#[test]
fn of_features(rt: HostRuntime) {
    let separate = Points::Separate { x: &X, y: &Y };
    assert!(rt;
        are_found(rt.alloc(), separate) == Ok(true) && are_found_interleaved(rt.alloc()) == Ok(true)
    );
}
