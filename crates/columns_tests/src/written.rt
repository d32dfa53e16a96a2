//! Polygons that are written as columns.

use columns::{Columns, Points, columns_of, survey};
use geom::{NoMemory, Polygon, Pt, Rect};
use std::alloc::{Allocator, Global};
use wkt::Outline;
use wkt_tests::squares::square;

fn with_hole<A: Allocator + Copy>(alloc: A) -> Result<Polygon<A>, NoMemory> {
    let mut holes = Vec::new(alloc);
    holes.push(square(alloc, 3, 6)?)?;
    Ok(Polygon::new(square(alloc, 0, 9)?, holes))
}

/// A square with a hole, and a square that shares its corner.
fn two_polygons(alloc: Global) -> Result<Vec<Polygon<Global>>, NoMemory> {
    let mut polygons = Vec::new(alloc);
    polygons.push(with_hole(alloc)?)?;
    polygons.push(Polygon::new(square(alloc, -2, 0)?, Vec::new(alloc)))?;
    Ok(polygons)
}

/// Whether no polygons are written as columns of nothing.
fn none_are_written(alloc: Global) -> Result<bool, NoMemory> {
    let none = columns_of(alloc, &Vec::<Polygon<Global>>::new(alloc))?;
    Ok(
        none.coordinates.is_empty()
            && none.rings.as_slice() == [0].as_slice()
            && none.polygons.as_slice() == [0].as_slice(),
    )
}

const COORDINATES: [i32; 30] = [
    0, 0, 9, 0, 9, 9, 0, 9, 0, 0, 3, 3, 6, 3, 6, 6, 3, 6, 3, 3, -2, -2, 0, -2, 0, 0, -2, 0, -2, -2,
];

/// Whether two polygons are written as `COORDINATES`, and surveyed again.
fn two_are_written(alloc: Global) -> Result<bool, NoMemory> {
    let written = columns_of(alloc, &two_polygons(alloc)?)?;
    let again = Columns {
        points: Points::Interleaved(&written.coordinates),
        rings: &written.rings,
        polygons: &written.polygons,
        features: &[0, 2],
    };
    let outline = Outline {
        segments: 12,
        bounds: Some(Rect::spanned_by(Pt { x: -2, y: -2 }, Pt { x: 9, y: 9 })),
    };
    Ok(
        written.coordinates.as_slice() == COORDINATES.as_slice()
            && written.rings.as_slice() == [0, 5, 10, 15].as_slice()
            && written.polygons.as_slice() == [0, 2, 3].as_slice()
            && survey(&again) == Ok(outline),
    )
}

#[test]
fn columns(rt: HostRuntime) {
    assert!(rt;
        none_are_written(rt.alloc()) == Ok(true) && two_are_written(rt.alloc()) == Ok(true)
    );
}
