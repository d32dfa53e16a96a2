//! Polygons that are written, and read again.

use crate::squares::square;
use geom::{NoMemory, Polygon};
use std::alloc::{Allocator, Global};
use wkt::{read_layer, write_multi};

fn with_hole<A: Allocator + Copy>(alloc: A) -> Result<Polygon<A>, NoMemory> {
    let mut holes = Vec::new(alloc);
    holes.push(square(alloc, 3, 6)?)?;
    Ok(Polygon::new(square(alloc, 0, 9)?, holes))
}

/// A square with a hole, and a square that shares its corner.
fn two_polygons(alloc: Global) -> Result<Vec<Polygon<Global>>, NoMemory> {
    let mut polygons = Vec::new(alloc);
    polygons.push(with_hole(alloc)?)?;
    polygons.push(Polygon::new(square(alloc, -2, 0)?, Vec::new(alloc)))?;
    Ok(polygons)
}

const LINE: &[u8] =
    b"MULTIPOLYGON (((0 0, 9 0, 9 9, 0 9, 0 0), (3 3, 6 3, 6 6, 3 6, 3 3)), ((-2 -2, 0 -2, 0 0, -2 0, -2 -2)))\n";

/// Whether no polygons are written as an empty line, and two as `LINE`.
fn are_lines(alloc: Global) -> Result<bool, NoMemory> {
    let none = write_multi(alloc, &Vec::<Polygon<Global>>::new(alloc))?;
    let two = write_multi(alloc, &two_polygons(alloc)?)?;
    Ok(none.as_slice() == b"MULTIPOLYGON EMPTY\n".as_slice() && two.as_slice() == LINE)
}

/// Whether `LINE` is read as three rings, of which the last is a shell.
fn is_read_again(alloc: Global) -> Result<bool, NoMemory> {
    let shell = square(alloc, -2, 0)?;
    match read_layer(alloc, LINE) {
        Ok(layer) => {
            let rings = layer.rings();
            Ok(rings.len() == 3 && rings[2].points() == shell.points())
        }
        Err(_) => Ok(false),
    }
}

#[test]
fn lines(rt: HostRuntime) {
    let alloc = rt.alloc();
    assert!(rt; are_lines(alloc) == Ok(true) && is_read_again(alloc) == Ok(true));
}
