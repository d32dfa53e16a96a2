//! Layers and results as texts.

use columns::OwnedColumns;
use geom::NoMemory;
use std::alloc::{AllocError, Global};

/// What stands between items, behind the first one.
fn comma(text: &mut Vec<u8>, is_first: bool) -> Result<(), AllocError> {
    if is_first {
        return Ok(());
    }
    text.extend_from_slice(b", ")
}

/// Adds the points of a ring, in brackets. The coordinates are x y x y ..
pub fn push_ring(alloc: Global, text: &mut Vec<u8>, coordinates: &[i32]) -> Result<(), NoMemory> {
    text.push(b'(')?;
    for number in 0..coordinates.len() / 2 {
        comma(text, number == 0)?;
        let (x, y) = (coordinates[number * 2], coordinates[number * 2 + 1]);
        let point = format!(in alloc; "{x} {y}")?;
        text.extend_from_slice(point.as_bytes())?;
    }
    text.push(b')')?;
    Ok(())
}

/// The offset of a number, or 0 where there is none.
fn offset(offsets: &[u32], number: usize) -> usize {
    offsets.get(number).map_or(0, |offset| *offset as usize)
}

/// Adds the rings from one number to before another one, in brackets.
fn push_rings(
    alloc: Global,
    text: &mut Vec<u8>,
    columns: &OwnedColumns<Global>,
    from: usize,
    past: usize,
) -> Result<(), NoMemory> {
    text.push(b'(')?;
    for ring in from..past {
        comma(text, ring == from)?;
        let begin = offset(&columns.rings, ring).saturating_mul(2);
        let end = offset(&columns.rings, ring.saturating_add(1)).saturating_mul(2);
        match columns.coordinates.get(begin..end) {
            Some(coordinates) => push_ring(alloc, text, coordinates)?,
            None => return Err(NoMemory),
        }
    }
    text.push(b')')?;
    Ok(())
}

/// Adds the canonical line of the polygons from one number to before another one that columns hold.
pub fn push_polygons(
    alloc: Global,
    text: &mut Vec<u8>,
    columns: &OwnedColumns<Global>,
    first: usize,
    last: usize,
) -> Result<(), NoMemory> {
    if first >= last {
        text.extend_from_slice(b"MULTIPOLYGON EMPTY\n")?;
        return Ok(());
    }
    text.extend_from_slice(b"MULTIPOLYGON (")?;
    for polygon in first..last {
        comma(text, polygon == first)?;
        let from = offset(&columns.polygons, polygon);
        let past = offset(&columns.polygons, polygon.saturating_add(1));
        push_rings(alloc, text, columns, from, past)?;
    }
    text.extend_from_slice(b")\n")?;
    Ok(())
}

/// The canonical line of the polygons that columns hold.
pub fn line_of(alloc: Global, columns: &OwnedColumns<Global>) -> Result<Vec<u8>, NoMemory> {
    let mut text = Vec::new(alloc);
    let count = columns.polygons.len().saturating_sub(1);
    push_polygons(alloc, &mut text, columns, 0, count)?;
    Ok(text)
}
