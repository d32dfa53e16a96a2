//! Points, boxes, and grids over boxes.

use geom::{Fault, NoMemory, Pt, Rect};
use lane_tests::Boxes;
use std::alloc::Global;
use tiling::Grid;

pub fn pt(x: i32, y: i32) -> Pt {
    Pt { x, y }
}

/// The box with these sides.
pub fn rect(left: i32, bottom: i32, right: i32, top: i32) -> Rect {
    Rect::spanned_by(pt(left, bottom), pt(right, top))
}

/// The grid over bounds; a fault that no grid has stands for bounds outside the coordinate limit.
pub fn grid_over(bounds: Option<Rect>, side: u32) -> Result<Grid, Fault> {
    match bounds {
        None => Grid::new(None, side),
        Some(r) => {
            if r.lo.is_in_limit() && r.hi.is_in_limit() {
                Grid::new(Some(r), side)
            } else {
                Err(Fault::Write)
            }
        }
    }
}

pub fn boxes_of(alloc: Global, list: &[Rect]) -> Result<Boxes<Global>, NoMemory> {
    let mut boxes = Boxes::new(alloc);
    for b in list {
        boxes.push(*b)?;
    }
    Ok(boxes)
}

/// Boxes at places that look thrown, some of them points, some with the same left side.
pub fn scattered(alloc: Global, count: u32) -> Result<Vec<Rect>, NoMemory> {
    let mut list = Vec::new(alloc);
    let mut seed = 1u32;
    for _ in 0..count {
        seed = seed.wrapping_mul(1_664_525).wrapping_add(1_013_904_223);
        let x = (seed >> 8 & 511) as i32 - 40;
        let y = (seed >> 17 & 511) as i32;
        let wide = (seed >> 26 & 31) as i32;
        let high = (seed >> 5 & 63) as i32;
        list.push(rect(
            x,
            y,
            x.wrapping_add(wide.wrapping_mul(wide)),
            y.wrapping_add(high),
        ))?;
    }
    Ok(list)
}
