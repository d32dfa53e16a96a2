//! Points, rectangles and segments by their coordinates.

ghost use Rattle.std.specs.Prelude.{All, IfOk, IfSome};
ghost use Rattle.geom.specs.Limit.{AreInLimit};

use geom::{NoMemory, Pt, Rect, Seg, Source};
use std::alloc::Allocator;

/// The coordinates of a point.
pub type Point = (i32, i32);

/// The ends of a segment, or two corners of a rectangle.
pub type Ends = (Point, Point);

/// The point with these coordinates.
pub fn point(at: Point) -> Pt {
    Pt { x: at.0, y: at.1 }
}

/// The rectangle with these corners, where it lies in the coordinate limit.
pub fn rectangle(corners: Ends) -> Result<Rect, NoMemory>
    ensures { IfOk result (λ r. AreInLimit r.lo r.hi) }
{
    let rect = Rect::spanned_by(point(corners.0), point(corners.1));
    if rect.lo.is_in_limit() && rect.hi.is_in_limit() {
        Ok(rect)
    } else {
        Err(NoMemory)
    }
}

/// The segment between two points in the coordinate limit, where they differ.
pub fn segment(ends: Ends) -> Option<Seg>
    ensures { IfSome result (λ s. AreInLimit s.a s.b) }
{
    let (a, b) = (point(ends.0), point(ends.1));
    if a.is_in_limit() && b.is_in_limit() {
        Seg::new(a, b, Source::A)
    } else {
        None
    }
}

/// The segments with these ends, where all have one.
pub fn segments_of<A: Allocator>(alloc: A, ends: &[Ends]) -> Result<Vec<Seg, A>, NoMemory>
    ensures { IfOk result (λ v. All (λ s. AreInLimit s.a s.b) v.items) }
{
    let mut segments = Vec::new(alloc);
    for pair in ends {
        let Some(made) = segment(*pair) else {
            return Err(NoMemory);
        };
        segments.push(made)?;
    }
    Ok(segments)
}
