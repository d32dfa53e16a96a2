//! Regions: rectangles with walls, which part them where no column and no row parts their lines.
//!
//! 1. A wall has a direction, and a bound: how far to the left of the direction the pixels behind it lie at least.
//! 2. How far points lie to the left changes evenly along a line, and by half of the direction's span at most between a pixel's centre
//!    and its other points. So a line meets no pixel behind a wall where both its ends fall short of the bound by more than that.
//! 3. A region is a rectangle with some walls: it has the pixels of the rectangle that lie behind each of them.

ghost use Rattle.std.specs.Prelude.{◌≡◌, ◌↔◌, ◌^◌, ◌++◌, ◌∷◌, All, IfOk, IsTrue, []};
ghost use Rattle.geom.specs.declared.point.Pt.{Pt};
ghost use Rattle.geom.specs.Limit.{AreInLimit, InLimit, IsWithin};
ghost use Rattle.hot_region.specs.Halving.{AreReaching, IsMetOn};
ghost use Rattle.hot_region.specs.Rects.{IsIn};
ghost use Rattle.hot_region.specs.Walls.{AreKept, ArePartition, IsBehind, IsBehindAll, IsInside};

use crate::halving::{passes, passing};
use crate::lines::Line;
use crate::reach::may_come_behind;
use crate::wall::{Wall, leftmost, offset, span};
use geom::{Edge, NoMemory, Pt, Rect, Vector};
use std::alloc::Allocator;

/// The pixels of a rectangle that lie behind each of some walls.
#[derive(Drop)]
pub struct Region<A: Allocator> {
    pub rect: Rect,
    pub walls: Vec<Wall, A>,
}

impl Wall {
    /// Whether a pixel lies behind it.
    fn holds(&self, pixel: Pt) -> bool
        requires { InLimit pixel }
        ensures { IsTrue result ↔ IsBehind self.now pixel }
    {
        self.bound <= offset(self.run, pixel)
    }

    /// Whether a line may meet a pixel behind it.
    pub(crate) fn is_reached_by(&self, line: &Edge) -> bool
        requires { AreInLimit line.now.p line.now.q }
        ensures { (c : Pt) → IsBehind self.now c → IsMetOn line.now c → IsTrue result }
    {
        let least = 2 * self.bound - span(self.run);
        least <= 2 * offset(self.run, line.p) || least <= 2 * offset(self.run, line.q)
    }

    /// Whether no pixel of a rectangle lies behind it.
    fn misses(&self, rect: &Rect) -> bool
        requires { AreInLimit rect.now.lo rect.now.hi }
        ensures { (c : Pt) → IsTrue result → IsIn rect.now c → IsBehind self.now c → ⊥ }
    {
        offset(self.run, leftmost(self.run, rect)) < self.bound
    }
}

/// The two walls that part the plane at a bound.
pub(crate) fn walls_at(run: Vector, bound: i64) -> (Wall, Wall)
    requires { IsWithin (2 ^ 60) bound }
    ensures { ArePartition result.0 result.1 }
{
    let back = Vector {
        dx: -run.dx,
        dy: -run.dy,
    };
    let right = Wall {
        run: back,
        bound: 1 - bound,
    };
    (Wall { run, bound }, right)
}

/// Whether a pixel lies behind each of some walls.
fn is_behind_all(walls: &[Wall], pixel: Pt) -> bool
    requires { InLimit pixel }
    ensures { IsTrue result ↔ IsBehindAll walls.now pixel }
{
    for wall in walls {
        if !wall.holds(pixel) {
            return false;
        }
    }
    true
}

/// Those of some pixels that lie behind each of some walls, in a list of their own.
fn all_behind<A: Allocator>(alloc: A, walls: &[Wall], pixels: &[Pt]) -> Result<Vec<Pt, A>, NoMemory>
    requires { All InLimit pixels.now }
    ensures { IfOk result (λ v. AreKept walls.now pixels.now v.items) }
{
    let mut list = Vec::new(alloc);
    for pixel in pixels {
        if is_behind_all(walls, *pixel) {
            list.push(*pixel)?;
        }
    }
    Ok(list)
}

/// Those of some pixels that lie behind each of some walls.
pub fn kept<A: Allocator>(
    alloc: A,
    walls: &[Wall],
    pixels: Vec<Pt, A>,
) -> Result<Vec<Pt, A>, NoMemory>
    requires { All InLimit pixels.items }
    ensures { IfOk result (λ v. AreKept walls.now pixels.items v.items) }
{
    if walls.is_empty() {
        return Ok(pixels);
    }
    all_behind(alloc, walls, &pixels)
}

/// Whether no pixel of a rectangle lies behind one of some walls.
fn is_missed(rect: &Rect, walls: &[Wall]) -> bool
    requires { AreInLimit rect.now.lo rect.now.hi }
    ensures { (c : Pt) → IsTrue result → IsInside rect.now walls.now c → ⊥ }
{
    for wall in walls {
        if wall.misses(rect) {
            return true;
        }
    }
    false
}

/// Whether a line may meet a pixel of a rectangle behind a wall.
fn may_meet_behind(rect: &Rect, wall: &Wall, line: &Edge) -> bool
    requires rect_in { AreInLimit rect.now.lo rect.now.hi }
    requires line_in { AreInLimit line.now.p line.now.q }
    ensures { (c : Pt) → IsIn rect.now c × IsBehind wall.now c → IsMetOn line.now c → IsTrue result }
{
    wall.is_reached_by(line) && passes(rect, line) && may_come_behind(wall, rect, line)
}

/// The lines that may meet a pixel of a rectangle behind a wall.
fn passing_behind<A: Allocator>(
    alloc: A,
    rect: &Rect,
    wall: &Wall,
    lines: &[Line],
) -> Result<Vec<Line, A>, NoMemory>
    requires { AreInLimit rect.now.lo rect.now.hi }
    ensures { IfOk result (λ v. AreReaching (λ c. IsIn rect.now c × IsBehind wall.now c) lines.now v.items) }
{
    let mut part = Vec::with_capacity(alloc, lines.len())?;
    for line in lines {
        if may_meet_behind(rect, wall, &line.edge) {
            part.push(*line)?;
        }
    }
    part.shrink_to_fit();
    Ok(part)
}

impl<A: Allocator + Copy> Region<A> {
    /// A rectangle without walls.
    pub fn open(alloc: A, rect: Rect) -> Region<A>
        ensures rect { result.rect ≡ rect }
        ensures walls { result.walls.items ≡ [] }
    {
        Region {
            rect,
            walls: Vec::new(alloc),
        }
    }

    /// Whether no pixel of the rectangle lies behind one of the walls. Else the region may still have none.
    pub fn is_empty(&self) -> bool
        requires { AreInLimit self.now.rect.lo self.now.rect.hi }
        ensures { (c : Pt) → IsTrue result → IsInside self.now.rect self.now.walls.items c → ⊥ }
    {
        is_missed(&self.rect, &self.walls)
    }

    /// The part of it in another rectangle.
    pub(crate) fn within(&self, alloc: A, rect: Rect) -> Result<Region<A>, NoMemory>
        ensures rect { IfOk result (λ part. part.rect ≡ rect) }
        ensures walls { IfOk result (λ part. part.walls.items ≡ self.now.walls.items) }
    {
        let mut walls = Vec::new(alloc);
        walls.extend_from_slice(&self.walls)?;
        Ok(Region { rect, walls })
    }

    /// The part of it behind a wall.
    pub(crate) fn behind(&self, alloc: A, wall: Wall) -> Result<Region<A>, NoMemory>
        ensures rect { IfOk result (λ part. part.rect ≡ self.now.rect) }
        ensures walls { IfOk result (λ part. part.walls.items ≡ self.now.walls.items ++ wall ∷ []) }
    {
        let mut part = self.within(alloc, self.rect)?;
        part.walls.push(wall)?;
        Ok(part)
    }
}

/// The lines that may meet a pixel of a region: they pass its rectangle, and the last wall.
pub fn reaching<A: Allocator>(
    alloc: A,
    region: &Region<A>,
    lines: &[Line],
) -> Result<Vec<Line, A>, NoMemory>
    requires { AreInLimit region.now.rect.lo region.now.rect.hi }
    ensures { IfOk result (λ v. AreReaching (IsInside region.now.rect region.now.walls.items) lines.now v.items) }
{
    match region.walls.last() {
        None => passing(alloc, &region.rect, lines),
        Some(wall) => passing_behind(alloc, &region.rect, wall, lines),
    }
}
