//! The two parts of a region: halves of its rectangle, or what lies on either side of a slanted line, where lines would go into both
//! halves and most of them lie on one side of that.
//!
//! 1. The rectangle is cut by columns or by rows (`halving`). Of a sample of its lines, those are long that go far through it and
//!    into both halves.
//! 2. Where many of the sample are long, a wall is set beside the middle one of them, in its direction: on its left, or on its right.
//! 3. The wall stands if few lines may meet pixels on both its sides, and many on each side alone.
//! 4. Else one is set past all long lines, where these are a thin bundle and others lie beside it (`outer`).
//! 5. Else the halves stay. Where lines are many the border between these is moved (`border`).

ghost use Rattle.std.specs.Prelude.{◌<◌, ◌≤◌, All, IfOk, IfSome, length};
ghost use Rattle.geom.specs.Limit.{AreInLimit};
ghost use Rattle.hot_region.specs.Halving.{AreHalves, AreParts};
ghost use Rattle.hot_region.specs.Walls.{ArePartition, IsInside};

use crate::border::with_border_moved;
use crate::halving::{SAMPLE, cut, passes};
use crate::lines::Line;
use crate::outer::walls_parting_off;
use crate::reach::may_come_behind;
use crate::region::{Region, walls_at};
use crate::wall::{Wall, offset, span};
use geom::{Edge, NoMemory, Rect, Vector};
use std::alloc::Allocator;

/// How many walls a region has at most.
const WALLS: usize = 60;

/// How many lines are asked for long ones at least.
const MANY: usize = 64;

/// How many of the sample have to be long.
const LONG: usize = 4;

/// One in how many lines may be on both sides of a wall at most, and has to be on one side alone at least.
pub(crate) const SHARE: usize = 8;

/// Whether a span from one number to another has more than half of the one from low to high.
fn has_half(low: i32, high: i32, from: i32, to: i32) -> bool {
    high.min(to).abs_diff(low.max(from)) > high.abs_diff(low) / 2
}

/// Whether a line goes far through a rectangle.
fn goes_far(rect: &Rect, line: &Edge) -> bool {
    let bounds = line.bounds();
    has_half(rect.lo.x, rect.hi.x, bounds.lo.x, bounds.hi.x)
        || has_half(rect.lo.y, rect.hi.y, bounds.lo.y, bounds.hi.y)
}

/// Whether a line goes far through a rectangle and into both its halves.
fn is_long(rect: &Rect, halves: &(Rect, Rect), line: &Edge) -> bool
    requires first_in { AreInLimit halves.now.0.lo halves.now.0.hi }
    requires second_in { AreInLimit halves.now.1.lo halves.now.1.hi }
    requires line_in { AreInLimit line.now.p line.now.q }
{
    goes_far(rect, line) && passes(&halves.0, line) && passes(&halves.1, line)
}

/// Those of a sample of lines that are long.
fn long_lines<A: Allocator>(
    alloc: A,
    rect: &Rect,
    halves: &(Rect, Rect),
    lines: &[Line],
) -> Result<Vec<Edge, A>, NoMemory>
    requires first_in { AreInLimit halves.now.0.lo halves.now.0.hi }
    requires second_in { AreInLimit halves.now.1.lo halves.now.1.hi }
    ensures { IfOk result (λ v. All (λ e. AreInLimit e.p e.q) v.items) }
{
    let step = lines.len() / SAMPLE;
    let mut long = Vec::new(alloc);
    for k in 0..SAMPLE {
        if k * step < lines.len() {
            let line = &lines[k * step];
            if is_long(rect, halves, &line.edge) {
                long.push(line.edge)?;
            }
        }
    }
    Ok(long)
}

/// How many lines begin farther to the right of a direction than some bound says.
fn count_right(run: Vector, bound: i64, lines: &[Edge]) -> usize
    requires { All (λ e. AreInLimit e.p e.q) lines.now }
{
    let mut count = 0;
    for line in lines {
        if offset(run, line.p) < bound {
            count += 1;
        }
    }
    count
}

/// The place of the line with as many to the right as to the left of it, or nearly, by where they begin.
fn middle_of(run: Vector, lines: &[Edge]) -> usize
    requires some { 0 < length lines.now }
    requires lines_in { All (λ e. AreInLimit e.p e.q) lines.now }
    ensures { result < length lines.now }
{
    let mut middle = 0;
    let mut most = 0;
    for place in 0..lines.len() {
        let count = count_right(run, offset(run, lines[place].p), lines);
        if most <= count && count <= lines.len() / 2 {
            middle = place;
            most = count;
        }
    }
    middle
}

/// The direction of a line, or the opposite one.
pub(crate) fn direction_of(line: &Edge, is_opposite: bool) -> Vector
    requires { AreInLimit line.now.p line.now.q }
{
    if is_opposite {
        line.q.vector_to(line.p)
    } else {
        line.p.vector_to(line.q)
    }
}

/// The walls beside the middle one of some lines, in the direction of one of them or the opposite one: on its left or its right.
fn walls_beside(lines: &[Edge], is_opposite: bool) -> (Wall, Wall)
    requires some { 0 < length lines.now }
    requires lines_in { All (λ e. AreInLimit e.p e.q) lines.now }
    ensures { ArePartition result.0 result.1 }
{
    let line = lines[lines.len() / 2];
    let run = direction_of(&line, is_opposite);
    let middle = lines[middle_of(run, lines)];
    walls_at(run, offset(run, middle.p) + span(run) + 1)
}

/// Whether a line may meet a pixel of a rectangle behind a wall.
pub(crate) fn comes_behind(wall: &Wall, rect: &Rect, line: &Edge) -> bool
    requires rect_in { AreInLimit rect.now.lo rect.now.hi }
    requires line_in { AreInLimit line.now.p line.now.q }
{
    wall.is_reached_by(line) && may_come_behind(wall, rect, line)
}

/// Whether walls part the lines of a rectangle: few may meet pixels behind both, and many behind each alone.
fn part_lines(rect: &Rect, walls: &(Wall, Wall), lines: &[Line]) -> bool
    requires { AreInLimit rect.now.lo rect.now.hi }
{
    let share = lines.len() / SHARE;
    let mut first = 0;
    let mut second = 0;
    let mut both = 0;
    for line in lines {
        let is_first = comes_behind(&walls.0, rect, &line.edge);
        if is_first && comes_behind(&walls.1, rect, &line.edge) {
            both += 1;
        } else if is_first {
            first += 1;
        } else {
            second += 1;
        }
        if both > share {
            return false;
        }
    }
    share <= first && share <= second
}

/// Walls that part the lines of a rectangle, of which many would go into both its halves.
fn slanted<A: Allocator>(
    alloc: A,
    rect: &Rect,
    halves: &(Rect, Rect),
    lines: &[Line],
) -> Result<Option<(Wall, Wall)>, NoMemory>
    requires rect_in { AreInLimit rect.now.lo rect.now.hi }
    requires first_in { AreInLimit halves.now.0.lo halves.now.0.hi }
    requires second_in { AreInLimit halves.now.1.lo halves.now.1.hi }
    ensures { IfOk result (λ o. IfSome o (λ w. ArePartition w.0 w.1)) }
{
    let long = long_lines(alloc, rect, halves, lines)?;
    if long.len() < LONG {
        return Ok(None);
    }
    let walls = walls_beside(&long, false);
    if part_lines(rect, &walls, lines) {
        return Ok(Some(walls));
    }
    let walls = walls_beside(&long, true);
    if part_lines(rect, &walls, lines) {
        return Ok(Some(walls));
    }
    if let Some(walls) = walls_parting_off(rect, &long, false, lines) {
        return Ok(Some(walls));
    }
    Ok(walls_parting_off(rect, &long, true, lines))
}

/// Halves of a region's rectangle, the border between them moved where lines are many, or were parted by walls before.
fn halves_for<A: Allocator>(
    region: &Region<A>,
    halves: (Rect, Rect),
    lines: &[Line],
) -> (Rect, Rect)
    requires rect_in { AreInLimit region.now.rect.lo region.now.rect.hi }
    requires halves { AreHalves region.now.rect halves.0 halves.1 }
    requires first_in { AreInLimit halves.0.lo halves.0.hi }
    requires second_in { AreInLimit halves.1.lo halves.1.hi }
    ensures halves { AreHalves region.now.rect result.0 result.1 }
    ensures first_in { AreInLimit result.0.lo result.0.hi }
    ensures second_in { AreInLimit result.1.lo result.1.hi }
{
    if lines.len() < MANY && region.walls.is_empty() {
        return halves;
    }
    with_border_moved(&region.rect, halves, lines)
}

/// Two parts of a region, by which its lines are parted. Only a single pixel has none.
pub fn parts<A: Allocator + Copy>(
    alloc: A,
    region: &Region<A>,
    lines: &[Line],
) -> Result<Option<(Region<A>, Region<A>)>, NoMemory>
    requires { AreInLimit region.now.rect.lo region.now.rect.hi }
    ensures parts { IfOk result (λ o. IfSome o (λ h. AreParts (IsInside region.now.rect region.now.walls.items) (IsInside h.0.rect h.0.walls.items) (IsInside h.1.rect h.1.walls.items))) }
    ensures first_in { IfOk result (λ o. IfSome o (λ h. AreInLimit h.0.rect.lo h.0.rect.hi)) }
    ensures second_in { IfOk result (λ o. IfSome o (λ h. AreInLimit h.1.rect.lo h.1.rect.hi)) }
{
    let Some(halves) = cut(&region.rect, lines) else {
        return Ok(None);
    };
    if lines.len() >= MANY && region.walls.len() < WALLS {
        if let Some(walls) = slanted(alloc, &region.rect, &halves, lines)? {
            let first = region.behind(alloc, walls.0)?;
            let second = region.behind(alloc, walls.1)?;
            return Ok(Some((first, second)));
        }
    }
    let halves = halves_for(region, halves, lines);
    let first = region.within(alloc, halves.0)?;
    let second = region.within(alloc, halves.1)?;
    Ok(Some((first, second)))
}
