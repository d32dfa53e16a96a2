//! Walls past all long lines of a rectangle: where these are a thin bundle, what lies beside it is parted off.
//!
//! 1. A wall in the direction of one of the long lines is moved away from it to the left, a quarter farther each time, until none of
//!    them comes behind it.
//! 2. It is given up where less than seven eighths of what lies on that side in the rectangle would be behind it.
//! 3. It stands if few lines may meet pixels on both its sides, and more come behind it alone than a leaf crosses.
//! 4. In the opposite direction the same is done on the right.

ghost use Rattle.std.specs.Prelude.{◌<◌, ◌^◌, ◌≤ℤ◌, All, IfSome, length, pos};
ghost use Rattle.geom.specs.Limit.{AreInLimit, IsWithin};
ghost use Rattle.hot_region.specs.Walls.{ArePartition};

use crate::leaf::FEW;
use crate::lines::Line;
use crate::parting::{SHARE, comes_behind, direction_of};
use crate::region::walls_at;
use crate::wall::{Wall, leftmost, offset, span};
use geom::{Edge, Rect, Vector};

/// How often a wall is moved away from a line at most: a quarter farther each time, it has then left any rectangle.
const STEPS: u32 = 120;

/// How far away from a line a wall is at most, in the determinant's unit: 2^58.
const FARTHEST: i64 = 288_230_376_151_711_744;

/// Whether none of some lines comes behind a wall.
fn is_past(wall: &Wall, rect: &Rect, lines: &[Edge]) -> bool
    requires rect_in { AreInLimit rect.now.lo rect.now.hi }
    requires lines_in { All (λ e. AreInLimit e.p e.q) lines.now }
{
    for line in lines {
        if comes_behind(wall, rect, line) {
            return false;
        }
    }
    true
}

/// How far away from a line the nearest wall in its direction is: the line's own pixels lie before that.
fn nearest(run: Vector) -> i64
    ensures from { pos 0 ≤ℤ result }
    ensures to { result ≤ℤ pos (2 ^ 58) }
{
    span(run) + 1
}

/// A quarter farther, and one at least.
fn farther(away: i64) -> i64
    requires from { pos 0 ≤ℤ away }
    requires to { away ≤ℤ pos (2 ^ 58) }
    ensures from { pos 0 ≤ℤ result }
{
    away + away.div_euclid(4) + 1
}

/// How far a rectangle reaches beyond a level, to the left of a direction.
fn room_beyond(run: Vector, level: i64, rect: &Rect) -> i64
    requires level_in { IsWithin (2 ^ 59) level }
    requires rect_in { AreInLimit rect.now.lo rect.now.hi }
{
    offset(run, leftmost(run, rect)) - level
}

/// The walls in a direction, so far to the left of a level.
fn walls_away(run: Vector, level: i64, away: i64) -> (Wall, Wall)
    requires level_in { IsWithin (2 ^ 59) level }
    requires from { pos 0 ≤ℤ away }
    requires to { away ≤ℤ pos (2 ^ 58) }
    ensures { ArePartition result.0 result.1 }
{
    walls_at(run, level + away)
}

/// The walls past all of some lines, on the left of the direction of one of them, or of the opposite one; none where too little of a
/// rectangle would lie behind them.
fn walls_past(rect: &Rect, lines: &[Edge], is_opposite: bool) -> Option<(Wall, Wall)>
    requires some { 0 < length lines.now }
    requires rect_in { AreInLimit rect.now.lo rect.now.hi }
    requires lines_in { All (λ e. AreInLimit e.p e.q) lines.now }
    ensures { IfSome result (λ w. ArePartition w.0 w.1) }
{
    let line = lines[lines.len() / 2];
    let run = direction_of(&line, is_opposite);
    let level = offset(run, line.p);
    let most = room_beyond(run, level, rect).div_euclid(8).min(FARTHEST);
    let mut away = nearest(run);
    for _step in 0..STEPS {
        if away > most {
            return None;
        }
        let walls = walls_away(run, level, away);
        if is_past(&walls.0, rect, lines) {
            return Some(walls);
        }
        away = farther(away);
    }
    None
}

/// Whether walls part off some lines of a rectangle: few may meet pixels behind both, and more than a leaf crosses behind the first
/// alone.
fn part_off(rect: &Rect, walls: &(Wall, Wall), lines: &[Line]) -> bool
    requires { AreInLimit rect.now.lo rect.now.hi }
{
    let share = lines.len() / SHARE;
    let mut first = 0;
    let mut both = 0;
    for line in lines {
        if comes_behind(&walls.0, rect, &line.edge) {
            if comes_behind(&walls.1, rect, &line.edge) {
                both += 1;
            } else {
                first += 1;
            }
        }
        if both > share {
            return false;
        }
    }
    FEW < first
}

/// Walls that part off some lines of a rectangle from long ones that lie close to one another.
pub(crate) fn walls_parting_off(
    rect: &Rect,
    long: &[Edge],
    is_opposite: bool,
    lines: &[Line],
) -> Option<(Wall, Wall)>
    requires some { 0 < length long.now }
    requires rect_in { AreInLimit rect.now.lo rect.now.hi }
    requires long_in { All (λ e. AreInLimit e.p e.q) long.now }
    ensures { IfSome result (λ w. ArePartition w.0 w.1) }
{
    let walls = walls_past(rect, long, is_opposite)?;
    if part_off(rect, &walls, lines) {
        Some(walls)
    } else {
        None
    }
}
