//! The shells of polygons, in order.
//!
//! A shell is told by the coordinates of its points, which are compared one by one.

ghost use Rattle.std.specs.Prelude.{◌≡◌, ◌<◌, ◌-◌, IfOk, MatchOption, length};
ghost use Rattle.std.specs.Cmp.Lexicographic.{slice_cmp};
ghost use Rattle.std.specs.List.Sorted.{IsPermutation};
ghost use Rattle.std.specs.Ordering.{int_cmp};
ghost use Rattle.polygon_order.specs.Order.{AreWhole, IsShellTwice};
ghost use Rattle.polygon_order.specs.Shells.{AreDistinct, AreShells, CompareShells, DoNotFall, IsShellOf};

use crate::given::PolygonColumns;
use geom::NoMemory;
use std::alloc::Allocator;
use std::cmp::Ordering;

/// The coordinates of a shell's points, but for the last one, which is the first one again, and the number of its polygon.
#[derive(Clone, Copy, Debug)]
pub struct Shell<'a> {
    coordinates: &'a [i32],
    pub number: usize,
}

/// By the first coordinate in which they differ; a shell goes before those that it is the front of.
fn compare(s: &Shell<'_>, t: &Shell<'_>) -> Ordering
    ensures points { CompareShells s.now.coordinates.now t.now.coordinates.now result }
    ensures order { result ≡ slice_cmp int_cmp s.now.coordinates.now t.now.coordinates.now }
{
    s.coordinates.cmp(t.coordinates)
}

/// Sorts shells by their points.
fn sort(shells: &mut [Shell<'_>])
    ensures permutation { IsPermutation shells.old shells.new }
    ensures sorted { DoNotFall shells.new }
{
    shells.sort_unstable_by(|s, t| compare(s, t));
}

/// The shell of the polygon with this number.
fn shell_of<'a>(columns: PolygonColumns<'a>, number: usize) -> Shell<'a>
    requires whole { AreWhole columns.coordinates.now columns.rings.now columns.polygons.now }
    requires inside { number < length columns.polygons.now - 1 }
    ensures shell { IsShellOf columns.entry result }
    ensures number { result.number ≡ number }
{
    let ring = columns.polygons[number] as usize;
    let from = columns.rings[ring] as usize;
    let past = columns.rings[ring + 1] as usize;
    Shell {
        coordinates: &columns.coordinates[2 * from..2 * (past - 1)],
        number,
    }
}

/// The shells of all polygons, in their order.
pub fn shells_in_order<'a, A: Allocator>(
    alloc: A,
    columns: PolygonColumns<'a>,
) -> Result<Vec<Shell<'a>, A>, NoMemory>
    requires { AreWhole columns.coordinates.now columns.rings.now columns.polygons.now }
    ensures shells { IfOk result (λ found. AreShells columns.entry found.items) }
    ensures sorted { IfOk result (λ found. DoNotFall found.items) }
{
    let mut found = Vec::with_capacity(alloc, columns.polygons.len())?;
    for number in 1..columns.polygons.len() {
        found.push(shell_of(columns, number - 1))?;
    }
    sort(found.as_mut_slice());
    Ok(found)
}

/// The number of a polygon with the shell of another one.
pub fn shell_twice(columns: PolygonColumns<'_>, shells: &[Shell<'_>]) -> Option<usize>
    requires shells { AreShells columns shells.now }
    requires sorted { DoNotFall shells.now }
    ensures { MatchOption result (AreDistinct columns.entry shells.now) (λ number. IsShellTwice columns.entry.coordinates.now columns.entry.rings.now columns.entry.polygons.now number) }
{
    for place in 1..shells.len() {
        if compare(&shells[place - 1], &shells[place]) == Ordering::Equal {
            return Some(shells[place].number);
        }
    }
    None
}
