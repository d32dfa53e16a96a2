//! The sweep over the lines of a tile.

ghost use Rattle.std.specs.Prelude.{◌≡◌, ◌+◌, ◌<◌, ◌≤◌, All, AllPairs, IfOk, OnOk, filter, int_le, length};
ghost use Rattle.geom.specs.Limit.{AreInLimit};
ghost use Rattle.geom.specs.Rounded.{IsEdgeBefore};
ghost use Rattle.hot_region.specs.Rects.{IsIn};
ghost use Rattle.hot_region.specs.Candidates.{chosen, AreOwnedHot};
ghost use Rattle.hot_region.specs.Lines.{HasAllCrossed};
ghost use Rattle.hot_pixel.specs.Pairs.{line_pairs, meeting_pairs};

use crate::lines::lines;
use crate::pixels::{cross_all, ends_in};
use geom::{Edge, NoMemory, Pt, Rect, Seg};
use grid::Count;
use hot_region::ascending;
use std::alloc::Allocator;
use std::sync::ledger::Ledger;

/// Whether a line reaches the column where another one begins, or goes past it.
fn reaches(line: &Edge, next: &Edge) -> bool
    ensures { result ≡ int_le next.now.p.x line.now.q.x }
{
    next.p.x <= line.q.x
}

/// The lines that reach the column where another one begins, or go past it.
fn still_active<A: Allocator>(mut lines: Vec<Edge, A>, next: &Edge) -> Vec<Edge, A>
    ensures { result.items ≡ filter (λ e. int_le next.now.p.x e.q.x) lines.items }
{
    lines.retain(|line| reaches(line, next));
    lines
}

/// Adds the crossings of the lines that lie in the tile. The lines go by in the order of their left ends; each is crossed
/// with those before it that reach its left end.
fn cross_lines<L: Ledger, A: Allocator + Copy>(
    alloc: A,
    tile: &Rect,
    lines: &[Edge],
    found: &mut Vec<Pt, A>,
    count: &mut Count<L>,
) -> Result<(), NoMemory>
    requires ordered { AllPairs IsEdgeBefore lines.now }
    requires limits { All (λ e. AreInLimit e.p e.q) lines.now }
    ensures crossed { OnOk result (HasAllCrossed tile.now lines.now found.old.items found.new.items) }
    ensures onward { count.old ≤ count.new }
    ensures cost { count.new ≤ count.old + line_pairs lines.now }
{
    let mut active = Vec::new(alloc);
    for line in lines {
        active = still_active(active, line);
        cross_all(tile, line, &active, found, count)?;
        active.push(*line)?;
    }
    Ok(())
}

/// The pixels of a tile that are hot for the chosen segments, ascending and each once. It ticks at each ask of `cross`.
pub(crate) fn sweep_tile<L: Ledger, A: Allocator + Copy>(
    alloc: A,
    tile: &Rect,
    segments: &[Seg],
    numbers: &[u32],
    count: &mut Count<L>,
) -> Result<Vec<Pt, A>, NoMemory>
    requires limits { All (λ s. AreInLimit s.a s.b) segments.now }
    requires below { All (λ k. k < length segments.now) numbers.now }
    ensures hot { IfOk result (λ v. AreOwnedHot (IsIn tile.now) (chosen segments.now numbers.now) v.items) }
    ensures onward { count.old ≤ count.new }
    ensures cost { count.new ≤ count.old + meeting_pairs (chosen segments.now numbers.now) }
{
    let list = lines(alloc, segments, numbers)?;
    let mut found = ends_in(alloc, tile, &list)?;
    cross_lines(alloc, tile, &list, &mut found, count)?;
    Ok(ascending(found))
}
