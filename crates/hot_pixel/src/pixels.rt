//! The ends and the crossings of lines that lie in a tile.

ghost use Rattle.std.specs.Prelude.{◌+◌, ◌≤◌, All, IfOk, OnOk, count_by};
ghost use Rattle.geom.specs.Limit.{AreInLimit};
ghost use Rattle.hot_region.specs.Lines.{HasCrossed};
ghost use Rattle.hot_pixel.specs.Pairs.{lines_meet};
ghost use Rattle.hot_pixel.specs.SegmentLines.{HasEnds};

use crossing::{cross, may_meet};
use geom::{Edge, NoMemory, Pt, Rect};
use grid::Count;
use hot_region::{on_line, push_in};
use std::alloc::Allocator;
use std::sync::ledger::Ledger;

/// The ends of the lines that lie in the tile.
pub(crate) fn ends_in<A: Allocator>(
    alloc: A,
    tile: &Rect,
    lines: &[Edge],
) -> Result<Vec<Pt, A>, NoMemory>
    ensures { IfOk result (λ v. HasEnds tile.now lines.now v.items) }
{
    let mut found = Vec::new(alloc);
    for line in lines {
        push_in(&mut found, tile, line.p)?;
        push_in(&mut found, tile, line.q)?;
    }
    Ok(found)
}

/// Adds the crossings of a line with other lines that lie in the tile. It ticks at each ask of `cross`.
pub(crate) fn cross_all<L: Ledger, A: Allocator>(
    tile: &Rect,
    line: &Edge,
    others: &[Edge],
    found: &mut Vec<Pt, A>,
    count: &mut Count<L>,
) -> Result<(), NoMemory>
    requires line_in { AreInLimit line.now.p line.now.q }
    requires others_in { All (λ e. AreInLimit e.p e.q) others.now }
    ensures crossed { OnOk result (HasCrossed tile.now line.now others.now found.old.items found.new.items) }
    ensures onward { count.old ≤ count.new }
    ensures cost { count.new ≤ count.old + count_by (lines_meet line.now) others.now }
{
    let s = on_line(line);
    for other in others {
        let t = on_line(other);
        if may_meet(&s, &t) {
            count.tick();
            if let Some(pixel) = cross(&s, &t) {
                push_in(found, tile, pixel)?;
            }
        }
    }
    Ok(())
}
