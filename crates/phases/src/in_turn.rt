//! All strips in turn, in one process.

ghost use Rattle.std.specs.Prelude.{◌≡◌, ◌≤◌, ◌≤ℤ◌, ◌+◌, All, AllPairs, IfOk, List, OnOk, flat_map, length, reverse};
ghost use Rattle.geom.specs.Limit.{AreInLimit};
ghost use Rattle.geom.specs.Rounded.{AreRounded};
ghost use Rattle.strips_law.specs.declared.line.Line.{Line};
ghost use Rattle.strips_law.specs.Strips.{AreOrdered, lines_in};
ghost use Rattle.phases.specs.Merged.{AreFound, lists_of};

use crate::bridging::{Bridged, bridge};
use crate::lines::scatter;
use crate::merging::edges;
use crate::rounding::round;
use geom::{Counted, NoMemory, Seg};
use std::alloc::Allocator;
use strips_law::{Carried, Line};

/// The edges of the strips from the last one on, each strip's in a list of its own, and what is carried over the border of the next one.
#[derive(Drop)]
struct Found<A: Allocator> {
    edges: Vec<Vec<Counted, A>, A>,
    carried: Vec<Carried, A>,
}

/// Adds the edges of a strip to those of the strips behind it.
fn add_strip<A: Allocator + Copy>(
    alloc: A,
    cuts: &[i32],
    strip: usize,
    lines: &[Line],
    found: &mut Found<A>,
) -> Result<(), NoMemory>
    requires ascending { AllPairs (λ c d. c ≤ℤ d) cuts.now }
    requires within { strip ≤ length cuts.now }
    requires ordered { AreOrdered lines.now }
    requires limits { All (λ l. AreInLimit l.segment.a l.segment.b) lines.now }
    ensures { OnOk result ((all : List Line) → AreOrdered all → lines.now ≡ lines_in cuts.now strip all → ∥ AreFound cuts.now all (strip + 1) (lists_of found.old.edges.items) found.old.carried.items ∥₁
        → ∥ AreFound cuts.now all strip (lists_of found.new.edges.items) found.new.carried.items ∥₁) }
{
    let rounded = round(alloc, cuts, strip, lines)?;
    let Bridged { across, carried } = bridge(alloc, &rounded.left, &rounded.right, &found.carried)?;
    let here = edges(alloc, &rounded.inner, &across)?;
    found.edges.push(here)?;
    found.carried = carried;
    Ok(())
}

/// The items of lists, of the last one first.
fn from_last<A: Allocator>(
    alloc: A,
    lists: Vec<Vec<Counted, A>, A>,
) -> Result<Vec<Counted, A>, NoMemory>
    ensures { IfOk result (λ v. v.items ≡ flat_map (λ l. l) (reverse (lists_of lists.items))) }
{
    let mut lists = lists;
    let mut all = Vec::new(alloc);
    while let Some(list) = lists.pop() {
        all.extend_from_slice(&list)?;
    }
    Ok(all)
}

/// The rounded edges of segments, strip by strip, whatever the cuts are, if only they ascend.
pub fn edges_in_strips<A: Allocator + Copy>(
    alloc: A,
    segments: &[Seg],
    cuts: &[i32],
) -> Result<Vec<Counted, A>, NoMemory>
    requires ascending { AllPairs (λ c d. c ≤ℤ d) cuts.now }
    requires limits { All (λ s. AreInLimit s.a s.b) segments.now }
    ensures { IfOk result (λ v. ∥ AreRounded segments.now v.items ∥₁) }
{
    let mut lists = scatter(alloc, cuts, 0, segments)?;
    let mut found = Found {
        edges: Vec::new(alloc),
        carried: Vec::new(alloc),
    };
    while let Some(lines) = lists.pop() {
        add_strip(alloc, cuts, lists.len(), &lines, &mut found)?;
    }
    from_last(alloc, found.edges)
}
