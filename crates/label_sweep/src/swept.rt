//! Each edge with the one beside it: what lies on the left of an edge lies on the right of the one beside it, whatever layers the edges
//! have. So what changes across each edge can be followed from edge to edge, with no sweep for it.
//! 1. The vertices in each strip of columns are swept from the edges that cross the column before it (`sweep_beside`). Of the edges that begin at a vertex,
//!    the first has the lowest edge above the vertex beside it, and each further one the one before (`turn: list_beside`).
//! 2. The strips' lists stand behind one another.

ghost use Rattle.std.specs.Prelude.{IfOk};
ghost use Rattle.geom.specs.Rounded.{edges_of};
ghost use Rattle.points_law.specs.Law.{AreLayers};
ghost use Rattle.label_sweep.specs.Column.{IsStrip};
ghost use Rattle.label_sweep.specs.Swept.{AreSwept, AreSweptBetween};

use crate::pass::sweep_beside;
use crate::second_ends::vertices_in;
use crate::strips::strips_of;
use geom::{Counted, Edge, NoMemory};
use hands::{Part, joined, map_parts};
use std::alloc::Allocator;
use std::thread::Threads;

/// An edge, and the one on whose right lies what is on its left: the one before it round their common first end, or the lowest edge
/// above its first end. Without one, nothing lies above.
#[derive(Clone, Copy, Debug)]
pub struct SweptEdge {
    pub edge: Edge,
    pub beside: Option<Edge>,
}

/// All edges by their first ends, each with the one beside it, and behind it: that begins at an earlier vertex, or is the one before it in
/// the list. In n log n steps. The counts of the edges tell nothing here, so they may all be 0.
pub fn swept_edges<A: Allocator + Copy>(
    alloc: A,
    counted: &[Counted],
) -> Result<Vec<SweptEdge, A>, NoMemory>
    requires { AreLayers counted.now }
    ensures { IfOk result (λ swept. AreSwept (edges_of counted.now) swept.items) }
{
    let all = Part {
        from: 0,
        past: counted.len(),
    };
    strip_beside(alloc, counted, all)
}

/// The same, in at most so many strips at once: 0 is one.
pub fn swept_edges_in_parts<R: Threads + Sync, A: Allocator + Copy + Send + Sync>(
    rt: &R,
    alloc: A,
    parts: usize,
    counted: &[Counted],
) -> Result<Vec<SweptEdge, A>, NoMemory>
    requires { AreLayers counted.now }
    ensures { IfOk result (λ swept. AreSwept (edges_of counted.now) swept.items) }
{
    let strips = strips_of(alloc, counted, parts)?;
    let lists = map_parts(
        rt,
        alloc,
        &strips,
        |strip: Part| -> Result<Vec<SweptEdge, A>, NoMemory>
            requires { AreLayers counted.now × IsStrip counted.now strip }
            ensures { IfOk result (λ swept. AreSweptBetween counted.entry.now strip.from strip.past swept.items) }
        { strip_beside(alloc, counted, strip) },
    )?;
    Ok(joined(alloc, lists)?)
}

/// The edges that begin in a strip, each with the one beside it.
fn strip_beside<A: Allocator + Copy>(
    alloc: A,
    counted: &[Counted],
    strip: Part,
) -> Result<Vec<SweptEdge, A>, NoMemory>
    requires layers { AreLayers counted.now }
    requires strip { IsStrip counted.now strip }
    ensures { IfOk result (λ swept. AreSweptBetween counted.now strip.from strip.past swept.items) }
{
    if strip.from == counted.len() {
        return Ok(Vec::new(alloc));
    }
    let vertices = vertices_in(alloc, counted, strip)?;
    sweep_beside(
        alloc,
        &counted[..strip.from],
        &counted[strip.from..strip.past],
        &vertices.points,
    )
}
