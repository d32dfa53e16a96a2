//! The directed edges of a result along the edges of a strip, for C.

ghost use Rattle.std.specs.Prelude.{◌≡◌, IfOk, MatchOption, MatchResult, map};
ghost use Rattle.overlay_c.specs.Strips.{Fills, one_list};
ghost use Rattle.overlay_c.specs.StripLabels.{AreLabelLists, AreLabelsOf, AreLabelsTold, FailsLabels, FailsLists, told_directed};

use crate::columns_layer::op_of;
use crate::strip_answer::{
    OverlayStripAnswer, bad_item, contradiction, no_strip, no_strip_memory, put_list,
};
use crate::strip_items::{OverlayCounted, OverlayDirected};
use crate::strip_labels_checks::{bad_limited, late};
use crate::strip_telling::edges_of;
use geom::{DirectedEdge, NoMemory, Op};
use phases::labels;
use std::alloc::Global;

/// A directed edge, as C sees it.
fn told_directed(edge: DirectedEdge) -> OverlayDirected
    ensures { result ≡ told_directed edge }
{
    let DirectedEdge { from, to } = edge;
    OverlayDirected {
        ax: from.x,
        ay: from.y,
        bx: to.x,
        by: to.y,
    }
}

/// Directed edges, as C sees them.
pub fn told_directed_all(
    alloc: Global,
    edges: &[DirectedEdge],
) -> Result<Vec<OverlayDirected>, NoMemory>
    ensures { IfOk result (λ v. v.items ≡ map told_directed edges.now) }
{
    let mut items = Vec::with_capacity(alloc, edges.len())?;
    for edge in edges {
        items.push(told_directed(*edge))?;
    }
    Ok(items)
}

/// The directed edges along a strip's own edges.
fn labelled(
    alloc: Global,
    op: Op,
    crossing: &[OverlayCounted],
    own: &[OverlayCounted],
) -> Result<Vec<OverlayDirected>, NoMemory>
    requires { AreLabelLists crossing.now own.now }
    ensures { IfOk result (λ list. AreLabelsOf op crossing.now own.now (one_list list.items)) }
{
    let crossing = edges_of(alloc, crossing)?;
    let own = edges_of(alloc, own)?;
    told_directed_all(alloc, &labels(alloc, &crossing, &own, op)?)
}

/// The answer where the lists are refused.
fn refused_labels(crossing: &[OverlayCounted], own: &[OverlayCounted]) -> Option<OverlayStripAnswer>
    ensures { MatchOption result (AreLabelLists crossing.now own.now) (FailsLists crossing.now own.now) }
{
    if let Some(place) = bad_limited(crossing) {
        return Some(bad_item(0, place));
    }
    if let Some(place) = bad_limited(own) {
        return Some(bad_item(1, place));
    }
    let place = late(own, crossing)?;
    Some(contradiction(0, place))
}

/// The list, or the answer where there is none.
fn labelled_or_told(
    alloc: Global,
    op: Op,
    crossing: &[OverlayCounted],
    own: &[OverlayCounted],
) -> Result<Vec<OverlayDirected>, OverlayStripAnswer>
    ensures { MatchResult result (λ list. AreLabelsOf op crossing.now own.now (one_list list.items)) (FailsLists crossing.now own.now) }
{
    if let Some(told) = refused_labels(crossing, own) {
        return Err(told);
    }
    match labelled(alloc, op, crossing, own) {
        Ok(list) => Ok(list),
        Err(_) => Err(no_strip_memory()),
    }
}

/// The same for the operation with a number, if there is one.
fn labelled_for(
    alloc: Global,
    call: u32,
    crossing: &[OverlayCounted],
    own: &[OverlayCounted],
) -> Result<Vec<OverlayDirected>, OverlayStripAnswer>
    ensures { MatchResult result (λ list. AreLabelsTold call crossing.now own.now (one_list list.items)) (FailsLabels call crossing.now own.now) }
{
    match op_of(call) {
        Some(op) => labelled_or_told(alloc, op, crossing, own),
        None => Err(no_strip()),
    }
}

/// Puts the directed edges of the result of an operation (0 union, 1 intersection, 2 difference, 3 symmetric difference) along a strip's own
/// edges at the beginning of a room, where they fit, ascending by start, then by end; `crossing` are the edges that come into the strip.
/// Nothing else in the room changes.
#[unsafe(no_mangle)]
pub extern "C" fn overlay_strip_labels(
    alloc: Global,
    call: u32,
    crossing: &[OverlayCounted],
    own: &[OverlayCounted],
    room: &mut [OverlayDirected],
    answer: &mut OverlayStripAnswer,
)
    ensures { Fills (AreLabelsTold call crossing.now own.now) (FailsLabels call crossing.now own.now) (one_list room.old) (one_list room.new) answer.new }
{
    match labelled_for(alloc, call, crossing, own) {
        Ok(list) => *answer = put_list(&list, room),
        Err(told) => *answer = told,
    }
}
