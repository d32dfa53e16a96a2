//! The rounded edges whose lesser end lies in a strip, for C.

ghost use Rattle.std.specs.Prelude.{IfOk, MatchOption, MatchResult};
ghost use Rattle.overlay_c.specs.Strips.{AreApart, AreEdgesMerged, FailsEdges, Fills, one_list};

use crate::strip_answer::{OverlayStripAnswer, bad_item, contradiction, no_strip_memory, put_list};
use crate::strip_checks::bad_counted;
use crate::strip_contradictions::common;
use crate::strip_items::OverlayCounted;
use crate::strip_telling::{edges_of, told_edges};
use geom::NoMemory;
use phases::edges;
use std::alloc::Global;

/// Both lists as one.
fn merged(
    alloc: Global,
    inner: &[OverlayCounted],
    across: &[OverlayCounted],
) -> Result<Vec<OverlayCounted>, NoMemory>
    requires { AreApart inner.now across.now }
    ensures { IfOk result (λ list. AreEdgesMerged inner.now across.now (one_list list.items)) }
{
    let inner = edges_of(alloc, inner)?;
    let across = edges_of(alloc, across)?;
    told_edges(alloc, &edges(alloc, &inner, &across)?)
}

/// The answer where the lists are refused.
fn refused_edges(inner: &[OverlayCounted], across: &[OverlayCounted]) -> Option<OverlayStripAnswer>
    ensures { MatchOption result (AreApart inner.now across.now) (FailsEdges inner.now across.now) }
{
    if let Some(place) = bad_counted(inner) {
        return Some(bad_item(0, place));
    }
    if let Some(place) = bad_counted(across) {
        return Some(bad_item(1, place));
    }
    let place = common(inner, across)?;
    Some(contradiction(1, place))
}

/// The list, or the answer where there is none.
fn merged_or_told(
    alloc: Global,
    inner: &[OverlayCounted],
    across: &[OverlayCounted],
) -> Result<Vec<OverlayCounted>, OverlayStripAnswer>
    ensures { MatchResult result (λ list. AreEdgesMerged inner.now across.now (one_list list.items)) (FailsEdges inner.now across.now) }
{
    if let Some(told) = refused_edges(inner, across) {
        return Err(told);
    }
    match merged(alloc, inner, across) {
        Ok(list) => Ok(list),
        Err(_) => Err(no_strip_memory()),
    }
}

/// Puts the rounded edges whose lesser end lies in a strip at the beginning of a room, where they fit: those with both ends in it and those
/// across its right border. Nothing else in the room changes.
#[unsafe(no_mangle)]
pub extern "C" fn overlay_strip_edges(
    alloc: Global,
    inner: &[OverlayCounted],
    across: &[OverlayCounted],
    room: &mut [OverlayCounted],
    answer: &mut OverlayStripAnswer,
)
    ensures { Fills (AreEdgesMerged inner.now across.now) (FailsEdges inner.now across.now) (one_list room.old) (one_list room.new) answer.new }
{
    match merged_or_told(alloc, inner, across) {
        Ok(list) => *answer = put_list(&list, room),
        Err(told) => *answer = told,
    }
}
