//! The edges that come into the next strip, for C.

ghost use Rattle.std.specs.Prelude.{IfOk, MatchResult};
ghost use Rattle.overlay_c.specs.Strips.{Fills, one_list};
ghost use Rattle.overlay_c.specs.StripLabels.{AreGoingLists, AreGoingOn, FailsGoing};

use crate::strip_answer::{
    CUTS, OverlayStripAnswer, bad_item, no_strip, no_strip_memory, put_list,
};
use crate::strip_checks::bad_cut;
use crate::strip_items::OverlayCounted;
use crate::strip_labels_checks::{bad_crossing, bad_own};
use crate::strip_telling::{edges_of, told_edges};
use geom::NoMemory;
use phases::going_on;
use std::alloc::Global;

/// The edges of both lists that come into the next strip.
fn going(
    alloc: Global,
    cuts: &[i32],
    strip: usize,
    crossing: &[OverlayCounted],
    own: &[OverlayCounted],
) -> Result<Vec<OverlayCounted>, NoMemory>
    requires { AreGoingLists cuts.now strip crossing.now own.now }
    ensures { IfOk result (λ list. AreGoingOn cuts.now strip crossing.now own.now (one_list list.items)) }
{
    let crossing = edges_of(alloc, crossing)?;
    let own = edges_of(alloc, own)?;
    told_edges(alloc, &going_on(alloc, cuts, strip, &crossing, &own)?)
}

/// The list, or the answer where there is none.
fn going_or_told(
    alloc: Global,
    cuts: &[i32],
    strip: usize,
    crossing: &[OverlayCounted],
    own: &[OverlayCounted],
) -> Result<Vec<OverlayCounted>, OverlayStripAnswer>
    ensures { MatchResult result (λ list. AreGoingOn cuts.now strip crossing.now own.now (one_list list.items)) (FailsGoing cuts.now strip crossing.now own.now) }
{
    if strip > cuts.len() {
        return Err(no_strip());
    }
    if let Some(place) = bad_cut(cuts) {
        return Err(bad_item(CUTS, place));
    }
    if let Some(place) = bad_crossing(cuts, strip, crossing) {
        return Err(bad_item(0, place));
    }
    if let Some(place) = bad_own(cuts, strip, own) {
        return Err(bad_item(1, place));
    }
    match going(alloc, cuts, strip, crossing, own) {
        Ok(list) => Ok(list),
        Err(_) => Err(no_strip_memory()),
    }
}

/// Puts the edges that come into the next strip at the beginning of a room, where they fit: of those that come into a strip, and of its own,
/// those that end behind it. Nothing else in the room changes.
#[unsafe(no_mangle)]
pub extern "C" fn overlay_strip_going_on(
    alloc: Global,
    cuts: &[i32],
    strip: usize,
    crossing: &[OverlayCounted],
    own: &[OverlayCounted],
    room: &mut [OverlayCounted],
    answer: &mut OverlayStripAnswer,
)
    ensures { Fills (AreGoingOn cuts.now strip crossing.now own.now) (FailsGoing cuts.now strip crossing.now own.now) (one_list room.old) (one_list room.new) answer.new }
{
    match going_or_told(alloc, cuts, strip, crossing, own) {
        Ok(list) => *answer = put_list(&list, room),
        Err(told) => *answer = told,
    }
}
