//! The border on the right of a strip bridged, for C.

ghost use Rattle.std.specs.Prelude.{IfOk, MatchOption, MatchResult};
ghost use Rattle.overlay_c.specs.Strips.{AreBridgedLists, DoBordersAgree, FailsBridge, Fills, two_lists};

use crate::strip_answer::{
    OverlayStripAnswer, bad_item, contradiction, no_strip_memory, put_two_lists,
};
use crate::strip_checks::{bad_carried, bad_open};
use crate::strip_contradictions::{differing, lost};
use crate::strip_items::{OverlayCarried, OverlayCounted, OverlayOpen};
use crate::strip_telling::{carried_of_all, opens_of, told_carried_all, told_edges};
use geom::NoMemory;
use phases::bridge;
use std::alloc::Global;

/// The edges over the border on the right of a strip, and what is carried over that on its left.
#[derive(Drop)]
struct BridgedLists {
    across: Vec<OverlayCounted>,
    next: Vec<OverlayCarried>,
}

/// A border, bridged by what is on both sides of it.
fn bridged(
    alloc: Global,
    left: &[OverlayOpen],
    right: &[OverlayOpen],
    carried: &[OverlayCarried],
) -> Result<BridgedLists, NoMemory>
    requires { DoBordersAgree left.now right.now carried.now }
    ensures { IfOk result (λ made. AreBridgedLists left.now right.now carried.now (two_lists made.across.items made.next.items)) }
{
    let left = opens_of(alloc, left)?;
    let right = opens_of(alloc, right)?;
    let there = carried_of_all(alloc, carried)?;
    let made = bridge(alloc, &left, &right, &there)?;
    Ok(BridgedLists {
        across: told_edges(alloc, &made.across)?,
        next: told_carried_all(alloc, &made.carried)?,
    })
}

/// The answer where the lists are refused.
fn refused_border(
    left: &[OverlayOpen],
    right: &[OverlayOpen],
    carried: &[OverlayCarried],
) -> Option<OverlayStripAnswer>
    ensures { MatchOption result (DoBordersAgree left.now right.now carried.now) (FailsBridge left.now right.now carried.now) }
{
    if let Some(place) = bad_open(left) {
        return Some(bad_item(0, place));
    }
    if let Some(place) = bad_open(right) {
        return Some(bad_item(1, place));
    }
    if let Some(place) = bad_carried(carried) {
        return Some(bad_item(2, place));
    }
    if let Some(place) = differing(right, carried) {
        return Some(contradiction(1, place));
    }
    let place = lost(carried, left)?;
    Some(contradiction(0, place))
}

/// The lists, or the answer where there are none.
fn bridged_or_told(
    alloc: Global,
    left: &[OverlayOpen],
    right: &[OverlayOpen],
    carried: &[OverlayCarried],
) -> Result<BridgedLists, OverlayStripAnswer>
    ensures { MatchResult result (λ made. AreBridgedLists left.now right.now carried.now (two_lists made.across.items made.next.items)) (FailsBridge left.now right.now carried.now) }
{
    if let Some(told) = refused_border(left, right, carried) {
        return Err(told);
    }
    match bridged(alloc, left, right, carried) {
        Ok(made) => Ok(made),
        Err(_) => Err(no_strip_memory()),
    }
}

/// Puts the rounded edges from a strip to later ones, and what is carried over the border on its left, at the beginning of two rooms, where both
/// fit; `carried` is what is carried over the border on its right. Nothing else in the rooms changes.
#[unsafe(no_mangle)]
pub extern "C" fn overlay_strip_bridge(
    alloc: Global,
    left: &[OverlayOpen],
    right: &[OverlayOpen],
    carried: &[OverlayCarried],
    across: &mut [OverlayCounted],
    next: &mut [OverlayCarried],
    answer: &mut OverlayStripAnswer,
)
    ensures { Fills (AreBridgedLists left.now right.now carried.now) (FailsBridge left.now right.now carried.now) (two_lists across.old next.old) (two_lists across.new next.new) answer.new }
{
    match bridged_or_told(alloc, left, right, carried) {
        Ok(made) => *answer = put_two_lists(&made.across, &made.next, across, next),
        Err(told) => *answer = told,
    }
}
