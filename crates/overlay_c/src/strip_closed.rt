//! The directed edges that are closed in a range of strips, for C.

ghost use Rattle.std.specs.Prelude.{IfOk, MatchOption, MatchResult};
ghost use Rattle.overlay_c.specs.Strips.{Fills, two_lists};
ghost use Rattle.overlay_c.specs.StripClosed.{AreClosedTold, AreKnownItems, FailsClosed};

use crate::polygons_made::directed_edges;
use crate::strip_answer::{
    CUTS, OverlayStripAnswer, bad_item, no_strip, no_strip_memory, put_two_lists,
};
use crate::strip_checks::bad_cut;
use crate::strip_closed_checks::{are_strips, bad_known};
use crate::strip_items::OverlayDirected;
use crate::strip_labels::told_directed_all;
use geom::NoMemory;
use std::alloc::Global;
use strip_polygons::parted;

/// The edges of a range of strips that are closed there, and those open ones that begin there.
#[derive(Drop)]
struct ClosedLists {
    closed: Vec<OverlayDirected>,
    waiting: Vec<OverlayDirected>,
}

/// The edges that a range of strips knows, parted.
fn closed_lists(
    alloc: Global,
    cuts: &[i32],
    first: usize,
    past: usize,
    known: &[OverlayDirected],
) -> Result<ClosedLists, NoMemory>
    requires { AreKnownItems cuts.now first past known.now }
    ensures { IfOk result (λ made. AreClosedTold cuts.now first past known.now (two_lists made.closed.items made.waiting.items)) }
{
    let edges = directed_edges(alloc, known)?;
    let made = parted(alloc, cuts, first, past, &edges)?;
    Ok(ClosedLists {
        closed: told_directed_all(alloc, &made.closed)?,
        waiting: told_directed_all(alloc, &made.open)?,
    })
}

/// The answer where the strips, the cuts or the list are refused.
fn refused_range(
    cuts: &[i32],
    first: usize,
    past: usize,
    known: &[OverlayDirected],
) -> Option<OverlayStripAnswer>
    ensures { MatchOption result (AreKnownItems cuts.now first past known.now) (FailsClosed cuts.now first past known.now) }
{
    if !are_strips(cuts, first, past) {
        return Some(no_strip());
    }
    if let Some(place) = bad_cut(cuts) {
        return Some(bad_item(CUTS, place));
    }
    let place = bad_known(cuts, first, past, known)?;
    Some(bad_item(0, place))
}

/// The lists, or the answer where there are none.
fn closed_or_told(
    alloc: Global,
    cuts: &[i32],
    first: usize,
    past: usize,
    known: &[OverlayDirected],
) -> Result<ClosedLists, OverlayStripAnswer>
    ensures { MatchResult result (λ made. AreClosedTold cuts.now first past known.now (two_lists made.closed.items made.waiting.items)) (FailsClosed cuts.now first past known.now) }
{
    if let Some(told) = refused_range(cuts, first, past, known) {
        return Err(told);
    }
    match closed_lists(alloc, cuts, first, past, known) {
        Ok(made) => Ok(made),
        Err(_) => Err(no_strip_memory()),
    }
}

/// Puts the directed edges that are closed in the strips from one to before another one, and the open ones that begin there, at the beginning of
/// two rooms, where both fit; `known` are the edges that have a column of these strips. Nothing else in the rooms changes.
#[unsafe(no_mangle)]
pub extern "C" fn overlay_strip_closed(
    alloc: Global,
    cuts: &[i32],
    first: usize,
    past: usize,
    known: &[OverlayDirected],
    closed: &mut [OverlayDirected],
    waiting: &mut [OverlayDirected],
    answer: &mut OverlayStripAnswer,
)
    ensures { Fills (AreClosedTold cuts.now first past known.now) (FailsClosed cuts.now first past known.now) (two_lists closed.old waiting.old) (two_lists closed.new waiting.new) answer.new }
{
    match closed_or_told(alloc, cuts, first, past, known) {
        Ok(made) => *answer = put_two_lists(&made.closed, &made.waiting, closed, waiting),
        Err(told) => *answer = told,
    }
}
