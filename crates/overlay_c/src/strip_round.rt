//! A strip rounded by its lines, for C.

ghost use Rattle.std.specs.Prelude.{IfOk, MatchResult};
ghost use Rattle.overlay_c.specs.Strips.{AreRoundedLists, AreStripLines, FailsRound, Fills, three_lists};

use crate::strip_answer::{
    CUTS, OverlayStripAnswer, bad_item, no_strip, no_strip_memory, put_three_lists,
};
use crate::strip_checks::{bad_cut, bad_line};
use crate::strip_items::{OverlayCounted, OverlayLine, OverlayOpen};
use crate::strip_telling::{lines_of, told_edges, told_opens};
use geom::NoMemory;
use phases::{RoundedStrip, round};
use std::alloc::Global;

/// The lists of a rounded strip.
#[derive(Drop)]
struct RoundedLists {
    inner: Vec<OverlayCounted>,
    left: Vec<OverlayOpen>,
    right: Vec<OverlayOpen>,
}

/// A strip, rounded by its lines.
fn rounded(
    alloc: Global,
    cuts: &[i32],
    strip: usize,
    lines: &[OverlayLine],
) -> Result<RoundedLists, NoMemory>
    requires { AreStripLines cuts.now strip lines.now }
    ensures { IfOk result (λ made. AreRoundedLists cuts.now strip lines.now (three_lists made.inner.items made.left.items made.right.items)) }
{
    let lines = lines_of(alloc, lines)?;
    let RoundedStrip { inner, left, right } = round(alloc, cuts, strip, &lines)?;
    Ok(RoundedLists {
        inner: told_edges(alloc, &inner)?,
        left: told_opens(alloc, &left)?,
        right: told_opens(alloc, &right)?,
    })
}

/// The same, or the answer where there are no such lists.
fn rounded_or_told(
    alloc: Global,
    cuts: &[i32],
    strip: usize,
    lines: &[OverlayLine],
) -> Result<RoundedLists, OverlayStripAnswer>
    ensures { MatchResult result (λ made. AreRoundedLists cuts.now strip lines.now (three_lists made.inner.items made.left.items made.right.items)) (FailsRound cuts.now strip lines.now) }
{
    if strip > cuts.len() {
        return Err(no_strip());
    }
    if let Some(place) = bad_cut(cuts) {
        return Err(bad_item(CUTS, place));
    }
    if let Some(place) = bad_line(cuts, strip, lines) {
        return Err(bad_item(0, place));
    }
    match rounded(alloc, cuts, strip, lines) {
        Ok(made) => Ok(made),
        Err(_) => Err(no_strip_memory()),
    }
}

/// Puts the rounded edges with both ends in a strip, the lines that cross its left border and those that cross its right border at the beginning
/// of three rooms, where all of them fit. Nothing else in the rooms changes.
#[unsafe(no_mangle)]
pub extern "C" fn overlay_strip_round(
    alloc: Global,
    cuts: &[i32],
    strip: usize,
    lines: &[OverlayLine],
    inner: &mut [OverlayCounted],
    left: &mut [OverlayOpen],
    right: &mut [OverlayOpen],
    answer: &mut OverlayStripAnswer,
)
    ensures { Fills (AreRoundedLists cuts.now strip lines.now) (FailsRound cuts.now strip lines.now) (three_lists inner.old left.old right.old) (three_lists inner.new left.new right.new) answer.new }
{
    match rounded_or_told(alloc, cuts, strip, lines) {
        Ok(made) => {
            *answer = put_three_lists(&made.inner, &made.left, &made.right, inner, left, right);
        }
        Err(told) => *answer = told,
    }
}
