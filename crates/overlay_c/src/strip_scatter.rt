//! The lines of a part of a layer, strip by strip, for C.

ghost use Rattle.std.specs.Prelude.{◌≡◌, ◌<◌, ◌++◌, ◌∷◌, [], IfOk, MatchResult, OnOk, length, map};
ghost use Rattle.columns.specs.Answers.{offsets_from};
ghost use Rattle.columns.specs.Faults.{number_of};
ghost use Rattle.columns.specs.Layout.{joined};
ghost use Rattle.columns.specs.Refusals.{AreAccepted};
ghost use Rattle.phases.specs.Scattered.{lists_of};
ghost use Rattle.overlay_c.specs.Columns.{columns_detail, columns_in};
ghost use Rattle.overlay_c.specs.Strips.{AreScattered, AreInPlace, FailsScatter, Fills, IsCut, IsCutBefore, told_line, told_of_strip, two_lists};

use crate::columns_answer::place_of;
use crate::columns_layer::{OverlayColumns, columns_from};
use crate::strip_answer::{
    CUTS, OverlayStripAnswer, bad_item, no_strip, no_strip_memory, put_two_lists, told_of_strip,
};
use crate::strip_checks::bad_cut;
use crate::strip_items::OverlayLine;
use crate::strip_telling::{source_of, told_line};
use columns::{Columns, ColumnsFault, push_segments, survey};
use geom::NoMemory;
use phases::scatter;
use std::alloc::Global;
use strips_law::Line;

/// The lines of one strip behind those of another, and where those of each strip begin.
#[derive(Drop)]
struct ScatteredLists {
    lines: Vec<OverlayLine>,
    strips: Vec<u32>,
}

/// Adds the lines of a strip.
fn push_strip(all: &mut ScatteredLists, lines: &[Line]) -> Result<(), NoMemory>
    ensures lines { OnOk result (all.new.lines.items ≡ all.old.lines.items ++ map told_line lines.now) }
    ensures strips { OnOk result (all.new.strips.items ≡ all.old.strips.items ++ length all.new.lines.items ∷ []) }
{
    for line in lines {
        all.lines.push(told_line(*line))?;
    }
    let past = all.lines.len();
    all.strips.push(u32::try_from(past).map_err(|_| NoMemory)?)?;
    Ok(())
}

/// The lines of all strips. More of them than offsets can tell are want of memory.
fn joined(alloc: Global, lists: &[Vec<Line>]) -> Result<ScatteredLists, NoMemory>
    ensures lines { IfOk result (λ all. all.lines.items ≡ map told_line (joined (lists_of lists.now))) }
    ensures strips { IfOk result (λ all. all.strips.items ≡ offsets_from 0 (lists_of lists.now)) }
{
    let mut strips = Vec::new(alloc);
    strips.push(0)?;
    let mut all = ScatteredLists {
        lines: Vec::new(alloc),
        strips,
    };
    for lines in lists {
        push_strip(&mut all, lines)?;
    }
    Ok(all)
}

/// The lines of a part of a layer that reach each strip.
fn scattered(
    alloc: Global,
    cuts: &[i32],
    layer: u32,
    first: u32,
    part: &Columns<'_>,
) -> Result<ScatteredLists, NoMemory>
    requires layer { layer < 2 }
    requires ascending { AreInPlace IsCut IsCutBefore cuts.now }
    requires accepted { AreAccepted part.now }
    ensures { IfOk result (λ all. AreScattered cuts.now layer first part.now (two_lists all.lines.items all.strips.items)) }
{
    let mut segments = Vec::new(alloc);
    push_segments(&mut segments, part, source_of(layer))?;
    joined(alloc, &scatter(alloc, cuts, first, &segments)?)
}

/// The answer where a part is refused.
fn refused_part(fault: ColumnsFault) -> OverlayStripAnswer
    ensures { result ≡ told_of_strip 3 (number_of fault) 0 (columns_detail fault) }
{
    told_of_strip(3, u32::from(fault.number()), 0, place_of(fault))
}

/// The same, or the answer where the part is refused or memory runs out.
fn scattered_or_refused(
    alloc: Global,
    cuts: &[i32],
    layer: u32,
    first: u32,
    part: &Columns<'_>,
) -> Result<ScatteredLists, OverlayStripAnswer>
    requires layer { layer < 2 }
    requires ascending { AreInPlace IsCut IsCutBefore cuts.now }
    ensures { MatchResult result (λ all. AreScattered cuts.now layer first part.now (two_lists all.lines.items all.strips.items)) (FailsScatter cuts.now layer part.now) }
{
    match survey(part) {
        Ok(_) => match scattered(alloc, cuts, layer, first, part) {
            Ok(all) => Ok(all),
            Err(_) => Err(no_strip_memory()),
        },
        Err(fault) => Err(refused_part(fault)),
    }
}

/// The same, or the answer where there are none.
fn scattered_or_told(
    alloc: Global,
    cuts: &[i32],
    layer: u32,
    first: u32,
    part: &Columns<'_>,
) -> Result<ScatteredLists, OverlayStripAnswer>
    ensures { MatchResult result (λ all. AreScattered cuts.now layer first part.now (two_lists all.lines.items all.strips.items)) (FailsScatter cuts.now layer part.now) }
{
    if layer > 1 {
        return Err(no_strip());
    }
    if let Some(place) = bad_cut(cuts) {
        return Err(bad_item(CUTS, place));
    }
    scattered_or_refused(alloc, cuts, layer, first, part)
}

/// Puts the lines of a part of a layer (0 the first, 1 the second) that reach each strip, one strip behind another, at the beginning of a room,
/// and where those of each strip begin at that of another one, where both fit. The part's segments are numbered from `first` on. Nothing else
/// in the rooms changes.
#[unsafe(no_mangle)]
pub extern "C" fn overlay_strip_scatter(
    alloc: Global,
    cuts: &[i32],
    layer: u32,
    first: u32,
    part: &OverlayColumns,
    lines: &mut [OverlayLine],
    strips: &mut [u32],
    answer: &mut OverlayStripAnswer,
)
    ensures { Fills (AreScattered cuts.now layer first (columns_in part.now)) (FailsScatter cuts.now layer (columns_in part.now)) (two_lists lines.old strips.old) (two_lists lines.new strips.new) answer.new }
{
    match scattered_or_told(alloc, cuts, layer, first, &columns_from(part)) {
        Ok(all) => *answer = put_two_lists(&all.lines, &all.strips, lines, strips),
        Err(told) => *answer = told,
    }
}
