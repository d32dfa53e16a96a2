//! What is refused, and what is known where nothing is.
//!
//! 1. The plan is in its limits (`check_plan`).
//! 2. Either text was read as a layer, of which the segments are counted and boxed (`outline_of`).
//! 3. Both layers together have no more segments than the limit that is given (`check_total`).
//! 4. The grid over both boxes has few tiles (`grid_over`).

ghost use Rattle.std.specs.Prelude.{◌≡◌, ◌+◌, ◌<◌, ◌≤◌, ◌++◌, ℕ, IfErr, IfOk, IsTrue, List, MatchOption, MatchResult, nat_lt};
ghost use Rattle.geom.specs.declared.segment.Seg.{Seg};
ghost use Rattle.grid.specs.Tiles.{AreBounds, BoundsHold, IsSide};
ghost use Rattle.layers.specs.Grids.{AreJointBounds, IsTooFine, IsUsableGrid};
ghost use Rattle.geom.specs.Fault.{number_of};
ghost use Rattle.wkt.specs.Refusals.{IsRefusedWithin};
ghost use Rattle.layers.specs.Refusals.{HasOutlineWithin, IsCheckedWithin, IsPlan, IsPlanFault, IsReading, IsRefusedAtWithin, IsRefusedPlan, MayRunWithin, part_of, text_limit};

use crate::plan::{Limits, Plan};
use geom::{Fault, Part, Rect, RunFault, Source};
use grid::{GREATEST_SIDE, Grid, LEAST_SIDE};
use std::alloc::Allocator;
use tile_book::MOST_HANDS;
use wkt::{Outline, OutlinedLayer};

/// What was read of a layer text: its outline, with its rings where there was room for them, or why it is refused.
pub type Reading<A> = Result<OutlinedLayer<A>, Fault>;

/// Two layer texts and a plan that are not refused within a limit, with the layers' numbers of segments and the grid over them.
/// From here on only memory and the sink may fail.
#[derive(Clone, Copy)]
pub struct CheckedInput<'a, 'b> {
    pub a: &'a [u8],
    pub b: &'b [u8],
    pub plan: Plan,
    pub limits: Limits,
    pub segments_a: u32,
    pub segments_b: u32,
    pub grid: Grid,
    ghost are_checked: { ∥ IsCheckedWithin limits.segments plan a.now b.now segments_a segments_b grid ∥₁ },
}

/// Two layers and a plan, where nothing is refused, by what was read of the layers.
pub fn check<'a, 'b, A: Allocator>(
    a: &'a [u8],
    b: &'b [u8],
    plan: Plan,
    limits: Limits,
    read_a: &Reading<A>,
    read_b: &Reading<A>,
) -> Result<CheckedInput<'a, 'b>, RunFault>
    requires read_a { IsReading (text_limit limits.segments) a.now read_a.now }
    requires read_b { IsReading (text_limit limits.segments) b.now read_b.now }
    ensures same { IfOk result (λ c. (c.plan ≡ plan) × (c.limits ≡ limits) × (c.a.now ≡ a.now) × (c.b.now ≡ b.now)) }
    ensures answer { MatchResult result (λ _. MayRunWithin limits.segments plan a.now b.now) (λ f. IsRefusedAtWithin limits.segments plan a.now b.now f.at f.fault) }
{
    check_plan(plan)?;
    let outline_a = outline_of(a, read_a, Source::A)?;
    let outline_b = outline_of(b, read_b, Source::B)?;
    check_total(outline_a.segments, outline_b.segments, limits.segments)?;
    let grid = grid_over(outline_a.bounds, outline_b.bounds, plan.side)?;
    Ok(CheckedInput {
        a,
        b,
        plan,
        limits,
        segments_a: outline_a.segments,
        segments_b: outline_b.segments,
        grid,
    })
}

/// Whether a plan is within its limits; the side of a tile is refused before the number of workers.
pub fn check_plan(plan: Plan) -> Result<(), RunFault>
    ensures { MatchResult result (λ _. IsPlan plan) (λ f. IsRefusedPlan plan f.at f.fault) }
{
    match plan_fault(plan) {
        None => Ok(()),
        Some(fault) => Err(RunFault {
            at: Part::Run,
            fault,
        }),
    }
}

/// What is wrong with a plan, if something is.
pub fn plan_fault(plan: Plan) -> Option<Fault>
    ensures { MatchOption result (IsPlan plan) (IsPlanFault plan) }
{
    if plan.side < LEAST_SIDE || plan.side > GREATEST_SIDE {
        return Some(Fault::BadTile);
    }
    if plan.workers == 0 || plan.workers > MOST_HANDS {
        return Some(Fault::BadWorkers);
    }
    None
}

/// The outline of a layer text, by what was read of it.
fn outline_of<A: Allocator>(
    text: &[u8],
    reading: &Reading<A>,
    layer: Source,
) -> Result<Outline, RunFault>
    requires { IfErr reading.now (λ fault. IsTrue (nat_lt (number_of fault) 5)) }
    ensures answer { (limit : ℕ) → IsReading limit text.now reading.now → MatchResult result (λ o. HasOutlineWithin limit text.now o × AreBounds o.bounds) (λ f. (f.at ≡ part_of layer) × IsRefusedWithin limit text.now f.fault) }
{
    match reading {
        Ok(read) => Ok(read.outline),
        Err(fault) => Err(layer_fault(layer, *fault)),
    }
}

/// What is wrong with a layer, and with which.
fn layer_fault(layer: Source, fault: Fault) -> RunFault
    requires { IsTrue (nat_lt (number_of fault) 5) }
    ensures at { result.at ≡ part_of layer }
    ensures fault { result.fault ≡ fault }
{
    match layer {
        Source::A => RunFault { at: Part::A, fault },
        Source::B => RunFault { at: Part::B, fault },
    }
}

/// Whether two layers with so many segments have together no more than a limit.
pub fn check_total(a: u32, b: u32, limit: u32) -> Result<(), RunFault>
    ensures { MatchResult result (λ _. a + b ≤ limit) (λ f. (f.at ≡ Part.Run) × (f.fault ≡ Fault.TooManySegments (a + b)) × (limit < a + b)) }
{
    let both = u64::from(a) + u64::from(b);
    if both > u64::from(limit) {
        return Err(RunFault {
            at: Part::Run,
            fault: Fault::TooManySegments(both),
        });
    }
    Ok(())
}

/// The grid over the segments of two layers with these bounds.
pub fn grid_over(a: Option<Rect>, b: Option<Rect>, side: u32) -> Result<Grid, RunFault>
    requires a_in { AreBounds a }
    requires b_in { AreBounds b }
    requires side { IsSide side }
    ensures { MatchResult result (λ g. IsUsableGrid a b side g) (λ f. IsTooFine a b side f.at f.fault) }
{
    match Grid::new(joint_bounds(a, b), side) {
        Ok(grid) => Ok(grid),
        Err(fault) => Err(RunFault {
            at: Part::Run,
            fault,
        }),
    }
}

/// The least box that has both.
pub fn joint_bounds(a: Option<Rect>, b: Option<Rect>) -> Option<Rect>
    ensures joint { AreJointBounds a b result }
    ensures in_limit { AreBounds a → AreBounds b → AreBounds result }
    ensures holds { (front back : List Seg) → BoundsHold a front → BoundsHold b back → BoundsHold result (front ++ back) }
{
    match (a, b) {
        (Some(r), Some(s)) => Some(r.with(s.lo).with(s.hi)),
        (Some(r), None) => Some(r),
        (None, other) => other,
    }
}
