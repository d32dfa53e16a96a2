//! What faces are refused for before anything is made, and what is known where they aren't.
//!
//! 1. All layers together have no more segments than the limit that is given (`few_segments`).
//! 2. The grid over the box of all layers has few tiles (`grid_over_all`).

ghost use Rattle.std.specs.Prelude.{◌≡◌, ◌<◌, ◌≤◌, IfOk, MatchResult, map};
ghost use Rattle.grid.specs.Tiles.{AreBounds, IsSide};
ghost use Rattle.layers.specs.Refusals.{IsPlan, text_limit};
ghost use Rattle.layers.specs.FacesRefusals.{IsFacesRefusedAt};
ghost use Rattle.layers.specs.FeatureLayers.{AreCheckedLayers, AreReadLayers, IsFewTiles, MayRound, TellsManyTiles};

use crate::faces_fault::{FacesFault, FacesPart, FacesRefusal};
use crate::faces_limits::FacesLimits;
use crate::feature_reading::ReadLayers;
use crate::plan::Plan;
use geom::{Fault, Rect};
use grid::Grid;
use std::alloc::Allocator;

/// Layer texts and a plan that are not refused within a limit, with the number of segments of all layers and the grid over them. From here
/// on only memory, the number of ids and the sink may fail.
#[derive(Clone, Copy)]
pub struct CheckedLayers<'a, 'b> {
    pub layers: &'a [&'b [u8]],
    pub plan: Plan,
    pub limits: FacesLimits,
    pub segments: u32,
    pub grid: Grid,
    ghost are_checked: { ∥ AreCheckedLayers limits.segments plan (map (λ t. t.now) layers.now) segments grid ∥₁ },
}

/// Layers and a plan, where nothing is refused, by what was read of the layers.
pub fn check_layers<'a, 'b, A: Allocator>(
    layers: &'a [&'b [u8]],
    plan: Plan,
    limits: FacesLimits,
    read: &ReadLayers<A>,
) -> Result<CheckedLayers<'a, 'b>, FacesFault>
    requires plan { IsPlan plan }
    requires read { AreReadLayers (text_limit limits.segments) (map (λ t. t.now) layers.now) read.now }
    ensures same { IfOk result (λ c. (c.plan ≡ plan) × (c.limits ≡ limits) × (c.layers.now ≡ layers.now)) }
    ensures answer { MatchResult result (λ _. MayRound limits.segments plan (map (λ t. t.now) layers.now)) (λ f. IsFacesRefusedAt limits plan (map (λ t. t.now) layers.now) f.at f.refusal) }
{
    let segments = few_segments(read.segments, limits.segments)?;
    let grid = grid_over_all(read.bounds, plan.side)?;
    Ok(CheckedLayers {
        layers,
        plan,
        limits,
        segments,
        grid,
    })
}

/// How many segments all layers have, where they aren't more than the limit.
pub fn few_segments(all: u64, limit: u32) -> Result<u32, FacesFault>
    ensures { MatchResult result (λ n. (n ≡ all) × (all ≤ limit)) (λ f. (f.at ≡ FacesPart.Run) × (f.refusal ≡ FacesRefusal.Usual (Fault.TooManySegments all)) × (limit < all)) }
{
    match u32::try_from(all) {
        Ok(count) if count <= limit => Ok(count),
        _ => Err(FacesFault::of_run(Fault::TooManySegments(all))),
    }
}

/// The grid over the segments of all layers, which have these bounds.
pub fn grid_over_all(bounds: Option<Rect>, side: u32) -> Result<Grid, FacesFault>
    requires bounds { AreBounds bounds }
    requires side { IsSide side }
    ensures { MatchResult result (IsFewTiles bounds side) (TellsManyTiles bounds side) }
{
    match Grid::new(bounds, side) {
        Ok(grid) => Ok(grid),
        Err(fault) => Err(FacesFault::of_run(fault)),
    }
}
