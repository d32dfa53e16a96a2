//! The segments of columns that are accepted.

ghost use Rattle.std.specs.Prelude.{◌≡◌, ◌≤◌, ◌<◌, ◌+◌, ◌∷◌, [], List, OnOk, Some, length, slice_get, slice_range};
ghost use Rattle.std.specs.List.{flat_map};
ghost use Rattle.geom.specs.Limit.{InLimit};
ghost use Rattle.geom.specs.Segments.{neighbours, ring_steps};
ghost use Rattle.geom.specs.declared.point.Pt.{Pt as PtOf};
ghost use Rattle.columns.specs.Layout.{feature_rings_in, plain, points_of, rings_in};
ghost use Rattle.columns.specs.Reach.{AreCutWell, AreSoundRings, IsSoundRing, rings_between};
ghost use Rattle.columns.specs.Refusals.{AreAccepted};
ghost use Rattle.columns.specs.Segments.{AllInLimit, HasSteps};

use crate::layout::{Columns, Points};
use crate::offsets::{list_count, offset_at};
use crate::reach::{RingRange, feature_rings, reached_rings};
use geom::{NoMemory, Pt, Seg, Source};
use std::alloc::Allocator;

/// Adds the segments of a layer's columns, which `survey` accepts, ring by ring.
pub fn push_segments<A: Allocator>(
    segments: &mut Vec<Seg, A>,
    columns: &Columns<'_>,
    layer: Source,
) -> Result<(), NoMemory>
    requires accepted { AreAccepted columns.now }
    requires in_limit { AllInLimit segments.old.items }
    ensures added { OnOk result (HasSteps layer (flat_map ring_steps (plain (rings_in columns.now))) segments.old.items segments.new.items) }
    ensures in_limit { OnOk result (AllInLimit segments.new.items) }
{
    push_rings(segments, columns, reached_rings(columns), layer)
}

/// How many features columns have.
pub fn feature_count(columns: &Columns<'_>) -> usize
    ensures { result ≡ length (feature_rings_in columns.now) }
{
    list_count(columns.features)
}

/// Adds the segments of the feature with this number, counted from 0, of columns that `survey` accepts.
pub fn push_feature<A: Allocator>(
    segments: &mut Vec<Seg, A>,
    columns: &Columns<'_>,
    feature: usize,
    layer: Source,
) -> Result<(), NoMemory>
    requires accepted { AreAccepted columns.now }
    requires feature { feature < length (feature_rings_in columns.now) }
    requires in_limit { AllInLimit segments.old.items }
    ensures added { (rings : List (List PtOf)) → slice_get (feature_rings_in columns.now) feature ≡ Some rings → OnOk result (HasSteps layer (flat_map ring_steps (plain rings)) segments.old.items segments.new.items) }
    ensures in_limit { OnOk result (AllInLimit segments.new.items) }
{
    push_rings(segments, columns, feature_rings(columns, feature), layer)
}

/// Adds the segments of rings next to one another.
fn push_rings<A: Allocator>(
    segments: &mut Vec<Seg, A>,
    columns: &Columns<'_>,
    rings: RingRange,
    layer: Source,
) -> Result<(), NoMemory>
    requires well { AreCutWell columns.now }
    requires order { rings.first ≤ rings.past }
    requires sound { AreSoundRings columns.now rings.first rings.past }
    requires in_limit { AllInLimit segments.old.items }
    ensures added { OnOk result (HasSteps layer (flat_map ring_steps (plain (rings_between columns.now rings.first rings.past))) segments.old.items segments.new.items) }
    ensures in_limit { OnOk result (AllInLimit segments.new.items) }
{
    for ring in rings.first..rings.past {
        let from = offset_at(columns.rings, ring);
        let past = offset_at(columns.rings, ring + 1);
        push_ring(segments, &columns.points, from, past, layer)?;
    }
    Ok(())
}

/// Adds the segments of the ring that is written by the points from one to another.
fn push_ring<A: Allocator>(
    segments: &mut Vec<Seg, A>,
    points: &Points<'_>,
    from: usize,
    past: usize,
    layer: Source,
) -> Result<(), NoMemory>
    requires inside { past ≤ length (points_of points.now) }
    requires sound { IsSoundRing (slice_range (points_of points.now) from past) }
    requires in_limit { AllInLimit segments.old.items }
    ensures added { OnOk result (HasSteps layer (neighbours (slice_range (points_of points.now) from past)) segments.old.items segments.new.items) }
    ensures in_limit { OnOk result (AllInLimit segments.new.items) }
{
    for end in from + 1..past {
        push_step(segments, points.at(end - 1), points.at(end), layer)?;
    }
    Ok(())
}

/// Adds the segment between two neighbours of a ring, where they differ.
fn push_step<A: Allocator>(
    segments: &mut Vec<Seg, A>,
    from: Pt,
    to: Pt,
    layer: Source,
) -> Result<(), NoMemory>
    requires from_in { InLimit from }
    requires to_in { InLimit to }
    requires in_limit { AllInLimit segments.old.items }
    ensures added { OnOk result (HasSteps layer ((from, to) ∷ []) segments.old.items segments.new.items) }
    ensures in_limit { OnOk result (AllInLimit segments.new.items) }
{
    if let Some(segment) = Seg::new(from, to, layer) {
        segments.push(segment)?;
    }
    Ok(())
}
