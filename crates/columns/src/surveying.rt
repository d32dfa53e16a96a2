//! Columns, checked without memory.
//!
//! 1. Points and offsets (`check_offsets`).
//! 2. The coordinate limit, one pass over the points that the features reach (`first_outside`).
//! 3. Each ring, and the outline (`rings_outline`).

ghost use Rattle.std.specs.Prelude.{◌≡◌, ◌≤◌, IfOk, IfSome, MatchResult, None, Some, length, slice_range};
ghost use Rattle.geom.specs.Limit.{AreInLimit};
ghost use Rattle.wkt.specs.Outlines.{IsOutline};
ghost use Rattle.columns.specs.Layout.{plain, points_of, rings_in};
ghost use Rattle.columns.specs.Reach.{AreCutWell, AreReached};
ghost use Rattle.columns.specs.Refusals.{AreAccepted, AreRefused, first_outside, first_ring_fault, range_fault, ring_fault};

use crate::fault::ColumnsFault;
use crate::layout::{Columns, Points};
use crate::offsets::{first_wrong, list_count, offset_at};
use crate::outline::with_ring;
use crate::points::are_same;
use crate::reach::{RingRange, reached_rings};
use wkt::Outline;

/// The outline of the layer that columns stand for, or why they are refused, in this order: a coordinate is missing; an offset of
/// features, polygons or rings falls or passes the end; a point is out of range; a ring has too few points or is open. Takes no memory.
pub fn survey(columns: &Columns<'_>) -> Result<Outline, ColumnsFault>
    ensures answer { MatchResult result (λ outline. AreAccepted columns.now × IsOutline (plain (rings_in columns.now)) outline) (λ fault. AreRefused columns.now fault) }
    ensures in_limit { IfOk result (λ outline. IfSome outline.bounds (λ r. AreInLimit r.lo r.hi)) }
{
    check_offsets(columns)?;
    let rings = reached_rings(columns);
    check_range(columns, rings)?;
    rings_outline(columns, rings)
}

/// Whether the points are whole, and the offsets never fall and pass no end.
fn check_offsets(columns: &Columns<'_>) -> Result<(), ColumnsFault>
    ensures { MatchResult result (λ _. AreCutWell columns.now) (λ fault. AreRefused columns.now fault) }
{
    if !columns.points.are_whole() {
        return Err(ColumnsFault::PointsUneven);
    }
    if let Some(at) = first_wrong(columns.features, list_count(columns.polygons)) {
        return Err(ColumnsFault::FeatureOffset(at));
    }
    if let Some(at) = first_wrong(columns.polygons, list_count(columns.rings)) {
        return Err(ColumnsFault::PolygonOffset(at));
    }
    if let Some(at) = first_wrong(columns.rings, columns.points.count()) {
        return Err(ColumnsFault::RingOffset(at));
    }
    Ok(())
}

/// Whether all points of these rings are within the coordinate limit.
fn check_range(columns: &Columns<'_>, rings: RingRange) -> Result<(), ColumnsFault>
    requires well { AreCutWell columns.now }
    requires rings { AreReached columns.now rings }
    ensures { MatchResult result (λ _. range_fault columns.now ≡ None) (λ fault. range_fault columns.now ≡ Some fault) }
{
    let from = offset_at(columns.rings, rings.first);
    let past = offset_at(columns.rings, rings.past);
    match first_outside(&columns.points, from, past) {
        Some(at) => Err(ColumnsFault::PointRange(at)),
        None => Ok(()),
    }
}

/// The first point outside the coordinate limit from one to another.
fn first_outside(points: &Points<'_>, from: usize, past: usize) -> Option<usize>
    requires { past ≤ length (points_of points.now) }
    ensures { result ≡ first_outside from (slice_range (points_of points.now) from past) }
{
    for number in from..past {
        if !points.at(number).is_in_limit() {
            return Some(number);
        }
    }
    None
}

/// What is wrong with the ring of this number, of the points from one to another.
fn ring_fault(points: &Points<'_>, number: usize, from: usize, past: usize) -> Option<ColumnsFault>
    requires order { from ≤ past }
    requires inside { past ≤ length (points_of points.now) }
    ensures { result ≡ ring_fault number (slice_range (points_of points.now) from past) }
{
    if past - from < 4 {
        return Some(ColumnsFault::RingShort(number));
    }
    if !are_same(points.at(from), points.at(past - 1)) {
        return Some(ColumnsFault::RingOpen(number));
    }
    None
}

/// The outline of these rings, or the fault of the first one that has one.
fn rings_outline(columns: &Columns<'_>, rings: RingRange) -> Result<Outline, ColumnsFault>
    requires well { AreCutWell columns.now }
    requires rings { AreReached columns.now rings }
    requires in_range { range_fault columns.now ≡ None }
    ensures answer { MatchResult result (λ outline. (first_ring_fault rings.first (rings_in columns.now) ≡ None) × IsOutline (plain (rings_in columns.now)) outline) (λ fault. first_ring_fault rings.first (rings_in columns.now) ≡ Some fault) }
    ensures in_limit { IfOk result (λ outline. IfSome outline.bounds (λ r. AreInLimit r.lo r.hi)) }
{
    let mut outline = Outline::of_none();
    for ring in rings.first..rings.past {
        let from = offset_at(columns.rings, ring);
        let past = offset_at(columns.rings, ring + 1);
        if let Some(fault) = ring_fault(&columns.points, ring, from, past) {
            return Err(fault);
        }
        outline = with_ring(outline, &columns.points, from, past);
    }
    Ok(outline)
}
