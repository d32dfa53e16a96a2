//! The segments of two layers.

ghost use Rattle.std.specs.Prelude.{◌≡◌, ◌++◌, ◌≤◌, ◌∷◌, [], All, IfOk, OnOk, length};
ghost use Rattle.geom.specs.Limit.{InLimit};
ghost use Rattle.geom.specs.Segments.{AreSegments, ring_steps};
ghost use Rattle.std.specs.List.{flat_map};
ghost use Rattle.layers.specs.Segments.{AllInLimit, AreRingsInLimit, HasSteps};

use geom::{Layer, NoMemory, Pt, Ring, Seg, Source};
use std::alloc::Allocator;

/// The segments of both layers in text order, those of the first layer first. The count is a hint on their number.
pub fn segments_of<A: Allocator>(
    alloc: A,
    a: &Layer<A>,
    b: &Layer<A>,
    count: usize,
) -> Result<Vec<Seg, A>, NoMemory>
    requires a_in { AreRingsInLimit a.now }
    requires b_in { AreRingsInLimit b.now }
    ensures segments { IfOk result (λ v. AreSegments a.now b.now v.items) }
    ensures in_limit { IfOk result (λ v. AllInLimit v.items) }
{
    let mut segments = Vec::with_capacity(alloc, count)?;
    push_rings(&mut segments, a.rings(), Source::A)?;
    push_rings(&mut segments, b.rings(), Source::B)?;
    Ok(segments)
}

/// The segments of one layer in text order, with room for so many.
pub fn layer_segments<A: Allocator>(
    alloc: A,
    rings: &Layer<A>,
    layer: Source,
    room: usize,
) -> Result<Vec<Seg, A>, NoMemory>
    requires { AreRingsInLimit rings.now }
    ensures segments { IfOk result (λ v. HasSteps layer (flat_map ring_steps rings.now) [] v.items) }
    ensures in_limit { IfOk result (λ v. AllInLimit v.items) }
{
    let mut segments = Vec::with_capacity(alloc, room)?;
    push_rings(&mut segments, rings.rings(), layer)?;
    Ok(segments)
}

/// Adds the segments of a layer's rings.
pub fn push_rings<A: Allocator>(
    segments: &mut Vec<Seg, A>,
    rings: &[Ring<A>],
    layer: Source,
) -> Result<(), NoMemory>
    requires rings_in { AreRingsInLimit rings.now }
    requires in_limit { AllInLimit segments.old.items }
    ensures added { OnOk result (HasSteps layer (flat_map ring_steps rings.now) segments.old.items segments.new.items) }
    ensures in_limit { OnOk result (AllInLimit segments.new.items) }
{
    for ring in rings {
        push_ring(segments, ring.points(), layer)?;
    }
    Ok(())
}

/// Adds the segments of a ring.
fn push_ring<A: Allocator>(
    segments: &mut Vec<Seg, A>,
    points: &[Pt],
    layer: Source,
) -> Result<(), NoMemory>
    requires some { 1 ≤ length points.now }
    requires points_in { All InLimit points.now }
    requires in_limit { AllInLimit segments.old.items }
    ensures added { OnOk result (HasSteps layer (ring_steps points.now) segments.old.items segments.new.items) }
    ensures in_limit { OnOk result (AllInLimit segments.new.items) }
{
    for end in 1..points.len() {
        push_step(segments, points[end - 1], points[end], layer)?;
    }
    push_step(segments, points[points.len() - 1], points[0], layer)
}

/// Adds the segment between two neighbours of a ring, where they differ.
fn push_step<A: Allocator>(
    segments: &mut Vec<Seg, A>,
    from: Pt,
    to: Pt,
    layer: Source,
) -> Result<(), NoMemory>
    requires from_in { InLimit from }
    requires to_in { InLimit to }
    requires in_limit { AllInLimit segments.old.items }
    ensures added { OnOk result (HasSteps layer ((from, to) ∷ []) segments.old.items segments.new.items) }
    ensures in_limit { OnOk result (AllInLimit segments.new.items) }
{
    if let Some(segment) = Seg::new(from, to, layer) {
        segments.push(segment)?;
    }
    Ok(())
}
