//! Two layer texts, read.
//!
//! 1. Either text is checked and read in one pass (`read_one`), both at once and each in parts, where they are long (`read_both`).
//! 2. The rings that were read, or are read now, since there was no room for them before (`rings_of`), are cut into segments
//!    (`read_segments`), those of both layers at once where there are workers for both (`read_segments_by_workers`).

ghost use Rattle.std.specs.Prelude.{IfOk};
ghost use Rattle.layers.specs.Segments.{AllInLimit, AreLayerSegments, AreRingsInLimit, AreSegmentsOf};
ghost use Rattle.layers.specs.Refusals.{HasOwnRings, IsReading, text_limit};
ghost use Rattle.wkt.specs.Refusals.{StandsFor};

use crate::checking::{CheckedInput, Reading};
use crate::plan::{Limits, text_limit};
use crate::segments::{layer_segments, segments_of};
use geom::{Layer, NoMemory, Seg, Source};
use hands::{join, worth};
use std::alloc::Allocator;
use std::thread::Threads;
use wkt::{OutlinedLayer, read_layer_within, read_outlined, read_outlined_in_parts};

/// A hand for either text.
const BOTH: usize = 2;

/// What is read of a layer text within limits.
pub fn read_one<A: Allocator + Copy>(alloc: A, limits: Limits, text: &[u8]) -> Reading<A>
    ensures reading { IsReading (text_limit limits.segments) text.now result }
    ensures rings { HasOwnRings text.now result }
{
    read_outlined(alloc, text_limit(limits.segments), text)
}

/// The same, in so many parts at most.
fn read_in_parts<A: Allocator + Copy + Send + Sync, R: Threads + Sync>(
    rt: &R,
    alloc: A,
    limits: Limits,
    parts: usize,
    text: &[u8],
) -> Reading<A>
    ensures reading { IsReading (text_limit limits.segments) text.now result }
    ensures rings { HasOwnRings text.now result }
{
    read_outlined_in_parts(rt, alloc, text_limit(limits.segments), parts, text)
}

/// What is read of two layer texts: of both at once where that is worth it, each in parts by a half of the workers.
pub fn read_both<A: Allocator + Copy + Send + Sync, R: Threads + Sync>(
    rt: &R,
    alloc: A,
    limits: Limits,
    workers: u32,
    a: &[u8],
    b: &[u8],
) -> (Reading<A>, Reading<A>)
    ensures a { IsReading (text_limit limits.segments) a.now result.0 }
    ensures b { IsReading (text_limit limits.segments) b.now result.1 }
    ensures rings_a { HasOwnRings a.now result.0 }
    ensures rings_b { HasOwnRings b.now result.1 }
{
    if worth::parts(workers, a.len().saturating_add(b.len()), worth::TEXTS) < 2 {
        return (read_one(alloc, limits, a), read_one(alloc, limits, b));
    }
    let half = workers / 2;
    let parts_a = worth::parts(half, a.len(), worth::BYTES);
    let parts_b = worth::parts(workers - half, b.len(), worth::BYTES);
    join(
        rt,
        BOTH,
        || read_in_parts(rt, alloc, limits, parts_a, a),
        || read_in_parts(rt, alloc, limits, parts_b, b),
    )
}

/// The rings of a layer text that isn't refused: those that were read, or they are read now.
fn rings_of<A: Allocator + Copy>(
    alloc: A,
    text: &[u8],
    reading: Reading<A>,
) -> Result<Layer<A>, NoMemory>
    requires { HasOwnRings text.now reading }
    ensures answer { IfOk result (λ layer. StandsFor text.now layer) }
    ensures in_limit { IfOk result (λ layer. AreRingsInLimit layer) }
{
    match reading {
        Ok(
            OutlinedLayer {
                layer: Some(layer),
                ..
            },
        ) => Ok(layer),
        _ => match read_layer_within(alloc, u32::MAX, text) {
            Ok(layer) => Ok(layer),
            Err(_) => Err(NoMemory),
        },
    }
}

/// The segments of two layers, by what was read of them.
pub fn read_segments<A: Allocator + Copy>(
    alloc: A,
    checked: &CheckedInput<'_, '_>,
    read_a: Reading<A>,
    read_b: Reading<A>,
) -> Result<Vec<Seg, A>, NoMemory>
    requires read_a { HasOwnRings checked.now.a.now read_a }
    requires read_b { HasOwnRings checked.now.b.now read_b }
    ensures segments { IfOk result (λ v. AreSegmentsOf checked.now.a.now checked.now.b.now v.items) }
    ensures in_limit { IfOk result (λ v. AllInLimit v.items) }
{
    let layer_a = rings_of(alloc, checked.a, read_a)?;
    let layer_b = rings_of(alloc, checked.b, read_b)?;
    let count = u64::from(checked.segments_a) + u64::from(checked.segments_b);
    segments_of(alloc, &layer_a, &layer_b, count as usize)
}

/// The same, of both layers at once by more than one worker: either hand lets the rings go that it cuts.
pub fn read_segments_by_workers<A: Allocator + Copy + Send + Sync, R: Threads + Sync>(
    rt: &R,
    alloc: A,
    checked: &CheckedInput<'_, '_>,
    read_a: Reading<A>,
    read_b: Reading<A>,
) -> Result<Vec<Seg, A>, NoMemory>
    requires read_a { HasOwnRings checked.now.a.now read_a }
    requires read_b { HasOwnRings checked.now.b.now read_b }
    ensures segments { IfOk result (λ v. AreSegmentsOf checked.now.a.now checked.now.b.now v.items) }
    ensures in_limit { IfOk result (λ v. AllInLimit v.items) }
{
    if checked.plan.workers < 2 {
        return read_segments(alloc, checked, read_a, read_b);
    }
    let (a, b) = (checked.a, checked.b);
    let own = checked.segments_b as usize;
    // The first list has room for both.
    let room = checked.segments_a as usize + own;
    let (first, second) = join(
        rt,
        BOTH,
        move || segments_in(alloc, a, read_a, Source::A, room),
        move || segments_in(alloc, b, read_b, Source::B, own),
    );
    let mut segments = first?;
    segments.extend_from_slice(second?.as_slice())?;
    Ok(segments)
}

/// The segments of one layer, by what was read of its text, with room for so many.
fn segments_in<A: Allocator + Copy>(
    alloc: A,
    text: &[u8],
    reading: Reading<A>,
    layer: Source,
    room: usize,
) -> Result<Vec<Seg, A>, NoMemory>
    requires { HasOwnRings text.now reading }
    ensures segments { IfOk result (λ v. AreLayerSegments layer text.now v.items) }
    ensures in_limit { IfOk result (λ v. AllInLimit v.items) }
{
    let rings = rings_of(alloc, text, reading)?;
    layer_segments(alloc, &rings, layer, room)
}
