//! The features of a layer text, read in parts of whole lines.
//!
//! 1. The parts are those of `lines`, and each is read as a text of its own (`gathered_features_in_parts`).
//! 2. The features of the whole are theirs, one part's behind another's: a part's starts are shifted by the number of rings before it
//!    (`features_of_all`).

ghost use Rattle.std.specs.Prelude.{◌≡◌, ◌++◌, ◌+◌, ◌-◌, ◌<◌, ◌≤◌, All, IfOk, OnOk, flat_map, length, map, slice_range};
ghost use Rattle.wkt.specs.Features.{AreGathered, AreOutlinedFeatures};

use crate::feature_layer::FeatureLayer;
use crate::features::gather_features;
use crate::lines::{Unknown, line_parts};
use crate::outline::Outline;
use hands::{Part, joined, map_parts};
use std::alloc::Allocator;
use std::thread::Threads;

/// The outline and the features of a part's lines, without the line feed behind them.
fn features_of_part<A: Allocator + Copy>(
    alloc: A,
    text: &[u8],
    part: Part,
) -> Result<(Outline, FeatureLayer<A>), Unknown>
    requires some { part.from < part.past }
    requires inside { part.past ≤ length text.now + 1 }
    ensures { IfOk result (AreGathered (slice_range text.now part.from (part.past - 1))) }
{
    match gather_features(alloc, u32::MAX, &text[part.from..part.past - 1]) {
        Ok(found) => Ok(found),
        Err(_) => Err(Unknown),
    }
}

/// Adds starts, each shifted by the number of rings before.
fn push_shifted<A: Allocator>(
    starts: &mut Vec<usize, A>,
    more: &[usize],
    before: usize,
) -> Result<(), Unknown>
    ensures { OnOk result (starts.new.items ≡ starts.old.items ++ map (λ s. s + before) more.now) }
{
    for start in more {
        let Some(shifted) = start.checked_add(before) else {
            return Err(Unknown);
        };
        starts.push(shifted)?;
    }
    Ok(())
}

/// The outline and the features of all parts together.
fn features_of_all<A: Allocator + Copy>(
    alloc: A,
    parts: Vec<(Outline, FeatureLayer<A>), A>,
) -> Result<(Outline, FeatureLayer<A>), Unknown>
    requires { All AreOutlinedFeatures parts.items }
    ensures { IfOk result (λ r. AreOutlinedFeatures r × (r.1 ≡ flat_map (λ part. part.1) parts.items)) }
{
    let mut outline = Outline::of_none();
    let mut lists = Vec::with_capacity(alloc, parts.len())?;
    let mut starts = Vec::new(alloc);
    let mut before: usize = 0;
    for (next, features) in parts {
        let Some(both) = outline.joined(next) else {
            return Err(Unknown);
        };
        outline = both;
        let (rings, own) = features.into_parts();
        push_shifted(&mut starts, &own, before)?;
        let Some(behind) = before.checked_add(rings.len()) else {
            return Err(Unknown);
        };
        before = behind;
        lists.push(rings)?;
    }
    Ok((outline, FeatureLayer::new(joined(alloc, lists)?, starts)))
}

/// The outline and the features of a text, read in two parts or more, where they are found out.
pub fn gathered_features_in_parts<A: Allocator + Copy + Send + Sync, R: Threads + Sync>(
    rt: &R,
    alloc: A,
    parts: usize,
    text: &[u8],
) -> Result<(Outline, FeatureLayer<A>), Unknown>
    requires { length text.now ≤ u32.MAX }
    ensures { IfOk result (AreGathered text.now) }
{
    let parts = line_parts(alloc, parts, text)?;
    if parts.len() < 2 {
        return Err(Unknown);
    }
    let gathered = map_parts(
        rt,
        alloc,
        &parts,
        |part: Part| -> Result<(Outline, FeatureLayer<A>), Unknown>
            requires { (part.from < part.past) × (part.past ≤ length text.now + 1) }
            ensures { IfOk result (AreGathered (slice_range text.entry.now part.from (part.past - 1))) }
        { features_of_part(alloc, text, part) },
    )?;
    features_of_all(alloc, gathered)
}
