//! A layer text, read in parts of whole lines.
//!
//! 1. The text is cut into parts of nearly one length, each at a line feed behind which a geometry seems to begin (`line_parts`).
//! 2. Each part is read as a text of its own, all of them at once (`gathered_in_parts`).
//! 3. Where all are accepted, so is the whole, and its rings are theirs, one part's behind another's (`gathered_of_all`). Where one is
//!    not, or memory runs out, nothing is known of the whole.

ghost use Rattle.std.specs.Prelude.{◌≡◌, ◌+◌, ◌-◌, ◌<◌, ◌≤◌, All, IfOk, IfSome, flat_map, length, slice_index, slice_range};
ghost use Rattle.hands.specs.Consecutive.{ArePartsOf};
ghost use Rattle.wkt.specs.WholeLines.{AreWholeLines};
ghost use Rattle.wkt.specs.Outlines.{IsGathered, IsOutlined};

use crate::outline::Outline;
use crate::read::gather;
use geom::Ring;
use hands::{Part, even_parts, joined, map_parts};
use std::alloc::{AllocError, AllocFailed, Allocator};
use std::thread::Threads;

/// How far behind its even place a part's end is looked for, in bytes.
const REACH: usize = 262_144;

/// Nothing is known of a text by its parts: there is but one, or one of them is no layer by itself, or memory ran out.
#[derive(Clone, Copy, Debug)]
pub struct Unknown;

impl From<AllocError> for Unknown {
    fn from(_e: AllocError) -> Unknown {
        Unknown
    }
}

impl<T: Drop> From<AllocFailed<T>> for Unknown {
    fn from(_e: AllocFailed<T>) -> Unknown {
        Unknown
    }
}

/// Whether a geometry may begin with a byte.
fn begins_geometry(byte: u8) -> bool {
    matches!(byte, b'P' | b'p' | b'M' | b'm')
}

/// The offset behind the first line feed from an offset on, behind which a geometry seems to begin.
fn line_from(text: &[u8], near: usize) -> Option<usize>
    requires { near ≤ length text.now }
    ensures { IfSome result (λ at. (near < at) × (at ≤ length text.now) × (slice_index text.now (at - 1) ≡ 10)) }
{
    for at in near + 1..text.len().min(near + REACH) {
        if text[at - 1] == b'\n' && begins_geometry(text[at]) {
            return Some(at);
        }
    }
    None
}

/// At most so many parts of a text, and one at least, as if one more line feed stood behind it: each ends with a line feed.
pub fn line_parts<A: Allocator + Copy>(
    alloc: A,
    parts: usize,
    text: &[u8],
) -> Result<Vec<Part, A>, AllocError>
    requires { length text.now ≤ u32.MAX }
    ensures parts { IfOk result (λ v. ArePartsOf 0 (length text.now + 1) v.items) }
    ensures lines { IfOk result (λ v. All (AreWholeLines text.now) v.items) }
{
    let mut all = Vec::with_capacity(alloc, parts)?;
    let mut from = 0;
    for even in &even_parts(alloc, text.len(), parts)? {
        if let Some(past) = line_from(text, even.past.max(from)) {
            all.push(Part { from, past })?;
            from = past;
        }
    }
    let past = text.len() + 1;
    all.push(Part { from, past })?;
    Ok(all)
}

/// The outline and the rings of a part's lines, without the line feed behind them.
fn gathered_of<A: Allocator + Copy>(
    alloc: A,
    text: &[u8],
    part: Part,
) -> Result<(Outline, Vec<Ring<A>, A>), Unknown>
    requires some { part.from < part.past }
    requires inside { part.past ≤ length text.now + 1 }
    ensures { IfOk result (IsGathered (slice_range text.now part.from (part.past - 1))) }
{
    match gather(alloc, u32::MAX, &text[part.from..part.past - 1]) {
        Ok(found) => Ok(found),
        Err(_) => Err(Unknown),
    }
}

/// The outline and the rings of all parts together.
fn gathered_of_all<A: Allocator + Copy>(
    alloc: A,
    parts: Vec<(Outline, Vec<Ring<A>, A>), A>,
) -> Result<(Outline, Vec<Ring<A>, A>), Unknown>
    requires { All IsOutlined parts.items }
    ensures { IfOk result (λ r. IsOutlined r × (r.1.items ≡ flat_map (λ part. part.1.items) parts.items)) }
{
    let mut outline = Outline::of_none();
    let mut lists = Vec::with_capacity(alloc, parts.len())?;
    for (next, rings) in parts {
        let Some(both) = outline.joined(next) else {
            return Err(Unknown);
        };
        outline = both;
        lists.push(rings)?;
    }
    Ok((outline, joined(alloc, lists)?))
}

/// The outline and the rings of a text, read in two parts or more, where they are found out.
pub fn gathered_in_parts<A: Allocator + Copy + Send + Sync, R: Threads + Sync>(
    rt: &R,
    alloc: A,
    parts: usize,
    text: &[u8],
) -> Result<(Outline, Vec<Ring<A>, A>), Unknown>
    requires { length text.now ≤ u32.MAX }
    ensures { IfOk result (IsGathered text.now) }
{
    let parts = line_parts(alloc, parts, text)?;
    if parts.len() < 2 {
        return Err(Unknown);
    }
    let gathered = map_parts(
        rt,
        alloc,
        &parts,
        |part: Part| -> Result<(Outline, Vec<Ring<A>, A>), Unknown>
            requires { (part.from < part.past) × (part.past ≤ length text.now + 1) }
            ensures { IfOk result (IsGathered (slice_range text.entry.now part.from (part.past - 1))) }
        { gathered_of(alloc, text, part) },
    )?;
    gathered_of_all(alloc, gathered)
}
