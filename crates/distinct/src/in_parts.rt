//! The same by several hands.
//!
//! 1. Each hand looks whether a part of the segments has two with the same ends, and counts each by itself (`copies_apart`). Where none has,
//!    they are kept as they stand, and no list of segments is copied.
//! 2. Else each hand keeps those of a part, and the parts are put behind one another.

ghost use Rattle.std.specs.Prelude.{◌≡◌, ◌≤◌, IfOk, IfSome, Some, flat_map, length, map, slice_range};
ghost use Rattle.hands.specs.Consecutive.{ArePartsOf};
ghost use Rattle.distinct.specs.Copies.{AreCopies};

use crate::copies::Copies;
use crate::keeping::{distinct, have_same_ends};
use crate::kept::Distinct;
use crate::table::{Table, ends_of};
use geom::{NoMemory, Seg};
use hands::{Part, even_parts, joined, map_parts};
use std::alloc::Allocator;
use std::thread::Threads;

/// The copies of segments as they stand, each by itself; none where two have the same ends, as far as a table of so many tells.
fn copies_apart<A: Allocator + Copy>(
    alloc: A,
    segments: &[Seg],
) -> Result<Option<Vec<Copies, A>>, NoMemory>
    ensures { IfOk result (λ found. IfSome found (λ copies. AreCopies segments.now segments.now copies.items)) }
{
    let mut table = Table::for_segments(alloc, segments.len())?;
    let mut copies = Vec::with_capacity(alloc, segments.len())?;
    for place in 0..segments.len() {
        let ends = ends_of(&segments[place]);
        let told = table.told(ends);
        if told < place && have_same_ends(&segments[told], &segments[place]) {
            return Ok(None);
        }
        table.tell(ends, place);
        copies.push(Copies::one(segments[place].layer))?;
    }
    Ok(Some(copies))
}

/// The lists; none where one of them isn't there.
fn all_there<A: Allocator>(
    alloc: A,
    found: Vec<Option<Vec<Copies, A>>, A>,
) -> Result<Option<Vec<Vec<Copies, A>, A>>, NoMemory>
    ensures { IfOk result (λ all. IfSome all (λ lists. map Some lists.items ≡ found.items)) }
{
    let mut lists = Vec::with_capacity(alloc, found.len())?;
    for one in found {
        let Some(list) = one else {
            return Ok(None);
        };
        lists.push(list)?;
    }
    Ok(Some(lists))
}

/// The copies of segments that are all apart in their parts, each part's by a hand of its own.
fn copies_in_parts<A: Allocator + Copy + Send + Sync, R: Threads + Sync>(
    rt: &R,
    alloc: A,
    cuts: &[Part],
    segments: &[Seg],
) -> Result<Option<Vec<Vec<Copies, A>, A>>, NoMemory>
    requires { ArePartsOf 0 (length segments.now) cuts.now }
    ensures { IfOk result (λ found. IfSome found (λ lists. AreCopies segments.now segments.now (flat_map (λ l. l.items) lists.items))) }
{
    let found = map_parts(
        rt,
        alloc,
        cuts,
        |part: Part| -> Result<Option<Vec<Copies, A>>, NoMemory>
            requires { (part.from ≤ part.past) × (part.past ≤ length segments.now) }
            ensures { IfOk result (λ found. IfSome found (λ copies. AreCopies (slice_range segments.entry.now part.from part.past) (slice_range segments.entry.now part.from part.past) copies.items)) }
        { copies_apart(alloc, &segments[part.from..part.past]) },
    )?;
    all_there(alloc, found)
}

/// As `distinct`, in at most so many parts, each by a hand of its own: those of the parts stand behind one another.
pub fn distinct_in_parts<A: Allocator + Copy + Send + Sync, R: Threads + Sync>(
    rt: &R,
    alloc: A,
    parts: usize,
    segments: Vec<Seg, A>,
) -> Result<Distinct<A>, NoMemory>
    ensures { IfOk result (λ d. AreCopies segments.items d.segments.items d.copies.items) }
{
    if parts < 2 {
        return distinct(alloc, segments);
    }
    let cuts = even_parts(alloc, segments.len(), parts)?;
    if let Some(copies) = copies_in_parts(rt, alloc, &cuts, &segments)? {
        return Ok(Distinct {
            segments,
            copies: joined(alloc, copies)?,
        });
    }
    let found = map_parts(
        rt,
        alloc,
        &cuts,
        |part: Part| -> Result<Distinct<A>, NoMemory>
            requires { (part.from ≤ part.past) × (part.past ≤ length segments.items) }
            ensures { IfOk result (λ d. AreCopies (slice_range segments.items part.from part.past) d.segments.items d.copies.items) }
        {
            distinct(
                alloc,
                Vec::from_slice(alloc, &segments[part.from..part.past])?,
            )
        },
    )?;
    let (kept, copies) = parted(alloc, found)?;
    Ok(Distinct {
        segments: joined(alloc, kept)?,
        copies: joined(alloc, copies)?,
    })
}

/// The segments that are kept of parts, and the copies of these, apart.
fn parted<A: Allocator + Copy>(
    alloc: A,
    found: Vec<Distinct<A>, A>,
) -> Result<(Vec<Vec<Seg, A>, A>, Vec<Vec<Copies, A>, A>), NoMemory>
    ensures segments { IfOk result (λ r. flat_map (λ l. l.items) r.0.items ≡ flat_map (λ d. d.segments.items) found.items) }
    ensures copies { IfOk result (λ r. flat_map (λ l. l.items) r.1.items ≡ flat_map (λ d. d.copies.items) found.items) }
{
    let mut kept = Vec::with_capacity(alloc, found.len())?;
    let mut counts = Vec::with_capacity(alloc, found.len())?;
    for part in found {
        let Distinct { segments, copies } = part;
        kept.push(segments)?;
        counts.push(copies)?;
    }
    Ok((kept, counts))
}
