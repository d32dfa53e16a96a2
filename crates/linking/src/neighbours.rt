//! Finding the links of sorted records, between neighbours of one segment.

ghost use Rattle.std.specs.Prelude.{◌≢◌, ◌<◌, ◌^◌, All, IfOk, length};
ghost use Rattle.linking.specs.Links.{AreApart, AreLinks, AreNeighbourLinks, AreRecords, IsBetween, layer_link};

use crate::link::{Link, MakesLinks};
use geom::{Edge, NoMemory, Pt, Seg};
use routing::Record;
use std::alloc::Allocator;

/// The edge between two points.
#[inline(always)]
pub(crate) fn edge_between(c: Pt, d: Pt) -> Edge
    requires { c ≢ d }
    ensures { IsBetween result c d }
{
    if c < d {
        Edge { p: c, q: d }
    } else {
        Edge { p: d, q: c }
    }
}

/// The links between neighbours among records, made by what stands for the segments, with room for so many at first.
pub(crate) fn neighbour_links<M: MakesLinks<L>, L: Copy, A: Allocator>(
    alloc: A,
    room: usize,
    makers: &[M],
    records: &[Record],
) -> Result<Vec<L, A>, NoMemory>
    requires below { All (λ r. r.segment < length makers.now) records.now }
    requires apart { AreApart records.now }
    requires short { length records.now < 2 ^ 32 }
    ensures { IfOk result (λ v. AreNeighbourLinks M.link_of makers.now records.now v.items) }
{
    let mut list = Vec::with_capacity(alloc, room)?;
    for i in 1..records.len() {
        let start = records[i - 1];
        let end = records[i];
        if start.segment == end.segment {
            let edge = edge_between(start.pixel, end.pixel);
            list.push(makers[start.segment as usize].link(edge))?;
        }
    }
    Ok(list)
}

/// The links between neighbours among records of segments. More than a `u32` counts are refused as want of memory.
pub fn links_between<A: Allocator>(
    alloc: A,
    segments: &[Seg],
    records: &[Record],
) -> Result<Vec<Link, A>, NoMemory>
    requires below { All (λ r. r.segment < length segments.now) records.now }
    requires apart { AreApart records.now }
    ensures { IfOk result (λ v. AreNeighbourLinks layer_link segments.now records.now v.items × (length v.items < 2 ^ 32)) }
{
    if records.len() > u32::MAX as usize {
        return Err(NoMemory);
    }
    neighbour_links(alloc, records.len(), segments, records)
}

/// The links of the records of all routes. More than a `u32` counts are refused as want of memory.
pub(crate) fn links<A: Allocator>(
    alloc: A,
    segments: &[Seg],
    records: &[Record],
) -> Result<Vec<Link, A>, NoMemory>
    requires { ∥ AreRecords segments.now records.now ∥₁ }
    ensures { IfOk result (λ v. ∥ AreLinks segments.now v.items ∥₁) }
{
    links_between(alloc, segments, records)
}
