//! What hands find in their shares of the segments: links, and how many records each tile has.
//!
//! 1. Each hand takes the records of its share from all pieces and sorts them (`link_share`).
//! 2. It goes over its segments, each with the records between its ends, which stand next (`link_routes`, `past_number`).
//! 3. Of each route it links neighbours and counts the records by their tiles (`add_route`), and it sorts its links.
//! 4. The lists of links stand in the order of the shares, and the counts of each tile are added (`link_in_parts`).

ghost use Rattle.std.specs.Prelude.{◌≡◌, ◌≢◌, ◌<◌, ◌≤◌, ◌^◌, ◌++◌, ◌∷◌, [], All, AllPairs, IfOk, IfSome, OnOk, flat_map, get_or, length, map};
ghost use Rattle.std.specs.List.{AllWithin};
ghost use Rattle.std.specs.declared.cmp.Ordering.TheVariants.{Less};
ghost use Rattle.geom.specs.declared.edge.Edge.{Edge};
ghost use Rattle.grid.specs.Tiles.{HasTile, tile_count};
ghost use Rattle.routing.specs.declared.record.Record.{Record};
ghost use Rattle.linking.specs.Ends.{ends_from, route_of};
ghost use Rattle.linking.specs.Gathered.{HaveTiles};
ghost use Rattle.linking.specs.Links.{AreApart, IsBetween};
ghost use Rattle.linking.specs.Numbers.{CountsMore, HasOwned};
ghost use Rattle.linking.specs.Orders.{AreSortedOnce, record_order};
ghost use Rattle.linking.specs.Shares.{AddsRoute, AreInner, HasLinked, HasRoutes, segment_of};
ghost use Rattle.linking.specs.Spans.{within};

use crate::keyed::sorted;
use crate::link::MakesLinks;
use crate::neighbours::edge_between;
use crate::numbers::{TileCounts, summed};
use crate::ordered::{InOrder, Ordered};
use crate::shares::{shares_of_records, taken};
use crate::span::Share;
use crate::tile_piece::{TilePiece, Tiled};
use geom::{NoMemory, Pt, Seg};
use grid::Grid;
use hands::map_parts;
use routing::Record;
use std::alloc::Allocator;
use std::thread::Threads;

/// The links of a share of the segments, in order, and how many of the records each tile has.
#[derive(Drop)]
pub(crate) struct Linked<L: Ordered + Copy, A: Allocator> {
    pub links: InOrder<L, A>,
    pub records: Vec<u32, A>,
}

/// The links of all segments, in a list for each share, and how many of the records each tile has.
#[derive(Drop)]
pub(crate) struct AllLinked<L: Ordered + Copy, A: Allocator> {
    pub links: Vec<InOrder<L, A>, A>,
    pub records: Vec<u32, A>,
}

/// The links of the routes so far, and the counts of their records.
#[derive(Drop)]
struct Linking<L: Copy, A: Allocator> {
    links: Vec<L, A>,
    counts: TileCounts<A>,
}

/// Records in order, each once.
pub(crate) fn in_order<A: Allocator + Copy>(records: Vec<Record, A>) -> Vec<Record, A>
    ensures { AreSortedOnce records.items result.items }
{
    let mut records = sorted(records);
    records.dedup();
    records
}

/// Adds the link from a pixel of a route to the next one, and counts the record of that, as often as the maker says.
#[inline(always)]
fn add_step<M: MakesLinks<L>, L: Copy, A: Allocator>(
    linking: &mut Linking<L, A>,
    grid: &Grid,
    maker: &M,
    from: Pt,
    to: Pt,
) -> Result<(), NoMemory>
    requires apart { from ≢ to }
    requires tile { HasTile grid.now to }
    requires size { length linking.now.counts.counts.items ≡ tile_count grid.now }
    requires last { IfSome linking.now.counts.last (HasOwned grid.now) }
    ensures link { OnOk result ((edge : Edge) × IsBetween edge from to × (linking.new.links.items ≡ linking.old.links.items ++ M.link_of maker.now edge ∷ [])) }
    ensures counted { OnOk result (CountsMore grid.now to (M.times_of maker.now) linking.old.counts.counts.items linking.new.counts.counts.items) }
    ensures last { OnOk result (IfSome linking.new.counts.last (HasOwned grid.now)) }
{
    linking.links.push(maker.link(edge_between(from, to)))?;
    linking.counts.add(grid, to, maker.times())
}

/// Adds the links of a segment's route, and counts its records: those of its ends, and those between them, which are in order.
#[inline(always)]
fn add_route<M: MakesLinks<L>, L: Copy, A: Allocator>(
    linking: &mut Linking<L, A>,
    grid: &Grid,
    makers: &[M],
    number: u32,
    s: Seg,
    inner: &[Record],
) -> Result<(), NoMemory>
    requires number { number < length makers.now }
    requires own { All (λ r. r.segment ≡ number) inner.now }
    requires apart { AreApart (route_of number s inner.now) }
    requires tiles { All (λ r. HasTile grid.now r.pixel) (route_of number s inner.now) }
    requires size { length linking.now.counts.counts.items ≡ tile_count grid.now }
    requires last { IfSome linking.now.counts.last (HasOwned grid.now) }
    ensures route { OnOk result (AddsRoute grid.now M.link_of M.times_of makers.now number (route_of number s inner.now) linking.old.links.items linking.old.counts.counts.items linking.new.links.items linking.new.counts.counts.items) }
    ensures last { OnOk result (IfSome linking.new.counts.last (HasOwned grid.now)) }
{
    let maker = &makers[number as usize];
    let mut last = s.a;
    linking.counts.add(grid, last, maker.times())?;
    for record in inner {
        add_step(linking, grid, maker, last, record.pixel)?;
        last = record.pixel;
    }
    add_step(linking, grid, maker, last, s.b)
}

/// The place behind those of the records from a place on that are of segments up to a number.
#[inline(always)]
fn past_number(records: &[Record], from: usize, number: u32) -> usize
    requires { from ≤ length records.now }
    ensures from { from ≤ result }
    ensures within { result ≤ length records.now }
    ensures up_to { AllWithin (λ r. r.segment ≤ number) records.now from result }
    ensures next { (d : Record) → result < length records.now → number < (get_or records.now result d).segment }
{
    let mut place = from;
    while place < records.len() && records[place].segment <= number {
        place += 1;
    }
    place
}

/// What is found in the routes of the segments from a number on, up to another one, whose records between the ends are in order.
fn link_routes<M: MakesLinks<L>, L: Ordered + Copy, A: Allocator + Copy>(
    alloc: A,
    grid: &Grid,
    segments: &[Seg],
    makers: &[M],
    first: u32,
    past: u32,
    records: &[Record],
) -> Result<Linked<L, A>, NoMemory>
    requires past { past ≤ length segments.now }
    requires one_for_each { length makers.now ≡ length segments.now }
    requires covered { HaveTiles grid.now segments.now }
    requires inner { AreInner segments.now records.now }
    requires ascending { AllPairs (λ r q. record_order r q ≡ Less) records.now }
    requires within { All (λ r. (first ≤ r.segment) × (r.segment < past)) records.now }
    ensures { IfOk result (λ f. HasRoutes grid.now M.link_of M.times_of segments.now makers.now first past records.now f.links.items.items f.records.items) }
{
    let room = records
        .len()
        .saturating_add(past.saturating_sub(first) as usize);
    let mut linking = Linking {
        links: Vec::with_capacity(alloc, room)?,
        counts: TileCounts::none(alloc, grid)?,
    };
    let mut place = 0;
    for number in first..past {
        let next = past_number(records, place, number);
        let s = segments[number as usize];
        add_route(&mut linking, grid, makers, number, s, &records[place..next])?;
        place = next;
    }
    let Linking { links, counts } = linking;
    Ok(Linked {
        links: InOrder::of(links),
        records: counts.into_counts(),
    })
}

/// What is found in one share of the segments. More segments or links than a `u32` counts are refused as want of memory.
pub(crate) fn link_share<M: MakesLinks<L>, L: Ordered + Copy, T: Tiled, A: Allocator + Copy>(
    alloc: A,
    grid: &Grid,
    pieces: &[TilePiece<T, A>],
    segments: &[Seg],
    makers: &[M],
    share: Share,
) -> Result<Linked<L, A>, NoMemory>
    requires one_for_each { length makers.now ≡ length segments.now }
    requires covered { HaveTiles grid.now segments.now }
    requires inner { AreInner segments.now (flat_map (λ p. p.records.items) pieces.now) }
    ensures linked { IfOk result (λ f. HasLinked grid.now M.link_of M.times_of makers.now (within segment_of share.span (flat_map (λ p. p.records.items) pieces.now ++ ends_from 0 segments.now)) f.links.items.items f.records.items) }
    ensures short { IfOk result (λ f. length f.links.items.items < 2 ^ 32) }
{
    if segments.len() > u32::MAX as usize {
        return Err(NoMemory);
    }
    let count = segments.len() as u32;
    let first = share.span.first_of(count);
    let past = share.span.past_of(count);
    let found = taken(alloc, pieces, share)?;
    let records = in_order(found);
    let linked = link_routes(alloc, grid, segments, makers, first, past, &records)?;
    if linked.links.items.len() > u32::MAX as usize {
        return Err(NoMemory);
    }
    Ok(linked)
}

/// The links of shares, and the counts of these, apart.
fn parted<L: Ordered + Copy, A: Allocator + Copy>(
    alloc: A,
    found: Vec<Linked<L, A>, A>,
) -> Result<(Vec<InOrder<L, A>, A>, Vec<Vec<u32, A>, A>), NoMemory>
    ensures links { IfOk result (λ r. flat_map (λ l. l.items.items) r.0.items ≡ flat_map (λ f. f.links.items.items) found.items) }
    ensures records { IfOk result (λ r. map (λ l. l.items) r.1.items ≡ map (λ f. f.records.items) found.items) }
{
    let mut lists = Vec::with_capacity(alloc, found.len())?;
    let mut counts = Vec::with_capacity(alloc, found.len())?;
    for linked in found {
        let Linked { links, records } = linked;
        lists.push(links)?;
        counts.push(records)?;
    }
    Ok((lists, counts))
}

/// What is found in at most so many shares of the segments, each by a hand of its own.
pub(crate) fn link_in_parts<
    M: MakesLinks<L> + Sync,
    L: Ordered + Copy + Send + Sync,
    T: Tiled + Sync,
    A: Allocator + Copy + Send + Sync,
    R: Threads + Sync,
>(
    rt: &R,
    alloc: A,
    parts: usize,
    grid: &Grid,
    pieces: &[TilePiece<T, A>],
    segments: &[Seg],
    makers: &[M],
) -> Result<AllLinked<L, A>, NoMemory>
    requires one_for_each { length makers.now ≡ length segments.now }
    requires covered { HaveTiles grid.now segments.now }
    requires inner { AreInner segments.now (flat_map (λ p. p.records.items) pieces.now) }
    ensures { IfOk result (λ f. HasLinked grid.now M.link_of M.times_of makers.now (flat_map (λ p. p.records.items) pieces.now ++ ends_from 0 segments.now) (flat_map (λ l. l.items.items) f.links.items) f.records.items) }
{
    let shares = shares_of_records(alloc, parts, pieces, segments.len())?;
    let found = map_parts(
        rt,
        alloc,
        &shares,
        |share: Share| -> Result<Linked<L, A>, NoMemory>
            requires { (length makers.now ≡ length segments.now) × HaveTiles grid.now segments.now × AreInner segments.now (flat_map (λ p. p.records.items) pieces.now) }
            ensures { IfOk result (λ f. HasLinked grid.entry.now M.link_of M.times_of makers.entry.now (within segment_of share.span (flat_map (λ p. p.records.items) pieces.entry.now ++ ends_from 0 segments.entry.now)) f.links.items.items f.records.items) }
        { link_share(alloc, grid, pieces, segments, makers, share) },
    )?;
    let (links, counts) = parted(alloc, found)?;
    let records = summed(alloc, grid.tiles() as usize, &counts)?;
    Ok(AllLinked { links, records })
}
