//! How often each edge is a link, with its copies, counted by one hand or by several.
//!
//! 1. The links stand in lists, each in order. All columns of their first ends are cut into the spans of shares (`shares`).
//! 2. Each hand merges the links of a share from all lists, and counts them (`counted_in_shares`).
//! 3. The counts of the shares are put behind one another (`counts_of_lists`). A list that is the only one is counted as it stands
//!    (`counts_in_parts`).

ghost use Rattle.std.specs.Prelude.{◌≡◌, ◌+◌, ◌<◌, ◌^◌, ◌++◌, ◌∷◌, [], IfOk, IsTrue, OnOk, flat_map, length};
ghost use Rattle.linking.specs.Links.{AreCounts, AreInOrder};
ghost use Rattle.linking.specs.Shares.{column_of};
ghost use Rattle.linking.specs.Spans.{within};

use crate::link::Link;
use crate::ordered::InOrder;
use crate::shares::{merged, only_list, shares_to_merge};
use crate::span::Share;
use distinct::Copies;
use geom::{Counted, Edge, NoMemory};
use hands::{joined, map_parts};
use std::alloc::Allocator;
use std::thread::Threads;

/// An edge that isn't counted yet.
fn uncounted(edge: Edge) -> Counted
    ensures edge { result.edge ≡ edge }
    ensures in_a { result.in_a ≡ 0 }
    ensures in_b { result.in_b ≡ 0 }
{
    Counted {
        edge,
        in_a: 0,
        in_b: 0,
    }
}

/// The same with more copies. More than a `u32` counts are refused as want of memory.
fn with_copies(counted: Counted, copies: Copies) -> Result<Counted, NoMemory>
    ensures { IfOk result (λ c. (c.edge ≡ counted.edge) × (c.in_a ≡ counted.in_a + copies.in_a) × (c.in_b ≡ counted.in_b + copies.in_b)) }
{
    let in_a = counted.in_a.checked_add(u32::from(copies.in_a));
    let in_b = counted.in_b.checked_add(u32::from(copies.in_b));
    match (in_a, in_b) {
        (Some(in_a), Some(in_b)) => Ok(Counted {
            edge: counted.edge,
            in_a,
            in_b,
        }),
        _ => Err(NoMemory),
    }
}

/// Adds an edge whose links are all counted.
fn add_counted<A: Allocator>(list: &mut Vec<Counted, A>, counted: Counted) -> Result<(), NoMemory>
    ensures { OnOk result (list.new.items ≡ list.old.items ++ counted ∷ []) }
{
    list.push(counted)?;
    Ok(())
}

/// Each edge among links that are sorted, ascending, with its counts.
fn count_sorted<A: Allocator>(alloc: A, links: &[Link]) -> Result<Vec<Counted, A>, NoMemory>
    requires in_order { AreInOrder links.now }
    requires short { length links.now < 2 ^ 32 }
    ensures { IfOk result (λ v. AreCounts links.now v.items) }
{
    let mut list = Vec::with_capacity(alloc, links.len())?;
    let Some(first) = links.first() else {
        return Ok(list);
    };
    let mut current = uncounted(first.edge);
    for link in links {
        if current.edge != link.edge {
            add_counted(&mut list, current)?;
            current = uncounted(link.edge);
        }
        current = with_copies(current, link.copies)?;
    }
    add_counted(&mut list, current)?;
    Ok(list)
}

/// Each edge among links in order, ascending, with its counts.
pub(crate) fn counts_in_order<A: Allocator>(
    alloc: A,
    links: &InOrder<Link, A>,
) -> Result<Vec<Counted, A>, NoMemory>
    requires short { length links.now.items.items < 2 ^ 32 }
    ensures { IfOk result (λ v. AreCounts links.now.items.items v.items) }
{
    count_sorted(alloc, &links.items)
}

/// Each edge among the links, ascending, with its counts.
pub fn counts<A: Allocator + Copy>(
    alloc: A,
    links: Vec<Link, A>,
) -> Result<Vec<Counted, A>, NoMemory>
    requires short { length links.items < 2 ^ 32 }
    ensures { IfOk result (λ v. AreCounts links.items v.items) }
{
    let links = InOrder::of(links);
    counts_in_order(alloc, &links)
}

/// The counts of shares of the links of lists, about so many or more, each by a hand of its own.
fn counted_in_shares<R: Threads + Sync, A: Allocator + Copy + Send + Sync>(
    rt: &R,
    alloc: A,
    parts: usize,
    lists: &[InOrder<Link, A>],
) -> Result<Vec<Vec<Counted, A>, A>, NoMemory>
    requires { length (flat_map (λ l. l.items.items) lists.now) < 2 ^ 32 }
    ensures { IfOk result (λ v. AreCounts (flat_map (λ l. l.items.items) lists.now) (flat_map (λ l. l.items) v.items)) }
{
    let shares = shares_to_merge(alloc, parts, lists)?;
    map_parts(
        rt,
        alloc,
        &shares,
        |share: Share| -> Result<Vec<Counted, A>, NoMemory>
            requires { length (flat_map (λ l. l.items.items) lists.now) < 2 ^ 32 }
            ensures { IfOk result (λ v. AreCounts (within column_of share.span (flat_map (λ l. l.items.items) lists.entry.now)) v.items) }
        {
            let links = merged(alloc, lists, share)?;
            counts_in_order(alloc, &links)
        },
    )
}

/// Whether a `u32` counts the links of all lists.
fn are_few<A: Allocator>(lists: &[InOrder<Link, A>]) -> bool
    ensures { IsTrue result → length (flat_map (λ l. l.items.items) lists.now) < 2 ^ 32 }
{
    let mut left = u32::MAX as usize;
    for list in lists {
        let links = list.items.len();
        if links > left {
            return false;
        }
        left -= links;
    }
    true
}

/// Each edge among the links of lists, ascending, with its counts.
fn counts_of_lists<R: Threads + Sync, A: Allocator + Copy + Send + Sync>(
    rt: &R,
    alloc: A,
    parts: usize,
    lists: Vec<InOrder<Link, A>, A>,
) -> Result<Vec<Counted, A>, NoMemory>
    requires { length (flat_map (λ l. l.items.items) lists.items) < 2 ^ 32 }
    ensures { IfOk result (λ v. AreCounts (flat_map (λ l. l.items.items) lists.items) v.items) }
{
    let counted = counted_in_shares(rt, alloc, parts, &lists)?;
    drop(lists);
    Ok(joined(alloc, counted)?)
}

/// The same, where a list that is the only one is counted as it stands. More links than a `u32` counts are refused as want of memory.
pub fn counts_in_parts<R: Threads + Sync, A: Allocator + Copy + Send + Sync>(
    rt: &R,
    alloc: A,
    parts: usize,
    lists: Vec<InOrder<Link, A>, A>,
) -> Result<Vec<Counted, A>, NoMemory>
    ensures short { IfOk result (λ v. length (flat_map (λ l. l.items.items) lists.items) < 2 ^ 32) }
    ensures counts { IfOk result (λ v. AreCounts (flat_map (λ l. l.items.items) lists.items) v.items) }
{
    if !are_few(&lists) {
        return Err(NoMemory);
    }
    match only_list(lists) {
        Ok(links) => counts_in_order(alloc, &links),
        Err(lists) => counts_of_lists(rt, alloc, parts, lists),
    }
}
