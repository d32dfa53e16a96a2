//! Tests of the sort of records, and of counting links in one part and in several.

use crate::gathering::{Ends, point};
use distinct::Copies;
use geom::{Counted, Edge, NoMemory, Source};
use linking::{InOrder, Link, counts_in_parts, sorted};
use routing::Record;
use std::alloc::Global;
use std::thread::Threads;

// Pairs of a segment and its steps, and the same in order.
const FEW: [(&[(u32, u32)], &[(u32, u32)]); 6] = [
    (&[], &[]),
    (&[(7, 3)], &[(7, 3)]),
    (&[(1, 0), (0, 9)], &[(0, 9), (1, 0)]),
    (&[(4, 4), (4, 4), (4, 4)], &[(4, 4), (4, 4), (4, 4)]),
    (
        &[(2, 0), (1, 1), (1, 0), (0, 0)],
        &[(0, 0), (1, 0), (1, 1), (2, 0)],
    ),
    (
        &[(1_048_577, 0), (1_024, 3), (0, 5), (1_023, 4), (0, 2)],
        &[(0, 2), (0, 5), (1_023, 4), (1_024, 3), (1_048_577, 0)],
    ),
];

// A prime number of segments, so that the multiples of a number below it reach each place.
const LONG: u32 = 10_007;

// By how many places the next segment stands further, and how far apart the segments' numbers are: in order, falling, and mixed,
// in a range that is cut into values once, and in wider ones.
const SPREADS: [(u32, u32); 5] = [
    (1, 1),
    (1, 100),
    (10_006, 100),
    (5_000, 100),
    (5_000, 1_000),
];

// Links in lists, and the edges among them with their counts: none; in one column; and in three, of which one has the most.
const LINKS: [(&[&[(Ends, Source)]], &[(Ends, u32, u32)]); 4] = [
    (&[], &[]),
    (&[&[], &[]], &[]),
    (
        &[
            &[(((5, 2), (5, 3)), Source::B), (((5, 0), (5, 1)), Source::A)],
            &[(((5, 2), (5, 3)), Source::B)],
        ],
        &[(((5, 0), (5, 1)), 1, 0), (((5, 2), (5, 3)), 0, 2)],
    ),
    (
        &[
            &[
                (((0, 0), (3, 0)), Source::A),
                (((0, 0), (2, 1)), Source::A),
                (((0, 0), (3, 0)), Source::B),
                (((0, -7), (3, 0)), Source::A),
            ],
            &[(((9, 9), (9, 10)), Source::B)],
            &[(((-4, 1), (0, 0)), Source::A)],
        ],
        &[
            (((-4, 1), (0, 0)), 1, 0),
            (((0, -7), (3, 0)), 1, 0),
            (((0, 0), (2, 1)), 1, 0),
            (((0, 0), (3, 0)), 1, 1),
            (((9, 9), (9, 10)), 0, 1),
        ],
    ),
];

fn record(segment: u32, steps: u32) -> Record {
    Record {
        segment,
        steps,
        pixel: point((0, 0)),
    }
}

fn are_records(list: &[Record], expected: &[(u32, u32)]) -> bool {
    for (record, pair) in list.iter().zip(expected) {
        if (record.segment, record.steps) != *pair {
            return false;
        }
    }
    list.len() == expected.len()
}

fn records_of(alloc: Global, pairs: &[(u32, u32)]) -> Result<Vec<Record, Global>, NoMemory> {
    let mut list = Vec::new(alloc);
    for (segment, steps) in pairs {
        list.push(record(*segment, *steps))?;
    }
    Ok(list)
}

fn sorts_few(alloc: Global) -> Result<bool, NoMemory> {
    for (pairs, expected) in FEW {
        let list = sorted(records_of(alloc, pairs)?);
        if !are_records(&list, expected) {
            return Ok(false);
        }
    }
    Ok(true)
}

// Two records of each segment.
fn spread(alloc: Global, step: u32, gap: u32) -> Result<Vec<Record, Global>, NoMemory> {
    let mut list = Vec::new(alloc);
    for at in 0..LONG {
        let segment = (at.wrapping_mul(step) % LONG).wrapping_mul(gap);
        list.extend_from_slice(&[record(segment, 1), record(segment, 0)])?;
    }
    Ok(list)
}

fn are_in_order(list: &[Record], gap: u32) -> bool {
    let mut at = 0u32;
    for found in list {
        if (found.segment, found.steps) != ((at / 2).wrapping_mul(gap), at % 2) {
            return false;
        }
        at = at.wrapping_add(1);
    }
    list.len() == 2 * LONG as usize
}

// The first of the spreads whose records aren't sorted.
fn first_unsorted(alloc: Global) -> Result<Option<(u32, u32)>, NoMemory> {
    for (step, gap) in SPREADS {
        let list = sorted(spread(alloc, step, gap)?);
        if !are_in_order(&list, gap) {
            return Ok(Some((step, gap)));
        }
    }
    Ok(None)
}

// Each of many edges, from (0, 0) to (0, 1) and so on, as a link of a layer.
fn each_edge(alloc: Global, layer: Source, step: u32) -> Result<Vec<Link, Global>, NoMemory> {
    let mut list = Vec::new(alloc);
    for at in 0..LONG {
        let x = (at.wrapping_mul(step) % LONG) as i32;
        let Some(edge) = Edge::between(point((x, 0)), point((x, 1))) else {
            return Err(NoMemory);
        };
        list.push(Link {
            edge,
            copies: Copies::one(layer),
        })?;
    }
    Ok(list)
}

fn are_each_once_in_both(counted: &[Counted]) -> bool {
    for (at, found) in counted.iter().enumerate() {
        if found.edge.p.x.unsigned_abs() as usize != at || (found.in_a, found.in_b) != (1, 1) {
            return false;
        }
    }
    counted.len() == LONG as usize
}

fn counts_links<R: Threads + Sync>(
    rt: &R,
    alloc: Global,
    parts: usize,
    step: u32,
) -> Result<bool, NoMemory> {
    let mut lists = Vec::new(alloc);
    lists.push(InOrder::of(each_edge(alloc, Source::B, step)?))?;
    lists.push(InOrder::of(each_edge(alloc, Source::A, step)?))?;
    let counted = counts_in_parts(rt, alloc, parts, lists)?;
    Ok(are_each_once_in_both(&counted))
}

// The step of the first of the spreads whose links aren't counted in so many parts.
fn first_miscounted<R: Threads + Sync>(
    rt: &R,
    alloc: Global,
    parts: usize,
) -> Result<Option<u32>, NoMemory> {
    for (step, _gap) in SPREADS {
        if !counts_links(rt, alloc, parts, step)? {
            return Ok(Some(step));
        }
    }
    Ok(None)
}

// A list of links.
fn links_of(alloc: Global, links: &[(Ends, Source)]) -> Result<Vec<Link, Global>, NoMemory> {
    let mut list = Vec::new(alloc);
    for (ends, layer) in links {
        let Some(edge) = Edge::between(point(ends.0), point(ends.1)) else {
            return Err(NoMemory);
        };
        list.push(Link {
            edge,
            copies: Copies::one(*layer),
        })?;
    }
    Ok(list)
}

fn are_counted(list: &[Counted], expected: &[(Ends, u32, u32)]) -> bool {
    for (found, row) in list.iter().zip(expected) {
        let ((p, q), in_a, in_b) = *row;
        if (found.edge.p, found.edge.q) != (point(p), point(q))
            || (found.in_a, found.in_b) != (in_a, in_b)
        {
            return false;
        }
    }
    list.len() == expected.len()
}

// Whether few links in lists are counted in so many parts.
fn counts_few<R: Threads + Sync>(
    rt: &R,
    alloc: Global,
    parts: usize,
    links: &[&[(Ends, Source)]],
    expected: &[(Ends, u32, u32)],
) -> Result<bool, NoMemory> {
    let mut lists = Vec::new(alloc);
    for list in links {
        lists.push(InOrder::of(links_of(alloc, list)?))?;
    }
    let counted = counts_in_parts(rt, alloc, parts, lists)?;
    Ok(are_counted(&counted, expected))
}

fn counts_all_few<R: Threads + Sync>(
    rt: &R,
    alloc: Global,
    parts: usize,
) -> Result<bool, NoMemory> {
    for (links, expected) in LINKS {
        if !counts_few(rt, alloc, parts, links, expected)? {
            return Ok(false);
        }
    }
    Ok(true)
}

#[test]
fn few_links_are_counted(rt: HostRuntime) {
    for parts in [0, 1, 2, 3, 64] {
        assert_eq!(rt; counts_all_few(&rt, rt.alloc(), parts), Ok(true), "{parts}");
    }
}

#[test]
fn few_records_are_sorted(rt: HostRuntime) {
    assert_eq!(rt; sorts_few(rt.alloc()), Ok(true));
}

#[test]
fn records_are_sorted(rt: HostRuntime) {
    assert_eq!(rt; first_unsorted(rt.alloc()), Ok(None));
}

#[test]
fn links_are_counted(rt: HostRuntime) {
    for parts in [1, 2, 3, 4, 7] {
        assert_eq!(rt;
            first_miscounted(&rt, rt.alloc(), parts),
            Ok(None),
            "{parts}"
        );
    }
}
