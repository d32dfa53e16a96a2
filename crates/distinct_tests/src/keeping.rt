//! Segments with the same ends, of few and of a map of parcels.

use distinct::{Distinct, distinct, distinct_in_parts};
use geom::{NoMemory, Pt, Seg, Source};
use std::alloc::Global;
use std::thread::Threads;

type Ends = ((i32, i32), (i32, i32));

// Segments of layers, and those that are kept of them, with how many of A and of B they stand for.
const FEW: [(&[(Ends, Source)], &[(Ends, u16, u16)]); 5] = [
    (&[], &[]),
    (
        &[(((0, 0), (3, 1)), Source::B)],
        &[(((0, 0), (3, 1)), 0, 1)],
    ),
    (
        &[(((0, 0), (3, 1)), Source::A), (((0, 0), (3, 1)), Source::A)],
        &[(((0, 0), (3, 1)), 2, 0)],
    ),
    (
        &[
            (((0, 0), (3, 1)), Source::A),
            (((3, 1), (0, 0)), Source::A),
            (((3, 1), (0, 0)), Source::B),
        ],
        &[(((0, 0), (3, 1)), 2, 1)],
    ),
    (
        &[
            (((0, 0), (2, 0)), Source::A),
            (((2, 0), (2, 2)), Source::A),
            (((2, 2), (0, 0)), Source::A),
            (((2, 2), (2, 0)), Source::A),
            (((2, 0), (4, 1)), Source::A),
            (((4, 1), (2, 2)), Source::A),
        ],
        &[
            (((0, 0), (2, 0)), 1, 0),
            (((2, 0), (2, 2)), 2, 0),
            (((2, 2), (0, 0)), 1, 0),
            (((2, 0), (4, 1)), 1, 0),
            (((4, 1), (2, 2)), 1, 0),
        ],
    ),
];

// Segments of both layers of which no two have the same ends, and what is kept of them.
const APART: (&[(Ends, Source)], &[(Ends, u16, u16)]) = (
    &[
        (((0, 0), (2, 0)), Source::A),
        (((2, 0), (2, 2)), Source::B),
        (((2, 2), (0, 0)), Source::A),
        (((-1, -1), (1, 1)), Source::B),
    ],
    &[
        (((0, 0), (2, 0)), 1, 0),
        (((2, 0), (2, 2)), 0, 1),
        (((2, 2), (0, 0)), 1, 0),
        (((-1, -1), (1, 1)), 0, 1),
    ],
);

// A square map of so many rows of so many parcels.
const ROWS: i32 = 40;

// Its borders, of which each inner one stands in two rings: along the rows, and across them.
const BORDERS: usize = 3_280;

fn point(at: (i32, i32)) -> Pt {
    Pt { x: at.0, y: at.1 }
}

fn add(list: &mut Vec<Seg, Global>, ends: Ends, layer: Source) -> Result<(), NoMemory> {
    match Seg::new(point(ends.0), point(ends.1), layer) {
        Some(segment) => Ok(list.push(segment)?),
        None => Err(NoMemory),
    }
}

fn segments_of(alloc: Global, rows: &[(Ends, Source)]) -> Result<Vec<Seg, Global>, NoMemory> {
    let mut list = Vec::new(alloc);
    for (ends, layer) in rows {
        add(&mut list, *ends, *layer)?;
    }
    Ok(list)
}

fn are_kept(found: &Distinct<Global>, expected: &[(Ends, u16, u16)]) -> bool {
    for (place, (ends, in_a, in_b)) in expected.iter().enumerate() {
        let (Some(segment), Some(copies)) = (found.segments.get(place), found.copies.get(place))
        else {
            return false;
        };
        if (segment.a, segment.b) != (point(ends.0), point(ends.1))
            || (copies.in_a, copies.in_b) != (*in_a, *in_b)
        {
            return false;
        }
    }
    found.segments.len() == expected.len()
}

fn keeps_few(alloc: Global) -> Result<bool, NoMemory> {
    for (rows, expected) in FEW {
        let segments = segments_of(alloc, rows)?;
        if !are_kept(&distinct(alloc, segments)?, expected) {
            return Ok(false);
        }
    }
    Ok(true)
}

// Whether segments apart are all kept, in so many parts.
fn keeps_those_apart<R: Threads + Sync>(
    rt: &R,
    alloc: Global,
    parts: usize,
) -> Result<bool, NoMemory> {
    let (rows, expected) = APART;
    let segments = segments_of(alloc, rows)?;
    let found = distinct_in_parts(rt, alloc, parts, segments)?;
    Ok(are_kept(&found, expected))
}

// What is kept of one segment more than a count holds.
fn keeps_past_a_full_count(alloc: Global) -> Result<bool, NoMemory> {
    let ends = ((0, 0), (3, 1));
    let mut list = Vec::new(alloc);
    for _ in 0..65_536u32 {
        add(&mut list, ends, Source::B)?;
    }
    let expected = [(ends, 0, 65_535), (ends, 0, 1)];
    Ok(are_kept(&distinct(alloc, list)?, &expected))
}

// The four sides of the parcel with this lower left corner.
fn add_parcel(list: &mut Vec<Seg, Global>, x: i32, y: i32) -> Result<(), NoMemory> {
    let (right, top) = (x.wrapping_add(1), y.wrapping_add(1));
    add(list, ((x, y), (right, y)), Source::A)?;
    add(list, ((right, y), (right, top)), Source::A)?;
    add(list, ((right, top), (x, top)), Source::A)?;
    add(list, ((x, top), (x, y)), Source::A)
}

fn parcels(alloc: Global) -> Result<Vec<Seg, Global>, NoMemory> {
    let mut list = Vec::new(alloc);
    for y in 0..ROWS {
        for x in 0..ROWS {
            add_parcel(&mut list, x, y)?;
        }
    }
    Ok(list)
}

// How many segments of a map of parcels are kept in so many parts, and how many copies they have.
fn kept_of_parcels<R: Threads + Sync>(
    rt: &R,
    alloc: Global,
    parts: usize,
) -> Result<(usize, usize), NoMemory> {
    let segments = parcels(alloc)?;
    let found = distinct_in_parts(rt, alloc, parts, segments)?;
    let mut copies = 0usize;
    for more in &found.copies {
        copies = copies.saturating_add(more.all() as usize);
    }
    Ok((found.segments.len(), copies))
}

#[test]
fn few_segments_are_kept_once(rt: HostRuntime) {
    assert_eq!(rt; keeps_few(rt.alloc()), Ok(true));
}

#[test]
fn segments_apart_are_all_kept(rt: HostRuntime) {
    for parts in [1, 2, 3, 4] {
        assert_eq!(rt;
            keeps_those_apart(&rt, rt.alloc(), parts),
            Ok(true),
            "{parts}"
        );
    }
}

#[test]
fn a_full_count_begins_another(rt: HostRuntime) {
    assert_eq!(rt; keeps_past_a_full_count(rt.alloc()), Ok(true));
}

// The borders of rows of different parts are kept twice, and a table forgets few.
#[test]
fn borders_of_parcels_are_kept_once(rt: HostRuntime) {
    for parts in [0, 1, 2, 4] {
        let kept = kept_of_parcels(&rt, rt.alloc(), parts);
        let Ok((segments, copies)) = kept else {
            assert!(rt; false, "{parts}");
            return;
        };
        assert_eq!(rt; copies, 6_400, "{parts}");
        assert!(rt;
            segments >= BORDERS && segments <= 3_600,
            "{segments} in {parts}"
        );
    }
}
