//! The noding test over tiles, by two workers.

use crate::rows::{Row, tested};
use geom::{Edge, Fault, NoMemory, Pt};
use holding::Holding;
use linking::Rounded;
use noding_test::noded;
use std::alloc::Global;
use std::sync::Wait;
use std::thread::Threads;
use tile_book::{Gate, OpenGate, Phase};
use tiling::Grid;

type Ends = ((i32, i32), (i32, i32));

/// The corners of the edges' box, the edges, and the least bad pair.
type Case = (Ends, &'static [Ends], Option<(Ends, Ends)>);

const CASES: [Case; 8] = [
    (
        ((0, 0), (8, 4)),
        &[((0, 0), (4, 4)), ((4, 4), (8, 0))],
        None,
    ),
    (
        ((0, 0), (4, 4)),
        &[((0, 0), (4, 4)), ((0, 4), (4, 0))],
        Some((((0, 0), (4, 4)), ((0, 4), (4, 0)))),
    ),
    (
        ((0, 0), (6, 0)),
        &[((0, 0), (4, 0)), ((2, 0), (6, 0))],
        Some((((0, 0), (4, 0)), ((2, 0), (6, 0)))),
    ),
    (
        ((0, 0), (4, 3)),
        &[((0, 0), (4, 0)), ((2, 0), (2, 3))],
        Some((((0, 0), (4, 0)), ((2, 0), (2, 3)))),
    ),
    (
        ((0, 0), (8, 0)),
        &[((0, 0), (4, 0)), ((0, 0), (8, 0))],
        Some((((0, 0), (4, 0)), ((0, 0), (8, 0)))),
    ),
    (
        ((0, 0), (8, 0)),
        &[((0, 0), (4, 0)), ((5, 0), (8, 0))],
        None,
    ),
    (((0, 0), (36, 4)), &TWO_CROSSES, FIRST_CROSS),
    (
        ((0, 0), (40, 40)),
        &[((0, 0), (40, 40)), ((0, 20), (40, 20)), ((0, 40), (40, 0))],
        Some((((0, 0), (40, 40)), ((0, 20), (40, 20)))),
    ),
];

/// A bad pair in the first of three tiles, and one in the last.
const TWO_CROSSES: [Ends; 4] = [
    ((0, 0), (4, 4)),
    ((0, 4), (4, 0)),
    ((32, 0), (36, 4)),
    ((32, 4), (36, 0)),
];

const FIRST_CROSS: Option<(Ends, Ends)> = Some((((0, 0), (4, 4)), ((0, 4), (4, 0))));

fn point(at: (i32, i32)) -> Pt {
    Pt { x: at.0, y: at.1 }
}

fn ends_of(edge: &Edge) -> Ends {
    ((edge.p.x, edge.p.y), (edge.q.x, edge.q.y))
}

/// These edges, each once in layer A.
fn rows_of(alloc: Global, ends: &[Ends]) -> Result<Vec<Row>, NoMemory> {
    let mut rows = Vec::new(alloc);
    for (p, q) in ends {
        rows.push((p.0, p.1, q.0, q.1, 1, 0))?;
    }
    Ok(rows)
}

/// The bad pair that `noded` names; none where it answers as many edges.
fn bad_pair<G: Gate + Sync, R: Threads + Wait + Sync>(
    rt: &R,
    alloc: Global,
    corners: Ends,
    ends: &[Ends],
    gate: &G,
) -> Result<Option<(Ends, Ends)>, NoMemory> {
    let rows = rows_of(alloc, ends)?;
    let corners = (point(corners.0), point(corners.1));
    match tested(rt, alloc, corners, &rows, gate)? {
        Ok(noded) if noded.edges.len() == ends.len() => Ok(None),
        Err(Fault::NotNoded(e, f)) => Ok(Some((ends_of(&e), ends_of(&f)))),
        _ => Err(NoMemory),
    }
}

#[test]
fn names_the_least_bad_pair(rt: HostRuntime) {
    for (corners, ends, bad) in CASES {
        let named = bad_pair(&rt, rt.alloc(), corners, ends, &OpenGate);
        assert_eq!(rt; named, Ok(bad), "{corners:?}");
    }
}

/// Whether no edges are noded, over a grid without tiles.
fn none_are_noded<R: Threads + Wait + Sync>(rt: &R, alloc: Global) -> Result<bool, NoMemory> {
    let Ok(grid) = Grid::new(None, 16) else {
        return Err(NoMemory);
    };
    let rounded = Rounded::of_edges(alloc, &[])?;
    Ok(noded(rt, alloc, rounded, &grid, 2, &OpenGate).is_ok())
}

#[test]
fn no_edges_are_noded(rt: HostRuntime) {
    assert_eq!(rt; none_are_noded(&rt, rt.alloc()), Ok(true));
}

/// Whether the pair of tile 0 is named though its verdict is posted behind that of tile 2.
fn names_the_last<R: Threads + Wait + Sync>(rt: &R, alloc: Global) -> Result<bool, NoMemory> {
    let gate = Holding::until(Phase::Node, 2);
    let named = bad_pair(rt, alloc, ((0, 0), (36, 4)), &TWO_CROSSES, &gate)?;
    Ok(named == FIRST_CROSS && gate.has_seen())
}

#[test]
fn names_it_though_found_last(rt: HostRuntime) {
    assert_eq!(rt; names_the_last(&rt, rt.alloc()), Ok(true));
}
