//! Two features that overlap in one layer, and one in another, worked out by hand.

ghost use Rattle.std.specs.Prelude.{◌≡◌, All, AllPairs, IfOk};
ghost use Rattle.cover_sets.specs.Sets.{AreSets, IsNumber};
ghost use Rattle.rows.specs.Made.{AreReady};
ghost use Rattle.rows.specs.RowEdges.{IsRowEdgeBefore};
ghost use Rattle.rows.specs.RowSets.{AreRowSets};

use crate::ready::is_ready;
use cover_law::Border;
use cover_sets::{EMPTY, Sets};
use geom::{Edge, NoMemory, Pt};
use rows::{Row, RowEdges, count_ids, row_edges, rows_in_parts};
use std::alloc::{Allocator, Global};
use std::thread::Threads;
use wkt::write_multi;

/// Two ends of an edge, and the numbers of the features from 0 to before which they cover its left and its right.
const EDGES: [(i32, i32, i32, i32, usize, usize); 10] = [
    (0, 0, 0, 4, 0, 1),
    (0, 0, 2, 0, 1, 0),
    (0, 4, 2, 4, 0, 1),
    (2, 0, 2, 2, 1, 2),
    (2, 0, 4, 0, 2, 0),
    (2, 2, 2, 4, 1, 3),
    (2, 2, 4, 2, 3, 2),
    (2, 4, 4, 4, 0, 3),
    (4, 0, 4, 2, 2, 0),
    (4, 2, 4, 4, 3, 0),
];

/// Twice the area, the features and the text of each row.
const ROWS: [(i128, &[u32], &str); 3] = [
    (
        16,
        &[0],
        "MULTIPOLYGON (((0 0, 2 0, 2 2, 2 4, 0 4, 0 0)))\n",
    ),
    (8, &[0, 1], "MULTIPOLYGON (((2 0, 4 0, 4 2, 2 2, 2 0)))\n"),
    (
        8,
        &[0, 1, 2],
        "MULTIPOLYGON (((2 2, 4 2, 4 4, 2 4, 2 2)))\n",
    ),
];

/// One part alone, some, and more than there are rows.
const PARTS: [usize; 4] = [0, 1, 2, 64];

/// The sets of the first feature, of the first two and of all three, and before them the empty one.
fn numbers_of<A: Allocator + Copy>(alloc: A) -> Result<(Sets<A>, [u32; 4]), NoMemory>
    ensures sets { IfOk result (λ r. AreSets r.0) }
    ensures numbers { IfOk result (λ r. All (IsNumber r.0) r.1) }
{
    let mut sets = Sets::new(alloc);
    let first = sets.of(&[0])?;
    let two = sets.of(&[0, 1])?;
    let all = sets.of(&[0, 1, 2])?;
    Ok((sets, [EMPTY, first, two, all]))
}

fn is_row<A: Allocator + Copy>(
    alloc: A,
    row: &Row<A>,
    wanted: (i128, &[u32], &str),
) -> Result<bool, NoMemory> {
    let text = write_multi(alloc, row.polygons.as_slice())?;
    Ok(
        row.twice_area == wanted.0
            && row.features.as_slice() == wanted.1
            && text.as_slice() == wanted.2.as_bytes(),
    )
}

fn are_rows<A: Allocator + Copy>(alloc: A, rows: &[Row<A>]) -> Result<bool, NoMemory> {
    if rows.len() != ROWS.len() {
        return Ok(false);
    }
    for number in 0..ROWS.len() {
        if !is_row(alloc, &rows[number], ROWS[number])? {
            return Ok(false);
        }
    }
    Ok(true)
}

fn borders<A: Allocator>(alloc: A) -> Result<Vec<Border, A>, NoMemory> {
    let mut borders = Vec::new(alloc);
    for (px, py, qx, qy, _, _) in EDGES {
        let Some(edge) = Edge::between(Pt { x: px, y: py }, Pt { x: qx, y: qy }) else {
            return Err(NoMemory);
        };
        borders.push(Border {
            edge,
            from: 0,
            to: 0,
        })?;
    }
    Ok(borders)
}

/// The sets on one side of the edges.
fn sets_beside<A: Allocator>(
    alloc: A,
    numbers: &[u32; 4],
    on_left: bool,
) -> Result<Vec<u32, A>, NoMemory> {
    let mut beside = Vec::new(alloc);
    for (_, _, _, _, left, right) in EDGES {
        let count = if on_left { left } else { right };
        beside.push(numbers[count % 4])?;
    }
    Ok(beside)
}

fn edges_of<A: Allocator + Copy>(alloc: A, numbers: &[u32; 4]) -> Result<RowEdges<A>, NoMemory>
    ensures ascending { IfOk result (λ r. AllPairs IsRowEdgeBefore r.edges.items) }
    ensures sets { IfOk result (λ r. AreRowSets r.edges.items r.sets.items) }
{
    let borders = borders(alloc)?;
    let left = sets_beside(alloc, numbers, true)?;
    let right = sets_beside(alloc, numbers, false)?;
    if left.len() == borders.len() && right.len() == borders.len() {
        row_edges(alloc, &borders, &left, &right)
    } else {
        Err(NoMemory)
    }
}

/// Whether the rows made in so many parts, and the count of their features, are those that were worked out.
fn makes_rows<R: Threads + Sync>(
    rt: &R,
    alloc: Global,
    parts: usize,
    sets: &Sets<Global>,
    edges: &RowEdges<Global>,
) -> Result<bool, NoMemory>
    requires { AreReady sets.now edges.now.edges.items edges.now.sets.items }
{
    let rows = rows_in_parts(rt, alloc, parts, sets, edges)?;
    Ok(are_rows(alloc, &rows)? && count_ids(sets, edges) == 6)
}

/// Whether they are of the edges that were worked out, which are ready for their rows.
fn gives_rows<R: Threads + Sync>(rt: &R, alloc: Global, parts: usize) -> Result<bool, NoMemory> {
    let (sets, numbers) = numbers_of(alloc)?;
    let edges = edges_of(alloc, &numbers)?;
    Ok(is_ready(alloc, &sets, &edges, &numbers)? && makes_rows(rt, alloc, parts, &sets, &edges)?)
}

#[test]
fn worked_example(rt: HostRuntime) {
    for parts in PARTS {
        assert_eq!(rt; gives_rows(&rt, rt.alloc(), parts), Ok(true), "{parts}");
    }
}
