//! Edges whose cover sets were worked out by hand.

ghost use Rattle.std.specs.Prelude.{◌≡◌, ◌<◌, All, IfOk, map};
ghost use Rattle.cover_law.specs.Cover.{AreBorders, bordered};
ghost use Rattle.cover_sets.specs.Sets.{IsNumber};
ghost use Rattle.cover_sets_tests.specs.Deciding.{IsListed, uncounted};

use crate::deciding::{are_below, are_borders, are_listed};
use crate::sets::has_just;
use cover_law::Border;
use cover_sets::{Covers, covers};
use geom::{Counted, Edge, NoMemory, Pt};
use label_sweep::swept_edges;
use std::alloc::{Allocator, Global};

/// An edge by its ends, the features whose border it is, and those that cover what is on its left and on its right.
type Row = (
    (i32, i32),
    (i32, i32),
    &'static [u32],
    &'static [u32],
    &'static [u32],
);

const LAYERS: [&[Row]; 7] = [
    &[],
    &TWO_SQUARES,
    &A_COMMON_SIDE,
    &NESTED_SQUARES,
    &TRIANGLES,
    &TWO_SQUARES_APART,
    &NO_BORDER,
];

/// Two squares that overlap.
const TWO_SQUARES: [Row; 12] = [
    ((0, 0), (0, 4), &[0], &[], &[0]),
    ((0, 0), (4, 0), &[0], &[0], &[]),
    ((0, 4), (2, 4), &[0], &[], &[0]),
    ((2, 2), (2, 4), &[1], &[0], &[0, 1]),
    ((2, 2), (4, 2), &[1], &[0, 1], &[0]),
    ((2, 4), (2, 6), &[1], &[], &[1]),
    ((2, 4), (4, 4), &[0], &[1], &[0, 1]),
    ((2, 6), (6, 6), &[1], &[], &[1]),
    ((4, 0), (4, 2), &[0], &[0], &[]),
    ((4, 2), (4, 4), &[0], &[0, 1], &[1]),
    ((4, 2), (6, 2), &[1], &[1], &[]),
    ((6, 2), (6, 6), &[1], &[1], &[]),
];

/// Two squares side by side: the side between them is a border of both.
const A_COMMON_SIDE: [Row; 7] = [
    ((0, 0), (0, 2), &[3], &[], &[3]),
    ((0, 0), (2, 0), &[3], &[3], &[]),
    ((0, 2), (2, 2), &[3], &[], &[3]),
    ((2, 0), (2, 2), &[3, 8], &[3], &[8]),
    ((2, 0), (4, 0), &[8], &[8], &[]),
    ((2, 2), (4, 2), &[8], &[], &[8]),
    ((4, 0), (4, 2), &[8], &[8], &[]),
];

/// A square inside another one.
const NESTED_SQUARES: [Row; 8] = [
    ((0, 0), (0, 9), &[5], &[], &[5]),
    ((0, 0), (9, 0), &[5], &[5], &[]),
    ((0, 9), (9, 9), &[5], &[], &[5]),
    ((3, 3), (3, 6), &[2], &[5], &[2, 5]),
    ((3, 3), (6, 3), &[2], &[2, 5], &[5]),
    ((3, 6), (6, 6), &[2], &[5], &[2, 5]),
    ((6, 3), (6, 6), &[2], &[2, 5], &[5]),
    ((9, 0), (9, 9), &[5], &[5], &[]),
];

/// Triangles round a vertex, two of them the same, and a line that is no border.
const TRIANGLES: [Row; 7] = [
    ((0, 0), (0, 4), &[0], &[], &[0]),
    ((0, 0), (4, -4), &[1, 2], &[1, 2], &[]),
    ((0, 0), (4, 0), &[1, 2], &[], &[1, 2]),
    ((0, 0), (4, 4), &[0], &[0], &[]),
    ((0, 4), (4, 4), &[0], &[], &[0]),
    ((4, -4), (4, 0), &[1, 2], &[1, 2], &[]),
    ((4, 4), (8, 8), &[], &[], &[]),
];

/// Squares one above the other.
const TWO_SQUARES_APART: [Row; 8] = [
    ((0, 0), (0, 2), &[1], &[], &[1]),
    ((0, 0), (2, 0), &[1], &[1], &[]),
    ((0, 2), (2, 2), &[1], &[], &[1]),
    ((0, 5), (0, 7), &[0], &[], &[0]),
    ((0, 5), (2, 5), &[0], &[0], &[]),
    ((0, 7), (2, 7), &[0], &[], &[0]),
    ((2, 0), (2, 2), &[1], &[1], &[]),
    ((2, 5), (2, 7), &[0], &[0], &[]),
];

/// A line that is no feature's border.
const NO_BORDER: [Row; 1] = [((0, 0), (4, 1), &[], &[], &[])];

fn point(at: (i32, i32)) -> Pt {
    Pt { x: at.0, y: at.1 }
}

/// The edges, and their features one after another.
fn borders_of<A: Allocator + Copy>(
    alloc: A,
    rows: &[Row],
) -> Result<(Vec<Border, A>, Vec<u32, A>), NoMemory> {
    let mut borders = Vec::new(alloc);
    let mut features = Vec::new(alloc);
    for (p, q, own, _, _) in rows {
        let Some(edge) = Edge::between(point(*p), point(*q)) else {
            return Err(NoMemory);
        };
        let from = features.len();
        features.extend_from_slice(own)?;
        borders.push(Border {
            edge,
            from,
            to: features.len(),
        })?;
    }
    Ok((borders, features))
}

/// The edges, which count in no layer.
fn uncounted<A: Allocator>(alloc: A, borders: &[Border]) -> Result<Vec<Counted, A>, NoMemory>
    ensures { IfOk result (λ counted. counted.items ≡ map uncounted borders.now) }
{
    let counted = borders
        .iter()
        .map(|b| Counted {
            edge: b.edge,
            in_a: 0,
            in_b: 0,
        })
        .collect(alloc)?;
    Ok(counted)
}

/// The cover sets on both sides of borders.
fn covered<A: Allocator + Copy>(
    alloc: A,
    borders: &[Border],
    features: &[u32],
) -> Result<Covers<A>, NoMemory>
    requires listed { All (IsListed features.now) borders.now }
    requires below { All (λ f. f < 2147483647) features.now }
    requires borders { AreBorders (map (bordered features.now) borders.now) }
    ensures left { IfOk result (λ c. All (IsNumber c.sets) c.left.items) }
    ensures right { IfOk result (λ c. All (IsNumber c.sets) c.right.items) }
{
    let counted = uncounted(alloc, borders)?;
    let swept = swept_edges(alloc, &counted)?;
    covers(alloc, borders, features, &swept)
}

/// Whether each row has the cover sets of its edge.
fn are_sides<A: Allocator + Copy>(
    alloc: A,
    covers: &Covers<A>,
    rows: &[Row],
) -> Result<bool, NoMemory>
    requires left { All (IsNumber covers.now.sets) covers.now.left.items }
    requires right { All (IsNumber covers.now.sets) covers.now.right.items }
{
    if covers.left.len() != rows.len() || covers.right.len() != rows.len() {
        return Ok(false);
    }
    for (k, row) in rows.iter().enumerate() {
        if !has_just(alloc, &covers.sets, covers.left[k], row.3)?
            || !has_just(alloc, &covers.sets, covers.right[k], row.4)?
        {
            return Ok(false);
        }
    }
    Ok(true)
}

fn have_sides(alloc: Global, rows: &[Row]) -> Result<bool, NoMemory> {
    let (borders, features) = borders_of(alloc, rows)?;
    if !are_listed(&borders, &features)
        || !are_below(&features)
        || !are_borders(&borders, &features)
    {
        return Ok(false);
    }
    let covers = covered(alloc, &borders, &features)?;
    are_sides(alloc, &covers, rows)
}

#[test]
fn edges_have_their_cover_sets(rt: HostRuntime) {
    for rows in LAYERS {
        assert!(rt; have_sides(rt.alloc(), rows) == Ok(true), "{}", rows.len());
    }
}
