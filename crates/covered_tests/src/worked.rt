//! Features that overlap within a layer, worked out by hand.

ghost use Rattle.std.specs.Prelude.{◌≡◌, All, IfOk, length};
ghost use Rattle.cover_sets.specs.Sets.{AreSets, IsNumber};

use cover_law::Border;
use cover_sets::{Covers, EMPTY, Sets};
use covered::covered_edges;
use geom::{DirectedEdge, Edge, NoMemory, Op, Pt};
use std::alloc::{Allocator, Global};

/// Two ends of an edge, and the sets that cover its left and its right, by their places in `numbers_of`.
type Side = ((i32, i32), (i32, i32), usize, usize);

type Way = ((i32, i32), (i32, i32));

const NONE: usize = 0;

const FIRST: usize = 1;

const SECOND: usize = 2;

const FIRST_TWO: usize = 3;

const LAST_TWO: usize = 4;

const ALL: usize = 5;

/// The first feature is a square, and the second one overlaps its corner.
const TWO_SQUARES: [Side; 12] = [
    ((0, 0), (0, 4), NONE, FIRST),
    ((0, 0), (4, 0), FIRST, NONE),
    ((0, 4), (2, 4), NONE, FIRST),
    ((2, 2), (2, 4), FIRST, FIRST_TWO),
    ((2, 2), (4, 2), FIRST_TWO, FIRST),
    ((2, 4), (2, 6), NONE, SECOND),
    ((2, 4), (4, 4), SECOND, FIRST_TWO),
    ((2, 6), (6, 6), NONE, SECOND),
    ((4, 0), (4, 2), FIRST, NONE),
    ((4, 2), (4, 4), FIRST_TWO, SECOND),
    ((4, 2), (6, 2), SECOND, NONE),
    ((6, 2), (6, 6), SECOND, NONE),
];

/// The same, and a third feature that is a copy of the second one.
const WITH_A_COPY: [Side; 12] = [
    ((0, 0), (0, 4), NONE, FIRST),
    ((0, 0), (4, 0), FIRST, NONE),
    ((0, 4), (2, 4), NONE, FIRST),
    ((2, 2), (2, 4), FIRST, ALL),
    ((2, 2), (4, 2), ALL, FIRST),
    ((2, 4), (2, 6), NONE, LAST_TWO),
    ((2, 4), (4, 4), LAST_TWO, ALL),
    ((2, 6), (6, 6), NONE, LAST_TWO),
    ((4, 0), (4, 2), FIRST, NONE),
    ((4, 2), (4, 4), ALL, LAST_TWO),
    ((4, 2), (6, 2), LAST_TWO, NONE),
    ((6, 2), (6, 6), LAST_TWO, NONE),
];

/// Three copies of one square.
const COPIES: [Side; 4] = [
    ((0, 0), (0, 2), NONE, ALL),
    ((0, 0), (2, 0), ALL, NONE),
    ((0, 2), (2, 2), NONE, ALL),
    ((2, 0), (2, 2), ALL, NONE),
];

/// A square inside another one.
const NESTED: [Side; 8] = [
    ((0, 0), (0, 9), NONE, FIRST),
    ((0, 0), (9, 0), FIRST, NONE),
    ((0, 9), (9, 9), NONE, FIRST),
    ((3, 3), (3, 6), FIRST, FIRST_TWO),
    ((3, 3), (6, 3), FIRST_TWO, FIRST),
    ((3, 6), (6, 6), FIRST, FIRST_TWO),
    ((6, 3), (6, 6), FIRST_TWO, FIRST),
    ((9, 0), (9, 9), FIRST, NONE),
];

/// Round both squares.
const BOTH: [Way; 8] = [
    ((0, 0), (4, 0)),
    ((0, 4), (0, 0)),
    ((2, 4), (0, 4)),
    ((2, 6), (2, 4)),
    ((4, 0), (4, 2)),
    ((4, 2), (6, 2)),
    ((6, 2), (6, 6)),
    ((6, 6), (2, 6)),
];

/// Round the first square without the corner that the second one covers.
const WITHOUT_CORNER: [Way; 6] = [
    ((0, 0), (4, 0)),
    ((0, 4), (0, 0)),
    ((2, 2), (2, 4)),
    ((2, 4), (0, 4)),
    ((4, 0), (4, 2)),
    ((4, 2), (2, 2)),
];

const CORNER: [Way; 4] = [
    ((2, 2), (4, 2)),
    ((2, 4), (2, 2)),
    ((4, 2), (4, 4)),
    ((4, 4), (2, 4)),
];

const SQUARE: [Way; 4] = [
    ((0, 0), (2, 0)),
    ((0, 2), (0, 0)),
    ((2, 0), (2, 2)),
    ((2, 2), (0, 2)),
];

const OUTER: [Way; 4] = [
    ((0, 0), (9, 0)),
    ((0, 9), (0, 0)),
    ((9, 0), (9, 9)),
    ((9, 9), (0, 9)),
];

/// Round the outer square, and round the inner one as a hole.
const FRAME: [Way; 8] = [
    ((0, 0), (9, 0)),
    ((0, 9), (0, 0)),
    ((3, 3), (3, 6)),
    ((3, 6), (6, 6)),
    ((6, 3), (3, 3)),
    ((6, 6), (6, 3)),
    ((9, 0), (9, 9)),
    ((9, 9), (0, 9)),
];

/// Sides, how many of the features are of the first layer, an operation, and the directed edges of its result.
const CASES: [(&[Side], u32, Op, &[Way]); 12] = [
    (&TWO_SQUARES, 2, Op::Union, &BOTH),
    (&TWO_SQUARES, 0, Op::Union, &BOTH),
    (&TWO_SQUARES, 1, Op::Difference, &WITHOUT_CORNER),
    (&TWO_SQUARES, 1, Op::Intersection, &CORNER),
    (&WITH_A_COPY, 2, Op::Difference, &WITHOUT_CORNER),
    (&WITH_A_COPY, 2, Op::Union, &BOTH),
    (&COPIES, 3, Op::Union, &SQUARE),
    (&COPIES, 1, Op::Intersection, &SQUARE),
    (&COPIES, 1, Op::SymDifference, &[]),
    (&COPIES, 2, Op::Difference, &[]),
    (&NESTED, 2, Op::Union, &OUTER),
    (&NESTED, 1, Op::SymDifference, &FRAME),
];

/// The sets that the sides name.
fn numbers_of<A: Allocator + Copy>(alloc: A) -> Result<(Sets<A>, [u32; 6]), NoMemory>
    ensures sets { IfOk result (λ r. AreSets r.0) }
    ensures numbers { IfOk result (λ r. All (IsNumber r.0) r.1) }
{
    let mut sets = Sets::new(alloc);
    let first = sets.of(&[0])?;
    let second = sets.of(&[1])?;
    let first_two = sets.of(&[0, 1])?;
    let last_two = sets.of(&[1, 2])?;
    let all = sets.of(&[0, 1, 2])?;
    Ok((sets, [EMPTY, first, second, first_two, last_two, all]))
}

fn point(at: (i32, i32)) -> Pt {
    Pt { x: at.0, y: at.1 }
}

/// The edges, which have no features here: their cover sets are told.
fn borders_of<A: Allocator>(alloc: A, sides: &[Side]) -> Result<Vec<Border, A>, NoMemory>
    ensures { IfOk result (λ borders. length borders.items ≡ length sides.now) }
{
    let mut borders = Vec::new(alloc);
    for (p, q, _, _) in sides {
        let Some(edge) = Edge::between(point(*p), point(*q)) else {
            return Err(NoMemory);
        };
        borders.push(Border {
            edge,
            from: 0,
            to: 0,
        })?;
    }
    Ok(borders)
}

/// The numbers of the sets on the left and on the right of the edges.
fn numbers_beside<A: Allocator + Copy>(
    alloc: A,
    sets: &Sets<A>,
    numbers: [u32; 6],
    sides: &[Side],
) -> Result<(Vec<u32, A>, Vec<u32, A>), NoMemory>
    requires { All (IsNumber sets.now) numbers }
    ensures left { IfOk result (λ r. (length r.0.items ≡ length sides.now) × All (IsNumber sets.now) r.0.items) }
    ensures right { IfOk result (λ r. (length r.1.items ≡ length sides.now) × All (IsNumber sets.now) r.1.items) }
{
    let _sets = sets;
    let mut left = Vec::new(alloc);
    let mut right = Vec::new(alloc);
    for (_, _, on_left, on_right) in sides {
        left.push(numbers[*on_left % 6])?;
        right.push(numbers[*on_right % 6])?;
    }
    Ok((left, right))
}

/// Whether these are the directed edges that were worked out.
fn are_ways(directed: &[DirectedEdge], ways: &[Way]) -> bool {
    directed.len() == ways.len()
        && directed.iter().zip(ways).all(|(d, (from, to))| d.from == point(*from)
            && d.to == point(*to))
}

fn gives(
    alloc: Global,
    sides: &[Side],
    split: u32,
    op: Op,
    ways: &[Way],
) -> Result<bool, NoMemory> {
    let (sets, numbers) = numbers_of(alloc)?;
    let borders = borders_of(alloc, sides)?;
    let (left, right) = numbers_beside(alloc, &sets, numbers, sides)?;
    let covers = Covers { sets, left, right };
    let directed = covered_edges(alloc, op, split, &borders, &covers)?;
    Ok(are_ways(&directed, ways))
}

#[test]
fn results_of_layers_that_overlap(rt: HostRuntime) {
    for (number, (sides, split, op, ways)) in CASES.into_iter().enumerate() {
        assert!(rt;
            gives(rt.alloc(), sides, split, op, ways) == Ok(true),
            "{number}"
        );
    }
}
